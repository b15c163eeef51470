// The words of a question as text: numbers in decimal, with blanks between.
ghost use Rattle.std.specs.Prelude.{◌≡◌, ℕ, ◌<◌, ◌≤◌, length, true, false, slice_index, IfOk, Some};
ghost use Rattle.query.specs.Reading.{blank, number_of, reading, skip, ReadsBack};
ghost use Rattle.query.specs.Code.{meaning, refusal_words};

use std::alloc::AllocError;
use std::fmt;

// A word that is no number, and which word of its line it is, counted from 1.
#[derive(Clone, Copy, Debug, PartialEq, Eq)]
pub struct NoWords<'a> {
    pub found: &'a str,
    pub place: usize,
}

// Says what stands where, and what was expected.
impl fmt::Display for NoWords<'_> {
    ghost output = { λ w. Some (refusal_words w) };

    fn fmt<W: fmt::Write>(&self, f: &mut fmt::Formatter<W>) -> fmt::Result {
        let found = self.found;
        let place = self.place;
        write!(
            f,
            "no words: found '{found}', expected a number below 4294967296, at word {place}"
        )
    }
}

// Stands between words.
fn is_blank(b: u8) -> bool
    ensures { result ≡ blank b }
{
    matches!(b, b' ' | b'\t')
}

// How many blanks stand in front.
// Kept: bytes. By characters, as the library trims, long runs of blanks take twice the time.
fn blank_len(bytes: &[u8]) -> usize
    ensures within { result ≤ length bytes.now }
    ensures blanks { (k : ℕ) → k < result → blank (slice_index bytes.now k) ≡ true }
    ensures end { result < length bytes.now → blank (slice_index bytes.now result) ≡ false }
{
    bytes
        .iter()
        .position(|b| !is_blank(*b))
        .unwrap_or(bytes.len())
}

// What follows the blanks in front.
fn skip_blanks(text: &str) -> &str
    ensures { result.now ≡ skip text.now }
{
    let (_, rest) = text.split_at(blank_len(text.as_bytes()));
    rest
}

// How many bytes stand before the first blank.
fn word_len(bytes: &[u8]) -> usize
    ensures within { result ≤ length bytes.now }
    ensures word { (k : ℕ) → k < result → blank (slice_index bytes.now k) ≡ false }
    ensures end { result < length bytes.now → blank (slice_index bytes.now result) ≡ true }
{
    bytes
        .iter()
        .position(|b| is_blank(*b))
        .unwrap_or(bytes.len())
}

// The number below 2^32 that a word is in decimal, if it is one.
pub fn number(word: &str) -> Option<u32>
    ensures { result ≡ number_of word.now }
{
    if word.starts_with('+') {
        return None;
    }
    word.parse().ok()
}

// Puts the words of a line in place of what `words` holds, or says which word is no number.
// Kept: the outer error is memory's, which callers pass up; the inner one is what they tell of the line.
// Kept: a loop over what is left. A `for` over the line split at each blank takes more than twice the time on a line of many blanks.
pub fn read_words<'a>(
    line: &'a str,
    words: &mut Vec<u32>,
) -> Result<Result<(), NoWords<'a>>, AllocError>
    ensures exact { IfOk result (λ got. meaning got words.new.items ≡ reading line.now) }
    ensures again { ReadsBack }
{
    words.clear();
    let mut rest = skip_blanks(line);
    while !rest.is_empty() {
        let (word, more) = rest.split_at(word_len(rest.as_bytes()));
        let Some(n) = number(word) else {
            let place = words.len() + 1;
            return Ok(Err(NoWords { found: word, place }));
        };
        words.push(n)?;
        rest = skip_blanks(more);
    }
    Ok(Ok(()))
}
