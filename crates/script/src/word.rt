// Words of a line: white space, names without quotes and names in quotes.
ghost use Rattle.std.specs.Prelude.{◌≡◌, ℕ, ◌<◌, ◌≤◌, length, true, false, slice_index};
ghost use Rattle.script.specs.Grammar.{bare, gap, named, plain, quoted, skip, unquoted};
ghost use Rattle.script.specs.Words.{worded};

use crate::{Expected, Fault};

// A name, whether it was quoted, and what follows it.
#[derive(Clone, Copy)]
pub struct Word<'a> {
    pub name: &'a str,
    // Kept: with quotes or without, a word has a name, and only keyed_name asks which.
    pub quoted: bool,
    pub rest: &'a str,
}

// May stand in a name without quotes.
fn is_plain(b: u8) -> bool
    ensures { result ≡ plain b }
{
    b > b' ' && !matches!(b, b'"' | b'#' | b':' | 0x7f)
}

// How many bytes a name without quotes takes.
pub fn bare_len(bytes: &[u8]) -> usize
    ensures { result ≡ bare bytes.now }
{
    for (n, b) in bytes.iter().enumerate() {
        if !is_plain(*b) || bytes[n..].starts_with(b"->") {
            return n;
        }
    }
    bytes.len()
}

// White space within a line.
fn is_gap(b: u8) -> bool
    ensures { result ≡ gap b }
{
    matches!(b, b' ' | b'\t' | b'\r')
}

// How many bytes of white space stand in front.
// Kept: bytes. By characters, as the library trims, long white space takes twice the time.
fn gap_len(bytes: &[u8]) -> usize
    ensures within { result ≤ length bytes.now }
    ensures gaps { (k : ℕ) → k < result → gap (slice_index bytes.now k) ≡ true }
    ensures end { result < length bytes.now → gap (slice_index bytes.now result) ≡ false }
{
    bytes
        .iter()
        .position(|b| !is_gap(*b))
        .unwrap_or(bytes.len())
}

// What follows the white space in front.
pub fn skip_gap(text: &str) -> &str
    ensures { result.now ≡ skip text.now }
{
    let (_, rest) = text.split_at(gap_len(text.as_bytes()));
    rest
}

// The name in quotes that ends at the first quote of `inner`. Its opening quote stands at `at`.
fn quoted_name<'a>(at: &'a str, inner: &'a str) -> Result<Word<'a>, Fault<'a>>
    ensures { worded result ≡ quoted at.now (unquoted inner.now) }
{
    let Some((name, rest)) = inner.split_once('"') else {
        return Err(Expected::Quote.at(at));
    };
    if name.is_empty() {
        return Err(Expected::Letters.at(at));
    }
    Ok(Word {
        name,
        quoted: true,
        rest,
    })
}

// The name that stands at the front.
pub fn first_word(text: &str) -> Result<Word<'_>, Fault<'_>>
    ensures { worded result ≡ named text.now }
{
    if let Some(inner) = text.strip_prefix('"') {
        return quoted_name(text, inner);
    }
    let (name, rest) = text.split_at(bare_len(text.as_bytes()));
    if name.is_empty() {
        return Err(Expected::Name.at(text));
    }
    Ok(Word {
        name,
        quoted: false,
        rest,
    })
}
