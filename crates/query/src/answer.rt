// Answers as text.
ghost use Rattle.std.specs.Prelude.{◌≡◌, ◌*◌, take, Some};
ghost use Rattle.std.specs.Fmt.{WritesOnOk};
ghost use Rattle.query.specs.Answers.{answer_words, name_words, after_blanks};

use observer::Compared;
use std::fmt;

// What was found out, and the words that tell it.
#[derive(Clone, Copy)]
pub struct Answer<'a> {
    pub compared: Compared,
    pub lines: &'a [u32],
}

// What an answer is called.
// Kept: no Display, since the type is the observer's and the words are those of this text.
fn name(compared: Compared) -> &'static str
    ensures { result.now ≡ name_words compared }
{
    match compared {
        Compared::Same => "same",
        Compared::Differ(..) => "differ",
        Compared::OutFull(..) => "lines full",
        Compared::NoMachine => "no machine",
        Compared::Few => "few",
    }
}

// The words of so many lines, or all that there are.
fn told(lines: &[u32], count: usize) -> &[u32]
    ensures { result.now ≡ take (3 * count) lines.now }
{
    let end = lines.len().min(count.saturating_mul(3));
    &lines[0..end]
}

// Each word with a blank before it.
fn show_words<W: fmt::Write>(words: &[u32], f: &mut fmt::Formatter<W>) -> fmt::Result
    ensures { WritesOnOk W.write_str_gives f.old result (after_blanks words.now) f.new }
{
    for word in words {
        write!(f, " {word}")?;
    }
    Ok(())
}

// An answer as it is written on a line.
impl fmt::Display for Answer<'_> {
    ghost output = { λ a. Some (answer_words a.compared a.lines.now) };

    fn fmt<W: fmt::Write>(&self, f: &mut fmt::Formatter<W>) -> fmt::Result {
        let name = name(self.compared);
        write!(f, "{name}")?;
        if let Compared::Differ(depth, count) = self.compared {
            write!(f, " {depth} {count}")?;
            return show_words(told(self.lines, count), f);
        }
        // Kept: an enum with numbers is taken apart by let .. else here, as a rule of the project has it.
        let Compared::OutFull(depth, count) = self.compared else {
            return Ok(());
        };
        write!(f, " {depth} {count}")
    }
}
