// Files to texts.
ghost use Rattle.std.specs.Prelude.{◌≡◌, Some, length};
ghost use Rattle.drawing.specs.Decoding.{Decodes};
ghost use Rattle.drawing.specs.Lines.{lines_of};
ghost use Rattle.drawing.specs.Shown.{no_text_words};

use std::fmt;
use std::str::from_utf8;

// The line of the first byte that is no UTF-8, counted from 1.
#[derive(Clone, Copy, PartialEq, Debug)]
pub struct NoText {
    pub line: usize,
}

impl fmt::Display for NoText {
    ghost output = { λ n. Some (no_text_words n) };

    fn fmt<W: fmt::Write>(&self, f: &mut fmt::Formatter<W>) -> fmt::Result {
        let line = self.line;
        write!(
            f,
            "line {line}: found a byte that is no UTF-8, expected text"
        )
    }
}

// How many lines there are.
pub fn count_lines(bytes: &[u8]) -> usize
    ensures { result ≡ length (lines_of bytes.now) }
{
    bytes.iter().filter(|b| **b == b'\n').count() + 1
}

// The text of a file's bytes, or the line of the first byte that is no UTF-8.
pub fn decode(bytes: &[u8]) -> Result<&str, NoText>
    ensures { Decodes bytes.now result }
{
    from_utf8(bytes).map_err(|e| NoText {
        line: count_lines(&bytes[..e.valid_up_to()]),
    })
}
