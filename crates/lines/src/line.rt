// Lines of a sentence, as three words each.
ghost use Rattle.std.specs.Prelude.{◌≡◌, ◌+◌, ◌*◌, ◌≤◌, length};
ghost use Rattle.lts.specs.Line.{line_words};
ghost use Rattle.lines.specs.Written.{line_of, LineWritten};

// The number of a line.
#[derive(Clone, Copy)]
pub struct Line(pub u32);

// What a line says, by the lines that it uses.
#[derive(Clone, Copy)]
pub enum Says {
    Top,
    Not(Line),
    Both(Line, Line),
    Can(u32, Line),
}

// The three words of a line.
impl From<Says> for [u32; 3] {
    ghost from_gives = { λ says words. words ≡ line_words (line_of says) };

    fn from(says: Says) -> [u32; 3] {
        match says {
            Says::Top => [0, 0, 0],
            Says::Not(Line(one)) => [1, one, 0],
            Says::Both(Line(one), Line(other)) => [2, one, other],
            Says::Can(label, Line(then)) => [3, label, then],
        }
    }
}

// Writes a line at its place, and nothing else.
pub fn write_line(lines: &mut [u32], at: usize, says: Says)
    requires { 3 * at + 3 ≤ length lines.old }
    ensures { LineWritten lines.old at (line_of says) lines.new }
{
    lines[3 * at..3 * at + 3].copy_from_slice(&<[u32; 3]>::from(says));
}
