// Refusals in plain words.
ghost use Rattle.std.specs.Prelude.{◌≡◌, ◌<◌, Some};
ghost use Rattle.drawing.specs.Shown.{until, first_word, finding, grouped, reason_words, refusal_words, trouble_words};

use crate::{Reason, Refusal, Trouble};
use std::fmt;

// The first word, up to white space.
fn first_word(text: &str) -> &str
    ensures { result.now ≡ first_word text.now }
{
    match text.split_once([' ', '\t', '\r']) {
        Some((word, _)) => word,
        None => text,
    }
}

// What was found on a line.
#[derive(Drop)]
struct Found<'a>(&'a str);

impl fmt::Display for Found<'_> {
    ghost output = { λ f. Some (finding f.0.now) };

    fn fmt<W: fmt::Write>(&self, f: &mut fmt::Formatter<W>) -> fmt::Result {
        if self.0.is_empty() {
            return write!(f, "the end of the line");
        }
        let word = first_word(self.0);
        write!(f, "'{word}'")
    }
}

// How many there are.
#[derive(Drop)]
struct Count(usize);

impl fmt::Display for Count {
    ghost output = { λ c. Some (grouped c.0) };

    fn fmt<W: fmt::Write>(&self, f: &mut fmt::Formatter<W>) -> fmt::Result {
        let n = self.0;
        if n < 1_000 || n >= 1_000_000 {
            return write!(f, "{n}");
        }
        let thousands = n / 1_000;
        let rest = n % 1_000;
        write!(f, "{thousands},{rest:03}")
    }
}

impl fmt::Display for Reason<'_> {
    ghost output = { λ r. Some (reason_words r) };

    fn fmt<W: fmt::Write>(&self, f: &mut fmt::Formatter<W>) -> fmt::Result {
        match *self {
            Reason::Unexpected(expected, found) => {
                let found = Found(found);
                write!(f, "found {found}, expected {expected}")
            }
            Reason::SecondMachine => write!(f, "a second machine line; a drawing has one title"),
            Reason::SecondStart => write!(f, "a second start line; a machine starts in one state"),
            Reason::NoStart => write!(
                f,
                "no start line; write start in front of the state where the machine starts"
            ),
            Reason::UnknownStart(name) => write!(
                f,
                "it starts in '{name}', which is no state of the drawing"
            ),
            Reason::TooManyStates(n) => {
                let count = Count(n);
                write!(f, "{count} states; at most 4,096 can be compared")
            }
            Reason::TooManyArrows(n) => {
                let count = Count(n);
                write!(f, "{count} transitions; at most 16,384 can be compared")
            }
            Reason::TooManyButtons(n) => {
                let count = Count(n);
                write!(f, "{count} buttons; at most 64 can be compared")
            }
        }
    }
}

impl fmt::Display for Refusal<'_> {
    ghost output = { λ f. Some (refusal_words f) };

    fn fmt<W: fmt::Write>(&self, f: &mut fmt::Formatter<W>) -> fmt::Result {
        let line = self.line;
        let reason = self.reason;
        write!(f, "line {line}: {reason}")
    }
}

impl fmt::Display for Trouble<'_> {
    ghost output = { λ t. Some (trouble_words t) };

    fn fmt<W: fmt::Write>(&self, f: &mut fmt::Formatter<W>) -> fmt::Result {
        match *self {
            Trouble::Refused(refusal) => write!(f, "{refusal}"),
            Trouble::Memory => write!(f, "not enough memory for the drawing"),
        }
    }
}
