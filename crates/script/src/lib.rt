// Lines of a drawing: what each says, or what is wrong with it.
#![tactic(auto)]

ghost use Rattle.std.specs.Prelude.{◌≡◌, ◌++◌, Some, string_bytes, OnOk};
ghost use Rattle.script.specs.Grammar.{meaning, reading};
ghost use Rattle.script.specs.Printed.{ReadsBack, expectation, written};

use line::{arrow_from, is_ended, keyed_name};
use std::alloc::AllocError;
use std::fmt;
use word::{bare_len, first_word, skip_gap};

mod line;
mod word;

// What a line says.
#[derive(Clone, Copy, Debug, PartialEq, Eq)]
pub enum Statement<'a> {
    Blank,
    Machine(&'a str),
    Start(&'a str),
    State(&'a str),
    Arrow(&'a str, &'a str, &'a str),
}

// What should have stood there.
#[derive(Clone, Copy, Debug, PartialEq, Eq)]
pub enum Expected {
    Name,
    Letters,
    Quote,
    Colon,
    Sign,
    End,
}

// What was expected, and what is left of the line from there on.
#[derive(Clone, Copy, Debug, PartialEq, Eq)]
pub struct Fault<'a> {
    pub expected: Expected,
    pub found: &'a str,
}

impl Expected {
    // A fault: this was expected, and that was found.
    fn at(self, found: &str) -> Fault<'_>
        ensures expected { result.expected ≡ self }
        ensures found { result.found.now ≡ found.now }
    {
        Fault {
            expected: self,
            found,
        }
    }

    // What was expected, in plain words.
    fn words(self) -> &'static str
        ensures { result.now ≡ expectation self }
    {
        match self {
            Expected::Name => "a name",
            Expected::Letters => "a name with letters in it",
            Expected::Quote => "a closing quote",
            Expected::Colon => "':' after a state, or machine, start or state in front of a name",
            Expected::Sign => "'->' after a button",
            Expected::End => "the end of the line or a comment",
        }
    }
}

// Says in plain words what was expected.
impl fmt::Display for Expected {
    ghost output = { λ e. Some (expectation e) };

    fn fmt<W: fmt::Write>(&self, f: &mut fmt::Formatter<W>) -> fmt::Result {
        let words = self.words();
        write!(f, "{words}")
    }
}

// What a line says, or what is expected where.
#[tactic(auto, unfolding(crate::specs::Grammar::reading))]
pub fn parse_line(line: &str) -> Result<Statement<'_>, Fault<'_>>
    ensures { meaning result ≡ reading line.now }
{
    let text = skip_gap(line);
    if is_ended(text) {
        return Ok(Statement::Blank);
    }
    let first = first_word(text)?;
    let at = skip_gap(first.rest);
    match at.strip_prefix(':') {
        Some(after) => arrow_from(first.name, after),
        None => keyed_name(first, at),
    }
}

// Appends a name as it is written: bare where that is read as one, else in quotes.
#[tactic(auto, using(crate::proofs::Roundtrip::reading_printed))]
pub fn push_name(out: &mut String, name: &str) -> Result<(), AllocError>
    ensures bytes { OnOk result (string_bytes out.new ≡ string_bytes out.old ++ written name.now) }
    ensures again { ReadsBack }
{
    if bare_len(name.as_bytes()) == name.len() {
        return out.push_str(name);
    }
    out.push('"')?;
    out.push_str(name)?;
    out.push('"')
}
