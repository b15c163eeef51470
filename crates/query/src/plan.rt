// What the arguments can ask for.
ghost use Rattle.std.specs.Prelude.{◌≡◌, is_some, if◌then◌else◌};

// How many words there are room for: for lines, and to lend; as many as a question asks for, if it is not said.
#[derive(Clone, Copy, Debug, PartialEq, Eq)]
pub struct Options {
    pub lines: usize,
    pub work: Option<usize>,
}

// To answer questions, or to say how to ask them.
#[derive(Clone, Copy, Debug, PartialEq, Eq)]
pub enum Command {
    Answer(Options),
    Help,
}

// What is wrong with the arguments.
#[derive(Clone, Copy, Debug, PartialEq, Eq)]
pub enum Fault<'a> {
    Unknown(&'a str),
    NoNumber(&'a str, &'a str),
    Nothing(&'a str),
}

// How much is lent for a question: all that there is, or as much as the rule asks for.
// Kept: at a call the names say what a bool, or the Option that they come from, would not.
#[derive(Clone, Copy, Debug, PartialEq, Eq)]
pub enum Lending {
    Whole,
    ByRule,
}

impl Options {
    // All that is given is lent; where none is given, what the rule asks for.
    pub fn lending(&self) -> Lending
        ensures { result ≡ (if is_some self.now.work then Lending.Whole else Lending.ByRule) }
    {
        match self.work {
            Some(_) => Lending::Whole,
            None => Lending::ByRule,
        }
    }
}
