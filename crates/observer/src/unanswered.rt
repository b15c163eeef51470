// Why a question is not answered.
ghost use Rattle.std.specs.Prelude.{Some};
ghost use Rattle.observer.specs.Unanswered.{unanswered_words};

use std::fmt;

// The words encode none, or too few words are lent.
#[derive(Clone, Copy, PartialEq, Debug)]
pub enum Unanswered {
    NoMachine,
    Few,
}

impl fmt::Display for Unanswered {
    ghost output = { λ u. Some (unanswered_words u) };

    fn fmt<W: fmt::Write>(&self, f: &mut fmt::Formatter<W>) -> fmt::Result {
        match self {
            Unanswered::NoMachine => write!(f, "no machine"),
            Unanswered::Few => write!(f, "few words"),
        }
    }
}
