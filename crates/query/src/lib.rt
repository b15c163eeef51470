// Questions and answers as text: one question a line, one answer a line.
#![tactic(auto)]

mod answer;
mod options;
mod plan;
mod question;
mod words;

pub use answer::Answer;
pub use options::parse_options;
pub use plan::{Command, Fault, Lending, Options};
pub use question::{MOST_LENT, MOST_WORDS, ask};
pub use words::{NoWords, number, read_words};
