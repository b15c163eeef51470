// What happens when a formula is added: its terms, who satisfies it, rows and leaders.
#![tactic(auto)]

mod adding;
mod answers;
mod birth;
mod extend;
mod hold;
mod split;

pub use adding::add_formula;
pub use answers::{Answers, row};
pub use birth::Birth;
