// The lines that tell two states apart, in lent words.
#![tactic(auto)]

mod joining;
mod line;
mod marking;
mod needs;
mod telling;
mod terms;

pub use line::{Line, Says, write_line};
pub use marking::mark;
pub use needs::Needs;
pub use telling::tell;
pub use terms::find_terms;
