// Rounds of partition refinement in lent words.
#![tactic(auto)]

mod apart;
mod lending;
mod parted;
mod refined;
mod round;
mod settling;

pub use lending::refine;
pub use parted::Parted;
pub use refined::{Counts, Refined};
