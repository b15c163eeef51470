// Machines in words, with their transitions chained by source.
#![tactic(auto)]

mod blocks;
mod chaining;
mod labels;
mod representing;
mod system;
mod walk;

pub use blocks::{Blocks, Representatives, unmatched};
pub use chaining::chain;
pub use labels::{add_label, empty, has_label};
pub use representing::represent;
pub use system::{State, System};
pub use walk::Walk;
