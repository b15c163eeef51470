// Questions about machines, as words that a caller lends.
#![tactic(auto)]

mod asked;
mod compared;
mod comparison;
mod measured;
mod reading;
mod room;
mod unanswered;

pub use asked::Asked;
pub use compared::compare;
pub use comparison::Compared;
pub use measured::measure;
pub use reading::read;
pub use room::to_lend;
pub use unanswered::Unanswered;
