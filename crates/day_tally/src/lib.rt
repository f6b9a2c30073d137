//! What is counted of the lines of a day, and what is written for it.
#![tactic(auto)]

mod answers;
mod counter;
mod counts;
mod summary;

pub use answers::Answer;
pub use counter::LineCounter;
pub use counts::{Counts, Ended, stops};
pub use summary::write_end;
