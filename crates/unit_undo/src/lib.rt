//! Recovery units are undone: each key that a unit changed has again the earliest before image that the journal keeps of it, in as many groups as that takes.
//! It reads the journal and not memory, so it may be begun again after a stop anywhere.
#![tactic(auto)]

mod undoing;

pub use undoing::undo_unit;
