//! Serials of branches, and keys of files, as keys of hash tables.
#![tactic(auto)]

mod key;
mod place;

pub use key::BranchKey;
pub use place::Place;
