//! Which entries of a file's journal of images a recovery uses.
#![tactic(auto)]

mod branches;
mod places;

pub use places::{applied, undone};
