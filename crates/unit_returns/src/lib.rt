//! Prepared branches are units again after a restart: with their changes in the journal, and the keys that they changed.
#![tactic(auto)]

mod locking;
mod reading;
mod returning;

pub use returning::take_units;
