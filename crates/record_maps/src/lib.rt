//! The records of a file in memory, in the order of their keys.
#![tactic(auto)]

mod key;
mod map;

pub use map::RecordMap;
