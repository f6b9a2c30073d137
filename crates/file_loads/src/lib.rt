//! Records in the order of their keys, loaded into the free buckets of a file's extent.
#![tactic(auto)]

mod chain;
mod group;
mod index;
mod loads;
mod relative;

pub use loads::{LoadErr, load};
