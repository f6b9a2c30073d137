//! Copies of runs of blocks within a disk, by which a file is saved.
#![tactic(auto)]

mod copying;

pub use copying::copy;
