//! Definitions of what stands over a node's disk, and of what a task comes to at a node, by what is kept of it and by what its lines tell.
//!
//! The crate has definitions, and nothing that runs. `specs/Standing` has what a node stands for, `specs/Holding` what a disk holds from one state to a later
//! one, `specs/Keeping` what a task comes to in the world, `specs/Telling` what its lines tell, and `specs/Moments` which moments can be shown.
#![tactic(auto)]

pub use node_table::Stored;
