//! The laws by which a node of the world and its volume stay one over acts that no recovery unit takes part in.
//!
//! The crate has laws, and nothing that runs.
#![tactic(auto)]

ghost use Rattle.recovery_units.specs.Laws.{KeepsNodes};

/// A node that is up is its units and its volume still, once a branch begins, a file is marked or made, or a free run of blocks is written. What it
/// leaves of its volume where it falls is what a later boot finds, and a new volume is one that a node left.
pub fn nodes_are_kept()
    ensures { KeepsNodes }
{}
