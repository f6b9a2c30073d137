//! The law by which the settlement of a branch on a disk is one of the world: what it makes of a volume is what the node's volume is after it.
//!
//! The crate has a law, and nothing that runs. `specs/Settled` has it.
#![tactic(auto)]

ghost use Rattle.settlement_laws.specs.Settled.{SettlementsAreMade};

/// A settlement that was made of a volume is the node's: the home tells it, its entry is behind the end of the journal where the branch is a unit, the journal
/// begins with the earliest change of the units that are left, and the log and files have the blocks that they had.
pub fn settlements_are_made()
    ensures { SettlementsAreMade }
{}
