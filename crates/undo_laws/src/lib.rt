//! The laws by which an undo on a disk is one of the world: a branch that left changes in a volume can be undone there, what is left on the way is
//! what the node leaves, and once the branch is settled the volume is that of the node after the settlement.
//!
//! The crate has laws, and nothing that runs. `specs/Undoable` has that of the beginning, `specs/Undone` those of the way and of the end, `specs/Aborted` those of
//! a whole abort, and `specs/Committed` that of a commitment, in which nothing is undone.
#![tactic(auto)]

ghost use Rattle.undo_laws.specs.Aborted.{AbortsFail, AbortsLeave, AbortsSettle};
ghost use Rattle.undo_laws.specs.Committed.{CommitsSettle};
ghost use Rattle.undo_laws.specs.Undoable.{UnitsAreUndoable};
ghost use Rattle.undo_laws.specs.Undone.{UndoneSettle, UndosFail, UndosKeepJournal, UndosLeave, WaysKeepOthers};

/// A branch can be undone from its entries in the journal of a volume; one that is no unit there changed nothing.
pub fn units_are_undoable()
    ensures { UnitsAreUndoable }
{}

/// What is left where the disk goes down on the way of an undo is what the node leaves, if what prepared branches changed stands there; so it does
/// where the branch is none of them. At its end the journal is as it was.
pub fn undos_leave_volumes()
    ensures leaves { UndosLeave }
    ensures fails { UndosFail }
    ensures journal { UndosKeepJournal }
    ensures others { WaysKeepOthers }
{}

/// The volume in which a branch was undone whole, and then settled, is that of the node after the settlement.
pub fn undone_units_are_settled()
    ensures { UndoneSettle }
{}

/// The volume on which a branch was aborted is that of the node after the settlement. Where the disk goes down meanwhile, it has what the node leaves
/// that falls; of a prepared branch that is any part of the abort.
pub fn aborts_are_settlements()
    ensures settle { AbortsSettle }
    ensures fail { AbortsFail }
    ensures leave { AbortsLeave }
{}

/// The volume on which a branch was committed is that of the node after the settlement, with the outcome in the journals of images of each file that the
/// branch changed.
pub fn commits_are_settlements()
    ensures { CommitsSettle }
{}
