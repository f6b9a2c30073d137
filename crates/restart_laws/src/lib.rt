//! The laws by which restarts undo unsettled branches in the files of a volume: what a fall leaves, what each group of an undo leaves of that, and what the
//! acts of a node that is up keep for it.
//!
//! The crate has laws, and nothing that runs. `specs/Falls` has the laws of a restart, `specs/Halves` those of a branch that is undone in part, `specs/Units`
//! what the journal tells over each act, and `specs/Restorable` what can be restored after each act.
#![tactic(auto)]

ghost use Rattle.restart_laws.specs.Falls.{FallsLeave, GroupsLeave, LeftStands, OthersStayRestorable, PreparedStand, PreparedStays, RestsAsFiles, StaysUndone, UndoesKeepPrepared, UndoesLeave};
ghost use Rattle.restart_laws.specs.Halves.{DirectoriesAreHalf, HalvesAreFiles, HalvesStayRestorable};
ghost use Rattle.restart_laws.specs.Restorable.{KeepsRestorable, ChangesRestorable};
ghost use Rattle.restart_laws.specs.Units.{KeepsUnits};

/// What a node that was up has is what a fall leaves of it, and what prepared branches changed stands there.
pub fn falls_leave_files()
    ensures files { FallsLeave }
    ensures prepared { PreparedStand }
{}

/// What a fall leaves stands on the files' own blocks. A group of an undo leaves what can go on to be undone, over any number of falls, and a file that it does
/// not touch stays as it is.
pub fn groups_leave_files()
    ensures groups { GroupsLeave }
    ensures stands { LeftStands }
    ensures prepared { PreparedStays }
    ensures untouched { StaysUndone }
{}

/// A unit that was undone whole is settled, whatever part of it was undone before; what the other branches changed can still be restored, and what
/// prepared ones changed stands.
pub fn undone_units_settle()
    ensures unit { UndoesLeave }
    ensures others { OthersStayRestorable }
    ensures prepared { UndoesKeepPrepared }
{}

/// Once no unit is left but those that are prepared, the files of the volume are those of the world.
pub fn restarts_end()
    ensures { RestsAsFiles }
{}

/// A file in which one branch alone is undone in part is the world's, where the world says of that branch what stands; and so are all files of a
/// node. What it left there can still be restored.
pub fn halves_are_files()
    ensures files { HalvesAreFiles }
    ensures directories { DirectoriesAreHalf }
    ensures restorable { HalvesStayRestorable }
{}

/// The journal tells what each unsettled branch found at the keys that it changed, over each act.
pub fn journals_tell()
    ensures { KeepsUnits }
{}

/// What unsettled branches changed can be restored after each act of a node that is up.
pub fn changes_stay_restorable()
    ensures acts { KeepsRestorable }
    ensures changes { ChangesRestorable }
{}
