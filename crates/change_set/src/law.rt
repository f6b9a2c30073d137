//! What the definitions promise.
ghost use Rattle.change_set.specs.Maps.{UndoRestoresMaps, ChangesAgree};

/// Undoing a list of changes that was applied gives the old map, where each change noted what it found.
pub fn undo_restores_maps()
    ensures { UndoRestoresMaps }
{}

/// A file that is kept as a finite map of records, and a file that is seen as what each key has, change alike.
pub fn changes_agree()
    ensures { ChangesAgree }
{}
