//! Definitions of a file's records: finite maps, changes, a file's history of settled and unsettled branches, and how records lie in buckets.
#![tactic(auto)]

ghost use Rattle.records_model.specs.Laws.{UndoRestores, ChainSets, ChainSetsBack};
ghost use Rattle.records_model.specs.Parts.{PartedByRule};

/// Undoing a list of changes that was applied gives the old records, where each change noted what it found.
pub fn undo_restores()
    ensures { UndoRestores }
{}

/// A bucket that overflows is parted at the best place: where the greater part has the fewest bytes, the lowest such; or, where there is none,
/// before and behind the slot that is new or grown.
pub fn slots_are_parted_by_rule()
    ensures { PartedByRule }
{}

/// A chain with a key set has its keys in order, and the same records but for that key's.
pub fn chain_sets()
    ensures { ChainSets }
{}

/// A chain in which a key is set back in place has its keys in order, and the same records but for that key's.
pub fn chain_sets_back()
    ensures { ChainSetsBack }
{}
