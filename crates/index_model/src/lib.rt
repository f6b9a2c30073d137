//! The index of an indexed file with the numbers of its buckets: how it is descended, and what becomes of it where a leaf is parted.
//!
//! The crate has definitions and laws, and nothing that runs. `specs/` has, from the bottom up: `Indexes` (entries, levels, the steps from the root down, and
//! entries that are handed up), `Trees` (a tree of numbered buckets, and what becomes of it where a key is set) and `Laws`.
#![tactic(auto)]

ghost use Rattle.index_model.specs.Laws.{DescentFinds, HandUpKeeps, NumberedFinds, NumberedSets};

/// The steps from the root down end at the bucket to which the last entry leads whose separator is at most the key.
pub fn descent_finds()
    ensures { DescentFinds }
{}

/// Entries that are handed up leave an index that leads to all buckets below it, with the shape that is told of its layout.
pub fn hand_up_keeps()
    ensures { HandUpKeeps }
{}

/// The slot of a key is found in the leaf at which the steps from the root end.
pub fn numbered_finds()
    ensures { NumberedFinds }
{}

/// A tree of numbered buckets with a key set has the layout with that key set, and each used bucket is still reached once.
pub fn numbered_sets()
    ensures { NumberedSets }
{}
