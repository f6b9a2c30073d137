//! Indexed files as trees of buckets: leaves with the slots, and levels of index buckets over them.
//!
//! The crate has definitions and laws, and nothing that runs. `specs/` has, from the bottom up: `Layouts` (leaves, the index over them, the buckets that are
//! used and asked for), `Setting` (what becomes of a layout where a key is set, or set back), `Trees` (when a layout is one of a tree), `Loads` (the layout
//! of records that are loaded) and `Laws`.
#![tactic(auto)]

ghost use Rattle.tree_model.specs.Laws.{ZerosAreLeast, FirstIsTree, TreeFinds, TreeSets, ChangesKeepTree, TreeGrowsWhereFull, NeedSuffices, TreeKeepsRooms, TreeSetsBack, IndexGrows, OneLevelOneBucket, TreeLoads};

/// No key comes before as many zero bytes, so a first leaf with this lowest key may hold all keys of its size.
pub fn zeros_are_least()
    ensures { ZerosAreLeast }
{}

/// A new file is a tree of one leaf, which may hold all keys of its size.
pub fn first_is_tree()
    ensures { FirstIsTree }
{}

/// The slot of a key is found in the last leaf whose lowest key is at most the key, or in the first one.
pub fn tree_finds()
    ensures { TreeFinds }
{}

/// A tree with a key set has the same records but for that key's. It is a tree with at most as many buckets more as one record may take, and at most one level.
pub fn tree_sets()
    ensures { TreeSets }
{}

/// Changes, one after the other, leave a tree that may hold all keys of its size.
pub fn changes_keep_tree()
    ensures { ChangesKeepTree }
{}

/// Buckets are taken just where the tidied leaf for a key does not hold the key's slot.
pub fn tree_grows_where_full()
    ensures { TreeGrowsWhereFull }
{}

/// Where as many buckets are free as a record asks for, a tree keeps within the limit of levels and the buckets of its file.
pub fn need_suffices()
    ensures { NeedSuffices }
{}

/// Where a key is set in a tree, the rooms of held keys do not fall, and the key's room holds what it had.
pub fn tree_keeps_rooms()
    ensures { TreeKeepsRooms }
{}

/// A tree in which a key is set back in place has the same leaves and index, and the same records but for that key's.
pub fn tree_sets_back()
    ensures { TreeSetsBack }
{}

/// An index over a bucket that became up to three is an index, with at most one bucket more in each level, and a new root.
pub fn index_grows()
    ensures { IndexGrows }
{}

/// A tree has one level exactly where it has one bucket.
pub fn one_level_one_bucket()
    ensures { OneLevelOneBucket }
{}

/// Records that are loaded in the order of their keys are the slots of a tree, of which each level is filled from the left.
pub fn tree_loads()
    ensures { TreeLoads }
{}
