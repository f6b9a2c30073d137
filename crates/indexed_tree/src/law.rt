//! What holds of an indexed file under an index.
ghost use Rattle.indexed_tree.specs.Laws.{BlankIsRooted, LayoutTells, RootedFinds, RootedIsTree, RootedSplits, RootedStays};
ghost use Rattle.indexed_tree.specs.Backs.{BackLeaves, BackStages};
ghost use Rattle.indexed_tree.specs.Sets.{SetStages};

/// The blocks of such a file are a tree whose buckets have numbers of their own.
pub fn rooted_is_tree()
    ensures { RootedIsTree }
{}

/// The layout tells how many buckets the file uses and how many levels it has, and its first leaf may hold all keys.
pub fn layout_tells()
    ensures { LayoutTells }
{}

/// The steps by a key end at the leaf for it, which is laid out, and what the key has stands there.
pub fn rooted_finds()
    ensures { RootedFinds }
{}

/// The keys of the leaves before that for a key come before the key, and those of the leaves behind it come behind the key.
pub fn rooted_splits()
    ensures { RootedSplits }
{}

/// Contents that agree on the file's extent have the same file.
pub fn rooted_stays()
    ensures { RootedStays }
{}

/// A file with one bucket, which has no slots, is a new one.
pub fn blank_is_rooted()
    ensures { BlankIsRooted }
{}

/// A key that is set in the leaf for it is set in the layout, and the file has an index again: at once where the leaf was not parted, and else when
/// the entries of the new leaves were handed up.
pub fn set_stages()
    ensures { SetStages }
{}

/// A key that is set back in place in the leaf for it is set back in the layout, which keeps its leaves and its index.
pub fn back_stages()
    ensures { BackStages }
{}

/// Where the leaf for a key has no room for what is to be set back, though the key has it, nothing is to be done.
pub fn back_leaves()
    ensures { BackLeaves }
{}
