// The layout of an indexed file: its leaves, and the index over them.
ghost use Rattle.std.specs.Prelude.{◌≡◌};
ghost use Rattle.run_model.specs.tree_model.Layouts as layouts;
ghost use Rattle.reference_index.specs.Standing.{layout_of};

use std::alloc::Global;

/// A slot of an indexed file: its key, its room in bytes, and its record where it has one.
#[derive(Drop)]
pub struct Slot {
    pub key: Vec<u8>,
    pub room: usize,
    pub value: Option<Vec<u8>>,
}

/// The slots of a bucket, in the order of their keys.
#[derive(Drop)]
pub struct Bucket {
    pub slots: Vec<Slot>,
}

/// A leaf of an indexed file: the lowest key that it may hold, and its slots in the order of their keys.
#[derive(Drop)]
pub struct Leaf {
    pub lowest: Vec<u8>,
    pub slots: Vec<Slot>,
}

/// A level of an index: to how many buckets of the level below it each of its buckets leads.
#[derive(Drop)]
pub struct Level {
    pub children: Vec<u64>,
}

/// The leaves of an indexed file in the order of their keys, and the levels of the index over them, from the lowest one up. Other files have neither.
#[derive(Drop)]
pub struct Layout {
    pub leaves: Vec<Leaf>,
    pub index: Vec<Level>,
}

/// The layout of a file that is not indexed.
pub fn no_layout(alloc: Global) -> Layout
    ensures { layout_of result ≡ layouts.no_layout }
{
    Layout {
        leaves: Vec::new(alloc),
        index: Vec::new(alloc),
    }
}

/// The bytes of a file's buckets for slots, and how many entries an index bucket holds.
#[derive(Clone, Copy, Drop)]
pub struct Sizes {
    pub capacity: u64,
    pub fan_out: u64,
}
