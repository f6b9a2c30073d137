//! Places in a file, and what is written there.

/// Where the slot of a position stands.
#[derive(Clone, Copy, Debug, PartialEq, Eq, Drop)]
pub struct Spot {
    pub bucket: u32,
    /// How many slots the bucket has.
    pub slots: u16,
    /// The slot's place in it, from 0.
    pub slot: u16,
}

/// A bucket that is to be written, and how many buckets are used and how many records there are then.
#[derive(Clone, Copy, Debug, PartialEq, Eq, Drop)]
pub struct Rewrite {
    pub bucket: u32,
    pub used: u32,
    pub count: u32,
}
