//! The kinds of buckets.

/// What a bucket's slots are. Numbers of bytes are in bytes.
#[derive(Clone, Copy, Debug, PartialEq, Eq, Drop)]
pub enum PageKind {
    /// Records of a sequential file, each with its length.
    Seq,
    /// Cells of a relative file, whose records have at most `mrs` bytes.
    Rel { mrs: u16 },
    /// Records of an indexed file, whose keys have `key_size` bytes from `key_pos` on, each in its room.
    Data { key_pos: u16, key_size: u16 },
    /// Entries of an index: a key of `key_size` bytes and the bucket that it leads to.
    Index { key_size: u16 },
}
