//! The head of a file: where it lies, how its records are laid out, and where its journals and its saved copy lie.
use vms_base::{FileName, Moment};

/// How a file keeps its records.
#[derive(Clone, Copy, Debug, PartialEq, Eq, Drop)]
pub enum Organization {
    /// One behind the other, by position.
    Sequential,
    /// In cells of one size, by number.
    Relative,
    /// By a key that is part of the record.
    Indexed,
}

/// What a file is marked with: recovery units, after images, before images, and whether it has a saved copy.
#[derive(Clone, Copy, Debug, PartialEq, Eq, Drop)]
pub struct Marks {
    pub ru: bool,
    pub ai: bool,
    pub bi: bool,
    pub save: bool,
}

/// No mark.
pub const NO_MARKS: Marks = Marks {
    ru: false,
    ai: false,
    bi: false,
    save: false,
};

/// A journal's ring of blocks, and the positions between which its entries lie.
#[derive(Clone, Copy, Debug, PartialEq, Eq, Drop)]
pub struct Span {
    /// Its first block.
    pub start: u32,
    /// How many blocks it has.
    pub blocks: u32,
    pub first: u64,
    pub end: u64,
}

/// No journal.
pub const NO_SPAN: Span = Span {
    start: 0,
    blocks: 0,
    first: 0,
    end: 0,
};

/// The saved copy of a file. Sizes are in buckets.
#[derive(Clone, Copy, Debug, PartialEq, Eq, Drop)]
pub struct Save {
    /// Its first block.
    pub start: u32,
    pub alloc: u32,
    /// The after image journal's position at which it was made.
    pub position: u64,
    /// The moment at which it was made.
    pub moment: Moment,
    pub used: u32,
    pub root: u32,
    pub levels: u32,
    pub count: u32,
}

/// No saved copy.
pub const NO_SAVE: Save = Save {
    start: 0,
    alloc: 0,
    position: 0,
    moment: Moment(0),
    used: 0,
    root: 0,
    levels: 0,
    count: 0,
};

/// What the directory tells of a file: its name, how its records are kept, and where it lies.
///
/// Its extent is the `alloc * bucket` blocks from `start` on.
#[derive(Clone, Copy, Debug, PartialEq, Eq, Drop)]
pub struct FileHead {
    pub name: FileName,
    pub organization: Organization,
    pub marks: Marks,
    /// A bucket's size in blocks.
    pub bucket: u16,
    /// The greatest length of a record, in bytes.
    pub mrs: u16,
    /// The greatest record number of a relative file.
    pub mrn: u32,
    /// Where the key of an indexed file's record begins, and its length, in bytes.
    pub key_pos: u16,
    pub key_size: u16,
    /// Its first block.
    pub start: u32,
    /// How many buckets it has, and how many of them are used.
    pub alloc: u32,
    pub used: u32,
    /// The root bucket of an indexed file, and the height of its tree.
    pub root: u32,
    pub levels: u32,
    /// How many records a sequential file has.
    pub count: u32,
    /// The journal of after images.
    pub ai: Span,
    /// The journal of before images, and the moment since which it is kept.
    pub bi: Span,
    pub bi_since: Moment,
    pub save: Save,
}
