// What an entry says, but for its image.
use vms_base::{KeyText, Moment, Outcome, Serial, Tid};

/// What an entry tells of a branch.
#[derive(Clone, Copy, Debug, PartialEq, Eq, Drop)]
pub enum EntryKind {
    /// It changed a record.
    Change,
    /// It is prepared.
    Prepared,
    /// It is settled.
    Settled,
}

/// An entry without its image.
#[derive(Clone, Copy, Debug, PartialEq, Eq, Drop)]
pub struct EntryHead {
    pub kind: EntryKind,
    /// Whether a Change has an image; false in other entries.
    pub present: bool,
    /// How the branch of a Settled was settled; None in other entries.
    pub outcome: Option<Outcome>,
    /// The number of the file that a Change is of; 0 in other entries.
    pub file: u8,
    /// The key of the record that a Change is of, where a number has its four bytes; None in other entries.
    pub key: Option<KeyText>,
    /// The image's length in bytes.
    pub image_len: u16,
    pub tid: Tid,
    pub serial: Serial,
    /// When the branch of a Settled was settled; 0 in other entries.
    pub moment: Moment,
}
