//! Why a file was not recovered.
use careful_write::Down;
use thiserror::Error;
use vms_base::{Moment, Serial};

/// Why a file was not recovered.
#[derive(Clone, Copy, Debug, PartialEq, Eq, Drop, Error)]
pub enum RecoverErr {
    /// The journal does not reach back so far: forward it would have to have the position of the save, and begins behind that; backward it would have
    /// to tell since a moment, and does so since a later one only.
    #[error("the journal does not reach back so far")]
    Span { needed: u64, first: u64 },
    /// A unit that is not settled changed the file.
    #[error("a unit that is not settled changed the file")]
    InUse(Serial),
    /// The file has no journal of that direction.
    #[error("the file has no such journal")]
    NoJournal,
    /// The file was saved later than at the moment that is wanted.
    #[error("the save is later")]
    Early { until: Moment, save: Moment },
    /// The file has no save.
    #[error("the file has no save")]
    NoSave,
    /// Memory is missing.
    #[error("memory is missing")]
    Memory,
    /// The disk went down.
    #[error("the disk went down")]
    Down(Down),
    /// The volume has no free run of so many blocks; its longest has so many.
    #[error("the volume has too few free blocks in a row")]
    Full { free: u32, needed: u64 },
}
