//! What refuses an operation on records.
use careful_write::Down;
use thiserror::Error;
use vms_base::Serial;

/// Why an operation was not done: by its form, by the file's mark, by another branch's lock, by the records that stand, by a quota or for want of space;
/// or the disk went down.
#[derive(Clone, Copy, Debug, Drop, Error)]
pub enum RecErr {
    /// A key or a number is of a form that the file does not take.
    #[error("a key is not of the file's form")]
    BadParameter,
    /// The file's organization does not have this operation.
    #[error("the file does not take this operation")]
    BadOperation,
    /// A relative file has no cell of this number.
    #[error("the file has no such record number")]
    BadRecordNumber,
    /// A record is too short or too long, or another length is asked for than that of the record that it replaces.
    #[error("the record has a length that the file does not take")]
    BadRecordSize,
    /// A branch asks, and the file is not marked for recovery units.
    #[error("the file is not marked for recovery units")]
    NotForUnits,
    /// A change is asked for without a branch, and the file is marked for recovery units.
    #[error("the file is marked for recovery units")]
    NeedsUnit,
    /// Another branch holds a key that is asked for.
    #[error("another branch holds the record")]
    Locked(Serial),
    #[error("the record is there")]
    RecordExists,
    #[error("a record of this key is there")]
    KeyExists,
    #[error("the record is not there")]
    RecordNotFound,
    #[error("there is no next record")]
    EndOfFile,
    /// A record has another key than the one that it replaces.
    #[error("the record has another key")]
    KeyChanged,
    /// The branch would make more changes than 1,024.
    #[error("a branch makes at most 1024 changes")]
    Changes,
    /// More keys would be held at the node than 4,096.
    #[error("at most 4096 keys are held")]
    Locks,
    /// The file has fewer free buckets than the record asks for.
    #[error("the file has {free} free buckets, and the record needs {need}")]
    FileFull { free: u32, need: u32 },
    /// The journal has fewer free bytes than the entries take and the unit is owed with its first change.
    #[error("the journal has {free} free bytes, and the change needs {need}")]
    JournalFull { free: u64, need: u64 },
    /// The file's journal of after images has fewer free bytes than the entries take, with the settlement's where it is the unit's first change of the
    /// file or a change without a unit.
    #[error("the journal of after images has {free} free bytes, and the change needs {need}")]
    AfterImagesFull { free: u64, need: u64 },
    /// So its journal of before images.
    #[error("the journal of before images has {free} free bytes, and the change needs {need}")]
    BeforeImagesFull { free: u64, need: u64 },
    #[error("the disk went down")]
    Down(Down),
}

impl From<Down> for RecErr {
    ghost use Rattle.std.specs.Prelude.{◌≡◌};
    ghost use Rattle.record_operations.specs.declared.errors.RecErr.TheVariants as cause;

    ghost from_gives = { λ down err. err ≡ cause.Down down };

    fn from(down: Down) -> RecErr {
        RecErr::Down(down)
    }
}
