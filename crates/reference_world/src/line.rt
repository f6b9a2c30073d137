// What lines show.
ghost use Rattle.std.specs.Prelude.{◌≡◌, List, [], ◌∷◌, map, IfOk};
ghost use Rattle.reference_world.specs.Standing.{line_of};

use crate::moment::WrittenMoment;
use crate::world::BranchKey;
use net_wire::Message;
use reference_index::Key;
use std::alloc::{AllocError, Global};
use vms_base::{FileName, Id, LogRec, NodeName, Outcome, Reason, RmEvent, RmName};

/// What the node has only so many of.
#[derive(Clone, Copy, Drop)]
pub enum Quota {
    Branches,
    Files,
    Changes,
    Boots,
    Moments,
    Locks,
    Positions,
    Slots,
    Bids,
    Declared,
    Managers,
}

/// How a branch stands at its node.
#[derive(Clone, Copy, Drop)]
pub enum Standing {
    Active,
    Ending,
    Prepared,
    Committed,
    Unknown,
}

/// What a line shows.
#[derive(Drop)]
pub enum Line {
    Sent(u64, Message),
    Unsent(Message),
    Joined(BranchKey),
    Started(BranchKey),
    Prepared(BranchKey),
    ReadOnly(BranchKey),
    Ended(Id, Option<Reason>),
    Forgot(BranchKey),
    Asked(BranchKey, Outcome),
    ManagerTold(RmEvent, BranchKey, RmName),
    Booted(NodeName, u32),
    Record(Key, Vec<u8>),
    Committed(BranchKey, WrittenMoment),
    Aborted(BranchKey, Reason, WrittenMoment),
    LastCommitted(BranchKey, WrittenMoment),
    LastAborted(BranchKey, Reason, WrittenMoment),
    ChangeEntry(u64, BranchKey, FileName, Key, Option<Vec<u8>>),
    PreparedEntry(u64, BranchKey),
    SettledEntry(u64, BranchKey, Outcome, WrittenMoment),
    LogEntry(u32, LogRec),
    Crashed(NodeName),
    Normal,
    NormalCount(u64),
    NormalId(Id),
    NormalSpan(u64, u64),
    NormalSave(u64, WrittenMoment),
    NormalStanding(Standing),
    NormalLog(u32, u32, u32),
    Pending(Vec<Id>, Vec<RmName>),
    TransactionAborted(Reason),
    RecordNormal,
    RecordPosition(u64),
    RecordFound(Vec<u8>),
    NextFound(Key, Vec<u8>),
    NoSuchNode,
    NodeDown,
    NodeUp,
    VolumeInUse,
    NotInitialized,
    NotInitializedAt(NodeName),
    NoSuchMessage,
    BadLabel,
    FileNotFound,
    FileExists,
    BadParameter,
    BadOperation,
    BadRecordNumber,
    BadRecordSize,
    NoSuchTransaction,
    NoSuchBranchId,
    NoSuchManager,
    WrongState,
    InDoubt(Id, NodeName),
    NotForUnits,
    NeedsUnit,
    NoJournal,
    NoSave,
    TooEarly(WrittenMoment, WrittenMoment),
    PositionsMissing(u64, u64),
    MomentsMissing(WrittenMoment, WrittenMoment),
    RecordLocked(Id),
    FileLocked(Id),
    NoVolume(NodeName, u32, u64),
    RecordExists,
    KeyExists,
    RecordNotFound,
    EndOfFile,
    KeyChanged,
    QuotaExceeded(Quota, u64),
    VolumeFull(u64, u64),
    FileFull(u64, u64),
    JournalFull(u64, u128),
    AftersFull(u128, u128),
    BeforesFull(u128, u128),
    BadLine(u32),
    TooLong,
}

/// Just this line.
pub fn one(alloc: Global, line: Line) -> Result<Vec<Line>, AllocError>
    ensures { IfOk result (λ v. map line_of v.items ≡ line_of line ∷ []) }
{
    let mut lines = Vec::new(alloc);
    match lines.push(line) {
        Ok(()) => Ok(lines),
        Err(_) => Err(AllocError),
    }
}
