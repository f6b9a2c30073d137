//! What the lines of a transcript show.
use net_wire::Message;
use vms_base::{
    FileName, Id, Key, LogRec, Moment, NodeName, Outcome, Reason, Record, RmEvent, RmName, Serial,
    Tid,
};

/// Why a node went down in a statement that its disk did not serve.
#[derive(Clone, Copy, Debug, PartialEq, Eq)]
pub enum Cause {
    /// A call of its disk failed.
    Failed,
    /// Its disk was stopped.
    Stopped,
}

/// What a node has only so many of.
#[derive(Clone, Copy, Debug, PartialEq, Eq)]
pub enum Quota {
    /// Unsettled branches of a node.
    Branches,
    /// Files of a volume.
    Files,
    /// Changes of a branch.
    Changes,
    /// Boots of a volume.
    Boots,
    /// Moments, of which the greatest of a volume is one.
    Moments,
    /// Keys that the unsettled branches of a node hold.
    Locks,
    /// Positions of a journal, of which its end is one.
    Positions,
    /// Places for records in the log of a volume.
    Slots,
    /// Branches that a transaction may have besides its first.
    Bids,
    /// Resource managers that are declared at a node.
    Declared,
    /// Resource managers that join a branch.
    Managers,
}

/// What a node knows of a branch.
#[derive(Clone, Copy, Debug, PartialEq, Eq)]
pub enum Standing {
    Active,
    /// Its END_TRANS was called, or its coordinator asked for its vote.
    Ending,
    Prepared,
    /// It is settled, and its committed record stands.
    Committed,
    Unknown,
}

/// What one line shows: an event, or the answer of a statement.
#[derive(Clone, Copy)]
pub enum Form<'a> {
    /// A message, with its number.
    Sent(u32, &'a Message),
    /// A message that got no number, for as many were kept as may be.
    Unsent(&'a Message),
    /// A branch was taken into its transaction.
    Joined(Tid, Serial),
    /// A branch learned that it was.
    Started(Tid, Serial),
    Prepared(Tid, Serial),
    /// A branch that changed nothing has voted, and is gone.
    ReadOnly(Tid, Serial),
    /// A transaction whose END_TRANS waited has ended: it was committed, or aborted for this reason.
    Ended(Tid, Option<Reason>),
    /// All who had to hear of a commit have.
    Forgot(Tid, Serial),
    /// A resource manager of a branch is told this.
    ManagerTold(RmEvent, Tid, Serial, RmName),
    /// A prepared branch has asked, and was told this.
    Asked(Tid, Serial, Outcome),
    /// A node came up in a settling, by this boot.
    Booted(NodeName, u32),
    Record(Key, &'a Record),
    Committed(Tid, Serial, Moment),
    Aborted(Tid, Serial, Reason, Moment),
    /// The last settlement that a volume tells of was a commit.
    LastCommitted(Tid, Serial, Moment),
    /// It was an abort.
    LastAborted(Tid, Serial, Reason, Moment),
    /// An entry of a journal, with its position: a branch changed this key of a file, which had this record before, or none.
    ChangeEntry(u64, Tid, Serial, FileName, Key, Option<&'a Record>),
    /// An entry by which a branch was prepared.
    PreparedEntry(u64, Tid, Serial),
    /// An entry by which a branch was settled.
    SettledEntry(u64, Tid, Serial, Outcome, Moment),
    /// A record of the transaction log, with the number of its slot.
    LogEntry(u32, &'a LogRec),
    Down(NodeName, Cause),
    Crashed(NodeName),
    Normal,
    NormalCount(u64),
    NormalId(Id),
    /// The positions at which a journal begins and ends.
    NormalSpan(u64, u64),
    /// The position at which the journal of after images ended when a file was saved, and the greatest moment on the disk then.
    NormalSave(u64, Moment),
    /// How a branch stands.
    NormalStanding(Standing),
    /// The committed and the prepared records of the transaction log, and its free slots.
    NormalLog(u32, u32, u32),
    /// The branches whose answers are missing, and the resource managers whose replies are.
    Pending(&'a [Serial], &'a [RmName]),
    TransactionAborted(Reason),
    RecordNormal,
    /// The position at which a record was put.
    RecordPosition(u32),
    RecordFound(&'a Record),
    /// The record with the next key.
    NextFound(Key, &'a Record),
    NoSuchNode,
    NodeDown,
    NodeUp,
    VolumeInUse,
    NotInitialized,
    /// A settling met this node, of which an INIT failed.
    NotInitializedAt(NodeName),
    NoSuchMessage,
    BadLabel,
    FileNotFound,
    FileExists,
    BadParameter,
    BadOperation,
    BadRecordNumber,
    BadRecordSize,
    NoSuchTransaction,
    NoSuchBranchId,
    NoSuchManager,
    WrongState,
    /// A prepared branch whose coordinator's node is not in the rack.
    InDoubt(Serial, NodeName),
    NotForUnits,
    /// A change without a branch is asked for, of a file that is marked for recovery units.
    NeedsUnit,
    /// The file has no such journal of images.
    NoJournal,
    NoSave,
    /// The moment that is asked for, and the later one of the save.
    TooEarly(Moment, Moment),
    /// The position from which on entries are needed, and that at which the journal begins.
    PositionsMissing(u64, u64),
    /// The moment that is asked for, and the later one since which before images are kept.
    MomentsMissing(Moment, Moment),
    /// The branch that holds the record.
    RecordLocked(Serial),
    FileLocked(Serial),
    /// The node's disk has no volume: the first condition that fails, and the block where it does.
    NoVolume(NodeName, u32, u32),
    RecordExists,
    KeyExists,
    RecordNotFound,
    EndOfFile,
    KeyChanged,
    /// The limit that would be passed.
    QuotaExceeded(Quota, u64),
    /// The longest free run of blocks, and the blocks that are wanted.
    VolumeFull(u64, u64),
    /// The free buckets of a file, and the buckets that are wanted.
    FileFull(u32, u32),
    /// The free bytes of the journal of recovery units, and the bytes that are wanted.
    JournalFull(u64, u64),
    /// The free bytes of a file's journal of after images, and the bytes that are wanted.
    AftersFull(u64, u64),
    /// The same of its journal of before images.
    BeforesFull(u64, u64),
    NoMemory,
    Broken(Cause),
    BadLine(u32),
    TooLong,
}
