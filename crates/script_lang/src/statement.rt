// The statements of a script.
use vms_base::{FileName, Label, Moment, NodeName, Reply, RmName, Serial};

/// What a new file's records are kept as.
#[derive(Clone, Copy, Debug, PartialEq, Eq, Drop)]
pub enum Form {
    /// One behind the other, in so many buckets.
    Sequential {
        buckets: u32,
    },
    /// In numbered cells, at most so many.
    Relative {
        records: u32,
    },
    /// In so many buckets, by a key of so many bytes that stands at this position of each record.
    Indexed {
        buckets: u32,
        position: u32,
        key_size: u32,
    },
}

/// The word that tells how a new file keeps its records.
#[derive(Clone, Copy, Debug, PartialEq, Eq, Drop)]
pub enum Organization {
    Sequential,
    Relative,
    Indexed,
}

/// A journal of images of a file.
#[derive(Clone, Copy, Debug, PartialEq, Eq, Drop)]
pub enum Side {
    AfterImages,
    BeforeImages,
}

/// What a file is marked with, or is marked with no more: for recovery units, or for images, whose journal gets so many blocks.
#[derive(Clone, Copy, Debug, PartialEq, Eq, Drop)]
pub enum Setting {
    RecoveryUnits,
    NoRecoveryUnits,
    Images(Side, u32),
    NoImages(Side),
}

/// The word that tells what a file is marked with: all of it, or the journal whose blocks are said behind the word.
#[derive(Clone, Copy, Debug, PartialEq, Eq, Drop)]
pub enum Mark {
    Whole(Setting),
    OfBlocks(Side),
}

/// How a file is recovered.
#[derive(Clone, Copy, Debug, PartialEq, Eq, Drop)]
pub enum Recovery {
    /// From its save on by after images, to this moment or to the last.
    Forward(Option<Moment>),
    /// From what stands back to this moment, by before images.
    Backward(Moment),
}

/// The word that tells what is shown of a transaction log.
#[derive(Clone, Copy, Debug, PartialEq, Eq, Drop)]
pub enum LogWord {
    Show,
    Dump,
}

/// The word that tells a statement to a node from others.
#[derive(Clone, Copy, Debug, PartialEq, Eq, Drop)]
pub enum Verb {
    Init,
    Boot,
    Create,
    SetFile,
    StartTrans,
    AddBranch,
    StartBranch,
    Put,
    Update,
    Delete,
    Truncate,
    Get,
    Next,
    EndBranch,
    EndTrans,
    AbortTrans,
    Inquire,
    DeclareRm,
    JoinRm,
    AckEvent,
    ForgetRm,
    GetDti,
    Lmcp,
    Dump,
    DumpJournal,
    Backup,
    Recover,
}

/// The word that begins a statement of the world.
#[derive(Clone, Copy, Debug, PartialEq, Eq, Drop)]
pub enum WorldVerb {
    Fuse,
    Crash,
    Clock,
    Deliver,
    LinkDown,
    Settle,
}

/// What the first word of a line says.
#[derive(Clone, Copy, Debug, PartialEq, Eq, Drop)]
pub enum First {
    /// This node is spoken to.
    ToNode(NodeName),
    /// This is done to the world.
    ToWorld(WorldVerb),
}

/// A word that stands for the key of a record.
#[derive(Clone, Copy, Debug, PartialEq, Eq, Drop)]
pub enum KeyWord {
    Number(u32),
    /// Bytes, which are kept beside the statement.
    Bytes,
}

/// What is asked of the records of a file.
#[derive(Clone, Copy, Debug, PartialEq, Eq, Drop)]
pub enum Operation {
    /// A record is put at this number, or where its file puts it.
    Put(Option<u32>),
    Update(KeyWord),
    Delete(KeyWord),
    /// The records from this position on go.
    Truncate(u32),
    Get(KeyWord),
    /// The first record, or the first behind this key, is asked for.
    Next(Option<KeyWord>),
}

/// What names a branch.
#[derive(Clone, Copy, Debug, PartialEq, Eq, Drop)]
pub enum Named {
    Label(Label),
    Serial(Serial),
}

/// What is asked of a node, or done to it. The bytes of a record and of a key are kept beside the statement, in its `Literals`.
#[derive(Clone, Copy, Debug, PartialEq, Eq, Drop)]
pub enum Request {
    /// A volume is made with so many log slots, and so many blocks of journal.
    Init {
        slots: u32,
        blocks: u32,
    },
    Boot,
    /// A bucket has so many blocks, and a record at most so many bytes.
    Create {
        file: FileName,
        bucket: u32,
        size: u32,
        form: Form,
    },
    SetFile(FileName, Setting),
    /// A transaction begins, which is aborted once it has lasted so many seconds.
    StartTrans {
        label: Label,
        seconds: Option<u32>,
    },
    /// The transaction of a label may have a branch at the other node, which a new label names.
    AddBranch {
        label: Label,
        other: NodeName,
        new: Label,
    },
    /// The branch that a label names joins its transaction.
    StartBranch(Label),
    /// The branch of a label is asked.
    Records(Label, FileName, Operation),
    /// No branch is asked: a change is a transaction of its own.
    Direct(FileName, Operation),
    /// The branch will change no more records.
    EndBranch(Label),
    EndTrans(Label),
    AbortTrans(Label),
    /// A prepared branch asks how its transaction ended.
    Inquire(Named),
    /// A resource manager is there from now on, and is told the commitments that wait for it.
    DeclareRm(RmName),
    /// A resource manager takes part in the branch of a label.
    JoinRm(Label, RmName),
    /// A resource manager replies to the event of a branch that waits for it.
    AckEvent(Named, RmName, Reply),
    /// A resource manager is there no more.
    ForgetRm(RmName),
    /// How a branch stands is shown.
    GetDti(Named),
    /// How many records the transaction log has is shown.
    LmcpShow,
    /// The records of the transaction log are shown.
    LmcpDump,
    Dump(FileName),
    /// The journal of recovery units is shown.
    DumpJournal,
    /// A journal of images of the file is shown.
    DumpImages(FileName, Side),
    /// The file is saved: its buckets are copied.
    Backup(FileName),
    /// The file gets the records of a moment.
    Recover(FileName, Recovery),
    /// The node's disk stops after so many further writes of blocks; the choice says what is then left of each block that was not made durable.
    Fuse {
        writes: u32,
        choice: u64,
    },
    Crash,
    /// The node's clock is set.
    Clock(Moment),
}

/// What a line says.
#[derive(Clone, Copy, Debug, PartialEq, Eq, Drop)]
pub enum Statement {
    At(NodeName, Request),
    /// The message of this number comes to its receiver.
    Deliver(u32),
    /// Two nodes lose each other.
    LinkDown(NodeName, NodeName),
    /// All nodes settle what is unsettled.
    Settle,
}
