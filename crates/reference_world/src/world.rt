// What the statements so far have made of the node.
ghost use Rattle.std.specs.Prelude.{◌≡◌};
ghost use Rattle.vms_base.specs.Outcomes.{outcome_of};
ghost use Rattle.reference_world.specs.Standing.{outcome_by};

use crate::moment::WrittenMoment;
use reference_index::{Change, Key, KeyRef, Layout};
use vms_base::{FileName, Id, Label, NodeName, Outcome, Reason};

/// A branch: its transaction, and its serial.
#[derive(Clone, Copy, Drop)]
pub struct BranchKey {
    pub tid: Id,
    pub serial: Id,
}

/// What an unsettled branch changed of a file, the newest first.
#[derive(Drop)]
pub struct LiveChanges {
    pub serial: Id,
    pub changes: Vec<Change>,
}

/// What a settled branch changed of a file, the newest first.
#[derive(Drop)]
pub struct SettledChanges {
    pub serial: Id,
    pub outcome: Outcome,
    pub moment: u64,
    pub changes: Vec<Change>,
}

/// How a file keeps its records: one behind the other; in cells, at the numbers from 1 to the greatest; or by a key of so many bytes, which stands at a
/// position of each record, from 0.
#[derive(Clone, Copy, Drop)]
pub enum Organization {
    Sequential,
    Relative { greatest: u32 },
    Indexed { position: u32, size: u32 },
}

/// A journal of images of a file: that of its after images, or that of its before images.
#[derive(Clone, Copy, Drop)]
pub enum Side {
    After,
    Before,
}

/// What an entry of a journal of images tells of its branch: a key that it changed, with the record after that or before it, or none; or how it was settled.
#[derive(Drop)]
pub enum Image {
    Changed(Key, Option<Vec<u8>>),
    Settled(Outcome, WrittenMoment),
}

/// An entry of a journal of images: its position, its branch and what it tells.
#[derive(Drop)]
pub struct Placed {
    pub at: u64,
    pub branch: BranchKey,
    pub image: Image,
}

/// A journal of images: whether the file has it, its blocks, the positions at which it begins and ends, and its entries, the newest first.
#[derive(Drop)]
pub struct ImageJournal {
    pub on: bool,
    pub start: u64,
    pub blocks: u64,
    pub first: u64,
    pub end: u64,
    pub entries: Vec<Placed>,
}

/// A record at its key.
#[derive(Drop)]
pub struct KeptRow {
    pub key: Key,
    pub bytes: Vec<u8>,
}

/// A save: where its buckets begin and how many they are; where the journal of after images ended and the greatest moment on the disk then; and the records.
#[derive(Drop)]
pub struct Save {
    pub start: u64,
    pub buckets: u64,
    pub position: u64,
    pub moment: u64,
    pub records: Vec<KeptRow>,
}

/// What a file has for its recovery: its journals, the moment since which before images are kept, and its save.
#[derive(Drop)]
pub struct Carried {
    pub after: ImageJournal,
    pub before: ImageJournal,
    pub since: u64,
    pub save: Option<Save>,
}

/// A file. It began with its base, at a moment. Settled branches stand newest first, unsettled ones oldest first.
#[derive(Drop)]
pub struct File {
    pub name: FileName,
    pub bucket: u32,
    pub record_size: u32,
    pub organization: Organization,
    pub start: u64,
    pub buckets: u64,
    pub recovery_units: bool,
    pub carried: Carried,
    pub base: Vec<KeptRow>,
    pub moment: u64,
    pub settled: Vec<SettledChanges>,
    pub live: Vec<LiveChanges>,
    pub layout: Layout,
}

/// A label: the node that it was made for, and its transaction. It names the first branch, or one that was authorised by this identifier, and the branch's
/// latest serial once there is one.
#[derive(Clone, Copy, Drop)]
pub struct LabelEntry {
    pub name: Label,
    pub node: NodeName,
    pub tid: Id,
    pub bid: Option<Id>,
    pub serial: Option<Id>,
}

/// A branch's end: why it was aborted, or None where it was committed.
#[derive(Clone, Copy, Drop)]
pub struct Settlement {
    pub tid: Id,
    pub serial: Id,
    pub reason: Option<Reason>,
    pub moment: WrittenMoment,
}

impl Settlement {
    /// How the branch was settled.
    pub fn outcome(&self) -> Outcome
        ensures { outcome_of result ≡ outcome_by self.now.reason }
    {
        match self.reason {
            None => Outcome::Commit,
            Some(_) => Outcome::Abort,
        }
    }
}

/// What the node's disk has.
#[derive(Clone, Copy, Drop)]
pub enum Volume {
    Sound,
    Faulty { condition: u32, block: u64 },
    Unknown,
}

/// A call by which the disk is made to stop, or runs again.
#[derive(Clone, Copy, Drop)]
pub enum DiskCall {
    Arm { writes: u32, choice: u64 },
    Power,
}

/// A record as a dump shows it.
#[derive(Clone, Copy, Drop)]
pub struct Row<'a> {
    pub key: KeyRef<'a>,
    pub bytes: &'a [u8],
}
