// A recovery unit that is not settled.
ghost use Rattle.std.specs.Prelude.{◌≡◌, ◌<◌, ◌≤◌, ◌+◌, ◌==◌, ◌||◌, ◌&&◌, ℕ, false, not, []};
ghost use Rattle.vms_base.specs.vms_model.Limits.{change_limit, file_limit};
ghost use Rattle.table_keys.specs.records_model.History.{same_id};
ghost use Rattle.vms_base.specs.Ids.{id_of};
ghost use Rattle.journal_format.specs.Heads.{entry_of};

use journal_format::{EntryHead, EntryKind};
use vms_base::{Id, Serial, Tid};

/// How many changes a unit may have.
pub const MOST_CHANGES: u32 = 1_024;

/// A branch that has changes in a journal and is not settled there.
#[derive(Clone, Copy, Debug, Drop)]
pub struct UnitInfo {
    pub tid: Tid,
    pub serial: Serial,
    /// Where its first change begins.
    pub first: u64,
    /// How many changes it made.
    pub changes: u32,
    /// The files in which it made them: the bit of each one's number.
    pub files: u64,
    pub prepared: bool,
}

// Whether two ids are one.
pub(crate) fn is_same(a: &Id, b: &Id) -> bool
    ensures { result ≡ same_id (id_of a.now) (id_of b.now) }
{
    a.node.bytes() == b.node.bytes() && a.boot == b.boot && a.seq == b.seq
}

impl UnitInfo {
    ghost use Rattle.std.specs.Prelude.{nat_le, Some};
    ghost use Rattle.ru_journal.specs.Told.{first_told, more_told, unit_refuses, owed_to};
    ghost use Rattle.ru_journal.specs.Units.{unit_of};

    // The unit that a Change begins.
    pub(crate) fn begin(position: u64, e: &EntryHead) -> UnitInfo
        requires file { e.now.file < file_limit }
        ensures unit { unit_of result ≡ first_told position (entry_of e.now []) }
        ensures few { result.changes ≤ 1 }
    {
        UnitInfo {
            tid: e.tid,
            serial: e.serial,
            first: position,
            changes: 1,
            files: 1 << e.file,
            prepared: false,
        }
    }

    // Whether an entry may not follow those of this branch, whatever other units there are.
    pub(crate) fn refuses(&self, e: &EntryHead) -> bool
        ensures { (units : ℕ) → result ≡ unit_refuses (entry_of e.now []) units (Some (unit_of self.now)) }
    {
        let same = is_same(&e.tid.0, &self.tid.0);
        match e.kind {
            EntryKind::Change => !same || self.prepared || self.changes >= MOST_CHANGES,
            EntryKind::Prepared => !same || self.prepared,
            EntryKind::Settled => !same,
        }
    }

    // How many bytes of the ring it will still take: none without changes.
    pub(crate) fn owed(&self) -> u32
        ensures value { result ≡ owed_to (unit_of self.now) }
        ensures few { result ≤ 96 }
    {
        if self.changes == 0 {
            0
        } else if self.prepared {
            48
        } else {
            96
        }
    }

    // The unit after a Change or a Prepared more.
    pub(crate) fn more(&self, e: &EntryHead) -> UnitInfo
        requires file { e.now.file < file_limit }
        requires few { self.now.changes ≤ change_limit }
        requires may { unit_refuses (entry_of e.now []) 0 (Some (unit_of self.now)) ≡ false }
        ensures unit { unit_of result ≡ more_told (entry_of e.now []) (unit_of self.now) }
        ensures few { result.changes ≤ change_limit }
    {
        match e.kind {
            EntryKind::Change => UnitInfo {
                changes: self.changes + 1,
                files: self.files | (1 << e.file),
                ..*self
            },
            _ => UnitInfo {
                prepared: true,
                ..*self
            },
        }
    }
}
