// What a boot finds on the disk.
ghost use Rattle.std.specs.Prelude.{◌≡◌, ◌≤◌, ℕ, [], ◌∷◌, map, option_map, length, IfOk};
ghost use Rattle.std.specs.FinMap.{get};
ghost use Rattle.reference_index.specs.unit_laws.Journal.{active_units, units_in as units_said};
ghost use Rattle.records_model.specs.History.{current};
ghost use Rattle.reference_index.specs.transcript_model.Lines as model;
ghost use Rattle.log_laws.specs.commit_protocol.Table.{record_key};
ghost use Rattle.log_laws.specs.Slots as log;
ghost use Rattle.reference_index.specs.run_model.Answers as answers;
ghost use Rattle.reference_index.specs.run_model.World as world;
ghost use Rattle.vms_base.specs.Ids.{id_of};
ghost use Rattle.tm_types.specs.Parts.{log_record_of};
ghost use Rattle.reference_index.specs.Standing.{key_of, lent_value, value_of, locks_of};
ghost use Rattle.reference_world.specs.Standing.{branch_key_of, history_of, file_of, directory_of, settlement_of, line_of};
ghost use Rattle.reference_units.specs.Entries.{entry_of, entries_of, units_of};
ghost use Rattle.reference_index.specs.run_model.Locks.{with_locks as with_locks_said};
ghost use Rattle.reference_disk.specs.Disks.{durable_of, disk_node, key_with, log_records_of, slots_of, one_line};

use crate::disk::Durable;
use crate::log::{committed_in, count_committed, prepared_in};
use reference_index::{Key, Lock, push_front, take_first};
use reference_units::{JournalEntry, Unit, active_units, units_in, with_locks};
use reference_world::{
    BranchKey, File, Line, Organization, Settlement, find_file, find_row, records_of, same_id,
};
use std::alloc::{AllocError, Global};
use vms_base::{FileName, Id, LogRec};

// The record of this serial.
fn find_record(records: &[LogRec], serial: &Id) -> Option<LogRec>
    ensures { option_map log_record_of result ≡ world.find_record (id_of serial.now) (log_records_of records.now) }
{
    match records {
        [] => None,
        [r, rest @ ..] => {
            if same_id(serial, &r.serial.0) {
                Some(r.copy())
            } else {
                find_record(rest, serial)
            }
        }
    }
}

// The records but for the one of this serial.
fn without_record(
    alloc: Global,
    records: Vec<LogRec>,
    serial: &Id,
) -> Result<Vec<LogRec>, AllocError>
    ensures { IfOk result (λ v. log_records_of v.items ≡ world.without_record (id_of serial.now) (log_records_of records.items)) }
{
    let mut rest = records;
    match take_first(&mut rest) {
        None => Ok(Vec::new(alloc)),
        Some(first) => {
            if same_id(serial, &first.serial.0) {
                Ok(rest)
            } else {
                let mut all = without_record(alloc, rest, serial)?;
                push_front(&mut all, first)?;
                Ok(all)
            }
        }
    }
}

// Records with those of the Prepared entries first, in their order.
fn in_order_of_entries(
    alloc: Global,
    entries: &[JournalEntry],
    records: Vec<LogRec>,
) -> Result<Vec<LogRec>, AllocError>
    ensures { IfOk result (λ v. log_records_of v.items ≡ world.records_by (world.prepared_serials (entries_of entries.now)) (log_records_of records.items)) }
{
    match entries {
        [] => Ok(records),
        [entry, rest @ ..] => match entry {
            JournalEntry::Changed(_, _, _, _) => in_order_of_entries(alloc, rest, records),
            JournalEntry::Settled(_, _, _) => in_order_of_entries(alloc, rest, records),
            JournalEntry::Prepared(branch) => {
                match find_record(records.as_slice(), &branch.serial) {
                    None => in_order_of_entries(alloc, rest, records),
                    Some(r) => {
                        let others = without_record(alloc, records, &branch.serial)?;
                        let mut all = in_order_of_entries(alloc, rest, others)?;
                        push_front(&mut all, r)?;
                        Ok(all)
                    }
                }
            }
        },
    }
}

// Whether a change from what was found moved the end of a sequential file, where this stands now.
fn is_moved(now: Option<&[u8]>, before: &Option<Vec<u8>>) -> bool
    ensures { result ≡ world.moved_end (lent_value now.entry) (value_of before.now) }
{
    before.is_none() || now.is_none()
}

// Whether an entry of this key moved the end of a sequential file.
fn moved_end(
    alloc: Global,
    f: &File,
    key: &Key,
    before: &Option<Vec<u8>>,
) -> Result<bool, AllocError>
    ensures { IfOk result (λ moved. moved ≡ world.moved_end (get (current (history_of f.now)) (key_of key.now)) (value_of before.now)) }
{
    let rows = records_of(alloc, f)?;
    let now = find_row(rows.as_slice(), key.lend());
    Ok(is_moved(now, before))
}

// A key, and perhaps the end of its file.
fn with_end(alloc: Global, key: &Key, end: bool) -> Result<Vec<Key>, AllocError>
    ensures { IfOk result (λ v. map key_of v.items ≡ key_with end (key_of key.now)) }
{
    let mut keys = Vec::new(alloc);
    if end {
        push_front(&mut keys, Key::End)?;
    }
    push_front(&mut keys, key.lend().own(alloc)?)?;
    Ok(keys)
}

// What a branch holds of a file after a boot, for an entry of its change of this key.
fn keys_left(
    alloc: Global,
    f: &File,
    key: &Key,
    before: &Option<Vec<u8>>,
) -> Result<Vec<Key>, AllocError>
    ensures { IfOk result (λ v. map key_of v.items ≡ world.keys_left (file_of f.now) (key_of key.now) (value_of before.now)) }
{
    match f.organization {
        Organization::Sequential => {
            let end = moved_end(alloc, f, key, before)?;
            with_end(alloc, key, end)
        }
        Organization::Relative { .. } => with_end(alloc, key, false),
        Organization::Indexed { .. } => with_end(alloc, key, false),
    }
}

// The locks with those of a branch for its change of a key.
fn relocked_key(
    alloc: Global,
    serial: &Id,
    f: &File,
    name: &FileName,
    key: &Key,
    before: &Option<Vec<u8>>,
    locks: Vec<Lock>,
) -> Result<Vec<Lock>, AllocError>
    ensures { IfOk result (λ v. locks_of v.items ≡ with_locks_said (id_of serial.now) name.now (world.keys_left (file_of f.now) (key_of key.now) (value_of before.now)) (locks_of locks.items)) }
{
    let keys = keys_left(alloc, f, key, before)?;
    with_locks(alloc, locks, serial, name, keys.as_slice())
}

// The locks with those for an entry of a branch.
fn relocked_for(
    alloc: Global,
    serial: &Id,
    files: &[Option<File>],
    entry: &JournalEntry,
    locks: Vec<Lock>,
) -> Result<Vec<Lock>, AllocError>
    ensures { IfOk result (λ v. locks_of v.items ≡ world.relocked_for (id_of serial.now) (directory_of files.now) (entry_of entry.now) (locks_of locks.items)) }
{
    match entry {
        JournalEntry::Changed(branch, file, key, before) => {
            if !same_id(serial, &branch.serial) {
                return Ok(locks);
            }
            match find_file(files, file) {
                None => Ok(locks),
                Some(f) => relocked_key(alloc, serial, f, file, key, before, locks),
            }
        }
        JournalEntry::Prepared(_) => Ok(locks),
        JournalEntry::Settled(_, _, _) => Ok(locks),
    }
}

// The locks with those for all its entries.
fn relocked_by(
    alloc: Global,
    serial: &Id,
    files: &[Option<File>],
    entries: &[JournalEntry],
    locks: Vec<Lock>,
) -> Result<Vec<Lock>, AllocError>
    ensures { IfOk result (λ v. locks_of v.items ≡ world.relocked_by (id_of serial.now) (directory_of files.now) (entries_of entries.now) (locks_of locks.items)) }
{
    match entries {
        [] => Ok(locks),
        [e, rest @ ..] => {
            let more = relocked_for(alloc, serial, files, e, locks)?;
            relocked_by(alloc, serial, files, rest, more)
        }
    }
}

/// The branches of records.
pub fn keys_of_records(alloc: Global, records: &[LogRec]) -> Result<Vec<BranchKey>, AllocError>
    ensures { IfOk result (λ v. map branch_key_of v.items ≡ map (λ r. record_key r) (log_records_of records.now)) }
{
    match records {
        [] => Ok(Vec::new(alloc)),
        [r, rest @ ..] => {
            let mut all = keys_of_records(alloc, rest)?;
            push_front(
                &mut all,
                BranchKey {
                    tid: r.tid.0,
                    serial: r.serial.0,
                },
            )?;
            Ok(all)
        }
    }
}

// The line of the last settlement on the disk.
fn last_line(last: Settlement) -> Line
    ensures { line_of result ∷ [] ≡ answers.last_line (settlement_of last) }
{
    let branch = BranchKey {
        tid: last.tid,
        serial: last.serial,
    };
    match last.reason {
        None => Line::LastCommitted(branch, last.moment),
        Some(reason) => Line::LastAborted(branch, reason, last.moment),
    }
}

impl Durable {
    /// The records of the branches that are prepared: those with an entry in the order of the entries, and then the others in the order of the slots.
    pub fn prepared(&self, alloc: Global) -> Result<Vec<LogRec>, AllocError>
        ensures { IfOk result (λ v. log_records_of v.items ≡ world.prepared_left (durable_of self.now)) }
    {
        let found = prepared_in(alloc, self.log.as_slice())?;
        in_order_of_entries(alloc, self.units.entries.as_slice(), found)
    }

    /// The committed records, in the order of the slots.
    pub fn committed(&self, alloc: Global) -> Result<Vec<LogRec>, AllocError>
        ensures { IfOk result (λ v. log_records_of v.items ≡ log.committed_of (log.records_in (slots_of self.now.log.items))) }
    {
        committed_in(alloc, self.log.as_slice())
    }

    /// How many they are.
    pub fn committed_count(&self) -> usize
        ensures count { result ≡ length (log.committed_of (log.records_in (slots_of self.now.log.items))) }
        ensures few { result ≤ length self.now.log.items }
    {
        count_committed(self.log.as_slice())
    }

    // The locks with those that the branches of these records hold after a boot.
    fn relocked(
        &self,
        alloc: Global,
        records: &[LogRec],
        locks: Vec<Lock>,
    ) -> Result<Vec<Lock>, AllocError>
        ensures { IfOk result (λ v. locks_of v.items ≡ world.relocked (log_records_of records.now) (durable_of self.now) (locks_of locks.items)) }
    {
        match records {
            [] => Ok(locks),
            [r, rest @ ..] => {
                let more = relocked_by(
                    alloc,
                    &r.serial.0,
                    self.directory.as_slice(),
                    self.units.entries.as_slice(),
                    locks,
                )?;
                self.relocked(alloc, rest, more)
            }
        }
    }

    /// The keys that the branches of these records hold after a boot.
    pub fn locks_left(&self, alloc: Global, records: &[LogRec]) -> Result<Vec<Lock>, AllocError>
        ensures { IfOk result (λ v. locks_of v.items ≡ world.relocked (log_records_of records.now) (durable_of self.now) []) }
    {
        self.relocked(alloc, records, Vec::new(alloc))
    }

    /// The units that a boot undoes.
    pub fn units_left(&self, alloc: Global) -> Result<Vec<Unit>, AllocError>
        ensures { IfOk result (λ v. units_of v.items ≡ answers.left_active (disk_node self.now)) }
    {
        let units = units_in(alloc, self.units.entries.as_slice())?;
        active_units(alloc, units.as_slice())
    }

    /// The line of the last settlement.
    pub fn last_shown(&self) -> Option<Line>
        ensures { one_line (option_map line_of result) ≡ answers.last_lines (disk_node self.now) }
    {
        match self.last {
            Some(s) => Some(last_line(s)),
            None => None,
        }
    }
}
