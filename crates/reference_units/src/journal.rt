// The journal of recovery units, as its entries.
ghost use Rattle.std.specs.Prelude.{◌≡◌, ◌+◌, ◌^◌, ◌≤◌, ◌<◌, ℕ, List, [], IfOk};
ghost use Rattle.unit_laws.specs.Journal as model;
ghost use Rattle.vms_base.specs.Outcomes.{outcome_of};
ghost use Rattle.vms_base.specs.Ids.{id_of};
ghost use Rattle.reference_index.specs.Standing.{key_of, value_of, changes_of};
ghost use Rattle.reference_world.specs.Standing.{outcome_by};
ghost use Rattle.reference_units.specs.Entries.{entry_of, entries_of, journal_of, units_of, entered, prepared_in};

use crate::sizes::entries_size;
use crate::units::{Unit, find_unit, units_in};
use reference_index::{
    Change, Key, append, lend_value, own_value, push_back, push_front, take_first,
};
use reference_world::{BranchKey, Settlement, WrittenMoment};
use std::alloc::{AllocError, Global};
use vms_base::{FileName, Outcome};

/// An entry.
#[derive(Drop)]
pub enum JournalEntry {
    /// A branch changed this key of a file, which had this record before, or none.
    Changed(BranchKey, FileName, Key, Option<Vec<u8>>),
    /// A branch is prepared.
    Prepared(BranchKey),
    /// A branch was settled so, at this moment.
    Settled(BranchKey, Outcome, WrittenMoment),
}

/// The position of the first entry, and the entries, the oldest first.
#[derive(Drop)]
pub struct Journal {
    pub first: u64,
    pub entries: Vec<JournalEntry>,
}

/// The journal of a new volume.
pub fn empty_journal(alloc: Global) -> Journal
    ensures { journal_of result ≡ model.empty_journal }
{
    Journal {
        first: 0,
        entries: Vec::new(alloc),
    }
}

// The entry of a change.
fn changed(
    alloc: Global,
    branch: &BranchKey,
    file: FileName,
    change: &Change,
) -> Result<JournalEntry, AllocError>
    ensures { IfOk result (λ e. entry_of e ≡ model.ChangeEntry (id_of branch.now.tid) (id_of branch.now.serial) file (key_of change.now.key) (value_of change.now.before)) }
{
    let key = change.key.lend().own(alloc)?;
    let before = own_value(alloc, lend_value(&change.before))?;
    Ok(JournalEntry::Changed(*branch, file, key, before))
}

/// The entries of changes of one branch, which stand newest first.
pub fn entries_for(
    alloc: Global,
    branch: &BranchKey,
    file: FileName,
    changes: &[Change],
) -> Result<Vec<JournalEntry>, AllocError>
    ensures { IfOk result (λ v. entries_of v.items ≡ model.entries_for (id_of branch.now.tid) (id_of branch.now.serial) file (changes_of changes.now)) }
{
    match changes {
        [] => Ok(Vec::new(alloc)),
        [c, rest @ ..] => {
            let mut entries = entries_for(alloc, branch, file, rest)?;
            push_back(&mut entries, changed(alloc, branch, file, c)?)?;
            Ok(entries)
        }
    }
}

/// The journal with changes of a branch, which stand newest first.
pub fn with_changes(
    alloc: Global,
    journal: Journal,
    branch: &BranchKey,
    file: FileName,
    changes: &[Change],
) -> Result<Journal, AllocError>
    ensures { IfOk result (λ j. journal_of j ≡ model.with_entries (model.entries_for (id_of branch.now.tid) (id_of branch.now.serial) file (changes_of changes.now)) (journal_of journal)) }
{
    let more = entries_for(alloc, branch, file, changes)?;
    Ok(Journal {
        first: journal.first,
        entries: append(journal.entries, more)?,
    })
}

// Whether an entry is a change of one of these units.
fn is_of_units(units: &[Unit], entry: &JournalEntry) -> bool
    ensures { result ≡ model.is_of_units (units_of units.now) (entry_of entry.now) }
{
    match entry {
        JournalEntry::Changed(branch, _, _, _) => find_unit(units, &branch.serial).is_some(),
        JournalEntry::Prepared(_) => false,
        JournalEntry::Settled(_, _, _) => false,
    }
}

// The entries from the earliest change of one of these units on.
fn entries_from(
    alloc: Global,
    units: &[Unit],
    entries: Vec<JournalEntry>,
) -> Result<Vec<JournalEntry>, AllocError>
    ensures { IfOk result (λ v. entries_of v.items ≡ model.entries_from (units_of units.now) (entries_of entries.items)) }
{
    let mut rest = entries;
    match take_first(&mut rest) {
        None => Ok(Vec::new(alloc)),
        Some(first) => {
            if is_of_units(units, &first) {
                push_front(&mut rest, first)?;
                Ok(rest)
            } else {
                entries_from(alloc, units, rest)
            }
        }
    }
}

/// The journal without the entries before the earliest change of a branch that is not settled.
pub fn without_settled(alloc: Global, journal: Journal) -> Result<Journal, AllocError>
    requires { model.end_of (journal_of journal) < 2 ^ 64 }
    ensures { IfOk result (λ j. journal_of j ≡ model.trimmed (journal_of journal)) }
{
    let units = units_in(alloc, journal.entries.as_slice())?;
    let all = entries_size(journal.entries.as_slice());
    let left = entries_from(alloc, units.as_slice(), journal.entries)?;
    let gone = all.saturating_sub(entries_size(left.as_slice())) as u64;
    Ok(Journal {
        first: journal.first + gone,
        entries: left,
    })
}

/// The journal with the entry of a branch that is prepared, where it is a unit.
pub fn with_prepared(
    alloc: Global,
    journal: Journal,
    branch: &BranchKey,
) -> Result<Journal, AllocError>
    ensures { IfOk result (λ j. journal_of j ≡ prepared_in (id_of branch.now.tid) (id_of branch.now.serial) (journal_of journal)) }
{
    let units = units_in(alloc, journal.entries.as_slice())?;
    if find_unit(units.as_slice(), &branch.serial).is_none() {
        return Ok(journal);
    }
    let mut entries = journal.entries;
    push_back(&mut entries, JournalEntry::Prepared(*branch))?;
    Ok(Journal {
        first: journal.first,
        entries,
    })
}

// The journal with the entry of a settlement, where the branch is a unit.
fn with_entry(alloc: Global, journal: Journal, s: Settlement) -> Result<Journal, AllocError>
    ensures { IfOk result (λ j. journal_of j ≡ entered (id_of s.tid) (id_of s.serial) (outcome_by s.reason) s.moment.hundredths (journal_of journal)) }
{
    let units = units_in(alloc, journal.entries.as_slice())?;
    if find_unit(units.as_slice(), &s.serial).is_none() {
        return Ok(journal);
    }
    let mut entries = journal.entries;
    push_back(
        &mut entries,
        JournalEntry::Settled(
            BranchKey {
                tid: s.tid,
                serial: s.serial,
            },
            s.outcome(),
            s.moment,
        ),
    )?;
    Ok(Journal {
        first: journal.first,
        entries,
    })
}

/// The journal after a branch was settled: where it was a unit it has an entry more, and the entries before the earliest unsettled change go.
pub fn with_settled(alloc: Global, journal: Journal, s: Settlement) -> Result<Journal, AllocError>
    requires { model.end_of (journal_of journal) + 48 < 2 ^ 64 }
    ensures { IfOk result (λ j. journal_of j ≡ model.with_settled (id_of s.tid) (id_of s.serial) (outcome_by s.reason) s.moment.hundredths (journal_of journal)) }
{
    let entered = with_entry(alloc, journal, s)?;
    without_settled(alloc, entered)
}
