// How many bytes entries take.
ghost use Rattle.std.specs.Prelude.{◌≡◌, ◌+◌, ◌-◌, ◌*◌, ◌^◌, ◌≤◌, ◌<◌, ℕ, length};
ghost use Rattle.unit_laws.specs.Journal as model;
ghost use Rattle.reference_index.specs.run_model.Answers as answers;
ghost use Rattle.vms_base.specs.Ids.{id_of};
ghost use Rattle.reference_units.specs.Entries.{entry_of, entries_of, journal_of, unit_of, units_of};

use crate::journal::{Journal, JournalEntry};
use crate::units::{Unit, find_unit};
use reference_world::{key_size, value_size};
use vms_base::Id;

/// How many bytes an entry takes.
pub fn entry_size(entry: &JournalEntry) -> u128
    ensures size { result ≡ model.entry_size (entry_of entry.now) }
    ensures few { result ≤ 2 ^ 64 + 64 }
{
    match entry {
        JournalEntry::Changed(_, _, key, before) => {
            48 + u128::from(key_size(key)) + u128::from(value_size(before))
        }
        JournalEntry::Prepared(_) => 48,
        JournalEntry::Settled(_, _, _) => 48,
    }
}

/// How many bytes entries take.
pub fn entries_size(entries: &[JournalEntry]) -> u128
    ensures size { result ≡ model.entries_size (entries_of entries.now) }
    ensures few { result ≤ length entries.now * (2 ^ 64 + 64) }
{
    match entries {
        [] => 0,
        [e, rest @ ..] => entry_size(e) + entries_size(rest),
    }
}

/// The position behind the last entry.
pub fn end_of(journal: &Journal) -> u64
    requires { model.end_of (journal_of journal.now) < 2 ^ 64 }
    ensures { result ≡ model.end_of (journal_of journal.now) }
{
    journal.first + entries_size(journal.entries.as_slice()) as u64
}

// How many bytes a unit is owed.
fn owed_to(unit: &Unit) -> u128
    ensures owed { result ≡ model.owed_to (unit_of unit.now) }
    ensures few { result ≤ 96 }
{
    if unit.prepared { 48 } else { 96 }
}

// How many bytes these units are owed.
fn owed(units: &[Unit]) -> u128
    ensures owed { result ≡ model.owed (units_of units.now) }
    ensures few { result ≤ length units.now * 96 }
{
    match units {
        [] => 0,
        [u, rest @ ..] => owed_to(u) + owed(rest),
    }
}

/// What a branch is owed with its first change: nothing where it is one of these units already.
pub fn owed_first(units: &[Unit], serial: &Id) -> u64
    ensures owed { result ≡ answers.owed_first (model.find_unit (id_of serial.now) (units_of units.now)) }
    ensures few { result ≤ 96 }
{
    match find_unit(units, serial) {
        Some(_) => 0,
        None => 96,
    }
}

/// How many bytes of a journal of so many blocks are free: those that no entry takes and no unit is owed.
pub fn free_bytes(blocks: u32, entries: &[JournalEntry], units: &[Unit]) -> u64
    ensures { result ≡ 512 * blocks - model.entries_size (entries_of entries.now) - model.owed (units_of units.now) }
{
    let all = 512 * u128::from(blocks);
    all.saturating_sub(entries_size(entries))
        .saturating_sub(owed(units)) as u64
}
