// The branches that have changes in the journal and are not settled there.
ghost use Rattle.std.specs.Prelude.{◌≡◌, ◌+◌, ◌^◌, ◌≤◌, ◌<◌, ℕ, [], length, option_map, IfOk, IfSome};
ghost use Rattle.unit_laws.specs.Journal as model;
ghost use Rattle.reference_index.specs.run_model.World as world;
ghost use Rattle.vms_base.specs.Ids.{id_of};
ghost use Rattle.reference_units.specs.Entries.{entry_of, entries_of, unit_of, units_of, counted};

use crate::journal::JournalEntry;
use reference_index::{push_front, take_first};
use reference_world::{BranchKey, same_id};
use std::alloc::{AllocError, Global};
use vms_base::Id;

/// A unit: its branch, how many changes this made, and whether it is prepared.
#[derive(Clone, Copy, Drop)]
pub struct Unit {
    pub branch: BranchKey,
    pub changes: u64,
    pub prepared: bool,
}

// One change more of a branch, which joins behind the others with its first.
fn with_one_change(
    alloc: Global,
    units: Vec<Unit>,
    branch: &BranchKey,
) -> Result<Vec<Unit>, AllocError>
    requires { counted units.items < 2 ^ 63 }
    ensures units { IfOk result (λ v. units_of v.items ≡ model.with_one_change (id_of branch.now.tid) (id_of branch.now.serial) (units_of units.items)) }
    ensures counted { IfOk result (λ v. counted v.items ≡ counted units.items + 1) }
{
    let mut rest = units;
    match take_first(&mut rest) {
        None => {
            let mut all = Vec::new(alloc);
            push_front(
                &mut all,
                Unit {
                    branch: *branch,
                    changes: 1,
                    prepared: false,
                },
            )?;
            Ok(all)
        }
        Some(first) => {
            if same_id(&branch.serial, &first.branch.serial) {
                let unit = Unit {
                    branch: first.branch,
                    changes: first.changes + 1,
                    prepared: first.prepared,
                };
                push_front(&mut rest, unit)?;
                Ok(rest)
            } else {
                let mut all = with_one_change(alloc, rest, branch)?;
                push_front(&mut all, first)?;
                Ok(all)
            }
        }
    }
}

// The unit of a branch is prepared.
fn with_prepared(alloc: Global, units: Vec<Unit>, serial: &Id) -> Result<Vec<Unit>, AllocError>
    ensures units { IfOk result (λ v. units_of v.items ≡ model.with_prepared (id_of serial.now) (units_of units.items)) }
    ensures counted { IfOk result (λ v. counted v.items ≤ counted units.items) }
{
    let mut rest = units;
    match take_first(&mut rest) {
        None => Ok(Vec::new(alloc)),
        Some(first) => {
            if same_id(serial, &first.branch.serial) {
                let unit = Unit {
                    branch: first.branch,
                    changes: first.changes,
                    prepared: true,
                };
                push_front(&mut rest, unit)?;
                Ok(rest)
            } else {
                let mut all = with_prepared(alloc, rest, serial)?;
                push_front(&mut all, first)?;
                Ok(all)
            }
        }
    }
}

// The units but for that of a branch.
fn without_unit(alloc: Global, units: Vec<Unit>, serial: &Id) -> Result<Vec<Unit>, AllocError>
    ensures units { IfOk result (λ v. units_of v.items ≡ model.without_unit (id_of serial.now) (units_of units.items)) }
    ensures counted { IfOk result (λ v. counted v.items ≤ counted units.items) }
{
    let mut rest = units;
    match take_first(&mut rest) {
        None => Ok(Vec::new(alloc)),
        Some(first) => {
            let mut all = without_unit(alloc, rest, serial)?;
            if !same_id(serial, &first.branch.serial) {
                push_front(&mut all, first)?;
            }
            Ok(all)
        }
    }
}

// The units after one entry more.
fn units_after(
    alloc: Global,
    units: Vec<Unit>,
    entry: &JournalEntry,
) -> Result<Vec<Unit>, AllocError>
    requires { counted units.items < 2 ^ 63 }
    ensures units { IfOk result (λ v. units_of v.items ≡ model.units_after (entry_of entry.now) (units_of units.items)) }
    ensures counted { IfOk result (λ v. counted v.items ≤ counted units.items + 1) }
{
    match entry {
        JournalEntry::Changed(branch, _, _, _) => with_one_change(alloc, units, branch),
        JournalEntry::Prepared(branch) => with_prepared(alloc, units, &branch.serial),
        JournalEntry::Settled(branch, _, _) => without_unit(alloc, units, &branch.serial),
    }
}

// The units after more entries.
fn units_onto(
    alloc: Global,
    units: Vec<Unit>,
    entries: &[JournalEntry],
) -> Result<Vec<Unit>, AllocError>
    requires { counted units.items + length entries.now ≤ 2 ^ 63 }
    ensures units { IfOk result (λ v. units_of v.items ≡ model.units_onto (units_of units.items) (entries_of entries.now)) }
    ensures counted { IfOk result (λ v. counted v.items ≤ 2 ^ 63) }
{
    match entries {
        [] => Ok(units),
        [e, rest @ ..] => {
            let more = units_after(alloc, units, e)?;
            units_onto(alloc, more, rest)
        }
    }
}

/// The units that these entries tell, in the order of their first entries.
pub fn units_in(alloc: Global, entries: &[JournalEntry]) -> Result<Vec<Unit>, AllocError>
    ensures units { IfOk result (λ v. units_of v.items ≡ model.units_in (entries_of entries.now)) }
    ensures counted { IfOk result (λ v. counted v.items ≤ 2 ^ 63) }
{
    units_onto(alloc, Vec::new(alloc), entries)
}

/// The unit of a branch.
pub fn find_unit(units: &[Unit], serial: &Id) -> Option<Unit>
    ensures unit { option_map unit_of result ≡ model.find_unit (id_of serial.now) (units_of units.now) }
    ensures counted { IfSome result (λ u. u.changes ≤ counted units.now) }
{
    match units {
        [] => None,
        [u, rest @ ..] => {
            if same_id(serial, &u.branch.serial) {
                Some(*u)
            } else {
                find_unit(rest, serial)
            }
        }
    }
}

/// How many changes a branch made, as these units of a journal tell.
pub fn changes_made(units: &[Unit], serial: &Id) -> u64
    ensures changes { (j : model.Journal) → units_of units.now ≡ model.units_in j.entries → result ≡ world.changes_made (id_of serial.now) j }
    ensures counted { result ≤ counted units.now }
{
    match find_unit(units, serial) {
        Some(u) => u.changes,
        None => 0,
    }
}

/// The units that are not prepared.
pub fn active_units(alloc: Global, units: &[Unit]) -> Result<Vec<Unit>, AllocError>
    ensures { IfOk result (λ v. units_of v.items ≡ model.active_units (units_of units.now)) }
{
    match units {
        [] => Ok(Vec::new(alloc)),
        [u, rest @ ..] => {
            let mut all = active_units(alloc, rest)?;
            if u.prepared {
                Ok(all)
            } else {
                push_front(&mut all, *u)?;
                Ok(all)
            }
        }
    }
}
