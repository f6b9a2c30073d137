// What the entries of a journal told so far.
ghost use Rattle.std.specs.Prelude.{◌≡◌, ℕ, ◌<◌, ◌≤◌, ◌+◌, ◌*◌, ◌==◌, ◌++◌, List, [], ◌∷◌, Option, Some, None, false, length, map, option_map, option_copied, IfOk, OnOk, OnErr, IfSome, IfNone, is_err, vec_capacity, if◌then◌else◌};
ghost use Rattle.std.specs.List.{list_any};
ghost use Rattle.vms_base.specs.vms_model.Limits.{branch_limit, entry_limit, file_limit};
ghost use Rattle.table_keys.specs.records_model.History.{same_id};
ghost use Rattle.vms_base.specs.Ids.{serial_of};
ghost use Rattle.indexmap.specs.IndexSet.{spare};
ghost use Rattle.journal_format.specs.Heads.{entry_of, kind_code};
ghost use Rattle.ru_journal.specs.Told.{nothing_told, find_unit, units_after, after, unit_refuses, is_out_of_order, owed, earliest};
ghost use Rattle.ru_journal.specs.Units.{unit_of, id_of_key, FewChanges, IsPlace};

use crate::unit::{UnitInfo, is_same};
use indexmap::IndexSet;
use journal_format::{EntryHead, EntryKind};
use std::alloc::{AllocError, Global};
use std::marker::Model;
use table_keys::BranchKey;
use thiserror::Error;
use vms_base::Serial;

/// How many units may be unsettled.
pub const MOST_UNITS: usize = 64;

/// How many entries may be taken: as many of the shortest as the longest ring holds.
pub const MOST_ENTRIES: u32 = 87_381;

/// An entry may not stand behind those before it.
#[derive(Clone, Copy, Debug, PartialEq, Eq, Drop, Error)]
pub enum RuErr {
    /// Its branch is settled, or names another transaction, or is prepared, or has 1,024 changes; or 64 units are unsettled.
    #[error("an entry of the journal is out of order")]
    Order,
}

/// What the entries of a recovery unit journal tell: the units that are not settled, in the order of their first changes.
#[derive(Drop)]
pub struct RuState {
    units: Vec<UnitInfo>,
    settled: IndexSet<BranchKey>,
    taken: u32,
}

impl Model for RuState {
    ghost use Rattle.std.specs.Prelude.{map};
    ghost use Rattle.ru_journal.specs.Told.{JournalScan};
    ghost use Rattle.ru_journal.specs.Units.{unit_of, id_of_key, IsState};

    ghost Value = { JournalScan };

    ghost view = { λ s. record { entries = s.taken; units = map unit_of s.units.items; settled = map id_of_key s.settled.keys } };

    ghost invariant = { λ s. IsState s.units s.settled s.taken };
}

// Where the first unit of a branch stands.
fn place_of(units: &[UnitInfo], serial: &Serial) -> Option<usize>
    ensures found { IfSome result (IsPlace (serial_of serial.now) units.now) }
    ensures none { IfNone result (find_unit (serial_of serial.now) (map unit_of units.now) ≡ None) }
{
    for (i, unit) in units.iter().enumerate() {
        if is_same(&serial.0, &unit.serial.0) {
            return Some(i);
        }
    }
    None
}

// Whether an entry tells that a branch is settled.
fn settles(e: &EntryHead) -> bool
    ensures { result ≡ (kind_code e.now.kind == 3) }
{
    match e.kind {
        EntryKind::Settled => true,
        _ => false,
    }
}

// Whether an entry tells of a change.
fn changes(e: &EntryHead) -> bool
    ensures { result ≡ (kind_code e.now.kind == 1) }
{
    match e.kind {
        EntryKind::Change => true,
        _ => false,
    }
}

// Whether an entry may not follow those that told these units.
fn is_refused(units: &[UnitInfo], e: &EntryHead) -> bool
    ensures { result ≡ unit_refuses (entry_of e.now []) (length units.now) (find_unit (serial_of e.now.serial) (map unit_of units.now)) }
{
    match place_of(units, &e.serial) {
        Some(i) => units[i].refuses(e),
        None => changes(e) && units.len() >= MOST_UNITS,
    }
}

// The units after one entry more.
fn put_entry(units: &mut Vec<UnitInfo>, position: u64, e: &EntryHead)
    requires file { e.now.file < file_limit }
    requires places { branch_limit ≤ vec_capacity units.old }
    requires few { length units.old.items ≤ branch_limit }
    requires changes { FewChanges units.old.items }
    requires may { unit_refuses (entry_of e.now []) (length units.old.items) (find_unit (serial_of e.now.serial) (map unit_of units.old.items)) ≡ false }
    ensures units { map unit_of units.new.items ≡ units_after position (entry_of e.now []) (map unit_of units.old.items) }
    ensures places { branch_limit ≤ vec_capacity units.new }
    ensures few { length units.new.items ≤ branch_limit }
    ensures changes { FewChanges units.new.items }
{
    let place = place_of(units, &e.serial);
    if settles(e) {
        if let Some(i) = place {
            let _ = units.remove(i);
        }
        return;
    }
    match place {
        Some(i) => {
            let unit = units[i].more(e);
            units[i] = unit;
        }
        None => {
            if changes(e) {
                let unit = UnitInfo::begin(position, e);
                units.push_reserved(unit);
            }
        }
    }
}

// Whether a branch is among those that are settled.
fn is_settled(settled: &IndexSet<BranchKey>, serial: &Serial) -> bool
    ensures { result ≡ list_any (same_id (serial_of serial.now)) (map id_of_key settled.now.keys) }
{
    settled.contains(&BranchKey { serial: *serial })
}

// The branches that are settled, after one entry more.
fn note_settled(settled: &mut IndexSet<BranchKey>, e: &EntryHead)
    requires room { 0 < spare settled.old }
    requires new { list_any (same_id (serial_of e.now.serial)) (map id_of_key settled.old.keys) ≡ false }
    ensures branches { map id_of_key settled.new.keys ≡ (if kind_code e.now.kind == 3 then map id_of_key settled.old.keys ++ serial_of e.now.serial ∷ [] else map id_of_key settled.old.keys) }
    ensures few { length settled.new.keys ≤ length settled.old.keys + 1 }
    ensures room { length settled.old.keys + spare settled.old ≤ length settled.new.keys + spare settled.new }
{
    if settles(e) {
        let _ = settled.insert(BranchKey { serial: e.serial });
    }
}

// How many bytes of the ring units will still take.
fn owed_by(units: &[UnitInfo]) -> u32
    requires few { length units.now ≤ branch_limit }
    ensures value { result ≡ owed (map unit_of units.now) }
    ensures few { result ≤ 96 * length units.now }
{
    match units {
        [] => 0,
        [unit, rest @ ..] => unit.owed() + owed_by(rest),
    }
}

// Where the earliest Change of units begins.
fn earliest_of(units: &[UnitInfo]) -> Option<u64>
    ensures { result ≡ earliest (map unit_of units.now) }
{
    match units {
        [] => None,
        [unit, rest @ ..] => {
            if unit.changes > 0 {
                Some(unit.first)
            } else {
                earliest_of(rest)
            }
        }
    }
}

impl RuState {
    /// Nothing was taken, and there is room for 87,381 entries. An error where there is no memory for them.
    pub fn reserve(alloc: Global) -> Result<RuState, AllocError>
        ensures { IfOk result (λ s. s ≡ nothing_told) }
    {
        let units = Vec::with_capacity(alloc, MOST_UNITS)?;
        let settled = IndexSet::with_capacity(alloc, MOST_ENTRIES as usize)?;
        Ok(RuState {
            units,
            settled,
            taken: 0,
        })
    }

    /// Forgets all entries.
    pub fn clear(&mut self)
        ensures { self.new ≡ nothing_told }
    {
        self.units.clear();
        self.settled.truncate(0);
        self.taken = 0;
    }

    /// Takes one entry more, which begins at this position. Order, and nothing changes, exactly where it may not stand behind those before it.
    pub fn take(&mut self, position: u64, e: &EntryHead) -> Result<(), RuErr>
        requires room { self.old.entries < entry_limit }
        requires file { e.now.file < file_limit }
        ensures takes { OnOk result (self.new ≡ after position (entry_of e.now []) self.old) }
        ensures order { is_err result ≡ is_out_of_order (entry_of e.now []) self.old }
        ensures same { OnErr result (self.new ≡ self.old) }
    {
        if is_settled(&self.settled, &e.serial) || is_refused(&self.units, e) {
            return Err(RuErr::Order);
        }
        put_entry(&mut self.units, position, e);
        note_settled(&mut self.settled, e);
        self.taken += 1;
        Ok(())
    }

    /// How many entries were taken since `reserve` or `clear`.
    pub fn taken(&self) -> u32
        ensures { result ≡ self.now.entries }
    {
        self.taken
    }

    /// The units that are not settled.
    pub fn units(&self) -> &[UnitInfo]
        ensures value { map unit_of result.now ≡ self.now.units }
        ensures few { length self.now.units ≤ branch_limit }
    {
        &self.units
    }

    /// The unit of a branch.
    pub fn find(&self, serial: Serial) -> Option<&UnitInfo>
        ensures { option_map unit_of (option_copied result) ≡ find_unit (serial_of serial) self.now.units }
    {
        match place_of(&self.units, &serial) {
            Some(i) => Some(&self.units[i]),
            None => None,
        }
    }

    /// How many bytes of the ring the units will still take: 96 each, 48 where it is prepared.
    pub fn owed(&self) -> u32
        ensures { result ≡ owed self.now.units }
    {
        owed_by(&self.units)
    }

    /// Where the earliest Change of a unit begins. None where no unit has one.
    pub fn earliest(&self) -> Option<u64>
        ensures { result ≡ earliest self.now.units }
    {
        earliest_of(&self.units)
    }
}
