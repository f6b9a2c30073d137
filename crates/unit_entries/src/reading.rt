// The journal of recovery units as a restart reads it.
ghost use Rattle.std.specs.Prelude.{◌≡◌, ◌≤◌, ◌<◌, ◌+◌, ◌^◌, ◌∷◌, ◌++◌, ◌==◌, ℕ, List, [], None, true, false, OnOk, OnErr, IfOk, IfErr, IfSome, IsSome, length, is_err, map, vec_capacity};
ghost use Rattle.vms_base.specs.vms_model.Limits.{branch_limit, change_limit, entry_limit, file_limit};
ghost use Rattle.vms_base.specs.Ids.{serial_of, tid_of};
ghost use Rattle.journal_format.specs.Heads.{entry_of, kind_code};
ghost use Rattle.journal_format.specs.journal_model.Entries.{Entry};
ghost use Rattle.journal_format.specs.journal_model.Ring.{IsJournal};
ghost use Rattle.journal_store.specs.Leaving.{OnlyReads, Fell};
ghost use Rattle.journal_store.specs.Rings.{IsRing};
ghost use Rattle.ru_journal.specs.Told.{after, is_out_of_order, nothing_told, told_by};
ghost use Rattle.tm_types.specs.Parts.{log_record_of};
ghost use Rattle.unit_table.specs.Units.{begun, first_that, is_of, new_unit, unit_at, with_unit, without_first};
ghost use Rattle.unit_entries.specs.Opening.{AreAlike, AreChangesIn, AreFiledOf, AscendWithin, BeginWithin, more_open, opened_after};
ghost use Rattle.unit_entries.specs.Reading.{placed, AreInOrder};
ghost use Rattle.unit_entries.specs.Voting.{IsVoted};

use crate::voting::take_vote;
use block_disk::Disk;
use careful_write::{Down, Store};
use file_base::Span;
use journal_format::{EntryHead, EntryKind};
use journal_store::entry_at;
use ru_journal::{MOST_ENTRIES, RuState};
use unit_table::UnitTable;
use vms_base::{LogRec, Record, Serial};

// Whether an entry tells that a branch is settled.
fn settles(e: &EntryHead) -> bool
    ensures { result ≡ (kind_code e.now.kind == 3) }
{
    match e.kind {
        EntryKind::Settled => true,
        _ => false,
    }
}

// Whether an entry tells of a change.
fn changes(e: &EntryHead) -> bool
    ensures { result ≡ (kind_code e.now.kind == 1) }
{
    match e.kind {
        EntryKind::Change => true,
        _ => false,
    }
}

// Notes what an entry at a position tells of the unit at a place.
fn note_entry(units: &mut UnitTable, place: u8, position: u64, e: &EntryHead)
    requires file { e.now.file < file_limit }
    requires there { IsSome (unit_at units.old.places place) }
    requires room { IfSome (unit_at units.old.places place) (λ w. kind_code e.now.kind ≡ 1 → length w.positions < change_limit) }
    ensures { IfSome (unit_at units.old.places place) (λ w. units.new ≡ with_unit place (more_open position (entry_of e.now []) w) units.old) }
{
    match e.kind {
        EntryKind::Change => units.note(place, position, e.file),
        _ => units.prepare(place),
    }
}

// The unit of a branch begins with an entry at a position.
fn open_unit(units: &mut UnitTable, position: u64, e: &EntryHead)
    requires file { e.now.file < file_limit }
    requires places { length (begun units.old) < branch_limit }
    ensures { begun units.new ≡ begun units.old ++ more_open position (entry_of e.now []) (new_unit (tid_of e.now.tid) (serial_of e.now.serial)) ∷ [] }
{
    units.stand_in_order();
    let Some(place) = units.begin(e.tid, e.serial) else {
        unreachable!()
    };
    note_entry(units, place, position, e);
}

// The unit of a branch is no more, where it has one.
fn forget_unit(units: &mut UnitTable, serial: &Serial)
    ensures { begun units.new ≡ without_first (is_of (serial_of serial.now)) (begun units.old) }
{
    match units.find(serial) {
        Some(place) => units.remove(place),
        None => {}
    }
}

// The units after one entry more.
fn follow_entry(units: &mut UnitTable, position: u64, e: &EntryHead)
    requires file { e.now.file < file_limit }
    requires room { IfSome (first_that (is_of (serial_of e.now.serial)) (begun units.old)) (λ w. kind_code e.now.kind ≡ 1 → length w.positions < change_limit) }
    requires places { first_that (is_of (serial_of e.now.serial)) (begun units.old) ≡ None → (kind_code e.now.kind == 1) ≡ true → length (begun units.old) < branch_limit }
    ensures { begun units.new ≡ opened_after position (entry_of e.now []) (begun units.old) }
{
    if settles(e) {
        forget_unit(units, &e.serial);
        return;
    }
    match units.find(&e.serial) {
        Some(place) => note_entry(units, place, position, e),
        None => {
            if changes(e) {
                open_unit(units, position, e);
            }
        }
    }
}

// Takes one entry more, where all before it were taken. False where they were not, or it may not stand there, or there is no room for it.
fn take_entry(
    whole: bool,
    state: &mut RuState,
    units: &mut UnitTable,
    position: u64,
    e: &EntryHead,
) -> bool
    requires alike { whole ≡ true → AreAlike state.old.units (begun units.old) }
    ensures before { result ≡ true → whole ≡ true }
    ensures taken { result ≡ true → state.new ≡ after position (entry_of e.now []) state.old }
    ensures units { result ≡ true → begun units.new ≡ opened_after position (entry_of e.now []) (begun units.old) }
    ensures order { result ≡ true → is_out_of_order (entry_of e.now []) state.old ≡ false }
    ensures alike { result ≡ true → AreAlike state.new.units (begun units.new) }
    ensures may { whole ≡ true → state.old.entries < entry_limit → e.now.file < file_limit → is_out_of_order (entry_of e.now []) state.old ≡ false → result ≡ true }
{
    if !whole || state.taken() >= MOST_ENTRIES || e.file >= 64 {
        return false;
    }
    if state.take(position, e).is_err() {
        return false;
    }
    follow_entry(units, position, e);
    true
}

/// Reads the entries of a journal, the oldest first, in place of those that were taken, and puts the units that they leave in place of those of the
/// table. False where one of them may not stand there; those before it are taken then. Of a log's prepared records those of the Prepared entries move
/// behind others, in the order of these entries, also where an entry may not stand there.
pub fn read_journal<D: Disk>(
    store: &mut Store<D>,
    span: &Span,
    state: &mut RuState,
    units: &mut UnitTable,
    rest: &mut Vec<LogRec>,
    out: &mut Vec<LogRec>,
    image: &mut Record,
) -> Result<bool, Down>
    requires ring { IsRing span.now store.old.disk }
    requires room { length out.old.items + length rest.old.items ≤ vec_capacity out.old }
    ensures told { IfOk result (λ whole. whole ≡ true → IfSome store.old.current (λ c. (es : List Entry) → IsJournal c span.now es → state.new ≡ told_by (placed span.now.first es))) }
    ensures whole { IfOk result (λ whole. IfSome store.old.current (λ c. (es : List Entry) → IsJournal c span.now es → length es ≤ entry_limit → AreInOrder nothing_told (placed span.now.first es) → whole ≡ true)) }
    ensures found { IfOk result (λ whole. whole ≡ true → IfSome store.old.current (λ c. (es : List Entry) → IsJournal c span.now es → AreChangesIn (placed span.now.first es) (begun units.new))) }
    ensures files { IfOk result (λ whole. whole ≡ true → IfSome store.old.current (λ c. AreFiledOf span.now c (begun units.new))) }
    ensures alike { IfOk result (λ whole. whole ≡ true → AreAlike state.new.units (begun units.new)) }
    ensures within { IfOk result (λ whole. whole ≡ true → BeginWithin span.now (begun units.new)) }
    ensures ascends { IfOk result (λ whole. whole ≡ true → AscendWithin span.now.first span.now.end (begun units.new)) }
    ensures voted { OnOk result (IsVoted store.old.current span.now (map log_record_of rest.old.items) (map log_record_of rest.new.items) (map log_record_of out.old.items) (map log_record_of out.new.items)) }
    ensures count { length out.new.items + length rest.new.items ≡ length out.old.items + length rest.old.items }
    ensures room { vec_capacity out.old ≤ vec_capacity out.new }
    ensures left { vec_capacity rest.old ≤ vec_capacity rest.new }
    ensures ok { OnOk result (OnlyReads result store.old store.new) }
    ensures down { IfErr result (λ down. Fell down store.old store.new) }
{
    state.clear();
    units.clear();
    let mut whole = true;
    let mut position = span.first;
    while position < span.end {
        match entry_at(store, span, position, image) {
            Err(down) => return Err(down),
            Ok(None) => return Ok(false),
            Ok(Some((e, next))) => {
                take_vote(&e, rest, out);
                whole = take_entry(whole, state, units, position, &e);
                position = next;
            }
        }
    }
    Ok(whole)
}
