// Truncations of sequential files: which records go, and what refuses that.
ghost use Rattle.std.specs.Prelude.{◌≡◌, ◌≤◌, ◌<◌, ◌+◌, ◌-◌, ◌*◌, [], List, false, None, Some, IfOk, IfErr, IfSome, IsSome, OnOk, OnErr, length, option_map};
ghost use Rattle.std.specs.Option.{option_and_then};
ghost use Rattle.vms_model.specs.Limits.{branch_limit, change_limit, file_limit, lock_limit};
ghost use Rattle.change_set.specs.Files.{IsPlaced, free_frames};
ghost use Rattle.file_base.specs.declared.head.Organization.TheVariants as organization;
ghost use Rattle.careful_write.specs.Down.{Counts};
ghost use Rattle.journal_model.specs.Ring.{ring_size};
ghost use Rattle.record_locks.specs.Locks.{with_locks};
ghost use Rattle.volume.specs.Catalogs.{head_at};
ghost use Rattle.record_operations.specs.Causes.{IfRefused, IsRefusal, cause_of};
ghost use Rattle.unit_journal.specs.Groups.{Grows};
ghost use Rattle.unit_journal.specs.Leaving.{FellIn};
ghost use Rattle.unit_journal.specs.Room.{journal_refused};
ghost use Rattle.unit_table.specs.Units.{OpenUnit, has_changed, owed, unit_at, with_unit};
ghost use Rattle.vms_base.specs.Ids.{serial_of, tid_of};
ghost use Rattle.vms_base.specs.Keys.{key_of};
ghost use Rattle.vms_model.specs.Keys.{Number};
ghost use Rattle.volume.specs.State.{SameVolume};
ghost use Rattle.key_changes.specs.Changing.{keys_refused, locks_refuse};
ghost use Rattle.key_changes.specs.unit_cuts.Records.{OfRecords};
ghost use Rattle.rms_units.specs.State.{ImagesGrow, IsEarly, IsInOrder};
ghost use Rattle.rms_units.specs.Truncating.{CutRefused, DirectCutRefused, IsCut, cut_asked, cut_refused_before_reading, direct_cut_refused_before_reading, number_refused, with_positions};
ghost use Rattle.key_changes.specs.unit_cuts.Truncating.{AreBegun, BreaksCut, CutEntries, MakesCut, begins_at, entry_sizes, keys_cut, removed_from};
ghost use Rattle.image_appends.specs.declared.side.Side.TheVariants as sides;
ghost use Rattle.image_room.specs.Room.{SettlementsFit, images_refused, kept_span};
ghost use Rattle.change_set.specs.Maps.{empty_map};

use block_disk::Disk;
use careful_write::Down;
use image_room::images_refusal;
use journal_format::EntryBuf;
use key_changes::{Cut, CutRoom, MOST_LOCKS, cut_records, gone_size, lock_refusal, measure};
use record_locks::Locks;
use record_operations::RecErr;
use unit_journal::journal_refusal;
use unit_table::{Branch, MOST_CHANGES, UnitTable};
use vms_base::{Key, Record, Serial};
use volume::Volume;

/// Whether another branch holds the file's end, or a record that goes, the last one first.
pub(crate) fn cut_lock_refusal(locks: &Locks, by: &Option<Serial>, cut: &Cut) -> Option<RecErr>
    ensures refuses { option_and_then cause_of result ≡ locks_refuse (option_map serial_of by.now) cut.now.file (cut_asked cut.now.head cut.now.from) locks.now.locks }
    ensures refusal { IfSome result IsRefusal }
{
    match lock_refusal(locks, by, cut.file, &Key::End) {
        Some(refusal) => return Some(refusal),
        None => {}
    }
    for behind in 0..cut.removed() {
        match lock_refusal(locks, by, cut.file, &cut.key(behind)) {
            Some(refusal) => return Some(refusal),
            None => {}
        }
    }
    None
}

/// Why a truncation is not done by its numbers: no such record is there, or more go than a branch may change that has changed so many.
pub(crate) fn cut_refusal(cut: &Cut, changed: usize) -> Option<RecErr>
    requires few { changed ≤ change_limit }
    ensures refuses { option_and_then cause_of result ≡ number_refused changed (removed_from cut.now.head.count cut.now.from) }
    ensures some { result ≡ None → 1 ≤ removed_from cut.now.head.count cut.now.from }
    ensures refusal { IfSome result IsRefusal }
{
    let removed = cut.removed() as usize;
    if removed == 0 {
        return Some(RecErr::RecordNotFound);
    }
    if changed + removed > MOST_CHANGES {
        return Some(RecErr::Changes);
    }
    None
}

/// Refuses a truncation with whose keys more would be held than may be.
pub(crate) fn cut_quota_refusal(locks: &Locks, cut: &Cut) -> Option<RecErr>
    requires few { removed_from cut.now.head.count cut.now.from ≤ change_limit }
    requires most { length locks.now.locks ≤ lock_limit }
    ensures refuses { option_and_then cause_of result ≡ keys_refused cut.now.file (cut_asked cut.now.head cut.now.from) locks.now.locks }
    ensures refusal { IfSome result IsRefusal }
{
    let mut count = locks.count() + locks.count_free(cut.file, &[Key::End]);
    for behind in 0..cut.removed() {
        count += locks.count_free(cut.file, &[cut.key(behind)]);
    }
    if count > MOST_LOCKS as usize {
        Some(RecErr::Locks)
    } else {
        None
    }
}

/// Refuses a truncation by no unit. How many bytes its entries take that tell what its records have is answered, and where walks to these begin is in
/// `room` then.
pub(crate) fn refuse_cut_directly<D: Disk>(
    volume: &mut Volume<D>,
    table: &UnitTable,
    locks: &Locks,
    cut: &Cut,
    found: &mut Record,
    room: &mut CutRoom,
) -> Result<u64, RecErr>
    requires placed { IsPlaced cut.now.head volume.old.store.disk }
    requires frames { 32 ≤ free_frames volume.old.store.pool }
    requires sequential { cut.now.head.organization ≡ organization.Sequential }
    requires images { SettlementsFit sides.After cut.now.head cut.now.file table.now.places × SettlementsFit sides.Before cut.now.head cut.now.file table.now.places }
    requires ordered { IfSome (kept_span sides.After cut.now.head) (λ s. s.first ≤ s.end) × IfSome (kept_span sides.Before cut.now.head) (λ s. s.first ≤ s.end) }
    ensures early { OnOk result (direct_cut_refused_before_reading cut.now.file cut.now.head cut.now.from locks.now.locks ≡ None) }
    ensures few { OnOk result (removed_from cut.now.head.count cut.now.from ≤ change_limit) }
    ensures some { OnOk result (1 ≤ removed_from cut.now.head.count cut.now.from) }
    ensures size { IfOk result (λ size. OfRecords cut.now.head volume.old (λ m. size ≡ entry_sizes m (keys_cut cut.now.head cut.now.from))) }
    ensures most { IfOk result (λ size. size ≤ 8272 * change_limit) }
    ensures most_gone { OnOk result (entry_sizes empty_map (keys_cut cut.now.head cut.now.from) ≤ 8272 * change_limit) }
    ensures rooms { IfOk result (λ size. images_refused cut.now.head cut.now.file table.now.places false (entry_sizes empty_map (keys_cut cut.now.head cut.now.from)) size ≡ None) }
    ensures places { OnOk result (AreBegun cut.now.head volume.old room.new.places) }
    ensures same { OnOk result (SameVolume volume.old volume.new) }
    ensures err { IfErr result (λ e. IfRefused e
        (λ cause. DirectCutRefused cut.now.file cut.now.head cut.now.from cause (record { units = table.now; locks = locks.now.locks }) volume.old × SameVolume volume.old volume.new)
        (λ down. (direct_cut_refused_before_reading cut.now.file cut.now.head cut.now.from locks.now.locks ≡ None) × FellIn down volume.old volume.new)) }
{
    match cut_lock_refusal(locks, &None, cut) {
        Some(refusal) => return Err(refusal),
        None => {}
    }
    match cut_refusal(cut, 0) {
        Some(refusal) => return Err(refusal),
        None => {}
    }
    let size = match measure(volume, cut, found, room) {
        Ok(size) => size,
        Err(down) => return Err(RecErr::Down(down)),
    };
    match images_refusal(&cut.head, table, cut.file, false, gone_size(cut), size) {
        Some(refusal) => Err(refusal),
        None => Ok(size),
    }
}

/// Refuses a truncation by the unit at a place. How many bytes its entries take is answered, and where walks to its records begin is in `room` then.
pub(crate) fn refuse_cut<D: Disk>(
    volume: &mut Volume<D>,
    table: &UnitTable,
    locks: &Locks,
    place: u8,
    serial: &Serial,
    cut: &Cut,
    found: &mut Record,
    room: &mut CutRoom,
) -> Result<u64, RecErr>
    requires place { place < branch_limit }
    requires there { IsSome (unit_at table.now.places place) }
    requires unit { IfSome (unit_at table.now.places place) (λ u. serial_of serial.now ≡ u.serial) }
    requires most { length locks.now.locks ≤ lock_limit }
    requires placed { IsPlaced cut.now.head volume.old.store.disk }
    requires frames { 32 ≤ free_frames volume.old.store.pool }
    requires sequential { cut.now.head.organization ≡ organization.Sequential }
    requires ascends { volume.old.catalog.ru.first ≤ volume.old.catalog.ru.end }
    requires free { volume.old.catalog.ru.end - volume.old.catalog.ru.first + owed table.now.places ≤ ring_size volume.old.catalog.ru }
    requires images { SettlementsFit sides.After cut.now.head cut.now.file table.now.places × SettlementsFit sides.Before cut.now.head cut.now.file table.now.places }
    requires ordered { IfSome (kept_span sides.After cut.now.head) (λ s. s.first ≤ s.end) × IfSome (kept_span sides.Before cut.now.head) (λ s. s.first ≤ s.end) }
    ensures early { OnOk result (IfSome (unit_at table.now.places place) (λ u. cut_refused_before_reading u cut.now.file cut.now.head cut.now.from locks.now.locks ≡ None)) }
    ensures few { OnOk result (IfSome (unit_at table.now.places place) (λ u. length u.positions + removed_from cut.now.head.count cut.now.from ≤ change_limit)) }
    ensures some { OnOk result (1 ≤ removed_from cut.now.head.count cut.now.from) }
    ensures files { OnOk result (IfSome (unit_at table.now.places place) (λ u. length u.files ≡ file_limit)) }
    ensures size { IfOk result (λ size. OfRecords cut.now.head volume.old (λ m. size ≡ entry_sizes m (keys_cut cut.now.head cut.now.from))) }
    ensures fits { IfOk result (λ size. IfSome (unit_at table.now.places place) (λ u. journal_refused volume.old.catalog.ru table.now.places u size ≡ None)) }
    ensures most { IfOk result (λ size. size ≤ 8272 * change_limit) }
    ensures most_gone { OnOk result (entry_sizes empty_map (keys_cut cut.now.head cut.now.from) ≤ 8272 * change_limit) }
    ensures rooms { IfOk result (λ size. IfSome (unit_at table.now.places place) (λ u. images_refused cut.now.head cut.now.file table.now.places (has_changed u cut.now.file) (entry_sizes empty_map (keys_cut cut.now.head cut.now.from)) size ≡ None)) }
    ensures places { OnOk result (AreBegun cut.now.head volume.old room.new.places) }
    ensures same { OnOk result (SameVolume volume.old volume.new) }
    ensures err { IfErr result (λ e. (u : OpenUnit) → unit_at table.now.places place ≡ Some u → IfRefused e
        (λ cause. CutRefused u cut.now.file cut.now.head cut.now.from cause (record { units = table.now; locks = locks.now.locks }) volume.old × SameVolume volume.old volume.new)
        (λ down. (cut_refused_before_reading u cut.now.file cut.now.head cut.now.from locks.now.locks ≡ None) × FellIn down volume.old volume.new)) }
{
    match cut_lock_refusal(locks, &Some(*serial), cut) {
        Some(refusal) => return Err(refusal),
        None => {}
    }
    match cut_refusal(cut, table.positions(place).len()) {
        Some(refusal) => return Err(refusal),
        None => {}
    }
    match cut_quota_refusal(locks, cut) {
        Some(refusal) => return Err(refusal),
        None => {}
    }
    let size = match measure(volume, cut, found, room) {
        Ok(size) => size,
        Err(down) => return Err(RecErr::Down(down)),
    };
    match journal_refusal(volume, table, place, size) {
        Some(refusal) => return Err(refusal),
        None => {}
    }
    let has_changed = table.has_changed(place, cut.file);
    match images_refusal(
        &cut.head,
        table,
        cut.file,
        has_changed,
        gone_size(cut),
        size,
    ) {
        Some(refusal) => Err(refusal),
        None => Ok(size),
    }
}

// Lets a branch hold the records that go, and the file's end.
fn hold_cut(locks: &mut Locks, cut: &Cut, by: &Serial)
    requires most { locks.old.most ≡ lock_limit }
    requires free { locks_refuse (Some (serial_of by.now)) cut.now.file (cut_asked cut.now.head cut.now.from) locks.old.locks ≡ None }
    requires few { keys_refused cut.now.file (cut_asked cut.now.head cut.now.from) locks.old.locks ≡ None }
    ensures locks { locks.new ≡ record locks.old { locks = with_locks (serial_of by.now) cut.now.file (cut_asked cut.now.head cut.now.from) locks.old.locks } }
    ensures few { length locks.new.locks ≤ lock_limit }
{
    for i in 0..cut.removed() {
        let _ = locks.lock(cut.file, &Key::Number(cut.from + i), *by);
    }
    let _ = locks.lock(cut.file, &Key::End, *by);
}

// Notes for the unit at a place where the entries of its truncation begin.
fn note_cut(table: &mut UnitTable, place: u8, file: u8, positions: &[u64])
    requires file { file < file_limit }
    requires there { IsSome (unit_at table.old.places place) }
    requires room { IfSome (unit_at table.old.places place) (λ u. length u.positions + length positions.now ≤ change_limit) }
    ensures { IfSome (unit_at table.old.places place) (λ u. table.new ≡ with_unit place (with_positions positions.now file u) table.old) }
{
    for position in positions {
        table.note(place, *position, file);
    }
}

/// Makes a truncation by the unit at a place, which nothing refuses, and whose entries take so many bytes.
pub(crate) fn make_cut<D: Disk>(
    volume: &mut Volume<D>,
    table: &mut UnitTable,
    locks: &mut Locks,
    place: u8,
    branch: &Branch,
    cut: &Cut,
    size: u64,
    found: &mut Record,
    entry: &mut EntryBuf,
    room: &mut CutRoom,
) -> Result<(), Down>
    requires order { IsInOrder (record { units = table.old; locks = locks.old.locks }) volume.old }
    requires early { IsEarly volume.old }
    requires head { head_at volume.old.catalog.heads cut.now.file ≡ Some cut.now.head }
    requires sequential { cut.now.head.organization ≡ organization.Sequential }
    requires there { IsSome (unit_at table.old.places place) }
    requires unit { IfSome (unit_at table.old.places place) (λ u. (tid_of branch.now.tid ≡ u.tid) × (serial_of branch.now.serial ≡ u.serial)) }
    requires changes { IfSome (unit_at table.old.places place) (λ u. length u.positions + removed_from cut.now.head.count cut.now.from ≤ change_limit) }
    requires some { 1 ≤ removed_from cut.now.head.count cut.now.from }
    requires size { OfRecords cut.now.head volume.old (λ m. size ≡ entry_sizes m (keys_cut cut.now.head cut.now.from)) }
    requires fits { IfSome (unit_at table.old.places place) (λ u. journal_refused volume.old.catalog.ru table.old.places u size ≡ None) }
    requires most_bytes { size ≤ 8272 * change_limit }
    requires few_records { entry_sizes empty_map (keys_cut cut.now.head cut.now.from) ≤ 8272 * change_limit }
    requires rooms { IfSome (unit_at table.old.places place) (λ u. images_refused cut.now.head cut.now.file table.old.places (has_changed u cut.now.file) (entry_sizes empty_map (keys_cut cut.now.head cut.now.from)) size ≡ None) }
    requires places { AreBegun cut.now.head volume.old room.old.places }
    requires most { locks.old.most ≡ lock_limit }
    requires free { locks_refuse (Some (serial_of branch.now.serial)) cut.now.file (cut_asked cut.now.head cut.now.from) locks.old.locks ≡ None }
    requires few { keys_refused cut.now.file (cut_asked cut.now.head cut.now.from) locks.old.locks ≡ None }
    ensures makes { OnOk result ((u : OpenUnit) → unit_at table.old.places place ≡ Some u → (es : CutEntries) × MakesCut u.tid u.serial cut.now.file cut.now.head cut.now.from es volume.old volume.new
        × (table.new ≡ with_unit place (with_positions (begins_at volume.old.catalog.ru.end es.had) cut.now.file u) table.old)) }
    ensures locks { OnOk result (locks.new ≡ record locks.old { locks = with_locks (serial_of branch.now.serial) cut.now.file (cut_asked cut.now.head cut.now.from) locks.old.locks }) }
    ensures held { OnOk result (length locks.new.locks ≤ lock_limit) }
    ensures order { OnOk result (IsInOrder (record { units = table.new; locks = locks.new.locks }) volume.new) }
    ensures spared { OnErr result ((table.new ≡ table.old) × (locks.new ≡ locks.old)) }
    ensures grows { Grows 0 0 volume.old volume.new }
    ensures images { OnOk result (ImagesGrow volume.old volume.new) }
    ensures breaks { OnErr result ((u : OpenUnit) → unit_at table.old.places place ≡ Some u → BreaksCut cut.now.head (IsCut u cut.now.file cut.now.head cut.now.from (record { units = table.old; locks = locks.old.locks }) volume.old) volume.old volume.new) }
    ensures counts { Counts result volume.old.store.disk volume.new.store.disk }
    ensures pool { volume.new.store.pool ≡ volume.old.store.pool }
{
    match cut_records(volume, cut, size, branch, found, entry, room) {
        Err(down) => return Err(down),
        Ok(()) => {}
    }
    note_cut(table, place, cut.file, room.positions());
    hold_cut(locks, cut, &branch.serial);
    Ok(())
}
