// Changes of one key by a unit.
ghost use Rattle.std.specs.Prelude.{◌≡◌, ◌≢◌, ◌≤◌, ◌<◌, ◌+◌, ◌-◌, ℕ, List, [], true, None, Some, OnOk, OnErr, IfOk, IfErr, IfSome, IsSome, length, unwrap_or, is_some};
ghost use Rattle.std.specs.Option.{option_and_then};
ghost use Rattle.vms_model.specs.Limits.{branch_limit, change_limit, lock_limit, record_limit};
ghost use Rattle.careful_write.specs.Down.{Counts};
ghost use Rattle.change_set.specs.Files.{IsPlaced, free_frames};
ghost use Rattle.journal_model.specs.Ring.{ring_size};
ghost use Rattle.volume_files.specs.record_files.Any.{IsFile, IsLaidOut};
ghost use Rattle.record_locks.specs.Locks.{holder, with_locks};
ghost use Rattle.unit_table.specs.Units.{OpenUnit, has_changed, owed, unit_at, with_position, with_unit};
ghost use Rattle.vms_base.specs.Ids.{serial_of, tid_of};
ghost use Rattle.vms_base.specs.Keys.{key_of};
ghost use Rattle.vms_model.specs.Keys.{End};
ghost use Rattle.volume.specs.Catalogs.{head_at};
ghost use Rattle.volume.specs.State.{SameVolume};
ghost use Rattle.image_appends.specs.declared.side.Side.TheVariants as sides;
ghost use Rattle.image_room.specs.Room.{SettlementsFit, images_refused, kept_span};
ghost use Rattle.rms_units.specs.Calls.{KeyRefused, MakesEntry, change_refused_after_reading};
ghost use Rattle.record_operations.specs.Causes.{IfRefused, IsRefusal, cause_of, first_cause};
ghost use Rattle.key_changes.specs.Changing.{IsFormed, MayBegin, after_change, before_change, changes_refused, keys_asked, keys_refused, locks_refuse};
ghost use Rattle.unit_journal.specs.Groups.{Breaks, Grows};
ghost use Rattle.unit_journal.specs.Leaving.{FellIn};
ghost use Rattle.unit_journal.specs.Room.{entry_size as entry_said, journal_refused};
ghost use Rattle.key_changes.specs.unit_cuts.Records.{OfRecords};
ghost use Rattle.rms_units.specs.State.{IsEarly, IsInOrder, UnitsState};

use crate::making::set_key;
use block_disk::Disk;
use careful_write::Down;
use change_set::Place;
use image_room::images_refusal;
use journal_format::EntryBuf;
use key_changes::{
    Asked, HeldIn, MOST_LOCKS, asks_end, free_keys, locks_refusal, read_before, room_in_file,
};
use record_locks::Locks;
use record_operations::RecErr;
use unit_journal::{entry_size, journal_refusal};
use unit_table::{Branch, MOST_CHANGES, UnitTable};
use vms_base::{Key, Record, Serial};
use volume::Volume;

// Why a unit may not make one change more, or its keys may not be held: it made as many changes as it may, or more keys than may be would be held.
fn quota_refusal(table: &UnitTable, locks: &Locks, place: u8, asked: &Asked) -> Option<RecErr>
    requires place { place < branch_limit }
    requires there { IsSome (unit_at table.now.places place) }
    requires most { length locks.now.locks ≤ lock_limit }
    ensures refuses { IfSome (unit_at table.now.places place) (λ u. option_and_then cause_of result ≡ first_cause (changes_refused 1 u) (keys_refused asked.now.file (keys_asked asked.now.head asked.now.change (key_of asked.now.key)) locks.now.locks)) }
    ensures refusal { IfSome result IsRefusal }
{
    if table.positions(place).len() >= MOST_CHANGES {
        return Some(RecErr::Changes);
    }
    if locks.count() + free_keys(locks, asked) > MOST_LOCKS as usize {
        return Some(RecErr::Locks);
    }
    None
}

/// Refuses a change of one key by the unit at a place. What the key has is in `found` then, and a walk to it may begin at what is answered.
pub(crate) fn refuse_key<D: Disk>(
    volume: &mut Volume<D>,
    table: &UnitTable,
    locks: &Locks,
    place: u8,
    serial: Serial,
    asked: &Asked,
    value: &[u8],
    found: &mut Record,
) -> Result<Place, RecErr>
    requires place { place < branch_limit }
    requires unit { IfSome (unit_at table.now.places place) (λ u. u.serial ≡ serial_of serial) }
    requires there { IsSome (unit_at table.now.places place) }
    requires most { length locks.now.locks ≤ lock_limit }
    requires placed { IsPlaced asked.now.head volume.old.store.disk }
    requires frames { 32 ≤ free_frames volume.old.store.pool }
    requires formed { IsFormed asked.now value.now }
    requires ascends { volume.old.catalog.ru.first ≤ volume.old.catalog.ru.end }
    requires room { volume.old.catalog.ru.end - volume.old.catalog.ru.first + owed table.now.places ≤ ring_size volume.old.catalog.ru }
    requires images { SettlementsFit sides.After asked.now.head asked.now.file table.now.places × SettlementsFit sides.Before asked.now.head asked.now.file table.now.places }
    requires ordered { IfSome (kept_span sides.After asked.now.head) (λ s. s.first ≤ s.end) × IfSome (kept_span sides.Before asked.now.head) (λ s. s.first ≤ s.end) }
    ensures early { OnOk result (locks_refuse (Some (serial_of serial)) asked.now.file (keys_asked asked.now.head asked.now.change (key_of asked.now.key)) locks.now.locks ≡ None) }
    ensures quotas { OnOk result (IfSome (unit_at table.now.places place) (λ u. first_cause (changes_refused 1 u) (keys_refused asked.now.file (keys_asked asked.now.head asked.now.change (key_of asked.now.key)) locks.now.locks) ≡ None)) }
    ensures had { OnOk result (OfRecords asked.now.head volume.old (λ m. before_change asked.now.change (unwrap_or (m (key_of asked.now.key)) []) ≡ before_change asked.now.change found.new)) }
    ensures late { OnOk result ((u : OpenUnit) (a : List (List ℕ)) → unit_at table.now.places place ≡ Some u → volume.old.store.current ≡ Some a → IsFile asked.now.head → IsLaidOut asked.now.head a →
        change_refused_after_reading u asked.now.file asked.now.head asked.now.change (key_of asked.now.key) value.now (record { units = table.now; locks = locks.now.locks }) volume.old a ≡ None) }
    ensures fits { OnOk result (IfSome (unit_at table.now.places place) (λ u. journal_refused volume.old.catalog.ru table.now.places u (entry_said (key_of asked.now.key) (before_change asked.now.change found.new)) ≡ None)) }
    ensures rooms { OnOk result (IfSome (unit_at table.now.places place) (λ u. images_refused asked.now.head asked.now.file table.now.places (has_changed u asked.now.file) (entry_said (key_of asked.now.key) (after_change asked.now.change value.now)) (entry_said (key_of asked.now.key) (before_change asked.now.change found.new)) ≡ None)) }
    ensures begins { IfOk result (MayBegin asked.now.head volume.old (key_of asked.now.key)) }
    ensures same { OnOk result (SameVolume volume.old volume.new) }
    ensures err { IfErr result (λ e. (u : OpenUnit) → unit_at table.now.places place ≡ Some u → IfRefused e
        (λ cause. KeyRefused u asked.now.file asked.now.head asked.now.change (key_of asked.now.key) value.now cause (record { units = table.now; locks = locks.now.locks }) volume.old × SameVolume volume.old volume.new)
        (λ down. (locks_refuse (Some (serial_of serial)) asked.now.file (keys_asked asked.now.head asked.now.change (key_of asked.now.key)) locks.now.locks ≡ None) × FellIn down volume.old volume.new)) }
{
    match locks_refusal(locks, &Some(serial), asked) {
        Some(refusal) => return Err(refusal),
        None => {}
    }
    let from = match read_before(volume, asked, value, found) {
        Err(e) => return Err(e),
        Ok(from) => from,
    };
    match quota_refusal(table, locks, place, asked) {
        Some(refusal) => return Err(refusal),
        None => {}
    }
    match room_in_file(volume, asked, value.len()) {
        Err(e) => return Err(e),
        Ok(()) => {}
    }
    let size = entry_size(&asked.key, asked.change.before(found));
    match journal_refusal(volume, table, place, size) {
        Some(refusal) => return Err(refusal),
        None => {}
    }
    let has_changed = table.has_changed(place, asked.file);
    match images_refusal(
        &asked.head,
        table,
        asked.file,
        has_changed,
        after_size(asked, value.len()),
        size,
    ) {
        Some(refusal) => Err(refusal),
        None => Ok(from),
    }
}

/// How many bytes the entry takes that tells what the key has after a change, where a record of so many bytes is written.
pub(crate) fn after_size(asked: &Asked, len: usize) -> u64
    requires { len ≤ record_limit }
    ensures value { (value : List ℕ) → length value ≡ len → result ≡ entry_said (key_of asked.now.key) (after_change asked.now.change value) }
    ensures few { result ≤ 16432 }
{
    entry_size(&asked.key, None) + asked.change.after_len(len) as u64
}

// Lets a unit hold the keys of a change, the last of them first.
fn hold(locks: &mut Locks, asked: &Asked, by: &Serial)
    requires most { locks.old.most ≡ lock_limit }
    requires free { locks_refuse (Some (serial_of by.now)) asked.now.file (keys_asked asked.now.head asked.now.change (key_of asked.now.key)) locks.old.locks ≡ None }
    requires few { keys_refused asked.now.file (keys_asked asked.now.head asked.now.change (key_of asked.now.key)) locks.old.locks ≡ None }
    requires key { key_of asked.now.key ≢ End }
    ensures { locks.new ≡ record locks.old { locks = with_locks (serial_of by.now) asked.now.file (keys_asked asked.now.head asked.now.change (key_of asked.now.key)) locks.old.locks } }
{
    let _ = locks.lock(asked.file, &asked.key, *by);
    if asks_end(asked) {
        let _ = locks.lock(asked.file, &Key::End, *by);
    }
}

/// Makes a change of one key by the unit at a place, which nothing refuses. A walk to the key begins at a place of its own.
pub(crate) fn make_key<D: Disk>(
    volume: &mut Volume<D>,
    table: &mut UnitTable,
    locks: &mut Locks,
    place: u8,
    branch: &Branch,
    asked: &Asked,
    found: &Record,
    value: &Record,
    from: Place,
    entry: &mut EntryBuf,
) -> Result<(), Down>
    requires begins { MayBegin asked.now.head volume.old (key_of asked.now.key) from }
    requires order { IsInOrder (record { units = table.old; locks = locks.old.locks }) volume.old }
    requires early { IsEarly volume.old }
    requires head { head_at volume.old.catalog.heads asked.now.file ≡ Some asked.now.head }
    requires there { IsSome (unit_at table.old.places place) }
    requires unit { IfSome (unit_at table.old.places place) (λ u. (tid_of branch.now.tid ≡ u.tid) × (serial_of branch.now.serial ≡ u.serial)) }
    requires changes { IfSome (unit_at table.old.places place) (λ u. length u.positions < change_limit) }
    requires fits { IfSome (unit_at table.old.places place) (λ u. journal_refused volume.old.catalog.ru table.old.places u (entry_said (key_of asked.now.key) (before_change asked.now.change found.now)) ≡ None) }
    requires rooms { IfSome (unit_at table.old.places place) (λ u. images_refused asked.now.head asked.now.file table.old.places (has_changed u asked.now.file) (entry_said (key_of asked.now.key) (after_change asked.now.change value.now)) (entry_said (key_of asked.now.key) (before_change asked.now.change found.now)) ≡ None) }
    requires most { locks.old.most ≡ lock_limit }
    requires free { locks_refuse (Some (serial_of branch.now.serial)) asked.now.file (keys_asked asked.now.head asked.now.change (key_of asked.now.key)) locks.old.locks ≡ None }
    requires few { keys_refused asked.now.file (keys_asked asked.now.head asked.now.change (key_of asked.now.key)) locks.old.locks ≡ None }
    requires formed { IsFormed asked.now value.now }
    ensures makes { OnOk result ((u : OpenUnit) → unit_at table.old.places place ≡ Some u → MakesEntry u asked.now.file asked.now.head asked.now.change (key_of asked.now.key) value.now found.now locks.old.locks volume.old volume.new) }
    ensures units { OnOk result (IfSome (unit_at table.old.places place) (λ u. table.new ≡ with_unit place (with_position volume.old.catalog.ru.end asked.now.file u) table.old)) }
    ensures changed { OnOk result (IfSome (unit_at table.old.places place) (λ u. has_changed (with_position volume.old.catalog.ru.end asked.now.file u) asked.now.file ≡ true)) }
    ensures locks { OnOk result (locks.new ≡ record locks.old { locks = with_locks (serial_of branch.now.serial) asked.now.file (keys_asked asked.now.head asked.now.change (key_of asked.now.key)) locks.old.locks }) }
    ensures order { OnOk result (IsInOrder (record { units = table.new; locks = locks.new.locks }) volume.new) }
    ensures spared { OnErr result ((table.new ≡ table.old) × (locks.new ≡ locks.old)) }
    ensures breaks { OnErr result ((u : OpenUnit) → unit_at table.old.places place ≡ Some u → Breaks (MakesEntry u asked.now.file asked.now.head asked.now.change (key_of asked.now.key) value.now found.now locks.old.locks volume.old) volume.old volume.new) }
    ensures grows { Grows 0 0 volume.old volume.new }
    ensures counts { Counts result volume.old.store.disk volume.new.store.disk }
    ensures pool { volume.new.store.pool ≡ volume.old.store.pool }
{
    let position = volume.ru().end;
    let held = HeldIn {
        locks: &*locks,
        file: asked.file,
    };
    match set_key(
        volume,
        asked,
        branch,
        asked.change.before(found),
        asked.change.after(value),
        &held,
        from,
        entry,
    ) {
        Err(down) => return Err(down),
        Ok(()) => {}
    }
    table.note(place, position, asked.file);
    hold(locks, asked, &branch.serial);
    Ok(())
}
