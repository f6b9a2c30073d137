// Changes of one key by no unit.
ghost use Rattle.std.specs.Prelude.{◌≡◌, ◌≤◌, ◌<◌, ℕ, List, [], false, None, OnOk, OnErr, IfOk, IfErr, IfSome, is_some, unwrap_or};
ghost use Rattle.vms_model.specs.Limits.{moment_ceiling};
ghost use Rattle.careful_write.specs.Down.{Counts};
ghost use Rattle.change_set.specs.Files.{IsPlaced, free_frames};
ghost use Rattle.volume_files.specs.record_files.Any.{IsFile, IsLaidOut};
ghost use Rattle.record_locks.specs.Locks.{holder};
ghost use Rattle.vms_base.specs.Keys.{key_of};
ghost use Rattle.volume.specs.Catalogs.{head_at};
ghost use Rattle.record_operations.specs.Causes.{IfRefused};
ghost use Rattle.unit_journal.specs.Groups.{Breaks, Grows};
ghost use Rattle.unit_journal.specs.Leaving.{FellIn};
ghost use Rattle.volume.specs.State.{SameVolume};
ghost use Rattle.image_appends.specs.declared.side.Side.TheVariants as sides;
ghost use Rattle.image_room.specs.Room.{SettlementsFit, images_refused, kept_span};
ghost use Rattle.key_changes.specs.unit_cuts.Records.{OfRecords};
ghost use Rattle.unit_journal.specs.Room.{entry_size as entry_said};
ghost use Rattle.rms_units.specs.Calls.{DirectKeyRefused, direct_refused_after_reading};
ghost use Rattle.key_changes.specs.Changing.{IsFormed, MayBegin, after_change, before_change, keys_asked, locks_refuse};
ghost use Rattle.kept_files.specs.Own.{own_change};
ghost use Rattle.rms_units.specs.Making.{CommitsKey};
ghost use Rattle.rms_units.specs.State.{IsEarly, IsInOrder, UnitsState};

use crate::making::commit_key;
use crate::one_key::after_size;
use block_disk::Disk;
use careful_write::Down;
use change_set::Place;
use image_room::images_refusal;
use journal_format::EntryBuf;
use key_changes::{Asked, HeldIn, locks_refusal, own_branch, read_before, room_in_file};
use record_locks::Locks;
use record_operations::RecErr;
use unit_journal::entry_size;
use unit_table::UnitTable;
use vms_base::{Moment, Record, Tid};
use volume::Volume;

/// Refuses a change of one key by no unit. What the key has is in `found` then, and a walk to it may begin at what is answered.
pub(crate) fn refuse_directly<D: Disk>(
    volume: &mut Volume<D>,
    table: &UnitTable,
    locks: &Locks,
    asked: &Asked,
    value: &[u8],
    found: &mut Record,
) -> Result<Place, RecErr>
    requires placed { IsPlaced asked.now.head volume.old.store.disk }
    requires frames { 32 ≤ free_frames volume.old.store.pool }
    requires formed { IsFormed asked.now value.now }
    requires images { SettlementsFit sides.After asked.now.head asked.now.file table.now.places × SettlementsFit sides.Before asked.now.head asked.now.file table.now.places }
    requires ordered { IfSome (kept_span sides.After asked.now.head) (λ s. s.first ≤ s.end) × IfSome (kept_span sides.Before asked.now.head) (λ s. s.first ≤ s.end) }
    ensures early { OnOk result (locks_refuse None asked.now.file (keys_asked asked.now.head asked.now.change (key_of asked.now.key)) locks.now.locks ≡ None) }
    ensures late { OnOk result ((a : List (List ℕ)) → volume.old.store.current ≡ Some a → IsFile asked.now.head → IsLaidOut asked.now.head a → direct_refused_after_reading asked.now.file asked.now.head asked.now.change (key_of asked.now.key) value.now (record { units = table.now; locks = locks.now.locks }) a ≡ None) }
    ensures had { OnOk result (OfRecords asked.now.head volume.old (λ m. before_change asked.now.change (unwrap_or (m (key_of asked.now.key)) []) ≡ before_change asked.now.change found.new)) }
    ensures rooms { OnOk result (images_refused asked.now.head asked.now.file table.now.places false (entry_said (key_of asked.now.key) (after_change asked.now.change value.now)) (entry_said (key_of asked.now.key) (before_change asked.now.change found.new)) ≡ None) }
    ensures begins { IfOk result (MayBegin asked.now.head volume.old (key_of asked.now.key)) }
    ensures same { OnOk result (SameVolume volume.old volume.new) }
    ensures err { IfErr result (λ e. IfRefused e
        (λ cause. DirectKeyRefused asked.now.file asked.now.head asked.now.change (key_of asked.now.key) value.now cause (record { units = table.now; locks = locks.now.locks }) volume.old × SameVolume volume.old volume.new)
        (λ down. (locks_refuse None asked.now.file (keys_asked asked.now.head asked.now.change (key_of asked.now.key)) locks.now.locks ≡ None) × FellIn down volume.old volume.new)) }
{
    match locks_refusal(locks, &None, asked) {
        Some(refusal) => return Err(refusal),
        None => {}
    }
    let from = match read_before(volume, asked, value, found) {
        Err(e) => return Err(e),
        Ok(from) => from,
    };
    match room_in_file(volume, asked, value.len()) {
        Err(e) => return Err(e),
        Ok(()) => {}
    }
    let size = entry_size(&asked.key, asked.change.before(found));
    match images_refusal(
        &asked.head,
        table,
        asked.file,
        false,
        after_size(asked, value.len()),
        size,
    ) {
        Some(refusal) => Err(refusal),
        None => Ok(from),
    }
}

/// Makes a change of one key by no unit, which nothing refuses, and commits it at a moment. A walk to the key begins at a place.
pub(crate) fn make_directly<D: Disk>(
    volume: &mut Volume<D>,
    table: &UnitTable,
    locks: &Locks,
    asked: &Asked,
    found: &Record,
    value: &Record,
    from: Place,
    tid: Tid,
    moment: Moment,
    entry: &mut EntryBuf,
) -> Result<(), Down>
    requires begins { MayBegin asked.now.head volume.old (key_of asked.now.key) from }
    requires order { IsInOrder (record { units = table.now; locks = locks.now.locks }) volume.old }
    requires head { head_at volume.old.catalog.heads asked.now.file ≡ Some asked.now.head }
    requires later { volume.old.catalog.home.greatest_moment.0 ≤ moment.0 }
    requires early { IsEarly volume.old }
    requires formed { IsFormed asked.now value.now }
    requires rooms { images_refused asked.now.head asked.now.file table.now.places false (entry_said (key_of asked.now.key) (after_change asked.now.change value.now)) (entry_said (key_of asked.now.key) (before_change asked.now.change found.now)) ≡ None }
    requires moment { moment.0 ≤ moment_ceiling }
    ensures makes { OnOk result (CommitsKey asked.now.file asked.now.head (λ k. is_some (holder locks.now.locks asked.now.file k)) (key_of asked.now.key) (after_change asked.now.change value.now) (own_change tid asked.now.file (key_of asked.now.key) (after_change asked.now.change value.now)) (own_change tid asked.now.file (key_of asked.now.key) (before_change asked.now.change found.now)) tid moment.0 table.now.places volume.old volume.new) }
    ensures order { OnOk result (IsInOrder (record { units = table.now; locks = locks.now.locks }) volume.new) }
    ensures breaks { OnErr result (Breaks (CommitsKey asked.now.file asked.now.head (λ k. is_some (holder locks.now.locks asked.now.file k)) (key_of asked.now.key) (after_change asked.now.change value.now) (own_change tid asked.now.file (key_of asked.now.key) (after_change asked.now.change value.now)) (own_change tid asked.now.file (key_of asked.now.key) (before_change asked.now.change found.now)) tid moment.0 table.now.places volume.old) volume.old volume.new) }
    ensures grows { Grows 0 moment.0 volume.old volume.new }
    ensures counts { Counts result volume.old.store.disk volume.new.store.disk }
    ensures pool { volume.new.store.pool ≡ volume.old.store.pool }
{
    let branch = own_branch(&tid);
    let held = HeldIn {
        locks,
        file: asked.file,
    };
    let had = asked.change.before(found);
    let has = asked.change.after(value);
    commit_key(
        volume, table, asked, had, has, &held, from, &branch, moment, entry,
    )
}
