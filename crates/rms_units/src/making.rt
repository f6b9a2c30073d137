// What a change of one key makes of a volume.
ghost use Rattle.std.specs.Prelude.{◌≡◌, ◌≤◌, ◌<◌, ◌+◌, ◌-◌, ◌^◌, ℕ, List, Some, IfOk, OnOk, OnErr, IfErr, length, option_map};
ghost use Rattle.std.specs.Option.{option_copied};
ghost use Rattle.block_disk.specs.Sizes.{greatest_disk_size, least_disk_size};
ghost use Rattle.vms_model.specs.Limits.{file_limit};
ghost use Rattle.vms_model.specs.Blocks.{log_start};
ghost use Rattle.careful_write.specs.Down.{Counts};
ghost use Rattle.careful_write.specs.State.{IsIdle};
ghost use Rattle.careful_write.specs.Sizes.{staged_limit};
ghost use Rattle.change_set.specs.Files.{free_frames};
ghost use Rattle.journal_model.specs.Entries.{IsEntry};
ghost use Rattle.journal_model.specs.Ring.{ring_size};
ghost use Rattle.unit_journal.specs.journal_store.Rings.{IsRing};
ghost use Rattle.vms_base.specs.Ids.{serial_of, tid_of};
ghost use Rattle.vms_base.specs.Keys.{key_of};
ghost use Rattle.volume.specs.Catalogs.{IsSound, head_at};
ghost use Rattle.volume.specs.State.{Holds};
ghost use Rattle.volume_files.specs.Staging.{StagesFile, TellsSet};
ghost use Rattle.unit_journal.specs.Leaving.{FellIn};
ghost use Rattle.unit_journal.specs.Room.{entry_size};
ghost use Rattle.unit_journal.specs.Entries.{change_entry, key_bytes};
ghost use Rattle.unit_journal.specs.Groups.{Breaks, Grows};
ghost use Rattle.image_appends.specs.declared.side.Side.TheVariants as sides;
ghost use Rattle.image_appends.specs.Images.{FileHasRoom};
ghost use Rattle.rms_units.specs.Making.{CommitsBranch, EntersKey};
ghost use Rattle.image_room.specs.Room.{ImagesAreLow};
ghost use Rattle.key_changes.specs.Changing.{MayBegin};

use block_disk::Disk;
use careful_write::{Down, one_content};
use change_set::{Held, Place};
use file_base::FileHead;
use image_appends::append_change;
use journal_format::EntryBuf;
use key_changes::{Asked, settle_own};
use unit_journal::{encode_change, enter, stage_settlement};
use unit_table::{Branch, UnitTable};
use vms_base::{Moment, Record};
use volume::Volume;
use volume_files::stage_value;
use volume_format::Ending;

/// Stages that the key of a change is set, and answers the file's head then. A walk to the key begins at a place.
pub(crate) fn stage_key<D: Disk, H: Held>(
    volume: &mut Volume<D>,
    asked: &Asked,
    after: Option<&Record>,
    held: &H,
    from: Place,
) -> Result<FileHead, Down>
    requires begins { MayBegin asked.now.head volume.old (key_of asked.now.key) from }
    requires there { head_at volume.old.catalog.heads asked.now.file ≡ Some asked.now.head }
    requires whole { length volume.old.catalog.heads ≡ file_limit }
    requires sound { IsSound volume.old.catalog.home.node volume.old.store.disk.size volume.old.catalog }
    requires least { least_disk_size ≤ volume.old.store.disk.size }
    requires most { volume.old.store.disk.size ≤ greatest_disk_size }
    requires frames { 32 ≤ free_frames volume.old.store.pool }
    requires staged { length volume.old.store.touched ≤ staged_limit }
    ensures stages { IfOk result (λ head. StagesFile asked.now.file asked.now.head 417 volume.old volume.new head) }
    ensures sets { IfOk result (λ head. TellsSet asked.now.head (H.held held.now) (key_of asked.now.key) (option_copied after.entry) volume.old volume.new head) }
    ensures down { IfErr result (λ down. FellIn down volume.old volume.new) }
{
    let mut head = asked.head;
    match stage_value(volume, asked.file, &mut head, &asked.key, after, held, from) {
        Err(down) => Err(down),
        Ok(()) => Ok(head),
    }
}

/// Sets the key of a change, with the entry that tells what it had before and with those in the file's journals of images, in one group. A walk to the key begins at a place.
pub(crate) fn set_key<D: Disk, H: Held>(
    volume: &mut Volume<D>,
    asked: &Asked,
    branch: &Branch,
    before: Option<&Record>,
    after: Option<&Record>,
    held: &H,
    from: Place,
    entry: &mut EntryBuf,
) -> Result<(), Down>
    requires begins { MayBegin asked.now.head volume.old (key_of asked.now.key) from }
    requires there { head_at volume.old.catalog.heads asked.now.file ≡ Some asked.now.head }
    requires whole { length volume.old.catalog.heads ≡ file_limit }
    requires sound { IsSound volume.old.catalog.home.node volume.old.store.disk.size volume.old.catalog }
    requires least { least_disk_size ≤ volume.old.store.disk.size }
    requires most { volume.old.store.disk.size ≤ greatest_disk_size }
    requires frames { 32 ≤ free_frames volume.old.store.pool }
    requires idle { IsIdle volume.old.store }
    requires holds { Holds volume.old }
    requires ring { IsRing volume.old.catalog.ru volume.old.store.disk }
    requires behind { log_start ≤ volume.old.catalog.ru.start }
    requires key { 1 ≤ length (key_bytes (key_of asked.now.key)) }
    requires room { volume.old.catalog.ru.end - volume.old.catalog.ru.first + entry_size (key_of asked.now.key) (option_copied before) ≤ ring_size volume.old.catalog.ru }
    requires afters { FileHasRoom sides.After (entry_size (key_of asked.now.key) (option_copied after)) asked.now.file volume.old.catalog.heads volume.old.store.disk }
    requires befores { FileHasRoom sides.Before (entry_size (key_of asked.now.key) (option_copied before)) asked.now.file volume.old.catalog.heads volume.old.store.disk }
    ensures makes { OnOk result (EntersKey asked.now.file asked.now.head (H.held held.now) (key_of asked.now.key) (option_copied after.entry) (change_entry (tid_of branch.now.tid) (serial_of branch.now.serial) asked.now.file (key_of asked.now.key) (option_copied after.entry)) (change_entry (tid_of branch.now.tid) (serial_of branch.now.serial) asked.now.file (key_of asked.now.key) (option_copied before.entry)) volume.old volume.new) }
    ensures entry { OnOk result (IsEntry (change_entry (tid_of branch.now.tid) (serial_of branch.now.serial) asked.now.file (key_of asked.now.key) (option_copied before.entry))) }
    ensures idle { OnOk result (IsIdle volume.new.store) }
    ensures holds { OnOk result (Holds volume.new) }
    ensures breaks { OnErr result (Breaks (EntersKey asked.now.file asked.now.head (H.held held.now) (key_of asked.now.key) (option_copied after.entry) (change_entry (tid_of branch.now.tid) (serial_of branch.now.serial) asked.now.file (key_of asked.now.key) (option_copied after.entry)) (change_entry (tid_of branch.now.tid) (serial_of branch.now.serial) asked.now.file (key_of asked.now.key) (option_copied before.entry)) volume.old) volume.old volume.new) }
    ensures grows { Grows 0 0 volume.old volume.new }
    ensures counts { Counts result volume.old.store.disk volume.new.store.disk }
    ensures pool { volume.new.store.pool ≡ volume.old.store.pool }
{
    one_content();
    match stage_key(volume, asked, after, held, from) {
        Err(down) => return Err(down),
        Ok(_) => {}
    }
    match append_change(volume, asked.file, branch, &asked.key, after, before, entry) {
        Err(down) => return Err(down),
        Ok(()) => {}
    }
    encode_change(
        branch.tid,
        branch.serial,
        asked.file,
        &asked.key,
        before,
        entry,
    );
    match enter(volume, entry) {
        Err(down) => return Err(down),
        Ok(()) => {}
    }
    volume.store().apply()
}

/// Sets the key of a change, and commits that as a branch, with the entries of both in the file's journals of images, in one group. A walk to the key begins at a place.
pub(crate) fn commit_key<D: Disk, H: Held>(
    volume: &mut Volume<D>,
    units: &UnitTable,
    asked: &Asked,
    before: Option<&Record>,
    after: Option<&Record>,
    held: &H,
    from: Place,
    branch: &Branch,
    moment: Moment,
    entry: &mut EntryBuf,
) -> Result<(), Down>
    requires begins { MayBegin asked.now.head volume.old (key_of asked.now.key) from }
    requires there { head_at volume.old.catalog.heads asked.now.file ≡ Some asked.now.head }
    requires whole { length volume.old.catalog.heads ≡ file_limit }
    requires sound { IsSound volume.old.catalog.home.node volume.old.store.disk.size volume.old.catalog }
    requires least { least_disk_size ≤ volume.old.store.disk.size }
    requires most { volume.old.store.disk.size ≤ greatest_disk_size }
    requires frames { 32 ≤ free_frames volume.old.store.pool }
    requires idle { IsIdle volume.old.store }
    requires holds { Holds volume.old }
    requires key { 1 ≤ length (key_bytes (key_of asked.now.key)) }
    requires afters { FileHasRoom sides.After (entry_size (key_of asked.now.key) (option_copied after) + 48) asked.now.file volume.old.catalog.heads volume.old.store.disk }
    requires befores { FileHasRoom sides.Before (entry_size (key_of asked.now.key) (option_copied before) + 48) asked.now.file volume.old.catalog.heads volume.old.store.disk }
    requires low { ImagesAreLow (2 ^ 24) volume.old.catalog.heads }
    ensures makes { OnOk result (CommitsBranch asked.now.file asked.now.head (H.held held.now) (key_of asked.now.key) (option_copied after.entry) (change_entry (tid_of branch.now.tid) (serial_of branch.now.serial) asked.now.file (key_of asked.now.key) (option_copied after.entry)) (change_entry (tid_of branch.now.tid) (serial_of branch.now.serial) asked.now.file (key_of asked.now.key) (option_copied before.entry)) branch.now.tid branch.now.serial moment.0 units.now.places volume.old volume.new) }
    ensures idle { OnOk result (IsIdle volume.new.store) }
    ensures holds { OnOk result (Holds volume.new) }
    ensures breaks { OnErr result (Breaks (CommitsBranch asked.now.file asked.now.head (H.held held.now) (key_of asked.now.key) (option_copied after.entry) (change_entry (tid_of branch.now.tid) (serial_of branch.now.serial) asked.now.file (key_of asked.now.key) (option_copied after.entry)) (change_entry (tid_of branch.now.tid) (serial_of branch.now.serial) asked.now.file (key_of asked.now.key) (option_copied before.entry)) branch.now.tid branch.now.serial moment.0 units.now.places volume.old) volume.old volume.new) }
    ensures grows { Grows 0 moment.0 volume.old volume.new }
    ensures counts { Counts result volume.old.store.disk volume.new.store.disk }
    ensures pool { volume.new.store.pool ≡ volume.old.store.pool }
{
    one_content();
    match stage_key(volume, asked, after, held, from) {
        Err(down) => return Err(down),
        Ok(_) => {}
    }
    match append_change(volume, asked.file, branch, &asked.key, after, before, entry) {
        Err(down) => return Err(down),
        Ok(()) => {}
    }
    match settle_own(volume, asked.file, branch, moment, entry) {
        Err(down) => return Err(down),
        Ok(()) => {}
    }
    stage_settlement(
        volume,
        units,
        branch.tid,
        branch.serial,
        Ending::Commit,
        moment,
    );
    volume.store().apply()
}
