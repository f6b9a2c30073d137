// The images of a change.
ghost use Rattle.std.specs.Prelude.{◌≡◌, ◌≤◌, ◌<◌, ◌+◌, ◌*◌, OnOk, IfErr, length, option_map};
ghost use Rattle.std.specs.Option.{option_copied};
ghost use Rattle.block_disk.specs.Sizes.{least_disk_size};
ghost use Rattle.vms_base.specs.vms_model.Limits.{file_limit};
ghost use Rattle.careful_write.specs.Reads.{SameButReads};
ghost use Rattle.careful_write.specs.State.{IsReady};
ghost use Rattle.journal_format.specs.journal_model.Entries.{IsEntry, spelling};
ghost use Rattle.vms_base.specs.Ids.{serial_of, tid_of};
ghost use Rattle.vms_base.specs.Keys.{key_of};
ghost use Rattle.volume.specs.State.{Holds};
ghost use Rattle.unit_journal.specs.Entries.{change_entry, key_bytes};
ghost use Rattle.unit_journal.specs.Leaving.{FellIn};
ghost use Rattle.unit_journal.specs.Room.{entry_size};
ghost use Rattle.image_appends.specs.declared.side.Side.TheVariants as sides;
ghost use Rattle.image_appends.specs.Images.{FellPast, FileHasRoom, content_with, content_with_both, heads_with, heads_with_both};

use crate::appending::append_image;
use crate::side::Side;
use block_disk::Disk;
use careful_write::Down;
use journal_format::EntryBuf;
use unit_journal::encode_change;
use unit_table::Branch;
use vms_base::{Key, Record};
use volume::Volume;

// Stages what a key has at the end of one journal, where the file keeps it.
fn append_side<D: Disk>(
    volume: &mut Volume<D>,
    file: u8,
    side: Side,
    branch: &Branch,
    key: &Key,
    image: Option<&Record>,
    entry: &mut EntryBuf,
) -> Result<(), Down>
    requires number { file < file_limit }
    requires key { 1 ≤ length (key_bytes (key_of key.now)) }
    requires least { least_disk_size ≤ volume.old.store.disk.size }
    requires room { FileHasRoom side (entry_size (key_of key.now) (option_copied image)) file volume.old.catalog.heads volume.old.store.disk }
    requires staged { length volume.old.store.touched ≤ 480 }
    ensures current { OnOk result (volume.new.store.current ≡ option_map (content_with file side (spelling (change_entry (tid_of branch.now.tid) (serial_of branch.now.serial) file (key_of key.now) (option_copied image.entry))) volume.old.catalog.heads) volume.old.store.current) }
    ensures rest { OnOk result (SameButReads (record volume.old.store { current = volume.new.store.current; touched = volume.new.store.touched }) volume.new.store) }
    ensures catalog { OnOk result (volume.new.catalog ≡ record volume.old.catalog { heads = heads_with file side (entry_size (key_of key.now) (option_copied image.entry)) volume.old.catalog.heads }) }
    ensures is { IsEntry (change_entry (tid_of branch.now.tid) (serial_of branch.now.serial) file (key_of key.now) (option_copied image.entry)) }
    ensures size { length (spelling (change_entry (tid_of branch.now.tid) (serial_of branch.now.serial) file (key_of key.now) (option_copied image.entry))) ≡ entry_size (key_of key.now) (option_copied image.entry) }
    ensures few { OnOk result (length volume.new.store.touched ≤ length volume.old.store.touched + 19) }
    ensures holds { OnOk result (Holds volume.old → Holds volume.new) }
    ensures ready { OnOk result (IsReady volume.old.store → IsReady volume.new.store) }
    ensures down { IfErr result (λ down. FellIn down volume.old volume.new) }
{
    encode_change(branch.tid, branch.serial, file, key, image, entry);
    append_image(volume, file, side, entry)
}

/// Stages what a key of a file has after a change by a branch, and what it had before, each at the end of its journal, where the file keeps it, with
/// the file's directory block. There has to be room. After Down nothing is staged.
pub fn append_change<D: Disk>(
    volume: &mut Volume<D>,
    file: u8,
    branch: &Branch,
    key: &Key,
    after: Option<&Record>,
    before: Option<&Record>,
    entry: &mut EntryBuf,
) -> Result<(), Down>
    requires number { file < file_limit }
    requires key { 1 ≤ length (key_bytes (key_of key.now)) }
    requires least { least_disk_size ≤ volume.old.store.disk.size }
    requires afters { FileHasRoom sides.After (entry_size (key_of key.now) (option_copied after)) file volume.old.catalog.heads volume.old.store.disk }
    requires befores { FileHasRoom sides.Before (entry_size (key_of key.now) (option_copied before)) file volume.old.catalog.heads volume.old.store.disk }
    requires staged { length volume.old.store.touched ≤ 460 }
    ensures current { OnOk result (volume.new.store.current ≡ option_map (content_with_both file (spelling (change_entry (tid_of branch.now.tid) (serial_of branch.now.serial) file (key_of key.now) (option_copied after.entry))) (spelling (change_entry (tid_of branch.now.tid) (serial_of branch.now.serial) file (key_of key.now) (option_copied before.entry))) volume.old.catalog.heads) volume.old.store.current) }
    ensures rest { OnOk result (SameButReads (record volume.old.store { current = volume.new.store.current; touched = volume.new.store.touched }) volume.new.store) }
    ensures catalog { OnOk result (volume.new.catalog ≡ record volume.old.catalog { heads = heads_with_both file (entry_size (key_of key.now) (option_copied after.entry)) (entry_size (key_of key.now) (option_copied before.entry)) volume.old.catalog.heads }) }
    ensures images { OnOk result (IsEntry (change_entry (tid_of branch.now.tid) (serial_of branch.now.serial) file (key_of key.now) (option_copied after.entry)) × IsEntry (change_entry (tid_of branch.now.tid) (serial_of branch.now.serial) file (key_of key.now) (option_copied before.entry))) }
    ensures few { OnOk result (length volume.new.store.touched ≤ length volume.old.store.touched + 38) }
    ensures holds { OnOk result (Holds volume.old → Holds volume.new) }
    ensures ready { OnOk result (IsReady volume.old.store → IsReady volume.new.store) }
    ensures down { IfErr result (λ down. FellPast down volume.old volume.new) }
{
    match append_side(volume, file, Side::After, branch, key, after, entry) {
        Err(down) => return Err(down),
        Ok(()) => {}
    }
    append_side(volume, file, Side::Before, branch, key, before, entry)
}
