// The settlement of a branch in the journals of the files that it changed.
ghost use Rattle.std.specs.Prelude.{◌≡◌, ◌≤◌, ◌<◌, ◌+◌, ◌*◌, true, OnOk, IfErr, length, option_map};
ghost use Rattle.block_disk.specs.Sizes.{least_disk_size};
ghost use Rattle.vms_base.specs.vms_model.Limits.{file_limit};
ghost use Rattle.careful_write.specs.Reads.{SameButReads};
ghost use Rattle.careful_write.specs.State.{IsReady};
ghost use Rattle.volume.specs.State.{Holds};
ghost use Rattle.image_appends.specs.declared.side.Side.TheVariants as sides;
ghost use Rattle.image_appends.specs.Images.{FellPast, FileHasRoom, content_with_both, heads_with_both};
ghost use Rattle.image_appends.specs.Settling.{AllHaveRoom, content_from, content_if, files_in, heads_from, heads_if, one_if};

use crate::appending::append_image;
use crate::side::Side;
use block_disk::Disk;
use careful_write::Down;
use journal_format::EntryBuf;
use volume::Volume;

// In both journals of one file, where it takes part.
fn append_both<D: Disk>(
    volume: &mut Volume<D>,
    file: u8,
    takes: bool,
    entry: &EntryBuf,
) -> Result<(), Down>
    requires number { file < file_limit }
    requires least { least_disk_size ≤ volume.old.store.disk.size }
    requires room { takes ≡ true → FileHasRoom sides.After (length entry.now) file volume.old.catalog.heads volume.old.store.disk × FileHasRoom sides.Before (length entry.now) file volume.old.catalog.heads volume.old.store.disk }
    requires size { length entry.now ≤ 48 }
    requires staged { length volume.old.store.touched + 6 * one_if takes ≤ 480 }
    ensures current { OnOk result (volume.new.store.current ≡ option_map (content_if takes file entry.now volume.old.catalog.heads) volume.old.store.current) }
    ensures rest { OnOk result (SameButReads (record volume.old.store { current = volume.new.store.current; touched = volume.new.store.touched }) volume.new.store) }
    ensures catalog { OnOk result (volume.new.catalog ≡ record volume.old.catalog { heads = heads_if takes file (length entry.now) volume.old.catalog.heads }) }
    ensures few { OnOk result (length volume.new.store.touched ≤ length volume.old.store.touched + 6 * one_if takes) }
    ensures holds { OnOk result (Holds volume.old → Holds volume.new) }
    ensures ready { OnOk result (IsReady volume.old.store → IsReady volume.new.store) }
    ensures down { IfErr result (λ down. FellPast down volume.old volume.new) }
{
    if !takes {
        return Ok(());
    }
    match append_image(volume, file, Side::After, entry) {
        Err(down) => return Err(down),
        Ok(()) => {}
    }
    append_image(volume, file, Side::Before, entry)
}

/// Stages the entry of a settlement at the end of both journals of each of these files, where the file keeps them, with their directory blocks. There
/// has to be room. After Down nothing is staged, and what the volume keeps of the
/// files may be past what its disk tells.
pub fn append_settlement<D: Disk>(
    volume: &mut Volume<D>,
    files: &[bool; 64],
    entry: &EntryBuf,
) -> Result<(), Down>
    requires least { least_disk_size ≤ volume.old.store.disk.size }
    requires room { AllHaveRoom files.now (length entry.now) volume.old.catalog.heads volume.old.store.disk }
    requires size { length entry.now ≤ 48 }
    requires staged { length volume.old.store.touched + 6 * files_in files.now ≤ 480 }
    ensures current { OnOk result (volume.new.store.current ≡ option_map (content_from 0 files.now entry.now volume.old.catalog.heads) volume.old.store.current) }
    ensures rest { OnOk result (SameButReads (record volume.old.store { current = volume.new.store.current; touched = volume.new.store.touched }) volume.new.store) }
    ensures catalog { OnOk result (volume.new.catalog ≡ record volume.old.catalog { heads = heads_from 0 files.now (length entry.now) volume.old.catalog.heads }) }
    ensures few { OnOk result (length volume.new.store.touched ≤ length volume.old.store.touched + 6 * files_in files.now) }
    ensures holds { OnOk result (Holds volume.old → Holds volume.new) }
    ensures ready { OnOk result (IsReady volume.old.store → IsReady volume.new.store) }
    ensures down { IfErr result (λ down. FellPast down volume.old volume.new) }
{
    for file in 0..64u8 {
        match append_both(volume, file, files[file as usize], entry) {
            Err(down) => return Err(down),
            Ok(()) => {}
        }
    }
    Ok(())
}
