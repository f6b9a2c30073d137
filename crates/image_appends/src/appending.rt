// An entry at the end of one journal.
ghost use Rattle.std.specs.Prelude.{◌≡◌, ◌≤◌, ◌<◌, ◌+◌, ◌*◌, true, Some, OnOk, IfErr, length, option_map, slice_set};
ghost use Rattle.block_disk.specs.Sizes.{least_disk_size};
ghost use Rattle.vms_base.specs.vms_model.Limits.{file_limit};
ghost use Rattle.careful_write.specs.Reads.{SameButReads};
ghost use Rattle.careful_write.specs.State.{IsReady};
ghost use Rattle.careful_write.specs.Sizes.{group_limit};
ghost use Rattle.volume.specs.Catalogs.{head_at};
ghost use Rattle.volume.specs.State.{Holds};
ghost use Rattle.unit_journal.specs.Leaving.{FellIn};
ghost use Rattle.image_appends.specs.Images.{FileHasRoom, HasRoom, content_with, entered, grown, heads_with, is_kept as kept_said, span_of as span_said, with_span as with_said};

use crate::side::Side;
use block_disk::Disk;
use careful_write::Down;
use file_base::{FileHead, Span};
use journal_format::EntryBuf;
use journal_store::{AppendErr, append, one_entry_more};
use volume::{Volume, catalogs_stand_on_the_front};

// Whether a file keeps a journal.
fn is_kept(side: Side, head: &FileHead) -> bool
    ensures { result ≡ kept_said side head.now }
{
    match side {
        Side::After => head.marks.ai,
        Side::Before => head.marks.bi,
    }
}

fn span_of(side: Side, head: &FileHead) -> Span
    ensures { result ≡ span_said side head.now }
{
    match side {
        Side::After => head.ai,
        Side::Before => head.bi,
    }
}

fn set_span(side: Side, span: Span, head: &mut FileHead)
    ensures { head.new ≡ with_said side span head.old }
{
    match side {
        Side::After => head.ai = span,
        Side::Before => head.bi = span,
    }
}

// Stages an entry at the end of a journal that the file of a number keeps, and its directory block.
fn append_kept<D: Disk>(
    volume: &mut Volume<D>,
    file: u8,
    side: Side,
    head: &mut FileHead,
    entry: &EntryBuf,
) -> Result<(), Down>
    requires number { file < file_limit }
    requires least { least_disk_size ≤ volume.old.store.disk.size }
    requires room { HasRoom (length entry.now) (span_said side head.old) volume.old.store.disk }
    requires staged { length volume.old.store.touched ≤ 480 }
    ensures current { OnOk result (volume.new.store.current ≡ option_map (entered file side entry.now head.old) volume.old.store.current) }
    ensures rest { OnOk result (SameButReads (record volume.old.store { current = volume.new.store.current; touched = volume.new.store.touched }) volume.new.store) }
    ensures catalog { OnOk result (volume.new.catalog ≡ record volume.old.catalog { heads = slice_set volume.old.catalog.heads file (Some (grown side (length entry.now) head.old)) }) }
    ensures few { OnOk result (512 * length volume.new.store.touched ≤ group_limit * length volume.old.store.touched + length entry.now + 1534) }
    ensures holds { OnOk result (Holds volume.old → Holds volume.new) }
    ensures ready { OnOk result (IsReady volume.old.store → IsReady volume.new.store) }
    ensures down { IfErr result (λ down. FellIn down volume.old volume.new) }
{
    catalogs_stand_on_the_front();
    one_entry_more();
    let mut span = span_of(side, head);
    match append(volume.store(), &mut span, entry) {
        Ok(()) => {}
        Err(AppendErr::Down(down)) => return Err(down),
        Err(AppendErr::Full { .. }) => unreachable!(),
    }
    set_span(side, span, head);
    let Ok(()) = volume.stage_head(file, head) else {
        unreachable!()
    };
    Ok(())
}

/// Stages an entry at the end of a journal of the file of a number, and its directory block, where the file keeps the journal. There has to be room
/// for it. After Down nothing is staged.
pub fn append_image<D: Disk>(
    volume: &mut Volume<D>,
    file: u8,
    side: Side,
    entry: &EntryBuf,
) -> Result<(), Down>
    requires number { file < file_limit }
    requires least { least_disk_size ≤ volume.old.store.disk.size }
    requires room { FileHasRoom side (length entry.now) file volume.old.catalog.heads volume.old.store.disk }
    requires staged { length volume.old.store.touched ≤ 480 }
    ensures current { OnOk result (volume.new.store.current ≡ option_map (content_with file side entry.now volume.old.catalog.heads) volume.old.store.current) }
    ensures rest { OnOk result (SameButReads (record volume.old.store { current = volume.new.store.current; touched = volume.new.store.touched }) volume.new.store) }
    ensures catalog { OnOk result (volume.new.catalog ≡ record volume.old.catalog { heads = heads_with file side (length entry.now) volume.old.catalog.heads }) }
    ensures few { OnOk result (512 * length volume.new.store.touched ≤ group_limit * length volume.old.store.touched + length entry.now + 1534) }
    ensures holds { OnOk result (Holds volume.old → Holds volume.new) }
    ensures ready { OnOk result (IsReady volume.old.store → IsReady volume.new.store) }
    ensures down { IfErr result (λ down. FellIn down volume.old volume.new) }
{
    let mut head = match volume.head(file) {
        Some(head) => *head,
        None => return Ok(()),
    };
    if !is_kept(side, &head) {
        return Ok(());
    }
    append_kept(volume, file, side, &mut head, entry)
}
