// The entries of the records that a truncation takes, behind the end of one journal.
ghost use Rattle.std.specs.Prelude.{◌≡◌, ◌⊎◌, ◌≤◌, ◌<◌, ◌+◌, ◌-◌, ◌*◌, ◌%◌, ◌^◌, [], List, Option, None, Some, true, IfOk, IfErr, OnOk, OnErr, length, if◌then◌else◌};
ghost use Rattle.vms_model.specs.Limits.{change_limit};
ghost use Rattle.careful_write.specs.Down.{Counts};
ghost use Rattle.careful_write.specs.State.{IsEither, IsIdle, IsReady, Leaves, content};
ghost use Rattle.change_set.specs.Files.{IsPlaced, free_frames};
ghost use Rattle.file_base.specs.declared.head.Organization.TheVariants as organization;
ghost use Rattle.journal_model.specs.Entries.{Entry, IsEntry, spelling};
ghost use Rattle.journal_model.specs.Ring.{ring_size};
ghost use Rattle.journal_store.specs.Rings.{IsRing};
ghost use Rattle.unit_journal.specs.Entries.{change_entry};
ghost use Rattle.unit_journal.specs.Leaving.{FellIn};
ghost use Rattle.vms_base.specs.Ids.{serial_of, tid_of};
ghost use Rattle.vms_model.specs.Keys.{Number};
ghost use Rattle.image_appends.specs.Images.{HasRoom};
ghost use Rattle.volume.specs.State.{SameVolume};
ghost use Rattle.unit_cuts.specs.Records.{OfRecords};
ghost use Rattle.unit_cuts.specs.Truncating.{AreBegun, Entering, EntersBehind, EntersIfFits, IsTold, LiesBeside, TellsFirst, Writes, entry_sizes, keys_cut, removed_from, told_map};

use crate::cut::{Cut, record_if};
use crate::measuring::CutRoom;
use block_disk::Disk;
use careful_write::{Down, one_content};
use file_base::Span;
use journal_format::EntryBuf;
use journal_store::{AppendErr, append};
use unit_journal::encode_change;
use unit_table::Branch;
use vms_base::{Key, Record};
use volume::Volume;
use volume_files::find_record;

// So many entries are staged before they are written, where more follow: at most 360 blocks.
const ENTRIES_A_GROUP: u32 = 20;

// Stages an entry behind a span, and notes where it begins. One that is longer than what is left up to the limit is passed over: no record that is
// laid out has it.
fn append_within<D: Disk>(
    volume: &mut Volume<D>,
    span: &mut Span,
    limit: u64,
    entry: &EntryBuf,
    room: &mut CutRoom,
) -> Result<(), Down>
    requires ring { IsRing span.old volume.old.store.disk }
    requires order { span.old.end ≤ limit }
    requires within { limit - span.old.first ≤ ring_size span.old }
    requires staged { length volume.old.store.touched ≤ 480 }
    requires few { length room.old.positions < change_limit }
    ensures enters { OnOk result (EntersIfFits entry.now limit span.old span.new room.old.positions room.new.positions volume.old volume.new) }
    ensures places { room.new.places ≡ room.old.places }
    ensures down { IfErr result (λ down. FellIn down volume.old volume.new) }
{
    if limit - span.end < entry.bytes().len() as u64 {
        return Ok(());
    }
    room.note(span.end);
    match append(volume.store(), span, entry) {
        Ok(()) => Ok(()),
        Err(AppendErr::Down(down)) => Err(down),
        Err(AppendErr::Full { .. }) => unreachable!(),
    }
}

// Reads what a record that goes has, where that is to be told; false, where there is none, or it is not to be told.
fn read_image<D: Disk>(
    volume: &mut Volume<D>,
    cut: &Cut,
    behind: u32,
    has_image: bool,
    found: &mut Record,
    room: &CutRoom,
) -> Result<bool, Down>
    requires placed { IsPlaced cut.now.head volume.old.store.disk }
    requires frames { 32 ≤ free_frames volume.old.store.pool }
    requires sequential { cut.now.head.organization ≡ organization.Sequential }
    requires behind { behind < cut.now.head.count }
    requires places { AreBegun cut.now.head volume.old room.now.places }
    ensures found { IfOk result (λ there. OfRecords cut.now.head volume.old (λ m. (if there then Some found.new else None) ≡ told_map has_image m (Number (cut.now.head.count - behind)))) }
    ensures same { OnOk result (SameVolume volume.old volume.new) }
    ensures down { IfErr result (λ down. FellIn down volume.old volume.new) }
{
    if !has_image {
        return Ok(false);
    }
    let key = cut.key(behind);
    let mut place = room.place_at(behind);
    find_record(volume, &cut.head, &key, &mut place, found)
}

// Stages the entry of one record that goes, where it fits: of what the record has, or of nothing.
fn enter_record<D: Disk>(
    volume: &mut Volume<D>,
    span: &mut Span,
    limit: u64,
    cut: &Cut,
    behind: u32,
    has_image: bool,
    branch: &Branch,
    found: &mut Record,
    entry: &mut EntryBuf,
    room: &mut CutRoom,
) -> Result<(), Down>
    requires placed { IsPlaced cut.now.head volume.old.store.disk }
    requires frames { 32 ≤ free_frames volume.old.store.pool }
    requires sequential { cut.now.head.organization ≡ organization.Sequential }
    requires behind { behind < cut.now.head.count }
    requires places { AreBegun cut.now.head volume.old room.old.places }
    requires ring { IsRing span.old volume.old.store.disk }
    requires order { span.old.end ≤ limit }
    requires within { limit - span.old.first ≤ ring_size span.old }
    requires staged { length volume.old.store.touched ≤ 480 }
    requires few { length room.old.positions < change_limit }
    ensures enters { OnOk result ((e : Entry) × IsEntry e × OfRecords cut.now.head volume.old (λ m. e ≡ change_entry (tid_of branch.now.tid) (serial_of branch.now.serial) cut.now.file (Number (cut.now.head.count - behind)) (told_map has_image m (Number (cut.now.head.count - behind))))
        × EntersIfFits (spelling e) limit span.old span.new room.old.positions room.new.positions volume.old volume.new) }
    ensures places { room.new.places ≡ room.old.places }
    ensures down { IfErr result (λ down. FellIn down volume.old volume.new) }
{
    let there = match read_image(volume, cut, behind, has_image, found, &*room) {
        Ok(there) => there,
        Err(down) => return Err(down),
    };
    let key = cut.key(behind);
    encode_change(
        branch.tid,
        branch.serial,
        cut.file,
        &key,
        record_if(there, found),
        entry,
    );
    append_within(volume, span, limit, entry, room)
}

// Writes the entries that are staged, where they are as many as a group has.
fn write_full<D: Disk>(volume: &mut Volume<D>, behind: u32) -> Result<(), Down>
    requires ready { IsReady volume.old.store }
    requires staged { length volume.old.store.touched ≤ 18 * (behind % 20 + 1) }
    ensures writes { OnOk result (Writes volume.old volume.new) }
    ensures catalog { volume.new.catalog ≡ volume.old.catalog }
    ensures staged { OnOk result (length volume.new.store.touched ≤ 18 * ((behind + 1) % 20)) }
    ensures err { OnErr result (Leaves (IsEither (content volume.old.store) volume.old.store.current) volume.new.store.disk) }
    ensures counts { Counts result volume.old.store.disk volume.new.store.disk }
    ensures pool { volume.new.store.pool ≡ volume.old.store.pool }
{
    if behind % ENTRIES_A_GROUP == ENTRIES_A_GROUP - 1 {
        volume.store().apply()
    } else {
        Ok(())
    }
}

// Enters the records that go behind a journal's end, the last one first, in groups of their own. Its span with them is answered.
fn enter_records<D: Disk>(
    volume: &mut Volume<D>,
    base: &Span,
    limit: u64,
    cut: &Cut,
    has_image: bool,
    branch: &Branch,
    found: &mut Record,
    entry: &mut EntryBuf,
    room: &mut CutRoom,
) -> Result<Span, Down>
    requires placed { IsPlaced cut.now.head volume.old.store.disk }
    requires beside { LiesBeside cut.now.head base.now }
    requires frames { 32 ≤ free_frames volume.old.store.pool }
    requires sequential { cut.now.head.organization ≡ organization.Sequential }
    requires many { removed_from cut.now.head.count cut.now.from ≤ change_limit }
    requires places { AreBegun cut.now.head volume.old room.old.places }
    requires idle { IsIdle volume.old.store }
    requires ring { IsRing base.now volume.old.store.disk }
    requires order { base.now.end ≤ limit }
    requires within { limit - base.now.first ≤ ring_size base.now }
    requires low { limit ≤ 2 ^ 62 }
    ensures enters { IfOk result (λ span. (es : List Entry) × Entering limit base.now volume.old volume.new span room.new.positions es × TellsFirst (tid_of branch.now.tid) (serial_of branch.now.serial) cut.now.file cut.now.head cut.now.from limit (removed_from cut.now.head.count cut.now.from) base.now has_image volume.old es) }
    ensures few { OnOk result (length room.new.positions ≤ removed_from cut.now.head.count cut.now.from) }
    ensures places { room.new.places ≡ room.old.places }
    ensures idle { OnOk result (IsIdle volume.new.store) }
    ensures err { OnErr result (Leaves (IsTold true base.now (content volume.old.store)) volume.new.store.disk) }
    ensures catalog { volume.new.catalog ≡ volume.old.catalog }
    ensures counts { Counts result volume.old.store.disk volume.new.store.disk }
    ensures pool { volume.new.store.pool ≡ volume.old.store.pool }
{
    one_content();
    room.forget_positions();
    let mut span = *base;
    for behind in 0..cut.removed() {
        match enter_record(
            volume, &mut span, limit, cut, behind, has_image, branch, found, entry, room,
        ) {
            Ok(()) => {}
            Err(down) => return Err(down),
        }
        match write_full(volume, behind) {
            Ok(()) => {}
            Err(down) => return Err(down),
        }
    }
    match volume.store().apply() {
        Ok(()) => Ok(span),
        Err(down) => Err(down),
    }
}

/// Enters the records that a truncation takes behind the end of a journal, where it is kept, in groups of their own, which tell nothing yet: what they
/// have, or that they are gone. The entries take so many bytes. The journal's span behind them is answered; where each begins is in `room` then.
pub(crate) fn enter_behind<D: Disk>(
    volume: &mut Volume<D>,
    kept: bool,
    base: &Span,
    size: u64,
    cut: &Cut,
    has_image: bool,
    branch: &Branch,
    found: &mut Record,
    entry: &mut EntryBuf,
    room: &mut CutRoom,
) -> Result<Span, Down>
    requires placed { IsPlaced cut.now.head volume.old.store.disk }
    requires beside { kept ≡ true → LiesBeside cut.now.head base.now }
    requires frames { 32 ≤ free_frames volume.old.store.pool }
    requires sequential { cut.now.head.organization ≡ organization.Sequential }
    requires many { removed_from cut.now.head.count cut.now.from ≤ change_limit }
    requires places { AreBegun cut.now.head volume.old room.old.places }
    requires idle { IsIdle volume.old.store }
    requires room { kept ≡ true → HasRoom size base.now volume.old.store.disk }
    requires low { kept ≡ true → base.now.end + size ≤ 2 ^ 62 }
    requires size { kept ≡ true → OfRecords cut.now.head volume.old (λ m. size ≡ entry_sizes (told_map has_image m) (keys_cut cut.now.head cut.now.from)) }
    ensures enters { IfOk result (λ span. EntersBehind kept has_image base.now size (tid_of branch.now.tid) (serial_of branch.now.serial) cut.now.file cut.now.head cut.now.from volume.old volume.new span room.new.positions) }
    ensures few { OnOk result (kept ≡ true → length room.new.positions ≤ removed_from cut.now.head.count cut.now.from) }
    ensures places { room.new.places ≡ room.old.places }
    ensures idle { OnOk result (IsIdle volume.new.store) }
    ensures err { OnErr result (Leaves (IsTold kept base.now (content volume.old.store)) volume.new.store.disk) }
    ensures catalog { volume.new.catalog ≡ volume.old.catalog }
    ensures counts { Counts result volume.old.store.disk volume.new.store.disk }
    ensures pool { volume.new.store.pool ≡ volume.old.store.pool }
{
    if !kept {
        return Ok(*base);
    }
    enter_records(
        volume,
        base,
        base.end + size,
        cut,
        has_image,
        branch,
        found,
        entry,
        room,
    )
}
