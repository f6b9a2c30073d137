// Truncations for units, and for none.
ghost use Rattle.std.specs.Prelude.{◌≡◌, ◌⊎◌, ◌≤◌, ◌+◌, ◌^◌, true, false, Some, IfErr, IfOk, IfSome, OnOk, OnErr, length};
ghost use Rattle.vms_model.specs.Limits.{change_limit, file_limit};
ghost use Rattle.block_disk.specs.Sizes.{greatest_disk_size, least_disk_size};
ghost use Rattle.careful_write.specs.Down.{Counts};
ghost use Rattle.careful_write.specs.Reads.{SameButReads};
ghost use Rattle.careful_write.specs.State.{IsIdle, IsReady, Leaves, content};
ghost use Rattle.careful_write.specs.Sizes.{staged_limit};
ghost use Rattle.change_set.specs.Files.{IsPlaced, free_frames};
ghost use Rattle.change_set.specs.Maps.{empty_map};
ghost use Rattle.file_base.specs.declared.head.Organization.TheVariants as organization;
ghost use Rattle.volume_files.specs.record_files.Any.{Begins, IsFile, IsLaidOut};
ghost use Rattle.unit_journal.specs.Groups.{Breaks, Grows};
ghost use Rattle.vms_base.specs.Ids.{serial_of, tid_of};
ghost use Rattle.vms_model.specs.Keys.{Number};
ghost use Rattle.volume.specs.Catalogs.{IsSound, head_at};
ghost use Rattle.volume.specs.State.{Holds};
ghost use Rattle.unit_journal.specs.Leaving.{FellIn};
ghost use Rattle.image_appends.specs.Images.{HasRoom};
ghost use Rattle.unit_cuts.specs.Records.{OfRecords};
ghost use Rattle.unit_cuts.specs.Moving.{CommitsBehind, EntersImages, FitCut, Fits, ImagesFit, ImagesLieBeside, MovesAll, MovesFile};
ghost use Rattle.unit_cuts.specs.Truncating.{AllTold, AreBegun, BreaksCut, CommitsCut, CutEntries, EntersBehind, IsTold, LiesBeside, MakesCut, begins_at, entry_sizes, keys_cut, removed_from};

use crate::cut::Cut;
use crate::entering::enter_behind;
use crate::measuring::{CutRoom, gone_size};
use crate::own::{own_branch, settle_own};
use block_disk::Disk;
use careful_write::{Down, one_content};
use change_set::Place;
use file_base::Span;
use journal_format::EntryBuf;
use unit_journal::stage_settlement;
use unit_table::{Branch, UnitTable};
use vms_base::{Moment, Record, Tid};
use volume::{Volume, catalogs_stand_on_the_front};
use volume_files::stage_cut;
use volume_format::Ending;

// The spans of the journals of images of a file.
#[derive(Clone, Copy, Debug, Drop)]
struct ImageSpans {
    afters: Span,
    befores: Span,
}

// Enters the records that go behind the end of the file's journal of before images, where it keeps that: what they have. The entries take so many bytes.
fn enter_befores<D: Disk>(
    volume: &mut Volume<D>,
    cut: &Cut,
    size: u64,
    branch: &Branch,
    found: &mut Record,
    entry: &mut EntryBuf,
    room: &mut CutRoom,
) -> Result<Span, Down>
    requires placed { IsPlaced cut.now.head volume.old.store.disk }
    requires beside { cut.now.head.marks.bi ≡ true → LiesBeside cut.now.head cut.now.head.bi }
    requires frames { 32 ≤ free_frames volume.old.store.pool }
    requires sequential { cut.now.head.organization ≡ organization.Sequential }
    requires many { removed_from cut.now.head.count cut.now.from ≤ change_limit }
    requires places { AreBegun cut.now.head volume.old room.old.places }
    requires idle { IsIdle volume.old.store }
    requires fit { cut.now.head.marks.bi ≡ true → Fits size cut.now.head.bi volume.old.store.disk }
    requires size { OfRecords cut.now.head volume.old (λ m. size ≡ entry_sizes m (keys_cut cut.now.head cut.now.from)) }
    ensures enters { IfOk result (λ span. EntersBehind cut.now.head.marks.bi true cut.now.head.bi size (tid_of branch.now.tid) (serial_of branch.now.serial) cut.now.file cut.now.head cut.now.from volume.old volume.new span room.new.positions) }
    ensures places { room.new.places ≡ room.old.places }
    ensures idle { OnOk result (IsIdle volume.new.store) }
    ensures err { OnErr result (Leaves (IsTold cut.now.head.marks.bi cut.now.head.bi (content volume.old.store)) volume.new.store.disk) }
    ensures catalog { volume.new.catalog ≡ volume.old.catalog }
    ensures counts { Counts result volume.old.store.disk volume.new.store.disk }
    ensures pool { volume.new.store.pool ≡ volume.old.store.pool }
{
    enter_behind(
        volume,
        cut.head.marks.bi,
        &cut.head.bi,
        size,
        cut,
        true,
        branch,
        found,
        entry,
        room,
    )
}

// Enters the records that go behind the end of the file's journal of after images, where it keeps that: that they are gone.
fn enter_afters<D: Disk>(
    volume: &mut Volume<D>,
    cut: &Cut,
    branch: &Branch,
    found: &mut Record,
    entry: &mut EntryBuf,
    room: &mut CutRoom,
) -> Result<Span, Down>
    requires placed { IsPlaced cut.now.head volume.old.store.disk }
    requires beside { cut.now.head.marks.ai ≡ true → LiesBeside cut.now.head cut.now.head.ai }
    requires frames { 32 ≤ free_frames volume.old.store.pool }
    requires sequential { cut.now.head.organization ≡ organization.Sequential }
    requires many { removed_from cut.now.head.count cut.now.from ≤ change_limit }
    requires places { AreBegun cut.now.head volume.old room.old.places }
    requires idle { IsIdle volume.old.store }
    requires fit { cut.now.head.marks.ai ≡ true → Fits (entry_sizes empty_map (keys_cut cut.now.head cut.now.from)) cut.now.head.ai volume.old.store.disk }
    ensures enters { IfOk result (λ span. EntersBehind cut.now.head.marks.ai false cut.now.head.ai (entry_sizes empty_map (keys_cut cut.now.head cut.now.from)) (tid_of branch.now.tid) (serial_of branch.now.serial) cut.now.file cut.now.head cut.now.from volume.old volume.new span room.new.positions) }
    ensures places { room.new.places ≡ room.old.places }
    ensures idle { OnOk result (IsIdle volume.new.store) }
    ensures err { OnErr result (Leaves (IsTold cut.now.head.marks.ai cut.now.head.ai (content volume.old.store)) volume.new.store.disk) }
    ensures catalog { volume.new.catalog ≡ volume.old.catalog }
    ensures counts { Counts result volume.old.store.disk volume.new.store.disk }
    ensures pool { volume.new.store.pool ≡ volume.old.store.pool }
{
    let size = gone_size(cut);
    enter_behind(
        volume,
        cut.head.marks.ai,
        &cut.head.ai,
        size,
        cut,
        false,
        branch,
        found,
        entry,
        room,
    )
}

// Enters the records that go behind the ends of the file's journals of images, where it keeps them, in groups of their own, which tell nothing yet. The
// entries of what the records have take so many bytes. The journals' spans behind them are answered.
fn enter_images<D: Disk>(
    volume: &mut Volume<D>,
    cut: &Cut,
    size: u64,
    branch: &Branch,
    found: &mut Record,
    entry: &mut EntryBuf,
    room: &mut CutRoom,
) -> Result<ImageSpans, Down>
    requires placed { IsPlaced cut.now.head volume.old.store.disk }
    requires beside { ImagesLieBeside cut.now.head }
    requires frames { 32 ≤ free_frames volume.old.store.pool }
    requires sequential { cut.now.head.organization ≡ organization.Sequential }
    requires many { removed_from cut.now.head.count cut.now.from ≤ change_limit }
    requires places { AreBegun cut.now.head volume.old room.old.places }
    requires idle { IsIdle volume.old.store }
    requires fit { ImagesFit cut.now.head (entry_sizes empty_map (keys_cut cut.now.head cut.now.from)) size volume.old.store.disk }
    requires size { OfRecords cut.now.head volume.old (λ m. size ≡ entry_sizes m (keys_cut cut.now.head cut.now.from)) }
    ensures enters { IfOk result (λ spans. EntersImages (entry_sizes empty_map (keys_cut cut.now.head cut.now.from)) size (tid_of branch.now.tid) (serial_of branch.now.serial) cut.now.file cut.now.head cut.now.from volume.old volume.new spans) }
    ensures places { room.new.places ≡ room.old.places }
    ensures idle { OnOk result (IsIdle volume.new.store) }
    ensures err { OnErr result (Leaves (AllTold cut.now.head volume.old.catalog.ru (content volume.old.store)) volume.new.store.disk) }
    ensures catalog { volume.new.catalog ≡ volume.old.catalog }
    ensures counts { Counts result volume.old.store.disk volume.new.store.disk }
    ensures pool { volume.new.store.pool ≡ volume.old.store.pool }
{
    let befores = match enter_befores(volume, cut, size, branch, found, entry, room) {
        Ok(span) => span,
        Err(down) => return Err(down),
    };
    let afters = match enter_afters(volume, cut, branch, found, entry, room) {
        Ok(span) => span,
        Err(down) => return Err(down),
    };
    Ok(ImageSpans { afters, befores })
}

// Stages that the records of a truncation go, and that the file's journals of images have these spans.
fn cut_file<D: Disk>(
    volume: &mut Volume<D>,
    cut: &Cut,
    spans: &ImageSpans,
    place: Place,
) -> Result<(), Down>
    requires there { head_at volume.old.catalog.heads cut.now.file ≡ Some cut.now.head }
    requires whole { length volume.old.catalog.heads ≡ file_limit }
    requires sound { IsSound volume.old.catalog.home.node volume.old.store.disk.size volume.old.catalog }
    requires least { least_disk_size ≤ volume.old.store.disk.size }
    requires most { volume.old.store.disk.size ≤ greatest_disk_size }
    requires frames { 32 ≤ free_frames volume.old.store.pool }
    requires staged { length volume.old.store.touched ≤ staged_limit }
    requires sequential { cut.now.head.organization ≡ organization.Sequential }
    requires some { 1 ≤ removed_from cut.now.head.count cut.now.from }
    requires begins { IfSome volume.old.store.current (λ a. IsFile cut.now.head → IsLaidOut cut.now.head a → Begins cut.now.head a (Some (Number cut.now.from)) place) }
    ensures moves { OnOk result (MovesFile cut.now.file cut.now.head cut.now.from spans.now volume.old volume.new) }
    ensures rest { OnOk result (SameButReads (record volume.old.store { current = volume.new.store.current; touched = volume.new.store.touched }) volume.new.store) }
    ensures few { OnOk result (length volume.new.store.touched ≤ length volume.old.store.touched + 66) }
    ensures holds { OnOk result (Holds volume.old → Holds volume.new) }
    ensures ready { OnOk result (IsReady volume.old.store → IsReady volume.new.store) }
    ensures down { IfErr result (λ down. FellIn down volume.old volume.new) }
{
    let mut head = cut.head;
    match stage_cut(volume, cut.file, &mut head, cut.from, place) {
        Ok(()) => {}
        Err(down) => return Err(down),
    }
    head.ai = spans.afters;
    head.bi = spans.befores;
    let Ok(()) = volume.stage_head(cut.file, &head) else {
        unreachable!()
    };
    Ok(())
}

// Takes the records of a truncation out of their file, and moves the ends of its journals of images and of the journal of recovery units, in one group.
fn cut_behind<D: Disk>(
    volume: &mut Volume<D>,
    cut: &Cut,
    spans: &ImageSpans,
    ru: &Span,
    place: Place,
) -> Result<(), Down>
    requires there { head_at volume.old.catalog.heads cut.now.file ≡ Some cut.now.head }
    requires whole { length volume.old.catalog.heads ≡ file_limit }
    requires sound { IsSound volume.old.catalog.home.node volume.old.store.disk.size volume.old.catalog }
    requires least { least_disk_size ≤ volume.old.store.disk.size }
    requires most { volume.old.store.disk.size ≤ greatest_disk_size }
    requires frames { 32 ≤ free_frames volume.old.store.pool }
    requires idle { IsIdle volume.old.store }
    requires holds { Holds volume.old }
    requires sequential { cut.now.head.organization ≡ organization.Sequential }
    requires some { 1 ≤ removed_from cut.now.head.count cut.now.from }
    requires begins { IfSome volume.old.store.current (λ a. IsFile cut.now.head → IsLaidOut cut.now.head a → Begins cut.now.head a (Some (Number cut.now.from)) place) }
    ensures cuts { OnOk result (MovesAll cut.now.file cut.now.head cut.now.from spans.now ru.now volume.old volume.new) }
    ensures idle { OnOk result (IsIdle volume.new.store) }
    ensures holds { OnOk result (Holds volume.new) }
    ensures home { volume.new.catalog.home ≡ volume.old.catalog.home }
    ensures ru { (volume.new.catalog.ru ≡ volume.old.catalog.ru) ⊎ (volume.new.catalog.ru ≡ ru.now) }
    ensures breaks { OnErr result (Breaks (MovesAll cut.now.file cut.now.head cut.now.from spans.now ru.now volume.old) volume.old volume.new) }
    ensures counts { Counts result volume.old.store.disk volume.new.store.disk }
    ensures pool { volume.new.store.pool ≡ volume.old.store.pool }
{
    one_content();
    match cut_file(volume, cut, spans, place) {
        Ok(()) => {}
        Err(down) => return Err(down),
    }
    let Ok(()) = volume.stage_ru(ru) else {
        unreachable!()
    };
    volume.store().apply()
}

/// Takes the records of a truncation out of their file, with an entry for each in the journal of recovery units and in the file's journals of images,
/// where it keeps them. The entries of what the records have take so many bytes. Entries go into groups of their own behind the journals' ends, which
/// tell nothing yet; the group that moves the ends has the file too. Where each entry begins in the journal of recovery units is in `room` then.
pub fn cut_records<D: Disk>(
    volume: &mut Volume<D>,
    cut: &Cut,
    size: u64,
    branch: &Branch,
    found: &mut Record,
    entry: &mut EntryBuf,
    room: &mut CutRoom,
) -> Result<(), Down>
    requires there { head_at volume.old.catalog.heads cut.now.file ≡ Some cut.now.head }
    requires whole { length volume.old.catalog.heads ≡ file_limit }
    requires sound { IsSound volume.old.catalog.home.node volume.old.store.disk.size volume.old.catalog }
    requires least { least_disk_size ≤ volume.old.store.disk.size }
    requires most { volume.old.store.disk.size ≤ greatest_disk_size }
    requires frames { 32 ≤ free_frames volume.old.store.pool }
    requires idle { IsIdle volume.old.store }
    requires holds { Holds volume.old }
    requires sequential { cut.now.head.organization ≡ organization.Sequential }
    requires many { removed_from cut.now.head.count cut.now.from ≤ change_limit }
    requires some { 1 ≤ removed_from cut.now.head.count cut.now.from }
    requires size { OfRecords cut.now.head volume.old (λ m. size ≡ entry_sizes m (keys_cut cut.now.head cut.now.from)) }
    requires fits { HasRoom size volume.old.catalog.ru volume.old.store.disk }
    requires low { volume.old.catalog.ru.end + size ≤ 2 ^ 62 }
    requires images { ImagesFit cut.now.head (entry_sizes empty_map (keys_cut cut.now.head cut.now.from)) size volume.old.store.disk }
    requires places { AreBegun cut.now.head volume.old room.old.places }
    ensures enters { OnOk result ((es : CutEntries) × MakesCut (tid_of branch.now.tid) (serial_of branch.now.serial) cut.now.file cut.now.head cut.now.from es volume.old volume.new
        × FitCut es (entry_sizes empty_map (keys_cut cut.now.head cut.now.from)) size × (room.new.positions ≡ begins_at volume.old.catalog.ru.end es.had)) }
    ensures few { OnOk result (length room.new.positions ≤ removed_from cut.now.head.count cut.now.from) }
    ensures idle { OnOk result (IsIdle volume.new.store) }
    ensures holds { OnOk result (Holds volume.new) }
    ensures home { volume.new.catalog.home ≡ volume.old.catalog.home }
    ensures end { volume.new.catalog.ru.end ≤ volume.old.catalog.ru.end + size }
    ensures breaks { OnErr result (BreaksCut cut.now.head (λ made. (es : CutEntries) × MakesCut (tid_of branch.now.tid) (serial_of branch.now.serial) cut.now.file cut.now.head cut.now.from es volume.old made) volume.old volume.new) }
    ensures counts { Counts result volume.old.store.disk volume.new.store.disk }
    ensures pool { volume.new.store.pool ≡ volume.old.store.pool }
{
    catalogs_stand_on_the_front();
    let first = room.first_place();
    let ru = *volume.ru();
    let spans = match enter_images(volume, cut, size, branch, found, entry, room) {
        Ok(spans) => spans,
        Err(down) => return Err(down),
    };
    let span = match enter_behind(
        volume, true, &ru, size, cut, true, branch, found, entry, room,
    ) {
        Ok(span) => span,
        Err(down) => return Err(down),
    };
    cut_behind(volume, cut, &spans, &span, first)
}

// Takes the records of a truncation out of their file, moves the ends of its journals of images, and commits that at a moment, in one group.
fn commit_behind<D: Disk>(
    volume: &mut Volume<D>,
    units: &UnitTable,
    cut: &Cut,
    spans: &ImageSpans,
    place: Place,
    branch: &Branch,
    moment: Moment,
    entry: &mut EntryBuf,
) -> Result<(), Down>
    requires there { head_at volume.old.catalog.heads cut.now.file ≡ Some cut.now.head }
    requires whole { length volume.old.catalog.heads ≡ file_limit }
    requires sound { IsSound volume.old.catalog.home.node volume.old.store.disk.size volume.old.catalog }
    requires least { least_disk_size ≤ volume.old.store.disk.size }
    requires most { volume.old.store.disk.size ≤ greatest_disk_size }
    requires frames { 32 ≤ free_frames volume.old.store.pool }
    requires idle { IsIdle volume.old.store }
    requires holds { Holds volume.old }
    requires sequential { cut.now.head.organization ≡ organization.Sequential }
    requires some { 1 ≤ removed_from cut.now.head.count cut.now.from }
    requires begins { IfSome volume.old.store.current (λ a. IsFile cut.now.head → IsLaidOut cut.now.head a → Begins cut.now.head a (Some (Number cut.now.from)) place) }
    requires afters { cut.now.head.marks.ai ≡ true → HasRoom 48 spans.now.afters volume.old.store.disk }
    requires befores { cut.now.head.marks.bi ≡ true → HasRoom 48 spans.now.befores volume.old.store.disk }
    ensures makes { OnOk result (CommitsBehind cut.now.file cut.now.head cut.now.from spans.now branch.now.tid branch.now.serial moment.0 units.now.places volume.old volume.new) }
    ensures idle { OnOk result (IsIdle volume.new.store) }
    ensures holds { OnOk result (Holds volume.new) }
    ensures breaks { OnErr result (Breaks (CommitsBehind cut.now.file cut.now.head cut.now.from spans.now branch.now.tid branch.now.serial moment.0 units.now.places volume.old) volume.old volume.new) }
    ensures grows { Grows 0 moment.0 volume.old volume.new }
    ensures counts { Counts result volume.old.store.disk volume.new.store.disk }
    ensures pool { volume.new.store.pool ≡ volume.old.store.pool }
{
    one_content();
    match cut_file(volume, cut, spans, place) {
        Ok(()) => {}
        Err(down) => return Err(down),
    }
    match settle_own(volume, cut.file, branch, moment, entry) {
        Ok(()) => {}
        Err(down) => return Err(down),
    }
    stage_settlement(
        volume,
        units,
        branch.tid,
        branch.serial,
        Ending::Commit,
        moment,
    );
    volume.store().apply()
}

/// Takes the records of a truncation out of their file for no unit, with an entry for each in the file's journals of images, where it keeps them, and
/// commits that at a moment. The entries of what the records have take so many bytes. Entries go into groups of their own behind the journals' ends,
/// which tell nothing yet; the group that moves the ends has the file and the settlement too.
pub fn commit_cut<D: Disk>(
    volume: &mut Volume<D>,
    units: &UnitTable,
    cut: &Cut,
    size: u64,
    tid: Tid,
    moment: Moment,
    found: &mut Record,
    entry: &mut EntryBuf,
    room: &mut CutRoom,
) -> Result<(), Down>
    requires there { head_at volume.old.catalog.heads cut.now.file ≡ Some cut.now.head }
    requires whole { length volume.old.catalog.heads ≡ file_limit }
    requires sound { IsSound volume.old.catalog.home.node volume.old.store.disk.size volume.old.catalog }
    requires least { least_disk_size ≤ volume.old.store.disk.size }
    requires most { volume.old.store.disk.size ≤ greatest_disk_size }
    requires frames { 32 ≤ free_frames volume.old.store.pool }
    requires idle { IsIdle volume.old.store }
    requires holds { Holds volume.old }
    requires sequential { cut.now.head.organization ≡ organization.Sequential }
    requires many { removed_from cut.now.head.count cut.now.from ≤ change_limit }
    requires some { 1 ≤ removed_from cut.now.head.count cut.now.from }
    requires size { OfRecords cut.now.head volume.old (λ m. size ≡ entry_sizes m (keys_cut cut.now.head cut.now.from)) }
    requires images { ImagesFit cut.now.head (entry_sizes empty_map (keys_cut cut.now.head cut.now.from) + 48) (size + 48) volume.old.store.disk }
    requires places { AreBegun cut.now.head volume.old room.old.places }
    ensures makes { OnOk result ((es : CutEntries) × CommitsCut cut.now.file cut.now.head cut.now.from es tid moment.0 units.now.places volume.old volume.new × FitCut es (entry_sizes empty_map (keys_cut cut.now.head cut.now.from)) size) }
    ensures idle { OnOk result (IsIdle volume.new.store) }
    ensures holds { OnOk result (Holds volume.new) }
    ensures breaks { OnErr result (BreaksCut cut.now.head (λ made. (es : CutEntries) × CommitsCut cut.now.file cut.now.head cut.now.from es tid moment.0 units.now.places volume.old made) volume.old volume.new) }
    ensures grows { Grows 0 moment.0 volume.old volume.new }
    ensures counts { Counts result volume.old.store.disk volume.new.store.disk }
    ensures pool { volume.new.store.pool ≡ volume.old.store.pool }
{
    catalogs_stand_on_the_front();
    let first = room.first_place();
    let branch = own_branch(&tid);
    let spans = match enter_images(volume, cut, size, &branch, found, entry, room) {
        Ok(spans) => spans,
        Err(down) => return Err(down),
    };
    commit_behind(volume, units, cut, &spans, first, &branch, moment, entry)
}
