// Records in memory, rolled by the images of a journal.
ghost use Rattle.std.specs.Prelude.{◌≡◌, ◌≤◌, ◌<◌, ◌^◌, IfOk, IfErr, IfSome, OnOk, length};
ghost use Rattle.image_laws.specs.image_entries.Changes.{changed_image as image_said, changed_key as key_said};
ghost use Rattle.image_laws.specs.image_entries.Entries.{ReadFails};
ghost use Rattle.image_laws.specs.image_entries.declared.reading.ReadErr.TheVariants.{Memory};
ghost use Rattle.journal_store.specs.Refusing.{Stays};
ghost use Rattle.journal_store.specs.Rings.{IsRing};
ghost use Rattle.rolled_records.specs.Rolling.{set_changed, SetsEntry, SetsAt, SetsPlaces, ReadsFrom, RollsForward, RollsBack};

use block_disk::Disk;
use careful_write::Store;
use file_base::{Organization, Span};
use image_journals::{applied, undone};
use image_laws::{ImageEntries, ReadErr, changed_image, changed_key, images_follow, read_entries};
use journal_format::EntryHead;
use journal_store::entry_at;
use record_maps::RecordMap;
use recovery_model::places_are_rolled;
use std::alloc::Global;
use vms_base::{Moment, Record};

/// A file's journal of images: its ring, and how the file keeps its records.
#[derive(Clone, Copy, Debug, Drop)]
pub struct Images {
    pub span: Span,
    pub organization: Organization,
}

// Sets the image of an entry, where it is a change of a key that the file may have.
fn set_change(
    alloc: Global,
    organization: Organization,
    head: &EntryHead,
    image: &Record,
    map: &mut RecordMap,
) -> Result<(), ReadErr>
    ensures set { OnOk result (map.new ≡ set_changed (key_said organization head.now) (image_said head.now image.now) map.old) }
    ensures err { IfErr result (λ e. e ≡ Memory) }
{
    match changed_key(organization, head) {
        None => Ok(()),
        Some(key) => match map.set(alloc, &key, changed_image(head, image)) {
            Ok(()) => Ok(()),
            Err(_) => Err(ReadErr::Memory),
        },
    }
}

// Sets the image of the entry at a position.
fn set_entry<D: Disk>(
    alloc: Global,
    store: &mut Store<D>,
    images: &Images,
    position: u64,
    image: &mut Record,
    map: &mut RecordMap,
) -> Result<(), ReadErr>
    requires ring { IsRing images.now.span store.old.disk }
    requires low { position ≤ 2 ^ 62 }
    ensures set { OnOk result (IfSome store.old.current (SetsEntry images.now position map.old map.new)) }
    ensures ok { OnOk result (Stays store.old store.new) }
    ensures err { IfErr result (λ e. ReadFails e store.old store.new) }
{
    match entry_at(store, &images.span, position, image) {
        Err(down) => Err(ReadErr::Down(down)),
        Ok(None) => Ok(()),
        Ok(Some((head, _))) => set_change(alloc, images.organization, &head, image, map),
    }
}

// Sets the image of the entry at a place of these positions, where it lies in the journal.
fn set_at<D: Disk>(
    alloc: Global,
    store: &mut Store<D>,
    images: &Images,
    positions: &[u64],
    place: u32,
    image: &mut Record,
    map: &mut RecordMap,
) -> Result<(), ReadErr>
    requires ring { IsRing images.now.span store.old.disk }
    ensures set { OnOk result (IfSome store.old.current (SetsAt images.now positions.now place map.old map.new)) }
    ensures ok { OnOk result (Stays store.old store.new) }
    ensures err { IfErr result (λ e. ReadFails e store.old store.new) }
{
    let n = place as usize;
    if positions.len() <= n {
        return Ok(());
    }
    let position = positions[n];
    if images.span.end < position {
        return Ok(());
    }
    set_entry(alloc, store, images, position, image, map)
}

// Sets the images of the entries at these places, one after another.
fn set_places<D: Disk>(
    alloc: Global,
    store: &mut Store<D>,
    images: &Images,
    positions: &[u64],
    places: &[u32],
    image: &mut Record,
    map: &mut RecordMap,
) -> Result<(), ReadErr>
    requires ring { IsRing images.now.span store.old.disk }
    ensures set { OnOk result (IfSome store.old.current (SetsPlaces images.now positions.now places.now map.old map.new)) }
    ensures ok { OnOk result (Stays store.old store.new) }
    ensures err { IfErr result (λ e. ReadFails e store.old store.new) }
{
    for place in places {
        match set_at(alloc, store, images, positions, *place, image, map) {
            Ok(()) => {}
            Err(e) => return Err(e),
        }
    }
    Ok(())
}

// The entries of a journal from a position on; none where the bytes are no journal.
fn read_from<D: Disk>(
    alloc: Global,
    store: &mut Store<D>,
    images: &Images,
    from: u64,
    image: &mut Record,
) -> Result<ImageEntries, ReadErr>
    requires ring { IsRing images.now.span store.old.disk }
    requires behind { images.now.span.first ≤ from }
    ensures read { IfOk result (λ r. IfSome store.old.current (ReadsFrom images.now from r.heads.items r.positions.items)) }
    ensures few { IfOk result (λ r. length r.heads.items < 2 ^ 32) }
    ensures ok { OnOk result (Stays store.old store.new) }
    ensures err { IfErr result (λ e. ReadFails e store.old store.new) }
{
    images_follow();
    match read_entries(alloc, store, &images.span, from, image) {
        Ok(Some(entries)) => Ok(entries),
        Ok(None) => Ok(ImageEntries {
            heads: Vec::new(alloc),
            positions: Vec::new(alloc),
        }),
        Err(e) => Err(e),
    }
}

/// Sets the after images of a journal from a position on, of the branches that it shows as committed by a moment, in the order of the journal. Where
/// its bytes are no journal, nothing is set. An error where the disk goes down, and then nothing is staged; or where memory is missing.
pub fn roll_forward<D: Disk>(
    alloc: Global,
    store: &mut Store<D>,
    images: &Images,
    from: u64,
    until: Moment,
    image: &mut Record,
    map: &mut RecordMap,
) -> Result<(), ReadErr>
    requires ring { IsRing images.now.span store.old.disk }
    requires behind { images.now.span.first ≤ from }
    ensures rolled { OnOk result (IfSome store.old.current (RollsForward images.now from until.0 map.old map.new)) }
    ensures ok { OnOk result (Stays store.old store.new) }
    ensures err { IfErr result (λ e. ReadFails e store.old store.new) }
{
    images_follow();
    places_are_rolled();
    let entries = match read_from(alloc, store, images, from, image) {
        Ok(entries) => entries,
        Err(e) => return Err(e),
    };
    match applied(alloc, &entries.heads, until) {
        Ok(places) => set_places(
            alloc,
            store,
            images,
            &entries.positions,
            &places,
            image,
            map,
        ),
        Err(_) => Err(ReadErr::Memory),
    }
}

/// Sets the before images of a journal, of the branches that it shows as committed past a moment, from the newest entry on. Where its bytes are no
/// journal, nothing is set. An error where the disk goes down, and then nothing is staged; or where memory is missing.
pub fn roll_back<D: Disk>(
    alloc: Global,
    store: &mut Store<D>,
    images: &Images,
    until: Moment,
    image: &mut Record,
    map: &mut RecordMap,
) -> Result<(), ReadErr>
    requires ring { IsRing images.now.span store.old.disk }
    ensures rolled { OnOk result (IfSome store.old.current (RollsBack images.now until.0 map.old map.new)) }
    ensures ok { OnOk result (Stays store.old store.new) }
    ensures err { IfErr result (λ e. ReadFails e store.old store.new) }
{
    images_follow();
    places_are_rolled();
    let entries = match read_from(alloc, store, images, images.span.first, image) {
        Ok(entries) => entries,
        Err(e) => return Err(e),
    };
    match undone(alloc, &entries.heads, until) {
        Ok(places) => set_places(
            alloc,
            store,
            images,
            &entries.positions,
            &places,
            image,
            map,
        ),
        Err(_) => Err(ReadErr::Memory),
    }
}
