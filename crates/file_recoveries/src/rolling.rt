//! The records that a recovery makes, in memory.
ghost use Rattle.std.specs.Prelude.{◌≡◌, ◌≤◌, None, true, IfOk, IfErr, IfSome, OnOk};
ghost use Rattle.image_entries.specs.change_set.Files.{IsPlaced, free_frames};
ghost use Rattle.image_entries.specs.Entries.{ReadFails};
ghost use Rattle.journal_store.specs.Refusing.{Stays};
ghost use Rattle.journal_store.specs.Rings.{IsRing};
ghost use Rattle.file_recoveries.specs.Causes.{cause_of as cause_said};
ghost use Rattle.file_recoveries.specs.Rolling.{IsReadable, RollsFile, RollsOff, RollsOn, last_of};
ghost use Rattle.rolled_records.specs.save_laws.Saves.{save_head as save_said};

use crate::causes::Way;
use crate::head::save_head;
use block_disk::Disk;
use careful_write::Store;
use file_base::FileHead;
use image_entries::ReadErr;
use record_maps::RecordMap;
use rolled_records::{Images, images_follow, read_records, roll_back, roll_forward};
use std::alloc::Global;
use vms_base::{Moment, Record};

// The last moment that counts. No moment of an entry is later than the greatest number.
fn last_moment(until: Option<Moment>) -> Moment
    ensures { result.0 ≡ last_of until }
{
    match until {
        Some(until) => until,
        None => Moment(u64::MAX),
    }
}

// From the save on, by the after images of the branches committed by a moment, or of all.
fn roll_on<D: Disk>(
    alloc: Global,
    store: &mut Store<D>,
    head: &FileHead,
    until: Option<Moment>,
    image: &mut Record,
) -> Result<RecordMap, ReadErr>
    requires placed { IsPlaced (save_said head.now) store.old.disk }
    requires ring { IsRing head.now.ai store.old.disk }
    requires behind { head.now.ai.first ≤ head.now.save.position }
    requires frames { 32 ≤ free_frames store.old.pool }
    ensures rolled { IfOk result (λ m. IfSome store.old.current (RollsOn head.now until m)) }
    ensures ok { OnOk result (Stays store.old store.new) }
    ensures err { IfErr result (λ e. ReadFails e store.old store.new) }
{
    images_follow();
    let mut map = match read_records(alloc, store, &save_head(head), image) {
        Ok(map) => map,
        Err(e) => return Err(e),
    };
    let images = Images {
        span: head.ai,
        organization: head.organization,
    };
    let last = last_moment(until);
    match roll_forward(
        alloc,
        store,
        &images,
        head.save.position,
        last,
        image,
        &mut map,
    ) {
        Ok(()) => Ok(map),
        Err(e) => Err(e),
    }
}

// From what stands back, by the before images of the branches committed past a moment.
fn roll_off<D: Disk>(
    alloc: Global,
    store: &mut Store<D>,
    head: &FileHead,
    until: Moment,
    image: &mut Record,
) -> Result<RecordMap, ReadErr>
    requires placed { IsPlaced head.now store.old.disk }
    requires ring { IsRing head.now.bi store.old.disk }
    requires frames { 32 ≤ free_frames store.old.pool }
    ensures rolled { IfOk result (λ m. IfSome store.old.current (RollsOff head.now until m)) }
    ensures ok { OnOk result (Stays store.old store.new) }
    ensures err { IfErr result (λ e. ReadFails e store.old store.new) }
{
    let mut map = match read_records(alloc, store, head, image) {
        Ok(map) => map,
        Err(e) => return Err(e),
    };
    let images = Images {
        span: head.bi,
        organization: head.organization,
    };
    match roll_back(alloc, store, &images, until, image, &mut map) {
        Ok(()) => Ok(map),
        Err(e) => Err(e),
    }
}

/// The records that a recovery of a file makes which the head does not refuse.
pub fn roll_file<D: Disk>(
    alloc: Global,
    store: &mut Store<D>,
    head: &FileHead,
    way: Way,
    image: &mut Record,
) -> Result<RecordMap, ReadErr>
    requires allowed { cause_said head.now way None ≡ None }
    requires readable { IsReadable head.now store.old.disk }
    requires frames { 32 ≤ free_frames store.old.pool }
    ensures rolled { IfOk result (λ m. IfSome store.old.current (RollsFile head.now way m)) }
    ensures ok { OnOk result (Stays store.old store.new) }
    ensures err { IfErr result (λ e. ReadFails e store.old store.new) }
{
    match way {
        Way::Forward(until) => roll_on(alloc, store, head, until, image),
        Way::Backward(until) => roll_off(alloc, store, head, until, image),
    }
}
