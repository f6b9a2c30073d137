//! A file is recovered.
ghost use Rattle.std.specs.Prelude.{◌≡◌, ◌≤◌, ◌<◌, ℕ, List, None, Some, IfOk, IfErr, OnOk, length, map as each};
ghost use Rattle.block_disk.specs.Sizes.{greatest_disk_size, least_disk_size};
ghost use Rattle.vms_model.specs.Limits.{file_limit, record_limit};
ghost use Rattle.careful_write.specs.State.{IsIdle};
ghost use Rattle.change_set.specs.Files.{free_frames};
ghost use Rattle.file_base.specs.declared.head.FileHead.{FileHead as HeadSaid};
ghost use Rattle.file_recoveries.specs.Causes.{cause_of as cause_said};
ghost use Rattle.file_recoveries.specs.declared.causes.Way.TheVariants.{Backward, Forward};
ghost use Rattle.file_recoveries.specs.Rolling.{IsReadable};
ghost use Rattle.load_pages.specs.Given.{keyed};
ghost use Rattle.recover_rms.specs.Calls.{AreMade, IsNotRecovered, IsRecovered, KeepsRings, NotMade, NotRecovered, Recovered};
ghost use Rattle.recover_rms.specs.Loading.{AreKept};
ghost use Rattle.volume.specs.Catalogs.{IsSound, head_at};
ghost use Rattle.volume.specs.State.{SameVolume};

use crate::loading::records_of;
use crate::replacing::replace_records;
use block_disk::Disk;
use careful_write::one_content;
use file_base::FileHead;
use file_recoveries::{RecoverErr, Way, cause_of, roll_file};
use image_entries::ReadErr;
use load_pages::KeyedRecord;
use std::alloc::Global;
use vms_base::{Moment, Record, Serial};
use volume::Volume;

// The records that a recovery makes of a file, as they are loaded.
fn make_records<D: Disk>(
    alloc: Global,
    volume: &mut Volume<D>,
    file: u8,
    head: &FileHead,
    way: Way,
) -> Result<Vec<KeyedRecord>, RecoverErr>
    requires allowed { cause_said head.now way None ≡ None }
    requires readable { IsReadable head.now volume.old.store.disk }
    requires frames { 32 ≤ free_frames volume.old.store.pool }
    requires greatest { head.now.mrs ≤ record_limit }
    ensures same { OnOk result (SameVolume volume.old volume.new) }
    ensures kept { IfOk result (λ v. AreKept head.now (each keyed v.items)) }
    ensures few { IfOk result (λ v. length v.items ≤ 4294967295) }
    ensures made { IfOk result (λ v. AreMade file way volume.old head.now (each keyed v.items)) }
    ensures err { IfErr result (λ e. NotMade e volume.old volume.new) }
{
    let Ok(mut image) = Record::reserve(alloc) else {
        return Err(RecoverErr::Memory);
    };
    let map = match roll_file(alloc, volume.store(), head, way, &mut image) {
        Ok(map) => map,
        Err(ReadErr::Memory) => return Err(RecoverErr::Memory),
        Err(ReadErr::Down(down)) => return Err(RecoverErr::Down(down)),
    };
    match records_of(alloc, head, map, &mut image) {
        Ok(records) => Ok(records),
        Err(_) => Err(RecoverErr::Memory),
    }
}

// Recovers the file of a head.
fn recover_file<D: Disk>(
    alloc: Global,
    volume: &mut Volume<D>,
    file: u8,
    head: &FileHead,
    way: Way,
    user: Option<Serial>,
) -> Result<u64, RecoverErr>
    requires there { head_at volume.old.catalog.heads file ≡ Some head.now }
    requires file { file < file_limit }
    requires whole { length volume.old.catalog.heads ≡ file_limit }
    requires sound { (node : List ℕ) × IsSound node volume.old.store.disk.size volume.old.catalog }
    requires least { least_disk_size ≤ volume.old.store.disk.size }
    requires most { volume.old.store.disk.size ≤ greatest_disk_size }
    requires rings { KeepsRings volume.old.catalog.heads file }
    requires idle { IsIdle volume.old.store }
    requires frames { 32 ≤ free_frames volume.old.store.pool }
    ensures done { IfOk result (λ count. IsRecovered file way user head.now count volume.old volume.new) }
    ensures err { IfErr result (λ e. NotRecovered file way user head.now e volume.old volume.new) }
{
    one_content();
    match cause_of(head, way, user) {
        Some(cause) => return Err(cause),
        None => {}
    }
    let records = match make_records(alloc, volume, file, head, way) {
        Ok(records) => records,
        Err(e) => return Err(e),
    };
    replace_records(alloc, volume, file, head, &records)
}

/// Makes a file what it was at a moment, or what its last commit left: from its save and its journal of after images, or from what stands in it and its
/// journal of before images. It answers how many records the file has then. `user` is an unsettled unit that changed the file. The records are made in
/// memory, and written into free blocks before the file's head tells of them; where blocks or memory are missing, nothing is written. A disk that goes
/// down anywhere leaves the old file or the recovered one.
pub fn recover<D: Disk>(
    alloc: Global,
    volume: &mut Volume<D>,
    file: u8,
    way: Way,
    user: Option<Serial>,
) -> Result<u64, RecoverErr>
    requires there { (h : HeadSaid) × (head_at volume.old.catalog.heads file ≡ Some h) }
    requires sound { (node : List ℕ) × IsSound node volume.old.store.disk.size volume.old.catalog }
    requires least { least_disk_size ≤ volume.old.store.disk.size }
    requires most { volume.old.store.disk.size ≤ greatest_disk_size }
    requires rings { KeepsRings volume.old.catalog.heads file }
    requires idle { IsIdle volume.old.store }
    requires frames { 32 ≤ free_frames volume.old.store.pool }
    ensures done { IfOk result (λ count. Recovered file way user count volume.old volume.new) }
    ensures err { IfErr result (λ e. IsNotRecovered file way user e volume.old volume.new) }
{
    let Some(head) = volume.head(file).copied() else {
        unreachable!()
    };
    recover_file(alloc, volume, file, &head, way, user)
}
