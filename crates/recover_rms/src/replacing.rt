// Records that take the place of a file's own, in other blocks of its volume.
ghost use Rattle.std.specs.Prelude.{◌≡◌, ◌≤◌, ◌<◌, ◌+◌, ◌*◌, ℕ, List, Some, [], OnOk, OnErr, IfOk, IfErr, IfSome, IfNone, length, map as each, option_map, slice_set};
ghost use Rattle.block_disk.specs.Sizes.{greatest_disk_size, least_disk_size};
ghost use Rattle.vms_model.specs.Limits.{file_limit, key_limit, record_limit};
ghost use Rattle.vms_model.specs.Blocks.{directory_start};
ghost use Rattle.careful_write.specs.Down.{Counts};
ghost use Rattle.careful_write.specs.State.{IsEither, IsIdle, Leaves};
ghost use Rattle.change_set.specs.Files.{IsPlaced, free_frames};
ghost use Rattle.file_loads.specs.Failing.{Wrote};
ghost use Rattle.load_pages.specs.load_laws.Loads.{AreLoadable, IsLoaded, loaded_head};
ghost use Rattle.load_pages.specs.Given.{keyed};
ghost use Rattle.record_files.specs.Any.{IsFile};
ghost use Rattle.volume.specs.Catalogs.{IsSound, TellsCatalog, head_at};
ghost use Rattle.volume.specs.State.{Holds, with_block};
ghost use Rattle.volume.specs.volume_format.Head.{head_block_of};
ghost use Rattle.recover_rms.specs.Calls.{KeepsRings};
ghost use Rattle.recover_rms.specs.Loading.{AreKept};
ghost use Rattle.recover_rms.specs.Replacing.{IsLongest, IsRun, NotLoaded, NotReplaced, Replaced, wanted_buckets, with_head};

use block_disk::Disk;
use careful_write::{Down, Store};
use file_base::FileHead;
use file_loads::{LoadErr, load};
use file_recoveries::{RecoverErr, with_new_journals};
use load_pages::{KeyedRecord, buckets};
use std::alloc::Global;
use std::cmp::max;
use volume::{Volume, catalogs_stand_on_the_front};

// Writes the directory block of a file, which has this head from now on.
fn swap_head<D: Disk>(volume: &mut Volume<D>, file: u8, head: &FileHead) -> Result<(), Down>
    requires file { file < file_limit }
    requires idle { IsIdle volume.old.store }
    requires size { least_disk_size ≤ volume.old.store.disk.size }
    ensures current { OnOk result (volume.new.store.current ≡ (with_block (directory_start + file) (head_block_of head.now) volume.old.store).current) }
    ensures idle { OnOk result (IsIdle volume.new.store) }
    ensures catalog { volume.new.catalog ≡ with_head file head.now volume.old.catalog }
    ensures holds { Holds volume.old → IfSome (with_block (directory_start + file) (head_block_of head.now) volume.old.store).current (TellsCatalog (with_head file head.now volume.old.catalog)) }
    ensures down { OnErr result (Leaves (IsEither volume.old.store.current (with_block (directory_start + file) (head_block_of head.now) volume.old.store).current) volume.new.store.disk) }
    ensures counts { Counts result volume.old.store.disk volume.new.store.disk }
    ensures pool { volume.new.store.pool ≡ volume.old.store.pool }
{
    let Ok(()) = volume.stage_head(file, head) else {
        unreachable!()
    };
    volume.store().apply()
}

// The lowest run of free blocks for so many; or the blocks of the longest one, where that has fewer.
fn room_for<D: Disk>(volume: &Volume<D>, needed: u64) -> Result<u32, u32>
    requires some { 1 ≤ needed }
    ensures free { IfOk result (λ start. IsRun volume.now.catalog start needed) }
    ensures lowest { IfOk result (λ start. (lower : ℕ) → lower < start → IsRun volume.now.catalog lower needed → ⊥) }
    ensures few { IfOk result (λ start. needed < 4294967296) }
    ensures longest { IfErr result (IsLongest volume.now.catalog) }
    ensures fewer { IfErr result (λ free. free < needed) }
{
    let free = volume.longest_free();
    if u64::from(free) < needed {
        return Err(free);
    }
    match volume.free_run(needed as u32) {
        Some(start) => Ok(start),
        None => unreachable!(),
    }
}

// How many buckets the file is to have that takes these records.
fn wanted(head: &FileHead, records: &[KeyedRecord]) -> u64
    requires one { 1 ≤ head.now.bucket }
    requires blocks { head.now.bucket ≤ 16 }
    requires key { head.now.key_size ≤ key_limit }
    requires kept { AreKept head.now (each keyed records.now) }
    requires greatest { head.now.mrs ≤ record_limit }
    requires few { length records.now ≤ 4294967295 }
    ensures is { result ≡ wanted_buckets head.now (each keyed records.now) }
    ensures most { result ≤ 12884901892 }
{
    max(u64::from(head.alloc), buckets(head, records))
}

// Loads records into the buckets of a head.
fn load_moved<D: Disk>(
    alloc: Global,
    store: &mut Store<D>,
    head: &mut FileHead,
    records: &[KeyedRecord],
) -> Result<(), RecoverErr>
    requires loadable { AreLoadable head.old (each keyed records.now) }
    requires placed { IsPlaced head.old store.old.disk }
    requires idle { IsIdle store.old }
    requires frames { 32 ≤ free_frames store.old.pool }
    ensures head { OnOk result (head.new ≡ loaded_head head.old (each keyed records.now)) }
    ensures form { OnOk result (IsFile head.new) }
    ensures loaded { OnOk result (IfSome store.new.current (λ b. IsLoaded head.new b (each keyed records.now))) }
    ensures wrote { OnOk result (Wrote head.old store.old store.new) }
    ensures err { IfErr result (λ e. NotLoaded head.old e store.old store.new) }
{
    match load(alloc, head, store, records) {
        Ok(()) => Ok(()),
        Err(LoadErr::Memory) => Err(RecoverErr::Memory),
        Err(LoadErr::Down(down)) => Err(RecoverErr::Down(down)),
    }
}

/// Loads records into the lowest free blocks of a volume that are enough for them, and puts them in the place of a file's.
pub(crate) fn replace_records<D: Disk>(
    alloc: Global,
    volume: &mut Volume<D>,
    file: u8,
    head: &FileHead,
    records: &[KeyedRecord],
) -> Result<u64, RecoverErr>
    requires there { head_at volume.old.catalog.heads file ≡ Some head.now }
    requires file { file < file_limit }
    requires whole { length volume.old.catalog.heads ≡ file_limit }
    requires sound { (node : List ℕ) × IsSound node volume.old.store.disk.size volume.old.catalog }
    requires least { least_disk_size ≤ volume.old.store.disk.size }
    requires most { volume.old.store.disk.size ≤ greatest_disk_size }
    requires rings { KeepsRings volume.old.catalog.heads file }
    requires idle { IsIdle volume.old.store }
    requires frames { 32 ≤ free_frames volume.old.store.pool }
    requires kept { AreKept head.now (each keyed records.now) }
    requires few { length records.now ≤ 4294967295 }
    ensures done { IfOk result (λ count. Replaced file head.now (each keyed records.now) count volume.old volume.new) }
    ensures err { IfErr result (λ e. NotReplaced file head.now (each keyed records.now) e volume.old volume.new) }
{
    catalogs_stand_on_the_front();
    let wanted = wanted(head, records);
    let needed = wanted * head.bucket as u64;
    let start = match room_for(volume, needed) {
        Ok(start) => start,
        Err(free) => return Err(RecoverErr::Full { free, needed }),
    };
    let mut new = with_new_journals(head, volume.home().greatest_moment);
    new.start = start;
    new.alloc = wanted as u32;
    match load_moved(alloc, volume.store(), &mut new, records) {
        Ok(()) => {}
        Err(e) => return Err(e),
    }
    match swap_head(volume, file, &new) {
        Ok(()) => Ok(records.len() as u64),
        Err(down) => Err(RecoverErr::Down(down)),
    }
}
