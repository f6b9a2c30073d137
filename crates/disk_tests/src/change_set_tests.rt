//! The laws hold, and a bucket is staged and read back.
ghost use Rattle.std.specs.Prelude.{◌≡◌, ◌≤◌, ◌+◌, ℕ, length, replicate, OnOk};
ghost use Rattle.frame_pool.specs.Pool.{IsOut};
ghost use Rattle.block_disk.specs.Sizes.{least_disk_size};
ghost use Rattle.careful_write.specs.Sizes.{staged_limit};
ghost use Rattle.change_set.specs.Buckets.{with_frame};
ghost use Rattle.change_set.specs.Files.{free_frames};

use block_disk::{CrashDisk, Disk, MemPlatter};
use careful_write::{Down, Group, Store};
use change_set::{
    changes_agree, give_frame, load_bucket, stage_bucket, take_frame, undo_restores_maps,
};
use frame_pool::{Frame, Pool};
use std::alloc::{AllocError, Global};
use std::test::Fail;

fn fill<D: Disk>(store: &mut Store<D>, frame: &Frame, byte: u8)
    requires { IsOut store.old.pool frame.now }
    ensures put { store.new ≡ with_frame frame.now (replicate 8192 byte) store.old }
    ensures out { IsOut store.new.pool frame.now }
{
    *store.pool().bytes_mut(frame) = [byte; 8192];
}

// Stages a bucket that is filled with a byte, and tells whether the frame reads the same back.
fn stages_and_reads<D: Disk>(store: &mut Store<D>, frame: &Frame, byte: u8) -> Result<bool, Down>
    requires out { IsOut store.old.pool frame.now }
    requires size { least_disk_size ≤ store.old.disk.size }
    requires room { length store.old.touched ≤ staged_limit }
    ensures still_out { IsOut store.new.pool frame.now }
{
    fill(store, frame, byte);
    stage_bucket(store, frame, 600, 3);
    fill(store, frame, 0);
    load_bucket(store, frame, 599, 5)?;
    let bytes = store.pool().bytes(frame);
    Ok([bytes[511], bytes[512], bytes[2047], bytes[2048]] == [0, byte, byte, 0])
}

fn in_a_frame<D: Disk>(store: &mut Store<D>) -> Result<bool, Down>
    requires frames { 1 ≤ free_frames store.old.pool }
    requires size { least_disk_size ≤ store.old.disk.size }
    requires room { length store.old.touched ≤ staged_limit }
{
    let frame = take_frame(store);
    let same = stages_and_reads(store, &frame, 7);
    give_frame(store, frame);
    same
}

// None where the store did not open.
fn run(alloc: Global) -> Result<Option<Result<bool, Down>>, AllocError> {
    let disk = CrashDisk::new(alloc, MemPlatter::new(alloc, 4096)?)?;
    let group = Group::reserve(alloc)?;
    let pool = Pool::new(alloc, 1)?;
    if disk.pending() != 0 || disk.blocks() < 4096 {
        return Ok(None);
    }
    match Store::open(disk, group, pool) {
        Ok(mut store) => Ok(Some(in_a_frame(&mut store))),
        Err(_) => Ok(None),
    }
}

#[test]
fn a_bucket_is_read_as_it_was_staged(rt: HostRuntime) -> Result<(), Fail> {
    undo_restores_maps();
    changes_agree();
    assert_eq!(rt; run(rt.alloc())?, Some(Ok(true)));
    Ok(())
}
