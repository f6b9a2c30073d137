//! The empty relative file.
ghost use Rattle.std.specs.Prelude.{◌≡◌, ◌≤◌, ◌<◌, ◌+◌, ◌-◌, ◌*◌, ◌/◌, ℕ, List, Option, Some, None, [], length, take, OnOk, OnErr, IfSome, option_map};
ghost use Rattle.block_disk.specs.Sizes.{content_start};
ghost use Rattle.change_set.specs.careful_write.Down.{Counts};
ghost use Rattle.change_set.specs.careful_write.State.{IsIdle};
ghost use Rattle.frame_pool.specs.Pool.{IsOut};
ghost use Rattle.change_set.specs.careful_write.Sizes.{group_limit};
ghost use Rattle.change_set.specs.Buckets.{frame_of, with_frame};
ghost use Rattle.change_set.specs.Files.{IsPlaced, free_frames, in_extent, AgreesOut, LeavesOut, unstaged};
ghost use Rattle.relative_file.specs.Cells.{IsRelative, cells_in, empty_bucket, EmptyTo, Empties};

use crate::bucket::fill_empty;
use block_disk::Disk;
use change_set::{Down, Store, give_frame, stage_bucket, take_frame};
use file_base::FileHead;
use frame_pool::Frame;

// Fills the front of a frame with a bucket of absent cells.
fn fill_frame<D: Disk>(head: &FileHead, store: &mut Store<D>, frame: &Frame)
    requires out { IsOut store.old.pool frame.now }
    requires one { 1 ≤ head.now.bucket }
    requires blocks { head.now.bucket ≤ 16 }
    requires records { head.now.mrs + 32 ≤ 512 * head.now.bucket }
    ensures put { store.new ≡ with_frame frame.now (frame_of store.new.pool frame.now) store.old }
    ensures front { take (512 * head.now.bucket) (frame_of store.new.pool frame.now) ≡ empty_bucket head.now }
{
    let bytes = store.pool().bytes_mut(frame);
    fill_empty(head, bytes);
}

// Stages the i-th bucket.
fn stage_empty<D: Disk>(head: &FileHead, store: &mut Store<D>, i: u32)
    requires placed { IsPlaced head.now store.old.disk }
    requires there { i < head.now.alloc }
    requires frames { 1 ≤ free_frames store.old.pool }
    requires room { length store.old.touched + head.now.bucket ≤ group_limit }
    ensures empty { Empties head.now i store.old.current store.new.current }
    ensures rest { store.new ≡ record store.old { current = store.new.current; touched = store.new.touched } }
    ensures few { length store.new.touched ≤ length store.old.touched + head.now.bucket }
    ensures whole { IfSome store.old.current (λ b. length b + content_start ≡ store.old.disk.size) }
{
    let first = head.start + i * head.bucket as u32;
    let frame = take_frame(store);
    fill_frame(head, store, &frame);
    stage_bucket(store, &frame, first, head.bucket);
    give_frame(store, frame);
}

// Stages the buckets from one on up to an end.
fn stage_many<D: Disk>(head: &FileHead, store: &mut Store<D>, from: u32, end: u32)
    requires placed { IsPlaced head.now store.old.disk }
    requires ordered { from ≤ end }
    requires there { end ≤ head.now.alloc }
    requires frames { 1 ≤ free_frames store.old.pool }
    requires unstaged { store.old.touched ≡ [] }
    requires few { (end - from) * head.now.bucket ≤ group_limit }
    ensures empty { IfSome store.old.current (EmptyTo head.now from) → IfSome store.new.current (EmptyTo head.now end) }
    ensures outside { AgreesOut (in_extent head.now) store.old.current store.new.current }
    ensures rest { store.new ≡ record store.old { current = store.new.current; touched = store.new.touched } }
{
    for i in from..end {
        stage_empty(head, store, i);
    }
}

// Writes the buckets from one on up to an end, in one group.
fn write_many<D: Disk>(
    head: &FileHead,
    store: &mut Store<D>,
    from: u32,
    end: u32,
) -> Result<(), Down>
    requires placed { IsPlaced head.now store.old.disk }
    requires ordered { from ≤ end }
    requires there { end ≤ head.now.alloc }
    requires frames { 1 ≤ free_frames store.old.pool }
    requires idle { IsIdle store.old }
    requires few { (end - from) * head.now.bucket ≤ group_limit }
    ensures empty { OnOk result (IfSome store.old.current (EmptyTo head.now from) → IfSome store.new.current (EmptyTo head.now end)) }
    ensures outside { OnOk result (AgreesOut (in_extent head.now) store.old.current store.new.current) }
    ensures idle { OnOk result (IsIdle store.new) }
    ensures down { OnErr result (LeavesOut (in_extent head.now) store.old.current store.new.disk) }
    ensures counts { Counts result store.old.disk store.new.disk }
    ensures pool { store.new.pool ≡ store.old.pool }
{
    stage_many(head, store, from, end);
    store.apply()
}

/// Writes all buckets of the empty map, as many in one group as it may have.
pub(crate) fn make_file<D: Disk>(head: &FileHead, store: &mut Store<D>) -> Result<(), Down>
    requires form { IsRelative head.now }
    requires placed { IsPlaced head.now store.old.disk }
    requires idle { IsIdle store.old }
    requires frames { 1 ≤ free_frames store.old.pool }
    ensures ok { OnOk result (IfSome store.new.current (EmptyTo head.now head.now.alloc)) }
    ensures idle { OnOk result (IsIdle store.new) }
    ensures outside { OnOk result (AgreesOut (in_extent head.now) store.old.current store.new.current) }
    ensures down { OnErr result (LeavesOut (in_extent head.now) store.old.current store.new.disk) }
    ensures counts { Counts result store.old.disk store.new.disk }
    ensures pool { store.new.pool ≡ store.old.pool }
{
    let most = 512 / u32::from(head.bucket);
    let mut at = 0;
    while at < head.alloc {
        let end = at + most.min(head.alloc - at);
        write_many(head, store, at, end)?;
        at = end;
    }
    Ok(())
}
