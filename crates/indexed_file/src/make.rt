//! The one leaf of an empty indexed file.
ghost use Rattle.std.specs.Prelude.{◌≡◌, ◌≤◌, ◌<◌, ◌+◌, ◌*◌, ℕ, List, [], Some, None, length, take, OnOk, OnErr, IfSome};
ghost use Rattle.block_disk.specs.Sizes.{content_start};
ghost use Rattle.change_set.specs.careful_write.Down.{Counts};
ghost use Rattle.change_set.specs.careful_write.State.{IsIdle};
ghost use Rattle.frame_pool.specs.Pool.{IsOut};
ghost use Rattle.bucket_page.specs.Pages.{no_next, Holds};
ghost use Rattle.change_set.specs.Buckets.{frame_of, with_frame};
ghost use Rattle.change_set.specs.Files.{IsPlaced, free_frames, in_extent, LeavesOut};
ghost use Rattle.indexed_file.specs.Chain.{kind_of};
ghost use Rattle.indexed_file.specs.Made.{MakesLeaf};

use crate::leaf::kind;
use block_disk::Disk;
use bucket_page::Page;
use change_set::{Down, Store, give_frame, stage_bucket, take_frame};
use file_base::FileHead;
use frame_pool::Frame;

// Fills the front of a frame with a bucket that has no slots and no next bucket.
fn clear_frame<D: Disk>(head: &FileHead, store: &mut Store<D>, frame: &Frame)
    requires out { IsOut store.old.pool frame.now }
    requires one { 1 ≤ head.now.bucket }
    requires blocks { head.now.bucket ≤ 16 }
    ensures put { store.new ≡ with_frame frame.now (frame_of store.new.pool frame.now) store.old }
    ensures out { IsOut store.new.pool frame.now }
    ensures front { Holds (kind_of head.now) (512 * head.now.bucket) [] no_next (take (512 * head.now.bucket) (frame_of store.new.pool frame.now)) }
{
    Page::clear(store.pool(), frame, 512 * head.bucket, kind(head), u32::MAX);
}

/// Writes the one bucket of the empty map.
pub fn make_file<D: Disk>(head: &FileHead, store: &mut Store<D>) -> Result<(), Down>
    requires some { 1 ≤ head.now.alloc }
    requires placed { IsPlaced head.now store.old.disk }
    requires idle { IsIdle store.old }
    requires frames { 1 ≤ free_frames store.old.pool }
    ensures ok { OnOk result (MakesLeaf head.now store.old.current store.new.current) }
    ensures idle { OnOk result (IsIdle store.new) }
    ensures whole { IfSome store.old.current (λ b. length b + content_start ≡ store.old.disk.size) }
    ensures down { OnErr result (LeavesOut (in_extent head.now) store.old.current store.new.disk) }
    ensures counts { Counts result store.old.disk store.new.disk }
    ensures pool { store.new.pool ≡ store.old.pool }
{
    let frame = take_frame(store);
    clear_frame(head, store, &frame);
    stage_bucket(store, &frame, head.start, head.bucket);
    give_frame(store, frame);
    store.apply()
}
