//! The leaf for a key.
ghost use Rattle.std.specs.Prelude.{◌≡◌, ◌≤◌, ◌<◌, ◌+◌, ◌-◌, ◌*◌, ℕ, List, OnOk, IfOk, IfSome, slice_index_or};
ghost use Rattle.careful_write.specs.Down.{answered};
ghost use Rattle.careful_write.specs.Reads.{SameButReads};
ghost use Rattle.frame_pool.specs.Pool.{IsOut};
ghost use Rattle.indexed_file.specs.change_set.Buckets.{frame_of, with_frame};
ghost use Rattle.indexed_file.specs.change_set.Files.{IsPlaced};
ghost use Rattle.index_blocks.specs.Laws.{IsNoted};
ghost use Rattle.index_blocks.specs.Levels.{height, leaf_for, HasRoot};
ghost use Rattle.indexed_tree.specs.Rooted.{IsRooted};

use block_disk::Disk;
use careful_write::{Down, Store};
use file_base::FileHead;
use frame_pool::Frame;
use index_blocks::{Path, descend};

/// The leaf for a key, and the numbers of the index buckets on the way to it. One bucket of each level of the index is read. Whatever the blocks
/// have, the numbers are those of used buckets.
pub fn find_leaf<D: Disk>(
    head: &FileHead,
    store: &mut Store<D>,
    frame: &Frame,
    key: &[u8],
    path: &mut Path,
) -> Result<u32, Down>
    requires form { HasRoot head.now }
    requires placed { IsPlaced head.now store.old.disk }
    requires out { IsOut store.old.pool frame.now }
    ensures state { SameButReads (with_frame frame.now (frame_of store.new.pool frame.now) (record store.old { disk = answered result store.old.disk })) store.new }
    ensures reads { store.new.reads ≤ store.old.reads + height head.now * head.now.bucket }
    ensures out { IsOut store.new.pool frame.now }
    ensures leaf { IfOk result (λ n. IfSome store.old.current (λ blocks. IsRooted head.now blocks → n ≡ leaf_for head.now blocks key.now)) }
    ensures used { IfOk result (λ n. n < head.now.used) }
    ensures path { OnOk result (IfSome store.old.current (λ blocks. IsRooted head.now blocks → IsNoted head.now blocks key.now path.new)) }
    ensures path_used { OnOk result ((steps : ℕ) → steps < height head.now → slice_index_or path.new steps 0 < head.now.used) }
{
    descend(head, store, frame, key, path)
}
