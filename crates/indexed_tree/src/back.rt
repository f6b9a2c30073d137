//! A leaf in which a key was set back in place.
ghost use Rattle.std.specs.Prelude.{◌≡◌, ◌≤◌, ◌<◌, ◌+◌, ◌*◌, ℕ, List, length, take, option_map, IfSome, IsSomeAnd};
ghost use Rattle.frame_pool.specs.Pool.{IsOut};
ghost use Rattle.indexed_file.specs.change_set.Buckets.{frame_of, with_frame};
ghost use Rattle.indexed_file.specs.change_set.Files.{IsPlaced, StagesIn};
ghost use Rattle.index_blocks.specs.Levels.{HasRoot};
ghost use Rattle.indexed_tree.specs.Puts.{PutsBack};

use block_disk::Disk;
use careful_write::Store;
use file_base::FileHead;
use frame_pool::{FRAME_BYTES, Frame};
use index_blocks::stage_index;

/// Stages the bytes of leaf n, in which a key was set back in place. No bucket is added, and none is left: the head stays as it is, and so does the index.
pub fn put_back<D: Disk>(
    head: &FileHead,
    store: &mut Store<D>,
    frame: &Frame,
    n: u32,
    bytes: &[u8; FRAME_BYTES],
)
    requires form { HasRoot head.now }
    requires placed { IsPlaced head.now store.old.disk }
    requires out { IsOut store.old.pool frame.now }
    requires there { n < head.now.used }
    requires room { length store.old.touched ≤ 480 }
    ensures back { IfSome store.old.current (λ old. IsSomeAnd store.new.current (PutsBack head.now n bytes.now old)) }
    ensures stages { StagesIn head.now head.now.bucket store.old (record store.new { pool = store.old.pool }) }
    ensures rest { store.new ≡ with_frame frame.now (frame_of store.new.pool frame.now) (record store.old { current = store.new.current; touched = store.new.touched }) }
    ensures out { IsOut store.new.pool frame.now }
{
    stage_index(head, store, frame, n, bytes);
}
