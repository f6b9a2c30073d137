//! Entries that are handed up from level to level, and the new root where the old one is parted.
ghost use Rattle.std.specs.Prelude.{◌≡◌, ◌≤◌, ◌<◌, ◌+◌, ◌-◌, ◌*◌, ℕ, List, [], Some, length, OnOk, OnErr, IfOk, IfSome, slice_index_or, IsSomeAnd};
ghost use Rattle.file_base.specs.vms_model.Limits.{key_limit};
ghost use Rattle.change_set.specs.careful_write.Down.{answered};
ghost use Rattle.change_set.specs.careful_write.Reads.{SameButReads};
ghost use Rattle.frame_pool.specs.Pool.{IsOut};
ghost use Rattle.change_set.specs.Buckets.{frame_of, with_frame};
ghost use Rattle.change_set.specs.Files.{IsPlaced, StagesIn};
ghost use Rattle.index_bucket.specs.index_model.Indexes.{Entry};
ghost use Rattle.index_bucket.specs.Takes.{entries_of};
ghost use Rattle.index_blocks.specs.Climbs.{MayClimb, Climbs};

use crate::descent::Path;
use crate::stage::{hand_in, stage_index};
use block_disk::Disk;
use change_set::{Down, Store};
use file_base::FileHead;
use frame_pool::{FRAME_BYTES, Frame};
use index_bucket::{Handed, make_root};

/// What became of an index: the new root, where the old one was parted, and how many buckets are used.
#[derive(Clone, Copy, Debug, PartialEq, Eq, Drop)]
pub struct Growth {
    pub root: Option<u32>,
    pub used: u32,
}

// Stages a new root over the old one.
fn stage_root<D: Disk>(
    head: &FileHead,
    store: &mut Store<D>,
    frame: &Frame,
    fresh: u32,
    key: &[u8],
    handed: &Handed,
)
    requires placed { IsPlaced head.now store.old.disk }
    requires short { head.now.key_size ≤ key_limit }
    requires out { IsOut store.old.pool frame.now }
    requires free { fresh < head.now.alloc }
    requires room { length store.old.touched ≤ 480 }
    ensures rest { store.new ≡ with_frame frame.now (frame_of store.new.pool frame.now) (record store.old { current = store.new.current; touched = store.new.touched }) }
    ensures few { length store.new.touched ≤ length store.old.touched + 16 }
    ensures stages { StagesIn head.now head.now.bucket store.old (record store.new { pool = store.old.pool }) }
    ensures climbs { IfSome store.old.current (λ old. IsSomeAnd store.new.current (λ new. (below : List Entry) (path : List ℕ) → MayClimb head.now key.now (entries_of head.now handed.now) below [] path fresh old
        → Climbs head.now key.now (entries_of head.now handed.now) [] fresh (record { root = Some fresh; used = fresh + 1 }) old new)) }
    ensures out { IsOut store.new.pool frame.now }
{
    let mut bytes = [0; FRAME_BYTES];
    let mut spare = [0; FRAME_BYTES];
    let size = 512 * head.bucket as usize;
    make_root(head, size, &mut bytes, &mut spare, head.root, key, handed);
    stage_index(head, store, frame, fresh, &bytes);
}

/// Puts entries into the index bucket on a key's way that is `depth - 1` steps from the root, and where that is parted, the entry of the new one into
/// the bucket above it, and so on; a root that is parted gets a root over it. New buckets take the numbers from `used` on. After `Down` any of it may
/// be staged.
pub fn climb<D: Disk>(
    head: &FileHead,
    store: &mut Store<D>,
    frame: &Frame,
    key: &[u8],
    path: &Path,
    depth: u32,
    used: u32,
    handed: &Handed,
) -> Result<Growth, Down>
    requires placed { IsPlaced head.now store.old.disk }
    requires short { head.now.key_size ≤ key_limit }
    requires out { IsOut store.old.pool frame.now }
    requires depth { depth ≤ 11 }
    requires path { (steps : ℕ) → steps < depth → slice_index_or path.now steps 0 < head.now.alloc }
    requires free { used + depth < head.now.alloc }
    requires room { length store.old.touched + 32 * depth ≤ 480 }
    ensures rest { SameButReads (with_frame frame.now (frame_of store.new.pool frame.now) (record store.old {
      disk = answered result store.old.disk;
      current = store.new.current;
      touched = store.new.touched;
    })) store.new }
    ensures few { length store.new.touched ≤ length store.old.touched + 32 * depth + 16 }
    ensures stages { OnOk result (StagesIn head.now ((2 * depth + 1) * head.now.bucket) store.old (record store.new { pool = store.old.pool })) }
    ensures used { IfOk result (λ growth. (used ≤ growth.used) × (growth.used ≤ used + depth + 1)) }
    ensures root { IfOk result (λ growth. IfSome growth.root (λ root. root < growth.used)) }
    ensures climbs { IfOk result (λ growth. IfSome store.old.current (λ old. IsSomeAnd store.new.current (λ new. (levels : List (List ℕ)) (below : List Entry) → length levels ≡ depth
        → MayClimb head.now key.now (entries_of head.now handed.now) below levels path.now used old → Climbs head.now key.now (entries_of head.now handed.now) levels used growth old new))) }
    ensures out { IsOut store.new.pool frame.now }
{
    if depth == 0 {
        stage_root(head, store, frame, used, key, handed);
        return Ok(Growth {
            root: Some(used),
            used: used + 1,
        });
    }
    match hand_in(
        head,
        store,
        frame,
        path[depth as usize - 1],
        used,
        key,
        handed,
    )? {
        Some(up) => climb(head, store, frame, key, path, depth - 1, used + 1, &up),
        None => Ok(Growth { root: None, used }),
    }
}
