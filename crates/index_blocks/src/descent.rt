//! The way from the root to a leaf.
ghost use Rattle.std.specs.Prelude.{◌≡◌, ◌≤◌, ◌<◌, ◌+◌, ◌-◌, ◌*◌, ℕ, List, length, take, OnOk, IfOk, IfSome, slice_index_or};
ghost use Rattle.change_set.specs.careful_write.Down.{answered};
ghost use Rattle.change_set.specs.careful_write.Reads.{SameButReads};
ghost use Rattle.frame_pool.specs.Pool.{IsOut};
ghost use Rattle.change_set.specs.Buckets.{frame_of, with_frame};
ghost use Rattle.change_set.specs.Files.{IsPlaced};
ghost use Rattle.index_bucket.specs.index_model.Indexes.{child_for};
ghost use Rattle.index_bucket.specs.Entries.{IsIndexBucket};
ghost use Rattle.index_blocks.specs.Buckets.{bucket_at};
ghost use Rattle.index_blocks.specs.Levels.{entries_in, height, way, HasRoot, IsWay};

use block_disk::Disk;
use change_set::{Down, Store, load_bucket};
use file_base::FileHead;
use frame_pool::Frame;
use index_bucket::step;

/// The most levels that index buckets of a file have.
pub const MAX_HEIGHT: usize = 11;

/// The numbers of the index buckets on a way from the root, each by its steps from there.
pub type Path = [u32; MAX_HEIGHT];

/// Reads bucket n into the front of a frame.
pub fn load_index<D: Disk>(
    head: &FileHead,
    store: &mut Store<D>,
    frame: &Frame,
    n: u32,
) -> Result<(), Down>
    requires placed { IsPlaced head.now store.old.disk }
    requires out { IsOut store.old.pool frame.now }
    requires there { n < head.now.alloc }
    ensures state { SameButReads (with_frame frame.now (frame_of store.new.pool frame.now) (record store.old { disk = answered result store.old.disk })) store.new }
    ensures reads { store.new.reads ≤ store.old.reads + head.now.bucket }
    ensures out { IsOut store.new.pool frame.now }
    ensures read { OnOk result (IfSome store.old.current (λ blocks. take (512 * head.now.bucket) (frame_of store.new.pool frame.now) ≡ bucket_at head.now blocks n)) }
{
    load_bucket(
        store,
        frame,
        head.start + n * head.bucket as u32,
        head.bucket,
    )
}

// Reads index bucket n: the bucket that a key leads to from there.
fn visit<D: Disk>(
    head: &FileHead,
    store: &mut Store<D>,
    frame: &Frame,
    n: u32,
    key: &[u8],
) -> Result<u32, Down>
    requires form { HasRoot head.now }
    requires placed { IsPlaced head.now store.old.disk }
    requires out { IsOut store.old.pool frame.now }
    requires there { n < head.now.used }
    ensures state { SameButReads (with_frame frame.now (frame_of store.new.pool frame.now) (record store.old { disk = answered result store.old.disk })) store.new }
    ensures reads { store.new.reads ≤ store.old.reads + head.now.bucket }
    ensures out { IsOut store.new.pool frame.now }
    ensures child { IfOk result (λ to. IfSome store.old.current (λ blocks. IsIndexBucket head.now (bucket_at head.now blocks n) → to ≡ child_for key.now (entries_in head.now blocks n))) }
    ensures used { IfOk result (λ to. to < head.now.used) }
{
    load_index(head, store, frame, n)?;
    let size = 512 * head.bucket as usize;
    let bytes = &store.pool().bytes(frame)[..size];
    Ok(step(bytes, head, key))
}

/// The leaf that a key leads to, and the way there. Each level of the index is read once, and where the index is laid out, this is the leaf for the key.
pub fn descend<D: Disk>(
    head: &FileHead,
    store: &mut Store<D>,
    frame: &Frame,
    key: &[u8],
    path: &mut Path,
) -> Result<u32, Down>
    requires form { HasRoot head.now }
    requires placed { IsPlaced head.now store.old.disk }
    requires out { IsOut store.old.pool frame.now }
    ensures state { SameButReads (with_frame frame.now (frame_of store.new.pool frame.now) (record store.old { disk = answered result store.old.disk })) store.new }
    ensures reads { store.new.reads ≤ store.old.reads + height head.now * head.now.bucket }
    ensures out { IsOut store.new.pool frame.now }
    ensures leaf { IfOk result (λ n. IfSome store.old.current (λ blocks. IsWay head.now blocks key.now → n ≡ way head.now blocks key.now (height head.now))) }
    ensures used { IfOk result (λ n. n < head.now.used) }
    ensures path { OnOk result (IfSome store.old.current (λ blocks. IsWay head.now blocks key.now → (steps : ℕ) → steps < height head.now → slice_index_or path.new steps 0 ≡ way head.now blocks key.now steps)) }
    ensures path_used { OnOk result ((steps : ℕ) → steps < height head.now → slice_index_or path.new steps 0 < head.now.used) }
{
    let mut n = head.root;
    for i in 0..head.levels - 1 {
        path[i as usize] = n;
        match visit(head, store, frame, n, key) {
            Ok(to) => n = to,
            Err(down) => return Err(down),
        }
    }
    Ok(n)
}
