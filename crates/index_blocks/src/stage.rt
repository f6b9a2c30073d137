//! Buckets that are staged through a frame, and entries that come into one of them.
ghost use Rattle.std.specs.Prelude.{◌≡◌, ◌≤◌, ◌<◌, ◌+◌, ◌-◌, ◌*◌, ℕ, List, true, false, length, take, drop, option_map, OnOk, IfOk, IfSome, OnErr};
ghost use Rattle.block_disk.specs.Sizes.{content_start};
ghost use Rattle.file_base.specs.vms_model.Limits.{key_limit};
ghost use Rattle.change_set.specs.careful_write.Down.{answered};
ghost use Rattle.change_set.specs.careful_write.Reads.{SameButReads};
ghost use Rattle.frame_pool.specs.Pool.{IsOut};
ghost use Rattle.change_set.specs.Buckets.{frame_of, with_frame, with_bucket};
ghost use Rattle.change_set.specs.Files.{IsPlaced, StagesIn};
ghost use Rattle.index_bucket.specs.Takes.{entries_of};
ghost use Rattle.index_blocks.specs.Buckets.{bucket_first, bucket_at, with_blocks_of};
ghost use Rattle.index_blocks.specs.Writes.{with_halves, with_blocks_of_halves, HandsIn};

use crate::descent::load_index;
use block_disk::Disk;
use change_set::{Down, Store, stage_bucket};
use file_base::FileHead;
use frame_pool::{FRAME_BYTES, Frame};
use index_bucket::{Handed, parent_of, take_handed};

// Writes all bytes of a frame.
fn fill_frame<D: Disk>(store: &mut Store<D>, frame: &Frame, bytes: &[u8; FRAME_BYTES])
    requires { IsOut store.old.pool frame.now }
    ensures put { store.new ≡ with_frame frame.now bytes.now store.old }
    ensures whole { IfSome store.old.current (λ blocks. length blocks + content_start ≡ store.old.disk.size) }
    ensures out { IsOut store.new.pool frame.now }
{
    store.pool().bytes_mut(frame).copy_from_slice(bytes);
}

// Reads a frame.
fn read_frame<D: Disk>(store: &mut Store<D>, frame: &Frame, bytes: &mut [u8; FRAME_BYTES])
    requires { IsOut store.old.pool frame.now }
    ensures same { store.new ≡ store.old }
    ensures bytes { bytes.new ≡ frame_of store.old.pool frame.now }
{
    bytes.copy_from_slice(store.pool().bytes(frame));
}

/// Stages the front of some bytes as bucket n.
pub fn stage_index<D: Disk>(
    head: &FileHead,
    store: &mut Store<D>,
    frame: &Frame,
    n: u32,
    bytes: &[u8; FRAME_BYTES],
)
    requires placed { IsPlaced head.now store.old.disk }
    requires out { IsOut store.old.pool frame.now }
    requires there { n < head.now.alloc }
    requires room { length store.old.touched ≤ 496 }
    ensures state { store.new ≡ with_frame frame.now (frame_of store.new.pool frame.now) (record store.old {
      current = option_map (λ blocks. with_bucket bytes.now blocks (bucket_first head.now n) head.now.bucket) store.old.current;
      touched = with_blocks_of head.now n store.old.touched;
    }) }
    ensures whole { IfSome store.old.current (λ blocks. length blocks + content_start ≡ store.old.disk.size) }
    ensures out { IsOut store.new.pool frame.now }
{
    fill_frame(store, frame, bytes);
    stage_bucket(
        store,
        frame,
        head.start + n * head.bucket as u32,
        head.bucket,
    );
}

// Stages bucket n, and a new one where it was parted.
fn stage_halves<D: Disk>(
    head: &FileHead,
    store: &mut Store<D>,
    frame: &Frame,
    n: u32,
    fresh: u32,
    parted: bool,
    low: &[u8; FRAME_BYTES],
    high: &[u8; FRAME_BYTES],
)
    requires placed { IsPlaced head.now store.old.disk }
    requires out { IsOut store.old.pool frame.now }
    requires there { n < head.now.alloc }
    requires free { fresh < head.now.alloc }
    requires room { length store.old.touched ≤ 480 }
    ensures state { store.new ≡ with_frame frame.now (frame_of store.new.pool frame.now) (record store.old {
      current = option_map (with_halves head.now n fresh parted low.now high.now) store.old.current;
      touched = with_blocks_of_halves head.now n fresh parted store.old.touched;
    }) }
    ensures whole { IfSome store.old.current (λ blocks. length blocks + content_start ≡ store.old.disk.size) }
    ensures out { IsOut store.new.pool frame.now }
{
    stage_index(head, store, frame, n, low);
    if parted {
        stage_index(head, store, frame, fresh, high);
    }
}

/// Reads index bucket n, puts entries behind the one that a key leads to, and stages what it became, with a new bucket where it was parted. Answers the entry
/// of the new one.
pub fn hand_in<D: Disk>(
    head: &FileHead,
    store: &mut Store<D>,
    frame: &Frame,
    n: u32,
    fresh: u32,
    key: &[u8],
    handed: &Handed,
) -> Result<Option<Handed>, Down>
    requires placed { IsPlaced head.now store.old.disk }
    requires short { head.now.key_size ≤ key_limit }
    requires out { IsOut store.old.pool frame.now }
    requires there { n < head.now.alloc }
    requires free { fresh < head.now.alloc }
    requires room { length store.old.touched ≤ 480 }
    ensures hands { IfOk result (λ up. HandsIn head.now key.now (entries_of head.now handed.now) n fresh up store.old (record store.new { pool = store.old.pool })) }
    ensures whole { OnOk result (IfSome store.old.current (λ blocks. length blocks + content_start ≡ store.old.disk.size)) }
    ensures few { length store.new.touched ≤ length store.old.touched + 32 }
    ensures stages { OnOk result (StagesIn head.now (2 * head.now.bucket) store.old (record store.new { pool = store.old.pool })) }
    ensures down { OnErr result (SameButReads (record store.old { disk = answered result store.old.disk }) (record store.new { pool = store.old.pool })) }
    ensures pool { store.new ≡ with_frame frame.now (frame_of store.new.pool frame.now) (record store.new { pool = store.old.pool }) }
    ensures out { IsOut store.new.pool frame.now }
{
    load_index(head, store, frame, n)?;
    let mut low = [0; FRAME_BYTES];
    let mut high = [0; FRAME_BYTES];
    read_frame(store, frame, &mut low);
    let size = 512 * head.bucket as usize;
    let parted = take_handed(head, size, &mut low, &mut high, key, handed);
    stage_halves(head, store, frame, n, fresh, parted, &low, &high);
    if parted {
        Ok(Some(parent_of(head, &high[..size], fresh)))
    } else {
        Ok(None)
    }
}
