//! A leaf that is staged with those that it was parted in, and the entries of these, which are handed up.
ghost use Rattle.std.specs.Prelude.{◌≡◌, ◌≤◌, ◌<◌, ◌+◌, ◌-◌, ◌*◌, ℕ, List, true, false, Some, None, length, take, option_map, OnOk, OnErr, IfOk, IfSome, IsSomeAnd, slice_index_or};
ghost use Rattle.block_disk.specs.Sizes.{content_start};
ghost use Rattle.careful_write.specs.Down.{answered};
ghost use Rattle.careful_write.specs.Reads.{SameButReads};
ghost use Rattle.frame_pool.specs.Pool.{IsOut};
ghost use Rattle.careful_write.specs.Sizes.{staged_limit};
ghost use Rattle.indexed_file.specs.change_set.Buckets.{frame_of, with_frame};
ghost use Rattle.indexed_file.specs.change_set.Files.{IsPlaced, StagesIn};
ghost use Rattle.index_blocks.specs.Laws.{grown_head};
ghost use Rattle.index_blocks.specs.Levels.{height, HasRoot};
ghost use Rattle.indexed_file.specs.Sets.{with_parts, touched_by};
ghost use Rattle.indexed_tree.specs.Puts.{MayPart, PutsLeaf, SameButIndex};

use crate::leaves::entries_for;
use block_disk::Disk;
use careful_write::{Down, Store};
use file_base::FileHead;
use frame_pool::{FRAME_BYTES, Frame};
use index_blocks::{Growth, Path, climb, stage_index};

/// Whether a leaf may be parted: the file may have a level more, and as many buckets are free as a set takes at most.
pub fn may_part(head: &FileHead) -> bool
    requires form { HasRoot head.now }
    ensures may { result ≡ true → MayPart head.now }
    ensures none { result ≡ false → MayPart head.now → ⊥ }
{
    head.levels < 12 && head.alloc - head.used >= head.levels + 2
}

// Stages leaf n, and as many new ones as it was parted in.
fn stage_leaves<D: Disk>(
    head: &FileHead,
    store: &mut Store<D>,
    frame: &Frame,
    n: u32,
    added: u32,
    low: &[u8; FRAME_BYTES],
    mid: &[u8; FRAME_BYTES],
    high: &[u8; FRAME_BYTES],
)
    requires placed { IsPlaced head.now store.old.disk }
    requires out { IsOut store.old.pool frame.now }
    requires there { n < head.now.alloc }
    requires few { added ≤ 2 }
    requires free { head.now.used + added ≤ head.now.alloc }
    requires room { length store.old.touched ≤ staged_limit }
    ensures state { store.new ≡ with_frame frame.now (frame_of store.new.pool frame.now) (record store.old {
      current = option_map (with_parts head.now n added low.now mid.now high.now) store.old.current;
      touched = touched_by head.now n added store.old.touched;
    }) }
    ensures whole { IfSome store.old.current (λ blocks. length blocks + content_start ≡ store.old.disk.size) }
    ensures few { length store.new.touched ≤ length store.old.touched + 48 }
    ensures out { IsOut store.new.pool frame.now }
{
    stage_index(head, store, frame, n, low);
    if added == 0 {
        return;
    }
    stage_index(head, store, frame, head.used, mid);
    if added == 1 {
        return;
    }
    stage_index(head, store, frame, head.used + 1, high);
}

// Tells the head what became of the index.
fn grow(head: &mut FileHead, growth: &Growth)
    requires levels { head.old.levels ≤ 12 }
    ensures { head.new ≡ grown_head head.old growth.now }
{
    if let Some(root) = growth.root {
        head.root = root;
        head.levels += 1;
    }
    head.used = growth.used;
}

// Stages the bytes of leaf n, with those of as many new leaves as it was parted in, and hands up the entries of these. Answers what became of the index.
fn stage_set<D: Disk>(
    head: &FileHead,
    store: &mut Store<D>,
    frame: &Frame,
    key: &[u8],
    path: &Path,
    n: u32,
    added: u32,
    low: &[u8; FRAME_BYTES],
    mid: &[u8; FRAME_BYTES],
    high: &[u8; FRAME_BYTES],
) -> Result<Growth, Down>
    requires form { HasRoot head.now }
    requires placed { IsPlaced head.now store.old.disk }
    requires out { IsOut store.old.pool frame.now }
    requires there { n < head.now.used }
    requires few { added ≤ 2 }
    requires may { 1 ≤ added → MayPart head.now }
    requires room { length store.old.touched ≤ staged_limit }
    requires path { (steps : ℕ) → steps < height head.now → slice_index_or path.now steps 0 < head.now.used }
    ensures sets { IfOk result (λ growth. IfSome store.old.current (λ old. IsSomeAnd store.new.current (PutsLeaf head.now (grown_head head.now growth) key.now path.now n added low.now mid.now high.now old))) }
    ensures stages { OnOk result (StagesIn head.now ((2 * head.now.levels + 2) * head.now.bucket) store.old (record store.new { pool = store.old.pool })) }
    ensures form { IfOk result (λ growth. HasRoot (grown_head head.now growth)) }
    ensures rest { SameButReads (with_frame frame.now (frame_of store.new.pool frame.now) (record store.old {
      disk = answered result store.old.disk;
      current = store.new.current;
      touched = store.new.touched;
    })) store.new }
    ensures out { IsOut store.new.pool frame.now }
{
    stage_leaves(head, store, frame, n, added, low, mid, high);
    if added == 0 {
        return Ok(Growth {
            root: None,
            used: head.used,
        });
    }
    let size = 512 * head.bucket as usize;
    let handed = entries_for(head, added, &mid[..size], &high[..size]);
    climb(
        head,
        store,
        frame,
        key,
        path,
        head.levels - 1,
        head.used + added,
        &handed,
    )
}

/// Stages the bytes of leaf n, in which a key was set, with those of as many new leaves as it was parted in, whose entries are handed up. Where a
/// leaf is parted, `may_part` is to be asked before. After `Down` any of it may be staged, and the head is as before.
pub fn put_leaf<D: Disk>(
    head: &mut FileHead,
    store: &mut Store<D>,
    frame: &Frame,
    key: &[u8],
    path: &Path,
    n: u32,
    added: u32,
    low: &[u8; FRAME_BYTES],
    mid: &[u8; FRAME_BYTES],
    high: &[u8; FRAME_BYTES],
) -> Result<(), Down>
    requires form { HasRoot head.old }
    requires placed { IsPlaced head.old store.old.disk }
    requires out { IsOut store.old.pool frame.now }
    requires there { n < head.old.used }
    requires few { added ≤ 2 }
    requires may { 1 ≤ added → MayPart head.old }
    requires room { length store.old.touched ≤ staged_limit }
    requires path { (steps : ℕ) → steps < height head.old → slice_index_or path.now steps 0 < head.old.used }
    ensures sets { OnOk result (IfSome store.old.current (λ old. IsSomeAnd store.new.current (PutsLeaf head.old head.new key.now path.now n added low.now mid.now high.now old))) }
    ensures stages { OnOk result (StagesIn head.old ((2 * head.old.levels + 2) * head.old.bucket) store.old (record store.new { pool = store.old.pool })) }
    ensures form { OnOk result (HasRoot head.new) }
    ensures file { OnOk result (SameButIndex head.old head.new) }
    ensures head { OnErr result (head.new ≡ head.old) }
    ensures rest { SameButReads (with_frame frame.now (frame_of store.new.pool frame.now) (record store.old {
      disk = answered result store.old.disk;
      current = store.new.current;
      touched = store.new.touched;
    })) store.new }
    ensures out { IsOut store.new.pool frame.now }
{
    match stage_set(head, store, frame, key, path, n, added, low, mid, high) {
        Ok(growth) => {
            grow(head, &growth);
            Ok(())
        }
        Err(down) => Err(down),
    }
}
