//! The record of a key.
ghost use Rattle.std.specs.Prelude.{◌≡◌, ◌≤◌, ◌<◌, ◌+◌, ◌-◌, ◌*◌, ℕ, List, true, false, Some, None, length, take, drop, IfOk, IfSome, IfNone};
ghost use Rattle.careful_write.specs.Down.{answered};
ghost use Rattle.careful_write.specs.Reads.{SameButReads};
ghost use Rattle.frame_pool.specs.Pool.{IsOut};
ghost use Rattle.bucket_page.specs.Pages.{slots_of, IsBucket};
ghost use Rattle.indexed_file.specs.change_set.Buckets.{frame_of, with_frame};
ghost use Rattle.indexed_file.specs.change_set.Files.{IsPlaced, free_frames};
ghost use Rattle.indexed_file.specs.records_model.Slots.{lookup, slot_at, IsOrdered};
ghost use Rattle.index_blocks.specs.Buckets.{bucket_at};
ghost use Rattle.index_blocks.specs.Levels.{HasRoot};
ghost use Rattle.indexed_file.specs.Chain.{kind_of, slots_in, IsLeaf, Stands};
ghost use Rattle.indexed_file.specs.Places.{Decides};
ghost use Rattle.indexed_file.specs.Raws.{slots_at};
ghost use Rattle.indexed_tree.specs.Maps.{all_slots};
ghost use Rattle.indexed_tree.specs.Rooted.{IsRooted};

use crate::find::find_leaf;
use block_disk::Disk;
use careful_write::{Down, Store};
use file_base::FileHead;
use frame_pool::Frame;
use index_blocks::{MAX_HEIGHT, load_index};
use indexed_file::{give_frame, read_slot, take_frame};
use vms_base::Record;

// The record of a key in leaf n: true where it has one there.
fn read_leaf<D: Disk>(
    head: &FileHead,
    store: &mut Store<D>,
    frame: &Frame,
    n: u32,
    key: &[u8],
    out: &mut Record,
) -> Result<bool, Down>
    requires form { HasRoot head.now }
    requires placed { IsPlaced head.now store.old.disk }
    requires out { IsOut store.old.pool frame.now }
    requires there { n < head.now.used }
    ensures state { SameButReads (with_frame frame.now (frame_of store.new.pool frame.now) (record store.old { disk = answered result store.old.disk })) store.new }
    ensures reads { store.new.reads ≤ store.old.reads + head.now.bucket }
    ensures out { IsOut store.new.pool frame.now }
    ensures found { IfOk result (λ found. found ≡ true → IfSome store.old.current (λ blocks. IsLeaf head.now (bucket_at head.now blocks n) → IsOrdered (slots_in head.now blocks n) → lookup (slots_in head.now blocks n) key.now ≡ Some out.new)) }
    ensures stands { IfOk result (λ found. found ≡ true → IfSome store.old.current (Stands head.now key.now out.new)) }
    ensures absent { IfOk result (λ found. found ≡ false → IfSome store.old.current (λ blocks. IsLeaf head.now (bucket_at head.now blocks n) → IsOrdered (slots_in head.now blocks n) → lookup (slots_in head.now blocks n) key.now ≡ None)) }
{
    load_index(head, store, frame, n)?;
    let size = 512 * head.bucket as usize;
    let bytes = &store.pool().bytes(frame)[..size];
    let (found, _) = read_slot(head, bytes, key, out);
    match found {
        Some(there) => Ok(there),
        None => Ok(false),
    }
}

// The record of a key, read through a frame: true where it has one.
fn read_key<D: Disk>(
    head: &FileHead,
    store: &mut Store<D>,
    frame: &Frame,
    key: &[u8],
    out: &mut Record,
) -> Result<bool, Down>
    requires form { HasRoot head.now }
    requires placed { IsPlaced head.now store.old.disk }
    requires out { IsOut store.old.pool frame.now }
    ensures state { SameButReads (with_frame frame.now (frame_of store.new.pool frame.now) (record store.old { disk = answered result store.old.disk })) store.new }
    ensures reads { store.new.reads ≤ store.old.reads + head.now.levels * head.now.bucket }
    ensures out { IsOut store.new.pool frame.now }
    ensures found { IfOk result (λ found. found ≡ true → IfSome store.old.current (λ blocks. IsRooted head.now blocks → lookup (all_slots head.now blocks) key.now ≡ Some out.new)) }
    ensures stands { IfOk result (λ found. found ≡ true → IfSome store.old.current (Stands head.now key.now out.new)) }
    ensures absent { IfOk result (λ found. found ≡ false → IfSome store.old.current (λ blocks. IsRooted head.now blocks → lookup (all_slots head.now blocks) key.now ≡ None)) }
{
    let mut path = [0; MAX_HEIGHT];
    match find_leaf(head, store, frame, key, &mut path) {
        Ok(n) => read_leaf(head, store, frame, n, key, out),
        Err(down) => Err(down),
    }
}

/// The record of a key: true where it has one, and false exactly where it has none. One bucket of each level is read. `Down` says that the disk went
/// down in the call. The store's frames are as before.
pub fn get_key<D: Disk>(
    head: &FileHead,
    store: &mut Store<D>,
    key: &[u8],
    out: &mut Record,
) -> Result<bool, Down>
    requires form { HasRoot head.now }
    requires placed { IsPlaced head.now store.old.disk }
    requires frames { 1 ≤ free_frames store.old.pool }
    ensures state { SameButReads (record store.old { disk = answered result store.old.disk }) store.new }
    ensures reads { store.new.reads ≤ store.old.reads + head.now.levels * head.now.bucket }
    ensures found { IfOk result (λ found. found ≡ true → IfSome store.old.current (λ blocks. IsRooted head.now blocks → lookup (all_slots head.now blocks) key.now ≡ Some out.new)) }
    ensures stands { IfOk result (λ found. found ≡ true → IfSome store.old.current (Stands head.now key.now out.new)) }
    ensures absent { IfOk result (λ found. found ≡ false → IfSome store.old.current (λ blocks. IsRooted head.now blocks → lookup (all_slots head.now blocks) key.now ≡ None)) }
{
    let frame = take_frame(store);
    let found = read_key(head, store, &frame, key, out);
    give_frame(store, frame);
    found
}
