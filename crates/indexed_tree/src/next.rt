//! The first key behind one.
ghost use Rattle.std.specs.Prelude.{◌≡◌, ◌≤◌, ◌<◌, ◌+◌, ◌-◌, ◌*◌, ℕ, List, true, false, Some, None, length, take, drop, IfOk, IfSome, IfNone};
ghost use Rattle.std.specs.Option.{option_copied};
ghost use Rattle.careful_write.specs.Down.{answered};
ghost use Rattle.careful_write.specs.Reads.{SameButReads};
ghost use Rattle.frame_pool.specs.Pool.{IsOut};
ghost use Rattle.indexed_file.specs.change_set.Buckets.{frame_of, with_frame};
ghost use Rattle.indexed_file.specs.change_set.Files.{IsPlaced, free_frames};
ghost use Rattle.index_blocks.specs.Buckets.{bucket_at};
ghost use Rattle.index_blocks.specs.Levels.{HasRoot};
ghost use Rattle.indexed_file.specs.Behind.{first_behind, IsFound};
ghost use Rattle.indexed_file.specs.Chain.{slots_in, next_in, HasKeys, IsLeaf, Stands};
ghost use Rattle.indexed_tree.specs.Maps.{all_slots, starts_at};
ghost use Rattle.indexed_tree.specs.Rooted.{IsRooted};

use crate::find::find_leaf;
use block_disk::Disk;
use bucket_page::Page;
use careful_write::{Down, Store};
use file_base::FileHead;
use frame_pool::Frame;
use index_blocks::{MAX_HEIGHT, load_index};
use indexed_file::{give_frame, next_in_leaf, take_frame};
use vms_base::{KeyText, Record};

// Reads leaf n: its first key behind another that has a record, and which leaf is next.
fn visit_next<D: Disk>(
    head: &FileHead,
    store: &mut Store<D>,
    frame: &Frame,
    n: u32,
    after: Option<&KeyText>,
    out: &mut Record,
) -> Result<(Option<KeyText>, u32), Down>
    requires form { HasRoot head.now }
    requires keys { HasKeys head.now }
    requires placed { IsPlaced head.now store.old.disk }
    requires out { IsOut store.old.pool frame.now }
    requires there { n < head.now.used }
    ensures state { SameButReads (with_frame frame.now (frame_of store.new.pool frame.now) (record store.old { disk = answered result store.old.disk })) store.new }
    ensures out { IsOut store.new.pool frame.now }
    ensures found { IfOk result (λ to. IfSome to.0 (λ k. IfSome store.old.current (λ blocks. IsLeaf head.now (bucket_at head.now blocks n) → IsFound (first_behind (option_copied after.entry) (slots_in head.now blocks n)) k out.new))) }
    ensures stands { IfOk result (λ to. IfSome to.0 (λ k. IfSome store.old.current (Stands head.now k out.new))) }
    ensures none { IfOk result (λ to. IfNone to.0 (IfSome store.old.current (λ blocks. IsLeaf head.now (bucket_at head.now blocks n) → first_behind (option_copied after.entry) (slots_in head.now blocks n) ≡ None))) }
    ensures next { IfOk result (λ to. IfSome store.old.current (λ blocks. to.1 ≡ next_in head.now blocks n)) }
{
    load_index(head, store, frame, n)?;
    let size = 512 * head.bucket as usize;
    let bytes = &store.pool().bytes(frame)[..size];
    let found = next_in_leaf(head, bytes, after, out);
    Ok((found, Page::next(bytes)))
}

// The leaf for a key; where none is said, that for the least key, which is the first one.
fn start_leaf<D: Disk>(
    head: &FileHead,
    store: &mut Store<D>,
    frame: &Frame,
    after: Option<&KeyText>,
) -> Result<u32, Down>
    requires form { HasRoot head.now }
    requires placed { IsPlaced head.now store.old.disk }
    requires out { IsOut store.old.pool frame.now }
    ensures state { SameButReads (with_frame frame.now (frame_of store.new.pool frame.now) (record store.old { disk = answered result store.old.disk })) store.new }
    ensures out { IsOut store.new.pool frame.now }
    ensures start { IfOk result (λ n. IfSome store.old.current (λ blocks. IsRooted head.now blocks → n ≡ starts_at head.now blocks (option_copied after.entry))) }
    ensures used { IfOk result (λ n. n < head.now.used) }
{
    let mut path = [0; MAX_HEIGHT];
    let zeros = [0; 64];
    match after {
        Some(key) => find_leaf(head, store, frame, key.bytes(), &mut path),
        None => find_leaf(
            head,
            store,
            frame,
            &zeros[..head.key_size as usize],
            &mut path,
        ),
    }
}

// The first key behind another that has a record, found through a frame: by the index, and then from leaf to leaf.
fn find_next<D: Disk>(
    head: &FileHead,
    store: &mut Store<D>,
    frame: &Frame,
    after: Option<&KeyText>,
    out: &mut Record,
) -> Result<Option<KeyText>, Down>
    requires form { HasRoot head.now }
    requires keys { HasKeys head.now }
    requires placed { IsPlaced head.now store.old.disk }
    requires out { IsOut store.old.pool frame.now }
    ensures state { SameButReads (with_frame frame.now (frame_of store.new.pool frame.now) (record store.old { disk = answered result store.old.disk })) store.new }
    ensures out { IsOut store.new.pool frame.now }
    ensures found { IfOk result (λ found. IfSome found (λ k. IfSome store.old.current (λ blocks. IsRooted head.now blocks → IsFound (first_behind (option_copied after.entry) (all_slots head.now blocks)) k out.new))) }
    ensures stands { IfOk result (λ found. IfSome found (λ k. IfSome store.old.current (Stands head.now k out.new))) }
    ensures none { IfOk result (λ found. IfNone found (IfSome store.old.current (λ blocks. IsRooted head.now blocks → first_behind (option_copied after.entry) (all_slots head.now blocks) ≡ None))) }
{
    let mut n = start_leaf(head, store, frame, after)?;
    for i in 0..head.used {
        match visit_next(head, store, frame, n, after, out) {
            Ok((found, next)) => {
                if found.is_some() || next >= head.used {
                    return Ok(found);
                }
                n = next;
            }
            Err(down) => return Err(down),
        }
    }
    Ok(None)
}

/// The first key behind another, or the first one, with its record. None exactly where there is none. One bucket of each level is read, and the
/// leaves behind that one up to the first that has such a key. `Down` says that the disk went down in the call. The store's frames are as before.
pub fn next_key<D: Disk>(
    head: &FileHead,
    store: &mut Store<D>,
    after: Option<&KeyText>,
    out: &mut Record,
) -> Result<Option<KeyText>, Down>
    requires form { HasRoot head.now }
    requires keys { HasKeys head.now }
    requires placed { IsPlaced head.now store.old.disk }
    requires frames { 1 ≤ free_frames store.old.pool }
    ensures state { SameButReads (record store.old { disk = answered result store.old.disk }) store.new }
    ensures found { IfOk result (λ found. IfSome found (λ k. IfSome store.old.current (λ blocks. IsRooted head.now blocks → IsFound (first_behind (option_copied after.entry) (all_slots head.now blocks)) k out.new))) }
    ensures stands { IfOk result (λ found. IfSome found (λ k. IfSome store.old.current (Stands head.now k out.new))) }
    ensures none { IfOk result (λ found. IfNone found (IfSome store.old.current (λ blocks. IsRooted head.now blocks → first_behind (option_copied after.entry) (all_slots head.now blocks) ≡ None))) }
{
    let frame = take_frame(store);
    let found = find_next(head, store, &frame, after, out);
    give_frame(store, frame);
    found
}
