//! A key that is set back in place, to a value that its slot has room for.
ghost use Rattle.std.specs.Prelude.{◌≡◌, ◌≤◌, ◌<◌, ◌+◌, ◌*◌, ℕ, List, true, false, length, take, OnOk, OnErr, IfSome, IsSomeAnd};
ghost use Rattle.std.specs.Option.{option_copied};
ghost use Rattle.careful_write.specs.Down.{answered};
ghost use Rattle.careful_write.specs.Reads.{SameButReads};
ghost use Rattle.frame_pool.specs.Pool.{IsOut};
ghost use Rattle.indexed_file.specs.change_set.Buckets.{frame_of, with_frame};
ghost use Rattle.indexed_file.specs.change_set.Files.{IsPlaced, StagesIn, free_frames};
ghost use Rattle.indexed_file.specs.records_model.Slots.{size_of, room_of};
ghost use Rattle.index_blocks.specs.Levels.{HasRoot};
ghost use Rattle.indexed_file.specs.Chain.{HasKeys, SuitsText};
ghost use Rattle.indexed_tree.specs.Backs.{HasSetBack};
ghost use Rattle.indexed_tree.specs.Maps.{all_slots};
ghost use Rattle.indexed_tree.specs.Puts.{BackRead};
ghost use Rattle.indexed_tree.specs.Rooted.{IsRooted};

use crate::back::put_back;
use crate::find::find_leaf;
use crate::set::read_frame;
use block_disk::Disk;
use careful_write::{Down, Store};
use file_base::FileHead;
use frame_pool::{FRAME_BYTES, Frame};
use index_blocks::{MAX_HEIGHT, load_index};
use indexed_file::{give_frame, restore_in_leaf, take_frame};
use vms_base::Record;

// Sets a key back in leaf n, whose bytes a frame has, and stages that one. Where the key has no room there, nothing is done.
fn restore_loaded<D: Disk>(
    head: &FileHead,
    store: &mut Store<D>,
    frame: &Frame,
    n: u32,
    key: &[u8],
    value: Option<&Record>,
)
    requires form { HasRoot head.now }
    requires keys { HasKeys head.now }
    requires placed { IsPlaced head.now store.old.disk }
    requires out { IsOut store.old.pool frame.now }
    requires room { length store.old.touched ≤ 480 }
    requires suits { SuitsText head.now key.now (option_copied value) }
    requires there { n < head.now.used }
    ensures back { IfSome store.old.current (λ old. BackRead head.now key.now (option_copied value.entry) n (frame_of store.old.pool frame.now) old store.new.current) }
    ensures stages { StagesIn head.now head.now.bucket store.old (record store.new { pool = store.old.pool }) }
    ensures rest { store.new ≡ with_frame frame.now (frame_of store.new.pool frame.now) (record store.old { current = store.new.current; touched = store.new.touched }) }
    ensures out { IsOut store.new.pool frame.now }
{
    let mut low = [0; FRAME_BYTES];
    read_frame(store, frame, &mut low);
    let size = 512 * head.bucket as usize;
    if restore_in_leaf(head, size, &mut low, key, value) {
        put_back(head, store, frame, n, &low);
    }
}

// Reads the leaf for a key, sets the key back in it, and stages it.
fn restore_through<D: Disk>(
    head: &FileHead,
    store: &mut Store<D>,
    frame: &Frame,
    key: &[u8],
    value: Option<&Record>,
) -> Result<(), Down>
    requires form { HasRoot head.now }
    requires keys { HasKeys head.now }
    requires placed { IsPlaced head.now store.old.disk }
    requires out { IsOut store.old.pool frame.now }
    requires room { length store.old.touched ≤ 480 }
    requires suits { SuitsText head.now key.now (option_copied value) }
    ensures back { OnOk result (IfSome store.old.current (λ old. IsRooted head.now old → size_of (option_copied value.entry) ≤ room_of (all_slots head.now old) key.now → IsSomeAnd store.new.current (HasSetBack head.now key.now (option_copied value.entry) old))) }
    ensures stages { OnOk result (StagesIn head.now head.now.bucket store.old (record store.new { pool = store.old.pool })) }
    ensures rest { SameButReads (with_frame frame.now (frame_of store.new.pool frame.now) (record store.old {
      disk = answered result store.old.disk;
      current = store.new.current;
      touched = store.new.touched;
    })) store.new }
    ensures out { IsOut store.new.pool frame.now }
{
    let mut path = [0; MAX_HEIGHT];
    match find_leaf(head, store, frame, key, &mut path) {
        Ok(n) => match load_index(head, store, frame, n) {
            Ok(()) => {
                restore_loaded(head, store, frame, n, key, value);
                Ok(())
            }
            Err(down) => Err(down),
        },
        Err(down) => Err(down),
    }
}

/// Sets a key back in place to a record or to none, and stages the one leaf for it. No bucket is added, and none is left. Where the key has no slot
/// there, or one with less room, nothing is done. `Down` says that the disk went down in the call. The store's frames are as before.
pub fn restore_key<D: Disk>(
    head: &FileHead,
    store: &mut Store<D>,
    key: &[u8],
    value: Option<&Record>,
) -> Result<(), Down>
    requires form { HasRoot head.now }
    requires keys { HasKeys head.now }
    requires placed { IsPlaced head.now store.old.disk }
    requires frames { 1 ≤ free_frames store.old.pool }
    requires room { length store.old.touched ≤ 480 }
    requires suits { SuitsText head.now key.now (option_copied value) }
    ensures back { OnOk result (IfSome store.old.current (λ old. IsRooted head.now old → size_of (option_copied value.entry) ≤ room_of (all_slots head.now old) key.now → IsSomeAnd store.new.current (HasSetBack head.now key.now (option_copied value.entry) old))) }
    ensures stages { OnOk result (StagesIn head.now head.now.bucket store.old store.new) }
    ensures rest { SameButReads (record store.old { disk = answered result store.old.disk; current = store.new.current; touched = store.new.touched }) store.new }
{
    let frame = take_frame(store);
    let done = restore_through(head, store, &frame, key, value);
    give_frame(store, frame);
    done
}
