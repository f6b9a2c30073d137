//! A key that is set.
ghost use Rattle.std.specs.Prelude.{◌≡◌, ◌≤◌, ◌<◌, ◌+◌, ◌-◌, ◌*◌, ℕ, List, true, false, length, take, OnOk, OnErr, IfSome, IsSomeAnd, slice_index_or};
ghost use Rattle.std.specs.Option.{option_copied};
ghost use Rattle.vms_base.specs.vms_model.Keys.{Text};
ghost use Rattle.careful_write.specs.Down.{answered};
ghost use Rattle.careful_write.specs.Reads.{SameButReads};
ghost use Rattle.frame_pool.specs.Pool.{IsOut};
ghost use Rattle.careful_write.specs.Sizes.{staged_limit};
ghost use Rattle.bucket_page.specs.Pages.{slots_of, IsBucket};
ghost use Rattle.indexed_file.specs.change_set.Buckets.{frame_of, with_frame};
ghost use Rattle.indexed_file.specs.change_set.Files.{IsPlaced, StagesIn, free_frames};
ghost use Rattle.index_blocks.specs.Laws.{IsNoted};
ghost use Rattle.index_blocks.specs.Levels.{height, HasRoot};
ghost use Rattle.indexed_file.specs.Chain.{HasKeys, SuitsText};
ghost use Rattle.indexed_tree.specs.Maps.{KeyIsSet, TakesKey};
ghost use Rattle.indexed_tree.specs.Puts.{MayPart, SameButIndex, SetsRead};
ghost use Rattle.indexed_tree.specs.Rooted.{IsRooted};

use crate::find::find_leaf;
use crate::put::{may_part, put_leaf};
use block_disk::Disk;
use careful_write::{Down, Store};
use file_base::FileHead;
use frame_pool::{FRAME_BYTES, Frame};
use index_blocks::{MAX_HEIGHT, Path, load_index};
use indexed_file::{Held, give_frame, set_in_leaf, take_frame};
use vms_base::Record;

/// Reads a frame.
pub(crate) fn read_frame<D: Disk>(
    store: &mut Store<D>,
    frame: &Frame,
    bytes: &mut [u8; FRAME_BYTES],
)
    requires { IsOut store.old.pool frame.now }
    ensures same { store.new ≡ store.old }
    ensures bytes { bytes.new ≡ frame_of store.old.pool frame.now }
{
    bytes.copy_from_slice(store.pool().bytes(frame));
}

// Sets a key in leaf n, whose bytes a frame has, and stages what it became. Where it would have to part and may not, nothing is done.
fn set_loaded<D: Disk, H: Held>(
    head: &mut FileHead,
    store: &mut Store<D>,
    frame: &Frame,
    n: u32,
    key: &[u8],
    path: &Path,
    value: Option<&Record>,
    held: &H,
) -> Result<(), Down>
    requires form { HasRoot head.old }
    requires keys { HasKeys head.old }
    requires placed { IsPlaced head.old store.old.disk }
    requires out { IsOut store.old.pool frame.now }
    requires room { length store.old.touched ≤ staged_limit }
    requires suits { SuitsText head.old key.now (option_copied value) }
    requires there { n < head.old.used }
    requires path { (steps : ℕ) → steps < height head.old → slice_index_or path.now steps 0 < head.old.used }
    ensures sets { OnOk result (IfSome store.old.current (λ old. SetsRead head.old head.new (λ t. H.held held.now (Text t)) key.now (option_copied value.entry) path.now n (frame_of store.old.pool frame.now) old store.new.current)) }
    ensures stages { OnOk result (StagesIn head.old ((2 * head.old.levels + 2) * head.old.bucket) store.old (record store.new { pool = store.old.pool })) }
    ensures form { OnOk result (HasRoot head.new) }
    ensures file { OnOk result (SameButIndex head.old head.new) }
    ensures head { OnErr result (head.new ≡ head.old) }
    ensures rest { SameButReads (with_frame frame.now (frame_of store.new.pool frame.now) (record store.old {
      disk = answered result store.old.disk;
      current = store.new.current;
      touched = store.new.touched;
    })) store.new }
    ensures out { IsOut store.new.pool frame.now }
{
    let mut low = [0; FRAME_BYTES];
    let mut mid = [0; FRAME_BYTES];
    let mut high = [0; FRAME_BYTES];
    read_frame(store, frame, &mut low);
    let size = 512 * head.bucket as usize;
    let added = set_in_leaf(head, size, &mut low, &mut mid, &mut high, key, value, held);
    if added > 0 && !may_part(head) {
        return Ok(());
    }
    put_leaf(head, store, frame, key, path, n, added, &low, &mid, &high)
}

// Reads the leaf for a key, sets the key in it, and stages what it became.
fn set_through<D: Disk, H: Held>(
    head: &mut FileHead,
    store: &mut Store<D>,
    frame: &Frame,
    key: &[u8],
    value: Option<&Record>,
    held: &H,
) -> Result<(), Down>
    requires form { HasRoot head.old }
    requires keys { HasKeys head.old }
    requires placed { IsPlaced head.old store.old.disk }
    requires out { IsOut store.old.pool frame.now }
    requires room { length store.old.touched ≤ staged_limit }
    requires suits { SuitsText head.old key.now (option_copied value) }
    ensures sets { OnOk result (IfSome store.old.current (λ old. IsRooted head.old old → TakesKey head.old old key.now (option_copied value.entry) →
        IsSomeAnd store.new.current (KeyIsSet head.old head.new (λ t. H.held held.now (Text t)) key.now (option_copied value.entry) old))) }
    ensures stages { OnOk result (StagesIn head.old ((2 * head.old.levels + 2) * head.old.bucket) store.old (record store.new { pool = store.old.pool })) }
    ensures form { OnOk result (HasRoot head.new) }
    ensures file { OnOk result (SameButIndex head.old head.new) }
    ensures head { OnErr result (head.new ≡ head.old) }
    ensures rest { SameButReads (with_frame frame.now (frame_of store.new.pool frame.now) (record store.old {
      disk = answered result store.old.disk;
      current = store.new.current;
      touched = store.new.touched;
    })) store.new }
    ensures out { IsOut store.new.pool frame.now }
{
    let mut path = [0; MAX_HEIGHT];
    match find_leaf(head, store, frame, key, &mut path) {
        Ok(n) => match load_index(head, store, frame, n) {
            Ok(()) => set_loaded(head, store, frame, n, key, &path, value, held),
            Err(down) => Err(down),
        },
        Err(down) => Err(down),
    }
}

/// Sets a key to a record, or takes its record away. Where the leaf for the key would have to part, and no level may come in or too few buckets are
/// free, nothing is done. `Down` says that the disk went down in the call; any of it may be staged then, and the head is as before. The store's
/// frames are as before.
pub fn set_key<D: Disk, H: Held>(
    head: &mut FileHead,
    store: &mut Store<D>,
    key: &[u8],
    value: Option<&Record>,
    held: &H,
) -> Result<(), Down>
    requires form { HasRoot head.old }
    requires keys { HasKeys head.old }
    requires placed { IsPlaced head.old store.old.disk }
    requires frames { 1 ≤ free_frames store.old.pool }
    requires room { length store.old.touched ≤ staged_limit }
    requires suits { SuitsText head.old key.now (option_copied value) }
    ensures sets { OnOk result (IfSome store.old.current (λ old. IsRooted head.old old → TakesKey head.old old key.now (option_copied value.entry) →
        IsSomeAnd store.new.current (KeyIsSet head.old head.new (λ t. H.held held.now (Text t)) key.now (option_copied value.entry) old))) }
    ensures stages { OnOk result (StagesIn head.old ((2 * head.old.levels + 2) * head.old.bucket) store.old store.new) }
    ensures form { OnOk result (HasRoot head.new) }
    ensures file { OnOk result (SameButIndex head.old head.new) }
    ensures head { OnErr result (head.new ≡ head.old) }
    ensures rest { SameButReads (record store.old { disk = answered result store.old.disk; current = store.new.current; touched = store.new.touched }) store.new }
{
    let frame = take_frame(store);
    let done = set_through(head, store, &frame, key, value, held);
    give_frame(store, frame);
    done
}
