//! Buckets that are written one after the other, in groups.
ghost use Rattle.std.specs.Prelude.{◌≡◌, ◌≤◌, ◌<◌, ◌+◌, ◌-◌, ◌*◌, ◌∷◌, [], ℕ, List, length, take, OnOk, OnErr, option_map, IfSome};
ghost use Rattle.careful_write.specs.Down.{Counts};
ghost use Rattle.careful_write.specs.State.{IsReady};
ghost use Rattle.change_set.specs.Files.{IsPlaced, free_frames};
ghost use Rattle.load_pages.specs.load_laws.Pages.{Page, IsPage, Adds};
ghost use Rattle.file_loads.specs.Writes.{StagesBucket, HasWritten, LeavesApart};

use block_disk::Disk;
use careful_write::{Down, Store};
use change_set::{give_frame, take_frame};
use file_base::FileHead;
use frame_pool::FRAME_BYTES;
use index_blocks::stage_index;

// A group is written once more blocks than this are staged: a bucket more might not fit it.
const FULL: u32 = 496;

// Stages the front of some bytes as bucket n.
fn stage_bytes<D: Disk>(head: &FileHead, store: &mut Store<D>, n: u32, bytes: &[u8; FRAME_BYTES])
    requires placed { IsPlaced head.now store.old.disk }
    requires frames { 1 ≤ free_frames store.old.pool }
    requires there { n < head.now.alloc }
    requires room { length store.old.touched ≤ 496 }
    ensures { StagesBucket head.now n bytes.now store.old store.new }
{
    let frame = take_frame(store);
    stage_index(head, store, &frame, n, bytes);
    give_frame(store, frame);
}

/// Stages the front of some bytes as bucket n. Where another bucket might not fit the group, the group is written. `staged` is how many blocks are staged at most.
pub(crate) fn put_bucket<D: Disk>(
    head: &FileHead,
    store: &mut Store<D>,
    staged: &mut u32,
    n: u32,
    bytes: &[u8; FRAME_BYTES],
) -> Result<(), Down>
    requires placed { IsPlaced head.now store.old.disk }
    requires frames { 1 ≤ free_frames store.old.pool }
    requires there { n < head.now.alloc }
    requires ready { IsReady store.old }
    requires counted { length store.old.touched ≤ staged.old }
    requires room { staged.old ≤ 496 }
    ensures adds { OnOk result ((page : Page) → IsPage head.now page (take (512 * head.now.bucket) bytes.now) → Adds head.now n (page ∷ []) store.old.current store.new.current) }
    ensures ok { OnOk result (HasWritten head.now staged.new store.old store.new) }
    ensures down { OnErr result (LeavesApart head.now store.old store.new) }
    ensures counts { Counts result store.old.disk store.new.disk }
    ensures pool { store.new.pool ≡ store.old.pool }
{
    stage_bytes(head, store, n, bytes);
    *staged += head.bucket as u32;
    if *staged <= FULL {
        return Ok(());
    }
    *staged = 0;
    store.apply()
}
