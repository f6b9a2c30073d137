//! The empty sequential file.
ghost use Rattle.std.specs.Prelude.{◌≡◌, ◌≤◌, ◌<◌, ◌+◌, ◌-◌, ◌*◌, ℕ, List, Option, Some, None, [], length, take, OnOk, OnErr, IfSome};
ghost use Rattle.change_set.specs.careful_write.Down.{Counts};
ghost use Rattle.change_set.specs.careful_write.State.{IsIdle};
ghost use Rattle.change_set.specs.Files.{IsPlaced, free_frames, in_extent, AgreesOut, LeavesOut};
ghost use Rattle.seq_file.specs.Layout.{IsSequential, IsFresh, Becomes};

use crate::bucket::clear_page;
use change_set::{Disk, Down, Store, give_frame, stage_bucket, take_frame};
use file_base::FileHead;

/// Writes the one used bucket of a new file, in a group of its own.
pub fn make_file<D: Disk>(head: &FileHead, store: &mut Store<D>) -> Result<(), Down>
    requires form { IsSequential head.now }
    requires placed { IsPlaced head.now store.old.disk }
    requires fresh { IsFresh head.now }
    requires idle { IsIdle store.old }
    requires frames { 1 ≤ free_frames store.old.pool }
    ensures made { OnOk result (IfSome store.new.current (λ b. Becomes head.now b [])) }
    ensures idle { OnOk result (IsIdle store.new) }
    ensures outside { OnOk result (AgreesOut (in_extent head.now) store.old.current store.new.current) }
    ensures down { OnErr result (LeavesOut (in_extent head.now) store.old.current store.new.disk) }
    ensures counts { Counts result store.old.disk store.new.disk }
    ensures pool { store.new.pool ≡ store.old.pool }
{
    let frame = take_frame(store);
    clear_page(head, store, &frame);
    stage_bucket(store, &frame, head.start, head.bucket);
    give_frame(store, frame);
    store.apply()
}
