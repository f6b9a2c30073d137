//! Where positions stand.
ghost use Rattle.std.specs.Prelude.{◌≡◌, ◌≤◌, ◌<◌, ◌⊎◌, ◌+◌, ◌-◌, ◌*◌, ◌++◌, ℕ, List, length, OnOk, OnErr, IfOk, IfSome, IfNone};
ghost use Rattle.change_set.specs.careful_write.Down.{answered};
ghost use Rattle.frame_pool.specs.Pool.{IsOut};
ghost use Rattle.change_set.specs.Files.{IsPlaced, first_place};
ghost use Rattle.bucket_page.specs.declared.kind.PageKind.TheVariants.{Seq};
ghost use Rattle.bucket_page.specs.Pages.{slots_of, IsBucket};
ghost use Rattle.seq_file.specs.Layout.{IsSequential, IsLaidOut, CountsBefore};
ghost use Rattle.seq_file.specs.Frames.{page_in, IsAt, IsRead, ReadsInFrame};

use crate::bucket::load_slots;
use crate::spot::Spot;
use change_set::{Disk, Down, Place, Store};
use file_base::FileHead;
use frame_pool::Frame;

/// Finds where a position stands, and leaves its bucket in a frame. The last position is found in the last used bucket
/// alone, and others by the buckets from a place on, which is then where the position stands; from the first one on where the
/// place is behind it. None only where the file is not laid out.
pub fn locate<D: Disk>(
    head: &FileHead,
    store: &mut Store<D>,
    frame: &Frame,
    n: u32,
    place: &mut Place,
) -> Result<Option<Spot>, Down>
    requires form { IsSequential head.now }
    requires placed { IsPlaced head.now store.old.disk }
    requires out { IsOut store.old.pool frame.now }
    requires from { 1 ≤ n }
    requires to { n ≤ head.now.count }
    requires before { IfSome store.old.current (λ b. IsLaidOut head.now b → CountsBefore head.now b place.old) }
    ensures state { ReadsInFrame frame.now (record store.old { disk = answered result store.old.disk }) store.new }
    ensures reads { store.new.reads ≤ store.old.reads + head.now.used * head.now.bucket }
    ensures out { IsOut store.new.pool frame.now }
    ensures bucket { IfOk result (λ found. IfSome found (λ spot. IsBucket Seq (512 * head.now.bucket) (page_in head.now store.new frame.now))) }
    ensures slots { IfOk result (λ found. IfSome found (λ spot. spot.slots ≡ length (slots_of Seq (page_in head.now store.new frame.now)))) }
    ensures there { IfOk result (λ found. IfSome found (λ spot. spot.slot < spot.slots)) }
    ensures stands { IfOk result (λ found. IfSome found (λ spot. IfSome store.old.current (IsRead head.now spot.bucket (page_in head.now store.new frame.now)))) }
    ensures below { IfOk result (λ found. IfSome found (λ spot. spot.bucket < head.now.used)) }
    ensures spot { IfOk result (λ found. IfSome found (λ spot. IfSome store.old.current (λ b. IsLaidOut head.now b → IsAt head.now n spot.bucket spot.slot (page_in head.now store.new frame.now) b))) }
    ensures before { IfOk result (λ found. IfSome store.old.current (λ b. IsLaidOut head.now b → CountsBefore head.now b place.new)) }
    ensures none { IfOk result (λ found. IfNone found (IfSome store.old.current (λ b. IsLaidOut head.now b → ⊥))) }
{
    if n == head.count {
        last_spot(head, store, frame)
    } else {
        walk(head, store, frame, n, place)
    }
}

// The spot of the last position.
fn last_spot<D: Disk>(
    head: &FileHead,
    store: &mut Store<D>,
    frame: &Frame,
) -> Result<Option<Spot>, Down>
    requires form { IsSequential head.now }
    requires placed { IsPlaced head.now store.old.disk }
    requires out { IsOut store.old.pool frame.now }
    requires some { 1 ≤ head.now.count }
    ensures state { ReadsInFrame frame.now (record store.old { disk = answered result store.old.disk }) store.new }
    ensures reads { store.new.reads ≤ store.old.reads + head.now.used * head.now.bucket }
    ensures out { IsOut store.new.pool frame.now }
    ensures bucket { IfOk result (λ found. IfSome found (λ spot. IsBucket Seq (512 * head.now.bucket) (page_in head.now store.new frame.now))) }
    ensures slots { IfOk result (λ found. IfSome found (λ spot. spot.slots ≡ length (slots_of Seq (page_in head.now store.new frame.now)))) }
    ensures there { IfOk result (λ found. IfSome found (λ spot. spot.slot < spot.slots)) }
    ensures stands { IfOk result (λ found. IfSome found (λ spot. IfSome store.old.current (IsRead head.now spot.bucket (page_in head.now store.new frame.now)))) }
    ensures below { IfOk result (λ found. IfSome found (λ spot. spot.bucket < head.now.used)) }
    ensures spot { IfOk result (λ found. IfSome found (λ spot. IfSome store.old.current (λ b. IsLaidOut head.now b → IsAt head.now head.now.count spot.bucket spot.slot (page_in head.now store.new frame.now) b))) }
    ensures none { IfOk result (λ found. IfNone found (IfSome store.old.current (λ b. IsLaidOut head.now b → ⊥))) }
{
    let bucket = head.used - 1;
    match load_slots(head, store, frame, bucket) {
        Ok(slots) => {
            if slots == 0 {
                return Ok(None);
            }
            Ok(Some(Spot {
                bucket,
                slots,
                slot: slots - 1,
            }))
        }
        Err(down) => Err(down),
    }
}

// Where the walk to a position begins: at a place, unless that is behind it.
fn start_for(head: &FileHead, place: &Place, n: u32) -> Place
    requires one { 1 ≤ head.now.used }
    requires from { 1 ≤ n }
    ensures used { result.bucket < head.now.used }
    ensures before { result.passed < n }
    ensures either { (result ≡ place.now) ⊎ (result ≡ first_place) }
{
    if place.passed < n && place.bucket < head.used {
        *place
    } else {
        Place::first()
    }
}

// The spot of a position, by the number of slots in each bucket from a place on.
fn walk<D: Disk>(
    head: &FileHead,
    store: &mut Store<D>,
    frame: &Frame,
    n: u32,
    place: &mut Place,
) -> Result<Option<Spot>, Down>
    requires form { IsSequential head.now }
    requires placed { IsPlaced head.now store.old.disk }
    requires out { IsOut store.old.pool frame.now }
    requires from { 1 ≤ n }
    requires to { n ≤ head.now.count }
    requires before { IfSome store.old.current (λ b. IsLaidOut head.now b → CountsBefore head.now b place.old) }
    ensures state { ReadsInFrame frame.now (record store.old { disk = answered result store.old.disk }) store.new }
    ensures reads { store.new.reads ≤ store.old.reads + head.now.used * head.now.bucket }
    ensures out { IsOut store.new.pool frame.now }
    ensures bucket { IfOk result (λ found. IfSome found (λ spot. IsBucket Seq (512 * head.now.bucket) (page_in head.now store.new frame.now))) }
    ensures slots { IfOk result (λ found. IfSome found (λ spot. spot.slots ≡ length (slots_of Seq (page_in head.now store.new frame.now)))) }
    ensures there { IfOk result (λ found. IfSome found (λ spot. spot.slot < spot.slots)) }
    ensures stands { IfOk result (λ found. IfSome found (λ spot. IfSome store.old.current (IsRead head.now spot.bucket (page_in head.now store.new frame.now)))) }
    ensures below { IfOk result (λ found. IfSome found (λ spot. spot.bucket < head.now.used)) }
    ensures spot { IfOk result (λ found. IfSome found (λ spot. IfSome store.old.current (λ b. IsLaidOut head.now b → IsAt head.now n spot.bucket spot.slot (page_in head.now store.new frame.now) b))) }
    ensures before { IfOk result (λ found. IfSome store.old.current (λ b. IsLaidOut head.now b → CountsBefore head.now b place.new)) }
    ensures none { IfOk result (λ found. IfNone found (IfSome store.old.current (λ b. IsLaidOut head.now b → ⊥))) }
{
    let start = start_for(head, place, n);
    let mut left = n - 1 - start.passed;
    for bucket in start.bucket..head.used {
        match load_slots(head, store, frame, bucket) {
            Ok(slots) => {
                if left < slots as u32 {
                    *place = Place {
                        bucket,
                        passed: n - 1 - left,
                    };
                    return Ok(Some(Spot {
                        bucket,
                        slots,
                        slot: left as u16,
                    }));
                }
                left -= slots as u32;
            }
            Err(down) => return Err(down),
        }
    }
    Ok(None)
}
