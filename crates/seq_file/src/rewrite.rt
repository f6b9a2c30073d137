//! Which bucket a change of a file's records writes. The bucket is left in a frame.
ghost use Rattle.std.specs.Prelude.{◌≡◌, ◌≢◌, ◌≤◌, ◌<◌, ◌⊎◌, ◌+◌, ◌-◌, ◌*◌, ◌++◌, ℕ, List, true, false, Some, None, [], ◌∷◌, length, take, OnOk, OnErr, IfOk, IfSome, IfNone};
ghost use Rattle.std.specs.Option.{option_copied};
ghost use Rattle.change_set.specs.block_disk.Sizes.{greatest_disk_size};
ghost use Rattle.file_base.specs.vms_model.Limits.{record_limit};
ghost use Rattle.change_set.specs.careful_write.Down.{answered};
ghost use Rattle.frame_pool.specs.Pool.{IsOut};
ghost use Rattle.file_base.specs.vms_model.Keys.{Number};
ghost use Rattle.change_set.specs.Files.{IsPlaced};
ghost use Rattle.bucket_page.specs.declared.kind.PageKind.TheVariants.{Seq};
ghost use Rattle.bucket_page.specs.Pages.{slots_of, slot_at, joined, IsBucket};
ghost use Rattle.seq_file.specs.Records.{list_set};
ghost use Rattle.seq_file.specs.Layout.{capacity, used_left, CountsBefore, IsRecord, IsSequential, IsLaidOut, Suits, TakesAt};
ghost use Rattle.seq_file.specs.Frames.{page_in, InFrame, PutBehind, PutAnew, PutOver, Leads, MayWrite, ReadsInFrame};

use crate::bucket::{clear_page, keep_slots, load_slots, push_slot, replace_slot};
use crate::spot::{Rewrite, Spot};
use crate::walk::locate;
use change_set::{Disk, Down, Place, Store};
use file_base::{FileHead, Record};
use frame_pool::Frame;

// Puts a record behind the slots of the last used bucket, which is in a frame, or alone into the next one. None where
// it does not fit and no bucket is free.
fn place_behind<D: Disk>(
    head: &FileHead,
    store: &mut Store<D>,
    frame: &Frame,
    slots: u16,
    n: u32,
    value: &[u8],
) -> Option<Rewrite>
    requires form { IsSequential head.now }
    requires one { 1 ≤ head.now.bucket }
    requires blocks { head.now.bucket ≤ 16 }
    requires records { head.now.mrs + 32 ≤ 512 * head.now.bucket }
    requires greatest { head.now.mrs ≤ record_limit }
    requires out { IsOut store.old.pool frame.now }
    requires bucket { IsBucket Seq (512 * head.now.bucket) (page_in head.now store.old frame.now) }
    requires number { slots ≡ length (slots_of Seq (page_in head.now store.old frame.now)) }
    requires value { IsRecord head.now.mrs value.now }
    ensures put { IfSome result (λ w. PutBehind head.now n (slots_of Seq (page_in head.now store.old frame.now)) value.now (page_in head.now store.new frame.now) w ⊎ PutAnew head.now n (slots_of Seq (page_in head.now store.old frame.now)) value.now (page_in head.now store.new frame.now) w) }
    ensures none { IfNone result ((head.now.alloc ≤ head.now.used) × (capacity head.now < length (joined (slots_of Seq (page_in head.now store.old frame.now))) + (length value.now + 2))) }
    ensures state { InFrame frame.now store.old store.new }
    ensures out { IsOut store.new.pool frame.now }
{
    if push_slot(head, store, frame, slots, value) {
        return Some(Rewrite {
            bucket: head.used - 1,
            used: head.used,
            count: n,
        });
    }
    if head.used >= head.alloc {
        return None;
    }
    clear_page(head, store, frame);
    let _ = push_slot(head, store, frame, 0, value);
    Some(Rewrite {
        bucket: head.used,
        used: head.used + 1,
        count: n,
    })
}

// Puts a record behind all others, as position n. Only the last used bucket is read.
fn append<D: Disk>(
    head: &FileHead,
    store: &mut Store<D>,
    frame: &Frame,
    n: u32,
    value: &[u8],
) -> Result<Option<Rewrite>, Down>
    requires form { IsSequential head.now }
    requires placed { IsPlaced head.now store.old.disk }
    requires out { IsOut store.old.pool frame.now }
    requires value { IsRecord head.now.mrs value.now }
    requires behind { head.now.count < n }
    ensures leads { IfOk result (λ found. IfSome found (λ w. IfSome store.old.current (Leads head.now w (page_in head.now store.new frame.now) (TakesAt head.now n (Some value.now)) (list_set n (Some value.now))))) }
    ensures none { IfOk result (λ found. IfNone found (IfSome store.old.current (λ b. TakesAt head.now n (Some value.now) b → ⊥))) }
    ensures may { IfOk result (λ found. IfSome found (MayWrite head.now)) }
    ensures state { ReadsInFrame frame.now (record store.old { disk = answered result store.old.disk }) store.new }
    ensures out { IsOut store.new.pool frame.now }
{
    match load_slots(head, store, frame, head.used - 1) {
        Ok(slots) => Ok(place_behind(head, store, frame, slots, n, value)),
        Err(down) => Err(down),
    }
}

// Writes a record of the same length over position n, which a walk from a place finds. None where that has another length.
fn overwrite<D: Disk>(
    head: &FileHead,
    store: &mut Store<D>,
    frame: &Frame,
    n: u32,
    value: &[u8],
    mut place: Place,
) -> Result<Option<Rewrite>, Down>
    requires before { IfSome store.old.current (λ b. IsLaidOut head.now b → CountsBefore head.now b place) }
    requires form { IsSequential head.now }
    requires placed { IsPlaced head.now store.old.disk }
    requires out { IsOut store.old.pool frame.now }
    requires value { IsRecord head.now.mrs value.now }
    requires from { 1 ≤ n }
    requires to { n ≤ head.now.count }
    ensures leads { IfOk result (λ found. IfSome found (λ w. IfSome store.old.current (Leads head.now w (page_in head.now store.new frame.now) (TakesAt head.now n (Some value.now)) (list_set n (Some value.now))))) }
    ensures none { IfOk result (λ found. IfNone found (IfSome store.old.current (λ b. TakesAt head.now n (Some value.now) b → ⊥))) }
    ensures may { IfOk result (λ found. IfSome found (MayWrite head.now)) }
    ensures state { ReadsInFrame frame.now (record store.old { disk = answered result store.old.disk }) store.new }
    ensures out { IsOut store.new.pool frame.now }
{
    match locate(head, store, frame, n, &mut place) {
        Ok(Some(spot)) => Ok(write_over(head, store, frame, spot, value)),
        Ok(None) => Ok(None),
        Err(down) => Err(down),
    }
}

// Writes a record of the same length over a slot of the bucket in a frame. None where that has another length.
fn write_over<D: Disk>(
    head: &FileHead,
    store: &mut Store<D>,
    frame: &Frame,
    spot: Spot,
    value: &[u8],
) -> Option<Rewrite>
    requires blocks { head.now.bucket ≤ 16 }
    requires out { IsOut store.old.pool frame.now }
    requires bucket { IsBucket Seq (512 * head.now.bucket) (page_in head.now store.old frame.now) }
    requires there { spot.slot < length (slots_of Seq (page_in head.now store.old frame.now)) }
    requires most { length value.now ≤ record_limit }
    ensures put { IfSome result (λ w. PutOver head.now spot.slot (slots_of Seq (page_in head.now store.old frame.now)) value.now (page_in head.now store.new frame.now)) }
    ensures rewrites { IfSome result (λ w. (w.bucket ≡ spot.bucket) × (w.used ≡ head.now.used) × (w.count ≡ head.now.count)) }
    ensures none { IfNone result (length value.now + 2 ≢ length (slot_at (slots_of Seq (page_in head.now store.old frame.now)) spot.slot)) }
    ensures state { InFrame frame.now store.old store.new }
    ensures out { IsOut store.new.pool frame.now }
{
    if !replace_slot(head, store, frame, spot.slot, value) {
        return None;
    }
    Some(Rewrite {
        bucket: spot.bucket,
        used: head.used,
        count: head.count,
    })
}

// How many buckets are used once the slots from this one on are gone.
fn used_before(spot: Spot) -> u32
    requires { spot.bucket < greatest_disk_size }
    ensures { result ≡ used_left spot.slot spot.bucket }
{
    if spot.slot == 0 && spot.bucket > 0 {
        spot.bucket
    } else {
        spot.bucket + 1
    }
}

/// Takes the positions from n on away, where a walk from a place finds n. None where the file is not laid out.
pub fn cut_off<D: Disk>(
    head: &FileHead,
    store: &mut Store<D>,
    frame: &Frame,
    n: u32,
    mut place: Place,
) -> Result<Option<Rewrite>, Down>
    requires before { IfSome store.old.current (λ b. IsLaidOut head.now b → CountsBefore head.now b place) }
    requires form { IsSequential head.now }
    requires placed { IsPlaced head.now store.old.disk }
    requires out { IsOut store.old.pool frame.now }
    requires from { 1 ≤ n }
    requires to { n ≤ head.now.count }
    ensures leads { IfOk result (λ found. IfSome found (λ w. IfSome store.old.current (Leads head.now w (page_in head.now store.new frame.now) (IsLaidOut head.now) (take (n - 1))))) }
    ensures none { IfOk result (λ found. IfNone found (IfSome store.old.current (λ b. IsLaidOut head.now b → ⊥))) }
    ensures may { IfOk result (λ found. IfSome found (MayWrite head.now)) }
    ensures state { ReadsInFrame frame.now (record store.old { disk = answered result store.old.disk }) store.new }
    ensures out { IsOut store.new.pool frame.now }
{
    match locate(head, store, frame, n, &mut place) {
        Ok(Some(spot)) => {
            keep_slots(head, store, frame, spot.slots, spot.slot);
            Ok(Some(Rewrite {
                bucket: spot.bucket,
                used: used_before(spot),
                count: n - 1,
            }))
        }
        Ok(None) => Ok(None),
        Err(down) => Err(down),
    }
}

/// Sets position n: behind the last one, over one of the same length, or the last one to none. A walk to it may begin at a place.
/// None where the file does not take that.
pub fn set_at<D: Disk>(
    head: &FileHead,
    store: &mut Store<D>,
    frame: &Frame,
    n: u32,
    value: Option<&Record>,
    place: Place,
) -> Result<Option<Rewrite>, Down>
    requires before { IfSome store.old.current (λ b. IsLaidOut head.now b → CountsBefore head.now b place) }
    requires form { IsSequential head.now }
    requires placed { IsPlaced head.now store.old.disk }
    requires out { IsOut store.old.pool frame.now }
    requires suits { Suits head.now (Number n) (option_copied value) }
    ensures leads { IfOk result (λ found. IfSome found (λ w. IfSome store.old.current (Leads head.now w (page_in head.now store.new frame.now) (TakesAt head.now n (option_copied value.entry)) (list_set n (option_copied value.entry))))) }
    ensures none { IfOk result (λ found. IfNone found (IfSome store.old.current (λ b. TakesAt head.now n (option_copied value.entry) b → ⊥))) }
    ensures may { IfOk result (λ found. IfSome found (MayWrite head.now)) }
    ensures state { ReadsInFrame frame.now (record store.old { disk = answered result store.old.disk }) store.new }
    ensures out { IsOut store.new.pool frame.now }
{
    match value {
        Some(record) => {
            if n > head.count {
                append(head, store, frame, n, record.bytes())
            } else {
                overwrite(head, store, frame, n, record.bytes(), place)
            }
        }
        None => {
            if n != head.count {
                return Ok(None);
            }
            cut_off(head, store, frame, n, place)
        }
    }
}
