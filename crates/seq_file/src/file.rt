//! Positions of a file over a store.
ghost use Rattle.std.specs.Prelude.{◌≡◌, ◌≤◌, ◌<◌, ◌+◌, ◌-◌, ◌*◌, ℕ, List, true, false, Some, None, length, take, OnOk, OnErr, IfOk, IfSome, IfNone, slice_set};
ghost use Rattle.std.specs.Option.{option_copied};
ghost use Rattle.change_set.specs.careful_write.Down.{answered};
ghost use Rattle.change_set.specs.careful_write.Reads.{SameButReads};
ghost use Rattle.frame_pool.specs.Pool.{IsOut};
ghost use Rattle.file_base.specs.vms_model.Keys.{Number};
ghost use Rattle.change_set.specs.Files.{IsPlaced, free_frames};
ghost use Rattle.seq_file.specs.Records.{list_set, record_at};
ghost use Rattle.seq_file.specs.Layout.{records_in, asks, head_with, IsRecord, CountsBefore, IsSequential, IsLaidOut, Stands, Suits, TakesAt};
ghost use Rattle.seq_file.specs.Frames.{Changes, MayWrite, Written, ReadsInFrame};

use crate::bucket::{load_slots, read_record, slots_end};
use crate::rewrite::{cut_off, set_at};
use crate::spot::Rewrite;
use crate::walk::locate;
use change_set::{Disk, Down, Place, Store, give_frame, stage_bucket, take_frame};
use file_base::{FileHead, Record};
use frame_pool::Frame;

// Reads the record of position n by way of a frame. False only where the file is not laid out: a slot whose length is
// none of its records is read as none.
fn read_in_frame<D: Disk>(
    head: &FileHead,
    store: &mut Store<D>,
    frame: &Frame,
    n: u32,
    place: &mut Place,
    out: &mut Record,
) -> Result<bool, Down>
    requires form { IsSequential head.now }
    requires placed { IsPlaced head.now store.old.disk }
    requires lent { IsOut store.old.pool frame.now }
    requires from { 1 ≤ n }
    requires to { n ≤ head.now.count }
    requires before { IfSome store.old.current (λ b. IsLaidOut head.now b → CountsBefore head.now b place.old) }
    ensures found { IfOk result (λ found. found ≡ true → IfSome store.old.current (λ b. IsLaidOut head.now b → record_at (records_in head.now b) n ≡ Some out.new)) }
    ensures absent { IfOk result (λ found. found ≡ false → IfSome store.old.current (λ b. IsLaidOut head.now b → ⊥)) }
    ensures stands { IfOk result (λ found. found ≡ true → IfSome store.old.current (Stands head.now out.new)) }
    ensures before { IfOk result (λ found. IfSome store.old.current (λ b. IsLaidOut head.now b → CountsBefore head.now b place.new)) }
    ensures record { IfOk result (λ found. found ≡ true → IsRecord head.now.mrs out.new) }
    ensures state { ReadsInFrame frame.now (record store.old { disk = answered result store.old.disk }) store.new }
    ensures reads { store.new.reads ≤ store.old.reads + head.now.used * head.now.bucket }
    ensures lent { IsOut store.new.pool frame.now }
{
    match locate(head, store, frame, n, place) {
        Ok(Some(spot)) => { Ok(read_record(head, store, frame, spot.slot, out)) }
        Ok(None) => Ok(false),
        Err(down) => Err(down),
    }
}

/// Reads the record of position n, which a walk from a place finds. False only where the file is not laid out: a slot whose length is none of its records
/// is read as none.
pub fn read_position<D: Disk>(
    head: &FileHead,
    store: &mut Store<D>,
    n: u32,
    place: &mut Place,
    out: &mut Record,
) -> Result<bool, Down>
    requires form { IsSequential head.now }
    requires placed { IsPlaced head.now store.old.disk }
    requires frames { 1 ≤ free_frames store.old.pool }
    requires from { 1 ≤ n }
    requires to { n ≤ head.now.count }
    requires before { IfSome store.old.current (λ b. IsLaidOut head.now b → CountsBefore head.now b place.old) }
    ensures found { IfOk result (λ found. found ≡ true → IfSome store.old.current (λ b. IsLaidOut head.now b → record_at (records_in head.now b) n ≡ Some out.new)) }
    ensures absent { IfOk result (λ found. found ≡ false → IfSome store.old.current (λ b. IsLaidOut head.now b → ⊥)) }
    ensures stands { IfOk result (λ found. found ≡ true → IfSome store.old.current (Stands head.now out.new)) }
    ensures before { IfOk result (λ found. IfSome store.old.current (λ b. IsLaidOut head.now b → CountsBefore head.now b place.new)) }
    ensures record { IfOk result (λ found. found ≡ true → IsRecord head.now.mrs out.new) }
    ensures state { SameButReads (record store.old { disk = answered result store.old.disk }) store.new }
    ensures reads { store.new.reads ≤ store.old.reads + head.now.used * head.now.bucket }
{
    let frame = take_frame(store);
    let found = read_in_frame(head, store, &frame, n, place, out);
    give_frame(store, frame);
    found
}

// How many free buckets a record more asks for, by way of a frame.
fn need_in_frame<D: Disk>(
    head: &FileHead,
    store: &mut Store<D>,
    frame: &Frame,
    size: u16,
) -> Result<u32, Down>
    requires form { IsSequential head.now }
    requires placed { IsPlaced head.now store.old.disk }
    requires lent { IsOut store.old.pool frame.now }
    ensures need { IfOk result (λ free. IfSome store.old.current (λ b. IsLaidOut head.now b → free ≡ asks head.now b size)) }
    ensures state { ReadsInFrame frame.now (record store.old { disk = answered result store.old.disk }) store.new }
    ensures lent { IsOut store.new.pool frame.now }
{
    match load_slots(head, store, frame, head.used - 1) {
        Ok(slots) => {
            let end = slots_end(head, store, frame, slots);
            if end as u32 + size as u32 + 2 <= 512 * head.bucket as u32 {
                return Ok(0);
            }
            Ok(1)
        }
        Err(down) => Err(down),
    }
}

/// How many free buckets a record more of this length asks for. Only the last used bucket is read.
pub fn need_of<D: Disk>(head: &FileHead, store: &mut Store<D>, size: u16) -> Result<u32, Down>
    requires form { IsSequential head.now }
    requires placed { IsPlaced head.now store.old.disk }
    requires frames { 1 ≤ free_frames store.old.pool }
    ensures need { IfOk result (λ free. IfSome store.old.current (λ b. IsLaidOut head.now b → free ≡ asks head.now b size)) }
    ensures state { SameButReads (record store.old { disk = answered result store.old.disk }) store.new }
{
    let frame = take_frame(store);
    let need = need_in_frame(head, store, &frame, size);
    give_frame(store, frame);
    need
}

// Stages the bucket in a frame as the one that is to be written, where there is one, and gives the frame back. The head
// tells what the file has then.
fn write_back<D: Disk>(
    head: &mut FileHead,
    store: &mut Store<D>,
    frame: Frame,
    rewrite: Option<Rewrite>,
)
    requires placed { IsPlaced head.old store.old.disk }
    requires may { IfSome rewrite (MayWrite head.old) }
    requires lent { IsOut store.old.pool frame }
    requires room { length store.old.touched ≤ 480 }
    ensures written { IfSome rewrite (λ w. Written head.old w frame store.old store.new) }
    ensures tells { IfSome rewrite (λ w. head.new ≡ head_with head.old w.used w.count) }
    ensures given { IfNone rewrite (store.new ≡ record store.old { pool = slice_set store.old.pool frame None }) }
    ensures same { IfNone rewrite (head.new ≡ head.old) }
{
    if let Some(w) = rewrite {
        let first = head.start + w.bucket * head.bucket as u32;
        stage_bucket(store, &frame, first, head.bucket);
        head.used = w.used;
        head.count = w.count;
    }
    give_frame(store, frame);
}

/// Sets position n, to which a walk may begin at a place. Blocks of one bucket are staged.
pub fn set_position<D: Disk>(
    head: &mut FileHead,
    store: &mut Store<D>,
    n: u32,
    value: Option<&Record>,
    place: Place,
) -> Result<(), Down>
    requires form { IsSequential head.old }
    requires before { IfSome store.old.current (λ b. IsLaidOut head.old b → CountsBefore head.old b place) }
    requires placed { IsPlaced head.old store.old.disk }
    requires frames { 1 ≤ free_frames store.old.pool }
    requires room { length store.old.touched ≤ 480 }
    requires suits { Suits head.old (Number n) (option_copied value) }
    ensures done { OnOk result (Changes head.old head.new (TakesAt head.old n (option_copied value.entry)) (list_set n (option_copied value.entry)) store.old store.new) }
    ensures head { OnErr result (head.new ≡ head.old) }
    ensures down { OnErr result (SameButReads (record store.old { disk = answered result store.old.disk }) store.new) }
{
    let frame = take_frame(store);
    match set_at(head, store, &frame, n, value, place) {
        Ok(rewrite) => {
            write_back(head, store, frame, rewrite);
            Ok(())
        }
        Err(down) => {
            give_frame(store, frame);
            Err(down)
        }
    }
}

/// Takes the positions from n on away, to which a walk may begin at a place. Blocks of one bucket are staged.
pub fn cut_positions<D: Disk>(
    head: &mut FileHead,
    store: &mut Store<D>,
    n: u32,
    place: Place,
) -> Result<(), Down>
    requires form { IsSequential head.old }
    requires before { IfSome store.old.current (λ b. IsLaidOut head.old b → CountsBefore head.old b place) }
    requires placed { IsPlaced head.old store.old.disk }
    requires frames { 1 ≤ free_frames store.old.pool }
    requires room { length store.old.touched ≤ 480 }
    requires from { 1 ≤ n }
    requires to { n ≤ head.old.count }
    ensures done { OnOk result (Changes head.old head.new (IsLaidOut head.old) (take (n - 1)) store.old store.new) }
    ensures head { OnErr result (head.new ≡ head.old) }
    ensures down { OnErr result (SameButReads (record store.old { disk = answered result store.old.disk }) store.new) }
{
    let frame = take_frame(store);
    match cut_off(head, store, &frame, n, place) {
        Ok(rewrite) => {
            write_back(head, store, frame, rewrite);
            Ok(())
        }
        Err(down) => {
            give_frame(store, frame);
            Err(down)
        }
    }
}
