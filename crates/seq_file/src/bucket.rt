//! One bucket of a sequential file, in a frame of a store.
ghost use Rattle.std.specs.Prelude.{◌↔◌, ◌≡◌, ◌≢◌, ◌≤◌, ◌<◌, ◌+◌, ◌-◌, ◌*◌, ◌++◌, ℕ, List, true, false, [], ◌∷◌, length, take, OnOk, OnErr, IfOk, IfSome, IfNone, slice_set};
ghost use Rattle.file_base.specs.vms_model.Limits.{record_limit};
ghost use Rattle.change_set.specs.careful_write.Down.{answered};
ghost use Rattle.frame_pool.specs.Pool.{IsOut};
ghost use Rattle.change_set.specs.Files.{IsPlaced};
ghost use Rattle.byteorder.specs.Endian.{little_bytes};
ghost use Rattle.bucket_page.specs.declared.kind.PageKind.TheVariants.{Seq};
ghost use Rattle.bucket_page.specs.Pages.{slots_of, slot_at, joined, IsBucket};
ghost use Rattle.seq_file.specs.Layout.{slot_of, record_of, IsRecord};
ghost use Rattle.seq_file.specs.Frames.{page_in, HasSlots, InFrame, Reads, Settles, ReadsInFrame};

use bucket_page::{Page, PageKind};
use byteorder::{ByteOrder, LittleEndian};
use change_set::{Disk, Down, Store, load_bucket};
use file_base::{FileHead, Record, splice};
use frame_pool::Frame;

// The greatest length of a record's slot.
const SLOT: usize = 8162;

// The size of a bucket in bytes.
fn bucket_size(head: &FileHead) -> u16
    requires { head.now.bucket ≤ 16 }
    ensures { result ≡ 512 * head.now.bucket }
{
    512 * head.bucket
}

/// Loads bucket i into a frame: how many slots it has. Where no bucket of records stands there, it is read as empty.
pub fn load_slots<D: Disk>(
    head: &FileHead,
    store: &mut Store<D>,
    frame: &Frame,
    i: u32,
) -> Result<u16, Down>
    requires placed { IsPlaced head.now store.old.disk }
    requires there { i < head.now.alloc }
    requires out { IsOut store.old.pool frame.now }
    ensures state { ReadsInFrame frame.now (record store.old { disk = answered result store.old.disk }) store.new }
    ensures reads { store.new.reads ≤ store.old.reads + head.now.bucket }
    ensures out { IsOut store.new.pool frame.now }
    ensures bucket { OnOk result (IsBucket Seq (512 * head.now.bucket) (page_in head.now store.new frame.now)) }
    ensures number { IfOk result (λ n. n ≡ length (slots_of Seq (page_in head.now store.new frame.now))) }
    ensures read { OnOk result (IfSome store.old.current (Reads head.now i (page_in head.now store.new frame.now))) }
{
    match load_bucket(
        store,
        frame,
        head.start + i * head.bucket as u32,
        head.bucket,
    ) {
        Ok(()) => Ok(settle_page(head, store, frame)),
        Err(down) => Err(down),
    }
}

// How many slots the bucket in a frame has. Where none of records stands there, it becomes one without records.
fn settle_page<D: Disk>(head: &FileHead, store: &mut Store<D>, frame: &Frame) -> u16
    requires blocks { head.now.bucket ≤ 16 }
    requires one { 1 ≤ head.now.bucket }
    requires out { IsOut store.old.pool frame.now }
    ensures bucket { IsBucket Seq (512 * head.now.bucket) (page_in head.now store.new frame.now) }
    ensures number { result ≡ length (slots_of Seq (page_in head.now store.new frame.now)) }
    ensures settles { Settles (512 * head.now.bucket) (page_in head.now store.old frame.now) (page_in head.now store.new frame.now) }
    ensures state { InFrame frame.now store.old store.new }
    ensures out { IsOut store.new.pool frame.now }
{
    match count_slots(head, store, frame) {
        Some(slots) => slots,
        None => {
            clear_page(head, store, frame);
            0
        }
    }
}

// How many slots the bucket in a frame has. None exactly where no bucket of records stands there.
fn count_slots<D: Disk>(head: &FileHead, store: &mut Store<D>, frame: &Frame) -> Option<u16>
    requires blocks { head.now.bucket ≤ 16 }
    requires out { IsOut store.old.pool frame.now }
    ensures same { store.new ≡ store.old }
    ensures bucket { IfSome result (λ n. IsBucket Seq (512 * head.now.bucket) (page_in head.now store.old frame.now)) }
    ensures number { IfSome result (λ n. n ≡ length (slots_of Seq (page_in head.now store.old frame.now))) }
    ensures none { IfNone result (IsBucket Seq (512 * head.now.bucket) (page_in head.now store.old frame.now) → ⊥) }
{
    let size = bucket_size(head) as usize;
    let bytes = store.pool().bytes(frame);
    Page::slots(&bytes[..size], PageKind::Seq)
}

/// Makes the bucket in a frame one without records.
pub fn clear_page<D: Disk>(head: &FileHead, store: &mut Store<D>, frame: &Frame)
    requires blocks { head.now.bucket ≤ 16 }
    requires one { 1 ≤ head.now.bucket }
    requires out { IsOut store.old.pool frame.now }
    ensures page { HasSlots head.now (page_in head.now store.new frame.now) [] }
    ensures state { InFrame frame.now store.old store.new }
    ensures out { IsOut store.new.pool frame.now }
{
    let size = bucket_size(head);
    Page::clear(store.pool(), frame, size, PageKind::Seq, u32::MAX);
}

// Reads the record of slot i of a bucket. False exactly where it has no byte or more than the file's records may have.
fn read_slot(bucket: &[u8], i: u16, mrs: u16, out: &mut Record) -> bool
    requires bucket { IsBucket Seq (length bucket.now) bucket.now }
    requires there { i < length (slots_of Seq bucket.now) }
    requires small { length bucket.now ≤ 8192 }
    requires most { mrs ≤ record_limit }
    ensures found { (result ≡ true) ↔ IsRecord mrs (record_of (slot_at (slots_of Seq bucket.now) i)) }
    ensures read { result ≡ true → out.new ≡ record_of (slot_at (slots_of Seq bucket.now) i) }
{
    let (first, size) = Page::place(bucket, PageKind::Seq, i);
    let from = first as usize + 2;
    let end = first as usize + size as usize;
    if end <= from || end - from > mrs as usize {
        return false;
    }
    out.set(&bucket[from..end]);
    true
}

/// Reads the record of slot i of the bucket in a frame. False exactly where it has no byte or more than the file's
/// records may have.
pub fn read_record<D: Disk>(
    head: &FileHead,
    store: &mut Store<D>,
    frame: &Frame,
    i: u16,
    out: &mut Record,
) -> bool
    requires blocks { head.now.bucket ≤ 16 }
    requires most { head.now.mrs ≤ record_limit }
    requires out { IsOut store.old.pool frame.now }
    requires bucket { IsBucket Seq (512 * head.now.bucket) (page_in head.now store.old frame.now) }
    requires there { i < length (slots_of Seq (page_in head.now store.old frame.now)) }
    ensures same { store.new ≡ store.old }
    ensures found { (result ≡ true) ↔ IsRecord head.now.mrs (record_of (slot_at (slots_of Seq (page_in head.now store.old frame.now)) i)) }
    ensures read { result ≡ true → out.new ≡ record_of (slot_at (slots_of Seq (page_in head.now store.old frame.now)) i) }
{
    let size = bucket_size(head) as usize;
    let bytes = store.pool().bytes(frame);
    read_slot(&bytes[..size], i, head.mrs, out)
}

// Writes the slot of a record.
fn write_slot(slot: &mut [u8], value: &[u8])
    requires within { length value.now + 2 ≤ length slot.old }
    requires most { length value.now ≤ record_limit }
    ensures { take (length value.now + 2) slot.new ≡ slot_of value.now }
{
    LittleEndian::write_u16(slot, value.len() as u16);
    splice(slot, 2, value);
}

/// Puts a record behind the slots of the bucket in a frame, whose number is told. False exactly where it does not fit;
/// then nothing changes.
pub fn push_slot<D: Disk>(
    head: &FileHead,
    store: &mut Store<D>,
    frame: &Frame,
    count: u16,
    value: &[u8],
) -> bool
    requires blocks { head.now.bucket ≤ 16 }
    requires out { IsOut store.old.pool frame.now }
    requires bucket { IsBucket Seq (512 * head.now.bucket) (page_in head.now store.old frame.now) }
    requires number { count ≡ length (slots_of Seq (page_in head.now store.old frame.now)) }
    requires most { length value.now ≤ record_limit }
    ensures page { result ≡ true → HasSlots head.now (page_in head.now store.new frame.now) (slots_of Seq (page_in head.now store.old frame.now) ++ slot_of value.now ∷ []) }
    ensures same { result ≡ false → store.new ≡ store.old }
    ensures full { (result ≡ false) ↔ (512 * head.now.bucket < 16 + length (joined (slots_of Seq (page_in head.now store.old frame.now))) + (length value.now + 2)) }
    ensures state { InFrame frame.now store.old store.new }
    ensures out { IsOut store.new.pool frame.now }
{
    let mut slot = [0; SLOT];
    write_slot(&mut slot, value);
    let size = bucket_size(head);
    Page::insert(
        store.pool(),
        frame,
        size,
        PageKind::Seq,
        count,
        &slot[..value.len() + 2],
    )
}

// Where the slots of a bucket end, whose number is told.
fn end_of(bucket: &[u8], count: u16) -> u16
    requires bucket { IsBucket Seq (length bucket.now) bucket.now }
    requires number { count ≡ length (slots_of Seq bucket.now) }
    requires small { length bucket.now ≤ 8192 }
    ensures { result ≡ 16 + length (joined (slots_of Seq bucket.now)) }
{
    if count == 0 {
        return 16;
    }
    let (first, size) = Page::place(bucket, PageKind::Seq, count - 1);
    first + size
}

/// Where the slots of the bucket in a frame end, whose number is told.
pub fn slots_end<D: Disk>(head: &FileHead, store: &mut Store<D>, frame: &Frame, count: u16) -> u16
    requires blocks { head.now.bucket ≤ 16 }
    requires out { IsOut store.old.pool frame.now }
    requires bucket { IsBucket Seq (512 * head.now.bucket) (page_in head.now store.old frame.now) }
    requires number { count ≡ length (slots_of Seq (page_in head.now store.old frame.now)) }
    ensures same { store.new ≡ store.old }
    ensures end { result ≡ 16 + length (joined (slots_of Seq (page_in head.now store.old frame.now))) }
{
    let size = bucket_size(head) as usize;
    let bytes = store.pool().bytes(frame);
    end_of(&bytes[..size], count)
}

// The length of slot i of the bucket in a frame.
fn slot_size<D: Disk>(head: &FileHead, store: &mut Store<D>, frame: &Frame, i: u16) -> u16
    requires blocks { head.now.bucket ≤ 16 }
    requires out { IsOut store.old.pool frame.now }
    requires bucket { IsBucket Seq (512 * head.now.bucket) (page_in head.now store.old frame.now) }
    requires there { i < length (slots_of Seq (page_in head.now store.old frame.now)) }
    ensures same { store.new ≡ store.old }
    ensures size { result ≡ length (slot_at (slots_of Seq (page_in head.now store.old frame.now)) i) }
{
    let size = bucket_size(head) as usize;
    let bytes = store.pool().bytes(frame);
    Page::place(&bytes[..size], PageKind::Seq, i).1
}

/// Writes a record of the same length over slot i of the bucket in a frame. False exactly where the length differs; then
/// nothing changes.
pub fn replace_slot<D: Disk>(
    head: &FileHead,
    store: &mut Store<D>,
    frame: &Frame,
    i: u16,
    value: &[u8],
) -> bool
    requires blocks { head.now.bucket ≤ 16 }
    requires out { IsOut store.old.pool frame.now }
    requires bucket { IsBucket Seq (512 * head.now.bucket) (page_in head.now store.old frame.now) }
    requires there { i < length (slots_of Seq (page_in head.now store.old frame.now)) }
    requires most { length value.now ≤ record_limit }
    ensures page { result ≡ true → HasSlots head.now (page_in head.now store.new frame.now) (slice_set (slots_of Seq (page_in head.now store.old frame.now)) i (slot_of value.now)) }
    ensures fits { result ≡ true → length value.now + 2 ≡ length (slot_at (slots_of Seq (page_in head.now store.old frame.now)) i) }
    ensures same { result ≡ false → store.new ≡ store.old }
    ensures other { result ≡ false → length value.now + 2 ≢ length (slot_at (slots_of Seq (page_in head.now store.old frame.now)) i) }
    ensures state { InFrame frame.now store.old store.new }
    ensures out { IsOut store.new.pool frame.now }
{
    if slot_size(head, store, frame, i) as usize != value.len() + 2 {
        return false;
    }
    let mut slot = [0; SLOT];
    write_slot(&mut slot, value);
    let size = bucket_size(head);
    Page::replace(
        store.pool(),
        frame,
        size,
        PageKind::Seq,
        i,
        &slot[..value.len() + 2],
    );
    true
}

// Takes the last slot of the bucket in a frame out, which is slot i.
fn remove_last<D: Disk>(head: &FileHead, store: &mut Store<D>, frame: &Frame, i: u16)
    requires blocks { head.now.bucket ≤ 16 }
    requires out { IsOut store.old.pool frame.now }
    requires bucket { IsBucket Seq (512 * head.now.bucket) (page_in head.now store.old frame.now) }
    requires last { length (slots_of Seq (page_in head.now store.old frame.now)) ≡ i + 1 }
    ensures page { HasSlots head.now (page_in head.now store.new frame.now) (take i (slots_of Seq (page_in head.now store.old frame.now))) }
    ensures state { InFrame frame.now store.old store.new }
    ensures out { IsOut store.new.pool frame.now }
{
    let size = bucket_size(head);
    Page::remove(store.pool(), frame, size, PageKind::Seq, i);
}

/// Takes the slots of the bucket in a frame out from place `keep` on; their number is told.
pub fn keep_slots<D: Disk>(
    head: &FileHead,
    store: &mut Store<D>,
    frame: &Frame,
    count: u16,
    keep: u16,
)
    requires blocks { head.now.bucket ≤ 16 }
    requires out { IsOut store.old.pool frame.now }
    requires bucket { IsBucket Seq (512 * head.now.bucket) (page_in head.now store.old frame.now) }
    requires number { count ≡ length (slots_of Seq (page_in head.now store.old frame.now)) }
    requires few { keep ≤ count }
    ensures page { HasSlots head.now (page_in head.now store.new frame.now) (take keep (slots_of Seq (page_in head.now store.old frame.now))) }
    ensures state { InFrame frame.now store.old store.new }
    ensures out { IsOut store.new.pool frame.now }
{
    let mut left = count;
    while left > keep {
        left -= 1;
        remove_last(head, store, frame, left);
    }
}
