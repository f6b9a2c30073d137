//! Cells of a file over the blocks of its extent.
ghost use Rattle.std.specs.Prelude.{◌≡◌, ◌≤◌, ◌<◌, ◌+◌, ◌-◌, ◌*◌, ◌/◌, ◌^◌, ℕ, List, Bool, true, false, Option, Some, None, length, OnOk, OnErr, IfOk, IfSome, IfNone, option_map, unwrap_or, slice_set};
ghost use Rattle.std.specs.Option.{option_copied};
ghost use Rattle.block_disk.specs.Sizes.{content_start, greatest_disk_size};
ghost use Rattle.vms_base.specs.vms_model.Limits.{record_limit};
ghost use Rattle.change_set.specs.careful_write.Down.{answered};
ghost use Rattle.change_set.specs.careful_write.Reads.{SameButReads};
ghost use Rattle.frame_pool.specs.Pool.{IsOut};
ghost use Rattle.change_set.specs.careful_write.Sizes.{group_limit};
ghost use Rattle.file_base.specs.Bytes.{piece_at, spliced};
ghost use Rattle.change_set.specs.Buckets.{frame_of, with_frame, bucket_bytes, with_bucket, with_numbers};
ghost use Rattle.change_set.specs.Files.{IsPlaced, free_frames, fell, unstaged};
ghost use Rattle.relative_file.specs.Cells.{IsRelative, has_cell, cells_in, first_of, place_of, cell_at, cell_of, record_in, last_in, WritesCell, FindsCell, NoneFrom};

use crate::bucket::{cells, read_bucket};
use crate::cell::{first_record, read_cell, write_cell};
use block_disk::Disk;
use change_set::{Down, Store, give_frame, stage_bucket, take_frame};
use file_base::FileHead;
use frame_pool::Frame;
use vms_base::Record;

// The number of the first block of the bucket of cell n, and the cell's first byte in it.
fn cell_place(head: &FileHead, n: u32) -> (u32, usize)
    requires form { IsRelative head.now }
    requires there { has_cell head.now n ≡ true }
    requires placed { content_start ≤ head.now.start }
    requires fits { head.now.start + head.now.alloc * head.now.bucket ≤ greatest_disk_size }
    requires blocks { head.now.bucket ≤ 16 }
    requires records { head.now.mrs + 32 ≤ 512 * head.now.bucket }
    ensures first { result.0 ≡ content_start + first_of head.now n }
    ensures place { result.1 ≡ place_of head.now n }
{
    let cells = cells(head);
    let bucket = (n - 1) / cells;
    let cell = (n - 1) % cells;
    (
        head.start + bucket * head.bucket as u32,
        16 + cell as usize * (head.mrs as usize + 2),
    )
}

/// Reads the record of cell n: true where it has one. The store's frames are as before.
pub(crate) fn get_cell<D: Disk>(
    head: &FileHead,
    store: &mut Store<D>,
    n: u32,
    out: &mut Record,
) -> Result<bool, Down>
    requires form { IsRelative head.now }
    requires placed { IsPlaced head.now store.old.disk }
    requires there { has_cell head.now n ≡ true }
    requires frames { 1 ≤ free_frames store.old.pool }
    ensures found { IfOk result (λ found. found ≡ true → IfSome store.old.current (λ blocks. record_in head.now.mrs (cell_at head.now blocks n) ≡ Some out.new)) }
    ensures absent { IfOk result (λ found. found ≡ false → IfSome store.old.current (λ blocks. record_in head.now.mrs (cell_at head.now blocks n) ≡ None)) }
    ensures state { SameButReads (record store.old { disk = answered result store.old.disk }) store.new }
    ensures reads { store.new.reads ≤ store.old.reads + head.now.bucket }
{
    let (first, place) = cell_place(head, n);
    let frame = take_frame(store);
    let loaded = read_bucket(head, store, &frame, first);
    let found = read_cell(store.pool().bytes(&frame), place, head.mrs as usize, out);
    give_frame(store, frame);
    match loaded {
        Ok(()) => Ok(found),
        Err(down) => Err(down),
    }
}

// Writes a cell in a frame.
fn put_cell<D: Disk>(store: &mut Store<D>, frame: &Frame, place: usize, mrs: u16, value: &[u8])
    requires out { IsOut store.old.pool frame.now }
    requires within { place + mrs + 2 ≤ 8192 }
    requires longest { mrs ≤ record_limit }
    requires holds { length value.now ≤ mrs }
    ensures size { length (frame_of store.old.pool frame.now) ≡ 8192 }
    ensures put { store.new ≡ with_frame frame.now (spliced (frame_of store.old.pool frame.now) place (cell_of mrs value.now)) store.old }
{
    let bytes = store.pool().bytes_mut(frame);
    write_cell(bytes, place, mrs as usize, value);
}

/// Stages the bucket of cell n with this record in the cell; an absent one has no bytes.
pub(crate) fn set_cell<D: Disk>(
    head: &FileHead,
    store: &mut Store<D>,
    n: u32,
    value: &[u8],
) -> Result<(), Down>
    requires form { IsRelative head.now }
    requires placed { IsPlaced head.now store.old.disk }
    requires there { has_cell head.now n ≡ true }
    requires frames { 1 ≤ free_frames store.old.pool }
    requires holds { length value.now ≤ head.now.mrs }
    requires room { length store.old.touched + head.now.bucket ≤ group_limit }
    ensures ok { OnOk result (WritesCell head.now n value.now store.old store.new) }
    ensures err { OnErr result (SameButReads (record store.old { disk = answered result store.old.disk }) store.new) }
    ensures whole { IfSome store.old.current (λ blocks. length blocks + content_start ≡ store.old.disk.size) }
{
    let (first, place) = cell_place(head, n);
    let frame = take_frame(store);
    match read_bucket(head, store, &frame, first) {
        Ok(()) => {
            put_cell(store, &frame, place, head.mrs, value);
            stage_bucket(store, &frame, first, head.bucket);
            give_frame(store, frame);
            Ok(())
        }
        Err(down) => {
            give_frame(store, frame);
            Err(down)
        }
    }
}

// The last number whose cell is in the bucket of cell n.
fn last_number(head: &FileHead, n: u32) -> u32
    requires records { head.now.mrs + 32 ≤ 512 * head.now.bucket }
    requires one { 1 ≤ cells_in head.now }
    requires from { 1 ≤ n }
    requires to { n ≤ head.now.mrn }
    ensures { result ≡ last_in head.now n }
{
    let cells = cells(head);
    let behind = cells - 1 - (n - 1) % cells;
    head.mrn - (head.mrn - n).saturating_sub(behind)
}

// The first cell in the bucket of cell n that has a record, from cell n on.
fn next_in_bucket<D: Disk>(
    head: &FileHead,
    store: &mut Store<D>,
    n: u32,
    out: &mut Record,
) -> Result<Option<u32>, Down>
    requires form { IsRelative head.now }
    requires placed { IsPlaced head.now store.old.disk }
    requires there { has_cell head.now n ≡ true }
    requires frames { 1 ≤ free_frames store.old.pool }
    ensures found { IfOk result (λ found. IfSome found (λ m. IfSome store.old.current (FindsCell head.now (n - 1) m out.new))) }
    ensures none { IfOk result (λ found. IfNone found (IfSome store.old.current (λ b. NoneFrom head.now b (n - 1) (last_in head.now n)))) }
    ensures there { IfOk result (λ found. IfSome found (λ m. (n ≤ m) × (m ≤ head.now.mrn))) }
    ensures state { SameButReads (record store.old { disk = answered result store.old.disk }) store.new }
{
    let (first, _) = cell_place(head, n);
    let from = (n - 1) % cells(head);
    let to = from + (last_number(head, n) - n) + 1;
    let frame = take_frame(store);
    let loaded = read_bucket(head, store, &frame, first);
    let found = first_record(
        store.pool().bytes(&frame),
        head.mrs as usize,
        from as usize,
        to as usize,
        out,
    );
    give_frame(store, frame);
    match loaded {
        Ok(()) => match found {
            Some(k) => Ok(Some(n + (k as u32 - from))),
            None => Ok(None),
        },
        Err(down) => Err(down),
    }
}

/// The first cell behind one that has a record. Each bucket is read once.
pub(crate) fn next_cell<D: Disk>(
    head: &FileHead,
    store: &mut Store<D>,
    after: u32,
    out: &mut Record,
) -> Result<Option<u32>, Down>
    requires form { IsRelative head.now }
    requires placed { IsPlaced head.now store.old.disk }
    requires frames { 1 ≤ free_frames store.old.pool }
    ensures found { IfOk result (λ found. IfSome found (λ n. IfSome store.old.current (FindsCell head.now after n out.new))) }
    ensures none { IfOk result (λ found. IfNone found (IfSome store.old.current (λ b. NoneFrom head.now b after head.now.mrn))) }
    ensures there { IfOk result (λ found. IfSome found (λ n. (after + 1 ≤ n) × (n ≤ head.now.mrn))) }
    ensures state { SameButReads (record store.old { disk = answered result store.old.disk }) store.new }
{
    let mut n = after;
    while n < head.mrn {
        match next_in_bucket(head, store, n + 1, out) {
            Ok(Some(m)) => return Ok(Some(m)),
            Ok(None) => {}
            Err(down) => return Err(down),
        }
        n = last_number(head, n + 1);
    }
    Ok(None)
}
