//! A bucket of a file: a header, and cells behind it.
ghost use Rattle.std.specs.Prelude.{◌↔◌, ◌≡◌, ◌≤◌, ◌+◌, ◌-◌, ◌*◌, List, IsTrue, Some, OnOk, IfSome, length, take};
ghost use Rattle.block_disk.specs.Sizes.{content_start};
ghost use Rattle.change_set.specs.careful_write.Down.{answered};
ghost use Rattle.change_set.specs.careful_write.Reads.{SameButReads};
ghost use Rattle.frame_pool.specs.Pool.{IsOut};
ghost use Rattle.change_set.specs.Buckets.{frame_of, with_frame, LiesInHome};
ghost use Rattle.byteorder.specs.Endian.{little_bytes};
ghost use Rattle.relative_file.specs.Cells.{cells_in, front_of, empty_bucket, as_read, bucket_at};

use block_disk::Disk;
use byteorder::{ByteOrder, LittleEndian};
use change_set::{Down, Store, load_bucket};
use file_base::{FileHead, splice, splice_zeros};
use frame_pool::Frame;

/// How many cells a bucket has.
pub(crate) fn cells(head: &FileHead) -> u32
    requires { head.now.mrs + 32 ≤ 512 * head.now.bucket }
    ensures { result ≡ cells_in head.now }
{
    (512 * head.bucket as u32 - 16) / (head.mrs as u32 + 2)
}

// The header of a bucket.
fn front(head: &FileHead) -> [u8; 16]
    requires blocks { head.now.bucket ≤ 16 }
    requires records { head.now.mrs + 32 ≤ 512 * head.now.bucket }
    ensures { result ≡ front_of head.now }
{
    let count = cells(head);
    let used = count * (head.mrs as u32 + 2);
    let mut bytes = [2, 0, 0, 0, 0, 0, 0, 0, 255, 255, 255, 255, 0, 0, 0, 0];
    LittleEndian::write_u16(&mut bytes[2..], count as u16);
    LittleEndian::write_u16(&mut bytes[4..], used as u16);
    bytes
}

/// Writes a bucket of absent cells over the front of some bytes.
pub(crate) fn fill_empty(head: &FileHead, bytes: &mut [u8])
    requires long { length bytes.old ≡ 8192 }
    requires one { 1 ≤ head.now.bucket }
    requires blocks { head.now.bucket ≤ 16 }
    requires records { head.now.mrs + 32 ≤ 512 * head.now.bucket }
    ensures { take (512 * head.now.bucket) bytes.new ≡ empty_bucket head.now }
{
    splice_zeros(bytes, 0, 512 * head.bucket as usize);
    splice(bytes, 0, &front(head));
}

// Whether the bytes begin with the header of a bucket of the file.
fn has_front(head: &FileHead, bytes: &[u8]) -> bool
    requires long { 16 ≤ length bytes.now }
    requires blocks { head.now.bucket ≤ 16 }
    requires records { head.now.mrs + 32 ≤ 512 * head.now.bucket }
    ensures { IsTrue result ↔ take 16 bytes.now ≡ front_of head.now }
{
    bytes[..16] == front(head)[..]
}

// Makes the bucket at the front of some bytes one of absent cells where it does not begin with the file's header.
fn mend(head: &FileHead, bytes: &mut [u8])
    requires long { length bytes.old ≡ 8192 }
    requires one { 1 ≤ head.now.bucket }
    requires blocks { head.now.bucket ≤ 16 }
    requires records { head.now.mrs + 32 ≤ 512 * head.now.bucket }
    ensures { take (512 * head.now.bucket) bytes.new ≡ as_read head.now (take (512 * head.now.bucket) bytes.old) }
{
    if !has_front(head, bytes) {
        fill_empty(head, bytes);
    }
}

// The same in a frame.
fn mend_frame<D: Disk>(head: &FileHead, store: &mut Store<D>, frame: &Frame)
    requires out { IsOut store.old.pool frame.now }
    requires one { 1 ≤ head.now.bucket }
    requires blocks { head.now.bucket ≤ 16 }
    requires records { head.now.mrs + 32 ≤ 512 * head.now.bucket }
    ensures put { store.new ≡ with_frame frame.now (frame_of store.new.pool frame.now) store.old }
    ensures front { take (512 * head.now.bucket) (frame_of store.new.pool frame.now) ≡ as_read head.now (take (512 * head.now.bucket) (frame_of store.old.pool frame.now)) }
{
    let bytes = store.pool().bytes_mut(frame);
    mend(head, bytes);
}

/// Reads the bucket from block `first` on into the front of a frame. Where it does not begin with the file's header, it
/// is read as one of absent cells. After an error the frame may have any bytes.
pub(crate) fn read_bucket<D: Disk>(
    head: &FileHead,
    store: &mut Store<D>,
    frame: &Frame,
    first: u32,
) -> Result<(), Down>
    requires out { IsOut store.old.pool frame.now }
    requires in_home { LiesInHome store.old.disk first head.now.bucket }
    requires one { 1 ≤ head.now.bucket }
    requires blocks { head.now.bucket ≤ 16 }
    requires records { head.now.mrs + 32 ≤ 512 * head.now.bucket }
    ensures state { SameButReads (with_frame frame.now (frame_of store.new.pool frame.now) (record store.old { disk = answered result store.old.disk })) store.new }
    ensures reads { store.new.reads ≤ store.old.reads + head.now.bucket }
    ensures out { IsOut store.new.pool frame.now }
    ensures read { OnOk result (IfSome store.old.current (λ blocks. take (512 * head.now.bucket) (frame_of store.new.pool frame.now) ≡ bucket_at head.now blocks (first - content_start))) }
{
    match load_bucket(store, frame, first, head.bucket) {
        Ok(()) => {
            mend_frame(head, store, frame);
            Ok(())
        }
        Err(down) => Err(down),
    }
}
