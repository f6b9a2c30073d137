//! The cells of a bucket of a relative file.
ghost use Rattle.std.specs.Prelude.{◌≡◌, ◌≤◌, ◌<◌, ◌+◌, ◌-◌, ◌*◌, ◌/◌, ◌%◌, ◌∷◌, [], ℕ, List, length, take, drop, map, IfSome, Some, OnSome, IfNone};
ghost use Rattle.byteorder.specs.Endian.{little_bytes};
ghost use Rattle.vms_model.specs.Limits.{record_limit};
ghost use Rattle.file_base.specs.Bytes.{spliced};
ghost use Rattle.bucket_page.specs.Pages.{u16_bytes};
ghost use Rattle.relative_file.specs.Cells.{cells_in, cell_of, front_of, empty_bucket};
ghost use Rattle.vms_base.specs.Keys.{key_of};
ghost use Rattle.load_pages.specs.Given.{keyed};
ghost use Rattle.load_laws.specs.Cells.{number_in, values_behind, AllTo, AllBehind, Climbs, AllShort};
ghost use Rattle.load_laws.specs.Pages.{HasCells};

use crate::records::KeyedRecord;
use byteorder::{ByteOrder, LittleEndian};
use file_base::{FileHead, splice, splice_zeros};
use vms_base::Key;

/// How many cells a bucket has.
pub fn cells_of(head: &FileHead) -> u32
    requires { head.now.mrs + 32 ≤ 512 * head.now.bucket }
    ensures { result ≡ cells_in head.now }
{
    (512 * head.bucket as u32 - 16) / (head.mrs as u32 + 2)
}

// The header of a bucket.
fn front(head: &FileHead) -> [u8; 16]
    requires blocks { head.now.bucket ≤ 16 }
    requires records { head.now.mrs + 32 ≤ 512 * head.now.bucket }
    ensures { result ≡ front_of head.now }
{
    let count = cells_of(head);
    let used = count * (head.mrs as u32 + 2);
    let mut bytes = [2, 0, 0, 0, 0, 0, 0, 0, 255, 255, 255, 255, 0, 0, 0, 0];
    LittleEndian::write_u16(&mut bytes[2..], count as u16);
    LittleEndian::write_u16(&mut bytes[4..], used as u16);
    bytes
}

// Writes a bucket of absent cells over the front of some bytes.
fn fill_empty(head: &FileHead, bytes: &mut [u8])
    requires long { length bytes.old ≡ 8192 }
    requires one { 1 ≤ head.now.bucket }
    requires blocks { head.now.bucket ≤ 16 }
    requires records { head.now.mrs + 32 ≤ 512 * head.now.bucket }
    ensures { take (512 * head.now.bucket) bytes.new ≡ empty_bucket head.now }
{
    splice_zeros(bytes, 0, 512 * head.bucket as usize);
    splice(bytes, 0, &front(head));
}

// The length of a cell's record, as it stands at the front of the cell.
fn size_bytes(size: u16) -> [u8; 2]
    ensures { result ≡ size % 256 ∷ size / 256 ∷ [] }
{
    let mut bytes = [0; 2];
    LittleEndian::write_u16(&mut bytes, size);
    bytes
}

// Writes a cell with this record, and zeros behind it.
fn write_cell(bytes: &mut [u8], at: usize, mrs: usize, value: &[u8])
    requires within { at + mrs + 2 ≤ length bytes.old }
    requires longest { mrs ≤ record_limit }
    requires holds { length value.now ≤ mrs }
    ensures { bytes.new ≡ spliced bytes.old at (cell_of mrs value.now) }
{
    let size = value.len();
    splice(bytes, at, &size_bytes(size as u16));
    splice(bytes, at + 2, value);
    splice_zeros(bytes, at + 2 + size, mrs - size);
}

// The number of a key; 0 where it is none.
fn number(key: &Key) -> u32
    ensures { result ≡ number_in (key_of key.now) }
{
    match key {
        Key::Number(n) => *n,
        Key::Text(_) => 0,
        Key::End => 0,
    }
}

/// Writes a bucket with cells of the numbers behind `first`. The records from one on that have these numbers stand there; it answers the number of the first
/// that has a greater one.
pub fn fill_cells(
    head: &FileHead,
    bytes: &mut [u8],
    records: &[KeyedRecord],
    from: usize,
    first: u32,
) -> usize
    requires long { length bytes.old ≡ 8192 }
    requires one { 1 ≤ head.now.bucket }
    requires blocks { head.now.bucket ≤ 16 }
    requires records { head.now.mrs + 32 ≤ 512 * head.now.bucket }
    requires most { first ≤ 33554432 }
    requires short { AllShort head.now.mrs (map keyed records.now) }
    requires there { from ≤ length records.now }
    requires passed { AllTo first (take from (map keyed records.now)) }
    requires climbs { Climbs first (drop from (map keyed records.now)) }
    ensures cells { HasCells head.now (values_behind (map keyed records.now) first) (take (512 * head.now.bucket) bytes.new) }
    ensures to { result ≤ length records.now }
    ensures passed { AllTo (first + cells_in head.now) (take result (map keyed records.now)) }
    ensures climbs { Climbs (first + cells_in head.now) (drop result (map keyed records.now)) }
{
    let mrs = head.mrs as usize;
    let count = cells_of(head);
    fill_empty(head, bytes);
    let mut at = from;
    for k in 0..count {
        if at < records.len() && number(&records[at].key) == first + k + 1 {
            write_cell(bytes, 16 + k as usize * (mrs + 2), mrs, &records[at].bytes);
            at += 1;
        }
    }
    at
}
