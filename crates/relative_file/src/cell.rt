//! A cell: the record's length, and room for the longest record.
ghost use Rattle.std.specs.Prelude.{◌≡◌, ◌≤◌, ◌<◌, ◌+◌, ◌*◌, ◌/◌, ◌%◌, ℕ, [], ◌∷◌, true, false, Some, None, IfSome, IfNone, length};
ghost use Rattle.byteorder.specs.Endian.{little_bytes, little_number};
ghost use Rattle.vms_base.specs.vms_model.Limits.{record_limit};
ghost use Rattle.file_base.specs.Bytes.{piece_at, spliced};
ghost use Rattle.relative_file.specs.Cells.{record_in, cell_of, FirstIn, NoneIn};

use byteorder::{ByteOrder, LittleEndian};
use file_base::{splice, splice_zeros};
use vms_base::Record;

/// The record of a cell, where it has one.
pub(crate) fn read_cell(bytes: &[u8], at: usize, mrs: usize, out: &mut Record) -> bool
    requires within { at + mrs + 2 ≤ length bytes.now }
    requires longest { mrs ≤ record_limit }
    ensures some { result ≡ true → record_in mrs (piece_at bytes.now at (mrs + 2)) ≡ Some out.new }
    ensures none { result ≡ false → record_in mrs (piece_at bytes.now at (mrs + 2)) ≡ None }
{
    let size = LittleEndian::read_u16(&bytes[at..]) as usize;
    if size == 0 || size > mrs {
        return false;
    }
    out.set(&bytes[at + 2..at + 2 + size]);
    true
}

/// The first cell of a bucket that has a record, from cell `from` on and up to below cell `to`.
pub(crate) fn first_record(
    bytes: &[u8],
    mrs: usize,
    from: usize,
    to: usize,
    out: &mut Record,
) -> Option<usize>
    requires within { 16 + to * (mrs + 2) ≤ length bytes.now }
    requires small { length bytes.now ≤ 8192 }
    requires longest { mrs ≤ record_limit }
    ensures found { IfSome result (λ k. FirstIn mrs bytes.now from to k out.new) }
    ensures none { IfNone result (NoneIn mrs bytes.now from to) }
{
    for k in from..to {
        if read_cell(bytes, 16 + k * (mrs + 2), mrs, out) {
            return Some(k);
        }
    }
    None
}

// The length of a cell's record, as it stands at the front of the cell.
fn size_bytes(size: u16) -> [u8; 2]
    ensures { result ≡ size % 256 ∷ size / 256 ∷ [] }
{
    let mut bytes = [0; 2];
    LittleEndian::write_u16(&mut bytes, size);
    bytes
}

/// Writes a cell with this record, and zeros behind it; an absent one has no bytes.
pub(crate) fn write_cell(bytes: &mut [u8], at: usize, mrs: usize, value: &[u8])
    requires within { at + mrs + 2 ≤ length bytes.old }
    requires longest { mrs ≤ record_limit }
    requires holds { length value.now ≤ mrs }
    ensures { bytes.new ≡ spliced bytes.old at (cell_of mrs value.now) }
{
    let size = value.len();
    splice(bytes, at, &size_bytes(size as u16));
    splice(bytes, at + 2, value);
    splice_zeros(bytes, at + 2 + size, mrs - size);
}
