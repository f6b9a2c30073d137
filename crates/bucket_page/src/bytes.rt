//! Numbers in the bytes of a bucket, and pieces moved among them.
ghost use Rattle.std.specs.Prelude.{◌↔◌, ◌≡◌, ◌≤◌, ◌<◌, ◌+◌, ◌-◌, ◌*◌, ◌++◌, ℕ, IsTrue, EachIndex, slice_index, length, take, drop};
ghost use Rattle.file_base.specs.Bytes.{piece_at, spliced};
ghost use Rattle.byteorder.specs.Endian.{little_bytes, little_number};
ghost use Rattle.bucket_page.specs.Moves.{opened, closed};
ghost use Rattle.bucket_page.specs.Pages.{u16_at, u32_at, u16_bytes, u32_bytes, front_size, header, tag_of};

use crate::kind::PageKind;
use byteorder::{ByteOrder, LittleEndian};
use file_base::{splice, splice_zeros};

/// The number of two bytes.
pub(crate) fn read_u16(bytes: &[u8], at: usize) -> u16
    requires { at + 2 ≤ length bytes.now }
    ensures { result ≡ u16_at bytes.now at }
{
    LittleEndian::read_u16(&bytes[at..])
}

/// The number of four bytes.
pub(crate) fn read_u32(bytes: &[u8], at: usize) -> u32
    requires { at + 4 ≤ length bytes.now }
    ensures { result ≡ u32_at bytes.now at }
{
    LittleEndian::read_u32(&bytes[at..])
}

// Whether so few bytes are as many zeros. Two lists of bytes are compared many bytes at a time, and a test of each byte takes them one by one.
fn are_zeros(bytes: &[u8]) -> bool
    requires { length bytes.now ≤ 512 }
    ensures { IsTrue result ↔ EachIndex bytes.now (λ k. slice_index bytes.now k ≡ 0) }
{
    let zeros = [0; 512];
    bytes == &zeros[..bytes.len()]
}

/// Whether all bytes are zero.
pub(crate) fn is_zero(bytes: &[u8]) -> bool
    ensures { IsTrue result ↔ EachIndex bytes.now (λ k. slice_index bytes.now k ≡ 0) }
{
    let mut at = 0;
    while bytes.len() - at > 512 {
        if !are_zeros(&bytes[at..at + 512]) {
            return false;
        }
        at += 512;
    }
    are_zeros(&bytes[at..])
}

/// The length of the slot at a place, as its first bytes tell it.
pub(crate) fn front_len(bytes: &[u8], at: usize, kind: PageKind) -> usize
    requires { at + 2 ≤ length bytes.now }
    ensures { result ≡ front_size kind (drop at bytes.now) }
{
    match kind {
        PageKind::Seq => 2 + read_u16(bytes, at) as usize,
        PageKind::Rel { mrs } => mrs as usize + 2,
        PageKind::Data { .. } => 4 + read_u16(bytes, at) as usize,
        PageKind::Index { key_size } => key_size as usize + 4,
    }
}

// The number of a kind.
fn tag(kind: PageKind) -> u8
    ensures { result ≡ tag_of kind }
{
    match kind {
        PageKind::Seq => 1,
        PageKind::Rel { .. } => 2,
        PageKind::Data { .. } => 3,
        PageKind::Index { .. } => 4,
    }
}

/// The header of a bucket.
pub(crate) fn front(kind: PageKind, count: u16, used: u16, next: u32) -> [u8; 16]
    ensures { result ≡ header (tag_of kind) count used next }
{
    let mut bytes = [0; 16];
    bytes[0] = tag(kind);
    LittleEndian::write_u16(&mut bytes[2..], count);
    LittleEndian::write_u16(&mut bytes[4..], used);
    LittleEndian::write_u32(&mut bytes[8..], next);
    bytes
}

/// Writes the number of slots and of their bytes.
pub(crate) fn put_counts(bytes: &mut [u8], count: usize, used: usize)
    requires count { count < 65536 }
    requires used { used < 65536 }
    requires within { 6 ≤ length bytes.old }
    ensures { bytes.new ≡ spliced bytes.old 2 (u16_bytes count ++ u16_bytes used) }
{
    LittleEndian::write_u16(&mut bytes[2..], count as u16);
    LittleEndian::write_u16(&mut bytes[4..], used as u16);
}

/// Writes the number of the next bucket.
pub(crate) fn put_next(bytes: &mut [u8], next: u32)
    requires { 12 ≤ length bytes.old }
    ensures { bytes.new ≡ spliced bytes.old 8 (u32_bytes next) }
{
    LittleEndian::write_u32(&mut bytes[8..], next);
}

/// Makes room for a piece and writes it, and moves what stood from there to `end` behind it.
pub(crate) fn open_at(bytes: &mut [u8], at: usize, end: usize, piece: &[u8])
    requires order { at ≤ end }
    requires within { end + length piece.now ≤ length bytes.old }
    ensures { bytes.new ≡ opened bytes.old at end piece.now }
{
    bytes.copy_within(at..end, at + piece.len());
    splice(bytes, at, piece);
}

/// Takes so many bytes out at a place, and moves what stood behind them up to `end` there.
pub(crate) fn close_at(bytes: &mut [u8], at: usize, size: usize, end: usize)
    requires order { at + size ≤ end }
    requires within { end ≤ length bytes.old }
    ensures { bytes.new ≡ closed bytes.old at size end }
{
    bytes.copy_within(at + size..end, at);
    splice_zeros(bytes, end - size, size);
}

/// Copies a piece behind the header of another bucket.
pub(crate) fn copy_piece(high: &mut [u8], low: &[u8], from: usize, end: usize)
    requires order { from ≤ end }
    requires within { end ≤ length low.now }
    requires room { 16 + (end - from) ≤ length high.old }
    ensures { high.new ≡ spliced high.old 16 (take (end - from) (drop from low.now)) }
{
    splice(high, 16, &low[from..end]);
}
