//! Fields read from a block and written into one.
ghost use Rattle.std.specs.Prelude.{◌≡◌, ◌<◌, ◌≤◌, ◌+◌, ◌^◌, ℕ, List, [], ◌∷◌, length, Some};
ghost use Rattle.std.specs.Int.{to_le_bytes, w16, w32, w64};
ghost use Rattle.std.specs.Option.{option_map};
ghost use Rattle.file_base.specs.vms_model.Names.{node_named, file_named};
ghost use Rattle.file_base.specs.vms_model.Ids.{IsId, id_bytes, padded};
ghost use Rattle.file_base.specs.vms_base.declared.ids.Id.{Id as IdSaid};
ghost use Rattle.file_base.specs.vms_base.Ids.{id_of, until_zero};
ghost use Rattle.file_base.specs.Bytes.{piece_at};
ghost use Rattle.byteorder.specs.Endian.{little_bytes, little_number};
ghost use Rattle.volume_format.specs.Layout.{spliced, laid, number_8 as number_8_at, number_16 as number_16_at, number_32 as number_32_at, number_64 as number_64_at};

use byteorder::{ByteOrder, LittleEndian};
use file_base::{FileName, Id, NodeName, get_id, splice};

/// Writes a piece over the bytes of a block at a place.
#[tactic(auto, unfolding(crate::specs::Layout::spliced))]
pub(crate) fn write(block: &mut [u8; 512], at: usize, piece: &[u8])
    requires { at + length piece.now ≤ 512 }
    ensures { block.new ≡ spliced block.old at piece.now }
{
    splice(block.as_mut_slice(), at, piece);
}

// So many bytes from a place on.
pub(crate) fn piece(bytes: &[u8], at: usize, count: usize) -> &[u8]
    requires { at + count ≤ length bytes.now }
    ensures { result.now ≡ piece_at bytes.now at count }
{
    &bytes[at..at + count]
}

/// Writes a number in one byte.
pub(crate) fn write_8(block: &mut [u8; 512], at: usize, n: u8)
    requires { at + 1 ≤ 512 }
    ensures { block.new ≡ laid (number_8_at at n ∷ []) block.old }
{
    write(block, at, &[n]);
}

/// Writes a number in two bytes.
pub(crate) fn write_16(block: &mut [u8; 512], at: usize, n: u16)
    requires { at + 2 ≤ 512 }
    ensures { block.new ≡ laid (number_16_at at n ∷ []) block.old }
{
    let mut bytes = [0; 2];
    LittleEndian::write_u16(&mut bytes, n);
    write(block, at, &bytes);
}

/// Writes a number in four bytes.
pub(crate) fn write_32(block: &mut [u8; 512], at: usize, n: u32)
    requires { at + 4 ≤ 512 }
    ensures { block.new ≡ laid (number_32_at at n ∷ []) block.old }
{
    let mut bytes = [0; 4];
    LittleEndian::write_u32(&mut bytes, n);
    write(block, at, &bytes);
}

/// Writes a number in eight bytes.
pub(crate) fn write_64(block: &mut [u8; 512], at: usize, n: u64)
    requires { at + 8 ≤ 512 }
    ensures { block.new ≡ laid (number_64_at at n ∷ []) block.old }
{
    let mut bytes = [0; 8];
    LittleEndian::write_u64(&mut bytes, n);
    write(block, at, &bytes);
}

/// The number in one byte.
pub(crate) fn number_8(block: &[u8; 512], at: usize) -> u8
    requires { at + 1 ≤ 512 }
    ensures { (n : ℕ) → piece_at block.now at 1 ≡ n ∷ [] → result ≡ n }
{
    block[at]
}

/// The number in two bytes.
pub(crate) fn number_16(block: &[u8; 512], at: usize) -> u16
    requires { at + 2 ≤ 512 }
    ensures { (n : ℕ) → n < 2 ^ 16 → piece_at block.now at 2 ≡ to_le_bytes w16 n → result ≡ n }
{
    LittleEndian::read_u16(piece(block.as_slice(), at, 2))
}

/// The number in four bytes.
pub(crate) fn number_32(block: &[u8; 512], at: usize) -> u32
    requires { at + 4 ≤ 512 }
    ensures { (n : ℕ) → n < 2 ^ 32 → piece_at block.now at 4 ≡ to_le_bytes w32 n → result ≡ n }
{
    LittleEndian::read_u32(piece(block.as_slice(), at, 4))
}

/// The number in eight bytes.
pub(crate) fn number_64(block: &[u8; 512], at: usize) -> u64
    requires { at + 8 ≤ 512 }
    ensures value { (n : ℕ) → n < 2 ^ 64 → piece_at block.now at 8 ≡ to_le_bytes w64 n → result ≡ n }
    ensures bytes { piece_at block.now at 8 ≡ to_le_bytes w64 result }
{
    u64::from_le_bytes([
        block[at],
        block[at + 1],
        block[at + 2],
        block[at + 3],
        block[at + 4],
        block[at + 5],
        block[at + 6],
        block[at + 7],
    ])
}

// The bytes before the first zero.
fn before_zero(bytes: &[u8]) -> &[u8]
    ensures { result.now ≡ until_zero bytes.now }
{
    for (i, b) in bytes.iter().enumerate() {
        if *b == 0 {
            return &bytes[..i];
        }
    }
    bytes
}

/// The node whose name stands in eight bytes, with zeros behind it.
pub(crate) fn node_at(block: &[u8; 512], at: usize) -> Option<NodeName>
    requires { at + 8 ≤ 512 }
    ensures { (name : List ℕ) → node_named name ≡ Some name → piece_at block.now at 8 ≡ padded 8 name → result ≡ Some name }
{
    NodeName::new(before_zero(piece(block.as_slice(), at, 8)))
}

/// The file whose name stands in forty bytes, with zeros behind it.
pub(crate) fn file_at(block: &[u8; 512], at: usize) -> Option<FileName>
    requires { at + 40 ≤ 512 }
    ensures { (name : List ℕ) → file_named name ≡ Some name → piece_at block.now at 40 ≡ padded 40 name → result ≡ Some name }
{
    FileName::new(before_zero(piece(block.as_slice(), at, 40)))
}

/// A file's name in forty bytes, with zeros behind it.
#[tactic(auto, using(crate::proofs::Splices::spliced_zeros))]
pub(crate) fn padded_40(name: &FileName) -> [u8; 40]
    ensures value { result ≡ padded 40 name.now }
    ensures name { file_named name.now ≡ Some name.now }
{
    let mut all = [0; 40];
    splice(all.as_mut_slice(), 0, name.bytes());
    all
}

/// A file's name has at most 39 bytes.
pub(crate) fn name_len(name: &FileName) -> u8
    ensures { result ≡ length name.now }
{
    name.bytes().len() as u8
}

// Sixteen bytes.
#[tactic(auto, unfolding(crate::specs::Layout::spliced))]
fn bytes_16(block: &[u8; 512], at: usize) -> [u8; 16]
    requires { at + 16 ≤ 512 }
    ensures { result ≡ piece_at block.now at 16 }
{
    let mut bytes = [0; 16];
    splice(bytes.as_mut_slice(), 0, piece(block.as_slice(), at, 16));
    bytes
}

/// The id that stands in sixteen bytes.
pub(crate) fn id_at(block: &[u8; 512], at: usize) -> Option<Id>
    requires { at + 16 ≤ 512 }
    ensures { (id : IdSaid) → IsId (id_of id) → piece_at block.now at 16 ≡ id_bytes (id_of id) → result ≡ Some id }
{
    get_id(&bytes_16(block, at))
}
