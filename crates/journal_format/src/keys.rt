// Numbers of records as the keys of entries.
ghost use Rattle.std.specs.Prelude.{◌≡◌, ◌==◌, length, Some, None, if◌then◌else◌};
ghost use Rattle.std.specs.Int.{to_le_bytes, from_le_bytes, w32};
ghost use Rattle.byteorder.specs.Endian.{little_bytes, little_number};

use byteorder::{ByteOrder, LittleEndian};
use vms_base::KeyText;

/// The key of an entry on the record of this number: its four bytes, the lowest first.
pub fn number_key(number: u32) -> Option<KeyText>
    ensures { result ≡ Some (to_le_bytes w32 number) }
{
    let mut bytes = [0; 4];
    LittleEndian::write_u32(&mut bytes, number);
    KeyText::new(&bytes)
}

/// The record's number in the key of an entry. None exactly where the key has not four bytes.
pub fn key_number(key: &KeyText) -> Option<u32>
    ensures { result ≡ (if length key.now == 4 then Some (from_le_bytes w32 key.now) else None) }
{
    let bytes = key.bytes();
    if bytes.len() == 4 {
        Some(LittleEndian::read_u32(bytes))
    } else {
        None
    }
}
