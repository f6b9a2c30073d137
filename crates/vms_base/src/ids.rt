// Ids of transactions, branches and branch identifiers.
ghost use Rattle.std.specs.Prelude.{◌≡◌, ℕ, List, ◌↔◌, Some};
ghost use Rattle.std.specs.Option.{option_map};
ghost use Rattle.byteorder.specs.Endian.{little_bytes, little_number};
ghost use Rattle.vms_model.specs.Ids.{Id as IdSaid, IsId, id_bytes};
ghost use Rattle.vms_model.specs.Serials.{id_number, id_said};
ghost use Rattle.vms_base.specs.Ids.{id_of, until_zero};

use crate::names::NodeName;
use crate::text::{part_at, read_digits};
use byteorder::{ByteOrder, LittleEndian};

/// A node, the number of its boot, and a number that was drawn in that boot.
#[derive(Clone, Copy, Debug, Default, PartialEq, Eq, Drop)]
pub struct Id {
    pub node: NodeName,
    pub boot: u32,
    pub seq: u32,
}

/// The id of a transaction, drawn at its coordinator.
#[derive(Clone, Copy, Debug, Default, PartialEq, Eq, Drop)]
pub struct Tid(pub Id);

/// The id of a branch, drawn at its node. A transaction's first branch has the transaction's id.
#[derive(Clone, Copy, Debug, Default, PartialEq, Eq, Drop)]
pub struct Serial(pub Id);

/// The id by which a coordinator authorises a branch before it has a serial.
#[derive(Clone, Copy, Debug, Default, PartialEq, Eq, Drop)]
pub struct Bid(pub Id);

// A number in four bytes.
fn number_bytes(n: u32) -> [u8; 4]
    ensures { result ≡ little_bytes 4 n }
{
    let mut bytes = [0; 4];
    LittleEndian::write_u32(&mut bytes, n);
    bytes
}

/// Writes an id in 16 bytes: the node's name with zeros up to 8 bytes, then boot and sequence, low bytes first.
pub fn put_id(id: &Id, out: &mut [u8; 16])
    ensures bytes { out.new ≡ id_bytes (id_of id.now) }
    ensures id { IsId (id_of id.now) }
{
    let n = id.node.padded();
    let b = number_bytes(id.boot);
    let s = number_bytes(id.seq);
    *out = [
        n[0], n[1], n[2], n[3], n[4], n[5], n[6], n[7], b[0], b[1], b[2], b[3], s[0], s[1], s[2],
        s[3],
    ];
}

// The bytes before the first zero.
fn before_zero(bytes: &[u8]) -> &[u8]
    ensures { result.now ≡ until_zero bytes.now }
{
    for (i, b) in bytes.iter().enumerate() {
        if *b == 0 {
            return &bytes[..i];
        }
    }
    bytes
}

/// The id that is written in 16 bytes. None exactly where no id is written so.
pub fn get_id(bytes: &[u8; 16]) -> Option<Id>
    ensures { (id : IdSaid) → (option_map id_of result ≡ Some id) ↔ (IsId id × (id_bytes id ≡ bytes.now)) }
{
    let node = NodeName::new(before_zero(bytes.as_slice()))?;
    let (_, rest) = bytes.split_at(8);
    let boot = LittleEndian::read_u32(rest);
    let seq = LittleEndian::read_u32(&rest[4..]);
    let id = Id { node, boot, seq };
    let mut again = [0; 16];
    put_id(&id, &mut again);
    if again == *bytes { Some(id) } else { None }
}

// A number from 1 on, whose first digit is not a zero.
fn read_id_number(text: &[u8]) -> Option<u32>
    ensures { result ≡ id_number text.now }
{
    match text {
        [] | [b'0', ..] => None,
        _ => {
            let n = read_digits(u64::from(u32::MAX), text)?;
            Some(n as u32)
        }
    }
}

/// The id of a text: a node in either case of letters, a boot and a number of it, with dots between them; both numbers are at least 1 and have no leading
/// zero. None exactly where the text has not this form.
pub fn read_id(text: &[u8]) -> Option<Id>
    ensures { option_map id_of result ≡ id_said text.now }
{
    let (node, rest) = part_at(b'.', text)?;
    let (boot, seq) = part_at(b'.', rest)?;
    let node = NodeName::new(node)?;
    let boot = read_id_number(boot)?;
    let seq = read_id_number(seq)?;
    Some(Id { node, boot, seq })
}
