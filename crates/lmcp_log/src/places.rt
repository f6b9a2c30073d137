//! Fields of a slot's block, and its places for serials and managers, each of sixteen bytes.
ghost use Rattle.std.specs.Prelude.{◌≡◌, ◌≤◌, ◌+◌, ◌*◌, ℕ, List, [], ◌∷◌, length, map, Some};
ghost use Rattle.std.specs.List.{concat};
ghost use Rattle.std.specs.Option.{option_map};
ghost use Rattle.vms_base.specs.vms_model.Names.{label_named};
ghost use Rattle.vms_base.specs.vms_model.Ids.{Id as IdSaid, IsId, id_bytes, padded};
ghost use Rattle.vms_base.specs.vms_model.Limits.{bid_limit};
ghost use Rattle.vms_base.specs.Ids.{id_of, serial_of, until_zero};
ghost use Rattle.file_base.specs.Bytes.{piece_at};
ghost use Rattle.volume_format.specs.Layout.{spliced, laid, number_8 as number_8_at};
ghost use Rattle.lmcp_log.specs.Slot.{name_bytes, AllIds, AllNames};

use file_base::splice;
use vms_base::{Id, RmList, RmName, Serial, SerialList, get_id, put_id};

/// Writes a piece over the bytes of a block at a place.
#[tactic(auto, unfolding(volume_format::specs::Layout::spliced))]
pub(crate) fn write(block: &mut [u8; 512], at: usize, piece: &[u8])
    requires { at + length piece.now ≤ 512 }
    ensures { block.new ≡ spliced block.old at piece.now }
{
    splice(block.as_mut_slice(), at, piece);
}

/// Writes a number in one byte.
pub(crate) fn write_8(block: &mut [u8; 512], at: usize, n: u8)
    requires { at + 1 ≤ 512 }
    ensures { block.new ≡ laid (number_8_at at n ∷ []) block.old }
{
    write(block, at, &[n]);
}

/// The number in one byte.
pub(crate) fn number_8(block: &[u8; 512], at: usize) -> u8
    requires { at + 1 ≤ 512 }
    ensures { (n : ℕ) → piece_at block.now at 1 ≡ n ∷ [] → result ≡ n }
{
    block[at]
}

/// An id in sixteen bytes.
pub(crate) fn id_16(id: &Id) -> [u8; 16]
    ensures bytes { result ≡ id_bytes (id_of id.now) }
    ensures id { IsId (id_of id.now) }
{
    let mut bytes = [0; 16];
    put_id(id, &mut bytes);
    bytes
}

// A manager's name in sixteen bytes, with zeros behind it.
fn name_16(rm: &RmName) -> [u8; 16]
    ensures bytes { result ≡ name_bytes rm.now }
    ensures name { label_named rm.now ≡ Some rm.now }
{
    let mut bytes = [0; 16];
    splice(bytes.as_mut_slice(), 0, rm.bytes());
    bytes
}

/// The serials in fifteen places.
pub(crate) fn serial_places(serials: &SerialList) -> [u8; 240]
    ensures bytes { result ≡ padded 240 (concat (map id_bytes (map serial_of serials.now))) }
    ensures ids { AllIds (map serial_of serials.now) }
    ensures few { length serials.now ≤ bid_limit }
{
    let mut places = [0; 240];
    for (i, serial) in serials.items().iter().enumerate() {
        splice(places.as_mut_slice(), 16 * i, &id_16(&serial.0));
    }
    places
}

/// The managers in eight places.
pub(crate) fn manager_places(rms: &RmList) -> [u8; 128]
    ensures bytes { result ≡ padded 128 (concat (map name_bytes rms.now)) }
    ensures names { AllNames rms.now }
    ensures few { length rms.now ≤ 8 }
{
    let mut places = [0; 128];
    for (i, rm) in rms.items().iter().enumerate() {
        splice(places.as_mut_slice(), 16 * i, &name_16(rm));
    }
    places
}

// Sixteen bytes.
#[tactic(auto, unfolding(volume_format::specs::Layout::spliced))]
fn bytes_16(block: &[u8; 512], at: usize) -> [u8; 16]
    requires { at + 16 ≤ 512 }
    ensures { result ≡ piece_at block.now at 16 }
{
    let mut bytes = [0; 16];
    splice(bytes.as_mut_slice(), 0, &block[at..at + 16]);
    bytes
}

/// The id that stands in sixteen bytes.
pub(crate) fn id_at(block: &[u8; 512], at: usize) -> Option<Id>
    requires { at + 16 ≤ 512 }
    ensures { (id : IdSaid) → IsId id → piece_at block.now at 16 ≡ id_bytes id → option_map id_of result ≡ Some id }
{
    get_id(&bytes_16(block, at))
}

// The bytes before the first zero.
fn before_zero(bytes: &[u8]) -> &[u8]
    ensures { result.now ≡ until_zero bytes.now }
{
    for (i, b) in bytes.iter().enumerate() {
        if *b == 0 {
            return &bytes[..i];
        }
    }
    bytes
}

// The manager whose name stands in sixteen bytes, with zeros behind it.
fn name_at(block: &[u8; 512], at: usize) -> Option<RmName>
    requires { at + 16 ≤ 512 }
    ensures { (name : List ℕ) → label_named name ≡ Some name → piece_at block.now at 16 ≡ name_bytes name → result ≡ Some name }
{
    RmName::new(before_zero(&bytes_16(block, at)))
}

/// The serials that stand in the first places of a block.
pub(crate) fn serials_at(block: &[u8; 512], count: u8) -> Option<SerialList>
    ensures { (ss : List IdSaid) → AllIds ss → length ss ≤ bid_limit → length ss ≡ count → piece_at block.now 40 240 ≡ padded 240 (concat (map id_bytes ss))
        → option_map (map serial_of) result ≡ Some ss }
{
    if count > 15 {
        return None;
    }
    let mut serials = SerialList::new();
    for i in 0..usize::from(count) {
        match id_at(block, 40 + 16 * i) {
            Some(id) => serials.push(Serial(id)),
            None => return None,
        }
    }
    Some(serials)
}

/// The managers that stand in the first places of a block.
pub(crate) fn managers_at(block: &[u8; 512], count: u8) -> Option<RmList>
    ensures { (xs : List (List ℕ)) → AllNames xs → length xs ≤ 8 → length xs ≡ count → piece_at block.now 280 128 ≡ padded 128 (concat (map name_bytes xs))
        → result ≡ Some xs }
{
    if count > 8 {
        return None;
    }
    let mut rms = RmList::new();
    for i in 0..usize::from(count) {
        match name_at(block, 280 + 16 * i) {
            Some(rm) => rms.push(rm),
            None => return None,
        }
    }
    Some(rms)
}
