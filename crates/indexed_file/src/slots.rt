//! Slots of a bucket that are made, and tidied.
ghost use Rattle.std.specs.Prelude.{◌≡◌, ◌≤◌, ◌<◌, ◌+◌, ◌-◌, ◌*◌, ◌++◌, ℕ, List, Bool, true, false, [], length, take, drop, if◌then◌else◌, ◌&&◌, nat_lt};
ghost use Rattle.vms_base.specs.vms_model.Keys.{Text};
ghost use Rattle.byteorder.specs.Endian.{little_bytes};
ghost use Rattle.bucket_page.specs.Pages.{slots_of, next_of, key_in, slot_at, suits, IsPacked, Packs, u16_at, u16_bytes};
ghost use Rattle.indexed_file.specs.Chain.{HasKeys, kind_of};
ghost use Rattle.indexed_file.specs.Raws.{slot_bytes, shortened, tidied_raw, tidied_raws, one_of, TidiesSlot};

use crate::leaf::{kind, number_at, slot, slot_key};
use bucket_page::{insert_front, remove_front};
use byteorder::{ByteOrder, LittleEndian};
use change_set::Held;
use file_base::{FileHead, splice, splice_zeros};
use vms_base::Key;

// The room and the record's length, as they stand at the front of a slot.
fn sizes(room: u16, size: u16) -> [u8; 4]
    ensures { result ≡ u16_bytes room ++ u16_bytes size }
{
    let mut bytes = [0; 4];
    LittleEndian::write_u16(&mut bytes, room);
    LittleEndian::write_u16(&mut bytes[2..], size);
    bytes
}

/// Writes a slot over the first bytes: its room, its record's length, and a piece at a place of the room, which is zero
/// elsewhere.
pub(crate) fn put_slot(out: &mut [u8], room: u16, size: u16, at: u16, piece: &[u8])
    requires within { 4 + room ≤ length out.old }
    requires holds { at + length piece.now ≤ room }
    ensures { take (4 + room) out.new ≡ slot_bytes room size at piece.now }
{
    splice_zeros(out, 0, 4 + room as usize);
    splice(out, 0, &sizes(room, size));
    splice(out, 4 + at as usize, piece);
}

// Whether the key of a slot is held.
fn holds_key<H: Held>(head: &FileHead, slot: &[u8], held: &H) -> bool
    requires form { HasKeys head.now }
    requires key { 4 + (head.now.key_pos + head.now.key_size) ≤ length slot.now }
    ensures { result ≡ H.held held.now (Text (key_in (kind_of head.now) slot.now)) }
{
    match slot_key(slot, head) {
        Some(key) => held.is_held(&Key::Text(key)),
        None => true,
    }
}

// Writes a slot whose room is its record's length, and answers how many bytes it has.
fn shorten(head: &FileHead, slot: &[u8], out: &mut [u8]) -> usize
    requires form { HasKeys head.now }
    requires whole { 4 + u16_at slot.now 2 ≤ length slot.now }
    requires within { length slot.now ≤ length out.old }
    ensures slot { take result out.new ≡ shortened head.now slot.now }
    ensures size { result ≤ length out.old }
{
    let size = number_at(slot, 2);
    if (size as u32) < head.key_pos as u32 + head.key_size as u32 {
        splice(out, 0, slot);
        return slot.len();
    }
    put_slot(out, size, size, 0, &slot[4..4 + size as usize]);
    4 + size as usize
}

// Writes what tidying leaves of a slot, and answers how many bytes it has.
fn tidied<H: Held>(head: &FileHead, slot: &[u8], held: &H, out: &mut [u8]) -> usize
    requires form { HasKeys head.now }
    requires key { 4 + (head.now.key_pos + head.now.key_size) ≤ length slot.now }
    requires whole { 4 + u16_at slot.now 2 ≤ length slot.now }
    requires within { length slot.now ≤ length out.old }
    ensures slot { one_of (take result out.new) ≡ tidied_raw head.now (H.held held.now (Text (key_in (kind_of head.now) slot.now))) slot.now }
    ensures size { result ≤ length out.old }
{
    if holds_key(head, slot, held) {
        splice(out, 0, slot);
        return slot.len();
    }
    if number_at(slot, 2) == 0 {
        return 0;
    }
    shorten(head, slot, out)
}

// Tidies slot i: true where it stays.
fn tidy_slot<H: Held>(head: &FileHead, bytes: &mut [u8], size: usize, i: u16, held: &H) -> bool
    requires form { HasKeys head.now }
    requires within { size ≤ length bytes.old }
    requires small { size ≤ 8192 }
    requires packed { IsPacked (kind_of head.now) size (take size bytes.old) }
    requires there { i < length (slots_of (kind_of head.now) (take size bytes.old)) }
    ensures { TidiesSlot head.now (λ t. H.held held.now (Text t)) size i result bytes.old bytes.new }
{
    let mut short = [0; 8192];
    let long = tidied(head, slot(&bytes[..size], head, i), held, &mut short);
    remove_front(bytes, size, kind(head), i as usize);
    if long == 0 {
        return false;
    }
    insert_front(bytes, size, kind(head), i as usize, &short[..long])
}

// How much slot i moves a place among the slots: 1 where it stays before it.
fn counted(stays: bool, i: u16, place: u16) -> u16
    ensures { result ≡ (if stays && nat_lt i place then 1 else 0) }
{
    if stays && i < place { 1 } else { 0 }
}

/// Tidies all slots: absent slots of keys that are not held go, and rooms of keys that are not held become their records'
/// lengths. Answers where a place among the slots is then.
pub(crate) fn tidy<H: Held>(
    head: &FileHead,
    bytes: &mut [u8],
    size: usize,
    count: u16,
    place: u16,
    held: &H,
) -> u16
    requires form { HasKeys head.now }
    requires within { size ≤ length bytes.old }
    requires small { size ≤ 8192 }
    requires packed { IsPacked (kind_of head.now) size (take size bytes.old) }
    requires counted { count ≡ length (slots_of (kind_of head.now) (take size bytes.old)) }
    requires there { place ≤ count }
    ensures slots { Packs (kind_of head.now) size (tidied_raws head.now (λ t. H.held held.now (Text t)) (slots_of (kind_of head.now) (take size bytes.old))) (next_of (take size bytes.old)) (take size bytes.new) }
    ensures place { result ≡ length (tidied_raws head.now (λ t. H.held held.now (Text t)) (take place (slots_of (kind_of head.now) (take size bytes.old)))) }
{
    let mut moved = 0;
    let mut i = count;
    while i > 0 {
        i -= 1;
        let stays = tidy_slot(head, bytes, size, i, held);
        moved += counted(stays, i, place);
    }
    moved
}
