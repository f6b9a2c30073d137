//! One bucket of a file, read into a frame.
ghost use Rattle.std.specs.Prelude.{◌≡◌, ◌≤◌, ◌<◌, ◌+◌, ◌-◌, ◌*◌, ℕ, true, false, Some, None, length};
ghost use Rattle.vms_base.specs.vms_model.Limits.{record_limit};
ghost use Rattle.bucket_page.specs.Pages.{slots_of, key_in, slot_at, IsBucket, IsPacked, reach, u16_at};
ghost use Rattle.change_set.specs.records_model.Slots.{bytes_before};
ghost use Rattle.std.specs.Ordering.{nat_cmp, is_lt, ordering_reverse};
ghost use Rattle.std.specs.Cmp.Lexicographic.{slice_cmp};
ghost use Rattle.indexed_file.specs.Chain.{HasKeys, kind_of, value_of};
ghost use Rattle.indexed_file.specs.Places.{IsPlace};

use bucket_page::{Page, PageKind};
use byteorder::{ByteOrder, LittleEndian};
use file_base::FileHead;
use std::cmp::Ordering;
use vms_base::{KeyText, Record};

/// The kind of an indexed file's buckets.
pub(crate) fn kind(head: &FileHead) -> PageKind
    ensures { result ≡ kind_of head.now }
{
    PageKind::Data {
        key_pos: head.key_pos,
        key_size: head.key_size,
    }
}

/// The bytes of slot i, walked to from where an earlier one begins, and where it ends.
fn slot_from<'a>(bytes: &'a [u8], head: &FileHead, first: u16, from: u16, i: u16) -> (&'a [u8], u16)
    requires packed { IsPacked (kind_of head.now) (length bytes.now) bytes.now }
    requires small { length bytes.now ≤ 8192 }
    requires there { i < length (slots_of (kind_of head.now) bytes.now) }
    requires order { first ≤ i }
    requires from { from ≡ reach (slots_of (kind_of head.now) bytes.now) first }
    ensures is { result.0.now ≡ slot_at (slots_of (kind_of head.now) bytes.now) i }
    ensures end { result.1 ≡ reach (slots_of (kind_of head.now) bytes.now) (i + 1) }
    ensures key { 4 + (head.now.key_pos + head.now.key_size) ≤ length result.0.now }
    ensures size { length result.0.now ≡ 4 + u16_at result.0.now 0 }
    ensures room { u16_at result.0.now 2 ≤ u16_at result.0.now 0 }
    ensures within { length result.0.now ≤ length bytes.now }
{
    let (at, size) = Page::place_from(bytes, kind(head), first, from, i);
    (&bytes[at as usize..at as usize + size as usize], at + size)
}

/// The bytes of slot i.
pub(crate) fn slot<'a>(bytes: &'a [u8], head: &FileHead, i: u16) -> &'a [u8]
    requires packed { IsPacked (kind_of head.now) (length bytes.now) bytes.now }
    requires small { length bytes.now ≤ 8192 }
    requires there { i < length (slots_of (kind_of head.now) bytes.now) }
    ensures is { result.now ≡ slot_at (slots_of (kind_of head.now) bytes.now) i }
    ensures key { 4 + (head.now.key_pos + head.now.key_size) ≤ length result.now }
    ensures size { length result.now ≡ 4 + u16_at result.now 0 }
    ensures room { u16_at result.now 2 ≤ u16_at result.now 0 }
    ensures within { length result.now ≤ length bytes.now }
{
    slot_from(bytes, head, 0, 16, i).0
}

/// The number of two bytes of a slot.
pub(crate) fn number_at(slot: &[u8], at: usize) -> u16
    requires { at + 2 ≤ length slot.now }
    ensures { result ≡ u16_at slot.now at }
{
    LittleEndian::read_u16(&slot[at..])
}

/// The key of a slot.
pub(crate) fn slot_key(slot: &[u8], head: &FileHead) -> Option<KeyText>
    requires form { HasKeys head.now }
    requires key { 4 + (head.now.key_pos + head.now.key_size) ≤ length slot.now }
    ensures { result ≡ Some (key_in (kind_of head.now) slot.now) }
{
    let from = 4 + head.key_pos as usize;
    KeyText::new(&slot[from..from + head.key_size as usize])
}

/// The key of a slot against another.
pub(crate) fn compare_key(slot: &[u8], head: &FileHead, key: &[u8]) -> Ordering
    requires { 4 + (head.now.key_pos + head.now.key_size) ≤ length slot.now }
    ensures is { result ≡ slice_cmp nat_cmp (key_in (kind_of head.now) slot.now) key.now }
    ensures above { bytes_before key.now (key_in (kind_of head.now) slot.now) ≡ is_lt (ordering_reverse result) }
{
    let from = 4 + head.key_pos as usize;
    slot[from..from + head.key_size as usize].cmp(key)
}

/// Where a key stands among the slots of a bucket: the number of slots with lesser keys, and whether the next has it.
pub(crate) fn find_place(bytes: &[u8], head: &FileHead, count: u16, key: &[u8]) -> (u16, bool)
    requires bucket { IsBucket (kind_of head.now) (length bytes.now) bytes.now }
    requires small { length bytes.now ≤ 8192 }
    requires counted { count ≡ length (slots_of (kind_of head.now) bytes.now) }
    ensures { IsPlace head.now key.now (slots_of (kind_of head.now) bytes.now) result.0 result.1 }
{
    let mut low = 0;
    let mut start = 16; // Where the lowest slot begins that is left.
    let mut high = count;
    while low < high {
        let mid = low + (high - low) / 2;
        let (raw, end) = slot_from(bytes, head, low, start, mid);
        match compare_key(raw, head, key) {
            Ordering::Less => {
                low = mid + 1;
                start = end;
            }
            Ordering::Equal => return (mid, true),
            Ordering::Greater => high = mid,
        }
    }
    (low, false)
}

/// The record in a slot's bytes: true where it has one.
pub(crate) fn read_record(slot: &[u8], mrs: u16, out: &mut Record) -> bool
    requires whole { 4 + u16_at slot.now 2 ≤ length slot.now }
    requires most { mrs ≤ record_limit }
    ensures some { result ≡ true → value_of mrs slot.now ≡ Some out.new }
    ensures none { result ≡ false → value_of mrs slot.now ≡ None }
{
    let size = number_at(slot, 2);
    if size == 0 || size > mrs {
        return false;
    }
    out.set(&slot[4..4 + size as usize]);
    true
}
