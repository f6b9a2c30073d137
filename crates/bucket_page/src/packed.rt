//! Slots of a bucket, over its bytes.
ghost use Rattle.std.specs.Prelude.{◌↔◌, ◌≡◌, ◌≤◌, ◌<◌, ◌+◌, ◌-◌, ◌*◌, ◌++◌, ℕ, true, false, [], length, take, drop};
ghost use Rattle.bucket_page.specs.Pages.{u16_at, slots_of, next_of, joined, IsPacked, reach, inserted, suits, Packs, removed, replaced, slot_at};

use crate::bytes::{close_at, copy_piece, front_len, open_at, put_counts, read_u16};
use crate::kind::PageKind;
use file_base::{splice, splice_zeros};

// Whether a place is behind all slots.
fn is_behind(bytes: &[u8], i: usize) -> bool
    requires { 4 ≤ length bytes.now }
    ensures { result ≡ true → i ≡ u16_at bytes.now 2 }
{
    i == read_u16(bytes, 2) as usize
}

/// Where slot i begins, walked to from where an earlier one does.
pub fn slot_from(bytes: &[u8], kind: PageKind, first: usize, from: usize, i: usize) -> usize
    requires packed { IsPacked kind (length bytes.now) bytes.now }
    requires there { i ≤ length (slots_of kind bytes.now) }
    requires order { first ≤ i }
    requires from { from ≡ reach (slots_of kind bytes.now) first }
    requires small { length bytes.now ≤ 8192 }
    ensures { result ≡ reach (slots_of kind bytes.now) i }
{
    let mut at = from;
    for k in first..i {
        at += front_len(bytes, at, kind);
    }
    at
}

/// Where slot i begins; at their number, where the slots end.
pub fn slot_start(bytes: &[u8], kind: PageKind, i: usize) -> usize
    requires packed { IsPacked kind (length bytes.now) bytes.now }
    requires there { i ≤ length (slots_of kind bytes.now) }
    requires small { length bytes.now ≤ 8192 }
    ensures { result ≡ reach (slots_of kind bytes.now) i }
{
    // Where all slots end the front tells.
    if is_behind(bytes, i) {
        return 16 + read_u16(bytes, 4) as usize;
    }
    slot_from(bytes, kind, 0, 16, i)
}

/// Puts a slot in at place i. False exactly where it does not fit; then nothing changes.
pub(crate) fn insert_slot(bytes: &mut [u8], kind: PageKind, i: usize, slot: &[u8]) -> bool
    requires packed { IsPacked kind (length bytes.old) bytes.old }
    requires there { i ≤ length (slots_of kind bytes.old) }
    requires small { length bytes.old ≤ 8192 }
    requires slot { suits kind slot.now ≡ true }
    ensures yes { result ≡ true → Packs kind (length bytes.old) (inserted (slots_of kind bytes.old) i slot.now) (next_of bytes.old) bytes.new }
    ensures not_yet { result ≡ false → bytes.new ≡ bytes.old }
    ensures full { (result ≡ false) ↔ (length bytes.old < 16 + length (joined (slots_of kind bytes.old)) + length slot.now) }
{
    let count = read_u16(bytes, 2) as usize;
    let used = read_u16(bytes, 4) as usize;
    let size = slot.len();
    if size > bytes.len() || 16 + used + size > bytes.len() {
        return false;
    }
    let at = slot_start(bytes, kind, i);
    open_at(bytes, at, 16 + used, slot);
    put_counts(bytes, count + 1, used + size);
    true
}

/// Takes slot i out.
pub(crate) fn remove_slot(bytes: &mut [u8], kind: PageKind, i: usize)
    requires packed { IsPacked kind (length bytes.old) bytes.old }
    requires there { i < length (slots_of kind bytes.old) }
    requires small { length bytes.old ≤ 8192 }
    ensures { Packs kind (length bytes.old) (removed (slots_of kind bytes.old) i) (next_of bytes.old) bytes.new }
{
    let count = read_u16(bytes, 2) as usize;
    let used = read_u16(bytes, 4) as usize;
    let at = slot_start(bytes, kind, i);
    let size = front_len(bytes, at, kind);
    close_at(bytes, at, size, 16 + used);
    put_counts(bytes, count - 1, used - size);
}

/// Puts another slot of the same length in the place of slot i.
pub(crate) fn replace_slot(bytes: &mut [u8], kind: PageKind, i: usize, slot: &[u8])
    requires packed { IsPacked kind (length bytes.old) bytes.old }
    requires there { i < length (slots_of kind bytes.old) }
    requires small { length bytes.old ≤ 8192 }
    requires slot { suits kind slot.now ≡ true }
    requires same { length slot.now ≡ length (slot_at (slots_of kind bytes.old) i) }
    ensures { Packs kind (length bytes.old) (replaced (slots_of kind bytes.old) i slot.now) (next_of bytes.old) bytes.new }
{
    let at = slot_start(bytes, kind, i);
    splice(bytes, at, slot);
}

/// Parts a bucket: the slots of `low` from place `at` on go to `high`, which was empty.
pub(crate) fn split_slots(low: &mut [u8], high: &mut [u8], kind: PageKind, at: usize)
    requires packed { IsPacked kind (length low.old) low.old }
    requires empty { Packs kind (length low.old) [] (next_of high.old) high.old }
    requires same { length high.old ≡ length low.old }
    requires there { at ≤ length (slots_of kind low.old) }
    requires small { length low.old ≤ 8192 }
    ensures low { Packs kind (length low.old) (take at (slots_of kind low.old)) (next_of low.old) low.new }
    ensures high { Packs kind (length low.old) (drop at (slots_of kind low.old)) (next_of high.old) high.new }
{
    let count = read_u16(low, 2) as usize;
    let used = read_u16(low, 4) as usize;
    let from = slot_start(low, kind, at);
    copy_piece(high, low, from, 16 + used);
    put_counts(high, count - at, 16 + used - from);
    splice_zeros(low, from, 16 + used - from);
    put_counts(low, at, from - 16);
}
