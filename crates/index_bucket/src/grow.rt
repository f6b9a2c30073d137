//! An index bucket that takes entries.
ghost use Rattle.std.specs.Prelude.{◌≡◌, ◌≤◌, ◌<◌, ◌+◌, ◌-◌, ◌*◌, ◌/◌, ℕ, List, true, false, [], length, take, drop};
ghost use Rattle.bucket_page.specs.Pages.{slots_of, next_of, no_next, joined, suits, inserted, IsPacked, Packs};
ghost use Rattle.index_bucket.specs.Entries.{index_kind};
ghost use Rattle.index_bucket.specs.Takes.{Takes};

use crate::entries::kind;
use bucket_page::{PageKind, clear_front, insert_front, split_front};
use file_base::FileHead;

// Puts a slot in at place i of a bucket that has room for it.
fn put_at(bytes: &mut [u8], size: usize, kind: PageKind, i: usize, slot: &[u8])
    requires within { size ≤ length bytes.old }
    requires small { size ≤ 8192 }
    requires packed { IsPacked kind size (take size bytes.old) }
    requires place { i ≤ length (slots_of kind (take size bytes.old)) }
    requires suits { suits kind slot.now ≡ true }
    requires room { 16 + length (joined (slots_of kind (take size bytes.old))) + length slot.now ≤ size }
    ensures { Packs kind size (inserted (slots_of kind (take size bytes.old)) i slot.now) (next_of (take size bytes.old)) (take size bytes.new) }
{
    let _ = insert_front(bytes, size, kind, i, slot);
}

// Gives the slots from place j on to a bucket without slots, once a slot stands at place i, which is one of them.
fn share_high(
    kind: PageKind,
    size: usize,
    low: &mut [u8],
    high: &mut [u8],
    i: usize,
    slot: &[u8],
    j: usize,
)
    requires low_within { size ≤ length low.old }
    requires high_within { size ≤ length high.old }
    requires small { size ≤ 8192 }
    requires packed { IsPacked kind size (take size low.old) }
    requires empty { Packs kind size [] (next_of (take size high.old)) (take size high.old) }
    requires place { i ≤ length (slots_of kind (take size low.old)) }
    requires suits { suits kind slot.now ≡ true }
    requires side { j ≤ i }
    requires room { 16 + length (joined (drop j (inserted (slots_of kind (take size low.old)) i slot.now))) ≤ size }
    ensures low { Packs kind size (take j (inserted (slots_of kind (take size low.old)) i slot.now)) (next_of (take size low.old)) (take size low.new) }
    ensures high { Packs kind size (drop j (inserted (slots_of kind (take size low.old)) i slot.now)) (next_of (take size high.old)) (take size high.new) }
{
    split_front(low, high, size, kind, j);
    put_at(high, size, kind, i - j, slot);
}

// Gives the slots from place j on to a bucket without slots, once a slot stands at place i, which is none of them.
fn share_low(
    kind: PageKind,
    size: usize,
    low: &mut [u8],
    high: &mut [u8],
    i: usize,
    slot: &[u8],
    j: usize,
)
    requires low_within { size ≤ length low.old }
    requires high_within { size ≤ length high.old }
    requires small { size ≤ 8192 }
    requires packed { IsPacked kind size (take size low.old) }
    requires empty { Packs kind size [] (next_of (take size high.old)) (take size high.old) }
    requires place { i ≤ length (slots_of kind (take size low.old)) }
    requires suits { suits kind slot.now ≡ true }
    requires side { i < j }
    requires within { j ≤ length (slots_of kind (take size low.old)) + 1 }
    requires room { 16 + length (joined (take j (inserted (slots_of kind (take size low.old)) i slot.now))) ≤ size }
    ensures low { Packs kind size (take j (inserted (slots_of kind (take size low.old)) i slot.now)) (next_of (take size low.old)) (take size low.new) }
    ensures high { Packs kind size (drop j (inserted (slots_of kind (take size low.old)) i slot.now)) (next_of (take size high.old)) (take size high.new) }
{
    split_front(low, high, size, kind, j - 1);
    put_at(low, size, kind, i, slot);
}

// Gives the slots from place j on to a bucket without slots, once a slot stands at place i.
fn share(
    kind: PageKind,
    size: usize,
    low: &mut [u8],
    high: &mut [u8],
    i: usize,
    slot: &[u8],
    j: usize,
)
    requires low_within { size ≤ length low.old }
    requires high_within { size ≤ length high.old }
    requires small { size ≤ 8192 }
    requires packed { IsPacked kind size (take size low.old) }
    requires empty { Packs kind size [] (next_of (take size high.old)) (take size high.old) }
    requires place { i ≤ length (slots_of kind (take size low.old)) }
    requires suits { suits kind slot.now ≡ true }
    requires within { j ≤ length (slots_of kind (take size low.old)) + 1 }
    requires low_room { 16 + length (joined (take j (inserted (slots_of kind (take size low.old)) i slot.now))) ≤ size }
    requires high_room { 16 + length (joined (drop j (inserted (slots_of kind (take size low.old)) i slot.now))) ≤ size }
    ensures low { Packs kind size (take j (inserted (slots_of kind (take size low.old)) i slot.now)) (next_of (take size low.old)) (take size low.new) }
    ensures high { Packs kind size (drop j (inserted (slots_of kind (take size low.old)) i slot.now)) (next_of (take size high.old)) (take size high.new) }
{
    if j <= i {
        share_high(kind, size, low, high, i, slot, j);
        return;
    }
    share_low(kind, size, low, high, i, slot, j);
}

/// Puts an entry in at place `at` of a bucket of `count` entries. Where they are more than `fan_out` then, `high` becomes a bucket of the upper half.
/// Answers whether it does.
pub(crate) fn take_one(
    head: &FileHead,
    size: usize,
    low: &mut [u8],
    high: &mut [u8],
    count: u16,
    at: u16,
    entry: &[u8],
    fan_out: u16,
) -> bool
    requires low_within { size ≤ length low.old }
    requires high_within { size ≤ length high.old }
    requires small { size ≤ 8192 }
    requires packed { IsPacked (index_kind head.now) size (take size low.old) }
    requires counted { count ≡ length (slots_of (index_kind head.now) (take size low.old)) }
    requires few { count ≤ fan_out }
    requires wide { 3 ≤ fan_out }
    requires fan_out_fits { 16 + fan_out * (head.now.key_size + 4) ≤ size }
    requires place { at ≤ count }
    requires suits { suits (index_kind head.now) entry.now ≡ true }
    ensures { Takes (index_kind head.now) size fan_out (next_of (take size low.old)) (inserted (slots_of (index_kind head.now) (take size low.old)) at entry.now) result (take size low.new) (take size high.new) }
{
    let kind = kind(head);
    let total = count as usize + 1;
    if total <= fan_out as usize {
        put_at(low, size, kind, at as usize, entry);
        return false;
    }
    clear_front(high, size, kind, u32::MAX);
    share(kind, size, low, high, at as usize, entry, total / 2);
    true
}

// Shares the entries of a bucket and two more, the first of which stands at place `at`, between it and another one, before place `half`.
fn share_two(
    kind: PageKind,
    size: usize,
    low: &mut [u8],
    high: &mut [u8],
    at: usize,
    first: &[u8],
    second: &[u8],
    half: usize,
)
    requires low_within { size ≤ length low.old }
    requires high_within { size ≤ length high.old }
    requires small { size ≤ 8192 }
    requires packed { IsPacked kind size (take size low.old) }
    requires empty { Packs kind size [] (next_of (take size high.old)) (take size high.old) }
    requires place { at ≤ length (slots_of kind (take size low.old)) }
    requires suits_first { suits kind first.now ≡ true }
    requires suits_second { suits kind second.now ≡ true }
    requires some { 1 ≤ half }
    requires within { half ≤ length (slots_of kind (take size low.old)) + 1 }
    requires low_room { 16 + length (joined (take half (inserted (inserted (slots_of kind (take size low.old)) at first.now) (at + 1) second.now))) ≤ size }
    requires high_room { 16 + length (joined (drop half (inserted (inserted (slots_of kind (take size low.old)) at first.now) (at + 1) second.now))) ≤ size }
    ensures low { Packs kind size (take half (inserted (inserted (slots_of kind (take size low.old)) at first.now) (at + 1) second.now)) (next_of (take size low.old)) (take size low.new) }
    ensures high { Packs kind size (drop half (inserted (inserted (slots_of kind (take size low.old)) at first.now) (at + 1) second.now)) (next_of (take size high.old)) (take size high.new) }
{
    let next = at + 1;
    if next < half {
        share(kind, size, low, high, at, first, half - 1);
        put_at(low, size, kind, next, second);
        return;
    }
    share(kind, size, low, high, at, first, half);
    put_at(high, size, kind, next - half, second);
}

/// Puts two entries in from place `at` of a bucket of `count` entries on. Where they are more than `fan_out` then, `high` becomes a bucket of the upper
/// half. Answers whether it does.
pub(crate) fn take_two(
    head: &FileHead,
    size: usize,
    low: &mut [u8],
    high: &mut [u8],
    count: u16,
    at: u16,
    first: &[u8],
    second: &[u8],
    fan_out: u16,
) -> bool
    requires low_within { size ≤ length low.old }
    requires high_within { size ≤ length high.old }
    requires small { size ≤ 8192 }
    requires packed { IsPacked (index_kind head.now) size (take size low.old) }
    requires counted { count ≡ length (slots_of (index_kind head.now) (take size low.old)) }
    requires few { count ≤ fan_out }
    requires wide { 3 ≤ fan_out }
    requires fan_out_fits { 16 + fan_out * (head.now.key_size + 4) ≤ size }
    requires place { at ≤ count }
    requires suits_first { suits (index_kind head.now) first.now ≡ true }
    requires suits_second { suits (index_kind head.now) second.now ≡ true }
    ensures { Takes (index_kind head.now) size fan_out (next_of (take size low.old)) (inserted (inserted (slots_of (index_kind head.now) (take size low.old)) at first.now) (at + 1) second.now) result (take size low.new) (take size high.new) }
{
    let kind = kind(head);
    let total = count as usize + 2;
    if total <= fan_out as usize {
        put_at(low, size, kind, at as usize, first);
        put_at(low, size, kind, at as usize + 1, second);
        return false;
    }
    clear_front(high, size, kind, u32::MAX);
    share_two(kind, size, low, high, at as usize, first, second, total / 2);
    true
}
