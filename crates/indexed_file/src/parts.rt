//! How a bucket that overflows is parted.
ghost use Rattle.std.specs.Prelude.{◌≡◌, ◌≤◌, ◌<◌, ◌+◌, ◌-◌, ◌==◌, ◌&&◌, ◌||◌, ℕ, true, false, [], length, take, drop, map, max, nat_lt, nat_le, if◌then◌else◌};
ghost use Rattle.block_disk.specs.Sizes.{greatest_disk_size};
ghost use Rattle.bucket_page.specs.Pages.{slots_of, next_of, joined, suits, reach, inserted, IsPacked, Packs};
ghost use Rattle.indexed_file.specs.Chain.{kind_of, slot_of};
ghost use Rattle.change_set.specs.records_model.Parts.{bytes_of, fits_at, has_place, IsBest};
ghost use Rattle.indexed_file.specs.Raws.{Parted};

use crate::leaf::kind;
use bucket_page::{Page, clear_front, insert_front, link_front, slot_start, split_front};
use file_base::FileHead;

// Where slot j begins; at their number, where the slots end.
fn start_at(bytes: &[u8], head: &FileHead, j: u32) -> u32
    requires packed { IsPacked (kind_of head.now) (length bytes.now) bytes.now }
    requires small { length bytes.now ≤ 8192 }
    requires there { j ≤ length (slots_of (kind_of head.now) bytes.now) }
    ensures start { result ≡ reach (slots_of (kind_of head.now) bytes.now) j }
    ensures within { result ≤ 8192 }
{
    slot_start(bytes, kind(head), j as usize) as u32
}

// The bytes of the first j slots, once a slot stands at place i.
fn bytes_to(bytes: &[u8], head: &FileHead, i: u16, slot: &[u8], j: u32) -> u32
    requires packed { IsPacked (kind_of head.now) (length bytes.now) bytes.now }
    requires small { length bytes.now ≤ 8192 }
    requires place { i ≤ length (slots_of (kind_of head.now) bytes.now) }
    requires suits { suits (kind_of head.now) slot.now ≡ true }
    requires short { length slot.now ≤ 8192 }
    requires there { j ≤ length (slots_of (kind_of head.now) bytes.now) + 1 }
    ensures is { result ≡ bytes_of (take j (map (slot_of head.now) (inserted (slots_of (kind_of head.now) bytes.now) i slot.now))) }
    ensures most { result ≤ 16384 }
{
    if j <= i as u32 {
        return start_at(bytes, head, j) - 16;
    }
    start_at(bytes, head, j - 1) - 16 + slot.len() as u32
}

// Whether a place whose greater part has so many bytes is better than the best one, which is 0 where there is none.
fn is_better(greater: u32, capacity: u32, best: u32, least: u32) -> bool
    ensures { result ≡ (nat_le greater capacity && (best == 0 || nat_lt greater least)) }
{
    greater <= capacity && (best == 0 || greater < least)
}

// One of two numbers.
fn chosen(first: bool, one: u32, other: u32) -> u32
    ensures { result ≡ (if first then one else other) }
{
    if first { one } else { other }
}

// The place that parts the slots of a bucket and one more at place i into two that fit, the greater of which has the
// fewest bytes; the lowest such place. 0 where no place does.
fn best_place(bytes: &[u8], head: &FileHead, count: u16, i: u16, slot: &[u8]) -> u32
    requires packed { IsPacked (kind_of head.now) (length bytes.now) bytes.now }
    requires small { length bytes.now ≤ 8192 }
    requires counted { count ≡ length (slots_of (kind_of head.now) bytes.now) }
    requires place { i ≤ count }
    requires suits { suits (kind_of head.now) slot.now ≡ true }
    requires short { length slot.now ≤ 8192 }
    ensures some { 1 ≤ result → IsBest (length bytes.now - 16) (map (slot_of head.now) (inserted (slots_of (kind_of head.now) bytes.now) i slot.now)) result }
    ensures none { result ≡ 0 → has_place (length bytes.now - 16) (map (slot_of head.now) (inserted (slots_of (kind_of head.now) bytes.now) i slot.now)) (length (slots_of (kind_of head.now) bytes.now) + 1) ≡ false }
    ensures within { result ≤ count }
{
    let capacity = bytes.len() as u32 - 16;
    let total = bytes_to(bytes, head, i, slot, count as u32 + 1);
    let mut best = 0;
    let mut least = 0;
    for j in 1..count as u32 + 1 {
        let low = bytes_to(bytes, head, i, slot, j);
        let high = total - low;
        let greater = low.max(high);
        let better = is_better(greater, capacity, best, least);
        best = chosen(better, j, best);
        least = chosen(better, greater, least);
    }
    best
}

// Gives the slots from place j on to a bucket without slots, once a slot stands at place i, which is one of them.
fn share_high(
    head: &FileHead,
    size: usize,
    low: &mut [u8],
    high: &mut [u8],
    i: u16,
    slot: &[u8],
    j: u32,
)
    requires low_within { size ≤ length low.old }
    requires high_within { size ≤ length high.old }
    requires small { size ≤ 8192 }
    requires packed { IsPacked (kind_of head.now) size (take size low.old) }
    requires empty { Packs (kind_of head.now) size [] (next_of (take size high.old)) (take size high.old) }
    requires place { i ≤ length (slots_of (kind_of head.now) (take size low.old)) }
    requires suits { suits (kind_of head.now) slot.now ≡ true }
    requires fits { fits_at (size - 16) (map (slot_of head.now) (inserted (slots_of (kind_of head.now) (take size low.old)) i slot.now)) j ≡ true }
    requires side { j ≤ i }
    ensures low { Packs (kind_of head.now) size (take j (inserted (slots_of (kind_of head.now) (take size low.old)) i slot.now)) (next_of (take size low.old)) (take size low.new) }
    ensures high { Packs (kind_of head.now) size (drop j (inserted (slots_of (kind_of head.now) (take size low.old)) i slot.now)) (next_of (take size high.old)) (take size high.new) }
{
    let kind = kind(head);
    split_front(low, high, size, kind, j as usize);
    let _ = insert_front(high, size, kind, (i as u32 - j) as usize, slot);
}

// Gives the slots from place j on to a bucket without slots, once a slot stands at place i, which is none of them.
fn share_low(
    head: &FileHead,
    size: usize,
    low: &mut [u8],
    high: &mut [u8],
    i: u16,
    slot: &[u8],
    j: u32,
)
    requires low_within { size ≤ length low.old }
    requires high_within { size ≤ length high.old }
    requires small { size ≤ 8192 }
    requires packed { IsPacked (kind_of head.now) size (take size low.old) }
    requires empty { Packs (kind_of head.now) size [] (next_of (take size high.old)) (take size high.old) }
    requires place { i ≤ length (slots_of (kind_of head.now) (take size low.old)) }
    requires suits { suits (kind_of head.now) slot.now ≡ true }
    requires fits { fits_at (size - 16) (map (slot_of head.now) (inserted (slots_of (kind_of head.now) (take size low.old)) i slot.now)) j ≡ true }
    requires side { i < j }
    ensures low { Packs (kind_of head.now) size (take j (inserted (slots_of (kind_of head.now) (take size low.old)) i slot.now)) (next_of (take size low.old)) (take size low.new) }
    ensures high { Packs (kind_of head.now) size (drop j (inserted (slots_of (kind_of head.now) (take size low.old)) i slot.now)) (next_of (take size high.old)) (take size high.new) }
{
    let kind = kind(head);
    split_front(low, high, size, kind, j as usize - 1);
    let _ = insert_front(low, size, kind, i as usize, slot);
}

// Gives the slots from place j on to a bucket without slots, once a slot stands at place i.
fn share(head: &FileHead, size: usize, low: &mut [u8], high: &mut [u8], i: u16, slot: &[u8], j: u32)
    requires low_within { size ≤ length low.old }
    requires high_within { size ≤ length high.old }
    requires small { size ≤ 8192 }
    requires packed { IsPacked (kind_of head.now) size (take size low.old) }
    requires empty { Packs (kind_of head.now) size [] (next_of (take size high.old)) (take size high.old) }
    requires place { i ≤ length (slots_of (kind_of head.now) (take size low.old)) }
    requires suits { suits (kind_of head.now) slot.now ≡ true }
    requires fits { fits_at (size - 16) (map (slot_of head.now) (inserted (slots_of (kind_of head.now) (take size low.old)) i slot.now)) j ≡ true }
    ensures low { Packs (kind_of head.now) size (take j (inserted (slots_of (kind_of head.now) (take size low.old)) i slot.now)) (next_of (take size low.old)) (take size low.new) }
    ensures high { Packs (kind_of head.now) size (drop j (inserted (slots_of (kind_of head.now) (take size low.old)) i slot.now)) (next_of (take size high.old)) (take size high.new) }
{
    if j <= i as u32 {
        share_high(head, size, low, high, i, slot, j);
        return;
    }
    share_low(head, size, low, high, i, slot, j);
}

// Parts a bucket in two before slot j, once a slot stands at place i. The upper part has the number `fresh`.
fn part_in_two(
    head: &FileHead,
    size: usize,
    low: &mut [u8],
    high: &mut [u8],
    i: u16,
    slot: &[u8],
    j: u32,
    fresh: u32,
)
    requires low_within { size ≤ length low.old }
    requires high_within { size ≤ length high.old }
    requires small { size ≤ 8192 }
    requires packed { IsPacked (kind_of head.now) size (take size low.old) }
    requires place { i ≤ length (slots_of (kind_of head.now) (take size low.old)) }
    requires suits { suits (kind_of head.now) slot.now ≡ true }
    requires fits { fits_at (size - 16) (map (slot_of head.now) (inserted (slots_of (kind_of head.now) (take size low.old)) i slot.now)) j ≡ true }
    ensures low { Packs (kind_of head.now) size (take j (inserted (slots_of (kind_of head.now) (take size low.old)) i slot.now)) fresh (take size low.new) }
    ensures high { Packs (kind_of head.now) size (drop j (inserted (slots_of (kind_of head.now) (take size low.old)) i slot.now)) (next_of (take size low.old)) (take size high.new) }
{
    let kind = kind(head);
    clear_front(high, size, kind, Page::next(&low[..size]));
    share(head, size, low, high, i, slot, j);
    link_front(low, size, kind, fresh);
}

// Parts a bucket in three: the slots before place i, a slot that stands alone, and the slots from there on. The upper
// parts have the numbers from `fresh` on.
fn part_in_three(
    head: &FileHead,
    size: usize,
    low: &mut [u8],
    mid: &mut [u8],
    high: &mut [u8],
    i: u16,
    slot: &[u8],
    fresh: u32,
)
    requires low_within { size ≤ length low.old }
    requires mid_within { size ≤ length mid.old }
    requires high_within { size ≤ length high.old }
    requires small { size ≤ 8192 }
    requires packed { IsPacked (kind_of head.now) size (take size low.old) }
    requires place { i ≤ length (slots_of (kind_of head.now) (take size low.old)) }
    requires suits { suits (kind_of head.now) slot.now ≡ true }
    requires alone { 16 + length slot.now ≤ size }
    requires numbers { fresh ≤ greatest_disk_size }
    ensures low { Packs (kind_of head.now) size (take i (slots_of (kind_of head.now) (take size low.old))) fresh (take size low.new) }
    ensures mid { Packs (kind_of head.now) size (inserted [] 0 slot.now) (fresh + 1) (take size mid.new) }
    ensures high { Packs (kind_of head.now) size (drop i (slots_of (kind_of head.now) (take size low.old))) (next_of (take size low.old)) (take size high.new) }
{
    let kind = kind(head);
    clear_front(mid, size, kind, fresh + 1);
    clear_front(high, size, kind, Page::next(&low[..size]));
    split_front(low, high, size, kind, i as usize);
    let _ = insert_front(mid, size, kind, 0, slot);
    link_front(low, size, kind, fresh);
}

/// Parts a bucket that has no room for a slot at place i, and answers how many buckets that adds. Those take the numbers
/// from `fresh` on.
pub(crate) fn part(
    head: &FileHead,
    size: usize,
    low: &mut [u8],
    mid: &mut [u8],
    high: &mut [u8],
    count: u16,
    i: u16,
    slot: &[u8],
    fresh: u32,
) -> u32
    requires low_within { size ≤ length low.old }
    requires mid_within { size ≤ length mid.old }
    requires high_within { size ≤ length high.old }
    requires small { size ≤ 8192 }
    requires packed { IsPacked (kind_of head.now) size (take size low.old) }
    requires counted { count ≡ length (slots_of (kind_of head.now) (take size low.old)) }
    requires place { i ≤ count }
    requires suits { suits (kind_of head.now) slot.now ≡ true }
    requires alone { 16 + length slot.now ≤ size }
    requires over { size < 16 + length (joined (slots_of (kind_of head.now) (take size low.old))) + length slot.now }
    requires numbers { fresh ≤ greatest_disk_size }
    ensures parted { Parted head.now size fresh (next_of (take size low.old)) (inserted (slots_of (kind_of head.now) (take size low.old)) i slot.now) i result (take size low.new) (take size mid.new) (take size high.new) }
    ensures few { result ≤ 2 }
{
    let j = best_place(&low[..size], head, count, i, slot);
    if j == 0 {
        part_in_three(head, size, low, mid, high, i, slot, fresh);
        return 2;
    }
    part_in_two(head, size, low, mid, i, slot, j, fresh);
    1
}
