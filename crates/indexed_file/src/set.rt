//! A key that is set: the bucket for it is written anew, and parted where it overflows.
ghost use Rattle.std.specs.Prelude.{◌≡◌, ◌≤◌, ◌<◌, ◌+◌, ◌-◌, ℕ, true, false, [], Option, Some, None, length, take};
ghost use Rattle.std.specs.Option.{option_copied};
ghost use Rattle.vms_base.specs.vms_model.Keys.{Text};
ghost use Rattle.block_disk.specs.Sizes.{greatest_disk_size};
ghost use Rattle.bucket_page.specs.Pages.{slots_of, next_of, slot_at, suits, inserted, page_of, IsPacked, IsBucket, Holds};
ghost use Rattle.change_set.specs.records_model.Slots.{size_of};
ghost use Rattle.indexed_file.specs.Chain.{HasKeys, kind_of, all_keep, SuitsText};
ghost use Rattle.indexed_file.specs.Places.{IsPlace};
ghost use Rattle.indexed_file.specs.Raws.{slot_bytes, Means, tidied_raws, raws_added, place_added, Parted, SetsLeaf};
ghost use Rattle.indexed_file.specs.Sets.{ChangesSlot};

use crate::leaf::{find_place, kind, number_at, slot};
use crate::parts::part;
use crate::slots::{put_slot, tidy};
use bucket_page::{Page, clear_front, insert_front, remove_front, replace_front};
use change_set::Held;
use file_base::FileHead;
use frame_pool::FRAME_BYTES;
use vms_base::Record;

// Tidies a bucket and puts a slot at what was place i; where it does not fit, parts the bucket. Answers how many buckets
// that adds.
fn add_tidied<H: Held>(
    head: &FileHead,
    size: usize,
    low: &mut [u8],
    mid: &mut [u8],
    high: &mut [u8],
    count: u16,
    i: u16,
    slot: &[u8],
    held: &H,
) -> u32
    requires form { HasKeys head.now }
    requires low_within { size ≤ length low.old }
    requires mid_within { size ≤ length mid.old }
    requires high_within { size ≤ length high.old }
    requires small { size ≤ 8192 }
    requires packed { IsPacked (kind_of head.now) size (take size low.old) }
    requires counted { count ≡ length (slots_of (kind_of head.now) (take size low.old)) }
    requires place { i ≤ count }
    requires suits { suits (kind_of head.now) slot.now ≡ true }
    requires alone { 16 + length slot.now ≤ size }
    requires numbers { head.now.used ≤ greatest_disk_size }
    ensures parted { let raws = tidied_raws head.now (λ t. H.held held.now (Text t)) (slots_of (kind_of head.now) (take size low.old)) in
        let place = length (tidied_raws head.now (λ t. H.held held.now (Text t)) (take i (slots_of (kind_of head.now) (take size low.old)))) in
        Parted head.now size head.now.used (next_of (take size low.old)) (inserted raws place slot.now) place result (take size low.new) (take size mid.new) (take size high.new) }
    ensures few { result ≤ 2 }
{
    let at = tidy(head, low, size, count, i, held);
    if insert_front(low, size, kind(head), at as usize, slot) {
        return 0;
    }
    let number = number_at(&low[..size], 2);
    part(head, size, low, mid, high, number, at, slot, head.used)
}

// Puts a slot at place i of a bucket; where it does not fit, tidies the bucket, and where it still does not, parts it.
// Answers how many buckets that adds.
fn add_slot<H: Held>(
    head: &FileHead,
    size: usize,
    low: &mut [u8],
    mid: &mut [u8],
    high: &mut [u8],
    count: u16,
    i: u16,
    slot: &[u8],
    held: &H,
) -> u32
    requires form { HasKeys head.now }
    requires low_within { size ≤ length low.old }
    requires mid_within { size ≤ length mid.old }
    requires high_within { size ≤ length high.old }
    requires small { size ≤ 8192 }
    requires packed { IsPacked (kind_of head.now) size (take size low.old) }
    requires counted { count ≡ length (slots_of (kind_of head.now) (take size low.old)) }
    requires place { i ≤ count }
    requires suits { suits (kind_of head.now) slot.now ≡ true }
    requires alone { 16 + length slot.now ≤ size }
    requires numbers { head.now.used ≤ greatest_disk_size }
    ensures parted { Parted head.now size head.now.used (next_of (take size low.old))
        (raws_added head.now (λ t. H.held held.now (Text t)) size (slots_of (kind_of head.now) (take size low.old)) i slot.now)
        (place_added head.now (λ t. H.held held.now (Text t)) size (slots_of (kind_of head.now) (take size low.old)) i slot.now)
        result (take size low.new) (take size mid.new) (take size high.new) }
    ensures few { result ≤ 2 }
{
    if insert_front(low, size, kind(head), i as usize, slot) {
        return 0;
    }
    add_tidied(head, size, low, mid, high, count, i, slot, held)
}

// Adds a record to a bucket, which has no slot of its key.
fn add_record<H: Held>(
    head: &FileHead,
    size: usize,
    low: &mut [u8],
    mid: &mut [u8],
    high: &mut [u8],
    count: u16,
    i: u16,
    bytes: &[u8],
    held: &H,
) -> u32
    requires form { HasKeys head.now }
    requires low_within { size ≤ length low.old }
    requires mid_within { size ≤ length mid.old }
    requires high_within { size ≤ length high.old }
    requires small { size ≤ 8192 }
    requires packed { IsPacked (kind_of head.now) size (take size low.old) }
    requires counted { count ≡ length (slots_of (kind_of head.now) (take size low.old)) }
    requires place { i ≤ count }
    requires key { head.now.key_pos + head.now.key_size ≤ length bytes.now }
    requires alone { 20 + length bytes.now ≤ size }
    requires numbers { head.now.used ≤ greatest_disk_size }
    ensures parted { let slot = slot_bytes (length bytes.now) (length bytes.now) 0 bytes.now in
        Parted head.now size head.now.used (next_of (take size low.old))
        (raws_added head.now (λ t. H.held held.now (Text t)) size (slots_of (kind_of head.now) (take size low.old)) i slot)
        (place_added head.now (λ t. H.held held.now (Text t)) size (slots_of (kind_of head.now) (take size low.old)) i slot)
        result (take size low.new) (take size mid.new) (take size high.new) }
    ensures few { result ≤ 2 }
{
    let mut slot = [0; FRAME_BYTES];
    let room = bytes.len() as u16;
    put_slot(&mut slot, room, room, 0, bytes);
    add_slot(
        head,
        size,
        low,
        mid,
        high,
        count,
        i,
        &slot[..4 + bytes.len()],
        held,
    )
}

// Writes the slot of a key with a room, and a record or none.
fn make_slot(head: &FileHead, key: &[u8], value: Option<&Record>, room: u16, out: &mut [u8])
    requires form { HasKeys head.now }
    requires suits { SuitsText head.now key.now (option_copied value) }
    requires holds { size_of (option_copied value) ≤ room }
    requires key_room { head.now.key_pos + head.now.key_size ≤ room }
    requires within { 4 + room ≤ length out.old }
    ensures { Means head.now key.now room (option_copied value.entry) (take (4 + room) out.new) }
{
    match value {
        Some(record) => {
            let bytes = record.bytes();
            put_slot(out, room, bytes.len() as u16, 0, bytes);
        }
        None => put_slot(out, room, 0, head.key_pos, key),
    }
}

/// Sets a key whose slot has room for the value.
pub(crate) fn change_slot(
    head: &FileHead,
    size: usize,
    low: &mut [u8],
    i: u16,
    room: u16,
    key: &[u8],
    value: Option<&Record>,
)
    requires form { HasKeys head.now }
    requires low_within { size ≤ length low.old }
    requires small { size ≤ 8192 }
    requires packed { IsPacked (kind_of head.now) size (take size low.old) }
    requires there { i < length (slots_of (kind_of head.now) (take size low.old)) }
    requires suits { SuitsText head.now key.now (option_copied value) }
    requires holds { size_of (option_copied value) ≤ room }
    requires key_room { head.now.key_pos + head.now.key_size ≤ room }
    requires same { length (slot_at (slots_of (kind_of head.now) (take size low.old)) i) ≡ 4 + room }
    requires short { 4 + room ≤ 8192 }
    ensures { ChangesSlot head.now key.now room (option_copied value.entry) size i (take size low.old) (take size low.new) }
{
    let mut slot = [0; FRAME_BYTES];
    make_slot(head, key, value, room, &mut slot);
    replace_front(
        low,
        size,
        kind(head),
        i as usize,
        &slot[..4 + room as usize],
    );
}

/// The length of a value; none has no bytes.
pub(crate) fn value_size(value: Option<&Record>) -> usize
    ensures { result ≡ size_of (option_copied value.entry) }
{
    match value {
        Some(record) => record.bytes().len(),
        None => 0,
    }
}

// Sets a key that has no slot in the bucket for it. Answers how many buckets that adds.
fn set_missing<H: Held>(
    head: &FileHead,
    size: usize,
    low: &mut [u8],
    mid: &mut [u8],
    high: &mut [u8],
    count: u16,
    i: u16,
    key: &[u8],
    value: Option<&Record>,
    held: &H,
) -> u32
    requires form { HasKeys head.now }
    requires low_within { size ≤ length low.old }
    requires mid_within { size ≤ length mid.old }
    requires high_within { size ≤ length high.old }
    requires small { size ≤ 8192 }
    requires records { head.now.mrs + 32 ≤ size }
    requires suits { SuitsText head.now key.now (option_copied value) }
    requires numbers { head.now.used ≤ greatest_disk_size }
    requires bucket { IsBucket (kind_of head.now) size (take size low.old) }
    requires counted { count ≡ length (slots_of (kind_of head.now) (take size low.old)) }
    requires place { IsPlace head.now key.now (slots_of (kind_of head.now) (take size low.old)) i false }
    ensures sets { all_keep head.now (slots_of (kind_of head.now) (take size low.old)) ≡ true →
        SetsLeaf head.now (λ t. H.held held.now (Text t)) key.now (option_copied value.entry) size head.now.used (take size low.old) result (take size low.new) (take size mid.new) (take size high.new) }
    ensures few { result ≤ 2 }
{
    match value {
        Some(record) => add_record(head, size, low, mid, high, count, i, record.bytes(), held),
        None => 0,
    }
}

// Sets a key that has slot i of the bucket for it. Answers how many buckets that adds.
fn set_found<H: Held>(
    head: &FileHead,
    size: usize,
    low: &mut [u8],
    mid: &mut [u8],
    high: &mut [u8],
    count: u16,
    i: u16,
    key: &[u8],
    value: Option<&Record>,
    held: &H,
) -> u32
    requires form { HasKeys head.now }
    requires low_within { size ≤ length low.old }
    requires mid_within { size ≤ length mid.old }
    requires high_within { size ≤ length high.old }
    requires small { size ≤ 8192 }
    requires records { head.now.mrs + 32 ≤ size }
    requires suits { SuitsText head.now key.now (option_copied value) }
    requires numbers { head.now.used ≤ greatest_disk_size }
    requires bucket { IsBucket (kind_of head.now) size (take size low.old) }
    requires counted { count ≡ length (slots_of (kind_of head.now) (take size low.old)) }
    requires place { IsPlace head.now key.now (slots_of (kind_of head.now) (take size low.old)) i true }
    ensures sets { all_keep head.now (slots_of (kind_of head.now) (take size low.old)) ≡ true →
        SetsLeaf head.now (λ t. H.held held.now (Text t)) key.now (option_copied value.entry) size head.now.used (take size low.old) result (take size low.new) (take size mid.new) (take size high.new) }
    ensures few { result ≤ 2 }
{
    let room = number_at(slot(&low[..size], head, i), 0);
    let long = value_size(value);
    if long <= room as usize {
        change_slot(head, size, low, i, room, key, value);
        return 0;
    }
    match value {
        Some(record) => {
            remove_front(low, size, kind(head), i as usize);
            add_record(
                head,
                size,
                low,
                mid,
                high,
                count - 1,
                i,
                record.bytes(),
                held,
            )
        }
        None => 0,
    }
}

// Makes a bucket without slots of bytes that are not laid out as one. It leads where they led a walk.
fn clear_leaf(head: &FileHead, size: usize, low: &mut [u8])
    requires least { 16 ≤ size }
    requires within { size ≤ length low.old }
    ensures { Holds (kind_of head.now) size [] (next_of (take size low.old)) (take size low.new) }
{
    let next = Page::next(&low[..size]);
    clear_front(low, size, kind(head), next);
}

/// Sets a key in the bytes of the bucket for it, which may part in two or three. Bytes that are not laid out as a bucket are one without
/// slots. Answers how many buckets that adds.
pub fn set_in_leaf<H: Held>(
    head: &FileHead,
    size: usize,
    low: &mut [u8],
    mid: &mut [u8],
    high: &mut [u8],
    key: &[u8],
    value: Option<&Record>,
    held: &H,
) -> u32
    requires form { HasKeys head.now }
    requires low_within { size ≤ length low.old }
    requires mid_within { size ≤ length mid.old }
    requires high_within { size ≤ length high.old }
    requires small { size ≤ 8192 }
    requires records { head.now.mrs + 32 ≤ size }
    requires suits { SuitsText head.now key.now (option_copied value) }
    requires numbers { head.now.used ≤ greatest_disk_size }
    ensures sets { IsBucket (kind_of head.now) size (take size low.old) → all_keep head.now (slots_of (kind_of head.now) (take size low.old)) ≡ true →
        SetsLeaf head.now (λ t. H.held held.now (Text t)) key.now (option_copied value.entry) size head.now.used (take size low.old) result (take size low.new) (take size mid.new) (take size high.new) }
    ensures strange { (IsBucket (kind_of head.now) size (take size low.old) → ⊥) →
        SetsLeaf head.now (λ t. H.held held.now (Text t)) key.now (option_copied value.entry) size head.now.used (page_of (kind_of head.now) size [] (next_of (take size low.old))) result (take size low.new) (take size mid.new) (take size high.new) }
    ensures few { result ≤ 2 }
{
    match Page::slots(&low[..size], kind(head)) {
        Some(count) => {
            let (i, found) = find_place(&low[..size], head, count, key);
            if found {
                return set_found(head, size, low, mid, high, count, i, key, value, held);
            }
            set_missing(head, size, low, mid, high, count, i, key, value, held)
        }
        None => {
            clear_leaf(head, size, low);
            set_missing(head, size, low, mid, high, 0, 0, key, value, held)
        }
    }
}
