//! Buckets byte by byte, bytes that are none, and slots that come and go.
ghost use Rattle.std.specs.Prelude.{◌≡◌, ◌≤◌, true, length, take, IfSome};
ghost use Rattle.bucket_page.specs.Pages.{slots_of, suits, IsPacked};
ghost use Rattle.bucket_page.specs.declared.kind.PageKind.TheVariants.{Seq};

use bucket_page::{Page, PageKind, clear_front, insert_front, remove_front, split_front};
use frame_pool::Pool;
use std::test::Fail;

const SEQ: [u8; 24] = [
    1, 0, 2, 0, 5, 0, 0, 0, 255, 255, 255, 255, 0, 0, 0, 0, 1, 0, 65, 0, 0, 0, 0, 0,
];

const REL: [u8; 30] = [
    2, 0, 2, 0, 10, 0, 0, 0, 255, 255, 255, 255, 0, 0, 0, 0, 2, 0, 65, 66, 0, 0, 0, 0, 0, 0, 0, 0,
    0, 0,
];

// One cell of two.
const ONE: [u8; 24] = [
    2, 0, 1, 0, 4, 0, 0, 0, 255, 255, 255, 255, 0, 0, 0, 0, 2, 0, 65, 66, 0, 0, 0, 0,
];

const DATA: [u8; 28] = [
    3, 0, 2, 0, 11, 0, 0, 0, 7, 0, 0, 0, 0, 0, 0, 0, 1, 0, 1, 0, 65, 2, 0, 0, 0, 66, 7, 0,
];

const INDEX: [u8; 28] = [
    4, 0, 2, 0, 12, 0, 0, 0, 255, 255, 255, 255, 0, 0, 0, 0, 65, 66, 1, 0, 0, 0, 65, 67, 0, 0, 0, 0,
];

const DATA_KIND: PageKind = PageKind::Data {
    key_pos: 0,
    key_size: 1,
};

const INDEX_KIND: PageKind = PageKind::Index { key_size: 2 };

// Buckets, and how many slots they have of a kind. The third and the fourth have other cells, and a record that is too long for its cell.
const COUNTED: [(&[u8], PageKind, Option<u16>); 9] = [
    (&SEQ, PageKind::Seq, Some(2)),
    (&SEQ, PageKind::Rel { mrs: 1 }, None),
    (&REL, PageKind::Rel { mrs: 3 }, Some(2)),
    (&REL, PageKind::Rel { mrs: 8 }, None),
    (&REL, PageKind::Rel { mrs: 1 }, None),
    (&ONE, PageKind::Rel { mrs: 2 }, None),
    (&[], PageKind::Seq, None),
    (&DATA, DATA_KIND, Some(2)),
    (&INDEX, INDEX_KIND, Some(2)),
];

#[test]
fn counts_slots_of_each_kind(rt: HostRuntime) {
    for (bytes, kind, want) in COUNTED {
        assert_eq!(rt; Page::slots(bytes, kind), want, "{bytes:?}");
    }
    assert_eq!(rt; Page::next(&DATA), 7);
}

// Whether a bucket has no slots of a kind once a byte of it is another.
fn is_spoiled(bytes: &mut [u8], kind: PageKind, at: usize, byte: u8) -> bool {
    if at >= bytes.len() {
        return false;
    }
    bytes[at] = byte;
    Page::slots(bytes, kind).is_none()
}

// The kind, each number, a byte without a name, a slot past the end, a byte behind the slots.
const SPOILED: [(usize, u8); 11] = [
    (0, 2),
    (1, 1),
    (2, 3),
    (2, 1),
    (4, 4),
    (5, 1),
    (6, 1),
    (8, 0),
    (12, 1),
    (16, 200),
    (23, 9),
];

// A record longer than its room, a room that does not hold the key, one key twice, keys that descend.
const SPOILED_DATA: [(usize, u8); 4] = [(18, 2), (16, 0), (25, 65), (25, 64)];

// One key twice, and a next bucket.
const SPOILED_INDEX: [(usize, u8); 2] = [(23, 66), (8, 3)];

#[test]
fn spoiled_buckets_have_no_slots(rt: HostRuntime) {
    for (at, byte) in SPOILED {
        let mut other = SEQ;
        assert!(rt; is_spoiled(&mut other, PageKind::Seq, at, byte), "at {at}");
    }
    let mut long = REL;
    assert!(rt; is_spoiled(&mut long, PageKind::Rel { mrs: 3 }, 16, 4));
}

#[test]
fn spoiled_buckets_of_keys_have_no_slots(rt: HostRuntime) {
    for (at, byte) in SPOILED_DATA {
        let mut other = DATA;
        assert!(rt; is_spoiled(&mut other, DATA_KIND, at, byte), "at {at}");
    }
    for (at, byte) in SPOILED_INDEX {
        let mut other = INDEX;
        assert!(rt; is_spoiled(&mut other, INDEX_KIND, at, byte), "at {at}");
    }
}

// A bucket of 512 bytes that begins with these, and has zeros behind them.
fn bucket(front: &[u8]) -> [u8; 512]
    requires { length front.now ≤ 512 }
{
    let mut bytes = [0; 512];
    bytes[..front.len()].copy_from_slice(front);
    bytes
}

// Whether a bucket of an indexed file has these bytes once it was cleared and a slot was put in. None where the pool has
// no frame, or the slot does not fit.
fn one_slot(pool: &mut Pool, expected: &[u8; 512]) -> Option<bool> {
    let kind = PageKind::Data {
        key_pos: 0,
        key_size: 1,
    };
    let frame = pool.take()?;
    Page::clear(pool, &frame, 512, kind, u32::MAX);
    let fits = Page::insert(pool, &frame, 512, kind, 0, &[1, 0, 1, 0, 0x61]);
    let same = pool.bytes(&frame).starts_with(expected);
    pool.give(frame);
    if fits { Some(same) } else { None }
}

#[test]
fn a_slot_is_put_into_a_cleared_bucket(rt: HostRuntime) -> Result<(), Fail> {
    let mut pool = Pool::new(rt.alloc(), 1)?;
    let front: [u8; 21] = [
        3, 0, 1, 0, 5, 0, 0, 0, 0xFF, 0xFF, 0xFF, 0xFF, 0, 0, 0, 0, 1, 0, 1, 0, 0x61,
    ];
    assert_eq!(rt; one_slot(&mut pool, &bucket(&front)), Some(true));
    Ok(())
}

// How many slots a bucket of records in order has.
fn count(bytes: &[u8; 512]) -> Option<u16>
    ensures packed { IfSome result (λ n. IsPacked Seq 512 (take 512 bytes.now)) }
    ensures number { IfSome result (λ n. n ≡ length (slots_of Seq (take 512 bytes.now))) }
{
    Page::slots(bytes, PageKind::Seq)
}

// Whether the bytes are a slot of records in order.
fn is_slot(slot: &[u8]) -> bool
    ensures { result ≡ true → suits Seq slot.now ≡ true }
{
    slot.len() >= 2 && slot.len() == 2 + u16::from_le_bytes([slot[0], slot[1]]) as usize
}

// Puts a slot in at place i. None where the bytes are no bucket or no slot, or there is no such place.
fn insert(bytes: &mut [u8; 512], i: u16, slot: &[u8]) -> Option<bool> {
    if i > count(bytes)? || !is_slot(slot) {
        return None;
    }
    Some(insert_front(bytes, 512, PageKind::Seq, i as usize, slot))
}

// Takes slot i out, where there is one.
fn remove(bytes: &mut [u8; 512], i: u16) -> Option<()> {
    if i >= count(bytes)? {
        return None;
    }
    remove_front(bytes, 512, PageKind::Seq, i as usize);
    Some(())
}

// Where slot i begins and how many bytes it has, where there is one.
fn place(bytes: &[u8; 512], i: u16) -> Option<(u16, u16)> {
    let bucket = &bytes[..512];
    if i >= Page::slots(bucket, PageKind::Seq)? {
        return None;
    }
    Some(Page::place(bucket, PageKind::Seq, i))
}

// Parts a bucket at a place, where there is one; its upper part.
fn split(low: &mut [u8; 512], at: u16) -> Option<[u8; 512]> {
    let mut high = [7; 512];
    clear_front(&mut high, 512, PageKind::Seq, u32::MAX);
    if at > count(low)? {
        return None;
    }
    split_front(low, &mut high, 512, PageKind::Seq, at as usize);
    Some(high)
}

// The beginnings of buckets of records in order: without slots, with each of two, and with both.
const NONE: [u8; 16] = [1, 0, 0, 0, 0, 0, 0, 0, 255, 255, 255, 255, 0, 0, 0, 0];

const FIRST: [u8; 19] = [
    1, 0, 1, 0, 3, 0, 0, 0, 255, 255, 255, 255, 0, 0, 0, 0, 1, 0, 65,
];

const SECOND: [u8; 20] = [
    1, 0, 1, 0, 4, 0, 0, 0, 255, 255, 255, 255, 0, 0, 0, 0, 2, 0, 66, 67,
];

const BOTH: [u8; 23] = [
    1, 0, 2, 0, 7, 0, 0, 0, 255, 255, 255, 255, 0, 0, 0, 0, 1, 0, 65, 2, 0, 66, 67,
];

// A slot that is put in at the front, and what the bucket begins with then.
const PUT_IN: [(&[u8], &[u8]); 2] = [(&[2, 0, 66, 67], &SECOND), (&[1, 0, 65], &BOTH)];

// Whether a bucket begins with these bytes, and has zeros behind them.
fn is_bucket(bytes: &[u8; 512], front: &[u8]) -> bool {
    front.len() <= 512 && *bytes == bucket(front)
}

#[test]
fn slots_come(rt: HostRuntime) {
    let mut bytes = [7; 512];
    clear_front(&mut bytes, 512, PageKind::Seq, u32::MAX);
    assert!(rt; is_bucket(&bytes, &NONE));
    for (slot, front) in PUT_IN {
        assert_eq!(rt; insert(&mut bytes, 0, slot), Some(true));
        assert!(rt; is_bucket(&bytes, front));
    }
}

const PLACES: [(u16, Option<(u16, u16)>); 3] = [(0, Some((16, 3))), (1, Some((19, 4))), (2, None)];

#[test]
fn slots_have_their_places(rt: HostRuntime) {
    let both = bucket(&BOTH);
    for (i, want) in PLACES {
        assert_eq!(rt; place(&both, i), want, "{i}");
    }
}

// The slot that goes, and what is left.
const LEFT: [(u16, &[u8]); 2] = [(0, &SECOND), (1, &FIRST)];

// The place at which the bucket is parted, and its two parts.
const PARTED: [(u16, &[u8], &[u8]); 3] = [
    (0, &NONE, &BOTH),
    (1, &FIRST, &SECOND),
    (2, &BOTH, &NONE),
];

#[test]
fn slots_go(rt: HostRuntime) {
    for (i, left) in LEFT {
        let mut other = bucket(&BOTH);
        assert_eq!(rt; remove(&mut other, i), Some(()));
        assert!(rt; is_bucket(&other, left), "without {i}");
    }
}

#[test]
fn buckets_are_parted(rt: HostRuntime) {
    for (at, low, high) in PARTED {
        let mut other = bucket(&BOTH);
        match split(&mut other, at) {
            Some(upper) => assert!(rt; is_bucket(&upper, high), "parted at {at}"),
            None => assert!(rt; false, "parted at {at}"),
        }
        assert!(rt; is_bucket(&other, low), "parted at {at}");
    }
}

fn is_filled(bytes: &[u8; 512], last: &[u8]) -> bool {
    Page::slots(bytes, PageKind::Seq) == Some(2)
        && bytes.starts_with(&[1, 0, 2, 0, 240, 1])
        && bytes.ends_with(last)
}

// A record of so many bytes is put behind the first slot: whether it fits, and the bucket is then full, or as before.
fn put_behind(size: u16) -> Option<(bool, bool)> {
    let mut slot = [7u8; 512];
    let [low, high] = size.to_le_bytes();
    slot[0] = low;
    slot[1] = high;
    let end = size as usize + 2;
    if end > 512 {
        return None;
    }
    let mut bytes = bucket(&FIRST);
    let fits = insert(&mut bytes, 1, &slot[..end])?;
    if fits {
        Some((true, is_filled(&bytes, &slot[..end])))
    } else {
        Some((false, is_bucket(&bytes, &FIRST)))
    }
}

#[test]
fn a_bucket_is_filled_to_its_last_byte(rt: HostRuntime) {
    assert_eq!(rt; put_behind(491), Some((true, true)));
    assert_eq!(rt; put_behind(492), Some((false, true)));
}
