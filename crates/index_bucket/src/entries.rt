//! The entries of an index bucket. They have one length, so each stands at a place that its number tells.
ghost use Rattle.std.specs.Prelude.{◌≡◌, ◌≤◌, ◌<◌, ◌+◌, ◌-◌, ◌*◌, ℕ, List, true, false, length, take, drop, map};
ghost use Rattle.std.specs.Ordering.{nat_cmp, is_lt, ordering_reverse};
ghost use Rattle.std.specs.Cmp.Lexicographic.{slice_cmp};
ghost use Rattle.bucket_page.specs.Pages.{slots_of, key_in, slot_at, u32_at, IsBucket, IsPacked};
ghost use Rattle.index_model.specs.Indexes.{child_for, entry_place};
ghost use Rattle.index_bucket.specs.Entries.{index_kind, entry_of, entries_at, IsIndexBucket};

use bucket_page::{Page, PageKind};
use byteorder::{ByteOrder, LittleEndian};
use file_base::FileHead;
use std::cmp::Ordering;

/// The kind of a file's index buckets.
pub(crate) fn kind(head: &FileHead) -> PageKind
    ensures { result ≡ index_kind head.now }
{
    PageKind::Index {
        key_size: head.key_size,
    }
}

// Where entry i begins.
fn entry_start(bytes: &[u8], head: &FileHead, i: u16) -> usize
    requires packed { IsPacked (index_kind head.now) (length bytes.now) bytes.now }
    requires there { i < length (slots_of (index_kind head.now) bytes.now) }
    ensures is { result ≡ 16 + i * (head.now.key_size + 4) }
    ensures within { result + (head.now.key_size + 4) ≤ length bytes.now }
{
    16 + i as usize * (head.key_size as usize + 4)
}

// The bytes of entry i.
pub(crate) fn entry<'a>(bytes: &'a [u8], head: &FileHead, i: u16) -> &'a [u8]
    requires packed { IsPacked (index_kind head.now) (length bytes.now) bytes.now }
    requires there { i < length (slots_of (index_kind head.now) bytes.now) }
    ensures is { result.now ≡ slot_at (slots_of (index_kind head.now) bytes.now) i }
    ensures size { length result.now ≡ head.now.key_size + 4 }
{
    let at = entry_start(bytes, head, i);
    &bytes[at..at + (head.key_size as usize + 4)]
}

// The separator of an entry against a key.
fn compare_separator(entry: &[u8], head: &FileHead, key: &[u8]) -> Ordering
    requires { head.now.key_size ≤ length entry.now }
    ensures is { result ≡ slice_cmp nat_cmp (key_in (index_kind head.now) entry.now) key.now }
{
    entry[..head.key_size as usize].cmp(key)
}

// The child of an entry.
fn child(entry: &[u8], head: &FileHead) -> u32
    requires { length entry.now ≡ head.now.key_size + 4 }
    ensures { result ≡ u32_at entry.now head.now.key_size }
{
    LittleEndian::read_u32(&entry[head.key_size as usize..])
}

/// The place of the entry that a key leads to among `count` entries: the last one whose separator is at most the key, or the first one.
pub fn find_entry(bytes: &[u8], head: &FileHead, count: u16, key: &[u8]) -> u16
    requires bucket { IsBucket (index_kind head.now) (length bytes.now) bytes.now }
    requires small { length bytes.now ≤ 8192 }
    requires counted { count ≡ length (slots_of (index_kind head.now) bytes.now) }
    requires some { 1 ≤ count }
    ensures within { result < count }
    ensures place { result ≡ entry_place key.now (entries_at head.now bytes.now) }
{
    let mut low = 0;
    let mut high = count;
    while low < high {
        let mid = low + (high - low) / 2;
        match compare_separator(entry(bytes, head, mid), head, key) {
            Ordering::Less => low = mid + 1,
            Ordering::Equal => low = mid + 1,
            Ordering::Greater => high = mid,
        }
    }
    if low == 0 {
        return 0;
    }
    low - 1
}

// The bucket that a key leads to from one that is laid out and has `count` entries.
fn step_in(bytes: &[u8], head: &FileHead, count: u16, key: &[u8]) -> u32
    requires bucket { IsBucket (index_kind head.now) (length bytes.now) bytes.now }
    requires small { length bytes.now ≤ 8192 }
    requires counted { count ≡ length (slots_of (index_kind head.now) bytes.now) }
    requires some { 1 ≤ head.now.used }
    ensures child { IsIndexBucket head.now bytes.now → result ≡ child_for key.now (entries_at head.now bytes.now) }
    ensures none { count ≡ 0 → result ≡ 0 }
    ensures used { result < head.now.used }
{
    if count == 0 {
        return 0;
    }
    let i = find_entry(bytes, head, count, key);
    let to = child(entry(bytes, head, i), head);
    if to < head.used { to } else { 0 }
}

/// The number of the bucket that a key leads to from an index bucket, which are all the bytes. It is that of a used bucket, whatever the bytes are, and 0
/// where they are not laid out as an index bucket, or have no entry.
pub fn step(bytes: &[u8], head: &FileHead, key: &[u8]) -> u32
    requires small { length bytes.now ≤ 8192 }
    requires some { 1 ≤ head.now.used }
    ensures child { length bytes.now ≡ 512 * head.now.bucket → IsIndexBucket head.now bytes.now → result ≡ child_for key.now (entries_at head.now bytes.now) }
    ensures none { (IsBucket (index_kind head.now) (length bytes.now) bytes.now → length (slots_of (index_kind head.now) bytes.now) ≡ 0) → result ≡ 0 }
    ensures used { result < head.now.used }
{
    match Page::slots(bytes, kind(head)) {
        Some(count) => step_in(bytes, head, count, key),
        None => 0,
    }
}
