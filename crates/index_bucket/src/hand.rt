//! Entries that are handed up into an index bucket.
ghost use Rattle.std.specs.Prelude.{◌≡◌, ◌≤◌, ◌<◌, ◌+◌, ◌-◌, ◌*◌, ◌/◌, ℕ, List, true, false, length, take, drop};
ghost use Rattle.file_base.specs.vms_model.Limits.{key_limit};
ghost use Rattle.bucket_page.specs.Pages.{slots_of, next_of, IsBucket, IsPacked};
ghost use Rattle.index_bucket.specs.Entries.{index_kind, sizes_of};
ghost use Rattle.index_bucket.specs.Takes.{entries_of, TakesIn};
ghost use Rattle.index_bucket.specs.Laws.{TakenAreHeld};

use crate::entries::{find_entry, kind};
use crate::grow::{take_one, take_two};
use bucket_page::Page;
use file_base::FileHead;

/// The most bytes that an entry has: a key of 64 bytes, and a bucket's number.
pub const ENTRY_BYTES: usize = 68;

/// The entries that lead to the new buckets of a level, each at the front of its bytes: a separator and then the bucket's number, low byte first.
#[derive(Clone, Copy, Drop)]
pub enum Handed {
    One([u8; ENTRY_BYTES]),
    Two([u8; ENTRY_BYTES], [u8; ENTRY_BYTES]),
}

// How many entries an index bucket holds.
fn fan_out(head: &FileHead) -> u16
    requires one { 1 ≤ head.now.bucket }
    requires blocks { head.now.bucket ≤ 16 }
    requires key { head.now.key_size ≤ key_limit }
    ensures is { result ≡ (sizes_of head.now).fan_out }
    ensures wide { 3 ≤ result }
    ensures fits { 16 + result * (head.now.key_size + 4) ≤ 512 * head.now.bucket }
{
    ((512 * head.bucket as u32 - 16) / (head.key_size as u32 + 4)) as u16
}

// Puts entries behind the one that a key leads to, in a bucket of `count` entries.
fn take_counted(
    head: &FileHead,
    size: usize,
    low: &mut [u8],
    high: &mut [u8],
    count: u16,
    key: &[u8],
    handed: &Handed,
) -> bool
    requires one { 1 ≤ head.now.bucket }
    requires blocks { head.now.bucket ≤ 16 }
    requires key { head.now.key_size ≤ key_limit }
    requires sized { size ≡ 512 * head.now.bucket }
    requires low_within { size ≤ length low.old }
    requires high_within { size ≤ length high.old }
    requires bucket { IsBucket (index_kind head.now) size (take size low.old) }
    requires counted { count ≡ length (slots_of (index_kind head.now) (take size low.old)) }
    requires some { 1 ≤ count }
    ensures { TakesIn head.now size key.now (entries_of head.now handed.now) (take size low.old) result (take size low.new) (take size high.new) }
{
    let fan_out = fan_out(head);
    let at = find_entry(&low[..size], head, count, key) + 1;
    let long = head.key_size as usize + 4;
    match handed {
        Handed::One(first) => take_one(head, size, low, high, count, at, &first[..long], fan_out),
        Handed::Two(first, second) => take_two(
            head,
            size,
            low,
            high,
            count,
            at,
            &first[..long],
            &second[..long],
            fan_out,
        ),
    }
}

/// Puts entries behind the one that a key leads to. A bucket is the first `size` bytes of `low`, and of `high`. Where they are more than a bucket holds,
/// `high` becomes a bucket of the upper half of them. Answers whether it does. Bytes that are no index bucket, or one without entries, stay as they are.
pub fn take_handed(
    head: &FileHead,
    size: usize,
    low: &mut [u8],
    high: &mut [u8],
    key: &[u8],
    handed: &Handed,
) -> bool
    requires one { 1 ≤ head.now.bucket }
    requires blocks { head.now.bucket ≤ 16 }
    requires key { head.now.key_size ≤ key_limit }
    requires sized { size ≡ 512 * head.now.bucket }
    requires low_within { size ≤ length low.old }
    requires high_within { size ≤ length high.old }
    ensures takes { IsBucket (index_kind head.now) size (take size low.old) → 1 ≤ length (slots_of (index_kind head.now) (take size low.old))
        → TakesIn head.now size key.now (entries_of head.now handed.now) (take size low.old) result (take size low.new) (take size high.new) }
    ensures upper { result ≡ true → IsPacked (index_kind head.now) size (take size high.new) × (1 ≤ length (slots_of (index_kind head.now) (take size high.new))) }
    ensures stays { (IsBucket (index_kind head.now) size (take size low.old) → length (slots_of (index_kind head.now) (take size low.old)) ≡ 0)
        → (result ≡ false) × (low.new ≡ low.old) × (high.new ≡ high.old) }
{
    match Page::slots(&low[..size], kind(head)) {
        Some(count) => {
            if count == 0 {
                return false;
            }
            take_counted(head, size, low, high, count, key, handed)
        }
        None => false,
    }
}

/// A bucket that took entries is an index bucket with them, or it and another one are with the halves, where the separators ascend and the children are used.
pub fn taken_are_held()
    ensures { TakenAreHeld }
{}
