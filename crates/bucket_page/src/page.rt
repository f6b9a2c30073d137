//! Buckets at the front of frames, as lists of slots.
ghost use Rattle.std.specs.Prelude.{◌↔◌, ◌≡◌, ◌≢◌, ◌≤◌, ◌<◌, ◌+◌, ◌++◌, ℕ, true, false, [], Some, slice_set, IfSome, IfNone, length, take, drop};
ghost use Rattle.frame_pool.specs.Pool.{IsOut};
ghost use Rattle.file_base.specs.Bytes.{piece_at};
ghost use Rattle.bucket_page.specs.Frames.{frame_bytes, bucket_in, slots_in, next_in, with_bucket_in};
ghost use Rattle.bucket_page.specs.Pages.{slots_of, next_of, joined, suits, ascend, may_follow, has_cells, IsPacked, Packs, IsBucket, Holds, reach, inserted, removed, replaced, slot_at};

use crate::bytes::{front_len, read_u32};
use crate::front::{clear_front, insert_front, remove_front, replace_front, split_front};
use crate::kind::PageKind;
use crate::layout::count_slots;
use crate::packed::slot_from;
use frame_pool::{FRAME_BYTES, Frame, Pool};

/// Calls on one bucket, which lies in the first `size` bytes of a frame. Each leaves all other frames, and what stands
/// behind the bucket, as they were.
pub struct Page;

impl Page {
    /// How many slots a bucket has. None exactly where the bytes are not laid out as those of a bucket of this kind.
    pub fn slots(bytes: &[u8], kind: PageKind) -> Option<u16>
        ensures some { IfSome result (λ n. IsBucket kind (length bytes.now) bytes.now) }
        ensures number { IfSome result (λ n. n ≡ length (slots_of kind bytes.now)) }
        ensures none { IfNone result (IsBucket kind (length bytes.now) bytes.now → ⊥) }
    {
        count_slots(bytes, kind)
    }

    /// The next bucket's number; `u32::MAX` where there is none.
    pub fn next(bytes: &[u8]) -> u32
        requires { 16 ≤ length bytes.now }
        ensures { result ≡ next_of bytes.now }
    {
        read_u32(bytes, 8)
    }

    /// The first byte and the length of slot i, which is walked to from where an earlier one begins.
    pub fn place_from(bytes: &[u8], kind: PageKind, first: u16, from: u16, i: u16) -> (u16, u16)
        requires packed { IsPacked kind (length bytes.now) bytes.now }
        requires there { i < length (slots_of kind bytes.now) }
        requires order { first ≤ i }
        requires from { from ≡ reach (slots_of kind bytes.now) first }
        requires small { length bytes.now ≤ 8192 }
        ensures first { result.0 ≡ reach (slots_of kind bytes.now) i }
        ensures size { result.1 ≡ length (slot_at (slots_of kind bytes.now) i) }
        ensures within { result.0 + result.1 ≤ length bytes.now }
        ensures slot { piece_at bytes.now result.0 result.1 ≡ slot_at (slots_of kind bytes.now) i }
    {
        let at = slot_from(bytes, kind, first as usize, from as usize, i as usize);
        let size = front_len(bytes, at, kind);
        (at as u16, size as u16)
    }

    /// The first byte and the length of slot i.
    pub fn place(bytes: &[u8], kind: PageKind, i: u16) -> (u16, u16)
        requires packed { IsPacked kind (length bytes.now) bytes.now }
        requires there { i < length (slots_of kind bytes.now) }
        requires small { length bytes.now ≤ 8192 }
        ensures first { result.0 ≡ reach (slots_of kind bytes.now) i }
        ensures size { result.1 ≡ length (slot_at (slots_of kind bytes.now) i) }
        ensures within { result.0 + result.1 ≤ length bytes.now }
        ensures slot { piece_at bytes.now result.0 result.1 ≡ slot_at (slots_of kind bytes.now) i }
    {
        Page::place_from(bytes, kind, 0, 16, i)
    }

    /// Writes a bucket without slots, which has this next bucket.
    pub fn clear(pool: &mut Pool, f: &Frame, size: u16, kind: PageKind, next: u32)
        requires out { IsOut pool.old f.now }
        requires least { 16 ≤ size }
        requires small { size ≤ 8192 }
        requires not_cells { has_cells kind ≡ false }
        requires next { may_follow kind next ≡ true }
        ensures bucket { Holds kind size [] next (bucket_in pool.new f.now size) }
        ensures rest { pool.new ≡ with_bucket_in pool.old f.now size (bucket_in pool.new f.now size) }
    {
        let bytes = pool.bytes_mut(f);
        clear_front(bytes, size as usize, kind, next);
    }

    /// Puts a slot in at place i. False exactly where it does not fit; then nothing changes.
    pub fn insert(
        pool: &mut Pool,
        f: &Frame,
        size: u16,
        kind: PageKind,
        i: u16,
        slot: &[u8],
    ) -> bool
        requires out { IsOut pool.old f.now }
        requires small { size ≤ 8192 }
        requires bucket { IsBucket kind size (bucket_in pool.old f.now size) }
        requires not_cells { has_cells kind ≡ false }
        requires there { i ≤ length (slots_in kind pool.old f.now size) }
        requires slot { suits kind slot.now ≡ true }
        requires order { ascend kind (inserted (slots_in kind pool.old f.now size) i slot.now) ≡ true }
        ensures bucket { result ≡ true → Holds kind size (inserted (slots_in kind pool.old f.now size) i slot.now) (next_in pool.old f.now size) (bucket_in pool.new f.now size) }
        ensures same { result ≡ false → pool.new ≡ pool.old }
        ensures full { (result ≡ false) ↔ (size < 16 + length (joined (slots_in kind pool.old f.now size)) + length slot.now) }
        ensures rest { pool.new ≡ with_bucket_in pool.old f.now size (bucket_in pool.new f.now size) }
    {
        let bytes = pool.bytes_mut(f);
        insert_front(bytes, size as usize, kind, i as usize, slot)
    }

    /// Takes slot i out.
    pub fn remove(pool: &mut Pool, f: &Frame, size: u16, kind: PageKind, i: u16)
        requires out { IsOut pool.old f.now }
        requires small { size ≤ 8192 }
        requires bucket { IsBucket kind size (bucket_in pool.old f.now size) }
        requires not_cells { has_cells kind ≡ false }
        requires there { i < length (slots_in kind pool.old f.now size) }
        ensures bucket { Holds kind size (removed (slots_in kind pool.old f.now size) i) (next_in pool.old f.now size) (bucket_in pool.new f.now size) }
        ensures rest { pool.new ≡ with_bucket_in pool.old f.now size (bucket_in pool.new f.now size) }
    {
        let bytes = pool.bytes_mut(f);
        remove_front(bytes, size as usize, kind, i as usize);
    }

    /// Puts another slot of the same length in the place of slot i.
    pub fn replace(pool: &mut Pool, f: &Frame, size: u16, kind: PageKind, i: u16, slot: &[u8])
        requires out { IsOut pool.old f.now }
        requires small { size ≤ 8192 }
        requires bucket { IsBucket kind size (bucket_in pool.old f.now size) }
        requires there { i < length (slots_in kind pool.old f.now size) }
        requires slot { suits kind slot.now ≡ true }
        requires same { length slot.now ≡ length (slot_at (slots_in kind pool.old f.now size) i) }
        requires order { ascend kind (replaced (slots_in kind pool.old f.now size) i slot.now) ≡ true }
        ensures bucket { Holds kind size (replaced (slots_in kind pool.old f.now size) i slot.now) (next_in pool.old f.now size) (bucket_in pool.new f.now size) }
        ensures rest { pool.new ≡ with_bucket_in pool.old f.now size (bucket_in pool.new f.now size) }
    {
        let bytes = pool.bytes_mut(f);
        replace_front(bytes, size as usize, kind, i as usize, slot);
    }

    /// Parts a bucket: its slots from place `at` on go to the bucket in `high`, which has none.
    pub fn split(pool: &mut Pool, low: &Frame, high: &Frame, size: u16, kind: PageKind, at: u16)
        requires low_out { IsOut pool.old low.now }
        requires high_out { IsOut pool.old high.now }
        requires apart { low.now ≢ high.now }
        requires small { size ≤ 8192 }
        requires bucket { IsBucket kind size (bucket_in pool.old low.now size) }
        requires empty { Holds kind size [] (next_in pool.old high.now size) (bucket_in pool.old high.now size) }
        requires not_cells { has_cells kind ≡ false }
        requires there { at ≤ length (slots_in kind pool.old low.now size) }
        ensures low { Holds kind size (take at (slots_in kind pool.old low.now size)) (next_in pool.old low.now size) (bucket_in pool.new low.now size) }
        ensures high { Holds kind size (drop at (slots_in kind pool.old low.now size)) (next_in pool.old high.now size) (bucket_in pool.new high.now size) }
        ensures rest { pool.new ≡ with_bucket_in (with_bucket_in pool.old low.now size (bucket_in pool.new low.now size)) high.now size (bucket_in pool.new high.now size) }
    {
        let mut upper = [0; FRAME_BYTES];
        read_frame(pool, high, &mut upper);
        split_low(pool, low, &mut upper, size, kind, at);
        write_frame(pool, high, &upper);
    }
}

// Reads all bytes of a frame.
fn read_frame(pool: &Pool, f: &Frame, bytes: &mut [u8; FRAME_BYTES])
    requires { IsOut pool.now f.now }
    ensures bytes { bytes.new ≡ frame_bytes pool.now f.now }
    ensures size { length (frame_bytes pool.now f.now) ≡ 8192 }
{
    bytes.copy_from_slice(pool.bytes(f));
}

// Writes all bytes of a frame.
fn write_frame(pool: &mut Pool, f: &Frame, bytes: &[u8; FRAME_BYTES])
    requires { IsOut pool.old f.now }
    ensures { pool.new ≡ slice_set pool.old f.now (Some bytes.now) }
{
    pool.bytes_mut(f).copy_from_slice(bytes);
}

// Parts the bucket in a frame: its slots from place `at` on go to a bucket without slots at the front of other bytes.
fn split_low(
    pool: &mut Pool,
    low: &Frame,
    high: &mut [u8; FRAME_BYTES],
    size: u16,
    kind: PageKind,
    at: u16,
)
    requires out { IsOut pool.old low.now }
    requires small { size ≤ 8192 }
    requires packed { IsPacked kind size (bucket_in pool.old low.now size) }
    requires empty { Packs kind size [] (next_of (take size high.old)) (take size high.old) }
    requires there { at ≤ length (slots_in kind pool.old low.now size) }
    ensures low { Packs kind size (take at (slots_in kind pool.old low.now size)) (next_in pool.old low.now size) (bucket_in pool.new low.now size) }
    ensures high { Packs kind size (drop at (slots_in kind pool.old low.now size)) (next_of (take size high.old)) (take size high.new) }
    ensures behind { drop size high.new ≡ drop size high.old }
    ensures rest { pool.new ≡ with_bucket_in pool.old low.now size (bucket_in pool.new low.now size) }
{
    let bytes = pool.bytes_mut(low);
    split_front(bytes, high, size as usize, kind, at as usize);
}
