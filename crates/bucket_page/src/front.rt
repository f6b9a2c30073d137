//! The bucket in the first bytes of a frame, or of other bytes.
ghost use Rattle.std.specs.Prelude.{◌↔◌, ◌≡◌, ◌≤◌, ◌<◌, ◌+◌, ℕ, true, false, [], length, take, drop};
ghost use Rattle.bucket_page.specs.Pages.{slots_of, next_of, joined, suits, tag_of, header, u32_bytes, has_cells, IsPacked, Packs, inserted, removed, replaced, slot_at};

use crate::bytes::{front, put_next};
use crate::kind::PageKind;
use crate::packed::{insert_slot, remove_slot, replace_slot, split_slots};
use file_base::{splice, splice_zeros};

/// Writes a bucket without slots into the first `size` bytes. What stands behind them stays, here and in the calls below.
pub fn clear_front(frame: &mut [u8], size: usize, kind: PageKind, next: u32)
    requires least { 16 ≤ size }
    requires within { size ≤ length frame.old }
    ensures packed { Packs kind size [] next (take size frame.new) }
    ensures behind { drop size frame.new ≡ drop size frame.old }
{
    splice_zeros(frame, 0, size);
    splice(frame, 0, &front(kind, 0, 0, next));
}

/// Writes another next bucket.
pub fn link_front(frame: &mut [u8], size: usize, kind: PageKind, next: u32)
    requires within { size ≤ length frame.old }
    requires packed { IsPacked kind size (take size frame.old) }
    ensures packed { Packs kind size (slots_of kind (take size frame.old)) next (take size frame.new) }
    ensures behind { drop size frame.new ≡ drop size frame.old }
{
    put_next(frame, next);
}

/// Puts a slot in at place i. False exactly where it does not fit; then nothing changes.
pub fn insert_front(frame: &mut [u8], size: usize, kind: PageKind, i: usize, slot: &[u8]) -> bool
    requires within { size ≤ length frame.old }
    requires small { size ≤ 8192 }
    requires packed { IsPacked kind size (take size frame.old) }
    requires there { i ≤ length (slots_of kind (take size frame.old)) }
    requires slot { suits kind slot.now ≡ true }
    ensures yes { result ≡ true → Packs kind size (inserted (slots_of kind (take size frame.old)) i slot.now) (next_of (take size frame.old)) (take size frame.new) }
    ensures not_yet { result ≡ false → frame.new ≡ frame.old }
    ensures full { (result ≡ false) ↔ (size < 16 + length (joined (slots_of kind (take size frame.old))) + length slot.now) }
    ensures behind { drop size frame.new ≡ drop size frame.old }
{
    insert_slot(&mut frame[..size], kind, i, slot)
}

/// Takes slot i out.
pub fn remove_front(frame: &mut [u8], size: usize, kind: PageKind, i: usize)
    requires within { size ≤ length frame.old }
    requires small { size ≤ 8192 }
    requires packed { IsPacked kind size (take size frame.old) }
    requires there { i < length (slots_of kind (take size frame.old)) }
    ensures packed { Packs kind size (removed (slots_of kind (take size frame.old)) i) (next_of (take size frame.old)) (take size frame.new) }
    ensures behind { drop size frame.new ≡ drop size frame.old }
{
    remove_slot(&mut frame[..size], kind, i);
}

/// Puts another slot of the same length in the place of slot i.
pub fn replace_front(frame: &mut [u8], size: usize, kind: PageKind, i: usize, slot: &[u8])
    requires within { size ≤ length frame.old }
    requires small { size ≤ 8192 }
    requires packed { IsPacked kind size (take size frame.old) }
    requires there { i < length (slots_of kind (take size frame.old)) }
    requires slot { suits kind slot.now ≡ true }
    requires same { length slot.now ≡ length (slot_at (slots_of kind (take size frame.old)) i) }
    ensures packed { Packs kind size (replaced (slots_of kind (take size frame.old)) i slot.now) (next_of (take size frame.old)) (take size frame.new) }
    ensures behind { drop size frame.new ≡ drop size frame.old }
{
    replace_slot(&mut frame[..size], kind, i, slot);
}

/// Parts a bucket: the slots of `low` from place `at` on go to `high`, which had none.
pub fn split_front(low: &mut [u8], high: &mut [u8], size: usize, kind: PageKind, at: usize)
    requires low_within { size ≤ length low.old }
    requires high_within { size ≤ length high.old }
    requires small { size ≤ 8192 }
    requires packed { IsPacked kind size (take size low.old) }
    requires empty { Packs kind size [] (next_of (take size high.old)) (take size high.old) }
    requires there { at ≤ length (slots_of kind (take size low.old)) }
    ensures low { Packs kind size (take at (slots_of kind (take size low.old))) (next_of (take size low.old)) (take size low.new) }
    ensures high { Packs kind size (drop at (slots_of kind (take size low.old))) (next_of (take size high.old)) (take size high.new) }
    ensures low_behind { drop size low.new ≡ drop size low.old }
    ensures high_behind { drop size high.new ≡ drop size high.old }
{
    split_slots(&mut low[..size], &mut high[..size], kind, at);
}
