//! Whether bytes are those of a bucket.
ghost use Rattle.std.specs.Prelude.{◌↔◌, ◌≡◌, ◌≤◌, ◌<◌, ◌+◌, ◌-◌, ◌*◌, ℕ, List, true, false, IsTrue, EachIndex, slice_index, IfSome, IfNone, length, take, drop};
ghost use Rattle.std.specs.Ordering.{nat_cmp, is_lt};
ghost use Rattle.std.specs.Cmp.Lexicographic.{slice_cmp};
ghost use Rattle.file_base.specs.Bytes.{piece_at};
ghost use Rattle.bucket_page.specs.Pages.{u16_at, u32_at, header, tag_of, front_size, front_slot, slots_from, slots_of, next_of, joined, tells_well, suits, all_suit, may_precede, ascend, may_count, may_follow, IsPacked, IsBucket, reach};

use crate::bytes::{front, front_len, is_zero, read_u16, read_u32};
use crate::kind::PageKind;
use std::cmp::Ordering;

// Whether the numbers of the slot at a place are in range.
fn numbers_fit(bytes: &[u8], at: usize, kind: PageKind) -> bool
    requires { at + front_size kind (drop at bytes.now) ≤ length bytes.now }
    ensures { result ≡ tells_well kind (front_slot kind (drop at bytes.now)) }
{
    match kind {
        PageKind::Seq => true,
        PageKind::Rel { mrs } => read_u16(bytes, at) <= mrs,
        PageKind::Data { key_pos, key_size } => {
            let room = read_u16(bytes, at);
            read_u16(bytes, at + 2) <= room && key_pos as u32 + key_size as u32 <= room as u32
        }
        PageKind::Index { .. } => true,
    }
}

// The length of the slot at a place. None exactly where none of the kind stands there.
fn slot_size(bytes: &[u8], at: usize, kind: PageKind) -> Option<usize>
    requires { at ≤ length bytes.now }
    ensures some { IfSome result (λ n. (suits kind (front_slot kind (drop at bytes.now)) ≡ true) × (n ≡ length (front_slot kind (drop at bytes.now)))) }
    ensures none { IfNone result (suits kind (front_slot kind (drop at bytes.now)) ≡ false) }
{
    if bytes.len() - at < 2 {
        return None;
    }
    let size = front_len(bytes, at, kind);
    if size > bytes.len() - at {
        return None;
    }
    if !numbers_fit(bytes, at, kind) {
        return None;
    }
    Some(size)
}

// Where so many slots behind the header end. None exactly where not all of them are slots of the kind.
fn slots_end(bytes: &[u8], kind: PageKind, count: u16) -> Option<usize>
    requires { 16 ≤ length bytes.now }
    ensures some { IfSome result (λ end. (all_suit kind (slots_from kind count (drop 16 bytes.now)) ≡ true) × (end ≡ 16 + length (joined (slots_from kind count (drop 16 bytes.now))))) }
    ensures within { IfSome result (λ end. end ≤ length bytes.now) }
    ensures none { IfNone result (all_suit kind (slots_from kind count (drop 16 bytes.now)) ≡ false) }
{
    let mut at = 16;
    for k in 0..count {
        match slot_size(bytes, at, kind) {
            Some(size) => at += size,
            None => return None,
        }
    }
    Some(at)
}

// Whether the bytes begin with the header that tells what is read there.
fn has_front(bytes: &[u8], kind: PageKind) -> bool
    requires { 16 ≤ length bytes.now }
    ensures { IsTrue result ↔ take 16 bytes.now ≡ header (tag_of kind) (u16_at bytes.now 2) (u16_at bytes.now 4) (u32_at bytes.now 8) }
{
    let head = front(
        kind,
        read_u16(bytes, 2),
        read_u16(bytes, 4),
        read_u32(bytes, 8),
    );
    bytes[..16] == head[..]
}

// Whether all bytes from a place on are zero.
fn is_blank(bytes: &[u8], from: usize) -> bool
    requires { from ≤ length bytes.now }
    ensures { IsTrue result ↔ EachIndex (drop from bytes.now) (λ k. slice_index (drop from bytes.now) k ≡ 0) }
{
    is_zero(&bytes[from..])
}

// Whether the bytes are those of a header and of the slots that it tells, and zeros behind them.
fn is_packed(bytes: &[u8], kind: PageKind) -> bool
    ensures yes { result ≡ true → IsPacked kind (length bytes.now) bytes.now }
    ensures no { result ≡ false → IsPacked kind (length bytes.now) bytes.now → ⊥ }
{
    if bytes.len() < 16 {
        return false;
    }
    if !has_front(bytes, kind) {
        return false;
    }
    match slots_end(bytes, kind, read_u16(bytes, 2)) {
        Some(end) => {
            if end != 16 + read_u16(bytes, 4) as usize {
                return false;
            }
            is_blank(bytes, end)
        }
        None => false,
    }
}

// Whether the key at one place comes before the one at another.
fn key_before(bytes: &[u8], a: usize, b: usize, size: usize) -> bool
    requires first { a + size ≤ length bytes.now }
    requires second { b + size ≤ length bytes.now }
    ensures { result ≡ is_lt (slice_cmp nat_cmp (piece_at bytes.now a size) (piece_at bytes.now b size)) }
{
    bytes[a..a + size].cmp(&bytes[b..b + size]) == Ordering::Less
}

// Whether the slot at one place may stand before the one at another.
fn precedes(bytes: &[u8], kind: PageKind, a: usize, b: usize) -> bool
    requires first { a + front_size kind (drop a bytes.now) ≤ length bytes.now }
    requires second { b + front_size kind (drop b bytes.now) ≤ length bytes.now }
    requires one { suits kind (front_slot kind (drop a bytes.now)) ≡ true }
    requires other { suits kind (front_slot kind (drop b bytes.now)) ≡ true }
    ensures { result ≡ may_precede kind (front_slot kind (drop a bytes.now)) (front_slot kind (drop b bytes.now)) }
{
    match kind {
        PageKind::Seq => true,
        PageKind::Rel { .. } => true,
        PageKind::Data { key_pos, key_size } => {
            let at = 4 + key_pos as usize;
            key_before(bytes, a + at, b + at, key_size as usize)
        }
        PageKind::Index { key_size } => key_before(bytes, a, b, key_size as usize),
    }
}

// Whether each slot of a kind may stand before each other.
fn has_no_order(kind: PageKind) -> bool
    ensures { result ≡ true → (a b : List ℕ) → may_precede kind a b ≡ true }
{
    match kind {
        PageKind::Seq => true,
        PageKind::Rel { .. } => true,
        PageKind::Data { .. } => false,
        PageKind::Index { .. } => false,
    }
}

// Whether the slots ascend.
fn is_ascending(bytes: &[u8], kind: PageKind) -> bool
    requires { IsPacked kind (length bytes.now) bytes.now }
    ensures { result ≡ ascend kind (slots_of kind bytes.now) }
{
    if has_no_order(kind) {
        return true;
    }
    let count = read_u16(bytes, 2);
    let mut last = 16;
    let mut at = 16;
    for k in 0..count {
        if k > 0 && !precedes(bytes, kind, last, at) {
            return false;
        }
        last = at;
        at += front_len(bytes, at, kind);
    }
    true
}

// Whether so many slots may be in a bucket of so many bytes.
fn number_fits(kind: PageKind, size: usize, count: u16) -> bool
    requires { 16 ≤ size }
    ensures { result ≡ may_count kind size count }
{
    match kind {
        PageKind::Rel { mrs } => count as usize == (size - 16) / (mrs as usize + 2),
        _ => true,
    }
}

// Whether a bucket of the kind may have this next bucket.
fn next_fits(kind: PageKind, next: u32) -> bool
    ensures { result ≡ may_follow kind next }
{
    match kind {
        PageKind::Data { .. } => true,
        _ => next == u32::MAX,
    }
}

/// How many slots a bucket has. None exactly where the bytes are not laid out as those of a bucket of this kind.
pub(crate) fn count_slots(bytes: &[u8], kind: PageKind) -> Option<u16>
    ensures some { IfSome result (λ n. IsBucket kind (length bytes.now) bytes.now × (n ≡ length (slots_of kind bytes.now))) }
    ensures none { IfNone result (IsBucket kind (length bytes.now) bytes.now → ⊥) }
{
    if !is_packed(bytes, kind) {
        return None;
    }
    let count = read_u16(bytes, 2);
    if !number_fits(kind, bytes.len(), count) {
        return None;
    }
    if !next_fits(kind, read_u32(bytes, 8)) {
        return None;
    }
    if !is_ascending(bytes, kind) {
        return None;
    }
    Some(count)
}
