//! Whether extents lie in the data area, and apart from each other.
ghost use Rattle.std.specs.Prelude.{◌≡◌, ◌<◌, ℕ, true, false, IfSome, IfNone, length};
ghost use Rattle.extents.specs.Extents.{FitsAt, FitsBehind, covers};

use crate::Extent;

// Whether an extent has no block.
fn has_none(e: &Extent) -> bool
    ensures { result ≡ true → (n : ℕ) → covers e.now n ≡ false }
{
    e.start >= e.end
}

// Whether each block of an extent lies in the area.
fn is_within(e: &Extent, area: &Extent) -> bool
    ensures yes { result ≡ true → (n : ℕ) → covers e.now n ≡ true → covers area.now n ≡ true }
    ensures no { result ≡ false → (n : ℕ) × (covers e.now n ≡ true) × (covers area.now n ≡ false) }
{
    e.start >= e.end || (area.start <= e.start && e.end <= area.end)
}

// Whether two extents have no block in common.
fn is_apart(e: &Extent, other: &Extent) -> bool
    ensures yes { result ≡ true → (n : ℕ) → covers e.now n ≡ true → covers other.now n ≡ false }
    ensures no { result ≡ false → (n : ℕ) × (covers e.now n ≡ true) × (covers other.now n ≡ true) }
{
    e.start.max(other.start) >= e.end.min(other.end)
}

// Whether an extent lies in the area, and apart from these.
fn fits_behind(area: &Extent, before: &[Extent], e: &Extent) -> bool
    ensures yes { result ≡ true → FitsBehind area.now before.now e.now }
    ensures no { result ≡ false → FitsBehind area.now before.now e.now → ⊥ }
{
    // Most of a volume's extents have none, and are not held against the others.
    if has_none(e) {
        return true;
    }
    if !is_within(e, area) {
        return false;
    }
    for other in before {
        if !is_apart(e, other) {
            return false;
        }
    }
    true
}

/// Whether the extent at a place of a list lies in the area, and has no block of an extent before it.
pub fn fits_at(area: &Extent, extents: &[Extent], i: usize) -> bool
    requires { i < length extents.now }
    ensures yes { result ≡ true → FitsAt area.now extents.now i }
    ensures no { result ≡ false → FitsAt area.now extents.now i → ⊥ }
{
    fits_behind(area, &extents[..i], &extents[i])
}

/// The first extent that does not lie in the area, or has a block of an extent before it.
pub fn first_misfit(area: &Extent, extents: &[Extent]) -> Option<usize>
    ensures found { IfSome result (λ i. (i < length extents.now) × (FitsAt area.now extents.now i → ⊥)) }
    ensures lowest { IfSome result (λ i. (k : ℕ) → k < i → FitsAt area.now extents.now k) }
    ensures none { IfNone result ((k : ℕ) → k < length extents.now → FitsAt area.now extents.now k) }
{
    for i in 0..extents.len() {
        if !fits_at(area, extents, i) {
            return Some(i);
        }
    }
    None
}
