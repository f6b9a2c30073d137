//! Runs of free blocks.
ghost use Rattle.std.specs.Prelude.{◌≡◌, ◌+◌, ◌<◌, ◌≤◌, ℕ, true, false, IfSome, IfNone, List};
ghost use Rattle.extents.specs.Extents.{IsFreeRun, IsNextRun, is_used};

use crate::Extent;

// The end of an extent that has the block. None where no extent has it.
fn used_until(extents: &[Extent], block: u64) -> Option<u64>
    ensures used { IfSome result (λ end. (block < end) × ((b : ℕ) → block ≤ b → b < end → is_used extents.now b ≡ true)) }
    ensures none { IfNone result (is_used extents.now block ≡ false) }
{
    for e in extents {
        if e.covers(block) {
            return Some(e.end);
        }
    }
    None
}

// The first block behind a free one that is used, or the end.
fn free_until(extents: &[Extent], block: u64, end: u64) -> u64
    requires free { is_used extents.now block ≡ false }
    requires within { block < end }
    ensures behind { block < result }
    ensures within { result ≤ end }
    ensures free { (b : ℕ) → block ≤ b → b < result → is_used extents.now b ≡ false }
    ensures stops { result < end → is_used extents.now result ≡ true }
{
    let mut until = end;
    for e in extents {
        if e.start < e.end && block < e.start && e.start < until {
            until = e.start;
        }
    }
    until
}

// The first run of free blocks that begins at a block or behind it, as far as it goes.
fn next_run(extents: &[Extent], at: u64, end: u64) -> Option<Extent>
    ensures some { IfSome result (λ run. IsNextRun extents.now at end run) }
    ensures none { IfNone result ((b : ℕ) → at ≤ b → b < end → is_used extents.now b ≡ true) }
{
    let mut block = at;
    while block < end {
        match used_until(extents, block) {
            Some(next) => block = next,
            None => {
                return Some(Extent {
                    start: block,
                    end: free_until(extents, block, end),
                });
            }
        }
    }
    None
}

/// The lowest block of an area at which a run of so many free blocks begins.
pub fn free_run(extents: &[Extent], area: Extent, blocks: u32) -> Option<u64>
    ensures found { IfSome result (λ start. IsFreeRun area extents.now start blocks) }
    ensures lowest { IfSome result (λ start. (lower : ℕ) → lower < start → IsFreeRun area extents.now lower blocks → ⊥) }
    ensures none { IfNone result ((start : ℕ) → IsFreeRun area extents.now start blocks → ⊥) }
{
    let mut at = area.start;
    while let Some(run) = next_run(extents, at, area.end) {
        if run.end - run.start >= u64::from(blocks) {
            return Some(run.start);
        }
        at = run.end;
    }
    None
}

/// How many blocks the longest run of free blocks of an area has.
pub fn longest_free(extents: &[Extent], area: Extent) -> u64
    ensures found { 0 < result → (start : ℕ) × IsFreeRun area extents.now start result }
    ensures longest { (start blocks : ℕ) → IsFreeRun area extents.now start blocks → blocks ≤ result }
    ensures within { result ≤ area.end }
{
    let mut most = 0;
    let mut at = area.start;
    while let Some(run) = next_run(extents, at, area.end) {
        most = most.max(run.end - run.start);
        at = run.end;
    }
    most
}
