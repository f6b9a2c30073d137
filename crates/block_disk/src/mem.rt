//! A platter in memory, which fails where it is told to.
ghost use Rattle.std.specs.Prelude.{◌≡◌, ◌<◌, ℕ, List, [], ◌∷◌, ◌++◌, Some, length, replicate, true, false, ◌==◌, IfOk, OnOk, OnErr, IfSome, slice_set, slice_index_or};
ghost use Rattle.std.specs.List.{list_any};
ghost use Rattle.block_disk.specs.Blocks.{block_at, IsWhole};
ghost use Rattle.block_disk.specs.Counts.{counted, is_err};

use crate::{Failed, Platter};
use std::alloc::{AllocError, Global};

/// Blocks in memory. It fails exactly the calls that `fail` named.
#[derive(Drop)]
pub struct MemPlatter {
    blocks: Vec<[u8; 512]>,
    failing: Vec<u32>,
    calls: u64,
    faults: u64,
    size: u32,
    synced: bool,
    ghost size_is: { length blocks.items ≡ size },
    ghost whole_blocks: { (n : ℕ) → n < size → length (slice_index_or blocks.items n []) ≡ 512 },
}

impl MemPlatter {
    ghost use Rattle.block_disk.specs.Mem.{failing_of, calls_of, blocks_of};

    /// So many blocks of zeros.
    pub fn new(alloc: Global, blocks: u32) -> Result<MemPlatter, AllocError>
        ensures zeros { IfOk result (λ m. blocks_of m ≡ replicate blocks (replicate 512 0)) }
        ensures failing { IfOk result (λ m. failing_of m ≡ []) }
        ensures calls { IfOk result (λ m. calls_of m ≡ 0) }
        ensures faults { IfOk result (λ m. ⟦<MemPlatter as Platter>⟧.faults m ≡ 0) }
        ensures size { IfOk result (λ m. ⟦<MemPlatter as Platter>⟧.size m ≡ blocks) }
        ensures synced { IfOk result (λ m. ⟦<MemPlatter as Platter>⟧.synced m ≡ true) }
    {
        Ok(MemPlatter {
            blocks: zeros(alloc, blocks)?,
            failing: Vec::new(alloc),
            calls: 0,
            faults: 0,
            size: blocks,
            synced: true,
        })
    }

    /// Lets this call fail, counted from 1 over its `read`, `write` and `sync` calls.
    pub fn fail(&mut self, call: u32) -> Result<(), AllocError>
        ensures ok { OnOk result (failing_of self.new ≡ failing_of self.old ++ call ∷ []) }
        ensures err { OnErr result (failing_of self.new ≡ failing_of self.old) }
        ensures calls { calls_of self.new ≡ calls_of self.old }
        ensures faults { ⟦<MemPlatter as Platter>⟧.faults self.new ≡ ⟦<MemPlatter as Platter>⟧.faults self.old }
        ensures size { ⟦<MemPlatter as Platter>⟧.size self.new ≡ ⟦<MemPlatter as Platter>⟧.size self.old }
        ensures synced { ⟦<MemPlatter as Platter>⟧.synced self.new ≡ ⟦<MemPlatter as Platter>⟧.synced self.old }
        ensures blocks { blocks_of self.new ≡ blocks_of self.old }
    {
        self.failing.push(call)?;
        Ok(())
    }
}

impl Platter for MemPlatter {
    ghost size = { λ m. m.size };

    ghost faults = { λ m. m.faults };

    ghost content = { λ m. Some m.blocks.items };

    ghost synced = { λ m. m.synced };

    ghost use Rattle.block_disk.specs.Mem.{fails_next, calls_of, failing_of};

    ghost whole = { λ m. record { count = m.size_is; each = m.whole_blocks } };

    fn blocks(&self) -> u32 {
        self.size
    }

    fn read(&mut self, n: u32, out: &mut [u8; 512]) -> Result<(), Failed>
        requires { n < self.old.size }
        ensures read { OnOk result (out.new ≡ block_at self.old.blocks.items n) }
        ensures content { self.new.blocks.items ≡ self.old.blocks.items }
        ensures synced { self.new.synced ≡ self.old.synced }
        ensures faults { self.new.faults ≡ counted (is_err result) self.old.faults }
        ensures size { self.new.size ≡ self.old.size }
        ensures exact { is_err result ≡ fails_next self.old }
        ensures calls { calls_of self.new ≡ counted true (calls_of self.old) }
        ensures failing { failing_of self.new ≡ failing_of self.old }
    {
        count(&self.failing, &mut self.calls, &mut self.faults)?;
        *out = self.blocks[n as usize];
        Ok(())
    }

    fn write(&mut self, n: u32, bytes: &[u8; 512]) -> Result<(), Failed>
        requires { n < self.old.size }
        ensures ok { OnOk result (self.new.blocks.items ≡ slice_set self.old.blocks.items n bytes.now) }
        ensures err { OnErr result ((any : List ℕ) × (self.new.blocks.items ≡ slice_set self.old.blocks.items n any)) }
        ensures unchanged { OnErr result (self.new.blocks.items ≡ self.old.blocks.items) }
        ensures synced { self.new.synced ≡ false }
        ensures faults { self.new.faults ≡ counted (is_err result) self.old.faults }
        ensures size { self.new.size ≡ self.old.size }
        ensures exact { is_err result ≡ fails_next self.old }
        ensures calls { calls_of self.new ≡ counted true (calls_of self.old) }
        ensures failing { failing_of self.new ≡ failing_of self.old }
    {
        self.synced = false;
        count(&self.failing, &mut self.calls, &mut self.faults)?;
        self.blocks[n as usize] = *bytes;
        Ok(())
    }

    fn sync(&mut self) -> Result<(), Failed>
        ensures content { self.new.blocks.items ≡ self.old.blocks.items }
        ensures synced { OnOk result (self.new.synced ≡ true) }
        ensures faults { self.new.faults ≡ counted (is_err result) self.old.faults }
        ensures size { self.new.size ≡ self.old.size }
        ensures exact { is_err result ≡ fails_next self.old }
        ensures calls { calls_of self.new ≡ counted true (calls_of self.old) }
        ensures failing { failing_of self.new ≡ failing_of self.old }
    {
        count(&self.failing, &mut self.calls, &mut self.faults)?;
        self.synced = true;
        Ok(())
    }
}

// Counts a call, and whether it fails.
fn count(failing: &[u32], calls: &mut u64, faults: &mut u64) -> Result<(), Failed>
    ensures calls { calls.new ≡ counted true calls.old }
    ensures faults { faults.new ≡ counted (is_err result) faults.old }
    ensures exact { is_err result ≡ list_any (λ call. call == calls.new) failing.now }
{
    *calls = calls.saturating_add(1);
    if is_among(failing, *calls) {
        *faults = faults.saturating_add(1);
        return Err(Failed);
    }
    Ok(())
}

fn is_among(failing: &[u32], now: u64) -> bool
    ensures { result ≡ list_any (λ call. call == now) failing.now }
{
    failing.iter().any(|call| u64::from(*call) == now)
}

fn zeros(alloc: Global, blocks: u32) -> Result<Vec<[u8; 512]>, AllocError>
    ensures { IfOk result (λ all. all.items ≡ replicate blocks (replicate 512 0)) }
{
    let mut all = Vec::with_capacity(alloc, blocks as usize)?;
    for _block in 0..blocks {
        all.push([0; 512])?;
    }
    Ok(all)
}
