//! A table of numbered blocks by ascending number, whose room is reserved.
ghost use Rattle.std.specs.Prelude.{◌≡◌, ◌<◌, ◌≤◌, ◌↔◌, IsTrue, ℕ, true, [], Some, None, IfOk, MatchOption, length, slice_index_or, option_copied, vec_len, vec_capacity};
ghost use Rattle.block_disk.specs.Blocks.{found, upsert, ascends};

use std::alloc::{AllocError, Global};
use std::marker::Model;

/// Blocks by ascending number. What holds a table and fills it takes no memory after `reserve`.
#[derive(Drop)]
pub struct BlockTable {
    entries: Vec<(u32, [u8; 512])>,
    room: usize,
}

impl Model for BlockTable {
    ghost use Rattle.std.specs.Prelude.{◌≡◌, ◌≤◌, true, length, vec_capacity};
    ghost use Rattle.block_disk.specs.Blocks.{Table, ascends};

    ghost Value = { Table };

    ghost view = { λ t. record { entries = t.entries.items; room = t.room } };

    ghost invariant = { λ t. (t.room ≤ vec_capacity t.entries) × (length t.entries.items ≤ t.room) × (ascends 0 t.entries.items ≡ true) };
}

impl BlockTable {
    /// An empty table with room for so many blocks.
    pub fn reserve(alloc: Global, room: usize) -> Result<BlockTable, AllocError>
        ensures { IfOk result (λ table. table ≡ record { entries = []; room = room }) }
    {
        Ok(BlockTable {
            entries: Vec::with_capacity(alloc, room)?,
            room,
        })
    }

    /// How many blocks it has.
    pub fn len(&self) -> usize
        ensures value { result ≡ length self.now.entries }
        ensures within { result ≤ self.now.room }
        ensures ascending { ascends 0 self.now.entries ≡ true }
    {
        self.entries.len()
    }

    /// Whether it has no block.
    pub fn is_empty(&self) -> bool
        ensures { IsTrue result ↔ (self.now.entries ≡ []) }
    {
        self.entries.is_empty()
    }

    /// The bytes of block `n`, where the table has it.
    pub fn get(&self, n: u32) -> Option<&[u8; 512]>
        ensures { option_copied result ≡ found n self.now.entries }
    {
        match place_of(&self.entries, n) {
            None => None,
            Some(i) => Some(&self.entries[i].1),
        }
    }

    /// The number and the bytes of the `i`-th block, from 0.
    pub fn at(&self, i: usize) -> (u32, &[u8; 512])
        requires { i < length self.now.entries }
        ensures number { result.0 ≡ (slice_index_or self.now.entries i (0, [])).0 }
        ensures bytes { result.1.now ≡ (slice_index_or self.now.entries i (0, [])).1 }
    {
        let entry = &self.entries[i];
        (entry.0, &entry.1)
    }

    /// Adds block `n`, or replaces its bytes.
    pub fn put(&mut self, n: u32, bytes: &[u8; 512])
        requires { length self.old.entries < self.old.room }
        ensures { self.new ≡ record self.old { entries = upsert n bytes.now self.old.entries } }
    {
        put_entry(&mut self.entries, n, bytes);
    }

    /// Takes all entries away; the room stays.
    pub fn clear(&mut self)
        ensures { self.new ≡ record self.old { entries = [] } }
    {
        self.entries.clear();
    }
}

fn place_of(entries: &[(u32, [u8; 512])], n: u32) -> Option<usize>
    requires { ascends 0 entries.now ≡ true }
    ensures { MatchOption result (found n entries.now ≡ None) (λ i. (i < length entries.now) × (found n entries.now ≡ Some (slice_index_or entries.now i (0, [])).1)) }
{
    let i = place_not_below(entries, n);
    if i < entries.len() && entries[i].0 == n {
        Some(i)
    } else {
        None
    }
}

// The first place whose number is not below n.
fn place_not_below(entries: &[(u32, [u8; 512])], n: u32) -> usize
    requires { ascends 0 entries.now ≡ true }
    ensures within { result ≤ length entries.now }
    ensures before { (k : ℕ) → k < result → (slice_index_or entries.now k (0, [])).0 < n }
    ensures here { result < length entries.now → n ≤ (slice_index_or entries.now result (0, [])).0 }
{
    entries.partition_point(|entry| entry.0 < n)
}

// Whether a place is behind all entries.
fn is_behind(entries: &[(u32, [u8; 512])], i: usize) -> bool
    ensures { result ≡ true → length entries.now ≤ i }
{
    i >= entries.len()
}

fn put_entry(entries: &mut Vec<(u32, [u8; 512])>, n: u32, bytes: &[u8; 512])
    requires room { vec_len entries.old < vec_capacity entries.old }
    requires ascending { ascends 0 entries.old.items ≡ true }
    ensures items { entries.new.items ≡ upsert n bytes.now entries.old.items }
    ensures capacity { vec_capacity entries.old ≤ vec_capacity entries.new }
{
    let i = place_not_below(entries, n);
    // Most blocks come in the order of their numbers, and a push moves their bytes less often than an insertion.
    if is_behind(entries, i) {
        entries.push_reserved((n, *bytes));
        return;
    }
    if i < entries.len() && entries[i].0 == n {
        entries[i] = (n, *bytes);
    } else {
        let _ = entries.insert(i, (n, *bytes));
    }
}
