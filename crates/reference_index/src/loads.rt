// The layout of an indexed file that is loaded with slots in the order of their keys.
ghost use Rattle.std.specs.Prelude.{◌≡◌, ℕ, ◌∷◌, [], length, replicate, IfOk};
ghost use Rattle.run_model.specs.tree_model.Loads as loads;
ghost use Rattle.reference_index.specs.Standing.{slots_of, chain_of, layout_of, sizes_of, index_of};

use crate::layouts::{Bucket, Layout, Level, Sizes, Slot};
use crate::leaves::leaves_from;
use crate::lists::{push_back, push_front};
use crate::parts::fits;
use crate::slots::{copy_slot, copy_slots};
use std::alloc::{AllocError, Global};

// Slots in leaves, each of which is filled before the next; the first ones stand in the leaf that is being filled.
fn filled(
    alloc: Global,
    capacity: u64,
    now: Vec<Slot>,
    all: &[Slot],
) -> Result<Vec<Bucket>, AllocError>
    ensures { IfOk result (λ v. chain_of v.items ≡ loads.filled capacity (slots_of now.items) (slots_of all.now)) }
{
    match all {
        [] => {
            let mut last = Vec::new(alloc);
            push_front(&mut last, Bucket { slots: now })?;
            Ok(last)
        }
        [s, rest @ ..] => {
            let mut more = copy_slots(alloc, now.as_slice())?;
            push_back(&mut more, copy_slot(alloc, s)?)?;
            if fits(more.as_slice(), capacity) {
                return filled(alloc, capacity, more, rest);
            }
            let mut first = Vec::new(alloc);
            push_front(&mut first, copy_slot(alloc, s)?)?;
            let mut behind = filled(alloc, capacity, first, rest)?;
            push_front(&mut behind, Bucket { slots: now })?;
            Ok(behind)
        }
    }
}

// One bucket that leads to so many.
fn one_bucket(alloc: Global, n: u64) -> Result<Vec<u64>, AllocError>
    ensures { IfOk result (λ v. v.items ≡ n ∷ []) }
{
    let mut one = Vec::new(alloc);
    push_front(&mut one, n)?;
    Ok(one)
}

// Buckets shared among those of the level over them, each of which is filled before the next. At most so many more of these are made.
fn shared(alloc: Global, fan_out: u64, most: u64, n: u64) -> Result<Vec<u64>, AllocError>
    ensures { IfOk result (λ v. v.items ≡ loads.shared fan_out most n) }
{
    if most == 0 {
        return one_bucket(alloc, n);
    }
    if n <= fan_out {
        return one_bucket(alloc, n);
    }
    let mut all = shared(alloc, fan_out, most - 1, n - fan_out)?;
    push_front(&mut all, fan_out)?;
    Ok(all)
}

// The levels over so many buckets, until one has one bucket. At most so many are made.
fn index_over(alloc: Global, fan_out: u64, most: u64, n: u64) -> Result<Vec<Level>, AllocError>
    ensures { IfOk result (λ v. index_of v.items ≡ loads.index_over fan_out most n) }
{
    if most == 0 {
        return Ok(Vec::new(alloc));
    }
    if n <= 1 {
        return Ok(Vec::new(alloc));
    }
    let children = shared(alloc, fan_out, n, n)?;
    let buckets = children.len() as u64;
    let mut all = index_over(alloc, fan_out, most - 1, buckets)?;
    push_front(&mut all, Level { children })?;
    Ok(all)
}

// The lowest key of so many bytes.
fn lowest_key(alloc: Global, size: u32) -> Result<Vec<u8>, AllocError>
    ensures { IfOk result (λ v. v.items ≡ replicate size 0) }
{
    vec![in alloc; 0u8; size as usize]
}

/// The layout of these slots, whose keys have so many bytes and ascend.
pub fn layout_loaded(
    alloc: Global,
    sizes: Sizes,
    key_size: u32,
    all: &[Slot],
) -> Result<Layout, AllocError>
    ensures { IfOk result (λ l. layout_of l ≡ loads.loaded (sizes_of sizes) key_size (slots_of all.now)) }
{
    let parts = filled(alloc, sizes.capacity, Vec::new(alloc), all)?;
    let count = parts.len() as u64;
    let lowest = lowest_key(alloc, key_size)?;
    let leaves = leaves_from(alloc, lowest, parts)?;
    let index = index_over(alloc, sizes.fan_out, count, count)?;
    Ok(Layout { leaves, index })
}
