// The index of an indexed file: to how many buckets each of its buckets leads, and what becomes of that where buckets are parted.
ghost use Rattle.std.specs.Prelude.{◌≡◌, ◌<◌, ◌≤◌, ◌+◌, ◌^◌, [], ◌∷◌, length, IfOk};
ghost use Rattle.run_model.specs.tree_model.Setting as setting;
ghost use Rattle.reference_index.specs.Standing.{index_of};

use crate::layouts::Level;
use crate::lists::{append, push_front, take_first};
use std::alloc::{AllocError, Global};

// So many entries in one index bucket, or in two, the lesser half in the first, where they are too many.
fn halves(alloc: Global, fan_out: u64, n: u64, more: u64) -> Result<Vec<u64>, AllocError>
    ensures { IfOk result (λ v. v.items ≡ setting.halves fan_out (n + more)) }
{
    let all = u128::from(n) + u128::from(more);
    let mut parts = Vec::new(alloc);
    if all <= u128::from(fan_out) {
        push_front(&mut parts, all as u64)?;
    } else {
        let lower = all / 2;
        push_front(&mut parts, (all - lower) as u64)?;
        push_front(&mut parts, lower as u64)?;
    }
    Ok(parts)
}

// A level of which the bucket over place p of the level below has so many entries more.
fn level_with(
    alloc: Global,
    fan_out: u64,
    p: u64,
    more: u64,
    level: &[u64],
) -> Result<Vec<u64>, AllocError>
    ensures { IfOk result (λ v. v.items ≡ setting.level_with fan_out p more level.now) }
{
    match level {
        [] => Ok(Vec::new(alloc)),
        [n, rest @ ..] => {
            if p < *n {
                let parts = halves(alloc, fan_out, *n, more)?;
                append(parts, rest.to_vec(alloc)?)
            } else {
                let mut all = level_with(alloc, fan_out, p - *n, more, rest)?;
                push_front(&mut all, *n)?;
                Ok(all)
            }
        }
    }
}

// The place of that bucket.
fn place_above(p: u64, level: &[u64]) -> u64
    ensures place { result ≡ setting.place_above p level.now }
    ensures within { result ≤ length level.now }
{
    match level {
        [] => 0,
        [n, rest @ ..] => {
            if p < *n {
                0
            } else {
                place_above(p - *n, rest) + 1
            }
        }
    }
}

// A root over the old one and so many more.
fn root_over(alloc: Global, more: u64) -> Result<Vec<Level>, AllocError>
    requires { more < 2 ^ 63 }
    ensures { IfOk result (λ v. index_of v.items ≡ ((more + 1) ∷ []) ∷ []) }
{
    let mut children = Vec::new(alloc);
    push_front(&mut children, more + 1)?;
    let mut levels = Vec::new(alloc);
    push_front(&mut levels, Level { children })?;
    Ok(levels)
}

/// An index below which the bucket at place p became so many more.
pub fn index_with(
    alloc: Global,
    fan_out: u64,
    p: u64,
    more: u64,
    index: Vec<Level>,
) -> Result<Vec<Level>, AllocError>
    requires { more < 2 ^ 63 }
    ensures { IfOk result (λ v. index_of v.items ≡ setting.index_with fan_out p more (index_of index.items)) }
{
    if more == 0 {
        return Ok(index);
    }
    let mut above = index;
    match take_first(&mut above) {
        None => root_over(alloc, more),
        Some(level) => {
            let old = level.children.as_slice();
            let children = level_with(alloc, fan_out, p, more, old)?;
            let added = children.len().saturating_sub(old.len());
            let place = place_above(p, old);
            let mut all = index_with(alloc, fan_out, place, added as u64, above)?;
            push_front(&mut all, Level { children })?;
            Ok(all)
        }
    }
}
