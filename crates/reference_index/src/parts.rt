// How a bucket that overflows is parted.
ghost use Rattle.std.specs.Prelude.{◌≡◌, ◌<◌, ◌≤◌, ℕ, List, option_map, nat_lt, nat_le, if◌then◌else◌, length, ◌∷◌, take, drop, is_some, IfOk, IfSome, None};
ghost use Rattle.run_model.specs.records_model.Parts as parts;
ghost use Rattle.reference_index.specs.Standing.{slots_of, chain_of};

use crate::layouts::{Bucket, Slot};
use crate::lists::push_front;
use crate::slots::copy_slots;
use std::alloc::{AllocError, Global};
use std::cmp::max;

// The bytes of slots, where they are at most so many.
fn bytes_within(all: &[Slot], cap: u64) -> Option<u64>
    ensures within { IfSome result (λ n. (n ≡ parts.bytes_of (slots_of all.now)) × (n ≤ cap)) }
    ensures past { result ≡ None → cap < parts.bytes_of (slots_of all.now) }
{
    match all {
        [] => Some(0),
        [s, rest @ ..] => {
            let room = s.room as u64;
            if cap < 4 || cap - 4 < room {
                return None;
            }
            match bytes_within(rest, cap - 4 - room) {
                Some(n) => Some(4 + room + n),
                None => None,
            }
        }
    }
}

/// Whether the bytes of slots are at most so many.
pub fn fits(all: &[Slot], cap: u64) -> bool
    ensures { result ≡ nat_le (parts.bytes_of (slots_of all.now)) cap }
{
    match bytes_within(all, cap) {
        Some(_) => true,
        None => false,
    }
}

// The first so many slots.
fn front(all: &[Slot], n: usize) -> &[Slot]
    ensures { slots_of result.now ≡ take n (slots_of all.now) }
{
    if n <= all.len() { &all[..n] } else { all }
}

// The slots behind the first so many.
fn behind(all: &[Slot], n: usize) -> &[Slot]
    ensures { slots_of result.now ≡ drop n (slots_of all.now) }
{
    if n <= all.len() { &all[n..] } else { &[] }
}

// The bytes of the greater of two parts, where both fit and have slots.
fn greater_where_fits(cap: u64, all: &[Slot], j: usize) -> Option<u64>
    ensures fits { is_some result ≡ parts.fits_at cap (slots_of all.now) j }
    ensures greater { IfSome result (λ n. n ≡ parts.greater_part (slots_of all.now) j) }
{
    if j < 1 || all.len() <= j {
        return None;
    }
    let first = bytes_within(front(all, j), cap)?;
    let second = bytes_within(behind(all, j), cap)?;
    Some(max(first, second))
}

/// A place at which slots are parted, and the bytes of the greater part.
#[derive(Clone, Copy, Drop)]
pub struct Place {
    pub at: usize,
    pub greater: u64,
}

// The better of two places, the first of which is the lower.
fn better(lower: Option<Place>, higher: Place) -> Place
    ensures of_two { IfSome lower (λ p. result ≡ (if nat_lt higher.greater p.greater then higher else p)) }
    ensures of_one { lower ≡ None → result ≡ higher }
{
    match lower {
        None => higher,
        Some(p) => {
            if higher.greater < p.greater {
                higher
            } else {
                p
            }
        }
    }
}

// The best of the places below this one that fit.
fn best_below(cap: u64, all: &[Slot], bound: usize) -> Option<Place>
    ensures best { option_map (λ p. p.at) result ≡ parts.best_below cap (slots_of all.now) bound }
    ensures greater { IfSome result (λ p. p.greater ≡ parts.greater_part (slots_of all.now) p.at) }
{
    if bound == 0 {
        return None;
    }
    let at = bound - 1;
    let lower = best_below(cap, all, at);
    match greater_where_fits(cap, all, at) {
        None => lower,
        Some(greater) => Some(better(lower, Place { at, greater })),
    }
}

// One more bucket in front, of these slots.
fn bucket_before(
    alloc: Global,
    all: &[Slot],
    buckets: Vec<Bucket>,
) -> Result<Vec<Bucket>, AllocError>
    ensures { IfOk result (λ v. chain_of v.items ≡ slots_of all.now ∷ chain_of buckets.items) }
{
    let mut more = buckets;
    push_front(
        &mut more,
        Bucket {
            slots: copy_slots(alloc, all)?,
        },
    )?;
    Ok(more)
}

// Two parts at the best place, or three round the i-th slot.
fn parts_at(
    alloc: Global,
    all: &[Slot],
    i: usize,
    best: Option<Place>,
) -> Result<Vec<Bucket>, AllocError>
    requires { i ≤ length all.now }
    ensures { IfOk result (λ v. chain_of v.items ≡ parts.parts_at (slots_of all.now) i (option_map (λ p. p.at) best)) }
{
    match best {
        Some(place) => {
            let second = bucket_before(alloc, behind(all, place.at), Vec::new(alloc))?;
            bucket_before(alloc, front(all, place.at), second)
        }
        None => {
            let third = bucket_before(alloc, behind(all, i + 1), Vec::new(alloc))?;
            let second = bucket_before(alloc, front(behind(all, i), 1), third)?;
            bucket_before(alloc, front(all, i), second)
        }
    }
}

/// Slots, of which the i-th is new or grown, as they are where they fit, and else parted.
pub fn parted(alloc: Global, cap: u64, i: usize, all: &[Slot]) -> Result<Vec<Bucket>, AllocError>
    requires { i ≤ length all.now }
    ensures { IfOk result (λ v. chain_of v.items ≡ parts.parted cap i (slots_of all.now)) }
{
    if fits(all, cap) {
        bucket_before(alloc, all, Vec::new(alloc))
    } else {
        parts_at(alloc, all, i, best_below(cap, all, all.len()))
    }
}
