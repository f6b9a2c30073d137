// The leaves of an indexed file, and what becomes of its layout where keys are set.
ghost use Rattle.std.specs.Prelude.{◌≡◌, ◌≤◌, ℕ, List, [], ◌∷◌, ◌++◌, map, length, IfOk};
ghost use Rattle.std.specs.List.{list_any};
ghost use Rattle.vms_base.specs.vms_model.Keys.{Text};
ghost use Rattle.run_model.specs.unit_laws.Units as units;
ghost use Rattle.run_model.specs.unit_laws.Layouts as layouts;
ghost use Rattle.run_model.specs.Locks.{is_locked};
ghost use Rattle.run_model.specs.records_model.Slots as slots;
ghost use Rattle.run_model.specs.records_model.Parts as parts;
ghost use Rattle.run_model.specs.records_model.Chain as chain;
ghost use Rattle.run_model.specs.tree_model.Setting as setting;
ghost use Rattle.reference_index.specs.Standing.{lent_key, lent_value, changes_of, locks_of, slot_of, slots_of, bucket_of, chain_of, leaf_of, leaves_of, layout_of, sizes_of};

use crate::changes::{Change, changes_key};
use crate::index::index_with;
use crate::keys::KeyRef;
use crate::layouts::{Bucket, Layout, Leaf, Sizes, Slot};
use crate::lists::{append, push_front, take_first};
use crate::locks::Lock;
use crate::parts::{fits, parted};
use crate::slots::{copy_slot, lend_value, put, tidied, with_value};
use std::alloc::{AllocError, Global};
use std::cmp::Ordering;
use vms_base::FileName;

// How many slots at the front have lesser keys.
fn place_of(key: &[u8], all: &[Slot]) -> usize
    ensures place { result ≡ chain.place_of key.now (slots_of all.now) }
    ensures within { result ≤ length all.now }
{
    match all {
        [] => 0,
        [s, rest @ ..] => match s.key.as_slice().cmp(key) {
            Ordering::Less => place_of(key, rest) + 1,
            _ => 0,
        },
    }
}

// Slots with this key set that are tidied first, and parted where they do not fit then either.
fn tidied_with(
    alloc: Global,
    cap: u64,
    locks: &[Lock],
    file: &FileName,
    key: &[u8],
    value: Option<&[u8]>,
    all: &[Slot],
) -> Result<Vec<Bucket>, AllocError>
    ensures { let more = slots.put key.now (lent_value value.entry) (slots.tidied (λ t. is_locked (locks_of locks.now) file.now (Text t)) (slots_of all.now)) in
        IfOk result (λ v. chain_of v.items ≡ parts.parted cap (chain.place_of key.now more) more) }
{
    let tidy = tidied(alloc, locks, file, all)?;
    let more = put(alloc, key, value, tidy.as_slice())?;
    parted(alloc, cap, place_of(key, more.as_slice()), more.as_slice())
}

// A bucket of these slots alone.
fn one_bucket(alloc: Global, slots: Vec<Slot>) -> Result<Vec<Bucket>, AllocError>
    ensures { IfOk result (λ v. chain_of v.items ≡ slots_of slots.items ∷ []) }
{
    let mut one = Vec::new(alloc);
    push_front(&mut one, Bucket { slots })?;
    Ok(one)
}

// A bucket with this key set, where these locks are held.
fn bucket_with(
    alloc: Global,
    cap: u64,
    locks: &[Lock],
    file: &FileName,
    key: &[u8],
    value: Option<&[u8]>,
    bucket: Bucket,
) -> Result<Vec<Bucket>, AllocError>
    ensures { IfOk result (λ v. chain_of v.items ≡ chain.bucket_with cap (λ t. is_locked (locks_of locks.now) file.now (Text t)) key.now (lent_value value.entry) (bucket_of bucket)) }
{
    let set = put(alloc, key, value, bucket.slots.as_slice())?;
    if fits(set.as_slice(), cap) {
        one_bucket(alloc, set)
    } else {
        tidied_with(alloc, cap, locks, file, key, value, bucket.slots.as_slice())
    }
}

// Whether a leaf's lowest key is at most this one.
fn starts_by(key: &[u8], leaf: &Leaf) -> bool
    ensures { result ≡ setting.starts_by key.now (leaf_of leaf.now) }
{
    match key.cmp(leaf.lowest.as_slice()) {
        Ordering::Less => false,
        _ => true,
    }
}

// Whether one of these leaves starts by it.
fn some_starts_by(key: &[u8], leaves: &[Leaf]) -> bool
    ensures { result ≡ list_any (setting.starts_by key.now) (leaves_of leaves.now) }
{
    match leaves {
        [] => false,
        [b, rest @ ..] => starts_by(key, b) || some_starts_by(key, rest),
    }
}

// How many leaves stand before the one for a key.
fn leaf_place(key: &[u8], leaves: &[Leaf]) -> usize
    ensures place { result ≡ setting.leaf_place key.now (leaves_of leaves.now) }
    ensures within { result ≤ length leaves.now }
{
    match leaves {
        [] => 0,
        [_, rest @ ..] => {
            if some_starts_by(key, rest) {
                leaf_place(key, rest) + 1
            } else {
                0
            }
        }
    }
}

// The key of the first slot.
fn first_key(alloc: Global, all: &[Slot]) -> Result<Vec<u8>, AllocError>
    ensures { IfOk result (λ v. v.items ≡ setting.first_key (slots_of all.now)) }
{
    match all {
        [] => Ok(Vec::new(alloc)),
        [s, ..] => Ok(s.key.as_slice().to_vec(alloc)?),
    }
}

// New leaves of these slots.
fn new_leaves(alloc: Global, parts: Vec<Bucket>) -> Result<Vec<Leaf>, AllocError>
    ensures { IfOk result (λ v. leaves_of v.items ≡ setting.new_leaves (chain_of parts.items)) }
{
    let mut rest = parts;
    match take_first(&mut rest) {
        None => Ok(Vec::new(alloc)),
        Some(first) => {
            let mut all = new_leaves(alloc, rest)?;
            let lowest = first_key(alloc, first.slots.as_slice())?;
            push_front(
                &mut all,
                Leaf {
                    lowest,
                    slots: first.slots,
                },
            )?;
            Ok(all)
        }
    }
}

/// Leaves of these buckets, the first of which has this lowest key.
pub fn leaves_from(
    alloc: Global,
    lowest: Vec<u8>,
    parts: Vec<Bucket>,
) -> Result<Vec<Leaf>, AllocError>
    ensures { IfOk result (λ v. leaves_of v.items ≡ setting.leaves_from lowest.items (chain_of parts.items)) }
{
    let mut rest = parts;
    match take_first(&mut rest) {
        None => Ok(Vec::new(alloc)),
        Some(first) => {
            let mut all = new_leaves(alloc, rest)?;
            push_front(
                &mut all,
                Leaf {
                    lowest,
                    slots: first.slots,
                },
            )?;
            Ok(all)
        }
    }
}

// Leaves with this key set.
fn leaves_with(
    alloc: Global,
    cap: u64,
    locks: &[Lock],
    file: &FileName,
    key: &[u8],
    value: Option<&[u8]>,
    leaves: Vec<Leaf>,
) -> Result<Vec<Leaf>, AllocError>
    ensures { IfOk result (λ v. leaves_of v.items ≡ setting.leaves_with cap (λ t. is_locked (locks_of locks.now) file.now (Text t)) key.now (lent_value value.entry) (leaves_of leaves.items)) }
{
    let mut rest = leaves;
    match take_first(&mut rest) {
        None => Ok(Vec::new(alloc)),
        Some(first) => {
            if some_starts_by(key, rest.as_slice()) {
                let mut all = leaves_with(alloc, cap, locks, file, key, value, rest)?;
                push_front(&mut all, first)?;
                Ok(all)
            } else {
                let bucket = Bucket { slots: first.slots };
                let parts = bucket_with(alloc, cap, locks, file, key, value, bucket)?;
                let set = leaves_from(alloc, first.lowest, parts)?;
                append(set, rest)
            }
        }
    }
}

// A layout with this key set.
fn layout_with(
    alloc: Global,
    sizes: Sizes,
    locks: &[Lock],
    file: &FileName,
    key: &[u8],
    value: Option<&[u8]>,
    layout: Layout,
) -> Result<Layout, AllocError>
    ensures { IfOk result (λ l. layout_of l ≡ setting.layout_with (sizes_of sizes) (λ t. is_locked (locks_of locks.now) file.now (Text t)) key.now (lent_value value.entry) (layout_of layout)) }
{
    let place = leaf_place(key, layout.leaves.as_slice());
    let before = layout.leaves.len();
    let leaves = leaves_with(
        alloc,
        sizes.capacity,
        locks,
        file,
        key,
        value,
        layout.leaves,
    )?;
    let more = leaves.len().saturating_sub(before);
    let index = index_with(
        alloc,
        sizes.fan_out,
        place as u64,
        more as u64,
        layout.index,
    )?;
    Ok(Layout { leaves, index })
}

// A layout after a change; only keys that are bytes stand in indexed files.
fn layout_set(
    alloc: Global,
    sizes: Sizes,
    locks: &[Lock],
    file: &FileName,
    key: KeyRef<'_>,
    value: Option<&[u8]>,
    layout: Layout,
) -> Result<Layout, AllocError>
    ensures { IfOk result (λ l. layout_of l ≡ setting.layout_set (sizes_of sizes) (is_locked (locks_of locks.now) file.now) (lent_key key.entry) (lent_value value.entry) (layout_of layout)) }
{
    match key {
        KeyRef::Text(bytes) => layout_with(alloc, sizes, locks, file, bytes, value, layout),
        _ => Ok(layout),
    }
}

/// The layout of a file of this name after changes, the newest first, where these locks are held.
pub fn layout_changed(
    alloc: Global,
    sizes: Sizes,
    locks: &[Lock],
    file: &FileName,
    changes: &[Change],
    layout: Layout,
) -> Result<Layout, AllocError>
    ensures { IfOk result (λ l. layout_of l ≡ setting.layout_changed (sizes_of sizes) (is_locked (locks_of locks.now) file.now) (changes_of changes.now) (layout_of layout)) }
{
    match changes {
        [] => Ok(layout),
        [c, rest @ ..] => {
            let before = layout_changed(alloc, sizes, locks, file, rest, layout)?;
            layout_set(
                alloc,
                sizes,
                locks,
                file,
                c.key.lend(),
                lend_value(&c.after),
                before,
            )
        }
    }
}

// The earliest before image of a key that these changes, the newest first, set.
fn earliest_before<'a>(changes: &'a [Change], key: KeyRef<'_>) -> Option<&'a [u8]>
    ensures { lent_value result ≡ units.earliest_before (changes_of changes.now) (lent_key key.entry) }
{
    match changes {
        [] => None,
        [c, rest @ ..] => {
            if changes_key(rest, key) {
                earliest_before(rest, key)
            } else {
                lend_value(&c.before)
            }
        }
    }
}

// A slot that has again what it had before these changes, where they are of its key.
fn slot_restored(alloc: Global, changes: &[Change], s: &Slot) -> Result<Slot, AllocError>
    ensures { IfOk result (λ back. slot_of back ≡ layouts.slot_restored (changes_of changes.now) (slot_of s.now)) }
{
    let key = KeyRef::Text(s.key.as_slice());
    if changes_key(changes, key) {
        with_value(alloc, s, earliest_before(changes, key))
    } else {
        copy_slot(alloc, s)
    }
}

// Slots that do.
fn slots_restored(alloc: Global, changes: &[Change], all: &[Slot]) -> Result<Vec<Slot>, AllocError>
    ensures { IfOk result (λ v. slots_of v.items ≡ map (layouts.slot_restored (changes_of changes.now)) (slots_of all.now)) }
{
    match all {
        [] => Ok(Vec::new(alloc)),
        [s, rest @ ..] => {
            let mut back = slots_restored(alloc, changes, rest)?;
            push_front(&mut back, slot_restored(alloc, changes, s)?)?;
            Ok(back)
        }
    }
}

// Leaves that do.
fn leaves_restored(
    alloc: Global,
    changes: &[Change],
    leaves: &[Leaf],
) -> Result<Vec<Leaf>, AllocError>
    ensures { IfOk result (λ v. leaves_of v.items ≡ map (layouts.leaf_restored (changes_of changes.now)) (leaves_of leaves.now)) }
{
    match leaves {
        [] => Ok(Vec::new(alloc)),
        [b, rest @ ..] => {
            let mut back = leaves_restored(alloc, changes, rest)?;
            let slots = slots_restored(alloc, changes, b.slots.as_slice())?;
            let lowest = b.lowest.as_slice().to_vec(alloc)?;
            push_front(&mut back, Leaf { lowest, slots })?;
            Ok(back)
        }
    }
}

/// A layout after the branch that made these changes, the newest first, was undone.
pub fn layout_restored(
    alloc: Global,
    changes: &[Change],
    layout: Layout,
) -> Result<Layout, AllocError>
    ensures { IfOk result (λ l. layout_of l ≡ layouts.layout_restored (changes_of changes.now) (layout_of layout)) }
{
    let leaves = leaves_restored(alloc, changes, layout.leaves.as_slice())?;
    Ok(Layout {
        leaves,
        index: layout.index,
    })
}
