// The slots of an indexed file's buckets.
ghost use Rattle.std.specs.Prelude.{◌≡◌, ℕ, List, [], ◌∷◌, ◌++◌, map, false, IfOk, Some, None};
ghost use Rattle.vms_base.specs.vms_model.Keys.{Text};
ghost use Rattle.run_model.specs.Locks.{is_locked as is_locked_by};
ghost use Rattle.run_model.specs.records_model.Slots as slots;
ghost use Rattle.reference_index.specs.Standing.{value_of, lent_value, locks_of, slot_of, slots_of};

use crate::keys::KeyRef;
use crate::layouts::Slot;
use crate::lists::push_front;
use crate::locks::{Lock, is_locked};
use std::alloc::{AllocError, Global};
use std::cmp::{Ordering, max};
use vms_base::FileName;

/// A record, lent.
pub fn lend_value(value: &Option<Vec<u8>>) -> Option<&[u8]>
    ensures { lent_value result ≡ value_of value.now }
{
    match value {
        None => None,
        Some(bytes) => Some(bytes.as_slice()),
    }
}

/// A record with bytes of its own.
pub fn own_value(alloc: Global, value: Option<&[u8]>) -> Result<Option<Vec<u8>>, AllocError>
    ensures { IfOk result (λ v. value_of v ≡ lent_value value.entry) }
{
    match value {
        None => Ok(None),
        Some(bytes) => Ok(Some(bytes.to_vec(alloc)?)),
    }
}

// The length of a record; none has no bytes.
fn size_of_value(value: Option<&[u8]>) -> usize
    ensures { result ≡ slots.size_of (lent_value value.entry) }
{
    match value {
        None => 0,
        Some(bytes) => bytes.len(),
    }
}

/// The same slot once more.
pub fn copy_slot(alloc: Global, s: &Slot) -> Result<Slot, AllocError>
    ensures { IfOk result (λ copy. slot_of copy ≡ slot_of s.now) }
{
    Ok(Slot {
        key: s.key.as_slice().to_vec(alloc)?,
        room: s.room,
        value: own_value(alloc, lend_value(&s.value))?,
    })
}

/// The same slots once more.
pub fn copy_slots(alloc: Global, all: &[Slot]) -> Result<Vec<Slot>, AllocError>
    ensures { IfOk result (λ v. slots_of v.items ≡ slots_of all.now) }
{
    match all {
        [] => Ok(Vec::new(alloc)),
        [s, rest @ ..] => {
            let mut copies = copy_slots(alloc, rest)?;
            push_front(&mut copies, copy_slot(alloc, s)?)?;
            Ok(copies)
        }
    }
}

/// A slot with another record; its room grows where it must.
pub fn with_value(alloc: Global, s: &Slot, value: Option<&[u8]>) -> Result<Slot, AllocError>
    ensures { IfOk result (λ set. slot_of set ≡ slots.with_value (lent_value value.entry) (slot_of s.now)) }
{
    Ok(Slot {
        key: s.key.as_slice().to_vec(alloc)?,
        room: max(s.room, size_of_value(value)),
        value: own_value(alloc, value)?,
    })
}

// Slots, and a new one before them, where there is a record to keep.
fn with_new(
    alloc: Global,
    key: &[u8],
    value: Option<&[u8]>,
    behind: Vec<Slot>,
) -> Result<Vec<Slot>, AllocError>
    ensures { IfOk result (λ v. slots_of v.items ≡ slots.with_new key.now (lent_value value.entry) (slots_of behind.items)) }
{
    let Some(bytes) = value else {
        return Ok(behind);
    };
    let mut all = behind;
    let slot = Slot {
        key: key.to_vec(alloc)?,
        room: bytes.len(),
        value: Some(bytes.to_vec(alloc)?),
    };
    push_front(&mut all, slot)?;
    Ok(all)
}

/// The slots of a bucket with this key set.
pub fn put(
    alloc: Global,
    key: &[u8],
    value: Option<&[u8]>,
    all: &[Slot],
) -> Result<Vec<Slot>, AllocError>
    ensures { IfOk result (λ v. slots_of v.items ≡ slots.put key.now (lent_value value.entry) (slots_of all.now)) }
{
    match all {
        [] => with_new(alloc, key, value, Vec::new(alloc)),
        [s, rest @ ..] => match key.cmp(s.key.as_slice()) {
            Ordering::Equal => {
                let mut set = copy_slots(alloc, rest)?;
                push_front(&mut set, with_value(alloc, s, value)?)?;
                Ok(set)
            }
            Ordering::Less => with_new(alloc, key, value, copy_slots(alloc, all)?),
            Ordering::Greater => {
                let mut set = put(alloc, key, value, rest)?;
                push_front(&mut set, copy_slot(alloc, s)?)?;
                Ok(set)
            }
        },
    }
}

// A slot of a key that is not held, before others: it goes where it has no record, and its room becomes the record's length.
fn shrunk_before(alloc: Global, s: &Slot, behind: Vec<Slot>) -> Result<Vec<Slot>, AllocError>
    ensures { IfOk result (λ v. slots_of v.items ≡ slots.tidied_slot false (slot_of s.now) ++ slots_of behind.items) }
{
    match &s.value {
        None => Ok(behind),
        Some(bytes) => {
            let mut all = behind;
            let slot = Slot {
                key: s.key.as_slice().to_vec(alloc)?,
                room: bytes.len(),
                value: Some(bytes.as_slice().to_vec(alloc)?),
            };
            push_front(&mut all, slot)?;
            Ok(all)
        }
    }
}

/// Tidied slots of a file of this name, where these locks are held.
pub fn tidied(
    alloc: Global,
    locks: &[Lock],
    file: &FileName,
    all: &[Slot],
) -> Result<Vec<Slot>, AllocError>
    ensures { IfOk result (λ v. slots_of v.items ≡ slots.tidied (λ t. is_locked_by (locks_of locks.now) file.now (Text t)) (slots_of all.now)) }
{
    match all {
        [] => Ok(Vec::new(alloc)),
        [s, rest @ ..] => {
            let mut behind = tidied(alloc, locks, file, rest)?;
            if is_locked(locks, file, KeyRef::Text(s.key.as_slice())) {
                push_front(&mut behind, copy_slot(alloc, s)?)?;
                Ok(behind)
            } else {
                shrunk_before(alloc, s, behind)
            }
        }
    }
}
