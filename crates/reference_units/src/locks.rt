// The keys that unsettled branches hold.
ghost use Rattle.std.specs.Prelude.{◌≡◌, ◌≤◌, List, map, length, option_map, IfOk};
ghost use Rattle.reference_index.specs.run_model.Locks as locks;
ghost use Rattle.vms_base.specs.Ids.{id_of};
ghost use Rattle.reference_index.specs.Standing.{key_of, lent_key, lock_of as lock_said, locks_of};

use reference_index::{Key, KeyRef, Lock, append, is_lock_of, is_locked, push_front, take_first};
use reference_world::same_id;
use std::alloc::{AllocError, Global};
use vms_base::{FileName, Id};

/// The branch that holds a key.
pub fn holder(all: &[Lock], file: &FileName, key: KeyRef<'_>) -> Option<Id>
    ensures { option_map id_of result ≡ locks.holder (locks_of all.now) file.now (lent_key key.entry) }
{
    match all {
        [] => None,
        [lock, rest @ ..] => {
            if is_lock_of(file, key, lock) {
                Some(lock.by)
            } else {
                holder(rest, file, key)
            }
        }
    }
}

/// How many of some keys nobody holds.
pub fn new_locks(all: &[Lock], file: &FileName, keys: &[Key]) -> usize
    ensures count { result ≡ length (locks.not_locked (locks_of all.now) file.now (map key_of keys.now)) }
    ensures few { result ≤ length keys.now }
{
    match keys {
        [] => 0,
        [key, rest @ ..] => {
            let more = new_locks(all, file, rest);
            if is_locked(all, file, key.lend()) {
                more
            } else {
                more + 1
            }
        }
    }
}

// The lock of a key.
fn lock_of(alloc: Global, serial: &Id, file: &FileName, key: &Key) -> Result<Lock, AllocError>
    ensures { IfOk result (λ l. lock_said l ≡ record { file = file.now; key = key_of key.now; by = id_of serial.now }) }
{
    Ok(Lock {
        file: *file,
        key: key.lend().own(alloc)?,
        by: *serial,
    })
}

// The locks of those of some keys that nobody holds.
fn locks_for(
    alloc: Global,
    all: &[Lock],
    serial: &Id,
    file: &FileName,
    keys: &[Key],
) -> Result<Vec<Lock>, AllocError>
    ensures { IfOk result (λ v. locks_of v.items ≡ map (λ k. record { file = file.now; key = k; by = id_of serial.now }) (locks.not_locked (locks_of all.now) file.now (map key_of keys.now))) }
{
    match keys {
        [] => Ok(Vec::new(alloc)),
        [key, rest @ ..] => {
            let mut more = locks_for(alloc, all, serial, file, rest)?;
            if is_locked(all, file, key.lend()) {
                Ok(more)
            } else {
                push_front(&mut more, lock_of(alloc, serial, file, key)?)?;
                Ok(more)
            }
        }
    }
}

/// The locks once a branch holds these keys too.
pub fn with_locks(
    alloc: Global,
    all: Vec<Lock>,
    serial: &Id,
    file: &FileName,
    keys: &[Key],
) -> Result<Vec<Lock>, AllocError>
    ensures { IfOk result (λ v. locks_of v.items ≡ locks.with_locks (id_of serial.now) file.now (map key_of keys.now) (locks_of all.items)) }
{
    let more = locks_for(alloc, all.as_slice(), serial, file, keys)?;
    let both = append(more, all)?;
    Ok(both)
}

/// The locks but for those of one branch.
pub fn released(alloc: Global, all: Vec<Lock>, serial: &Id) -> Result<Vec<Lock>, AllocError>
    ensures { IfOk result (λ v. locks_of v.items ≡ locks.released (id_of serial.now) (locks_of all.items)) }
{
    let mut rest = all;
    match take_first(&mut rest) {
        None => Ok(Vec::new(alloc)),
        Some(first) => {
            let by = first.by;
            let mut others = released(alloc, rest, serial)?;
            if !same_id(serial, &by) {
                push_front(&mut others, first)?;
            }
            Ok(others)
        }
    }
}
