// The keys that unsettled branches hold.
ghost use Rattle.std.specs.Prelude.{◌≡◌};
ghost use Rattle.run_model.specs.Locks as locks;
ghost use Rattle.reference_index.specs.Standing.{lent_key, lock_of, locks_of};

use crate::keys::{Key, KeyRef};
use vms_base::{FileName, Id};

/// A key of a file, or a sequential file's end, which an unsettled branch holds.
#[derive(Drop)]
pub struct Lock {
    pub file: FileName,
    pub key: Key,
    pub by: Id,
}

/// Whether a lock is of this key of this file.
pub fn is_lock_of(file: &FileName, key: KeyRef<'_>, lock: &Lock) -> bool
    ensures { result ≡ locks.is_lock_of file.now (lent_key key.entry) (lock_of lock.now) }
{
    file.bytes() == lock.file.bytes() && key.is(lock.key.lend())
}

/// Whether a branch holds this key of this file.
pub fn is_locked(all: &[Lock], file: &FileName, key: KeyRef<'_>) -> bool
    ensures { result ≡ locks.is_locked (locks_of all.now) file.now (lent_key key.entry) }
{
    match all {
        [] => false,
        [lock, rest @ ..] => is_lock_of(file, key, lock) || is_locked(rest, file, key),
    }
}
