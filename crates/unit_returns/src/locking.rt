// The keys that a prepared branch changed, from the entries of its changes.
ghost use Rattle.std.specs.Prelude.{◌≡◌, ◌≤◌, ◌∷◌, ◌^◌, [], Some, OnOk, OnErr, length, option_copied};
ghost use Rattle.std.specs.List.{AllByRecursion};
ghost use Rattle.careful_write.specs.Down.{Counts};
ghost use Rattle.careful_write.specs.State.{IsReady};
ghost use Rattle.journal_format.specs.Heads.{entry_of};
ghost use Rattle.journal_store.specs.Rings.{IsRing};
ghost use Rattle.unit_journal.specs.Groups.{LeavesOld};
ghost use Rattle.vms_base.specs.Ids.{serial_of};
ghost use Rattle.vms_base.specs.Keys.{key_of};
ghost use Rattle.volume.specs.State.{SameVolume};
ghost use Rattle.unit_returns.specs.Locking.{Holds, keys_left, keys_with_end, moves_end as moves_end_said};
ghost use Rattle.unit_returns.specs.Returning.{HoldsKeys, StayFew};

use crate::reading::read_entry;
use block_disk::Disk;
use careful_write::Down;
use file_base::{FileHead, Organization};
use journal_format::{EntryHead, EntryKind};
use record_locks::Locks;
use unit_entries::key_in;
use vms_base::{Key, Record, Serial};
use volume::Volume;

// Locks a key for a branch, unless another has it or there are as many locks as may be.
fn lock(locks: &mut Locks, file: u8, key: &Key, by: &Serial)
    ensures { Holds (serial_of by.now) file (key_of key.now ∷ []) locks.old locks.new }
{
    let _ = locks.lock(file, key, *by);
}

// Whether a change of a key moved the end of a file. It tells whether there was a record before.
fn moves_end(head: &FileHead, had: bool, key: &Key) -> bool
    ensures { result ≡ moves_end_said head.now.organization head.now.count had (key_of key.now) }
{
    match (head.organization, key) {
        (Organization::Sequential, Key::Number(n)) => !had || *n > head.count,
        _ => false,
    }
}

// Locks a key that a branch changed, and the end of its file where the change moved that.
fn lock_key(head: &FileHead, e: &EntryHead, key: &Key, locks: &mut Locks, by: &Serial)
    ensures { Holds (serial_of by.now) e.now.file (keys_with_end head.now.organization head.now.count e.now.present (Some (key_of key.now))) locks.old locks.new }
{
    if moves_end(head, e.present, key) {
        lock(locks, e.file, &Key::End, by);
    }
    lock(locks, e.file, key, by);
}

// Locks what the entry of a change tells, where its file is there.
fn lock_entry(head: Option<&FileHead>, e: &EntryHead, locks: &mut Locks, by: &Serial)
    ensures few { StayFew locks.old locks.new }
    ensures held { (entry_of e.now []).kind ≡ 1 → 1 ≤ length (entry_of e.now []).key → Holds (serial_of by.now) e.now.file (keys_left (option_copied head.entry) (entry_of e.now [])) locks.old locks.new }
{
    if let (Some(head), EntryKind::Change, Some(bytes)) = (head, e.kind, e.key) {
        if let Some(key) = key_in(head.organization, &bytes) {
            lock_key(head, e, &key, locks, by);
        }
    }
}

/// Locks the keys that the entries at these positions changed for their branch.
pub(crate) fn hold_changes<D: Disk>(
    volume: &mut Volume<D>,
    positions: &[u64],
    locks: &mut Locks,
    by: &Serial,
    image: &mut Record,
) -> Result<(), Down>
    requires ready { IsReady volume.old.store }
    requires ring { IsRing volume.old.catalog.ru volume.old.store.disk }
    requires low { AllByRecursion (λ p. p ≤ 2 ^ 62) positions.now }
    ensures held { OnOk result (HoldsKeys volume.old positions.now (serial_of by.now) locks.old locks.new) }
    ensures few { StayFew locks.old locks.new }
    ensures same { OnOk result (SameVolume volume.old volume.new) }
    ensures down { OnErr result (LeavesOld volume.old volume.new.store.disk) }
    ensures kept { volume.new.catalog ≡ volume.old.catalog }
    ensures counts { Counts result volume.old.store.disk volume.new.store.disk }
    ensures pool { volume.new.store.pool ≡ volume.old.store.pool }
{
    match positions {
        [] => Ok(()),
        [position, rest @ ..] => {
            let entry = match read_entry(volume, *position, image) {
                Err(down) => return Err(down),
                Ok(entry) => entry,
            };
            if let Some((e, _)) = entry {
                lock_entry(volume.head(e.file), &e, locks, by);
            }
            hold_changes(volume, rest, locks, by, image)
        }
    }
}
