// Keys of files and the branches that hold them.
ghost use Rattle.std.specs.Prelude.{◌≡◌, ◌≤◌, ◌+◌, ◌<◌, ℕ, List, [], ◌∷◌, ◌++◌, if◌then◌else◌, Option, Some, None, Result, Ok, Err, length, map, option_map, IfOk, OnOk, OnErr};
ghost use Rattle.vms_base.specs.vms_model.Keys.{Key as KeySaid};
ghost use Rattle.vms_base.specs.Ids.{serial_of};
ghost use Rattle.vms_base.specs.Keys.{key_of};
ghost use Rattle.table_keys.specs.records_model.History.{same_id};
ghost use Rattle.record_locks.specs.Locks.{holder, not_locked, with_locks, released, lock_refused, held_by_other};
ghost use Rattle.record_locks.specs.Refusals.{refusal_of};

use crate::lock_log::LockLog;
use std::alloc::{AllocError, Global};
use std::marker::Model;
use table_keys::Place;
use thiserror::Error;
use vms_base::{Key, Serial};

/// Why a key was not locked.
#[derive(Clone, Copy, Debug, Drop, Error)]
pub enum LockErr {
    /// This other branch holds it.
    #[error("another branch holds the key")]
    HeldBy(Serial),
    /// Nobody holds it, and as many keys are held as may be.
    #[error("as many keys are locked as may be")]
    Quota,
}

/// Keys of files with the branches that hold them. A key is looked up, and a branch lets go of all its keys, in the same time however many are held.
#[derive(Drop)]
pub struct Locks {
    log: LockLog,
    // Without locks, and with as much room: what is held is moved here where the log is full.
    other: LockLog,
    most: usize,
}

impl Model for Locks {
    ghost use Rattle.record_locks.specs.Locks.{LockTable};
    ghost use Rattle.record_locks.specs.Table.{newest_first};
    ghost use Rattle.record_locks.specs.Turns.{IsTable};

    ghost Value = { LockTable };

    ghost view = { λ t. record { most = t.most; locks = newest_first t.log.held } };

    ghost invariant = { λ t. IsTable t.log t.other t.most };
}

// Whether two serials are one.
fn is_same(a: &Serial, b: &Serial) -> bool
    ensures { result ≡ same_id (serial_of a.now) (serial_of b.now) }
{
    a.0.node.bytes() == b.0.node.bytes() && a.0.boot == b.0.boot && a.0.seq == b.0.seq
}

// Makes room for one lock more. Where the log is full, what is held is written into the other one, which takes its place: this comes only once at
// least as many locks were made as may be held.
fn make_room(log: &mut LockLog, other: &mut LockLog)
    requires empty { other.old ≡ record { held = []; used = 0; room = log.old.room } }
    requires room { length log.old.held < log.old.room }
    ensures held { log.new.held ≡ log.old.held }
    ensures room { log.new.used < log.new.room }
    ensures same_room { log.new.room ≡ log.old.room }
    ensures empty { other.new ≡ other.old }
{
    if log.is_full() {
        log.copy_held(other);
        std::mem::swap(log, other);
        other.clear();
    }
}

impl Locks {
    /// Nothing is locked, and there is room for so many locks. An error where there is no memory for them.
    pub fn reserve(alloc: Global, most: u32) -> Result<Locks, AllocError>
        ensures { IfOk result (λ t. t ≡ record { most = most; locks = [] }) }
    {
        let most = most as usize;
        let log = LockLog::with_room(alloc, 2 * most)?;
        let other = LockLog::with_room(alloc, 2 * most)?;
        Ok(Locks { log, other, most })
    }

    /// The branch that holds a key.
    pub fn holder(&self, file: u8, key: &Key) -> Option<Serial>
        ensures { option_map serial_of result ≡ holder self.now.locks file (key_of key.now) }
    {
        self.log.holder(&Place { file, key: *key })
    }

    /// How many keys are held.
    pub fn count(&self) -> usize
        ensures { result ≡ length self.now.locks }
    {
        self.log.count()
    }

    /// How many of some keys of a file nobody holds. One that stands there twice counts twice.
    pub fn count_free(&self, file: u8, keys: &[Key]) -> usize
        ensures { result ≡ length (not_locked self.now.locks file (map key_of keys.now)) }
    {
        let mut free = 0;
        for key in keys {
            if self.holder(file, key).is_none() {
                free += 1;
            }
        }
        free
    }

    /// Locks a key for a branch. One that it holds stays so. After an error nothing changed.
    pub fn lock(&mut self, file: u8, key: &Key, by: Serial) -> Result<(), LockErr>
        ensures locks { OnOk result (self.new ≡ record self.old { locks = with_locks (serial_of by) file (key_of key.now ∷ []) self.old.locks }) }
        ensures refused { refusal_of result ≡ lock_refused (serial_of by) (holder self.old.locks file (key_of key.now)) (length self.old.locks) self.old.most }
        ensures same { OnErr result (self.new ≡ self.old) }
    {
        match self.holder(file, key) {
            Some(holder) => {
                if is_same(&by, &holder) {
                    Ok(())
                } else {
                    Err(LockErr::HeldBy(holder))
                }
            }
            None => {
                if self.log.count() >= self.most {
                    return Err(LockErr::Quota);
                }
                make_room(&mut self.log, &mut self.other);
                self.log.add(&Place { file, key: *key }, &by);
                Ok(())
            }
        }
    }

    /// Lets go of all keys of a branch, and of no other.
    pub fn release_all(&mut self, by: Serial)
        ensures locks { self.new ≡ record self.old { locks = released (serial_of by) self.old.locks } }
        ensures exactly { (file : ℕ) (key : KeySaid) → holder self.new.locks file key ≡ held_by_other (serial_of by) (holder self.old.locks file key) }
    {
        self.log.release(&by);
    }

    /// Lets go of all keys.
    pub fn clear(&mut self)
        ensures { self.new ≡ record self.old { locks = [] } }
    {
        self.log.clear();
    }
}
