// Locks in the order in which they were made, also those that were released since.
ghost use Rattle.std.specs.Prelude.{◌≡◌, ◌≤◌, ◌<◌, ◌+◌, ◌++◌, ◌∷◌, [], true, None, IfOk, length, nat_le, if◌then◌else◌};
ghost use Rattle.std.specs.List.{IsDistinct};
ghost use Rattle.std.specs.Map.{lookup, keys_of};
ghost use Rattle.vms_base.specs.Ids.{serial_of};
ghost use Rattle.record_locks.specs.Table.{others_of};
ghost use Rattle.table_keys.specs.Places.{same_place};
ghost use Rattle.record_locks.specs.Turns.{is_now, turn_of, held_now, with_held};

use crate::turns::{Hold, Turn, is_now, one_more, put_hold, put_turn, turn_now};
use indexmap::IndexMap;
use std::alloc::{AllocError, Global};
use std::marker::Model;
use table_keys::{BranchKey, Place};
use vms_base::{Key, Serial};

/// A lock as it was made.
#[derive(Clone, Copy, Debug, Drop)]
pub struct Entry {
    pub place: Place,
    pub hold: Hold,
}

/// Which branch holds which key. One that lets go of its keys ends its turn, and what it locked stays in the log until the log is written anew.
#[derive(Drop)]
pub struct LockLog {
    log: Vec<Entry>,
    // Of each key the last lock.
    latest: IndexMap<Place, Hold>,
    turns: IndexMap<BranchKey, Turn>,
    count: usize,
    room: usize,
}

impl Model for LockLog {
    ghost use Rattle.std.specs.Prelude.{length, vec_capacity};
    ghost use Rattle.record_locks.specs.Turns.{LogSaid, held_now, turn_of, IsLog};

    ghost Value = { LogSaid };

    ghost view = { λ t. record { held = held_now (turn_of t.turns.entries) t.log.items; used = length t.log.items; room = t.room } };

    ghost invariant = { λ t. IsLog t.log.items t.latest t.turns t.count t.room (vec_capacity t.log) };
}

// Puts a lock of another log behind these, if it is held.
fn keep_held(other: &mut LockLog, turns: &IndexMap<BranchKey, Turn>, entry: &Entry)
    requires new { is_now (turn_of turns.now.entries) entry.now.hold ≡ true → lookup (same_place entry.now.place) other.old.held ≡ None }
    requires room { is_now (turn_of turns.now.entries) entry.now.hold ≡ true → other.old.used < other.old.room }
    ensures { other.new ≡ (if is_now (turn_of turns.now.entries) entry.now.hold then with_held other.old (entry.now.place, entry.now.hold.by) else other.old) }
{
    if is_now(turns, &entry.hold) {
        other.add(&entry.place, &entry.hold.by);
    }
}

// Puts all that is held of another log into one without any lock.
fn keep_all(other: &mut LockLog, turns: &IndexMap<BranchKey, Turn>, log: &[Entry])
    requires empty { other.old.held ≡ [] }
    requires unused { other.old.used ≡ 0 }
    requires distinct { IsDistinct same_place (keys_of (held_now (turn_of turns.now.entries) log.now)) }
    requires room { length (held_now (turn_of turns.now.entries) log.now) ≤ other.old.room }
    ensures held { other.new.held ≡ held_now (turn_of turns.now.entries) log.now }
    ensures used { other.new.used ≡ length other.new.held }
    ensures room { other.new.room ≡ other.old.room }
{
    for entry in log {
        keep_held(other, turns, entry);
    }
}

impl LockLog {
    /// A log without locks, and with room for so many. An error where there is no memory for them.
    pub fn with_room(alloc: Global, room: usize) -> Result<LockLog, AllocError>
        ensures { IfOk result (λ l. l ≡ record { held = []; used = 0; room = room }) }
    {
        let log = Vec::with_capacity(alloc, room)?;
        let latest = IndexMap::with_capacity(alloc, room)?;
        let turns = IndexMap::with_capacity(alloc, room)?;
        Ok(LockLog {
            log,
            latest,
            turns,
            count: 0,
            room,
        })
    }

    /// The branch that holds a key.
    pub fn holder(&self, place: &Place) -> Option<Serial>
        ensures holder { result ≡ lookup (same_place place.now) self.now.held }
        ensures distinct { IsDistinct same_place (keys_of self.now.held) }
    {
        let hold = self.latest.get(place)?;
        if is_now(&self.turns, hold) {
            Some(hold.by)
        } else {
            None
        }
    }

    /// How many keys are held.
    pub fn count(&self) -> usize
        ensures count { result ≡ length self.now.held }
        ensures distinct { IsDistinct same_place (keys_of self.now.held) }
    {
        self.count
    }

    /// Whether no lock more can be made before the log is written anew.
    pub fn is_full(&self) -> bool
        ensures { result ≡ nat_le self.now.room self.now.used }
    {
        self.log.len() >= self.room
    }

    /// Locks a key that nobody holds.
    pub fn add(&mut self, place: &Place, by: &Serial)
        requires new { lookup (same_place place.now) self.old.held ≡ None }
        requires room { self.old.used < self.old.room }
        ensures { self.new ≡ with_held self.old (place.now, by.now) }
    {
        // The check makes a proof only where the type of a place's key is named here.
        let _key: Key = place.key;
        let turn = one_more(turn_now(&self.turns, by), self.log.len());
        put_turn(&mut self.turns, by, turn);
        put_hold(&mut self.latest, place, by, turn.since);
        self.log.push_reserved(Entry {
            place: *place,
            hold: Hold {
                by: *by,
                since: turn.since,
            },
        });
        self.count += 1;
    }

    /// Lets go of all keys of a branch: its turn ends.
    pub fn release(&mut self, by: &Serial)
        ensures held { self.new ≡ record self.old { held = others_of (serial_of by.now) self.old.held } }
        ensures distinct { IsDistinct same_place (keys_of self.old.held) }
    {
        match turn_now(&self.turns, by) {
            Some(turn) => {
                let ended = Turn {
                    since: self.log.len(),
                    count: 0,
                };
                put_turn(&mut self.turns, by, ended);
                self.count -= turn.count;
            }
            None => {}
        }
    }

    /// Puts what is held into a log without any lock.
    pub fn copy_held(&self, other: &mut LockLog)
        requires empty { other.old.held ≡ [] }
        requires unused { other.old.used ≡ 0 }
        requires room { length self.now.held ≤ other.old.room }
        ensures { other.new ≡ record { held = self.now.held; used = length self.now.held; room = other.old.room } }
    {
        keep_all(other, &self.turns, &self.log);
    }

    /// Takes all locks out, held or not.
    pub fn clear(&mut self)
        ensures { self.new ≡ record { held = []; used = 0; room = self.old.room } }
    {
        self.log.clear();
        self.latest.truncate(0);
        self.turns.truncate(0);
        self.count = 0;
    }
}
