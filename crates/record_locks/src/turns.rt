// The turns of branches. A turn begins by a branch's first lock and ends as the branch lets go of all its keys, so that these need not be looked for.
ghost use Rattle.std.specs.Prelude.{◌≡◌, ◌≤◌, ◌<◌, ◌+◌, ◌^◌, None, Some, length, is_some, cond, if◌then◌else◌};
ghost use Rattle.indexmap.specs.IndexMap.{get, spare, IsUnique};
ghost use Rattle.table_keys.specs.records_model.History.{same_id};
ghost use Rattle.vms_base.specs.Ids.{serial_of};
ghost use Rattle.vms_base.specs.declared.ids.Serial.{Serial as SerialSaid};
ghost use Rattle.table_keys.specs.declared.place.Place.{Place as PlaceSaid};
ghost use Rattle.table_keys.specs.Places.{same_place};
ghost use Rattle.record_locks.specs.Turns.{is_now, turn_of, turn_count, one_more, same_branch};

use indexmap::IndexMap;
use table_keys::{BranchKey, Place};
use vms_base::{Key, Serial};

/// The turn of a branch.
#[derive(Clone, Copy, Debug, Drop)]
pub struct Turn {
    /// How long the log of locks was as it began.
    pub since: usize,
    /// How many keys were locked in it.
    pub count: usize,
}

/// Who locked a key, and in which of its turns.
#[derive(Clone, Copy, Debug, Drop)]
pub struct Hold {
    pub by: Serial,
    pub since: usize,
}

/// The turn that a branch has.
pub fn turn_now(turns: &IndexMap<BranchKey, Turn>, by: &Serial) -> Option<Turn>
    ensures { result ≡ turn_of turns.now.entries by.now }
{
    turns.get(&BranchKey { serial: *by }).copied()
}

/// Whether the branch has this turn now.
pub fn is_now(turns: &IndexMap<BranchKey, Turn>, hold: &Hold) -> bool
    ensures { result ≡ is_now (turn_of turns.now.entries) hold.now }
{
    match turn_now(turns, &hold.by) {
        Some(turn) => turn.since == hold.since,
        None => false,
    }
}

/// The turn in which a branch locks one key more. Where it has none, one begins.
pub fn one_more(turn: Option<Turn>, now: usize) -> Turn
    requires few { turn_count turn + 1 < 2 ^ 64 }
    ensures { result ≡ one_more now turn }
{
    match turn {
        Some(old) => Turn {
            since: old.since,
            count: old.count + 1,
        },
        None => Turn {
            since: now,
            count: 1,
        },
    }
}

/// Gives a branch a turn in place of the one that it has. It takes room only where it has none.
pub fn put_turn(turns: &mut IndexMap<BranchKey, Turn>, by: &Serial, turn: Turn)
    requires room { turn_of turns.old.entries by.now ≡ None → 0 < spare turns.old }
    ensures each { (q : SerialSaid) → turn_of turns.new.entries q ≡ cond (same_id (serial_of by.now) (serial_of q)) (Some turn) (turn_of turns.old.entries q) }
    ensures len { length turns.new.entries ≡ length turns.old.entries + (if is_some (turn_of turns.old.entries by.now) then 0 else 1) }
    ensures room { length turns.old.entries + spare turns.old ≤ length turns.new.entries + spare turns.new }
    ensures unique { IsUnique same_branch turns.new }
{
    match turns.get_mut(&BranchKey { serial: *by }) {
        Some(there) => *there = turn,
        None => {
            let _ = turns.insert(BranchKey { serial: *by }, turn);
        }
    }
}

/// Notes who locked a key last, and in which turn. It takes room only where the key was never locked.
pub fn put_hold(latest: &mut IndexMap<Place, Hold>, place: &Place, by: &Serial, since: usize)
    requires room { get same_place latest.old place.now ≡ None → 0 < spare latest.old }
    ensures each { (q : PlaceSaid) → get same_place latest.new q ≡ cond (same_place place.now q) (Some (record { by = by.now; since = since })) (get same_place latest.old q) }
    ensures few { length latest.new.entries ≤ length latest.old.entries + 1 }
    ensures room { length latest.old.entries + spare latest.old ≤ length latest.new.entries + spare latest.new }
    ensures unique { IsUnique same_place latest.new }
{
    // The check makes a proof only where the type of a place's key is named here.
    let _key: Key = place.key;
    match latest.get_mut(place) {
        Some(there) => *there = Hold { by: *by, since },
        None => {
            let _ = latest.insert(*place, Hold { by: *by, since });
        }
    }
}
