//! Units vote, and those that voted yes are settled.
ghost use Rattle.std.specs.Prelude.{◌≡◌, ◌≤◌, ◌<◌, ◌+◌, ◌⊎◌, true, false, None, Some, IfOk, IfSome, IsSome, OnErr, OnOk, length, option_copied};
ghost use Rattle.vms_model.specs.Limits.{branch_limit, moment_ceiling};
ghost use Rattle.vms_model.specs.Blocks.{log_start};
ghost use Rattle.careful_write.specs.Down.{Counts};
ghost use Rattle.lmcp_log.specs.Log.{slot_of};
ghost use Rattle.unit_entries.specs.log_laws.Slots.{has_free, has_slot};
ghost use Rattle.record_locks.specs.Locks.{released};
ghost use Rattle.unit_journal.specs.Groups.{Grows};
ghost use Rattle.unit_table.specs.Units.{OpenUnit, unit_at, without_place};
ghost use Rattle.unit_votes.specs.Logging.{HasLog, MayHave};
ghost use Rattle.vms_base.specs.Ids.{serial_of, tid_of};
ghost use Rattle.rms_units.specs.State.{IsEarly, IsInOrder};
ghost use Rattle.rms_units.specs.Voting.{AbortsPrepared, AbortsPreparedNot, CommitsLogged, CommitsLoggedNot, IfYes, Votes, VotesNot, is_yes, votes_yes};

use crate::tokens::{PreparedUnit, Vote};
use block_disk::Disk;
use careful_write::Down;
use journal_format::EntryBuf;
use lmcp_log::Log;
use record_locks::Locks;
use unit_entries::ChangedKeys;
use unit_journal::next_moment;
use unit_table::{Branch, UnitTable};
use unit_votes::{abort_logged, commit_logged, enter_vote};
use vms_base::{LogRec, Moment, Reason, Record, RmList};
use volume::Volume;

// Whether a unit votes yes that has changed so much, with these managers.
fn votes_yes(positions: &[u64], rms: &RmList) -> bool
    ensures { result ≡ votes_yes positions.now rms.now }
{
    !(positions.is_empty() && rms.items().is_empty())
}

/// What the unit at a place has voted.
pub(crate) fn vote_at(place: u8, yes: bool) -> Vote
    requires place { place < branch_limit }
    ensures yes { is_yes result ≡ yes }
    ensures place { IfYes result (λ p. p ≡ place) }
{
    if yes {
        Vote::Yes(PreparedUnit { place })
    } else {
        Vote::ReadOnly
    }
}

/// The unit at a place, which is of this branch, votes; true where it is prepared. Else it is no more, and what it held is free, on Down too.
pub(crate) fn vote<D: Disk>(
    volume: &mut Volume<D>,
    log: &mut Log,
    table: &mut UnitTable,
    locks: &mut Locks,
    place: u8,
    branch: &Branch,
    rms: &RmList,
    entry: &mut EntryBuf,
) -> Result<bool, Down>
    requires place { place < branch_limit }
    requires there { IsSome (unit_at table.old.places place) }
    requires unit { IfSome (unit_at table.old.places place) (λ u. (tid_of branch.now.tid ≡ u.tid) × (serial_of branch.now.serial ≡ u.serial)) }
    requires active { IfSome (unit_at table.old.places place) (λ u. u.prepared ≡ false) }
    requires slot { IfSome (unit_at table.old.places place) (λ u. votes_yes u.positions rms.now ≡ true → (has_slot u.serial log.old ≡ true) ⊎ (has_free log.old ≡ true)) }
    requires order { IsInOrder (record { units = table.old; locks = locks.old.locks }) volume.old }
    requires early { IsEarly volume.old }
    requires before { log_start + length log.old ≤ volume.old.catalog.ru.start }
    ensures order { OnOk result (IsInOrder (record { units = table.new; locks = locks.new.locks }) volume.new) }
    ensures log { OnOk result (HasLog log.old volume.old → HasLog log.new volume.new) }
    ensures votes { IfOk result (λ yes. (u : OpenUnit) → unit_at table.old.places place ≡ Some u →
        Votes yes place u rms.now (record { units = table.old; locks = locks.old.locks }) log.old volume.old (record { units = table.new; locks = locks.new.locks }) log.new volume.new) }
    ensures breaks { OnErr result ((u : OpenUnit) → unit_at table.old.places place ≡ Some u →
        VotesNot place u rms.now (record { units = table.old; locks = locks.old.locks }) log.old volume.old (record { units = table.new; locks = locks.new.locks }) log.new volume.new) }
    ensures locks { (locks.new ≡ locks.old) ⊎ (locks.new ≡ record locks.old { locks = released (serial_of branch.now.serial) locks.old.locks }) }
    ensures grows { Grows 0 0 volume.old volume.new }
    ensures counts { Counts result volume.old.store.disk volume.new.store.disk }
    ensures pool { volume.new.store.pool ≡ volume.old.store.pool }
{
    if !votes_yes(table.positions(place), rms) {
        table.remove(place);
        locks.release_all(branch.serial);
        return Ok(false);
    }
    let has_changed = !table.positions(place).is_empty();
    match enter_vote(volume, log, branch, rms, has_changed, entry) {
        Err(down) => {
            table.remove(place);
            locks.release_all(branch.serial);
            return Err(down);
        }
        Ok(()) => {}
    }
    table.prepare(place);
    Ok(true)
}

/// Commits the unit at a place, which is of this branch, and tells the moment of its settlement; from then on the log has the record of those that are to be
/// told, or nothing. The unit is no more, and what it held is free, on Down too.
pub(crate) fn commit<D: Disk>(
    volume: &mut Volume<D>,
    log: &mut Log,
    table: &mut UnitTable,
    locks: &mut Locks,
    place: u8,
    branch: &Branch,
    logged: Option<&LogRec>,
    clock: Moment,
    entry: &mut EntryBuf,
) -> Result<Moment, Down>
    requires place { place < branch_limit }
    requires there { IsSome (unit_at table.old.places place) }
    requires unit { IfSome (unit_at table.old.places place) (λ u. (tid_of branch.now.tid ≡ u.tid) × (serial_of branch.now.serial ≡ u.serial)) }
    requires order { IsInOrder (record { units = table.old; locks = locks.old.locks }) volume.old }
    requires early { IsEarly volume.old }
    requires clock { clock.0 < moment_ceiling }
    requires before { log_start + length log.old ≤ volume.old.catalog.ru.start }
    requires may { MayHave (serial_of branch.now.serial) (slot_of (option_copied logged)) log.old }
    ensures locks { locks.new ≡ record locks.old { locks = released (serial_of branch.now.serial) locks.old.locks } }
    ensures order { OnOk result (IsInOrder (record { units = table.new; locks = locks.new.locks }) volume.new) }
    ensures log { OnOk result (HasLog log.old volume.old → HasLog log.new volume.new) }
    ensures commits { IfOk result (λ moment. (u : OpenUnit) → unit_at table.old.places place ≡ Some u →
        CommitsLogged place u branch.now.tid branch.now.serial (slot_of (option_copied logged.entry)) clock.0 moment.0 (record { units = table.old; locks = locks.old.locks }) log.old volume.old (record { units = table.new; locks = locks.new.locks }) log.new volume.new) }
    ensures breaks { OnErr result ((u : OpenUnit) → unit_at table.old.places place ≡ Some u →
        CommitsLoggedNot place u (slot_of (option_copied logged.entry)) clock.0 (record { units = table.old; locks = locks.old.locks }) log.old volume.old (record { units = table.new; locks = locks.new.locks }) log.new volume.new) }
    ensures grows { Grows 1 clock.0 volume.old volume.new }
    ensures counts { Counts result volume.old.store.disk volume.new.store.disk }
    ensures pool { volume.new.store.pool ≡ volume.old.store.pool }
{
    let has_changed = !table.positions(place).is_empty();
    let files = *table.files(place);
    table.remove(place);
    locks.release_all(branch.serial);
    let moment = next_moment(clock, volume.home());
    match commit_logged(
        volume,
        log,
        table,
        branch,
        &files,
        logged,
        has_changed,
        moment,
        entry,
    ) {
        Err(down) => return Err(down),
        Ok(()) => {}
    }
    Ok(moment)
}

/// Aborts the prepared unit at a place, which is of this branch, and tells the moment of its settlement; from then on the log has nothing of it. The unit is no
/// more, and what it held is free, on Down too.
pub(crate) fn abort_prepared<D: Disk>(
    volume: &mut Volume<D>,
    log: &mut Log,
    table: &mut UnitTable,
    locks: &mut Locks,
    place: u8,
    branch: &Branch,
    reason: Reason,
    clock: Moment,
    keys: &mut ChangedKeys,
    image: &mut Record,
    entry: &mut EntryBuf,
) -> Result<Moment, Down>
    requires place { place < branch_limit }
    requires there { IsSome (unit_at table.old.places place) }
    requires unit { IfSome (unit_at table.old.places place) (λ u. (tid_of branch.now.tid ≡ u.tid) × (serial_of branch.now.serial ≡ u.serial)) }
    requires order { IsInOrder (record { units = table.old; locks = locks.old.locks }) volume.old }
    requires early { IsEarly volume.old }
    requires clock { clock.0 < moment_ceiling }
    requires before { log_start + length log.old ≤ volume.old.catalog.ru.start }
    ensures locks { locks.new ≡ record locks.old { locks = released (serial_of branch.now.serial) locks.old.locks } }
    ensures order { OnOk result (IsInOrder (record { units = table.new; locks = locks.new.locks }) volume.new) }
    ensures aborts { IfOk result (λ moment. (u : OpenUnit) → unit_at table.old.places place ≡ Some u →
        AbortsPrepared place u branch.now.tid branch.now.serial reason clock.0 moment.0 (record { units = table.old; locks = locks.old.locks }) log.old volume.old (record { units = table.new; locks = locks.new.locks }) log.new volume.new) }
    ensures breaks { OnErr result ((u : OpenUnit) → unit_at table.old.places place ≡ Some u →
        AbortsPreparedNot place u reason clock.0 (record { units = table.old; locks = locks.old.locks }) log.old volume.old (record { units = table.new; locks = locks.new.locks }) log.new volume.new) }
    ensures grows { Grows 1 clock.0 volume.old volume.new }
    ensures counts { Counts result volume.old.store.disk volume.new.store.disk }
    ensures pool { volume.new.store.pool ≡ volume.old.store.pool }
{
    locks.release_all(branch.serial);
    let moment = next_moment(clock, volume.home());
    match abort_logged(
        volume, log, table, place, branch, reason, moment, keys, image, entry,
    ) {
        Err(down) => return Err(down),
        Ok(()) => {}
    }
    Ok(moment)
}
