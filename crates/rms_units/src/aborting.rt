//! A unit is aborted.
ghost use Rattle.std.specs.Prelude.{◌≡◌, ◌≤◌, ◌<◌, ◌+◌, IfOk, IfSome, IsSome, OnErr, OnOk, length};
ghost use Rattle.vms_model.specs.Limits.{branch_limit, moment_ceiling};
ghost use Rattle.careful_write.specs.Down.{Counts};
ghost use Rattle.record_locks.specs.Locks.{released};
ghost use Rattle.unit_journal.specs.Groups.{Grows};
ghost use Rattle.unit_table.specs.Units.{OpenUnit, unit_at, without_place};
ghost use Rattle.vms_base.specs.Ids.{serial_of, tid_of};
ghost use Rattle.rms_units.specs.Aborting.{AbortsNot, AbortsUnit};
ghost use Rattle.rms_units.specs.State.{IsEarly, IsInOrder};

use block_disk::Disk;
use careful_write::Down;
use journal_format::EntryBuf;
use record_locks::Locks;
use unit_entries::ChangedKeys;
use unit_journal::next_moment;
use unit_restarts::abort_unit;
use unit_table::{Branch, UnitTable};
use vms_base::{Moment, Reason, Record};
use volume::Volume;

/// Aborts the unit at a place, which is of this branch, and tells the moment of its settlement. The unit is no more, and what it held is free, on Down too.
pub(crate) fn abort_branch<D: Disk>(
    volume: &mut Volume<D>,
    table: &mut UnitTable,
    locks: &mut Locks,
    place: u8,
    branch: &Branch,
    reason: Reason,
    clock: Moment,
    keys: &mut ChangedKeys,
    image: &mut Record,
    entry: &mut EntryBuf,
) -> Result<Moment, Down>
    requires place { place < branch_limit }
    requires there { IsSome (unit_at table.old.places place) }
    requires unit { IfSome (unit_at table.old.places place) (λ u. (tid_of branch.now.tid ≡ u.tid) × (serial_of branch.now.serial ≡ u.serial)) }
    requires order { IsInOrder (record { units = table.old; locks = locks.old.locks }) volume.old }
    requires early { IsEarly volume.old }
    requires clock { clock.0 < moment_ceiling }
    ensures units { table.new ≡ without_place place table.old }
    ensures locks { locks.new ≡ record locks.old { locks = released (serial_of branch.now.serial) locks.old.locks } }
    ensures order { OnOk result (IsInOrder (record { units = table.new; locks = locks.new.locks }) volume.new) }
    ensures aborts { IfOk result (λ moment. (u : OpenUnit) → unit_at table.old.places place ≡ Some u →
        AbortsUnit place u branch.now.tid branch.now.serial reason clock.0 moment.0 (record { units = table.old; locks = locks.old.locks }) volume.old (record { units = table.new; locks = locks.new.locks }) volume.new) }
    ensures breaks { OnErr result ((u : OpenUnit) → unit_at table.old.places place ≡ Some u →
        AbortsNot place u reason clock.0 (record { units = table.old; locks = locks.old.locks }) volume.old (record { units = table.new; locks = locks.new.locks }) volume.new) }
    ensures grows { Grows 1 clock.0 volume.old volume.new }
    ensures counts { Counts result volume.old.store.disk volume.new.store.disk }
    ensures pool { volume.new.store.pool ≡ volume.old.store.pool }
{
    locks.release_all(branch.serial);
    let moment = next_moment(clock, volume.home());
    match abort_unit(
        volume, table, place, branch, reason, moment, keys, image, entry,
    ) {
        Err(down) => return Err(down),
        Ok(()) => {}
    }
    Ok(moment)
}
