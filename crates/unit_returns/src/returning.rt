// The units of prepared branches, as a restart finds them.
ghost use Rattle.std.specs.Prelude.{◌≡◌, ◌≤◌, ◌<◌, ◌+◌, ◌++◌, ◌∷◌, [], OnOk, OnErr, IfOk, length, map, vec_capacity};
ghost use Rattle.std.specs.List.{AllByRecursion};
ghost use Rattle.vms_model.specs.Limits.{branch_limit};
ghost use Rattle.careful_write.specs.Down.{Counts};
ghost use Rattle.careful_write.specs.State.{IsReady};
ghost use Rattle.journal_store.specs.Rings.{IsRing};
ghost use Rattle.unit_entries.specs.tm_types.Parts.{log_record_of};
ghost use Rattle.unit_journal.specs.Groups.{LeavesOld};
ghost use Rattle.unit_table.specs.Units.{begun, is_of, without_first};
ghost use Rattle.vms_base.specs.Ids.{serial_of};
ghost use Rattle.volume.specs.State.{SameVolume};
ghost use Rattle.unit_returns.specs.Returning.{AreLow, AreTakenUp, IsTakenUp, StayFew};

use crate::locking::hold_changes;
use block_disk::Disk;
use careful_write::Down;
use record_locks::Locks;
use unit_table::UnitTable;
use vms_base::{LogRec, Record};
use volume::Volume;

// The unit of the branch of a prepared record is begun again, at the place that is answered. It takes its changes from those that the journal left,
// and holds what they changed.
fn take_unit<D: Disk>(
    volume: &mut Volume<D>,
    left: &mut UnitTable,
    r: &LogRec,
    table: &mut UnitTable,
    locks: &mut Locks,
    image: &mut Record,
) -> Result<u8, Down>
    requires ready { IsReady volume.old.store }
    requires ring { IsRing volume.old.catalog.ru volume.old.store.disk }
    requires low { AreLow (begun left.old) }
    requires few { length (begun table.old) < branch_limit }
    ensures taken { OnOk result (IsTakenUp (log_record_of r.now) (begun left.old) volume.old (begun table.old) (begun table.new) locks.old locks.new) }
    ensures order { IfOk result (λ place. table.new.order ≡ table.old.order ++ place ∷ []) }
    ensures place { IfOk result (λ place. place < branch_limit) }
    ensures left { OnOk result (begun left.new ≡ without_first (is_of (serial_of r.now.serial)) (begun left.old)) }
    ensures few { StayFew locks.old locks.new }
    ensures same { OnOk result (SameVolume volume.old volume.new) }
    ensures down { OnErr result (LeavesOld volume.old volume.new.store.disk) }
    ensures kept { volume.new.catalog ≡ volume.old.catalog }
    ensures counts { Counts result volume.old.store.disk volume.new.store.disk }
    ensures pool { volume.new.store.pool ≡ volume.old.store.pool }
{
    table.stand_in_order();
    let Some(place) = table.begin(r.tid, r.serial) else {
        unreachable!()
    };
    let Some(other) = left.find(&r.serial) else {
        table.prepare(place);
        return Ok(place);
    };
    let positions = left.positions(other);
    table.take_back(place, positions, left.files(other));
    match hold_changes(volume, positions, locks, &r.serial, image) {
        Err(down) => return Err(down),
        Ok(()) => {}
    }
    left.remove(other);
    Ok(place)
}

/// The units of the branches of prepared records are begun again, behind those that are there, in the order of the records. Each takes its changes
/// from the units that the journal left, and holds what they changed. Their places are listed as those of the units that are there.
pub fn take_units<D: Disk>(
    volume: &mut Volume<D>,
    left: &mut UnitTable,
    records: &[LogRec],
    table: &mut UnitTable,
    locks: &mut Locks,
    places: &mut Vec<u8>,
    image: &mut Record,
) -> Result<(), Down>
    requires ready { IsReady volume.old.store }
    requires ring { IsRing volume.old.catalog.ru volume.old.store.disk }
    requires low { AreLow (begun left.old) }
    requires few { length (begun table.old) + length records.now ≤ branch_limit }
    requires places { places.old.items ≡ table.old.order }
    requires below { AllByRecursion (λ p. p < branch_limit) places.old.items }
    requires room { length places.old.items + length records.now ≤ vec_capacity places.old }
    ensures taken { OnOk result (AreTakenUp (map log_record_of records.now) (begun left.old) volume.old (begun table.old) (begun table.new) locks.old locks.new) }
    ensures places { OnOk result (places.new.items ≡ table.new.order) }
    ensures below { AllByRecursion (λ p. p < branch_limit) places.new.items }
    ensures room { vec_capacity places.old ≤ vec_capacity places.new }
    ensures few { StayFew locks.old locks.new }
    ensures same { OnOk result (SameVolume volume.old volume.new) }
    ensures down { OnErr result (LeavesOld volume.old volume.new.store.disk) }
    ensures kept { volume.new.catalog ≡ volume.old.catalog }
    ensures counts { Counts result volume.old.store.disk volume.new.store.disk }
    ensures pool { volume.new.store.pool ≡ volume.old.store.pool }
{
    match records {
        [] => Ok(()),
        [r, rest @ ..] => {
            match take_unit(volume, left, r, table, locks, image) {
                Err(down) => return Err(down),
                Ok(place) => places.push_reserved(place),
            }
            take_units(volume, left, rest, table, locks, places, image)
        }
    }
}
