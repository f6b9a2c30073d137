// Settlements as they are told to those above.
ghost use Rattle.std.specs.Prelude.{◌≡◌, ◌≤◌, ◌+◌, ◌++◌, length, map};
ghost use Rattle.vms_model.specs.Limits.{branch_limit, slot_limit};
ghost use Rattle.node_units.specs.Told.{unit_settled};

use recovery_units::{Reopened, SettledUnit};
use rms_units::{AbortedUnit, Units};
use vms_base::LogRec;

/// How a unit was settled, as it is told above. What the units told of it is spent.
pub(crate) fn told_above(units: &mut Units, unit: rms_units::SettledUnit) -> SettledUnit
    ensures told { (result.tid ≡ unit.tid) × (result.serial ≡ unit.serial) × (result.moment ≡ unit.moment) }
    ensures same { units.new ≡ units.old }
{
    let (tid, serial, _outcome, moment) = units.done(unit);
    SettledUnit {
        tid,
        serial,
        moment,
    }
}

/// Tells the units that a restart undid, behind those that were told.
pub(crate) fn tell_undone(undone: &[AbortedUnit], out: &mut Reopened)
    requires { length out.old.settled + length undone.now ≤ branch_limit }
    ensures { out.new ≡ record out.old { settled = out.old.settled ++ map unit_settled undone.now } }
{
    match undone {
        [] => {}
        [unit, rest @ ..] => {
            out.push(SettledUnit {
                tid: unit.tid,
                serial: unit.serial,
                moment: unit.moment,
            });
            tell_undone(rest, out);
        }
    }
}

/// Tells the records of the prepared branches that a restart found, behind those that were told.
pub(crate) fn tell_prepared(records: &[LogRec], out: &mut Reopened)
    requires { length out.old.prepared + length records.now ≤ branch_limit }
    ensures { out.new ≡ record out.old { prepared = out.old.prepared ++ records.now } }
{
    match records {
        [] => {}
        [r, rest @ ..] => {
            out.push_prepared(r);
            tell_prepared(rest, out);
        }
    }
}

/// And the committed ones.
pub(crate) fn tell_committed(records: &[LogRec], out: &mut Reopened)
    requires { length out.old.committed + length records.now ≤ slot_limit }
    ensures { out.new ≡ record out.old { committed = out.old.committed ++ records.now } }
{
    match records {
        [] => {}
        [r, rest @ ..] => {
            out.push_committed(r);
            tell_committed(rest, out);
        }
    }
}
