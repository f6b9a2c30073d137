//! What a node keeps on its disk and beside it while it is up.
ghost use Rattle.std.specs.Prelude.{[], IfOk, length, map, vec_capacity, ◌≡◌, ◌≤◌};
ghost use Rattle.vms_model.specs.Limits.{branch_limit};
ghost use Rattle.net_wire.specs.commit_protocol.Table.{record_serials};
ghost use Rattle.tm_types.specs.Parts.{log_record_of};
ghost use Rattle.vms_base.specs.Ids.{serial_of};

use block_disk::Disk;
use recovery_units::{RecoveryUnits, Reopened};
use std::alloc::{AllocError, Global};
use vms_base::{LogRec, Record, Serial};
use volume::Volume;

// How many branches of a node are unsettled at the most.
const MOST_BRANCHES: usize = 64;

/// The room that a node takes once: for the record that is read, for what a restart tells, and for the serials of prepared branches, in the order of their
/// preparation.
#[derive(Drop)]
pub struct Room {
    pub found: Record,
    pub told: Reopened,
    pub in_doubt: Vec<Serial>,
    ghost room: { branch_limit ≤ vec_capacity in_doubt },
}

impl Room {
    /// Room for one record, for what a restart tells, and for 64 branches in doubt, taken once.
    pub fn reserve(alloc: Global) -> Result<Room, AllocError>
        ensures { IfOk result (λ r. r.in_doubt.items ≡ []) }
    {
        Ok(Room {
            found: Record::reserve(alloc)?,
            told: Reopened::reserve(alloc)?,
            in_doubt: Vec::with_capacity(alloc, MOST_BRANCHES)?,
        })
    }

    // The prepared branches that a restart told are in doubt, in this order, and no others.
    pub(crate) fn recall(&mut self)
        requires few { length self.old.told.prepared ≤ branch_limit }
        ensures serials { map serial_of self.new.in_doubt.items ≡ record_serials (map log_record_of self.old.told.prepared) }
        ensures told { self.new.told ≡ self.old.told }
    {
        recall(&mut self.in_doubt, self.told.prepared());
    }
}

// The serials of these records are in doubt, and no others.
fn recall(in_doubt: &mut Vec<Serial>, prepared: &[LogRec])
    requires room { branch_limit ≤ vec_capacity in_doubt.old }
    requires few { length prepared.now ≤ branch_limit }
    ensures serials { map serial_of in_doubt.new.items ≡ record_serials (map log_record_of prepared.now) }
    ensures room { branch_limit ≤ vec_capacity in_doubt.new }
{
    in_doubt.clear();
    for record in prepared {
        in_doubt.push_reserved(record.serial);
    }
}

/// The volume of a node that is up, and its recovery units.
#[derive(Drop)]
pub struct Stored<D: Disk, U: RecoveryUnits> {
    pub volume: Volume<D>,
    pub units: U,
    pub room: Room,
}
