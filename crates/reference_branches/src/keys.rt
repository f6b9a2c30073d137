// Branches by their serials.
ghost use Rattle.std.specs.Prelude.{◌≡◌, map};
ghost use Rattle.commit_protocol.specs.Table.{first};
ghost use Rattle.vms_base.specs.Ids.{id_of};
ghost use Rattle.reference_world.specs.Standing.{branch_key_of};
ghost use Rattle.reference_branches.specs.Branches.{tid_among};

use reference_world::{BranchKey, same_id};
use vms_base::Id;

// The transaction of a serial among these branches, or else the serial.
fn transaction_of(keys: &[BranchKey], serial: &Id) -> Id
    ensures { id_of result ≡ tid_among (id_of serial.now) (map branch_key_of keys.now) }
{
    match keys {
        [] => *serial,
        [k, rest @ ..] => {
            if same_id(serial, &k.serial) {
                k.tid
            } else {
                transaction_of(rest, serial)
            }
        }
    }
}

/// The branch of a serial among these.
pub fn branch_among(keys: &[BranchKey], serial: &Id) -> BranchKey
    ensures { branch_key_of result ≡ record { tid = tid_among (id_of serial.now) (map branch_key_of keys.now); serial = id_of serial.now } }
{
    BranchKey {
        tid: transaction_of(keys, serial),
        serial: *serial,
    }
}

/// The branch of a transaction.
pub fn branch_in(tid: &Id, serial: &Id) -> BranchKey
    ensures { branch_key_of result ≡ record { tid = id_of tid.now; serial = id_of serial.now } }
{
    BranchKey {
        tid: *tid,
        serial: *serial,
    }
}

/// A branch of its own.
pub fn alone(id: &Id) -> BranchKey
    ensures { branch_key_of result ≡ first (id_of id.now) }
{
    BranchKey {
        tid: *id,
        serial: *id,
    }
}
