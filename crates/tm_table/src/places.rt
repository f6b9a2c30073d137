// Where branches and records stand.
ghost use Rattle.std.specs.Prelude.{◌≡◌, ◌<◌, length, map, position, remove, slice_set, vec_len, vec_capacity, ◌∷◌, []};
ghost use Rattle.std.specs.List.{list_any};
ghost use Rattle.commit_protocol.specs.Messages.{same_id as same_id_of};
ghost use Rattle.commit_protocol.specs.Table.{same_key as same_key_of, waits_for as waits_for_of, holds as holds_of};
ghost use Rattle.commit_protocol.specs.Effects.{record_effects};
ghost use Rattle.vms_base.specs.Ids.{serial_of, tid_of};
ghost use Rattle.tm_types.specs.Parts.{log_record_of};
ghost use Rattle.tm_types.specs.Branches.{key_at, branch_of};
ghost use Rattle.tm_types.specs.Effects.{effect_of};
ghost use Rattle.tm_table.specs.Kept.{kept_at};

use tm_types::{BranchState, Effect, holds, is_done, same_id, waits_for};
use vms_base::{LogRec, RmName, Serial, Tid};

/// Whether the branch has this transaction id and this serial.
#[tactic(auto, unfolding(commit_protocol::specs::Table::same_key))]
pub fn has_key(b: &BranchState, tid: &Tid, serial: &Serial) -> bool
    ensures { result ≡ same_key_of (branch_of b.now).key (key_at tid.now serial.now) }
{
    same_id(&b.tid.0, &tid.0) && same_id(&b.serial.0, &serial.0)
}

/// The place of the branch with this transaction id and serial. None where no branch has them.
pub fn place(branches: &[BranchState], tid: &Tid, serial: &Serial) -> Option<usize>
    ensures { result ≡ position (λ b. same_key_of (branch_of b).key (key_at tid.now serial.now)) branches.now }
{
    for (i, b) in branches.iter().enumerate() {
        if has_key(b, tid, serial) {
            return Some(i);
        }
    }
    None
}

/// The place of the first branch with the serial. None where no branch has it.
pub fn place_of_serial(branches: &[BranchState], serial: &Serial) -> Option<usize>
    ensures { result ≡ position (λ b. same_id_of (branch_of b).key.serial (serial_of serial.now)) branches.now }
{
    for (i, b) in branches.iter().enumerate() {
        if same_id(&b.serial.0, &serial.0) {
            return Some(i);
        }
    }
    None
}

/// The place of the first record that waits for the branch. None where none does.
pub fn place_of_waiting(records: &[LogRec], tid: &Tid, serial: &Serial) -> Option<usize>
    ensures { result ≡ position (λ r. waits_for_of (key_at tid.now serial.now) (log_record_of r)) records.now }
{
    for (i, r) in records.iter().enumerate() {
        if waits_for(r, tid, serial) {
            return Some(i);
        }
    }
    None
}

/// The place of the first record of the serial that waits for the manager. None where none does.
pub fn place_of_holding(records: &[LogRec], serial: &Serial, rm: &RmName) -> Option<usize>
    ensures { result ≡ position (λ r. holds_of (serial_of serial.now) rm.now (log_record_of r)) records.now }
{
    for (i, r) in records.iter().enumerate() {
        if holds(r, serial, rm) {
            return Some(i);
        }
    }
    None
}

/// The place of the first record of the serial. None where it has none.
pub fn place_of_record(records: &[LogRec], serial: &Serial) -> Option<usize>
    ensures { result ≡ position (λ r. same_id_of (log_record_of r).serial (serial_of serial.now)) records.now }
{
    for (i, r) in records.iter().enumerate() {
        if same_id(&r.serial.0, &serial.0) {
            return Some(i);
        }
    }
    None
}

/// Whether a record of the transaction stands.
pub fn has_record(records: &[LogRec], tid: &Tid) -> bool
    ensures { result ≡ list_any (λ r. same_id_of r.tid (tid_of tid.now)) (map log_record_of records.now) }
{
    for r in records {
        if same_id(&r.tid.0, &tid.0) {
            return true;
        }
    }
    false
}

/// Writes a record again at its place, or drops it where nothing is left to wait for, and tells which.
pub fn keep_record(records: &mut Vec<LogRec>, i: usize, rec: LogRec) -> Effect
    requires { i < vec_len records.old }
    ensures records { map log_record_of records.new.items ≡ kept_at i (log_record_of rec) (map log_record_of records.old.items) }
    ensures effect { effect_of result ∷ [] ≡ record_effects (log_record_of rec) }
    ensures capacity { vec_capacity records.new ≡ vec_capacity records.old }
{
    if is_done(&rec) {
        let serial = rec.serial;
        records.remove(i);
        return Effect::Forget { serial };
    }
    records[i] = rec.copy();
    Effect::Keep(rec)
}
