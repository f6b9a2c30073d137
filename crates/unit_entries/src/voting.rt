// The prepared records of a log, in the order in which their branches were prepared.
ghost use Rattle.std.specs.Prelude.{◌≡◌, ◌≤◌, ◌+◌, ◌++◌, ◌∷◌, List, [], None, IfSome, IfNone, length, map, vec_capacity};
ghost use Rattle.journal_format.specs.Heads.{entry_of};
ghost use Rattle.table_keys.specs.records_model.History.{same_id};
ghost use Rattle.run_model.specs.World.{find_record, records_by};
ghost use Rattle.tm_types.specs.Parts.{log_record_of};
ghost use Rattle.vms_base.specs.Ids.{serial_of};
ghost use Rattle.vms_base.specs.vms_model.Ids.{Id};
ghost use Rattle.unit_entries.specs.Voting.{IsPlaceOf, votes_in};

use journal_format::{EntryHead, EntryKind};
use vms_base::{LogRec, Serial};

// Whether two serials are one.
fn is_same(a: &Serial, b: &Serial) -> bool
    ensures { result ≡ same_id (serial_of a.now) (serial_of b.now) }
{
    a.0.node.bytes() == b.0.node.bytes() && a.0.boot == b.0.boot && a.0.seq == b.0.seq
}

// Where the record of a branch stands among these.
fn place_of(records: &[LogRec], serial: &Serial) -> Option<usize>
    ensures found { IfSome result (IsPlaceOf (serial_of serial.now) records.now) }
    ensures none { IfNone result (find_record (serial_of serial.now) (map log_record_of records.now) ≡ None) }
{
    match records {
        [] => None,
        [r, rest @ ..] => {
            if is_same(serial, &r.serial) {
                return Some(0);
            }
            match place_of(rest, serial) {
                Some(place) => Some(place + 1),
                None => None,
            }
        }
    }
}

// Moves the record of a branch behind others, where it is there.
fn move_record(rest: &mut Vec<LogRec>, serial: &Serial, out: &mut Vec<LogRec>)
    requires room { length out.old.items + length rest.old.items ≤ vec_capacity out.old }
    ensures moved { (ws : List Id) → map log_record_of out.new.items ++ records_by ws (map log_record_of rest.new.items) ≡ map log_record_of out.old.items ++ records_by (serial_of serial.now ∷ ws) (map log_record_of rest.old.items) }
    ensures count { length out.new.items + length rest.new.items ≡ length out.old.items + length rest.old.items }
    ensures room { vec_capacity out.old ≤ vec_capacity out.new }
    ensures left { vec_capacity rest.old ≤ vec_capacity rest.new }
{
    if let Some(place) = place_of(rest, serial) {
        let r = rest.remove(place);
        out.push_reserved(r);
    }
}

/// Moves the record of the branch of a Prepared entry behind others.
pub(crate) fn take_vote(e: &EntryHead, rest: &mut Vec<LogRec>, out: &mut Vec<LogRec>)
    requires room { length out.old.items + length rest.old.items ≤ vec_capacity out.old }
    ensures moved { (ws : List Id) → map log_record_of out.new.items ++ records_by ws (map log_record_of rest.new.items) ≡ map log_record_of out.old.items ++ records_by (votes_in (entry_of e.now [] ∷ []) ++ ws) (map log_record_of rest.old.items) }
    ensures count { length out.new.items + length rest.new.items ≡ length out.old.items + length rest.old.items }
    ensures room { vec_capacity out.old ≤ vec_capacity out.new }
    ensures left { vec_capacity rest.old ≤ vec_capacity rest.new }
{
    match e.kind {
        EntryKind::Prepared => move_record(rest, &e.serial, out),
        _ => {}
    }
}
