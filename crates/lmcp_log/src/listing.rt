// The records of slots, by their kinds.
ghost use Rattle.std.specs.Prelude.{◌≡◌, ◌≤◌, ◌<◌, ◌+◌, ◌++◌, ◌∷◌, [], length, map, vec_capacity};
ghost use Rattle.log_laws.specs.Slots.{committed_of, prepared_of, records_in};
ghost use Rattle.tm_types.specs.Parts.{log_record_of};
ghost use Rattle.lmcp_log.specs.Log.{slot_of, fewer, is_prepared as is_prepared_said, passed, with_few_prepared};

use vms_base::{LogKind, LogRec};

// Whether a slot has a prepared record.
fn is_prepared(slot: &Option<LogRec>) -> bool
    ensures { result ≡ is_prepared_said (slot_of slot.now) }
{
    match slot {
        Some(r) => match r.kind {
            LogKind::Prepared => true,
            LogKind::Committed => false,
        },
        None => false,
    }
}

// What is left of a slot where so many prepared records may stand from it on. It tells how many may behind it.
fn pass_over_one(slot: &mut Option<LogRec>, most: usize) -> usize
    ensures slot { slot_of slot.new ≡ passed most (slot_of slot.old) }
    ensures fewer { result ≡ fewer most (slot_of slot.old) }
{
    if !is_prepared(slot) {
        return most;
    }
    if most == 0 {
        *slot = None;
        return 0;
    }
    most - 1
}

/// The slots that have a prepared record behind so many of them are free.
pub(crate) fn pass_over(slots: &mut Vec<Option<LogRec>>, most: usize)
    ensures slots { map slot_of slots.new.items ≡ with_few_prepared most (map slot_of slots.old.items) }
    ensures count { length slots.new.items ≡ length slots.old.items }
    ensures room { vec_capacity slots.new ≡ vec_capacity slots.old }
{
    let mut left = most;
    for i in 0..slots.len() {
        left = pass_over_one(&mut slots[i], left);
    }
}

// Lists the record of a slot, where it has one, behind those of its kind.
fn list_record(slot: &Option<LogRec>, prepared: &mut Vec<LogRec>, committed: &mut Vec<LogRec>)
    requires prepared { length prepared.old.items + length (prepared_of (records_in (slot_of slot.now ∷ []))) ≤ vec_capacity prepared.old }
    requires committed { length committed.old.items < vec_capacity committed.old }
    ensures prepared { map log_record_of prepared.new.items ≡ map log_record_of prepared.old.items ++ prepared_of (records_in (slot_of slot.now ∷ [])) }
    ensures committed { map log_record_of committed.new.items ≡ map log_record_of committed.old.items ++ committed_of (records_in (slot_of slot.now ∷ [])) }
    ensures few { length committed.new.items ≤ length committed.old.items + 1 }
    ensures prepared_room { vec_capacity prepared.old ≤ vec_capacity prepared.new }
    ensures committed_room { vec_capacity committed.old ≤ vec_capacity committed.new }
{
    let Some(r) = slot else {
        return;
    };
    match r.kind {
        LogKind::Prepared => prepared.push_reserved(r.copy()),
        LogKind::Committed => committed.push_reserved(r.copy()),
    }
}

/// Lists the records of slots behind those of their kinds.
pub(crate) fn list_records(
    slots: &[Option<LogRec>],
    prepared: &mut Vec<LogRec>,
    committed: &mut Vec<LogRec>,
)
    requires prepared { length prepared.old.items + length (prepared_of (records_in (map slot_of slots.now))) ≤ vec_capacity prepared.old }
    requires committed { length committed.old.items + length slots.now ≤ vec_capacity committed.old }
    ensures prepared { map log_record_of prepared.new.items ≡ map log_record_of prepared.old.items ++ prepared_of (records_in (map slot_of slots.now)) }
    ensures committed { map log_record_of committed.new.items ≡ map log_record_of committed.old.items ++ committed_of (records_in (map slot_of slots.now)) }
    ensures prepared_room { vec_capacity prepared.old ≤ vec_capacity prepared.new }
    ensures committed_room { vec_capacity committed.old ≤ vec_capacity committed.new }
{
    match slots {
        [] => {}
        [slot, rest @ ..] => {
            list_record(slot, prepared, committed);
            list_records(rest, prepared, committed);
        }
    }
}
