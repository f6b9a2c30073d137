// The slots of a node's log.
ghost use Rattle.std.specs.Prelude.{◌≡◌, ◌≤◌, ◌+◌, ℕ, None, map, option_map, length, replicate, IfOk};
ghost use Rattle.vms_model.specs.Limits.{slot_limit};
ghost use Rattle.log_laws.specs.commit_protocol.Messages.{LogRecord};
ghost use Rattle.log_laws.specs.Slots as log;
ghost use Rattle.reference_index.specs.run_model.Answers as answers;
ghost use Rattle.vms_base.specs.Ids.{id_of};
ghost use Rattle.tm_types.specs.Parts.{log_kind_of, log_record_of};
ghost use Rattle.reference_world.specs.Standing.{line_of};
ghost use Rattle.reference_disk.specs.Disks.{logged_tid, slots_of};

use reference_index::{push_front, take_first};
use reference_world::Line;
use std::alloc::{AllocError, Global};
use tm_types::same_id;
use vms_base::{Id, LogKind, LogRec};

/// So many free slots.
pub fn empty_log(alloc: Global, count: u32) -> Result<Vec<Option<LogRec>>, AllocError>
    ensures { IfOk result (λ v. slots_of v.items ≡ replicate count None) }
{
    if count == 0 {
        return Ok(Vec::new(alloc));
    }
    let mut all = empty_log(alloc, count - 1)?;
    push_front(&mut all, None)?;
    Ok(all)
}

// Whether a slot has this serial.
fn has_slot(slots: &[Option<LogRec>], serial: &Id) -> bool
    ensures { result ≡ log.has_slot (id_of serial.now) (slots_of slots.now) }
{
    match slots {
        [] => false,
        [slot, rest @ ..] => match slot {
            None => has_slot(rest, serial),
            Some(r) => same_id(&r.serial.0, serial) || has_slot(rest, serial),
        },
    }
}

// A record in the slot of its serial.
fn replaced(
    alloc: Global,
    slots: Vec<Option<LogRec>>,
    written: LogRec,
) -> Result<Vec<Option<LogRec>>, AllocError>
    ensures { IfOk result (λ v. slots_of v.items ≡ log.replaced (log_record_of written) (slots_of slots.items)) }
{
    let mut rest = slots;
    match take_first(&mut rest) {
        None => Ok(Vec::new(alloc)),
        Some(None) => {
            let mut all = replaced(alloc, rest, written)?;
            push_front(&mut all, None)?;
            Ok(all)
        }
        Some(Some(r)) => {
            if same_id(&r.serial.0, &written.serial.0) {
                push_front(&mut rest, Some(written))?;
                Ok(rest)
            } else {
                let mut all = replaced(alloc, rest, written)?;
                push_front(&mut all, Some(r))?;
                Ok(all)
            }
        }
    }
}

// A record in the lowest free slot.
fn filled(
    alloc: Global,
    slots: Vec<Option<LogRec>>,
    written: LogRec,
) -> Result<Vec<Option<LogRec>>, AllocError>
    ensures { IfOk result (λ v. slots_of v.items ≡ log.filled (log_record_of written) (slots_of slots.items)) }
{
    let mut rest = slots;
    match take_first(&mut rest) {
        None => Ok(Vec::new(alloc)),
        Some(None) => {
            push_front(&mut rest, Some(written))?;
            Ok(rest)
        }
        Some(Some(r)) => {
            let mut all = filled(alloc, rest, written)?;
            push_front(&mut all, Some(r))?;
            Ok(all)
        }
    }
}

/// A record takes the slot of its serial, else the lowest free one.
pub fn with_record(
    alloc: Global,
    slots: Vec<Option<LogRec>>,
    written: LogRec,
) -> Result<Vec<Option<LogRec>>, AllocError>
    ensures { IfOk result (λ v. slots_of v.items ≡ log.put_in (log_record_of written) (slots_of slots.items)) }
{
    if has_slot(slots.as_slice(), &written.serial.0) {
        replaced(alloc, slots, written)
    } else {
        filled(alloc, slots, written)
    }
}

/// The slot of this serial is free.
pub fn forgotten(
    alloc: Global,
    slots: Vec<Option<LogRec>>,
    serial: &Id,
) -> Result<Vec<Option<LogRec>>, AllocError>
    ensures { IfOk result (λ v. slots_of v.items ≡ log.forgotten (id_of serial.now) (slots_of slots.items)) }
{
    let mut rest = slots;
    match take_first(&mut rest) {
        None => Ok(Vec::new(alloc)),
        Some(None) => {
            let mut all = forgotten(alloc, rest, serial)?;
            push_front(&mut all, None)?;
            Ok(all)
        }
        Some(Some(r)) => {
            if same_id(&r.serial.0, serial) {
                push_front(&mut rest, None)?;
                Ok(rest)
            } else {
                let mut all = forgotten(alloc, rest, serial)?;
                push_front(&mut all, Some(r))?;
                Ok(all)
            }
        }
    }
}

// Whether a record is a prepared one.
fn is_prepared(r: &LogRec) -> bool
    ensures { result ≡ log.is_prepared_record (log_kind_of r.now.kind) }
{
    match r.kind {
        LogKind::Prepared => true,
        LogKind::Committed => false,
    }
}

/// The prepared records, in the order of their slots.
pub fn prepared_in(alloc: Global, slots: &[Option<LogRec>]) -> Result<Vec<LogRec>, AllocError>
    ensures { IfOk result (λ v. map log_record_of v.items ≡ log.prepared_of (log.records_in (slots_of slots.now))) }
{
    match slots {
        [] => Ok(Vec::new(alloc)),
        [slot, rest @ ..] => {
            let mut all = prepared_in(alloc, rest)?;
            match slot {
                None => Ok(all),
                Some(r) => {
                    if is_prepared(r) {
                        push_front(&mut all, r.copy())?;
                        Ok(all)
                    } else {
                        Ok(all)
                    }
                }
            }
        }
    }
}

/// The committed records, in the order of their slots.
pub fn committed_in(alloc: Global, slots: &[Option<LogRec>]) -> Result<Vec<LogRec>, AllocError>
    ensures { IfOk result (λ v. map log_record_of v.items ≡ log.committed_of (log.records_in (slots_of slots.now))) }
{
    match slots {
        [] => Ok(Vec::new(alloc)),
        [slot, rest @ ..] => {
            let mut all = committed_in(alloc, rest)?;
            match slot {
                None => Ok(all),
                Some(r) => {
                    if is_prepared(r) {
                        Ok(all)
                    } else {
                        push_front(&mut all, r.copy())?;
                        Ok(all)
                    }
                }
            }
        }
    }
}

/// The transaction of the record of this serial.
pub fn tid_of(slots: &[Option<LogRec>], serial: &Id) -> Id
    ensures { id_of result ≡ logged_tid (id_of serial.now) (slots_of slots.now) }
{
    match slots {
        [] => *serial,
        [slot, rest @ ..] => match slot {
            None => tid_of(rest, serial),
            Some(r) => {
                if same_id(&r.serial.0, serial) {
                    r.tid.0
                } else {
                    tid_of(rest, serial)
                }
            }
        },
    }
}

/// How many committed records there are.
pub fn count_committed(slots: &[Option<LogRec>]) -> usize
    ensures count { result ≡ length (log.committed_of (log.records_in (slots_of slots.now))) }
    ensures few { result ≤ length slots.now }
{
    match slots {
        [] => 0,
        [slot, rest @ ..] => {
            let behind = count_committed(rest);
            match slot {
                None => behind,
                Some(r) => { if is_prepared(r) { behind } else { behind + 1 } }
            }
        }
    }
}

/// How many slots are free.
pub fn count_free(slots: &[Option<LogRec>]) -> usize
    ensures free { result ≡ log.free_slots (slots_of slots.now) }
    ensures few { result ≤ length slots.now }
{
    match slots {
        [] => 0,
        [slot, rest @ ..] => {
            let behind = count_free(rest);
            match slot {
                None => behind + 1,
                Some(_) => behind,
            }
        }
    }
}

/// How many prepared records there are.
pub fn count_prepared(slots: &[Option<LogRec>]) -> usize
    ensures count { result ≡ length (log.prepared_of (log.records_in (slots_of slots.now))) }
    ensures few { result ≤ length slots.now }
{
    match slots {
        [] => 0,
        [slot, rest @ ..] => {
            let behind = count_prepared(rest);
            match slot {
                None => behind,
                Some(r) => { if is_prepared(r) { behind + 1 } else { behind } }
            }
        }
    }
}

/// The lines of the records of these slots, of which the first has this number.
pub fn record_lines(
    alloc: Global,
    slot: u32,
    slots: &[Option<LogRec>],
) -> Result<Vec<Line>, AllocError>
    requires { slot + length slots.now ≤ slot_limit }
    ensures { IfOk result (λ v. map line_of v.items ≡ map answers.log_line (log.slot_records slot (slots_of slots.now))) }
{
    match slots {
        [] => Ok(Vec::new(alloc)),
        [first, rest @ ..] => {
            let mut lines = record_lines(alloc, slot + 1, rest)?;
            match first {
                None => Ok(lines),
                Some(r) => {
                    push_front(&mut lines, Line::LogEntry(slot, r.copy()))?;
                    Ok(lines)
                }
            }
        }
    }
}
