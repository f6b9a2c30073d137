// Records of the log, and what they still wait for.
ghost use Rattle.std.specs.Prelude.{◌≡◌, ◌<◌, ◌≤◌, ◌&&◌, [], ◌∷◌, ◌++◌, length, map};
ghost use Rattle.std.specs.Option.{option_map};
ghost use Rattle.std.specs.List.{list_any};
ghost use Rattle.commit_protocol.specs.Messages.{same_id as same_id_of, same_name};
ghost use Rattle.commit_protocol.specs.Table.{waits_for, holds, without, without_rm, nothing_left, acknowledged, released};
ghost use Rattle.commit_protocol.specs.Rows.{owing};
ghost use Rattle.vms_base.specs.Ids.{serial_of};
ghost use Rattle.tm_types.specs.Parts.{log_record_of};
ghost use Rattle.tm_types.specs.Branches.{key_at};

use crate::same::{same_id, same_rm};
use vms_base::{LogKind, LogRec, RmList, RmName, Serial, SerialList, Tid};

fn has_serial(serials: &SerialList, serial: &Serial) -> bool
    ensures { result ≡ list_any (λ s. same_id_of s (serial_of serial.now)) (map serial_of serials.now) }
{
    for s in serials.items() {
        if same_id(&s.0, &serial.0) {
            return true;
        }
    }
    false
}

/// Whether a resource manager is in a list.
pub fn has_rm(rms: &RmList, rm: &RmName) -> bool
    ensures { result ≡ list_any (λ y. same_name y rm.now) rms.now }
{
    for y in rms.items() {
        if same_rm(y, rm) {
            return true;
        }
    }
    false
}

fn without_serial(serials: &SerialList, serial: &Serial) -> SerialList
    ensures { map serial_of result ≡ without (serial_of serial.now) (map serial_of serials.now) }
{
    let mut list = SerialList::new();
    for s in serials.items() {
        if !same_id(&s.0, &serial.0) {
            list.push(*s);
        }
    }
    list
}

fn without_manager(rms: &RmList, rm: &RmName) -> RmList
    ensures { result ≡ without_rm rm.now rms.now }
{
    let mut list = RmList::new();
    for y in rms.items() {
        if !same_rm(y, rm) {
            list.push(*y);
        }
    }
    list
}

/// Whether the record waits for the acknowledgement of the branch with this serial.
pub fn waits_for(r: &LogRec, tid: &Tid, serial: &Serial) -> bool
    ensures { result ≡ waits_for (key_at tid.now serial.now) (log_record_of r.now) }
{
    same_id(&r.tid.0, &tid.0) && has_serial(&r.waiting, serial)
}

/// Whether it is the record of this serial and waits for the manager.
pub fn holds(r: &LogRec, serial: &Serial, rm: &RmName) -> bool
    ensures { result ≡ holds (serial_of serial.now) rm.now (log_record_of r.now) }
{
    same_id(&r.serial.0, &serial.0) && has_rm(&r.rms, rm)
}

/// Whether the record waits for nothing any more.
pub fn is_done(r: &LogRec) -> bool
    ensures { result ≡ nothing_left (log_record_of r.now).waiting (log_record_of r.now).rms }
{
    r.waiting.items().is_empty() && r.rms.items().is_empty()
}

/// The record once the serial has acknowledged.
pub fn acknowledged(r: &LogRec, tid: &Tid, serial: &Serial) -> LogRec
    ensures { log_record_of result ≡ acknowledged (key_at tid.now serial.now) (log_record_of r.now) }
{
    LogRec {
        kind: r.kind,
        tid: r.tid,
        serial: r.serial,
        waiting: without_serial(&r.waiting, serial),
        rms: r.rms.copy(),
    }
}

/// The record once the manager has replied.
pub fn released(r: &LogRec, rm: &RmName) -> LogRec
    ensures { log_record_of result ≡ released rm.now (log_record_of r.now) }
{
    LogRec {
        kind: r.kind,
        tid: r.tid,
        serial: r.serial,
        waiting: r.waiting.copy(),
        rms: without_manager(&r.rms, rm),
    }
}

/// The committed record of a branch that these serials and managers are still to hear of, if any.
pub fn owing(tid: &Tid, serial: &Serial, waiting: SerialList, rms: RmList) -> Option<LogRec>
    ensures { option_map log_record_of result ≡ owing (key_at tid.now serial.now) (map serial_of waiting) rms }
{
    if waiting.items().is_empty() && rms.items().is_empty() {
        return None;
    }
    Some(LogRec {
        kind: LogKind::Committed,
        tid: *tid,
        serial: *serial,
        waiting,
        rms,
    })
}
