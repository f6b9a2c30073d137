//! A slot's block, and the record that it has.
ghost use Rattle.std.specs.Prelude.{◌≡◌, ◌↔◌, ◌≤◌, ℕ, IsTrue, true, List, [], ◌∷◌, Option, Some};
ghost use Rattle.std.specs.Option.{option_map};
ghost use Rattle.log_laws.specs.commit_protocol.Messages.{LogRecord, RecordKind};
ghost use Rattle.tm_types.specs.Parts.{log_record_of, log_kind_of};
ghost use Rattle.vms_base.specs.declared.protocol.LogKind.{LogKind as KindSaid};
ghost use Rattle.lmcp_log.specs.Slot.{kind_number as number_said, slot_block, HasForm, IsParts, IsRecord};

use crate::places::{
    id_16, id_at, manager_places, managers_at, number_8, serial_places, serials_at, write, write_8,
};
use vms_base::{LogKind, LogRec, Serial, Tid};

fn kind_number(kind: LogKind) -> u8
    ensures { result ≡ number_said (log_kind_of kind) }
{
    match kind {
        LogKind::Prepared => 1,
        LogKind::Committed => 2,
    }
}

fn kind_of(number: u8) -> Option<LogKind>
    ensures { (kind : RecordKind) → number ≡ number_said kind → option_map log_kind_of result ≡ Some kind }
{
    match number {
        1 => Some(LogKind::Prepared),
        2 => Some(LogKind::Committed),
        _ => None,
    }
}

/// Writes a record into the block of its slot. Where no field stands it has zeros.
pub fn write_slot(r: &LogRec, block: &mut [u8; 512])
    ensures block { block.new ≡ slot_block (log_record_of r.now) }
    ensures parts { IsParts (log_record_of r.now) }
{
    let tid = id_16(&r.tid.0);
    let serial = id_16(&r.serial.0);
    let waiting = serial_places(&r.waiting);
    let rms = manager_places(&r.rms);
    *block = [0; 512];
    write_8(block, 0, kind_number(r.kind));
    write_8(block, 1, r.waiting.items().len() as u8);
    write_8(block, 2, r.rms.items().len() as u8);
    write(block, 8, &tid);
    write(block, 24, &serial);
    write(block, 40, &waiting);
    write(block, 280, &rms);
}

/// Whether a record waits for what its kind may wait for: a prepared one for no serial, a committed one for a serial or a manager.
pub fn has_form(r: &LogRec) -> bool
    ensures { IsTrue result ↔ HasForm (log_record_of r.now).kind (log_record_of r.now).waiting (log_record_of r.now).rms }
{
    match r.kind {
        LogKind::Prepared => r.waiting.items().is_empty(),
        LogKind::Committed => !(r.waiting.items().is_empty() && r.rms.items().is_empty()),
    }
}

// The record whose fields these are, if they are a record's.
fn record_at(block: &[u8; 512]) -> Option<LogRec>
    ensures { (r : LogRecord) → IsRecord r → slot_block r ≡ block.now → option_map log_record_of result ≡ Some r }
{
    let kind = kind_of(number_8(block, 0))?;
    let tid = id_at(block, 8)?;
    let serial = id_at(block, 24)?;
    let waiting = serials_at(block, number_8(block, 1))?;
    let rms = managers_at(block, number_8(block, 2))?;
    Some(LogRec {
        kind,
        tid: Tid(tid),
        serial: Serial(serial),
        waiting,
        rms,
    })
}

// Whether a block begins as that of no record does.
pub(crate) fn begins_free(block: &[u8; 512]) -> bool
    ensures { result ≡ true → (r : LogRecord) → IsRecord r → slot_block r ≡ block.now → ⊥ }
{
    number_8(block, 0) == 0
}

/// The record that a slot's block has. None exactly where it has none: where the slot is free, and where its bytes are those of no record.
pub fn read_slot(block: &[u8; 512]) -> Option<LogRec>
    ensures { (r : LogRecord) → (option_map log_record_of result ≡ Some r) ↔ (IsRecord r × (slot_block r ≡ block.now)) }
{
    let found = record_at(block)?;
    if !has_form(&found) {
        return None;
    }
    let mut again = [0; 512];
    write_slot(&found, &mut again);
    if again == *block { Some(found) } else { None }
}
