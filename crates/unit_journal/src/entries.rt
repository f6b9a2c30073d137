// The entries of units.
ghost use Rattle.std.specs.Prelude.{◌≡◌, ◌≤◌, ◌<◌, ◌+◌, [], length, unwrap_or};
ghost use Rattle.std.specs.Option.{option_copied};
ghost use Rattle.vms_base.specs.vms_model.Limits.{key_limit, record_limit};
ghost use Rattle.journal_format.specs.journal_model.Entries.{IsEntry, spelling};
ghost use Rattle.vms_base.specs.vms_model.Ids.{IsId};
ghost use Rattle.vms_base.specs.Ids.{id_of, serial_of, tid_of};
ghost use Rattle.vms_base.specs.Keys.{key_of};
ghost use Rattle.vms_base.specs.Outcomes.{outcome_of};
ghost use Rattle.unit_journal.specs.Room.{entry_size as size_said};
ghost use Rattle.unit_journal.specs.Entries.{change_entry, key_bytes, prepared_entry, settled_entry};

use journal_format::{EntryBuf, EntryHead, EntryKind, encode, number_key};
use vms_base::{Id, Key, KeyText, Moment, Outcome, Record, Serial, Tid, put_id};

// A key as an entry has it.
fn entry_key(key: &Key) -> Option<KeyText>
    ensures value { unwrap_or result [] ≡ key_bytes (key_of key.now) }
    ensures few { length (key_bytes (key_of key.now)) ≤ key_limit }
{
    match key {
        Key::Number(n) => number_key(*n),
        Key::Text(text) => {
            let _ = text.bytes();
            Some(*text)
        }
        Key::End => None,
    }
}

// An id is written in 16 bytes as the layout has it.
fn is_written(id: &Id)
    ensures { IsId (id_of id.now) }
{
    let mut bytes = [0; 16];
    put_id(id, &mut bytes);
}

fn image_len(before: Option<&Record>) -> u16
    ensures value { result ≡ length (unwrap_or (option_copied before.entry) []) }
    ensures few { length (unwrap_or (option_copied before.entry) []) ≤ record_limit }
{
    match before {
        Some(record) => record.bytes().len() as u16,
        None => 0,
    }
}

/// How many bytes the entry of a change takes.
pub fn entry_size(key: &Key, before: Option<&Record>) -> u64
    ensures value { result ≡ size_said (key_of key.now) (option_copied before.entry) }
    ensures few { result ≤ 8272 }
{
    let key = match key {
        Key::Number(_) => 4,
        Key::Text(text) => text.bytes().len() as u64,
        Key::End => 0,
    };
    48 + key + u64::from(image_len(before))
}

/// Spells the entry of a change by a branch: which key of which file is to be set, and what it has before.
pub fn encode_change(
    tid: Tid,
    serial: Serial,
    file: u8,
    key: &Key,
    before: Option<&Record>,
    out: &mut EntryBuf,
)
    requires { 1 ≤ length (key_bytes (key_of key.now)) }
    ensures spelled { out.new ≡ spelling (change_entry (tid_of tid) (serial_of serial) file (key_of key.now) (option_copied before.entry)) }
    ensures is { IsEntry (change_entry (tid_of tid) (serial_of serial) file (key_of key.now) (option_copied before.entry)) }
{
    is_written(&tid.0);
    is_written(&serial.0);
    let image_len = image_len(before);
    let head = EntryHead {
        kind: EntryKind::Change,
        present: image_len >= 1,
        outcome: None,
        file,
        key: entry_key(key),
        image_len,
        tid,
        serial,
        moment: Moment(0),
    };
    encode(&head, before, out);
}

/// Spells the entry that a branch is prepared.
pub fn encode_prepared(tid: Tid, serial: Serial, out: &mut EntryBuf)
    ensures spelled { out.new ≡ spelling (prepared_entry (tid_of tid) (serial_of serial)) }
    ensures is { IsEntry (prepared_entry (tid_of tid) (serial_of serial)) }
{
    is_written(&tid.0);
    is_written(&serial.0);
    let head = EntryHead {
        kind: EntryKind::Prepared,
        present: false,
        outcome: None,
        file: 0,
        key: None,
        image_len: 0,
        tid,
        serial,
        moment: Moment(0),
    };
    encode(&head, None, out);
}

/// Spells the entry of a branch's settlement.
pub fn encode_settled(
    tid: Tid,
    serial: Serial,
    outcome: Outcome,
    moment: Moment,
    out: &mut EntryBuf,
)
    ensures spelled { out.new ≡ spelling (settled_entry (tid_of tid) (serial_of serial) (outcome_of outcome) moment.0) }
    ensures is { IsEntry (settled_entry (tid_of tid) (serial_of serial) (outcome_of outcome) moment.0) }
{
    is_written(&tid.0);
    is_written(&serial.0);
    let head = EntryHead {
        kind: EntryKind::Settled,
        present: false,
        outcome: Some(outcome),
        file: 0,
        key: None,
        image_len: 0,
        tid,
        serial,
        moment,
    };
    encode(&head, None, out);
}
