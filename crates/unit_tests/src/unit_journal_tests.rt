//! Entries as the layout spells them.
use journal_format::EntryBuf;
use std::test::Fail;
use unit_journal::{encode_change, encode_settled, entry_size};
use vms_base::{Id, Key, Moment, NodeName, Outcome, Record, Serial, Tid};

// Record 1 of file 0 had "a" before A.1.1 changed it.
const CHANGE: [u8; 53] = [
    1, 1, 0, 4, 1, 0, 53, 0, 65, 0, 0, 0, 0, 0, 0, 0, 1, 0, 0, 0, 1, 0, 0, 0, 65, 0, 0, 0, 0, 0, 0,
    0, 1, 0, 0, 0, 1, 0, 0, 0, 0, 0, 0, 0, 0, 0, 0, 0, 1, 0, 0, 0, 97,
];

// Record 258 of file 2 was not there before A.1.1 put it.
const PUT: [u8; 52] = [
    1, 0, 2, 4, 0, 0, 52, 0, 65, 0, 0, 0, 0, 0, 0, 0, 1, 0, 0, 0, 1, 0, 0, 0, 65, 0, 0, 0, 0, 0, 0,
    0, 1, 0, 0, 0, 1, 0, 0, 0, 0, 0, 0, 0, 0, 0, 0, 0, 2, 1, 0, 0,
];

// A.1.1 was aborted at 258.
const ABORT: [u8; 48] = [
    3, 2, 0, 0, 0, 0, 48, 0, 65, 0, 0, 0, 0, 0, 0, 0, 1, 0, 0, 0, 1, 0, 0, 0, 65, 0, 0, 0, 0, 0, 0,
    0, 1, 0, 0, 0, 1, 0, 0, 0, 2, 1, 0, 0, 0, 0, 0, 0,
];

#[test]
fn entries_are_spelled(rt: HostRuntime) -> Result<(), Fail> {
    let mut entry = EntryBuf::reserve(rt.alloc())?;
    let mut record = Record::reserve(rt.alloc())?;
    record.set(b"a");
    let Some(node) = NodeName::new(b"A") else {
        return Ok(assert!(rt; false));
    };
    let id = Id {
        node,
        boot: 1,
        seq: 1,
    };
    let key = Key::Number(1);
    encode_change(Tid(id), Serial(id), 0, &key, Some(&record), &mut entry);
    assert!(rt; entry.bytes() == CHANGE.as_slice());
    assert!(rt; entry_size(&key, Some(&record)) == 53);
    let key = Key::Number(258);
    encode_change(Tid(id), Serial(id), 2, &key, None, &mut entry);
    assert!(rt; entry.bytes() == PUT.as_slice());
    assert!(rt; entry_size(&key, None) == 52);
    encode_settled(Tid(id), Serial(id), Outcome::Abort, Moment(258), &mut entry);
    assert!(rt; entry.bytes() == ABORT.as_slice());
    Ok(())
}
