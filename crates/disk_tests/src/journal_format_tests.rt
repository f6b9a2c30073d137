use journal_format::{EntryBuf, EntryErr, EntryHead, decode, encode};
use std::test::Fail;
use vms_base::Record;

// Record 1 of file 0 was put as "a" by A.1.1.
const CHANGE: [u8; 53] = [
    1, 1, 0, 4, 1, 0, 53, 0, 65, 0, 0, 0, 0, 0, 0, 0, 1, 0, 0, 0, 1, 0, 0, 0, 65, 0, 0, 0, 0, 0, 0,
    0, 1, 0, 0, 0, 1, 0, 0, 0, 0, 0, 0, 0, 0, 0, 0, 0, 1, 0, 0, 0, 97,
];

// NODE1's second branch of A.1.1 is prepared.
const PREPARED: [u8; 48] = [
    2, 0, 0, 0, 0, 0, 48, 0, 65, 0, 0, 0, 0, 0, 0, 0, 1, 0, 0, 0, 1, 0, 0, 0, 78, 79, 68, 69, 49,
    0, 0, 0, 1, 0, 0, 0, 2, 0, 0, 0, 0, 0, 0, 0, 0, 0, 0, 0,
];

// A.1.1 was aborted at the moment 258.
const SETTLED: [u8; 48] = [
    3, 2, 0, 0, 0, 0, 48, 0, 65, 0, 0, 0, 0, 0, 0, 0, 1, 0, 0, 0, 1, 0, 0, 0, 65, 0, 0, 0, 0, 0, 0,
    0, 1, 0, 0, 0, 1, 0, 0, 0, 2, 1, 0, 0, 0, 0, 0, 0,
];

// Why an answer is no entry.
fn refusal(answer: Result<(EntryHead, u16), EntryErr>) -> Option<EntryErr> {
    match answer {
        Ok(_) => None,
        Err(e) => Some(e),
    }
}

// Whether an entry is read and spelled again, also with bytes behind it, and is Short while bytes of it are missing.
fn stands(bytes: &[u8], behind: usize, image: &mut Record, out: &mut EntryBuf) -> bool {
    let size = bytes.len().saturating_sub(behind);
    match decode(bytes, image) {
        Ok((head, read)) => {
            encode(&head, Some(image), out);
            if read as usize != size || out.bytes() != &bytes[..size] {
                return false;
            }
        }
        Err(_) => return false,
    }
    for few in 0..size {
        if refusal(decode(&bytes[..few], image)) != Some(EntryErr::Short) {
            return false;
        }
    }
    true
}

#[test]
fn reads_what_it_spells(rt: HostRuntime) -> Result<(), Fail> {
    let mut image = Record::reserve(rt.alloc())?;
    let mut out = EntryBuf::reserve(rt.alloc())?;
    assert!(rt; stands(&CHANGE, 0, &mut image, &mut out));
    assert!(rt; stands(&PREPARED, 0, &mut image, &mut out));
    assert!(rt; stands(&SETTLED, 0, &mut image, &mut out));
    let mut two = [0; 101];
    two[..53].copy_from_slice(&CHANGE);
    two[53..].copy_from_slice(&SETTLED);
    assert!(rt; stands(&two, 48, &mut image, &mut out));
    Ok(())
}

// Whether an entry with another byte at a place is no entry, also where the bytes end behind it.
fn is_spoiled(bytes: &mut [u8], place: usize, byte: u8, image: &mut Record) -> bool {
    if place >= bytes.len() {
        return false;
    }
    bytes[place] = byte;
    refusal(decode(bytes, image)) == Some(EntryErr::Form)
        && refusal(decode(&bytes[..place + 1], image)) == Some(EntryErr::Form)
}

#[test]
fn refuses_spoiled_entries(rt: HostRuntime) -> Result<(), Fail> {
    let mut image = Record::reserve(rt.alloc())?;
    for (place, byte) in [
        (0, 4),
        (1, 2),
        (3, 0),
        (3, 65),
        (5, 32),
        (6, 52),
        (7, 1),
        (8, 97),
        (10, 65),
        (14, 48),
        (24, 48),
        (40, 1),
    ] {
        let mut bytes = CHANGE;
        assert!(rt; is_spoiled(&mut bytes, place, byte, &mut image), "{place}");
    }
    Ok(())
}
