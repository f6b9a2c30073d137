// Values from outside: the worked moments and ids, and the edges of the forms.
use vms_base::*;
use vms_times::*;

#[test]
fn moments_are_read_and_shown(rt: HostRuntime) {
    let table: [(&[u8], u64); 8] = [
        (b"17-NOV-1858 00:00:00.00", 0),
        (b"17-NOV-1858 00:00:00.01", 1),
        (b"1-JAN-1859 12:34:56.78", 393_329_678),
        (b"1-MAR-1900 00:00:00.00", 130_282_560_000),
        (b"1-JAN-2000 10:00:00.00", 445_343_760_000),
        (b"29-FEB-2000 00:00:00.00", 445_849_920_000),
        (b"31-DEC-2024 23:59:59.99", 524_240_639_999),
        (b"31-DEC-8999 23:59:59.99", 22_535_210_879_999),
    ];
    for (text, moment) in table {
        assert!(rt; moment < 25_690_901_760_000);
        assert_eq!(rt; read_time(text), Ok(Moment(moment)), "at {moment}");
        assert_eq!(rt; write_time(Moment(moment)).bytes(), text, "at {moment}");
    }
    assert_eq!(rt;
        read_time(b"01-jan-2000 10:00:00.00"),
        Ok(Moment(445_343_760_000))
    );
    assert_eq!(rt;
        write_time(Moment(25_690_901_759_999)).bytes(),
        b"31-DEC-9999 23:59:59.99".as_slice()
    );
}

#[test]
fn other_texts_are_no_moments(rt: HostRuntime) {
    let table: [(&[u8], TimeErr); 9] = [
        (b"16-NOV-1858 23:59:59.99", TimeErr::Range),
        (b"1-JAN-9000 00:00:00.00", TimeErr::Range),
        (b"29-FEB-1900 00:00:00.00", TimeErr::Range),
        (b"0-JAN-2000 00:00:00.00", TimeErr::Range),
        (b"1-JAN-2000 24:00:00.00", TimeErr::Form),
        (b"1-JAN-2000 10:00:60.00", TimeErr::Form),
        (b"1-JAN-2000  10:00:00.00", TimeErr::Form),
        (b"1-JAN-200 10:00:00.00", TimeErr::Form),
        (b"", TimeErr::Form),
    ];
    for (text, error) in table {
        assert_eq!(rt; read_time(text), Err(error));
    }
}

#[test]
fn ids_have_sixteen_bytes(rt: HostRuntime) {
    let Some(node) = NodeName::new(b"a") else {
        return assert!(rt; false);
    };
    let id = Id {
        node,
        boot: 1,
        seq: 1,
    };
    let mut bytes = [0; 16];
    put_id(&id, &mut bytes);
    assert_eq!(rt; bytes, [0x41, 0, 0, 0, 0, 0, 0, 0, 1, 0, 0, 0, 1, 0, 0, 0]);
    assert_eq!(rt; get_id(&bytes), Some(id));
    let table: [(usize, u8); 3] = [(0, b'a'), (0, 0), (7, 1)];
    for (place, byte) in table {
        assert!(rt; place < 16);
        let mut other = bytes;
        other[place] = byte;
        assert_eq!(rt; get_id(&other), None, "at {place}");
    }
}

#[test]
fn ids_are_read_from_their_texts(rt: HostRuntime) {
    let table: [(&[u8], Option<(u32, u32)>); 11] = [
        (b"A.1.1", Some((1, 1))),
        (b"a.20.4294967295", Some((20, 4_294_967_295))),
        (b"A.4294967296.1", None),
        (b"A.1.0", None),
        (b"A.01.1", None),
        (b"A.1", None),
        (b"A.1.", None),
        (b"A.1.1.1", None),
        (b"A.+1.1", None),
        (b".1.1", None),
        (b"1A.1.1", None),
    ];
    for (text, numbers) in table {
        let found = match read_id(text) {
            Some(id) if id.node.bytes() == b"A".as_slice() => Some((id.boot, id.seq)),
            _ => None,
        };
        assert_eq!(rt; found, numbers, "{text:?}");
    }
}

#[test]
fn names_have_their_letters_and_lengths(rt: HostRuntime) {
    let table: [(&[u8], bool, bool, bool); 8] = [
        (b"", false, false, false),
        (b"1A", false, false, false),
        (b"abc123", true, true, true),
        (b"abc1234", false, true, true),
        (b"A_B", false, true, true),
        (b"A$.B", false, false, true),
        (b"abcdefghijklmno", false, true, true),
        (b"abcdefghijklmnop", false, false, true),
    ];
    for (text, node, label, file) in table {
        assert_eq!(rt; NodeName::new(text).is_some(), node);
        assert_eq!(rt; Label::new(text).is_some(), label);
        assert_eq!(rt; RmName::new(text).is_some(), label);
        assert_eq!(rt; FileName::new(text).is_some(), file);
    }
    match FileName::new(b"ledger.dat") {
        Some(name) => assert_eq!(rt; name.bytes(), b"LEDGER.DAT".as_slice()),
        None => assert!(rt; false),
    }
}

#[test]
fn records_and_keys_hold_their_bytes(rt: HostRuntime) -> Result<(), std::alloc::AllocError> {
    let mut record = Record::reserve(rt.alloc())?;
    record.set(b"first");
    record.set(b"two");
    assert_eq!(rt; record.bytes(), b"two".as_slice());
    let long = [7u8; 65];
    assert!(rt; KeyText::new(b"").is_none() && KeyText::new(&long).is_none());
    match KeyText::new(&long[..64]) {
        Some(key) => assert_eq!(rt; key.bytes(), &long[..64]),
        None => assert!(rt; false),
    }
    Ok(())
}
