use journal_format::{EntryHead, EntryKind, number_key};
use ru_journal::RuState;
use std::test::Fail;
use vms_base::{Id, Moment, NodeName, Outcome, Serial, Tid};

// An entry of the branch A.1.n, of the transaction A.1.t: a Change of record 1 of a file, a Prepared or a Settled.
fn entry(kind: u8, file: u8, t: u32, n: u32) -> Option<EntryHead> {
    let node = NodeName::new(b"A")?;
    let (kind, key, outcome, moment) = match kind {
        b'C' => (EntryKind::Change, number_key(1), None, 0),
        b'P' => (EntryKind::Prepared, None, None, 0),
        _ => (EntryKind::Settled, None, Some(Outcome::Commit), 7),
    };
    Some(EntryHead {
        kind,
        present: false,
        outcome,
        file,
        key,
        image_len: 0,
        tid: Tid(Id {
            node,
            boot: 1,
            seq: t,
        }),
        serial: Serial(Id {
            node,
            boot: 1,
            seq: n,
        }),
        moment: Moment(moment),
    })
}

// Whether an entry was taken.
fn takes(state: &mut RuState, at: u64, e: Option<EntryHead>) -> bool {
    match e {
        Some(e) => e.file < 64 && state.taken() < 87_381 && state.take(at, &e).is_ok(),
        None => false,
    }
}

// Entries, one a row, each with whether it is taken, and what is told after it: how many units there are, how many bytes are owed and where the
// earliest Change begins.
const ROWS: [(u8, u8, u32, u32, bool, usize, u32, Option<u64>); 15] = [
    (b'S', 0, 9, 9, true, 0, 0, None),
    (b'C', 0, 9, 9, false, 0, 0, None),
    (b'P', 0, 1, 1, true, 0, 0, None),
    (b'S', 0, 1, 1, true, 0, 0, None),
    (b'C', 0, 1, 1, false, 0, 0, None),
    (b'C', 3, 2, 2, true, 1, 96, Some(5)),
    (b'C', 5, 2, 2, true, 1, 96, Some(5)),
    (b'C', 5, 3, 2, false, 1, 96, Some(5)),
    (b'C', 0, 2, 3, true, 2, 192, Some(5)),
    (b'P', 0, 2, 2, true, 2, 144, Some(5)),
    (b'P', 0, 2, 2, false, 2, 144, Some(5)),
    (b'C', 0, 2, 2, false, 2, 144, Some(5)),
    (b'S', 0, 3, 2, false, 2, 144, Some(5)),
    (b'S', 0, 2, 2, true, 1, 96, Some(8)),
    (b'S', 0, 2, 2, false, 1, 96, Some(8)),
];

#[test]
fn units_are_told(rt: HostRuntime) -> Result<(), Fail> {
    let mut state = RuState::reserve(rt.alloc())?;
    for (i, row) in ROWS.iter().enumerate() {
        let (kind, file, t, n, taken, units, owed, earliest) = *row;
        assert!(rt;
            takes(&mut state, i as u64, entry(kind, file, t, n)) == taken,
            "{i}"
        );
        assert!(rt; state.units().len() == units, "{i}");
        assert!(rt; state.owed() == owed, "{i}");
        assert!(rt; state.earliest() == earliest, "{i}");
    }
    state.clear();
    assert!(rt; takes(&mut state, 0, entry(b'C', 3, 2, 9)));
    assert!(rt; takes(&mut state, 60, entry(b'C', 5, 2, 9)));
    let unit = match entry(b'C', 0, 2, 9) {
        Some(e) => state.find(e.serial),
        None => None,
    };
    assert!(rt;
        matches!(unit, Some(u) if u.first == 0 && u.changes == 2 && u.files == 40 && !u.prepared)
    );
    Ok(())
}

#[test]
fn limits_are_kept(rt: HostRuntime) -> Result<(), Fail> {
    let mut state = RuState::reserve(rt.alloc())?;
    for n in 1..65 {
        assert!(rt; takes(&mut state, 0, entry(b'C', 0, n, n)), "{n}");
    }
    assert!(rt; !takes(&mut state, 0, entry(b'C', 0, 65, 65)));
    assert!(rt; takes(&mut state, 0, entry(b'P', 0, 65, 65)));
    assert!(rt; takes(&mut state, 0, entry(b'S', 0, 65, 65)));
    for n in 2..1_025 {
        assert!(rt; takes(&mut state, 0, entry(b'C', 0, 1, 1)), "{n}");
    }
    assert!(rt; !takes(&mut state, 0, entry(b'C', 0, 1, 1)));
    assert!(rt; takes(&mut state, 0, entry(b'P', 0, 1, 1)));
    Ok(())
}
