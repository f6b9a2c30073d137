use std::test::Fail;
use unit_table::UnitTable;
use vms_base::{Id, NodeName, Serial, Tid};

// The id of a number.
fn id_of(n: u32) -> Option<Id> {
    let node = NodeName::new(b"A")?;
    Some(Id {
        node,
        boot: 1,
        seq: n,
    })
}

// The place at which a branch's unit is begun, of a transaction of the same number; 255 where there is none.
fn begin(units: &mut UnitTable, n: u32) -> u8 {
    match (id_of(n), id_of(n)) {
        (Some(tid), Some(serial)) => units.begin(Tid(tid), Serial(serial)).unwrap_or(255),
        _ => 255,
    }
}

// The number of the branch that changed a file first; 0 where none did.
fn changed_by(units: &UnitTable, file: u8) -> u32 {
    match units.changed_by(file) {
        Some(serial) => serial.0.seq,
        None => 0,
    }
}

#[test]
fn units_are_found(rt: HostRuntime) -> Result<(), Fail> {
    let mut units = UnitTable::reserve(rt.alloc())?;
    for n in 1..65 {
        assert!(rt; begin(&mut units, n) == n as u8 - 1, "{n}");
    }
    assert!(rt; begin(&mut units, 65) == 255);
    assert!(rt; units.owed() == 0);
    assert!(rt; units.earliest().is_none());
    Ok(())
}
