use net_wire::*;
use vms_base::{Bid, Id, Kind, NodeName, Serial, Tid};

fn id(seq: u32) -> Id {
    Id {
        node: NodeName::default(),
        boot: 1,
        seq,
    }
}

fn join(seq: u32) -> Message {
    Message {
        kind: Kind::Join,
        from: NodeName::default(),
        to: NodeName::default(),
        tid: Tid(id(seq)),
        serial: Serial(id(seq)),
        bid: Some(Bid(id(seq))),
    }
}

#[test]
fn keeps_messages_up_to_the_limit(rt: HostRuntime) -> Result<(), std::alloc::AllocError> {
    let mut wire = Wire::reserve(rt.alloc(), 2)?;
    assert_eq!(rt; wire.send(join(1)), Some(1));
    assert_eq!(rt; wire.send(join(2)), Some(2));
    assert_eq!(rt; wire.send(join(3)), None);
    assert_eq!(rt; wire.len(), 2);
    for (k, seq) in [(0, 0), (1, 1), (2, 2), (3, 0), (u32::MAX, 0)] {
        let found = match wire.nth(k) {
            Some(m) => m.serial.0.seq,
            None => 0,
        };
        assert_eq!(rt; found, seq, "number {k}");
    }
    Ok(())
}
