use std::test::Fail;
use table_keys::BranchKey;
use vms_base::{Id, NodeName, Serial};

// The key of a serial.
fn key(node: &str, boot: u32, seq: u32) -> Option<BranchKey> {
    let node = NodeName::new(node.as_bytes())?;
    Some(BranchKey {
        serial: Serial(Id { node, boot, seq }),
    })
}

#[test]
fn a_key_is_its_node_boot_and_number(rt: HostRuntime) -> Result<(), Fail> {
    let one = key("A", 1, 2);
    for (node, boot, seq, want) in [
        ("a", 1, 2, true),
        ("B", 1, 2, false),
        ("A", 2, 2, false),
        ("A", 1, 1, false),
    ] {
        assert!(rt;
            (one == key(node, boot, seq)) == want,
            "{node} {boot} {seq}"
        );
    }
    Ok(())
}
