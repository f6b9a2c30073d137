//! A worked journal of four branches, of which one is aborted.
use image_journals::{applied, undone};
use journal_format::{EntryHead, EntryKind};
use std::alloc::{AllocError, Global};
use std::test::Fail;
use vms_base::{Id, Moment, NodeName, Outcome, Serial, Tid};

fn id(node: &NodeName, seq: u32) -> Id {
    Id {
        node: *node,
        boot: 1,
        seq,
    }
}

// The head of an entry of the branch A.1.seq.
fn head(
    node: &NodeName,
    seq: u32,
    kind: EntryKind,
    outcome: Option<Outcome>,
    moment: u64,
) -> EntryHead {
    EntryHead {
        kind,
        present: false,
        outcome,
        file: 0,
        key: None,
        image_len: 0,
        tid: Tid(id(node, seq)),
        serial: Serial(id(node, seq)),
        moment: Moment(moment),
    }
}

fn change(node: &NodeName, seq: u32) -> EntryHead {
    head(node, seq, EntryKind::Change, None, 0)
}

fn settled(node: &NodeName, seq: u32, outcome: Outcome, moment: u64) -> EntryHead {
    head(node, seq, EntryKind::Settled, Some(outcome), moment)
}

fn journal(node: &NodeName) -> [EntryHead; 8] {
    [
        change(node, 1),
        settled(node, 1, Outcome::Commit, 1000),
        change(node, 2),
        settled(node, 2, Outcome::Commit, 1100),
        change(node, 3),
        settled(node, 3, Outcome::Abort, 1101),
        change(node, 4),
        settled(node, 4, Outcome::Commit, 1200),
    ]
}

// Whether a recovery to a moment uses these places, forward and backward.
fn uses(
    alloc: Global,
    entries: &[EntryHead],
    until: u64,
    forward: &[u32],
    back: &[u32],
) -> Result<bool, AllocError> {
    if entries.len() > 8 {
        return Ok(false);
    }
    let set = applied(alloc, entries, Moment(until))?;
    let taken = undone(alloc, entries, Moment(until))?;
    Ok(set.as_slice() == forward && taken.as_slice() == back)
}

#[test]
fn committed_branches_count_and_aborted_ones_do_not(rt: HostRuntime) -> Result<(), Fail> {
    let Some(node) = NodeName::new(b"A") else {
        return Ok(());
    };
    let entries = journal(&node);
    assert!(rt; uses(rt.alloc(), &entries, 999, &[], &[6, 2, 0])?);
    assert!(rt; uses(rt.alloc(), &entries, 1000, &[0], &[6, 2])?);
    assert!(rt; uses(rt.alloc(), &entries, 1100, &[0, 2], &[6])?);
    assert!(rt; uses(rt.alloc(), &entries, 1199, &[0, 2], &[6])?);
    assert!(rt; uses(rt.alloc(), &entries, 1200, &[0, 2, 6], &[])?);
    Ok(())
}
