//! Scripts of several nodes. Where no disk fails, the run shows for them what the plain program shows, byte for byte; where one stops, a transaction
//! ends alike everywhere.
use std::alloc::Global;
use std::process::Abort;
use std::test::Fail;
use test_scripts::Rack;
use test_scripts::racks::{
    BLOCKS, NAMES, OPENING, rack_of, show_the_same, shown, shown_by, with_node, zeros,
};
use test_scripts::random::{Draws, of_message, of_transaction, of_world};
use test_scripts::texts::{has, joined};

// A transaction with a branch at each node, which has changed a record at each and is to be ended.
const JOINED: &[u8] =
    b"A: START_TRANS T\nA: ADD_BRANCH T B U\nA: ADD_BRANCH T C V\nB: START_BRANCH U\nC: START_BRANCH V\nDELIVER 1\nDELIVER 2\nDELIVER 3\nDELIVER 4\nA: PUT T F 1 \"a\"\nB: PUT U F 1 \"b\"\nC: PUT V F 1 \"c\"\nB: END_BRANCH U\nC: END_BRANCH V\n";

// Ends it, and dumps what it left.
const ENDED: &[u8] =
    b"A: END_TRANS T\nDELIVER 5\nDELIVER 6\nDELIVER 7\nDELIVER 8\nDELIVER 9\nDELIVER 10\nDELIVER 11\nDELIVER 12\nSETTLE\nSETTLE\nA: DUMP F\nB: DUMP F\nC: DUMP F\n";

// What comes behind the joined transaction: a commitment at all nodes; doubt that a question resolves, and messages that come late and again; an
// abort that is presumed; a veto; a link that fails where one has voted; a coordinator that falls before it commits; and settlings.
const ENDINGS: [&[u8]; 9] = [
    ENDED,
    b"A: END_TRANS T\nDELIVER 5\nDELIVER 6\nDELIVER 7\nDELIVER 8\nCRASH B\nB: BOOT\nB: GET - F 1\nB: INQUIRE U\nDELIVER 11\nDELIVER 12\nB: GET - F 1\nDELIVER 13\nDELIVER 5\nDELIVER 11\nDELIVER 10\nDELIVER 14\nDELIVER 15\nB: DUMP F\nA: DUMP F\nSETTLE\n",
    b"A: END_TRANS T\nDELIVER 5\nCRASH A\nA: BOOT\nB: INQUIRE U\nDELIVER 8\nDELIVER 9\nDELIVER 7\nSETTLE\nC: DUMP F\n",
    b"A: END_TRANS T\nDELIVER 5\nC: ABORT_TRANS V\nDELIVER 8\nDELIVER 7\nDELIVER 9\nDELIVER 6\nDELIVER 10\nB: DUMP F\nSETTLE\n",
    b"A: END_TRANS T\nDELIVER 5\nDELIVER 7\nLINKDOWN A B\nLINKDOWN C A\nCRASH A\nLINKDOWN A B\nSETTLE\n",
    b"A: END_TRANS T\nDELIVER 5\nDELIVER 6\nCRASH A\nDELIVER 7\nA: BOOT\nDELIVER 7\nA: END_TRANS T\nCRASH B\nB: BOOT\nB: INQUIRE B.1.1\nDELIVER 9\nDELIVER 10\nSETTLE\nC: DUMP F\n",
    b"CRASH A\nCRASH B\nCRASH C\nSETTLE\nSETTLE\nA: DUMP F\n",
    b"A: ABORT_TRANS T\nDELIVER 5\nDELIVER 6\nDELIVER 5\nSETTLE\nB: DUMP F\n",
    b"A: END_TRANS T\nDELIVER 5\nDELIVER 6\nCRASH B\nCRASH C\nSETTLE\nDELIVER 7\nDELIVER 8\nSETTLE\nA: DUMP_JOURNAL RU\nB: DUMP_JOURNAL RU\n",
];

#[test]
fn scripts_of_three_nodes_show_what_the_plain_program_shows(rt: HostRuntime) -> Result<(), Fail> {
    for ending in ENDINGS {
        let script = joined(rt.alloc(), &[OPENING, JOINED, ending])?;
        show_the_same(rt.alloc(), &script)?;
    }
    Ok(())
}

// A branch of the coordinator's own node, a transaction whose time runs out, one from which a branch is missing, and refusals.
const ALONE: [&[u8]; 4] = [
    b"A: START_TRANS T\nA: ADD_BRANCH T A U\nA: START_BRANCH U\nDELIVER 1\nDELIVER 2\nA: PUT T F 1 \"a\"\nA: PUT U F 1 \"b\"\nA: PUT U F 2 \"b\"\nA: END_TRANS U\nA: END_TRANS T\nDELIVER 3\nA: END_BRANCH U\nDELIVER 4\nCRASH A\nSETTLE\nDELIVER 6\nA: DUMP F\n",
    b"A: START_TRANS T TIMEOUT 10\nA: ADD_BRANCH T B U\nB: START_BRANCH U\nDELIVER 1\nDELIVER 2\nB: PUT U F 1 \"b\"\nCLOCK B \"17-NOV-1858 00:01:00.00\"\nA: START_TRANS S TIMEOUT 1\nCLOCK A \"17-NOV-1858 00:00:20.00\"\nDELIVER 3\nA: END_TRANS S\nCRASH A\nCLOCK A \"17-NOV-1858 00:00:01.00\"\nA: BOOT\n",
    b"A: START_TRANS T\nA: ADD_BRANCH T B U\nA: END_TRANS T\n",
    b"A: START_TRANS T\nA: ADD_BRANCH T B U\nB: END_TRANS U\nB: END_TRANS T\nB: START_BRANCH T\nA: START_BRANCH T\nA: ADD_BRANCH T D W\nA: ADD_BRANCH T B U\nB: START_BRANCH U\nB: START_BRANCH U\nB: END_BRANCH U\nA: END_BRANCH T\nB: INQUIRE U\nB: INQUIRE A.1.9\nLINKDOWN A A\nLINKDOWN A D\nA: START_TRANS X TIMEOUT 0\nB: ABORT_TRANS U\nDELIVER 0\nDELIVER 9\nDELIVER 1\nCRASH B\nB: START_BRANCH U\nB: BOOT\nB: START_BRANCH U\nDELIVER 4\nDELIVER 5\n",
];

#[test]
fn scripts_of_branches_show_what_the_plain_program_shows(rt: HostRuntime) -> Result<(), Fail> {
    for lines in ALONE {
        let script = joined(rt.alloc(), &[OPENING, lines])?;
        show_the_same(rt.alloc(), &script)?;
    }
    Ok(())
}

// Fifteen identifiers and one more, and a log whose slots are taken by a committed record and by branches.
#[test]
fn quotas_of_branches_are_those_of_the_plain_program(rt: HostRuntime) -> Result<(), Fail> {
    let alloc = rt.alloc();
    let mut script = joined(
        alloc,
        &[
            OPENING,
            JOINED,
            b"A: END_TRANS T\nDELIVER 5\nDELIVER 6\nDELIVER 7\nDELIVER 8\nA: START_TRANS S\n",
        ],
    )?;
    for number in 0..16u32 {
        script.extend_from_slice(format!(in alloc; "A: ADD_BRANCH S B B{number}\n")?.as_bytes())?;
    }
    for number in 0..64u32 {
        script.extend_from_slice(format!(in alloc; "A: START_TRANS T{number}\n")?.as_bytes())?;
    }
    script.extend_from_slice(
        b"DELIVER 9\nDELIVER 10\nDELIVER 11\nDELIVER 12\nA: START_TRANS R\nA: START_TRANS Q\nSETTLE\n",
    )?;
    show_the_same(alloc, &script)
}

fn random_script(alloc: Global, first: u64, steps: u32) -> Result<Vec<u8>, Fail> {
    let mut draws = Draws { state: first };
    let mut script = joined(alloc, &[OPENING])?;
    for step in 0..steps {
        let line = match draws.draw() % 8 {
            0..=3 => of_transaction(alloc, &mut draws, step)?,
            4..=6 => of_message(alloc, &mut draws, step)?,
            _ => of_world(alloc, &mut draws, step)?,
        };
        script.extend_from_slice(line.as_bytes())?;
    }
    Ok(script)
}

#[test]
fn random_scripts_of_nodes_show_what_the_plain_program_shows(rt: HostRuntime) -> Result<(), Fail> {
    for first in 1..5u64 {
        let script = random_script(rt.alloc(), first, 400)?;
        show_the_same(rt.alloc(), &script)?;
    }
    Ok(())
}

// Of all dumps, how many show the record.
fn records_in(text: &[u8]) -> usize {
    text.windows(9)
        .filter(|part| *part == b"RECORD 1 ".as_slice())
        .count()
}

// A node's disk is stopped after so many writes of the end of the transaction. Settled and settled again, all nodes have its records or none has, and
// all have them where its commitment was told.
fn ends_alike(
    rt: &impl Abort,
    alloc: Global,
    node: &str,
    writes: u32,
    choice: u64,
) -> Result<(), Fail> {
    let fuse = format!(in alloc; "FUSE {node} {writes} {choice}\n")?;
    let script = joined(alloc, &[OPENING, JOINED, fuse.as_bytes(), ENDED])?;
    let text = shown(alloc, &script)?;
    let is_committed = has(&text, b"COMMIT A.1.1 A.1.1 ");
    let want = if is_committed { 3 } else { 0 };
    assert_eq!(rt; records_in(&text), want, "{node} {writes} {choice}");
    assert!(rt;
        has(&text, b"\n38 SS$_NORMAL\n39 RECORD")
            || has(&text, b"\n38 SS$_NORMAL\n39 SS$_NORMAL 0\n"),
        "{node} {writes} {choice}"
    );
    assert!(rt;
        writes < WRITES || !has(&text, b" STOPPED\n"),
        "{node} {choice}"
    );
    Ok(())
}

// So many blocks no node writes while the transaction ends. The coordinator writes the most: a group of four blocks for the commitment and two of one block
// for the acknowledgements, and a group of c blocks takes 2c + 3 writes.
const WRITES: u32 = 22;

#[test]
fn a_stop_at_any_write_of_any_node_ends_a_transaction_alike(rt: HostRuntime) -> Result<(), Fail> {
    for node in NAMES {
        for choice in [0u64, 5, 10, 15] {
            for writes in 0..WRITES + 1 {
                ends_alike(&rt, rt.alloc(), node, writes, choice)?;
            }
        }
    }
    Ok(())
}

// Each message of the end of a transaction is lost, or comes twice; settled, all nodes have its records or none has.
#[test]
fn a_message_that_is_lost_or_doubled_ends_a_transaction_alike(rt: HostRuntime) -> Result<(), Fail> {
    let alloc = rt.alloc();
    for which in 5..13u32 {
        for times in [0u32, 2] {
            let mut script = joined(alloc, &[OPENING, JOINED, b"A: END_TRANS T\n"])?;
            for number in 5..13u32 {
                let line = format!(in alloc; "DELIVER {number}\n")?;
                let count = if number == which { times } else { 1 };
                for _ in 0..count {
                    script.extend_from_slice(line.as_bytes())?;
                }
            }
            script.extend_from_slice(b"SETTLE\nA: DUMP F\nB: DUMP F\nC: DUMP F\n")?;
            show_the_same(alloc, &script)?;
            let text = shown(alloc, &script)?;
            let want = if has(&text, b"COMMIT A.1.1 A.1.1 ") {
                3
            } else {
                0
            };
            assert_eq!(rt; records_in(&text), want, "{which} {times}");
        }
    }
    Ok(())
}

// The coordinator of a prepared branch is not in the rack of the next run: a settling leaves the branch in doubt, and says where its coordinator is.
#[test]
fn a_branch_stays_in_doubt_without_its_coordinator(rt: HostRuntime) -> Result<(), Fail> {
    let alloc = rt.alloc();
    let script = joined(
        alloc,
        &[
            OPENING,
            JOINED,
            b"A: END_TRANS T\nDELIVER 5\nDELIVER 6\nDELIVER 7\nDELIVER 8\n",
        ],
    )?;
    let rack = rack_of(
        alloc,
        zeros(alloc, BLOCKS)?,
        zeros(alloc, BLOCKS)?,
        zeros(alloc, BLOCKS)?,
    )?;
    let (_, mut rack) = shown_by(alloc, rack, &NAMES, &script, 100_000)?;
    let _ = rack.take_first();
    let (_, disk) = rack.take_first().ok_or("a disk")?;
    let alone = with_node(Rack::new(alloc), "B", disk)?;
    let (text, alone) = shown_by(
        alloc,
        alone,
        &["B"],
        b"SETTLE\nB: GET - F 1\nB: INQUIRE B.1.1\n",
        100_000,
    )?;
    assert_eq!(rt;
        text.as_slice(),
        b"1 PREPARED A.1.1 B.1.1\n1 BOOTED B 2\n1 INDOUBT B.1.1 A\n2 RMS$_RLK B.1.1\n3 SENT 1 B A INQUIRE A.1.1 B.1.1\n3 SS$_NORMAL\n".as_slice()
    );
    Ok(())
}
