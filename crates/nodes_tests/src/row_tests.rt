//! Worked scripts of several nodes: what the run shows for them, line by line.
use std::alloc::Global;
use std::process::Abort;
use std::test::Fail;
use test_scripts::racks::{pair_shows, shown_by_one};

// A volume with a file at each of two nodes.
const PAIR: (&[u8], &[u8]) = (
    b"A: INIT\nB: INIT\nA: BOOT\nB: BOOT\nA: CREATE F REL 1 100 10\nB: CREATE G REL 1 100 10\nA: SET_FILE F RU\nB: SET_FILE G RU\n",
    b"1 SS$_NORMAL\n2 SS$_NORMAL\n3 SS$_NORMAL 1\n4 SS$_NORMAL 1\n5 SS$_NORMAL\n6 SS$_NORMAL\n7 SS$_NORMAL\n8 SS$_NORMAL\n",
);

// A transaction begins, and a branch of it is authorised.
const BEGUN: (&[u8], &[u8]) = (
    b"A: START_TRANS T\nA: ADD_BRANCH T B U\n",
    b"9 SS$_NORMAL A.1.1\n10 SS$_NORMAL A.1.2\n",
);

// The branch joins, and each node puts a record.
const JOINED: (&[u8], &[u8]) = (
    b"B: START_BRANCH U\nDELIVER 1\nDELIVER 2\nA: PUT T F 1 \"a\"\nB: PUT U G 1 \"b\"\n",
    b"11 SENT 1 B A JOIN A.1.1 B.1.1 A.1.2\n11 PENDING B.1.1\n12 JOINED A.1.1 B.1.1\n12 SENT 2 A B JOINOK A.1.1 B.1.1\n12 SS$_NORMAL\n13 STARTED A.1.1 B.1.1\n13 SS$_NORMAL\n14 RMS$_NORMAL\n15 RMS$_NORMAL\n",
);

// The branch is ended, and votes yes.
const VOTED: (&[u8], &[u8]) = (
    b"B: END_BRANCH U\nA: END_TRANS T\nDELIVER 3\n",
    b"16 SS$_NORMAL\n17 SENT 3 A B PREPARE A.1.1 B.1.1\n17 PENDING B.1.1\n18 PREPARED A.1.1 B.1.1\n18 SENT 4 B A YES A.1.1 B.1.1\n18 SS$_NORMAL\n",
);

// The vote comes, and the transaction is committed.
const COMMITTED: (&[u8], &[u8]) = (
    b"DELIVER 4\n",
    b"19 COMMIT A.1.1 A.1.1 \"17-NOV-1858 00:00:00.01\"\n19 SENT 5 A B COMMIT A.1.1 B.1.1\n19 ENDED A.1.1 SS$_NORMAL\n19 SS$_NORMAL\n",
);

// The branch is in doubt over a fall, asks, and is committed.
const RESOLVED: (&[u8], &[u8]) = (
    b"CRASH B\nB: BOOT\nB: GET - G 1\nB: INQUIRE U\nDELIVER 6\nDELIVER 7\nB: GET - G 1\n",
    b"20 DOWN B CRASH\n20 SS$_NORMAL\n21 PREPARED A.1.1 B.1.1\n21 SS$_NORMAL 2\n22 RMS$_RLK B.1.1\n23 SENT 6 B A INQUIRE A.1.1 B.1.1\n23 SS$_NORMAL\n24 SENT 7 A B COMMIT A.1.1 B.1.1\n24 SS$_NORMAL\n25 COMMIT A.1.1 B.1.1 \"17-NOV-1858 00:00:00.01\"\n25 SENT 8 B A ACK A.1.1 B.1.1\n25 SS$_NORMAL\n26 RMS$_NORMAL \"b\"\n",
);

// One script shows these lines by the node A alone.
fn one_shows(rt: &impl Abort, alloc: Global, script: &[u8], want: &[u8]) -> Result<(), Fail> {
    let text = shown_by_one(alloc, script, 20_000)?;
    assert_eq!(rt; text.as_slice(), want);
    Ok(())
}

// What a pair of nodes shows: both commit; a branch in doubt is resolved, and messages that come late and again change nothing; an abort is presumed; a
// branch is missing; a link fails; and a settling asks.
#[test]
fn worked_scripts_of_two_nodes_show_their_lines(rt: HostRuntime) -> Result<(), Fail> {
    let table: [&[(&[u8], &[u8])]; 7] = [
        &[
            PAIR,
            BEGUN,
            JOINED,
            VOTED,
            COMMITTED,
            (
                b"DELIVER 5\nDELIVER 6\nB: DUMP G\n",
                b"20 COMMIT A.1.1 B.1.1 \"17-NOV-1858 00:00:00.01\"\n20 SENT 6 B A ACK A.1.1 B.1.1\n20 SS$_NORMAL\n21 FORGOT A.1.1 A.1.1\n21 SS$_NORMAL\n22 RECORD 1 \"b\"\n22 SS$_NORMAL 1\n",
            ),
        ],
        &[PAIR, BEGUN, JOINED, VOTED, COMMITTED, RESOLVED],
        &[
            PAIR,
            BEGUN,
            JOINED,
            VOTED,
            (
                b"CRASH A\nA: BOOT\nB: INQUIRE U\nDELIVER 5\nDELIVER 6\n",
                b"19 DOWN A CRASH\n19 SS$_NORMAL\n20 ABORT A.1.1 A.1.1 DDTM$_SEG_FAIL \"17-NOV-1858 00:00:00.01\"\n20 SS$_NORMAL 2\n21 SENT 5 B A INQUIRE A.1.1 B.1.1\n21 SS$_NORMAL\n22 SENT 6 A B ABORT A.1.1 B.1.1\n22 SS$_NORMAL\n23 ABORT A.1.1 B.1.1 DDTM$_ABORTED \"17-NOV-1858 00:00:00.01\"\n23 SS$_NORMAL\n",
            ),
        ],
        &[
            PAIR,
            BEGUN,
            JOINED,
            VOTED,
            COMMITTED,
            RESOLVED,
            (
                b"DELIVER 8\nDELIVER 3\nDELIVER 6\nDELIVER 9\nDELIVER 10\nB: DUMP G\n",
                b"27 FORGOT A.1.1 A.1.1\n27 SS$_NORMAL\n28 SENT 9 B A NO A.1.1 B.1.1\n28 SS$_NORMAL\n29 SENT 10 A B ABORT A.1.1 B.1.1\n29 SS$_NORMAL\n30 SS$_NORMAL\n31 SS$_NORMAL\n32 RECORD 1 \"b\"\n32 SS$_NORMAL 1\n",
            ),
        ],
        &[
            PAIR,
            BEGUN,
            (
                b"A: END_TRANS T\n",
                b"11 ABORT A.1.1 A.1.1 DDTM$_SYNC_FAIL \"17-NOV-1858 00:00:00.01\"\n11 SS$_ABORT DDTM$_SYNC_FAIL\n",
            ),
        ],
        &[
            PAIR,
            BEGUN,
            JOINED,
            (
                b"LINKDOWN A B\n",
                b"16 ABORT A.1.1 A.1.1 DDTM$_COMM_FAIL \"17-NOV-1858 00:00:00.01\"\n16 SENT 3 A B ABORT A.1.1 B.1.1\n16 ABORT A.1.1 B.1.1 DDTM$_COMM_FAIL \"17-NOV-1858 00:00:00.01\"\n16 SENT 4 B A NO A.1.1 B.1.1\n16 SS$_NORMAL\n",
            ),
        ],
        &[
            PAIR,
            BEGUN,
            JOINED,
            VOTED,
            COMMITTED,
            (
                b"SETTLE\n",
                b"20 ASKED A.1.1 B.1.1 COMMIT\n20 COMMIT A.1.1 B.1.1 \"17-NOV-1858 00:00:00.01\"\n20 SENT 6 B A ACK A.1.1 B.1.1\n20 SS$_NORMAL\n",
            ),
        ],
    ];
    for pieces in table {
        pair_shows(rt.alloc(), pieces)?;
    }
    Ok(())
}

// A transaction whose time runs out, and a settling that boots, behind which no volume is made.
#[test]
fn worked_scripts_of_one_node_show_their_lines(rt: HostRuntime) -> Result<(), Fail> {
    let table: [(&[u8], &[u8]); 2] = [
        (
            b"A: INIT\nA: BOOT\nA: CREATE F REL 1 100 10\nA: SET_FILE F RU\nA: START_TRANS T TIMEOUT 10\nCLOCK A \"17-NOV-1858 00:00:09.99\"\nCLOCK A \"17-NOV-1858 00:00:10.00\"\n",
            b"1 SS$_NORMAL\n2 SS$_NORMAL 1\n3 SS$_NORMAL\n4 SS$_NORMAL\n5 SS$_NORMAL A.1.1\n6 SS$_NORMAL\n7 ABORT A.1.1 A.1.1 DDTM$_TIMEOUT \"17-NOV-1858 00:00:10.00\"\n7 SS$_NORMAL\n",
        ),
        (
            b"A: INIT\nSETTLE\nA: INIT\n",
            b"1 SS$_NORMAL\n2 BOOTED A 1\n2 SS$_NORMAL\n3 VOLINUSE\n",
        ),
    ];
    for (script, want) in table {
        one_shows(&rt, rt.alloc(), script, want)?;
    }
    Ok(())
}

// Each of the six reasons of an abort, with the statement that brings it.
#[test]
fn each_reason_of_an_abort_is_shown(rt: HostRuntime) -> Result<(), Fail> {
    pair_shows(
        rt.alloc(),
        &[(
            b"A: INIT\nB: INIT\nA: BOOT\nB: BOOT\nA: START_TRANS T1\nA: ABORT_TRANS T1\nA: START_TRANS T2\nA: ADD_BRANCH T2 B U2\nB: START_BRANCH U2\nDELIVER 1\nDELIVER 2\nB: ABORT_TRANS U2\nDELIVER 3\nA: START_TRANS T3\nA: ADD_BRANCH T3 B U3\nA: END_TRANS T3\nA: START_TRANS T4 TIMEOUT 1\nCLOCK A \"17-NOV-1858 00:00:01.00\"\nA: START_TRANS T5\nA: ADD_BRANCH T5 B U5\nB: START_BRANCH U5\nDELIVER 4\nLINKDOWN A B\nA: START_TRANS T6\nSETTLE\n",
            b"1 SS$_NORMAL\n2 SS$_NORMAL\n3 SS$_NORMAL 1\n4 SS$_NORMAL 1\n5 SS$_NORMAL A.1.1\n6 ABORT A.1.1 A.1.1 DDTM$_ABORTED \"17-NOV-1858 00:00:00.01\"\n6 SS$_NORMAL\n7 SS$_NORMAL A.1.2\n8 SS$_NORMAL A.1.3\n9 SENT 1 B A JOIN A.1.2 B.1.1 A.1.3\n9 PENDING B.1.1\n10 JOINED A.1.2 B.1.1\n10 SENT 2 A B JOINOK A.1.2 B.1.1\n10 SS$_NORMAL\n11 STARTED A.1.2 B.1.1\n11 SS$_NORMAL\n12 ABORT A.1.2 B.1.1 DDTM$_ABORTED \"17-NOV-1858 00:00:00.01\"\n12 SENT 3 B A NO A.1.2 B.1.1\n12 SS$_NORMAL\n13 ABORT A.1.2 A.1.2 DDTM$_VETOED \"17-NOV-1858 00:00:00.02\"\n13 SS$_NORMAL\n14 SS$_NORMAL A.1.4\n15 SS$_NORMAL A.1.5\n16 ABORT A.1.4 A.1.4 DDTM$_SYNC_FAIL \"17-NOV-1858 00:00:00.03\"\n16 SS$_ABORT DDTM$_SYNC_FAIL\n17 SS$_NORMAL A.1.6\n18 ABORT A.1.6 A.1.6 DDTM$_TIMEOUT \"17-NOV-1858 00:00:01.00\"\n18 SS$_NORMAL\n19 SS$_NORMAL A.1.7\n20 SS$_NORMAL A.1.8\n21 SENT 4 B A JOIN A.1.7 B.1.2 A.1.8\n21 PENDING B.1.2\n22 JOINED A.1.7 B.1.2\n22 SENT 5 A B JOINOK A.1.7 B.1.2\n22 SS$_NORMAL\n23 ABORT A.1.7 A.1.7 DDTM$_COMM_FAIL \"17-NOV-1858 00:00:01.01\"\n23 SENT 6 A B ABORT A.1.7 B.1.2\n23 ABORT A.1.7 B.1.2 DDTM$_COMM_FAIL \"17-NOV-1858 00:00:00.02\"\n23 SENT 7 B A NO A.1.7 B.1.2\n23 SS$_NORMAL\n24 SS$_NORMAL A.1.9\n25 ABORT A.1.9 A.1.9 DDTM$_SEG_FAIL \"17-NOV-1858 00:00:01.02\"\n25 SS$_NORMAL\n",
        )],
    )
}
