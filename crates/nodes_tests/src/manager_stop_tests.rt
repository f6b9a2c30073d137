//! Resource managers: what a node that was stopped in the course of a commitment, or of what forgets it, still owes to one; how a branch of another
//! node stands and what each reply shows there; each way to abort; and records that do not stand in the order in which they were written.
use crate::manager_tests::{REPLIES, count_lines, count_parts, numbered};
use std::alloc::Global;
use std::process::Abort;
use std::test::Fail;
use test_scripts::racks::{pair_shows, same_by_pair, shown_by_pair};
use test_scripts::texts::{has, joined};

// A volume with a file at each of two nodes, and managers that are declared there.
const PAIR: &[u8] =
    b"A: INIT\nB: INIT\nA: BOOT\nB: BOOT\nA: CREATE F REL 1 100 10\nB: CREATE G REL 1 100 10\nA: SET_FILE F RU\nB: SET_FILE G RU\nA: DECLARE_RM R\nA: DECLARE_RM S\nB: DECLARE_RM R\n";

// Behind the volumes, the last line of a script shows just these lines; the plain program shows the same.
fn ends_so(
    rt: &impl Abort,
    alloc: Global,
    lines: &[u8],
    last: &[u8],
    want: &[&str],
) -> Result<(), Fail> {
    let script = joined(alloc, &[PAIR, lines, last])?;
    let text = same_by_pair(alloc, &script, 200_000)?;
    let number = count_lines(&script);
    let behind = numbered(alloc, number, want)?;
    let each = format!(in alloc; "\n{number} ")?;
    assert!(rt; text.ends_with(&behind), "line {number}");
    assert_eq!(rt;
        count_parts(&text, each.as_bytes()),
        want.len(),
        "line {number}"
    );
    Ok(())
}

// R has joined a branch at B, and the transaction's coordinator is A.
const BRANCH: &[u8] =
    b"A: START_TRANS T\nA: ADD_BRANCH T B U\nB: START_BRANCH U\nDELIVER 1\nDELIVER 2\nB: JOIN_RM U R\n";

// The branch has changed a record.
const CHANGED: &[u8] = b"B: PUT U G 1 \"b\"\n";

// It is ended and asked, so that R is asked.
const ASKED: &[u8] = b"B: END_BRANCH U\nA: END_TRANS T\nDELIVER 3\n";

const PREPARED: &[u8] = b"B: ACK_EVENT U R SS$_PREPARED\n";

// The vote comes, and the commitment is told.
const TOLD: &[u8] = b"DELIVER 4\nDELIVER 5\n";

const RESTARTED: &[u8] = b"CRASH B\nB: BOOT\n";

const DECLARED: &[u8] = b"B: DECLARE_RM R\n";

const WRONG: &[&str] = &["SS$_WRONGSTATE"];

const NO_MANAGER: &[&str] = &["SS$_NOSUCHRM"];

const NO_BRANCH: &[&str] = &["SS$_NOSUCHTID"];

const KEPT: &[&str] = &["SS$_NORMAL"];

const YES: &[&str] = &[
    "PREPARED A.1.1 B.1.1",
    "SENT 4 B A YES A.1.1 B.1.1",
    "SS$_NORMAL",
];

const LEFT: &[&str] = &[
    "READONLY A.1.1 B.1.1",
    "SENT 4 B A READONLY A.1.1 B.1.1",
    "SS$_NORMAL",
];

const NO: &[&str] = &[
    "ABORT A.1.1 B.1.1 DDTM$_VETOED \"17-NOV-1858 00:00:00.01\"",
    "SENT 4 B A NO A.1.1 B.1.1",
    "SS$_NORMAL",
];

const FORGOTTEN: &[&str] = &["FORGOT A.1.1 B.1.1", "SS$_NORMAL"];

// How a branch of another node, its manager or its event stands, and what each reply of R shows then.
const STATES: [(&[&[u8]], [&[&str]; 5]); 14] = [
    // It has begun and R has not joined it.
    (
        &[b"A: START_TRANS T\nA: ADD_BRANCH T B U\nB: START_BRANCH U\n"],
        [NO_MANAGER; 5],
    ),
    // It has no serial yet.
    (
        &[b"A: START_TRANS T\nA: ADD_BRANCH T B U\n"],
        [NO_BRANCH; 5],
    ),
    // No event waits: it is active,
    (&[BRANCH, CHANGED], [WRONG; 5]),
    // and asked, but not ended.
    (&[BRANCH, b"A: END_TRANS T\nDELIVER 3\n"], [WRONG; 5]),
    // PREPARE waits, of a branch that has changed something,
    (&[BRANCH, CHANGED, ASKED], [YES, YES, NO, WRONG, WRONG]),
    // and of one that has not.
    (&[BRANCH, ASKED], [YES, LEFT, NO, WRONG, WRONG]),
    // It is prepared, and hears of its outcome later: now,
    (&[BRANCH, ASKED, PREPARED], [WRONG; 5]),
    // where its node was booted and R is not declared,
    (&[BRANCH, ASKED, PREPARED, RESTARTED], [NO_MANAGER; 5]),
    // and once it is.
    (&[BRANCH, ASKED, PREPARED, RESTARTED, DECLARED], [WRONG; 5]),
    // COMMIT waits: now,
    (
        &[BRANCH, CHANGED, ASKED, PREPARED, TOLD],
        [WRONG, FORGOTTEN, WRONG, KEPT, WRONG],
    ),
    // where its node was booted and R is not declared,
    (&[BRANCH, ASKED, PREPARED, TOLD, RESTARTED], [NO_MANAGER; 5]),
    // and once it is, where the node was booted in between too.
    (
        &[
            BRANCH, ASKED, PREPARED, RESTARTED, TOLD, DECLARED, RESTARTED, DECLARED,
        ],
        [WRONG, FORGOTTEN, WRONG, KEPT, WRONG],
    ),
    // It has left as read-only.
    (
        &[BRANCH, ASKED, b"B: ACK_EVENT U R SS$_FORGET\n"],
        [NO_BRANCH; 5],
    ),
    // Its transaction is presumed to be aborted.
    (
        &[
            BRANCH,
            ASKED,
            PREPARED,
            b"CRASH A\nA: BOOT\nB: INQUIRE U\nDELIVER 5\nDELIVER 6\n",
        ],
        [NO_BRANCH; 5],
    ),
];

#[test]
fn each_reply_of_a_branch_of_another_node_shows_its_lines(rt: HostRuntime) -> Result<(), Fail> {
    let alloc = rt.alloc();
    for (state, wants) in STATES {
        let lines = joined(alloc, state)?;
        for at in 0..5usize {
            let reply = REPLIES[at];
            let last = format!(in alloc; "B: ACK_EVENT U R {reply}\n")?;
            ends_so(&rt, alloc, &lines, last.as_bytes(), wants[at])?;
        }
    }
    Ok(())
}

// R has joined the transaction, which waits for its reply to ONEPHASE.
const WAITING: &[u8] = b"A: START_TRANS T TIMEOUT 10\nA: JOIN_RM T R\nA: END_TRANS T\n";

// A script, its last line, and what that shows: each way to abort tells each manager once that has joined, but for one that has no interest or has
// vetoed; and a fall tells none.
const ABORTS: [(&[u8], &[u8], &[&str]); 12] = [
    (
        WAITING,
        b"A: ABORT_TRANS T\n",
        &[
            "ABORT A.1.1 A.1.1 DDTM$_ABORTED \"17-NOV-1858 00:00:00.01\"",
            "EVENT ABORT A.1.1 A.1.1 R",
            "ENDED A.1.1 SS$_ABORT DDTM$_ABORTED",
            "SS$_NORMAL",
        ],
    ),
    (
        b"A: START_TRANS T\nA: JOIN_RM T R\nA: JOIN_RM T S\n",
        b"A: ABORT_TRANS T\n",
        &[
            "ABORT A.1.1 A.1.1 DDTM$_ABORTED \"17-NOV-1858 00:00:00.01\"",
            "EVENT ABORT A.1.1 A.1.1 R",
            "EVENT ABORT A.1.1 A.1.1 S",
            "SS$_NORMAL",
        ],
    ),
    (
        b"A: START_TRANS T\nA: JOIN_RM T R\nA: JOIN_RM T S\nA: END_TRANS T\nA: ACK_EVENT T R SS$_FORGET\n",
        b"A: ABORT_TRANS T\n",
        &[
            "ABORT A.1.1 A.1.1 DDTM$_ABORTED \"17-NOV-1858 00:00:00.01\"",
            "EVENT ABORT A.1.1 A.1.1 S",
            "ENDED A.1.1 SS$_ABORT DDTM$_ABORTED",
            "SS$_NORMAL",
        ],
    ),
    (
        b"A: START_TRANS T\nA: JOIN_RM T R\nA: JOIN_RM T S\nA: END_TRANS T\nA: ACK_EVENT T S SS$_PREPARED\n",
        b"A: ACK_EVENT A.1.1 R SS$_VETO\n",
        &[
            "ABORT A.1.1 A.1.1 DDTM$_VETOED \"17-NOV-1858 00:00:00.01\"",
            "EVENT ABORT A.1.1 A.1.1 S",
            "ENDED A.1.1 SS$_ABORT DDTM$_VETOED",
            "SS$_NORMAL",
        ],
    ),
    (
        WAITING,
        b"CLOCK A \"17-NOV-1858 00:00:10.00\"\n",
        &[
            "ABORT A.1.1 A.1.1 DDTM$_TIMEOUT \"17-NOV-1858 00:00:10.00\"",
            "EVENT ABORT A.1.1 A.1.1 R",
            "ENDED A.1.1 SS$_ABORT DDTM$_TIMEOUT",
            "SS$_NORMAL",
        ],
    ),
    (
        b"A: START_TRANS T\nA: JOIN_RM T R\nA: ADD_BRANCH T B U\n",
        b"A: END_TRANS T\n",
        &[
            "ABORT A.1.1 A.1.1 DDTM$_SYNC_FAIL \"17-NOV-1858 00:00:00.01\"",
            "EVENT ABORT A.1.1 A.1.1 R",
            "SS$_ABORT DDTM$_SYNC_FAIL",
        ],
    ),
    (
        WAITING,
        b"SETTLE\n",
        &[
            "ABORT A.1.1 A.1.1 DDTM$_SEG_FAIL \"17-NOV-1858 00:00:00.01\"",
            "EVENT ABORT A.1.1 A.1.1 R",
            "ENDED A.1.1 SS$_ABORT DDTM$_SEG_FAIL",
            "SS$_NORMAL",
        ],
    ),
    (
        b"A: START_TRANS T\nA: ADD_BRANCH T B U\nB: START_BRANCH U\nDELIVER 1\nDELIVER 2\nA: JOIN_RM T R\nB: JOIN_RM U R\n",
        b"LINKDOWN A B\n",
        &[
            "ABORT A.1.1 A.1.1 DDTM$_COMM_FAIL \"17-NOV-1858 00:00:00.01\"",
            "SENT 3 A B ABORT A.1.1 B.1.1",
            "EVENT ABORT A.1.1 A.1.1 R",
            "ABORT A.1.1 B.1.1 DDTM$_COMM_FAIL \"17-NOV-1858 00:00:00.01\"",
            "SENT 4 B A NO A.1.1 B.1.1",
            "EVENT ABORT A.1.1 B.1.1 R",
            "SS$_NORMAL",
        ],
    ),
    (
        b"A: START_TRANS T\nA: ADD_BRANCH T B U\nB: START_BRANCH U\nDELIVER 1\nDELIVER 2\nB: JOIN_RM U R\nA: ABORT_TRANS T\nDELIVER 1\n",
        b"DELIVER 4\n",
        &[
            "ABORT A.1.1 B.1.1 DDTM$_SYNC_FAIL \"17-NOV-1858 00:00:00.01\"",
            "EVENT ABORT A.1.1 B.1.1 R",
            "SS$_NORMAL",
        ],
    ),
    (
        b"A: START_TRANS T\nA: ADD_BRANCH T B U\nB: START_BRANCH U\nDELIVER 1\nDELIVER 2\nB: JOIN_RM U R\nB: END_BRANCH U\nA: END_TRANS T\nDELIVER 3\nA: ABORT_TRANS T\n",
        b"DELIVER 4\n",
        &[
            "ABORT A.1.1 B.1.1 DDTM$_ABORTED \"17-NOV-1858 00:00:00.01\"",
            "EVENT ABORT A.1.1 B.1.1 R",
            "SS$_NORMAL",
        ],
    ),
    (
        b"A: START_TRANS T\nA: ADD_BRANCH T B U\nB: START_BRANCH U\nDELIVER 1\nDELIVER 2\nA: JOIN_RM T R\nB: ABORT_TRANS U\n",
        b"DELIVER 3\n",
        &[
            "ABORT A.1.1 A.1.1 DDTM$_VETOED \"17-NOV-1858 00:00:00.01\"",
            "EVENT ABORT A.1.1 A.1.1 R",
            "SS$_NORMAL",
        ],
    ),
    (WAITING, b"CRASH A\n", &["DOWN A CRASH", "SS$_NORMAL"]),
];

#[test]
fn each_abort_is_told_once_to_each_manager(rt: HostRuntime) -> Result<(), Fail> {
    for (lines, last, want) in ABORTS {
        ends_so(&rt, rt.alloc(), lines, last, want)?;
    }
    Ok(())
}

// Two nodes, and a manager at one.
const BOOTED: (&[u8], &[u8]) = (
    b"A: INIT\nB: INIT\nA: BOOT\nB: BOOT\nB: DECLARE_RM R\n",
    b"1 SS$_NORMAL\n2 SS$_NORMAL\n3 SS$_NORMAL 1\n4 SS$_NORMAL 1\n5 SS$_NORMAL\n",
);

// What a transaction and a branch are, from their beginning on until the branch is asked.
const KNOWN: (&[u8], &[u8]) = (
    b"A: START_TRANS T\nA: ADD_BRANCH T B U\nA: GETDTI T\nB: GETDTI U\nA: GETDTI U\nA: GETDTI X\nB: START_BRANCH U\nB: GETDTI U\nB: JOIN_RM U R\nDELIVER 1\nDELIVER 2\nB: JOIN_RM U R\nB: GETDTI B.1.1\nA: END_TRANS T\nA: GETDTI A.1.1\nB: GETDTI U\nDELIVER 3\nB: GETDTI U\n",
    b"6 SS$_NORMAL A.1.1\n7 SS$_NORMAL A.1.2\n8 SS$_NORMAL ACTIVE\n9 SS$_NORMAL UNKNOWN\n10 LABEL\n11 LABEL\n12 SENT 1 B A JOIN A.1.1 B.1.1 A.1.2\n12 PENDING B.1.1\n13 SS$_NORMAL ACTIVE\n14 SS$_WRONGSTATE\n15 JOINED A.1.1 B.1.1\n15 SENT 2 A B JOINOK A.1.1 B.1.1\n15 SS$_NORMAL\n16 STARTED A.1.1 B.1.1\n16 SS$_NORMAL\n17 SS$_NORMAL\n18 SS$_NORMAL ACTIVE\n19 SENT 3 A B PREPARE A.1.1 B.1.1\n19 PENDING B.1.1\n20 SS$_NORMAL ENDING\n21 SS$_NORMAL ACTIVE\n22 SS$_NORMAL\n23 SS$_NORMAL ENDING\n",
);

// And from then on, until their records are gone.
const SETTLED: (&[u8], &[u8]) = (
    b"B: END_BRANCH U\nB: GETDTI U\nB: ACK_EVENT U R SS$_PREPARED\nB: GETDTI U\nB: ACK_EVENT U R SS$_PREPARED\nB: FORGET_RM R\nDELIVER 4\nA: GETDTI T\nA: LMCP DUMP\nDELIVER 5\nB: GETDTI U\nB: FORGET_RM R\nB: ACK_EVENT U R SS$_FORGET\nB: DECLARE_RM R\nDELIVER 6\nA: GETDTI T\nB: ACK_EVENT B.1.1 R SS$_FORGET\nB: GETDTI U\nA: GETDTI B.1.1\nB: LMCP SHOW\n",
    b"24 EVENT PREPARE A.1.1 B.1.1 R\n24 SS$_NORMAL\n25 SS$_NORMAL ENDING\n26 PREPARED A.1.1 B.1.1\n26 SENT 4 B A YES A.1.1 B.1.1\n26 SS$_NORMAL\n27 SS$_NORMAL PREPARED\n28 SS$_WRONGSTATE\n29 SS$_WRONGSTATE\n30 COMMIT A.1.1 A.1.1 \"17-NOV-1858 00:00:00.01\"\n30 SENT 5 A B COMMIT A.1.1 B.1.1\n30 ENDED A.1.1 SS$_NORMAL\n30 SS$_NORMAL\n31 SS$_NORMAL COMMITTED\n32 LOG 0 COMMITTED A.1.1 A.1.1 B.1.1 -\n32 SS$_NORMAL 1\n33 COMMIT A.1.1 B.1.1 \"17-NOV-1858 00:00:00.01\"\n33 SENT 6 B A ACK A.1.1 B.1.1\n33 EVENT COMMIT A.1.1 B.1.1 R\n33 SS$_NORMAL\n34 SS$_NORMAL COMMITTED\n35 SS$_NORMAL\n36 SS$_NOSUCHRM\n37 EVENT COMMIT A.1.1 B.1.1 R\n37 SS$_NORMAL\n38 FORGOT A.1.1 A.1.1\n38 SS$_NORMAL\n39 SS$_NORMAL UNKNOWN\n40 FORGOT A.1.1 B.1.1\n40 SS$_NORMAL\n41 SS$_NORMAL UNKNOWN\n42 SS$_NORMAL UNKNOWN\n43 SS$_NORMAL 0 0 128\n",
);

#[test]
fn a_branch_is_known_by_its_state(rt: HostRuntime) -> Result<(), Fail> {
    pair_shows(rt.alloc(), &[BOOTED, KNOWN, SETTLED])
}

// Three records stand in the log, of which the last that was written has the first slot.
fn add_records(alloc: Global, lines: &mut Vec<u8>) -> Result<(), Fail> {
    for n in 1..5u32 {
        lines.extend_from_slice(format!(in alloc;
            "A: START_TRANS T{n}\nA: JOIN_RM T{n} R\nA: END_TRANS T{n}\nA: ACK_EVENT T{n} R SS$_PREPARED\n"
        )?.as_bytes())?;
        if n == 3 {
            lines.extend_from_slice(b"A: ACK_EVENT T1 R SS$_FORGET\n")?;
        }
    }
    Ok(())
}

const IN_ORDER_OF_SLOTS: &[&str] = &[
    "EVENT COMMIT A.1.4 A.1.4 R",
    "EVENT COMMIT A.1.2 A.1.2 R",
    "EVENT COMMIT A.1.3 A.1.3 R",
    "SS$_NORMAL",
];

#[test]
fn commitments_are_told_in_the_order_of_slots(rt: HostRuntime) -> Result<(), Fail> {
    let alloc = rt.alloc();
    let mut lines = Vec::new(alloc);
    add_records(alloc, &mut lines)?;
    ends_so(
        &rt,
        alloc,
        &lines,
        b"A: LMCP DUMP\n",
        &[
            "LOG 0 COMMITTED A.1.4 A.1.4 - R",
            "LOG 1 COMMITTED A.1.2 A.1.2 - R",
            "LOG 2 COMMITTED A.1.3 A.1.3 - R",
            "SS$_NORMAL 3",
        ],
    )?;
    ends_so(
        &rt,
        alloc,
        &lines,
        b"A: LMCP SHOW\n",
        &["SS$_NORMAL 3 0 125"],
    )?;
    let again = joined(alloc, &[lines.as_slice(), b"A: FORGET_RM R\n"])?;
    ends_so(&rt, alloc, &again, b"A: DECLARE_RM R\n", IN_ORDER_OF_SLOTS)?;
    let booted = joined(alloc, &[lines.as_slice(), b"CRASH A\nA: BOOT\n"])?;
    ends_so(&rt, alloc, &booted, b"A: DECLARE_RM R\n", IN_ORDER_OF_SLOTS)?;
    ends_so(&rt, alloc, &booted, b"A: DECLARE_RM S\n", KEPT)
}

// So many blocks a node does not write for what forgets a record: a group of one block takes 5 writes.
const FORGETTING: u32 = 8;

// A manager forgets while the disk is stopped after so many writes. A boot finds the record just where the manager is told again, and never where the
// record was told to be gone; what was committed stays, and the manager forgets once more.
fn stops_forgetting(rt: &impl Abort, alloc: Global, writes: u32, choice: u64) -> Result<(), Fail> {
    let fuse = format!(in alloc; "FUSE A {writes} {choice}\n")?;
    let later = format!(in alloc; "FUSE A 4294967295 {choice}\n")?;
    let text = shown_by_pair(
        alloc,
        &joined(
            alloc,
            &[
                PAIR,
                b"A: START_TRANS T\nA: JOIN_RM T R\nA: PUT T F 1 \"a\"\nA: END_TRANS T\nA: ACK_EVENT T R SS$_PREPARED\n",
                fuse.as_bytes(),
                b"A: ACK_EVENT T R SS$_FORGET\n",
                later.as_bytes(),
                b"CRASH A\nA: BOOT\nA: LMCP DUMP\nA: DECLARE_RM R\nA: DUMP F\nA: ACK_EVENT T R SS$_FORGET\nA: LMCP SHOW\n",
            ],
        )?,
        200_000,
    )?;
    let is_there = has(
        &text,
        b"\n22 LOG 0 COMMITTED A.1.1 A.1.1 - R\n22 SS$_NORMAL 1\n23 EVENT COMMIT A.1.1 A.1.1 R\n23 SS$_NORMAL\n",
    );
    assert_eq!(rt;
        has(&text, b"\n22 SS$_NORMAL 0\n23 SS$_NORMAL\n"),
        !is_there,
        "{writes} {choice}"
    );
    assert!(rt;
        has(&text, b"\n24 RECORD 1 \"a\"\n24 SS$_NORMAL 1\n"),
        "{writes} {choice}"
    );
    assert_eq!(rt;
        text.ends_with(b"\n25 FORGOT A.1.1 A.1.1\n25 SS$_NORMAL\n26 SS$_NORMAL 0 0 128\n"),
        is_there,
        "{writes} {choice}"
    );
    assert_eq!(rt;
        text.ends_with(b"\n25 SS$_NOSUCHTID\n26 SS$_NORMAL 0 0 128\n"),
        !is_there,
        "{writes} {choice}"
    );
    assert!(rt;
        !is_there || !has(&text, b"\n18 FORGOT A.1.1 A.1.1\n"),
        "{writes} {choice}"
    );
    assert!(rt; writes > 0 || has(&text, b"\n18 STOPPED\n"), "{choice}");
    assert!(rt;
        writes < FORGETTING || !has(&text, b" STOPPED\n"),
        "{choice}"
    );
    Ok(())
}

#[test]
fn a_stop_within_each_write_that_forgets_tells_the_manager_again_or_never(
    rt: HostRuntime,
) -> Result<(), Fail> {
    for writes in 0..FORGETTING + 1 {
        for choice in 0..6u64 {
            stops_forgetting(&rt, rt.alloc(), writes, choice)?;
        }
    }
    Ok(())
}

// So many blocks a node does not write for the commitment of a prepared branch.
const COMMITTING: u32 = 14;

// A prepared branch is told the commitment while its node's disk is stopped after so many writes. A boot finds the prepared record or the committed
// one; the manager is told just once of the commitment behind it, when it is declared or in the settling, and then forgets.
fn stops_committing(rt: &impl Abort, alloc: Global, writes: u32, choice: u64) -> Result<(), Fail> {
    let fuse = format!(in alloc; "FUSE B {writes} {choice}\n")?;
    let later = format!(in alloc; "FUSE B 4294967295 {choice}\n")?;
    let text = shown_by_pair(
        alloc,
        &joined(
            alloc,
            &[
                PAIR,
                BRANCH,
                CHANGED,
                ASKED,
                PREPARED,
                b"DELIVER 4\n",
                fuse.as_bytes(),
                b"DELIVER 5\n",
                later.as_bytes(),
                RESTARTED,
                b"B: LMCP DUMP\n",
                DECLARED,
                b"SETTLE\nB: ACK_EVENT U R SS$_FORGET\nB: LMCP SHOW\nB: DUMP G\n",
            ],
        )?,
        200_000,
    )?;
    let is_committed = has(
        &text,
        b"\n29 LOG 0 COMMITTED A.1.1 B.1.1 - R\n29 SS$_NORMAL 1\n30 EVENT COMMIT A.1.1 B.1.1 R\n30 SS$_NORMAL\n31 SS$_NORMAL\n",
    );
    assert_eq!(rt;
        has(
            &text,
            b"\n28 PREPARED A.1.1 B.1.1\n28 SS$_NORMAL 2\n29 LOG 0 PREPARED A.1.1 B.1.1 R\n29 SS$_NORMAL 1\n30 SS$_NORMAL\n31 ASKED A.1.1 B.1.1 COMMIT\n"
        ),
        !is_committed,
        "{writes} {choice}"
    );
    assert_eq!(rt;
        has(&text, b"\n31 EVENT COMMIT A.1.1 B.1.1 R\n31 SS$_NORMAL\n"),
        !is_committed,
        "{writes} {choice}"
    );
    assert!(rt;
        text.ends_with(
            b"\n32 FORGOT A.1.1 B.1.1\n32 SS$_NORMAL\n33 SS$_NORMAL 0 0 128\n34 RECORD 1 \"b\"\n34 SS$_NORMAL 1\n"
        ),
        "{writes} {choice}"
    );
    assert!(rt;
        is_committed || !has(&text, b"\n25 COMMIT A.1.1 B.1.1 "),
        "{writes} {choice}"
    );
    assert!(rt; writes > 0 || has(&text, b"\n25 STOPPED\n"), "{choice}");
    assert!(rt;
        writes < COMMITTING || !has(&text, b" STOPPED\n"),
        "{choice}"
    );
    Ok(())
}

#[test]
fn a_stop_within_each_write_of_a_branch_that_commits_tells_its_manager_once(
    rt: HostRuntime,
) -> Result<(), Fail> {
    for writes in 0..COMMITTING + 1 {
        for choice in 0..6u64 {
            stops_committing(&rt, rt.alloc(), writes, choice)?;
        }
    }
    Ok(())
}
