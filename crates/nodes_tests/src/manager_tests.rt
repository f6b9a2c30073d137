//! Resource managers: worked scripts, each reply to each event in each state, what a node has at the most, and what a node that was stopped in the course of a
//! commitment still owes to one.
use std::alloc::Global;
use std::process::Abort;
use std::test::Fail;
use test_scripts::racks::{
    NAMES, OPENING, same_by_one, show_the_same, shown_by_one, shown_by_pair,
};
use test_scripts::random::{Draws, of_message, of_transaction, of_world};
use test_scripts::texts::{has, joined};

// A volume with a file.
const VOLUME: (&[u8], &[u8]) = (
    b"A: INIT\nA: BOOT\nA: CREATE F REL 1 100 10\nA: SET_FILE F RU\n",
    b"1 SS$_NORMAL\n2 SS$_NORMAL 1\n3 SS$_NORMAL\n4 SS$_NORMAL\n",
);

// A manager is declared, and joins a transaction.
const JOINED: (&[u8], &[u8]) = (
    b"A: DECLARE_RM R\nA: START_TRANS T\nA: JOIN_RM T R\n",
    b"5 SS$_NORMAL\n6 SS$_NORMAL A.1.1\n7 SS$_NORMAL\n",
);

// The transaction has changed nothing, and ends in one phase.
const ONE_PHASE: (&[u8], &[u8]) = (
    b"A: END_TRANS T\n",
    b"8 EVENT ONEPHASE A.1.1 A.1.1 R\n8 PENDING R\n",
);

// It has put a record, ends, and asks the manager.
const ASKED: (&[u8], &[u8]) = (
    b"A: PUT T F 1 \"a\"\nA: END_TRANS T\n",
    b"8 RMS$_NORMAL\n9 EVENT PREPARE A.1.1 A.1.1 R\n9 PENDING R\n",
);

// The manager is prepared, and is told of the commitment.
const PREPARED: (&[u8], &[u8]) = (
    b"A: ACK_EVENT T R SS$_PREPARED\n",
    b"10 COMMIT A.1.1 A.1.1 \"17-NOV-1858 00:00:00.01\"\n10 EVENT COMMIT A.1.1 A.1.1 R\n10 ENDED A.1.1 SS$_NORMAL\n10 SS$_NORMAL\n",
);

// The lines of these pieces show what the pieces say, by the node A.
fn pieces_show(rt: &impl Abort, alloc: Global, pieces: &[(&[u8], &[u8])]) -> Result<(), Fail> {
    let mut script = Vec::new(alloc);
    let mut want = Vec::new(alloc);
    for (lines, shown) in pieces {
        script.extend_from_slice(lines)?;
        want.extend_from_slice(shown)?;
    }
    let text = shown_by_one(alloc, &script, 20_000)?;
    assert_eq!(rt; text.as_slice(), want.as_slice());
    Ok(())
}

// A commitment and a veto in one phase; a commitment in two, of which the manager is told until it forgets; and a fall in between.
#[test]
fn worked_scripts_with_a_manager_show_their_lines(rt: HostRuntime) -> Result<(), Fail> {
    let table: [&[(&[u8], &[u8])]; 4] = [
        &[
            VOLUME,
            JOINED,
            ONE_PHASE,
            (
                b"A: ACK_EVENT T R SS$_NORMAL\nA: LMCP SHOW\n",
                b"9 COMMIT A.1.1 A.1.1 \"17-NOV-1858 00:00:00.01\"\n9 ENDED A.1.1 SS$_NORMAL\n9 SS$_NORMAL\n10 SS$_NORMAL 0 0 128\n",
            ),
        ],
        &[
            VOLUME,
            JOINED,
            ONE_PHASE,
            (
                b"A: ACK_EVENT T R SS$_VETO\n",
                b"9 ABORT A.1.1 A.1.1 DDTM$_VETOED \"17-NOV-1858 00:00:00.01\"\n9 ENDED A.1.1 SS$_ABORT DDTM$_VETOED\n9 SS$_NORMAL\n",
            ),
        ],
        &[
            VOLUME,
            JOINED,
            (b"A: PUT T F 1 \"a\"\n", b"8 RMS$_NORMAL\n"),
            (
                b"A: END_TRANS T\nA: GETDTI T\nA: ACK_EVENT T R SS$_PREPARED\nA: LMCP DUMP\nA: ACK_EVENT T R SS$_FORGET\nA: FORGET_RM R\n",
                b"9 EVENT PREPARE A.1.1 A.1.1 R\n9 PENDING R\n10 SS$_NORMAL ENDING\n11 COMMIT A.1.1 A.1.1 \"17-NOV-1858 00:00:00.01\"\n11 EVENT COMMIT A.1.1 A.1.1 R\n11 ENDED A.1.1 SS$_NORMAL\n11 SS$_NORMAL\n12 LOG 0 COMMITTED A.1.1 A.1.1 - R\n12 SS$_NORMAL 1\n13 FORGOT A.1.1 A.1.1\n13 SS$_NORMAL\n14 SS$_NORMAL\n",
            ),
        ],
        &[
            VOLUME,
            JOINED,
            ASKED,
            PREPARED,
            (
                b"CRASH A\nA: BOOT\nA: ACK_EVENT T R SS$_FORGET\nA: DECLARE_RM Q\nA: DECLARE_RM R\nA: GETDTI T\nA: ACK_EVENT A.1.1 R SS$_REMEMBER\nA: LMCP SHOW\n",
                b"11 DOWN A CRASH\n11 SS$_NORMAL\n12 LAST COMMIT A.1.1 A.1.1 \"17-NOV-1858 00:00:00.01\"\n12 SS$_NORMAL 2\n13 SS$_NOSUCHRM\n14 SS$_NORMAL\n15 EVENT COMMIT A.1.1 A.1.1 R\n15 SS$_NORMAL\n16 SS$_NORMAL COMMITTED\n17 SS$_NORMAL\n18 SS$_NORMAL 1 0 127\n",
            ),
            (
                b"CRASH A\nA: BOOT\nA: DECLARE_RM R\nA: ACK_EVENT T R SS$_FORGET\nA: GETDTI T\nA: LMCP DUMP\n",
                b"19 DOWN A CRASH\n19 SS$_NORMAL\n20 LAST COMMIT A.1.1 A.1.1 \"17-NOV-1858 00:00:00.01\"\n20 SS$_NORMAL 3\n21 EVENT COMMIT A.1.1 A.1.1 R\n21 SS$_NORMAL\n22 FORGOT A.1.1 A.1.1\n22 SS$_NORMAL\n23 SS$_NORMAL UNKNOWN\n24 SS$_NORMAL 0\n",
            ),
        ],
    ];
    for pieces in table {
        pieces_show(&rt, rt.alloc(), pieces)?;
    }
    Ok(())
}

pub(crate) const REPLIES: [&str; 5] = [
    "SS$_PREPARED",
    "SS$_FORGET",
    "SS$_VETO",
    "SS$_REMEMBER",
    "SS$_NORMAL",
];

const NO_MANAGER: &[&str] = &["SS$_NOSUCHRM"];

const NO_BRANCH: &[&str] = &["SS$_NOSUCHTID"];

const WRONG: &[&str] = &["SS$_WRONGSTATE"];

const OWED: &[&str] = &[
    "COMMIT A.1.1 A.1.1 \"17-NOV-1858 00:00:00.01\"",
    "EVENT COMMIT A.1.1 A.1.1 R",
    "ENDED A.1.1 SS$_NORMAL",
    "SS$_NORMAL",
];

const DONE: &[&str] = &[
    "COMMIT A.1.1 A.1.1 \"17-NOV-1858 00:00:00.01\"",
    "ENDED A.1.1 SS$_NORMAL",
    "SS$_NORMAL",
];

const VETOED: &[&str] = &[
    "ABORT A.1.1 A.1.1 DDTM$_VETOED \"17-NOV-1858 00:00:00.01\"",
    "ENDED A.1.1 SS$_ABORT DDTM$_VETOED",
    "SS$_NORMAL",
];

const FORGOTTEN: &[&str] = &["FORGOT A.1.1 A.1.1", "SS$_NORMAL"];

const KEPT: &[&str] = &["SS$_NORMAL"];

const NOTED: &[&str] = &["SS$_NORMAL"];

const VETOED_BEFORE_THE_OTHER: &[&str] = &[
    "ABORT A.1.1 A.1.1 DDTM$_VETOED \"17-NOV-1858 00:00:00.01\"",
    "EVENT ABORT A.1.1 A.1.1 S",
    "ENDED A.1.1 SS$_ABORT DDTM$_VETOED",
    "SS$_NORMAL",
];

// How a branch, a manager or its event stands, and what each reply of R shows then, in the order above.
const STATES: [(&str, [&[&str]; 5]); 11] = [
    // R is not declared.
    ("A: START_TRANS T\n", [NO_MANAGER; 5]),
    // It has not joined.
    ("A: DECLARE_RM R\nA: START_TRANS T\n", [NO_MANAGER; 5]),
    // The transaction is active: no event waits.
    (
        "A: DECLARE_RM R\nA: START_TRANS T\nA: JOIN_RM T R\nA: PUT T F 1 \"a\"\n",
        [WRONG; 5],
    ),
    // PREPARE waits.
    (
        "A: DECLARE_RM R\nA: START_TRANS T\nA: JOIN_RM T R\nA: PUT T F 1 \"a\"\nA: END_TRANS T\n",
        [OWED, DONE, VETOED, WRONG, WRONG],
    ),
    // ONEPHASE waits.
    (
        "A: DECLARE_RM R\nA: START_TRANS T\nA: JOIN_RM T R\nA: END_TRANS T\n",
        [OWED, WRONG, VETOED, WRONG, DONE],
    ),
    // PREPARE waits for another manager too.
    (
        "A: DECLARE_RM R\nA: DECLARE_RM S\nA: START_TRANS T\nA: JOIN_RM T R\nA: JOIN_RM T S\nA: END_TRANS T\n",
        [NOTED, NOTED, VETOED_BEFORE_THE_OTHER, WRONG, WRONG],
    ),
    // R has replied to PREPARE, and another manager has not.
    (
        "A: DECLARE_RM R\nA: DECLARE_RM S\nA: START_TRANS T\nA: JOIN_RM T R\nA: JOIN_RM T S\nA: END_TRANS T\nA: ACK_EVENT T R SS$_PREPARED\n",
        [WRONG; 5],
    ),
    // COMMIT waits: the committed record is there.
    (
        "A: DECLARE_RM R\nA: START_TRANS T\nA: JOIN_RM T R\nA: PUT T F 1 \"a\"\nA: END_TRANS T\nA: ACK_EVENT T R SS$_PREPARED\n",
        [WRONG, FORGOTTEN, WRONG, KEPT, WRONG],
    ),
    // The record waits for another manager alone.
    (
        "A: DECLARE_RM R\nA: DECLARE_RM S\nA: START_TRANS T\nA: JOIN_RM T R\nA: JOIN_RM T S\nA: END_TRANS T\nA: ACK_EVENT T R SS$_FORGET\nA: ACK_EVENT T S SS$_PREPARED\n",
        [NO_MANAGER; 5],
    ),
    // The record is gone.
    (
        "A: DECLARE_RM R\nA: START_TRANS T\nA: JOIN_RM T R\nA: PUT T F 1 \"a\"\nA: END_TRANS T\nA: ACK_EVENT T R SS$_PREPARED\nA: ACK_EVENT T R SS$_FORGET\n",
        [NO_BRANCH; 5],
    ),
    // The transaction is aborted: ABORT waits for no reply.
    (
        "A: DECLARE_RM R\nA: START_TRANS T\nA: JOIN_RM T R\nA: ABORT_TRANS T\n",
        [NO_BRANCH; 5],
    ),
];

// What the node A shows for a script; the plain program shows the same.
fn shown(alloc: Global, script: &[u8]) -> Result<Vec<u8>, Fail> {
    same_by_one(alloc, script, 200_000)
}

// How many lines a script has.
pub(crate) fn count_lines(script: &[u8]) -> usize {
    script.iter().filter(|byte| **byte == b'\n').count()
}

// How often a part stands in a text.
pub(crate) fn count_parts(text: &[u8], part: &[u8]) -> usize {
    if part.is_empty() {
        return 0;
    }
    text.windows(part.len())
        .filter(|window| *window == part)
        .count()
}

// These lines, with the number of a script's line before each.
pub(crate) fn numbered(alloc: Global, number: usize, lines: &[&str]) -> Result<Vec<u8>, Fail> {
    let mut text = Vec::new(alloc);
    for line in lines {
        text.extend_from_slice(format!(in alloc; "{number} {line}\n")?.as_bytes())?;
    }
    Ok(text)
}

// In this state the reply shows just these lines.
fn replies(
    rt: &impl Abort,
    alloc: Global,
    state: &str,
    reply: &str,
    want: &[&str],
) -> Result<(), Fail> {
    let last = format!(in alloc; "A: ACK_EVENT T R {reply}\n")?;
    let mut script = VOLUME.0.to_vec(alloc)?;
    script.extend_from_slice(state.as_bytes())?;
    script.extend_from_slice(last.as_bytes())?;
    let text = shown(alloc, &script)?;
    let number = count_lines(&script);
    let behind = numbered(alloc, number, want)?;
    assert!(rt; text.ends_with(&behind), "{reply} behind {state}");
    let before = number.saturating_sub(1);
    let first = format!(in alloc; "\n{before} ")?;
    let last = format!(in alloc; "\n{number} ")?;
    assert!(rt; has(&text, first.as_bytes()));
    assert_eq!(rt;
        count_parts(&text, last.as_bytes()),
        want.len(),
        "{reply} behind {state}"
    );
    Ok(())
}

#[test]
fn each_reply_to_each_event_in_each_state_shows_its_lines(rt: HostRuntime) -> Result<(), Fail> {
    for (state, wants) in STATES {
        for at in 0..5usize {
            replies(&rt, rt.alloc(), state, REPLIES[at], wants[at])?;
        }
    }
    Ok(())
}

// A line for each of these numbers, between two texts.
fn add_numbered(
    alloc: Global,
    lines: &mut Vec<u8>,
    front: &str,
    from: u32,
    to: u32,
) -> Result<(), Fail> {
    for n in from..to {
        lines.extend_from_slice(format!(in alloc; "{front}{n}\n")?.as_bytes())?;
    }
    Ok(())
}

// 64 managers are declared and no more, until one is forgotten; a boot declares none.
#[test]
fn a_node_has_64_managers(rt: HostRuntime) -> Result<(), Fail> {
    let mut script = VOLUME.0.to_vec(rt.alloc())?;
    add_numbered(rt.alloc(), &mut script, "A: DECLARE_RM R", 1, 66)?;
    script.extend_from_slice(
        b"A: DECLARE_RM R64\nA: FORGET_RM R65\nA: FORGET_RM R7\nA: FORGET_RM R7\nA: DECLARE_RM R65\nA: DECLARE_RM R7\nCRASH A\nA: BOOT\nA: FORGET_RM R1\nA: DECLARE_RM R1\n",
    )?;
    let text = shown(rt.alloc(), &script)?;
    assert!(rt;
        text.ends_with(
            b"\n68 SS$_NORMAL\n69 SS$_EXQUOTA DECLARED 64\n70 SS$_WRONGSTATE\n71 SS$_NOSUCHRM\n72 SS$_NORMAL\n73 SS$_NOSUCHRM\n74 SS$_NORMAL\n75 SS$_EXQUOTA DECLARED 64\n76 DOWN A CRASH\n76 SS$_NORMAL\n77 SS$_NORMAL 2\n78 SS$_NOSUCHRM\n79 SS$_NORMAL\n"
        )
    );
    Ok(())
}

// Eight managers join a branch, and the ninth does not. Each is asked once, in the order of joining, and they commit together.
#[test]
fn a_branch_has_eight_managers(rt: HostRuntime) -> Result<(), Fail> {
    let alloc = rt.alloc();
    let mut script = VOLUME.0.to_vec(alloc)?;
    add_numbered(alloc, &mut script, "A: DECLARE_RM R", 1, 10)?;
    script.extend_from_slice(b"A: START_TRANS T\n")?;
    add_numbered(alloc, &mut script, "A: JOIN_RM T R", 1, 10)?;
    script.extend_from_slice(
        b"A: JOIN_RM T R8\nA: FORGET_RM R8\nA: FORGET_RM R9\nA: JOIN_RM T R9\nA: END_TRANS T\n",
    )?;
    for n in 1..9u32 {
        script.extend_from_slice(format!(in alloc;
            "A: ACK_EVENT T R{n} SS$_PREPARED\n"
        )?.as_bytes())?;
    }
    script.extend_from_slice(b"A: LMCP DUMP\n")?;
    for n in 1..9u32 {
        script.extend_from_slice(format!(in alloc;
            "A: ACK_EVENT T R{n} SS$_FORGET\n"
        )?.as_bytes())?;
    }
    let text = shown(alloc, &script)?;
    assert!(rt;
        has(
            &text,
            b"\n22 SS$_NORMAL\n23 SS$_EXQUOTA RMS 8\n24 SS$_WRONGSTATE\n25 SS$_WRONGSTATE\n26 SS$_NORMAL\n27 SS$_NOSUCHRM\n28 EVENT PREPARE A.1.1 A.1.1 R1\n28 EVENT PREPARE A.1.1 A.1.1 R2\n28 EVENT PREPARE A.1.1 A.1.1 R3\n28 EVENT PREPARE A.1.1 A.1.1 R4\n28 EVENT PREPARE A.1.1 A.1.1 R5\n28 EVENT PREPARE A.1.1 A.1.1 R6\n28 EVENT PREPARE A.1.1 A.1.1 R7\n28 EVENT PREPARE A.1.1 A.1.1 R8\n28 PENDING R1,R2,R3,R4,R5,R6,R7,R8\n29 SS$_NORMAL\n"
        )
    );
    assert!(rt;
        has(
            &text,
            b"\n37 LOG 0 COMMITTED A.1.1 A.1.1 - R1,R2,R3,R4,R5,R6,R7,R8\n37 SS$_NORMAL 1\n"
        )
    );
    assert!(rt; text.ends_with(b"\n44 SS$_NORMAL\n45 FORGOT A.1.1 A.1.1\n45 SS$_NORMAL\n"));
    Ok(())
}

// So many blocks the node does not write for the commitment: a group of four blocks takes 11 writes.
const WRITES: u32 = 12;

// The node's disk is stopped after so many writes of the commitment. The node boots again: it has the record of the file just where its log has the committed
// record that waits for the manager, and both where the commitment was told; the manager is told of it just then.
fn stops(rt: &impl Abort, alloc: Global, writes: u32, choice: u64) -> Result<(), Fail> {
    let fuse = format!(in alloc; "FUSE A {writes} {choice}\n")?;
    let later = format!(in alloc; "FUSE A 4294967295 {choice}\n")?;
    let script = joined(
        alloc,
        &[
            VOLUME.0,
            JOINED.0,
            ASKED.0,
            fuse.as_bytes(),
            PREPARED.0,
            later.as_bytes(),
            b"CRASH A\nA: BOOT\nA: LMCP DUMP\nA: DUMP F\nA: DECLARE_RM R\nA: LMCP SHOW\n",
        ],
    )?;
    let text = shown_by_one(alloc, &script, 20_000)?;
    let is_there = has(
        &text,
        b"\n15 LOG 0 COMMITTED A.1.1 A.1.1 - R\n15 SS$_NORMAL 1\n",
    );
    assert_eq!(rt;
        has(&text, b"\n16 RECORD 1 \"a\"\n16 SS$_NORMAL 1\n"),
        is_there,
        "{writes} {choice}"
    );
    assert_eq!(rt;
        has(
            &text,
            b"\n17 EVENT COMMIT A.1.1 A.1.1 R\n17 SS$_NORMAL\n18 SS$_NORMAL 1 0 127\n"
        ),
        is_there,
        "{writes} {choice}"
    );
    assert_eq!(rt;
        has(&text, b"\n17 SS$_NORMAL\n18 SS$_NORMAL 0 0 128\n")
            && has(&text, b"\n15 SS$_NORMAL 0\n16 SS$_NORMAL 0\n"),
        !is_there,
        "{writes} {choice}"
    );
    assert!(rt;
        is_there || !has(&text, b"\n11 COMMIT A.1.1 A.1.1 "),
        "{writes} {choice}"
    );
    assert!(rt; writes < WRITES || !has(&text, b" STOPPED\n"), "{choice}");
    Ok(())
}

#[test]
fn a_stop_within_each_write_of_a_commitment_leaves_what_is_owed(
    rt: HostRuntime,
) -> Result<(), Fail> {
    for writes in 0..WRITES + 1 {
        for choice in 0..6u64 {
            stops(&rt, rt.alloc(), writes, choice)?;
        }
    }
    Ok(())
}

// A branch at another node has put a record and waits for its manager's reply to PREPARE.
const VOTING: &[u8] =
    b"A: INIT\nB: INIT\nA: BOOT\nB: BOOT\nB: CREATE G REL 1 100 10\nB: SET_FILE G RU\nA: START_TRANS T\nA: ADD_BRANCH T B U\nB: START_BRANCH U\nDELIVER 1\nDELIVER 2\nB: DECLARE_RM R\nB: JOIN_RM U R\nB: PUT U G 1 \"b\"\nB: END_BRANCH U\nA: END_TRANS T\nDELIVER 3\n";

// The disk of its node is stopped after so many writes of the vote. Just where the log has the prepared record a boot finds the branch prepared, with its manager,
// and so it is where the vote was told. A settling aborts it, tells the manager that just then, and leaves nothing of it.
fn stops_voting(rt: &impl Abort, alloc: Global, writes: u32, choice: u64) -> Result<(), Fail> {
    let fuse = format!(in alloc; "FUSE B {writes} {choice}\n")?;
    let later = format!(in alloc; "FUSE B 4294967295 {choice}\n")?;
    let script = joined(
        alloc,
        &[
            VOTING,
            fuse.as_bytes(),
            b"B: ACK_EVENT U R SS$_PREPARED\n",
            later.as_bytes(),
            b"CRASH B\nB: BOOT\nB: LMCP DUMP\nB: DECLARE_RM R\nSETTLE\nB: DUMP G\nB: LMCP SHOW\n",
        ],
    )?;
    let text = shown_by_pair(alloc, &script, 20_000)?;
    let is_prepared = has(
        &text,
        b"\n23 LOG 0 PREPARED A.1.1 B.1.1 R\n23 SS$_NORMAL 1\n",
    );
    assert_eq!(rt;
        has(&text, b"\n22 PREPARED A.1.1 B.1.1\n"),
        is_prepared,
        "{writes} {choice}"
    );
    assert_eq!(rt;
        has(&text, b"\n25 EVENT ABORT A.1.1 B.1.1 R\n"),
        is_prepared,
        "{writes} {choice}"
    );
    assert!(rt;
        is_prepared
            || has(&text, b"\n23 SS$_NORMAL 0\n") && !has(&text, b"\n19 PREPARED A.1.1 B.1.1\n"),
        "{writes} {choice}"
    );
    assert!(rt;
        has(
            &text,
            b"\n25 SS$_NORMAL\n26 SS$_NORMAL 0\n27 SS$_NORMAL 0 0 128\n"
        ),
        "{writes} {choice}"
    );
    Ok(())
}

#[test]
fn a_stop_within_each_write_of_a_vote_leaves_it_whole_or_undone(
    rt: HostRuntime,
) -> Result<(), Fail> {
    for writes in 0..WRITES + 1 {
        for choice in 0..6u64 {
            stops_voting(&rt, rt.alloc(), writes, choice)?;
        }
    }
    Ok(())
}

// Managers at each of three nodes.
const DECLARED: &[u8] =
    b"A: DECLARE_RM R0\nB: DECLARE_RM R0\nC: DECLARE_RM R0\nA: DECLARE_RM R1\nB: DECLARE_RM R1\nC: DECLARE_RM R1\n";

// A statement on a manager, of a transaction of a low number or of a branch of it.
fn of_manager(alloc: Global, draws: &mut Draws, step: u32) -> Result<String, Fail> {
    let t = (step / 24).saturating_sub(draws.below(3));
    let rm = draws.below(3);
    let home = NAMES[(t % 3) as usize];
    let at = NAMES[((t % 3 + 1 + draws.below(2)) % 3) as usize];
    let reply = REPLIES[(draws.draw() % 5) as usize];
    let (node, label) = if draws.draw() % 2 == 0 {
        (home, format!(in alloc; "T{t}")?)
    } else {
        (at, format!(in alloc; "U{t}{at}")?)
    };
    Ok(match draws.draw() % 16 {
        0 => format!(in alloc; "{node}: DECLARE_RM R{rm}\n")?,
        1..=5 => format!(in alloc; "{node}: JOIN_RM {label} R{rm}\n")?,
        6..=11 => format!(in alloc; "{node}: ACK_EVENT {label} R{rm} {reply}\n")?,
        12 => format!(in alloc; "{node}: FORGET_RM R{rm}\n")?,
        13 => format!(in alloc; "{node}: GETDTI {label}\n")?,
        14 => format!(in alloc; "{node}: LMCP SHOW\n")?,
        _ => format!(in alloc; "{node}: LMCP DUMP\n")?,
    })
}

fn random_script(alloc: Global, first: u64, steps: u32) -> Result<Vec<u8>, Fail> {
    let mut draws = Draws { state: first };
    let mut script = joined(alloc, &[OPENING, DECLARED])?;
    for step in 0..steps {
        let line = match draws.draw() % 16 {
            0..=4 => of_transaction(alloc, &mut draws, step)?,
            5..=9 => of_message(alloc, &mut draws, step)?,
            10..=14 => of_manager(alloc, &mut draws, step)?,
            _ => of_world(alloc, &mut draws, step)?,
        };
        script.extend_from_slice(line.as_bytes())?;
    }
    Ok(script)
}

#[test]
fn random_scripts_with_managers_show_what_the_plain_program_shows(
    rt: HostRuntime,
) -> Result<(), Fail> {
    for first in 11..15u64 {
        let script = random_script(rt.alloc(), first, 400)?;
        show_the_same(rt.alloc(), &script)?;
    }
    Ok(())
}

// Managers at the coordinator and at another node: both are asked, both are told, and each record waits for its own.
#[test]
fn managers_of_two_nodes_commit_together(rt: HostRuntime) -> Result<(), Fail> {
    show_the_same(
        rt.alloc(),
        &joined(
            rt.alloc(),
            &[
                OPENING,
                DECLARED,
                b"A: START_TRANS T\nA: ADD_BRANCH T B U\nB: START_BRANCH U\nB: JOIN_RM U R0\nDELIVER 1\nDELIVER 2\nA: JOIN_RM T R0\nB: JOIN_RM U R0\nB: JOIN_RM U R1\nA: PUT T F 1 \"a\"\nB: PUT U F 1 \"b\"\nB: END_BRANCH U\nB: JOIN_RM U R0\nA: END_TRANS T\nA: JOIN_RM T R1\nDELIVER 3\nB: GETDTI U\nB: ACK_EVENT U R0 SS$_PREPARED\nB: GETDTI U\nB: ACK_EVENT U R1 SS$_PREPARED\nB: GETDTI U\nB: LMCP DUMP\nA: ACK_EVENT T R0 SS$_PREPARED\nDELIVER 4\nA: LMCP DUMP\nCRASH B\nB: BOOT\nB: DECLARE_RM R1\nB: JOIN_RM U R1\nDELIVER 5\nB: LMCP DUMP\nB: ACK_EVENT U R1 SS$_FORGET\nB: ACK_EVENT U R0 SS$_FORGET\nB: DECLARE_RM R0\nB: ACK_EVENT U R0 SS$_FORGET\nDELIVER 6\nA: ACK_EVENT T R0 SS$_REMEMBER\nA: ACK_EVENT T R0 SS$_FORGET\nA: LMCP SHOW\nB: LMCP SHOW\nSETTLE\n",
            ],
        )?,
    )
}
