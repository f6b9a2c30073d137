//! A transaction of two nodes whose messages are lost, doubled or late, one of eight nodes, an abort of a prepared branch that is stopped at each of its writes,
//! and the last message that gets a number.
use reference_run::Place;
use std::alloc::Global;
use std::process::Abort;
use std::test::Fail;
use test_scripts::racks::{
    BLOCKS, place, plain, rack_of, same_by_pair, shown_by, shown_by_one, shown_by_pair, with_node,
    zeros,
};
use test_scripts::texts::{filled, has, joined};

// A volume with a file at each of two nodes, and a transaction that is to have a branch at B.
const BEGUN: &[u8] =
    b"A: INIT\nB: INIT\nA: BOOT\nB: BOOT\nA: CREATE F REL 1 100 10\nB: CREATE G REL 1 100 10\nA: SET_FILE F RU\nB: SET_FILE G RU\nA: START_TRANS T\nA: ADD_BRANCH T B U\nB: START_BRANCH U\n";

const PUT: &[u8] = b"A: PUT T F 1 \"a\"\nB: PUT U G 1 \"b\"\nB: END_BRANCH U\nA: END_TRANS T\n";

// So many deliveries of a message.
fn deliver(alloc: Global, script: &mut Vec<u8>, number: u32, times: u32) -> Result<(), Fail> {
    let line = format!(in alloc; "DELIVER {number}\n")?;
    for _ in 0..times {
        script.extend_from_slice(line.as_bytes())?;
    }
    Ok(())
}

// The messages of these numbers come once each, but for one, which comes so often.
fn deliver_all(
    alloc: Global,
    script: &mut Vec<u8>,
    from: u32,
    to: u32,
    which: u32,
    times: u32,
) -> Result<(), Fail> {
    for number in from..to {
        deliver(
            alloc,
            script,
            number,
            if number == which { times } else { 1 },
        )?;
    }
    Ok(())
}

// How often a message comes: in its turn, behind all others, and behind a settling.
const MANNERS: [(u32, u32, u32); 4] = [(0, 0, 0), (2, 0, 0), (0, 1, 0), (0, 0, 1)];

// One message of a transaction comes so, of which so many come before the settling. Both nodes have its records then, or none has; and the run shows what the
// plain program shows.
fn ends_alike(
    rt: &impl Abort,
    alloc: Global,
    last: u32,
    which: u32,
    manner: (u32, u32, u32),
) -> Result<(), Fail> {
    let (soon, late, later) = manner;
    let mut script = BEGUN.to_vec(alloc)?;
    deliver_all(alloc, &mut script, 1, 3, which, soon)?;
    script.extend_from_slice(PUT)?;
    deliver_all(alloc, &mut script, 3, last, which, soon)?;
    deliver(alloc, &mut script, which, late)?;
    script.extend_from_slice(b"SETTLE\n")?;
    deliver(alloc, &mut script, which, later)?;
    script.extend_from_slice(b"SETTLE\nA: DUMP F\nB: DUMP G\n")?;
    let text = same_by_pair(alloc, &script, 20_000)?;
    let is_committed = has(&text, b" COMMIT A.1.1 A.1.1 ");
    assert_eq!(rt;
        has(&text, b" RECORD 1 \"a\"\n"),
        is_committed,
        "{last} {which}"
    );
    assert_eq!(rt;
        has(&text, b" RECORD 1 \"b\"\n"),
        is_committed,
        "{last} {which}"
    );
    Ok(())
}

// To the end by its six messages, and by four of them and a settling that asks.
#[test]
fn a_message_that_is_lost_doubled_or_late_ends_a_pair_alike(rt: HostRuntime) -> Result<(), Fail> {
    for last in [7u32, 5] {
        for which in 1..7u32 {
            for manner in MANNERS {
                ends_alike(&rt, rt.alloc(), last, which, manner)?;
            }
        }
    }
    Ok(())
}

// A line for each of these numbers, with the number at two places.
fn numbered(
    alloc: Global,
    script: &mut Vec<u8>,
    front: &str,
    to: u32,
    between: &str,
    behind: &str,
) -> Result<(), Fail> {
    for n in 1..to {
        let line = format!(in alloc; "{front}{n}{between}{n}{behind}\n")?;
        script.extend_from_slice(line.as_bytes())?;
    }
    Ok(())
}

// At B a branch has taken all 30 records of a full sequential file away and changed 40 of a relative one, and is prepared; its transaction is aborted at A. To
// set all that back takes three groups, and the sequential file is whole again behind the second.
fn prepared(alloc: Global) -> Result<Vec<u8>, Fail> {
    let mut script =
        b"A: INIT 64 64\nB: INIT 64 64\nA: BOOT\nB: BOOT\nB: CREATE S SEQ 1 480 1\nB: CREATE R REL 1 20 40\nB: SET_FILE S RU\nB: SET_FILE R RU\nB: START_TRANS L\n".to_vec(
            alloc,
        )?;
    for n in 1..31u32 {
        let line = format!(in alloc; "B: PUT L S \"s{n}\"\n")?;
        script.extend_from_slice(line.as_bytes())?;
    }
    numbered(alloc, &mut script, "B: PUT L R ", 41, " \"r", "\"")?;
    script.extend_from_slice(
        b"B: END_TRANS L\nA: START_TRANS T\nA: ADD_BRANCH T B U\nB: START_BRANCH U\nDELIVER 1\nDELIVER 2\nB: TRUNCATE U S 1\n",
    )?;
    numbered(alloc, &mut script, "B: UPDATE U R ", 41, " \"x", "\"")?;
    script.extend_from_slice(b"B: END_BRANCH U\nA: END_TRANS T\nDELIVER 3\nA: ABORT_TRANS T\n")?;
    Ok(script)
}

// The abort comes, and B is booted where it fell. Another branch reads, and puts records at the end, of which the second has no room; then the abort comes
// again.
const REACHING: &[u8] =
    b"DELIVER 5\nB: BOOT\nB: START_TRANS M\nB: NEXT M S\nB: PUT M S \"m\"\nB: PUT M S \"{400}\"\nB: END_TRANS M\nDELIVER 5\nSETTLE\nSETTLE\nB: DUMP S\nB: DUMP R\n";

// What the dumps show: the records from before the branch, and the one that the other branch has put, where it could.
fn dumped(alloc: Global, has_put: bool) -> Result<Vec<u8>, Fail> {
    let mut text = Vec::new(alloc);
    numbered(alloc, &mut text, "142 RECORD ", 31, " \"s", "\"")?;
    if has_put {
        text.extend_from_slice(b"142 RECORD 31 \"m\"\n142 SS$_NORMAL 31\n")?;
    } else {
        text.extend_from_slice(b"142 SS$_NORMAL 30\n")?;
    }
    numbered(alloc, &mut text, "143 RECORD ", 41, " \"r", "\"")?;
    text.extend_from_slice(b"143 SS$_NORMAL 40\n")?;
    Ok(text)
}

// How far an abort had come that was stopped, as the other branch saw it.
#[derive(Clone, Copy, Debug, PartialEq, Eq, Drop)]
enum Way {
    // It was not stopped.
    Whole,
    // The end of the file was held still.
    Held,
    // The end was free already, and the abort was not done yet.
    Free,
    // It was done.
    Done,
}

// The abort is stopped after so many writes.
fn aborted(rt: &impl Abort, alloc: Global, writes: u32, choice: u64) -> Result<Way, Fail> {
    let before = prepared(alloc)?;
    let fuse = format!(in alloc; "FUSE B {writes} {choice}\n")?;
    let reaching = filled(alloc, REACHING)?;
    let script = joined(
        alloc,
        &[before.as_slice(), fuse.as_bytes(), reaching.as_slice()],
    )?;
    let text = shown_by_pair(alloc, &script, 100_000)?;
    if !has(&text, b"\n132 DOWN B STOPPED\n132 STOPPED\n") {
        return Ok(Way::Whole);
    }
    let has_put = has(&text, b"\n136 RMS$_NORMAL 31\n");
    let goes_on = has(&text, b"\n139 ABORT A.1.1 B.1.2 DDTM$_ABORTED ");
    let way = match (has_put, goes_on) {
        (false, _) => Way::Held,
        (true, true) => Way::Free,
        (true, false) => Way::Done,
    };
    let (next, put): (&[u8], &[u8]) = match way {
        Way::Done => (
            b"\n135 RMS$_NORMAL 1 \"s1\"\n",
            b"\n137 RMS$_FUL FILE 0 1\n",
        ),
        Way::Free => (b"\n135 RMS$_RLK B.1.2\n", b"\n137 RMS$_FUL FILE 0 1\n"),
        _ if has(&text, b"\n135 RMS$_EOF\n") => {
            (
                b"\n135 RMS$_EOF\n",
                b"\n136 RMS$_RLK B.1.2\n137 RMS$_RLK B.1.2\n",
            )
        }
        _ => (
            b"\n135 RMS$_RLK B.1.2\n",
            b"\n136 RMS$_RLK B.1.2\n137 RMS$_RLK B.1.2\n",
        ),
    };
    assert!(rt; has(&text, next), "{writes} {choice}");
    assert!(rt; has(&text, put), "{writes} {choice}");
    assert!(rt;
        has(&text, b" ABORT A.1.1 B.1.2 DDTM$_ABORTED "),
        "{writes} {choice}"
    );
    assert!(rt;
        text.ends_with(&dumped(alloc, has_put)?),
        "{writes} {choice}"
    );
    Ok(way)
}

// The abort is stopped at each of its writes. Whether this way was seen.
fn is_seen(rt: &impl Abort, alloc: Global, choice: u64, way: Way) -> Result<bool, Fail> {
    let mut seen = false;
    for writes in 0..100u32 {
        let found = aborted(rt, alloc, writes, choice)?;
        if found == Way::Whole {
            return Ok(seen);
        }
        if found == way {
            seen = true;
        }
    }
    Err(Fail::from("it is stopped, however late"))
}

#[test]
fn an_abort_of_a_prepared_branch_goes_on_behind_each_stop(rt: HostRuntime) -> Result<(), Fail> {
    for (choice, way) in [
        (0u64, Way::Held),
        (5, Way::Free),
        (10, Way::Done),
        (15, Way::Free),
    ] {
        assert!(rt; is_seen(&rt, rt.alloc(), choice, way)?, "{choice}");
    }
    Ok(())
}

// A transaction of the node A with fifteen branches there, whose requests to join have these numbers and are delivered; then its END_TRANS.
fn fifteen_joined(
    alloc: Global,
    script: &mut Vec<u8>,
    label: &str,
    first: u32,
    behind: u32,
) -> Result<(), Fail> {
    script.extend_from_slice(format!(in alloc; "A: START_TRANS {label}\n")?.as_bytes())?;
    for n in 1..16u32 {
        script.extend_from_slice(format!(in alloc;
            "A: ADD_BRANCH {label} A {label}{n}\n"
        )?.as_bytes())?;
    }
    for n in 1..16u32 {
        script.extend_from_slice(format!(in alloc; "A: START_BRANCH {label}{n}\n")?.as_bytes())?;
    }
    for number in first..behind {
        deliver(alloc, script, number, 1)?;
    }
    script.extend_from_slice(format!(in alloc; "A: END_TRANS {label}\n")?.as_bytes())?;
    Ok(())
}

// 97 lines send 105 messages. Behind them each DELIVER of the first message, a request to join that was granted, sends the answer again: that of line 999,992 is
// message 1,000,000, and the next one gets no number. A script has 1,000,000 lines.
#[test]
fn a_run_numbers_a_million_messages(rt: HostRuntime) -> Result<(), Fail> {
    let alloc = rt.alloc();
    let mut script = b"A: INIT\nA: BOOT\n".to_vec(alloc)?;
    fifteen_joined(alloc, &mut script, "T", 1, 16)?;
    fifteen_joined(alloc, &mut script, "S", 46, 61)?;
    script.extend_from_slice(b"A: ABORT_TRANS S\n")?;
    deliver(alloc, &mut script, 1, 999_896)?;
    script.extend_from_slice(b"DELIVER 1000001\nDELIVER 1000000\n")?;
    let text = shown_by_one(alloc, &script, 80_000_000)?;
    assert!(rt;
        text.ends_with(
            b"\n999992 SENT 1000000 A A JOINOK A.1.1 A.1.17\n999992 SS$_NORMAL\n999993 UNSENT A A JOINOK A.1.1 A.1.17\n999993 SS$_NORMAL\n999994 NOSUCHMSG\n999995 STARTED A.1.1 A.1.17\n999995 SS$_NORMAL\n"
        )
    );
    Ok(())
}

// The branches of a transaction of A, at seven other nodes.
const OTHERS: [&str; 7] = ["B", "C", "D", "E", "F", "G", "H"];

// Each of eight nodes has a file, and each has put a record for the transaction, which is ended. The branches' requests to join are the messages 1 to 7, their
// answers 8 to 14, and the questions for their votes 15 to 21.
fn eight_asked(alloc: Global) -> Result<Vec<u8>, Fail> {
    let mut script = b"A: INIT 64 64\n".to_vec(alloc)?;
    for node in OTHERS {
        script.extend_from_slice(format!(in alloc; "{node}: INIT 64 64\n")?.as_bytes())?;
    }
    script.extend_from_slice(
        b"SETTLE\nA: CREATE F REL 1 100 10\nA: SET_FILE F RU\nA: START_TRANS T\n",
    )?;
    for node in OTHERS {
        let lines = format!(in alloc;
            "{node}: CREATE F REL 1 100 10\n{node}: SET_FILE F RU\nA: ADD_BRANCH T {node} U{node}\n{node}: START_BRANCH U{node}\n"
        )?;
        script.extend_from_slice(lines.as_bytes())?;
    }
    deliver_all(alloc, &mut script, 1, 15, 0, 1)?;
    script.extend_from_slice(b"A: PUT T F 1 \"r\"\n")?;
    for node in OTHERS {
        let lines = format!(in alloc;
            "{node}: PUT U{node} F 1 \"r\"\n{node}: END_BRANCH U{node}\n"
        )?;
        script.extend_from_slice(lines.as_bytes())?;
    }
    script.extend_from_slice(b"A: END_TRANS T\n")?;
    Ok(script)
}

// The node A and the seven others.
fn eight_places() -> Result<[Place; 8], Fail> {
    Ok([
        place("A", BLOCKS)?,
        place("B", BLOCKS)?,
        place("C", BLOCKS)?,
        place("D", BLOCKS)?,
        place("E", BLOCKS)?,
        place("F", BLOCKS)?,
        place("G", BLOCKS)?,
        place("H", BLOCKS)?,
    ])
}

// With all votes but that of the last node, and with all: settled, all eight nodes have the record or none has; and the run shows what the plain program shows.
#[test]
fn eight_nodes_end_alike(rt: HostRuntime) -> Result<(), Fail> {
    let alloc = rt.alloc();
    for asked in [21u32, 22] {
        let mut script = eight_asked(alloc)?;
        deliver_all(alloc, &mut script, 15, asked, 0, 1)?;
        deliver_all(alloc, &mut script, 22, 29, 0, 1)?;
        script.extend_from_slice(b"CRASH D\nCRASH A\nSETTLE\nSETTLE\nA: DUMP F\n")?;
        for node in OTHERS {
            script.extend_from_slice(format!(in alloc; "{node}: DUMP F\n")?.as_bytes())?;
        }
        let wanted = plain(alloc, &eight_places()?, &script)?;
        let rack = rack_of(
            alloc,
            zeros(alloc, BLOCKS)?,
            zeros(alloc, BLOCKS)?,
            zeros(alloc, BLOCKS)?,
        )?;
        let rack = with_node(rack, "D", zeros(alloc, BLOCKS)?)?;
        let rack = with_node(rack, "E", zeros(alloc, BLOCKS)?)?;
        let rack = with_node(rack, "F", zeros(alloc, BLOCKS)?)?;
        let rack = with_node(rack, "G", zeros(alloc, BLOCKS)?)?;
        let rack = with_node(rack, "H", zeros(alloc, BLOCKS)?)?;
        let names = ["A", "B", "C", "D", "E", "F", "G", "H"];
        let (text, _) = shown_by(alloc, rack, &names, &script, 50_000)?;
        assert_eq!(rt; text, wanted);
        let records = text
            .windows(14)
            .filter(|part| *part == b" RECORD 1 \"r\"\n".as_slice())
            .count();
        assert_eq!(rt; records, if asked == 22 { 8 } else { 0 });
    }
    Ok(())
}
