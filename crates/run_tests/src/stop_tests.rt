//! Statements that are stopped at each of their writes: a boot behind the stop finds each of them whole or undone.
use std::alloc::Global;
use std::process::Abort;
use std::test::Fail;
use test_scripts::Exit;
use test_scripts::one_node::shown;
use test_scripts::texts::{filled, has, joined};

// A statement behind these lines, the blocks of its group, and what the lines behind it show where it was undone and where it is whole.
#[derive(Drop)]
struct Stop<'a> {
    lines: &'a [u8],
    statement: &'a [u8],
    blocks: u8,
    undone: &'a [u8],
    whole: &'a [u8],
    // What else is asked behind the boot.
    asked: &'a [u8],
}

const UNMARKED: &[u8] =
    b"A: CREATE S SEQ 1 400 4\nA: CREATE I IDX 1 200 9 0 2\nA: SET_FILE F NORU\n";

const BOOTING: &[u8] = b"A: DUMP F\nA: BOOT\nA: DUMP F\nA: DUMP S\nA: DUMP I\n";

// The transcript where the statement is stopped after so many writes, the node is booted again, and its files are dumped.
fn stopped(alloc: Global, stop: &Stop<'_>, writes: u32, choice: u64) -> Result<Vec<u8>, Fail> {
    let fuse = format!(in alloc; "FUSE A {writes} {choice}\n")?;
    let lines = joined(
        alloc,
        &[
            UNMARKED,
            stop.lines,
            fuse.as_bytes(),
            stop.statement,
            BOOTING,
            stop.asked,
        ],
    )?;
    shown(alloc, &filled(alloc, &lines)?, Exit::Done)
}

// Stops the statement at each of its writes. It is whole from the write on that opens the gate; a torn gate is open where the first half is new.
fn stops_whole_or_undone(rt: &impl Abort, alloc: Global, stop: &Stop<'_>) -> Result<(), Fail> {
    let undone = filled(alloc, stop.undone)?;
    let whole = filled(alloc, stop.whole)?;
    let gate = u32::from(stop.blocks) + 1;
    let end = 2 * gate + 1;
    for choice in [0u64, 5, 10, 15] {
        for writes in 0..end {
            let text = stopped(alloc, stop, writes, choice)?;
            let is_whole = writes > gate || writes == gate && (choice == 5 || choice == 10);
            let want = if is_whole { &whole } else { &undone };
            let want = joined(alloc, &[b" STOPPED\n", want.as_slice()])?;
            assert!(rt; text.ends_with(&want), "{writes} {choice}");
        }
        assert!(rt; !has(&stopped(alloc, stop, end, choice)?, b"STOPPED"));
    }
    Ok(())
}

#[test]
fn a_stop_leaves_each_statement_whole_or_undone(rt: HostRuntime) -> Result<(), Fail> {
    let table: [Stop<'_>; 6] = [
        Stop {
            lines: b"",
            statement: b"A: PUT - F 1 \"a\"\n",
            blocks: 3,
            undone: b"10 NODEDOWN\n11 SS$_NORMAL 2\n12 SS$_NORMAL 0\n13 SS$_NORMAL 0\n14 SS$_NORMAL 0\n",
            whole: b"10 NODEDOWN\n11 LAST COMMIT A.1.1 A.1.1 \"17-NOV-1858 00:00:00.01\"\n11 SS$_NORMAL 2\n12 RECORD 1 \"a\"\n12 SS$_NORMAL 1\n13 SS$_NORMAL 0\n14 SS$_NORMAL 0\n",
            asked: b"",
        },
        Stop {
            lines: b"A: SET_FILE F RU\nA: START_TRANS T\nA: PUT T F 1 \"a\"\n",
            statement: b"A: END_TRANS T\n",
            blocks: 3,
            undone: b"13 NODEDOWN\n14 ABORT A.1.1 A.1.1 DDTM$_SEG_FAIL \"17-NOV-1858 00:00:00.01\"\n14 SS$_NORMAL 2\n15 SS$_NORMAL 0\n16 SS$_NORMAL 0\n17 SS$_NORMAL 0\n",
            whole: b"13 NODEDOWN\n14 LAST COMMIT A.1.1 A.1.1 \"17-NOV-1858 00:00:00.01\"\n14 SS$_NORMAL 2\n15 RECORD 1 \"a\"\n15 SS$_NORMAL 1\n16 SS$_NORMAL 0\n17 SS$_NORMAL 0\n",
            asked: b"",
        },
        Stop {
            lines: b"A: PUT - S \"a\"\n",
            statement: b"A: PUT - S \"b\"\n",
            blocks: 4,
            undone: b"11 NODEDOWN\n12 LAST COMMIT A.1.1 A.1.1 \"17-NOV-1858 00:00:00.01\"\n12 SS$_NORMAL 2\n13 SS$_NORMAL 0\n14 RECORD 1 \"a\"\n14 SS$_NORMAL 1\n15 SS$_NORMAL 0\n",
            whole: b"11 NODEDOWN\n12 LAST COMMIT A.1.2 A.1.2 \"17-NOV-1858 00:00:00.02\"\n12 SS$_NORMAL 2\n13 SS$_NORMAL 0\n14 RECORD 1 \"a\"\n14 RECORD 2 \"b\"\n14 SS$_NORMAL 2\n15 SS$_NORMAL 0\n",
            asked: b"",
        },
        Stop {
            lines: b"A: PUT - I \"aa{118}\"\nA: PUT - I \"bb{118}\"\nA: PUT - I \"cc{118}\"\nA: PUT - I \"dd{118}\"\n",
            statement: b"A: PUT - I \"ee{118}\"\n",
            blocks: 6,
            undone: b"14 NODEDOWN\n15 LAST COMMIT A.1.4 A.1.4 \"17-NOV-1858 00:00:00.04\"\n15 SS$_NORMAL 2\n16 SS$_NORMAL 0\n17 SS$_NORMAL 0\n18 RECORD \"aa\" \"aa{118}\"\n18 RECORD \"bb\" \"bb{118}\"\n18 RECORD \"cc\" \"cc{118}\"\n18 RECORD \"dd\" \"dd{118}\"\n18 SS$_NORMAL 4\n",
            whole: b"14 NODEDOWN\n15 LAST COMMIT A.1.5 A.1.5 \"17-NOV-1858 00:00:00.05\"\n15 SS$_NORMAL 2\n16 SS$_NORMAL 0\n17 SS$_NORMAL 0\n18 RECORD \"aa\" \"aa{118}\"\n18 RECORD \"bb\" \"bb{118}\"\n18 RECORD \"cc\" \"cc{118}\"\n18 RECORD \"dd\" \"dd{118}\"\n18 RECORD \"ee\" \"ee{118}\"\n18 SS$_NORMAL 5\n",
            asked: b"",
        },
        Stop {
            lines: b"A: PUT - S \"{240}\"\nA: PUT - S \"{240}\"\nA: PUT - S \"{240}\"\n",
            statement: b"A: TRUNCATE - S 2\n",
            blocks: 4,
            undone: b"13 NODEDOWN\n14 LAST COMMIT A.1.3 A.1.3 \"17-NOV-1858 00:00:00.03\"\n14 SS$_NORMAL 2\n15 SS$_NORMAL 0\n16 RECORD 1 \"{240}\"\n16 RECORD 2 \"{240}\"\n16 RECORD 3 \"{240}\"\n16 SS$_NORMAL 3\n17 SS$_NORMAL 0\n",
            whole: b"13 NODEDOWN\n14 LAST COMMIT A.1.4 A.1.4 \"17-NOV-1858 00:00:00.04\"\n14 SS$_NORMAL 2\n15 SS$_NORMAL 0\n16 RECORD 1 \"{240}\"\n16 SS$_NORMAL 1\n17 SS$_NORMAL 0\n",
            asked: b"",
        },
        Stop {
            lines: b"A: SET_FILE F RU\nA: SET_FILE S RU\nA: SET_FILE I RU\nA: START_TRANS T\nA: PUT T F 1 \"a\"\nA: PUT T S \"b\"\nA: PUT T I \"cc1\"\n",
            statement: b"A: ABORT_TRANS T\n",
            blocks: 7,
            undone: b"17 NODEDOWN\n18 ABORT A.1.1 A.1.1 DDTM$_SEG_FAIL \"17-NOV-1858 00:00:00.01\"\n18 SS$_NORMAL 2\n19 SS$_NORMAL 0\n20 SS$_NORMAL 0\n21 SS$_NORMAL 0\n",
            whole: b"17 NODEDOWN\n18 LAST ABORT A.1.1 A.1.1 DDTM$_ABORTED \"17-NOV-1858 00:00:00.01\"\n18 SS$_NORMAL 2\n19 SS$_NORMAL 0\n20 SS$_NORMAL 0\n21 SS$_NORMAL 0\n",
            asked: b"",
        },
    ];
    for stop in &table {
        stops_whole_or_undone(&rt, rt.alloc(), stop)?;
    }
    Ok(())
}

// Lines that put so many records, each of which fills its bucket.
fn put_lines(alloc: Global, records: u32) -> Result<Vec<u8>, Fail> {
    let mut lines = b"A: CREATE J IDX 1 480 99 0 64\n".to_vec(alloc)?;
    for n in 10..records.saturating_add(10) {
        lines.extend_from_slice(format!(in alloc; "A: PUT - J \"{n}{{478}}\"\n")?.as_bytes())?;
    }
    Ok(lines)
}

// The lines that show so many of these records between others.
fn dump_lines(alloc: Global, front: &[u8], records: u32, end: &[u8]) -> Result<Vec<u8>, Fail> {
    let mut lines = front.to_vec(alloc)?;
    for n in 10..records.saturating_add(10) {
        lines.extend_from_slice(format!(in alloc;
            "47 RECORD \"{n}{{62}}\" \"{n}{{478}}\"\n"
        )?.as_bytes())?;
    }
    lines.extend_from_slice(end)?;
    Ok(lines)
}

// 31 leaves stand under seven index buckets and a root. One record more parts a leaf, the last index bucket and the root, so that a level comes in.
#[test]
fn a_stop_leaves_three_levels_parted_or_not(rt: HostRuntime) -> Result<(), Fail> {
    let lines = put_lines(rt.alloc(), 31)?;
    let undone = dump_lines(
        rt.alloc(),
        b"42 NODEDOWN\n43 LAST COMMIT A.1.31 A.1.31 \"17-NOV-1858 00:00:00.31\"\n43 SS$_NORMAL 2\n44 SS$_NORMAL 0\n45 SS$_NORMAL 0\n46 SS$_NORMAL 0\n",
        31,
        b"47 SS$_NORMAL 31\n48 RMS$_NORMAL \"40{478}\"\n49 RMS$_RNF\n",
    )?;
    let whole = dump_lines(
        rt.alloc(),
        b"42 NODEDOWN\n43 LAST COMMIT A.1.32 A.1.32 \"17-NOV-1858 00:00:00.32\"\n43 SS$_NORMAL 2\n44 SS$_NORMAL 0\n45 SS$_NORMAL 0\n46 SS$_NORMAL 0\n",
        32,
        b"47 SS$_NORMAL 32\n48 RMS$_NORMAL \"40{478}\"\n49 RMS$_NORMAL \"41{478}\"\n",
    )?;
    stops_whole_or_undone(
        &rt,
        rt.alloc(),
        &Stop {
            lines: lines.as_slice(),
            statement: b"A: PUT - J \"41{478}\"\n",
            blocks: 10,
            undone: undone.as_slice(),
            whole: whole.as_slice(),
            asked: b"A: DUMP J\nA: GET - J \"40{62}\"\nA: GET - J \"41{62}\"\n",
        },
    )
}
