//! Recoveries of a file that are stopped at each of their writes: a boot behind the stop finds the old file or the new one.
use std::alloc::Global;
use std::process::Abort;
use std::test::Fail;
use test_scripts::Exit;
use test_scripts::one_node::shown;
use test_scripts::texts::{has, joined};

// More writes than any of these recoveries takes.
const MOST: u32 = 400;

// A recovery of a file behind these lines, a dump of the file, and what the dump shows of the old file and of the new one.
#[derive(Drop)]
struct Case<'a> {
    lines: &'a [u8],
    statement: &'a [u8],
    dump: &'a [u8],
    old: &'a [u8],
    new: &'a [u8],
}

// The transcript where the recovery is stopped after so many writes, and the node is booted again.
fn stopped(alloc: Global, case: &Case<'_>, writes: u32, choice: u64) -> Result<Vec<u8>, Fail> {
    let fuse = format!(in alloc; "FUSE A {writes} {choice}\n")?;
    let lines = joined(
        alloc,
        &[
            case.lines,
            fuse.as_bytes(),
            case.statement,
            b"A: BOOT\n",
            case.dump,
        ],
    )?;
    shown(alloc, &lines, Exit::Done)
}

// From one write on the new file is found, and before it the old one: each at some write. A recovery that is not stopped leaves the new file.
fn leaves_the_old_file_or_the_new_one(
    rt: &impl Abort,
    alloc: Global,
    case: &Case<'_>,
    choice: u64,
) -> Result<(), Fail> {
    let (mut olds, mut news) = (0u32, 0u32);
    for writes in 0..MOST {
        let text = stopped(alloc, case, writes, choice)?;
        if !has(&text, b" STOPPED\n") {
            assert!(rt; text.ends_with(case.new));
            assert!(rt; olds > 0 && news > 0);
            return Ok(());
        }
        if text.ends_with(case.new) {
            news = news.saturating_add(1);
        } else {
            assert!(rt; text.ends_with(case.old), "{writes} {choice}");
            assert!(rt; news == 0, "{writes} {choice}");
            olds = olds.saturating_add(1);
        }
    }
    Err(Fail::from("the recovery takes more writes"))
}

fn stops_at_each_write(rt: &impl Abort, alloc: Global, choice: u64) -> Result<(), Fail> {
    let table: [Case<'_>; 3] = [
        Case {
            lines: b"A: CREATE R REL 1 100 10\nA: SET_FILE R AI 8\nA: BACKUP R\nA: PUT - R 1 \"a\"\nA: PUT - R 7 \"b\"\nA: DELETE - R 1\n",
            statement: b"A: RECOVER R FORWARD UNTIL \"17-NOV-1858 00:00:00.02\"\n",
            dump: b"A: DUMP R\n",
            old: b"14 RECORD 7 \"b\"\n14 SS$_NORMAL 1\n",
            new: b"14 RECORD 1 \"a\"\n14 RECORD 7 \"b\"\n14 SS$_NORMAL 2\n",
        },
        Case {
            lines: b"A: CREATE S SEQ 1 100 4\nA: SET_FILE S BI 8\nA: PUT - S \"a\"\nA: PUT - S \"b\"\nA: TRUNCATE - S 1\n",
            statement: b"A: RECOVER S BACKWARD UNTIL \"17-NOV-1858 00:00:00.02\"\n",
            dump: b"A: DUMP S\n",
            old: b"13 SS$_NORMAL 0\n",
            new: b"13 RECORD 1 \"a\"\n13 RECORD 2 \"b\"\n13 SS$_NORMAL 2\n",
        },
        Case {
            lines: b"A: CREATE I IDX 1 40 20 0 2\nA: SET_FILE I AI 8\nA: SET_FILE I BI 8\nA: BACKUP I\nA: PUT - I \"bb1\"\nA: PUT - I \"aa1\"\nA: UPDATE - I \"bb\" \"bb2\"\n",
            statement: b"A: RECOVER I BACKWARD UNTIL \"17-NOV-1858 00:00:00.01\"\n",
            dump: b"A: DUMP I\n",
            old: b"15 RECORD \"aa\" \"aa1\"\n15 RECORD \"bb\" \"bb2\"\n15 SS$_NORMAL 2\n",
            new: b"15 RECORD \"bb\" \"bb1\"\n15 SS$_NORMAL 1\n",
        },
    ];
    for case in &table {
        leaves_the_old_file_or_the_new_one(rt, alloc, case, choice)?;
    }
    Ok(())
}

#[test]
fn a_stop_with_old_blocks_leaves_the_old_file_or_the_new_one(rt: HostRuntime) -> Result<(), Fail> {
    stops_at_each_write(&rt, rt.alloc(), 0)
}

#[test]
fn a_stop_with_torn_blocks_leaves_the_old_file_or_the_new_one(rt: HostRuntime) -> Result<(), Fail> {
    stops_at_each_write(&rt, rt.alloc(), 5)
}

#[test]
fn a_stop_with_other_halves_leaves_the_old_file_or_the_new_one(
    rt: HostRuntime,
) -> Result<(), Fail> {
    stops_at_each_write(&rt, rt.alloc(), 10)
}

#[test]
fn a_stop_with_new_blocks_leaves_the_old_file_or_the_new_one(rt: HostRuntime) -> Result<(), Fail> {
    stops_at_each_write(&rt, rt.alloc(), 15)
}
