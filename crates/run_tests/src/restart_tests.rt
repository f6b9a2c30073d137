//! An image that is booted again, transactions beside each other, a node that falls before they are settled, and stops at each write of it and of
//! its boots.
use block_disk::{CrashDisk, Disk, MemPlatter};
use std::alloc::Global;
use std::process::Abort;
use std::test::Fail;
use test_scripts::Exit;
use test_scripts::one_node::{COMMITTING, OPENING, disk_of, run_on, shown};
use test_scripts::racks::{place, plain, zeros};
use test_scripts::texts::{filled, has, joined};

#[test]
fn an_image_is_booted_again(rt: HostRuntime) -> Result<(), Fail> {
    let disk = zeros(rt.alloc(), 8_192)?;
    let (text, rack) = run_on(
        rt.alloc(),
        disk,
        b"A: BOOT\nA: INIT 63 1024\nA: INIT 512 7096\nA: INIT 512 7095\nA: INIT\n",
    )?;
    assert_eq!(rt;
        text.as_slice(),
        b"1 VOLUME A 1 518\n2 SS$_BADPARAM\n3 SS$_BADPARAM\n4 SS$_NORMAL\n5 SS$_NORMAL\n".as_slice()
    );
    let script = joined(
        rt.alloc(),
        &[
            b"A: BOOT\nA: CREATE F REL 1 100 10\nA: SET_FILE F RU\n",
            COMMITTING,
        ],
    )?;
    let (_, rack) = run_on(rt.alloc(), disk_of(rack)?, &script)?;
    let (text, _) = run_on(rt.alloc(), disk_of(rack)?, b"A: BOOT\nA: DUMP F\n")?;
    assert_eq!(rt;
        text.as_slice(),
        b"1 LAST COMMIT A.1.1 A.1.1 \"17-NOV-1858 00:00:00.01\"\n1 SS$_NORMAL 2\n2 RECORD 1 \"a\"\n2 SS$_NORMAL 1\n".as_slice()
    );
    Ok(())
}

#[test]
fn a_record_stands_where_its_commit_is_told(rt: HostRuntime) -> Result<(), Fail> {
    for choice in [0u64, 5, 10, 15] {
        for writes in 0..19u32 {
            let lines = format!(in rt.alloc();
                "A: START_TRANS T\nFUSE A {writes} {choice}\nA: PUT T F 1 \"a\"\nA: END_TRANS T\nA: BOOT\nA: DUMP F\n"
            )?;
            let text = shown(rt.alloc(), lines.as_bytes(), Exit::Done)?;
            assert_eq!(rt;
                has(&text, b"RECORD 1 "),
                has(&text, b"COMMIT A.1.1 "),
                "{writes} {choice}"
            );
            assert_eq!(rt; has(&text, b"STOPPED"), writes < 18, "{writes} {choice}");
        }
    }
    Ok(())
}

// Records that are committed in a file of each organization, and two transactions that go on in all three.
const FALLING: &[u8] =
    b"A: CREATE S SEQ 1 100 6\nA: SET_FILE S RU\nA: CREATE I IDX 1 200 12 0 2\nA: SET_FILE I RU\nA: START_TRANS T\nA: PUT T F 1 \"a\"\nA: PUT T F 2 \"b\"\nA: PUT T S \"s\"\nA: PUT T S \"t\"\nA: PUT T S \"u\"\nA: PUT T I \"aa{118}\"\nA: PUT T I \"cc{118}\"\nA: PUT T I \"ee{118}\"\nA: END_TRANS T\nA: START_TRANS U\nA: START_TRANS V\nA: UPDATE U F 1 \"aa\"\nA: PUT V F 3 \"c\"\nA: PUT U I \"bb{118}\"\nA: PUT V I \"dd{118}\"\nA: UPDATE U F 1 \"a\"\nA: DELETE U F 2\nA: TRUNCATE U S 2\nA: PUT U S \"v\"\nA: UPDATE U S 1 \"w\"\nA: UPDATE V I \"ee\" \"ee{180}\"\nA: DELETE U I \"aa\"\nA: PUT U I \"ff{118}\"\nA: DELETE V I \"dd\"\nCRASH A\n";

const DUMPING: &[u8] = b"A: BOOT\nA: DUMP F\nA: DUMP S\nA: DUMP I\nA: DUMP_JOURNAL RU\n";

// What the dumps show: the records that were committed, and a journal without entries.
const KEPT: &[u8] =
    b"40 RECORD 1 \"a\"\n40 RECORD 2 \"b\"\n40 SS$_NORMAL 2\n41 RECORD 1 \"s\"\n41 RECORD 2 \"t\"\n41 RECORD 3 \"u\"\n41 SS$_NORMAL 3\n42 RECORD \"aa\" \"aa{118}\"\n42 RECORD \"cc\" \"cc{118}\"\n42 RECORD \"ee\" \"ee{118}\"\n42 SS$_NORMAL 3\n43 SS$_NORMAL 1637 1637\n";

// A boot is stopped after so many writes, and the next one after so many. The one behind these undoes what is left.
fn undone(
    rt: &impl Abort,
    alloc: Global,
    first: u32,
    second: u32,
    choice: u64,
) -> Result<(), Fail> {
    let boots = format!(in alloc;
        "FUSE A {first} {choice}\nA: BOOT\nFUSE A {second} {choice}\nA: BOOT\n"
    )?;
    let lines = joined(alloc, &[FALLING, boots.as_bytes(), DUMPING])?;
    let text = shown(alloc, &filled(alloc, &lines)?, Exit::Done)?;
    assert!(rt;
        text.ends_with(&filled(alloc, KEPT)?),
        "{first} {second} {choice}"
    );
    for line in [
        b"ABORT A.1.2 A.1.2 DDTM$_SEG_FAIL ".as_slice(),
        b"ABORT A.1.3 A.1.3 DDTM$_SEG_FAIL ",
    ] {
        assert!(rt; has(&text, line), "{first} {second} {choice}");
    }
    assert_eq!(rt;
        has(&text, b"\n36 STOPPED\n"),
        first < WRITES,
        "{first} {choice}"
    );
    Ok(())
}

// How many blocks a boot writes that undoes both.
const WRITES: u32 = 39;

#[test]
fn a_boot_that_is_stopped_is_begun_again(rt: HostRuntime) -> Result<(), Fail> {
    for choice in [0u64, 5, 10, 15] {
        for writes in 0..WRITES + 1 {
            undone(&rt, rt.alloc(), writes, 1_000, choice)?;
        }
    }
    Ok(())
}

// A boot is stopped after each number of writes, and the next one after each number.
fn undone_twice(rt: &impl Abort, alloc: Global, choice: u64) -> Result<(), Fail> {
    for first in 0..WRITES + 1 {
        for second in 0..WRITES + 1 {
            undone(rt, alloc, first, second, choice)?;
        }
    }
    Ok(())
}

#[test]
fn a_boot_behind_a_stopped_one_is_stopped_with_old_blocks(rt: HostRuntime) -> Result<(), Fail> {
    undone_twice(&rt, rt.alloc(), 0)
}

#[test]
fn a_boot_behind_a_stopped_one_is_stopped_with_new_blocks(rt: HostRuntime) -> Result<(), Fail> {
    undone_twice(&rt, rt.alloc(), 5)
}

#[test]
fn a_boot_behind_a_stopped_one_is_stopped_with_torn_blocks(rt: HostRuntime) -> Result<(), Fail> {
    undone_twice(&rt, rt.alloc(), 10)
}

#[test]
fn a_boot_behind_a_stopped_one_is_stopped_with_other_bytes(rt: HostRuntime) -> Result<(), Fail> {
    undone_twice(&rt, rt.alloc(), 15)
}

// Two transactions change one indexed file in turn, and part its buckets.
const BESIDE: &[u8] =
    b"A: CREATE I IDX 1 200 14 0 2\nA: SET_FILE I RU\nA: START_TRANS T\nA: PUT T I \"aa{118}\"\nA: PUT T I \"cc{118}\"\nA: PUT T I \"ee{118}\"\nA: PUT T I \"gg{118}\"\nA: END_TRANS T\nA: START_TRANS U\nA: START_TRANS V\nA: PUT U I \"bb{118}\"\nA: PUT V I \"dd{118}\"\nA: UPDATE U I \"aa\" \"aa1\"\nA: DELETE V I \"cc\"\nA: PUT U I \"ff{118}\"\nA: UPDATE V I \"gg\" \"gg{170}\"\nA: DELETE U I \"ee\"\nA: PUT V I \"hh1\"\nA: GET U I \"gg\"\nA: PUT V I \"ee1\"\n";

const BY_FIRST: &[u8] =
    b"27 RECORD \"aa\" \"aa1\"\n27 RECORD \"bb\" \"bb{118}\"\n27 RECORD \"cc\" \"cc{118}\"\n27 RECORD \"ff\" \"ff{118}\"\n27 RECORD \"gg\" \"gg{118}";

const BY_SECOND: &[u8] =
    b"27 RECORD \"aa\" \"aa{118}\"\n27 RECORD \"dd\" \"dd{118}\"\n27 RECORD \"ee\" \"ee{118}\"\n27 RECORD \"gg\" \"gg{170}";

// What is shown where the two end so: these lines, and these records.
fn stays(
    rt: &impl Abort,
    alloc: Global,
    ends: &[u8],
    settled: &[u8],
    kept: &[u8],
    end: &[u8],
) -> Result<(), Fail> {
    let lines = joined(alloc, &[BESIDE, ends])?;
    let text = shown(alloc, &filled(alloc, &lines)?, Exit::Done)?;
    let refused = b"23 RMS$_RLK A.1.3\n24 RMS$_RLK A.1.2\n";
    let want = joined(alloc, &[refused, settled, kept, end])?;
    assert!(rt; text.ends_with(&filled(alloc, &want)?));
    Ok(())
}

#[test]
fn of_two_transactions_one_stays(rt: HostRuntime) -> Result<(), Fail> {
    stays(
        &rt,
        rt.alloc(),
        b"A: ABORT_TRANS U\nA: END_TRANS V\nA: DUMP I\n",
        b"25 ABORT A.1.2 A.1.2 DDTM$_ABORTED \"17-NOV-1858 00:00:00.02\"\n25 SS$_NORMAL\n26 COMMIT A.1.3 A.1.3 \"17-NOV-1858 00:00:00.03\"\n26 SS$_NORMAL\n",
        BY_SECOND,
        b"\"\n27 RECORD \"hh\" \"hh1\"\n27 SS$_NORMAL 5\n",
    )?;
    stays(
        &rt,
        rt.alloc(),
        b"A: END_TRANS V\nA: ABORT_TRANS U\nA: DUMP I\n",
        b"25 COMMIT A.1.3 A.1.3 \"17-NOV-1858 00:00:00.02\"\n25 SS$_NORMAL\n26 ABORT A.1.2 A.1.2 DDTM$_ABORTED \"17-NOV-1858 00:00:00.03\"\n26 SS$_NORMAL\n",
        BY_SECOND,
        b"\"\n27 RECORD \"hh\" \"hh1\"\n27 SS$_NORMAL 5\n",
    )?;
    stays(
        &rt,
        rt.alloc(),
        b"A: END_TRANS U\nA: ABORT_TRANS V\nA: DUMP I\n",
        b"25 COMMIT A.1.2 A.1.2 \"17-NOV-1858 00:00:00.02\"\n25 SS$_NORMAL\n26 ABORT A.1.3 A.1.3 DDTM$_ABORTED \"17-NOV-1858 00:00:00.03\"\n26 SS$_NORMAL\n",
        BY_FIRST,
        b"\"\n27 SS$_NORMAL 5\n",
    )?;
    stays(
        &rt,
        rt.alloc(),
        b"A: ABORT_TRANS V\nA: END_TRANS U\nA: DUMP I\n",
        b"25 ABORT A.1.3 A.1.3 DDTM$_ABORTED \"17-NOV-1858 00:00:00.02\"\n25 SS$_NORMAL\n26 COMMIT A.1.2 A.1.2 \"17-NOV-1858 00:00:00.03\"\n26 SS$_NORMAL\n",
        BY_FIRST,
        b"\"\n27 SS$_NORMAL 5\n",
    )?;
    Ok(())
}

// Records of a third transaction, up to those that find too few free buckets. Which these are tells where buckets overflowed, and so which slots without a
// record the aborted one left, and which rooms that are longer than their records.
const PROBING: &[u8] =
    b"A: START_TRANS X\nA: GET X I \"gg\"\nA: PUT X I \"k0{198}\"\nA: PUT X I \"k1{198}\"\nA: PUT X I \"k2{198}\"\nA: PUT X I \"bb1\"\nA: PUT X I \"ab{148}\"\nA: PUT X I \"ac{148}\"\nA: PUT X I \"dd1\"\nA: PUT X I \"cd{148}\"\nA: PUT X I \"ce{148}\"\nA: PUT X I \"gh{100}\"\nA: PUT X I \"gi{82}\"\nA: PUT X I \"gj{44}\"\nA: PUT X I \"k3{198}\"\nA: PUT X I \"k4{198}\"\nA: PUT X I \"k5{198}\"\nA: PUT X I \"k6{198}\"\nA: PUT X I \"k7{198}\"\nA: PUT X I \"k8{198}\"\nA: PUT X I \"k9{198}\"\nA: DUMP_JOURNAL RU\nA: ABORT_TRANS X\nA: DUMP I\n";

// One of the two is aborted, before the other one is committed or behind it.
const ENDINGS: [&[u8]; 4] = [
    b"A: ABORT_TRANS U\nA: END_TRANS V\n",
    b"A: END_TRANS V\nA: ABORT_TRANS U\n",
    b"A: END_TRANS U\nA: ABORT_TRANS V\n",
    b"A: ABORT_TRANS V\nA: END_TRANS U\n",
];

// Two transactions beside each other end so, and what a third one finds then is what it finds in the plain program.
fn probe(rt: &impl Abort, alloc: Global, ends: &[u8]) -> Result<(), Fail> {
    let lines = filled(alloc, &joined(alloc, &[BESIDE, ends, PROBING])?)?;
    let script = joined(alloc, &[OPENING, lines.as_slice()])?;
    let wanted = plain(alloc, &[place("A", 8_192)?], &script)?;
    let text = shown(alloc, &lines, Exit::Done)?;
    assert_eq!(rt; text, wanted);
    assert!(rt; has(&text, b" RMS$_FUL FILE 3 4\n"));
    Ok(())
}

#[test]
fn an_abort_leaves_the_rooms_and_slots_of_the_plain_program(rt: HostRuntime) -> Result<(), Fail> {
    for ends in ENDINGS {
        probe(&rt, rt.alloc(), ends)?;
    }
    Ok(())
}

// A disk with this byte all over a block.
fn damaged(
    mut disk: CrashDisk<MemPlatter>,
    block: u32,
    byte: u8,
) -> Result<CrashDisk<MemPlatter>, Fail> {
    if block >= disk.blocks() || disk.pending() >= 1_024 {
        return Err(Fail::from("no such block"));
    }
    if disk.write(block, &[byte; 512]).is_err() || disk.barrier().is_err() {
        return Err(Fail::from("a write failed"));
    }
    Ok(disk)
}

// The first bucket of the only file, and the block that says where the journal's entries lie: a disk with either in ruins has a volume that nobody left.
const BUCKET: u32 = 712;

const SPAN: u32 = 583;

#[test]
fn a_disk_of_which_nothing_is_known_is_made_anew(rt: HostRuntime) -> Result<(), Fail> {
    let anew = joined(rt.alloc(), &[OPENING, COMMITTING])?;
    let want = shown(rt.alloc(), COMMITTING, Exit::Done)?;
    for (block, booted) in [
        (BUCKET, b"".as_slice()),
        (SPAN, b"1 VOLUME A 6 583\n2 NODEDOWN\n3 VOLUME A 6 583\n"),
    ] {
        let disk = zeros(rt.alloc(), 8_192)?;
        let (_, rack) = run_on(
            rt.alloc(),
            disk,
            b"A: INIT 64 64\nA: BOOT\nA: CREATE F REL 1 100 10\nA: PUT - F 1 \"b\"\n",
        )?;
        let disk = damaged(disk_of(rack)?, block, 255)?;
        let (text, rack) = run_on(rt.alloc(), disk, b"A: BOOT\nA: DUMP F\nA: BOOT\n")?;
        if !booted.is_empty() {
            assert_eq!(rt; text.as_slice(), booted);
        }
        let (text, _) = run_on(rt.alloc(), disk_of(rack)?, &anew)?;
        assert_eq!(rt; text, want, "{block}");
    }
    Ok(())
}
