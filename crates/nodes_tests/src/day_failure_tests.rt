//! Days over disks that fail or stop. Each ends at the answer of the statement in which that comes; which one it is, the transcript of the day's script tells.
ghost use Rattle.test_scripts.specs.dtm_run.Racks.{IsRack};

use crate::day_tests::ended;
use crate::plain_day_tests::script_of;
use block_disk::{CrashDisk, Disk, MemPlatter};
use std::alloc::Global;
use std::test::Fail;
use test_scripts::racks::{pair, shown_by, zeros};
use test_scripts::{Exit, Rack};

const BLOCKS: u32 = 8_192;

// The day of four transactions that draws from 557 on: the first is aborted, A falls in the second and B in the third, and the last commits.
const SUMMARY: &[u8] =
    b"TRANSACTIONS 4\nCOMMITTED 1\nABORTED 3\nA S 1\nA R 1\nA I 0\nB S 0\nB R 0\nB I 1\n";

// A disk of zeros of which this call fails.
fn failing(alloc: Global, call: u32) -> Result<CrashDisk<MemPlatter>, Fail> {
    let mut platter = MemPlatter::new(alloc, BLOCKS)?;
    platter.fail(call)?;
    Ok(CrashDisk::new(alloc, platter)?)
}

// A disk of zeros that stops behind so many writes.
fn armed(alloc: Global, writes: u32) -> Result<CrashDisk<MemPlatter>, Fail> {
    let mut disk = zeros(alloc, BLOCKS)?;
    disk.arm(writes, 0);
    Ok(disk)
}

fn has_line(text: &[u8], wanted: &str) -> bool {
    match str::from_utf8(text) {
        Ok(text) => text.lines().any(|line| line == wanted),
        Err(_) => false,
    }
}

// What that day shows over a rack.
fn shown_over<D: Disk + Drop>(alloc: Global, rack: Rack<D>) -> Result<Vec<u8>, Fail>
    requires { IsRack D.state rack }
{
    let (exit, text, _) = ended(alloc, rack, &["dtm", "MAKE", "4", "557"], 1_000)?;
    if exit != Exit::Done {
        return Err(Fail::from("another exit"));
    }
    Ok(text)
}

// Whether this line of the day's script is answered so over a rack.
fn is_answered<D: Disk + Drop>(
    alloc: Global,
    rack: Rack<D>,
    line: u32,
    answer: &str,
) -> Result<bool, Fail>
    requires { IsRack D.state rack }
{
    let script = script_of(alloc, 4, 557)?;
    let (text, _) = shown_by(alloc, rack, &["A", "B"], &script, 4_000_000)?;
    let wanted = format!(in alloc; "{line} {answer}")?;
    Ok(has_line(&text, wanted.as_str()))
}

// Calls of A's disk, and the lines of the script in which they come: a settling that boots A, a message by which A commits, and the last dump of A.
const CALLS_OF_A: [(u32, u32); 3] = [(823, 36), (1_255, 60), (1_371, 66)];

#[test]
fn a_day_ends_where_a_call_of_a_fails(rt: HostRuntime) -> Result<(), Fail> {
    let alloc = rt.alloc();
    for (call, line) in CALLS_OF_A {
        let rack = pair(alloc, failing(alloc, call)?, zeros(alloc, BLOCKS)?)?;
        let answered = is_answered(alloc, rack, line, "FAULT")?;
        assert!(rt; answered, "call {call}");
        let rack = pair(alloc, failing(alloc, call)?, zeros(alloc, BLOCKS)?)?;
        let text = shown_over(alloc, rack)?;
        assert_eq!(rt; text.as_slice(), b"FAULT\n".as_slice(), "call {call}");
    }
    Ok(())
}

// The same of B.
const CALLS_OF_B: [(u32, u32); 3] = [(819, 48), (1_090, 61), (1_181, 69)];

#[test]
fn a_day_ends_where_a_call_of_b_fails(rt: HostRuntime) -> Result<(), Fail> {
    let alloc = rt.alloc();
    for (call, line) in CALLS_OF_B {
        let rack = pair(alloc, zeros(alloc, BLOCKS)?, failing(alloc, call)?)?;
        let answered = is_answered(alloc, rack, line, "FAULT")?;
        assert!(rt; answered, "call {call}");
        let rack = pair(alloc, zeros(alloc, BLOCKS)?, failing(alloc, call)?)?;
        let text = shown_over(alloc, rack)?;
        assert_eq!(rt; text.as_slice(), b"FAULT\n".as_slice(), "call {call}");
    }
    Ok(())
}

// The calls behind the last ones of the day do not come.
#[test]
fn a_day_of_which_no_call_fails_shows_its_summary(rt: HostRuntime) -> Result<(), Fail> {
    let alloc = rt.alloc();
    let rack = pair(alloc, failing(alloc, 1_372)?, failing(alloc, 1_182)?)?;
    let text = shown_over(alloc, rack)?;
    assert_eq!(rt; text.as_slice(), SUMMARY);
    Ok(())
}

// Writes behind which a disk stops that was armed before the day: those of the INIT, and one of a CREATE.
const WRITES: [(u32, u32, u32); 2] = [(0, 1, 2), (200, 5, 11)];

#[test]
fn a_day_ends_where_a_disk_stops(rt: HostRuntime) -> Result<(), Fail> {
    let alloc = rt.alloc();
    for (writes, at_a, at_b) in WRITES {
        let rack = pair(alloc, armed(alloc, writes)?, zeros(alloc, BLOCKS)?)?;
        let answered = is_answered(alloc, rack, at_a, "STOPPED")?;
        assert!(rt; answered, "{writes} of A");
        let rack = pair(alloc, zeros(alloc, BLOCKS)?, armed(alloc, writes)?)?;
        let answered = is_answered(alloc, rack, at_b, "STOPPED")?;
        assert!(rt; answered, "{writes} of B");
    }
    Ok(())
}

#[test]
fn a_day_over_a_disk_that_stops_shows_that(rt: HostRuntime) -> Result<(), Fail> {
    let alloc = rt.alloc();
    for (writes, _, _) in WRITES {
        let rack = pair(alloc, armed(alloc, writes)?, zeros(alloc, BLOCKS)?)?;
        let text = shown_over(alloc, rack)?;
        assert_eq!(rt; text.as_slice(), b"STOPPED\n".as_slice(), "{writes} of A");
        let rack = pair(alloc, zeros(alloc, BLOCKS)?, armed(alloc, writes)?)?;
        let text = shown_over(alloc, rack)?;
        assert_eq!(rt; text.as_slice(), b"STOPPED\n".as_slice(), "{writes} of B");
    }
    Ok(())
}
