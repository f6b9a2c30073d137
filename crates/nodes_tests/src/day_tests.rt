//! Days of transactions by `run`: what they show, and which words ask for them.
ghost use Rattle.std.specs.Prelude.{IfOk};
ghost use Rattle.test_scripts.specs.dtm_run.Racks.{IsRack};

use block_disk::{CrashDisk, Disk, MemPlatter};
use std::alloc::Global;
use std::test::Fail;
use test_scripts::racks::{pair, with_node, zeros};
use test_scripts::{Exit, NodeUnits, Rack, run};
use transcript::{MemSink, MemSource, Source};

pub(crate) const BLOCKS: u32 = 16_384;

// The day of one transaction that draws from 0 on.
const ONE: &[u8] =
    b"TRANSACTIONS 1\nCOMMITTED 1\nABORTED 0\nA S 1\nA R 1\nA I 0\nB S 0\nB R 0\nB I 1\n";

// The day of two transactions that draws from 7 on: the keys 133 and 69, and then 6 and 4, by which both commit.
const TWO: &[u8] =
    b"TRANSACTIONS 2\nCOMMITTED 2\nABORTED 0\nA S 2\nA R 2\nA I 0\nB S 0\nB R 0\nB I 2\n";

// A long day. Of its transactions as many commit as draw 3 or more, and these draw 169 keys.
const LONG: &[u8] =
    b"TRANSACTIONS 500\nCOMMITTED 361\nABORTED 139\nA S 361\nA R 169\nA I 0\nB S 0\nB R 0\nB I 361\n";

const USAGE: &[u8] = b"usage: dtm RUN NODE=IMAGE ... or dtm MAKE n start\n";

// How a command of these words ends over a rack, what it shows in so much room, and the rack after it. It is an error where it reads the source.
pub(crate) fn ended<D: Disk + Drop>(
    alloc: Global,
    mut rack: Rack<D>,
    texts: &[&str],
    room: usize,
) -> Result<(Exit, Vec<u8>, Rack<D>), Fail>
    requires { IsRack D.state rack }
    ensures { IfOk result (λ ended. IsRack D.state ended.2) }
{
    let mut words = Vec::new(alloc);
    for text in texts {
        words.push(String::from_str(alloc, text)?)?;
    }
    let mut source = MemSource::new(alloc, b"A: INIT\n".to_vec(alloc)?);
    let mut sink = MemSink::new(alloc, room)?;
    let exit = run::<_, _, _, NodeUnits>(alloc, &words, &mut source, &mut sink, &mut rack);
    let mut left = [0u8; 20];
    if source.read(&mut left) != Ok(8) {
        return Err(Fail::from("the source was read"));
    }
    Ok((exit, sink.bytes().to_vec(alloc)?, rack))
}

// How a command of these words ends over two disks of zeros, and what it shows in so much room.
fn answered(alloc: Global, texts: &[&str], room: usize) -> Result<(Exit, Vec<u8>), Fail> {
    let rack = pair(alloc, zeros(alloc, BLOCKS)?, zeros(alloc, BLOCKS)?)?;
    let (exit, text, _) = ended(alloc, rack, texts, room)?;
    Ok((exit, text))
}

// What a day shows over them.
pub(crate) fn shown(alloc: Global, count: u32, start: u32) -> Result<Vec<u8>, Fail> {
    let count = format!(in alloc; "{count}")?;
    let start = format!(in alloc; "{start}")?;
    let (exit, text) = answered(
        alloc,
        &["dtm", "MAKE", count.as_str(), start.as_str()],
        1_000,
    )?;
    if exit != Exit::Done {
        return Err(Fail::from("another exit"));
    }
    Ok(text)
}

#[test]
fn days_show_their_summaries(rt: HostRuntime) -> Result<(), Fail> {
    for (count, start, text) in [(1, 0, ONE), (1, 4_294_967_295, ONE), (2, 7, TWO)] {
        let got = shown(rt.alloc(), count, start)?;
        assert_eq!(rt; got.as_slice(), text, "{count} from {start}");
    }
    Ok(())
}

#[test]
fn a_long_day_shows_its_summary(rt: HostRuntime) -> Result<(), Fail> {
    let got = shown(rt.alloc(), 500, 7)?;
    assert_eq!(rt; got.as_slice(), LONG);
    Ok(())
}

// Its volumes are made anew, whatever the disks had.
#[test]
fn a_day_shows_the_same_over_used_disks(rt: HostRuntime) -> Result<(), Fail> {
    let rack = pair(
        rt.alloc(),
        zeros(rt.alloc(), BLOCKS)?,
        zeros(rt.alloc(), BLOCKS)?,
    )?;
    let used = ended(rt.alloc(), rack, &["dtm", "MAKE", "20", "1"], 1_000)?;
    let again = ended(rt.alloc(), used.2, &["dtm", "MAKE", "2", "7"], 1_000)?;
    assert_eq!(rt; again.1.as_slice(), TWO);
    Ok(())
}

// Words that ask for a day.
const ASKING: [&[&str]; 2] = [&["dtm", "MAKE", "1", "0"], &["", "MAKE", "1", "0"]];

// Words that ask for none: what is missing or too much; numbers that are too small or too large, or are not plain decimal digits; and other commands.
const OTHERS: [&[&str]; 21] = [
    &["dtm", "MAKE", "0", "1"],
    &["dtm", "MAKE", "10001", "1"],
    &["dtm", "MAKE", "1", "4294967296"],
    &["dtm", "MAKE", "000000000000000000001", "0"],
    &["dtm", "MAKE", "100000000000000000000", "0"],
    &["dtm", "MAKE", "1", "100000000000000000000"],
    &["dtm", "MAKE", "01", "0"],
    &["dtm", "MAKE", "1", "00"],
    &["dtm", "MAKE", "1", ""],
    &["dtm", "MAKE", "", "0"],
    &["dtm", "MAKE", "1", "-0"],
    &["dtm", "MAKE", "1", "+0"],
    &["dtm", "MAKE", "x", "7"],
    &["dtm", "MAKE", "1"],
    &["dtm", "MAKE"],
    &["dtm"],
    &[],
    &["dtm", "MAKE", "1", "0", "0"],
    &["dtm", "make", "1", "0"],
    &["dtm", "RUN", "1", "0"],
    &["MAKE", "1", "0"],
];

#[test]
fn words_that_ask_for_a_day_are_answered_by_its_summary(rt: HostRuntime) -> Result<(), Fail> {
    for texts in ASKING {
        let (exit, text) = answered(rt.alloc(), texts, 1_000)?;
        assert_eq!(rt; exit, Exit::Done, "{texts:?}");
        assert_eq!(rt; text.as_slice(), ONE, "{texts:?}");
    }
    Ok(())
}

#[test]
fn words_that_ask_for_no_day_are_answered_by_the_usage(rt: HostRuntime) -> Result<(), Fail> {
    for texts in OTHERS {
        let (exit, text) = answered(rt.alloc(), texts, 1_000)?;
        assert_eq!(rt; exit, Exit::Usage, "{texts:?}");
        assert_eq!(rt; text.as_slice(), USAGE, "{texts:?}");
    }
    Ok(())
}

#[test]
fn a_summary_is_written_up_to_the_write_that_fails(rt: HostRuntime) -> Result<(), Fail> {
    for room in [0usize, 10, 60] {
        let (exit, text) = answered(rt.alloc(), &["dtm", "MAKE", "1", "0"], room)?;
        assert_eq!(rt; exit, Exit::WriteFault, "{room} bytes");
        assert_eq!(rt; text.as_slice(), &ONE[..room], "{room} bytes");
    }
    Ok(())
}

// A rack of other nodes gets no day.
fn gets_no_day<D: Disk + Drop>(alloc: Global, rack: Rack<D>) -> Result<(), Fail>
    requires { IsRack D.state rack }
{
    let (exit, text, _) = ended(alloc, rack, &["dtm", "MAKE", "1", "0"], 1_000)?;
    if exit != Exit::Usage || text.as_slice() != USAGE {
        return Err(Fail::from("another answer"));
    }
    Ok(())
}

#[test]
fn a_day_has_the_node_a_before_the_node_b(rt: HostRuntime) -> Result<(), Fail> {
    let alloc = rt.alloc();
    let swapped = with_node(Rack::new(alloc), "B", zeros(alloc, BLOCKS)?)?;
    gets_no_day(alloc, with_node(swapped, "A", zeros(alloc, BLOCKS)?)?)?;
    let other = with_node(Rack::new(alloc), "A", zeros(alloc, BLOCKS)?)?;
    gets_no_day(alloc, with_node(other, "C", zeros(alloc, BLOCKS)?)?)
}

#[test]
fn a_day_has_two_nodes(rt: HostRuntime) -> Result<(), Fail> {
    let alloc = rt.alloc();
    gets_no_day(alloc, Rack::<CrashDisk<MemPlatter>>::new(alloc))?;
    gets_no_day(
        alloc,
        with_node(Rack::new(alloc), "A", zeros(alloc, BLOCKS)?)?,
    )?;
    let three = pair(alloc, zeros(alloc, BLOCKS)?, zeros(alloc, BLOCKS)?)?;
    gets_no_day(alloc, with_node(three, "C", zeros(alloc, BLOCKS)?)?)
}
