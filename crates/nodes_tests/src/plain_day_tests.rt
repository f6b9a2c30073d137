//! Days beside the plain program: it shows for the script of a day what the run shows, and the summary has the counts of that transcript.
use crate::day_tests::{BLOCKS, shown};
use std::alloc::Global;
use std::test::Fail;
use test_scripts::racks::{pair, place, plain, shown_by, the_same, zeros};

const OPENING: &[u8] =
    b"A: INIT\nB: INIT\nA: BOOT\nB: BOOT\nA: CREATE S SEQ 4 200 200\nA: CREATE R REL 4 200 200\nA: CREATE I IDX 4 200 200 0 6\nA: SET_FILE S RU\nA: SET_FILE R RU\nA: SET_FILE I RU\nB: CREATE S SEQ 4 200 200\nB: CREATE R REL 4 200 200\nB: CREATE I IDX 4 200 200 0 6\nB: SET_FILE S RU\nB: SET_FILE R RU\nB: SET_FILE I RU\n";

// In the lines of a transaction # stands for its number, @ for the six digits of that, $ for its key, and % for the next message: each message is delivered
// before another one is sent.
const BEGUN: &[u8] =
    b"A: START_TRANS T#\nA: ADD_BRANCH T# B U#\nB: START_BRANCH U#\nDELIVER %\nDELIVER %\nA: PUT T# S \"@\"\nA: PUT T# R $ \"@\"\nB: PUT U# I \"@x\"\n";

// How it ends by the number drawn, and how many more messages that sends.
const ENDS: [(&[u8], u64); 4] = [
    (b"A: ABORT_TRANS T#\nSETTLE\n", 2),
    (b"CRASH A\nSETTLE\n", 1),
    (b"B: END_BRANCH U#\nA: END_TRANS T#\nCRASH B\nSETTLE\n", 2),
    (
        b"B: END_BRANCH U#\nA: END_TRANS T#\nDELIVER %\nDELIVER %\nDELIVER %\nDELIVER %\n",
        0,
    ),
];

const CLOSING: &[u8] =
    b"SETTLE\nA: DUMP S\nA: DUMP R\nA: DUMP I\nB: DUMP S\nB: DUMP R\nB: DUMP I\n";

// The script of a day as it is written by hand: its lines so far, the number drawn last, and that of the last message.
#[derive(Drop)]
struct Script {
    text: Vec<u8>,
    drawn: u64,
    sent: u64,
}

impl Script {
    // A number below a limit.
    fn draw(&mut self, limit: u64) -> u64 {
        self.drawn = self.drawn.wrapping_mul(1_103_515_245).wrapping_add(12_345) % 4_294_967_296;
        (self.drawn / 65_536).checked_rem(limit).unwrap_or(0)
    }

    fn put_number(&mut self, alloc: Global, number: u64) -> Result<(), Fail> {
        let text = format!(in alloc; "{number}")?;
        self.text.extend_from_slice(text.as_bytes())?;
        Ok(())
    }

    fn put_six(&mut self, alloc: Global, number: u64) -> Result<(), Fail> {
        let text = format!(in alloc; "{number:06}")?;
        self.text.extend_from_slice(text.as_bytes())?;
        Ok(())
    }

    fn put(&mut self, alloc: Global, lines: &[u8], number: u64, key: u64) -> Result<(), Fail> {
        for sign in lines {
            match *sign {
                b'#' => self.put_number(alloc, number)?,
                b'@' => self.put_six(alloc, number)?,
                b'$' => self.put_number(alloc, key)?,
                b'%' => {
                    self.sent = self.sent.saturating_add(1);
                    self.put_number(alloc, self.sent)?;
                }
                byte => self.text.push(byte)?,
            }
        }
        Ok(())
    }

    fn put_transaction(&mut self, alloc: Global, number: u64) -> Result<(), Fail> {
        let key = self.draw(200).saturating_add(1);
        self.put(alloc, BEGUN, number, key)?;
        let choice = self.draw(10).min(3);
        let (lines, more) = ENDS[choice as usize];
        self.put(alloc, lines, number, key)?;
        self.sent = self.sent.saturating_add(more);
        Ok(())
    }
}

// The script of a day of so many transactions, which draws from this number on.
pub(crate) fn script_of(alloc: Global, count: u32, start: u32) -> Result<Vec<u8>, Fail> {
    let mut script = Script {
        text: OPENING.to_vec(alloc)?,
        drawn: u64::from(start),
        sent: 0,
    };
    for number in 0..count {
        script.put_transaction(alloc, u64::from(number).saturating_add(1))?;
    }
    let mut text = script.text;
    text.extend_from_slice(CLOSING)?;
    Ok(text)
}

// The words of a line behind its number.
fn unnumbered(line: &str) -> &str {
    match line.split_once(' ') {
        Some((_, words)) => words,
        None => "",
    }
}

// How many first branches a transcript shows to be committed.
fn committed(transcript: &str) -> u64 {
    let mut count = 0u64;
    for line in transcript.lines() {
        if let Some(words) = unnumbered(line).strip_prefix("COMMIT ") {
            let mut ids = words.split_whitespace();
            let transaction = ids.next();
            if transaction == ids.next() {
                count = count.saturating_add(1);
            }
        }
    }
    count
}

// The summary of a day by its transcript: the last six answers are those of the dumps.
fn summary_of(alloc: Global, count: u64, transcript: &str) -> Result<String, Fail> {
    let committed = committed(transcript);
    let aborted = count.saturating_sub(committed);
    let mut text = format!(in alloc;
        "TRANSACTIONS {count}\nCOMMITTED {committed}\nABORTED {aborted}\n"
    )?;
    let mut answers = Vec::new(alloc);
    for line in transcript.lines() {
        if let Some(value) = unnumbered(line).strip_prefix("SS$_NORMAL ") {
            answers.push(value)?;
        }
    }
    let first = answers.len().saturating_sub(6);
    let files = ["A S", "A R", "A I", "B S", "B R", "B I"];
    for (file, value) in files.iter().zip(answers[first..].iter()) {
        text.push_str(format!(in alloc; "{file} {value}\n")?.as_str())?;
    }
    Ok(text)
}

// What the plain program shows for a script. The run shows the same.
fn transcript_of(alloc: Global, script: &[u8]) -> Result<Vec<u8>, Fail> {
    let wanted = plain(alloc, &[place("A", BLOCKS)?, place("B", BLOCKS)?], script)?;
    let rack = pair(alloc, zeros(alloc, BLOCKS)?, zeros(alloc, BLOCKS)?)?;
    let (got, _) = shown_by(alloc, rack, &["A", "B"], script, 4_000_000)?;
    the_same(got, &wanted)
}

// A day's summary has the counts of the transcript that the run and the plain program show for its script.
fn agrees(alloc: Global, count: u32, start: u32) -> Result<(), Fail> {
    let transcript = transcript_of(alloc, &script_of(alloc, count, start)?)?;
    let Ok(lines) = str::from_utf8(&transcript) else {
        return Err(Fail::from("a transcript"));
    };
    let wanted = summary_of(alloc, u64::from(count), lines)?;
    if shown(alloc, count, start)?.as_slice() != wanted.as_bytes() {
        return Err(Fail::from("another summary"));
    }
    Ok(())
}

#[test]
fn the_day_from_0_on_has_the_counts_of_its_transcript(rt: HostRuntime) -> Result<(), Fail> {
    agrees(rt.alloc(), 100, 0)
}

#[test]
fn the_day_from_1_on_has_the_counts_of_its_transcript(rt: HostRuntime) -> Result<(), Fail> {
    agrees(rt.alloc(), 100, 1)
}

#[test]
fn the_day_from_2_on_has_the_counts_of_its_transcript(rt: HostRuntime) -> Result<(), Fail> {
    agrees(rt.alloc(), 100, 2)
}

#[test]
fn the_day_from_3_on_has_the_counts_of_its_transcript(rt: HostRuntime) -> Result<(), Fail> {
    agrees(rt.alloc(), 100, 3)
}

#[test]
fn the_day_from_7_on_has_the_counts_of_its_transcript(rt: HostRuntime) -> Result<(), Fail> {
    agrees(rt.alloc(), 100, 7)
}

#[test]
fn the_day_from_12_on_has_the_counts_of_its_transcript(rt: HostRuntime) -> Result<(), Fail> {
    agrees(rt.alloc(), 100, 12)
}

#[test]
fn the_day_from_557_on_has_the_counts_of_its_transcript(rt: HostRuntime) -> Result<(), Fail> {
    agrees(rt.alloc(), 100, 557)
}

#[test]
fn the_day_from_1000000_on_has_the_counts_of_its_transcript(rt: HostRuntime) -> Result<(), Fail> {
    agrees(rt.alloc(), 100, 1_000_000)
}

#[test]
fn the_day_from_4294967294_on_has_the_counts_of_its_transcript(
    rt: HostRuntime,
) -> Result<(), Fail> {
    agrees(rt.alloc(), 100, 4_294_967_294)
}

#[test]
fn the_day_from_4294967295_on_has_the_counts_of_its_transcript(
    rt: HostRuntime,
) -> Result<(), Fail> {
    agrees(rt.alloc(), 100, 4_294_967_295)
}
