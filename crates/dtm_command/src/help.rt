//! What is said on the standard error of how a run ended.
use crate::images::{OpenErr, Refusal};
use crate::watch::Tail;
use script_lang::{Literals, read_statement};
use std::alloc::{AllocError, Global};
use std::fmt::Write;
use vms_base::{part_at, read_digits};

const LINE_BYTES: usize = 20_000;

const SCRIPT_BYTES: u64 = 67_108_864;

const MOST_LINES: u64 = 1_000_000;

// How many bytes of a line are shown before the column that is told, and from there on.
const SHOWN_BEFORE: usize = 60;

const SHOWN_BEHIND: usize = 20;

const USAGE: &str = "\
dtm runs a script of transaction and record services by simulated nodes, each over a disk image.

  dtm RUN NODE=IMAGE ...   reads the script from the standard input and writes its transcript to the standard output
  dtm MAKE n start         runs a day of n transactions by nodes over disks in memory, and writes its summary to the standard output
  dtm --help               shows this

There are one to eight nodes, each over an image of its own. NODE is 1 to 6 letters and digits, a letter first. IMAGE is the path
of a file of 4096 to 65536 blocks of 512 bytes; where there is none, one of 8192 blocks is made. INIT in a script erases what the image had.
n is 1 to 10000, and start 0 to 4294967295: the day draws its numbers from it. Neither has a leading zero.

  dtm RUN A=ledger.img < examples/first.dtm

ends with status 0 where each line was answered, and else with
  1  a line is no statement (BADLINE)        4  the transcript cannot be written
  2  the words are none of these forms       5  memory is missing
  3  the script cannot be read               6  a line or the script is too long (TOOLONG)
                                             7  an image cannot be opened
";

/// What is said of words that are no command: what the program does, its forms, and its statuses.
pub fn usage(alloc: Global) -> Result<String, AllocError> {
    String::from_str(alloc, USAGE)
}

/// What is said of images that were not opened.
pub fn said_of_images(alloc: Global, e: &OpenErr<'_>) -> Result<String, AllocError> {
    match e {
        OpenErr::Image(_, Refusal::Size(0)) => format!(in alloc;
            "dtm: {e}\ndtm: it is empty; a file that is not there yet is made, so remove it if nothing needs it\n"
        ),
        OpenErr::Image(_, why) => format!(in alloc; "dtm: {e}\ndtm: {why}\n"),
        OpenErr::Memory => format!(in alloc; "dtm: {e}\n"),
    }
}

// The number of the line that the last line of a transcript answers.
fn last_number(transcript: &Tail) -> Option<u64> {
    let last = transcript.feeds();
    let (number, _) = part_at(b' ', transcript.line(last)?)?;
    read_digits(u64::MAX, number)
}

/// What is said of a script that ended at a line that is no statement, of which these are the last bytes read and written: the line, the column that is
/// faulty, and what is wanted there.
pub fn bad_line(alloc: Global, script: &Tail, transcript: &Tail) -> Result<String, AllocError> {
    let mut said = String::new(alloc);
    let Some(number) = last_number(transcript) else {
        return Ok(said);
    };
    let Some(line) = script.line(number) else {
        return Ok(said);
    };
    if line.len() > LINE_BYTES {
        return Ok(said);
    }
    let mut literals = Literals::reserve(alloc)?;
    if let Err(e) = read_statement(line, &mut literals) {
        let (column, wanted) = (e.column, e.wanted);
        writeln!(
            said,
            "dtm: line {number} is no statement, from column {column} on:"
        )?;
        point_at(&mut said, line, column as usize)?;
        writeln!(said, "dtm: wanted there: {wanted}")?;
    }
    Ok(said)
}

// The part of a line around a column, and a caret below the column. A byte that is no printable character of ASCII is shown as a dot.
fn point_at(said: &mut String, line: &[u8], column: usize) -> Result<(), AllocError> {
    let place = column.saturating_sub(1).min(line.len());
    let first = place.saturating_sub(SHOWN_BEFORE);
    let last = place.saturating_add(SHOWN_BEHIND).min(line.len());
    said.push_str("    ")?;
    for b in &line[first..last] {
        let shown = if (b' '..=b'~').contains(b) { *b } else { b'.' };
        said.push(char::from(shown))?;
    }
    said.push_str("\n    ")?;
    for _ in first..place {
        said.push(' ')?;
    }
    said.push_str("^\n")
}

/// What is said of a script that ended at a limit of its lines, of which these are the last bytes read and written: the limit that is passed.
pub fn too_long(alloc: Global, script: &Tail, transcript: &Tail) -> Result<String, AllocError> {
    let number = last_number(transcript).unwrap_or(0);
    let total = script.total();
    let is_long = match script.line(number) {
        Some(line) => line.len() > LINE_BYTES,
        None => true,
    };
    if number > MOST_LINES {
        format!(in alloc; "dtm: the script has more than {MOST_LINES} lines\n")
    } else if total > SCRIPT_BYTES && !is_long {
        format!(in alloc; "dtm: the script has more than {SCRIPT_BYTES} bytes (64 MiB)\n")
    } else {
        format!(in alloc;
            "dtm: line {number} has more than {LINE_BYTES} bytes before its line feed\n"
        )
    }
}
