//! Calls that fail: of a platter, which puts its node down, and of the source and the sink, which ends the run.
use block_disk::MemPlatter;
use std::alloc::Global;
use std::test::Fail;
use test_scripts::Exit;
use test_scripts::one_node::{COMMITTING, OPENING, run_over, shown};
use test_scripts::texts::{filled, joined};
use transcript::{MemSink, MemSource};

const STARTING: &[u8] =
    b"A: CREATE S SEQ 1 400 4\nA: SET_FILE S RU\nA: CREATE I IDX 1 200 9 0 2\nA: SET_FILE I RU\nA: START_TRANS T\n";

// What a script with these answers shows where a call of the platter fails in this line, perhaps once part of its answer was shown.
fn faulted(alloc: Global, answers: &[&[u8]], line: usize, part: &[u8]) -> Result<Vec<u8>, Fail> {
    let mut text = Vec::new(alloc);
    for (i, whole) in answers.iter().enumerate() {
        let number = i + 1;
        if number < line {
            text.extend_from_slice(whole)?;
        } else if number > line {
            let answer = if line == 1 && number == 2 {
                "NOINIT"
            } else {
                "NODEDOWN"
            };
            text.extend_from_slice(format!(in alloc; "{number} {answer}\n")?.as_bytes())?;
        } else {
            text.extend_from_slice(part)?;
            let fallen = format!(in alloc; "{line} DOWN A FAULT\n{line} FAULT\n")?;
            text.extend_from_slice(fallen.as_bytes())?;
        }
    }
    Ok(text)
}

// What a script shows where this call of the platter fails.
fn shown_with_failing(alloc: Global, script: &[u8], call: u32) -> Result<Vec<u8>, Fail> {
    let mut platter = MemPlatter::new(alloc, 8_192)?;
    platter.fail(call)?;
    let mut source = MemSource::new(alloc, script.to_vec(alloc)?);
    let mut sink = MemSink::new(alloc, 2_000)?;
    if run_over(alloc, platter, &mut source, &mut sink)? != Exit::Done {
        return Err(Fail::from("another exit"));
    }
    Ok(sink.bytes().to_vec(alloc)?)
}

// The line of a script with these answers in which its node fell, where this is what it then shows.
fn line_of_fall(
    alloc: Global,
    answers: &[&[u8]],
    part: &[u8],
    text: &[u8],
) -> Result<Option<usize>, Fail> {
    for line in 1..=answers.len() {
        for begun in [b"".as_slice(), part] {
            if text == faulted(alloc, answers, line, begun)?.as_slice() {
                return Ok(Some(line));
            }
        }
    }
    Ok(None)
}

// The lines of a script with these answers in which its node falls, where each call of the platter fails in turn.
fn lines_of_falls(
    alloc: Global,
    script: &[u8],
    answers: &[&[u8]],
    part: &[u8],
) -> Result<Vec<usize>, Fail> {
    let mut lines = Vec::new(alloc);
    for call in 1..4_000u32 {
        let text = shown_with_failing(alloc, script, call)?;
        let Some(line) = line_of_fall(alloc, answers, part, &text)? else {
            if text != joined(alloc, answers)? {
                return Err(Fail::from("another transcript"));
            }
            return Ok(lines);
        };
        if lines.last() != Some(&line) {
            lines.push(line)?;
        }
    }
    Err(Fail::from("a call fails, however late"))
}

#[test]
fn a_failing_call_of_the_platter_puts_the_node_down(rt: HostRuntime) -> Result<(), Fail> {
    let answers: [&[u8]; 8] = [
        b"1 SS$_NORMAL\n",
        b"2 SS$_NORMAL 1\n",
        b"3 SS$_NORMAL\n",
        b"4 SS$_NORMAL\n",
        b"5 SS$_NORMAL A.1.1\n",
        b"6 RMS$_NORMAL\n",
        b"7 COMMIT A.1.1 A.1.1 \"17-NOV-1858 00:00:00.01\"\n7 SS$_NORMAL\n",
        b"8 RECORD 1 \"a\"\n8 SS$_NORMAL 1\n",
    ];
    let script = joined(rt.alloc(), &[OPENING, COMMITTING])?;
    let lines = lines_of_falls(rt.alloc(), &script, &answers, b"8 RECORD 1 \"a\"\n")?;
    assert_eq!(rt; lines.as_slice(), [1usize, 2, 3, 4, 6, 7, 8].as_slice());
    Ok(())
}

#[test]
fn a_failing_call_puts_the_node_down_in_each_statement_on_records(
    rt: HostRuntime,
) -> Result<(), Fail> {
    let statements: &[u8] =
        b"A: PUT T S \"a\"\nA: PUT T I \"aa{118}\"\nA: PUT T I \"bb{118}\"\nA: PUT T I \"cc{118}\"\nA: PUT T I \"dd{118}\"\nA: PUT T I \"ee{118}\"\nA: UPDATE T I \"aa\" \"aa1\"\nA: DELETE T I \"bb\"\nA: GET T I \"aa\"\nA: NEXT T I \"ee\"\nA: TRUNCATE T S 1\nA: ABORT_TRANS T\n";
    let answers: [&[u8]; 21] = [
        b"1 SS$_NORMAL\n",
        b"2 SS$_NORMAL 1\n",
        b"3 SS$_NORMAL\n",
        b"4 SS$_NORMAL\n",
        b"5 SS$_NORMAL\n",
        b"6 SS$_NORMAL\n",
        b"7 SS$_NORMAL\n",
        b"8 SS$_NORMAL\n",
        b"9 SS$_NORMAL A.1.1\n",
        b"10 RMS$_NORMAL 1\n",
        b"11 RMS$_NORMAL\n",
        b"12 RMS$_NORMAL\n",
        b"13 RMS$_NORMAL\n",
        b"14 RMS$_NORMAL\n",
        b"15 RMS$_NORMAL\n",
        b"16 RMS$_NORMAL\n",
        b"17 RMS$_NORMAL\n",
        b"18 RMS$_NORMAL \"aa1\"\n",
        b"19 RMS$_EOF\n",
        b"20 RMS$_NORMAL\n",
        b"21 ABORT A.1.1 A.1.1 DDTM$_ABORTED \"17-NOV-1858 00:00:00.01\"\n21 SS$_NORMAL\n",
    ];
    let script = joined(rt.alloc(), &[OPENING, STARTING, statements])?;
    let script = filled(rt.alloc(), &script)?;
    let lines = lines_of_falls(rt.alloc(), &script, &answers, b"")?;
    assert_eq!(rt; lines.len(), 20, "all but START_TRANS");
    assert!(rt; !lines.contains(&9));
    Ok(())
}

#[test]
fn a_failing_read_or_write_ends_the_run(rt: HostRuntime) -> Result<(), Fail> {
    let want = shown(rt.alloc(), COMMITTING, Exit::Done)?;
    for call in 1..12u32 {
        let mut source = MemSource::new(rt.alloc(), joined(rt.alloc(), &[OPENING, COMMITTING])?);
        let mut sink = MemSink::new(rt.alloc(), 1_000)?;
        sink.fail(call)?;
        let exit = run_over(
            rt.alloc(),
            MemPlatter::new(rt.alloc(), 8_192)?,
            &mut source,
            &mut sink,
        )?;
        assert_eq!(rt;
            exit,
            if call < 11 {
                Exit::WriteFault
            } else {
                Exit::Done
            },
            "write {call}"
        );
        assert!(rt; want.starts_with(sink.bytes()));
        assert_eq!(rt; sink.bytes().len() < want.len(), call < 11);
    }
    for call in 1..4u32 {
        let mut source = MemSource::new(rt.alloc(), joined(rt.alloc(), &[OPENING, COMMITTING])?);
        source.fail(call)?;
        let mut sink = MemSink::new(rt.alloc(), 1_000)?;
        let exit = run_over(
            rt.alloc(),
            MemPlatter::new(rt.alloc(), 8_192)?,
            &mut source,
            &mut sink,
        )?;
        let (end, text): (Exit, &[u8]) = match call {
            1 => (Exit::ReadFault, b""),
            2 => (Exit::ReadFault, &want),
            _ => (Exit::Done, &want),
        };
        assert_eq!(rt; exit, end, "read {call}");
        assert_eq!(rt; sink.bytes(), text);
    }
    Ok(())
}
