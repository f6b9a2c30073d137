//! Journals of images whose rings end within entries, at every second byte of them, and are full: files are recovered over them as by the plain program.
use reference_run::{Ending, reference_transcript};
use std::alloc::Global;
use std::process::Abort;
use std::test::Fail;
use test_scripts::racks::{BLOCKS, shown_by_one};
use test_scripts::texts::{filled, has, joined};

// A change to one byte and its settlement have four times as many bytes together, and one more.
const STEPS: u8 = 25;

// Journals of 1,024 bytes begin in the middle of their rings. The first change of each file is so long that its rings end within a later change and its
// settlement, at another byte for each number: those of the next transaction, or of the second truncation. Two statements find a journal full then.
fn history(alloc: Global, number: u16) -> Result<Vec<u8>, Fail> {
    let (long, short) = (311 + usize::from(number), 58 + usize::from(number));
    let text = format!(in alloc;
        "A: INIT 64 64\nA: BOOT\nA: CREATE R REL 1 430 3\nA: CREATE I IDX 2 432 20 0 2\nA: CREATE S SEQ 1 430 20\nA: PUT - R 1 \"a{{{long}}}\"\nA: PUT - R 2 \"a\"\nA: PUT - R 3 \"{{430}}\"\nA: PUT - I \"aaa{{{long}}}\"\nA: PUT - I \"bba\"\nA: PUT - I \"dd{{430}}\"\nA: PUT - S \"{{430}}\"\nA: PUT - S \"a{{{short}}}\"\nA: PUT - S \"a\"\nA: SET_FILE R RU\nA: SET_FILE R AI 2\nA: SET_FILE R BI 2\nA: SET_FILE I AI 2\nA: SET_FILE I BI 2\nA: SET_FILE S AI 2\nA: SET_FILE S BI 2\nA: BACKUP R\nA: BACKUP I\nA: BACKUP S\nA: START_TRANS F\nA: UPDATE F R 1 \"b{{{long}}}\"\nA: END_TRANS F\nA: START_TRANS T\nA: UPDATE T R 2 \"b\"\nA: END_TRANS T\nA: START_TRANS U\nA: DELETE U R 2\nA: UPDATE U R 1 \"{{430}}\"\nA: DELETE U R 3\nA: END_TRANS U\nA: UPDATE - I \"aa\" \"aab{{{long}}}\"\nA: UPDATE - I \"bb\" \"bbb\"\nA: DELETE - I \"bb\"\nA: UPDATE - I \"aa\" \"aa{{430}}\"\nA: DELETE - I \"dd\"\nA: TRUNCATE - S 2\nA: PUT - S \"b{{{short}}}\"\nA: PUT - S \"b\"\nA: TRUNCATE - S 3\nA: PUT - S \"c\"\nA: PUT - S \"{{430}}\"\nA: TRUNCATE - S 1\n"
    )?;
    filled(alloc, text.as_bytes())
}

// Whether a transcript of it tells how many bytes of the full journals are free, and how many are wanted.
fn tells_what_is_free(alloc: Global, text: &[u8], number: u16) -> Result<bool, Fail> {
    let (a, b) = (411u16.saturating_sub(number), 410u16.saturating_sub(number));
    let (c, d) = (413u16.saturating_sub(number), 694 + u32::from(number));
    let relative = format!(in alloc; "\n33 RMS$_FUL AI {a} 482\n34 RMS$_FUL BI {b} 482\n")?;
    let indexed = format!(in alloc; "\n39 RMS$_FUL AI {c} 530\n40 RMS$_FUL BI {b} 530\n")?;
    let sequential = format!(in alloc; "\n46 RMS$_FUL AI {a} 530\n47 RMS$_FUL BI {a} {d}\n")?;
    Ok(
        has(text, relative.as_bytes())
            && has(text, indexed.as_bytes())
            && has(text, sequential.as_bytes()),
    )
}

// Both show the same for these lines behind the history, at each fourth byte from this one on.
fn recover_as_the_plain_program(
    rt: &impl Abort,
    alloc: Global,
    first: u8,
    lines: &[u8],
    end: &[u8],
) -> Result<(), Fail> {
    for step in 0..=STEPS {
        let number = 4 * u16::from(step) + u16::from(first);
        let script = joined(alloc, &[&history(alloc, number)?, lines])?;
        let got = shown_by_one(alloc, &script, 100_000)?;
        assert!(rt; tells_what_is_free(alloc, &got, number)?, "{number}");
        assert!(rt; got.ends_with(end), "{number}");
        let wanted = reference_transcript(alloc, BLOCKS, script.as_slice())?;
        assert_eq!(rt; wanted.ending, Ending::Done);
        assert_eq!(rt; got.as_slice(), wanted.text.as_slice());
    }
    Ok(())
}

#[test]
fn files_are_recovered_forward_over_the_end_of_a_ring(rt: HostRuntime) -> Result<(), Fail> {
    recover_as_the_plain_program(
        &rt,
        rt.alloc(),
        0,
        b"A: RECOVER R FORWARD UNTIL \"17-NOV-1858 00:00:00.11\"\nA: RECOVER I FORWARD UNTIL \"17-NOV-1858 00:00:00.14\"\nA: RECOVER S FORWARD UNTIL \"17-NOV-1858 00:00:00.19\"\nA: DUMP R\nA: DUMP I\nA: DUMP S\nA: GET - R 2\nA: GET - I \"bb\"\nA: GET - S 3\n",
        b"\n54 RMS$_NORMAL \"b\"\n55 RMS$_NORMAL \"bbb\"\n56 RMS$_RNF\n",
    )
}

#[test]
fn files_are_recovered_backward_over_the_end_of_a_ring(rt: HostRuntime) -> Result<(), Fail> {
    recover_as_the_plain_program(
        &rt,
        rt.alloc(),
        2,
        b"A: RECOVER R BACKWARD UNTIL \"17-NOV-1858 00:00:00.10\"\nA: RECOVER I BACKWARD UNTIL \"17-NOV-1858 00:00:00.13\"\nA: RECOVER S BACKWARD UNTIL \"17-NOV-1858 00:00:00.18\"\nA: DUMP R\nA: DUMP I\nA: DUMP S\nA: GET - R 2\nA: GET - I \"bb\"\nA: GET - S 3\n",
        b"\n54 RMS$_NORMAL \"a\"\n55 RMS$_NORMAL \"bba\"\n56 RMS$_NORMAL \"b\"\n",
    )
}
