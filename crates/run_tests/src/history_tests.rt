//! A history of thirty transactions over files of the three organizations: each file is recovered to each of its moments, forward and backward, and has the
//! records that the plain program has then.
use reference_run::{Ending, reference_transcript};
use std::alloc::Global;
use std::process::Abort;
use std::test::Fail;
use test_scripts::racks::{self, BLOCKS, show_the_same, shown, shown_by_one};
use test_scripts::texts::{has, joined};

const TRANSACTIONS: u32 = 30;

const FILES: [&str; 3] = ["R", "S", "I"];

const OPENING: &[u8] =
    b"A: INIT 64 64\nA: BOOT\nA: CREATE R REL 1 100 40\nA: CREATE S SEQ 1 100 40\nA: CREATE I IDX 1 100 40 0 2\n";

// What a transaction of this number does in each file, some of it in vain.
fn change(alloc: Global, text: &mut Vec<u8>, n: u32) -> Result<(), Fail> {
    let (place, letter) = (1 + n % 13 * 7 % 13, char::from(b'a' + (n % 11) as u8));
    let lines = match n % 4 {
        0 | 1 => format!(in alloc;
            "A: PUT T{n} R {place} \"r{n}\"\nA: PUT T{n} S \"s{n}\"\nA: PUT T{n} I \"{letter}{letter}{n}\"\n"
        )?,
        2 => format!(in alloc;
            "A: UPDATE T{n} R {place} \"u{n}\"\nA: UPDATE T{n} S {place} \"x{n}\"\nA: UPDATE T{n} I \"{letter}{letter}\" \"{letter}{letter}u\"\n"
        )?,
        _ => format!(in alloc;
            "A: DELETE T{n} R {place}\nA: TRUNCATE T{n} S {place}\nA: DELETE T{n} I \"{letter}{letter}\"\n"
        )?,
    };
    text.extend_from_slice(lines.as_bytes())?;
    Ok(())
}

// The history: each fifth transaction is aborted, and a restart lies in the midst.
fn history(alloc: Global) -> Result<Vec<u8>, Fail> {
    let mut text = OPENING.to_vec(alloc)?;
    for file in FILES {
        let lines = format!(in alloc;
            "A: SET_FILE {file} RU\nA: SET_FILE {file} AI 16\nA: SET_FILE {file} BI 16\nA: BACKUP {file}\n"
        )?;
        text.extend_from_slice(lines.as_bytes())?;
    }
    for n in 0..TRANSACTIONS {
        let begins = format!(in alloc; "A: START_TRANS T{n}\n")?;
        text.extend_from_slice(begins.as_bytes())?;
        change(alloc, &mut text, n)?;
        let ends = match n % 5 {
            3 => format!(in alloc; "A: ABORT_TRANS T{n}\n")?,
            _ if n == 16 => format!(in alloc; "CRASH A\nA: BOOT\n")?,
            _ => format!(in alloc; "A: END_TRANS T{n}\n")?,
        };
        text.extend_from_slice(ends.as_bytes())?;
    }
    Ok(text)
}

// Both show the same for a recovery of the three files to this moment.
fn recovers_as_the_plain_program(
    rt: &impl Abort,
    alloc: Global,
    way: &str,
    moment: u32,
) -> Result<(), Fail> {
    let mut script = history(alloc)?;
    for file in FILES {
        let lines = format!(in alloc;
            "A: RECOVER {file} {way} UNTIL \"17-NOV-1858 00:00:00.{moment:02}\"\nA: DUMP {file}\n"
        )?;
        script.extend_from_slice(lines.as_bytes())?;
    }
    let wanted = reference_transcript(alloc, BLOCKS, script.as_slice())?;
    assert_eq!(rt; wanted.ending, Ending::Done);
    let got = shown_by_one(alloc, script.as_slice(), 1_000_000)?;
    assert_eq!(rt; got.as_slice(), wanted.text.as_slice());
    Ok(())
}

#[test]
fn files_are_recovered_forward_to_each_moment(rt: HostRuntime) -> Result<(), Fail> {
    for moment in 0..=TRANSACTIONS {
        recovers_as_the_plain_program(&rt, rt.alloc(), "FORWARD", moment)?;
    }
    Ok(())
}

#[test]
fn files_are_recovered_backward_to_each_moment(rt: HostRuntime) -> Result<(), Fail> {
    for moment in 0..=TRANSACTIONS {
        recovers_as_the_plain_program(&rt, rt.alloc(), "BACKWARD", moment)?;
    }
    Ok(())
}

// B promises to commit and falls: its branch is in doubt until A answers.
const DOUBTING: &[u8] =
    b"B: SET_FILE F AI 16\nB: SET_FILE F BI 16\nB: BACKUP F\nA: START_TRANS T\nA: ADD_BRANCH T B U\nB: START_BRANCH U\nDELIVER 1\nDELIVER 2\nB: PUT U F 1 \"b\"\nB: END_BRANCH U\nA: END_TRANS T\nDELIVER 3\nDELIVER 4\nCRASH B\nB: BOOT\n";

const ANSWERED: &[u8] =
    b"B: BACKUP F\nB: RECOVER F FORWARD\nB: DUMP_JOURNAL F AI\nB: INQUIRE U\nDELIVER 6\nDELIVER 7\nB: DUMP_JOURNAL F AI\nB: RECOVER F BACKWARD UNTIL \"17-NOV-1858 00:00:00.00\"\nB: DUMP F\n";

#[test]
fn a_branch_in_doubt_keeps_its_file_from_recovery(rt: HostRuntime) -> Result<(), Fail> {
    let script = joined(rt.alloc(), &[racks::OPENING, DOUBTING, ANSWERED])?;
    show_the_same(rt.alloc(), &script)?;
    let text = shown(rt.alloc(), &script)?;
    assert!(rt; has(&text, b"28 RMS$_FLK B.1.1\n29 RMS$_FLK B.1.1\n"));
    assert!(rt; text.ends_with(b"35 SS$_NORMAL 0\n36 SS$_NORMAL 0\n"));
    Ok(())
}
