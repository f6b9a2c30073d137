//! What single scripts show, as their definition says.
use reference_run::{Ending, reference_transcript};
use std::alloc::Global;
use std::process::Abort;
use std::test::Fail;

const BASE: &[u8] = b"A: INIT\nA: BOOT\nA: CREATE F REL 1 100 10\nA: SET_FILE F RU\n";

const BASE_SHOWN: &[u8] = b"1 SS$_NORMAL\n2 SS$_NORMAL 1\n3 SS$_NORMAL\n4 SS$_NORMAL\n";

/// Behind the base these lines show these, and the script ends well.
pub(crate) fn shows(
    alloc: Global,
    rt: &impl Abort,
    script: &[u8],
    shown: &[u8],
) -> Result<(), Fail> {
    let mut whole = BASE.to_vec(alloc)?;
    whole.extend_from_slice(script)?;
    let mut wanted = BASE_SHOWN.to_vec(alloc)?;
    wanted.extend_from_slice(shown)?;
    let got = reference_transcript(alloc, 8192, whole.as_slice())?;
    assert_eq!(rt; got.ending, Ending::Done);
    assert_eq!(rt; got.text.as_slice(), wanted.as_slice());
    Ok(())
}

#[test]
fn scripts_behind_a_base_show_their_lines(rt: HostRuntime) -> Result<(), Fail> {
    let rows: [(&[u8], &[u8]); 11] = [
        (
            b"A: START_TRANS T\nA: PUT T F 1 \"a\"\nA: END_TRANS T\nA: DUMP F\n",
            b"5 SS$_NORMAL A.1.1\n6 RMS$_NORMAL\n7 COMMIT A.1.1 A.1.1 \"17-NOV-1858 00:00:00.01\"\n7 SS$_NORMAL\n8 RECORD 1 \"a\"\n8 SS$_NORMAL 1\n",
        ),
        (
            b"A: START_TRANS T\nA: PUT T F 1 \"a\"\nA: ABORT_TRANS T\nA: DUMP F\nA: END_TRANS T\n",
            b"5 SS$_NORMAL A.1.1\n6 RMS$_NORMAL\n7 ABORT A.1.1 A.1.1 DDTM$_ABORTED \"17-NOV-1858 00:00:00.01\"\n7 SS$_NORMAL\n8 SS$_NORMAL 0\n9 SS$_NOSUCHTID\n",
        ),
        (
            b"A: START_TRANS T\nA: PUT T F 10 \"j\"\nA: PUT T F 11 \"k\"\nA: PUT T F 10 \"k\"\nA: DUMP F\n",
            b"5 SS$_NORMAL A.1.1\n6 RMS$_NORMAL\n7 RMS$_MRN\n8 RMS$_REX\n9 RMS$_FLK A.1.1\n",
        ),
        (
            b"A: START_TRANS T\nA: PUT T F 2 %X00\nA: END_TRANS T\nA: START_TRANS U\nA: PUT U F 1 \"u\"\nCRASH A\nA: DUMP F\nA: BOOT\nA: DUMP F\nA: END_TRANS U\nA: START_TRANS V\nA: PUT V F 3 \"v\"\nA: ABORT_TRANS V\nA: DUMP F\n",
            b"5 SS$_NORMAL A.1.1\n6 RMS$_NORMAL\n7 COMMIT A.1.1 A.1.1 \"17-NOV-1858 00:00:00.01\"\n7 SS$_NORMAL\n8 SS$_NORMAL A.1.2\n9 RMS$_NORMAL\n10 DOWN A CRASH\n10 SS$_NORMAL\n11 NODEDOWN\n12 LAST COMMIT A.1.1 A.1.1 \"17-NOV-1858 00:00:00.01\"\n12 ABORT A.1.2 A.1.2 DDTM$_SEG_FAIL \"17-NOV-1858 00:00:00.02\"\n12 SS$_NORMAL 2\n13 RECORD 2 %X00\n13 SS$_NORMAL 1\n14 SS$_NOSUCHTID\n15 SS$_NORMAL A.2.1\n16 RMS$_NORMAL\n17 ABORT A.2.1 A.2.1 DDTM$_ABORTED \"17-NOV-1858 00:00:00.03\"\n17 SS$_NORMAL\n18 RECORD 2 %X00\n18 SS$_NORMAL 1\n",
        ),
        (
            b"A: CREATE F REL 1 100 10\nA: CREATE G REL 17 100 10\nA: CREATE G REL 16 8160 6453\nA: CREATE G REL 16 8160 403\nA: CREATE H REL 1 100 21\nA: CREATE H REL 1 100 20\nA: SET_FILE H NORU\nA: START_TRANS T\nA: PUT T H 1 \"h\"\nA: SET_FILE I RU\nA: CREATE J REL 1 1 1\n",
            b"5 RMS$_FEX\n6 SS$_BADPARAM\n7 RMS$_FUL VOLUME 6453 103248\n8 SS$_NORMAL\n9 RMS$_FUL VOLUME 5 6\n10 SS$_NORMAL\n11 SS$_NORMAL\n12 SS$_NORMAL A.1.1\n13 NOTRU\n14 RMS$_FNF\n15 RMS$_FUL VOLUME 0 1\n",
        ),
        (
            b"! a comment\n\nFUSE A 5 7\nFUSE B 1 1\nB: BOOT\nA: BOOT\nA: INIT\nA: START_TRANS T\nA: START_TRANS T\nA: START_TRANS U\nA: PUT U F 1 \"a\"\nA: PUT T F 1 \"\"\n",
            b"7 SS$_NORMAL\n8 NOSUCHNODE\n9 NOSUCHNODE\n10 NODEUP\n11 VOLINUSE\n12 SS$_NORMAL A.1.1\n13 LABEL\n14 SS$_NORMAL A.1.2\n15 RMS$_NORMAL\n16 RMS$_RSZ\n",
        ),
        (
            b"A: CREATE S SEQ 1 100 4\nA: SET_FILE S RU\nA: START_TRANS T\nA: PUT T S \"x\"\nA: ABORT_TRANS T\nA: START_TRANS U\nA: PUT U S \"y\"\nA: UPDATE U S 1 \"zz\"\nA: DELETE U S 1\nA: TRUNCATE U S 1\nA: PUT U S \"w\"\nA: END_TRANS U\nA: DUMP S\n",
            b"5 SS$_NORMAL\n6 SS$_NORMAL\n7 SS$_NORMAL A.1.1\n8 RMS$_NORMAL 1\n9 ABORT A.1.1 A.1.1 DDTM$_ABORTED \"17-NOV-1858 00:00:00.01\"\n9 SS$_NORMAL\n10 SS$_NORMAL A.1.2\n11 RMS$_NORMAL 1\n12 RMS$_RSZ\n13 RMS$_IOP\n14 RMS$_NORMAL\n15 RMS$_NORMAL 1\n16 COMMIT A.1.2 A.1.2 \"17-NOV-1858 00:00:00.02\"\n16 SS$_NORMAL\n17 RECORD 1 \"w\"\n17 SS$_NORMAL 1\n",
        ),
        (
            b"A: CREATE I IDX 1 40 20 0 2\nA: SET_FILE I RU\nA: START_TRANS T\nA: PUT T I \"bb1\"\nA: PUT T I \"aa2\"\nA: PUT T I \"aa9\"\nA: UPDATE T I \"aa\" \"ab2\"\nA: PUT T I \"a\"\nA: END_TRANS T\nA: START_TRANS U\nA: DELETE U I \"aa\"\nA: PUT U I \"ab3\"\nA: ABORT_TRANS U\nA: DUMP I\n",
            b"5 SS$_NORMAL\n6 SS$_NORMAL\n7 SS$_NORMAL A.1.1\n8 RMS$_NORMAL\n9 RMS$_NORMAL\n10 RMS$_DUP\n11 RMS$_CHG\n12 RMS$_RSZ\n13 COMMIT A.1.1 A.1.1 \"17-NOV-1858 00:00:00.01\"\n13 SS$_NORMAL\n14 SS$_NORMAL A.1.2\n15 RMS$_NORMAL\n16 RMS$_NORMAL\n17 ABORT A.1.2 A.1.2 DDTM$_ABORTED \"17-NOV-1858 00:00:00.02\"\n17 SS$_NORMAL\n18 RECORD \"aa\" \"aa2\"\n18 RECORD \"bb\" \"bb1\"\n18 SS$_NORMAL 2\n",
        ),
        (
            b"A: CREATE I IDX 1 40 2 0 2\nA: SET_FILE I RU\nA: START_TRANS T\nA: PUT T I \"aa\"\n",
            b"5 SS$_NORMAL\n6 SS$_NORMAL\n7 SS$_NORMAL A.1.1\n8 RMS$_FUL FILE 1 3\n",
        ),
        (
            b"A: START_TRANS T\nA: GET T F 1\nA: NEXT T F\nA: PUT T F 2 \"b\"\nA: PUT T F 1 \"a\"\nA: NEXT T F\nA: NEXT T F 1\nA: NEXT T F 2\nA: UPDATE T F 2 \"bb\"\nA: GET T F 2\nA: DELETE T F 1\nA: DELETE T F 1\nA: NEXT T F 0\nA: TRUNCATE T F 0\nA: PUT T F \"a\"\nA: GET T F \"a\"\nA: END_TRANS T\nA: DUMP F\n",
            b"5 SS$_NORMAL A.1.1\n6 RMS$_RNF\n7 RMS$_EOF\n8 RMS$_NORMAL\n9 RMS$_NORMAL\n10 RMS$_NORMAL 1 \"a\"\n11 RMS$_NORMAL 2 \"b\"\n12 RMS$_EOF\n13 RMS$_NORMAL\n14 RMS$_NORMAL \"bb\"\n15 RMS$_NORMAL\n16 RMS$_RNF\n17 RMS$_MRN\n18 RMS$_IOP\n19 SS$_BADPARAM\n20 SS$_BADPARAM\n21 COMMIT A.1.1 A.1.1 \"17-NOV-1858 00:00:00.01\"\n21 SS$_NORMAL\n22 RECORD 2 \"bb\"\n22 SS$_NORMAL 1\n",
        ),
        (
            b"A: CREATE S SEQ 1 400 2\nA: SET_FILE S RU\nA: START_TRANS T\nA: PUT T S \"12345678901234567890123456789012345678901234567890123456789012345678901234567890123456789012345678901234567890123456789012345678901234567890123456789012345678901234567890123456789012345678901234567890123456789012345678901234567890123456789012345678901234567890\"\nA: PUT T S \"12345678901234567890123456789012345678901234567890123456789012345678901234567890123456789012345678901234567890123456789012345678901234567890123456789012345678901234567890123456789012345678901234567890123456789012345678901234567890123456789012345678901234567890\"\nA: PUT T S \"12345678901234567890123456789012345678901234567890123456789012345678901234567890123456789012345678901234567890123456789012345678901234567890123456789012345678901234567890123456789012345678901234567890123456789012345678901234567890123456789012345678901234567890\"\nA: PUT T S \"c\"\nA: NEXT T S 2\nA: TRUNCATE T S 4\nA: TRUNCATE T S 2\nA: NEXT T S 1\n",
            b"5 SS$_NORMAL\n6 SS$_NORMAL\n7 SS$_NORMAL A.1.1\n8 RMS$_NORMAL 1\n9 RMS$_NORMAL 2\n10 RMS$_FUL FILE 0 1\n11 RMS$_NORMAL 3\n12 RMS$_NORMAL 3 \"c\"\n13 RMS$_RNF\n14 RMS$_NORMAL\n15 RMS$_EOF\n",
        ),
    ];
    for (script, shown) in rows {
        shows(rt.alloc(), &rt, script, shown)?;
    }
    Ok(())
}

#[test]
fn scripts_of_several_branches_show_their_lines(rt: HostRuntime) -> Result<(), Fail> {
    let rows: [(&[u8], &[u8]); 8] = [
        (
            b"A: START_TRANS T\nA: PUT T F 1 \"a\"\nA: DUMP_JOURNAL RU\nA: END_TRANS T\nA: DUMP_JOURNAL RU\n",
            b"5 SS$_NORMAL A.1.1\n6 RMS$_NORMAL\n7 ENTRY 0 CHANGE A.1.1 A.1.1 F 1 -\n7 SS$_NORMAL 0 52\n8 COMMIT A.1.1 A.1.1 \"17-NOV-1858 00:00:00.01\"\n8 SS$_NORMAL\n9 SS$_NORMAL 100 100\n",
        ),
        (
            b"A: START_TRANS T\nA: PUT T F 1 \"a\"\nCRASH A\nA: BOOT\n",
            b"5 SS$_NORMAL A.1.1\n6 RMS$_NORMAL\n7 DOWN A CRASH\n7 SS$_NORMAL\n8 ABORT A.1.1 A.1.1 DDTM$_SEG_FAIL \"17-NOV-1858 00:00:00.01\"\n8 SS$_NORMAL 2\n",
        ),
        (
            b"A: START_TRANS T\nA: PUT T F 1 \"a\"\nA: START_TRANS U\nA: GET U F 1\nA: END_TRANS T\nA: GET U F 1\nA: NEXT U F 1\nA: DELETE U F 2\n",
            b"5 SS$_NORMAL A.1.1\n6 RMS$_NORMAL\n7 SS$_NORMAL A.1.2\n8 RMS$_RLK A.1.1\n9 COMMIT A.1.1 A.1.1 \"17-NOV-1858 00:00:00.01\"\n9 SS$_NORMAL\n10 RMS$_NORMAL \"a\"\n11 RMS$_EOF\n12 RMS$_RNF\n",
        ),
        (
            b"A: START_TRANS T\nA: PUT T F 1 \"a\"\nA: START_TRANS U\nA: PUT U F 2 \"b\"\nA: NEXT U F\nA: END_TRANS U\nA: DUMP_JOURNAL RU\nCRASH A\nA: BOOT\nA: DUMP F\nA: DUMP_JOURNAL RU\n",
            b"5 SS$_NORMAL A.1.1\n6 RMS$_NORMAL\n7 SS$_NORMAL A.1.2\n8 RMS$_NORMAL\n9 RMS$_RLK A.1.1\n10 COMMIT A.1.2 A.1.2 \"17-NOV-1858 00:00:00.01\"\n10 SS$_NORMAL\n11 ENTRY 0 CHANGE A.1.1 A.1.1 F 1 -\n11 ENTRY 52 CHANGE A.1.2 A.1.2 F 2 -\n11 ENTRY 104 SETTLED A.1.2 A.1.2 COMMIT \"17-NOV-1858 00:00:00.01\"\n11 SS$_NORMAL 0 152\n12 DOWN A CRASH\n12 SS$_NORMAL\n13 LAST COMMIT A.1.2 A.1.2 \"17-NOV-1858 00:00:00.01\"\n13 ABORT A.1.1 A.1.1 DDTM$_SEG_FAIL \"17-NOV-1858 00:00:00.02\"\n13 SS$_NORMAL 2\n14 RECORD 2 \"b\"\n14 SS$_NORMAL 1\n15 SS$_NORMAL 200 200\n",
        ),
        (
            b"A: CREATE G REL 1 100 4\nA: PUT - G 4 \"a\"\nA: PUT - G 4 \"b\"\nA: START_TRANS T\nA: GET T G 4\nA: PUT - F 1 \"a\"\nA: PUT T F 1 \"a\"\nA: GET - F 1\nA: NEXT - F\nA: GET - F 2\nA: DELETE - G 4\nA: ABORT_TRANS T\nA: DUMP_JOURNAL RU\n",
            b"5 SS$_NORMAL\n6 COMMIT A.1.1 A.1.1 \"17-NOV-1858 00:00:00.01\"\n6 RMS$_NORMAL\n7 RMS$_REX\n8 SS$_NORMAL A.1.2\n9 NOTRU\n10 RMS$_NRU\n11 RMS$_NORMAL\n12 RMS$_RLK A.1.2\n13 RMS$_RLK A.1.2\n14 RMS$_RNF\n15 COMMIT A.1.3 A.1.3 \"17-NOV-1858 00:00:00.02\"\n15 RMS$_NORMAL\n16 ABORT A.1.2 A.1.2 DDTM$_ABORTED \"17-NOV-1858 00:00:00.03\"\n16 SS$_NORMAL\n17 SS$_NORMAL 100 100\n",
        ),
        (
            b"A: CREATE I IDX 1 40 2 0 2\nA: PUT - I \"aa\"\n",
            b"5 SS$_NORMAL\n6 RMS$_FUL FILE 1 3\n",
        ),
        (
            b"A: CREATE S SEQ 1 100 4\nA: PUT - S \"x\"\nA: SET_FILE S RU\nA: START_TRANS T\nA: START_TRANS U\nA: GET U S 1\nA: PUT T S \"y\"\nA: PUT U S \"z\"\nA: TRUNCATE U S 9\nA: TRUNCATE T S 1\nA: SET_FILE S NORU\nA: ABORT_TRANS T\nA: SET_FILE S NORU\nA: TRUNCATE - S 1\nA: UPDATE - S 1 \"w\"\nA: END_TRANS U\nA: TRUNCATE - S 1\nA: DUMP S\n",
            b"5 SS$_NORMAL\n6 COMMIT A.1.1 A.1.1 \"17-NOV-1858 00:00:00.01\"\n6 RMS$_NORMAL 1\n7 SS$_NORMAL\n8 SS$_NORMAL A.1.2\n9 SS$_NORMAL A.1.3\n10 RMS$_NORMAL \"x\"\n11 RMS$_NORMAL 2\n12 RMS$_RLK A.1.2\n13 RMS$_RLK A.1.2\n14 RMS$_RLK A.1.3\n15 RMS$_FLK A.1.2\n16 ABORT A.1.2 A.1.2 DDTM$_ABORTED \"17-NOV-1858 00:00:00.02\"\n16 SS$_NORMAL\n17 SS$_NORMAL\n18 RMS$_RLK A.1.3\n19 RMS$_RLK A.1.3\n20 COMMIT A.1.3 A.1.3 \"17-NOV-1858 00:00:00.03\"\n20 SS$_NORMAL\n21 COMMIT A.1.4 A.1.4 \"17-NOV-1858 00:00:00.04\"\n21 RMS$_NORMAL\n22 SS$_NORMAL 0\n",
        ),
        (
            b"A: CREATE I IDX 1 40 20 0 2\nA: PUT - I \"bb1\"\nA: SET_FILE I RU\nA: START_TRANS T\nA: START_TRANS U\nA: UPDATE T I \"bb\" \"bb2\"\nA: PUT U I \"aa1\"\nA: UPDATE T I \"bb\" \"bb3\"\nA: DUMP_JOURNAL RU\nA: ABORT_TRANS T\nA: END_TRANS U\nA: DUMP I\nA: DUMP_JOURNAL RU\n",
            b"5 SS$_NORMAL\n6 COMMIT A.1.1 A.1.1 \"17-NOV-1858 00:00:00.01\"\n6 RMS$_NORMAL\n7 SS$_NORMAL\n8 SS$_NORMAL A.1.2\n9 SS$_NORMAL A.1.3\n10 RMS$_NORMAL\n11 RMS$_NORMAL\n12 RMS$_NORMAL\n13 ENTRY 0 CHANGE A.1.2 A.1.2 I \"bb\" \"bb1\"\n13 ENTRY 53 CHANGE A.1.3 A.1.3 I \"aa\" -\n13 ENTRY 103 CHANGE A.1.2 A.1.2 I \"bb\" \"bb2\"\n13 SS$_NORMAL 0 156\n14 ABORT A.1.2 A.1.2 DDTM$_ABORTED \"17-NOV-1858 00:00:00.02\"\n14 SS$_NORMAL\n15 COMMIT A.1.3 A.1.3 \"17-NOV-1858 00:00:00.03\"\n15 SS$_NORMAL\n16 RECORD \"aa\" \"aa1\"\n16 RECORD \"bb\" \"bb1\"\n16 SS$_NORMAL 2\n17 SS$_NORMAL 252 252\n",
        ),
    ];
    for (script, shown) in rows {
        shows(rt.alloc(), &rt, script, shown)?;
    }
    Ok(())
}

// Writes decimal digits of a number below 100.
fn push_number(text: &mut Vec<u8>, n: u8) -> Result<(), Fail> {
    if n >= 10 {
        text.push(b'0' + n / 10)?;
    }
    text.push(b'0' + n % 10)?;
    Ok(())
}

#[test]
fn a_node_has_64_branches(rt: HostRuntime) -> Result<(), Fail> {
    let mut script = Vec::new(rt.alloc());
    let mut shown = Vec::new(rt.alloc());
    for n in 1..66u8 {
        script.extend_from_slice(b"A: START_TRANS T")?;
        push_number(&mut script, n)?;
        script.push(b'\n')?;
        push_number(&mut shown, n + 4)?;
        if n < 65 {
            shown.extend_from_slice(b" SS$_NORMAL A.1.")?;
            push_number(&mut shown, n)?;
            shown.push(b'\n')?;
        } else {
            shown.extend_from_slice(b" SS$_EXQUOTA BRANCHES 64\n")?;
        }
    }
    shows(rt.alloc(), &rt, script.as_slice(), shown.as_slice())
}

// A line with this beginning, and a record of one letter so many times.
fn put_letters(script: &mut Vec<u8>, begin: &[u8], letter: u8, count: usize) -> Result<(), Fail> {
    script.extend_from_slice(begin)?;
    script.extend_from_slice(b" \"")?;
    for _ in 0..count {
        script.push(letter)?;
    }
    script.extend_from_slice(b"\"\n")?;
    Ok(())
}

#[test]
fn a_journal_of_64_blocks_is_full_of_long_images(rt: HostRuntime) -> Result<(), Fail> {
    let mut script =
        b"A: INIT 64 64\nA: BOOT\nA: CREATE G REL 4 2000 4\nA: SET_FILE G RU\nA: START_TRANS T\n".to_vec(
            rt.alloc(),
        )?;
    let mut shown =
        b"1 SS$_NORMAL\n2 SS$_NORMAL 1\n3 SS$_NORMAL\n4 SS$_NORMAL\n5 SS$_NORMAL A.1.1\n6 RMS$_NORMAL\n".to_vec(
            rt.alloc(),
        )?;
    put_letters(&mut script, b"A: PUT T G 1", b'A', 2_000)?;
    for n in 7..23u8 {
        put_letters(&mut script, b"A: UPDATE T G 1", b'A', 2_000)?;
        push_number(&mut shown, n)?;
        if n < 22 {
            shown.extend_from_slice(b" RMS$_NORMAL\n")?;
        } else {
            shown.extend_from_slice(b" RMS$_FUL RU 1840 2052\n")?;
        }
    }
    let got = reference_transcript(rt.alloc(), 8192, script.as_slice())?;
    assert_eq!(rt; got.ending, Ending::Done);
    assert_eq!(rt; got.text.as_slice(), shown.as_slice());
    Ok(())
}

#[test]
fn scripts_on_a_disk_of_zeros_show_their_lines(rt: HostRuntime) -> Result<(), Fail> {
    let rows: [(u32, &[u8], Ending, &[u8]); 4] = [
        (8192, b"", Ending::Done, b""),
        (
            8192,
            b"A: PUT T F 1 \"a\nA: BOOT\n",
            Ending::BadLine,
            b"1 BADLINE 14\n",
        ),
        (
            8192,
            b"A: BOOT\nA: DUMP F\nA: INIT 63 64\nA: INIT 64 64\nA: BOOT\nA: INIT\n",
            Ending::Done,
            b"1 VOLUME A 1 518\n2 NODEDOWN\n3 SS$_BADPARAM\n4 SS$_NORMAL\n5 SS$_NORMAL 1\n6 VOLINUSE\n",
        ),
        (
            1736,
            b"A: INIT\nA: INIT 127 1024",
            Ending::Done,
            b"1 SS$_BADPARAM\n2 SS$_NORMAL\n",
        ),
    ];
    for (blocks, script, ending, shown) in rows {
        let got = reference_transcript(rt.alloc(), blocks, script)?;
        assert_eq!(rt; got.ending, ending);
        assert_eq!(rt; got.text.as_slice(), shown);
    }
    Ok(())
}

// A line that puts a record of 240 bytes, which is this key and then letters.
fn put_long(script: &mut Vec<u8>, key: &[u8]) -> Result<(), Fail> {
    script.extend_from_slice(b"A: PUT T I \"")?;
    script.extend_from_slice(key)?;
    for _ in 0..238 {
        script.push(b'x')?;
    }
    script.extend_from_slice(b"\"\n")?;
    Ok(())
}

#[test]
fn a_third_long_record_takes_a_bucket_and_a_root(rt: HostRuntime) -> Result<(), Fail> {
    let mut script = b"A: CREATE I IDX 1 240 4 0 2\nA: SET_FILE I RU\nA: START_TRANS T\n".to_vec(
        rt.alloc(),
    )?;
    put_long(&mut script, b"bb")?;
    put_long(&mut script, b"aa")?;
    put_long(&mut script, b"cc")?;
    put_long(&mut script, b"dd")?;
    shows(
        rt.alloc(),
        &rt,
        script.as_slice(),
        b"5 SS$_NORMAL\n6 SS$_NORMAL\n7 SS$_NORMAL A.1.1\n8 RMS$_NORMAL\n9 RMS$_NORMAL\n10 RMS$_NORMAL\n11 RMS$_FUL FILE 1 4\n",
    )
}

#[test]
fn longest_record_fills_a_bucket(rt: HostRuntime) -> Result<(), Fail> {
    let mut script = b"A: CREATE G REL 16 8160 4\n".to_vec(rt.alloc())?;
    put_letters(&mut script, b"A: PUT - G 4", b'A', 8_160)?;
    put_letters(&mut script, b"A: PUT - G 4", b'A', 8_161)?;
    script.extend_from_slice(b"A: START_TRANS T\nA: GET T G 4\nA: PUT - F 1 \"a\"\n")?;
    shows(
        rt.alloc(),
        &rt,
        script.as_slice(),
        b"5 SS$_NORMAL\n6 COMMIT A.1.1 A.1.1 \"17-NOV-1858 00:00:00.01\"\n6 RMS$_NORMAL\n7 RMS$_RSZ\n8 SS$_NORMAL A.1.2\n9 NOTRU\n10 RMS$_NRU\n",
    )
}

// Each record fills a leaf, and seven entries an index bucket. So the eighth record is the first that parts the root.
#[test]
fn an_index_of_two_levels_stays_behind_an_abort(rt: HostRuntime) -> Result<(), Fail> {
    let mut script = b"A: CREATE I IDX 1 470 13 0 64\nA: SET_FILE I RU\nA: START_TRANS T\n".to_vec(
        rt.alloc(),
    )?;
    for letter in b'a'..b'j' {
        put_letters(&mut script, b"A: PUT T I", letter, 470)?;
    }
    script.extend_from_slice(b"A: ABORT_TRANS T\nA: START_TRANS U\n")?;
    put_letters(&mut script, b"A: PUT U I", b'a', 470)?;
    script.extend_from_slice(b"A: DUMP I\n")?;
    shows(
        rt.alloc(),
        &rt,
        script.as_slice(),
        b"5 SS$_NORMAL\n6 SS$_NORMAL\n7 SS$_NORMAL A.1.1\n8 RMS$_NORMAL\n9 RMS$_NORMAL\n10 RMS$_NORMAL\n11 RMS$_NORMAL\n12 RMS$_NORMAL\n13 RMS$_NORMAL\n14 RMS$_NORMAL\n15 RMS$_NORMAL\n16 RMS$_FUL FILE 2 5\n17 ABORT A.1.1 A.1.1 DDTM$_ABORTED \"17-NOV-1858 00:00:00.01\"\n17 SS$_NORMAL\n18 SS$_NORMAL A.1.2\n19 RMS$_FUL FILE 2 5\n20 SS$_NORMAL 0\n",
    )
}
