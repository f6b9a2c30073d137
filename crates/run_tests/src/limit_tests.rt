//! What a node has at the most: the files of its volume, its unsettled branches, their changes and locks, and the bytes of its journal.
use std::alloc::Global;
use std::test::Fail;
use test_scripts::Exit;
use test_scripts::one_node::{disk_of, run_on, shown};
use test_scripts::racks::zeros;
use test_scripts::texts::{filled, joined};

// A line for each of these numbers, between two texts.
fn numbered(
    alloc: Global,
    lines: &mut Vec<u8>,
    front: &str,
    from: u32,
    to: u32,
    behind: &str,
) -> Result<(), Fail> {
    for n in from..to {
        lines.extend_from_slice(format!(in alloc; "{front}{n}{behind}\n")?.as_bytes())?;
    }
    Ok(())
}

#[test]
fn a_volume_has_64_files(rt: HostRuntime) -> Result<(), Fail> {
    let mut script = joined(rt.alloc(), &[b"A: INIT\nA: BOOT\n"])?;
    for number in 0..65u32 {
        script.extend_from_slice(format!(in rt.alloc();
            "A: CREATE F{number} REL 1 100 4\n"
        )?.as_bytes())?;
    }
    let disk = zeros(rt.alloc(), 8_192)?;
    let (text, _) = run_on(rt.alloc(), disk, &script)?;
    assert!(rt; text.ends_with(b"\n66 SS$_NORMAL\n67 SS$_EXQUOTA FILES 64\n"));
    Ok(())
}

#[test]
fn a_node_has_64_branches(rt: HostRuntime) -> Result<(), Fail> {
    let mut lines = Vec::new(rt.alloc());
    numbered(rt.alloc(), &mut lines, "A: START_TRANS L", 1, 66, "")?;
    lines.extend_from_slice(b"A: ABORT_TRANS L7\nA: START_TRANS L66\nA: START_TRANS L67\n")?;
    let text = shown(rt.alloc(), &lines, Exit::Done)?;
    assert!(rt;
        text.ends_with(
            b"\n68 SS$_NORMAL A.1.64\n69 SS$_EXQUOTA BRANCHES 64\n70 ABORT A.1.7 A.1.7 DDTM$_ABORTED \"17-NOV-1858 00:00:00.01\"\n70 SS$_NORMAL\n71 SS$_NORMAL A.1.65\n72 SS$_EXQUOTA BRANCHES 64\n"
        )
    );
    Ok(())
}

#[test]
fn branches_make_1024_changes_and_hold_4096_keys(rt: HostRuntime) -> Result<(), Fail> {
    let mut lines = b"A: CREATE G REL 16 1 5000\nA: SET_FILE G RU\n".to_vec(rt.alloc())?;
    for (label, front, from) in [
        ("A: START_TRANS T\n", "A: PUT T G ", 1u32),
        ("A: START_TRANS U\n", "A: PUT U G ", 1_025),
        ("A: START_TRANS V\n", "A: PUT V G ", 2_049),
        ("A: START_TRANS W\n", "A: PUT W G ", 3_073),
    ] {
        lines.extend_from_slice(label.as_bytes())?;
        numbered(rt.alloc(), &mut lines, front, from, from + 1_024, " \"x\"")?;
    }
    lines.extend_from_slice(
        b"A: PUT T G 4097 \"x\"\nA: START_TRANS X\nA: PUT X G 4097 \"x\"\nA: GET X G 4097\nA: GET X G 1\nA: NEXT X G 4096\nA: ABORT_TRANS V\nA: PUT X G 4097 \"x\"\nA: GET X G 2049\nA: END_TRANS W\nA: NEXT X G 2048\n",
    )?;
    let text = shown(rt.alloc(), &lines, Exit::Done)?;
    assert!(rt;
        text.ends_with(
            b"\n4106 RMS$_NORMAL\n4107 SS$_EXQUOTA CHANGES 1024\n4108 SS$_NORMAL A.1.5\n4109 SS$_EXQUOTA LOCKS 4096\n4110 RMS$_RNF\n4111 RMS$_RLK A.1.1\n4112 RMS$_EOF\n4113 ABORT A.1.3 A.1.3 DDTM$_ABORTED \"17-NOV-1858 00:00:00.01\"\n4113 SS$_NORMAL\n4114 RMS$_NORMAL\n4115 RMS$_RNF\n4116 COMMIT A.1.4 A.1.4 \"17-NOV-1858 00:00:00.02\"\n4116 SS$_NORMAL\n4117 RMS$_NORMAL 3073 \"x\"\n"
        )
    );
    Ok(())
}

#[test]
fn a_truncate_of_1024_records_is_undone(rt: HostRuntime) -> Result<(), Fail> {
    let mut lines = b"A: CREATE S SEQ 16 8 8\n".to_vec(rt.alloc())?;
    numbered(rt.alloc(), &mut lines, "A: PUT - S \"", 1, 1_026, "\"")?;
    lines.extend_from_slice(
        b"A: SET_FILE S RU\nA: START_TRANS T\nA: TRUNCATE T S 1\nA: TRUNCATE T S 2\nA: PUT T S \"more\"\nA: TRUNCATE T S 1\nA: ABORT_TRANS T\nA: GET - S 1\nA: GET - S 2\nA: GET - S 1025\nA: NEXT - S 1025\nA: SET_FILE S NORU\nA: TRUNCATE - S 1\nA: TRUNCATE - S 2\nA: DUMP S\n",
    )?;
    let text = shown(rt.alloc(), &lines, Exit::Done)?;
    assert!(rt;
        text.ends_with(
            b"\n1031 SS$_NORMAL\n1032 SS$_NORMAL A.1.1026\n1033 SS$_EXQUOTA CHANGES 1024\n1034 RMS$_NORMAL\n1035 SS$_EXQUOTA CHANGES 1024\n1036 SS$_EXQUOTA CHANGES 1024\n1037 ABORT A.1.1026 A.1.1026 DDTM$_ABORTED \"17-NOV-1858 00:00:10.26\"\n1037 SS$_NORMAL\n1038 RMS$_NORMAL \"1\"\n1039 RMS$_NORMAL \"2\"\n1040 RMS$_NORMAL \"1025\"\n1041 RMS$_EOF\n1042 SS$_NORMAL\n1043 SS$_EXQUOTA CHANGES 1024\n1044 COMMIT A.1.1027 A.1.1027 \"17-NOV-1858 00:00:10.27\"\n1044 RMS$_NORMAL\n1045 RECORD 1 \"1\"\n1045 SS$_NORMAL 1\n"
        )
    );
    Ok(())
}

// Five aborts take the journal's bytes past the end of its ring, and more changes than it has room for are refused.
const RING: &[u8] =
    b"A: INIT 64 64\nA: BOOT\nA: CREATE F REL 16 8000 4\nA: SET_FILE F RU\nA: START_TRANS T\nA: PUT T F 1 \"r{7999}\"\nA: END_TRANS T\nA: START_TRANS A\nA: UPDATE A F 1 \"{8000}\"\nA: ABORT_TRANS A\nA: START_TRANS B\nA: UPDATE B F 1 \"{8000}\"\nA: ABORT_TRANS B\nA: START_TRANS C\nA: UPDATE C F 1 \"{8000}\"\nA: ABORT_TRANS C\nA: START_TRANS D\nA: UPDATE D F 1 \"{8000}\"\nA: ABORT_TRANS D\nA: START_TRANS E\nA: UPDATE E F 1 \"{8000}\"\nA: ABORT_TRANS E\nA: DUMP_JOURNAL RU\nA: START_TRANS V\nA: UPDATE V F 1 \"{8000}\"\nA: UPDATE V F 1 \"{8000}\"\nA: UPDATE V F 1 \"{8000}\"\nA: UPDATE V F 1 \"{8000}\"\nA: UPDATE V F 1 \"{8000}\"\nA: START_TRANS W\nA: PUT W F 2 \"w\"\nA: DELETE V F 1\n";

#[test]
fn a_journal_wraps_and_is_full(rt: HostRuntime) -> Result<(), Fail> {
    let disk = zeros(rt.alloc(), 4_096)?;
    let (text, rack) = run_on(rt.alloc(), disk, &filled(rt.alloc(), RING)?)?;
    assert!(rt;
        text.ends_with(
            b"\n23 SS$_NORMAL 40600 40600\n24 SS$_NORMAL A.1.7\n25 RMS$_NORMAL\n26 RMS$_NORMAL\n27 RMS$_NORMAL\n28 RMS$_NORMAL\n29 RMS$_FUL RU 464 8052\n30 SS$_NORMAL A.1.8\n31 RMS$_NORMAL\n32 RMS$_FUL RU 316 8052\n"
        )
    );
    // The run ends with two transactions that are not settled, and the next run undoes them.
    let (text, _) = run_on(
        rt.alloc(),
        disk_of(rack)?,
        b"A: BOOT\nA: DUMP F\nA: DUMP_JOURNAL RU\n",
    )?;
    let want: &[u8] =
        b"1 LAST ABORT A.1.6 A.1.6 DDTM$_ABORTED \"17-NOV-1858 00:00:00.06\"\n1 ABORT A.1.7 A.1.7 DDTM$_SEG_FAIL \"17-NOV-1858 00:00:00.07\"\n1 ABORT A.1.8 A.1.8 DDTM$_SEG_FAIL \"17-NOV-1858 00:00:00.08\"\n1 SS$_NORMAL 2\n2 RECORD 1 \"r{7999}\"\n2 SS$_NORMAL 1\n3 SS$_NORMAL 72956 72956\n";
    assert_eq!(rt; text, filled(rt.alloc(), want)?);
    Ok(())
}
