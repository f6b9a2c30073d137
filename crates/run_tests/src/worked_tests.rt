//! Worked scripts of one node, with the transcripts that they must show.
use std::test::Fail;
use test_scripts::Exit;
use test_scripts::one_node::{COMMITTING, shown};
use test_scripts::texts::{filled, joined, repeated};

const OPENED: &[u8] = b"1 SS$_NORMAL\n2 SS$_NORMAL 1\n3 SS$_NORMAL\n4 SS$_NORMAL\n";

#[test]
fn scripts_show_their_transcripts(rt: HostRuntime) -> Result<(), Fail> {
    let table: [(&[u8], &[u8], Exit); 21] = [
        (b"", b"", Exit::Done),
        (
            COMMITTING,
            b"5 SS$_NORMAL A.1.1\n6 RMS$_NORMAL\n7 COMMIT A.1.1 A.1.1 \"17-NOV-1858 00:00:00.01\"\n7 SS$_NORMAL\n8 RECORD 1 \"a\"\n8 SS$_NORMAL 1\n",
            Exit::Done,
        ),
        (
            b"A: START_TRANS T\nA: PUT T F 1 \"a\"\nA: ABORT_TRANS T\nA: DUMP F\nA: END_TRANS T\n",
            b"5 SS$_NORMAL A.1.1\n6 RMS$_NORMAL\n7 ABORT A.1.1 A.1.1 DDTM$_ABORTED \"17-NOV-1858 00:00:00.01\"\n7 SS$_NORMAL\n8 SS$_NORMAL 0\n9 SS$_NOSUCHTID\n",
            Exit::Done,
        ),
        (
            b"A: START_TRANS T\nA: PUT T F 10 \"j\"\nA: PUT T F 11 \"k\"\nA: PUT T F 10 \"k\"\nA: DUMP F\n",
            b"5 SS$_NORMAL A.1.1\n6 RMS$_NORMAL\n7 RMS$_MRN\n8 RMS$_REX\n9 RMS$_FLK A.1.1\n",
            Exit::Done,
        ),
        (
            b"! a comment\n\nA: START_TRANS T\nA: START_TRANS T\nA: START_TRANS U\nA: PUT U F 1 \"a\"\nA: PUT T F 1 \"\"\n",
            b"7 SS$_NORMAL A.1.1\n8 LABEL\n9 SS$_NORMAL A.1.2\n10 RMS$_NORMAL\n11 RMS$_RSZ\n",
            Exit::Done,
        ),
        (
            b"A: DUMP F\nA: DUMP G\nB: DUMP F\nA: BOOT\nA: INIT\nA: SHOW F\n",
            b"5 SS$_NORMAL 0\n6 RMS$_FNF\n7 NOSUCHNODE\n8 NODEUP\n9 VOLINUSE\n10 BADLINE 4\n",
            Exit::BadLine,
        ),
        (
            b"A: CREATE F REL 1 1 1\nA: CREATE G REL 17 1 1\nA: CREATE G REL 1 481 1\nA: CREATE G REL 1 480 1\nA: CREATE H REL 16 8160 4294967295\nA: START_TRANS T\nA: PUT T G 1 \"g\"\nA: SET_FILE F NORU\nA: PUT T F 1 \"f\"\nA: SET_FILE G RU\nA: PUT T G 1 \"g\"\nA: SET_FILE G NORU\nCRASH A\nCRASH A\nFUSE A 0 0\nFUSE B 0 0\nA: DUMP G\nA: BOOT\nA: END_TRANS T\nA: DUMP G\n",
            b"5 RMS$_FEX\n6 SS$_BADPARAM\n7 SS$_BADPARAM\n8 SS$_NORMAL\n9 RMS$_FUL VOLUME 6452 68719476720\n10 SS$_NORMAL A.1.1\n11 NOTRU\n12 SS$_NORMAL\n13 NOTRU\n14 SS$_NORMAL\n15 RMS$_NORMAL\n16 RMS$_FLK A.1.1\n17 DOWN A CRASH\n17 SS$_NORMAL\n18 NODEDOWN\n19 SS$_NORMAL\n20 NOSUCHNODE\n21 NODEDOWN\n22 DOWN A STOPPED\n22 STOPPED\n23 NODEDOWN\n24 NODEDOWN\n",
            Exit::Done,
        ),
        (
            b"A: CREATE S SEQ 1 100 4\nA: SET_FILE S RU\nA: START_TRANS T\nA: PUT T S \"x\"\nA: ABORT_TRANS T\nA: START_TRANS U\nA: PUT U S \"y\"\nA: UPDATE U S 1 \"zz\"\nA: DELETE U S 1\nA: TRUNCATE U S 1\nA: PUT U S \"w\"\nA: END_TRANS U\nA: DUMP S\n",
            b"5 SS$_NORMAL\n6 SS$_NORMAL\n7 SS$_NORMAL A.1.1\n8 RMS$_NORMAL 1\n9 ABORT A.1.1 A.1.1 DDTM$_ABORTED \"17-NOV-1858 00:00:00.01\"\n9 SS$_NORMAL\n10 SS$_NORMAL A.1.2\n11 RMS$_NORMAL 1\n12 RMS$_RSZ\n13 RMS$_IOP\n14 RMS$_NORMAL\n15 RMS$_NORMAL 1\n16 COMMIT A.1.2 A.1.2 \"17-NOV-1858 00:00:00.02\"\n16 SS$_NORMAL\n17 RECORD 1 \"w\"\n17 SS$_NORMAL 1\n",
            Exit::Done,
        ),
        (
            b"A: CREATE I IDX 1 40 20 0 2\nA: SET_FILE I RU\nA: START_TRANS T\nA: PUT T I \"bb1\"\nA: PUT T I \"aa2\"\nA: PUT T I \"aa9\"\nA: UPDATE T I \"aa\" \"ab2\"\nA: PUT T I \"a\"\nA: END_TRANS T\nA: START_TRANS U\nA: DELETE U I \"aa\"\nA: PUT U I \"ab3\"\nA: ABORT_TRANS U\nA: DUMP I\n",
            b"5 SS$_NORMAL\n6 SS$_NORMAL\n7 SS$_NORMAL A.1.1\n8 RMS$_NORMAL\n9 RMS$_NORMAL\n10 RMS$_DUP\n11 RMS$_CHG\n12 RMS$_RSZ\n13 COMMIT A.1.1 A.1.1 \"17-NOV-1858 00:00:00.01\"\n13 SS$_NORMAL\n14 SS$_NORMAL A.1.2\n15 RMS$_NORMAL\n16 RMS$_NORMAL\n17 ABORT A.1.2 A.1.2 DDTM$_ABORTED \"17-NOV-1858 00:00:00.02\"\n17 SS$_NORMAL\n18 RECORD \"aa\" \"aa2\"\n18 RECORD \"bb\" \"bb1\"\n18 SS$_NORMAL 2\n",
            Exit::Done,
        ),
        (
            b"A: CREATE I IDX 1 40 2 0 2\nA: START_TRANS T\nA: PUT T I \"aa\"\nA: SET_FILE I RU\nA: PUT T I \"aa\"\nA: GET T I \"aa\"\nA: NEXT T I\n",
            b"5 SS$_NORMAL\n6 SS$_NORMAL A.1.1\n7 NOTRU\n8 SS$_NORMAL\n9 RMS$_FUL FILE 1 3\n10 RMS$_RNF\n11 RMS$_EOF\n",
            Exit::Done,
        ),
        (
            b"A: CREATE S SEQ 1 400 3\nA: SET_FILE S RU\nA: START_TRANS T\nA: PUT T S 1 \"a\"\nA: PUT T S \"a\"\nA: PUT T S \"b\"\nA: PUT T S \"c\"\nA: TRUNCATE T S 4\nA: TRUNCATE T S 0\nA: TRUNCATE T S 2\nA: NEXT T S 1\nA: GET T S 0\nA: NEXT T S 0\nA: GET T S \"a\"\nA: DELETE T S \"a\"\nA: UPDATE T S 1 \"z\"\nA: ABORT_TRANS T\nA: DUMP S\n",
            b"5 SS$_NORMAL\n6 SS$_NORMAL\n7 SS$_NORMAL A.1.1\n8 SS$_BADPARAM\n9 RMS$_NORMAL 1\n10 RMS$_NORMAL 2\n11 RMS$_NORMAL 3\n12 RMS$_RNF\n13 RMS$_RNF\n14 RMS$_NORMAL\n15 RMS$_EOF\n16 RMS$_RNF\n17 RMS$_NORMAL 1 \"a\"\n18 SS$_BADPARAM\n19 SS$_BADPARAM\n20 RMS$_NORMAL\n21 ABORT A.1.1 A.1.1 DDTM$_ABORTED \"17-NOV-1858 00:00:00.01\"\n21 SS$_NORMAL\n22 SS$_NORMAL 0\n",
            Exit::Done,
        ),
        (
            b"A: START_TRANS T\nA: PUT T F 2 \"two\"\nA: UPDATE T F 2 \"too\"\nA: UPDATE T F 3 \"no\"\nA: GET T F 2\nA: DELETE T F 2\nA: GET T F 2\nA: NEXT T F 0\nA: NEXT T F\nA: TRUNCATE T F 1\nA: PUT T F \"x\"\nA: END_TRANS T\nA: DUMP F\n",
            b"5 SS$_NORMAL A.1.1\n6 RMS$_NORMAL\n7 RMS$_NORMAL\n8 RMS$_RNF\n9 RMS$_NORMAL \"too\"\n10 RMS$_NORMAL\n11 RMS$_RNF\n12 RMS$_MRN\n13 RMS$_EOF\n14 RMS$_IOP\n15 SS$_BADPARAM\n16 COMMIT A.1.1 A.1.1 \"17-NOV-1858 00:00:00.01\"\n16 SS$_NORMAL\n17 SS$_NORMAL 0\n",
            Exit::Done,
        ),
        // Refusals of statements on records.
        (
            b"A: CREATE S SEQ 1 100 4\nA: CREATE I IDX 1 40 20 0 2\nA: CREATE G REL 1 100 10\nA: SET_FILE S RU\nA: SET_FILE I RU\nA: START_TRANS T\nA: GET T F 11\nA: UPDATE T F 0 \"a\"\nA: DELETE T F 11\nA: UPDATE T F 1 \"\"\nA: UPDATE T F \"a\" \"a\"\nA: DELETE T F \"a\"\nA: NEXT T F \"a\"\nA: TRUNCATE T F 0\nA: UPDATE T S 0 \"a\"\nA: UPDATE T S 1 \"a\"\nA: UPDATE T S \"x\" \"a\"\nA: UPDATE T S 1 \"\"\nA: NEXT T S \"a\"\nA: GET T S 1\nA: PUT T S \"\"\nA: PUT T I 1 \"aa\"\nA: UPDATE T I \"aa\" \"aa1\"\nA: UPDATE T I 1 \"aa\"\nA: UPDATE T I \"aaa\" \"aaa\"\nA: UPDATE T I \"aa\" \"a\"\nA: DELETE T I \"aa\"\nA: DELETE T I 1\nA: DELETE T I \"a\"\nA: GET T I 1\nA: GET T I \"a\"\nA: NEXT T I 1\nA: NEXT T I \"aaa\"\nA: TRUNCATE T I 0\nA: GET T G 1\nA: UPDATE T G 1 \"a\"\nA: DELETE T G 1\nA: NEXT T G\nA: GET T X 1\nA: GET V X 1\nA: END_TRANS T\nA: PUT T F 0 \"a\"\nA: GET T G 1\nA: NEXT T F\nB: GET T F 1\n",
            b"5 SS$_NORMAL\n6 SS$_NORMAL\n7 SS$_NORMAL\n8 SS$_NORMAL\n9 SS$_NORMAL\n10 SS$_NORMAL A.1.1\n11 RMS$_MRN\n12 RMS$_MRN\n13 RMS$_MRN\n14 RMS$_RSZ\n15 SS$_BADPARAM\n16 SS$_BADPARAM\n17 SS$_BADPARAM\n18 RMS$_IOP\n19 RMS$_RNF\n20 RMS$_RNF\n21 SS$_BADPARAM\n22 RMS$_RSZ\n23 SS$_BADPARAM\n24 RMS$_RNF\n25 RMS$_RSZ\n26 SS$_BADPARAM\n27 RMS$_RNF\n28 SS$_BADPARAM\n29 SS$_BADPARAM\n30 RMS$_RSZ\n31 RMS$_RNF\n32 SS$_BADPARAM\n33 SS$_BADPARAM\n34 SS$_BADPARAM\n35 SS$_BADPARAM\n36 SS$_BADPARAM\n37 SS$_BADPARAM\n38 RMS$_IOP\n39 NOTRU\n40 NOTRU\n41 NOTRU\n42 NOTRU\n43 RMS$_FNF\n44 LABEL\n45 COMMIT A.1.1 A.1.1 \"17-NOV-1858 00:00:00.01\"\n45 SS$_NORMAL\n46 RMS$_MRN\n47 SS$_NOSUCHTID\n48 SS$_NOSUCHTID\n49 NOSUCHNODE\n",
            Exit::Done,
        ),
        // A label before the file, the form of the operands before the transaction, and the transaction before the mark.
        (
            b"A: CREATE I IDX 1 40 20 0 2\nA: CREATE G REL 1 100 10\nA: START_TRANS T\nA: END_TRANS T\nA: PUT X G 1 \"\"\nA: PUT T Z 1 \"\"\nA: PUT T I 1 \"\"\nA: PUT T F 0 \"\"\nA: PUT T F 1 \"\"\nA: PUT T F 1 \"a\"\nA: TRUNCATE T F 0\nA: START_TRANS U\nA: PUT U I \"aa1\"\n",
            b"5 SS$_NORMAL\n6 SS$_NORMAL\n7 SS$_NORMAL A.1.1\n8 COMMIT A.1.1 A.1.1 \"17-NOV-1858 00:00:00.01\"\n8 SS$_NORMAL\n9 LABEL\n10 RMS$_FNF\n11 SS$_BADPARAM\n12 RMS$_MRN\n13 RMS$_RSZ\n14 SS$_NOSUCHTID\n15 RMS$_IOP\n16 SS$_NORMAL A.1.2\n17 NOTRU\n",
            Exit::Done,
        ),
        // The change of a branch that a crash ended is undone by the next boot, and the branch is gone.
        (
            b"A: CREATE I IDX 1 40 20 0 2\nA: SET_FILE I RU\nA: START_TRANS T\nA: PUT T I \"aa1\"\nA: END_TRANS T\nA: START_TRANS U\nA: DELETE U I \"aa\"\nCRASH A\nA: BOOT\nA: DUMP I\nA: END_TRANS U\n",
            b"5 SS$_NORMAL\n6 SS$_NORMAL\n7 SS$_NORMAL A.1.1\n8 RMS$_NORMAL\n9 COMMIT A.1.1 A.1.1 \"17-NOV-1858 00:00:00.01\"\n9 SS$_NORMAL\n10 SS$_NORMAL A.1.2\n11 RMS$_NORMAL\n12 DOWN A CRASH\n12 SS$_NORMAL\n13 LAST COMMIT A.1.1 A.1.1 \"17-NOV-1858 00:00:00.01\"\n13 ABORT A.1.2 A.1.2 DDTM$_SEG_FAIL \"17-NOV-1858 00:00:00.02\"\n13 SS$_NORMAL 2\n14 RECORD \"aa\" \"aa1\"\n14 SS$_NORMAL 1\n15 SS$_NOSUCHTID\n",
            Exit::Done,
        ),
        // One abort over files of all three organizations.
        (
            b"A: CREATE S SEQ 1 100 4\nA: SET_FILE S RU\nA: CREATE I IDX 1 40 4 0 2\nA: SET_FILE I RU\nA: START_TRANS T\nA: PUT T F 1 \"f\"\nA: PUT T S \"s\"\nA: PUT T I \"aa1\"\nA: END_TRANS T\nA: START_TRANS U\nA: UPDATE U F 1 \"g\"\nA: PUT U S \"t\"\nA: DELETE U I \"aa\"\nA: PUT U F 2 \"h\"\nA: TRUNCATE U S 1\nA: PUT U I \"bb2\"\nA: DELETE U F 1\nA: ABORT_TRANS U\nA: DUMP F\nA: DUMP S\nA: DUMP I\n",
            b"5 SS$_NORMAL\n6 SS$_NORMAL\n7 SS$_NORMAL\n8 SS$_NORMAL\n9 SS$_NORMAL A.1.1\n10 RMS$_NORMAL\n11 RMS$_NORMAL 1\n12 RMS$_NORMAL\n13 COMMIT A.1.1 A.1.1 \"17-NOV-1858 00:00:00.01\"\n13 SS$_NORMAL\n14 SS$_NORMAL A.1.2\n15 RMS$_NORMAL\n16 RMS$_NORMAL 2\n17 RMS$_NORMAL\n18 RMS$_NORMAL\n19 RMS$_NORMAL\n20 RMS$_NORMAL\n21 RMS$_NORMAL\n22 ABORT A.1.2 A.1.2 DDTM$_ABORTED \"17-NOV-1858 00:00:00.02\"\n22 SS$_NORMAL\n23 RECORD 1 \"f\"\n23 SS$_NORMAL 1\n24 RECORD 1 \"s\"\n24 SS$_NORMAL 1\n25 RECORD \"aa\" \"aa1\"\n25 SS$_NORMAL 1\n",
            Exit::Done,
        ),
        // What one transaction has changed is held against another until it is settled.
        (
            b"A: START_TRANS T\nA: PUT T F 1 \"a\"\nA: START_TRANS U\nA: GET U F 1\nA: END_TRANS T\nA: GET U F 1\nA: NEXT U F 1\nA: DELETE U F 2\n",
            b"5 SS$_NORMAL A.1.1\n6 RMS$_NORMAL\n7 SS$_NORMAL A.1.2\n8 RMS$_RLK A.1.1\n9 COMMIT A.1.1 A.1.1 \"17-NOV-1858 00:00:00.01\"\n9 SS$_NORMAL\n10 RMS$_NORMAL \"a\"\n11 RMS$_EOF\n12 RMS$_RNF\n",
            Exit::Done,
        ),
        (
            b"A: CREATE I IDX 1 40 2 0 2\nA: PUT - I \"aa\"\n",
            b"5 SS$_NORMAL\n6 RMS$_FUL FILE 1 3\n",
            Exit::Done,
        ),
        // The journal of recovery units, and a restart.
        (
            b"A: START_TRANS T\nA: PUT T F 1 \"a\"\nA: DUMP_JOURNAL RU\nA: END_TRANS T\nA: DUMP_JOURNAL RU\n",
            b"5 SS$_NORMAL A.1.1\n6 RMS$_NORMAL\n7 ENTRY 0 CHANGE A.1.1 A.1.1 F 1 -\n7 SS$_NORMAL 0 52\n8 COMMIT A.1.1 A.1.1 \"17-NOV-1858 00:00:00.01\"\n8 SS$_NORMAL\n9 SS$_NORMAL 100 100\n",
            Exit::Done,
        ),
        (
            b"A: START_TRANS T\nA: PUT T F 1 \"a\"\nCRASH A\nA: BOOT\n",
            b"5 SS$_NORMAL A.1.1\n6 RMS$_NORMAL\n7 DOWN A CRASH\n7 SS$_NORMAL\n8 ABORT A.1.1 A.1.1 DDTM$_SEG_FAIL \"17-NOV-1858 00:00:00.01\"\n8 SS$_NORMAL 2\n",
            Exit::Done,
        ),
        // A disk that stops before its first write has nothing of the change.
        (
            b"A: START_TRANS T\nFUSE A 0 0\nA: PUT T F 1 \"a\"\nA: DUMP F\nA: BOOT\nA: DUMP F\n",
            b"5 SS$_NORMAL A.1.1\n6 SS$_NORMAL\n7 DOWN A STOPPED\n7 STOPPED\n8 NODEDOWN\n9 SS$_NORMAL 2\n10 SS$_NORMAL 0\n",
            Exit::Done,
        ),
    ];
    for (lines, want, exit) in table {
        let text = shown(rt.alloc(), lines, exit)?;
        assert_eq!(rt; text, joined(rt.alloc(), &[OPENED, want])?);
    }
    Ok(())
}

#[test]
fn long_records_show_their_transcripts(rt: HostRuntime) -> Result<(), Fail> {
    let table: [(&[u8], &[u8]); 16] = [
        // A change without a transaction, and files with a mark and without one.
        (
            b"A: CREATE G REL 16 8160 4\nA: PUT - G 4 \"{8160}\"\nA: PUT - G 4 \"{8161}\"\nA: START_TRANS T\nA: GET T G 4\nA: PUT - F 1 \"a\"\n",
            b"5 SS$_NORMAL\n6 COMMIT A.1.1 A.1.1 \"17-NOV-1858 00:00:00.01\"\n6 RMS$_NORMAL\n7 RMS$_RSZ\n8 SS$_NORMAL A.1.2\n9 NOTRU\n10 RMS$_NRU\n",
        ),
        // A truncate goes across buckets.
        (
            b"A: CREATE S SEQ 1 400 4\nA: SET_FILE S RU\nA: START_TRANS T\nA: PUT T S \"{240}\"\nA: PUT T S \"{240}\"\nA: PUT T S \"{240}\"\nA: PUT T S \"{240}\"\nA: PUT T S \"{240}\"\nA: PUT T S \"{240}\"\nA: PUT T S \"{240}\"\nA: PUT T S \"{240}\"\nA: PUT T S \"{240}\"\nA: TRUNCATE T S 2\nA: PUT T S \"a\"\nA: PUT T S \"b\"\nA: ABORT_TRANS T\nA: DUMP S\n",
            b"5 SS$_NORMAL\n6 SS$_NORMAL\n7 SS$_NORMAL A.1.1\n8 RMS$_NORMAL 1\n9 RMS$_NORMAL 2\n10 RMS$_NORMAL 3\n11 RMS$_NORMAL 4\n12 RMS$_NORMAL 5\n13 RMS$_NORMAL 6\n14 RMS$_NORMAL 7\n15 RMS$_NORMAL 8\n16 RMS$_FUL FILE 0 1\n17 RMS$_NORMAL\n18 RMS$_NORMAL 2\n19 RMS$_NORMAL 3\n20 ABORT A.1.1 A.1.1 DDTM$_ABORTED \"17-NOV-1858 00:00:00.01\"\n20 SS$_NORMAL\n21 SS$_NORMAL 0\n",
        ),
        // An abort puts back what a truncate took.
        (
            b"A: CREATE S SEQ 1 400 2\nA: SET_FILE S RU\nA: START_TRANS T\nA: PUT T S \"{240}\"\nA: PUT T S \"{240}\"\nA: PUT T S \"{240}\"\nA: END_TRANS T\nA: START_TRANS U\nA: TRUNCATE U S 1\nA: PUT U S \"a\"\nA: ABORT_TRANS U\nA: DUMP S\n",
            b"5 SS$_NORMAL\n6 SS$_NORMAL\n7 SS$_NORMAL A.1.1\n8 RMS$_NORMAL 1\n9 RMS$_NORMAL 2\n10 RMS$_NORMAL 3\n11 COMMIT A.1.1 A.1.1 \"17-NOV-1858 00:00:00.01\"\n11 SS$_NORMAL\n12 SS$_NORMAL A.1.2\n13 RMS$_NORMAL\n14 RMS$_NORMAL 1\n15 ABORT A.1.2 A.1.2 DDTM$_ABORTED \"17-NOV-1858 00:00:00.02\"\n15 SS$_NORMAL\n16 RECORD 1 \"{240}\"\n16 RECORD 2 \"{240}\"\n16 RECORD 3 \"{240}\"\n16 SS$_NORMAL 3\n",
        ),
        // An abort sets back the keys of parted buckets.
        (
            b"A: CREATE S IDX 1 200 9 0 2\nA: SET_FILE S RU\nA: START_TRANS T\nA: PUT T S \"aa{118}\"\nA: PUT T S \"ee{118}\"\nA: END_TRANS T\nA: START_TRANS U\nA: DELETE U S \"aa\"\nA: PUT U S \"bb{118}\"\nA: PUT U S \"cc{118}\"\nA: PUT U S \"dd{118}\"\nA: UPDATE U S \"ee\" \"eey\"\nA: NEXT U S \"dd\"\nA: ABORT_TRANS U\nA: DUMP S\n",
            b"5 SS$_NORMAL\n6 SS$_NORMAL\n7 SS$_NORMAL A.1.1\n8 RMS$_NORMAL\n9 RMS$_NORMAL\n10 COMMIT A.1.1 A.1.1 \"17-NOV-1858 00:00:00.01\"\n10 SS$_NORMAL\n11 SS$_NORMAL A.1.2\n12 RMS$_NORMAL\n13 RMS$_NORMAL\n14 RMS$_NORMAL\n15 RMS$_NORMAL\n16 RMS$_NORMAL\n17 RMS$_NORMAL \"ee\" \"eey\"\n18 ABORT A.1.2 A.1.2 DDTM$_ABORTED \"17-NOV-1858 00:00:00.02\"\n18 SS$_NORMAL\n19 RECORD \"aa\" \"aa{118}\"\n19 RECORD \"ee\" \"ee{118}\"\n19 SS$_NORMAL 2\n",
        ),
        // Records fill a bucket of a sequential file to its last byte, and the positions behind a truncate are taken again.
        (
            b"A: CREATE S SEQ 1 400 2\nA: SET_FILE S RU\nA: START_TRANS T\nA: PUT T S \"{240}\"\nA: PUT T S \"{240}\"\nA: PUT T S \"c\"\nA: PUT T S \"{240}\"\nA: UPDATE T S 3 \"d\"\nA: UPDATE T S 3 \"dd\"\nA: UPDATE T S 5 \"d\"\nA: UPDATE T S 1 \"\"\nA: TRUNCATE T S 3\nA: PUT T S \"{10}\"\nA: PUT T S \"e\"\nA: PUT T S \"{240}\"\nA: PUT T S \"{252}\"\nA: ABORT_TRANS T\nA: DUMP S\n",
            b"5 SS$_NORMAL\n6 SS$_NORMAL\n7 SS$_NORMAL A.1.1\n8 RMS$_NORMAL 1\n9 RMS$_NORMAL 2\n10 RMS$_NORMAL 3\n11 RMS$_NORMAL 4\n12 RMS$_NORMAL\n13 RMS$_RSZ\n14 RMS$_RNF\n15 RMS$_RSZ\n16 RMS$_NORMAL\n17 RMS$_NORMAL 3\n18 RMS$_NORMAL 4\n19 RMS$_NORMAL 5\n20 RMS$_FUL FILE 0 1\n21 ABORT A.1.1 A.1.1 DDTM$_ABORTED \"17-NOV-1858 00:00:00.01\"\n21 SS$_NORMAL\n22 SS$_NORMAL 0\n",
        ),
        // Four slots fill a bucket of an indexed file to its last byte, and it is parted at the lower of two equal places. A change in place wants
        // free buckets too.
        (
            b"A: CREATE I IDX 1 200 4 0 2\nA: SET_FILE I RU\nA: START_TRANS T\nA: PUT T I \"aa{118}\"\nA: PUT T I \"bb{118}\"\nA: PUT T I \"cc{118}\"\nA: PUT T I \"dd{118}\"\nA: PUT T I \"ee{118}\"\nA: UPDATE T I \"aa\" \"aa1\"\nA: PUT T I \"aa1\"\nA: UPDATE T I \"zz\" \"zz1\"\nA: UPDATE T I \"aa\" \"ab1\"\nA: DELETE T I \"aa\"\nA: GET T I \"aa\"\nA: PUT T I \"aa1\"\nA: NEXT T I \"aa\"\nA: NEXT T I \"a\"\n",
            b"5 SS$_NORMAL\n6 SS$_NORMAL\n7 SS$_NORMAL A.1.1\n8 RMS$_NORMAL\n9 RMS$_NORMAL\n10 RMS$_NORMAL\n11 RMS$_NORMAL\n12 RMS$_NORMAL\n13 RMS$_FUL FILE 1 4\n14 RMS$_DUP\n15 RMS$_RNF\n16 RMS$_CHG\n17 RMS$_NORMAL\n18 RMS$_RNF\n19 RMS$_FUL FILE 1 4\n20 RMS$_NORMAL \"bb\" \"bb{118}\"\n21 SS$_BADPARAM\n",
        ),
        // The slot of a deleted record goes where nobody holds its key, and buckets that were added stay.
        (
            b"A: CREATE I IDX 1 200 4 0 2\nA: SET_FILE I RU\nA: START_TRANS T\nA: PUT T I \"aa{118}\"\nA: PUT T I \"bb{118}\"\nA: PUT T I \"cc{118}\"\nA: PUT T I \"dd{118}\"\nA: END_TRANS T\nA: START_TRANS U\nA: DELETE U I \"aa\"\nA: END_TRANS U\nA: START_TRANS V\nA: PUT V I \"ee{118}\"\nA: PUT V I \"ff{118}\"\nA: PUT V I \"gg{118}\"\nA: ABORT_TRANS V\nA: DUMP I\nA: START_TRANS W\nA: PUT W I \"hh{118}\"\n",
            b"5 SS$_NORMAL\n6 SS$_NORMAL\n7 SS$_NORMAL A.1.1\n8 RMS$_NORMAL\n9 RMS$_NORMAL\n10 RMS$_NORMAL\n11 RMS$_NORMAL\n12 COMMIT A.1.1 A.1.1 \"17-NOV-1858 00:00:00.01\"\n12 SS$_NORMAL\n13 SS$_NORMAL A.1.2\n14 RMS$_NORMAL\n15 COMMIT A.1.2 A.1.2 \"17-NOV-1858 00:00:00.02\"\n15 SS$_NORMAL\n16 SS$_NORMAL A.1.3\n17 RMS$_NORMAL\n18 RMS$_NORMAL\n19 RMS$_FUL FILE 1 4\n20 ABORT A.1.3 A.1.3 DDTM$_ABORTED \"17-NOV-1858 00:00:00.03\"\n20 SS$_NORMAL\n21 RECORD \"bb\" \"bb{118}\"\n21 RECORD \"cc\" \"cc{118}\"\n21 RECORD \"dd\" \"dd{118}\"\n21 SS$_NORMAL 3\n22 SS$_NORMAL A.1.4\n23 RMS$_FUL FILE 1 4\n",
        ),
        // It stays while its key is held.
        (
            b"A: CREATE I IDX 1 200 4 0 2\nA: SET_FILE I RU\nA: START_TRANS T\nA: PUT T I \"aa{118}\"\nA: PUT T I \"bb{118}\"\nA: PUT T I \"cc{118}\"\nA: PUT T I \"dd{118}\"\nA: END_TRANS T\nA: START_TRANS U\nA: DELETE U I \"aa\"\nA: PUT U I \"ee{118}\"\nA: PUT U I \"ff{118}\"\nA: ABORT_TRANS U\nA: DUMP I\n",
            b"5 SS$_NORMAL\n6 SS$_NORMAL\n7 SS$_NORMAL A.1.1\n8 RMS$_NORMAL\n9 RMS$_NORMAL\n10 RMS$_NORMAL\n11 RMS$_NORMAL\n12 COMMIT A.1.1 A.1.1 \"17-NOV-1858 00:00:00.01\"\n12 SS$_NORMAL\n13 SS$_NORMAL A.1.2\n14 RMS$_NORMAL\n15 RMS$_NORMAL\n16 RMS$_FUL FILE 1 4\n17 ABORT A.1.2 A.1.2 DDTM$_ABORTED \"17-NOV-1858 00:00:00.02\"\n17 SS$_NORMAL\n18 RECORD \"aa\" \"aa{118}\"\n18 RECORD \"bb\" \"bb{118}\"\n18 RECORD \"cc\" \"cc{118}\"\n18 RECORD \"dd\" \"dd{118}\"\n18 SS$_NORMAL 4\n",
        ),
        // A bucket becomes three.
        (
            b"A: CREATE I IDX 1 480 5 0 2\nA: SET_FILE I RU\nA: START_TRANS T\nA: PUT T I \"aa{198}\"\nA: PUT T I \"cc{198}\"\nA: PUT T I \"bb{478}\"\nA: PUT T I \"dd1\"\nA: NEXT T I\nA: NEXT T I \"aa\"\nA: NEXT T I \"bb\"\nA: NEXT T I \"cc\"\n",
            b"5 SS$_NORMAL\n6 SS$_NORMAL\n7 SS$_NORMAL A.1.1\n8 RMS$_NORMAL\n9 RMS$_NORMAL\n10 RMS$_NORMAL\n11 RMS$_FUL FILE 1 4\n12 RMS$_NORMAL \"aa\" \"aa{198}\"\n13 RMS$_NORMAL \"bb\" \"bb{478}\"\n14 RMS$_NORMAL \"cc\" \"cc{198}\"\n15 RMS$_EOF\n",
        ),
        // The room that an abort leaves goes once the bucket is tidied.
        (
            b"A: CREATE I IDX 1 480 4 0 2\nA: SET_FILE I RU\nA: START_TRANS T\nA: PUT T I \"aa{8}\"\nA: END_TRANS T\nA: START_TRANS U\nA: UPDATE U I \"aa\" \"aa{298}\"\nA: ABORT_TRANS U\nA: START_TRANS V\nA: PUT V I \"bb{178}\"\nA: PUT V I \"cc{198}\"\nA: PUT V I \"dd1\"\n",
            b"5 SS$_NORMAL\n6 SS$_NORMAL\n7 SS$_NORMAL A.1.1\n8 RMS$_NORMAL\n9 COMMIT A.1.1 A.1.1 \"17-NOV-1858 00:00:00.01\"\n9 SS$_NORMAL\n10 SS$_NORMAL A.1.2\n11 RMS$_NORMAL\n12 ABORT A.1.2 A.1.2 DDTM$_ABORTED \"17-NOV-1858 00:00:00.02\"\n12 SS$_NORMAL\n13 SS$_NORMAL A.1.3\n14 RMS$_NORMAL\n15 RMS$_NORMAL\n16 RMS$_NORMAL\n",
        ),
        // Each organization keeps records of 8,160 bytes and of 1 byte.
        (
            b"A: CREATE G SEQ 16 8160 4\nA: SET_FILE G RU\nA: START_TRANS T\nA: PUT T G \"{8160}\"\nA: PUT T G \"y\"\nA: PUT T G \"{8161}\"\nA: END_TRANS T\nA: DUMP G\n",
            b"5 SS$_NORMAL\n6 SS$_NORMAL\n7 SS$_NORMAL A.1.1\n8 RMS$_NORMAL 1\n9 RMS$_NORMAL 2\n10 RMS$_RSZ\n11 COMMIT A.1.1 A.1.1 \"17-NOV-1858 00:00:00.01\"\n11 SS$_NORMAL\n12 RECORD 1 \"{8160}\"\n12 RECORD 2 \"y\"\n12 SS$_NORMAL 2\n",
        ),
        (
            b"A: CREATE G REL 16 8160 4\nA: SET_FILE G RU\nA: START_TRANS T\nA: PUT T G 4 \"{8160}\"\nA: PUT T G 3 \"y\"\nA: PUT T G 2 \"{8161}\"\nA: END_TRANS T\nA: DUMP G\n",
            b"5 SS$_NORMAL\n6 SS$_NORMAL\n7 SS$_NORMAL A.1.1\n8 RMS$_NORMAL\n9 RMS$_NORMAL\n10 RMS$_RSZ\n11 COMMIT A.1.1 A.1.1 \"17-NOV-1858 00:00:00.01\"\n11 SS$_NORMAL\n12 RECORD 3 \"y\"\n12 RECORD 4 \"{8160}\"\n12 SS$_NORMAL 2\n",
        ),
        (
            b"A: CREATE G IDX 16 8160 8 0 1\nA: SET_FILE G RU\nA: START_TRANS T\nA: PUT T G \"{8160}\"\nA: PUT T G \"y\"\nA: PUT T G \"z{8160}\"\nA: END_TRANS T\nA: DUMP G\n",
            b"5 SS$_NORMAL\n6 SS$_NORMAL\n7 SS$_NORMAL A.1.1\n8 RMS$_NORMAL\n9 RMS$_NORMAL\n10 RMS$_RSZ\n11 COMMIT A.1.1 A.1.1 \"17-NOV-1858 00:00:00.01\"\n11 SS$_NORMAL\n12 RECORD \"x\" \"{8160}\"\n12 RECORD \"y\" \"y\"\n12 SS$_NORMAL 2\n",
        ),
        // A key of 64 bytes stands at the record's end.
        (
            b"A: CREATE I IDX 16 8160 6 8096 64\nA: SET_FILE I RU\nA: START_TRANS T\nA: PUT T I \"{8096}b{63}\"\nA: PUT T I \"{8096}a{63}\"\nA: PUT T I \"{8096}a{63}\"\nA: PUT T I \"{8159}\"\nA: NEXT T I\nA: GET T I \"b{63}\"\nA: NEXT T I \"b{63}\"\nA: DELETE T I \"b{63}\"\nA: ABORT_TRANS T\nA: DUMP I\n",
            b"5 SS$_NORMAL\n6 SS$_NORMAL\n7 SS$_NORMAL A.1.1\n8 RMS$_NORMAL\n9 RMS$_NORMAL\n10 RMS$_DUP\n11 RMS$_RSZ\n12 RMS$_NORMAL \"a{63}\" \"{8096}a{63}\"\n13 RMS$_NORMAL \"{8096}b{63}\"\n14 RMS$_EOF\n15 RMS$_NORMAL\n16 ABORT A.1.1 A.1.1 DDTM$_ABORTED \"17-NOV-1858 00:00:00.01\"\n16 SS$_NORMAL\n17 SS$_NORMAL 0\n",
        ),
        // 31 cells of 16 bytes, and 2 of 248, fill a bucket of a relative file to its last byte.
        (
            b"A: CREATE R REL 1 14 62\nA: SET_FILE R RU\nA: START_TRANS T\nA: PUT T R 1 \"a{13}\"\nA: PUT T R 31 \"b{13}\"\nA: PUT T R 32 \"c{13}\"\nA: PUT T R 62 \"d{13}\"\nA: PUT T R 63 \"e{13}\"\nA: DELETE T R 31\nA: NEXT T R 1\nA: PUT T R 31 \"b{13}\"\nA: END_TRANS T\nA: DUMP R\n",
            b"5 SS$_NORMAL\n6 SS$_NORMAL\n7 SS$_NORMAL A.1.1\n8 RMS$_NORMAL\n9 RMS$_NORMAL\n10 RMS$_NORMAL\n11 RMS$_NORMAL\n12 RMS$_MRN\n13 RMS$_NORMAL\n14 RMS$_NORMAL 32 \"c{13}\"\n15 RMS$_NORMAL\n16 COMMIT A.1.1 A.1.1 \"17-NOV-1858 00:00:00.01\"\n16 SS$_NORMAL\n17 RECORD 1 \"a{13}\"\n17 RECORD 31 \"b{13}\"\n17 RECORD 32 \"c{13}\"\n17 RECORD 62 \"d{13}\"\n17 SS$_NORMAL 4\n",
        ),
        (
            b"A: CREATE R REL 1 246 4\nA: SET_FILE R RU\nA: START_TRANS T\nA: PUT T R 1 \"a{245}\"\nA: PUT T R 2 \"b{245}\"\nA: PUT T R 3 \"c{245}\"\nA: PUT T R 4 \"d{245}\"\nA: PUT T R 5 \"e{245}\"\nA: END_TRANS T\nA: DUMP R\n",
            b"5 SS$_NORMAL\n6 SS$_NORMAL\n7 SS$_NORMAL A.1.1\n8 RMS$_NORMAL\n9 RMS$_NORMAL\n10 RMS$_NORMAL\n11 RMS$_NORMAL\n12 RMS$_MRN\n13 COMMIT A.1.1 A.1.1 \"17-NOV-1858 00:00:00.01\"\n13 SS$_NORMAL\n14 RECORD 1 \"a{245}\"\n14 RECORD 2 \"b{245}\"\n14 RECORD 3 \"c{245}\"\n14 RECORD 4 \"d{245}\"\n14 SS$_NORMAL 4\n",
        ),
    ];
    for (lines, want) in table {
        let text = shown(rt.alloc(), &filled(rt.alloc(), lines)?, Exit::Done)?;
        let want = joined(rt.alloc(), &[OPENED, want])?;
        assert_eq!(rt; text, filled(rt.alloc(), &want)?);
    }
    Ok(())
}

// The longest record of a file without a mark is put at once, and one that is a byte longer is refused.
#[test]
fn a_record_of_8160_capitals_is_put_at_once(rt: HostRuntime) -> Result<(), Fail> {
    let record = repeated(rt.alloc(), b'A', 8_160)?;
    let lines = joined(
        rt.alloc(),
        &[
            b"A: CREATE G REL 16 8160 4\nA: PUT - G 4 \"",
            record.as_slice(),
            b"\"\nA: PUT - G 4 \"",
            record.as_slice(),
            b"A\"\nA: START_TRANS T\nA: GET T G 4\nA: PUT - F 1 \"a\"\n",
        ],
    )?;
    let want = joined(
        rt.alloc(),
        &[
            OPENED,
            b"5 SS$_NORMAL\n6 COMMIT A.1.1 A.1.1 \"17-NOV-1858 00:00:00.01\"\n6 RMS$_NORMAL\n7 RMS$_RSZ\n8 SS$_NORMAL A.1.2\n9 NOTRU\n10 RMS$_NRU\n",
        ],
    )?;
    assert_eq!(rt; shown(rt.alloc(), &lines, Exit::Done)?, want);
    Ok(())
}

// An abort that sets back more blocks than a group has.
#[test]
fn an_abort_takes_several_groups(rt: HostRuntime) -> Result<(), Fail> {
    let mut lines = Vec::new(rt.alloc());
    for number in 0..60u32 {
        lines.extend_from_slice(format!(in rt.alloc();
            "A: CREATE S{number} SEQ 16 8160 1\nA: SET_FILE S{number} RU\n"
        )?.as_bytes())?;
    }
    lines.extend_from_slice(b"A: START_TRANS T\n")?;
    for number in 0..60u32 {
        lines.extend_from_slice(format!(in rt.alloc(); "A: PUT T S{number} \"a\"\n")?.as_bytes())?;
    }
    lines.extend_from_slice(b"A: PUT T S0 \"b\"\nA: ABORT_TRANS T\nA: DUMP S0\nA: DUMP S59\n")?;
    let text = shown(rt.alloc(), &lines, Exit::Done)?;
    assert!(rt;
        text.ends_with(
            b"\n185 RMS$_NORMAL 1\n186 RMS$_NORMAL 2\n187 ABORT A.1.1 A.1.1 DDTM$_ABORTED \"17-NOV-1858 00:00:00.01\"\n187 SS$_NORMAL\n188 SS$_NORMAL 0\n189 SS$_NORMAL 0\n"
        )
    );
    Ok(())
}
