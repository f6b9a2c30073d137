// Lines with what they say, or with the columns at which they leave the grammar.
use script_lang::*;
use std::alloc::Global;
use std::process::Abort;
use std::test::Fail;
use vms_base::{FileName, Id, Label, Moment, NodeName, Reply, RmName, Serial};

fn node() -> Result<NodeName, Fail> {
    Ok(NodeName::new(b"A").ok_or("a name")?)
}

fn other() -> Result<NodeName, Fail> {
    Ok(NodeName::new(b"B").ok_or("a name")?)
}

fn file() -> Result<FileName, Fail> {
    Ok(FileName::new(b"F").ok_or("a name")?)
}

fn label() -> Result<Label, Fail> {
    Ok(Label::new(b"T").ok_or("a name")?)
}

// A line says this.
fn state(rt: &impl Abort, alloc: Global, line: &[u8], statement: &Statement) -> Result<(), Fail> {
    let mut lit = Literals::reserve(alloc)?;
    assert!(rt; line.len() <= 20_000);
    assert_eq!(rt;
        read_statement(line, &mut lit),
        Ok(Some(*statement)),
        "{line:?}"
    );
    Ok(())
}

// A line says this request to node A.
fn say(rt: &impl Abort, alloc: Global, line: &[u8], request: Request) -> Result<(), Fail> {
    state(rt, alloc, line, &Statement::At(node()?, request))
}

// Requests that name nothing but the node.
const REQUESTS: [(&[u8], Request); 19] = [
    (
        b"A: INIT",
        Request::Init {
            slots: 128,
            blocks: 1_024,
        },
    ),
    (
        b" a:  init  ",
        Request::Init {
            slots: 128,
            blocks: 1_024,
        },
    ),
    (
        b"A: INIT 8 0016",
        Request::Init {
            slots: 8,
            blocks: 16,
        },
    ),
    (
        b"A: INIT 0 4294967295",
        Request::Init {
            slots: 0,
            blocks: u32::MAX,
        },
    ),
    (b"a: Boot", Request::Boot),
    (b"A: DUMP_JOURNAL RU", Request::DumpJournal),
    (b"a: dump_journal ru ", Request::DumpJournal),
    (b"A: LMCP SHOW", Request::LmcpShow),
    (b"A: lmcp  show ", Request::LmcpShow),
    (b"A: LMCP DUMP", Request::LmcpDump),
    (b"A: Lmcp Dump", Request::LmcpDump),
    (
        b"FUSE A 0 18446744073709551615",
        Request::Fuse {
            writes: 0,
            choice: u64::MAX,
        },
    ),
    (
        b"fuse a 1 2",
        Request::Fuse {
            writes: 1,
            choice: 2,
        },
    ),
    (
        b"Fuse A 4294967295 4294967296",
        Request::Fuse {
            writes: u32::MAX,
            choice: 4_294_967_296,
        },
    ),
    (
        b"FUSE A 07 00000000000000000001",
        Request::Fuse {
            writes: 7,
            choice: 1,
        },
    ),
    (b"CRASH A", Request::Crash),
    (b" crash  a ", Request::Crash),
    (
        b"CLOCK A \"1-JAN-2000 10:00:00.00\"",
        Request::Clock(Moment(445_343_760_000)),
    ),
    (
        b"clock a  \"31-dec-8999 23:59:59.99\" ",
        Request::Clock(Moment(22_535_210_879_999)),
    ),
];

#[test]
fn lines_ask_nodes(rt: HostRuntime) -> Result<(), Fail> {
    for (line, request) in REQUESTS {
        say(&rt, rt.alloc(), line, request)?;
    }
    Ok(())
}

// Files that are made: the line, the blocks of a bucket, the bytes of a record, and the form.
const FILES: [(&[u8], u32, u32, Form); 4] = [
    (
        b"A: CREATE F REL 1 100 10",
        1,
        100,
        Form::Relative { records: 10 },
    ),
    (
        b"A: create f rel 02 0 4294967295",
        2,
        0,
        Form::Relative { records: u32::MAX },
    ),
    (
        b"A: CREATE F SEQ 1 100 4",
        1,
        100,
        Form::Sequential { buckets: 4 },
    ),
    (
        b"A: create F idx 1 40 20 0 2",
        1,
        40,
        Form::Indexed {
            buckets: 20,
            position: 0,
            key_size: 2,
        },
    ),
];

const SETTINGS: [(&[u8], Setting); 7] = [
    (b"A: SET_FILE F RU", Setting::RecoveryUnits),
    (b"A: set_file f ru", Setting::RecoveryUnits),
    (b"A: SET_FILE F noru", Setting::NoRecoveryUnits),
    (
        b"A: SET_FILE F ai 0064",
        Setting::Images(Side::AfterImages, 64),
    ),
    (
        b"A: SET_FILE F BI 0",
        Setting::Images(Side::BeforeImages, 0),
    ),
    (b"A: SET_FILE F NOAI", Setting::NoImages(Side::AfterImages)),
    (
        b"A: SET_FILE F nobi ",
        Setting::NoImages(Side::BeforeImages),
    ),
];

// Recoveries of a file.
const RECOVERIES: [(&[u8], Recovery); 4] = [
    (b"A: RECOVER F FORWARD", Recovery::Forward(None)),
    (
        b"A: recover f forward until \"17-nov-1858 00:00:00.01\"",
        Recovery::Forward(Some(Moment(1))),
    ),
    (
        b"A: RECOVER F BACKWARD UNTIL \"17-NOV-1858 00:00:00.00\"",
        Recovery::Backward(Moment(0)),
    ),
    (
        b"A: RECOVER F BACKWARD UNTIL \"18-NOV-1858 00:00:00.00\"",
        Recovery::Backward(Moment(8_640_000)),
    ),
];

// Lines that show a journal of images, with the names of their files.
const JOURNALS: [(&[u8], &[u8], Side); 5] = [
    (b"A: DUMP_JOURNAL F AI", b"F", Side::AfterImages),
    (b"A: dump_journal f bi ", b"F", Side::BeforeImages),
    (b"A: DUMP_JOURNAL RU AI", b"RU", Side::AfterImages),
    (b"A: DUMP_JOURNAL AI BI", b"AI", Side::BeforeImages),
    (b"A: DUMP_JOURNAL bi BI", b"BI", Side::BeforeImages),
];

#[test]
fn lines_ask_for_files(rt: HostRuntime) -> Result<(), Fail> {
    let file = file()?;
    for (line, bucket, size, form) in FILES {
        let request = Request::Create {
            file,
            bucket,
            size,
            form,
        };
        say(&rt, rt.alloc(), line, request)?;
    }
    for (line, setting) in SETTINGS {
        say(&rt, rt.alloc(), line, Request::SetFile(file, setting))?;
    }
    for (line, way) in RECOVERIES {
        say(&rt, rt.alloc(), line, Request::Recover(file, way))?;
    }
    for (line, name, side) in JOURNALS {
        let named = FileName::new(name).ok_or("a name")?;
        say(&rt, rt.alloc(), line, Request::DumpImages(named, side))?;
    }
    say(&rt, rt.alloc(), b"A: backup F", Request::Backup(file))?;
    say(&rt, rt.alloc(), b"A: dump F", Request::Dump(file))
}

// Transactions that begin, with their seconds.
const STARTS: [(&[u8], Option<u32>); 3] = [
    (b"A: START_TRANS t", None),
    (b"a: start_trans t timeout 0010 ", Some(10)),
    (b"A: START_TRANS T TIMEOUT 4294967295", Some(u32::MAX)),
];

#[test]
fn lines_start_transactions(rt: HostRuntime) -> Result<(), Fail> {
    let label = label()?;
    for (line, seconds) in STARTS {
        say(
            &rt,
            rt.alloc(),
            line,
            Request::StartTrans { label, seconds },
        )?;
    }
    Ok(())
}

#[test]
fn lines_ask_branches(rt: HostRuntime) -> Result<(), Fail> {
    let label = label()?;
    let table: [(&[u8], Request); 4] = [
        (b"A: START_BRANCH T", Request::StartBranch(label)),
        (b"A: End_Branch T", Request::EndBranch(label)),
        (b"A: End_Trans T", Request::EndTrans(label)),
        (b"A: ABORT_TRANS T", Request::AbortTrans(label)),
    ];
    for (line, request) in table {
        say(&rt, rt.alloc(), line, request)?;
    }
    Ok(())
}

#[test]
fn lines_name_branches(rt: HostRuntime) -> Result<(), Fail> {
    let (label, other) = (label()?, other()?);
    let id = Id {
        node: other,
        boot: 1,
        seq: u32::MAX,
    };
    let new = Label::new(b"U").ok_or("a name")?;
    let table: [(&[u8], Request); 3] = [
        (
            b"A: ADD_BRANCH t b u",
            Request::AddBranch { label, other, new },
        ),
        (b"A: INQUIRE t", Request::Inquire(Named::Label(label))),
        (
            b"A: inquire b.1.4294967295",
            Request::Inquire(Named::Serial(Serial(id))),
        ),
    ];
    for (line, request) in table {
        say(&rt, rt.alloc(), line, request)?;
    }
    Ok(())
}

// What the branch of a label is asked about records, and what is asked without one.
const OPERATIONS: [(&[u8], Operation); 18] = [
    (b"  a:   put  T f 007 %X0aFf  ", Operation::Put(Some(7))),
    (
        b"A: PUT T F 4294967295 \"a b\"",
        Operation::Put(Some(u32::MAX)),
    ),
    (
        b"A: PUT T F 00000000000000000001 %X",
        Operation::Put(Some(1)),
    ),
    (b"A: PUT T F \"7\"", Operation::Put(None)),
    (b"A: PUT T F %X", Operation::Put(None)),
    (
        b"A: UPDATE T F 0 \"a\"",
        Operation::Update(KeyWord::Number(0)),
    ),
    (
        b"A: update t f \"aa\" \"ab\"",
        Operation::Update(KeyWord::Bytes),
    ),
    (
        b"A: DELETE T F 4294967295",
        Operation::Delete(KeyWord::Number(u32::MAX)),
    ),
    (b"A: DELETE T F %X00", Operation::Delete(KeyWord::Bytes)),
    (b"A: TRUNCATE T F 0", Operation::Truncate(0)),
    (b"A: Truncate T F 012", Operation::Truncate(12)),
    (b"A: GET T F 1", Operation::Get(KeyWord::Number(1))),
    (b"A: get T F \"\"", Operation::Get(KeyWord::Bytes)),
    (b"A: NEXT T F", Operation::Next(None)),
    (b"A: NEXT T F  ", Operation::Next(None)),
    (b"A: NEXT T F 0", Operation::Next(Some(KeyWord::Number(0)))),
    (
        b"A: next T F \"zz\" ",
        Operation::Next(Some(KeyWord::Bytes)),
    ),
    (
        b"A: PUT T F 00000000000000000007 \"x\"",
        Operation::Put(Some(7)),
    ),
];

const DIRECT: [(&[u8], Operation); 7] = [
    (b"A: PUT - F \"7\"", Operation::Put(None)),
    (b"A: PUT - F 7 \"x\"", Operation::Put(Some(7))),
    (
        b"A: UPDATE - F \"aa\" \"ab\"",
        Operation::Update(KeyWord::Bytes),
    ),
    (b"A: DELETE - F 1", Operation::Delete(KeyWord::Number(1))),
    (b"A: TRUNCATE - F 2", Operation::Truncate(2)),
    (b"A: GET - F 1", Operation::Get(KeyWord::Number(1))),
    (b"A: NEXT - F", Operation::Next(None)),
];

#[test]
fn lines_ask_for_records(rt: HostRuntime) -> Result<(), Fail> {
    let (file, label) = (file()?, label()?);
    for (line, operation) in OPERATIONS {
        say(
            &rt,
            rt.alloc(),
            line,
            Request::Records(label, file, operation),
        )?;
    }
    Ok(())
}

#[test]
fn lines_ask_for_records_without_a_label(rt: HostRuntime) -> Result<(), Fail> {
    let file = file()?;
    for (line, operation) in DIRECT {
        say(&rt, rt.alloc(), line, Request::Direct(file, operation))?;
    }
    Ok(())
}

const STATEMENTS: [(&[u8], Statement); 4] = [
    (b"DELIVER 1", Statement::Deliver(1)),
    (b"deliver 00 ", Statement::Deliver(0)),
    (b"DELIVER 4294967295", Statement::Deliver(u32::MAX)),
    (b" settle ", Statement::Settle),
];

#[test]
fn lines_act_on_the_world(rt: HostRuntime) -> Result<(), Fail> {
    for (line, statement) in STATEMENTS {
        state(&rt, rt.alloc(), line, &statement)?;
    }
    let down = Statement::LinkDown(node()?, other()?);
    state(&rt, rt.alloc(), b"LinkDown a b", &down)?;
    let back = Statement::LinkDown(other()?, node()?);
    state(&rt, rt.alloc(), b"LINKDOWN B A", &back)
}

// Which manager is declared.
const DECLARED: [(&[u8], &[u8]); 3] = [
    (b"A: DECLARE_RM R_1", b"R_1"),
    (b"A: declare_rm r_1 ", b"R_1"),
    (b"A: DECLARE_RM R23456789012345", b"R23456789012345"),
];

// Replies to events of the branch of a label, and of one that is named by its serial.
const REPLIES: [(&[u8], bool, Reply); 5] = [
    (b"A: ACK_EVENT T R_1 SS$_PREPARED", false, Reply::Prepared),
    (b"A: ack_event t r_1 ss$_forget", false, Reply::Forget),
    (b"A: ACK_EVENT T R_1 SS$_Veto", false, Reply::Veto),
    (
        b"A: ACK_EVENT B.1.2 R_1 SS$_REMEMBER",
        true,
        Reply::Remember,
    ),
    (b"A: ACK_EVENT b.1.2 R_1 SS$_NORMAL ", true, Reply::Normal),
];

fn manager() -> Result<RmName, Fail> {
    Ok(RmName::new(b"R_1").ok_or("a name")?)
}

// The branch of a label, or B.1.2.
fn named(by_serial: bool) -> Result<Named, Fail> {
    if !by_serial {
        return Ok(Named::Label(label()?));
    }
    Ok(Named::Serial(Serial(Id {
        node: other()?,
        boot: 1,
        seq: 2,
    })))
}

#[test]
fn lines_ask_for_resource_managers(rt: HostRuntime) -> Result<(), Fail> {
    for (line, name) in DECLARED {
        let rm = RmName::new(name).ok_or("a name")?;
        say(&rt, rt.alloc(), line, Request::DeclareRm(rm))?;
    }
    Ok(())
}

#[test]
fn lines_join_and_forget_resource_managers(rt: HostRuntime) -> Result<(), Fail> {
    let (label, rm) = (label()?, manager()?);
    let table: [(&[u8], Request); 3] = [
        (b"A: JOIN_RM T R_1", Request::JoinRm(label, rm)),
        (b"  a: Join_Rm t r_1", Request::JoinRm(label, rm)),
        (b"A: FORGET_RM R_1", Request::ForgetRm(rm)),
    ];
    for (line, request) in table {
        say(&rt, rt.alloc(), line, request)?;
    }
    Ok(())
}

#[test]
fn lines_reply_to_events_and_ask_how_branches_stand(rt: HostRuntime) -> Result<(), Fail> {
    let rm = manager()?;
    for (line, by_serial, reply) in REPLIES {
        let request = Request::AckEvent(named(by_serial)?, rm, reply);
        say(&rt, rt.alloc(), line, request)?;
    }
    say(
        &rt,
        rt.alloc(),
        b"A: GETDTI T",
        Request::GetDti(named(false)?),
    )?;
    say(
        &rt,
        rt.alloc(),
        b"A: getdti B.1.2",
        Request::GetDti(named(true)?),
    )
}

// The column of a line that says no statement, 0 where it says one, and None where it is skipped.
fn column(alloc: Global, line: &[u8]) -> Result<Option<u32>, Fail> {
    let mut lit = Literals::reserve(alloc)?;
    if line.len() > 20_000 {
        return Ok(None);
    }
    Ok(match read_statement(line, &mut lit) {
        Ok(Some(_)) => Some(0),
        Ok(None) => None,
        Err(e) => Some(e.column),
    })
}

// Lines leave the grammar at these columns.
fn leave(rt: &impl Abort, alloc: Global, table: &[(&[u8], Option<u32>)]) -> Result<(), Fail> {
    for (line, want) in table {
        assert_eq!(rt; column(alloc, line)?, *want, "{line:?}");
    }
    Ok(())
}

const COLUMNS: [(&[u8], Option<u32>); 61] = [
    (b"", None),
    (b"   ", None),
    (b"!A: PUT", None),
    (b"  ! what ever", None),
    (b"B: DUMP LEDGER.DAT", Some(0)),
    (b"A: END_TRANS abcdefghijklmno", Some(0)),
    (b"A: END_TRANS abcdefghijklmnop", Some(14)),
    (b"A: PUT T F 1 \"\"", Some(0)),
    (b"A: PUT T F 1 \"a", Some(14)),
    (b"A: PUT T F 1 \"a\"b", Some(14)),
    (b"A: PUT T F 1 \"a\" b", Some(18)),
    (b"A: PUT T F 1 %xAA", Some(14)),
    (b"A: PUT T F 1 %XA", Some(14)),
    (b"A: PUT T F \"a\"", Some(0)),
    (b"A: PUT T F \"a\" \"b\"", Some(16)),
    (b"A: PUT T F", Some(11)),
    (b"A: UPDATE T F 1", Some(16)),
    (b"A: UPDATE T F x \"a\"", Some(15)),
    (b"A: DELETE T F", Some(14)),
    (b"A: DELETE T F 1 1", Some(17)),
    (b"A: TRUNCATE T F \"1\"", Some(17)),
    (b"A: GET - F", Some(11)),
    (b"A: GET -T F 1", Some(8)),
    (b"A: DUMP -", Some(9)),
    (b"A: GET T F 1 \"a\"", Some(14)),
    (b"A: NEXT - F x", Some(13)),
    (b"A: END_TRANS -", Some(14)),
    (b"A: NEXT T", Some(10)),
    (b"A: NEXT T F x", Some(13)),
    (b"A: NEXT T F 1 1", Some(15)),
    (b"A: PUT T F 4294967296 \"a\"", Some(12)),
    (b"A: PUT T F 000000000000000000001 \"a\"", Some(12)),
    (b"A: PUT T F 1", Some(13)),
    (b"A: PUT T F 1  ", Some(15)),
    (b"A: PUT T 1F 1 \"a\"", Some(10)),
    (b"A: START_TRANS T TIMEOUT 1", Some(0)),
    (b"A: START_TRANS T TIMEOUT", Some(25)),
    (b"A: START_TRANS T 10", Some(18)),
    (b"A: START_TRANS T TIMEOUT x", Some(26)),
    (b"A: START_TRANS T TIMEOUT 1 1", Some(28)),
    (b"A: START_TRANS - TIMEOUT 1", Some(16)),
    (b"A: ADD_BRANCH T B", Some(18)),
    (b"A: ADD_BRANCH T 1B U", Some(17)),
    (b"A: ADD_BRANCH T B -", Some(19)),
    (b"A: START_BRANCH A.1.1", Some(17)),
    (b"A: INQUIRE -", Some(12)),
    (b"A: INQUIRE A.1", Some(12)),
    (b"A: INQUIRE A.1.0", Some(12)),
    (b"A: INQUIRE A.01.1", Some(12)),
    (b"A: INQUIRE A_.1.1", Some(12)),
    (b"A: INQUIRE A.1.4294967296", Some(12)),
    (b"A: INQUIRE A.1.1 T", Some(18)),
    (b"A : DUMP F", Some(1)),
    (b"\tA: DUMP F", Some(1)),
    (b"\"a\"b", Some(1)),
    (b"ABCDEFG: BOOT", Some(1)),
    (b"A:", Some(3)),
    (b"A: ", Some(4)),
    (b"A: FROB", Some(4)),
    (b"A: FUSE A 1 2", Some(4)),
    (b"FROB A", Some(1)),
];

#[test]
fn lines_leave_the_grammar_at_their_columns(rt: HostRuntime) -> Result<(), Fail> {
    leave(&rt, rt.alloc(), &COLUMNS)
}

const COLUMNS_OF_NODES: [(&[u8], Option<u32>); 66] = [
    (b"A:INIT", Some(1)),
    (b"INIT", Some(1)),
    (b"A: INIT x", Some(9)),
    (b"A: INIT 8", Some(10)),
    (b"A: INIT 8 1 1", Some(13)),
    (b"A: BOOT now", Some(9)),
    (b"CREATE F SEQ", Some(1)),
    (b"A: CREATE F SEQ 1 100", Some(22)),
    (b"A: CREATE F SEQ 1 100 10 0", Some(26)),
    (b"A: CREATE F IDX 1 100 10", Some(25)),
    (b"A: CREATE F IDX 1 100 10 0", Some(27)),
    (b"A: CREATE F IDX 1 100 10 0 2 ALT", Some(30)),
    (b"A: CREATE F SEK 1 100 10", Some(13)),
    (b"A: CREATE F", Some(12)),
    (b"A: CREATE F REL 1 100", Some(22)),
    (b"A: CREATE F REL 1 4294967296 10", Some(19)),
    (b"A: CREATE F REL 1 100 10 1", Some(26)),
    (b"A: SET_FILE F", Some(14)),
    (b"A: SET_FILE F AI", Some(17)),
    (b"A: SET_FILE F XI 8", Some(15)),
    (b"A: SET_FILE F NOAI 64", Some(20)),
    (b"A: SET_FILE F RU RU", Some(18)),
    (b"A: BACKUP", Some(10)),
    (b"A: BACKUP F AI", Some(13)),
    (b"A: RECOVER F", Some(13)),
    (b"A: RECOVER F BACKWARD", Some(22)),
    (b"A: RECOVER F FORWARD TO", Some(22)),
    (b"A: RECOVER F FORWARD UNTIL", Some(27)),
    (
        b"A: RECOVER F FORWARD UNTIL \"31-JUN-1900 00:00:00.00\"",
        Some(28),
    ),
    (b"FUSE", Some(5)),
    (b"FUSE A:", Some(6)),
    (b"FUSE A x 1", Some(8)),
    (b"FUSE A 4294967296 0", Some(8)),
    (b"FUSE A 1", Some(9)),
    (b"FUSE A 1 x", Some(10)),
    (b"FUSE A 0 18446744073709551616", Some(10)),
    (b"FUSE A 0 000000000000000000001", Some(10)),
    (b"FUSE A 1 2 3", Some(12)),
    (b"A: CRASH", Some(4)),
    (b"A: DUMP_JOURNAL", Some(16)),
    (b"A: DUMP_JOURNAL F", Some(18)),
    (b"A: DUMP_JOURNAL AI", Some(17)),
    (b"A: DUMP_JOURNAL F RU", Some(19)),
    (b"A: DUMP_JOURNAL RU AI 1", Some(23)),
    (b"DUMP_JOURNAL RU", Some(1)),
    (b"CRASH", Some(6)),
    (b"CRASH 1A", Some(7)),
    (b"CRASH A B", Some(9)),
    (b"CLOCK A", Some(8)),
    (b"CLOCK A 1", Some(9)),
    (b"CLOCK A 1-JAN-2000 10:00:00.00", Some(9)),
    (b"CLOCK A \"1-JAN-2000 10:00:00.00", Some(9)),
    (b"CLOCK A \"1-JAN-2000 10:00:00.00\"x", Some(9)),
    (b"CLOCK A \"1-JAN-2000 10:00:00.00\" x", Some(34)),
    (b"CLOCK A \"1-JAN-2000  10:00:00.00\"", Some(9)),
    (b"CLOCK A \"29-FEB-1900 00:00:00.00\"", Some(9)),
    (b"CLOCK A \"1-JAN-9000 00:00:00.00\"", Some(9)),
    (b"CLOCK A %X", Some(9)),
    (b"DELIVER", Some(8)),
    (b"DELIVER 4294967296", Some(9)),
    (b"DELIVER 1 2", Some(11)),
    (b"LINKDOWN A", Some(11)),
    (b"LINKDOWN A: B", Some(10)),
    (b"LINKDOWN A B C", Some(14)),
    (b"SETTLE A", Some(8)),
    (b"A: SETTLE", Some(4)),
];

#[test]
fn lines_of_nodes_and_of_the_world_leave_it_at_theirs(rt: HostRuntime) -> Result<(), Fail> {
    leave(&rt, rt.alloc(), &COLUMNS_OF_NODES)
}

const COLUMNS_OF_MANAGERS: [(&[u8], Option<u32>); 26] = [
    (b"A: DECLARE_RM", Some(14)),
    (b"A: DECLARE_RM 1R", Some(15)),
    (b"A: DECLARE_RM R-1", Some(15)),
    (b"A: DECLARE_RM R234567890123456", Some(15)),
    (b"A: DECLARE_RM R R", Some(17)),
    (b"DECLARE_RM R", Some(1)),
    (b"A: JOIN_RM", Some(11)),
    (b"A: JOIN_RM T", Some(13)),
    (b"A: JOIN_RM - R", Some(12)),
    (b"A: JOIN_RM A.1.1 R", Some(12)),
    (b"A: JOIN_RM T R R", Some(16)),
    (b"A: ACK_EVENT T R", Some(17)),
    (b"A: ACK_EVENT - R SS$_PREPARED", Some(14)),
    (b"A: ACK_EVENT A.1 R SS$_PREPARED", Some(14)),
    (b"A: ACK_EVENT T R SS$_ABORT", Some(18)),
    (b"A: ACK_EVENT T R PREPARED", Some(18)),
    (b"A: ACK_EVENT T R SS$_PREPARED 1", Some(31)),
    (b"A: FORGET_RM", Some(13)),
    (b"A: FORGET_RM R R", Some(16)),
    (b"A: GETDTI", Some(10)),
    (b"A: GETDTI -", Some(11)),
    (b"A: GETDTI A.01.1", Some(11)),
    (b"A: LMCP", Some(8)),
    (b"A: LMCP LIST", Some(9)),
    (b"A: LMCP SHOW 1", Some(14)),
    (b"LMCP SHOW", Some(1)),
];

#[test]
fn lines_of_resource_managers_leave_it_at_theirs(rt: HostRuntime) -> Result<(), Fail> {
    leave(&rt, rt.alloc(), &COLUMNS_OF_MANAGERS)
}

// What a line wants where it leaves the grammar, and None where it does not.
fn wanted(alloc: Global, line: &[u8]) -> Result<Option<Wanted>, Fail> {
    let mut lit = Literals::reserve(alloc)?;
    if line.len() > 20_000 {
        return Ok(None);
    }
    Ok(match read_statement(line, &mut lit) {
        Ok(Some(_)) => None,
        Ok(None) => None,
        Err(e) => Some(e.wanted),
    })
}

const WANTED: [(&[u8], Wanted); 23] = [
    (b"INIT", Wanted::First),
    (b"A: FROB", Wanted::Verb),
    (b"CRASH 1A", Wanted::Node),
    (b"A: END_TRANS", Wanted::Label),
    (b"A: GET", Wanted::LabelOrNone),
    (b"A: INQUIRE", Wanted::Branch),
    (b"A: DUMP", Wanted::File),
    (b"A: DUMP_JOURNAL F", Wanted::Journal),
    (b"A: CREATE F SEK 1 100 10", Wanted::Organization),
    (b"A: DUMP_JOURNAL AI", Wanted::JournaledFile),
    (b"A: SET_FILE F XI", Wanted::Setting),
    (b"A: RECOVER F", Wanted::Direction),
    (b"A: RECOVER F BACKWARD", Wanted::Until),
    (b"A: INIT x", Wanted::Number),
    (b"FUSE A 1", Wanted::LongNumber),
    (b"A: PUT T F 1", Wanted::Bytes),
    (b"A: GET T F", Wanted::Key),
    (b"CLOCK A 1", Wanted::Time),
    (b"A: START_TRANS T 10", Wanted::Timeout),
    (b"A: DECLARE_RM 1R", Wanted::Manager),
    (b"A: ACK_EVENT T R SS$_ABORT", Wanted::Reply),
    (b"A: LMCP", Wanted::LogWord),
    (b"A: BOOT now", Wanted::End),
];

#[test]
fn a_faulty_line_tells_what_it_wants(rt: HostRuntime) -> Result<(), Fail> {
    for (line, want) in WANTED {
        assert_eq!(rt; wanted(rt.alloc(), line)?, Some(want), "{line:?}");
    }
    Ok(())
}

#[test]
fn a_record_is_kept_beside_its_statement(rt: HostRuntime) -> Result<(), Fail> {
    let mut lit = Literals::reserve(rt.alloc())?;
    let table: [(&[u8], &[u8]); 3] = [
        (b"A: PUT T F 1 \"x y\"", b"x y"),
        (b"A: PUT T F 1 %X00ff22", b"\x00\xff\x22"),
        (b"A: PUT T F 1 %X", b""),
    ];
    for (line, record) in table {
        assert!(rt; line.len() <= 20_000);
        assert!(rt; read_statement(line, &mut lit).is_ok());
        assert_eq!(rt; lit.record.bytes(), record);
    }
    assert!(rt; read_statement(b"A: UPDATE T F \"key\" \"new\"", &mut lit).is_ok());
    assert_eq!(rt; lit.key.bytes(), b"key".as_slice());
    assert_eq!(rt; lit.record.bytes(), b"new".as_slice());
    Ok(())
}

#[test]
fn a_command_names_each_node_and_its_image(rt: HostRuntime) -> Result<(), Fail> {
    let node = node()?;
    let table: [(&[&str], bool); 9] = [
        (&["dtm", "RUN", "A=ledger.img"], true),
        (&["", "RUN", "a=x=y"], true),
        (&["dtm", "run", "A=x"], false),
        (&["dtm", "RUN", "A="], false),
        (&["dtm", "RUN", "B=x"], false),
        (&["dtm", "RUN"], false),
        (&["dtm", "RUN", "A=x", "A=x"], false),
        (&["dtm", "RUN", "--help"], false),
        (&["dtm"], false),
    ];
    for (texts, want) in table {
        let mut words = Vec::new(rt.alloc());
        for text in texts {
            let mut word = String::new(rt.alloc());
            word.push_str(text)?;
            words.push(word)?;
        }
        assert_eq!(rt; is_run_form(&[node], &words), want, "{texts:?}");
        assert!(rt; !is_run_form(&[], &words));
    }
    Ok(())
}
