ghost use Rattle.std.specs.Prelude.{◌≡◌, true};
ghost use Rattle.transcript.specs.Forms.{HasTime};

use net_wire::Message;
use std::alloc::{AllocError, Global};
use std::io::{self, Read};
use std::process::Abort;
use std::test::Fail;
use transcript::{
    Cause, Emit, Form, LineReader, MemSink, MemSource, Next, Quota, ReaderSource, Sink, SinkEmit,
    Source, Standing, WriterSink,
};
use vms_base::{
    Bid, FileName, Id, Key, KeyText, Kind, LogKind, LogRec, Moment, NodeName, Outcome, Reason,
    Record, RmEvent, RmList, RmName, Serial, SerialList, Tid,
};

// Gives at most so many bytes at a time.
#[derive(Drop)]
struct Pieces<'a> {
    rest: &'a [u8],
    most: usize,
}

impl Read for Pieces<'_> {
    fn read(&mut self, buf: &mut [u8]) -> io::Result<usize> {
        let n = self.rest.len().min(self.most).min(buf.len());
        buf[..n].copy_from_slice(&self.rest[..n]);
        self.rest = &self.rest[n..];
        Ok(n)
    }
}

#[test]
fn lines_come_whole_from_pieces(rt: HostRuntime) -> Result<(), Fail> {
    let lines: [&[u8]; 4] = [b"A: BOOT", b"", b"! \xFF\r", b"A: DUMP F"];
    for most in 1..8usize {
        let script = b"A: BOOT\n\n! \xFF\r\nA: DUMP F";
        let mut source = ReaderSource::new(Pieces { rest: script, most });
        let mut reader = LineReader::reserve(rt.alloc())?;
        for line in &lines {
            assert_eq!(rt; reader.next(&mut source), Next::Line, "in pieces of {most}");
            assert_eq!(rt; reader.line(), *line);
        }
        assert_eq!(rt; reader.next(&mut source), Next::End);
    }
    Ok(())
}

// A script of one line.
fn script_of(alloc: Global, length: usize, ended: bool) -> Result<Vec<u8>, Fail> {
    let mut script = vec![in alloc; b'x'; length]?;
    if ended {
        script.push(b'\n')?;
    }
    Ok(script)
}

#[test]
fn a_line_has_20000_bytes(rt: HostRuntime) -> Result<(), Fail> {
    for (length, ended, want) in [
        (20_000usize, true, Next::Line),
        (20_000, false, Next::Line),
        (20_001, true, Next::TooLong),
        (20_001, false, Next::TooLong),
        (1, false, Next::Line),
        (0, true, Next::Line),
        (0, false, Next::End),
    ] {
        let script = script_of(rt.alloc(), length, ended)?;
        let mut source = MemSource::new(rt.alloc(), script);
        let mut reader = LineReader::reserve(rt.alloc())?;
        assert_eq!(rt; reader.next(&mut source), want, "{length} bytes");
        if want == Next::Line {
            assert_eq!(rt; reader.line().len(), length);
            assert_eq!(rt; reader.next(&mut source), Next::End);
        }
    }
    Ok(())
}

// Gives lines of 256 bytes with their line feeds, and no end.
#[derive(Drop)]
struct Endless {
    at: u8,
}

impl Read for Endless {
    fn read(&mut self, buf: &mut [u8]) -> io::Result<usize> {
        for b in buf.iter_mut() {
            self.at = self.at.wrapping_add(1);
            *b = if self.at == 0 { b'\n' } else { b'x' };
        }
        Ok(buf.len())
    }
}

#[test]
fn a_script_has_64_mib(rt: HostRuntime) -> Result<(), Fail> {
    let mut source = ReaderSource::new(Endless { at: 0 });
    let mut reader = LineReader::reserve(rt.alloc())?;
    for number in 0..262_144u32 {
        assert_eq!(rt; reader.next(&mut source), Next::Line, "line {number}");
    }
    assert_eq!(rt; reader.next(&mut source), Next::TooLong);
    Ok(())
}

#[test]
fn a_source_fails_at_the_call_that_is_named(rt: HostRuntime) -> Result<(), Fail> {
    for call in 1..4u32 {
        let script = b"A: BOOT\n".to_vec(rt.alloc())?;
        let mut source = MemSource::new(rt.alloc(), script);
        source.fail(call)?;
        let mut reader = LineReader::reserve(rt.alloc())?;
        let want = match call {
            1 => [Next::Failed, Next::Line, Next::End],
            2 => [Next::Line, Next::Failed, Next::End],
            _ => [Next::Line, Next::End, Next::Failed],
        };
        for next in want {
            assert_eq!(rt; reader.next(&mut source), next, "read {call} fails");
        }
    }
    Ok(())
}

// Writes two lines, and tells whether a write failed.
fn two_lines<K: Sink>(rt: &HostRuntime, sink: &mut K) -> Result<bool, Fail> {
    let mut out = SinkEmit::new(rt.alloc(), sink)?;
    out.at(7);
    out.emit(&Form::NodeDown);
    out.emit(&Form::BadLine(4));
    Ok(out.failed())
}

#[test]
fn a_sink_fails_at_the_call_that_is_named(rt: HostRuntime) -> Result<(), Fail> {
    let mut sink = MemSink::new(rt.alloc(), 40)?;
    sink.fail(3)?;
    assert!(rt; !two_lines(&rt, &mut sink)?);
    assert!(rt; two_lines(&rt, &mut sink)?);
    assert_eq!(rt; sink.bytes(), b"7 NODEDOWN\n7 BADLINE 4\n".as_slice());
    let mut sink = MemSink::new(rt.alloc(), 15)?;
    assert!(rt; two_lines(&rt, &mut sink)?);
    assert_eq!(rt; sink.bytes(), b"7 NODEDOWN\n7 BA".as_slice());
    Ok(())
}

// Whether a form shows no moment, or one that can be written.
fn has_time(form: &Form<'_>) -> bool
    ensures { result ≡ true → HasTime form.now }
{
    match form {
        Form::Committed(_, _, moment)
        | Form::Aborted(_, _, _, moment)
        | Form::LastCommitted(_, _, moment)
        | Form::LastAborted(_, _, _, moment)
        | Form::NormalSave(_, moment)
        | Form::SettledEntry(_, _, _, _, moment) => moment.0 < 25_690_901_760_000,
        Form::TooEarly(first, second) | Form::MomentsMissing(first, second) => {
            first.0 < 25_690_901_760_000 && second.0 < 25_690_901_760_000
        }
        _ => true,
    }
}

// The lines of these forms, each with this number.
fn lines_of(alloc: Global, number: u32, forms: &[Form<'_>]) -> Result<Vec<u8>, AllocError> {
    let mut bytes = Vec::new(alloc);
    {
        let mut sink = WriterSink::new(&mut bytes);
        let mut out = SinkEmit::new(alloc, &mut sink)?;
        out.at(number);
        for form in forms {
            if has_time(form) {
                out.emit(form);
            }
        }
    }
    Ok(bytes)
}

// These forms have these lines.
fn shows(rt: &impl Abort, alloc: Global, number: u32, forms: &[Form<'_>], want: &[u8]) {
    match lines_of(alloc, number, forms) {
        Ok(bytes) => assert_eq!(rt; bytes.as_slice(), want),
        Err(_) => assert!(rt; false),
    }
}

// Forms that show no name and no record: refusals, and others by the tests that they are of.
const REFUSALS: [Form<'static>; 35] = [
    Form::NodeUp,
    Form::VolumeInUse,
    Form::NotInitialized,
    Form::FileExists,
    Form::BadParameter,
    Form::NotForUnits,
    Form::QuotaExceeded(Quota::Branches, 64),
    Form::QuotaExceeded(Quota::Files, 64),
    Form::QuotaExceeded(Quota::Changes, 1_024),
    Form::QuotaExceeded(Quota::Boots, 4_294_967_295),
    Form::QuotaExceeded(Quota::Moments, 24_000_000_000_000),
    Form::QuotaExceeded(Quota::Locks, 4_096),
    Form::QuotaExceeded(Quota::Positions, 2_305_843_009_213_693_952),
    Form::VolumeFull(7_000, 68_719_476_720),
    Form::FileFull(1, 3),
    Form::JournalFull(4_096, 8_268),
    Form::NeedsUnit,
    Form::BadOperation,
    Form::KeyExists,
    Form::RecordNotFound,
    Form::EndOfFile,
    Form::KeyChanged,
    Form::Normal,
    Form::RecordNormal,
    Form::NoSuchNode,
    Form::BadLabel,
    Form::FileNotFound,
    Form::BadRecordNumber,
    Form::BadRecordSize,
    Form::NoSuchTransaction,
    Form::RecordExists,
    Form::NoMemory,
    Form::Broken(Cause::Failed),
    Form::Broken(Cause::Stopped),
    Form::TooLong,
];

const ANSWERS: [Form<'static>; 4] = [
    Form::NormalSpan(0, 248),
    Form::NormalCount(2),
    Form::RecordPosition(70),
    Form::BadLine(4),
];

const ANSWERS_OF_RECOVERY: [Form<'static>; 8] = [
    Form::NormalSave(512, Moment(0)),
    Form::NoJournal,
    Form::NoSave,
    Form::TooEarly(Moment(1), Moment(2)),
    Form::PositionsMissing(512, 1_024),
    Form::MomentsMissing(Moment(1), Moment(2)),
    Form::AftersFull(7, 101),
    Form::BeforesFull(7, 100),
];

const ANSWERS_OF_NODES: [Form<'static>; 6] = [
    Form::TransactionAborted(Reason::SyncFail),
    Form::NoSuchMessage,
    Form::NoSuchBranchId,
    Form::WrongState,
    Form::QuotaExceeded(Quota::Slots, 128),
    Form::QuotaExceeded(Quota::Bids, 15),
];

const ANSWERS_OF_MANAGERS: [Form<'static>; 9] = [
    Form::NormalStanding(Standing::Active),
    Form::NormalStanding(Standing::Ending),
    Form::NormalStanding(Standing::Prepared),
    Form::NormalStanding(Standing::Committed),
    Form::NormalStanding(Standing::Unknown),
    Form::NormalLog(1, 2, 509),
    Form::NoSuchManager,
    Form::QuotaExceeded(Quota::Declared, 64),
    Form::QuotaExceeded(Quota::Managers, 8),
];

#[test]
fn refusals_have_their_bytes(rt: HostRuntime) {
    let want = b"1 NODEUP\n\
1 VOLINUSE\n\
1 NOINIT\n\
1 RMS$_FEX\n\
1 SS$_BADPARAM\n\
1 NOTRU\n\
1 SS$_EXQUOTA BRANCHES 64\n\
1 SS$_EXQUOTA FILES 64\n\
1 SS$_EXQUOTA CHANGES 1024\n\
1 SS$_EXQUOTA BOOTS 4294967295\n\
1 SS$_EXQUOTA MOMENTS 24000000000000\n\
1 SS$_EXQUOTA LOCKS 4096\n\
1 SS$_EXQUOTA POSITIONS 2305843009213693952\n\
1 RMS$_FUL VOLUME 7000 68719476720\n\
1 RMS$_FUL FILE 1 3\n\
1 RMS$_FUL RU 4096 8268\n\
1 RMS$_NRU\n\
1 RMS$_IOP\n\
1 RMS$_DUP\n\
1 RMS$_RNF\n\
1 RMS$_EOF\n\
1 RMS$_CHG\n\
1 SS$_NORMAL\n\
1 RMS$_NORMAL\n\
1 NOSUCHNODE\n\
1 LABEL\n\
1 RMS$_FNF\n\
1 RMS$_MRN\n\
1 RMS$_RSZ\n\
1 SS$_NOSUCHTID\n\
1 RMS$_REX\n\
1 SS$_INSFMEM\n\
1 FAULT\n\
1 STOPPED\n\
1 TOOLONG\n";
    shows(&rt, rt.alloc(), 1, &REFUSALS, want);
}

#[test]
fn answers_of_recovery_have_their_bytes(rt: HostRuntime) {
    let want = b"9 SS$_NORMAL 512 \"17-NOV-1858 00:00:00.00\"\n\
9 NOTMARKED\n\
9 NOSAVE\n\
9 EARLY \"17-NOV-1858 00:00:00.01\" \"17-NOV-1858 00:00:00.02\"\n\
9 SPAN 512 1024\n\
9 SPAN \"17-NOV-1858 00:00:00.01\" \"17-NOV-1858 00:00:00.02\"\n\
9 RMS$_FUL AI 7 101\n\
9 RMS$_FUL BI 7 100\n";
    shows(&rt, rt.alloc(), 9, &ANSWERS_OF_RECOVERY, want);
}

#[test]
fn answers_have_their_bytes(rt: HostRuntime) {
    let want = b"12 SS$_NORMAL 0 248\n\
12 SS$_NORMAL 2\n\
12 RMS$_NORMAL 70\n\
12 BADLINE 4\n";
    shows(&rt, rt.alloc(), 12, &ANSWERS, want);
    let of_nodes = b"11 SS$_ABORT DDTM$_SYNC_FAIL\n\
11 NOSUCHMSG\n\
11 SS$_NOSUCHBID\n\
11 SS$_WRONGSTATE\n\
11 SS$_EXQUOTA SLOTS 128\n\
11 SS$_EXQUOTA BIDS 15\n";
    shows(&rt, rt.alloc(), 11, &ANSWERS_OF_NODES, of_nodes);
    let of_managers = b"9 SS$_NORMAL ACTIVE\n\
9 SS$_NORMAL ENDING\n\
9 SS$_NORMAL PREPARED\n\
9 SS$_NORMAL COMMITTED\n\
9 SS$_NORMAL UNKNOWN\n\
9 SS$_NORMAL 1 2 509\n\
9 SS$_NOSUCHRM\n\
9 SS$_EXQUOTA DECLARED 64\n\
9 SS$_EXQUOTA RMS 8\n";
    shows(&rt, rt.alloc(), 9, &ANSWERS_OF_MANAGERS, of_managers);
}

// Writes the line of a faulty line, and the one that has no number.
fn usage<K: Sink>(alloc: Global, sink: &mut K) -> Result<(), AllocError> {
    let mut out = SinkEmit::new(alloc, sink)?;
    out.at(12);
    out.emit(&Form::BadLine(4));
    out.usage();
    Ok(())
}

#[test]
fn the_usage_has_no_number(rt: HostRuntime) -> Result<(), Fail> {
    let mut sink = MemSink::new(rt.alloc(), 100)?;
    usage(rt.alloc(), &mut sink)?;
    let want = b"12 BADLINE 4\n\
usage: dtm RUN NODE=IMAGE ... or dtm MAKE n start\n";
    assert_eq!(rt; sink.bytes(), want.as_slice());
    Ok(())
}

fn id(seq: u32) -> Result<Id, Fail> {
    let node = NodeName::new(b"a").ok_or("a name")?;
    Ok(Id { node, boot: 1, seq })
}

// What is shown of the branch A.1.2 of the transaction A.1.1.
#[derive(Clone, Copy)]
enum Shown {
    Joined,
    Started,
    Prepared,
    ReadOnly,
    Ended,
    EndedByVeto,
    Forgot,
    Asked(Outcome),
    Committed,
    Aborted,
    LastCommitted,
    LastAborted,
    PreparedEntry,
    SettledEntry(u64, Outcome, Moment),
    Id,
    Told(RmEvent),
}

fn form_of(shown: Shown, tid: &Tid, serial: &Serial, rm: &RmName) -> Form<'static> {
    match shown {
        Shown::Joined => Form::Joined(*tid, *serial),
        Shown::Started => Form::Started(*tid, *serial),
        Shown::Prepared => Form::Prepared(*tid, *serial),
        Shown::ReadOnly => Form::ReadOnly(*tid, *serial),
        Shown::Ended => Form::Ended(*tid, None),
        Shown::EndedByVeto => Form::Ended(*tid, Some(Reason::Vetoed)),
        Shown::Forgot => Form::Forgot(*tid, *serial),
        Shown::Asked(outcome) => Form::Asked(*tid, *serial, outcome),
        Shown::Committed => Form::Committed(*tid, *serial, Moment(445_343_760_000)),
        Shown::Aborted => Form::Aborted(*tid, *serial, Reason::Vetoed, Moment(1)),
        Shown::LastCommitted => Form::LastCommitted(*tid, *serial, Moment(445_343_760_000)),
        Shown::LastAborted => Form::LastAborted(*tid, *serial, Reason::SegFail, Moment(2)),
        Shown::PreparedEntry => Form::PreparedEntry(104, *tid, *serial),
        Shown::SettledEntry(at, outcome, moment) => {
            Form::SettledEntry(at, *tid, *serial, outcome, moment)
        }
        Shown::Id => Form::NormalId(tid.0),
        Shown::Told(event) => Form::ManagerTold(event, *tid, *serial, *rm),
    }
}

// The number of a line, what it shows, and its bytes.
const OF_BRANCHES: [(u32, Shown, &[u8]); 21] = [
    (11, Shown::Joined, b"11 JOINED A.1.1 A.1.2\n"),
    (11, Shown::Started, b"11 STARTED A.1.1 A.1.2\n"),
    (11, Shown::Prepared, b"11 PREPARED A.1.1 A.1.2\n"),
    (11, Shown::ReadOnly, b"11 READONLY A.1.1 A.1.2\n"),
    (11, Shown::Ended, b"11 ENDED A.1.1 SS$_NORMAL\n"),
    (
        11,
        Shown::EndedByVeto,
        b"11 ENDED A.1.1 SS$_ABORT DDTM$_VETOED\n",
    ),
    (11, Shown::Forgot, b"11 FORGOT A.1.1 A.1.2\n"),
    (
        11,
        Shown::Asked(Outcome::Commit),
        b"11 ASKED A.1.1 A.1.2 COMMIT\n",
    ),
    (
        11,
        Shown::Asked(Outcome::Abort),
        b"11 ASKED A.1.1 A.1.2 ABORT\n",
    ),
    (
        12,
        Shown::Committed,
        b"12 COMMIT A.1.1 A.1.2 \"1-JAN-2000 10:00:00.00\"\n",
    ),
    (
        12,
        Shown::Aborted,
        b"12 ABORT A.1.1 A.1.2 DDTM$_VETOED \"17-NOV-1858 00:00:00.01\"\n",
    ),
    (
        12,
        Shown::LastCommitted,
        b"12 LAST COMMIT A.1.1 A.1.2 \"1-JAN-2000 10:00:00.00\"\n",
    ),
    (
        12,
        Shown::LastAborted,
        b"12 LAST ABORT A.1.1 A.1.2 DDTM$_SEG_FAIL \"17-NOV-1858 00:00:00.02\"\n",
    ),
    (
        12,
        Shown::PreparedEntry,
        b"12 ENTRY 104 PREPARED A.1.1 A.1.2\n",
    ),
    (
        12,
        Shown::SettledEntry(152, Outcome::Commit, Moment(1)),
        b"12 ENTRY 152 SETTLED A.1.1 A.1.2 COMMIT \"17-NOV-1858 00:00:00.01\"\n",
    ),
    (
        12,
        Shown::SettledEntry(200, Outcome::Abort, Moment(2)),
        b"12 ENTRY 200 SETTLED A.1.1 A.1.2 ABORT \"17-NOV-1858 00:00:00.02\"\n",
    ),
    (12, Shown::Id, b"12 SS$_NORMAL A.1.1\n"),
    (
        9,
        Shown::Told(RmEvent::Prepare),
        b"9 EVENT PREPARE A.1.1 A.1.2 R\n",
    ),
    (
        9,
        Shown::Told(RmEvent::OnePhase),
        b"9 EVENT ONEPHASE A.1.1 A.1.2 R\n",
    ),
    (
        9,
        Shown::Told(RmEvent::Commit),
        b"9 EVENT COMMIT A.1.1 A.1.2 R\n",
    ),
    (
        9,
        Shown::Told(RmEvent::Abort),
        b"9 EVENT ABORT A.1.1 A.1.2 R\n",
    ),
];

#[test]
fn branches_have_their_bytes(rt: HostRuntime) -> Result<(), Fail> {
    let tid = Tid(id(1)?);
    let serial = Serial(id(2)?);
    let rm = RmName::new(b"r").ok_or("a name")?;
    for (number, shown, want) in OF_BRANCHES {
        let form = form_of(shown, &tid, &serial, &rm);
        shows(&rt, rt.alloc(), number, &[form], want);
    }
    Ok(())
}

#[test]
fn nodes_have_their_bytes(rt: HostRuntime) -> Result<(), Fail> {
    let node = NodeName::new(b"a").ok_or("a name")?;
    let downs = [
        Form::Down(node, Cause::Failed),
        Form::Down(node, Cause::Stopped),
        Form::Crashed(node),
    ];
    let want = b"12 DOWN A FAULT\n\
12 DOWN A STOPPED\n\
12 DOWN A CRASH\n";
    shows(&rt, rt.alloc(), 12, &downs, want);
    let boots = [Form::Booted(node, 2), Form::NotInitializedAt(node)];
    shows(&rt, rt.alloc(), 11, &boots, b"11 BOOTED A 2\n11 NOINIT A\n");
    let none = [Form::NoVolume(node, 1, 518)];
    shows(&rt, rt.alloc(), 1, &none, b"1 VOLUME A 1 518\n");
    Ok(())
}

#[test]
fn holders_have_their_bytes(rt: HostRuntime) -> Result<(), Fail> {
    let locks = [
        Form::RecordLocked(Serial(id(2)?)),
        Form::FileLocked(Serial(id(2)?)),
    ];
    shows(
        &rt,
        rt.alloc(),
        1,
        &locks,
        b"1 RMS$_RLK A.1.2\n1 RMS$_FLK A.1.2\n",
    );
    let node = NodeName::new(b"a").ok_or("a name")?;
    let doubt = [Form::InDoubt(Serial(id(2)?), node)];
    shows(&rt, rt.alloc(), 11, &doubt, b"11 INDOUBT A.1.2 A\n");
    Ok(())
}

// A record of these bytes; without any where there are too many.
fn record(alloc: Global, bytes: &[u8]) -> Result<Record, AllocError> {
    let mut record = Record::reserve(alloc)?;
    if bytes.len() < 100 {
        record.set(bytes);
    }
    Ok(record)
}

#[test]
fn records_have_their_bytes(rt: HostRuntime) -> Result<(), Fail> {
    let none = Record::reserve(rt.alloc())?;
    let table: [(u32, &[u8]); 3] = [
        (1, b"1 RECORD 4 \"\"\n"),
        (9, b"9 RECORD 4 \"\"\n"),
        (11, b"11 RECORD 4 \"\"\n"),
    ];
    for (number, want) in table {
        let form = Form::Record(Key::Number(4), &none);
        shows(&rt, rt.alloc(), number, &[form], want);
    }
    let texts: [(&[u8], &[u8]); 2] = [
        (b"x y", b"12 RECORD 3 \"x y\"\n"),
        (b"\"\xAF", b"12 RECORD 3 %X22AF\n"),
    ];
    for (bytes, want) in texts {
        let record = record(rt.alloc(), bytes)?;
        let form = Form::Record(Key::Number(3), &record);
        shows(&rt, rt.alloc(), 12, &[form], want);
    }
    Ok(())
}

#[test]
fn records_with_their_keys_have_their_bytes(rt: HostRuntime) -> Result<(), Fail> {
    let text = KeyText::new(b"aa").ok_or("a key")?;
    let digit = record(rt.alloc(), b"aa1")?;
    let form = Form::Record(Key::Text(text), &digit);
    shows(&rt, rt.alloc(), 1, &[form], b"1 RECORD \"aa\" \"aa1\"\n");
    let found = record(rt.alloc(), b"w")?;
    let forms = [
        Form::RecordFound(&found),
        Form::NextFound(Key::Number(9), &found),
        Form::NextFound(Key::Text(text), &found),
    ];
    let want = b"12 RMS$_NORMAL \"w\"\n\
12 RMS$_NORMAL 9 \"w\"\n\
12 RMS$_NORMAL \"aa\" \"w\"\n";
    shows(&rt, rt.alloc(), 12, &forms, want);
    Ok(())
}

#[test]
fn changes_have_their_bytes(rt: HostRuntime) -> Result<(), Fail> {
    let file = FileName::new(b"f").ok_or("a name")?;
    let (tid, serial) = (Tid(id(1)?), Serial(id(2)?));
    let put = Form::ChangeEntry(0, tid, serial, file, Key::Number(1), None);
    shows(
        &rt,
        rt.alloc(),
        12,
        &[put],
        b"12 ENTRY 0 CHANGE A.1.1 A.1.2 F 1 -\n",
    );
    let text = KeyText::new(b"aa").ok_or("a key")?;
    let image = record(rt.alloc(), b"\"\xAF")?;
    let (tid, serial) = (Tid(id(1)?), Serial(id(2)?));
    let update = Form::ChangeEntry(52, tid, serial, file, Key::Text(text), Some(&image));
    let want = b"12 ENTRY 52 CHANGE A.1.1 A.1.2 F \"aa\" %X22AF\n";
    shows(&rt, rt.alloc(), 12, &[update], want);
    Ok(())
}

// A message of this kind; where a branch joins, it has an id.
fn message(kind: Kind) -> Result<Message, Fail> {
    let bid = match kind {
        Kind::Join => Some(Bid(id(3)?)),
        _ => None,
    };
    Ok(Message {
        kind,
        from: NodeName::new(b"b").ok_or("a name")?,
        to: NodeName::new(b"a").ok_or("a name")?,
        tid: Tid(id(1)?),
        serial: Serial(id(2)?),
        bid,
    })
}

#[test]
fn messages_have_their_bytes(rt: HostRuntime) -> Result<(), Fail> {
    let sent: [(Kind, u32, &[u8]); 2] = [
        (Kind::Join, 1, b"11 SENT 1 B A JOIN A.1.1 A.1.2 A.1.3\n"),
        (
            Kind::JoinOk,
            1_000_000,
            b"11 SENT 1000000 B A JOINOK A.1.1 A.1.2\n",
        ),
    ];
    for (kind, message_number, want) in sent {
        let message = message(kind)?;
        shows(
            &rt,
            rt.alloc(),
            11,
            &[Form::Sent(message_number, &message)],
            want,
        );
    }
    let unsent: [(Kind, u32, &[u8]); 4] = [
        (Kind::ReadOnly, 11, b"11 UNSENT B A READONLY A.1.1 A.1.2\n"),
        (Kind::JoinOk, 12, b"12 UNSENT B A JOINOK A.1.1 A.1.2\n"),
        (Kind::JoinOk, 9, b"9 UNSENT B A JOINOK A.1.1 A.1.2\n"),
        (Kind::JoinOk, 1, b"1 UNSENT B A JOINOK A.1.1 A.1.2\n"),
    ];
    for (kind, number, want) in unsent {
        let message = message(kind)?;
        shows(&rt, rt.alloc(), number, &[Form::Unsent(&message)], want);
    }
    Ok(())
}

#[test]
fn missing_answers_have_their_bytes(rt: HostRuntime) -> Result<(), Fail> {
    let three = [Serial(id(2)?), Serial(id(1)?), Serial(id(2)?)];
    let serials = three.as_slice();
    let table: [(usize, &[u8]); 3] = [
        (0, b"11 PENDING -\n"),
        (1, b"11 PENDING A.1.2\n"),
        (3, b"11 PENDING A.1.2,A.1.1,A.1.2\n"),
    ];
    for (count, want) in table {
        assert!(rt; count <= 3);
        let some = &serials[..count];
        shows(&rt, rt.alloc(), 11, &[Form::Pending(some, &[])], want);
    }
    Ok(())
}

// The managers A_MANAGER_OF_15, R and A_MANAGER_OF_15.
fn managers() -> Result<[RmName; 3], Fail> {
    let first = RmName::new(b"r").ok_or("a name")?;
    let last = RmName::new(b"a_manager_of_15").ok_or("a name")?;
    Ok([last, first, last])
}

#[test]
fn missing_replies_have_their_bytes(rt: HostRuntime) -> Result<(), Fail> {
    let two = [Serial(id(2)?), Serial(id(1)?)];
    let serials = two.as_slice();
    let three = managers()?;
    let rms = three.as_slice();
    // How many serials, and which managers: from one on, up to another.
    let table: [(usize, usize, usize, &[u8]); 4] = [
        (0, 1, 2, b"9 PENDING R\n"),
        (0, 1, 3, b"9 PENDING R,A_MANAGER_OF_15\n"),
        (1, 1, 2, b"9 PENDING A.1.2,R\n"),
        (2, 0, 2, b"9 PENDING A.1.2,A.1.1,A_MANAGER_OF_15,R\n"),
    ];
    for (count, from, to, want) in table {
        assert!(rt; count <= 2 && from <= to && to <= 3);
        let some = &serials[..count];
        let form = Form::Pending(some, &rms[from..to]);
        shows(&rt, rt.alloc(), 9, &[form], want);
    }
    Ok(())
}

// A record of the log that waits for these serials and managers.
fn log_record(kind: LogKind, serials: &[Serial], rms: &[RmName]) -> Result<LogRec, Fail> {
    let mut record = LogRec {
        kind,
        tid: Tid(id(1)?),
        serial: Serial(id(2)?),
        waiting: SerialList::new(),
        rms: RmList::new(),
    };
    for serial in serials {
        if record.waiting.items().len() < 15 {
            record.waiting.push(*serial);
        }
    }
    for rm in rms {
        if record.rms.items().len() < 8 {
            record.rms.push(*rm);
        }
    }
    Ok(record)
}

#[test]
fn records_of_the_log_have_their_bytes(rt: HostRuntime) -> Result<(), Fail> {
    let two = [Serial(id(2)?), Serial(id(2)?)];
    let serials = two.as_slice();
    let three = managers()?;
    let rms = three.as_slice();
    // The line's number, the slot, what the record tells, how many serials, and which managers: from one on, up to another.
    let table: [(u32, u32, LogKind, usize, usize, usize, &[u8]); 7] = [
        (
            12,
            0,
            LogKind::Prepared,
            0,
            0,
            0,
            b"12 LOG 0 PREPARED A.1.1 A.1.2 -\n",
        ),
        (
            11,
            1,
            LogKind::Prepared,
            0,
            0,
            0,
            b"11 LOG 1 PREPARED A.1.1 A.1.2 -\n",
        ),
        (
            9,
            0,
            LogKind::Prepared,
            0,
            0,
            0,
            b"9 LOG 0 PREPARED A.1.1 A.1.2 -\n",
        ),
        (
            1,
            2,
            LogKind::Prepared,
            0,
            0,
            0,
            b"1 LOG 2 PREPARED A.1.1 A.1.2 -\n",
        ),
        (
            9,
            7,
            LogKind::Prepared,
            0,
            1,
            3,
            b"9 LOG 7 PREPARED A.1.1 A.1.2 R,A_MANAGER_OF_15\n",
        ),
        (
            9,
            127,
            LogKind::Committed,
            1,
            0,
            0,
            b"9 LOG 127 COMMITTED A.1.1 A.1.2 A.1.2 -\n",
        ),
        (
            9,
            511,
            LogKind::Committed,
            2,
            0,
            1,
            b"9 LOG 511 COMMITTED A.1.1 A.1.2 A.1.2,A.1.2 A_MANAGER_OF_15\n",
        ),
    ];
    for (number, slot, kind, count, from, to, want) in table {
        assert!(rt; count <= 2 && from <= to && to <= 3);
        let log = log_record(kind, &serials[..count], &rms[from..to])?;
        shows(&rt, rt.alloc(), number, &[Form::LogEntry(slot, &log)], want);
    }
    Ok(())
}
