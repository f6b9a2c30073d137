ghost use Rattle.std.specs.Prelude.{◌≡◌};
ghost use Rattle.commit_protocol.specs.Messages.{PreparedRecord};
ghost use Rattle.tm_types.specs.Parts.{log_record_of};

use net_wire::Message;
use std::alloc::{AllocError, Global};
use std::process::Abort;
use tm_table::*;
use tm_types::{Effect, Effects, Event};
use vms_base::{
    Bid, Id, Kind, LogKind, LogRec, Moment, NodeName, Outcome, Reason, Reply, RmEvent, RmList,
    RmName, Serial, SerialList, Tid,
};

fn node(name: &[u8]) -> NodeName {
    match NodeName::new(name) {
        Some(node) => node,
        None => NodeName::default(),
    }
}

fn id(name: &[u8], seq: u32) -> Id {
    Id {
        node: node(name),
        boot: 1,
        seq,
    }
}

fn tid() -> Tid {
    Tid(id(b"A", 1))
}

fn first() -> Serial {
    Serial(id(b"A", 1))
}

fn branch() -> Serial {
    Serial(id(b"B", 1))
}

fn bid() -> Bid {
    Bid(id(b"A", 2))
}

// What a node is told in these tests: the transaction is A.1.1, its other branch B.1.1, authorised by A.1.2.
#[derive(Clone, Copy)]
enum Told {
    Start,
    StartTimed,
    Authorise,
    Begin,
    Joins,
    ChangedFirst,
    Changed,
    End,
    EndFirst,
    EndBranch,
    Join,
    Up(Kind),
    Down(Kind),
    Replied(Reply),
    Clock(u64),
    LostA,
    LostB,
    RunDown,
    Inquire,
}

// A message about the branch, from its node to the coordinator.
fn up(kind: Kind) -> Event {
    let bid = if let Kind::Join = kind {
        Some(bid())
    } else {
        None
    };
    Event::Got(Message {
        kind,
        from: node(b"B"),
        to: node(b"A"),
        tid: tid(),
        serial: branch(),
        bid,
    })
}

fn down(kind: Kind) -> Event {
    Event::Got(Message {
        kind,
        from: node(b"A"),
        to: node(b"B"),
        tid: tid(),
        serial: branch(),
        bid: None,
    })
}

fn event(told: Told) -> Event {
    match told {
        Told::Start => Event::Start {
            tid: tid(),
            due: None,
        },
        Told::StartTimed => Event::Start {
            tid: tid(),
            due: Some(Moment(1000)),
        },
        Told::Authorise => Event::Authorise {
            tid: tid(),
            bid: bid(),
        },
        Told::Begin => Event::Begin {
            tid: tid(),
            serial: branch(),
            bid: bid(),
        },
        Told::Joins => Event::JoinRm {
            serial: first(),
            rm: RmName::default(),
        },
        Told::ChangedFirst => Event::Changed { serial: first() },
        Told::Changed => Event::Changed { serial: branch() },
        Told::End => Event::EndTrans { tid: tid() },
        Told::EndFirst => Event::EndBranch { serial: first() },
        Told::EndBranch => Event::EndBranch { serial: branch() },
        Told::Join => up(Kind::Join),
        Told::Up(kind) => up(kind),
        Told::Down(kind) => down(kind),
        Told::Replied(reply) => Event::Replied {
            serial: first(),
            rm: RmName::default(),
            reply,
        },
        Told::Clock(now) => Event::Clock(Moment(now)),
        Told::LostA => Event::LinkDown(node(b"A")),
        Told::LostB => Event::LinkDown(node(b"B")),
        Told::RunDown => Event::RunDown,
        Told::Inquire => Event::Inquire { serial: branch() },
    }
}

fn reason_name(reason: Reason) -> &'static str {
    match reason {
        Reason::Aborted => "ABORTED ",
        Reason::Vetoed => "VETOED ",
        Reason::SyncFail => "SYNC_FAIL ",
        Reason::Timeout => "TIMEOUT ",
        Reason::CommFail => "COMM_FAIL ",
        Reason::SegFail => "SEG_FAIL ",
    }
}

fn settled(outcome: Outcome, reason: Reason, has_record: bool) -> &'static str {
    match outcome {
        Outcome::Commit if has_record => "commit, record ",
        Outcome::Commit => "commit ",
        Outcome::Abort => reason_name(reason),
    }
}

fn kind_name(kind: Kind) -> &'static str {
    match kind {
        Kind::Join => "JOIN ",
        Kind::JoinOk => "JOINOK ",
        Kind::JoinNo => "JOINNO ",
        Kind::Prepare => "PREPARE ",
        Kind::Yes => "YES ",
        Kind::ReadOnly => "READONLY ",
        Kind::No => "NO ",
        Kind::Commit => "COMMIT ",
        Kind::Abort => "ABORT ",
        Kind::Ack => "ACK ",
        Kind::Inquire => "INQUIRE ",
    }
}

fn event_name(event: RmEvent) -> &'static str {
    match event {
        RmEvent::Prepare => "tell prepare ",
        RmEvent::Commit => "tell commit ",
        RmEvent::Abort => "tell abort ",
        RmEvent::OnePhase => "tell onephase ",
    }
}

// What an effect is, and the node that it is about or that sends.
fn named(effect: &Effect) -> (&'static str, NodeName) {
    match effect {
        Effect::Prepare { serial, rms: _ } => ("prepared ", serial.0.node),
        Effect::Settle {
            serial,
            outcome,
            reason,
            rec,
        } => (settled(*outcome, *reason, rec.is_some()), serial.0.node),
        Effect::Keep(rec) => ("keep ", rec.serial.0.node),
        Effect::Forget { serial } => ("forgot ", serial.0.node),
        Effect::Send(m) => (kind_name(m.kind), m.from),
        Effect::Tell {
            event,
            tid: _,
            serial,
            rm: _,
        } => (event_name(*event), serial.0.node),
        Effect::Joined { serial } => ("joined ", serial.0.node),
        Effect::Started { serial } => ("started ", serial.0.node),
        Effect::ReadOnly { serial } => ("readonly ", serial.0.node),
        Effect::Ended { tid, reason: None } => ("ended ", tid.0.node),
        Effect::Ended {
            tid,
            reason: Some(_),
        } => ("ended, abort ", tid.0.node),
    }
}

fn write(text: &mut String, effects: &Effects) -> Result<(), AllocError> {
    for e in effects.items() {
        let (what, node) = named(e);
        text.push_str(what)?;
        for b in node.bytes() {
            text.push(*b as char)?;
        }
        text.push_str("; ")?;
    }
    Ok(())
}

// The effects of the event, or that it is refused.
fn step(
    alloc: Global,
    tm: &mut Tm,
    out: &mut Effects,
    event: &Event,
) -> Result<String, AllocError> {
    let mut text = String::new(alloc);
    if tm.allows(event) {
        tm.step(event, out);
        write(&mut text, out)?;
    } else {
        text.push_str("refused")?;
    }
    Ok(text)
}

fn prepared() -> LogRec
    ensures { (log_record_of result).kind ≡ PreparedRecord }
{
    LogRec {
        kind: LogKind::Prepared,
        tid: tid(),
        serial: branch(),
        waiting: SerialList::new(),
        rms: RmList::new(),
    }
}

// Each step has just these effects.
fn run(
    rt: &impl Abort,
    alloc: Global,
    tm: &mut Tm,
    out: &mut Effects,
    steps: &[(Told, &str)],
) -> Result<(), AllocError> {
    for (told, expected) in steps {
        let seen = step(alloc, tm, out, &event(*told))?;
        assert_eq!(rt; seen.as_str(), *expected);
    }
    Ok(())
}

// The same at a new table.
fn run_anew(rt: &impl Abort, alloc: Global, steps: &[(Told, &str)]) -> Result<(), AllocError> {
    let mut tm = Tm::reserve(alloc)?;
    let mut out = Effects::reserve(alloc)?;
    run(rt, alloc, &mut tm, &mut out, steps)
}

const COMMITTED: [(Told, &str); 17] = [
    (Told::Start, ""),
    (Told::Authorise, ""),
    (Told::Join, "joined B; JOINOK A; "),
    (Told::Join, "JOINOK A; "),
    (Told::Up(Kind::Inquire), ""),
    (Told::EndFirst, "refused"),
    (Told::End, "PREPARE A; "),
    (Told::End, "refused"),
    (Told::Up(Kind::Inquire), ""),
    (Told::Up(Kind::Yes), "commit, record A; COMMIT A; ended A; "),
    (Told::Up(Kind::Yes), ""),
    (Told::Up(Kind::Inquire), "COMMIT A; "),
    (Told::Up(Kind::Ack), "forgot A; "),
    (Told::Up(Kind::Ack), ""),
    (Told::Up(Kind::Inquire), "ABORT A; "),
    (Told::Up(Kind::No), ""),
    (Told::Join, "JOINNO A; "),
];

#[test]
fn a_coordinator_commits(rt: HostRuntime) -> Result<(), AllocError> {
    run_anew(&rt, rt.alloc(), &COMMITTED)
}

const VOTED: [(Told, &str); 12] = [
    (Told::Begin, "JOIN B; "),
    (Told::Down(Kind::JoinOk), "started B; "),
    (Told::Changed, ""),
    (Told::EndBranch, ""),
    (Told::Down(Kind::Prepare), "prepared B; YES B; "),
    (Told::Down(Kind::Prepare), "YES B; "),
    (Told::RunDown, ""),
    (Told::Inquire, "INQUIRE B; "),
    (Told::Down(Kind::Commit), "commit B; ACK B; "),
    (Told::Down(Kind::Commit), "ACK B; "),
    (Told::Down(Kind::Prepare), "NO B; "),
    (Told::Down(Kind::Abort), ""),
];

#[test]
fn a_branch_votes_and_recovers(rt: HostRuntime) -> Result<(), AllocError> {
    run_anew(&rt, rt.alloc(), &VOTED)
}

#[test]
fn a_prepared_branch_is_restored(rt: HostRuntime) -> Result<(), AllocError> {
    let mut tm = Tm::reserve(rt.alloc())?;
    let mut out = Effects::reserve(rt.alloc())?;
    tm.boot(node(b"B"), &[prepared()], &[]);
    assert!(rt;
        tm.branch(branch()).is_some() && tm.branch_at(0).is_some() && tm.branch_at(1).is_none()
    );
    assert!(rt; tm.committed(branch()).is_none());
    let steps = [
        (Told::Inquire, "INQUIRE B; "),
        (Told::Down(Kind::Abort), "ABORTED B; "),
    ];
    run(&rt, rt.alloc(), &mut tm, &mut out, &steps)
}

const ABORTED: [(Told, &str); 26] = [
    (Told::StartTimed, ""),
    (Told::Clock(999), ""),
    (Told::Clock(1000), "TIMEOUT A; "),
    (Told::Start, ""),
    (Told::Authorise, ""),
    (Told::End, "SYNC_FAIL A; "),
    (Told::Start, ""),
    (Told::Authorise, ""),
    (Told::Join, "joined B; JOINOK A; "),
    (Told::LostB, "COMM_FAIL A; ABORT A; "),
    (Told::Start, ""),
    (Told::Authorise, ""),
    (Told::Join, "joined B; JOINOK A; "),
    (Told::End, "PREPARE A; "),
    (Told::Up(Kind::No), "VETOED A; ended, abort A; "),
    (Told::Begin, "JOIN B; "),
    (Told::Down(Kind::JoinNo), "SYNC_FAIL B; "),
    (Told::Begin, "JOIN B; "),
    (Told::Down(Kind::JoinOk), "started B; "),
    (Told::LostA, "COMM_FAIL B; NO B; "),
    (Told::Begin, "JOIN B; "),
    (Told::Down(Kind::Prepare), "started B; "),
    (Told::EndBranch, "readonly B; READONLY B; "),
    (Told::Start, ""),
    (Told::Begin, "JOIN B; "),
    (Told::RunDown, "SEG_FAIL A; SEG_FAIL B; NO B; "),
];

#[test]
fn aborts_have_their_reasons(rt: HostRuntime) -> Result<(), AllocError> {
    run_anew(&rt, rt.alloc(), &ABORTED)
}

const HEARD: [(Told, &str); 18] = [
    (Told::Start, ""),
    (Told::Joins, ""),
    (Told::Joins, "refused"),
    (Told::End, "tell onephase A; "),
    (Told::Replied(Reply::Forget), "refused"),
    (Told::Replied(Reply::Normal), "commit A; ended A; "),
    (Told::Start, ""),
    (Told::Joins, ""),
    (Told::End, "tell onephase A; "),
    (Told::Replied(Reply::Veto), "VETOED A; ended, abort A; "),
    (Told::Start, ""),
    (Told::Joins, ""),
    (Told::ChangedFirst, ""),
    (Told::End, "tell prepare A; "),
    (
        Told::Replied(Reply::Prepared),
        "commit, record A; tell commit A; ended A; ",
    ),
    (Told::Replied(Reply::Remember), ""),
    (Told::Replied(Reply::Forget), "forgot A; "),
    (Told::Replied(Reply::Forget), "refused"),
];

#[test]
fn managers_vote_and_hear(rt: HostRuntime) -> Result<(), AllocError> {
    run_anew(&rt, rt.alloc(), &HEARD)
}
