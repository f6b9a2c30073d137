//! The resource managers of a node: how many are declared, which join a branch, and which reply of which one a branch takes.
use participants::{RmErr, Rms};
use std::alloc::{AllocError, Global};
use std::process::Abort;
use std::test::Fail;
use tm_table::Tm;
use tm_types::{Effects, Event};
use vms_base::{Id, NodeName, Reply, RmName, Serial, Tid};

// The managers R1, R2 and so on of a node, and its table, whose transactions begin with the branches 1, 2 and so on.
#[derive(Drop)]
struct Scene {
    rms: Rms,
    tm: Tm,
    out: Effects,
    alloc: Global,
}

// What a node is asked: managers by their numbers, and where it is not the first one, the branch.
#[derive(Clone, Copy)]
enum Asked {
    Declare(u32),
    Forget(u32),
    Start,
    Join(u32),
    JoinOther(u32, u32),
    End,
    Replies(u32, Reply),
    Clear,
}

// What is seen of it: something is done, or refused; which replies of a manager are taken; and whether it is declared.
#[derive(Clone, Copy)]
enum Seen {
    Does(Asked),
    Refuses(Asked, RmErr),
    Takes(u32, [Option<RmErr>; 5]),
    Declared(u32, bool),
}

fn new_scene(alloc: Global) -> Result<Scene, AllocError> {
    Ok(Scene {
        rms: Rms::reserve(alloc)?,
        tm: Tm::reserve(alloc)?,
        out: Effects::reserve(alloc)?,
        alloc,
    })
}

fn name(number: u32, alloc: Global) -> Result<RmName, Fail> {
    let text = format!(in alloc; "R{number}")?;
    Ok(RmName::new(text.as_bytes()).ok_or("a name")?)
}

fn serial(seq: u32) -> Serial {
    Serial(Id {
        node: NodeName::default(),
        boot: 1,
        seq,
    })
}

fn tid() -> Tid {
    Tid(serial(1).0)
}

// The table is told an event that it allows, or it is said why there is none.
fn tell(scene: &mut Scene, event: Result<Event, RmErr>) -> Result<Option<RmErr>, Fail> {
    match event {
        Err(e) => Ok(Some(e)),
        Ok(event) => {
            if !scene.tm.allows(&event) {
                return Err(Fail::from("an event is not allowed"));
            }
            scene.tm.step(&event, &mut scene.out);
            Ok(None)
        }
    }
}

fn join(scene: &mut Scene, seq: u32, number: u32) -> Result<Option<RmErr>, Fail> {
    let rm = name(number, scene.alloc)?;
    let event = scene.rms.join(&scene.tm, &serial(seq), &rm);
    tell(scene, event)
}

fn replied(scene: &mut Scene, number: u32, reply: Reply) -> Result<Option<RmErr>, Fail> {
    let rm = name(number, scene.alloc)?;
    let event = scene.rms.reply(&scene.tm, &serial(1), &rm, reply);
    tell(scene, event)
}

fn declare(scene: &mut Scene, number: u32) -> Result<Option<RmErr>, Fail> {
    let rm = name(number, scene.alloc)?;
    Ok(scene.rms.declare(rm).err())
}

fn forget(scene: &mut Scene, number: u32) -> Result<Option<RmErr>, Fail> {
    let rm = name(number, scene.alloc)?;
    Ok(scene.rms.forget(&scene.tm, &rm).err())
}

// Does what is asked, or says why it is refused.
fn ask(scene: &mut Scene, asked: Asked) -> Result<Option<RmErr>, Fail> {
    match asked {
        Asked::Declare(number) => declare(scene, number),
        Asked::Forget(number) => forget(scene, number),
        Asked::Start => tell(
            scene,
            Ok(Event::Start {
                tid: tid(),
                due: None,
            }),
        ),
        Asked::Join(number) => join(scene, 1, number),
        Asked::JoinOther(seq, number) => join(scene, seq, number),
        Asked::End => tell(scene, Ok(Event::EndTrans { tid: tid() })),
        Asked::Replies(number, reply) => replied(scene, number, reply),
        Asked::Clear => {
            scene.rms.clear();
            Ok(None)
        }
    }
}

const REPLIES: [Reply; 5] = [
    Reply::Prepared,
    Reply::Forget,
    Reply::Veto,
    Reply::Remember,
    Reply::Normal,
];

// Why a reply of a manager to the first branch would be refused.
fn why_refused(tm: &Tm, rms: &Rms, rm: &RmName, reply: Reply) -> Option<RmErr> {
    match rms.reply(tm, &serial(1), rm, reply) {
        Ok(_) => None,
        Err(e) => Some(e),
    }
}

// Whether each reply of a manager to the first branch would be taken, in the order above, or why not.
fn all_replies(scene: &Scene, number: u32) -> Result<[Option<RmErr>; 5], Fail> {
    let rm = name(number, scene.alloc)?;
    let mut seen = [None; 5];
    for at in 0..5usize {
        seen[at] = why_refused(&scene.tm, &scene.rms, &rm, REPLIES[at]);
    }
    Ok(seen)
}

fn is_declared(scene: &Scene, number: u32) -> Result<bool, Fail> {
    Ok(scene.rms.is_declared(&name(number, scene.alloc)?))
}

// What is wanted is seen.
fn see(rt: &impl Abort, scene: &mut Scene, wanted: Seen) -> Result<(), Fail> {
    match wanted {
        Seen::Does(asked) => assert_eq!(rt; ask(scene, asked)?, None),
        Seen::Refuses(asked, why) => assert_eq!(rt; ask(scene, asked)?, Some(why)),
        Seen::Takes(number, wants) => assert_eq!(rt; all_replies(scene, number)?, wants),
        Seen::Declared(number, is) => assert_eq!(rt; is_declared(scene, number)?, is),
    }
    Ok(())
}

fn see_all(rt: &impl Abort, scene: &mut Scene, wanted: &[Seen]) -> Result<(), Fail> {
    for seen in wanted {
        see(rt, scene, *seen)?;
    }
    Ok(())
}

fn declares_once(rt: &impl Abort, scene: &mut Scene, number: u32) -> Result<(), Fail> {
    see(rt, scene, Seen::Declared(number, false))?;
    see(rt, scene, Seen::Does(Asked::Declare(number)))?;
    see(
        rt,
        scene,
        Seen::Refuses(Asked::Declare(number), RmErr::State),
    )?;
    see(rt, scene, Seen::Declared(number, true))
}

const FULL: [Seen; 10] = [
    Seen::Refuses(Asked::Declare(65), RmErr::Quota(64)),
    Seen::Refuses(Asked::Forget(65), RmErr::NoRm),
    Seen::Does(Asked::Forget(7)),
    Seen::Declared(7, false),
    Seen::Refuses(Asked::Forget(7), RmErr::NoRm),
    Seen::Does(Asked::Declare(65)),
    Seen::Refuses(Asked::Declare(7), RmErr::Quota(64)),
    Seen::Does(Asked::Clear),
    Seen::Declared(1, false),
    Seen::Does(Asked::Declare(7)),
];

#[test]
fn sixty_four_managers_are_declared_once_each(rt: HostRuntime) -> Result<(), Fail> {
    let mut scene = new_scene(rt.alloc())?;
    for number in 1..65u32 {
        declares_once(&rt, &mut scene, number)?;
    }
    see_all(&rt, &mut scene, &FULL)
}

const STARTED: [Seen; 3] = [
    Seen::Does(Asked::Start),
    Seen::Refuses(Asked::JoinOther(2, 1), RmErr::NoTid),
    Seen::Refuses(Asked::Join(10), RmErr::NoRm),
];

const JOINED: [Seen; 3] = [
    Seen::Refuses(Asked::Join(9), RmErr::Quota(8)),
    Seen::Refuses(Asked::Forget(8), RmErr::State),
    Seen::Does(Asked::Forget(9)),
];

#[test]
fn eight_managers_join_a_branch(rt: HostRuntime) -> Result<(), Fail> {
    let mut scene = new_scene(rt.alloc())?;
    for number in 1..10u32 {
        see(&rt, &mut scene, Seen::Does(Asked::Declare(number)))?;
    }
    see_all(&rt, &mut scene, &STARTED)?;
    for number in 1..9u32 {
        see(&rt, &mut scene, Seen::Does(Asked::Join(number)))?;
        see(
            &rt,
            &mut scene,
            Seen::Refuses(Asked::Join(number), RmErr::State),
        )?;
    }
    see_all(&rt, &mut scene, &JOINED)
}

const NO_BRANCH: [Option<RmErr>; 5] = [Some(RmErr::NoTid); 5];

const NO_MANAGER: [Option<RmErr>; 5] = [Some(RmErr::NoRm); 5];

const NO_EVENT: [Option<RmErr>; 5] = [Some(RmErr::State); 5];

// Those to PREPARE, and those to COMMIT.
const TO_PREPARE: [Option<RmErr>; 5] = [None, None, None, Some(RmErr::State), Some(RmErr::State)];

const TO_COMMIT: [Option<RmErr>; 5] = [
    Some(RmErr::State),
    None,
    Some(RmErr::State),
    None,
    Some(RmErr::State),
];

const REPLIED: [Seen; 24] = [
    Seen::Does(Asked::Declare(1)),
    Seen::Does(Asked::Declare(2)),
    Seen::Takes(1, NO_BRANCH),
    Seen::Does(Asked::Start),
    Seen::Takes(1, NO_MANAGER),
    Seen::Does(Asked::Join(1)),
    Seen::Takes(1, NO_EVENT),
    Seen::Does(Asked::Join(2)),
    Seen::Does(Asked::End),
    Seen::Takes(1, TO_PREPARE),
    Seen::Takes(3, NO_MANAGER),
    Seen::Does(Asked::Replies(2, Reply::Forget)),
    Seen::Takes(2, NO_EVENT),
    Seen::Takes(1, TO_PREPARE),
    Seen::Does(Asked::Replies(1, Reply::Prepared)),
    Seen::Takes(2, NO_MANAGER),
    Seen::Takes(1, TO_COMMIT),
    Seen::Does(Asked::Replies(1, Reply::Remember)),
    Seen::Takes(1, TO_COMMIT),
    Seen::Does(Asked::Forget(1)),
    Seen::Takes(1, NO_MANAGER),
    Seen::Does(Asked::Declare(1)),
    Seen::Does(Asked::Replies(1, Reply::Forget)),
    Seen::Takes(1, NO_BRANCH),
];

#[test]
fn a_reply_is_taken_where_its_event_waits(rt: HostRuntime) -> Result<(), Fail> {
    let mut scene = new_scene(rt.alloc())?;
    see_all(&rt, &mut scene, &REPLIED)
}
