//! A node over its disk: each task is a step of it.
ghost use Rattle.std.specs.Prelude.{◌≡◌, ◌<◌, ◌≤◌, ◌+◌, ◌∷◌, [], ℕ, Bool, true, false, IfErr, IfOk, List, OnErr, OnOk, length, map, max, slice_get};
ghost use Rattle.std.specs.Option.{option_map};
ghost use Rattle.block_disk.specs.Sizes.{greatest_disk_size, least_disk_size};
ghost use Rattle.vms_model.specs.Limits.{branch_limit, moment_ceiling, moment_limit};
ghost use Rattle.change_set.specs.Files.{free_frames};
ghost use Rattle.emitter_model.specs.commit_protocol.Messages.{Inquire as InquireSaid};
ghost use Rattle.vms_base.specs.Ids.{serial_of};
ghost use Rattle.vms_base.specs.Outcomes.{outcome_of};
ghost use Rattle.transcript.specs.Forms.{cause_of as cause_told};
ghost use Rattle.emitter_model.specs.Emitting.{Emits, Shown};
ghost use Rattle.emitter_model.specs.transcript_model.Lines as line;
ghost use Rattle.net_wire.specs.Messages.{kind_of, message_of};
ghost use Rattle.tm_types.specs.Events.{event_of};
ghost use Rattle.world_laws.specs.run_model.Answers.{Hears, LosesLink, Restarts, RunsDown, Serves, Takes, Ticks, outcome_told as outcome_said};
ghost use Rattle.run_shared.specs.Sharing.{SharedState};
ghost use Rattle.script_lang.specs.Statements.{request_of};
ghost use Rattle.script_lang.specs.script_model.Statements as said;
ghost use Rattle.dtm_node.specs.declared.node.Node.{Node as NodeSaid};
ghost use Rattle.dtm_node.specs.Causes.{cause_of as cause_said};
ghost use Rattle.node_requests.specs.node_standing.Keeping.{PerformsRequest, PerformsTask};
ghost use Rattle.dtm_node.specs.Nodes.{IsFallen, IsNode, IsNodeInScript, IsParts, IsPlaceOf, MayFall, fallen_place, kept_of, last_lines_of, place_armed, place_of, state_of, undone_line};
ghost use Rattle.dtm_node.specs.Boots.{IsRaised};
ghost use Rattle.dtm_node.specs.Going.{KeepsNode, ShowsOn};
ghost use Rattle.dtm_node.specs.Formatting.{Formats, FormatsDisk};
ghost use Rattle.dtm_node.specs.Opening.{Breaks, ComesTo, IsOpen, Opens, ReopensUp, Reopens, kept_down, prepared_told};
ghost use Rattle.std.specs.List.{AllByRecursion};
ghost use Rattle.emitter_model.specs.commit_protocol.Table.{branches_of};
ghost use Rattle.tm_types.specs.Parts.{log_record_of};
ghost use Rattle.recovery_units.specs.declared.settled.SettledUnit.{SettledUnit as SettledSaid};
ghost use Rattle.recovery_units.specs.Calls.{MayBegin, ReopensErr, ReopensOk};
ghost use Rattle.recovery_units.specs.State.{AreOfBranches, HasNoUnit, IsEarly, IsInOrder};
ghost use Rattle.recovery_units.specs.Told.{nothing_told};
ghost use Rattle.recovery_units.specs.Uses.{Caused, Grows, ImagesGrow, down_of};
ghost use Rattle.node_requests.specs.node_table.Code.{up_of};
ghost use Rattle.dtm_node.specs.Asking.{answer_in_place, in_doubt_in, is_over, question_in};
ghost use Rattle.node_requests.specs.Requests.{IsForUp};
ghost use Rattle.node_requests.specs.node_standing.Moments.{CanBeTold};
ghost use Rattle.node_requests.specs.Running.{ComesFreely, TellsEvent};
ghost use Rattle.node_requests.specs.node_standing.Standing.{IsDown, is_up as is_up_in};
ghost use Rattle.node_requests.specs.node_standing.Telling.{TellsTask};

use crate::boot::{Booted, open_disk};
use block_disk::Disk;
use careful_write::{Down, Group};
use core::mem::replace_with;
use frame_pool::Pool;
use net_wire::Message;
use node_requests::{Reply, Room, Running, Stored, serve_up, the_laws};
use participants::Rms;
use recovery_units::{RecoveryUnits, SettledUnit};
use run_shared::Shared;
use script_lang::{Literals, Request};
use std::alloc::{AllocError, Global};
use tm_table::Tm;
use tm_types::{Effects, Event, State};
use transcript::{Cause, Emit, Form};
use vms_base::{Kind, LogRec, Moment, NodeName, Outcome, Reason, Serial};
use volume::{Volume, sizes_fit};
use volume_format::{Ending, Home, Sizes};
use world_laws::nodes_stay_kept;

const FRAMES: u32 = 64;

// What a node reserves at its first boot, for good.
#[derive(Drop)]
pub(crate) struct Parts<U: RecoveryUnits> {
    pub group: Group,
    pub pool: Pool,
    pub units: U,
    pub room: Room,
    pub table: Tm,
    pub effects: Effects,
    pub managers: Rms,
}

// What stands over a node's disk.
#[derive(Drop)]
enum Place<D: Disk, U: RecoveryUnits> {
    // The node is down. It has its parts from its first boot on.
    Down(D, Option<Parts<U>>),
    Up(Running<D, U>),
}

/// A node over its disk.
#[derive(Drop)]
pub struct Node<D: Disk, U: RecoveryUnits> {
    name: NodeName,
    // The last INIT that made the disk run failed, so that there is no volume.
    unmade: bool,
    clock: Moment,
    place: Place<D, U>,
}

/// Whether the statement of which a task is a part goes on behind it, or was ended and answered by it.
#[derive(Clone, Copy, Debug, PartialEq, Eq)]
pub enum Flow {
    GoesOn,
    Over,
}

fn cause_of(down: Down) -> Cause
    ensures { cause_told result ≡ cause_said down }
{
    match down {
        Down::Failed => Cause::Failed,
        Down::Stopped => Cause::Stopped,
    }
}

// The answer that a settling gives a prepared branch tells this outcome.
fn outcome_told(kind: Kind) -> Outcome
    ensures { outcome_of result ≡ outcome_said (kind_of kind) }
{
    match kind {
        Kind::Commit => Outcome::Commit,
        _ => Outcome::Abort,
    }
}

fn reserve_parts<U: RecoveryUnits>(alloc: Global) -> Result<Parts<U>, AllocError>
    ensures { IfOk result (IsParts U.state) }
{
    Ok(Parts {
        group: Group::reserve(alloc)?,
        pool: Pool::new(alloc, FRAMES)?,
        units: U::reserve(alloc)?,
        room: Room::reserve(alloc)?,
        table: Tm::reserve(alloc)?,
        effects: Effects::reserve(alloc)?,
        managers: Rms::reserve(alloc)?,
    })
}

// Shows the last settlement on a disk, where there is one.
fn show_last<E: Emit>(home: &Home, out: &mut E)
    requires moment { home.now.greatest_moment.0 ≤ moment_limit }
    ensures shown { ShowsOn E.shows E.place out.old out.new }
    ensures shows { Emits (E.shows out.old) (last_lines_of home.now) (E.shows out.new) }
{
    let Some(last) = &home.last else {
        return;
    };
    match last.ending {
        Ending::Commit => out.emit(&Form::LastCommitted(
            last.tid,
            last.serial,
            home.greatest_moment,
        )),
        Ending::Abort(reason) => out.emit(&Form::LastAborted(
            last.tid,
            last.serial,
            reason,
            home.greatest_moment,
        )),
    }
}

impl<D: Disk + Drop, U: RecoveryUnits> Node<D, U> {
    /// A node that was not booted yet.
    pub fn new(name: NodeName, disk: D) -> Node<D, U>
        ensures kept { kept_of D.state U.state result ≡ record { name = name; unmade = false; clock = 0; place = IsDown false (D.state disk) } }
        ensures node { (s : SharedState) → least_disk_size ≤ (D.state disk).size → (D.state disk).size ≤ greatest_disk_size → IsNode D.state U.state 0 s result }
    {
        Node {
            name,
            unmade: false,
            clock: Moment(0),
            place: Place::Down(disk, None),
        }
    }

    /// The name of the node.
    pub fn name(&self) -> NodeName
        ensures { result ≡ self.now.name }
    {
        self.name
    }

    /// Whether it is up.
    pub fn is_up(&self) -> bool
        ensures { result ≡ is_up_in (kept_of D.state U.state self.now).place }
    {
        match &self.place {
            Place::Down(_, _) => false,
            Place::Up(_) => true,
        }
    }

    /// The disk of the node, as the last call of it left it; what memory held is gone.
    pub fn into_disk(self) -> D
        ensures { D.state result ≡ state_of D.state U.state self }
    {
        match self.place {
            Place::Down(disk, _parts) => disk,
            Place::Up(running) => {
                let (disk, _parts) = taken_apart(running);
                disk
            }
        }
    }

    /// Serves a request and answers it. A CLOCK is none of these: the answer to it comes behind what is aborted by then.
    pub fn serve<E: Emit>(
        &mut self,
        alloc: Global,
        request: &Request,
        lit: &Literals,
        shared: &mut Shared,
        out: &mut E,
    )
        requires answered { (now : ℕ) → request_of lit.now request.now ≡ said.Clock now → ⊥ }
        requires times { CanBeTold (request_of lit.now request.now) }
        requires node { IsNodeInScript D.state U.state shared.old self.old }
        ensures keeps { KeepsNode D.state U.state (λ count. count + 1) shared.old shared.new self.old self.new }
        ensures shown { ShowsOn E.shows E.place out.old out.new }
        ensures tells { (ends : Bool) × TellsTask (Serves (request_of lit.now request.now)) true ends (kept_of D.state U.state self.old) shared.old (E.shows out.old) (E.shows out.new) (kept_of D.state U.state self.new) shared.new }
        ensures performs { PerformsRequest (request_of lit.now request.now) (kept_of D.state U.state self.old) shared.old (E.shows out.old) (E.shows out.new) (kept_of D.state U.state self.new) shared.new }
    {
        match request {
            Request::Init { slots, blocks } => self.init(*slots, *blocks, shared, out),
            Request::Boot => self.boot(alloc, shared, out),
            Request::Fuse { writes, choice } => self.fuse(*writes, *choice, shared, out),
            Request::Crash => self.crash(shared, out),
            _ => self.serve_up(alloc, request, lit, shared, out),
        }
    }

    // Serves a statement that a node has to be up for.
    fn serve_up<E: Emit>(
        &mut self,
        alloc: Global,
        request: &Request,
        lit: &Literals,
        shared: &mut Shared,
        out: &mut E,
    )
        requires asks { IsForUp (request_of lit.now request.now) }
        requires times { CanBeTold (request_of lit.now request.now) }
        requires node { IsNodeInScript D.state U.state shared.old self.old }
        ensures keeps { KeepsNode D.state U.state (λ count. count + 1) shared.old shared.new self.old self.new }
        ensures shown { ShowsOn E.shows E.place out.old out.new }
        ensures tells { (ends : Bool) × TellsTask (Serves (request_of lit.now request.now)) true ends (kept_of D.state U.state self.old) shared.old (E.shows out.old) (E.shows out.new) (kept_of D.state U.state self.new) shared.new }
        ensures performs { PerformsRequest (request_of lit.now request.now) (kept_of D.state U.state self.old) shared.old (E.shows out.old) (E.shows out.new) (kept_of D.state U.state self.new) shared.new }
    {
        match &mut self.place {
            Place::Up(running) => match serve_up(
                alloc, running, request, lit, self.clock, shared, out,
            ) {
                Ok(Reply::Told) => {}
                Ok(Reply::NoMemory) => out.emit(&Form::NoMemory),
                Err(down) => {
                    self.go_down(down, out);
                    out.emit(&Form::Broken(cause_of(down)));
                }
            },
            Place::Down(_, _) => out.emit(&Form::NodeDown),
        }
    }

    // The node goes down, for its disk did, which is shown.
    fn go_down<E: Emit>(&mut self, down: Down, out: &mut E)
        requires falls { MayFall D.state U.state self.old.place }
        ensures kept { kept_of D.state U.state self.new ≡ record (kept_of D.state U.state self.old) { place = fallen_place (kept_of D.state U.state self.old).place } }
        ensures node { (count : ℕ) (s : SharedState) → self.old.clock.0 ≤ moment_limit → IsNode D.state U.state count s self.new }
        ensures shown { ShowsOn E.shows E.place out.old out.new }
        ensures shows { Emits (E.shows out.old) (line.Down self.old.name (cause_said down) ∷ []) (E.shows out.new) }
    {
        out.emit(&Form::Down(self.name, cause_of(down)));
        replace_with(&mut self.place, (), fall);
    }

    // An event comes to a node that is up, by which no statement ends: not even where the disk goes down.
    fn tell_on<E: Emit>(&mut self, event: &Event, shared: &mut Shared, out: &mut E)
        requires event { ComesFreely (event_of event.now) }
        requires up { is_up_in (kept_of D.state U.state self.old).place ≡ true }
        requires node { IsNodeInScript D.state U.state shared.old self.old }
        ensures keeps { KeepsNode D.state U.state (λ count. count) shared.old shared.new self.old self.new }
        ensures shown { ShowsOn E.shows E.place out.old out.new }
        ensures does { TellsEvent (event_of event.now) true false (kept_of D.state U.state self.old) shared.old (E.shows out.old) (E.shows out.new) (kept_of D.state U.state self.new) shared.new }
    {
        the_laws();
        match &mut self.place {
            Place::Up(running) => match running.tell(event, self.clock, shared, out) {
                Ok(()) => {}
                Err(down) => self.go_down(down, out),
            },
            Place::Down(_, _) => unreachable!(),
        }
    }

    // An event comes to a node; where that is down, or its disk goes down, the statement is answered with that.
    fn tell_or_end<E: Emit>(&mut self, event: &Event, shared: &mut Shared, out: &mut E) -> Flow
        requires event { ComesFreely (event_of event.now) }
        requires node { IsNodeInScript D.state U.state shared.old self.old }
        ensures keeps { KeepsNode D.state U.state (λ count. count) shared.old shared.new self.old self.new }
        ensures shown { ShowsOn E.shows E.place out.old out.new }
        ensures does { TellsEvent (event_of event.now) false (is_over result) (kept_of D.state U.state self.old) shared.old (E.shows out.old) (E.shows out.new) (kept_of D.state U.state self.new) shared.new }
    {
        the_laws();
        match &mut self.place {
            Place::Up(running) => match running.tell(event, self.clock, shared, out) {
                Ok(()) => Flow::GoesOn,
                Err(down) => {
                    self.go_down(down, out);
                    out.emit(&Form::Broken(cause_of(down)));
                    Flow::Over
                }
            },
            Place::Down(_, _) => {
                out.emit(&Form::NodeDown);
                Flow::Over
            }
        }
    }

    /// CLOCK: its clock is set.
    pub fn set_clock(&mut self, now: Moment)
        requires limit { now.0 ≤ moment_limit }
        ensures kept { kept_of D.state U.state self.new ≡ record (kept_of D.state U.state self.old) { clock = now.0 } }
        ensures node { (count : ℕ) (s : SharedState) → IsNode D.state U.state count s self.old → IsNode D.state U.state count s self.new }
        ensures performs { (s : SharedState) (a : Shown) → PerformsTask (Serves (said.Clock now.0)) false false (kept_of D.state U.state self.old) s a a (kept_of D.state U.state self.new) s }
    {
        the_laws();
        self.clock = now;
    }

    /// Aborts what is due by the clock of a node that is up.
    pub fn tick<E: Emit>(&mut self, shared: &mut Shared, out: &mut E)
        requires up { is_up_in (kept_of D.state U.state self.old).place ≡ true }
        requires node { IsNodeInScript D.state U.state shared.old self.old }
        ensures keeps { KeepsNode D.state U.state (λ count. count) shared.old shared.new self.old self.new }
        ensures shown { ShowsOn E.shows E.place out.old out.new }
        ensures tells { TellsTask (Ticks) false false (kept_of D.state U.state self.old) shared.old (E.shows out.old) (E.shows out.new) (kept_of D.state U.state self.new) shared.new }
        ensures performs { PerformsTask (Ticks) false false (kept_of D.state U.state self.old) shared.old (E.shows out.old) (E.shows out.new) (kept_of D.state U.state self.new) shared.new }
    {
        self.tell_on(&Event::Clock(self.clock), shared, out);
    }

    /// The link of a node that is up to another node fails.
    pub fn lose_link<E: Emit>(&mut self, other: NodeName, shared: &mut Shared, out: &mut E)
        requires up { is_up_in (kept_of D.state U.state self.old).place ≡ true }
        requires node { IsNodeInScript D.state U.state shared.old self.old }
        ensures keeps { KeepsNode D.state U.state (λ count. count) shared.old shared.new self.old self.new }
        ensures shown { ShowsOn E.shows E.place out.old out.new }
        ensures tells { TellsTask (LosesLink other) false false (kept_of D.state U.state self.old) shared.old (E.shows out.old) (E.shows out.new) (kept_of D.state U.state self.new) shared.new }
        ensures performs { PerformsTask (LosesLink other) false false (kept_of D.state U.state self.old) shared.old (E.shows out.old) (E.shows out.new) (kept_of D.state U.state self.new) shared.new }
    {
        self.tell_on(&Event::LinkDown(other), shared, out);
    }

    /// A message comes to the node.
    pub fn take<E: Emit>(&mut self, m: &Message, shared: &mut Shared, out: &mut E) -> Flow
        requires node { IsNodeInScript D.state U.state shared.old self.old }
        ensures keeps { KeepsNode D.state U.state (λ count. count) shared.old shared.new self.old self.new }
        ensures shown { ShowsOn E.shows E.place out.old out.new }
        ensures tells { TellsTask (Takes (message_of m.now)) (is_over result) (is_over result) (kept_of D.state U.state self.old) shared.old (E.shows out.old) (E.shows out.new) (kept_of D.state U.state self.new) shared.new }
        ensures performs { PerformsTask (Takes (message_of m.now)) (is_over result) (is_over result) (kept_of D.state U.state self.old) shared.old (E.shows out.old) (E.shows out.new) (kept_of D.state U.state self.new) shared.new }
    {
        self.tell_or_end(&Event::Got(*m), shared, out)
    }

    /// The answer to a question of one of its branches comes, which a settling asked.
    pub fn hear<E: Emit>(&mut self, m: &Message, shared: &mut Shared, out: &mut E) -> Flow
        requires node { IsNodeInScript D.state U.state shared.old self.old }
        ensures keeps { KeepsNode D.state U.state (λ count. count) shared.old shared.new self.old self.new }
        ensures shown { ShowsOn E.shows E.place out.old out.new }
        ensures tells { TellsTask (Hears (message_of m.now)) (is_over result) (is_over result) (kept_of D.state U.state self.old) shared.old (E.shows out.old) (E.shows out.new) (kept_of D.state U.state self.new) shared.new }
        ensures performs { PerformsTask (Hears (message_of m.now)) (is_over result) (is_over result) (kept_of D.state U.state self.old) shared.old (E.shows out.old) (E.shows out.new) (kept_of D.state U.state self.new) shared.new }
    {
        if !self.is_up() {
            out.emit(&Form::NodeDown);
            return Flow::Over;
        }
        out.emit(&Form::Asked(m.tid, m.serial, outcome_told(m.kind)));
        self.tell_or_end(&Event::Got(*m), shared, out)
    }

    /// Aborts all branches that are not prepared.
    pub fn run_down<E: Emit>(&mut self, shared: &mut Shared, out: &mut E) -> Flow
        requires node { IsNodeInScript D.state U.state shared.old self.old }
        ensures keeps { KeepsNode D.state U.state (λ count. count) shared.old shared.new self.old self.new }
        ensures shown { ShowsOn E.shows E.place out.old out.new }
        ensures tells { TellsTask (RunsDown) (is_over result) (is_over result) (kept_of D.state U.state self.old) shared.old (E.shows out.old) (E.shows out.new) (kept_of D.state U.state self.new) shared.new }
        ensures performs { PerformsTask (RunsDown) (is_over result) (is_over result) (kept_of D.state U.state self.old) shared.old (E.shows out.old) (E.shows out.new) (kept_of D.state U.state self.new) shared.new }
    {
        self.tell_or_end(&Event::RunDown, shared, out)
    }

    /// How many prepared branches it has.
    pub fn doubts(&self) -> usize
        ensures { result ≡ length (in_doubt_in (kept_of D.state U.state self.now).place) }
    {
        match &self.place {
            Place::Up(running) => running.stored.room.in_doubt.len(),
            Place::Down(_, _) => 0,
        }
    }

    /// The serial of the prepared branch at this place of the order in which they were prepared.
    pub fn in_doubt(&self, place: usize) -> Option<Serial>
        ensures { option_map serial_of result ≡ slice_get (in_doubt_in (kept_of D.state U.state self.now).place) place }
    {
        match &self.place {
            Place::Up(running) => running.stored.room.in_doubt.get(place).copied(),
            Place::Down(_, _) => None,
        }
    }

    /// The question of a prepared branch of this serial to its coordinator.
    pub fn question(&self, serial: Serial) -> Option<Message>
        ensures { option_map message_of result ≡ question_in (serial_of serial) (kept_of D.state U.state self.now).place }
    {
        let Place::Up(running) = &self.place else {
            return None;
        };
        let branch = running.table.branch(serial)?;
        if branch.state != State::Prepared {
            return None;
        }
        Some(Message {
            kind: Kind::Inquire,
            from: branch.serial.0.node,
            to: branch.tid.0.node,
            tid: branch.tid,
            serial: branch.serial,
            bid: None,
        })
    }

    /// What the node answers the question of a branch; None where it does not answer.
    pub fn answer(&mut self, question: &Message) -> Option<Message>
        requires asks { (message_of question.now).kind ≡ InquireSaid }
        ensures kept { kept_of D.state U.state self.new ≡ kept_of D.state U.state self.old }
        ensures node { (count : ℕ) (s : SharedState) → IsNode D.state U.state count s self.old → IsNode D.state U.state count s self.new }
        ensures answer { option_map message_of result ≡ answer_in_place (message_of question.now) (kept_of D.state U.state self.old).place }
    {
        match &mut self.place {
            Place::Up(running) => running.answer(&question.tid, &question.serial),
            Place::Down(_, _) => None,
        }
    }

    /// Boots the node in a settling, where it is down.
    pub fn restart<E: Emit>(&mut self, alloc: Global, shared: &mut Shared, out: &mut E) -> Flow
        requires down { is_up_in (kept_of D.state U.state self.old).place ≡ false }
        requires used { shared.old.in_use ≡ true }
        requires node { IsNodeInScript D.state U.state shared.old self.old }
        ensures keeps { KeepsNode D.state U.state (λ count. count) shared.old shared.new self.old self.new }
        ensures shown { ShowsOn E.shows E.place out.old out.new }
        ensures tells { TellsTask (Restarts) (is_over result) (is_over result) (kept_of D.state U.state self.old) shared.old (E.shows out.old) (E.shows out.new) (kept_of D.state U.state self.new) shared.new }
        ensures performs { PerformsTask (Restarts) (is_over result) (is_over result) (kept_of D.state U.state self.old) shared.old (E.shows out.old) (E.shows out.new) (kept_of D.state U.state self.new) shared.new }
    {
        if self.unmade {
            out.emit(&Form::NotInitializedAt(self.name));
            return Flow::Over;
        }
        match self.come_up(alloc, shared, out) {
            Some(boot) => {
                out.emit(&Form::Booted(self.name, boot));
                Flow::GoesOn
            }
            None => Flow::Over,
        }
    }

    // BOOT: the node comes up over its volume.
    fn boot<E: Emit>(&mut self, alloc: Global, shared: &mut Shared, out: &mut E)
        requires node { IsNodeInScript D.state U.state shared.old self.old }
        ensures keeps { KeepsNode D.state U.state (λ count. count + 1) shared.old shared.new self.old self.new }
        ensures shown { ShowsOn E.shows E.place out.old out.new }
        ensures tells { (ends : Bool) × TellsTask (Serves (said.Boot)) true ends (kept_of D.state U.state self.old) shared.old (E.shows out.old) (E.shows out.new) (kept_of D.state U.state self.new) shared.new }
        ensures performs { PerformsRequest (said.Boot) (kept_of D.state U.state self.old) shared.old (E.shows out.old) (E.shows out.new) (kept_of D.state U.state self.new) shared.new }
    {
        if self.is_up() {
            out.emit(&Form::NodeUp);
            return;
        }
        if self.unmade {
            out.emit(&Form::NotInitialized);
            return;
        }
        if let Some(boot) = self.come_up(alloc, shared, out) {
            out.emit(&Form::NormalCount(u64::from(boot)));
        }
    }

    // A node that is down comes up, and tells its boot count; None where it does not and has been answered.
    fn come_up<E: Emit>(&mut self, alloc: Global, shared: &mut Shared, out: &mut E) -> Option<u32>
        requires down { is_up_in (kept_of D.state U.state self.old).place ≡ false }
        requires made { self.old.unmade ≡ false }
        requires node { IsNodeInScript D.state U.state shared.old self.old }
        ensures keeps { KeepsNode D.state U.state (λ count. count) shared.old shared.new self.old self.new }
        ensures shown { ShowsOn E.shows E.place out.old out.new }
        ensures comes { ComesTo (kept_of D.state U.state self.old) shared.old result (E.shows out.old) (E.shows out.new) (kept_of D.state U.state self.new) shared.new }
    {
        let boot = Boot {
            alloc,
            name: self.name,
        };
        the_laws();
        match replace_with(&mut self.place, boot, open_place) {
            Opened::Up => {
                shared.occupy();
                self.rise(out)
            }
            Opened::NoMemory => {
                out.emit(&Form::NoMemory);
                None
            }
            Opened::Refused(form) => {
                out.emit(&form);
                None
            }
            Opened::Fell(down) => {
                shared.occupy();
                show_fall(self.name, down, out);
                None
            }
        }
    }

    // Reopens the volume of a node that was opened, and tells its boot count; None where the disk goes down, which is answered.
    fn rise<E: Emit>(&mut self, out: &mut E) -> Option<u32>
        requires open { IsOpen self.old.name (kept_of D.state U.state self.old).place }
        requires clock { self.old.clock.0 ≤ moment_limit }
        ensures kept { kept_of D.state U.state self.new ≡ record (kept_of D.state U.state self.old) { place = (kept_of D.state U.state self.new).place } }
        ensures node { (count : ℕ) (s : SharedState) → s.in_use ≡ true → self.old.unmade ≡ false → IsNode D.state U.state count s self.new }
        ensures shown { ShowsOn E.shows E.place out.old out.new }
        ensures reopens { Reopens self.old.name self.old.clock.0 (kept_of D.state U.state self.old).place result (kept_of D.state U.state self.new).place (E.shows out.old) (E.shows out.new) }
    {
        match &mut self.place {
            Place::Up(running) => match reopen(running, self.clock, out) {
                Ok(boot) => Some(boot),
                Err(down) => {
                    self.go_down(down, out);
                    out.emit(&Form::Broken(cause_of(down)));
                    None
                }
            },
            Place::Down(_, _) => unreachable!(),
        }
    }

    // INIT: an empty volume of this node, with so many log slots and blocks of the journal.
    fn init<E: Emit>(&mut self, slots: u32, blocks: u32, shared: &Shared, out: &mut E)
        requires node { IsNodeInScript D.state U.state shared.now self.old }
        ensures keeps { KeepsNode D.state U.state (λ count. count + 1) shared.now shared.now self.old self.new }
        ensures shown { ShowsOn E.shows E.place out.old out.new }
        ensures tells { (ends : Bool) × TellsTask (Serves (said.Init slots blocks)) true ends (kept_of D.state U.state self.old) shared.now (E.shows out.old) (E.shows out.new) (kept_of D.state U.state self.new) shared.now }
        ensures performs { PerformsRequest (said.Init slots blocks) (kept_of D.state U.state self.old) shared.now (E.shows out.old) (E.shows out.new) (kept_of D.state U.state self.new) shared.now }
    {
        if shared.is_in_use() {
            out.emit(&Form::VolumeInUse);
            return;
        }
        let new = NewVolume {
            name: self.name,
            slots,
            blocks,
        };
        match replace_with(&mut self.place, new, format_place) {
            Formatted::Refused => out.emit(&Form::BadParameter),
            Formatted::Made => {
                self.unmade = false;
                out.emit(&Form::Normal);
            }
            Formatted::Failed(down) => {
                self.unmade = true;
                show_fall(self.name, down, out);
            }
        }
    }

    // FUSE: after so many further writes the disk stops, and a power loss then damages what is pending by this choice.
    fn fuse<E: Emit>(&mut self, writes: u32, choice: u64, shared: &Shared, out: &mut E)
        requires node { IsNodeInScript D.state U.state shared.now self.old }
        ensures keeps { KeepsNode D.state U.state (λ count. count + 1) shared.now shared.now self.old self.new }
        ensures shown { ShowsOn E.shows E.place out.old out.new }
        ensures tells { (ends : Bool) × TellsTask (Serves (said.Fuse writes choice)) true ends (kept_of D.state U.state self.old) shared.now (E.shows out.old) (E.shows out.new) (kept_of D.state U.state self.new) shared.now }
        ensures performs { PerformsRequest (said.Fuse writes choice) (kept_of D.state U.state self.old) shared.now (E.shows out.old) (E.shows out.new) (kept_of D.state U.state self.new) shared.now }
    {
        the_laws();
        arm(&mut self.place, writes, choice);
        out.emit(&Form::Normal);
    }

    // CRASH: the node goes down.
    fn crash<E: Emit>(&mut self, shared: &Shared, out: &mut E)
        requires node { IsNodeInScript D.state U.state shared.now self.old }
        ensures keeps { KeepsNode D.state U.state (λ count. count + 1) shared.now shared.now self.old self.new }
        ensures shown { ShowsOn E.shows E.place out.old out.new }
        ensures tells { (ends : Bool) × TellsTask (Serves (said.Crash)) true ends (kept_of D.state U.state self.old) shared.now (E.shows out.old) (E.shows out.new) (kept_of D.state U.state self.new) shared.now }
        ensures performs { PerformsRequest (said.Crash) (kept_of D.state U.state self.old) shared.now (E.shows out.old) (E.shows out.new) (kept_of D.state U.state self.new) shared.now }
    {
        the_laws();
        if !self.is_up() {
            out.emit(&Form::NodeDown);
            return;
        }
        replace_with(&mut self.place, (), fall);
        out.emit(&Form::Crashed(self.name));
        out.emit(&Form::Normal);
    }
}

// The disk of a place is armed.
fn arm<D: Disk, U: RecoveryUnits>(place: &mut Place<D, U>, writes: u32, choice: u64)
    ensures place { place_of D.state U.state place.new ≡ place_armed writes choice (place_of D.state U.state place.old) }
    ensures kept { (count : ℕ) (s : SharedState) (n : NodeSaid D U) → IsPlaceOf D.state U.state count s n place.old → IsPlaceOf D.state U.state (count + 1) s n place.new }
{
    match place {
        Place::Down(disk, _) => disk.arm(writes, choice),
        Place::Up(running) => running.stored.volume.store().arm(writes, choice),
    }
}

// What a boot is of.
#[derive(Drop)]
struct Boot {
    alloc: Global,
    name: NodeName,
}

// How the opening of a node that is down went: it has its volume; or it is down still, for want of memory, for this refusal, or for this failure.
#[derive(Drop)]
enum Opened {
    Up,
    NoMemory,
    Refused(Form<'static>),
    Fell(Down),
}

// The volume that an INIT makes.
#[derive(Drop)]
struct NewVolume {
    name: NodeName,
    slots: u32,
    blocks: u32,
}

// How an INIT went at a node that is down.
#[derive(Drop)]
enum Formatted {
    Refused,
    Made,
    Failed(Down),
}

// The disk and the parts of a node that went down.
fn taken_apart<D: Disk, U: RecoveryUnits>(running: Running<D, U>) -> (D, Parts<U>)
    ensures disk { D.state result.0 ≡ running.stored.volume.store.disk }
    ensures parts { 32 ≤ free_frames running.stored.volume.store.pool → IsParts U.state result.1 }
{
    let Running {
        stored,
        table,
        effects,
        drawn: _,
        managers,
    } = running;
    let Stored {
        volume,
        mut units,
        mut room,
    } = stored;
    let (disk, group, pool) = volume.into_store().into_parts();
    units.forget();
    room.in_doubt.clear();
    let parts = Parts {
        group,
        pool,
        units,
        room,
        table,
        effects,
        managers,
    };
    (disk, parts)
}

// What is left of a place when its node goes down.
fn fall<D: Disk, U: RecoveryUnits>(place: Place<D, U>, _nothing: ()) -> (Place<D, U>, ())
    ensures place { place_of D.state U.state result.0 ≡ fallen_place (place_of D.state U.state place) }
    ensures falls { MayFall D.state U.state place → IsFallen D.state U.state result.0 }
{
    match place {
        Place::Up(running) => {
            let (disk, parts) = taken_apart(running);
            (Place::Down(disk, Some(parts)), ())
        }
        Place::Down(disk, parts) => (Place::Down(disk, parts), ()),
    }
}

// Shows that a node goes down in a statement, and answers it so.
fn show_fall<E: Emit>(name: NodeName, down: Down, out: &mut E)
    ensures shown { ShowsOn E.shows E.place out.old out.new }
    ensures shows { Emits (E.shows out.old) (line.Down name (cause_said down) ∷ line.Broken (cause_said down) ∷ []) (E.shows out.new) }
{
    let cause = cause_of(down);
    out.emit(&Form::Down(name, cause));
    out.emit(&Form::Broken(cause));
}

// Writes an empty volume to the disk of a node that is down.
fn format_place<D: Disk, U: RecoveryUnits>(
    place: Place<D, U>,
    new: NewVolume,
) -> (Place<D, U>, Formatted)
    requires down { IsFallen D.state U.state place }
    ensures falls { IsFallen D.state U.state result.0 }
    ensures formats { Formats new.name new.slots new.blocks (place_of D.state U.state place) result.1 (place_of D.state U.state result.0) }
{
    match place {
        Place::Up(_) => unreachable!(),
        Place::Down(disk, parts) => {
            let (disk, done) = format(disk, &new);
            (Place::Down(disk, parts), done)
        }
    }
}

// Writes an empty volume to a disk.
fn format<D: Disk>(mut disk: D, new: &NewVolume) -> (D, Formatted)
    requires least { least_disk_size ≤ (D.state disk).size }
    ensures size { (D.state result.0).size ≡ (D.state disk).size }
    ensures formats { (has_parts : Bool) → FormatsDisk new.now.name new.now.slots new.now.blocks has_parts (D.state disk) result.1 (D.state result.0) }
{
    let size = disk.blocks();
    let sizes = Sizes {
        blocks: size,
        slots: new.slots,
        ru_blocks: new.blocks,
    };
    if !sizes_fit(&sizes, size) {
        return (disk, Formatted::Refused);
    }
    if let Err(e) = disk.power() {
        return (disk, Formatted::Failed(Down::from(e)));
    }
    the_laws();
    let (disk, done) = Volume::format(disk, new.name, new.slots, new.blocks);
    match done {
        Ok(()) => (disk, Formatted::Made),
        Err(down) => (disk, Formatted::Failed(down)),
    }
}

// Opens a node that is down, with its parts or with new ones.
fn open_place<D: Disk, U: RecoveryUnits>(place: Place<D, U>, boot: Boot) -> (Place<D, U>, Opened)
    requires down { IsFallen D.state U.state place }
    ensures falls { MayFall D.state U.state result.0 }
    ensures opens { (clock : ℕ) → Opens (record { name = boot.name; unmade = false; clock = clock; place = place_of D.state U.state place }) (place_of D.state U.state result.0) result.1 }
{
    match place {
        Place::Up(_) => unreachable!(),
        Place::Down(disk, parts) => match parts {
            Some(parts) => open_with(boot.name, disk, parts),
            None => match reserve_parts(boot.alloc) {
                Ok(parts) => open_with(boot.name, disk, parts),
                Err(_) => (Place::Down(disk, None), Opened::NoMemory),
            },
        },
    }
}

// Opens a node that is down, with its parts.
fn open_with<D: Disk, U: RecoveryUnits>(
    name: NodeName,
    mut disk: D,
    parts: Parts<U>,
) -> (Place<D, U>, Opened)
    requires least { least_disk_size ≤ (D.state disk).size }
    requires most { (D.state disk).size ≤ greatest_disk_size }
    requires parts { IsParts U.state parts }
    ensures falls { MayFall D.state U.state result.0 }
    ensures opens { (clock : ℕ) (has_parts : Bool) → Opens (kept_down name clock has_parts (D.state disk)) (place_of D.state U.state result.0) result.1 }
{
    nodes_stay_kept();
    if let Err(e) = disk.power() {
        return (Place::Down(disk, Some(parts)), Opened::Fell(Down::from(e)));
    }
    let Parts {
        group,
        pool,
        units,
        room,
        table,
        effects,
        managers,
    } = parts;
    match open_disk(disk, group, pool, name) {
        Booted::Up(volume) => {
            let running = Running {
                stored: Stored {
                    volume,
                    units,
                    room,
                },
                table,
                effects,
                drawn: 0,
                managers,
            };
            (Place::Up(running), Opened::Up)
        }
        Booted::Refused(disk, group, pool, form) => {
            let parts = Parts {
                group,
                pool,
                units,
                room,
                table,
                effects,
                managers,
            };
            (Place::Down(disk, Some(parts)), Opened::Refused(form))
        }
        Booted::Fell(disk, group, pool, down) => {
            let parts = Parts {
                group,
                pool,
                units,
                room,
                table,
                effects,
                managers,
            };
            (Place::Down(disk, Some(parts)), Opened::Fell(down))
        }
    }
}

// Undoes the units that a fall left, shows each, and then the branches that are prepared. Before them it shows the last settlement on the disk.
fn reopen<D: Disk, U: RecoveryUnits, E: Emit>(
    running: &mut Running<D, U>,
    clock: Moment,
    out: &mut E,
) -> Result<u32, Down>
    requires raised { (name : List ℕ) × IsRaised name running.old.stored.volume }
    requires none { HasNoUnit (U.state running.old.stored.units) }
    requires clock { clock.0 ≤ moment_limit }
    ensures shown { ShowsOn E.shows E.place out.old out.new }
    ensures up { IfOk result (λ boot. ReopensUp clock.0 running.old.stored.volume boot (up_of U.state running.new) (E.shows out.old) (E.shows out.new)) }
    ensures down { IfErr result (λ down. Breaks clock.0 running.old.stored.volume running.new.stored.volume down (E.shows out.old) (E.shows out.new)) }
{
    show_last(running.stored.volume.home(), out);
    running.stored.room.told.clear();
    let done = reopen_units(&mut running.stored, clock);
    show_undone(running.stored.room.told.settled(), out);
    match done {
        Ok(()) => {
            running.boot();
            show_prepared(running.stored.room.told.prepared(), out);
            Ok(running.stored.volume.home().boot)
        }
        Err(down) => Err(down),
    }
}

// Undoes the units that a fall left, and tells what it found.
fn reopen_units<D: Disk, U: RecoveryUnits>(
    stored: &mut Stored<D, U>,
    clock: Moment,
) -> Result<(), Down>
    requires empty { HasNoUnit (U.state stored.old.units) }
    requires order { IsInOrder (record (U.state stored.old.units) { log = [] }) stored.old.volume }
    requires early { IsEarly stored.old.volume }
    requires moment { stored.old.volume.catalog.home.greatest_moment.0 + branch_limit ≤ moment_ceiling }
    requires clock { clock.0 + branch_limit ≤ moment_ceiling }
    requires none { stored.old.room.told ≡ nothing_told }
    ensures units { OnOk result (AreOfBranches (U.state stored.new.units).begun (branches_of (map log_record_of stored.new.room.told.prepared))) }
    ensures begins { OnOk result (MayBegin stored.new.room.told (U.state stored.new.units).log) }
    ensures order { OnOk result (IsInOrder (U.state stored.new.units) stored.new.volume) }
    ensures grows { Grows branch_limit (clock.0 + branch_limit) stored.old.volume stored.new.volume }
    ensures images { OnOk result (ImagesGrow stored.old.volume stored.new.volume) }
    ensures room { OnOk result (stored.new.volume.catalog.home.greatest_moment.0 + length (U.state stored.new.units).begun ≤ max stored.old.volume.catalog.home.greatest_moment.0 clock.0 + branch_limit) }
    ensures moments { AllByRecursion (λ (u : SettledSaid). u.moment.0 ≤ stored.new.volume.catalog.home.greatest_moment.0) stored.new.room.told.settled }
    ensures cause { Caused (down_of result) stored.old.volume.store.disk stored.new.volume.store.disk }
    ensures done { OnOk result (ReopensOk clock.0 stored.new.room.told stored.old.volume (U.state stored.new.units) stored.new.volume) }
    ensures err { OnErr result (ReopensErr clock.0 stored.new.room.told stored.old.volume stored.new.volume) }
{
    stored
        .units
        .reopen(&mut stored.volume, clock, &mut stored.room.told)
}

// Shows the units that a restart undid.
fn show_undone<E: Emit>(units: &[SettledUnit], out: &mut E)
    requires times { AllByRecursion (λ (u : SettledSaid). u.moment.0 < 24000001000067) units.now }
    ensures shown { ShowsOn E.shows E.place out.old out.new }
    ensures shows { Emits (E.shows out.old) (map undone_line units.now) (E.shows out.new) }
{
    for unit in units {
        out.emit(&Form::Aborted(unit.tid, unit.serial, Reason::SegFail, unit.moment));
    }
}

// Shows the branches that a restart found prepared, in the order of their preparation.
fn show_prepared<E: Emit>(records: &[LogRec], out: &mut E)
    ensures shown { ShowsOn E.shows E.place out.old out.new }
    ensures shows { Emits (E.shows out.old) (map prepared_told records.now) (E.shows out.new) }
{
    for logged in records {
        out.emit(&Form::Prepared(logged.tid, logged.serial));
    }
}
