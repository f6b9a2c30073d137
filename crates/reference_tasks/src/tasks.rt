// What is asked of a node besides requests.
ghost use Rattle.std.specs.Prelude.{◌≡◌, ◌+◌, ℕ, [], false, true, map, OnOk, IfOk};
ghost use Rattle.reference_index.specs.transcript_model.Lines as model;
ghost use Rattle.reference_index.specs.run_model.Answers as answers;
ghost use Rattle.reference_index.specs.run_model.Answers.{Service, task_service};
ghost use Rattle.vms_base.specs.Outcomes.{outcome_of};
ghost use Rattle.net_wire.specs.Messages.{kind_of, message_of};
ghost use Rattle.tm_types.specs.Events.{event_of};
ghost use Rattle.reference_node.specs.world_laws.Nodes.{IsKeptNode};
ghost use Rattle.reference_world.specs.Standing.{line_of};
ghost use Rattle.reference_node.specs.Nodes.{node_of};
ghost use Rattle.reference_branches.specs.Branches.{shared_of};
ghost use Rattle.reference_tasks.specs.Tasks.{IsSwept, IsTelling, Performs, task_of};
ghost use Rattle.reference_tasks.specs.Serving.{HasUnits};

use net_wire::Message;
use reference_branches::Shared;
use reference_index::{append, push_back};
use reference_node::Node;
use reference_world::{BranchKey, Line, one};
use std::alloc::{AllocError, Global};
use tm_types::Event;
use vms_base::{Kind, Moment, NodeName, Outcome};

/// What is asked of a node: that it aborts what is due by its clock; a message comes to it, or an answer at once to a branch's question in a
/// settling; the link to another node fails; it aborts what is not prepared; or it is booted by a settling.
#[derive(Clone, Copy, Drop)]
pub enum Task {
    Tick,
    Take(Message),
    Hear(Message),
    LoseLink(NodeName),
    RunDown,
    Restart,
}

/// What a task showed before an answer, the answer, and whether its statement ends with it in any case.
#[derive(Drop)]
pub struct TaskShown {
    pub lines: Vec<Line>,
    pub answer: Line,
    pub ends: bool,
}

// The outcome that an answer tells.
fn outcome_told(kind: Kind) -> Outcome
    ensures { outcome_of result ≡ answers.outcome_told (kind_of kind) }
{
    match kind {
        Kind::Commit => Outcome::Commit,
        _ => Outcome::Abort,
    }
}

// The line of an answer.
fn asked_line(m: &Message) -> Line
    ensures { line_of result ≡ model.Asked (message_of m.now).tid (message_of m.now).serial (answers.outcome_told (message_of m.now).kind) }
{
    let branch = BranchKey {
        tid: m.tid.0,
        serial: m.serial.0,
    };
    Line::Asked(branch, outcome_told(m.kind))
}

// The task shows nothing else.
fn refused(alloc: Global, answer: Line) -> TaskShown
    ensures lines { result.lines.items ≡ [] }
    ensures answer { result.answer ≡ answer }
    ensures ends { result.ends ≡ true }
{
    TaskShown {
        lines: Vec::new(alloc),
        answer,
        ends: true,
    }
}

// The task was done.
fn done(lines: Vec<Line>) -> TaskShown
    ensures lines { result.lines ≡ lines }
    ensures answer { line_of result.answer ≡ model.Normal }
    ensures ends { result.ends ≡ false }
{
    TaskShown {
        lines,
        answer: Line::Normal,
        ends: false,
    }
}

// Tells the table an event where the node is up, and shows what the node does then behind these lines.
fn told_up(
    alloc: Global,
    node: &mut Node,
    shared: &mut Shared,
    event: &Event,
    lines: Vec<Line>,
) -> Result<TaskShown, AllocError>
    requires event { IsSwept (event_of event.now) }
    requires units { HasUnits 1 (node_of node.old) }
    requires kept { IsKeptNode (shared_of shared.old) (node_of node.old) }
    ensures performs { (e : Service) → IsTelling (event_of event.now) (map line_of lines.items) (node_of node.old) e → IfOk result (λ shown. Performs (shared_of shared.old) (node_of node.old) e shown (node_of node.new) (shared_of shared.new)) }
    ensures units { (units : ℕ) → HasUnits (units + 1) (node_of node.old) → OnOk result (HasUnits units (node_of node.new)) }
{
    if !node.up {
        return Ok(refused(alloc, Line::NodeDown));
    }
    let told = node.tell(alloc, shared, event)?;
    Ok(done(append(lines, told)?))
}

// The node is booted in the course of a settling.
fn restarted(alloc: Global, node: &mut Node, shared: &mut Shared) -> Result<TaskShown, AllocError>
    requires units { HasUnits 1 (node_of node.old) }
    requires kept { IsKeptNode (shared_of shared.old) (node_of node.old) }
    ensures performs { IfOk result (λ shown. Performs (shared_of shared.old) (node_of node.old) (task_service answers.Restarts) shown (node_of node.new) (shared_of shared.new)) }
    ensures units { (units : ℕ) → HasUnits (units + 1) (node_of node.old) → OnOk result (HasUnits units (node_of node.new)) }
{
    if let Some(refusal) = node.restart_refused() {
        return Ok(refused(alloc, refusal));
    }
    node.power()?;
    if let Some(refusal) = node.boot_refused() {
        return Ok(refused(alloc, refusal));
    }
    let booted = Line::Booted(node.name, node.durable.boot + 1);
    let mut lines = node.restart(alloc)?;
    push_back(&mut lines, booted)?;
    shared.in_use = true;
    Ok(done(lines))
}

/// Does a task.
pub fn perform(
    alloc: Global,
    node: &mut Node,
    shared: &mut Shared,
    task: &Task,
) -> Result<TaskShown, AllocError>
    requires units { HasUnits 1 (node_of node.old) }
    requires kept { IsKeptNode (shared_of shared.old) (node_of node.old) }
    ensures performs { IfOk result (λ shown. Performs (shared_of shared.old) (node_of node.old) (task_service (task_of task.now)) shown (node_of node.new) (shared_of shared.new)) }
    ensures units { (units : ℕ) → HasUnits (units + 1) (node_of node.old) → OnOk result (HasUnits units (node_of node.new)) }
{
    let none = Vec::new(alloc);
    match task {
        Task::Tick => {
            let event = Event::Clock(Moment(node.clock));
            told_up(alloc, node, shared, &event, none)
        }
        Task::Take(m) => told_up(alloc, node, shared, &Event::Got(*m), none),
        Task::Hear(m) => {
            let lines = one(alloc, asked_line(m))?;
            told_up(alloc, node, shared, &Event::Got(*m), lines)
        }
        Task::LoseLink(other) => told_up(alloc, node, shared, &Event::LinkDown(*other), none),
        Task::RunDown => told_up(alloc, node, shared, &Event::RunDown, none),
        Task::Restart => restarted(alloc, node, shared),
    }
}
