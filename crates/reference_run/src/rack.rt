// The nodes of a rack, and what statements do there.
ghost use Rattle.std.specs.Prelude.{◌≡◌, ◌+◌, ◌*◌, ◌≤◌, ◌++◌, ℕ, List, [], ◌∷◌, true, false, not, Some, None, map, option_map, length, OnOk, IfOk};
ghost use Rattle.std.specs.Option.{option_and_then};
ghost use Rattle.script_lang.specs.Statements.{request_of, statement_of};
ghost use Rattle.script_lang.specs.declared.literals.Literals.{Literals as LiteralsSaid};
ghost use Rattle.world_laws.specs.transcript_model.Lines as model;
ghost use Rattle.script_lang.specs.script_model.Statements as said;
ghost use Rattle.world_laws.specs.run_model.Answers as answers;
ghost use Rattle.world_laws.specs.run_model.Answers.{service, task_service};
ghost use Rattle.world_laws.specs.run_model.Operations.{refused_if};
ghost use Rattle.world_laws.specs.run_model.Statements.{Asks, Does, all_questions, asking, in_doubt, message_at, named_node, other_node, restarts_of, run_downs_of, where_up};
ghost use Rattle.world_laws.specs.run_model.World as world;
ghost use Rattle.vms_base.specs.Ids.{id_of};
ghost use Rattle.vms_model.specs.Ids.{Id as IdSaid};
ghost use Rattle.net_wire.specs.Messages.{message_of};
ghost use Rattle.statement_steps.specs.Doing.{AllKept};
ghost use Rattle.reference_world.specs.Standing.{branch_key_of, line_of};
ghost use Rattle.reference_law.specs.Whole.{nodes_at, opening};
ghost use Rattle.reference_tasks.specs.reference_node.Nodes.{node_of};
ghost use Rattle.reference_branches.specs.Branches.{shared_of};
ghost use Rattle.reference_tasks.specs.Tasks.{task_of};
ghost use Rattle.reference_tasks.specs.Serving.{IsSetEarly};
ghost use Rattle.reference_run.specs.Served.{AllHave, AreTimely, IsDone, IsFit, IsHeard, IsPart, IsServedAt, IsShown, Runs, RunsPhases, ServesPart, answer_there, moved, node_there, node_up, part_of, place_of, questions_then, sets_clock, world_of};

use net_wire::Message;
use reference_branches::Shared;
use reference_index::{append, push_back, push_front, take_first};
use reference_tasks::{Node, Task, TaskShown, perform, serve};
use reference_world::{BranchKey, Line, one};
use script_lang::{Literals, Request, Statement};
use std::alloc::{AllocError, Global};
use std::mem::replace;
use vms_base::{Id, NodeName};
use world_laws::nodes_stay_kept;

/// A node of a rack that is to be: its name, and its disk's blocks.
#[derive(Clone, Copy, Drop)]
pub struct Place {
    pub name: NodeName,
    pub blocks: u32,
}

/// The nodes in the order of the rack, and what they share.
#[derive(Drop)]
pub struct Rack {
    pub nodes: Vec<Node>,
    pub shared: Shared,
}

// A part of a settling: the node of this name is booted, or aborts what is not prepared; or a prepared branch of it asks.
#[derive(Clone, Copy, Drop)]
enum Part {
    Restarts(NodeName),
    RunsDown(NodeName),
    Asks(NodeName, Id),
}

// What a task at the node of a name left: the nodes, and what it showed, unless none has the name.
#[derive(Drop)]
struct Done {
    nodes: Vec<Node>,
    shown: Option<TaskShown>,
}

// What a request to the node of a name left.
#[derive(Drop)]
struct Served {
    nodes: Vec<Node>,
    lines: Option<Vec<Line>>,
}

// What the node of a name answered a question, unless none has the name.
#[derive(Drop)]
struct Answered {
    nodes: Vec<Node>,
    answer: Option<Option<Message>>,
}

// Nodes that are down, whose disks are all of zeros.
fn nodes_of(alloc: Global, places: &[Place]) -> Result<Vec<Node>, AllocError>
    ensures { IfOk result (λ v. map node_of v.items ≡ nodes_at (map place_of places.now)) }
{
    match places {
        [] => Ok(Vec::new(alloc)),
        [p, rest @ ..] => {
            let mut nodes = nodes_of(alloc, rest)?;
            push_front(&mut nodes, Node::new(alloc, p.name, p.blocks)?)?;
            Ok(nodes)
        }
    }
}

// Whether a node has this name.
fn has_node(nodes: &[Node], name: &NodeName) -> bool
    ensures { result ≡ node_there name.now (map node_of nodes.now) }
{
    match nodes {
        [] => false,
        [n, rest @ ..] => {
            if name.bytes() == n.name.bytes() {
                true
            } else {
                has_node(rest, name)
            }
        }
    }
}

// Whether a request sets a clock.
fn is_clock(request: &Request) -> bool
    ensures { result ≡ sets_clock request.now }
{
    match request {
        Request::Clock(_) => true,
        _ => false,
    }
}

// Whether the other node is there that a request names, if it names one.
fn has_other(nodes: &[Node], request: &Request) -> bool
    ensures { (lit : LiteralsSaid) (s : world.Shared) → other_node (moved (map node_of nodes.now) s) (request_of lit request.now) ≡ refused_if (not result) model.NoSuchNode }
{
    match request {
        Request::AddBranch { other, .. } => has_node(nodes, other),
        _ => true,
    }
}

// Whether the node of this name is up.
fn is_up(nodes: &[Node], name: &NodeName) -> bool
    ensures { result ≡ node_up name.now (map node_of nodes.now) }
{
    match nodes {
        [] => false,
        [n, rest @ ..] => {
            if name.bytes() == n.name.bytes() {
                n.up
            } else {
                is_up(rest, name)
            }
        }
    }
}

// A task of the node of this name.
fn perform_at(
    alloc: Global,
    nodes: Vec<Node>,
    shared: &mut Shared,
    name: &NodeName,
    task: &Task,
) -> Result<Done, AllocError>
    requires kept { AllKept (shared_of shared.old) (map node_of nodes.items) }
    requires units { AllHave 1 (map node_of nodes.items) }
    ensures done { IfOk result (λ d. IsDone name.now (task_service (task_of task.now)) (shared_of shared.old) (map node_of nodes.items) d.shown (map node_of d.nodes.items) (shared_of shared.new)) }
    ensures units { (units : ℕ) → AllHave (units + 1) (map node_of nodes.items) → IfOk result (λ d. AllHave units (map node_of d.nodes.items)) }
{
    let mut rest = nodes;
    match take_first(&mut rest) {
        None => Ok(Done {
            nodes: Vec::new(alloc),
            shown: None,
        }),
        Some(first) => {
            let mut node = first;
            if name.bytes() == node.name.bytes() {
                let shown = perform(alloc, &mut node, shared, task)?;
                push_front(&mut rest, node)?;
                Ok(Done {
                    nodes: rest,
                    shown: Some(shown),
                })
            } else {
                let mut done = perform_at(alloc, rest, shared, name, task)?;
                push_front(&mut done.nodes, node)?;
                Ok(done)
            }
        }
    }
}

// A request to the node of this name.
fn serve_at(
    alloc: Global,
    nodes: Vec<Node>,
    shared: &mut Shared,
    name: &NodeName,
    request: &Request,
    lit: &Literals,
) -> Result<Served, AllocError>
    requires kept { AllKept (shared_of shared.old) (map node_of nodes.items) }
    requires units { AllHave 64 (map node_of nodes.items) }
    ensures served { IfOk result (λ d. IsServedAt name.now (service (request_of lit.now request.now)) (shared_of shared.old) (map node_of nodes.items) (option_map (λ v. v.items) d.lines) (map node_of d.nodes.items) (shared_of shared.new)) }
    ensures units { (units : ℕ) → AllHave (units + 64) (map node_of nodes.items) → IsSetEarly units (request_of lit.now request.now) → IfOk result (λ d. AllHave units (map node_of d.nodes.items)) }
{
    let mut rest = nodes;
    match take_first(&mut rest) {
        None => Ok(Served {
            nodes: Vec::new(alloc),
            lines: None,
        }),
        Some(first) => {
            let mut node = first;
            if name.bytes() == node.name.bytes() {
                let lines = serve(alloc, &mut node, shared, request, lit)?;
                push_front(&mut rest, node)?;
                Ok(Served {
                    nodes: rest,
                    lines: Some(lines),
                })
            } else {
                let mut served = serve_at(alloc, rest, shared, name, request, lit)?;
                push_front(&mut served.nodes, node)?;
                Ok(served)
            }
        }
    }
}

// The branch of this serial at the node of this name, where it is prepared.
fn asking_at(nodes: &[Node], name: &NodeName, serial: &Id) -> Option<BranchKey>
    ensures { option_map branch_key_of result ≡ option_map (λ b. b.key) (option_and_then (in_doubt (id_of serial.now)) (world.find_node name.now (map node_of nodes.now))) }
{
    match nodes {
        [] => None,
        [n, rest @ ..] => {
            if name.bytes() == n.name.bytes() {
                n.asking(serial)
            } else {
                asking_at(rest, name, serial)
            }
        }
    }
}

// What the node of this name answers the question of a branch.
fn answer_at(
    alloc: Global,
    nodes: Vec<Node>,
    name: &NodeName,
    branch: &BranchKey,
) -> Result<Answered, AllocError>
    ensures answer { IfOk result (λ a. option_map (option_map message_of) a.answer ≡ answer_there name.now (branch_key_of branch.now) (map node_of nodes.items)) }
    ensures nodes { IfOk result (λ a. map node_of a.nodes.items ≡ map node_of nodes.items) }
{
    let mut rest = nodes;
    match take_first(&mut rest) {
        None => Ok(Answered {
            nodes: Vec::new(alloc),
            answer: None,
        }),
        Some(first) => {
            let mut node = first;
            if name.bytes() == node.name.bytes() {
                let answer = node.answer_to(alloc, branch)?;
                push_front(&mut rest, node)?;
                Ok(Answered {
                    nodes: rest,
                    answer: Some(answer),
                })
            } else {
                let mut answered = answer_at(alloc, rest, name, branch)?;
                push_front(&mut answered.nodes, node)?;
                Ok(answered)
            }
        }
    }
}

// Each node that is down is booted.
fn restarts(alloc: Global, nodes: &[Node]) -> Result<Vec<Part>, AllocError>
    ensures parts { IfOk result (λ v. map part_of v.items ≡ restarts_of (map node_of nodes.now)) }
    ensures few { IfOk result (λ v. length v.items ≤ length nodes.now) }
{
    match nodes {
        [] => Ok(Vec::new(alloc)),
        [n, rest @ ..] => {
            let mut parts = restarts(alloc, rest)?;
            if !n.up {
                push_front(&mut parts, Part::Restarts(n.name))?;
            }
            Ok(parts)
        }
    }
}

// Each node aborts what is not prepared.
fn run_downs(alloc: Global, nodes: &[Node]) -> Result<Vec<Part>, AllocError>
    ensures parts { IfOk result (λ v. map part_of v.items ≡ run_downs_of (map node_of nodes.now)) }
    ensures few { IfOk result (λ v. length v.items ≤ length nodes.now) }
{
    match nodes {
        [] => Ok(Vec::new(alloc)),
        [n, rest @ ..] => {
            let mut parts = run_downs(alloc, rest)?;
            push_front(&mut parts, Part::RunsDown(n.name))?;
            Ok(parts)
        }
    }
}

// These serials ask at a node, and then what asks besides.
fn questions_at(
    alloc: Global,
    name: &NodeName,
    serials: &[Id],
    others: Vec<Part>,
) -> Result<Vec<Part>, AllocError>
    ensures parts { IfOk result (λ v. map part_of v.items ≡ questions_then name.now (map id_of serials.now) (map part_of others.items)) }
    ensures few { IfOk result (λ v. length v.items ≡ length serials.now + length others.items) }
{
    match serials {
        [] => Ok(others),
        [serial, rest @ ..] => {
            let mut parts = questions_at(alloc, name, rest, others)?;
            push_front(&mut parts, Part::Asks(*name, *serial))?;
            Ok(parts)
        }
    }
}

// Each prepared branch of each node asks, in the order of its preparation.
fn questions(alloc: Global, nodes: &[Node]) -> Result<Vec<Part>, AllocError>
    ensures parts { IfOk result (λ v. map part_of v.items ≡ all_questions (map node_of nodes.now)) }
    ensures few { IfOk result (λ v. length v.items ≤ 64 * length nodes.now) }
{
    match nodes {
        [] => Ok(Vec::new(alloc)),
        [n, rest @ ..] => {
            let others = questions(alloc, rest)?;
            let serials = n.in_doubt(alloc)?;
            questions_at(alloc, &n.name, serials.as_slice(), others)
        }
    }
}

// A statement that this answer ends.
fn ended(alloc: Global, answer: Line) -> TaskShown
    ensures lines { result.lines.items ≡ [] }
    ensures answer { result.answer ≡ answer }
    ensures ends { result.ends ≡ true }
{
    TaskShown {
        lines: Vec::new(alloc),
        answer,
        ends: true,
    }
}

// Nothing was done.
fn going_on(alloc: Global, answer: Line) -> TaskShown
    ensures lines { result.lines.items ≡ [] }
    ensures answer { result.answer ≡ answer }
    ensures ends { result.ends ≡ false }
{
    TaskShown {
        lines: Vec::new(alloc),
        answer,
        ends: false,
    }
}

// These lines were shown before.
fn behind(lines: Vec<Line>, shown: TaskShown) -> Result<TaskShown, AllocError>
    ensures lines { IfOk result (λ x. x.lines.items ≡ lines.items ++ shown.lines.items) }
    ensures answer { IfOk result (λ x. x.answer ≡ shown.answer) }
    ensures ends { IfOk result (λ x. x.ends ≡ shown.ends) }
{
    Ok(TaskShown {
        lines: append(lines, shown.lines)?,
        answer: shown.answer,
        ends: shown.ends,
    })
}

// What a statement showed, its answer last.
fn all_shown(shown: TaskShown) -> Result<Vec<Line>, AllocError>
    ensures { IfOk result (λ v. map line_of v.items ≡ map line_of shown.lines.items ++ line_of shown.answer ∷ []) }
{
    let mut lines = shown.lines;
    push_back(&mut lines, shown.answer)?;
    Ok(lines)
}

impl Rack {
    /// Nodes that are down, whose disks are all of zeros.
    pub fn new(alloc: Global, places: &[Place]) -> Result<Rack, AllocError>
        ensures opening { IfOk result (λ r. world_of r ≡ opening (map place_of places.now)) }
        ensures fit { IfOk result (λ r. IsFit (1024 * 1000000) (world_of r)) }
    {
        nodes_stay_kept();
        Ok(Rack {
            nodes: nodes_of(alloc, places)?,
            shared: Shared::new(alloc),
        })
    }

    // A task of the node of this name.
    fn perform(
        &mut self,
        alloc: Global,
        name: &NodeName,
        task: &Task,
    ) -> Result<TaskShown, AllocError>
        requires fit { IsFit 1 (world_of self.old) }
        ensures part { IfOk result (λ x. IsPart (Does name.now (task_of task.now)) (world_of self.old) x (world_of self.new)) }
        ensures fit { (units : ℕ) → IsFit (units + 1) (world_of self.old) → OnOk result (IsFit units (world_of self.new)) }
    {
        nodes_stay_kept();
        let nodes = replace(&mut self.nodes, Vec::new(alloc));
        let done = perform_at(alloc, nodes, &mut self.shared, name, task)?;
        self.nodes = done.nodes;
        match done.shown {
            Some(shown) => Ok(shown),
            None => Ok(ended(alloc, Line::NoSuchNode)),
        }
    }

    // A message is the answer at once to a prepared branch's question.
    fn hear(&mut self, alloc: Global, m: &Message) -> Result<TaskShown, AllocError>
        requires fit { IsFit 1 (world_of self.old) }
        ensures part { IfOk result (λ x. IsPart (Does m.now.to (answers.Hears (message_of m.now))) (world_of self.old) x (world_of self.new)) }
        ensures fit { (units : ℕ) → IsFit (units + 1) (world_of self.old) → OnOk result (IsFit units (world_of self.new)) }
    {
        self.perform(alloc, &m.to, &Task::Hear(*m))
    }

    // The same, where there is an answer.
    fn hear_answer(
        &mut self,
        alloc: Global,
        answer: &Option<Message>,
    ) -> Result<TaskShown, AllocError>
        requires fit { IsFit 1 (world_of self.old) }
        ensures heard { IfOk result (λ x. IsHeard (option_map message_of answer.now) (world_of self.old) x (world_of self.new)) }
        ensures fit { (units : ℕ) → IsFit (units + 1) (world_of self.old) → OnOk result (IsFit units (world_of self.new)) }
    {
        match answer {
            Some(m) => self.hear(alloc, m),
            None => Ok(going_on(alloc, Line::Normal)),
        }
    }

    // A prepared branch asks its coordinator, and hears the answer.
    fn ask_for(&mut self, alloc: Global, branch: &BranchKey) -> Result<TaskShown, AllocError>
        requires fit { IsFit 1 (world_of self.old) }
        ensures part { (node : List ℕ) (serial : IdSaid) → Some (branch_key_of branch.now) ≡ option_map (λ b. b.key) (asking (world_of self.old) node serial) → IfOk result (λ x. IsPart (Asks node serial) (world_of self.old) x (world_of self.new)) }
        ensures fit { (units : ℕ) → IsFit (units + 1) (world_of self.old) → OnOk result (IsFit units (world_of self.new)) }
    {
        let nodes = replace(&mut self.nodes, Vec::new(alloc));
        let answered = answer_at(alloc, nodes, &branch.tid.node, branch)?;
        self.nodes = answered.nodes;
        match answered.answer {
            Some(answer) => self.hear_answer(alloc, &answer),
            None => Ok(ended(alloc, Line::InDoubt(branch.serial, branch.tid.node))),
        }
    }

    // A prepared branch of a node asks, where it still is prepared.
    fn ask(&mut self, alloc: Global, name: &NodeName, serial: &Id) -> Result<TaskShown, AllocError>
        requires fit { IsFit 1 (world_of self.old) }
        ensures part { IfOk result (λ x. IsPart (Asks name.now (id_of serial.now)) (world_of self.old) x (world_of self.new)) }
        ensures fit { (units : ℕ) → IsFit (units + 1) (world_of self.old) → OnOk result (IsFit units (world_of self.new)) }
    {
        match asking_at(self.nodes.as_slice(), name, serial) {
            Some(branch) => self.ask_for(alloc, &branch),
            None => Ok(going_on(alloc, Line::Normal)),
        }
    }

    // A part of a settling.
    fn part(&mut self, alloc: Global, part: &Part) -> Result<TaskShown, AllocError>
        requires fit { IsFit 1 (world_of self.old) }
        ensures part { IfOk result (λ x. IsPart (part_of part.now) (world_of self.old) x (world_of self.new)) }
        ensures fit { (units : ℕ) → IsFit (units + 1) (world_of self.old) → OnOk result (IsFit units (world_of self.new)) }
    {
        match part {
            Part::Restarts(name) => self.perform(alloc, name, &Task::Restart),
            Part::RunsDown(name) => self.perform(alloc, name, &Task::RunDown),
            Part::Asks(name, serial) => self.ask(alloc, name, serial),
        }
    }

    // Parts one after another, up to the first with which the statement ends. This is the answer so far.
    fn parts(
        &mut self,
        alloc: Global,
        parts: &[Part],
        answer: Line,
    ) -> Result<TaskShown, AllocError>
        requires fit { IsFit (length parts.now) (world_of self.old) }
        ensures runs { IfOk result (λ x. Runs (map part_of parts.now) (world_of self.old) (line_of answer) x (world_of self.new)) }
        ensures fit { (units : ℕ) → IsFit (units + length parts.now) (world_of self.old) → OnOk result (IsFit units (world_of self.new)) }
    {
        match parts {
            [] => Ok(going_on(alloc, answer)),
            [first, rest @ ..] => {
                let shown = self.part(alloc, first)?;
                if shown.ends {
                    return Ok(shown);
                }
                let TaskShown { lines, answer, .. } = shown;
                let more = self.parts(alloc, rest, answer)?;
                behind(lines, more)
            }
        }
    }

    // A request to a node that is there.
    fn serve_request(
        &mut self,
        alloc: Global,
        name: &NodeName,
        request: &Request,
        lit: &Literals,
    ) -> Result<Vec<Line>, AllocError>
        requires fit { IsFit 64 (world_of self.old) }
        requires there { named_node (world_of self.old) name.now ≡ None }
        ensures shows { IfOk result (λ lines. ServesPart (Does name.now (answers.Serves (request_of lit.now request.now))) (world_of self.old) lines.items (world_of self.new)) }
        ensures fit { (units : ℕ) → IsFit (units + 64) (world_of self.old) → IsSetEarly units (request_of lit.now request.now) → OnOk result (IsFit units (world_of self.new)) }
    {
        nodes_stay_kept();
        let nodes = replace(&mut self.nodes, Vec::new(alloc));
        let served = serve_at(alloc, nodes, &mut self.shared, name, request, lit)?;
        self.nodes = served.nodes;
        match served.lines {
            Some(lines) => Ok(lines),
            None => one(alloc, Line::NoSuchNode),
        }
    }

    // The task of a node, where it is up.
    fn perform_up(
        &mut self,
        alloc: Global,
        name: &NodeName,
        task: &Task,
        answer: Line,
    ) -> Result<TaskShown, AllocError>
        requires fit { IsFit 1 (world_of self.old) }
        ensures runs { IfOk result (λ x. Runs (where_up name.now (task_of task.now) (world_of self.old)) (world_of self.old) (line_of answer) x (world_of self.new)) }
        ensures fit { (units : ℕ) → IsFit (units + 1) (world_of self.old) → OnOk result (IsFit units (world_of self.new)) }
    {
        if is_up(self.nodes.as_slice(), name) {
            self.perform(alloc, name, task)
        } else {
            Ok(going_on(alloc, answer))
        }
    }

    // A node's clock is set, and it aborts what is due then.
    fn set_clock(
        &mut self,
        alloc: Global,
        name: &NodeName,
        request: &Request,
        lit: &Literals,
    ) -> Result<Vec<Line>, AllocError>
        requires fit { IsFit 1024 (world_of self.old) }
        requires there { named_node (world_of self.old) name.now ≡ None }
        requires clock { sets_clock request.now ≡ true }
        requires early { IsSetEarly 1024 (request_of lit.now request.now) }
        ensures shows { IfOk result (λ lines. IsShown (said.At name.now (request_of lit.now request.now)) (world_of self.old) lines.items (world_of self.new)) }
        ensures fit { (units : ℕ) → IsFit (units + 1024) (world_of self.old) → IsSetEarly (units + 1024) (request_of lit.now request.now) → OnOk result (IsFit units (world_of self.new)) }
    {
        self.serve_request(alloc, name, request, lit)?;
        let shown = self.perform_up(alloc, name, &Task::Tick, Line::Normal)?;
        all_shown(shown)
    }

    // A request to the node of this name.
    fn serve_at(
        &mut self,
        alloc: Global,
        name: &NodeName,
        request: &Request,
        lit: &Literals,
    ) -> Result<Vec<Line>, AllocError>
        requires fit { IsFit 1024 (world_of self.old) }
        requires early { IsSetEarly 1024 (request_of lit.now request.now) }
        ensures shows { IfOk result (λ lines. IsShown (said.At name.now (request_of lit.now request.now)) (world_of self.old) lines.items (world_of self.new)) }
        ensures fit { (units : ℕ) → IsFit (units + 1024) (world_of self.old) → IsSetEarly (units + 1024) (request_of lit.now request.now) → OnOk result (IsFit units (world_of self.new)) }
    {
        if !has_node(self.nodes.as_slice(), name) {
            return one(alloc, Line::NoSuchNode);
        }
        if !has_other(self.nodes.as_slice(), request) {
            return one(alloc, Line::NoSuchNode);
        }
        if is_clock(request) {
            self.set_clock(alloc, name, request, lit)
        } else {
            self.serve_request(alloc, name, request, lit)
        }
    }

    // A message comes to its receiver, where that is there.
    fn take(&mut self, alloc: Global, m: &Message) -> Result<Vec<Line>, AllocError>
        requires fit { IsFit 1024 (world_of self.old) }
        ensures shows { (number : ℕ) → message_at number (world_of self.old).shared.wire ≡ Some (message_of m.now) → IfOk result (λ lines. IsShown (said.Deliver number) (world_of self.old) lines.items (world_of self.new)) }
        ensures fit { (units : ℕ) → IsFit (units + 1024) (world_of self.old) → OnOk result (IsFit units (world_of self.new)) }
    {
        if !has_node(self.nodes.as_slice(), &m.to) {
            return one(alloc, Line::NoSuchNode);
        }
        let shown = self.perform(alloc, &m.to, &Task::Take(*m))?;
        all_shown(shown)
    }

    // The message of this number comes to its receiver.
    fn deliver(&mut self, alloc: Global, number: u32) -> Result<Vec<Line>, AllocError>
        requires fit { IsFit 1024 (world_of self.old) }
        ensures shows { IfOk result (λ lines. IsShown (said.Deliver number) (world_of self.old) lines.items (world_of self.new)) }
        ensures fit { (units : ℕ) → IsFit (units + 1024) (world_of self.old) → OnOk result (IsFit units (world_of self.new)) }
    {
        match self.shared.message(number) {
            Some(m) => self.take(alloc, &m),
            None => one(alloc, Line::NoSuchMessage),
        }
    }

    // One node loses the link to the other, and then the other to the one.
    fn lose_links(
        &mut self,
        alloc: Global,
        a: &NodeName,
        b: &NodeName,
    ) -> Result<TaskShown, AllocError>
        requires fit { IsFit 2 (world_of self.old) }
        ensures runs { IfOk result (λ x. RunsPhases (where_up a.now (answers.LosesLink b.now) ∷ where_up b.now (answers.LosesLink a.now) ∷ []) (world_of self.old) model.Normal x (world_of self.new)) }
        ensures fit { (units : ℕ) → IsFit (units + 2) (world_of self.old) → OnOk result (IsFit units (world_of self.new)) }
    {
        let shown = self.perform_up(alloc, a, &Task::LoseLink(*b), Line::Normal)?;
        if shown.ends {
            return Ok(shown);
        }
        let TaskShown { lines, answer, .. } = shown;
        let more = self.perform_up(alloc, b, &Task::LoseLink(*a), answer)?;
        behind(lines, more)
    }

    // Two nodes lose each other.
    fn link_down(
        &mut self,
        alloc: Global,
        a: &NodeName,
        b: &NodeName,
    ) -> Result<Vec<Line>, AllocError>
        requires fit { IsFit 1024 (world_of self.old) }
        ensures shows { IfOk result (λ lines. IsShown (said.LinkDown a.now b.now) (world_of self.old) lines.items (world_of self.new)) }
        ensures fit { (units : ℕ) → IsFit (units + 1024) (world_of self.old) → OnOk result (IsFit units (world_of self.new)) }
    {
        if !has_node(self.nodes.as_slice(), a) {
            return one(alloc, Line::NoSuchNode);
        }
        if !has_node(self.nodes.as_slice(), b) {
            return one(alloc, Line::NoSuchNode);
        }
        if a.bytes() == b.bytes() {
            return one(alloc, Line::BadParameter);
        }
        let shown = self.lose_links(alloc, a, b)?;
        all_shown(shown)
    }

    // Each node that is up aborts what is not prepared, and then the prepared branches ask.
    fn settle_up(&mut self, alloc: Global, answer: Line) -> Result<TaskShown, AllocError>
        requires fit { IsFit 520 (world_of self.old) }
        requires few { length (world_of self.old).nodes ≤ 8 }
        ensures runs { IfOk result (λ x. RunsPhases ((λ w. run_downs_of w.nodes) ∷ (λ w. all_questions w.nodes) ∷ []) (world_of self.old) (line_of answer) x (world_of self.new)) }
        ensures fit { (units : ℕ) → IsFit (units + 520) (world_of self.old) → OnOk result (IsFit units (world_of self.new)) }
    {
        let parts = run_downs(alloc, self.nodes.as_slice())?;
        let shown = self.parts(alloc, parts.as_slice(), answer)?;
        if shown.ends {
            return Ok(shown);
        }
        let TaskShown { lines, answer, .. } = shown;
        let asked = questions(alloc, self.nodes.as_slice())?;
        let more = self.parts(alloc, asked.as_slice(), answer)?;
        behind(lines, more)
    }

    // All nodes settle what is unsettled.
    fn settle(&mut self, alloc: Global) -> Result<Vec<Line>, AllocError>
        requires fit { IsFit 1024 (world_of self.old) }
        requires few { length (world_of self.old).nodes ≤ 8 }
        ensures shows { IfOk result (λ lines. IsShown said.Settle (world_of self.old) lines.items (world_of self.new)) }
        ensures fit { (units : ℕ) → IsFit (units + 1024) (world_of self.old) → OnOk result (IsFit units (world_of self.new)) }
    {
        self.shared.in_use = true;
        let parts = restarts(alloc, self.nodes.as_slice())?;
        let shown = self.parts(alloc, parts.as_slice(), Line::Normal)?;
        if shown.ends {
            return all_shown(shown);
        }
        let TaskShown { lines, answer, .. } = shown;
        let more = self.settle_up(alloc, answer)?;
        all_shown(behind(lines, more)?)
    }

    /// Serves a statement.
    pub fn serve(
        &mut self,
        alloc: Global,
        statement: &Statement,
        lit: &Literals,
    ) -> Result<Vec<Line>, AllocError>
        requires fit { IsFit 1024 (world_of self.old) }
        requires few { length (world_of self.old).nodes ≤ 8 }
        requires early { AreTimely 1024 (statement_of lit.now statement.now) }
        ensures shows { IfOk result (λ lines. IsShown (statement_of lit.now statement.now) (world_of self.old) lines.items (world_of self.new)) }
        ensures fit { (units : ℕ) → IsFit (units + 1024) (world_of self.old) → AreTimely (units + 1024) (statement_of lit.now statement.now) → OnOk result (IsFit units (world_of self.new)) }
    {
        match statement {
            Statement::At(node, request) => self.serve_at(alloc, node, request, lit),
            Statement::Deliver(number) => self.deliver(alloc, *number),
            Statement::LinkDown(a, b) => self.link_down(alloc, a, b),
            Statement::Settle => self.settle(alloc),
        }
    }
}
