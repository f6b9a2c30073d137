//! Statements, each served by the nodes that it speaks of, part after part.
ghost use Rattle.std.specs.Prelude.{◌≡◌, ◌<◌, ◌+◌, ℕ, List, true, false, length, slice_get};
ghost use Rattle.std.specs.Str.{bytes_eq};
ghost use Rattle.block_disk.specs.Disk.{CallLog};
ghost use Rattle.emitter_model.specs.Emitting.{Since};
ghost use Rattle.said_steps.specs.run_model.Answers.{LosesLink, Ticks};
ghost use Rattle.said_steps.specs.run_model.World.{World};
ghost use Rattle.script_lang.specs.Statements.{request_of, statement_of};
ghost use Rattle.script_lang.specs.script_model.Statements as said;
ghost use Rattle.statement_steps.specs.Doing.{AllKept};
ghost use Rattle.run_nodes.specs.Held.{AreNodes, AreNodesInScript, clocks_of, kept_all, names_of};
ghost use Rattle.run_nodes.specs.Names.{AreApart, IsOtherMissing, IsOtherThere};
ghost use Rattle.run_nodes.specs.Tasks.{DoesIfUp};
ghost use Rattle.run_nodes.specs.Together.{AnswersTogether, ServesTogether, StandsTogether};
ghost use Rattle.run_nodes.specs.Untold.{BootsUnknown, IsTimely};

use crate::nodes::Nodes;
use crate::settling::settle;
use block_disk::Disk;
use dtm_node::{Flow, RecoveryUnits, Shared};
use script_lang::{Literals, Request, Statement};
use statement_steps::worlds_stay_within;
use std::alloc::Global;
use transcript::{Emit, Form};
use vms_base::NodeName;

/// Serves a statement at the node that it names, or, where it is SETTLE or DELIVER, at each that it reaches, and shows its answer as the last line.
pub fn serve_statement<E: Emit, D: Disk + Drop, U: RecoveryUnits>(
    alloc: Global,
    nodes: &mut Nodes<D, U>,
    statement: &Statement,
    literals: &Literals,
    shared: &mut Shared,
    out: &mut E,
)
    requires apart { AreApart (names_of nodes.old) }
    requires nodes { AreNodesInScript D.state U.state shared.old nodes.old }
    requires timely { IsTimely (statement_of literals.now statement.now) }
    ensures nodes { (count : ℕ) → AreNodes D.state U.state count shared.old nodes.old → AreNodes D.state U.state (count + 1) shared.new nodes.new }
    ensures names { names_of nodes.new ≡ names_of nodes.old }
    ensures place { E.place out.new ≡ E.place out.old }
    ensures since { Since (E.shows out.old) (E.shows out.new) }
    // A BOOT sets no clock.
    ensures clocks { (node : List ℕ) → statement_of literals.now statement.now ≡ said.At node said.Boot → clocks_of (kept_all D.state U.state nodes.new) ≡ clocks_of (kept_all D.state U.state nodes.old) }
    // Whatever the disks have, what was shown tells which calls armed or powered them, and follows what was said before.
    ensures tells { AnswersTogether (names_of nodes.old) (statement_of literals.now statement.now) (E.shows out.old) (E.shows out.new) (kept_all D.state U.state nodes.old) shared.old (kept_all D.state U.state nodes.new) shared.new }
    // In the world it is a step, unless it boots a node of whose disk nothing is known.
    ensures serves { (logs : List CallLog) (w : World) → StandsTogether logs (kept_all D.state U.state nodes.old) shared.old w → AllKept w.shared w.nodes → (BootsUnknown w (statement_of literals.now statement.now) → ⊥) →
        ServesTogether logs w (statement_of literals.now statement.now) (E.shows out.old) (E.shows out.new) (kept_all D.state U.state nodes.new) shared.new }
{
    match statement {
        Statement::At(name, request) => {
            serve_request(alloc, nodes, name, request, literals, shared, out)
        }
        Statement::Deliver(number) => deliver(nodes, *number, shared, out),
        Statement::LinkDown(a, b) => lose_link(nodes, a, b, shared, out),
        Statement::Settle => settle(alloc, nodes, shared, out),
    }
}

// Whether the other node is there that a request names, where it names one.
fn is_other_there<D: Disk + Drop, U: RecoveryUnits>(nodes: &Nodes<D, U>, request: &Request) -> bool
    ensures there { result ≡ true → IsOtherThere (names_of nodes.now) request.now }
    ensures missing { result ≡ false → IsOtherMissing (names_of nodes.now) request.now }
{
    match request {
        Request::AddBranch { other, .. } => nodes.place_of(other).is_some(),
        _ => true,
    }
}

// Serves a request to the node of a name. Where its clock is set, it aborts what is due then.
fn serve_request<E: Emit, D: Disk + Drop, U: RecoveryUnits>(
    alloc: Global,
    nodes: &mut Nodes<D, U>,
    name: &NodeName,
    request: &Request,
    literals: &Literals,
    shared: &mut Shared,
    out: &mut E,
)
    requires apart { AreApart (names_of nodes.old) }
    requires nodes { AreNodesInScript D.state U.state shared.old nodes.old }
    requires timely { IsTimely (said.At name.now (request_of literals.now request.now)) }
    ensures nodes { (count : ℕ) → AreNodes D.state U.state count shared.old nodes.old → AreNodes D.state U.state (count + 1) shared.new nodes.new }
    ensures names { names_of nodes.new ≡ names_of nodes.old }
    ensures place { E.place out.new ≡ E.place out.old }
    ensures since { Since (E.shows out.old) (E.shows out.new) }
    ensures clocks { (node : List ℕ) → said.At name.now (request_of literals.now request.now) ≡ said.At node said.Boot → clocks_of (kept_all D.state U.state nodes.new) ≡ clocks_of (kept_all D.state U.state nodes.old) }
    ensures tells { AnswersTogether (names_of nodes.old) (said.At name.now (request_of literals.now request.now)) (E.shows out.old) (E.shows out.new) (kept_all D.state U.state nodes.old) shared.old (kept_all D.state U.state nodes.new) shared.new }
    ensures serves { (logs : List CallLog) (w : World) → StandsTogether logs (kept_all D.state U.state nodes.old) shared.old w → AllKept w.shared w.nodes → (BootsUnknown w (said.At name.now (request_of literals.now request.now)) → ⊥) →
        ServesTogether logs w (said.At name.now (request_of literals.now request.now)) (E.shows out.old) (E.shows out.new) (kept_all D.state U.state nodes.new) shared.new }
{
    worlds_stay_within();
    let Some(place) = nodes.place_of(name) else {
        out.emit(&Form::NoSuchNode);
        return;
    };
    if !is_other_there(nodes, request) {
        out.emit(&Form::NoSuchNode);
        return;
    }
    match request {
        Request::Clock(now) => {
            nodes.set_clock(place, *now);
            tick(nodes, place, shared, out);
            out.emit(&Form::Normal);
        }
        _ => nodes.serve(alloc, place, request, literals, shared, out),
    }
}

// The node at a place aborts what is due, where it is up.
fn tick<E: Emit, D: Disk + Drop, U: RecoveryUnits>(
    nodes: &mut Nodes<D, U>,
    place: usize,
    shared: &mut Shared,
    out: &mut E,
)
    requires there { place < length (names_of nodes.old) }
    requires nodes { AreNodesInScript D.state U.state shared.old nodes.old }
    ensures nodes { (count : ℕ) → AreNodes D.state U.state count shared.old nodes.old → AreNodes D.state U.state count shared.new nodes.new }
    ensures names { names_of nodes.new ≡ names_of nodes.old }
    ensures place { E.place out.new ≡ E.place out.old }
    ensures since { Since (E.shows out.old) (E.shows out.new) }
    ensures does { DoesIfUp place Ticks (kept_all D.state U.state nodes.old) shared.old (E.shows out.old) (E.shows out.new) (kept_all D.state U.state nodes.new) shared.new }
{
    if nodes.is_up(place) {
        nodes.tick(place, shared, out);
    }
}

// DELIVER: a message comes to its receiver.
fn deliver<E: Emit, D: Disk + Drop, U: RecoveryUnits>(
    nodes: &mut Nodes<D, U>,
    number: u32,
    shared: &mut Shared,
    out: &mut E,
)
    requires apart { AreApart (names_of nodes.old) }
    requires nodes { AreNodesInScript D.state U.state shared.old nodes.old }
    ensures nodes { (count : ℕ) → AreNodes D.state U.state count shared.old nodes.old → AreNodes D.state U.state (count) shared.new nodes.new }
    ensures names { names_of nodes.new ≡ names_of nodes.old }
    ensures place { E.place out.new ≡ E.place out.old }
    ensures since { Since (E.shows out.old) (E.shows out.new) }
    ensures tells { AnswersTogether (names_of nodes.old) (said.Deliver number) (E.shows out.old) (E.shows out.new) (kept_all D.state U.state nodes.old) shared.old (kept_all D.state U.state nodes.new) shared.new }
    ensures serves { (logs : List CallLog) (w : World) → StandsTogether logs (kept_all D.state U.state nodes.old) shared.old w → AllKept w.shared w.nodes → (BootsUnknown w (said.Deliver number) → ⊥) →
        ServesTogether logs w (said.Deliver number) (E.shows out.old) (E.shows out.new) (kept_all D.state U.state nodes.new) shared.new }
{
    let Some(message) = shared.message(number).copied() else {
        out.emit(&Form::NoSuchMessage);
        return;
    };
    let Some(place) = nodes.place_of(&message.to) else {
        out.emit(&Form::NoSuchNode);
        return;
    };
    match nodes.take(place, &message, shared, out) {
        Flow::GoesOn => out.emit(&Form::Normal),
        Flow::Over => {}
    }
}

// LINKDOWN: each of two nodes that is up loses the other.
fn lose_link<E: Emit, D: Disk + Drop, U: RecoveryUnits>(
    nodes: &mut Nodes<D, U>,
    a: &NodeName,
    b: &NodeName,
    shared: &mut Shared,
    out: &mut E,
)
    requires apart { AreApart (names_of nodes.old) }
    requires nodes { AreNodesInScript D.state U.state shared.old nodes.old }
    ensures nodes { (count : ℕ) → AreNodes D.state U.state count shared.old nodes.old → AreNodes D.state U.state (count) shared.new nodes.new }
    ensures names { names_of nodes.new ≡ names_of nodes.old }
    ensures place { E.place out.new ≡ E.place out.old }
    ensures since { Since (E.shows out.old) (E.shows out.new) }
    ensures tells { AnswersTogether (names_of nodes.old) (said.LinkDown a.now b.now) (E.shows out.old) (E.shows out.new) (kept_all D.state U.state nodes.old) shared.old (kept_all D.state U.state nodes.new) shared.new }
    ensures serves { (logs : List CallLog) (w : World) → StandsTogether logs (kept_all D.state U.state nodes.old) shared.old w → AllKept w.shared w.nodes → (BootsUnknown w (said.LinkDown a.now b.now) → ⊥) →
        ServesTogether logs w (said.LinkDown a.now b.now) (E.shows out.old) (E.shows out.new) (kept_all D.state U.state nodes.new) shared.new }
{
    worlds_stay_within();
    let Some(first) = nodes.place_of(a) else {
        out.emit(&Form::NoSuchNode);
        return;
    };
    let Some(second) = nodes.place_of(b) else {
        out.emit(&Form::NoSuchNode);
        return;
    };
    if a.bytes() == b.bytes() {
        out.emit(&Form::BadParameter);
        return;
    }
    lose_one(nodes, first, *b, shared, out);
    lose_one(nodes, second, *a, shared, out);
    out.emit(&Form::Normal);
}

// The node at a place loses its link to another, where it is up.
fn lose_one<E: Emit, D: Disk + Drop, U: RecoveryUnits>(
    nodes: &mut Nodes<D, U>,
    place: usize,
    other: NodeName,
    shared: &mut Shared,
    out: &mut E,
)
    requires there { place < length (names_of nodes.old) }
    requires nodes { AreNodesInScript D.state U.state shared.old nodes.old }
    ensures nodes { (count : ℕ) → AreNodes D.state U.state count shared.old nodes.old → AreNodes D.state U.state count shared.new nodes.new }
    ensures names { names_of nodes.new ≡ names_of nodes.old }
    ensures place { E.place out.new ≡ E.place out.old }
    ensures since { Since (E.shows out.old) (E.shows out.new) }
    ensures does { DoesIfUp place (LosesLink other) (kept_all D.state U.state nodes.old) shared.old (E.shows out.old) (E.shows out.new) (kept_all D.state U.state nodes.new) shared.new }
{
    if nodes.is_up(place) {
        nodes.lose_link(place, other, shared, out);
    }
}
