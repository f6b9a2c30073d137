//! The nodes of a run, each over its disk. One is asked for by its place.
ghost use Rattle.std.specs.Prelude.{◌≡◌, ◌<◌, ◌≤◌, ◌+◌, ℕ, List, [], ◌∷◌, ◌++◌, Option, Some, None, true, false, IfOk, IfSome, IfNone, IsSome, IsTrue, ◌↔◌, length, option_to_list, slice_get, slice_set};
ghost use Rattle.std.specs.Option.{option_map};
ghost use Rattle.indexmap.specs.IndexMap.{spare};
ghost use Rattle.vms_model.specs.Limits.{moment_limit};
ghost use Rattle.emitter_model.specs.commit_protocol.Messages.{Inquire};
ghost use Rattle.emitter_model.specs.Emitting.{Since, Shown};
ghost use Rattle.net_wire.specs.Messages.{message_of};
ghost use Rattle.vms_base.specs.Ids.{serial_of};
ghost use Rattle.said_steps.specs.run_model.Answers.{Hears, LosesLink, Restarts, RunsDown, Serves, Takes, Ticks};
ghost use Rattle.dtm_node.specs.run_shared.Sharing.{SharedState};
ghost use Rattle.script_lang.specs.Statements.{request_of};
ghost use Rattle.script_lang.specs.script_model.Statements as said;
ghost use Rattle.dtm_node.specs.Asking.{answer_in_place, in_doubt_in, is_over, question_in};
ghost use Rattle.dtm_node.specs.node_standing.Keeping.{PerformsTask};
ghost use Rattle.dtm_node.specs.node_standing.Moments.{CanBeTold};
ghost use Rattle.dtm_node.specs.Nodes.{kept_of};
ghost use Rattle.dtm_node.specs.node_standing.Standing.{NodeState, is_up as is_up_in};
ghost use Rattle.run_nodes.specs.Held.{AreNodes, AreNodesInScript, clocks_of, kept_all, names_of};
ghost use Rattle.run_nodes.specs.Names.{is_among, is_one};
ghost use Rattle.run_nodes.specs.Tasks.{DoesRequest, DoesTask, IsClocked};

use block_disk::Disk;
use dtm_node::{Flow, Node, RecoveryUnits, Shared};
use indexmap::IndexMap;
use indexmap::map::Entry;
use net_wire::Message;
use script_lang::{Literals, Request};
use std::alloc::{AllocError, Global};
use transcript::Emit;
use vms_base::{Moment, NodeName, Serial};

const MOST_NODES: usize = 8;

/// The nodes of a run in the order of their rack. A node is found by its name, and asked for by its place from 0 on.
#[derive(Drop)]
pub struct Nodes<D: Disk, U: RecoveryUnits> {
    nodes: IndexMap<NodeName, Node<D, U>>,
}

// Whether two serials are one.
fn is_same(a: &Serial, b: &Serial) -> bool
    ensures { result ≡ is_one (serial_of a.now) (serial_of b.now) }
{
    a.0.node.bytes() == b.0.node.bytes() && a.0.boot == b.0.boot && a.0.seq == b.0.seq
}

impl<D: Disk + Drop, U: RecoveryUnits> Nodes<D, U> {
    /// No node, with room for as many as a rack has.
    pub fn reserve(alloc: Global) -> Result<Nodes<D, U>, AllocError>
        ensures none { IfOk result (λ nodes. nodes.nodes.entries ≡ []) }
        ensures room { IfOk result (λ nodes. 8 ≤ spare nodes.nodes) }
    {
        Ok(Nodes {
            nodes: IndexMap::with_capacity(alloc, MOST_NODES)?,
        })
    }

    /// Puts a node behind the last one.
    pub fn push(&mut self, name: NodeName, node: Node<D, U>)
        requires room { 0 < spare self.old.nodes }
        requires new { is_among name (names_of self.old) ≡ false }
        ensures nodes { self.new.nodes.entries ≡ self.old.nodes.entries ++ (name, node) ∷ [] }
        ensures room { spare self.old.nodes ≤ spare self.new.nodes + 1 }
    {
        // By its entry: `insert` moves a value of this size about so often that LLVM does not come to an end with it.
        match self.nodes.entry(name) {
            Ok(Entry::Vacant(place)) => {
                let _ = place.insert(node);
            }
            Ok(Entry::Occupied(_)) => unreachable!(),
            Err(_) => unreachable!(),
        }
    }

    /// Takes the first node out.
    pub fn take_first(&mut self) -> Option<(NodeName, Node<D, U>)>
        ensures nodes { self.old.nodes.entries ≡ option_to_list result ++ self.new.nodes.entries }
        ensures some { 0 < length (names_of self.old) → IsSome result }
    {
        self.nodes.shift_remove_index(0)
    }

    /// How many there are.
    pub fn len(&self) -> usize
        ensures { result ≡ length (names_of self.now) }
    {
        self.nodes.len()
    }

    /// The place of the node of this name.
    pub(crate) fn place_of(&self, name: &NodeName) -> Option<usize>
        ensures there { IfSome result (λ place. slice_get (names_of self.now) place ≡ Some name.now) }
        ensures missing { IfNone result (is_among name.now (names_of self.now) ≡ false) }
    {
        self.nodes.get_index_of(name)
    }

    /// The place of the node that a message is to.
    pub(crate) fn receiver(&self, message: &Message) -> Option<usize>
        ensures there { IfSome result (λ place. slice_get (names_of self.now) place ≡ Some message.now.to) }
        ensures missing { IfNone result (is_among message.now.to (names_of self.now) ≡ false) }
    {
        self.place_of(&message.to)
    }

    /// Whether the node at a place is up.
    pub(crate) fn is_up(&self, place: usize) -> bool
        ensures { (k : NodeState) → slice_get (kept_all D.state U.state self.now) place ≡ Some k → result ≡ is_up_in k.place }
    {
        match self.nodes.get_index(place) {
            Some((_, node)) => node.is_up(),
            None => false,
        }
    }

    /// The serial of the prepared branch of the node at a place that stands at this number of the order in which they were prepared.
    pub(crate) fn in_doubt(&self, place: usize, number: usize) -> Option<Serial>
        ensures { (k : NodeState) → slice_get (kept_all D.state U.state self.now) place ≡ Some k → option_map serial_of result ≡ slice_get (in_doubt_in k.place) number }
    {
        let (_, node) = self.nodes.get_index(place)?;
        node.in_doubt(number)
    }

    /// Whether the branch of this serial stands at this number of that order.
    pub(crate) fn is_in_doubt(&self, place: usize, number: usize, serial: &Serial) -> bool
        ensures { (k : NodeState) → slice_get (kept_all D.state U.state self.now) place ≡ Some k → IsTrue result ↔ (slice_get (in_doubt_in k.place) number ≡ Some (serial_of serial.now)) }
    {
        match self.in_doubt(place, number) {
            Some(other) => is_same(&other, serial),
            None => false,
        }
    }

    /// How many prepared branches the node at a place has.
    pub(crate) fn doubts(&self, place: usize) -> usize
        ensures { (k : NodeState) → slice_get (kept_all D.state U.state self.now) place ≡ Some k → result ≡ length (in_doubt_in k.place) }
    {
        match self.nodes.get_index(place) {
            Some((_, node)) => node.doubts(),
            None => 0,
        }
    }

    /// The question of a prepared branch of the node at a place.
    pub(crate) fn question(&self, place: usize, serial: &Serial) -> Option<Message>
        ensures { (k : NodeState) → slice_get (kept_all D.state U.state self.now) place ≡ Some k → option_map message_of result ≡ question_in (serial_of serial.now) k.place }
    {
        let (_, node) = self.nodes.get_index(place)?;
        node.question(*serial)
    }

    /// What the node at a place answers the question of a branch.
    pub(crate) fn answer(&mut self, place: usize, question: &Message) -> Option<Message>
        requires asks { (message_of question.now).kind ≡ Inquire }
        ensures names { names_of self.new ≡ names_of self.old }
        ensures kept { kept_all D.state U.state self.new ≡ kept_all D.state U.state self.old }
        ensures nodes { (count : ℕ) (s : SharedState) → AreNodes D.state U.state count s self.old → AreNodes D.state U.state count s self.new }
        ensures answer { (k : NodeState) → slice_get (kept_all D.state U.state self.old) place ≡ Some k → option_map message_of result ≡ answer_in_place (message_of question.now) k.place }
    {
        match self.nodes.get_index_mut(place) {
            Some(node) => node.answer(question),
            None => None,
        }
    }

    /// Serves a request, which is no CLOCK, by the node at a place.
    pub(crate) fn serve<E: Emit>(
        &mut self,
        alloc: Global,
        place: usize,
        request: &Request,
        literals: &Literals,
        shared: &mut Shared,
        out: &mut E,
    )
        requires there { place < length (names_of self.old) }
        requires answered { (now : ℕ) → request_of literals.now request.now ≡ said.Clock now → ⊥ }
        requires times { CanBeTold (request_of literals.now request.now) }
        requires nodes { AreNodesInScript D.state U.state shared.old self.old }
        ensures nodes { (count : ℕ) → AreNodes D.state U.state count shared.old self.old → AreNodes D.state U.state (count + 1) shared.new self.new }
        ensures names { names_of self.new ≡ names_of self.old }
        ensures place { E.place out.new ≡ E.place out.old }
        ensures since { Since (E.shows out.old) (E.shows out.new) }
        ensures clocks { clocks_of (kept_all D.state U.state self.new) ≡ clocks_of (kept_all D.state U.state self.old) }
        ensures does { DoesRequest place (request_of literals.now request.now) (kept_all D.state U.state self.old) shared.old (E.shows out.old) (E.shows out.new) (kept_all D.state U.state self.new) shared.new }
    {
        if let Some(node) = self.nodes.get_index_mut(place) {
            node.serve(alloc, request, literals, shared, out);
        }
    }

    /// Sets the clock of the node at a place.
    pub(crate) fn set_clock(&mut self, place: usize, now: Moment)
        requires there { place < length (names_of self.old) }
        requires limit { now.0 ≤ moment_limit }
        ensures nodes { (count : ℕ) (s : SharedState) → AreNodes D.state U.state count s self.old → AreNodes D.state U.state count s self.new }
        ensures names { names_of self.new ≡ names_of self.old }
        ensures clocked { (s : SharedState) → IsClocked place now.0 (kept_all D.state U.state self.old) s (kept_all D.state U.state self.new) }
    {
        if let Some(node) = self.nodes.get_index_mut(place) {
            node.set_clock(now);
        }
    }

    /// Aborts what is due by the clock of the node at a place, which is up.
    pub(crate) fn tick<E: Emit>(&mut self, place: usize, shared: &mut Shared, out: &mut E)
        requires there { place < length (names_of self.old) }
        requires up { (k : NodeState) → slice_get (kept_all D.state U.state self.old) place ≡ Some k → is_up_in k.place ≡ true }
        requires nodes { AreNodesInScript D.state U.state shared.old self.old }
        ensures nodes { (count : ℕ) → AreNodes D.state U.state count shared.old self.old → AreNodes D.state U.state count shared.new self.new }
        ensures names { names_of self.new ≡ names_of self.old }
        ensures in_use { shared.old.in_use ≡ true → shared.new.in_use ≡ true }
        ensures place { E.place out.new ≡ E.place out.old }
        ensures since { Since (E.shows out.old) (E.shows out.new) }
        ensures does { DoesTask place Ticks false false (kept_all D.state U.state self.old) shared.old (E.shows out.old) (E.shows out.new) (kept_all D.state U.state self.new) shared.new }
    {
        if let Some(node) = self.nodes.get_index_mut(place) {
            node.tick(shared, out);
        }
    }

    /// The link of the node at a place, which is up, to another node fails.
    pub(crate) fn lose_link<E: Emit>(
        &mut self,
        place: usize,
        other: NodeName,
        shared: &mut Shared,
        out: &mut E,
    )
        requires there { place < length (names_of self.old) }
        requires up { (k : NodeState) → slice_get (kept_all D.state U.state self.old) place ≡ Some k → is_up_in k.place ≡ true }
        requires nodes { AreNodesInScript D.state U.state shared.old self.old }
        ensures nodes { (count : ℕ) → AreNodes D.state U.state count shared.old self.old → AreNodes D.state U.state count shared.new self.new }
        ensures names { names_of self.new ≡ names_of self.old }
        ensures in_use { shared.old.in_use ≡ true → shared.new.in_use ≡ true }
        ensures place { E.place out.new ≡ E.place out.old }
        ensures since { Since (E.shows out.old) (E.shows out.new) }
        ensures does { DoesTask place (LosesLink other) false false (kept_all D.state U.state self.old) shared.old (E.shows out.old) (E.shows out.new) (kept_all D.state U.state self.new) shared.new }
    {
        if let Some(node) = self.nodes.get_index_mut(place) {
            node.lose_link(other, shared, out);
        }
    }

    /// A message comes to the node at a place.
    pub(crate) fn take<E: Emit>(
        &mut self,
        place: usize,
        message: &Message,
        shared: &mut Shared,
        out: &mut E,
    ) -> Flow
        requires there { place < length (names_of self.old) }
        requires nodes { AreNodesInScript D.state U.state shared.old self.old }
        ensures nodes { (count : ℕ) → AreNodes D.state U.state count shared.old self.old → AreNodes D.state U.state count shared.new self.new }
        ensures names { names_of self.new ≡ names_of self.old }
        ensures in_use { shared.old.in_use ≡ true → shared.new.in_use ≡ true }
        ensures place { E.place out.new ≡ E.place out.old }
        ensures since { Since (E.shows out.old) (E.shows out.new) }
        ensures does { DoesTask place (Takes (message_of message.now)) (is_over result) (is_over result) (kept_all D.state U.state self.old) shared.old (E.shows out.old) (E.shows out.new) (kept_all D.state U.state self.new) shared.new }
    {
        match self.nodes.get_index_mut(place) {
            Some(node) => node.take(message, shared, out),
            None => Flow::GoesOn,
        }
    }

    /// The answer to a question of a branch of the node at a place comes.
    pub(crate) fn hear<E: Emit>(
        &mut self,
        place: usize,
        answer: &Message,
        shared: &mut Shared,
        out: &mut E,
    ) -> Flow
        requires there { place < length (names_of self.old) }
        requires nodes { AreNodesInScript D.state U.state shared.old self.old }
        ensures nodes { (count : ℕ) → AreNodes D.state U.state count shared.old self.old → AreNodes D.state U.state count shared.new self.new }
        ensures names { names_of self.new ≡ names_of self.old }
        ensures in_use { shared.old.in_use ≡ true → shared.new.in_use ≡ true }
        ensures place { E.place out.new ≡ E.place out.old }
        ensures since { Since (E.shows out.old) (E.shows out.new) }
        ensures does { DoesTask place (Hears (message_of answer.now)) (is_over result) (is_over result) (kept_all D.state U.state self.old) shared.old (E.shows out.old) (E.shows out.new) (kept_all D.state U.state self.new) shared.new }
    {
        match self.nodes.get_index_mut(place) {
            Some(node) => node.hear(answer, shared, out),
            None => Flow::GoesOn,
        }
    }

    /// The node at a place aborts all branches that are not prepared.
    pub(crate) fn run_down<E: Emit>(
        &mut self,
        place: usize,
        shared: &mut Shared,
        out: &mut E,
    ) -> Flow
        requires there { place < length (names_of self.old) }
        requires nodes { AreNodesInScript D.state U.state shared.old self.old }
        ensures nodes { (count : ℕ) → AreNodes D.state U.state count shared.old self.old → AreNodes D.state U.state count shared.new self.new }
        ensures names { names_of self.new ≡ names_of self.old }
        ensures in_use { shared.old.in_use ≡ true → shared.new.in_use ≡ true }
        ensures place { E.place out.new ≡ E.place out.old }
        ensures since { Since (E.shows out.old) (E.shows out.new) }
        ensures does { DoesTask place RunsDown (is_over result) (is_over result) (kept_all D.state U.state self.old) shared.old (E.shows out.old) (E.shows out.new) (kept_all D.state U.state self.new) shared.new }
    {
        match self.nodes.get_index_mut(place) {
            Some(node) => node.run_down(shared, out),
            None => Flow::GoesOn,
        }
    }

    /// Boots the node at a place, which is down, in a settling.
    pub(crate) fn restart<E: Emit>(
        &mut self,
        alloc: Global,
        place: usize,
        shared: &mut Shared,
        out: &mut E,
    ) -> Flow
        requires there { place < length (names_of self.old) }
        requires down { (k : NodeState) → slice_get (kept_all D.state U.state self.old) place ≡ Some k → is_up_in k.place ≡ false }
        requires used { shared.old.in_use ≡ true }
        requires nodes { AreNodesInScript D.state U.state shared.old self.old }
        ensures nodes { (count : ℕ) → AreNodes D.state U.state count shared.old self.old → AreNodes D.state U.state count shared.new self.new }
        ensures names { names_of self.new ≡ names_of self.old }
        ensures in_use { shared.old.in_use ≡ true → shared.new.in_use ≡ true }
        ensures place { E.place out.new ≡ E.place out.old }
        ensures since { Since (E.shows out.old) (E.shows out.new) }
        ensures does { DoesTask place Restarts (is_over result) (is_over result) (kept_all D.state U.state self.old) shared.old (E.shows out.old) (E.shows out.new) (kept_all D.state U.state self.new) shared.new }
    {
        match self.nodes.get_index_mut(place) {
            Some(node) => node.restart(alloc, shared, out),
            None => Flow::GoesOn,
        }
    }
}
