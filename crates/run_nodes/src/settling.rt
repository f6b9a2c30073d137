//! SETTLE: each node that is down is booted, each aborts what is not prepared, and then each prepared branch asks.
ghost use Rattle.std.specs.Prelude.{◌≡◌, ◌<◌, ◌+◌, ℕ, List, Some, true, false, length, slice_get};
ghost use Rattle.vms_base.specs.Ids.{serial_of};
ghost use Rattle.vms_model.specs.Ids.{Id};
ghost use Rattle.block_disk.specs.Disk.{CallLog};
ghost use Rattle.emitter_model.specs.Emitting.{Since, Shown};
ghost use Rattle.said_steps.specs.run_model.Statements.{begun_with};
ghost use Rattle.said_steps.specs.run_model.World.{World};
ghost use Rattle.statement_steps.specs.run_agreement.Laws.{NamesApart};
ghost use Rattle.dtm_node.specs.run_shared.Sharing.{SharedState};
ghost use Rattle.dtm_node.specs.Asking.{is_over};
ghost use Rattle.script_lang.specs.script_model.Statements as said;
ghost use Rattle.statement_steps.specs.Doing.{AllKept};
ghost use Rattle.statement_steps.specs.Settling.{AreUp, asks_of, doubts_of, restart_of, run_down_of};
ghost use Rattle.run_nodes.specs.Held.{AreNodes, AreNodesInScript, kept_all, names_of};
ghost use Rattle.run_nodes.specs.Names.{AreApart};
ghost use Rattle.run_nodes.specs.Phases.{AreTold, AskedOne, AskingAt, Done, Ended, EndedAsking, Enters, PartsDone};
ghost use Rattle.run_nodes.specs.Together.{AnswersTogether, ServesTogether, StandsTogether};
ghost use Rattle.run_nodes.specs.Told.{RestartsTold, TurnOver, TurnTold};
ghost use Rattle.run_nodes.specs.Untold.{BootsUnknown};

use crate::nodes::Nodes;
use block_disk::Disk;
use dtm_node::{Flow, RecoveryUnits, Shared};
use statement_steps::worlds_stay_within;
use std::alloc::Global;
use transcript::{Emit, Form};
use vms_base::Serial;

/// Settles all nodes.
pub(crate) fn settle<E: Emit, D: Disk + Drop, U: RecoveryUnits>(
    alloc: Global,
    nodes: &mut Nodes<D, U>,
    shared: &mut Shared,
    out: &mut E,
)
    requires apart { AreApart (names_of nodes.old) }
    requires nodes { AreNodesInScript D.state U.state shared.old nodes.old }
    ensures nodes { (count : ℕ) → AreNodes D.state U.state count shared.old nodes.old → AreNodes D.state U.state count shared.new nodes.new }
    ensures names { names_of nodes.new ≡ names_of nodes.old }
    ensures place { E.place out.new ≡ E.place out.old }
    ensures since { Since (E.shows out.old) (E.shows out.new) }
    ensures tells { AnswersTogether (names_of nodes.old) said.Settle (E.shows out.old) (E.shows out.new) (kept_all D.state U.state nodes.old) shared.old (kept_all D.state U.state nodes.new) shared.new }
    ensures serves { (logs : List CallLog) (w : World) → StandsTogether logs (kept_all D.state U.state nodes.old) shared.old w → AllKept w.shared w.nodes → (BootsUnknown w said.Settle → ⊥) →
        ServesTogether logs w said.Settle (E.shows out.old) (E.shows out.new) (kept_all D.state U.state nodes.new) shared.new }
{
    shared.occupy();
    match restart_all(alloc, nodes, shared, out) {
        Flow::Over => {}
        Flow::GoesOn => match run_down_all(nodes, shared, out) {
            Flow::Over => {}
            Flow::GoesOn => match ask_all(nodes, shared, out) {
                Flow::Over => {}
                Flow::GoesOn => out.emit(&Form::Normal),
            },
        },
    }
}

// Boots each node that is down.
fn restart_all<E: Emit, D: Disk + Drop, U: RecoveryUnits>(
    alloc: Global,
    nodes: &mut Nodes<D, U>,
    shared: &mut Shared,
    out: &mut E,
) -> Flow
    requires apart { AreApart (names_of nodes.old) }
    requires nodes { AreNodesInScript D.state U.state shared.old nodes.old }
    requires used { shared.old.in_use ≡ true }
    ensures nodes { (count : ℕ) → AreNodes D.state U.state count shared.old nodes.old → AreNodes D.state U.state count shared.new nodes.new }
    ensures names { names_of nodes.new ≡ names_of nodes.old }
    ensures in_use { shared.old.in_use ≡ true → shared.new.in_use ≡ true }
    ensures place { E.place out.new ≡ E.place out.old }
    ensures since { Since (E.shows out.old) (E.shows out.new) }
    ensures told { is_over result ≡ false → RestartsTold (length (names_of nodes.old)) (kept_all D.state U.state nodes.old) shared.old (E.shows out.old) (E.shows out.new) (kept_all D.state U.state nodes.new) shared.new }
    ensures answered { is_over result ≡ true → (s : SharedState) → shared.old ≡ record s { in_use = true } → AnswersTogether (names_of nodes.old) said.Settle (E.shows out.old) (E.shows out.new) (kept_all D.state U.state nodes.old) s (kept_all D.state U.state nodes.new) shared.new }
    ensures done { is_over result ≡ false → (logs : List CallLog) (w : World) → Enters logs w (begun_with said.Settle w) (kept_all D.state U.state nodes.old) shared.old → NamesApart w.nodes → AreTold (begun_with said.Settle w) → Done restart_of logs w (begun_with said.Settle w) (E.shows out.old) (E.shows out.new) (kept_all D.state U.state nodes.new) shared.new }
    ensures ended { is_over result ≡ true → (logs : List CallLog) (w : World) → Enters logs w (begun_with said.Settle w) (kept_all D.state U.state nodes.old) shared.old → NamesApart w.nodes → AreTold (begun_with said.Settle w) → Ended restart_of logs w (begun_with said.Settle w) (E.shows out.old) (E.shows out.new) (kept_all D.state U.state nodes.new) shared.new }
{
    worlds_stay_within();
    for place in 0..nodes.len() {
        if nodes.is_up(place) {
            continue;
        }
        match nodes.restart(alloc, place, shared, out) {
            Flow::GoesOn => {}
            Flow::Over => return Flow::Over,
        }
    }
    Flow::GoesOn
}

// Each node aborts what is not prepared.
fn run_down_all<E: Emit, D: Disk + Drop, U: RecoveryUnits>(
    nodes: &mut Nodes<D, U>,
    shared: &mut Shared,
    out: &mut E,
) -> Flow
    requires apart { AreApart (names_of nodes.old) }
    requires nodes { AreNodesInScript D.state U.state shared.old nodes.old }
    ensures nodes { (count : ℕ) → AreNodes D.state U.state count shared.old nodes.old → AreNodes D.state U.state count shared.new nodes.new }
    ensures names { names_of nodes.new ≡ names_of nodes.old }
    ensures in_use { shared.old.in_use ≡ true → shared.new.in_use ≡ true }
    ensures place { E.place out.new ≡ E.place out.old }
    ensures since { Since (E.shows out.old) (E.shows out.new) }
    ensures told { is_over result ≡ false → TurnTold (names_of nodes.old) (kept_all D.state U.state nodes.old) shared.old (E.shows out.old) (E.shows out.new) (kept_all D.state U.state nodes.new) shared.new }
    ensures answered { is_over result ≡ true → TurnOver (names_of nodes.old) (kept_all D.state U.state nodes.old) shared.old (E.shows out.old) (E.shows out.new) (kept_all D.state U.state nodes.new) shared.new }
    ensures done { is_over result ≡ false → (logs : List CallLog) (w u : World) → Enters logs w u (kept_all D.state U.state nodes.old) shared.old → AreUp u.nodes → Done run_down_of logs w u (E.shows out.old) (E.shows out.new) (kept_all D.state U.state nodes.new) shared.new }
    ensures ended { is_over result ≡ true → (logs : List CallLog) (w u : World) → Enters logs w u (kept_all D.state U.state nodes.old) shared.old → AreUp u.nodes → Ended run_down_of logs w u (E.shows out.old) (E.shows out.new) (kept_all D.state U.state nodes.new) shared.new }
{
    worlds_stay_within();
    for place in 0..nodes.len() {
        match nodes.run_down(place, shared, out) {
            Flow::GoesOn => {}
            Flow::Over => return Flow::Over,
        }
    }
    Flow::GoesOn
}

// Each prepared branch of each node asks, in the order of their preparation.
fn ask_all<E: Emit, D: Disk + Drop, U: RecoveryUnits>(
    nodes: &mut Nodes<D, U>,
    shared: &mut Shared,
    out: &mut E,
) -> Flow
    requires apart { AreApart (names_of nodes.old) }
    requires nodes { AreNodesInScript D.state U.state shared.old nodes.old }
    ensures nodes { (count : ℕ) → AreNodes D.state U.state count shared.old nodes.old → AreNodes D.state U.state count shared.new nodes.new }
    ensures names { names_of nodes.new ≡ names_of nodes.old }
    ensures in_use { shared.old.in_use ≡ true → shared.new.in_use ≡ true }
    ensures place { E.place out.new ≡ E.place out.old }
    ensures since { Since (E.shows out.old) (E.shows out.new) }
    ensures told { is_over result ≡ false → TurnTold (names_of nodes.old) (kept_all D.state U.state nodes.old) shared.old (E.shows out.old) (E.shows out.new) (kept_all D.state U.state nodes.new) shared.new }
    ensures answered { is_over result ≡ true → TurnOver (names_of nodes.old) (kept_all D.state U.state nodes.old) shared.old (E.shows out.old) (E.shows out.new) (kept_all D.state U.state nodes.new) shared.new }
    ensures done { is_over result ≡ false → (logs : List CallLog) (w u : World) → Enters logs w u (kept_all D.state U.state nodes.old) shared.old → AreUp u.nodes → Done asks_of logs w u (E.shows out.old) (E.shows out.new) (kept_all D.state U.state nodes.new) shared.new }
    ensures ended { is_over result ≡ true → (logs : List CallLog) (w u : World) → Enters logs w u (kept_all D.state U.state nodes.old) shared.old → AreUp u.nodes → Ended asks_of logs w u (E.shows out.old) (E.shows out.new) (kept_all D.state U.state nodes.new) shared.new }
{
    for place in 0..nodes.len() {
        match ask_at(nodes, place, shared, out) {
            Flow::GoesOn => {}
            Flow::Over => return Flow::Over,
        }
    }
    Flow::GoesOn
}

// Each prepared branch of one node asks. One that is settled by the answer stands in their order no more.
fn ask_at<E: Emit, D: Disk + Drop, U: RecoveryUnits>(
    nodes: &mut Nodes<D, U>,
    place: usize,
    shared: &mut Shared,
    out: &mut E,
) -> Flow
    requires there { place < length (names_of nodes.old) }
    requires apart { AreApart (names_of nodes.old) }
    requires nodes { AreNodesInScript D.state U.state shared.old nodes.old }
    ensures nodes { (count : ℕ) → AreNodes D.state U.state count shared.old nodes.old → AreNodes D.state U.state count shared.new nodes.new }
    ensures names { names_of nodes.new ≡ names_of nodes.old }
    ensures in_use { shared.old.in_use ≡ true → shared.new.in_use ≡ true }
    ensures place { E.place out.new ≡ E.place out.old }
    ensures since { Since (E.shows out.old) (E.shows out.new) }
    ensures told { is_over result ≡ false → TurnTold (names_of nodes.old) (kept_all D.state U.state nodes.old) shared.old (E.shows out.old) (E.shows out.new) (kept_all D.state U.state nodes.new) shared.new }
    ensures answered { is_over result ≡ true → TurnOver (names_of nodes.old) (kept_all D.state U.state nodes.old) shared.old (E.shows out.old) (E.shows out.new) (kept_all D.state U.state nodes.new) shared.new }
    ensures done { is_over result ≡ false → (logs : List CallLog) (w u : World) (a : Shown) → (g : PartsDone asks_of logs w u place a (E.shows out.old) (kept_all D.state U.state nodes.old) shared.old) → AreUp g.world.nodes →
        (h : PartsDone asks_of logs w u (place + 1) a (E.shows out.new) (kept_all D.state U.state nodes.new) shared.new) × AreUp h.world.nodes }
    ensures ended { is_over result ≡ true → (logs : List CallLog) (w u : World) (a : Shown) → (g : PartsDone asks_of logs w u place a (E.shows out.old) (kept_all D.state U.state nodes.old) shared.old) → AreUp g.world.nodes → Ended asks_of logs w u a (E.shows out.new) (kept_all D.state U.state nodes.new) shared.new }
{
    let mut unanswered = 0;
    for number in 0..nodes.doubts(place) {
        let Some(serial) = nodes.in_doubt(place, unanswered) else {
            return Flow::GoesOn;
        };
        match ask(nodes, place, &serial, shared, out) {
            Flow::GoesOn => {}
            Flow::Over => return Flow::Over,
        }
        if nodes.is_in_doubt(place, unanswered, &serial) {
            unanswered += 1;
        }
    }
    Flow::GoesOn
}

// A prepared branch asks its coordinator, and hears the answer where it stands, if there is one.
fn ask<E: Emit, D: Disk + Drop, U: RecoveryUnits>(
    nodes: &mut Nodes<D, U>,
    place: usize,
    serial: &Serial,
    shared: &mut Shared,
    out: &mut E,
) -> Flow
    requires there { place < length (names_of nodes.old) }
    requires apart { AreApart (names_of nodes.old) }
    requires nodes { AreNodesInScript D.state U.state shared.old nodes.old }
    ensures nodes { (count : ℕ) → AreNodes D.state U.state count shared.old nodes.old → AreNodes D.state U.state count shared.new nodes.new }
    ensures names { names_of nodes.new ≡ names_of nodes.old }
    ensures in_use { shared.old.in_use ≡ true → shared.new.in_use ≡ true }
    ensures place { E.place out.new ≡ E.place out.old }
    ensures since { Since (E.shows out.old) (E.shows out.new) }
    ensures told { is_over result ≡ false → TurnTold (names_of nodes.old) (kept_all D.state U.state nodes.old) shared.old (E.shows out.old) (E.shows out.new) (kept_all D.state U.state nodes.new) shared.new }
    ensures answered { is_over result ≡ true → TurnOver (names_of nodes.old) (kept_all D.state U.state nodes.old) shared.old (E.shows out.old) (E.shows out.new) (kept_all D.state U.state nodes.new) shared.new }
    ensures asked { is_over result ≡ false → (logs : List CallLog) (w v : World) (name : List ℕ) (serials : List Id) (many unanswered : ℕ) (a : Shown) → (h : AskingAt logs w v place name serials many unanswered a (E.shows out.old) (kept_all D.state U.state nodes.old) shared.old) → slice_get (doubts_of h.node) unanswered ≡ Some (serial_of serial.now) →
        AskedOne logs w v place name serials many unanswered (serial_of serial.now) a (E.shows out.new) (kept_all D.state U.state nodes.new) shared.new }
    ensures ended { is_over result ≡ true → (logs : List CallLog) (w v : World) (name : List ℕ) (serials : List Id) (many unanswered : ℕ) (a : Shown) → (h : AskingAt logs w v place name serials many unanswered a (E.shows out.old) (kept_all D.state U.state nodes.old) shared.old) → slice_get (doubts_of h.node) unanswered ≡ Some (serial_of serial.now) →
        EndedAsking logs w v name serials a (E.shows out.new) (kept_all D.state U.state nodes.new) shared.new }
{
    worlds_stay_within();
    let Some(question) = nodes.question(place, serial) else {
        return Flow::GoesOn;
    };
    let Some(coordinator) = nodes.receiver(&question) else {
        out.emit(&Form::InDoubt(*serial, question.to));
        return Flow::Over;
    };
    let Some(answer) = nodes.answer(coordinator, &question) else {
        return Flow::GoesOn;
    };
    nodes.hear(place, &answer, shared, out)
}
