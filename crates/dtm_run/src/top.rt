//! The top call: a script is read line by line, served, and its transcript written; or a day is served, and its summary written.
ghost use Rattle.std.specs.Prelude.{◌≡◌, ℕ, ◌<◌, ◌≤◌, List, [], ◌∷◌, ◌⊎◌, length, true, false, map, string_bytes, if◌then◌else◌, Some, codes};
ghost use Rattle.std.specs.Option.{option_map};
ghost use Rattle.indexmap.specs.IndexMap.{spare};
ghost use Rattle.transcript_model.specs.Outside.{Rose};
ghost use Rattle.transcript_model.specs.Script.{lines_of};
ghost use Rattle.emitter_model.specs.Emitting.{Emits, Since};
ghost use Rattle.transcript.specs.Emitters.{shown_by};
ghost use Rattle.transcript.specs.Forms.{HasTime, line_of};
ghost use Rattle.transcript.specs.Reading.{IsSound, lines_ahead, taken_bytes};
ghost use Rattle.world_laws.specs.run_model.Transcript.{AreOpening};
ghost use Rattle.world_laws.specs.run_model.World.{Node as NodeSaid};
ghost use Rattle.run_laws.specs.run_said.Said.{nothing_said};
ghost use Rattle.dtm_run.specs.Racks.{names_in, disks_in, states_in, IsRack};
ghost use Rattle.day_run.specs.run_nodes.Held.{AreNodes, kept_all, names_of};
ghost use Rattle.day_run.specs.run_nodes.Names.{AreApart, is_among};
ghost use Rattle.day_run.specs.run_nodes.Together.{disks_of, said_together};
ghost use Rattle.dtm_run.specs.Calls.{DisksFollowRun};
ghost use Rattle.dtm_run.specs.Headline.{is_command as is_command_of, DisksRepresent, AllGo, Unread};
ghost use Rattle.dtm_run.specs.Days.{DayRan, DayTold};
ghost use Rattle.day_script.specs.day_model.Command.{Asked, day_asked as day_asked_of};
ghost use Rattle.script_model.specs.Command.{is_run_form as is_run_form_of};
ghost use Rattle.dtm_run.specs.Leading.{RunsFrom, RunOver};
ghost use Rattle.dtm_run.specs.Taking.{AreAtZero, AreNew};

use crate::command::{Command, command_of};
use crate::rack::Rack;
use block_disk::Disk;
use day_run::{Node, Nodes, Shared, serve_day, serve_statement};
use day_script::Day;
use day_tally::{Counts, LineCounter, write_end};
use manager_laws::manager_promises_hold;
use recovery_runs::recovery_promises_hold;
use recovery_units::RecoveryUnits;
use run_laws::promises::promises_hold;
use script_lang::{Literals, read_statement};
use script_laws::clocks_are_early;
use std::alloc::Global;
use transcript::{Emit, Form, LineBuffer, LineReader, Next, Sink, SinkEmit, Source};
use world_laws::nodes_stay_kept;

const MOST_LINES: u32 = 1_000_000;

/// How a run ended.
#[derive(Clone, Copy, Debug, PartialEq, Eq)]
pub enum Exit {
    /// The script ended, and every line was answered.
    Done,
    /// A line is outside the grammar.
    BadLine,
    /// The words are no command.
    Usage,
    /// A read of the source failed.
    ReadFault,
    /// A write to the sink failed.
    WriteFault,
    /// Memory was missing before the first line.
    Memory,
    /// A line has more than 20,000 bytes, the script more than 64 MiB, or more than a million lines.
    TooLong,
}

/// Runs the script of a source by the nodes of a rack, and writes its transcript to a sink; or runs a day by them, and writes its summary. The words are those
/// of the command line, which say which. A day does not read the source.
pub fn run<S: Source, K: Sink, D: Disk + Drop, U: RecoveryUnits>(
    alloc: Global,
    words: &[String],
    source: &mut S,
    sink: &mut K,
    rack: &mut Rack<D>,
) -> Exit
    requires rack { IsRack D.state rack.old }
    // Where the words are a command for a script: from all nodes that stand on the disks before the first line, the transcript is legal and keeps its promises, also
    // those of recoveries,
    // and the disks have what its nodes have. Where nothing is known of a disk, this is so up to a statement that may bring its node up, and anew
    // behind a BOOT that was refused while nothing else had come of the nodes, of which those of whose disks something is known are kept.
    ensures runs { is_run_form_of (names_in rack.old) (map string_bytes words.now) ≡ true → (nodes : List NodeSaid) → AreOpening nodes → DisksRepresent (names_in rack.old) (states_in D.state rack.old) nodes →
        RunOver (names_in rack.old) nodes (states_in D.state rack.old) (states_in D.state rack.new) (S.left source.old) (K.shown sink.old) (K.shown sink.new) result }
    // Whether or not the disks tell their content: what was shown for each line tells which calls armed or powered them, and each failure that is shown raised
    // its count. A statement is refused with NOSUCHNODE, NODEDOWN, NODEUP, VOLINUSE, NOINIT, NOSUCHMSG or LABEL just where the lines before it say so, and
    // leaves the disks then. Each statement is answered by its last line, FAULT and STOPPED just behind a line DOWN for that failure. What the disk of a node
    // holds that is down is not lost, but by an INIT of it, or a boot that is not refused.
    ensures calls { is_run_form_of (names_in rack.old) (map string_bytes words.now) ≡ true →
        DisksFollowRun (names_in rack.old) (states_in D.state rack.old) (states_in D.state rack.new) (option_map lines_of (S.left source.old)) (K.shown sink.old) (K.shown sink.new) result }
    // Where they ask for a day: from all nodes that stand on the disks before it, whatever is known of these, its transcript is legal and keeps its promises, its
    // summary was written, or the answer at which it ended, and the disks have what its nodes have.
    ensures makes { (asked : Asked) → day_asked_of (names_in rack.old) (map string_bytes words.now) ≡ Some asked → (nodes : List NodeSaid) → AreOpening nodes → DisksRepresent (names_in rack.old) (states_in D.state rack.old) nodes →
        (result ≡ Exit.Memory) ⊎ DayRan nodes (states_in D.state rack.old) (states_in D.state rack.new) asked.count asked.start (K.shown sink.old) (K.shown sink.new) result }
    // Whether or not the disks tell their content: the entries of the day tell which calls armed or powered them.
    ensures made { (asked : Asked) → day_asked_of (names_in rack.old) (map string_bytes words.now) ≡ Some asked →
        (result ≡ Exit.Memory) ⊎ DayTold (names_in rack.old) (states_in D.state rack.old) (states_in D.state rack.new) asked.count asked.start (K.shown sink.old) (K.shown sink.new) result }
    ensures unread_day { is_run_form_of (names_in rack.old) (map string_bytes words.now) ≡ false → S.left source.new ≡ S.left source.old }
    ensures usage { is_command_of (names_in rack.old) (map string_bytes words.now) ≡ false → (result ≡ Exit.Memory) ⊎ Unread (K.shown sink.old) (K.shown sink.new) result }
    ensures commanded { is_command_of (names_in rack.old) (map string_bytes words.now) ≡ true → (result ≡ Exit.Usage → ⊥) }
    ensures unread { is_command_of (names_in rack.old) (map string_bytes words.now) ≡ false → (S.left source.new ≡ S.left source.old) × (disks_in rack.new ≡ disks_in rack.old) }
    ensures read_fault { result ≡ Exit.ReadFault → Rose (S.faults source.old) (S.faults source.new) }
    ensures write_fault { result ≡ Exit.WriteFault → Rose (K.faults sink.old) (K.faults sink.new) }
    ensures memory { result ≡ Exit.Memory → (K.shown sink.new ≡ K.shown sink.old) × (S.left source.new ≡ S.left source.old) × (disks_in rack.new ≡ disks_in rack.old) }
    ensures names { names_in rack.new ≡ names_in rack.old }
    ensures disks { AllGo (states_in D.state rack.old) (states_in D.state rack.new) }
    ensures rack { IsRack D.state rack.new }
{
    promises_hold();
    manager_promises_hold();
    recovery_promises_hold();
    let Ok(buffer) = LineBuffer::reserve(alloc) else {
        return Exit::Memory;
    };
    let mut out = SinkEmit::over(sink, buffer);
    match command_of(rack, words) {
        Command::Script => {
            let exit = run_script::<S, K, D, U>(alloc, source, &mut out, rack);
            out.into_sink();
            exit
        }
        Command::Day(asked) => {
            let exit = run_day::<K, D, U>(alloc, asked, &mut out, rack);
            out.into_sink();
            exit
        }
        Command::Nothing => {
            let exit = answer_usage(&mut out);
            out.into_sink();
            exit
        }
    }
}

fn answer_usage<K: Sink>(out: &mut SinkEmit<'_, K>) -> Exit
    requires failed { out.old.failed ≡ false }
    ensures same_sink { out.new.sink.ghost_name ≡ out.old.sink.ghost_name }
    ensures unread { Unread (K.shown out.old.sink.now) (K.shown out.new.sink.now) result }
    ensures write_fault { result ≡ Exit.WriteFault → Rose (K.faults out.old.sink.now) (K.faults out.new.sink.now) }
{
    out.usage();
    if out.failed() {
        Exit::WriteFault
    } else {
        Exit::Usage
    }
}

// Takes all memory, and runs the script by the rack's nodes.
fn run_script<S: Source, K: Sink, D: Disk + Drop, U: RecoveryUnits>(
    alloc: Global,
    source: &mut S,
    out: &mut SinkEmit<'_, K>,
    rack: &mut Rack<D>,
) -> Exit
    requires failed { out.old.failed ≡ false }
    requires rack { IsRack D.state rack.old }
    ensures same_sink { out.new.sink.ghost_name ≡ out.old.sink.ghost_name }
    ensures runs { (nodes : List NodeSaid) → AreOpening nodes → DisksRepresent (names_in rack.old) (states_in D.state rack.old) nodes →
        RunsFrom (names_in rack.old) (record { nodes = nodes; disks = states_in D.state rack.old }) (option_map lines_of (S.left source.old)) (K.shown out.old.sink.now) (K.shown out.new.sink.now) result (states_in D.state rack.new) }
    ensures calls { DisksFollowRun (names_in rack.old) (states_in D.state rack.old) (states_in D.state rack.new) (option_map lines_of (S.left source.old)) (K.shown out.old.sink.now) (K.shown out.new.sink.now) result }
    ensures commanded { result ≡ Exit.Usage → ⊥ }
    ensures read_fault { result ≡ Exit.ReadFault → Rose (S.faults source.old) (S.faults source.new) }
    ensures write_fault { result ≡ Exit.WriteFault → Rose (K.faults out.old.sink.now) (K.faults out.new.sink.now) }
    ensures memory { result ≡ Exit.Memory → (K.shown out.new.sink.now ≡ K.shown out.old.sink.now) × (S.left source.new ≡ S.left source.old) × (disks_in rack.new ≡ disks_in rack.old) }
    ensures names { names_in rack.new ≡ names_in rack.old }
    ensures disks { AllGo (states_in D.state rack.old) (states_in D.state rack.new) }
    ensures rack { IsRack D.state rack.new }
{
    let Ok(mut reader) = LineReader::reserve(alloc) else {
        return Exit::Memory;
    };
    let Ok(mut shared) = Shared::reserve(alloc) else {
        return Exit::Memory;
    };
    let Ok(mut literals) = Literals::reserve(alloc) else {
        return Exit::Memory;
    };
    let Ok(mut nodes) = Nodes::reserve(alloc) else {
        return Exit::Memory;
    };
    let Ok(()) = rack.make_room() else {
        return Exit::Memory;
    };
    take_out(&mut nodes, rack);
    let exit = drive::<S, K, D, U>(
        alloc,
        source,
        &mut reader,
        &mut literals,
        &mut shared,
        out,
        &mut nodes,
    );
    put_back(rack, &mut nodes);
    exit
}

// Takes all memory, serves a day by the rack's nodes, and writes its summary, or the answer at which it ended.
fn run_day<K: Sink, D: Disk + Drop, U: RecoveryUnits>(
    alloc: Global,
    asked: Day,
    out: &mut SinkEmit<'_, K>,
    rack: &mut Rack<D>,
) -> Exit
    requires failed { out.old.failed ≡ false }
    requires count { asked.count ≤ 10000 }
    requires rack { IsRack D.state rack.old }
    requires names { names_in rack.old ≡ codes "A" ∷ (codes "B" ∷ []) }
    ensures same_sink { out.new.sink.ghost_name ≡ out.old.sink.ghost_name }
    ensures makes { (nodes : List NodeSaid) → AreOpening nodes → DisksRepresent (names_in rack.old) (states_in D.state rack.old) nodes →
        (result ≡ Exit.Memory) ⊎ DayRan nodes (states_in D.state rack.old) (states_in D.state rack.new) asked.count asked.start (K.shown out.old.sink.now) (K.shown out.new.sink.now) result }
    ensures calls { (result ≡ Exit.Memory) ⊎ DayTold (names_in rack.old) (states_in D.state rack.old) (states_in D.state rack.new) asked.count asked.start (K.shown out.old.sink.now) (K.shown out.new.sink.now) result }
    ensures ends { (result ≡ Exit.Usage → ⊥) × (result ≡ Exit.ReadFault → ⊥) }
    ensures write_fault { result ≡ Exit.WriteFault → Rose (K.faults out.old.sink.now) (K.faults out.new.sink.now) }
    ensures memory { result ≡ Exit.Memory → (K.shown out.new.sink.now ≡ K.shown out.old.sink.now) × (disks_in rack.new ≡ disks_in rack.old) }
    ensures names { names_in rack.new ≡ names_in rack.old }
    ensures disks { AllGo (states_in D.state rack.old) (states_in D.state rack.new) }
    ensures rack { IsRack D.state rack.new }
{
    promises_hold();
    manager_promises_hold();
    let Ok(mut shared) = Shared::reserve(alloc) else {
        return Exit::Memory;
    };
    let Ok(mut literals) = Literals::reserve(alloc) else {
        return Exit::Memory;
    };
    let Ok(mut nodes) = Nodes::reserve(alloc) else {
        return Exit::Memory;
    };
    let Ok(()) = rack.make_room() else {
        return Exit::Memory;
    };
    take_out(&mut nodes, rack);
    let mut lines = LineCounter::new();
    let mut counts = Counts::new();
    let ended = serve_day::<D, U>(
        alloc,
        asked,
        &mut literals,
        &mut shared,
        &mut lines,
        &mut counts,
        &mut nodes,
    );
    put_back(rack, &mut nodes);
    write_end(out, asked, ended, &lines, &counts);
    if out.failed() {
        Exit::WriteFault
    } else {
        Exit::Done
    }
}

// Takes the nodes of a rack out, which are not booted yet.
fn take_out<D: Disk + Drop, U: RecoveryUnits>(nodes: &mut Nodes<D, U>, rack: &mut Rack<D>)
    requires none { nodes.old.nodes.entries ≡ [] }
    requires room { 8 ≤ spare nodes.old.nodes }
    requires rack { IsRack D.state rack.old }
    ensures nodes { AreNew D.state U.state rack.old.nodes.entries nodes.new.nodes.entries }
    ensures rack { rack.new.nodes.entries ≡ [] }
    ensures room { spare rack.old.nodes ≤ spare rack.new.nodes }
{
    for _number in 0..rack.len() {
        let Some(node) = rack.take_first() else {
            unreachable!()
        };
        nodes.push(node.0, Node::new(node.0, node.1));
    }
}

// Puts the disks of nodes back into their rack.
fn put_back<D: Disk + Drop, U: RecoveryUnits>(rack: &mut Rack<D>, nodes: &mut Nodes<D, U>)
    requires none { rack.old.nodes.entries ≡ [] }
    requires room { 8 ≤ spare rack.old.nodes }
    requires few { length (names_of nodes.old) ≤ 8 }
    requires apart { AreApart (names_of nodes.old) }
    ensures names { names_in rack.new ≡ names_of nodes.old }
    ensures disks { states_in D.state rack.new ≡ disks_of (kept_all D.state U.state nodes.old) }
{
    for _number in 0..nodes.len() {
        let Some(node) = nodes.take_first() else {
            unreachable!()
        };
        rack.put_back(node.0, node.1.into_disk());
    }
}

// Writes the last line of a run.
fn close<K: Sink>(out: &mut SinkEmit<'_, K>, form: &Form<'_>, exit: Exit) -> Exit
    requires { HasTime form.now }
    ensures same_sink { out.new.sink.ghost_name ≡ out.old.sink.ghost_name }
    ensures emits { Emits (shown_by K.shown K.faults out.old) (line_of form.now ∷ []) (shown_by K.shown K.faults out.new) }
    ensures since { Since (shown_by K.shown K.faults out.old) (shown_by K.shown K.faults out.new) }
    ensures exit { result ≡ (if out.new.failed then Exit.WriteFault else exit) }
{
    out.emit(form);
    if out.failed() { Exit::WriteFault } else { exit }
}

// Serves line after line.
fn drive<S: Source, K: Sink, D: Disk + Drop, U: RecoveryUnits>(
    alloc: Global,
    source: &mut S,
    reader: &mut LineReader,
    literals: &mut Literals,
    shared: &mut Shared,
    out: &mut SinkEmit<'_, K>,
    nodes: &mut Nodes<D, U>,
) -> Exit
    requires sound { IsSound reader.old }
    requires first { taken_bytes reader.old ≡ 0 }
    requires failed { out.old.failed ≡ false }
    requires apart { AreApart (names_of nodes.old) }
    requires nodes { AreNodes D.state U.state 0 shared.old nodes.old }
    requires zero { AreAtZero (kept_all D.state U.state nodes.old) }
    requires unsaid { said_together (kept_all D.state U.state nodes.old) shared.old ≡ nothing_said (names_of nodes.old) }
    ensures same_sink { out.new.sink.ghost_name ≡ out.old.sink.ghost_name }
    ensures runs { (said : List NodeSaid) → AreOpening said → DisksRepresent (names_of nodes.old) (disks_of (kept_all D.state U.state nodes.old)) said →
        RunsFrom (names_of nodes.old) (record { nodes = said; disks = disks_of (kept_all D.state U.state nodes.old) }) (lines_ahead reader.old (S.left source.old)) (K.shown out.old.sink.now) (K.shown out.new.sink.now) result (disks_of (kept_all D.state U.state nodes.new)) }
    ensures calls { DisksFollowRun (names_of nodes.old) (disks_of (kept_all D.state U.state nodes.old)) (disks_of (kept_all D.state U.state nodes.new)) (lines_ahead reader.old (S.left source.old)) (K.shown out.old.sink.now) (K.shown out.new.sink.now) result }
    ensures commanded { result ≡ Exit.Usage → ⊥ }
    ensures begun { result ≡ Exit.Memory → ⊥ }
    ensures read_fault { result ≡ Exit.ReadFault → Rose (S.faults source.old) (S.faults source.new) }
    ensures write_fault { result ≡ Exit.WriteFault → Rose (K.faults out.old.sink.now) (K.faults out.new.sink.now) }
    ensures names { names_of nodes.new ≡ names_of nodes.old }
    ensures disks { AllGo (disks_of (kept_all D.state U.state nodes.old)) (disks_of (kept_all D.state U.state nodes.new)) }
{
    nodes_stay_kept();
    clocks_are_early();
    for number in 1..1_000_002 {
        match reader.next(source) {
            Next::Failed => return Exit::ReadFault,
            Next::End => return Exit::Done,
            Next::TooLong => {
                out.at(number);
                return close(out, &Form::TooLong, Exit::TooLong);
            }
            Next::Line => {}
        }
        out.at(number);
        if number > MOST_LINES {
            return close(out, &Form::TooLong, Exit::TooLong);
        }
        let statement = match read_statement(reader.line(), literals) {
            Ok(Some(statement)) => statement,
            Ok(None) => continue,
            Err(e) => return close(out, &Form::BadLine(e.column), Exit::BadLine),
        };
        serve_statement(alloc, nodes, &statement, literals, shared, out);
        if out.failed() {
            return Exit::WriteFault;
        }
    }
    unreachable!()
}
