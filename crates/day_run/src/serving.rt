//! A day, served line by line.
ghost use Rattle.std.specs.Prelude.{◌≡◌, ◌≤◌, ◌∷◌, ℕ, [], List, codes};
ghost use Rattle.block_disk.specs.Disk.{CallLog};
ghost use Rattle.emitter_model.specs.Tally.{nothing_tallied};
ghost use Rattle.run_laws.specs.run_said.Said.{nothing_said};
ghost use Rattle.world_laws.specs.run_model.Transcript.{AreOpening};
ghost use Rattle.world_laws.specs.run_model.World.{DiskCounts, Node, opened};
ghost use Rattle.script_lang.specs.Statements.{statement_of};
ghost use Rattle.script_lang.specs.script_model.Grammar.{reading};
ghost use Rattle.script_lang.specs.script_model.Statements.{Says, Statement as StatementSaid};
ghost use Rattle.run_nodes.specs.Held.{AreNodes, kept_all, names_of};
ghost use Rattle.run_nodes.specs.Names.{AreApart};
ghost use Rattle.run_nodes.specs.Together.{StandsTogether, disks_of, said_together};
ghost use Rattle.day_tally.specs.Counters.{tallied_in};
ghost use Rattle.day_run.specs.Serving.{AreLarge, DayServed, DayTells};

use block_disk::Disk;
use day_model::{days_make_once, days_speak};
use day_script::{Day, DayScript, LineText};
use day_tally::{Counts, Ended, LineCounter, stops};
use recovery_units::RecoveryUnits;
use run_nodes::{Nodes, serve_statement};
use run_shared::Shared;
use script_lang::{Literals, Statement, read_statement};
use script_laws::clocks_are_early;
use std::alloc::Global;
use world_laws::nodes_stay_kept;

const MOST_LINES: u32 = 1_000_000;

// The statement that a line of a day says.
fn statement_said(text: &LineText, literals: &mut Literals) -> Statement
    requires says { (s : StatementSaid) × (reading text.now ≡ Says s) }
    ensures { reading text.now ≡ Says (statement_of literals.new result) }
{
    match read_statement(text.bytes(), literals) {
        Ok(Some(statement)) => statement,
        Ok(None) => unreachable!(),
        Err(_) => unreachable!(),
    }
}

/// Serves the lines of a day one after another at two new nodes, A and B, up to the first at which it ends, and counts what they show.
pub fn serve_day<D: Disk + Drop, U: RecoveryUnits>(
    alloc: Global,
    asked: Day,
    literals: &mut Literals,
    shared: &mut Shared,
    lines: &mut LineCounter,
    counts: &mut Counts,
    nodes: &mut Nodes<D, U>,
) -> Ended
    requires count { asked.count ≤ 10000 }
    requires apart { AreApart (names_of nodes.old) }
    requires names { names_of nodes.old ≡ codes "A" ∷ (codes "B" ∷ []) }
    requires large { AreLarge (disks_of (kept_all D.state U.state nodes.old)) }
    requires nodes { AreNodes D.state U.state 0 shared.old nodes.old }
    requires unsaid { said_together (kept_all D.state U.state nodes.old) shared.old ≡ nothing_said (names_of nodes.old) }
    requires lines { tallied_in lines.old ≡ nothing_tallied }
    requires counts { counts.old ≡ [] }
    ensures nodes { (count : ℕ) × AreNodes D.state U.state count shared.new nodes.new }
    ensures names { names_of nodes.new ≡ names_of nodes.old }
    // In each world for which the nodes stood before the first line the entries were legal, and the nodes stand for the world that they led to.
    ensures serves { (logs : List CallLog) (first : List Node) (disks : List DiskCounts) → AreOpening first → StandsTogether logs (kept_all D.state U.state nodes.old) shared.old (opened first disks) →
        DayServed logs (opened first disks) asked.count asked.start (tallied_in lines.new) result counts.new (kept_all D.state U.state nodes.new) shared.new }
    // Whatever the disks have, the entries tell which calls armed or powered them.
    ensures tells { DayTells (names_of nodes.old) (disks_of (kept_all D.state U.state nodes.old)) (disks_of (kept_all D.state U.state nodes.new)) asked.count asked.start (tallied_in lines.new) result counts.new }
{
    nodes_stay_kept();
    clocks_are_early();
    days_speak();
    days_make_once();
    let mut script = DayScript::new(asked);
    let mut text = LineText::new();
    for _number in 0..MOST_LINES {
        let Some(step) = script.next() else {
            return Ended::Whole;
        };
        script.write(step, lines.sent(), &mut text);
        let statement = statement_said(&text, literals);
        serve_statement(alloc, nodes, &statement, literals, shared, lines);
        if stops(step, lines.last()) {
            return Ended::Stopped;
        }
        counts.note(step, lines.last());
    }
    unreachable!()
}
