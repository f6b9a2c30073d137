// How a node comes up.
ghost use Rattle.std.specs.Prelude.{◌≡◌, ◌+◌, ◌<◌, ◌^◌, ℕ, map, length, OnOk, IfOk};
ghost use Rattle.script_lang.specs.script_model.Statements as said;
ghost use Rattle.commit_protocol.specs.World.{undo_all as undo_acts};
ghost use Rattle.world_laws.specs.log_laws.Slots.{records_in, committed_of};
ghost use Rattle.world_laws.specs.run_model.Answers as answers;
ghost use Rattle.world_laws.specs.run_model.Steps.{lines_of_rows, node_after_rows};
ghost use Rattle.world_laws.specs.run_model.World as world;
ghost use Rattle.tm_table.specs.Restarts.{MayRestart};
ghost use Rattle.reference_world.specs.Standing.{branch_key_of, line_of};
ghost use Rattle.world_laws.specs.Nodes.{IsKeptDisk};
ghost use Rattle.reference_units.specs.Entries.{units_of};
ghost use Rattle.reference_disk.specs.Disks.{durable_of};
ghost use Rattle.reference_node.specs.Nodes.{node_of, AreUnknown, Does};
ghost use Rattle.reference_branches.specs.Lines.{key_line};
ghost use Rattle.reference_node.specs.Telling.{HasTime, Restarts};

use crate::node::Node;
use crate::table::with_line;
use reference_branches::prepared_lines;
use reference_disk::keys_of_records;
use reference_index::{append, push_back, push_front};
use reference_units::Unit;
use reference_world::Line;
use std::alloc::{AllocError, Global};
use world_laws::nodes_stay_kept;

impl Node {
    // The node is booted once more, with the prepared branches and the committed records of its disk.
    fn begin_boot(&mut self, alloc: Global) -> Result<(), AllocError>
        requires boot { self.old.durable.boot + 1 < 2 ^ 32 }
        requires restarts { MayRestart (world.prepared_left (durable_of self.old.durable)) (committed_of (records_in (durable_of self.old.durable).log)) }
        ensures { OnOk result (node_of self.new ≡ world.acted world.Boots (node_of self.old)) }
    {
        let prepared = self.durable.prepared(alloc)?;
        let committed = self.durable.committed(alloc)?;
        self.preparation = keys_of_records(alloc, prepared.as_slice())?;
        self.locks = self.durable.locks_left(alloc, prepared.as_slice())?;
        self.table
            .boot(self.name, prepared.as_slice(), committed.as_slice());
        self.durable.boot += 1;
        self.drawn = 0;
        self.declared = Vec::new(alloc);
        Ok(())
    }

    // These units are undone one after another.
    fn undo_each(&mut self, alloc: Global, units: &[Unit]) -> Result<Vec<Line>, AllocError>
        requires time { HasTime (length units.now) (node_of self.old) }
        requires unknown { AreUnknown (map answers.unit_key (units_of units.now)) (node_of self.old).volatile.branches }
        ensures node { (s : world.Shared) → OnOk result (node_of self.new ≡ node_after_rows (answers.table_rows (undo_acts (map answers.unit_key (units_of units.now))) s (node_of self.old)) (node_of self.old)) }
        ensures lines { (s : world.Shared) → IfOk result (λ v. map line_of v.items ≡ lines_of_rows (answers.table_rows (undo_acts (map answers.unit_key (units_of units.now))) s (node_of self.old))) }
        ensures time { (count : ℕ) → HasTime (count + length units.now) (node_of self.old) → OnOk result (HasTime count (node_of self.new)) }
    {
        match units {
            [] => Ok(Vec::new(alloc)),
            [u, rest @ ..] => {
                let first = self.undo(alloc, &u.branch)?;
                let mut lines = self.undo_each(alloc, rest)?;
                push_front(&mut lines, first)?;
                Ok(lines)
            }
        }
    }

    /// The node comes up: shows the last settlement on the disk, undoes what is not prepared, and shows what is.
    pub fn restart(&mut self, alloc: Global) -> Result<Vec<Line>, AllocError>
        requires boot { self.old.durable.boot + 1 < 2 ^ 32 }
        requires kept { IsKeptDisk (node_of self.old) }
        requires time { HasTime 64 (node_of self.old) }
        ensures restarts { (s : world.Shared) → IfOk result (λ lines. Restarts s (node_of self.old) lines.items (node_of self.new)) }
        ensures time { (count : ℕ) → HasTime (count + 64) (node_of self.old) → OnOk result (HasTime count (node_of self.new)) }
    {
        nodes_stay_kept();
        let last = with_line(self.durable.last_shown(), Vec::new(alloc))?;
        let left = self.durable.units_left(alloc)?;
        self.begin_boot(alloc)?;
        let found = prepared_lines(alloc, self.preparation.as_slice())?;
        let undone = self.undo_each(alloc, left.as_slice())?;
        self.up = true;
        self.was_up = true;
        append(append(last, undone)?, found)
    }

    /// BOOT.
    pub fn boot(&mut self, alloc: Global) -> Result<Vec<Line>, AllocError>
        requires boot { self.old.durable.boot + 1 < 2 ^ 32 }
        requires kept { IsKeptDisk (node_of self.old) }
        requires time { HasTime 64 (node_of self.old) }
        ensures does { (s : world.Shared) → IfOk result (λ lines. Does s (node_of self.old) (answers.service said.Boot) lines.items (node_of self.new) s) }
        ensures time { (count : ℕ) → HasTime (count + 64) (node_of self.old) → OnOk result (HasTime count (node_of self.new)) }
    {
        let boot = u64::from(self.durable.boot) + 1;
        let mut lines = self.restart(alloc)?;
        push_back(&mut lines, Line::NormalCount(boot))?;
        Ok(lines)
    }
}
