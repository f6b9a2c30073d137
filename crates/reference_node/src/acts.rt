// What requests of records do that nothing refuses.
ghost use Rattle.std.specs.Prelude.{◌≡◌, ◌+◌, ◌<◌, ◌≤◌, ◌^◌, ◌∷◌, true, None, Some, map, length, OnOk, IfOk};
ghost use Rattle.vms_model.specs.Limits.{slot_limit};
ghost use Rattle.commit_protocol.specs.Allowed.{is_working};
ghost use Rattle.commit_protocol.specs.Table.{first};
ghost use Rattle.script_lang.specs.Statements.{form_of, recovery_of, setting_of, side_of};
ghost use Rattle.script_lang.specs.script_model.Statements as said;
ghost use Rattle.unit_laws.specs.Journal.{end_of};
ghost use Rattle.world_laws.specs.run_model.Answers as answers;
ghost use Rattle.world_laws.specs.run_model.Answers.{service};
ghost use Rattle.world_laws.specs.run_model.World as world;
ghost use Rattle.vms_base.specs.Ids.{id_of};
ghost use Rattle.tm_types.specs.Branches.{branch_of as branch_said};
ghost use Rattle.reference_index.specs.Standing.{key_of as key_said, changes_of};
ghost use Rattle.reference_world.specs.Standing.{branch_key_of, settlement_of, line_of};
ghost use Rattle.reference_units.specs.Entries.{journal_of};
ghost use Rattle.reference_records.specs.Operations.{asked_of};
ghost use Rattle.reference_node.specs.Nodes.{node_of, noted, Does};
ghost use Rattle.reference_branches.specs.Branches.{shared_of};
ghost use Rattle.reference_node.specs.Telling.{HasTime};

use crate::node::Node;
use reference_branches::{Shared, alone, key_of, line_before};
use reference_index::{Change, Key, push_front};
use reference_records::Asked;
use reference_recovery::side_for;
use reference_units::with_locks;
use reference_world::{DiskCall, Line, Settlement, one};
use script_lang::{Form, Recovery, Setting, Side};
use std::alloc::{AllocError, Global};
use std::mem::replace;
use tm_types::{BranchState, Effects, Event};
use vms_base::{FileName, Id, Label, Serial};

impl Node {
    // A branch makes changes of a file, and holds these keys of it.
    fn change(
        &mut self,
        alloc: Global,
        b: &BranchState,
        name: &FileName,
        changes: Vec<Change>,
        keys: &[Key],
    ) -> Result<(), AllocError>
        requires there { world.find_branch (branch_said b.now).key.serial self.old.table.table ≡ Some (branch_said b.now) }
        requires working { is_working (branch_said b.now) ≡ true }
        ensures { OnOk result (node_of self.new ≡ world.acted (world.Changes (branch_said b.now).key.tid (branch_said b.now).key.serial name.now (changes_of changes.items) (map key_said keys.now)) (node_of self.old)) }
    {
        self.note_change(alloc, b)?;
        self.durable
            .change(alloc, self.locks.as_slice(), &key_of(b), name, changes)?;
        self.hold(alloc, &b.serial.0, name, keys)
    }

    // The table notes that a branch has changed something.
    fn note_change(&mut self, alloc: Global, b: &BranchState) -> Result<(), AllocError>
        requires there { world.find_branch (branch_said b.now).key.serial self.old.table.table ≡ Some (branch_said b.now) }
        requires working { is_working (branch_said b.now) ≡ true }
        ensures { OnOk result (node_of self.new ≡ noted (branch_said b.now).key.serial (node_of self.old)) }
    {
        let event = Event::Changed {
            serial: Serial(b.serial.0),
        };
        let mut effects = Effects::reserve(alloc)?;
        self.table.step(&event, &mut effects);
        Ok(())
    }

    // A branch holds these keys of a file too.
    fn hold(
        &mut self,
        alloc: Global,
        serial: &Id,
        name: &FileName,
        keys: &[Key],
    ) -> Result<(), AllocError>
        ensures { OnOk result (node_of self.new ≡ world.acted (world.Holds (id_of serial.now) name.now (map key_said keys.now)) (node_of self.old)) }
    {
        let locks = replace(&mut self.locks, Vec::new(alloc));
        self.locks = with_locks(alloc, locks, serial, name, keys)?;
        Ok(())
    }

    // A branch does an operation: it makes its changes, or holds what it read.
    fn operated(
        &mut self,
        alloc: Global,
        b: &BranchState,
        name: &FileName,
        changes: Vec<Change>,
        keys: &[Key],
    ) -> Result<(), AllocError>
        requires there { world.find_branch (branch_said b.now).key.serial self.old.table.table ≡ Some (branch_said b.now) }
        requires working { is_working (branch_said b.now) ≡ true }
        ensures { OnOk result (node_of self.new ≡ world.acted (answers.operation_act (branch_said b.now) name.now (changes_of changes.items) (map key_said keys.now)) (node_of self.old)) }
    {
        if changes.is_empty() {
            self.hold(alloc, &b.serial.0, name, keys)
        } else {
            self.change(alloc, b, name, changes, keys)
        }
    }

    /// PUT, UPDATE, DELETE, TRUNCATE, GET and NEXT of a branch, where nothing refuses them.
    pub fn operate(
        &mut self,
        alloc: Global,
        shared: &Shared,
        label: &Label,
        name: &FileName,
        asked: Asked<'_>,
    ) -> Result<Vec<Line>, AllocError>
        requires allowed { answers.in_state is_working (answers.branch_labelled (shared_of shared.now) (node_of self.old) label.now) ≡ None }
        ensures { IfOk result (λ lines. Does (shared_of shared.now) (node_of self.old) (service (said.Records label.now name.now (asked_of asked.entry))) lines.items (node_of self.new) (shared_of shared.now)) }
    {
        let told = self.durable.asked_told(alloc, name, asked)?;
        let lines = one(alloc, told.line)?;
        let Some(b) = self.branch_labelled(shared, label) else {
            return Ok(lines);
        };
        self.operated(alloc, &b, name, told.changes, told.keys.as_slice())?;
        Ok(lines)
    }

    // Changes of a branch of its own, which is committed at once.
    fn change_directly(
        &mut self,
        alloc: Global,
        name: &FileName,
        changes: Vec<Change>,
        s: &Settlement,
    ) -> Result<(), AllocError>
        requires committed { s.now.reason ≡ None }
        requires end { end_of (journal_of self.old.durable.units) < 2 ^ 64 }
        requires drawn { self.old.drawn + 1 < 2 ^ 32 }
        ensures { OnOk result (node_of self.new ≡ world.acted (world.Directs name.now (changes_of changes.items) (settlement_of s.now)) (node_of self.old)) }
    {
        self.durable
            .change_directly(alloc, self.locks.as_slice(), name, changes, s)?;
        push_front(&mut self.settled, *s)?;
        self.drawn += 1;
        Ok(())
    }

    /// PUT, UPDATE, DELETE, TRUNCATE, GET and NEXT without a label, where nothing refuses them.
    pub fn direct(
        &mut self,
        alloc: Global,
        name: &FileName,
        asked: Asked<'_>,
    ) -> Result<Vec<Line>, AllocError>
        requires time { HasTime 1 (node_of self.old) }
        requires drawn { self.old.drawn + 1 < 2 ^ 32 }
        ensures { (s : world.Shared) → IfOk result (λ lines. Does s (node_of self.old) (service (said.Direct name.now (asked_of asked.entry))) lines.items (node_of self.new) s) }
    {
        let told = self.durable.asked_told(alloc, name, asked)?;
        let lines = one(alloc, told.line)?;
        if told.changes.is_empty() {
            return Ok(lines);
        }
        let id = self.next_id();
        let branch = alone(&id);
        let s = self.next_settlement(&branch, None);
        self.change_directly(alloc, name, told.changes, &s)?;
        let all = line_before(lines, Line::Committed(branch, s.moment))?;
        Ok(all)
    }

    /// INIT.
    pub fn make(&mut self, alloc: Global, slots: u32, journal: u32) -> Result<Vec<Line>, AllocError>
        ensures { (s : world.Shared) → IfOk result (λ lines. Does s (node_of self.old) (service (said.Init slots journal)) lines.items (node_of self.new) s) }
    {
        self.durable.make(alloc, slots, journal)
    }

    /// CREATE.
    pub fn create(
        &mut self,
        alloc: Global,
        name: FileName,
        bucket: u32,
        size: u32,
        form: Form,
    ) -> Result<Vec<Line>, AllocError>
        requires { length self.old.durable.log.items ≤ slot_limit }
        ensures { (s : world.Shared) → IfOk result (λ lines. Does s (node_of self.old) (service (said.Create name bucket size (form_of form))) lines.items (node_of self.new) s) }
    {
        self.durable
            .create(alloc, self.blocks, name, bucket, size, form)
    }

    /// SET_FILE.
    pub fn set_file(
        &mut self,
        alloc: Global,
        name: &FileName,
        setting: Setting,
    ) -> Result<Vec<Line>, AllocError>
        requires { length self.old.durable.log.items ≤ slot_limit }
        ensures { (s : world.Shared) → IfOk result (λ lines. Does s (node_of self.old) (service (said.SetFile name.now (setting_of setting))) lines.items (node_of self.new) s) }
    {
        self.durable
            .set_file(alloc, self.blocks, self.locks.as_slice(), name, setting)
    }

    /// BACKUP.
    pub fn backup(&mut self, alloc: Global, name: &FileName) -> Result<Vec<Line>, AllocError>
        requires { length self.old.durable.log.items ≤ slot_limit }
        ensures { (s : world.Shared) → IfOk result (λ lines. Does s (node_of self.old) (service (said.Backup name.now)) lines.items (node_of self.new) s) }
    {
        self.durable
            .backup(alloc, self.blocks, self.locks.as_slice(), name)
    }

    /// RECOVER.
    pub fn recover(
        &mut self,
        alloc: Global,
        name: &FileName,
        way: &Recovery,
    ) -> Result<Vec<Line>, AllocError>
        requires { length self.old.durable.log.items ≤ slot_limit }
        ensures { (s : world.Shared) → IfOk result (λ lines. Does s (node_of self.old) (service (said.Recover name.now (recovery_of way.now))) lines.items (node_of self.new) s) }
    {
        self.durable
            .recover(alloc, self.blocks, self.locks.as_slice(), name, way)
    }

    /// DUMP.
    pub fn dump(&self, alloc: Global, name: &FileName) -> Result<Vec<Line>, AllocError>
        ensures { (s : world.Shared) → IfOk result (λ lines. Does s (node_of self.now) (service (said.Dump name.now)) lines.items (node_of self.now) s) }
    {
        self.durable.dump(alloc, name)
    }

    /// DUMP_JOURNAL RU.
    pub fn dump_journal(&self, alloc: Global) -> Result<Vec<Line>, AllocError>
        requires { end_of (journal_of self.now.durable.units) < 2 ^ 64 }
        ensures { (s : world.Shared) → IfOk result (λ lines. Does s (node_of self.now) (service said.DumpJournal) lines.items (node_of self.now) s) }
    {
        self.durable.dump_journal(alloc)
    }

    /// DUMP_JOURNAL of a file's journal of images.
    pub fn dump_images(
        &self,
        alloc: Global,
        name: &FileName,
        word: Side,
    ) -> Result<Vec<Line>, AllocError>
        ensures { (s : world.Shared) → IfOk result (λ lines. Does s (node_of self.now) (service (said.DumpImages name.now (side_of word))) lines.items (node_of self.now) s) }
    {
        self.durable.dump_images(alloc, name, side_for(word))
    }

    /// FUSE.
    pub fn arm(&mut self, alloc: Global, writes: u32, choice: u64) -> Result<Vec<Line>, AllocError>
        ensures { (s : world.Shared) → IfOk result (λ lines. Does s (node_of self.old) (service (said.Fuse writes choice)) lines.items (node_of self.new) s) }
    {
        push_front(&mut self.calls, DiskCall::Arm { writes, choice })?;
        one(alloc, Line::Normal)
    }

    /// CRASH.
    pub fn crash(&mut self, alloc: Global) -> Result<Vec<Line>, AllocError>
        ensures { (s : world.Shared) → IfOk result (λ lines. Does s (node_of self.old) (service said.Crash) lines.items (node_of self.new) s) }
    {
        self.up = false;
        let mut lines = one(alloc, Line::Normal)?;
        push_front(&mut lines, Line::Crashed(self.name))?;
        Ok(lines)
    }
}
