// A node's table in the course of a step, and the acts of which its rows are made.
ghost use Rattle.std.specs.Prelude.{◌≡◌, ◌+◌, ◌<◌, ◌≤◌, map, length, [], ◌∷◌, ◌++◌, IfOk, IfSome, IfNone, slice_index_or, slice_get, option_copied};
ghost use Rattle.std.specs.Option.{option_map};
ghost use Rattle.std.specs.List.{list_any};
ghost use Rattle.vms_model.specs.Limits.{branch_limit, slot_limit};
ghost use Rattle.commit_protocol.specs.Messages.{same_id as same_id_of};
ghost use Rattle.commit_protocol.specs.Table.{Notes, Leaves, after_act, holds, restarted, add_record, first, find, find_serial};
ghost use Rattle.commit_protocol.specs.Allowed.{has_room};
ghost use Rattle.commit_protocol.specs.Rows.{ack_row};
ghost use Rattle.vms_base.specs.Ids.{tid_of, serial_of};
ghost use Rattle.vms_base.specs.Outcomes.{outcome_of, reason_of};
ghost use Rattle.net_wire.specs.Messages.{kind_of, message_of};
ghost use Rattle.tm_types.specs.Parts.{child_of, rm_event_of, log_record_of};
ghost use Rattle.tm_types.specs.Branches.{key_at, branch_of};
ghost use Rattle.tm_types.specs.Effects.{effect_of};
ghost use Rattle.tm_table.specs.Doing.{did, does, released_row, HasRoom, IsThere};
ghost use Rattle.tm_table.specs.Restarts.{MayRestart, record_of};
ghost use Rattle.tm_table.specs.Kept.{Fits, Unique};

use crate::branches::{add_branch, cut_branch, put_branch};
use crate::messages::{down, up};
use crate::places::{
    has_record, keep_record, place, place_of_holding, place_of_record, place_of_serial,
    place_of_waiting,
};
use crate::restarts::{restore_branches, restore_records};
use net_wire::Message;
use std::alloc::{AllocError, Global};
use std::marker::Model;
use std::mem;
use tm_types::{BranchState, Child, Effect, Effects, State, acknowledged, released};
use vms_base::{
    Kind, LogRec, NodeName, Outcome, Reason, RmEvent, RmList, RmName, Serial, SerialList, Tid,
};

/// What a node knows, and the effects of the acts that were done in this step.
#[derive(Drop)]
pub struct Table {
    node: NodeName,
    branches: Vec<BranchState>,
    records: Vec<LogRec>,
    effects: Effects,
}

impl Model for Table {
    ghost use Rattle.std.specs.Prelude.{◌≤◌, map, vec_capacity};
    ghost use Rattle.vms_model.specs.Limits.{branch_limit, slot_limit};
    ghost use Rattle.tm_types.specs.Parts.{log_record_of};
    ghost use Rattle.tm_types.specs.Branches.{branch_of};
    ghost use Rattle.tm_types.specs.Effects.{effect_of};
    ghost use Rattle.tm_table.specs.Doing.{Doing};
    ghost use Rattle.tm_table.specs.Kept.{Keeps};

    ghost Value = { Doing };

    ghost view = { λ t. record {
      tm = record { node = t.node; table = map branch_of t.branches.items; records = map log_record_of t.records.items };
      effects = map effect_of t.effects;
    } };

    ghost invariant = { λ t. (branch_limit ≤ vec_capacity t.branches) × (slot_limit ≤ vec_capacity t.records) × Keeps (map branch_of t.branches.items) (map log_record_of t.records.items) };
}

impl Table {
    /// A table that takes no memory after this, or an error where there is none for it.
    pub fn reserve(alloc: Global) -> Result<Table, AllocError>
        ensures { IfOk result (λ t. (t.tm.table ≡ []) × (t.tm.records ≡ []) × (t.effects ≡ [])) }
    {
        let branches = Vec::with_capacity(alloc, 64)?;
        let records = Vec::with_capacity(alloc, 512)?;
        let effects = Effects::reserve(alloc)?;
        Ok(Table {
            node: NodeName::default(),
            branches,
            records,
            effects,
        })
    }

    /// Makes this what the node knows after a restart, from its prepared and its committed records.
    pub fn boot(&mut self, node: NodeName, prepared: &[LogRec], committed: &[LogRec])
        requires { MayRestart (map log_record_of prepared.now) (map log_record_of committed.now) }
        ensures { self.new.tm ≡ restarted node (map log_record_of prepared.now) (map log_record_of committed.now) }
    {
        self.node = node;
        restore_branches(&mut self.branches, prepared);
        restore_records(&mut self.records, committed);
    }

    /// The first branch with the serial. None where no branch has it.
    pub fn branch(&self, serial: &Serial) -> Option<&BranchState>
        ensures { option_map branch_of (option_copied result) ≡ find_serial (serial_of serial.now) self.now.tm.table }
    {
        match place_of_serial(&self.branches, serial) {
            Some(i) => Some(&self.branches[i]),
            None => None,
        }
    }

    /// The branch at this place, in order of start. None past the last.
    pub fn branch_at(&self, i: usize) -> Option<&BranchState>
        ensures { option_map branch_of (option_copied result) ≡ slice_get self.now.tm.table i }
    {
        self.branches.get(i)
    }

    /// How many branches are unsettled: at most 64.
    pub fn branch_count(&self) -> usize
        ensures count { result ≡ length self.now.tm.table }
        ensures few { result ≤ branch_limit }
    {
        self.branches.len()
    }

    /// How many committed records there are: at most 512.
    pub fn record_count(&self) -> usize
        ensures count { result ≡ length self.now.tm.records }
        ensures few { result ≤ slot_limit }
    {
        self.records.len()
    }

    /// The committed record at this place. None past the last.
    pub fn record_at(&self, i: usize) -> Option<&LogRec>
        ensures { option_map log_record_of (option_copied result) ≡ slice_get self.now.tm.records i }
    {
        self.records.get(i)
    }

    /// The committed record of the serial. None where it has none.
    pub fn committed(&self, serial: &Serial) -> Option<&LogRec>
        ensures { option_map log_record_of (option_copied result) ≡ record_of (serial_of serial.now) self.now.tm.records }
    {
        match place_of_record(&self.records, serial) {
            Some(i) => Some(&self.records[i]),
            None => None,
        }
    }

    /// A copy of the branch with this transaction id and serial. None where it is not there.
    pub fn find(&self, tid: &Tid, serial: &Serial) -> Option<BranchState>
        ensures found { option_map branch_of result ≡ find (key_at tid.now serial.now) self.now.tm.table }
        ensures there { IfSome result (λ b. IsThere (branch_of b).key self.now.tm.table) }
        ensures fits { IfSome result (λ b. Fits (branch_of b)) }
    {
        match place(&self.branches, tid, serial) {
            Some(i) => Some(self.branches[i].copy()),
            None => None,
        }
    }

    /// A copy of the first branch of the transaction. None where it is not there.
    pub fn find_first(&self, tid: &Tid) -> Option<BranchState>
        ensures found { option_map branch_of result ≡ find (first (tid_of tid.now)) self.now.tm.table }
        ensures there { IfSome result (λ b. IsThere (branch_of b).key self.now.tm.table) }
        ensures fits { IfSome result (λ b. Fits (branch_of b)) }
    {
        self.find(tid, &Serial(tid.0))
    }

    /// A copy of the first branch with the serial. None where no branch has it.
    pub fn find_serial(&self, serial: &Serial) -> Option<BranchState>
        ensures found { option_map branch_of result ≡ find_serial (serial_of serial.now) self.now.tm.table }
        ensures there { IfSome result (λ b. IsThere (branch_of b).key self.now.tm.table) }
        ensures fits { IfSome result (λ b. Fits (branch_of b)) }
    {
        match place_of_serial(&self.branches, serial) {
            Some(i) => Some(self.branches[i].copy()),
            None => None,
        }
    }

    /// A copy of the branch at this place, in order of start. None past the last.
    pub fn copy_at(&self, i: usize) -> Option<BranchState>
        ensures place { IfSome result (λ b. (i < length self.now.tm.table) × (branch_of b ≡ slice_index_or self.now.tm.table i (branch_of b))) }
        ensures none { IfNone result (length self.now.tm.table ≤ i) }
        ensures there { IfSome result (λ b. IsThere (branch_of b).key self.now.tm.table) }
        ensures unique { Unique self.now.tm.table }
        ensures few { length self.now.tm.table ≤ branch_limit }
    {
        if i < self.branches.len() {
            Some(self.branches[i].copy())
        } else {
            None
        }
    }

    /// Drops the effects of an earlier step.
    pub fn clear(&mut self)
        ensures tm { self.new.tm ≡ self.old.tm }
        ensures effects { self.new.effects ≡ [] }
        ensures few { length self.new.tm.table ≤ branch_limit }
    {
        self.effects.clear();
    }

    /// Exchanges the effects with those of an earlier step.
    pub fn exchange(&mut self, out: &mut Effects)
        ensures tm { self.new.tm ≡ self.old.tm }
        ensures effects { map effect_of out.new ≡ self.old.effects }
    {
        mem::swap(&mut self.effects, out);
    }

    /// Whether a branch more has room, by the limits of a node and of the greatest log.
    pub fn has_room(&self) -> bool
        ensures { result ≡ has_room self.now.tm }
    {
        self.branches.len() < 64 && self.branches.len() + self.records.len() < 512
    }

    /// Whether a record of the serial waits for the manager.
    pub fn holds_manager(&self, serial: &Serial, rm: &RmName) -> bool
        ensures { result ≡ list_any (λ q. holds (serial_of serial.now) rm.now q) self.now.tm.records }
    {
        place_of_holding(&self.records, serial, rm).is_some()
    }

    /// Whether a record of the transaction stands.
    pub fn has_record(&self, tid: &Tid) -> bool
        ensures { result ≡ list_any (λ r. same_id_of r.tid (tid_of tid.now)) self.now.tm.records }
    {
        has_record(&self.records, tid)
    }

    /// Puts the branch in the place of the one with its key, which is there.
    pub fn put(&mut self, b: &BranchState)
        requires there { IsThere (branch_of b.now).key self.old.tm.table }
        requires fits { Fits (branch_of b.now) }
        ensures tm { self.new.tm ≡ after_act (Notes (branch_of b.now)) self.old.tm }
        ensures effects { self.new.effects ≡ self.old.effects }
    {
        put_branch(&mut self.branches, b);
    }

    /// Puts the branch in the place of the one with its key, or last where none has it.
    pub fn add(&mut self, b: BranchState)
        requires few { length self.old.tm.table < branch_limit }
        requires slots { length self.old.tm.table + length self.old.tm.records < slot_limit }
        requires fits { Fits (branch_of b) }
        ensures tm { self.new.tm ≡ after_act (Notes (branch_of b)) self.old.tm }
        ensures effects { self.new.effects ≡ self.old.effects }
    {
        add_branch(&mut self.branches, b);
    }

    /// Takes the branch, which is there, out of the table.
    pub fn cut(&mut self, tid: &Tid, serial: &Serial)
        requires there { IsThere (key_at tid.now serial.now) self.old.tm.table }
        ensures tm { self.new.tm ≡ after_act (Leaves (key_at tid.now serial.now)) self.old.tm }
        ensures effects { self.new.effects ≡ self.old.effects }
        ensures slots { length self.new.tm.table + length self.new.tm.records < slot_limit }
        ensures fewer { length self.new.tm.table + 1 ≤ length self.old.tm.table }
    {
        cut_branch(&mut self.branches, tid, serial);
    }

    /// Adds the committed record last. Nothing changes where there is none.
    pub fn add_record(&mut self, rec: &Option<LogRec>)
        requires slots { length self.old.tm.table + length self.old.tm.records < slot_limit }
        ensures tm { self.new.tm ≡ record self.old.tm { records = add_record (option_map log_record_of rec.now) self.old.tm.records } }
        ensures effects { self.new.effects ≡ self.old.effects }
    {
        if let Some(r) = rec {
            self.records.push_reserved(r.copy());
        }
    }

    /// Adds the effect last to those of this step.
    pub fn push(&mut self, effect: Effect)
        requires { HasRoom 1 self.old }
        ensures tm { self.new.tm ≡ self.old.tm }
        ensures effects { self.new.effects ≡ self.old.effects ++ effect_of effect ∷ [] }
        ensures room { length self.new.effects ≡ length self.old.effects + 1 }
    {
        self.effects.push(effect);
    }

    /// Takes a serial that is acknowledged out of the record that waits for it. Nothing changes where none does.
    pub fn acknowledge(&mut self, tid: &Tid, serial: &Serial)
        requires { HasRoom 1 self.old }
        ensures { self.new ≡ does (ack_row (key_at tid.now serial.now) self.old.tm.records) self.old }
    {
        if let Some(i) = place_of_waiting(&self.records, tid, serial) {
            let rec = acknowledged(&self.records[i], tid, serial);
            let effect = keep_record(&mut self.records, i, rec);
            self.effects.push(effect);
        }
    }

    /// Takes a manager that forgets out of the record that waits for it. Nothing changes where none does.
    pub fn release(&mut self, serial: &Serial, rm: &RmName)
        requires { HasRoom 1 self.old }
        ensures { self.new ≡ does (released_row (serial_of serial.now) rm.now self.old.tm.records) self.old }
    {
        if let Some(i) = place_of_holding(&self.records, serial, rm) {
            let rec = released(&self.records[i], rm);
            let effect = keep_record(&mut self.records, i, rec);
            self.effects.push(effect);
        }
    }
}
