// The table of one node.
ghost use Rattle.std.specs.Prelude.{◌≡◌, ◌≤◌, [], map, length, true, IfOk, option_copied, slice_get};
ghost use Rattle.std.specs.Option.{option_map};
ghost use Rattle.vms_model.specs.Limits.{branch_limit, slot_limit};
ghost use Rattle.commit_protocol.specs.Allowed.{allowed};
ghost use Rattle.commit_protocol.specs.Effects.{effects_of};
ghost use Rattle.commit_protocol.specs.Rows.{row};
ghost use Rattle.commit_protocol.specs.Table.{after, restarted, find_serial};
ghost use Rattle.vms_base.specs.Ids.{serial_of};
ghost use Rattle.tm_types.specs.Parts.{log_record_of};
ghost use Rattle.tm_types.specs.Branches.{branch_of};
ghost use Rattle.tm_table.specs.Restarts.{MayRestart, record_of};
ghost use Rattle.tm_types.specs.Events.{event_of};
ghost use Rattle.tm_types.specs.Effects.{effect_of};

use crate::table::Table;
use std::alloc::{AllocError, Global};
use std::marker::Model;
use tm_types::{BranchState, Effects, Event};
use vms_base::{LogRec, NodeName, Serial};

/// The table of one node: its unsettled branches in order of start, and its committed records. It takes no memory after `reserve`.
#[derive(Drop)]
pub struct Tm {
    table: Table,
}

impl Model for Tm {
    ghost use Rattle.commit_protocol.specs.Table.{Tm as NodeTable};

    ghost Value = { NodeTable };

    ghost view = { λ t. t.table.tm };
}

impl Tm {
    /// A table that knows nothing yet, or an error where there is no memory for it.
    pub fn reserve(alloc: Global) -> Result<Tm, AllocError>
        ensures { IfOk result (λ t. (t.table ≡ []) × (t.records ≡ [])) }
    {
        let table = Table::reserve(alloc)?;
        Ok(Tm { table })
    }

    /// What the node knows after a restart: the prepared and the committed records of its log, the prepared ones as its branches in this order. The first
    /// are prepared and the second committed records, their serials are distinct, and there are at most 64 prepared ones and 512 together.
    pub fn boot(&mut self, node: NodeName, prepared: &[LogRec], committed: &[LogRec])
        requires { MayRestart (map log_record_of prepared.now) (map log_record_of committed.now) }
        ensures { self.new ≡ restarted node (map log_record_of prepared.now) (map log_record_of committed.now) }
    {
        self.table.boot(node, prepared, committed);
    }

    /// The unsettled branch with this serial.
    pub fn branch(&self, serial: Serial) -> Option<&BranchState>
        ensures { option_map branch_of (option_copied result) ≡ find_serial (serial_of serial) self.now.table }
    {
        self.table.branch(&serial)
    }

    /// The unsettled branch at this place, from 0, in order of start.
    pub fn branch_at(&self, i: u32) -> Option<&BranchState>
        ensures { option_map branch_of (option_copied result) ≡ slice_get self.now.table i }
    {
        self.table.branch_at(i as usize)
    }

    /// How many branches are unsettled.
    pub fn branch_count(&self) -> usize
        ensures count { result ≡ length self.now.table }
        ensures few { result ≤ branch_limit }
    {
        self.table.branch_count()
    }

    /// How many committed records there are.
    pub fn record_count(&self) -> usize
        ensures count { result ≡ length self.now.records }
        ensures few { result ≤ slot_limit }
    {
        self.table.record_count()
    }

    /// The committed record at this place, from 0.
    pub fn record_at(&self, i: u32) -> Option<&LogRec>
        ensures { option_map log_record_of (option_copied result) ≡ slice_get self.now.records i }
    {
        self.table.record_at(i as usize)
    }

    /// The committed record of this serial.
    pub fn committed(&self, serial: Serial) -> Option<&LogRec>
        ensures { option_map log_record_of (option_copied result) ≡ record_of (serial_of serial) self.now.records }
    {
        self.table.committed(&serial)
    }

    /// Whether the event may be told: a statement's event may where the statement is not refused, by the state of its branch or by a limit of the table.
    pub fn allows(&self, event: &Event) -> bool
        ensures { result ≡ allowed self.now (event_of event.now) }
    {
        self.table.allows(event)
    }

    /// What the node does at an event: one row of the protocol's table. The effects are those of this call alone, in order.
    pub fn step(&mut self, event: &Event, out: &mut Effects)
        requires allowed { allowed self.old (event_of event.now) ≡ true }
        ensures table { self.new ≡ after (row self.old (event_of event.now)) self.old }
        ensures effects { map effect_of out.new ≡ effects_of (row self.old (event_of event.now)) self.old.records }
    {
        self.table.clear();
        self.table.take_row(event);
        self.table.exchange(out);
    }
}
