// Resource managers: what refuses a statement of theirs, and what it does that nothing refuses.
ghost use Rattle.std.specs.Prelude.{◌≡◌, ◌+◌, ℕ, None, drop, map, option_map, OnOk, IfOk};
ghost use Rattle.std.specs.List.{list_any};
ghost use Rattle.commit_protocol.specs.Rows as rows;
ghost use Rattle.world_laws.specs.run_model.Answers as answers;
ghost use Rattle.world_laws.specs.run_model.Answers.{service};
ghost use Rattle.world_laws.specs.run_model.World as world;
ghost use Rattle.script_lang.specs.Statements.{named_of};
ghost use Rattle.script_lang.specs.script_model.Statements as said;
ghost use Rattle.vms_base.specs.Ids.{id_of};
ghost use Rattle.tm_types.specs.Branches.{branch_of as branch_said};
ghost use Rattle.tm_types.specs.Events.{event_of};
ghost use Rattle.tm_types.specs.Parts.{reply_of};
ghost use Rattle.reference_world.specs.Standing.{line_of};
ghost use Rattle.reference_branches.specs.Branches.{shared_of};
ghost use Rattle.reference_branches.specs.Managers.{known_of};
ghost use Rattle.reference_node.specs.Nodes.{Does, node_of};
ghost use Rattle.reference_node.specs.Telling.{CanTell, HasTime};

use crate::node::Node;
use reference_branches::{
    Known, Shared, awaited_reply, has_joined, is_among, join_refused, joins, known_branch,
    known_manager, names_without, owed_lines, standing,
};
use reference_index::push_back;
use reference_records::{first_of, refused_if};
use reference_world::{Line, Quota, one};
use script_lang::Named;
use std::alloc::{AllocError, Global};
use std::mem::replace;
use tm_types::Event;
use vms_base::{Id, Label, Reply, RmName, Serial};

impl Node {
    /// Whether a manager is declared.
    pub fn is_declared(&self, rm: &RmName) -> bool
        ensures { result ≡ answers.is_declared (node_of self.now) rm.now }
    {
        is_among(self.declared.as_slice(), rm)
    }

    fn declared_manager(&self, rm: &RmName) -> Option<Line>
        ensures { option_map line_of result ≡ answers.declared_manager (node_of self.now) rm.now }
    {
        refused_if(!self.is_declared(rm), Line::NoSuchManager)
    }

    // The serial that a label or a serial names.
    fn serial_named(&self, shared: &Shared, who: &Named) -> Option<Id>
        ensures { option_map id_of result ≡ answers.serial_named (shared_of shared.now) (node_of self.now) (named_of who.now) }
    {
        match who {
            Named::Label(label) => shared.serial_labelled(&self.name, label),
            Named::Serial(serial) => Some(serial.0),
        }
    }

    fn known_serial(&self, serial: &Id) -> Known
        ensures { known_of result ≡ answers.known_serial (node_of self.now) (id_of serial.now) }
    {
        match self.table.branch(Serial(*serial)) {
            Some(b) => Known::Unsettled(b.copy()),
            None => match self.table.committed(Serial(*serial)) {
                Some(r) => Known::Recorded(r.copy()),
                None => Known::Unheard,
            },
        }
    }

    // What the node knows of the branch that a label or a serial names.
    fn known(&self, shared: &Shared, who: &Named) -> Known
        ensures { known_of result ≡ answers.known (shared_of shared.now) (node_of self.now) (named_of who.now) }
    {
        match self.serial_named(shared, who) {
            Some(serial) => self.known_serial(&serial),
            None => Known::Unheard,
        }
    }

    // Whether a manager has joined an unsettled branch from this place on.
    fn has_joined_from(&self, place: u32, rm: &RmName) -> bool
        ensures { result ≡ list_any (answers.has_joined rm.now) (drop place self.now.table.table) }
    {
        if self.table.branch_count() <= place as usize {
            return false;
        }
        match self.table.branch_at(place) {
            None => false,
            Some(b) => has_joined(b, rm) || self.has_joined_from(place + 1, rm),
        }
    }

    /// What refuses DECLARE_RM, but for its quota.
    pub fn early_declare(&self, rm: &RmName) -> Option<Line>
        ensures { (s : world.Shared) → option_map line_of result ≡ (service (said.DeclareRm rm.now)).refused_before_reading s (node_of self.now) }
    {
        refused_if(self.is_declared(rm), Line::WrongState)
    }

    /// As many managers are declared as may be.
    pub fn more_declared(&self) -> Option<Line>
        ensures { option_map line_of result ≡ answers.more_declared (node_of self.now) }
    {
        refused_if(
            64 <= self.declared.len(),
            Line::QuotaExceeded(Quota::Declared, 64),
        )
    }

    /// What refuses JOIN_RM, but for its quota.
    pub fn early_join(&self, shared: &Shared, label: &Label, rm: &RmName) -> Option<Line>
        ensures { option_map line_of result ≡ (service (said.JoinRm label.now rm.now)).refused_before_reading (shared_of shared.now) (node_of self.now) }
    {
        let found = self.branch_labelled(shared, label);
        first_of(
            self.made_label(shared, label),
            first_of(
                self.unsettled_label(shared, label),
                first_of(self.declared_manager(rm), join_refused(&found, rm)),
            ),
        )
    }

    /// What refuses ACK_EVENT.
    pub fn early_reply(
        &self,
        shared: &Shared,
        who: &Named,
        rm: &RmName,
        reply: Reply,
    ) -> Option<Line>
        ensures { option_map line_of result ≡ (service (said.AckEvent (named_of who.now) rm.now (reply_of reply))).refused_before_reading (shared_of shared.now) (node_of self.now) }
    {
        let heard = self.known(shared, who);
        first_of(
            self.made_name(shared, who),
            first_of(
                known_branch(&heard),
                first_of(
                    self.declared_manager(rm),
                    first_of(known_manager(rm, &heard), awaited_reply(rm, reply, &heard)),
                ),
            ),
        )
    }

    /// What refuses FORGET_RM.
    pub fn early_forget(&self, rm: &RmName) -> Option<Line>
        ensures { (s : world.Shared) → option_map line_of result ≡ (service (said.ForgetRm rm.now)).refused_before_reading s (node_of self.now) }
    {
        first_of(
            self.declared_manager(rm),
            refused_if(self.has_joined_from(0, rm), Line::WrongState),
        )
    }

    /// DECLARE_RM.
    pub fn declare(&mut self, alloc: Global, rm: &RmName) -> Result<Vec<Line>, AllocError>
        ensures { (s : world.Shared) → IfOk result (λ lines. Does s (node_of self.old) (service (said.DeclareRm rm.now)) lines.items (node_of self.new) s) }
    {
        let committed = self.durable.committed(alloc)?;
        let mut lines = owed_lines(alloc, rm, committed.as_slice())?;
        push_back(&mut self.declared, *rm)?;
        push_back(&mut lines, Line::Normal)?;
        Ok(lines)
    }

    /// FORGET_RM.
    pub fn forget_manager(&mut self, alloc: Global, rm: &RmName) -> Result<Vec<Line>, AllocError>
        ensures { (s : world.Shared) → IfOk result (λ lines. Does s (node_of self.old) (service (said.ForgetRm rm.now)) lines.items (node_of self.new) s) }
    {
        let names = replace(&mut self.declared, Vec::new(alloc));
        self.declared = names_without(alloc, names, rm)?;
        one(alloc, Line::Normal)
    }

    /// JOIN_RM.
    pub fn join(
        &mut self,
        alloc: Global,
        shared: &mut Shared,
        label: &Label,
        rm: &RmName,
    ) -> Result<Vec<Line>, AllocError>
        requires early { (service (said.JoinRm label.now rm.now)).refused_before_reading (shared_of shared.old) (node_of self.old) ≡ None }
        requires late { (service (said.JoinRm label.now rm.now)).refused_after_reading (shared_of shared.old) (node_of self.old) ≡ None }
        requires can { CanTell (node_of self.old) }
        ensures does { IfOk result (λ lines. Does (shared_of shared.old) (node_of self.old) (service (said.JoinRm label.now rm.now)) lines.items (node_of self.new) (shared_of shared.new)) }
        ensures time { (count : ℕ) → HasTime (count + 2048) (node_of self.old) → OnOk result (HasTime count (node_of self.new)) }
    {
        let Some(b) = self.branch_labelled(shared, label) else {
            return one(alloc, Line::Normal);
        };
        self.told(alloc, shared, &joins(&b, rm), Line::Normal)
    }

    /// ACK_EVENT.
    pub fn reply(
        &mut self,
        alloc: Global,
        shared: &mut Shared,
        who: &Named,
        rm: &RmName,
        reply: Reply,
    ) -> Result<Vec<Line>, AllocError>
        requires early { (service (said.AckEvent (named_of who.now) rm.now (reply_of reply))).refused_before_reading (shared_of shared.old) (node_of self.old) ≡ None }
        requires can { CanTell (node_of self.old) }
        ensures does { IfOk result (λ lines. Does (shared_of shared.old) (node_of self.old) (service (said.AckEvent (named_of who.now) rm.now (reply_of reply))) lines.items (node_of self.new) (shared_of shared.new)) }
        ensures time { (count : ℕ) → HasTime (count + 2048) (node_of self.old) → OnOk result (HasTime count (node_of self.new)) }
    {
        let Some(serial) = self.serial_named(shared, who) else {
            return one(alloc, Line::Normal);
        };
        let event = Event::Replied {
            serial: Serial(serial),
            rm: *rm,
            reply,
        };
        self.told(alloc, shared, &event, Line::Normal)
    }

    /// GETDTI.
    pub fn get_dti(
        &self,
        alloc: Global,
        shared: &Shared,
        who: &Named,
    ) -> Result<Vec<Line>, AllocError>
        ensures { IfOk result (λ lines. Does (shared_of shared.now) (node_of self.now) (service (said.GetDti (named_of who.now))) lines.items (node_of self.now) (shared_of shared.now)) }
    {
        let heard = self.known(shared, who);
        one(alloc, Line::NormalStanding(standing(&heard)))
    }
}
