// What statements of transactions do that nothing refuses.
ghost use Rattle.std.specs.Prelude.{◌≡◌, ◌+◌, ◌<◌, ◌≤◌, ◌^◌, ℕ, true, Some, None, map, option_map, length, OnOk, IfOk};
ghost use Rattle.std.specs.Option.{option_and_then};
ghost use Rattle.vms_model.specs.Times.{CanBeWritten};
ghost use Rattle.vms_model.specs.Limits.{slot_limit};
ghost use Rattle.script_lang.specs.script_model.Statements as said;
ghost use Rattle.script_lang.specs.Statements.{named_of};
ghost use Rattle.world_laws.specs.transcript_model.Lines as model;
ghost use Rattle.commit_protocol.specs.Allowed.{allowed, may_end};
ghost use Rattle.commit_protocol.specs.Rows as rows;
ghost use Rattle.world_laws.specs.run_model.Answers as answers;
ghost use Rattle.world_laws.specs.run_model.Answers.{service};
ghost use Rattle.world_laws.specs.run_model.World as world;
ghost use Rattle.world_laws.specs.run_model.World.{tm_of};
ghost use Rattle.vms_base.specs.Ids.{id_of};
ghost use Rattle.tm_types.specs.Branches.{branch_of as branch_said, moment_of};
ghost use Rattle.tm_types.specs.Events.{event_of};
ghost use Rattle.tm_types.specs.Parts.{child_of, manager_of};
ghost use Rattle.reference_world.specs.Standing.{label_of, line_of};
ghost use Rattle.reference_node.specs.Nodes.{node_of, Does};
ghost use Rattle.reference_branches.specs.Branches.{shared_of};
ghost use Rattle.reference_branches.specs.Lines.{answer_else, answer_shown};
ghost use Rattle.reference_node.specs.Telling.{CanTell, HasTime, TellsThen};

use crate::node::Node;
use reference_branches::{Shared, authorises, begins, branch_label, end_answer};
use reference_index::{push_back, push_front};
use reference_world::{LabelEntry, Line, one};
use script_lang::Named;
use std::alloc::{AllocError, Global};
use tm_types::Event;
use vms_base::{Id, Label, Moment, NodeName, Reason, Tid};

impl Node {
    // The label of the first branch of a transaction.
    fn first_label(&self, name: &Label, tid: &Id) -> LabelEntry
        ensures { label_of result ≡ record { name = name.now; node = self.now.name; tid = id_of tid.now; bid = None; serial = Some (id_of tid.now) } }
    {
        LabelEntry {
            name: *name,
            node: self.name,
            tid: *tid,
            bid: None,
            serial: Some(*tid),
        }
    }

    /// Tells the table an event, and answers behind what it shows.
    pub fn told(
        &mut self,
        alloc: Global,
        shared: &mut Shared,
        event: &Event,
        answer: Line,
    ) -> Result<Vec<Line>, AllocError>
        requires allowed { allowed (tm_of (node_of self.old)) (event_of event.now) ≡ true }
        requires can { CanTell (node_of self.old) }
        ensures tells { IfOk result (λ lines. TellsThen (event_of event.now) (line_of answer) (shared_of shared.old) (node_of self.old) lines.items (shared_of shared.new) (node_of self.new)) }
        ensures time { (count : ℕ) → HasTime (count + 2048) (node_of self.old) → OnOk result (HasTime count (node_of self.new)) }
    {
        let mut lines = self.tell(alloc, shared, event)?;
        push_back(&mut lines, answer)?;
        Ok(lines)
    }

    // When a transaction that begins now is due.
    fn due_after(&self, seconds: Option<u32>) -> Option<Moment>
        requires { CanBeWritten self.now.clock }
        ensures { option_map moment_of result ≡ answers.due_after (node_of self.now) seconds }
    {
        match seconds {
            None => None,
            Some(count) => Some(Moment(self.clock + 100 * u64::from(count))),
        }
    }

    /// START_TRANS.
    pub fn start(
        &mut self,
        alloc: Global,
        shared: &mut Shared,
        label: &Label,
        seconds: Option<u32>,
    ) -> Result<Vec<Line>, AllocError>
        requires room { answers.more_branches (node_of self.old) ≡ None }
        requires slots { length (node_of self.old).durable.log ≤ slot_limit }
        requires drawn { self.old.drawn + 1 < 2 ^ 32 }
        requires can { CanTell (node_of self.old) }
        ensures does { IfOk result (λ lines. Does (shared_of shared.old) (node_of self.old) (service (said.StartTrans label.now seconds)) lines.items (node_of self.new) (shared_of shared.new)) }
        ensures time { (count : ℕ) → HasTime (count + 2048) (node_of self.old) → OnOk result (HasTime count (node_of self.new)) }
    {
        let due = self.due_after(seconds);
        let tid = self.draw();
        shared.make(alloc, &self.first_label(label, &tid))?;
        let event = Event::Start { tid: Tid(tid), due };
        self.told(alloc, shared, &event, Line::NormalId(tid))
    }

    /// ADD_BRANCH.
    pub fn add_branch(
        &mut self,
        alloc: Global,
        shared: &mut Shared,
        label: &Label,
        other: &NodeName,
        new: &Label,
    ) -> Result<Vec<Line>, AllocError>
        requires state { answers.in_state answers.is_first_active (answers.branch_labelled (shared_of shared.old) (node_of self.old) label.now) ≡ None }
        requires bids { option_and_then answers.more_bids (answers.branch_labelled (shared_of shared.old) (node_of self.old) label.now) ≡ None }
        requires drawn { self.old.drawn + 1 < 2 ^ 32 }
        requires can { CanTell (node_of self.old) }
        requires there { answers.unsettled_label (shared_of shared.old) (node_of self.old) label.now ≡ None }
        ensures does { IfOk result (λ lines. Does (shared_of shared.old) (node_of self.old) (service (said.AddBranch label.now other.now new.now)) lines.items (node_of self.new) (shared_of shared.new)) }
        ensures time { (count : ℕ) → HasTime (count + 2048) (node_of self.old) → OnOk result (HasTime count (node_of self.new)) }
    {
        let Some(b) = self.branch_labelled(shared, label) else {
            return one(alloc, Line::Normal);
        };
        let bid = self.draw();
        shared.make(alloc, &branch_label(new, other, &b, &bid))?;
        let event = authorises(&b, &bid);
        self.told(alloc, shared, &event, Line::NormalId(bid))
    }

    /// START_BRANCH.
    pub fn start_branch(
        &mut self,
        alloc: Global,
        shared: &mut Shared,
        label: &Label,
    ) -> Result<Vec<Line>, AllocError>
        requires room { answers.more_branches (node_of self.old) ≡ None }
        requires slots { length (node_of self.old).durable.log ≤ slot_limit }
        requires drawn { self.old.drawn + 1 < 2 ^ 32 }
        requires can { CanTell (node_of self.old) }
        requires made { answers.made_label (shared_of shared.old) (node_of self.old) label.now ≡ None }
        requires authorised { answers.of_label (shared_of shared.old) (node_of self.old) label.now answers.authorised ≡ None }
        ensures does { IfOk result (λ lines. Does (shared_of shared.old) (node_of self.old) (service (said.StartBranch label.now)) lines.items (node_of self.new) (shared_of shared.new)) }
        ensures time { (count : ℕ) → HasTime (count + 2048) (node_of self.old) → OnOk result (HasTime count (node_of self.new)) }
    {
        let Some(l) = shared.labelled(&self.name, label) else {
            return one(alloc, Line::Normal);
        };
        let Some(bid) = &l.bid else {
            return one(alloc, Line::Normal);
        };
        let serial = self.draw();
        shared.number(alloc, &l.name, &serial)?;
        let event = begins(&l, &serial, bid);
        let mut serials = Vec::new(alloc);
        push_front(&mut serials, serial)?;
        let pending = Line::Pending(serials, Vec::new(alloc));
        self.told(alloc, shared, &event, pending)
    }

    /// END_BRANCH.
    pub fn end_branch(
        &mut self,
        alloc: Global,
        shared: &mut Shared,
        label: &Label,
    ) -> Result<Vec<Line>, AllocError>
        requires state { answers.in_state may_end (answers.branch_labelled (shared_of shared.old) (node_of self.old) label.now) ≡ None }
        requires can { CanTell (node_of self.old) }
        ensures does { IfOk result (λ lines. Does (shared_of shared.old) (node_of self.old) (service (said.EndBranch label.now)) lines.items (node_of self.new) (shared_of shared.new)) }
        ensures time { (count : ℕ) → HasTime (count + 2048) (node_of self.old) → OnOk result (HasTime count (node_of self.new)) }
    {
        let Some(b) = self.branch_labelled(shared, label) else {
            return one(alloc, Line::Normal);
        };
        let event = Event::EndBranch { serial: b.serial };
        self.told(alloc, shared, &event, Line::Normal)
    }

    /// END_TRANS.
    pub fn end(
        &mut self,
        alloc: Global,
        shared: &mut Shared,
        label: &Label,
    ) -> Result<Vec<Line>, AllocError>
        requires state { answers.in_state answers.is_first_active (answers.branch_labelled (shared_of shared.old) (node_of self.old) label.now) ≡ None }
        requires can { CanTell (node_of self.old) }
        ensures does { IfOk result (λ lines. Does (shared_of shared.old) (node_of self.old) (service (said.EndTrans label.now)) lines.items (node_of self.new) (shared_of shared.new)) }
        ensures time { (count : ℕ) → HasTime (count + 2048) (node_of self.old) → OnOk result (HasTime count (node_of self.new)) }
    {
        let Some(b) = self.branch_labelled(shared, label) else {
            return one(alloc, Line::Normal);
        };
        let mut lines = self.tell(alloc, shared, &Event::EndTrans { tid: b.tid })?;
        let answer = end_answer(alloc, lines.as_slice(), &b)?;
        push_back(&mut lines, answer)?;
        Ok(lines)
    }

    /// ABORT_TRANS.
    pub fn abort(
        &mut self,
        alloc: Global,
        shared: &mut Shared,
        label: &Label,
    ) -> Result<Vec<Line>, AllocError>
        requires state { answers.in_state answers.is_open (answers.branch_labelled (shared_of shared.old) (node_of self.old) label.now) ≡ None }
        requires can { CanTell (node_of self.old) }
        ensures does { IfOk result (λ lines. Does (shared_of shared.old) (node_of self.old) (service (said.AbortTrans label.now)) lines.items (node_of self.new) (shared_of shared.new)) }
        ensures time { (count : ℕ) → HasTime (count + 2048) (node_of self.old) → OnOk result (HasTime count (node_of self.new)) }
    {
        let Some(b) = self.branch_labelled(shared, label) else {
            return one(alloc, Line::Normal);
        };
        let event = Event::Abort {
            serial: b.serial,
            reason: Reason::Aborted,
        };
        self.told(alloc, shared, &event, Line::Normal)
    }

    /// INQUIRE.
    pub fn inquire(
        &mut self,
        alloc: Global,
        shared: &mut Shared,
        who: &Named,
    ) -> Result<Vec<Line>, AllocError>
        requires state { answers.in_state answers.is_in_doubt (answers.branch_named (shared_of shared.old) (node_of self.old) (named_of who.now)) ≡ None }
        requires can { CanTell (node_of self.old) }
        ensures does { IfOk result (λ lines. Does (shared_of shared.old) (node_of self.old) (service (said.Inquire (named_of who.now))) lines.items (node_of self.new) (shared_of shared.new)) }
        ensures time { (count : ℕ) → HasTime (count + 2048) (node_of self.old) → OnOk result (HasTime count (node_of self.new)) }
    {
        let Some(b) = self.branch_named(shared, who) else {
            return one(alloc, Line::Normal);
        };
        let event = Event::Inquire { serial: b.serial };
        self.told(alloc, shared, &event, Line::Normal)
    }

    /// CLOCK.
    pub fn set_clock(&mut self, alloc: Global, now: Moment) -> Result<Vec<Line>, AllocError>
        ensures { (s : world.Shared) → IfOk result (λ lines. Does s (node_of self.old) (service (said.Clock (moment_of now))) lines.items (node_of self.new) s) }
    {
        self.clock = now.0;
        one(alloc, Line::Normal)
    }
}
