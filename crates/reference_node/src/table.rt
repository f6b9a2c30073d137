// What a node's table is told, and what becomes of that.
ghost use Rattle.std.specs.Prelude.{◌≡◌, ◌+◌, ◌<◌, ◌^◌, ◌++◌, ℕ, List, [], ◌∷◌, true, map, option_map, length, OnOk, IfOk};
ghost use Rattle.vms_model.specs.Transactions.{Abort, SegFail};
ghost use Rattle.world_laws.specs.transcript_model.Lines as model;
ghost use Rattle.unit_laws.specs.Journal.{end_of};
ghost use Rattle.commit_protocol.specs.Allowed.{allowed};
ghost use Rattle.commit_protocol.specs.Effects.{act_effects, effects_of};
ghost use Rattle.commit_protocol.specs.Messages.{LogRecord};
ghost use Rattle.commit_protocol.specs.Table as protocol;
ghost use Rattle.commit_protocol.specs.Table.{Act, Branch, Told, Tm as TmSaid, holding as managers_holding};
ghost use Rattle.world_laws.specs.log_laws.Slots.{forgotten, put_in};
ghost use Rattle.row_laws.specs.May.{IsOfMessage};
ghost use Rattle.world_laws.specs.run_model.Answers as answers;
ghost use Rattle.world_laws.specs.run_model.World as world;
ghost use Rattle.vms_base.specs.Ids.{id_of};
ghost use Rattle.vms_base.specs.Outcomes.{outcome_of, reason_of};
ghost use Rattle.tm_types.specs.Effects.{effect_of};
ghost use Rattle.tm_types.specs.Events.{event_of};
ghost use Rattle.tm_types.specs.Parts.{log_record_of, rm_event_of};
ghost use Rattle.reference_world.specs.Standing.{branch_key_of, outcome_by, settlement_of, line_of};
ghost use Rattle.reference_disk.specs.Disks.{logged_tid, one_line};
ghost use Rattle.reference_node.specs.Nodes.{node_of, released_by, settled_by};
ghost use Rattle.reference_branches.specs.Branches.{shared_of, tid_among};
ghost use Rattle.reference_branches.specs.Lines.{key_line, settlement_line};
ghost use Rattle.reference_node.specs.Telling.{AllTellable, Applies, AppliesAll, AppliesEvent, CanTell, HasTime, IsTellable, MayApply, prepared_by, settled_logged, settlement_so, with_log};

use crate::node::Node;
use reference_branches::{Shared, branch_among, branch_in, reason_for, settled_line};
use reference_index::{push_back, push_front};
use reference_units::released;
use reference_world::{BranchKey, Line, Settlement, WrittenMoment};
use std::alloc::{AllocError, Global};
use std::mem::replace;
use tm_types::{Effect, Effects, Event};
use vms_base::{Id, LogRec, NodeName, Reason, RmEvent, RmList, RmName};

// The transaction of a message; no other event tells of a branch that joins or starts.
fn transaction_told(event: &Event) -> Id
    ensures { IsOfMessage (id_of result) (event_of event.now) }
{
    match event {
        Event::Got(m) => m.tid.0,
        _ => Id {
            node: NodeName::default(),
            boot: 0,
            seq: 0,
        },
    }
}

/// Lines, and perhaps one before them.
pub fn with_line(line: Option<Line>, lines: Vec<Line>) -> Result<Vec<Line>, AllocError>
    ensures { IfOk result (λ v. map line_of v.items ≡ one_line (option_map line_of line) ++ map line_of lines.items) }
{
    let mut all = lines;
    if let Some(first) = line {
        push_front(&mut all, first)?;
    }
    Ok(all)
}

impl Node {
    // A branch holds no key any more.
    fn release(&mut self, alloc: Global, serial: &Id) -> Result<(), AllocError>
        ensures { OnOk result (node_of self.new ≡ released_by (id_of serial.now) (node_of self.old)) }
    {
        let locks = replace(&mut self.locks, Vec::new(alloc));
        self.locks = released(alloc, locks, serial)?;
        Ok(())
    }

    /// The settlement of a branch at the next moment.
    pub fn next_settlement(&self, branch: &BranchKey, reason: Option<Reason>) -> Settlement
        requires time { HasTime 1 (node_of self.now) }
        ensures reason { result.reason ≡ reason }
        ensures moment { result.moment.hundredths ≡ world.next_moment (node_of self.now) }
        ensures settlement { settlement_of result ≡ record { tid = (branch_key_of branch.now).tid; serial = (branch_key_of branch.now).serial; outcome = outcome_by reason; reason = option_map reason_of reason; moment = world.next_moment (node_of self.now) } }
    {
        Settlement {
            tid: branch.tid,
            serial: branch.serial,
            reason,
            moment: WrittenMoment {
                hundredths: self.next_moment(),
            },
        }
    }

    // What the node has once a branch is settled.
    fn settle(&mut self, alloc: Global, s: &Settlement) -> Result<Line, AllocError>
        requires { end_of (node_of self.old).durable.units + 48 < 2 ^ 64 }
        ensures node { OnOk result (node_of self.new ≡ settled_by (settlement_of s.now) (node_of self.old)) }
        ensures line { IfOk result (λ l. line_of l ≡ settlement_line (settlement_of s.now)) }
    {
        self.durable.settle(alloc, s)?;
        self.release(alloc, &s.serial)?;
        push_front(&mut self.settled, *s)?;
        Ok(settled_line(s))
    }

    /// A unit that a fall left is undone.
    pub fn undo(&mut self, alloc: Global, branch: &BranchKey) -> Result<Line, AllocError>
        requires time { HasTime 1 (node_of self.old) }
        requires unknown { protocol.cut (branch_key_of branch.now) (node_of self.old).volatile.branches ≡ (node_of self.old).volatile.branches }
        ensures node { OnOk result (node_of self.new ≡ world.acted (world.Tables (protocol.Undoes (branch_key_of branch.now)) (world.next_moment (node_of self.old))) (node_of self.old)) }
        ensures line { IfOk result (λ l. line_of l ≡ answers.settled_line (branch_key_of branch.now) Abort SegFail (world.next_moment (node_of self.old))) }
    {
        let s = self.next_settlement(branch, Some(Reason::SegFail));
        self.settle(alloc, &s)
    }

    // A branch is settled, with its committed record where there is one.
    fn settle_branch(
        &mut self,
        alloc: Global,
        branch: &BranchKey,
        reason: Option<Reason>,
        rec: &Option<LogRec>,
    ) -> Result<Line, AllocError>
        requires { HasTime 1 (node_of self.old) }
        ensures node { OnOk result (node_of self.new ≡ settled_logged (option_map log_record_of rec.now) (settlement_so (branch_key_of branch.now) (outcome_by reason) (option_map reason_of reason) (world.next_moment (node_of self.old))) (node_of self.old)) }
        ensures line { IfOk result (λ l. line_of l ≡ settlement_line (settlement_so (branch_key_of branch.now) (outcome_by reason) (option_map reason_of reason) (world.next_moment (node_of self.old)))) }
    {
        let s = self.next_settlement(branch, reason);
        self.durable.log_settled(alloc, &branch.serial, rec)?;
        self.settle(alloc, &s)
    }

    // A branch is prepared, with these managers.
    fn prepare(
        &mut self,
        alloc: Global,
        branch: &BranchKey,
        rms: &RmList,
    ) -> Result<Line, AllocError>
        ensures node { (b : Branch) → b.key ≡ branch_key_of branch.now → managers_holding b.managers ≡ rms.now → OnOk result (node_of self.new ≡ prepared_by b (node_of self.old)) }
        ensures line { IfOk result (λ l. line_of l ≡ key_line (branch_key_of branch.now)) }
    {
        self.durable.prepare(alloc, branch, rms)?;
        push_back(&mut self.preparation, *branch)?;
        Ok(Line::Prepared(*branch))
    }

    // A branch is read-only.
    fn leave(
        &mut self,
        alloc: Global,
        shared: &mut Shared,
        branch: &BranchKey,
    ) -> Result<Line, AllocError>
        ensures node { OnOk result (node_of self.new ≡ released_by (branch_key_of branch.now).serial (node_of self.old)) }
        ensures shared { OnOk result (shared_of shared.new ≡ record (shared_of shared.old) { read_only = branch_key_of branch.now ∷ (shared_of shared.old).read_only }) }
        ensures line { IfOk result (λ l. line_of l ≡ model.ReadOnly (branch_key_of branch.now).tid (branch_key_of branch.now).serial) }
    {
        self.release(alloc, &branch.serial)?;
        push_front(&mut shared.read_only, *branch)?;
        Ok(Line::ReadOnly(*branch))
    }

    // A committed record is written again.
    fn keep(&mut self, alloc: Global, r: &LogRec) -> Result<(), AllocError>
        ensures { OnOk result (node_of self.new ≡ with_log (put_in (log_record_of r.now) (node_of self.old).durable.log) (node_of self.old)) }
    {
        self.durable.keep(alloc, r.copy())
    }

    // The committed record of this serial goes.
    fn forget(&mut self, alloc: Global, serial: &Id) -> Result<Line, AllocError>
        ensures node { OnOk result (node_of self.new ≡ with_log (forgotten (id_of serial.now) (node_of self.old).durable.log) (node_of self.old)) }
        ensures line { IfOk result (λ l. line_of l ≡ model.Forgot (logged_tid (id_of serial.now) (node_of self.old).durable.log) (id_of serial.now)) }
    {
        Ok(Line::Forgot(self.durable.forget(alloc, serial)?))
    }

    // The line of an event that a manager is told, where it is declared.
    fn event_told(&self, event: RmEvent, branch: &BranchKey, rm: &RmName) -> Option<Line>
        ensures { one_line (option_map line_of result) ≡ answers.table_lines (node_of self.now) (Told (rm_event_of event) (branch_key_of branch.now) rm.now) }
    {
        if self.is_declared(rm) {
            Some(Line::ManagerTold(event, *branch, *rm))
        } else {
            None
        }
    }

    // An effect is done, and shown where it has a line. These were the branches before the row, and this is the transaction of its message.
    fn apply(
        &mut self,
        alloc: Global,
        shared: &mut Shared,
        before: &[BranchKey],
        tid: &Id,
        effect: &Effect,
    ) -> Result<Option<Line>, AllocError>
        requires { HasTime 1 (node_of self.old) }
        ensures { (a : Act) (rs : List LogRecord) → act_effects a rs ≡ effect_of effect.now ∷ [] → IsTellable (map branch_key_of before.now) (id_of tid.now) a rs (node_of self.old).durable.log →
            IfOk result (λ line. Applies a rs (shared_of shared.old) (node_of self.old) line (shared_of shared.new) (node_of self.new)) }
    {
        match effect {
            Effect::Prepare { serial, rms } => {
                let branch = branch_among(before, &serial.0);
                Ok(Some(self.prepare(alloc, &branch, rms)?))
            }
            Effect::Settle {
                serial,
                outcome,
                reason,
                rec,
            } => {
                let branch = branch_among(before, &serial.0);
                let why = reason_for(*outcome, *reason);
                Ok(Some(self.settle_branch(alloc, &branch, why, rec)?))
            }
            Effect::ReadOnly { serial } => {
                let branch = branch_among(before, &serial.0);
                Ok(Some(self.leave(alloc, shared, &branch)?))
            }
            Effect::Keep(r) => {
                self.keep(alloc, r)?;
                Ok(None)
            }
            Effect::Forget { serial } => Ok(Some(self.forget(alloc, &serial.0)?)),
            Effect::Send(m) => Ok(Some(shared.send(m)?)),
            Effect::Tell {
                event,
                tid,
                serial,
                rm,
            } => Ok(self.event_told(*event, &branch_in(&tid.0, &serial.0), rm)),
            Effect::Joined { serial } => {
                let branch = branch_in(tid, &serial.0);
                push_front(&mut shared.accepted, branch)?;
                Ok(Some(Line::Joined(branch)))
            }
            Effect::Started { serial } => Ok(Some(Line::Started(branch_in(tid, &serial.0)))),
            Effect::Ended { tid, reason } => Ok(Some(Line::Ended(tid.0, *reason))),
        }
    }

    // Effects are done one after another.
    fn apply_all(
        &mut self,
        alloc: Global,
        shared: &mut Shared,
        before: &[BranchKey],
        tid: &Id,
        effects: &[Effect],
    ) -> Result<Vec<Line>, AllocError>
        requires may { MayApply (map branch_key_of before.now) (id_of tid.now) (map effect_of effects.now) (node_of self.old) }
        requires time { HasTime (length effects.now) (node_of self.old) }
        ensures applies { (acts : List Act) (tm : TmSaid) → effects_of acts tm.records ≡ map effect_of effects.now → AllTellable (map branch_key_of before.now) (id_of tid.now) acts tm.records (node_of self.old).durable.log →
            IfOk result (λ lines. AppliesAll acts tm (shared_of shared.old) (node_of self.old) lines.items (shared_of shared.new) (node_of self.new)) }
        ensures time { (count : ℕ) → HasTime (count + length effects.now) (node_of self.old) → OnOk result (HasTime count (node_of self.new)) }
    {
        match effects {
            [] => Ok(Vec::new(alloc)),
            [first, rest @ ..] => {
                let line = self.apply(alloc, shared, before, tid, first)?;
                let lines = self.apply_all(alloc, shared, before, tid, rest)?;
                with_line(line, lines)
            }
        }
    }

    /// Tells the table an event, and shows what the node does then.
    pub fn tell(
        &mut self,
        alloc: Global,
        shared: &mut Shared,
        event: &Event,
    ) -> Result<Vec<Line>, AllocError>
        requires allowed { allowed (world.tm_of (node_of self.old)) (event_of event.now) ≡ true }
        requires can { CanTell (node_of self.old) }
        ensures tells { IfOk result (λ lines. AppliesEvent (event_of event.now) (shared_of shared.old) (node_of self.old) lines.items (shared_of shared.new) (node_of self.new)) }
        ensures time { (count : ℕ) → HasTime (count + 2048) (node_of self.old) → OnOk result (HasTime count (node_of self.new)) }
    {
        let before = self.keys(alloc)?;
        let tid = transaction_told(event);
        let mut effects = Effects::reserve(alloc)?;
        self.table.step(event, &mut effects);
        self.apply_all(alloc, shared, before.as_slice(), &tid, effects.items())
    }
}
