// One effect of a row after another.
ghost use Rattle.std.specs.Prelude.{◌≡◌, ◌≤◌, ◌+◌, ℕ, List, [], ◌∷◌, None, map, option_copied, vec_capacity};
ghost use Rattle.vms_model.specs.Limits.{branch_limit, moment_ceiling};
ghost use Rattle.net_wire.specs.commit_protocol.Effects.{PrepareEffect, SettleEffect, KeepEffect, ForgetEffect, ReadOnlyEffect};
ghost use Rattle.net_wire.specs.commit_protocol.Table.{Act as ActSaid, Tm as TmSaid, without};
ghost use Rattle.recovery_units.specs.lmcp_log.Log.{slot_of};
ghost use Rattle.net_wire.specs.Messages.{message_of};
ghost use Rattle.tm_types.specs.Effects.{effect_of};
ghost use Rattle.tm_types.specs.Events.{event_of};
ghost use Rattle.tm_types.specs.Parts.{log_record_of, rm_event_of};
ghost use Rattle.vms_base.specs.Ids.{serial_of, tid_of};
ghost use Rattle.vms_base.specs.Outcomes.{reason_of};
ghost use Rattle.vms_model.specs.Ids.{Id as IdSaid};
ghost use Rattle.vms_model.specs.Transactions.{Commit as ToCommit, Abort as ToAbort, Reason as ReasonSaid};
ghost use Rattle.row_laws.specs.run_model.Answers.{sent_line};
ghost use Rattle.row_laws.specs.run_model.World.{posted};
ghost use Rattle.run_shared.specs.Sharing.{SharedState as SharedSaid};
ghost use Rattle.emitter_model.specs.Emitting.{Emits, Since, Shown as ShownSaid};
ghost use Rattle.recovery_units.specs.Laws.{KeepsNodes};
ghost use Rattle.node_table.specs.Code.{stored_of};
ghost use Rattle.node_table.specs.Growing.{IsEarlyFor};
ghost use Rattle.node_table.specs.Telling.{MayBegin, MayTellAll, MayTellOne, TellsAll, TellsOne, TellsOneWith, begun_by, done, event_lines};

use crate::stored::Stored;
use block_disk::Disk;
use careful_write::Down;
use net_wire::Message;
use participants::Rms;
use recovery_units::RecoveryUnits;
use run_shared::Shared;
use tm_types::{Effect, Event, same_id};
use transcript::{Emit, Form};
use vms_base::{LogRec, Moment, Outcome, Reason, RmEvent, RmList, RmName, Serial, Tid};

impl<D: Disk, U: RecoveryUnits> Stored<D, U> {
    // Does these effects of a row, one after another, and shows each. An event to a resource manager is shown where it is one of these.
    pub(crate) fn tell_all<E: Emit>(
        &mut self,
        managers: &Rms,
        effects: &[Effect],
        tid: &Tid,
        clock: Moment,
        shared: &mut Shared,
        out: &mut E,
    ) -> Result<(), Down>
        requires laws { KeepsNodes }
        requires may { (tm : TmSaid) × (acts : List ActSaid) × MayTellAll (map effect_of effects.now) (tid_of tid.now) acts tm (stored_of U.state self.old) }
        requires early { IsEarlyFor (stored_of U.state self.old) }
        requires clock { clock.0 + branch_limit ≤ moment_ceiling }
        ensures place { E.place out.new ≡ E.place out.old }
        ensures tells { TellsAll managers.now result (map effect_of effects.now) (tid_of tid.now) clock.0 (stored_of U.state self.old) (stored_of U.state self.new) shared.old shared.new (E.shows out.old) (E.shows out.new) }
    {
        match effects {
            [] => Ok(()),
            [first, rest @ ..] => match self.tell_one(managers, first, tid, clock, shared, out) {
                Ok(()) => self.tell_all(managers, rest, tid, clock, shared, out),
                Err(down) => Err(down),
            },
        }
    }

    // Does one effect, and shows it.
    fn tell_one<E: Emit>(
        &mut self,
        managers: &Rms,
        effect: &Effect,
        tid: &Tid,
        clock: Moment,
        shared: &mut Shared,
        out: &mut E,
    ) -> Result<(), Down>
        requires laws { KeepsNodes }
        requires may { (tm : TmSaid) × (act : ActSaid) × MayTellOne (effect_of effect.now) (tid_of tid.now) act tm (stored_of U.state self.old) }
        requires early { IsEarlyFor (stored_of U.state self.old) }
        requires clock { clock.0 + branch_limit ≤ moment_ceiling }
        ensures place { E.place out.new ≡ E.place out.old }
        ensures tells { TellsOneWith managers.now result (effect_of effect.now) (tid_of tid.now) clock.0 (stored_of U.state self.old) (stored_of U.state self.new) shared.old shared.new (E.shows out.old) (E.shows out.new) }
    {
        match effect {
            Effect::Prepare { serial, rms } => self.prepare(*serial, rms, out),
            Effect::Settle {
                serial,
                outcome,
                reason,
                rec,
            } => match outcome {
                Outcome::Commit => self.commit(*serial, rec.as_ref(), clock, out),
                Outcome::Abort => self.abort(*serial, *reason, clock, out),
            },
            Effect::Keep(rec) => self.keep(rec),
            Effect::Forget { serial } => self.forget(*serial, out),
            Effect::ReadOnly { serial } => {
                self.leave(*serial, out);
                Ok(())
            }
            Effect::Send(message) => {
                send(message, shared, out);
                Ok(())
            }
            Effect::Tell {
                event,
                tid,
                serial,
                rm,
            } => {
                show_event(managers, *event, tid, serial, rm, out);
                Ok(())
            }
            Effect::Joined { serial } => {
                out.emit(&Form::Joined(*tid, *serial));
                Ok(())
            }
            Effect::Started { serial } => {
                out.emit(&Form::Started(*tid, *serial));
                Ok(())
            }
            Effect::Ended { tid, reason } => {
                out.emit(&Form::Ended(*tid, *reason));
                Ok(())
            }
        }
    }

    // A branch that an event begins gets its unit.
    pub(crate) fn begin(&mut self, event: &Event)
        requires may { MayBegin (event_of event.now) (U.state self.old.units) }
        ensures { stored_of U.state self.new ≡ record (stored_of U.state self.old) { units = begun_by (event_of event.now) (U.state self.old.units) } }
    {
        match event {
            Event::Start { tid, .. } => self.units.begin(*tid, Serial(tid.0)),
            Event::Begin { tid, serial, .. } => self.units.begin(*tid, *serial),
            _ => (),
        }
    }

    // A branch votes yes.
    fn prepare<E: Emit>(&mut self, serial: Serial, rms: &RmList, out: &mut E) -> Result<(), Down>
        requires may { (tid : IdSaid) × (tm : TmSaid) × (act : ActSaid) × MayTellOne (PrepareEffect (serial_of serial) rms.now) tid act tm (stored_of U.state self.old) }
        requires early { IsEarlyFor (stored_of U.state self.old) }
        ensures place { E.place out.new ≡ E.place out.old }
        ensures tells { (tid : IdSaid) (clock : ℕ) (s : SharedSaid) → TellsOne result (PrepareEffect (serial_of serial) rms.now) tid clock (stored_of U.state self.old) (stored_of U.state self.new) s s (E.shows out.old) (E.shows out.new) }
    {
        match self.units.prepare(&serial, &mut self.volume, rms) {
            Err(down) => Err(down),
            Ok(tid) => {
                self.room.in_doubt.push_reserved(serial);
                out.emit(&Form::Prepared(tid, serial));
                Ok(())
            }
        }
    }

    // A branch that has nothing to vote for is no more.
    fn leave<E: Emit>(&mut self, serial: Serial, out: &mut E)
        requires may { (tid : IdSaid) × (tm : TmSaid) × (act : ActSaid) × MayTellOne (ReadOnlyEffect (serial_of serial)) tid act tm (stored_of U.state self.old) }
        ensures place { E.place out.new ≡ E.place out.old }
        ensures tells { (tid : IdSaid) (clock : ℕ) (s : SharedSaid) → TellsOne done (ReadOnlyEffect (serial_of serial)) tid clock (stored_of U.state self.old) (stored_of U.state self.new) s s (E.shows out.old) (E.shows out.new) }
    {
        let tid = self.units.leave(&serial);
        out.emit(&Form::ReadOnly(tid, serial));
    }

    // A branch is committed, and the log has this of it from then on.
    fn commit<E: Emit>(
        &mut self,
        serial: Serial,
        logged: Option<&LogRec>,
        clock: Moment,
        out: &mut E,
    ) -> Result<(), Down>
        requires may { (tid : IdSaid) × (tm : TmSaid) × (act : ActSaid) × (reason : ReasonSaid) × MayTellOne (SettleEffect (serial_of serial) ToCommit reason (slot_of (option_copied logged))) tid act tm (stored_of U.state self.old) }
        requires early { IsEarlyFor (stored_of U.state self.old) }
        requires clock { clock.0 + branch_limit ≤ moment_ceiling }
        ensures place { E.place out.new ≡ E.place out.old }
        ensures tells { (tid : IdSaid) (reason : ReasonSaid) (s : SharedSaid) → TellsOne result (SettleEffect (serial_of serial) ToCommit reason (slot_of (option_copied logged.entry))) tid clock.0 (stored_of U.state self.old) (stored_of U.state self.new) s s (E.shows out.old) (E.shows out.new) }
    {
        match self.units.commit(&serial, &mut self.volume, logged, clock) {
            Err(down) => Err(down),
            Ok(unit) => {
                no_longer(&mut self.room.in_doubt, serial);
                out.emit(&Form::Committed(unit.tid, unit.serial, unit.moment));
                Ok(())
            }
        }
    }

    // A branch is aborted.
    fn abort<E: Emit>(
        &mut self,
        serial: Serial,
        reason: Reason,
        clock: Moment,
        out: &mut E,
    ) -> Result<(), Down>
        requires may { (tid : IdSaid) × (tm : TmSaid) × (act : ActSaid) × MayTellOne (SettleEffect (serial_of serial) ToAbort (reason_of reason) None) tid act tm (stored_of U.state self.old) }
        requires early { IsEarlyFor (stored_of U.state self.old) }
        requires clock { clock.0 + branch_limit ≤ moment_ceiling }
        ensures place { E.place out.new ≡ E.place out.old }
        ensures tells { (tid : IdSaid) (s : SharedSaid) → TellsOne result (SettleEffect (serial_of serial) ToAbort (reason_of reason) None) tid clock.0 (stored_of U.state self.old) (stored_of U.state self.new) s s (E.shows out.old) (E.shows out.new) }
    {
        match self.units.abort(&serial, &mut self.volume, reason, clock) {
            Err(down) => Err(down),
            Ok(unit) => {
                no_longer(&mut self.room.in_doubt, serial);
                out.emit(&Form::Aborted(unit.tid, unit.serial, reason, unit.moment));
                Ok(())
            }
        }
    }

    // A committed record has less to wait for.
    fn keep(&mut self, rec: &LogRec) -> Result<(), Down>
        requires may { (tid : IdSaid) × (tm : TmSaid) × (act : ActSaid) × MayTellOne (KeepEffect (log_record_of rec.now)) tid act tm (stored_of U.state self.old) }
        ensures tells { (tid : IdSaid) (clock : ℕ) (s : SharedSaid) (a : ShownSaid) → TellsOne result (KeepEffect (log_record_of rec.now)) tid clock (stored_of U.state self.old) (stored_of U.state self.new) s s a a }
    {
        self.units.keep_record(&mut self.volume, rec)
    }

    // A committed record goes.
    fn forget<E: Emit>(&mut self, serial: Serial, out: &mut E) -> Result<(), Down>
        requires may { (tid : IdSaid) × (tm : TmSaid) × (act : ActSaid) × MayTellOne (ForgetEffect (serial_of serial)) tid act tm (stored_of U.state self.old) }
        ensures place { E.place out.new ≡ E.place out.old }
        ensures tells { (tid : IdSaid) (clock : ℕ) (s : SharedSaid) → TellsOne result (ForgetEffect (serial_of serial)) tid clock (stored_of U.state self.old) (stored_of U.state self.new) s s (E.shows out.old) (E.shows out.new) }
    {
        match self.units.forget_record(&mut self.volume, &serial) {
            Err(down) => Err(down),
            Ok(tid) => {
                out.emit(&Form::Forgot(tid, serial));
                Ok(())
            }
        }
    }
}

// A branch is not in doubt any more.
fn no_longer(in_doubt: &mut Vec<Serial>, serial: Serial)
    ensures without { map serial_of in_doubt.new.items ≡ without (serial_of serial) (map serial_of in_doubt.old.items) }
    ensures room { vec_capacity in_doubt.old ≤ vec_capacity in_doubt.new }
{
    in_doubt.retain(|s| !same_id(&s.0, &serial.0));
}

// Shows what a resource manager of a branch is told, where it is declared.
fn show_event<E: Emit>(
    managers: &Rms,
    event: RmEvent,
    tid: &Tid,
    serial: &Serial,
    rm: &RmName,
    out: &mut E,
)
    ensures place { E.place out.new ≡ E.place out.old }
    ensures since { Since (E.shows out.old) (E.shows out.new) }
    ensures shows { Emits (E.shows out.old) (event_lines managers.now (rm_event_of event) (tid_of tid.now) (serial_of serial.now) rm.now) (E.shows out.new) }
{
    if !managers.is_declared(rm) {
        return;
    }
    out.emit(&Form::ManagerTold(event, *tid, *serial, *rm));
}

// Sends a message, and shows it with its number, or as one that gets none.
fn send<E: Emit>(message: &Message, shared: &mut Shared, out: &mut E)
    ensures place { E.place out.new ≡ E.place out.old }
    ensures since { Since (E.shows out.old) (E.shows out.new) }
    ensures shows { Emits (E.shows out.old) (sent_line (message_of message.now) shared.old.wire ∷ []) (E.shows out.new) }
    ensures posted { shared.new ≡ record shared.old { wire = posted (message_of message.now) shared.old.wire } }
{
    match shared.send(message) {
        Some(number) => out.emit(&Form::Sent(number, message)),
        None => out.emit(&Form::Unsent(message)),
    }
}
