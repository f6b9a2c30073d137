//! Resource managers: what is asked of a node that is up, and what it knows of a branch.
ghost use Rattle.std.specs.Prelude.{◌≡◌, ℕ, IfErr, IfNone, IfOk, IfSome, None, Some};
ghost use Rattle.std.specs.Option.{option_map};
ghost use Rattle.world_laws.specs.run_model.Answers.{branch_standing as branch_standing_said, standing};
ghost use Rattle.script_lang.specs.Statements.{named_of};
ghost use Rattle.script_lang.specs.script_model.Statements as said;
ghost use Rattle.tm_types.specs.Branches.{branch_of};
ghost use Rattle.tm_types.specs.Parts.{reply_of};
ghost use Rattle.transcript.specs.Forms.{HasTime, line_of, quota_of, standing_of};
ghost use Rattle.emitter_model.specs.transcript_model.Lines as line;
ghost use Rattle.vms_base.specs.Ids.{serial_of};
ghost use Rattle.participants.specs.Refusing.{refusal_line};
ghost use Rattle.run_shared.specs.Sharing.{SharedState as SharedSaid};
ghost use Rattle.node_table.specs.Code.{up_of};
ghost use Rattle.node_table.specs.Telling.{done};
ghost use Rattle.node_requests.specs.Managers.{known_at, made_of, serial_in, unheard_in};
ghost use Rattle.node_requests.specs.Requests.{DoesRequest, MayServe};
ghost use Rattle.node_requests.specs.Running.{name_of};

use crate::labelled::labelled;
use crate::law::the_laws;
use crate::log::show_owed;
use block_disk::Disk;
use careful_write::Down;
use node_table::{RecoveryUnits, Running};
use participants::RmErr;
use run_shared::Shared;
use script_lang::Named;
use tm_types::{BranchState, State};
use transcript::{Emit, Form, Quota, Standing};
use vms_base::{Label, Moment, Reply, RmName, Serial};

// The line by which an error refuses a statement of a resource manager, where a quota is of this.
fn refusal(quota: Quota, error: RmErr) -> Form<'static>
    ensures line { line_of result ≡ refusal_line (quota_of quota) error }
    ensures time { HasTime result }
{
    match error {
        RmErr::NoTid => Form::NoSuchTransaction,
        RmErr::NoRm => Form::NoSuchManager,
        RmErr::State => Form::WrongState,
        RmErr::Quota(limit) => Form::QuotaExceeded(quota, u64::from(limit)),
    }
}

/// DECLARE_RM: a resource manager is there from now on, and is told of each committed record that waits for it, in the order of the slots.
pub(crate) fn declare_rm<D: Disk, U: RecoveryUnits, E: Emit>(
    running: &mut Running<D, U>,
    rm: &RmName,
    out: &mut E,
)
    ensures place { E.place out.new ≡ E.place out.old }
    ensures does { (clock : ℕ) (s : SharedSaid) → MayServe clock (up_of U.state running.old) → DoesRequest done (said.DeclareRm rm.now) clock (up_of U.state running.old) (up_of U.state running.new) s s (E.shows out.old) (E.shows out.new) }
{
    the_laws();
    match running.managers.declare(*rm) {
        Err(error) => out.emit(&refusal(Quota::Declared, error)),
        Ok(()) => {
            show_owed(running, rm, out);
            out.emit(&Form::Normal);
        }
    }
}

/// FORGET_RM: a resource manager is there no more.
pub(crate) fn forget_rm<D: Disk, U: RecoveryUnits, E: Emit>(
    running: &mut Running<D, U>,
    rm: &RmName,
    out: &mut E,
)
    ensures place { E.place out.new ≡ E.place out.old }
    ensures does { (clock : ℕ) (s : SharedSaid) → MayServe clock (up_of U.state running.old) → DoesRequest done (said.ForgetRm rm.now) clock (up_of U.state running.old) (up_of U.state running.new) s s (E.shows out.old) (E.shows out.new) }
{
    the_laws();
    match running.managers.forget(&running.table, rm) {
        Err(error) => out.emit(&refusal(Quota::Managers, error)),
        Ok(()) => out.emit(&Form::Normal),
    }
}

// What a label or a serial names, where the label is one of this node: a serial, or nothing while no branch has begun for the label.
fn branch_serial<D: Disk, U: RecoveryUnits>(
    running: &Running<D, U>,
    shared: &Shared,
    who: &Named,
) -> Option<Option<Serial>>
    ensures serial { IfSome result (λ serial. option_map serial_of serial ≡ serial_in (named_of who.now) shared.now.labels (up_of U.state running.now)) }
    ensures made { IfSome result (λ _. made_of (named_of who.now) (name_of (up_of U.state running.now)) shared.now.labels ≡ None) }
    ensures unmade { IfNone result (made_of (named_of who.now) (name_of (up_of U.state running.now)) shared.now.labels ≡ Some line.BadLabel) }
{
    match who {
        Named::Label(label) => match labelled(running, shared, label) {
            Some(entry) => Some(entry.serial),
            None => None,
        },
        Named::Serial(serial) => Some(Some(*serial)),
    }
}

// The serial that a label or a serial names; where there is none, what refuses a statement that asks for one.
fn serial_named<D: Disk, U: RecoveryUnits>(
    running: &Running<D, U>,
    shared: &Shared,
    who: &Named,
) -> Result<Serial, Form<'static>>
    ensures found { IfOk result (λ serial. serial_in (named_of who.now) shared.now.labels (up_of U.state running.now) ≡ Some (serial_of serial)) }
    ensures made { IfOk result (λ _. made_of (named_of who.now) (name_of (up_of U.state running.now)) shared.now.labels ≡ None) }
    ensures refused { IfErr result (λ form. unheard_in (named_of who.now) shared.now.labels (up_of U.state running.now) ≡ Some (line_of form)) }
    ensures time { IfErr result HasTime }
{
    match branch_serial(running, shared, who) {
        None => Err(Form::BadLabel),
        Some(None) => Err(Form::NoSuchTransaction),
        Some(Some(serial)) => Ok(serial),
    }
}

/// JOIN_RM: a resource manager takes part in the branch of a label.
pub(crate) fn join_rm<D: Disk, U: RecoveryUnits, E: Emit>(
    running: &mut Running<D, U>,
    label: &Label,
    rm: &RmName,
    clock: Moment,
    shared: &mut Shared,
    out: &mut E,
) -> Result<(), Down>
    requires may { MayServe clock.0 (up_of U.state running.old) }
    ensures place { E.place out.new ≡ E.place out.old }
    ensures does { DoesRequest result (said.JoinRm label.now rm.now) clock.0 (up_of U.state running.old) (up_of U.state running.new) shared.old shared.new (E.shows out.old) (E.shows out.new) }
{
    the_laws();
    let serial = match serial_named(running, shared, &Named::Label(*label)) {
        Err(form) => {
            out.emit(&form);
            return Ok(());
        }
        Ok(serial) => serial,
    };
    let event = match running.managers.join(&running.table, &serial, rm) {
        Err(error) => {
            out.emit(&refusal(Quota::Managers, error));
            return Ok(());
        }
        Ok(event) => event,
    };
    match running.tell(&event, clock, shared, out) {
        Err(down) => Err(down),
        Ok(()) => {
            out.emit(&Form::Normal);
            Ok(())
        }
    }
}

/// ACK_EVENT: a resource manager replies to the event of a branch that waits for it.
pub(crate) fn ack_event<D: Disk, U: RecoveryUnits, E: Emit>(
    running: &mut Running<D, U>,
    who: &Named,
    rm: &RmName,
    reply: Reply,
    clock: Moment,
    shared: &mut Shared,
    out: &mut E,
) -> Result<(), Down>
    requires may { MayServe clock.0 (up_of U.state running.old) }
    ensures place { E.place out.new ≡ E.place out.old }
    ensures does { DoesRequest result (said.AckEvent (named_of who.now) rm.now (reply_of reply)) clock.0 (up_of U.state running.old) (up_of U.state running.new) shared.old shared.new (E.shows out.old) (E.shows out.new) }
{
    the_laws();
    let serial = match serial_named(running, shared, who) {
        Err(form) => {
            out.emit(&form);
            return Ok(());
        }
        Ok(serial) => serial,
    };
    let event = match running.managers.reply(&running.table, &serial, rm, reply) {
        Err(error) => {
            out.emit(&refusal(Quota::Managers, error));
            return Ok(());
        }
        Ok(event) => event,
    };
    match running.tell(&event, clock, shared, out) {
        Err(down) => Err(down),
        Ok(()) => {
            out.emit(&Form::Normal);
            Ok(())
        }
    }
}

// How an unsettled branch stands.
fn branch_standing(branch: &BranchState) -> Standing
    ensures { standing_of result ≡ branch_standing_said (branch_of branch.now) (branch_of branch.now).state }
{
    match branch.state {
        State::Joining => Standing::Active,
        State::Active => {
            if branch.asked {
                Standing::Ending
            } else {
                Standing::Active
            }
        }
        State::Ending | State::Voting => Standing::Ending,
        State::Prepared => Standing::Prepared,
    }
}

// How the branch of a serial stands, where a serial is named.
fn standing_at<D: Disk, U: RecoveryUnits>(
    running: &Running<D, U>,
    serial: &Option<Serial>,
) -> Standing
    ensures { standing_of result ≡ standing (known_at running.now.table (option_map serial_of serial.now)) }
{
    let Some(serial) = serial else {
        return Standing::Unknown;
    };
    match running.table.branch(*serial) {
        Some(branch) => branch_standing(branch),
        None => match running.table.committed(*serial) {
            Some(_) => Standing::Committed,
            None => Standing::Unknown,
        },
    }
}

/// GETDTI: how the branch that a label or a serial names stands at this node.
pub(crate) fn get_dti<D: Disk, U: RecoveryUnits, E: Emit>(
    running: &Running<D, U>,
    who: &Named,
    shared: &Shared,
    out: &mut E,
)
    ensures place { E.place out.new ≡ E.place out.old }
    ensures does { (clock : ℕ) → MayServe clock (up_of U.state running.now) → DoesRequest done (said.GetDti (named_of who.now)) clock (up_of U.state running.now) (up_of U.state running.now) shared.now shared.now (E.shows out.old) (E.shows out.new) }
{
    the_laws();
    match branch_serial(running, shared, who) {
        None => out.emit(&Form::BadLabel),
        Some(serial) => out.emit(&Form::NormalStanding(standing_at(running, &serial))),
    }
}
