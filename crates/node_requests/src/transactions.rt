//! Transactions: what is asked of a node that is up, and what its table then does.
ghost use Rattle.std.specs.Prelude.{◌≡◌, ◌<◌, ◌≤◌, ◌++◌, ◌∷◌, [], true, false, IfErr, IfOk, IfSome, Some, None, length, map, nat_le};
ghost use Rattle.std.specs.Option.{option_map};
ghost use Rattle.vms_model.specs.Limits.{bid_limit, label_limit, moment_ceiling, second_limit};
ghost use Rattle.emitter_model.specs.commit_protocol.Allowed.{is_prepared as is_prepared_said, may_end as may_end_said};
ghost use Rattle.emitter_model.specs.commit_protocol.Table.{branch_serials, is_first as is_first_of, record_serials};
ghost use Rattle.emitter_model.specs.commit_protocol.World.{In};
ghost use Rattle.world_laws.specs.run_model.Answers.{is_first_active as is_first_said, missing as missing_said, seconds_refused, unreplied as unreplied_said};
ghost use Rattle.world_laws.specs.run_model.Operations.{first_of};
ghost use Rattle.world_laws.specs.run_model.World.{find_label};
ghost use Rattle.script_lang.specs.Statements.{named_of};
ghost use Rattle.script_lang.specs.script_model.Statements as said;
ghost use Rattle.tm_types.specs.Branches.{branch_of, moment_of};
ghost use Rattle.tm_types.specs.Effects.{effect_of};
ghost use Rattle.tm_types.specs.Parts.{child_of, manager_of};
ghost use Rattle.transcript.specs.Forms.{HasTime, line_of};
ghost use Rattle.emitter_model.specs.Emitting.{Emits, Since};
ghost use Rattle.emitter_model.specs.transcript_model.Lines as line;
ghost use Rattle.vms_base.specs.Ids.{serial_of, tid_of};
ghost use Rattle.node_table.specs.Code.{up_of};
ghost use Rattle.node_requests.specs.Labelled.{made_in};
ghost use Rattle.node_requests.specs.Requests.{DoesRequest, MayServe};
ghost use Rattle.node_requests.specs.Running.{name_of};
ghost use Rattle.node_requests.specs.Transacting.{IsQuota, due_in, ended_in, ending_in, more_in, named_in, new_in, unnamed_in};

use crate::labelled::{branch_labelled, labelled};
use crate::law::the_laws;
use block_disk::Disk;
use careful_write::Down;
use node_table::{RecoveryUnits, Running};
use run_shared::{LabelEntry, Shared};
use script_lang::Named;
use tm_types::{BranchState, Effect, Event, State, same_id};
use transcript::{Emit, Form, Quota};
use vms_base::{Bid, Label, Moment, NodeName, Outcome, Reason, RmList, Serial, SerialList, Tid};

// How many unsettled branches a node has, at the most.
const MOST_BRANCHES: usize = 64;

// How many branches are authorised for a transaction, at the most.
const MOST_BIDS: usize = 15;

// How many seconds a transaction may be given, at the most.
const MOST_SECONDS: u32 = 1_000_000;

// A second has so many hundredths.
const HUNDREDTHS: u64 = 100;

// Whether a label may be made: none has its name, and not all were made that a run makes.
fn may_make(shared: &Shared, label: &Label) -> bool
    ensures yes { result ≡ true → (find_label label.now shared.now.labels ≡ None) × (length shared.now.labels < label_limit) }
    ensures no { result ≡ false → new_in label.now shared.now.labels ≡ Some line.BadLabel }
{
    shared.find(label).is_none() && !shared.is_full()
}

// Whether a transaction may be given so many seconds.
fn are_seconds(seconds: Option<u32>) -> bool
    ensures yes { result ≡ true → seconds_refused seconds ≡ None }
    ensures few { result ≡ true → IfSome seconds (λ count. count ≤ second_limit) }
    ensures no { result ≡ false → seconds_refused seconds ≡ Some line.BadParameter }
{
    match seconds {
        None => true,
        Some(count) => 1 <= count && count <= MOST_SECONDS,
    }
}

// What refuses one more branch: there are as many as may be, or as many of these and of committed records together as the log has slots.
fn full_table<D: Disk, U: RecoveryUnits>(running: &Running<D, U>) -> Option<Form<'static>>
    ensures line { option_map line_of result ≡ more_in (up_of U.state running.now) }
    ensures time { IfSome result HasTime }
    ensures plain { IfSome result (λ form. IsQuota (line_of form)) }
{
    let branches = running.table.branch_count();
    if branches >= MOST_BRANCHES {
        return Some(Form::QuotaExceeded(Quota::Branches, MOST_BRANCHES as u64));
    }
    let slots = running.stored.units.slots();
    if slots <= branches + running.table.record_count() {
        return Some(Form::QuotaExceeded(Quota::Slots, slots as u64));
    }
    None
}

// Whether a branch or a committed record has this serial.
fn is_taken<D: Disk, U: RecoveryUnits>(running: &Running<D, U>, serial: &Serial) -> bool
    ensures free { result ≡ false → In (serial_of serial.now) (branch_serials running.now.table.table ++ record_serials running.now.table.records) → ⊥ }
    ensures taken { result ≡ true → In (serial_of serial.now) (branch_serials running.now.table.table ++ record_serials running.now.table.records) }
{
    running.table.branch(*serial).is_some() || running.table.committed(*serial).is_some()
}

// When a transaction is due that begins now.
fn due_after(clock: Moment, seconds: Option<u32>) -> Option<Moment>
    requires early { clock.0 ≤ moment_ceiling }
    ensures { option_map moment_of result ≡ due_in clock.0 seconds }
{
    match seconds {
        None => None,
        Some(count) => Some(Moment(clock.0 + HUNDREDTHS * u64::from(count))),
    }
}

/// START_TRANS: a transaction begins, and a label is made for its first branch.
pub(crate) fn start<D: Disk, U: RecoveryUnits, E: Emit>(
    running: &mut Running<D, U>,
    label: &Label,
    seconds: Option<u32>,
    clock: Moment,
    shared: &mut Shared,
    out: &mut E,
) -> Result<(), Down>
    requires may { MayServe clock.0 (up_of U.state running.old) }
    ensures place { E.place out.new ≡ E.place out.old }
    ensures does { DoesRequest result (said.StartTrans label.now seconds) clock.0 (up_of U.state running.old) (up_of U.state running.new) shared.old shared.new (E.shows out.old) (E.shows out.new) }
{
    the_laws();
    if !may_make(shared, label) {
        out.emit(&Form::BadLabel);
        return Ok(());
    }
    if !are_seconds(seconds) {
        out.emit(&Form::BadParameter);
        return Ok(());
    }
    if let Some(form) = full_table(running) {
        out.emit(&form);
        return Ok(());
    }
    let id = &running.next_id();
    if is_taken(running, &Serial(*id)) {
        out.emit(&Form::WrongState);
        return Ok(());
    }
    running.drawn += 1;
    let entry = LabelEntry {
        node: running.name(),
        tid: Tid(*id),
        bid: None,
        serial: Some(Serial(*id)),
    };
    shared.make(*label, entry);
    let event = Event::Start {
        tid: Tid(*id),
        due: due_after(clock, seconds),
    };
    match running.tell(&event, clock, shared, out) {
        Err(down) => Err(down),
        Ok(()) => {
            out.emit(&Form::NormalId(*id));
            Ok(())
        }
    }
}

// Whether a branch is the first of a transaction of which END_TRANS was not called.
fn is_first_active(branch: &BranchState) -> bool
    ensures { result ≡ is_first_said (branch_of branch.now) }
{
    is_first(branch) && branch.state == State::Active
}

// Whether a branch is the first of its transaction.
fn is_first(branch: &BranchState) -> bool
    ensures { result ≡ is_first_of (branch_of branch.now) }
{
    same_id(&branch.tid.0, &branch.serial.0)
}

// Whether END_BRANCH may be called for a branch.
fn may_end(branch: &BranchState) -> bool
    ensures { result ≡ may_end_said (branch_of branch.now) }
{
    branch.state == State::Active && !branch.ended && !is_first(branch)
}

// Whether a branch is prepared.
fn is_prepared(branch: &BranchState) -> bool
    ensures { result ≡ is_prepared_said (branch_of branch.now).state }
{
    branch.state == State::Prepared
}

// Whether a label is one of this node, and another may be made.
fn may_relate<D: Disk, U: RecoveryUnits>(
    running: &Running<D, U>,
    shared: &Shared,
    label: &Label,
    new: &Label,
) -> bool
    ensures yes { result ≡ true → (made_in (name_of (up_of U.state running.now)) label.now shared.now.labels ≡ None) × (find_label new.now shared.now.labels ≡ None) × (length shared.now.labels < label_limit) }
    ensures no { result ≡ false → first_of (made_in (name_of (up_of U.state running.now)) label.now shared.now.labels) (new_in new.now shared.now.labels) ≡ Some line.BadLabel }
{
    labelled(running, shared, label).is_some() && may_make(shared, new)
}

// Whether as many branches are authorised for a transaction as may be.
fn are_bids_full(branch: &BranchState) -> bool
    ensures { result ≡ nat_le bid_limit (length (branch_of branch.now).bids) }
{
    branch.bids.items().len() >= MOST_BIDS
}

/// ADD_BRANCH: the transaction of a label may have a branch at another node, which a new label names.
pub(crate) fn add_branch<D: Disk, U: RecoveryUnits, E: Emit>(
    running: &mut Running<D, U>,
    label: &Label,
    other: NodeName,
    new: &Label,
    clock: Moment,
    shared: &mut Shared,
    out: &mut E,
) -> Result<(), Down>
    requires may { MayServe clock.0 (up_of U.state running.old) }
    ensures place { E.place out.new ≡ E.place out.old }
    ensures does { DoesRequest result (said.AddBranch label.now other new.now) clock.0 (up_of U.state running.old) (up_of U.state running.new) shared.old shared.new (E.shows out.old) (E.shows out.new) }
{
    the_laws();
    if !may_relate(running, shared, label, new) {
        out.emit(&Form::BadLabel);
        return Ok(());
    }
    let tid = match branch_labelled(running, shared, label) {
        Err(form) => {
            out.emit(&form);
            return Ok(());
        }
        Ok(branch) => {
            if !is_first_active(branch) {
                out.emit(&Form::WrongState);
                return Ok(());
            }
            if are_bids_full(branch) {
                out.emit(&Form::QuotaExceeded(Quota::Bids, MOST_BIDS as u64));
                return Ok(());
            }
            branch.tid
        }
    };
    let tid = &tid;
    let id = &running.next_id();
    running.drawn += 1;
    let entry = LabelEntry {
        node: other,
        tid: *tid,
        bid: Some(Bid(*id)),
        serial: None,
    };
    shared.make(*new, entry);
    let event = Event::Authorise {
        tid: *tid,
        bid: Bid(*id),
    };
    match running.tell(&event, clock, shared, out) {
        Err(down) => Err(down),
        Ok(()) => {
            out.emit(&Form::NormalId(*id));
            Ok(())
        }
    }
}

/// START_BRANCH: the branch that a label names begins, and asks its coordinator to join.
pub(crate) fn start_branch<D: Disk, U: RecoveryUnits, E: Emit>(
    running: &mut Running<D, U>,
    label: &Label,
    clock: Moment,
    shared: &mut Shared,
    out: &mut E,
) -> Result<(), Down>
    requires may { MayServe clock.0 (up_of U.state running.old) }
    ensures place { E.place out.new ≡ E.place out.old }
    ensures does { DoesRequest result (said.StartBranch label.now) clock.0 (up_of U.state running.old) (up_of U.state running.new) shared.old shared.new (E.shows out.old) (E.shows out.new) }
{
    the_laws();
    let Some(entry) = labelled(running, shared, label) else {
        out.emit(&Form::BadLabel);
        return Ok(());
    };
    let entry = &entry;
    let Some(bid) = &entry.bid else {
        out.emit(&Form::NoSuchBranchId);
        return Ok(());
    };
    if branch_labelled(running, shared, label).is_ok() {
        out.emit(&Form::WrongState);
        return Ok(());
    }
    if let Some(form) = full_table(running) {
        out.emit(&form);
        return Ok(());
    }
    let serial = &Serial(running.next_id());
    if is_taken(running, serial) {
        out.emit(&Form::WrongState);
        return Ok(());
    }
    running.drawn += 1;
    shared.number(label, *serial);
    let event = Event::Begin {
        tid: entry.tid,
        serial: *serial,
        bid: *bid,
    };
    match running.tell(&event, clock, shared, out) {
        Err(down) => Err(down),
        Ok(()) => {
            out.emit(&Form::Pending(&[*serial], &[]));
            Ok(())
        }
    }
}

/// END_BRANCH: the branch changes no more records, and votes where it was asked.
pub(crate) fn end_branch<D: Disk, U: RecoveryUnits, E: Emit>(
    running: &mut Running<D, U>,
    label: &Label,
    clock: Moment,
    shared: &mut Shared,
    out: &mut E,
) -> Result<(), Down>
    requires may { MayServe clock.0 (up_of U.state running.old) }
    ensures place { E.place out.new ≡ E.place out.old }
    ensures does { DoesRequest result (said.EndBranch label.now) clock.0 (up_of U.state running.old) (up_of U.state running.new) shared.old shared.new (E.shows out.old) (E.shows out.new) }
{
    the_laws();
    let serial = match branch_labelled(running, shared, label) {
        Err(form) => {
            out.emit(&form);
            return Ok(());
        }
        Ok(branch) => {
            if !may_end(branch) {
                out.emit(&Form::WrongState);
                return Ok(());
            }
            branch.serial
        }
    };
    match running.tell(&Event::EndBranch { serial }, clock, shared, out) {
        Err(down) => Err(down),
        Ok(()) => {
            out.emit(&Form::Normal);
            Ok(())
        }
    }
}

// How the settlement of a transaction is answered that these effects have; None where it is not settled.
fn ending_form(effects: &[Effect], tid: &Tid) -> Option<Form<'static>>
    ensures line { option_map line_of result ≡ ending_in (tid_of tid.now) (map effect_of effects.now) }
    ensures time { IfSome result HasTime }
{
    for effect in effects {
        if let Effect::Settle {
            serial,
            outcome,
            reason,
            ..
        } = effect
        {
            if same_id(&serial.0, &tid.0) {
                return match outcome {
                    Outcome::Commit => Some(Form::Normal),
                    Outcome::Abort => Some(Form::TransactionAborted(*reason)),
                };
            }
        }
    }
    None
}

// The serials of a transaction whose votes are missing.
fn missing(branch: &BranchState) -> SerialList
    ensures { map serial_of result ≡ missing_said (map child_of branch.now.accepted) }
{
    let mut serials = SerialList::new();
    for child in branch.accepted.items() {
        if child.vote.is_none() {
            serials.push(child.serial);
        }
    }
    serials
}

// The resource managers of a transaction whose replies are missing.
fn unreplied(branch: &BranchState) -> RmList
    ensures { result ≡ unreplied_said (map manager_of branch.now.managers) }
{
    let mut rms = RmList::new();
    for manager in branch.managers.items() {
        if manager.reply.is_none() {
            rms.push(manager.rm);
        }
    }
    rms
}

// Answers how END_TRANS left a transaction.
fn show_ending<D: Disk, U: RecoveryUnits, E: Emit>(running: &Running<D, U>, tid: &Tid, out: &mut E)
    ensures place { E.place out.new ≡ E.place out.old }
    ensures since { Since (E.shows out.old) (E.shows out.new) }
    ensures shows { Emits (E.shows out.old) (ended_in (tid_of tid.now) (map effect_of running.now.effects) running.now.table.table ∷ []) (E.shows out.new) }
{
    if let Some(form) = ending_form(running.effects.items(), tid) {
        out.emit(&form);
        return;
    }
    match running.table.branch(Serial(tid.0)) {
        None => out.emit(&Form::Normal),
        Some(branch) => {
            let serials = missing(branch);
            let rms = unreplied(branch);
            out.emit(&Form::Pending(serials.items(), rms.items()));
        }
    }
}

/// END_TRANS: the transaction commits, or is aborted, or its branches are asked first.
pub(crate) fn end<D: Disk, U: RecoveryUnits, E: Emit>(
    running: &mut Running<D, U>,
    label: &Label,
    clock: Moment,
    shared: &mut Shared,
    out: &mut E,
) -> Result<(), Down>
    requires may { MayServe clock.0 (up_of U.state running.old) }
    ensures place { E.place out.new ≡ E.place out.old }
    ensures does { DoesRequest result (said.EndTrans label.now) clock.0 (up_of U.state running.old) (up_of U.state running.new) shared.old shared.new (E.shows out.old) (E.shows out.new) }
{
    the_laws();
    let tid = match branch_labelled(running, shared, label) {
        Err(form) => {
            out.emit(&form);
            return Ok(());
        }
        Ok(branch) => {
            if !is_first_active(branch) {
                out.emit(&Form::WrongState);
                return Ok(());
            }
            branch.tid
        }
    };
    let tid = &tid;
    match running.tell(&Event::EndTrans { tid: *tid }, clock, shared, out) {
        Err(down) => Err(down),
        Ok(()) => {
            show_ending(running, tid, out);
            Ok(())
        }
    }
}

/// ABORT_TRANS: what the branch changed is set back.
pub(crate) fn abort<D: Disk, U: RecoveryUnits, E: Emit>(
    running: &mut Running<D, U>,
    label: &Label,
    clock: Moment,
    shared: &mut Shared,
    out: &mut E,
) -> Result<(), Down>
    requires may { MayServe clock.0 (up_of U.state running.old) }
    ensures place { E.place out.new ≡ E.place out.old }
    ensures does { DoesRequest result (said.AbortTrans label.now) clock.0 (up_of U.state running.old) (up_of U.state running.new) shared.old shared.new (E.shows out.old) (E.shows out.new) }
{
    the_laws();
    let serial = match branch_labelled(running, shared, label) {
        Err(form) => {
            out.emit(&form);
            return Ok(());
        }
        Ok(branch) => {
            if is_prepared(branch) {
                out.emit(&Form::WrongState);
                return Ok(());
            }
            branch.serial
        }
    };
    let event = Event::Abort {
        serial,
        reason: Reason::Aborted,
    };
    match running.tell(&event, clock, shared, out) {
        Err(down) => Err(down),
        Ok(()) => {
            out.emit(&Form::Normal);
            Ok(())
        }
    }
}

// The unsettled branch that a label or a serial names; where there is none, what refuses a statement that asks for one.
fn branch_named<'a, D: Disk, U: RecoveryUnits>(
    running: &'a Running<D, U>,
    shared: &Shared,
    who: &Named,
) -> Result<&'a BranchState, Form<'static>>
    ensures found { IfOk result (λ branch. named_in (named_of who.now) shared.now.labels (up_of U.state running.now) ≡ Some (branch_of branch.now)) }
    ensures made { IfOk result (λ _. unnamed_in (named_of who.now) shared.now.labels (up_of U.state running.now) ≡ None) }
    ensures refused { IfErr result (λ form. unnamed_in (named_of who.now) shared.now.labels (up_of U.state running.now) ≡ Some (line_of form)) }
    ensures time { IfErr result HasTime }
{
    match who {
        Named::Label(label) => branch_labelled(running, shared, label),
        Named::Serial(serial) => match running.table.branch(*serial) {
            Some(branch) => Ok(branch),
            None => Err(Form::NoSuchTransaction),
        },
    }
}

/// INQUIRE: a prepared branch asks its coordinator for the outcome.
pub(crate) fn inquire<D: Disk, U: RecoveryUnits, E: Emit>(
    running: &mut Running<D, U>,
    who: &Named,
    clock: Moment,
    shared: &mut Shared,
    out: &mut E,
) -> Result<(), Down>
    requires may { MayServe clock.0 (up_of U.state running.old) }
    ensures place { E.place out.new ≡ E.place out.old }
    ensures does { DoesRequest result (said.Inquire (named_of who.now)) clock.0 (up_of U.state running.old) (up_of U.state running.new) shared.old shared.new (E.shows out.old) (E.shows out.new) }
{
    the_laws();
    let serial = match branch_named(running, shared, who) {
        Err(form) => {
            out.emit(&form);
            return Ok(());
        }
        Ok(branch) => {
            if !is_prepared(branch) {
                out.emit(&Form::WrongState);
                return Ok(());
            }
            branch.serial
        }
    };
    match running.tell(&Event::Inquire { serial }, clock, shared, out) {
        Err(down) => Err(down),
        Ok(()) => {
            out.emit(&Form::Normal);
            Ok(())
        }
    }
}
