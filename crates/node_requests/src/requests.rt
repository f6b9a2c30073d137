//! What is asked of a node that is up.
ghost use Rattle.std.specs.Prelude.{◌≡◌, Some, true, IfErr, IfOk};
ghost use Rattle.std.specs.Option.{option_map};
ghost use Rattle.emitter_model.specs.commit_protocol.Allowed.{allowed, is_working};
ghost use Rattle.emitter_model.specs.commit_protocol.Rows.{Changed};
ghost use Rattle.world_laws.specs.run_model.Answers.{in_state, unsettled};
ghost use Rattle.world_laws.specs.run_model.Operations.{first_of};
ghost use Rattle.script_lang.specs.Statements.{operation_of, request_of};
ghost use Rattle.script_lang.specs.script_model.Statements as said;
ghost use Rattle.transcript.specs.Forms.{HasTime, line_of};
ghost use Rattle.vms_base.specs.Ids.{serial_of};
ghost use Rattle.file_requests.specs.Asking.{IsNumberedIn, number_in, said_of};
ghost use Rattle.file_requests.specs.Replying.{IsPlain};
ghost use Rattle.file_requests.specs.Serving.{HasFile};
ghost use Rattle.node_table.specs.Code.{stored_of, up_of};
ghost use Rattle.node_requests.specs.Labelled.{branch_at};
ghost use Rattle.node_requests.specs.Operating.{IsWorkingAt, OperatesAlone, OperatesFor};
ghost use Rattle.node_requests.specs.Requests.{AnswersRequest, DoesRequest, IsForUp, IsOfManager, IsOfTransaction, IsReserved, MayServe, noted};
ghost use Rattle.file_requests.specs.node_standing.Moments.{CanBeTold};

use crate::labelled::labelled;
use crate::law::the_laws;
use crate::log::{lmcp_dump, lmcp_show};
use crate::managers::{ack_event, declare_rm, forget_rm, get_dti, join_rm};
use crate::transactions::{abort, add_branch, end, end_branch, inquire, start, start_branch};
use block_disk::Disk;
use careful_write::Down;
use directory_model::files_are_found_by_name;
use file_requests::{
    Asked, Reply, asked_of, backup, change_alone, create, dump, dump_images, dump_journal,
    find_file, operate_for, read_alone, recover, refused_form, set_file,
};
use node_table::{RecoveryUnits, Running};
use run_shared::Shared;
use script_lang::{Literals, Operation, Request};
use std::alloc::Global;
use tm_types::State;
use transcript::{Emit, Form};
use vms_base::{FileName, Label, Moment, Serial};

/// Serves a statement that a node has to be up for. Where memory is missing, which a recovery alone takes, nothing is shown, and all is as it was but for reads.
pub fn serve_up<D: Disk, U: RecoveryUnits, E: Emit>(
    alloc: Global,
    running: &mut Running<D, U>,
    request: &Request,
    lit: &Literals,
    clock: Moment,
    shared: &mut Shared,
    out: &mut E,
) -> Result<Reply, Down>
    requires up { IsForUp (request_of lit.now request.now) }
    requires times { CanBeTold (request_of lit.now request.now) }
    requires may { MayServe clock.0 (up_of U.state running.old) }
    ensures place { E.place out.new ≡ E.place out.old }
    ensures does { AnswersRequest result (request_of lit.now request.now) clock.0 (up_of U.state running.old) (up_of U.state running.new) shared.old shared.new (E.shows out.old) (E.shows out.new) }
{
    match request {
        Request::Recover(file, recovery) => {
            recover(alloc, &mut running.stored, file, *recovery, out)
        }
        _ => match serve_reserved(running, request, lit, clock, shared, out) {
            Ok(()) => Ok(Reply::Told),
            Err(down) => Err(down),
        },
    }
}

// Serves one that takes no memory but what the node has reserved.
fn serve_reserved<D: Disk, U: RecoveryUnits, E: Emit>(
    running: &mut Running<D, U>,
    request: &Request,
    lit: &Literals,
    clock: Moment,
    shared: &mut Shared,
    out: &mut E,
) -> Result<(), Down>
    requires reserved { IsReserved (request_of lit.now request.now) }
    requires may { MayServe clock.0 (up_of U.state running.old) }
    ensures place { E.place out.new ≡ E.place out.old }
    ensures does { DoesRequest result (request_of lit.now request.now) clock.0 (up_of U.state running.old) (up_of U.state running.new) shared.old shared.new (E.shows out.old) (E.shows out.new) }
{
    match request {
        Request::Create {
            file,
            bucket,
            size,
            form,
        } => create(&mut running.stored, *file, *bucket, *size, *form, out),
        Request::SetFile(file, setting) => set_file(&mut running.stored, file, *setting, out),
        Request::Records(label, file, operation) => {
            operate(running, label, file, operation, lit, clock, shared, out)
        }
        Request::Direct(file, operation) => {
            operate_alone(running, file, operation, lit, clock, shared, out)
        }
        Request::Dump(file) => dump(&mut running.stored, file, out),
        Request::DumpJournal => dump_journal(&mut running.stored, out),
        Request::DumpImages(file, side) => dump_images(&mut running.stored, file, *side, out),
        Request::Backup(file) => backup(&mut running.stored, file, out),
        _ => serve_transaction(running, request, lit, clock, shared, out),
    }
}

// Serves a statement on a transaction, or one of those of a resource manager.
fn serve_transaction<D: Disk, U: RecoveryUnits, E: Emit>(
    running: &mut Running<D, U>,
    request: &Request,
    lit: &Literals,
    clock: Moment,
    shared: &mut Shared,
    out: &mut E,
) -> Result<(), Down>
    requires transaction { IsOfTransaction (request_of lit.now request.now) }
    requires may { MayServe clock.0 (up_of U.state running.old) }
    ensures place { E.place out.new ≡ E.place out.old }
    ensures does { DoesRequest result (request_of lit.now request.now) clock.0 (up_of U.state running.old) (up_of U.state running.new) shared.old shared.new (E.shows out.old) (E.shows out.new) }
{
    match request {
        Request::StartTrans { label, seconds } => {
            start(running, label, *seconds, clock, shared, out)
        }
        Request::AddBranch { label, other, new } => {
            add_branch(running, label, *other, new, clock, shared, out)
        }
        Request::StartBranch(label) => start_branch(running, label, clock, shared, out),
        Request::EndBranch(label) => end_branch(running, label, clock, shared, out),
        Request::EndTrans(label) => end(running, label, clock, shared, out),
        Request::AbortTrans(label) => abort(running, label, clock, shared, out),
        Request::Inquire(who) => inquire(running, who, clock, shared, out),
        _ => serve_manager(running, request, lit, clock, shared, out),
    }
}

// Serves a statement of a resource manager, on how a branch stands, or on the transaction log.
fn serve_manager<D: Disk, U: RecoveryUnits, E: Emit>(
    running: &mut Running<D, U>,
    request: &Request,
    lit: &Literals,
    clock: Moment,
    shared: &mut Shared,
    out: &mut E,
) -> Result<(), Down>
    requires manager { IsOfManager (request_of lit.now request.now) }
    requires may { MayServe clock.0 (up_of U.state running.old) }
    ensures place { E.place out.new ≡ E.place out.old }
    ensures does { DoesRequest result (request_of lit.now request.now) clock.0 (up_of U.state running.old) (up_of U.state running.new) shared.old shared.new (E.shows out.old) (E.shows out.new) }
{
    match request {
        Request::DeclareRm(rm) => declare_rm(running, rm, out),
        Request::JoinRm(label, rm) => return join_rm(running, label, rm, clock, shared, out),
        Request::AckEvent(who, rm, reply) => {
            return ack_event(running, who, rm, *reply, clock, shared, out);
        }
        Request::ForgetRm(rm) => forget_rm(running, rm, out),
        Request::GetDti(who) => get_dti(running, who, shared, out),
        Request::LmcpShow => lmcp_show(running, out),
        Request::LmcpDump => lmcp_dump(running, out),
        _ => unreachable!(),
    }
    Ok(())
}

// An operation on records that the branch of a label is asked for.
fn operate<D: Disk, U: RecoveryUnits, E: Emit>(
    running: &mut Running<D, U>,
    label: &Label,
    name: &FileName,
    operation: &Operation,
    lit: &Literals,
    clock: Moment,
    shared: &Shared,
    out: &mut E,
) -> Result<(), Down>
    requires may { MayServe clock.0 (up_of U.state running.old) }
    ensures place { E.place out.new ≡ E.place out.old }
    ensures does { DoesRequest result (said.Records label.now name.now (operation_of lit.now operation.now)) clock.0 (up_of U.state running.old) (up_of U.state running.new) shared.now shared.now (E.shows out.old) (E.shows out.new) }
{
    the_laws();
    files_are_found_by_name();
    let Some(entry) = labelled(running, shared, label) else {
        out.emit(&Form::BadLabel);
        return Ok(());
    };
    let Some((file, head)) = find_file(&running.stored, name) else {
        out.emit(&Form::FileNotFound);
        return Ok(());
    };
    let Some(asked) = asked_of(operation, file, lit) else {
        out.emit(&Form::BadParameter);
        return Ok(());
    };
    let bytes = lit.record.bytes();
    if let Some(form) = refused_form(&head, &asked, bytes) {
        out.emit(&form);
        return Ok(());
    }
    match working(running, &entry.serial) {
        Err(form) => {
            out.emit(&form);
            Ok(())
        }
        Ok(serial) => operate_in(running, serial, &asked, bytes, clock, out),
    }
}

// The branch of a serial, where it may change records; else what refuses that.
fn working<D: Disk, U: RecoveryUnits>(
    running: &Running<D, U>,
    serial: &Option<Serial>,
) -> Result<Serial, Form<'static>>
    ensures works { IfOk result (λ s. IsWorkingAt (option_map serial_of serial.now) (serial_of s) running.now.table.table) }
    ensures refused { IfErr result (λ form. first_of (unsettled (branch_at (option_map serial_of serial.now) running.now.table.table)) (in_state is_working (branch_at (option_map serial_of serial.now) running.now.table.table)) ≡ Some (line_of form)) }
    ensures plain { IfErr result (λ form. IsPlain (line_of form)) }
    ensures time { IfErr result HasTime }
{
    let Some(serial) = serial else {
        return Err(Form::NoSuchTransaction);
    };
    match running.table.branch(*serial) {
        None => Err(Form::NoSuchTransaction),
        Some(branch) => {
            if branch.state == State::Active && !branch.ended {
                Ok(*serial)
            } else {
                Err(Form::WrongState)
            }
        }
    }
}

// An operation that a branch is asked for which may change records.
fn operate_in<D: Disk, U: RecoveryUnits, E: Emit>(
    running: &mut Running<D, U>,
    serial: Serial,
    asked: &Asked,
    bytes: &[u8],
    clock: Moment,
    out: &mut E,
) -> Result<(), Down>
    requires may { MayServe clock.0 (up_of U.state running.old) }
    requires working { allowed running.old.table (Changed (serial_of serial)) ≡ true }
    requires file { HasFile (number_in asked.now) (stored_of U.state running.old.stored) }
    requires number { IsNumberedIn asked.now }
    ensures place { E.place out.new ≡ E.place out.old }
    ensures does { OperatesFor result (serial_of serial) (number_in asked.now) (said_of asked.now bytes.now) clock.0 (up_of U.state running.old) (up_of U.state running.new) (E.shows out.old) (E.shows out.new) }
{
    match operate_for(&mut running.stored, &serial, asked, bytes, out) {
        Err(down) => Err(down),
        Ok(()) => {
            note_changes(running, serial);
            Ok(())
        }
    }
}

// The table notes that a branch has changed something, where it has.
fn note_changes<D: Disk, U: RecoveryUnits>(running: &mut Running<D, U>, serial: Serial)
    requires working { allowed running.old.table (Changed (serial_of serial)) ≡ true }
    ensures { up_of U.state running.new ≡ record (up_of U.state running.old) { tm = noted (serial_of serial) (U.state running.old.stored.units).begun running.old.table } }
{
    if running.stored.units.has_changes(&serial) {
        running.note_changed(serial);
    }
}

// An operation on records that no branch is asked for.
fn operate_alone<D: Disk, U: RecoveryUnits, E: Emit>(
    running: &mut Running<D, U>,
    name: &FileName,
    operation: &Operation,
    lit: &Literals,
    clock: Moment,
    shared: &Shared,
    out: &mut E,
) -> Result<(), Down>
    requires may { MayServe clock.0 (up_of U.state running.old) }
    ensures place { E.place out.new ≡ E.place out.old }
    ensures does { DoesRequest result (said.Direct name.now (operation_of lit.now operation.now)) clock.0 (up_of U.state running.old) (up_of U.state running.new) shared.now shared.now (E.shows out.old) (E.shows out.new) }
{
    the_laws();
    files_are_found_by_name();
    let Some((file, _)) = find_file(&running.stored, name) else {
        out.emit(&Form::FileNotFound);
        return Ok(());
    };
    match asked_of(operation, file, lit) {
        None => {
            out.emit(&Form::BadParameter);
            Ok(())
        }
        Some(asked) => act_alone(running, &asked, lit.record.bytes(), clock, out),
    }
}

// A change is made under the id that is drawn next, if it is made; a record is read without one.
fn act_alone<D: Disk, U: RecoveryUnits, E: Emit>(
    running: &mut Running<D, U>,
    asked: &Asked,
    bytes: &[u8],
    clock: Moment,
    out: &mut E,
) -> Result<(), Down>
    requires may { MayServe clock.0 (up_of U.state running.old) }
    requires file { HasFile (number_in asked.now) (stored_of U.state running.old.stored) }
    requires number { IsNumberedIn asked.now }
    ensures place { E.place out.new ≡ E.place out.old }
    ensures does { OperatesAlone result (number_in asked.now) (said_of asked.now bytes.now) clock.0 (up_of U.state running.old) (up_of U.state running.new) (E.shows out.old) (E.shows out.new) }
{
    match asked {
        Asked::Read(op) => read_alone(&mut running.stored, op, out),
        Asked::Change(op) => {
            let id = running.next_id();
            match change_alone(&mut running.stored, &id, clock, op, bytes, out) {
                Err(down) => Err(down),
                Ok(made) => {
                    if made {
                        running.drawn += 1;
                    }
                    Ok(())
                }
            }
        }
    }
}
