//! Operations on records.
ghost use Rattle.std.specs.Prelude.{◌≡◌, ◌<◌, IfSome, true, false, option_map};
ghost use Rattle.vms_model.specs.Limits.{moment_ceiling};
ghost use Rattle.transcript.specs.Forms.{HasTime, line_of};
ghost use Rattle.vms_base.specs.Ids.{id_of, serial_of};
ghost use Rattle.file_images.specs.run_model.Operations.{form_refused};
ghost use Rattle.file_images.specs.run_model.World.{File};
ghost use Rattle.directory_model.specs.Files.{IsHeadOf};
ghost use Rattle.record_operations.specs.Asking.{file_in, read_file_in};
ghost use Rattle.recovery_units.specs.Calls.{IsNumbered, change_said, read_said};
ghost use Rattle.recovery_units.specs.State.{IsEarly, IsInOrder, is_begun, unit_of};
ghost use Rattle.node_standing.specs.node_table.Code.{stored_of};
ghost use Rattle.file_requests.specs.Acting.{ActsAlone, ActsFor, LooksAlone};
ghost use Rattle.file_requests.specs.Asking.{IsNumberedIn, ShowsCause, number_in, said_of};
ghost use Rattle.file_requests.specs.Replying.{IsPlain, RepliesIf};
ghost use Rattle.file_requests.specs.Serving.{HasFile};

use crate::asked::{Asked, change_form, read_form, refusal_form};
use block_disk::Disk;
use careful_write::Down;
use file_base::FileHead;
use node_standing::Stored;
use record_operations::{ReadOp, RecErr, RecordOp, form_refusal, read_refusal};
use recovery_units::{RecoveryUnits, forms_refuse_alike};
use transcript::{Emit, Form};
use vms_base::{Id, Key, Moment, Serial, Tid};

// Shows the line for a cause of a refusal, unless the disk went down.
fn refuse<E: Emit>(cause: RecErr, out: &mut E) -> Result<(), Down>
    ensures place { E.place out.new ≡ E.place out.old }
    ensures replies { RepliesIf result (E.shows out.old) (E.shows out.new) }
    ensures shows { ShowsCause cause result (E.shows out.old) (E.shows out.new) }
{
    match refusal_form(cause) {
        Err(down) => Err(down),
        Ok(form) => {
            out.emit(&form);
            Ok(())
        }
    }
}

/// The line for what the form of an operation alone refuses, before its branch is looked at.
pub fn refused_form(head: &FileHead, asked: &Asked, bytes: &[u8]) -> Option<Form<'static>>
    requires number { IsNumberedIn asked.now }
    ensures form { (file : File) → IsHeadOf head.now file → option_map line_of result ≡ form_refused file (said_of asked.now bytes.now) }
    ensures time { IfSome result HasTime }
    ensures plain { IfSome result (λ form. IsPlain (line_of form)) }
{
    forms_refuse_alike();
    let refusal = match asked {
        Asked::Change(op) => form_refusal(head, op, op.written(bytes).len()),
        Asked::Read(op) => read_refusal(head, op),
    };
    match refusal {
        None => None,
        Some(cause) => match refusal_form(cause) {
            Ok(form) => Some(form),
            Err(_) => unreachable!(),
        },
    }
}

/// An operation that an unsettled branch is asked for.
pub fn operate_for<D: Disk, U: RecoveryUnits, E: Emit>(
    stored: &mut Stored<D, U>,
    serial: &Serial,
    asked: &Asked,
    bytes: &[u8],
    out: &mut E,
) -> Result<(), Down>
    requires order { IsInOrder (U.state stored.old.units) stored.old.volume }
    requires early { IsEarly stored.old.volume }
    requires unit { is_begun (serial_of serial.now) (U.state stored.old.units) ≡ true }
    requires active { IfSome (unit_of (serial_of serial.now) (U.state stored.old.units).begun) (λ u. u.prepared ≡ false) }
    requires file { HasFile (number_in asked.now) (stored_of U.state stored.old) }
    requires number { IsNumberedIn asked.now }
    ensures place { E.place out.new ≡ E.place out.old }
    ensures acts { ActsFor result (serial_of serial.now) (number_in asked.now) (said_of asked.now bytes.now) (stored_of U.state stored.old) (stored_of U.state stored.new) (E.shows out.old) (E.shows out.new) }
{
    match asked {
        Asked::Change(op) => {
            match stored.units.change(serial, &mut stored.volume, op, bytes) {
                Err(cause) => refuse(cause, out),
                Ok(position) => {
                    out.emit(&change_form(position));
                    Ok(())
                }
            }
        }
        Asked::Read(op) => {
            let mut key = Key::End;
            let found = &mut stored.room.found;
            match stored
                .units
                .read(serial, &mut stored.volume, op, &mut key, found)
            {
                Err(cause) => refuse(cause, out),
                Ok(()) => {
                    out.emit(&read_form(op, key, found));
                    Ok(())
                }
            }
        }
    }
}

/// A change that no branch is asked for: a transaction of its own, of the id that is drawn for it, whose commitment is shown. Whether it was made.
pub fn change_alone<D: Disk, U: RecoveryUnits, E: Emit>(
    stored: &mut Stored<D, U>,
    id: &Id,
    clock: Moment,
    op: &RecordOp,
    bytes: &[u8],
    out: &mut E,
) -> Result<bool, Down>
    requires order { IsInOrder (U.state stored.old.units) stored.old.volume }
    requires early { IsEarly stored.old.volume }
    requires clock { clock.0 < moment_ceiling }
    requires file { HasFile (file_in op.now) (stored_of U.state stored.old) }
    requires number { IsNumbered op.now }
    ensures place { E.place out.new ≡ E.place out.old }
    ensures acts { ActsAlone result (id_of id.now) clock.0 (file_in op.now) (change_said op.now bytes.now) (stored_of U.state stored.old) (stored_of U.state stored.new) (E.shows out.old) (E.shows out.new) }
{
    match stored
        .units
        .direct(&mut stored.volume, Tid(*id), clock, op, bytes)
    {
        Err(cause) => match refuse(cause, out) {
            Err(down) => Err(down),
            Ok(()) => Ok(false),
        },
        Ok((position, moment)) => {
            out.emit(&Form::Committed(Tid(*id), Serial(*id), moment));
            out.emit(&change_form(position));
            Ok(true)
        }
    }
}

/// A read that no branch is asked for.
pub fn read_alone<D: Disk, U: RecoveryUnits, E: Emit>(
    stored: &mut Stored<D, U>,
    op: &ReadOp,
    out: &mut E,
) -> Result<(), Down>
    requires order { IsInOrder (U.state stored.old.units) stored.old.volume }
    requires early { IsEarly stored.old.volume }
    requires file { HasFile (read_file_in op.now) (stored_of U.state stored.old) }
    ensures place { E.place out.new ≡ E.place out.old }
    ensures acts { LooksAlone result (read_file_in op.now) (read_said op.now) (stored_of U.state stored.old) (stored_of U.state stored.new) (E.shows out.old) (E.shows out.new) }
{
    let mut key = Key::End;
    let found = &mut stored.room.found;
    match stored.units.look(&mut stored.volume, op, &mut key, found) {
        Err(cause) => refuse(cause, out),
        Ok(()) => {
            out.emit(&read_form(op, key, found));
            Ok(())
        }
    }
}
