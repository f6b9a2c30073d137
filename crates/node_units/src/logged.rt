// Records that the log may have.
ghost use Rattle.std.specs.Prelude.{◌≡◌, [], IfSome, option_copied};
ghost use Rattle.lmcp_log.specs.Log.{slot_of};
ghost use Rattle.lmcp_log.specs.Slot.{IsParts};
ghost use Rattle.lmcp_log.specs.tm_types.Parts.{log_record_of};
ghost use Rattle.rms_units.specs.unit_votes.Voting.{vote_record};
ghost use Rattle.vms_base.specs.Ids.{serial_of, tid_of};

use lmcp_log::write_slot;
use vms_base::{LogKind, LogRec, RmList, Serial, SerialList, Tid};

/// The fields of a record are in their ranges.
pub(crate) fn have_parts(logged: &LogRec)
    ensures { IsParts (log_record_of logged.now) }
{
    let mut block = [0; 512];
    write_slot(logged, &mut block);
}

/// So are those of the record that the log is to have, where there is one.
pub(crate) fn have_logged(logged: Option<&LogRec>)
    ensures { IfSome (slot_of (option_copied logged.entry)) IsParts }
{
    match logged {
        None => {}
        Some(logged) => have_parts(logged),
    }
}

/// And those of the record of a branch that votes yes.
pub(crate) fn have_vote(tid: &Tid, serial: &Serial, rms: &RmList)
    ensures { IsParts (vote_record (tid_of tid.now) (serial_of serial.now) rms.now) }
{
    let logged = LogRec {
        kind: LogKind::Prepared,
        tid: *tid,
        serial: *serial,
        waiting: SerialList::new(),
        rms: rms.copy(),
    };
    have_parts(&logged);
}
