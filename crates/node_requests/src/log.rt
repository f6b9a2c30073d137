//! The transaction log of a node that is up, as it is shown.
ghost use Rattle.std.specs.Prelude.{◌≡◌, ◌≤◌, ◌<◌, ◌+◌, ◌∷◌, [], ℕ, is_some, length, map, option_copied};
ghost use Rattle.vms_model.specs.Limits.{slot_limit};
ghost use Rattle.world_laws.specs.log_laws.Slots.{committed_of, free_slots, prepared_of, records_in, slot_records, waiting_for};
ghost use Rattle.world_laws.specs.run_model.Answers.{log_line, owed_line};
ghost use Rattle.script_lang.specs.script_model.Statements as said;
ghost use Rattle.emitter_model.specs.Emitting.{Emits, Since};
ghost use Rattle.run_shared.specs.Sharing.{SharedState as SharedSaid};
ghost use Rattle.node_table.specs.Code.{up_of};
ghost use Rattle.node_table.specs.Telling.{done};
ghost use Rattle.tm_types.specs.Parts.{log_record_of};
ghost use Rattle.node_requests.specs.Managers.{entry_lines_at, owed_lines_at, waits_for};
ghost use Rattle.node_requests.specs.Requests.{DoesRequest, MayServe};
ghost use Rattle.node_table.specs.lmcp_log.Log.{slot_at, slot_of};

use crate::law::the_laws;
use block_disk::Disk;
use node_table::{RecoveryUnits, Running};
use tm_types::has_rm;
use transcript::{Emit, Form};
use vms_base::{LogKind, LogRec, RmEvent, RmName};

// Whether a committed record waits for a resource manager.
fn is_waited_for(rec: &LogRec, rm: &RmName) -> bool
    ensures { result ≡ waits_for rm.now (log_record_of rec.now) }
{
    match rec.kind {
        LogKind::Prepared => false,
        LogKind::Committed => has_rm(&rec.rms, rm),
    }
}

// Tells a resource manager that the record of a slot is committed, where that waits for it.
fn show_if_owed<D: Disk, U: RecoveryUnits, E: Emit>(
    running: &Running<D, U>,
    slot: u32,
    rm: &RmName,
    out: &mut E,
)
    ensures place { E.place out.new ≡ E.place out.old }
    ensures since { Since (E.shows out.old) (E.shows out.new) }
    ensures shows { Emits (E.shows out.old) (owed_lines_at rm.now (slot_at (U.state running.now.stored.units).log slot)) (E.shows out.new) }
{
    let Some(rec) = running.stored.units.record_at(slot) else {
        return;
    };
    if !is_waited_for(rec, rm) {
        return;
    }
    out.emit(&Form::ManagerTold(RmEvent::Commit, rec.tid, rec.serial, *rm));
}

/// Tells a resource manager of the committed records that wait for it, in the order of their slots.
pub(crate) fn show_owed<D: Disk, U: RecoveryUnits, E: Emit>(
    running: &Running<D, U>,
    rm: &RmName,
    out: &mut E,
)
    ensures place { E.place out.new ≡ E.place out.old }
    ensures since { Since (E.shows out.old) (E.shows out.new) }
    ensures shows { Emits (E.shows out.old) (map (owed_line rm.now) (waiting_for rm.now (committed_of (records_in (U.state running.now.stored.units).log)))) (E.shows out.new) }
{
    let slots = running.stored.units.slots() as u32;
    for slot in 0..slots {
        show_if_owed(running, slot, rm, out);
    }
}

// How many records of each kind a log has, and how many free slots.
#[derive(Clone, Copy, Debug, Drop)]
struct LogCounts {
    committed: u32,
    prepared: u32,
    free: u32,
}

// Counts a slot more, which has this record, or is free.
fn count_slot(counts: LogCounts, rec: Option<&LogRec>) -> LogCounts
    requires few { (counts.committed < slot_limit) × (counts.prepared < slot_limit) × (counts.free < slot_limit) }
    ensures committed { result.committed ≡ counts.committed + length (committed_of (records_in (slot_of (option_copied rec.entry) ∷ []))) }
    ensures prepared { result.prepared ≡ counts.prepared + length (prepared_of (records_in (slot_of (option_copied rec.entry) ∷ []))) }
    ensures free { result.free ≡ counts.free + free_slots (slot_of (option_copied rec.entry) ∷ []) }
    ensures few { (result.committed ≤ counts.committed + 1) × (result.prepared ≤ counts.prepared + 1) × (result.free ≤ counts.free + 1) }
{
    match rec {
        None => LogCounts {
            free: counts.free + 1,
            ..counts
        },
        Some(rec) => match rec.kind {
            LogKind::Committed => LogCounts {
                committed: counts.committed + 1,
                ..counts
            },
            LogKind::Prepared => LogCounts {
                prepared: counts.prepared + 1,
                ..counts
            },
        },
    }
}

// How many records of each kind the log has, and how many free slots.
fn count_slots<D: Disk, U: RecoveryUnits>(running: &Running<D, U>) -> LogCounts
    ensures committed { result.committed ≡ length (committed_of (records_in (U.state running.now.stored.units).log)) }
    ensures prepared { result.prepared ≡ length (prepared_of (records_in (U.state running.now.stored.units).log)) }
    ensures free { result.free ≡ free_slots (U.state running.now.stored.units).log }
{
    let mut counts = LogCounts {
        committed: 0,
        prepared: 0,
        free: 0,
    };
    let slots = running.stored.units.slots() as u32;
    for slot in 0..slots {
        counts = count_slot(counts, running.stored.units.record_at(slot));
    }
    counts
}

/// LMCP SHOW: how many committed and prepared records the log has, and how many free slots.
pub(crate) fn lmcp_show<D: Disk, U: RecoveryUnits, E: Emit>(running: &Running<D, U>, out: &mut E)
    ensures place { E.place out.new ≡ E.place out.old }
    ensures does { (clock : ℕ) (s : SharedSaid) → MayServe clock (up_of U.state running.now) → DoesRequest done (said.LmcpShow) clock (up_of U.state running.now) (up_of U.state running.now) s s (E.shows out.old) (E.shows out.new) }
{
    the_laws();
    let counts = count_slots(running);
    out.emit(&Form::NormalLog(counts.committed, counts.prepared, counts.free));
}

// Shows the record of a slot, where it has one, and tells whether it has.
fn show_record<D: Disk, U: RecoveryUnits, E: Emit>(
    running: &Running<D, U>,
    slot: u32,
    out: &mut E,
) -> bool
    ensures place { E.place out.new ≡ E.place out.old }
    ensures since { Since (E.shows out.old) (E.shows out.new) }
    ensures shows { Emits (E.shows out.old) (entry_lines_at slot (slot_at (U.state running.now.stored.units).log slot)) (E.shows out.new) }
    ensures has { result ≡ is_some (slot_at (U.state running.now.stored.units).log slot) }
{
    match running.stored.units.record_at(slot) {
        Some(rec) => {
            out.emit(&Form::LogEntry(slot, rec));
            true
        }
        None => false,
    }
}

// Shows the records of the log, in the order of their slots, and tells how many there are.
fn show_records<D: Disk, U: RecoveryUnits, E: Emit>(running: &Running<D, U>, out: &mut E) -> u64
    ensures place { E.place out.new ≡ E.place out.old }
    ensures since { Since (E.shows out.old) (E.shows out.new) }
    ensures shows { Emits (E.shows out.old) (map log_line (slot_records 0 (U.state running.now.stored.units).log)) (E.shows out.new) }
    ensures count { result ≡ length (records_in (U.state running.now.stored.units).log) }
{
    let mut count = 0;
    let slots = running.stored.units.slots() as u32;
    for slot in 0..slots {
        if show_record(running, slot, out) {
            count += 1;
        }
    }
    count
}

/// LMCP DUMP: the records of the log, in the order of their slots, and how many there are.
pub(crate) fn lmcp_dump<D: Disk, U: RecoveryUnits, E: Emit>(running: &Running<D, U>, out: &mut E)
    ensures place { E.place out.new ≡ E.place out.old }
    ensures does { (clock : ℕ) (s : SharedSaid) → MayServe clock (up_of U.state running.now) → DoesRequest done (said.LmcpDump) clock (up_of U.state running.now) (up_of U.state running.now) s s (E.shows out.old) (E.shows out.new) }
{
    the_laws();
    let count = show_records(running, out);
    out.emit(&Form::NormalCount(count));
}
