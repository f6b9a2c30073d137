//! A volume and its log are taken up after a fall.
ghost use Rattle.std.specs.Prelude.{◌≡◌, ◌≤◌, ◌<◌, ◌+◌, ◌-◌, ◌++◌, [], OnOk, OnErr, length, map, max, vec_capacity};
ghost use Rattle.vms_model.specs.Limits.{branch_limit, lock_limit, slot_limit};
ghost use Rattle.careful_write.specs.Down.{Counts};
ghost use Rattle.unit_aborts.specs.image_room.Room.{AllSettlementsFit};
ghost use Rattle.journal_model.specs.Ring.{ring_size};
ghost use Rattle.lmcp_log.specs.Log.{with_few_prepared};
ghost use Rattle.unit_entries.specs.log_laws.Slots.{committed_of, prepared_of, records_in};
ghost use Rattle.lmcp_log.specs.tm_types.Parts.{log_record_of};
ghost use Rattle.unit_aborts.specs.Aborting.{MayAbort};
ghost use Rattle.unit_aborts.specs.Growing.{AreTold, GrowsBy};
ghost use Rattle.unit_aborts.specs.Reopening.{MayReopen};
ghost use Rattle.unit_entries.specs.Opening.{AscendWithin};
ghost use Rattle.unit_table.specs.Units.{begun, no_units, owed};
ghost use Rattle.unit_restarts.specs.Restarting.{Restarts, RestartsNot};

use crate::restarted::Restarted;
use block_disk::Disk;
use careful_write::Down;
use journal_format::EntryBuf;
use lmcp_log::Log;
use record_locks::Locks;
use ru_journal::RuState;
use std::alloc::{AllocError, Global};
use unit_aborts::reopen_units;
use unit_entries::ChangedKeys;
use unit_returns::take_units;
use unit_table::{MOST_UNITS, UnitTable};
use vms_base::{LogRec, Moment, Record};
use volume::Volume;

/// Room for what a restart reads of the journal: whether its entries are in order, and which units it has.
#[derive(Drop)]
pub struct RestartRoom {
    state: RuState,
    left: UnitTable,
}

impl RestartRoom {
    /// Room for as many entries as a journal may have, and for as many units as may be unsettled.
    pub fn reserve(alloc: Global) -> Result<RestartRoom, AllocError> {
        Ok(RestartRoom {
            state: RuState::reserve(alloc)?,
            left: UnitTable::reserve(alloc)?,
        })
    }
}

// Lists the records of a log in the order of its slots. The prepared ones behind the 64th are read as free.
fn list_records(log: &mut Log, listed: &mut Vec<LogRec>, committed: &mut Vec<LogRec>)
    requires listed { branch_limit ≤ vec_capacity listed.old }
    requires committed { slot_limit ≤ vec_capacity committed.old }
    ensures log { log.new ≡ with_few_prepared branch_limit log.old }
    ensures prepared { map log_record_of listed.new.items ≡ prepared_of (records_in log.new) }
    ensures committed { map log_record_of committed.new.items ≡ committed_of (records_in log.new) }
    ensures few { length listed.new.items ≤ branch_limit }
    ensures listed_room { branch_limit ≤ vec_capacity listed.new }
    ensures committed_room { slot_limit ≤ vec_capacity committed.new }
{
    log.pass_over(MOST_UNITS);
    log.list(listed, committed);
}

// Lists records behind others.
fn list_behind(records: &[LogRec], out: &mut Vec<LogRec>)
    requires room { length out.old.items + length records.now ≤ vec_capacity out.old }
    ensures list { out.new.items ≡ out.old.items ++ records.now }
    ensures room { vec_capacity out.old ≤ vec_capacity out.new }
{
    match records {
        [] => {}
        [r, rest @ ..] => {
            out.push_reserved(r.copy());
            list_behind(rest, out);
        }
    }
}

// Reads the prepared records behind so many as free. Where there are such the records are listed again, the prepared ones in the order of the slots.
fn list_few(log: &mut Log, most: usize, prepared: &mut Vec<LogRec>, committed: &mut Vec<LogRec>)
    requires most { most ≤ branch_limit }
    requires many { length prepared.old.items ≡ length (prepared_of (records_in log.old)) }
    requires committed { map log_record_of committed.old.items ≡ committed_of (records_in log.old) }
    requires prepared_room { branch_limit ≤ vec_capacity prepared.old }
    requires committed_room { slot_limit ≤ vec_capacity committed.old }
    ensures log { log.new ≡ with_few_prepared most log.old }
    ensures committed { map log_record_of committed.new.items ≡ committed_of (records_in log.new) }
    ensures few { length prepared.new.items ≤ most }
    ensures same { length prepared.old.items ≤ most → (prepared.new.items ≡ prepared.old.items) × (log.new ≡ log.old) }
    ensures again { most < length prepared.old.items → map log_record_of prepared.new.items ≡ prepared_of (records_in log.new) }
    ensures prepared_room_is { branch_limit ≤ vec_capacity prepared.new }
    ensures committed_room_is { slot_limit ≤ vec_capacity committed.new }
{
    log.pass_over(most);
    if prepared.len() > most {
        log.list(prepared, committed);
    }
}

/// Takes up what a fall left: aborts the units that are not prepared, and begins those of the log's prepared records again, at places of a table
/// without units, with the keys that they changed locked. Those that are aborted and those that are begun are no more than 64 together: of more, the
/// prepared records of the last slots are read as free.
pub fn restart<D: Disk>(
    volume: &mut Volume<D>,
    log: &mut Log,
    clock: Moment,
    table: &mut UnitTable,
    locks: &mut Locks,
    room: &mut RestartRoom,
    keys: &mut ChangedKeys,
    image: &mut Record,
    entry: &mut EntryBuf,
    out: &mut Restarted,
) -> Result<(), Down>
    requires none { table.old ≡ no_units }
    requires free { locks.old.locks ≡ [] }
    requires locks { locks.old.most ≡ lock_limit }
    requires may { MayReopen clock.0 volume.old }
    ensures log { log.new ≡ with_few_prepared (branch_limit - length out.new.undone) log.old }
    ensures may { OnOk result (MayAbort volume.new) }
    ensures heads { OnOk result (length volume.new.catalog.heads ≡ length volume.old.catalog.heads) }
    ensures owed { OnOk result (volume.new.catalog.ru.end - volume.new.catalog.ru.first + owed table.new.places ≤ ring_size volume.new.catalog.ru) }
    ensures images { OnOk result (AllSettlementsFit table.new.places volume.new.catalog.heads) }
    ensures ascends { OnOk result (AscendWithin volume.new.catalog.ru.first volume.new.catalog.ru.end (begun table.new)) }
    ensures done { OnOk result (Restarts clock.0 volume.old log.old log.new table.new locks.new.locks volume.new out.new) }
    ensures err { OnErr result (RestartsNot clock.0 volume.old volume.new out.new.undone) }
    ensures room { OnOk result (volume.new.catalog.home.greatest_moment.0 + length (begun table.new) ≤ max volume.old.catalog.home.greatest_moment.0 clock.0 + branch_limit) }
    ensures most { locks.new.most ≡ lock_limit }
    ensures held { length locks.new.locks ≤ lock_limit }
    ensures grows { GrowsBy branch_limit clock.0 volume.old volume.new }
    ensures moments { AreTold volume.new out.new.undone }
    ensures few { length out.new.undone ≤ branch_limit }
    ensures counts { Counts result volume.old.store.disk volume.new.store.disk }
    ensures pool { volume.new.store.pool ≡ volume.old.store.pool }
{
    out.clear();
    list_records(log, &mut out.listed, &mut out.committed);
    let undone = reopen_units(
        volume,
        clock,
        &mut room.state,
        &mut room.left,
        &mut out.listed,
        &mut out.prepared,
        keys,
        image,
        entry,
        &mut out.undone,
    );
    list_behind(&out.listed, &mut out.prepared);
    list_few(
        log,
        MOST_UNITS - out.undone.len(),
        &mut out.prepared,
        &mut out.committed,
    );
    match undone {
        Err(down) => return Err(down),
        Ok(()) => {}
    }
    match take_units(
        volume,
        &mut room.left,
        &out.prepared,
        table,
        locks,
        &mut out.places,
        image,
    ) {
        Err(down) => return Err(down),
        Ok(()) => {}
    }
    table.stand_in_order();
    Ok(())
}
