// A branch is prepared.
ghost use Rattle.std.specs.Prelude.{◌≡◌, ◌≤◌, ◌<◌, ◌+◌, ◌-◌, ℕ, true, false, Option, Some, None, IfSome, IfErr, OnOk, OnErr, length, option_map, if◌then◌else◌};
ghost use Rattle.block_disk.specs.Sizes.{least_disk_size};
ghost use Rattle.vms_model.specs.Blocks.{log_start};
ghost use Rattle.careful_write.specs.Down.{Counts};
ghost use Rattle.careful_write.specs.Reads.{SameButReads};
ghost use Rattle.careful_write.specs.State.{IsIdle, IsReady};
ghost use Rattle.journal_model.specs.Ring.{ring_size};
ghost use Rattle.journal_store.specs.Rings.{IsRing};
ghost use Rattle.unit_entries.specs.log_laws.Slots.{put_in};
ghost use Rattle.lmcp_log.specs.tm_types.Parts.{log_record_of};
ghost use Rattle.unit_journal.specs.Groups.{Breaks, Grows};
ghost use Rattle.unit_journal.specs.Leaving.{FellIn};
ghost use Rattle.unit_journal.specs.Settling.{content_with, span_with};
ghost use Rattle.vms_base.specs.Ids.{serial_of, tid_of};
ghost use Rattle.volume.specs.State.{Holds};
ghost use Rattle.unit_votes.specs.Logging.{HasLog, MayPut};
ghost use Rattle.unit_votes.specs.Voting.{MakesVote, vote_entry, vote_record};

use crate::logging::set_record;
use block_disk::Disk;
use careful_write::{Down, one_content};
use journal_format::EntryBuf;
use journal_store::one_entry_more;
use lmcp_log::{Log, log_is_as_it_was_left};
use unit_journal::{encode_prepared, enter};
use unit_table::Branch;
use vms_base::{LogKind, LogRec, RmList, SerialList};
use volume::Volume;

// The record of a prepared branch, with the managers that are to be told its outcome.
fn vote_record(branch: &Branch, rms: &RmList) -> LogRec
    ensures { log_record_of result ≡ vote_record (tid_of branch.now.tid) (serial_of branch.now.serial) rms.now }
{
    LogRec {
        kind: LogKind::Prepared,
        tid: branch.tid,
        serial: branch.serial,
        waiting: SerialList::new(),
        rms: rms.copy(),
    }
}

// Stages the entry that a branch is prepared, where it changed something.
fn enter_prepared<D: Disk>(
    volume: &mut Volume<D>,
    branch: &Branch,
    has_changed: bool,
    entry: &mut EntryBuf,
) -> Result<(), Down>
    requires ring { IsRing volume.old.catalog.ru volume.old.store.disk }
    requires behind { log_start ≤ volume.old.catalog.ru.start }
    requires least { least_disk_size ≤ volume.old.store.disk.size }
    requires room { has_changed ≡ true → volume.old.catalog.ru.end - volume.old.catalog.ru.first + 48 ≤ ring_size volume.old.catalog.ru }
    requires staged { length volume.old.store.touched ≤ 450 }
    ensures current { OnOk result (volume.new.store.current ≡ option_map (content_with (vote_entry has_changed (tid_of branch.now.tid) (serial_of branch.now.serial)) volume.old.catalog.ru) volume.old.store.current) }
    ensures rest { OnOk result (SameButReads (record volume.old.store { current = volume.new.store.current; touched = volume.new.store.touched }) volume.new.store) }
    ensures catalog { OnOk result (volume.new.catalog ≡ record volume.old.catalog { ru = span_with (vote_entry has_changed (tid_of branch.now.tid) (serial_of branch.now.serial)) volume.old.catalog.ru }) }
    ensures end { OnOk result (volume.new.catalog.ru.end ≡ volume.old.catalog.ru.end + (if has_changed then 48 else 0)) }
    ensures few { OnOk result (length volume.new.store.touched ≤ length volume.old.store.touched + 19) }
    ensures holds { OnOk result (Holds volume.old → Holds volume.new) }
    ensures ready { OnOk result (IsReady volume.old.store → IsReady volume.new.store) }
    ensures down { IfErr result (λ down. FellIn down volume.old volume.new) }
{
    if !has_changed {
        return Ok(());
    }
    encode_prepared(branch.tid, branch.serial, entry);
    enter(volume, entry)
}

/// Prepares a branch in one group: its entry, where it changed something, and its record in a slot of the log. There has to be room for both.
pub fn enter_vote<D: Disk>(
    volume: &mut Volume<D>,
    log: &mut Log,
    branch: &Branch,
    rms: &RmList,
    has_changed: bool,
    entry: &mut EntryBuf,
) -> Result<(), Down>
    requires idle { IsIdle volume.old.store }
    requires holds { Holds volume.old }
    requires ring { IsRing volume.old.catalog.ru volume.old.store.disk }
    requires least { least_disk_size ≤ volume.old.store.disk.size }
    requires room { has_changed ≡ true → volume.old.catalog.ru.end - volume.old.catalog.ru.first + 48 ≤ ring_size volume.old.catalog.ru }
    requires before { log_start + length log.old ≤ volume.old.catalog.ru.start }
    requires may { MayPut (serial_of branch.now.serial) (vote_record (tid_of branch.now.tid) (serial_of branch.now.serial) rms.now) log.old }
    ensures slots { log.new ≡ put_in (vote_record (tid_of branch.now.tid) (serial_of branch.now.serial) rms.now) log.old }
    ensures makes { OnOk result (MakesVote (vote_record (tid_of branch.now.tid) (serial_of branch.now.serial) rms.now) (vote_entry has_changed (tid_of branch.now.tid) (serial_of branch.now.serial)) log.old log.new volume.old volume.new) }
    ensures end { OnOk result (volume.new.catalog.ru.end ≡ volume.old.catalog.ru.end + (if has_changed then 48 else 0)) }
    ensures log { OnOk result (HasLog log.old volume.old → HasLog log.new volume.new) }
    ensures idle { OnOk result (IsIdle volume.new.store) }
    ensures holds { OnOk result (Holds volume.new) }
    ensures breaks { OnErr result (Breaks (MakesVote (vote_record (tid_of branch.now.tid) (serial_of branch.now.serial) rms.now) (vote_entry has_changed (tid_of branch.now.tid) (serial_of branch.now.serial)) log.old log.new volume.old) volume.old volume.new) }
    ensures grows { Grows 0 0 volume.old volume.new }
    ensures counts { Counts result volume.old.store.disk volume.new.store.disk }
    ensures pool { volume.new.store.pool ≡ volume.old.store.pool }
{
    one_content();
    one_entry_more();
    log_is_as_it_was_left();
    let vote = vote_record(branch, rms);
    set_record(volume, log, branch.serial, Some(&vote));
    match enter_prepared(volume, branch, has_changed, entry) {
        Err(down) => return Err(down),
        Ok(()) => {}
    }
    volume.store().apply()
}
