// A branch is committed.
ghost use Rattle.std.specs.Prelude.{◌≡◌, ◌≤◌, ◌<◌, ◌+◌, ◌-◌, ℕ, true, false, Option, Some, None, IfSome, OnOk, OnErr, length, option_copied, if◌then◌else◌};
ghost use Rattle.block_disk.specs.Sizes.{least_disk_size};
ghost use Rattle.vms_model.specs.Blocks.{log_start};
ghost use Rattle.careful_write.specs.Down.{Counts};
ghost use Rattle.careful_write.specs.State.{IsIdle};
ghost use Rattle.journal_model.specs.Ring.{ring_size};
ghost use Rattle.journal_store.specs.Rings.{IsRing};
ghost use Rattle.lmcp_log.specs.Log.{slot_of};
ghost use Rattle.unit_entries.specs.log_laws.Slots.{settled_in};
ghost use Rattle.unit_journal.specs.Entries.{settled_entry};
ghost use Rattle.unit_journal.specs.Groups.{Breaks, Grows};
ghost use Rattle.unit_journal.specs.Settling.{entry_if};
ghost use Rattle.vms_base.specs.Ids.{serial_of, tid_of};
ghost use Rattle.vms_model.specs.Transactions.{Commit};
ghost use Rattle.volume.specs.State.{Holds};
ghost use Rattle.volume_format.specs.declared.home.Ending.TheVariants as ending;
ghost use Rattle.unit_aborts.specs.image_appends.Settling.{AllHaveRoom};
ghost use Rattle.kept_files.specs.Keeping.{StandBehind};
ghost use Rattle.unit_votes.specs.Logging.{HasLog, MayHave};
ghost use Rattle.unit_votes.specs.Voting.{MakesLogged};

use crate::logging::set_record;
use block_disk::Disk;
use careful_write::Down;
use journal_format::EntryBuf;
use journal_store::one_entry_more;
use kept_files::settle_in_files;
use lmcp_log::{Log, log_is_as_it_was_left};
use unit_table::{Branch, UnitTable};
use vms_base::{LogRec, Moment, Outcome};
use volume::Volume;
use volume_format::Ending;

/// Commits a branch in one group: its entry, where it changed something, in the journal and in those of images of the files that it changed, its
/// settlement in the home block, the journal from the earliest change of the units on that are left, and what the log has of it from now on: the
/// record of those that are to be told, or nothing. There has to be room for all of these.
pub fn commit_logged<D: Disk>(
    volume: &mut Volume<D>,
    log: &mut Log,
    left: &UnitTable,
    branch: &Branch,
    files: &[bool; 64],
    logged: Option<&LogRec>,
    has_changed: bool,
    moment: Moment,
    entry: &mut EntryBuf,
) -> Result<(), Down>
    requires idle { IsIdle volume.old.store }
    requires holds { Holds volume.old }
    requires ring { IsRing volume.old.catalog.ru volume.old.store.disk }
    requires least { least_disk_size ≤ volume.old.store.disk.size }
    requires room { has_changed ≡ true → volume.old.catalog.ru.end - volume.old.catalog.ru.first + 48 ≤ ring_size volume.old.catalog.ru }
    requires rooms { has_changed ≡ true → AllHaveRoom files.now 48 volume.old.catalog.heads volume.old.store.disk }
    requires beside { has_changed ≡ true → StandBehind files.now (log_start + length log.old) volume.old.catalog.heads }
    requires before { log_start + length log.old ≤ volume.old.catalog.ru.start }
    requires may { MayHave (serial_of branch.now.serial) (slot_of (option_copied logged)) log.old }
    ensures slots { log.new ≡ settled_in (serial_of branch.now.serial) (slot_of (option_copied logged.entry)) log.old }
    ensures makes { OnOk result (MakesLogged (record { files = files.now; tid = branch.now.tid; serial = branch.now.serial; ending = ending.Commit; moment = moment.0; entry = entry_if has_changed (settled_entry (tid_of branch.now.tid) (serial_of branch.now.serial) Commit moment.0); left = left.now.places }) (slot_of (option_copied logged.entry)) log.old log.new volume.old volume.new) }
    ensures end { OnOk result (volume.new.catalog.ru.end ≡ volume.old.catalog.ru.end + (if has_changed then 48 else 0)) }
    ensures log { OnOk result (HasLog log.old volume.old → HasLog log.new volume.new) }
    ensures idle { OnOk result (IsIdle volume.new.store) }
    ensures holds { OnOk result (Holds volume.new) }
    ensures breaks { OnErr result (Breaks (MakesLogged (record { files = files.now; tid = branch.now.tid; serial = branch.now.serial; ending = ending.Commit; moment = moment.0; entry = entry_if has_changed (settled_entry (tid_of branch.now.tid) (serial_of branch.now.serial) Commit moment.0); left = left.now.places }) (slot_of (option_copied logged.entry)) log.old log.new volume.old) volume.old volume.new) }
    ensures grows { Grows 0 moment.0 volume.old volume.new }
    ensures counts { Counts result volume.old.store.disk volume.new.store.disk }
    ensures pool { volume.new.store.pool ≡ volume.old.store.pool }
{
    one_entry_more();
    log_is_as_it_was_left();
    set_record(volume, log, branch.serial, logged);
    settle_in_files(
        volume,
        files,
        left.earliest(),
        branch,
        Outcome::Commit,
        Ending::Commit,
        has_changed,
        moment,
        entry,
    )
}
