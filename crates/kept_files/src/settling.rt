// A settlement with its entries in the journals of the files that keep one.
ghost use Rattle.std.specs.Prelude.{◌≡◌, ◌≤◌, ◌+◌, ◌-◌, ◌*◌, true, List, Option, OnOk, OnErr, length, if◌then◌else◌};
ghost use Rattle.block_disk.specs.Sizes.{least_disk_size};
ghost use Rattle.vms_model.specs.Blocks.{log_start};
ghost use Rattle.careful_write.specs.Down.{Counts};
ghost use Rattle.careful_write.specs.State.{IsIdle, IsReady};
ghost use Rattle.journal_format.specs.journal_model.Ring.{ring_size};
ghost use Rattle.file_settlements.specs.journal_store.Rings.{IsRing};
ghost use Rattle.vms_base.specs.Ids.{serial_of, tid_of};
ghost use Rattle.vms_base.specs.Outcomes.{outcome_of};
ghost use Rattle.volume.specs.State.{Holds};
ghost use Rattle.unit_table.specs.Units.{OpenUnit, earliest};
ghost use Rattle.file_settlements.specs.unit_journal.Entries.{settled_entry};
ghost use Rattle.file_settlements.specs.unit_journal.Groups.{Breaks, Grows, GrowsOnce};
ghost use Rattle.file_settlements.specs.unit_journal.Settling.{entry_if};
ghost use Rattle.file_settlements.specs.image_appends.Settling.{AllHaveRoom};
ghost use Rattle.file_settlements.specs.Settling.{SettlesFiles};
ghost use Rattle.kept_files.specs.Keeping.{kept_in};

use crate::keeping::keeping;
use block_disk::Disk;
use careful_write::Down;
use file_settlements::settle_with_files;
use journal_format::EntryBuf;
use unit_table::Branch;
use vms_base::{Moment, Outcome};
use volume::Volume;
use volume_format::Ending;

/// Settles a branch in one group with what is staged: its entry in both journals of each of these files, where they are kept, and its entry in the
/// journal of recovery units, where it changed something; its settlement in the home block; and that journal from a position on, or from its end.
/// There has to be room for the entries.
pub fn settle_in_files<D: Disk>(
    volume: &mut Volume<D>,
    files: &[bool; 64],
    first: Option<u64>,
    branch: &Branch,
    outcome: Outcome,
    ending: Ending,
    has_changed: bool,
    moment: Moment,
    entry: &mut EntryBuf,
) -> Result<(), Down>
    requires ready { IsReady volume.old.store }
    requires staged { length volume.old.store.touched + 6 * kept_in files.now volume.old.catalog.heads ≤ 450 }
    requires holds { Holds volume.old }
    requires ring { IsRing volume.old.catalog.ru volume.old.store.disk }
    requires behind { log_start ≤ volume.old.catalog.ru.start }
    requires least { least_disk_size ≤ volume.old.store.disk.size }
    requires room { has_changed ≡ true → volume.old.catalog.ru.end - volume.old.catalog.ru.first + 48 ≤ ring_size volume.old.catalog.ru }
    requires rooms { has_changed ≡ true → AllHaveRoom files.now 48 volume.old.catalog.heads volume.old.store.disk }
    ensures makes { OnOk result ((left : List (Option OpenUnit)) → earliest left ≡ first → SettlesFiles files.now branch.now.tid branch.now.serial ending moment.0 (entry_if has_changed (settled_entry (tid_of branch.now.tid) (serial_of branch.now.serial) (outcome_of outcome) moment.0)) left volume.old volume.new) }
    ensures end { OnOk result (volume.new.catalog.ru.end ≡ volume.old.catalog.ru.end + (if has_changed then 48 else 0)) }
    ensures idle { OnOk result (IsIdle volume.new.store) }
    ensures holds { OnOk result (Holds volume.new) }
    ensures breaks { OnErr result ((left : List (Option OpenUnit)) → earliest left ≡ first → Breaks (SettlesFiles files.now branch.now.tid branch.now.serial ending moment.0 (entry_if has_changed (settled_entry (tid_of branch.now.tid) (serial_of branch.now.serial) (outcome_of outcome) moment.0)) left volume.old) volume.old volume.new) }
    ensures grows { Grows 0 moment.0 volume.old volume.new }
    ensures once { GrowsOnce moment.0 volume.old volume.new }
    ensures counts { Counts result volume.old.store.disk volume.new.store.disk }
    ensures pool { volume.new.store.pool ≡ volume.old.store.pool }
{
    let kept = keeping(volume, files);
    settle_with_files(
        volume,
        &kept,
        first,
        branch,
        outcome,
        ending,
        has_changed,
        moment,
        entry,
    )
}
