// A settlement with its entries in the journals of the files that the branch changed.
ghost use Rattle.std.specs.Prelude.{◌≡◌, ◌≤◌, ◌<◌, ◌+◌, ◌-◌, ◌*◌, true, List, Option, OnOk, OnErr, IfErr, length, option_map, if◌then◌else◌};
ghost use Rattle.block_disk.specs.Sizes.{least_disk_size};
ghost use Rattle.vms_model.specs.Blocks.{log_start};
ghost use Rattle.careful_write.specs.Down.{Counts};
ghost use Rattle.careful_write.specs.Reads.{SameButReads};
ghost use Rattle.careful_write.specs.State.{IsIdle, IsReady};
ghost use Rattle.journal_format.specs.journal_model.Ring.{ring_size};
ghost use Rattle.unit_journal.specs.journal_store.Rings.{IsRing};
ghost use Rattle.vms_base.specs.Ids.{serial_of, tid_of};
ghost use Rattle.vms_base.specs.Outcomes.{outcome_of};
ghost use Rattle.volume.specs.State.{Holds};
ghost use Rattle.unit_table.specs.Units.{OpenUnit, earliest};
ghost use Rattle.unit_journal.specs.Entries.{settled_entry};
ghost use Rattle.unit_journal.specs.Groups.{Breaks, Grows, GrowsOnce};
ghost use Rattle.unit_journal.specs.Settling.{entry_if};
ghost use Rattle.image_appends.specs.Images.{FellPast};
ghost use Rattle.image_appends.specs.Settling.{AllHaveRoom, files_in};
ghost use Rattle.file_settlements.specs.Settling.{SettlesFiles, content_settled, heads_settled};

use block_disk::Disk;
use careful_write::{Down, one_content};
use image_appends::append_settlement;
use journal_format::EntryBuf;
use unit_journal::{encode_settled, settle_staged};
use unit_table::Branch;
use vms_base::{Moment, Outcome};
use volume::Volume;
use volume_format::Ending;

// Stages the entry of a branch's settlement in the journals of its files, where it changed something.
fn enter_in_files<D: Disk>(
    volume: &mut Volume<D>,
    files: &[bool; 64],
    branch: &Branch,
    outcome: Outcome,
    has_changed: bool,
    moment: Moment,
    entry: &mut EntryBuf,
) -> Result<(), Down>
    requires least { least_disk_size ≤ volume.old.store.disk.size }
    requires rooms { has_changed ≡ true → AllHaveRoom files.now 48 volume.old.catalog.heads volume.old.store.disk }
    requires staged { length volume.old.store.touched + 6 * files_in files.now ≤ 480 }
    ensures current { OnOk result (volume.new.store.current ≡ option_map (content_settled (entry_if has_changed (settled_entry (tid_of branch.now.tid) (serial_of branch.now.serial) (outcome_of outcome) moment.0)) files.now volume.old.catalog.heads) volume.old.store.current) }
    ensures rest { OnOk result (SameButReads (record volume.old.store { current = volume.new.store.current; touched = volume.new.store.touched }) volume.new.store) }
    ensures catalog { OnOk result (volume.new.catalog ≡ record volume.old.catalog { heads = heads_settled (entry_if has_changed (settled_entry (tid_of branch.now.tid) (serial_of branch.now.serial) (outcome_of outcome) moment.0)) files.now volume.old.catalog.heads }) }
    ensures few { OnOk result (length volume.new.store.touched ≤ length volume.old.store.touched + 6 * files_in files.now) }
    ensures holds { OnOk result (Holds volume.old → Holds volume.new) }
    ensures ready { OnOk result (IsReady volume.old.store → IsReady volume.new.store) }
    ensures down { IfErr result (λ down. FellPast down volume.old volume.new) }
{
    if !has_changed {
        return Ok(());
    }
    encode_settled(branch.tid, branch.serial, outcome, moment, entry);
    append_settlement(volume, files, entry)
}

/// Settles a branch in one group with what is staged: its entry in both journals of each of these files, where they are kept, and its entry in the
/// journal of recovery units, where it changed something; its settlement in the home block; and that journal from a position on, or from its end.
/// There has to be room for the entries.
pub fn settle_with_files<D: Disk>(
    volume: &mut Volume<D>,
    files: &[bool; 64],
    first: Option<u64>,
    branch: &Branch,
    outcome: Outcome,
    ending: Ending,
    has_changed: bool,
    moment: Moment,
    entry: &mut EntryBuf,
) -> Result<(), Down>
    requires ready { IsReady volume.old.store }
    requires staged { length volume.old.store.touched + 6 * files_in files.now ≤ 450 }
    requires holds { Holds volume.old }
    requires ring { IsRing volume.old.catalog.ru volume.old.store.disk }
    requires behind { log_start ≤ volume.old.catalog.ru.start }
    requires least { least_disk_size ≤ volume.old.store.disk.size }
    requires room { has_changed ≡ true → volume.old.catalog.ru.end - volume.old.catalog.ru.first + 48 ≤ ring_size volume.old.catalog.ru }
    requires rooms { has_changed ≡ true → AllHaveRoom files.now 48 volume.old.catalog.heads volume.old.store.disk }
    ensures makes { OnOk result ((left : List (Option OpenUnit)) → earliest left ≡ first → SettlesFiles files.now branch.now.tid branch.now.serial ending moment.0 (entry_if has_changed (settled_entry (tid_of branch.now.tid) (serial_of branch.now.serial) (outcome_of outcome) moment.0)) left volume.old volume.new) }
    ensures end { OnOk result (volume.new.catalog.ru.end ≡ volume.old.catalog.ru.end + (if has_changed then 48 else 0)) }
    ensures idle { OnOk result (IsIdle volume.new.store) }
    ensures holds { OnOk result (Holds volume.new) }
    ensures breaks { OnErr result ((left : List (Option OpenUnit)) → earliest left ≡ first → Breaks (SettlesFiles files.now branch.now.tid branch.now.serial ending moment.0 (entry_if has_changed (settled_entry (tid_of branch.now.tid) (serial_of branch.now.serial) (outcome_of outcome) moment.0)) left volume.old) volume.old volume.new) }
    ensures grows { Grows 0 moment.0 volume.old volume.new }
    ensures once { GrowsOnce moment.0 volume.old volume.new }
    ensures counts { Counts result volume.old.store.disk volume.new.store.disk }
    ensures pool { volume.new.store.pool ≡ volume.old.store.pool }
{
    one_content();
    match enter_in_files(volume, files, branch, outcome, has_changed, moment, entry) {
        Err(down) => return Err(down),
        Ok(()) => {}
    }
    settle_staged(
        volume,
        first,
        branch,
        outcome,
        ending,
        has_changed,
        moment,
        entry,
    )
}
