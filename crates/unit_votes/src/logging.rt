// Records of the log, in the groups of a volume.
ghost use Rattle.std.specs.Prelude.{◌≡◌, ◌≤◌, ◌<◌, ◌+◌, ◌⊎◌, ℕ, true, false, Option, Some, None, IfSome, OnOk, OnErr, length, option_copied};
ghost use Rattle.vms_model.specs.Blocks.{log_start};
ghost use Rattle.careful_write.specs.Down.{Counts};
ghost use Rattle.careful_write.specs.State.{IsIdle, IsReady};
ghost use Rattle.lmcp_log.specs.Keeping.{Keeps};
ghost use Rattle.lmcp_log.specs.Log.{slot_of};
ghost use Rattle.unit_entries.specs.log_laws.Slots.{settled_in};
ghost use Rattle.unit_journal.specs.Groups.{Breaks};
ghost use Rattle.vms_base.specs.Ids.{serial_of};
ghost use Rattle.volume.specs.State.{Holds};
ghost use Rattle.unit_votes.specs.Logging.{HasLog, MayHave, SetsRecord};

use block_disk::Disk;
use careful_write::{Down, one_content};
use lmcp_log::Log;
use vms_base::{LogRec, Serial};
use volume::{Volume, catalogs_stand_on_the_front};

/// Stages what the log has of a branch from now on: a record, in the branch's slot or else in the lowest free one, or nothing.
pub fn set_record<D: Disk>(
    volume: &mut Volume<D>,
    log: &mut Log,
    serial: Serial,
    logged: Option<&LogRec>,
)
    requires before { log_start + length log.old ≤ volume.old.catalog.ru.start }
    requires may { MayHave (serial_of serial) (slot_of (option_copied logged)) log.old }
    requires ring { volume.old.catalog.ru.start ≤ volume.old.store.disk.size }
    requires staged { length volume.old.store.touched ≤ 480 }
    ensures slots { log.new ≡ settled_in (serial_of serial) (slot_of (option_copied logged.entry)) log.old }
    ensures sets { SetsRecord (serial_of serial) (slot_of (option_copied logged.entry)) log.old log.new volume.old volume.new }
    ensures log { HasLog log.old volume.old → HasLog log.new volume.new }
    ensures rest { volume.new.store ≡ record volume.old.store { current = volume.new.store.current; touched = volume.new.store.touched } }
    ensures catalog { volume.new.catalog ≡ volume.old.catalog }
    ensures long { length log.new ≡ length log.old }
    ensures few { length volume.new.store.touched ≤ length volume.old.store.touched + 1 }
    ensures holds { Holds volume.old → Holds volume.new }
    ensures ready { IsReady volume.old.store → IsReady volume.new.store }
{
    catalogs_stand_on_the_front();
    match logged {
        Some(r) => {
            let Ok(()) = log.put(volume.store(), r) else {
                unreachable!()
            };
        }
        None => log.forget(volume.store(), serial),
    }
}

/// Changes what the log has of a branch in a group of its own: a record, in the branch's slot or else in the lowest free one, or nothing.
pub fn write_record<D: Disk>(
    volume: &mut Volume<D>,
    log: &mut Log,
    serial: Serial,
    logged: Option<&LogRec>,
) -> Result<(), Down>
    requires idle { IsIdle volume.old.store }
    requires holds { Holds volume.old }
    requires before { log_start + length log.old ≤ volume.old.catalog.ru.start }
    requires may { MayHave (serial_of serial) (slot_of (option_copied logged)) log.old }
    requires ring { volume.old.catalog.ru.start ≤ volume.old.store.disk.size }
    ensures slots { log.new ≡ settled_in (serial_of serial) (slot_of (option_copied logged.entry)) log.old }
    ensures sets { OnOk result (SetsRecord (serial_of serial) (slot_of (option_copied logged.entry)) log.old log.new volume.old volume.new) }
    ensures log { OnOk result (HasLog log.old volume.old → HasLog log.new volume.new) }
    ensures idle { OnOk result (IsIdle volume.new.store) }
    ensures holds { OnOk result (Holds volume.new) }
    ensures breaks { OnErr result (Breaks (SetsRecord (serial_of serial) (slot_of (option_copied logged.entry)) log.old log.new volume.old) volume.old volume.new) }
    ensures catalog { volume.new.catalog ≡ volume.old.catalog }
    ensures counts { Counts result volume.old.store.disk volume.new.store.disk }
    ensures pool { volume.new.store.pool ≡ volume.old.store.pool }
{
    one_content();
    set_record(volume, log, serial, logged);
    volume.store().apply()
}
