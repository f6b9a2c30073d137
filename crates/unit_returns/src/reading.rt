// Entries of a volume's journal.
ghost use Rattle.std.specs.Prelude.{◌≡◌, ◌≤◌, ◌<◌, ◌^◌, OnOk, OnErr, IfOk, IfSome};
ghost use Rattle.careful_write.specs.Down.{Counts};
ghost use Rattle.careful_write.specs.State.{IsReady};
ghost use Rattle.journal_store.specs.Reading.{ReadsAt};
ghost use Rattle.journal_store.specs.Rings.{IsRing};
ghost use Rattle.unit_journal.specs.Groups.{LeavesOld};
ghost use Rattle.volume.specs.State.{SameVolume};

use block_disk::Disk;
use careful_write::{Down, one_content};
use journal_format::EntryHead;
use journal_store::entry_at;
use vms_base::Record;
use volume::Volume;

/// The entry that stands at a position, and the position behind it; None exactly where none stands there.
pub(crate) fn read_entry<D: Disk>(
    volume: &mut Volume<D>,
    position: u64,
    image: &mut Record,
) -> Result<Option<(EntryHead, u64)>, Down>
    requires ready { IsReady volume.old.store }
    requires ring { IsRing volume.old.catalog.ru volume.old.store.disk }
    requires low { position ≤ 2 ^ 62 }
    ensures entry { IfOk result (λ r. IfSome volume.old.store.current (ReadsAt volume.old.catalog.ru position r image.new)) }
    ensures on { IfOk result (λ r. IfSome r (λ e. position < e.1)) }
    ensures same { OnOk result (SameVolume volume.old volume.new) }
    ensures down { OnErr result (LeavesOld volume.old volume.new.store.disk) }
    ensures kept { volume.new.catalog ≡ volume.old.catalog }
    ensures counts { Counts result volume.old.store.disk volume.new.store.disk }
    ensures pool { volume.new.store.pool ≡ volume.old.store.pool }
{
    one_content();
    let span = *volume.ru();
    match entry_at(volume.store(), &span, position, image) {
        Ok(entry) => Ok(entry),
        Err(down) => Err(down),
    }
}
