// Entries that are entered in the journal.
ghost use Rattle.std.specs.Prelude.{◌≡◌, ◌≤◌, ◌<◌, ◌+◌, ◌-◌, ◌^◌, OnOk, IfErr, IfSome, IsSome, length, option_map};
ghost use Rattle.std.specs.Option.{option_and_then};
ghost use Rattle.block_disk.specs.Sizes.{least_disk_size};
ghost use Rattle.vms_base.specs.vms_model.Limits.{branch_limit};
ghost use Rattle.vms_base.specs.vms_model.Blocks.{log_start};
ghost use Rattle.careful_write.specs.Reads.{SameButReads};
ghost use Rattle.careful_write.specs.State.{IsReady};
ghost use Rattle.journal_format.specs.journal_model.Ring.{ring_size};
ghost use Rattle.journal_store.specs.Rings.{IsRing};
ghost use Rattle.unit_table.specs.Units.{owed, unit_at};
ghost use Rattle.volume.specs.State.{Holds};
ghost use Rattle.unit_journal.specs.Leaving.{FellIn};
ghost use Rattle.record_operations.specs.Causes.{IsRefusal, cause_of};
ghost use Rattle.unit_journal.specs.Room.{journal_refused, owed_first};
ghost use Rattle.unit_journal.specs.Spans.{entered, longer};

use block_disk::Disk;
use careful_write::Down;
use journal_format::EntryBuf;
use journal_store::{AppendErr, append, one_entry_more};
use record_operations::RecErr;
use unit_table::UnitTable;
use volume::{Volume, catalogs_stand_on_the_front};

// What a unit is owed from its first change on, where it has made none yet.
fn owed_first(positions: &[u64]) -> u64
    ensures value { result ≡ owed_first positions.now }
    ensures few { result ≤ 96 }
{
    match positions {
        [] => 96,
        _ => 0,
    }
}

/// Why the journal has too little room for entries of so many bytes by the unit at a place.
pub fn journal_refusal<D: Disk>(
    volume: &Volume<D>,
    units: &UnitTable,
    place: u8,
    size: u64,
) -> Option<RecErr>
    requires place { place < branch_limit }
    requires there { IsSome (unit_at units.now.places place) }
    requires ascends { volume.now.catalog.ru.first ≤ volume.now.catalog.ru.end }
    requires room { volume.now.catalog.ru.end - volume.now.catalog.ru.first + owed units.now.places ≤ ring_size volume.now.catalog.ru }
    requires size { size ≤ 2 ^ 32 }
    ensures refuses { IfSome (unit_at units.now.places place) (λ u. option_and_then cause_of result ≡ journal_refused volume.now.catalog.ru units.now.places u size) }
    ensures refusal { IfSome result IsRefusal }
{
    let ru = volume.ru();
    let free = 512 * u64::from(ru.blocks) - (ru.end - ru.first) - units.owed();
    let need = size + owed_first(units.positions(place));
    if free < need {
        Some(RecErr::JournalFull { free, need })
    } else {
        None
    }
}

/// Stages an entry at the journal's end, and the journal's span. There has to be room for it.
pub fn enter<D: Disk>(volume: &mut Volume<D>, entry: &EntryBuf) -> Result<(), Down>
    requires ring { IsRing volume.old.catalog.ru volume.old.store.disk }
    requires behind { log_start ≤ volume.old.catalog.ru.start }
    requires least { least_disk_size ≤ volume.old.store.disk.size }
    requires room { volume.old.catalog.ru.end - volume.old.catalog.ru.first + length entry.now ≤ ring_size volume.old.catalog.ru }
    requires staged { length volume.old.store.touched ≤ 480 }
    ensures current { OnOk result (volume.new.store.current ≡ option_map (entered volume.old.catalog.ru entry.now) volume.old.store.current) }
    ensures rest { OnOk result (SameButReads (record volume.old.store { current = volume.new.store.current; touched = volume.new.store.touched }) volume.new.store) }
    ensures catalog { OnOk result (volume.new.catalog ≡ record volume.old.catalog { ru = longer (length entry.now) volume.old.catalog.ru }) }
    ensures few { OnOk result (length volume.new.store.touched ≤ length volume.old.store.touched + 19) }
    ensures holds { OnOk result (Holds volume.old → Holds volume.new) }
    ensures ready { OnOk result (IsReady volume.old.store → IsReady volume.new.store) }
    ensures down { IfErr result (λ down. FellIn down volume.old volume.new) }
{
    catalogs_stand_on_the_front();
    one_entry_more();
    let mut span = *volume.ru();
    match append(volume.store(), &mut span, entry) {
        Ok(()) => {}
        Err(AppendErr::Down(down)) => return Err(down),
        Err(AppendErr::Full { .. }) => unreachable!(),
    }
    let Ok(()) = volume.stage_ru(&span) else {
        unreachable!()
    };
    Ok(())
}
