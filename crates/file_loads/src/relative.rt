//! Relative files that are loaded.
ghost use Rattle.std.specs.Prelude.{◌≡◌, ◌≤◌, ◌<◌, ◌+◌, ◌-◌, ◌*◌, ◌∷◌, [], ℕ, List, length, take, drop, map, OnOk, OnErr, IfOk, IfSome};
ghost use Rattle.careful_write.specs.Down.{Counts};
ghost use Rattle.careful_write.specs.State.{IsReady};
ghost use Rattle.change_set.specs.Files.{IsPlaced, free_frames};
ghost use Rattle.load_pages.specs.relative_file.Cells.{cells_in};
ghost use Rattle.load_pages.specs.Given.{keyed};
ghost use Rattle.load_pages.specs.load_laws.Cells.{cell_pages, values_behind, AllTo, Climbs, AllShort};
ghost use Rattle.load_pages.specs.load_laws.Pages.{Cells, Adds, StandTold};
ghost use Rattle.file_loads.specs.Writes.{HasWritten, LeavesApart};

use crate::group::put_bucket;
use block_disk::Disk;
use careful_write::{Down, Store};
use file_base::FileHead;
use frame_pool::FRAME_BYTES;
use load_pages::{KeyedRecord, cells_of, fill_cells};

// Writes bucket i, whose cells are those of the numbers behind `first`, with the records from one on that stand there, and answers the first behind these.
fn write_cells<D: Disk>(
    head: &FileHead,
    store: &mut Store<D>,
    staged: &mut u32,
    records: &[KeyedRecord],
    from: usize,
    i: u32,
) -> Result<usize, Down>
    requires placed { IsPlaced head.now store.old.disk }
    requires frames { 1 ≤ free_frames store.old.pool }
    requires there { i < head.now.alloc }
    requires ready { IsReady store.old }
    requires counted { length store.old.touched ≤ staged.old }
    requires room { staged.old ≤ 496 }
    requires short { AllShort head.now.mrs (map keyed records.now) }
    requires from { from ≤ length records.now }
    requires passed { AllTo (i * cells_in head.now) (take from (map keyed records.now)) }
    requires climbs { Climbs (i * cells_in head.now) (drop from (map keyed records.now)) }
    ensures to { IfOk result (λ end. end ≤ length records.now) }
    ensures passed { IfOk result (λ end. AllTo ((i + 1) * cells_in head.now) (take end (map keyed records.now))) }
    ensures climbs { IfOk result (λ end. Climbs ((i + 1) * cells_in head.now) (drop end (map keyed records.now))) }
    ensures adds { OnOk result (Adds head.now i (Cells (values_behind (map keyed records.now) (i * cells_in head.now)) ∷ []) store.old.current store.new.current) }
    ensures ok { OnOk result (HasWritten head.now staged.new store.old store.new) }
    ensures down { OnErr result (LeavesApart head.now store.old store.new) }
    ensures counts { Counts result store.old.disk store.new.disk }
    ensures pool { store.new.pool ≡ store.old.pool }
{
    let mut bytes = [0; FRAME_BYTES];
    let end = fill_cells(head, &mut bytes, records, from, i * cells_of(head));
    put_bucket(head, store, staged, i, &bytes)?;
    Ok(end)
}

/// Writes all buckets of a relative file, with the records in the cells of their numbers.
pub(crate) fn write_all_cells<D: Disk>(
    head: &FileHead,
    store: &mut Store<D>,
    staged: &mut u32,
    records: &[KeyedRecord],
) -> Result<(), Down>
    requires placed { IsPlaced head.now store.old.disk }
    requires frames { 1 ≤ free_frames store.old.pool }
    requires ready { IsReady store.old }
    requires counted { length store.old.touched ≤ staged.old }
    requires room { staged.old ≤ 496 }
    requires short { AllShort head.now.mrs (map keyed records.now) }
    requires climbs { Climbs 0 (map keyed records.now) }
    ensures stand { OnOk result (StandTold head.now store.new.current (cell_pages head.now (map keyed records.now) 0 head.now.alloc)) }
    ensures ok { OnOk result (HasWritten head.now staged.new store.old store.new) }
    ensures down { OnErr result (LeavesApart head.now store.old store.new) }
    ensures counts { Counts result store.old.disk store.new.disk }
    ensures pool { store.new.pool ≡ store.old.pool }
{
    let mut at = 0;
    for i in 0..head.alloc {
        let end = write_cells(head, store, staged, records, at, i)?;
        at = end;
    }
    Ok(())
}
