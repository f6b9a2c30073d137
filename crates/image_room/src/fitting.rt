// Whether the rings of journals of images have room for the settlements of units.
ghost use Rattle.std.specs.Prelude.{◌≡◌, ◌≤◌, ◌<◌, ◌+◌, ◌-◌, ◌*◌, true, false, ℕ, List, IfSome, length};
ghost use Rattle.file_base.specs.vms_model.Limits.{file_limit};
ghost use Rattle.image_appends.specs.journal_model.Ring.{ring_size};
ghost use Rattle.unit_table.specs.Units.{changers};
ghost use Rattle.volume.specs.Catalogs.{IsSound};
ghost use Rattle.image_appends.specs.declared.side.Side.TheVariants as sides;
ghost use Rattle.image_room.specs.Room.{AllSettlementsFit, IsFull, IsTooFull, SettlementsFit, kept_span as kept_said};

use crate::refusing::kept_span;
use block_disk::Disk;
use file_base::FileHead;
use image_appends::Side;
use unit_table::UnitTable;
use volume::Volume;

// Whether a file's ring of a side has so many bytes besides its entries.
fn ring_fits(side: Side, head: &FileHead, units: &UnitTable, file: u8) -> bool
    requires ordered { IfSome (kept_said side head.now) (λ s. s.first ≤ s.end) }
    ensures yes { result ≡ true → SettlementsFit side head.now file units.now.places }
    ensures no { result ≡ false → IsFull side head.now file units.now.places }
{
    match kept_span(side, head) {
        None => true,
        Some(span) => {
            u128::from(span.end - span.first) + 48 * u128::from(units.changers(file))
                <= 512 * u128::from(span.blocks)
        }
    }
}

// A volume has 64 file numbers.
fn is_whole<D: Disk>(volume: &Volume<D>)
    ensures { length volume.now.catalog.heads ≡ file_limit }
{
    let _ = volume.head(0);
}

/// Whether all journals of images have room for the settlements of the units that changed their files.
pub fn images_fit<D: Disk>(volume: &Volume<D>, units: &UnitTable) -> bool
    requires sound { (node : List ℕ) × IsSound node volume.now.store.disk.size volume.now.catalog }
    ensures yes { result ≡ true → AllSettlementsFit units.now.places volume.now.catalog.heads }
    ensures no { result ≡ false → IsTooFull units.now.places volume.now.catalog.heads }
    ensures whole { length volume.now.catalog.heads ≡ file_limit }
{
    is_whole(volume);
    for file in 0..64u8 {
        let head = match volume.head(file) {
            Some(head) => head,
            None => continue,
        };
        if !ring_fits(Side::After, head, units, file) {
            return false;
        }
        if !ring_fits(Side::Before, head, units, file) {
            return false;
        }
    }
    true
}
