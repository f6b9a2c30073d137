//! An indexed file as `RecordFile` has it.
use block_disk::Disk;
use careful_write::{Down, Store};
use file_base::FileHead;
use indexed_tree::TreeFile;
use relative_file::{Held, Place, RecordFile};
use vms_base::{Key, Record};

/// Files whose records are found by a key that is a part of them. The slots of the records stand in leaves, in the order of their keys, and buckets of
/// an index lead to these. Each walk goes down the index, so one may begin at any place.
pub struct IndexedFile;

impl RecordFile for IndexedFile {
    ghost use Rattle.std.specs.Prelude.{◌*◌};
    ghost use Rattle.indexed_tree.specs.indexed_file.Chain.{StandsAt, Suits};
    ghost use Rattle.indexed_tree.specs.Files.{map_of, IsTreeHead, IsNewHead, Takes, Restores, room_at, asks, used_after, first_layout_of};
    ghost use Rattle.indexed_tree.specs.Rooted.{IsRooted, layout_in};
    ghost use Rattle.relative_file.specs.Cells.{Anything};
    ghost use Rattle.record_files.specs.Indexed.{local_law, valid_local_law, room_local_law, layout_local_law};

    ghost map = { map_of };

    ghost form = { IsTreeHead };

    ghost fresh = { IsNewHead };

    ghost valid = { IsRooted };

    ghost stands = { StandsAt };

    ghost suits = { Suits };

    ghost takes = { Takes };

    ghost room = { room_at };

    ghost asks = { asks };

    ghost used_after = { used_after };

    ghost reads = { λ h. h.levels * h.bucket };

    ghost layout = { layout_in };

    ghost first_layout = { first_layout_of };

    ghost restores = { Restores };

    ghost begins = { λ h blocks key place. Anything };

    ghost local = { local_law };

    ghost valid_local = { valid_local_law };

    ghost room_local = { room_local_law };

    ghost layout_local = { layout_local_law };

    ghost begins_first = { λ h blocks after form. tt };

    fn find<D: Disk>(
        head: &FileHead,
        store: &mut Store<D>,
        key: &Key,
        _place: &mut Place,
        out: &mut Record,
    ) -> Result<bool, Down> {
        TreeFile::get(head, store, key, out)
    }

    fn next_from<D: Disk>(
        head: &FileHead,
        store: &mut Store<D>,
        after: Option<&Key>,
        _place: &mut Place,
        found: &mut Key,
        out: &mut Record,
    ) -> Result<bool, Down> {
        TreeFile::next(head, store, after, found, out)
    }

    fn set_from<D: Disk, H: Held>(
        head: &mut FileHead,
        store: &mut Store<D>,
        key: &Key,
        value: Option<&Record>,
        held: &H,
        _place: Place,
    ) -> Result<(), Down> {
        TreeFile::set(head, store, key, value, held)
    }

    fn restore<D: Disk>(
        head: &mut FileHead,
        store: &mut Store<D>,
        key: &Key,
        value: Option<&Record>,
    ) -> Result<(), Down> {
        TreeFile::restore(head, store, key, value)
    }

    fn make<D: Disk>(head: &FileHead, store: &mut Store<D>) -> Result<(), Down> {
        TreeFile::make(head, store)
    }

    fn need<D: Disk>(head: &FileHead, _store: &mut Store<D>, _size: u16) -> Result<u32, Down> {
        Ok(TreeFile::need(head))
    }
}
