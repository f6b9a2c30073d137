//! A relative file as a map from numbers to records.
ghost use Rattle.std.specs.Prelude.{◌≡◌, ◌≤◌, ◌<◌, ◌+◌, ◌-◌, ◌*◌, ℕ, List, Bool, true, false, Option, Some, None, [], length, OnOk, OnErr, IfOk, IfSome, IfNone, option_map, unwrap_or};
ghost use Rattle.std.specs.Option.{option_copied};
ghost use Rattle.change_set.specs.careful_write.State.{StoreState};
ghost use Rattle.vms_base.specs.Keys.{key_of};
ghost use Rattle.change_set.specs.careful_write.Reads.{SameButReads};
ghost use Rattle.change_set.specs.Files.{IsPlaced, StagesIn, free_frames, fell};
ghost use Rattle.change_set.specs.Maps.{set_key};
ghost use Rattle.relative_file.specs.Cells.{map_of, IsRelative, IsLaidOut, Suits};

use crate::file::{get_cell, next_cell, set_cell};
use crate::make::make_file;
use block_disk::Disk;
use change_set::{Down, Held, Place, RecordFile, Store, number_behind};
use file_base::FileHead;
use vms_base::{Key, Record};

/// Files whose records stand in cells, numbered from 1 to the greatest record number. Every bucket is used, and a record
/// may be set wherever the number has a cell.
pub struct RelativeFile;

// A record's bytes, or no bytes for none.
fn value_bytes<'a>(value: Option<&'a Record>) -> &'a [u8]
    ensures { result.now ≡ unwrap_or (option_copied value.entry) [] }
{
    match value {
        Some(record) => record.bytes(),
        None => &[],
    }
}

// Stages the bucket of a key's cell, with this value in the cell.
fn set_record<D: Disk>(
    head: &FileHead,
    store: &mut Store<D>,
    key: &Key,
    value: Option<&Record>,
) -> Result<(), Down>
    requires form { IsRelative head.now }
    requires placed { IsPlaced head.now store.old.disk }
    requires frames { 32 ≤ free_frames store.old.pool }
    requires room { length store.old.touched ≤ 480 }
    requires suits { Suits head.now (key_of key.now) (option_copied value) }
    ensures map { OnOk result (option_map (map_of head.now) store.new.current ≡ option_map (λ before. set_key (key_of key.now) (option_copied value.entry) (map_of head.now before)) store.old.current) }
    ensures valid { OnOk result (IfSome store.old.current (λ before. IsLaidOut head.now before → IfSome store.new.current (IsLaidOut head.now))) }
    ensures staged { OnOk result (StagesIn head.now head.now.bucket store.old store.new) }
    ensures down { OnErr result (SameButReads (fell result store.old) store.new) }
{
    match key {
        Key::Number(n) => {
            let done = set_cell(head, store, *n, value_bytes(value));
            if done.is_err() {
                store.unstage();
            }
            done
        }
        _ => Ok(()),
    }
}

impl RecordFile for RelativeFile {
    ghost use Rattle.std.specs.Prelude.{◌≡◌, ℕ, Some, refl};
    ghost use Rattle.change_set.specs.tree_model.Layouts.{no_layout};
    ghost use Rattle.relative_file.specs.Cells.{map_of, IsLaidOut, IsRelative, Suits, Anything};
    ghost use Rattle.relative_file.specs.Local.{local_law, valid_local_law};

    ghost map = { map_of };

    ghost form = { IsRelative };

    ghost fresh = { λ h. Anything };

    ghost valid = { IsLaidOut };

    ghost stands = { λ h blocks key bytes. map_of h blocks key ≡ Some bytes };

    ghost suits = { Suits };

    ghost takes = { λ h blocks key value. Anything };

    ghost room = { λ h blocks key. h.mrs };

    ghost asks = { λ h blocks size. 0 };

    ghost used_after = { λ h blocks held key value. h.used };

    ghost reads = { λ h. h.bucket };

    ghost layout = { λ h blocks. no_layout };

    ghost first_layout = { λ h. no_layout };

    ghost restores = { λ h blocks key value. Anything };

    ghost begins = { λ h blocks key place. Anything };

    ghost local = { λ h a b form agrees laid. local_law h a b form agrees };

    ghost valid_local = { valid_local_law };

    ghost room_local = { λ h a b form agrees laid key. refl };

    ghost layout_local = { λ h a b form agrees laid. refl };

    ghost begins_first = { λ h blocks after form. tt };

    fn find<D: Disk>(
        head: &FileHead,
        store: &mut Store<D>,
        key: &Key,
        _place: &mut Place,
        out: &mut Record,
    ) -> Result<bool, Down> {
        match key {
            Key::Number(n) => {
                if *n == 0 || *n > head.mrn {
                    return Ok(false);
                }
                let found = get_cell(head, store, *n, out);
                if found.is_err() {
                    store.unstage();
                }
                found
            }
            _ => Ok(false),
        }
    }

    fn next_from<D: Disk>(
        head: &FileHead,
        store: &mut Store<D>,
        after: Option<&Key>,
        _place: &mut Place,
        found: &mut Key,
        out: &mut Record,
    ) -> Result<bool, Down> {
        let Some(from) = number_behind(after) else {
            return Ok(false);
        };
        match next_cell(head, store, from, out) {
            Ok(Some(n)) => {
                *found = Key::Number(n);
                Ok(true)
            }
            Ok(None) => Ok(false),
            Err(down) => {
                store.unstage();
                Err(down)
            }
        }
    }

    fn set_from<D: Disk, H: Held>(
        head: &mut FileHead,
        store: &mut Store<D>,
        key: &Key,
        value: Option<&Record>,
        _held: &H,
        _place: Place,
    ) -> Result<(), Down> {
        set_record(head, store, key, value)
    }

    fn restore<D: Disk>(
        head: &mut FileHead,
        store: &mut Store<D>,
        key: &Key,
        value: Option<&Record>,
    ) -> Result<(), Down> {
        set_record(head, store, key, value)
    }

    fn make<D: Disk>(head: &FileHead, store: &mut Store<D>) -> Result<(), Down> {
        let done = make_file(head, store);
        if done.is_err() {
            store.unstage();
        }
        done
    }

    fn need<D: Disk>(_head: &FileHead, _store: &mut Store<D>, _size: u16) -> Result<u32, Down> {
        Ok(0)
    }
}
