// The records of a file, read into memory.
ghost use Rattle.std.specs.Prelude.{◌≡◌, ◌≤◌, ℕ, IfOk, IfErr, IfSome, OnOk};
ghost use Rattle.std.specs.FinMap.{get};
ghost use Rattle.change_set.specs.Files.{IsPlaced, free_frames};
ghost use Rattle.image_laws.specs.image_entries.Entries.{ReadFails};
ghost use Rattle.journal_store.specs.Refusing.{Stays};
ghost use Rattle.record_files.specs.Any.{IsFile, IsLaidOut, map_of};
ghost use Rattle.vms_model.specs.Keys as model;

use block_disk::Disk;
use careful_write::Store;
use change_set::{Place, RecordFile};
use file_base::FileHead;
use image_laws::ReadErr;
use record_files::AnyFile;
use record_maps::RecordMap;
use std::alloc::Global;
use vms_base::{Key, Record};

/// Reads all records of a file into memory. A head that is none of a file of its organization is read as that of an empty file. An error where the
/// disk goes down, and then nothing is staged; or where memory is missing.
pub fn read_records<D: Disk>(
    alloc: Global,
    store: &mut Store<D>,
    head: &FileHead,
    found: &mut Record,
) -> Result<RecordMap, ReadErr>
    requires placed { IsPlaced head.now store.old.disk }
    requires frames { 32 ≤ free_frames store.old.pool }
    ensures read { IfOk result (λ m. IfSome store.old.current (λ c. IsFile head.now → IsLaidOut head.now c → (key : model.Key) → get m key ≡ map_of head.now c key)) }
    ensures ok { OnOk result (Stays store.old store.new) }
    ensures err { IfErr result (λ e. ReadFails e store.old store.new) }
{
    let mut map = RecordMap::new(alloc);
    if !AnyFile::is_formed(head) {
        return Ok(map);
    }
    let mut after = None;
    let mut place = Place::first();
    let mut count = 0;
    while count < u64::MAX {
        let mut key = Key::End;
        match AnyFile::next_from(head, store, after.as_ref(), &mut place, &mut key, found) {
            Err(down) => return Err(ReadErr::Down(down)),
            Ok(false) => return Ok(map),
            Ok(true) => {
                match map.set(alloc, &key, Some(&*found)) {
                    Err(_) => return Err(ReadErr::Memory),
                    Ok(()) => {}
                }
                after = Some(key);
                count += 1;
            }
        }
    }
    // No map has so many records.
    let _count = map.len();
    Ok(map)
}
