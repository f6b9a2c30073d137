//! Records of a volume's files that are read.
ghost use Rattle.std.specs.Prelude.{◌≡◌, ◌<◌, ◌≤◌, ◌+◌, ℕ, List, true, false, Option, Some, None, Ok, length, OnOk, OnErr, IfOk, IfSome, if◌then◌else◌, option_map};
ghost use Rattle.std.specs.Option.{option_copied};
ghost use Rattle.change_set.specs.Files.{IsPlaced, fell, free_frames};
ghost use Rattle.file_base.specs.declared.head.Organization.TheVariants as organization;
ghost use Rattle.change_set.specs.Maps.{EndsAfter, IsNext};
ghost use Rattle.record_files.specs.Any.{Begins, IsFile, IsLaidOut, asks, map_of, reads_of};
ghost use Rattle.volume.specs.State.{SameVolume};
ghost use Rattle.vms_base.specs.Keys.{key_of};
ghost use Rattle.vms_base.specs.vms_model.Keys as model;

use block_disk::Disk;
use careful_write::Down;
use change_set::{Place, RecordFile};
use file_base::FileHead;
use record_files::AnyFile;
use vms_base::{Key, Record};
use volume::Volume;

// More buckets than a disk has: none that a file asks for is free.
const NO_BUCKETS: u32 = 65_537;

/// Whether a file has a record of this key, which is then in `found`. A head that is none of a file of its organization is read
/// as that of an empty file.
pub fn read_record<D: Disk>(
    volume: &mut Volume<D>,
    head: &FileHead,
    key: &Key,
    found: &mut Record,
) -> Result<bool, Down>
    requires placed { IsPlaced head.now volume.old.store.disk }
    requires frames { 32 ≤ free_frames volume.old.store.pool }
    ensures found { IfOk result (λ there. IfSome volume.old.store.current (λ content. IsFile head.now → IsLaidOut head.now content → map_of head.now content (key_of key.now) ≡ (if there then Some found.new else None))) }
    ensures unformed { (IsFile head.now → ⊥) → result ≡ Ok false }
    ensures same { OnOk result (SameVolume volume.old volume.new) }
    ensures reads { volume.new.store.reads ≤ volume.old.store.reads + reads_of head.now }
    ensures down { OnErr result (SameVolume (record volume.old { store = fell result volume.old.store }) volume.new) }
{
    if !AnyFile::is_formed(head) {
        return Ok(false);
    }
    AnyFile::get(head, volume.store(), key, found)
}

/// The same by a walk to the key that may begin at a place, and that leaves such a place.
pub fn find_record<D: Disk>(
    volume: &mut Volume<D>,
    head: &FileHead,
    key: &Key,
    place: &mut Place,
    found: &mut Record,
) -> Result<bool, Down>
    requires placed { IsPlaced head.now volume.old.store.disk }
    requires frames { 32 ≤ free_frames volume.old.store.pool }
    requires begins { IfSome volume.old.store.current (λ content. IsFile head.now → IsLaidOut head.now content → Begins head.now content (Some (key_of key.now)) place.old) }
    ensures found { IfOk result (λ there. IfSome volume.old.store.current (λ content. IsFile head.now → IsLaidOut head.now content → map_of head.now content (key_of key.now) ≡ (if there then Some found.new else None))) }
    ensures begins { OnOk result (IfSome volume.old.store.current (λ content. IsFile head.now → IsLaidOut head.now content → Begins head.now content (Some (key_of key.now)) place.new)) }
    ensures unformed { (IsFile head.now → ⊥) → result ≡ Ok false }
    ensures same { OnOk result (SameVolume volume.old volume.new) }
    ensures reads { volume.new.store.reads ≤ volume.old.store.reads + reads_of head.now }
    ensures down { OnErr result (SameVolume (record volume.old { store = fell result volume.old.store }) volume.new) }
{
    if !AnyFile::is_formed(head) {
        return Ok(false);
    }
    AnyFile::find(head, volume.store(), key, place, found)
}

/// The place at which a walk to a position of a sequential file, or to one behind it, may begin. Nothing is read for the last
/// position, which is found without a walk. `found` is left with any record.
pub fn place_of<D: Disk>(
    volume: &mut Volume<D>,
    head: &FileHead,
    position: u32,
    found: &mut Record,
) -> Result<Place, Down>
    requires placed { IsPlaced head.now volume.old.store.disk }
    requires frames { 32 ≤ free_frames volume.old.store.pool }
    requires sequential { head.now.organization ≡ organization.Sequential }
    ensures begins { IfOk result (λ place. IfSome volume.old.store.current (λ content. IsFile head.now → IsLaidOut head.now content → (key : Option model.Key) → Begins head.now content key place)) }
    ensures same { OnOk result (SameVolume volume.old volume.new) }
    ensures down { OnErr result (SameVolume (record volume.old { store = fell result volume.old.store }) volume.new) }
{
    if position >= head.count {
        return Ok(Place::first());
    }
    let mut place = Place::first();
    match find_record(volume, head, &Key::Number(position), &mut place, found) {
        Ok(_) => Ok(place),
        Err(down) => Err(down),
    }
}

/// Whether a file has a record behind a key, or any where none is said; its key and the record are then in `key` and `found`.
/// A head that is none of a file of its organization is read as that of an empty file.
pub fn next_record<D: Disk>(
    volume: &mut Volume<D>,
    head: &FileHead,
    after: Option<&Key>,
    key: &mut Key,
    found: &mut Record,
) -> Result<bool, Down>
    requires placed { IsPlaced head.now volume.old.store.disk }
    requires frames { 32 ≤ free_frames volume.old.store.pool }
    ensures found { IfOk result (λ there. there ≡ true → IfSome volume.old.store.current (λ content. IsFile head.now → IsLaidOut head.now content → IsNext (map_of head.now content) (option_map key_of (option_copied after.entry)) (key_of key.new) found.new)) }
    ensures none { IfOk result (λ there. there ≡ false → IfSome volume.old.store.current (λ content. IsFile head.now → IsLaidOut head.now content → EndsAfter (map_of head.now content) (option_map key_of (option_copied after.entry)))) }
    ensures unformed { (IsFile head.now → ⊥) → result ≡ Ok false }
    ensures same { OnOk result (SameVolume volume.old volume.new) }
    ensures down { OnErr result (SameVolume (record volume.old { store = fell result volume.old.store }) volume.new) }
{
    if !AnyFile::is_formed(head) {
        return Ok(false);
    }
    AnyFile::next(head, volume.store(), after, key, found)
}

/// How many free buckets a record of so many bytes asks for: more than a disk has, where the head is none of a file of its
/// organization.
pub fn need_buckets<D: Disk>(
    volume: &mut Volume<D>,
    head: &FileHead,
    size: u16,
) -> Result<u32, Down>
    requires placed { IsPlaced head.now volume.old.store.disk }
    requires frames { 32 ≤ free_frames volume.old.store.pool }
    ensures need { IfOk result (λ need. IfSome volume.old.store.current (λ content. IsFile head.now → IsLaidOut head.now content → need ≡ asks head.now content size)) }
    ensures unformed { (IsFile head.now → ⊥) → result ≡ Ok 65537 }
    ensures same { OnOk result (SameVolume volume.old volume.new) }
    ensures down { OnErr result (SameVolume (record volume.old { store = fell result volume.old.store }) volume.new) }
{
    if !AnyFile::is_formed(head) {
        return Ok(NO_BUCKETS);
    }
    AnyFile::need(head, volume.store(), size)
}
