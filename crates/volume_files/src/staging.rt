//! Changes of a file's records that are staged, with the head of the file.
ghost use Rattle.std.specs.Prelude.{◌≡◌, ◌≢◌, ◌⊎◌, ◌<◌, ◌≤◌, ◌+◌, ◌*◌, ℕ, List, true, false, Option, Some, None, Ok, length, OnOk, OnErr, IfSome, option_map, slice_set};
ghost use Rattle.std.specs.Option.{option_copied};
ghost use Rattle.block_disk.specs.Sizes.{content_start, greatest_disk_size, least_disk_size};
ghost use Rattle.vms_base.specs.vms_model.Limits.{file_limit};
ghost use Rattle.vms_base.specs.vms_model.Blocks.{directory_start};
ghost use Rattle.careful_write.specs.State.{EachWhole};
ghost use Rattle.careful_write.specs.Sizes.{group_limit, staged_limit};
ghost use Rattle.change_set.specs.Files.{SameFile, fell, free_frames};
ghost use Rattle.file_base.specs.declared.head.Organization.TheVariants as organization;
ghost use Rattle.record_files.specs.Any.{Begins, IsFile, IsLaidOut};
ghost use Rattle.volume.specs.Catalogs.{IsSound, head_at};
ghost use Rattle.volume.specs.State.{Holds, SameVolume, with_block};
ghost use Rattle.volume.specs.volume_format.Head.{head_block_of};
ghost use Rattle.vms_base.specs.Keys.{key_of};
ghost use Rattle.vms_base.specs.vms_model.Keys.{Number};
ghost use Rattle.volume_files.specs.Staging.{StagesFile, TellsBack, TellsCut, TellsSet};

use block_disk::Disk;
use careful_write::Down;
use change_set::{Held, Place, RecordFile};
use file_base::FileHead;
use record_files::AnyFile;
use vms_base::{Key, Record};
use volume::{Volume, catalogs_stand_on_the_front};

/// What a store promises of the content that it reads: each block is whole, and they are as many as the disk has from 518 on.
pub fn blocks_are_whole<D: Disk>(volume: &mut Volume<D>)
    ensures whole { IfSome volume.old.store.current (λ blocks. length blocks + content_start ≡ volume.old.store.disk.size) }
    ensures each { IfSome volume.old.store.current EachWhole }
    ensures same { volume.new ≡ volume.old }
{
    let _ = volume.store().pool();
}

// Whether a head has other buckets or records than before.
fn is_moved(old: &FileHead, new: &FileHead) -> bool
    ensures same { result ≡ false → (new.now.used ≡ old.now.used) × (new.now.root ≡ old.now.root) × (new.now.levels ≡ old.now.levels) × (new.now.count ≡ old.now.count) }
    ensures moved { result ≡ true → new.now ≢ old.now }
{
    new.used != old.used
        || new.root != old.root
        || new.levels != old.levels
        || new.count != old.count
}

/// Stages a record of this key, or its removal, and the head where that changes. A walk to the key begins at a place. The rooms
/// of the keys that are held stay.
/// Nothing is staged where the head is none of a file of its organization.
pub fn stage_value<D: Disk, H: Held>(
    volume: &mut Volume<D>,
    file: u8,
    head: &mut FileHead,
    key: &Key,
    value: Option<&Record>,
    held: &H,
    place: Place,
) -> Result<(), Down>
    requires begins { IfSome volume.old.store.current (λ content. IsFile head.old → IsLaidOut head.old content → Begins head.old content (Some (key_of key.now)) place) }
    requires there { head_at volume.old.catalog.heads file ≡ Some head.old }
    requires whole { length volume.old.catalog.heads ≡ file_limit }
    requires sound { (node : List ℕ) × IsSound node volume.old.store.disk.size volume.old.catalog }
    requires least { least_disk_size ≤ volume.old.store.disk.size }
    requires most { volume.old.store.disk.size ≤ greatest_disk_size }
    requires frames { 32 ≤ free_frames volume.old.store.pool }
    requires staged { length volume.old.store.touched ≤ staged_limit }
    ensures stages { OnOk result (StagesFile file head.old 417 volume.old volume.new head.new) }
    ensures sets { OnOk result (TellsSet head.old (H.held held.now) (key_of key.now) (option_copied value.entry) volume.old volume.new head.new) }
    ensures unformed { (IsFile head.old → ⊥) → (result ≡ Ok tt) × (volume.new ≡ volume.old) × (head.new ≡ head.old) }
    ensures down { OnErr result (SameVolume (record volume.old { store = fell result volume.old.store }) volume.new) }
{
    catalogs_stand_on_the_front();
    blocks_are_whole(volume);
    let old = *head;
    if !AnyFile::is_formed(head) || !AnyFile::is_suited(head, key, value) {
        return Ok(());
    }
    AnyFile::set_from(head, volume.store(), key, value, held, place)?;
    stage_moved(volume, file, &old, head);
    blocks_are_whole(volume);
    Ok(())
}

/// Stages that the positions of a sequential file from one on go, and the head. A walk to it begins at a place. Nothing is
/// staged where the head is none of a sequential file.
pub fn stage_cut<D: Disk>(
    volume: &mut Volume<D>,
    file: u8,
    head: &mut FileHead,
    from: u32,
    place: Place,
) -> Result<(), Down>
    requires there { head_at volume.old.catalog.heads file ≡ Some head.old }
    requires whole { length volume.old.catalog.heads ≡ file_limit }
    requires sound { (node : List ℕ) × IsSound node volume.old.store.disk.size volume.old.catalog }
    requires least { least_disk_size ≤ volume.old.store.disk.size }
    requires most { volume.old.store.disk.size ≤ greatest_disk_size }
    requires frames { 32 ≤ free_frames volume.old.store.pool }
    requires staged { length volume.old.store.touched ≤ staged_limit }
    requires sequential { head.old.organization ≡ organization.Sequential }
    requires first { 1 ≤ from }
    requires last { from ≤ head.old.count }
    requires begins { IfSome volume.old.store.current (λ content. IsFile head.old → IsLaidOut head.old content → Begins head.old content (Some (Number from)) place) }
    ensures stages { OnOk result (StagesFile file head.old 65 volume.old volume.new head.new) }
    ensures cuts { OnOk result (TellsCut head.old from volume.old volume.new head.new) }
    ensures unformed { (IsFile head.old → ⊥) → (result ≡ Ok tt) × (volume.new ≡ volume.old) × (head.new ≡ head.old) }
    ensures down { OnErr result (SameVolume (record volume.old { store = fell result volume.old.store }) volume.new) }
{
    catalogs_stand_on_the_front();
    let old = *head;
    if !AnyFile::is_formed(head) {
        return Ok(());
    }
    AnyFile::cut_at(head, volume.store(), from, place)?;
    stage_moved(volume, file, &old, head);
    blocks_are_whole(volume);
    Ok(())
}

/// Stages that a key has again what it had, where its room holds it, and the head where that changes. Nothing is staged where
/// the head is none of a file of its organization.
pub fn stage_back<D: Disk>(
    volume: &mut Volume<D>,
    file: u8,
    head: &mut FileHead,
    key: &Key,
    value: Option<&Record>,
) -> Result<(), Down>
    requires there { head_at volume.old.catalog.heads file ≡ Some head.old }
    requires whole { length volume.old.catalog.heads ≡ file_limit }
    requires sound { (node : List ℕ) × IsSound node volume.old.store.disk.size volume.old.catalog }
    requires least { least_disk_size ≤ volume.old.store.disk.size }
    requires most { volume.old.store.disk.size ≤ greatest_disk_size }
    requires frames { 32 ≤ free_frames volume.old.store.pool }
    requires staged { length volume.old.store.touched ≤ 480 }
    ensures stages { OnOk result (StagesFile file head.old 17 volume.old volume.new head.new) }
    ensures back { OnOk result (TellsBack head.old (key_of key.now) (option_copied value.entry) volume.old volume.new head.new) }
    ensures unformed { (IsFile head.old → ⊥) → (result ≡ Ok tt) × (volume.new ≡ volume.old) × (head.new ≡ head.old) }
    ensures down { OnErr result (SameVolume (record volume.old { store = fell result volume.old.store }) volume.new) }
{
    catalogs_stand_on_the_front();
    let old = *head;
    if !AnyFile::is_formed(head) || !AnyFile::is_suited(head, key, value) {
        return Ok(());
    }
    AnyFile::restore(head, volume.store(), key, value)?;
    stage_moved(volume, file, &old, head);
    Ok(())
}

// Stages the directory block of a file where its head has other buckets or records than before.
fn stage_moved<D: Disk>(volume: &mut Volume<D>, file: u8, old: &FileHead, new: &FileHead)
    requires file { file < file_limit }
    requires size { least_disk_size ≤ volume.old.store.disk.size }
    requires room { length volume.old.store.touched < group_limit }
    requires there { head_at volume.old.catalog.heads file ≡ Some old.now }
    requires same { SameFile old.now new.now }
    ensures store { (volume.new.store ≡ volume.old.store) ⊎ (volume.new.store ≡ with_block (directory_start + file) (head_block_of new.now) volume.old.store) }
    ensures catalog { volume.new.catalog ≡ record volume.old.catalog { heads = slice_set volume.old.catalog.heads file (Some new.now) } }
    ensures still { new.now ≡ old.now → volume.new ≡ volume.old }
    ensures holds { Holds volume.old → Holds volume.new }
{
    if is_moved(old, new) {
        let Ok(()) = volume.stage_head(file, new) else {
            unreachable!()
        };
    }
}
