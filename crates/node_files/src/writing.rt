//! Records of a volume's files as they are shown, and the groups that change a volume.
ghost use Rattle.std.specs.Prelude.{◌≡◌, ◌<◌, ◌≤◌, ◌+◌, ◌-◌, ◌*◌, true, false, Some, Ok, length, OnOk, OnErr, IfOk, IfSome, option_map, slice_set};
ghost use Rattle.std.specs.Option.{option_copied};
ghost use Rattle.block_disk.specs.Sizes.{content_start, least_disk_size};
ghost use Rattle.vms_model.specs.Limits.{file_limit};
ghost use Rattle.vms_model.specs.Blocks.{directory_start, home_block};
ghost use Rattle.careful_write.specs.Down.{Counts};
ghost use Rattle.careful_write.specs.State.{EachWhole, IsIdle, IsReady};
ghost use Rattle.change_set.specs.Files.{AgreesOut, IsPlaced, LeavesOut, fell, free_frames, in_extent};
ghost use Rattle.change_set.specs.Maps.{EndsAfter, IsNext, empty_map};
ghost use Rattle.record_files.specs.Any.{Begins, IsFile, IsLaidOut, IsNew, first_layout_of, layout_of, map_of};
ghost use Rattle.save_sets.specs.Copies.{AreApart, AreBlocks, CopiesTo, is_within};
ghost use Rattle.volume.specs.State.{SameVolume, with_block};
ghost use Rattle.volume_format.specs.Head.{head_block_of};
ghost use Rattle.volume_format.specs.Home.{home_block_of};
ghost use Rattle.vms_base.specs.Keys.{key_of};
ghost use Rattle.node_files.specs.Writing.{Writes};

use block_disk::Disk;
use careful_write::{Down, Store};
use change_set::{Place, RecordFile};
use file_base::FileHead;
use record_files::AnyFile;
use save_sets::copy;
use vms_base::{Key, Record};
use volume::Volume;
use volume_format::Home;

/// Whether a file has a record behind a key, or any where no key is said; then `key` is the first one there, and `found` its record. The walk begins at a
/// place, and where there is a record, the walk to what is behind it may begin where the place is left. A head that is none of a file of its organization is
/// read as that of an empty file.
pub fn next_record_from<D: Disk>(
    volume: &mut Volume<D>,
    head: &FileHead,
    after: Option<&Key>,
    place: &mut Place,
    key: &mut Key,
    found: &mut Record,
) -> Result<bool, Down>
    requires placed { IsPlaced head.now volume.old.store.disk }
    requires frames { 32 ≤ free_frames volume.old.store.pool }
    requires begins { IfSome volume.old.store.current (λ content. IsFile head.now → IsLaidOut head.now content → Begins head.now content (option_map key_of (option_copied after)) place.old) }
    ensures found { IfOk result (λ there. there ≡ true → IfSome volume.old.store.current (λ content. IsFile head.now → IsLaidOut head.now content → IsNext (map_of head.now content) (option_map key_of (option_copied after.entry)) (key_of key.new) found.new)) }
    ensures none { IfOk result (λ there. there ≡ false → IfSome volume.old.store.current (λ content. IsFile head.now → IsLaidOut head.now content → EndsAfter (map_of head.now content) (option_map key_of (option_copied after.entry)))) }
    ensures begins { IfOk result (λ there. there ≡ true → IfSome volume.old.store.current (λ content. IsFile head.now → IsLaidOut head.now content → Begins head.now content (Some (key_of key.new)) place.new)) }
    ensures unformed { (IsFile head.now → ⊥) → result ≡ Ok false }
    ensures same { OnOk result (SameVolume volume.old volume.new) }
    ensures down { OnErr result (SameVolume (record volume.old { store = fell result volume.old.store }) volume.new) }
{
    if !AnyFile::is_formed(head) {
        return Ok(false);
    }
    AnyFile::next_from(head, volume.store(), after, place, key, found)
}

/// What a store reads has 512 bytes a block and reaches to the end of the disk, as it promises where its frames are asked for.
pub fn blocks_are_whole<D: Disk>(store: &mut Store<D>)
    ensures each { IfSome store.old.current EachWhole }
    ensures sized { IfSome store.old.current (λ c. length c + content_start ≡ store.old.disk.size) }
    ensures same { store.new ≡ store.old }
{
    let _pool = store.pool();
}

/// Writes the buckets of a file without records, in as many groups as it takes.
pub fn make_records<D: Disk>(volume: &mut Volume<D>, head: &FileHead) -> Result<(), Down>
    requires form { IsFile head.now }
    requires fresh { IsNew head.now }
    requires placed { IsPlaced head.now volume.old.store.disk }
    requires idle { IsIdle volume.old.store }
    requires frames { 32 ≤ free_frames volume.old.store.pool }
    ensures map { OnOk result (IfSome volume.new.store.current (λ content. map_of head.now content ≡ empty_map)) }
    ensures laid { OnOk result (IfSome volume.new.store.current (IsLaidOut head.now)) }
    ensures layout { OnOk result (IfSome volume.new.store.current (λ content. layout_of head.now content ≡ first_layout_of head.now)) }
    ensures each { OnOk result (IfSome volume.new.store.current EachWhole) }
    ensures idle { OnOk result (IsIdle volume.new.store) }
    ensures outside { OnOk result (AgreesOut (in_extent head.now) volume.old.store.current volume.new.store.current) }
    ensures down { OnErr result (LeavesOut (in_extent head.now) volume.old.store.current volume.new.store.disk) }
    ensures counts { Counts result volume.old.store.disk volume.new.store.disk }
    ensures pool { volume.new.store.pool ≡ volume.old.store.pool }
    ensures catalog { volume.new.catalog ≡ volume.old.catalog }
{
    match AnyFile::make(head, volume.store()) {
        Err(down) => Err(down),
        Ok(()) => {
            blocks_are_whole(volume.store());
            Ok(())
        }
    }
}

/// Copies the buckets of a file to a run of blocks, from this one on, in as many groups as it takes.
pub fn copy_records<D: Disk>(
    volume: &mut Volume<D>,
    head: &FileHead,
    start: u32,
) -> Result<(), Down>
    requires source { AreBlocks head.now.start (head.now.alloc * head.now.bucket) volume.old.store.disk }
    requires target { AreBlocks start (head.now.alloc * head.now.bucket) volume.old.store.disk }
    requires apart { AreApart head.now.start start (head.now.alloc * head.now.bucket) }
    requires idle { IsIdle volume.old.store }
    ensures copies { OnOk result (CopiesTo (head.now.start - content_start) (start - content_start) (head.now.alloc * head.now.bucket) volume.old.store.current volume.new.store.current) }
    ensures each { OnOk result (IfSome volume.new.store.current EachWhole) }
    ensures idle { OnOk result (IsIdle volume.new.store) }
    ensures down { OnErr result (LeavesOut (is_within (start - content_start) (head.now.alloc * head.now.bucket)) volume.old.store.current volume.new.store.disk) }
    ensures counts { Counts result volume.old.store.disk volume.new.store.disk }
    ensures pool { volume.new.store.pool ≡ volume.old.store.pool }
    ensures catalog { volume.new.catalog ≡ volume.old.catalog }
{
    let blocks = head.alloc * u32::from(head.bucket);
    match copy(volume.store(), head.start, start, blocks) {
        Err(down) => Err(down),
        Ok(()) => {
            blocks_are_whole(volume.store());
            Ok(())
        }
    }
}

/// Writes the directory block of a file number, and all that is staged, in one group.
pub fn write_head<D: Disk>(volume: &mut Volume<D>, file: u8, head: &FileHead) -> Result<(), Down>
    requires file { file < file_limit }
    requires ready { IsReady volume.old.store }
    requires size { least_disk_size ≤ volume.old.store.disk.size }
    requires room { length volume.old.store.touched ≤ 480 }
    ensures { Writes result (with_block (directory_start + file) (head_block_of head.now) volume.old.store).current (record volume.old.catalog { heads = slice_set volume.old.catalog.heads file (Some head.now) }) volume.old volume.new }
{
    let Ok(()) = volume.stage_head(file, head) else {
        unreachable!()
    };
    blocks_are_whole(volume.store());
    volume.store().apply()
}

/// Writes the home block, and all that is staged, in one group.
pub fn write_home<D: Disk>(volume: &mut Volume<D>, home: &Home) -> Result<(), Down>
    requires ready { IsReady volume.old.store }
    requires size { least_disk_size ≤ volume.old.store.disk.size }
    requires room { length volume.old.store.touched ≤ 480 }
    ensures { Writes result (with_block home_block (home_block_of home.now) volume.old.store).current (record volume.old.catalog { home = home.now }) volume.old volume.new }
{
    let Ok(()) = volume.stage_home(home) else {
        unreachable!()
    };
    blocks_are_whole(volume.store());
    volume.store().apply()
}
