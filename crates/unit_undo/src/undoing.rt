// What a unit changed is set back.
ghost use Rattle.std.specs.Prelude.{◌≡◌, ◌⊎◌, ◌≤◌, ◌<◌, ◌+◌, ◌*◌, ◌^◌, ℕ, List, [], Option, Some, None, ◌≢◌, OnOk, OnErr, IfOk, IfSome, length};
ghost use Rattle.std.specs.List.{All};
ghost use Rattle.vms_model.specs.Limits.{change_limit};
ghost use Rattle.block_disk.specs.Sizes.{greatest_disk_size, least_disk_size};
ghost use Rattle.careful_write.specs.Down.{Counts};
ghost use Rattle.careful_write.specs.State.{IsEither, IsIdle, IsReady, Leaves, content};
ghost use Rattle.careful_write.specs.Steps.{Quiet};
ghost use Rattle.unit_entries.specs.change_set.Files.{IsPlaced, free_frames};
ghost use Rattle.file_base.specs.declared.head.Organization.TheVariants as organization;
ghost use Rattle.journal_store.specs.Rings.{IsRing};
ghost use Rattle.directory_model.specs.record_files.Any.{IsFile};
ghost use Rattle.vms_base.specs.Keys.{key_of};
ghost use Rattle.volume.specs.State.{SameVolume};
ghost use Rattle.volume.specs.Catalogs.{IsSound};
ghost use Rattle.unit_entries.specs.sequence_laws.Undoing.{is_as_long};
ghost use Rattle.std.specs.Option.{option_copied};
ghost use Rattle.journal_format.specs.Heads.{entry_of};
ghost use Rattle.unit_entries.specs.Told.{before_in};
ghost use Rattle.unit_undo.specs.Undoing.{GoesOn, ChangesFile, ChangesHeads, ReadsChange, SetsToEntry, IsFew, MayUndo, MayGoOn, CutsFrom, TellsInPlace};
ghost use Rattle.unit_undo.specs.FileWays.{ChangesOnly, CutsOff, FailsNumber, FindsOff, PlacesOne, SetsOne, TellsBackFile, TellsFailed, UndoesNumber};
ghost use Rattle.unit_entries.specs.Rows.{key_said};
ghost use Rattle.unit_undo.specs.UnitWays.{TellsUnit};
ghost use Rattle.unit_undo.specs.Way.{Undoes, FailsOnTheWay};

use block_disk::Disk;
use careful_write::{Down, one_content};
use file_base::{FileHead, Organization};
use journal_format::{EntryHead, EntryKind};
use journal_store::entry_at;
use unit_entries::{ChangedKey, ChangedKeys, collect_keys};
use vms_base::Record;
use volume::Volume;
use volume_files::{blocks_are_whole, place_of, read_record, stage_back, stage_cut};

// How many keys are set back in one group: a bucket and a directory block each, with room for what settles a unit.
const MOST_STEPS: u32 = 26;

// Applies what is staged.
fn apply<D: Disk>(volume: &mut Volume<D>) -> Result<(), Down>
    requires ready { IsReady volume.old.store }
    ensures goes { OnOk result (GoesOn volume.old volume.new) }
    ensures catalog { volume.new.catalog ≡ volume.old.catalog }
    ensures same { OnOk result (volume.new.store.current ≡ volume.old.store.current) }
    ensures applied { OnOk result (content volume.new.store ≡ volume.old.store.current) }
    ensures nothing { OnOk result (volume.new.store.touched ≡ []) }
    ensures down { OnErr result (Leaves (IsEither (content volume.old.store) volume.old.store.current) volume.new.store.disk) }
    ensures counts { Counts result volume.old.store.disk volume.new.store.disk }
    ensures pool { volume.new.store.pool ≡ volume.old.store.pool }
{
    volume.store().apply()
}

// Applies what is staged, where that are more steps than these.
fn make_room<D: Disk>(volume: &mut Volume<D>, steps: &mut u32, most: u32) -> Result<(), Down>
    requires ready { IsReady volume.old.store }
    requires few { length volume.old.store.touched ≤ 17 * steps.old }
    ensures room { OnOk result (steps.new ≤ most) }
    ensures few { OnOk result (length volume.new.store.touched ≤ 17 * steps.new) }
    ensures goes { OnOk result (GoesOn volume.old volume.new) }
    ensures catalog { volume.new.catalog ≡ volume.old.catalog }
    ensures same { OnOk result (volume.new.store.current ≡ volume.old.store.current) }
    ensures applied { OnOk result ((content volume.new.store ≡ content volume.old.store) ⊎ (content volume.new.store ≡ volume.old.store.current)) }
    ensures down { OnErr result (Leaves (IsEither (content volume.old.store) volume.old.store.current) volume.new.store.disk) }
    ensures counts { Counts result volume.old.store.disk volume.new.store.disk }
    ensures pool { volume.new.store.pool ≡ volume.old.store.pool }
{
    if *steps > most {
        apply(volume)?;
        *steps = 0;
    }
    Ok(())
}

// Reads the entry at a position of the journal.
fn read_change<D: Disk>(
    volume: &mut Volume<D>,
    position: u64,
    image: &mut Record,
) -> Result<Option<EntryHead>, Down>
    requires ready { IsReady volume.old.store }
    requires ring { IsRing volume.old.catalog.ru volume.old.store.disk }
    requires low { position ≤ 2 ^ 62 }
    ensures entry { IfOk result (λ e. IfSome volume.old.store.current (ReadsChange volume.old.catalog.ru position e image.new)) }
    ensures same { OnOk result (SameVolume volume.old volume.new) }
    ensures catalog { volume.new.catalog ≡ volume.old.catalog }
    ensures down { OnErr result (Leaves (λ c. Some c ≡ content volume.old.store) volume.new.store.disk) }
    ensures counts { Counts result volume.old.store.disk volume.new.store.disk }
    ensures pool { volume.new.store.pool ≡ volume.old.store.pool }
{
    one_content();
    let span = *volume.ru();
    match entry_at(volume.store(), &span, position, image) {
        Ok(Some((e, _))) => Ok(Some(e)),
        Ok(None) => Ok(None),
        Err(down) => Err(down),
    }
}

// The image of a change, where it has one.
fn image_of<'a>(e: &EntryHead, image: &'a Record) -> Option<&'a Record>
    ensures { option_copied result ≡ before_in (entry_of e.now image.now) }
{
    match e.kind {
        EntryKind::Change if e.present => Some(image),
        _ => None,
    }
}

// Stages that a key has again what it had before its earliest entry.
fn set_back<D: Disk>(
    volume: &mut Volume<D>,
    head: &mut FileHead,
    key: &ChangedKey,
    image: &mut Record,
    steps: &mut u32,
) -> Result<(), Down>
    requires may { MayUndo key.now.file head.old steps.old volume.old }
    requires low { key.now.first ≤ 2 ^ 62 }
    ensures changes { OnOk result (ChangesFile key.now.file head.old volume.old volume.new head.new) }
    ensures sets { OnOk result (SetsToEntry head.old (key_of key.now.key) key.now.first volume.old volume.new head.new) }
    ensures few { OnOk result (IsFew steps.new volume.new) }
    ensures down { OnErr result (Leaves (IsEither (content volume.old.store) volume.old.store.current) volume.new.store.disk) }
    ensures kept { OnErr result (volume.new.catalog ≡ volume.old.catalog) }
    ensures counts { Counts result volume.old.store.disk volume.new.store.disk }
    ensures pool { volume.new.store.pool ≡ volume.old.store.pool }
{
    one_content();
    make_room(volume, steps, MOST_STEPS - 1)?;
    let Some(e) = read_change(volume, key.first, image)? else {
        blocks_are_whole(volume);
        return Ok(());
    };
    stage_back(volume, key.file, head, &key.key, image_of(&e, image))?;
    blocks_are_whole(volume);
    *steps += 1;
    Ok(())
}

// Takes the positions of a sequential file from one on away.
fn cut_from<D: Disk>(
    volume: &mut Volume<D>,
    file: u8,
    head: &mut FileHead,
    from: u32,
    image: &mut Record,
    steps: &mut u32,
) -> Result<(), Down>
    requires may { MayUndo file head.old steps.old volume.old }
    requires sequential { head.old.organization ≡ organization.Sequential }
    requires first { 1 ≤ from }
    requires last { from ≤ head.old.count }
    ensures changes { OnOk result (ChangesFile file head.old volume.old volume.new head.new) }
    ensures cuts { OnOk result (CutsFrom head.old from volume.old volume.new head.new) }
    ensures few { OnOk result (IsFew steps.new volume.new) }
    ensures down { OnErr result (Leaves (IsEither (content volume.old.store) volume.old.store.current) volume.new.store.disk) }
    ensures kept { OnErr result (volume.new.catalog ≡ volume.old.catalog) }
    ensures counts { Counts result volume.old.store.disk volume.new.store.disk }
    ensures pool { volume.new.store.pool ≡ volume.old.store.pool }
{
    one_content();
    make_room(volume, steps, 3)?;
    let place = place_of(volume, head, from, image)?;
    stage_cut(volume, file, head, from, place)?;
    blocks_are_whole(volume);
    *steps += 4;
    Ok(())
}

// Whether there is a record, one of this length.
fn is_as_long(image: Option<&Record>, size: usize) -> bool
    ensures { result ≡ is_as_long size (option_copied image.entry) }
{
    match image {
        Some(record) => record.bytes().len() == size,
        None => false,
    }
}

// Whether a key can be set back in place to what it had before its earliest entry.
fn is_in_place<D: Disk>(
    volume: &mut Volume<D>,
    head: &FileHead,
    key: &ChangedKey,
    image: &mut Record,
) -> Result<bool, Down>
    requires ready { IsReady volume.old.store }
    requires placed { IsPlaced head.now volume.old.store.disk }
    requires frames { 32 ≤ free_frames volume.old.store.pool }
    requires ring { IsRing volume.old.catalog.ru volume.old.store.disk }
    requires low { key.now.first ≤ 2 ^ 62 }
    ensures told { IfOk result (TellsInPlace head.now (key_of key.now.key) key.now.first volume.old) }
    ensures same { OnOk result (SameVolume volume.old volume.new) }
    ensures catalog { volume.new.catalog ≡ volume.old.catalog }
    ensures down { OnErr result (Leaves (λ c. Some c ≡ content volume.old.store) volume.new.store.disk) }
    ensures counts { Counts result volume.old.store.disk volume.new.store.disk }
    ensures pool { volume.new.store.pool ≡ volume.old.store.pool }
{
    one_content();
    if !read_record(volume, head, &key.key, image)? {
        return Ok(true);
    }
    let size = image.bytes().len();
    match read_change(volume, key.first, image)? {
        Some(e) => Ok(is_as_long(image_of(&e, image), size)),
        None => Ok(true),
    }
}

// The first position of a sequential file that cannot be set back in place, from the lowest one on that had no record before a change.
fn first_off<D: Disk>(
    volume: &mut Volume<D>,
    file: u8,
    head: &FileHead,
    keys: &ChangedKeys,
    image: &mut Record,
) -> Result<Option<u32>, Down>
    requires ready { IsReady volume.old.store }
    requires placed { IsPlaced head.now volume.old.store.disk }
    requires frames { 32 ≤ free_frames volume.old.store.pool }
    requires ring { IsRing volume.old.catalog.ru volume.old.store.disk }
    ensures finds { IfOk result (FindsOff file head.now keys.now volume.old) }
    ensures same { OnOk result (SameVolume volume.old volume.new) }
    ensures catalog { volume.new.catalog ≡ volume.old.catalog }
    ensures down { OnErr result (Leaves (λ c. Some c ≡ content volume.old.store) volume.new.store.disk) }
    ensures counts { Counts result volume.old.store.disk volume.new.store.disk }
    ensures pool { volume.new.store.pool ≡ volume.old.store.pool }
{
    let Some(lowest) = keys.lowest_absent(file) else {
        return Ok(None);
    };
    let mut next = lowest as u64;
    while let Some((i, n)) = keys.next_number(file, next) {
        match is_in_place(volume, head, keys.at(i), image) {
            Err(down) => return Err(down),
            Ok(false) => return Ok(Some(n)),
            Ok(true) => {}
        }
        next = n as u64 + 1;
    }
    Ok(None)
}

// Takes the positions of a sequential file away, from the first one on that cannot be set back in place. So none goes that an earlier undo has set back.
fn cut_off<D: Disk>(
    volume: &mut Volume<D>,
    file: u8,
    head: &mut FileHead,
    keys: &ChangedKeys,
    image: &mut Record,
    steps: &mut u32,
) -> Result<(), Down>
    requires may { MayUndo file head.old steps.old volume.old }
    requires sequential { head.old.organization ≡ organization.Sequential }
    ensures cuts { OnOk result (CutsOff file head.old keys.now volume.old volume.new head.new) }
    ensures few { OnOk result (IsFew steps.new volume.new) }
    ensures down { OnErr result (Leaves (IsEither (content volume.old.store) volume.old.store.current) volume.new.store.disk) }
    ensures kept { OnErr result (volume.new.catalog ≡ volume.old.catalog) }
    ensures counts { Counts result volume.old.store.disk volume.new.store.disk }
    ensures pool { volume.new.store.pool ≡ volume.old.store.pool }
{
    one_content();
    match first_off(volume, file, head, keys, image)? {
        Some(from) if 1 <= from && from <= head.count => {
            cut_from(volume, file, head, from, image, steps)
        }
        _ => Ok(()),
    }
}

// Stages that a key has again what it had, where it is one of this file.
fn set_key<D: Disk>(
    volume: &mut Volume<D>,
    file: u8,
    head: &mut FileHead,
    key: &ChangedKey,
    image: &mut Record,
    steps: &mut u32,
) -> Result<(), Down>
    requires may { MayUndo file head.old steps.old volume.old }
    requires low { key.now.first ≤ 2 ^ 62 }
    ensures sets { OnOk result (SetsOne file (key_said key.now) volume.old volume.new head.old head.new steps.old steps.new) }
    ensures down { OnErr result (Leaves (IsEither (content volume.old.store) volume.old.store.current) volume.new.store.disk) }
    ensures kept { OnErr result (volume.new.catalog ≡ volume.old.catalog) }
    ensures counts { Counts result volume.old.store.disk volume.new.store.disk }
    ensures pool { volume.new.store.pool ≡ volume.old.store.pool }
{
    if key.file != file {
        return Ok(());
    }
    set_back(volume, head, key, image, steps)
}

// Sets the keys of a relative or indexed file back.
fn set_keys<D: Disk>(
    volume: &mut Volume<D>,
    file: u8,
    head: &mut FileHead,
    keys: &ChangedKeys,
    image: &mut Record,
    steps: &mut u32,
) -> Result<(), Down>
    requires may { MayUndo file head.old steps.old volume.old }
    requires other { head.old.organization ≢ organization.Sequential }
    ensures changes { OnOk result (ChangesOnly file head.old volume.old volume.new head.new) }
    ensures back { OnOk result (TellsBackFile file head.old keys.now volume.old volume.new head.new) }
    ensures few { OnOk result (IsFew steps.new volume.new) }
    ensures down { OnErr result (TellsFailed file head.old keys.now volume.old volume.new) }
    ensures heads { OnErr result (ChangesHeads volume.old volume.new) }
    ensures counts { Counts result volume.old.store.disk volume.new.store.disk }
    ensures pool { volume.new.store.pool ≡ volume.old.store.pool }
{
    for i in 0..keys.len() {
        match set_key(volume, file, head, keys.at(i), image, steps) {
            Err(down) => return Err(down),
            Ok(()) => {}
        }
    }
    Ok(())
}

// Stages that a position has again what it had, where it had a record.
fn set_position<D: Disk>(
    volume: &mut Volume<D>,
    head: &mut FileHead,
    key: &ChangedKey,
    image: &mut Record,
    steps: &mut u32,
) -> Result<(), Down>
    requires may { MayUndo key.now.file head.old steps.old volume.old }
    requires low { key.now.first ≤ 2 ^ 62 }
    ensures sets { OnOk result (PlacesOne key.now.file (key_said key.now) volume.old volume.new head.old head.new steps.old steps.new) }
    ensures down { OnErr result (Leaves (IsEither (content volume.old.store) volume.old.store.current) volume.new.store.disk) }
    ensures kept { OnErr result (volume.new.catalog ≡ volume.old.catalog) }
    ensures counts { Counts result volume.old.store.disk volume.new.store.disk }
    ensures pool { volume.new.store.pool ≡ volume.old.store.pool }
{
    if !key.had {
        return Ok(());
    }
    set_back(volume, head, key, image, steps)
}

// Sets the positions of a sequential file back, in their order. Those that cannot be set back in place go first.
fn set_positions<D: Disk>(
    volume: &mut Volume<D>,
    file: u8,
    head: &mut FileHead,
    keys: &ChangedKeys,
    image: &mut Record,
    steps: &mut u32,
) -> Result<(), Down>
    requires may { MayUndo file head.old steps.old volume.old }
    requires sequential { head.old.organization ≡ organization.Sequential }
    ensures changes { OnOk result (ChangesOnly file head.old volume.old volume.new head.new) }
    ensures back { OnOk result (TellsBackFile file head.old keys.now volume.old volume.new head.new) }
    ensures few { OnOk result (IsFew steps.new volume.new) }
    ensures down { OnErr result (TellsFailed file head.old keys.now volume.old volume.new) }
    ensures heads { OnErr result (ChangesHeads volume.old volume.new) }
    ensures counts { Counts result volume.old.store.disk volume.new.store.disk }
    ensures pool { volume.new.store.pool ≡ volume.old.store.pool }
{
    match cut_off(volume, file, head, keys, image, steps) {
        Err(down) => return Err(down),
        Ok(()) => {}
    }
    let mut from = 0;
    while let Some((i, n)) = keys.next_number(file, from) {
        match set_position(volume, head, keys.at(i), image, steps) {
            Err(down) => return Err(down),
            Ok(()) => {}
        }
        from = n as u64 + 1;
    }
    Ok(())
}

// Sets back what a unit changed in one file.
fn undo_file<D: Disk>(
    volume: &mut Volume<D>,
    file: u8,
    head: &mut FileHead,
    keys: &ChangedKeys,
    image: &mut Record,
    steps: &mut u32,
) -> Result<(), Down>
    requires may { MayUndo file head.old steps.old volume.old }
    ensures changes { OnOk result (ChangesOnly file head.old volume.old volume.new head.new) }
    ensures back { OnOk result (TellsBackFile file head.old keys.now volume.old volume.new head.new) }
    ensures few { OnOk result (IsFew steps.new volume.new) }
    ensures down { OnErr result (TellsFailed file head.old keys.now volume.old volume.new) }
    ensures heads { OnErr result (ChangesHeads volume.old volume.new) }
    ensures counts { Counts result volume.old.store.disk volume.new.store.disk }
    ensures pool { volume.new.store.pool ≡ volume.old.store.pool }
{
    match head.organization {
        Organization::Sequential => set_positions(volume, file, head, keys, image, steps),
        _ => set_keys(volume, file, head, keys, image, steps),
    }
}

// Sets back what a unit changed in the file of a number, where there is one.
fn undo_number<D: Disk>(
    volume: &mut Volume<D>,
    file: u8,
    keys: &ChangedKeys,
    image: &mut Record,
    steps: &mut u32,
) -> Result<(), Down>
    requires may { MayGoOn steps.old volume.old }
    ensures undoes { OnOk result (UndoesNumber file keys.now volume.old volume.new) }
    ensures few { OnOk result (IsFew steps.new volume.new) }
    ensures down { OnErr result (FailsNumber file keys.now volume.old volume.new) }
    ensures heads { OnErr result (ChangesHeads volume.old volume.new) }
    ensures counts { Counts result volume.old.store.disk volume.new.store.disk }
    ensures pool { volume.new.store.pool ≡ volume.old.store.pool }
{
    let mut head = match volume.head(file) {
        Some(head) => *head,
        None => return Ok(()),
    };
    undo_file(volume, file, &mut head, keys, image, steps)
}

// Reads which keys a unit changed.
fn read_keys<D: Disk>(
    volume: &mut Volume<D>,
    positions: &[u64],
    keys: &mut ChangedKeys,
    image: &mut Record,
) -> Result<(), Down>
    requires ready { IsReady volume.old.store }
    requires ring { IsRing volume.old.catalog.ru volume.old.store.disk }
    requires few { length positions.now ≤ change_limit }
    requires low { All (λ p. p ≤ 2 ^ 62) positions.now }
    ensures keys { OnOk result (TellsUnit positions.now keys.new volume.old) }
    ensures same { OnOk result (SameVolume volume.old volume.new) }
    ensures down { OnErr result (Leaves (IsEither (content volume.old.store) volume.old.store.current) volume.new.store.disk) }
    ensures kept { volume.new.catalog ≡ volume.old.catalog }
    ensures counts { Counts result volume.old.store.disk volume.new.store.disk }
    ensures pool { volume.new.store.pool ≡ volume.old.store.pool }
{
    one_content();
    match collect_keys(volume, positions, keys, image) {
        Ok(()) => Ok(()),
        Err(down) => Err(down),
    }
}

/// Sets back all that a unit changed, whose entries begin at these positions of the journal, of which the oldest is the first. It takes as many groups as it
/// needs; the last of them is staged, with so many keys at the most, and is left to the caller to apply. Each takes up to 17 blocks; none is staged where
/// all are to be applied.
pub fn undo_unit<D: Disk>(
    volume: &mut Volume<D>,
    positions: &[u64],
    keys: &mut ChangedKeys,
    image: &mut Record,
    most: u32,
) -> Result<(), Down>
    requires most_left { most ≤ 26 }
    requires idle { IsIdle volume.old.store }
    requires sound { (node : List ℕ) × IsSound node volume.old.store.disk.size volume.old.catalog }
    requires least { least_disk_size ≤ volume.old.store.disk.size }
    requires most { volume.old.store.disk.size ≤ greatest_disk_size }
    requires frames { 32 ≤ free_frames volume.old.store.pool }
    requires ring { IsRing volume.old.catalog.ru volume.old.store.disk }
    requires few { length positions.now ≤ change_limit }
    requires low { All (λ p. p ≤ 2 ^ 62) positions.now }
    ensures goes { OnOk result (GoesOn volume.old volume.new) }
    ensures room { OnOk result (length volume.new.store.touched ≤ 17 * most) }
    ensures undoes { OnOk result (Undoes positions.now volume.old volume.new) }
    ensures down { OnErr result (FailsOnTheWay positions.now volume.old volume.new) }
    ensures heads { ChangesHeads volume.old volume.new }
    ensures counts { Counts result volume.old.store.disk volume.new.store.disk }
    ensures pool { volume.new.store.pool ≡ volume.old.store.pool }
{
    blocks_are_whole(volume);
    match read_keys(volume, positions, keys, image) {
        Err(down) => return Err(down),
        Ok(()) => {}
    }
    let mut steps = 0;
    for file in 0..64 {
        match undo_number(volume, file, keys, image, &mut steps) {
            Err(down) => return Err(down),
            Ok(()) => {}
        }
    }
    match make_room(volume, &mut steps, most) {
        Err(down) => Err(down),
        Ok(()) => Ok(()),
    }
}
