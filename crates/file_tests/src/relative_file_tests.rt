//! Two files beside each other: records are set, found, listed and removed.
ghost use Rattle.std.specs.Prelude.{◌≡◌, ◌≤◌, ◌<◌, ◌*◌, ◌+◌, ◌/◌, ℕ, Bool, List, false, true, length, OnOk, IfOk, IfSome, Some, None, option_map, replicate};
ghost use Rattle.std.specs.Option.{option_copied};
ghost use Rattle.vms_model.specs.Limits.{lock_limit};
ghost use Rattle.careful_write.specs.Reads.{SameButReads};
ghost use Rattle.careful_write.specs.State.{InHome, IsIdle, IsReady};
ghost use Rattle.vms_base.specs.Keys.{key_of};
ghost use Rattle.change_set.specs.Maps.{set_key};
ghost use Rattle.change_set.specs.Files.{IsPlaced, free_frames, in_extent};
ghost use Rattle.relative_file.specs.Cells.{IsRelative, has_cell};

use block_disk::{CrashDisk, Disk, MemPlatter};
use careful_write::{Down, Group, Store};
use change_set::{Held, RecordFile};
use file_base::{FileHead, NO_MARKS, NO_SAVE, NO_SPAN, Organization};
use frame_pool::Pool;
use relative_file::RelativeFile;
use std::alloc::{AllocError, Global};
use std::test::Fail;
use vms_base::{FileName, Key, Moment, Record};

struct NoneHeld;

impl Held for NoneHeld {
    ghost held = { λ none key. false };

    fn is_held(&self, _key: &Key) -> bool {
        false
    }
}

// Stages a key of one file beside another, which keeps its map and its layout.
fn stage_beside<F: RecordFile, G: RecordFile, D: Disk, H: Held>(
    head: &mut FileHead,
    other: &FileHead,
    store: &mut Store<D>,
    key: &Key,
    value: Option<&Record>,
    held: &H,
) -> Result<(), Down>
    requires form { F.form head.old }
    requires placed { IsPlaced head.old store.old.disk }
    requires frames { 32 ≤ free_frames store.old.pool }
    requires idle { IsIdle store.old }
    requires suits { F.suits head.old (key_of key.now) (option_copied value) }
    requires other_form { G.form other.now }
    requires other_valid { IfSome store.old.current (G.valid other.now) }
    requires apart { (n : ℕ) → in_extent other.now n ≡ true → in_extent head.old n ≡ false }
    ensures map { OnOk result (IfSome store.old.current (λ before. F.valid head.old before → F.takes head.old before (key_of key.now) (option_copied value.entry) → option_map (F.map head.new) store.new.current ≡ Some (set_key (key_of key.now) (option_copied value.entry) (F.map head.old before)))) }
    ensures valid { OnOk result (IfSome store.old.current (λ before. F.valid head.old before → F.takes head.old before (key_of key.now) (option_copied value.entry) → IfSome store.new.current (F.valid head.new))) }
    ensures beside { OnOk result (option_map (G.map other.now) store.new.current ≡ option_map (G.map other.now) store.old.current) }
    ensures beside_valid { OnOk result (IfSome store.new.current (G.valid other.now)) }
    ensures ready { OnOk result (IsReady store.new) }
{
    F::set(head, store, key, value, held)
}

// The same, and applies the change.
fn set_beside<F: RecordFile, G: RecordFile, D: Disk, H: Held>(
    head: &mut FileHead,
    other: &FileHead,
    store: &mut Store<D>,
    key: &Key,
    value: Option<&Record>,
    held: &H,
) -> Result<(), Down>
    requires form { F.form head.old }
    requires placed { IsPlaced head.old store.old.disk }
    requires frames { 32 ≤ free_frames store.old.pool }
    requires idle { IsIdle store.old }
    requires suits { F.suits head.old (key_of key.now) (option_copied value) }
    requires other_form { G.form other.now }
    requires other_valid { IfSome store.old.current (G.valid other.now) }
    requires apart { (n : ℕ) → in_extent other.now n ≡ true → in_extent head.old n ≡ false }
    ensures map { OnOk result (IfSome store.old.current (λ before. F.valid head.old before → F.takes head.old before (key_of key.now) (option_copied value.entry) → option_map (F.map head.new) store.new.current ≡ Some (set_key (key_of key.now) (option_copied value.entry) (F.map head.old before)))) }
    ensures valid { OnOk result (IfSome store.old.current (λ before. F.valid head.old before → F.takes head.old before (key_of key.now) (option_copied value.entry) → IfSome store.new.current (F.valid head.new))) }
    ensures beside { OnOk result (option_map (G.map other.now) store.new.current ≡ option_map (G.map other.now) store.old.current) }
    ensures beside_valid { OnOk result (IfSome store.new.current (G.valid other.now)) }
    ensures idle { OnOk result (IsIdle store.new) }
{
    stage_beside::<F, G, D, H>(head, other, store, key, value, held)?;
    store.apply()
}

// A record for a number that has a cell, or none; it answers Ok and changes nothing where there is no such cell.
fn put<D: Disk>(
    head: &mut FileHead,
    store: &mut Store<D>,
    n: u32,
    value: Option<&Record>,
) -> Result<(), Down>
    requires form { IsRelative head.old }
    requires placed { IsPlaced head.old store.old.disk }
    requires frames { 32 ≤ free_frames store.old.pool }
    requires idle { IsIdle store.old }
    requires there { has_cell head.old n ≡ true }
    requires value { IfSome (option_copied value) (λ r. (1 ≤ length r) × (length r ≤ head.old.mrs)) }
    ensures form { OnOk result (IsRelative head.new) }
    ensures placed { OnOk result (IsPlaced head.new store.new.disk) }
    ensures frames { OnOk result (32 ≤ free_frames store.new.pool) }
    ensures idle { OnOk result (IsIdle store.new) }
    ensures same { OnOk result ((head.new.mrs ≡ head.old.mrs) × (head.new.mrn ≡ head.old.mrn)) }
    ensures size { OnOk result (store.new.disk.size ≡ store.old.disk.size) }
{
    RelativeFile::set(head, store, &Key::Number(n), value, &NoneHeld)?;
    store.apply()
}

// The same in place, as a change is undone.
fn put_back<D: Disk>(
    head: &mut FileHead,
    store: &mut Store<D>,
    n: u32,
    value: Option<&Record>,
) -> Result<(), Down>
    requires form { IsRelative head.old }
    requires placed { IsPlaced head.old store.old.disk }
    requires frames { 32 ≤ free_frames store.old.pool }
    requires idle { IsIdle store.old }
    requires there { has_cell head.old n ≡ true }
    requires value { IfSome (option_copied value) (λ r. (1 ≤ length r) × (length r ≤ head.old.mrs)) }
    ensures form { OnOk result (IsRelative head.new) }
    ensures placed { OnOk result (IsPlaced head.new store.new.disk) }
    ensures frames { OnOk result (32 ≤ free_frames store.new.pool) }
    ensures idle { OnOk result (IsIdle store.new) }
    ensures same { OnOk result ((head.new.mrs ≡ head.old.mrs) × (head.new.mrn ≡ head.old.mrn)) }
    ensures size { OnOk result (store.new.disk.size ≡ store.old.disk.size) }
{
    RelativeFile::restore(head, store, &Key::Number(n), value)?;
    store.apply()
}

// Whether the file has records at these two numbers alone, the second with these bytes.
fn has_two<D: Disk>(
    head: &FileHead,
    store: &mut Store<D>,
    numbers: [u32; 2],
    bytes: &[u8],
    out: &mut Record,
) -> Result<bool, Down>
    requires form { IsRelative head.now }
    requires placed { IsPlaced head.now store.old.disk }
    requires frames { 32 ≤ free_frames store.old.pool }
    ensures same { OnOk result (SameButReads store.old store.new) }
{
    let [first, second] = [Key::Number(numbers[0]), Key::Number(numbers[1])];
    let mut found = Key::End;
    let starts = RelativeFile::next(head, store, None, &mut found, out)? && found == first;
    let goes_on = RelativeFile::next(head, store, Some(&first), &mut found, out)?
        && found == second;
    let ends = !RelativeFile::next(head, store, Some(&second), &mut found, out)?;
    let there = RelativeFile::get(head, store, &second, out)? && out.bytes() == bytes;
    let absent = !RelativeFile::get(head, store, &Key::Number(1), out)?;
    Ok(starts && goes_on && ends && there && absent)
}

// Whether the file has a record at this number alone.
fn has_one<D: Disk>(
    head: &FileHead,
    store: &mut Store<D>,
    number: u32,
    out: &mut Record,
) -> Result<bool, Down>
    requires form { IsRelative head.now }
    requires placed { IsPlaced head.now store.old.disk }
    requires frames { 32 ≤ free_frames store.old.pool }
    requires small { number < 80 }
    ensures same { OnOk result (SameButReads store.old store.new) }
{
    let first = Key::Number(number);
    let mut found = Key::End;
    let starts = RelativeFile::next(head, store, None, &mut found, out)? && found == first;
    let ends = !RelativeFile::next(head, store, Some(&first), &mut found, out)?;
    let absent = !RelativeFile::get(head, store, &Key::Number(number + 1), out)?;
    Ok(starts && ends && absent)
}

// Writes another first byte into a block.
fn spoil<D: Disk>(head: &FileHead, store: &mut Store<D>, block: u32) -> Result<(), Down>
    requires placed { IsPlaced head.now store.old.disk }
    requires frames { 32 ≤ free_frames store.old.pool }
    requires idle { IsIdle store.old }
    requires there { InHome store.old.disk block }
    ensures placed { OnOk result (IsPlaced head.now store.new.disk) }
    ensures frames { OnOk result (32 ≤ free_frames store.new.pool) }
    ensures idle { OnOk result (IsIdle store.new) }
{
    let mut bytes = [0; 512];
    store.read(block, &mut bytes)?;
    bytes[0] = 9;
    let _ = store.stage(block, &bytes);
    store.apply()
}

// Gives the second bucket of a file another header, and sets a record there. Tells of both whether they left the records
// that they were to.
fn spoiled<D: Disk>(
    head: &mut FileHead,
    store: &mut Store<D>,
    value: &Record,
    out: &mut Record,
) -> Result<bool, Down>
    requires form { IsRelative head.old }
    requires placed { IsPlaced head.old store.old.disk }
    requires frames { 32 ≤ free_frames store.old.pool }
    requires idle { IsIdle store.old }
    requires size { store.old.disk.size ≡ lock_limit }
    requires numbers { head.old.mrn ≡ 80 }
    requires value { (1 ≤ length value.now) × (length value.now ≤ head.old.mrs) }
{
    spoil(head, store, 601)?;
    let emptied = has_one(head, store, 41, out)?;
    put(head, store, 50, Some(value))?;
    let set = has_two(head, store, [41, 50], value.bytes(), out)?;
    Ok(emptied && set)
}

// Makes a file of two buckets, sets records of it, removes one, sets another back to none, and tells whether the two
// others are there; then whether the second bucket is read as an empty one once its header is another.
fn keeps_two<D: Disk>(
    store: &mut Store<D>,
    name: FileName,
    value: &Record,
    out: &mut Record,
) -> Result<(bool, bool), Down>
    requires frames { 32 ≤ free_frames store.old.pool }
    requires idle { IsIdle store.old }
    requires size { store.old.disk.size ≡ lock_limit }
    requires value { (1 ≤ length value.now) × (length value.now ≤ 10) }
{
    let mut head = FileHead {
        name,
        organization: Organization::Relative,
        marks: NO_MARKS,
        bucket: 1,
        mrs: 10,
        mrn: 80,
        key_pos: 0,
        key_size: 0,
        start: 600,
        alloc: 2,
        used: 2,
        root: 0,
        levels: 0,
        count: 0,
        ai: NO_SPAN,
        bi: NO_SPAN,
        bi_since: Moment(0),
        save: NO_SAVE,
    };
    RelativeFile::make(&head, store)?;
    put(&mut head, store, 41, Some(value))?;
    put(&mut head, store, 42, Some(value))?;
    put(&mut head, store, 80, Some(value))?;
    put(&mut head, store, 42, None)?;
    put(&mut head, store, 43, Some(value))?;
    put_back(&mut head, store, 43, None)?;
    let kept = has_two(&head, store, [41, 80], value.bytes(), out)?;
    Ok((kept, spoiled(&mut head, store, value, out)?))
}

// None where the store did not open.
fn run(alloc: Global) -> Result<Option<Result<(bool, bool), Down>>, AllocError> {
    let disk = CrashDisk::new(alloc, MemPlatter::new(alloc, 4096)?)?;
    let group = Group::reserve(alloc)?;
    let pool = Pool::new(alloc, 32)?;
    let mut value = Record::reserve(alloc)?;
    value.set(b"ten bytes.");
    let mut out = Record::reserve(alloc)?;
    let Some(name) = FileName::new(b"F") else {
        return Ok(None);
    };
    if disk.pending() != 0 || disk.blocks() != 4096 {
        return Ok(None);
    }
    match Store::open(disk, group, pool) {
        Ok(mut store) => {
            if !store.fits() {
                return Ok(None);
            }
            Ok(Some(keeps_two(&mut store, name, &value, &mut out)))
        }
        Err(_) => Ok(None),
    }
}

#[test]
fn records_are_found_where_they_were_set_and_none_in_a_spoiled_bucket(
    rt: HostRuntime,
) -> Result<(), Fail> {
    assert_eq!(rt; run(rt.alloc())?, Some(Ok((true, true))));
    Ok(())
}

// Makes a file of 341 buckets of three blocks, on a disk that stops after so many writes.
fn make_many<D: Disk>(store: &mut Store<D>, name: FileName, writes: u32) -> Result<(), Down>
    requires frames { 32 ≤ free_frames store.old.pool }
    requires idle { IsIdle store.old }
    requires size { store.old.disk.size ≡ lock_limit }
{
    let head = FileHead {
        name,
        organization: Organization::Relative,
        marks: NO_MARKS,
        bucket: 3,
        mrs: 1504,
        mrn: 341,
        key_pos: 0,
        key_size: 0,
        start: 600,
        alloc: 341,
        used: 341,
        root: 0,
        levels: 0,
        count: 0,
        ai: NO_SPAN,
        bi: NO_SPAN,
        bi_since: Moment(0),
        save: NO_SAVE,
    };
    store.arm(writes, 0);
    RelativeFile::make(&head, store)
}

// None where the store did not open.
fn run_many(alloc: Global, writes: u32) -> Result<Option<Result<(), Down>>, AllocError> {
    let disk = CrashDisk::new(alloc, MemPlatter::new(alloc, 4096)?)?;
    let group = Group::reserve(alloc)?;
    let pool = Pool::new(alloc, 32)?;
    let Some(name) = FileName::new(b"F") else {
        return Ok(None);
    };
    if disk.pending() != 0 || disk.blocks() != 4096 {
        return Ok(None);
    }
    match Store::open(disk, group, pool) {
        Ok(mut store) => {
            if !store.fits() {
                return Ok(None);
            }
            Ok(Some(make_many(&mut store, name, writes)))
        }
        Err(_) => Ok(None),
    }
}

#[test]
fn a_file_is_made_in_as_few_groups_as_it_takes(rt: HostRuntime) -> Result<(), Fail> {
    // Two groups of 170 buckets and one of 1: of n blocks, n intents, an index of n / 128 + 1 blocks, n blocks, and the
    // gate twice. So 2 * (510 + 4 + 1 + 510 + 1) + (3 + 1 + 1 + 3 + 1) writes.
    let alloc = rt.alloc();
    assert_eq!(rt; run_many(alloc, 2061)?, Some(Ok(())));
    assert_eq!(rt; run_many(alloc, 2060)?, Some(Err(Down::Stopped)));
    Ok(())
}
