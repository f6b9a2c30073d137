//! The same records in a file of each organization, and tables of heads and keys that are those of a file or not.
ghost use Rattle.std.specs.Prelude.{◌≡◌, ◌≤◌, Bool, true, length, OnOk};
ghost use Rattle.careful_write.specs.Reads.{SameButReads};
ghost use Rattle.careful_write.specs.State.{IsIdle};
ghost use Rattle.change_set.specs.Files.{IsPlaced, free_frames};
ghost use Rattle.record_files.specs.Any.{IsFile, IsNew};

use block_disk::{CrashDisk, Disk, MemPlatter};
use careful_write::{Down, Group, Store};
use change_set::{Held, RecordFile};
use file_base::{FileHead, NO_MARKS, NO_SAVE, NO_SPAN, Organization};
use frame_pool::Pool;
use record_files::AnyFile;
use std::alloc::{AllocError, Global};
use std::test::Fail;
use vms_base::{FileName, Key, KeyText, Moment, Record};

/// Each key is held, so a slot whose record goes keeps its room.
struct AllHeld;

impl Held for AllHeld {
    ghost held = { λ all key. true };

    fn is_held(&self, _key: &Key) -> bool {
        true
    }
}

// A new file of four buckets of a block for records of up to 100 bytes; a relative one has sixteen cells.
fn new_head(name: FileName, organization: Organization) -> FileHead
    ensures form { IsFile result }
    ensures fresh { IsNew result }
    ensures place { (result.start ≡ 600) × (result.alloc ≡ 4) × (result.bucket ≡ 1) × (result.mrs ≡ 100) }
{
    let head = FileHead {
        name,
        organization: Organization::Sequential,
        marks: NO_MARKS,
        bucket: 1,
        mrs: 100,
        mrn: 0,
        key_pos: 0,
        key_size: 0,
        start: 600,
        alloc: 4,
        used: 1,
        root: 0,
        levels: 0,
        count: 0,
        ai: NO_SPAN,
        bi: NO_SPAN,
        bi_since: Moment(0),
        save: NO_SAVE,
    };
    match organization {
        Organization::Sequential => head,
        Organization::Relative => FileHead {
            organization: Organization::Relative,
            mrn: 16,
            used: 4,
            ..head
        },
        Organization::Indexed => FileHead {
            organization: Organization::Indexed,
            key_size: 4,
            levels: 1,
            ..head
        },
    }
}

// Sets a key between two groups, and applies it. False where no such file has this key and record.
fn put<D: Disk>(
    head: &mut FileHead,
    store: &mut Store<D>,
    key: &Key,
    value: Option<&Record>,
) -> Result<bool, Down>
    requires form { IsFile head.old }
    requires placed { IsPlaced head.old store.old.disk }
    requires frames { 32 ≤ free_frames store.old.pool }
    requires idle { IsIdle store.old }
    ensures form { OnOk result (IsFile head.new) }
    ensures placed { OnOk result (IsPlaced head.new store.new.disk) }
    ensures frames { OnOk result (32 ≤ free_frames store.new.pool) }
    ensures idle { OnOk result (IsIdle store.new) }
{
    if !AnyFile::is_suited(head, key, value) {
        return Ok(false);
    }
    AnyFile::set(head, store, key, value, &AllHeld)?;
    store.apply()?;
    Ok(true)
}

// The same in place, as a change is undone.
fn put_back<D: Disk>(
    head: &mut FileHead,
    store: &mut Store<D>,
    key: &Key,
    value: Option<&Record>,
) -> Result<bool, Down>
    requires form { IsFile head.old }
    requires placed { IsPlaced head.old store.old.disk }
    requires frames { 32 ≤ free_frames store.old.pool }
    requires idle { IsIdle store.old }
    ensures form { OnOk result (IsFile head.new) }
    ensures placed { OnOk result (IsPlaced head.new store.new.disk) }
    ensures frames { OnOk result (32 ≤ free_frames store.new.pool) }
    ensures idle { OnOk result (IsIdle store.new) }
{
    if !AnyFile::is_suited(head, key, value) {
        return Ok(false);
    }
    AnyFile::restore(head, store, key, value)?;
    store.apply()?;
    Ok(true)
}

// Whether a key has a record, and these bytes.
fn has<D: Disk>(
    head: &FileHead,
    store: &mut Store<D>,
    key: &Key,
    bytes: &[u8],
    out: &mut Record,
) -> Result<bool, Down>
    requires form { IsFile head.now }
    requires placed { IsPlaced head.now store.old.disk }
    requires frames { 32 ≤ free_frames store.old.pool }
    ensures same { OnOk result (SameButReads store.old store.new) }
{
    Ok(AnyFile::get(head, store, key, out)? && out.bytes() == bytes)
}

// Whether the key behind another, or the first one, is this one and has these bytes.
fn goes_on<D: Disk>(
    head: &FileHead,
    store: &mut Store<D>,
    after: Option<&Key>,
    key: &Key,
    bytes: &[u8],
    out: &mut Record,
) -> Result<bool, Down>
    requires form { IsFile head.now }
    requires placed { IsPlaced head.now store.old.disk }
    requires frames { 32 ≤ free_frames store.old.pool }
    ensures same { OnOk result (SameButReads store.old store.new) }
{
    let mut found = Key::End;
    Ok(AnyFile::next(head, store, after, &mut found, out)? && found == *key && out.bytes() == bytes)
}

// Whether no key is behind another, or none at all.
fn ends<D: Disk>(
    head: &FileHead,
    store: &mut Store<D>,
    after: Option<&Key>,
    out: &mut Record,
) -> Result<bool, Down>
    requires form { IsFile head.now }
    requires placed { IsPlaced head.now store.old.disk }
    requires frames { 32 ≤ free_frames store.old.pool }
    ensures same { OnOk result (SameButReads store.old store.new) }
{
    let mut found = Key::End;
    Ok(!AnyFile::next(head, store, after, &mut found, out)?)
}

// The record of the key at a place.
fn record_at(place: usize) -> &'static [u8]
    ensures { length result.now ≤ 100 }
{
    match place {
        0 => b"AAAA first",
        1 => b"BBBB",
        _ => b"CCCC third of three",
    }
}

/// What is done to a file, by the places of its three keys: a key gets its record, loses it, or gets it back. And what is seen of it: which key comes behind
/// another, or first, that none does, and whether a key has its record, or none.
#[derive(Clone, Copy, Debug, PartialEq, Eq, Drop)]
enum Step {
    Put(usize),
    TakeAway(usize),
    PutBack(usize),
    Follows(Option<usize>, usize),
    Ends(Option<usize>),
    Has(usize),
    HasNone(usize),
}

// Three records are put into a new file, the last one is taken away, and set back.
const STEPS: [Step; 12] = [
    Step::Ends(None),
    Step::Put(0),
    Step::Put(1),
    Step::Put(2),
    Step::Follows(None, 0),
    Step::Follows(Some(0), 1),
    Step::Ends(Some(2)),
    Step::TakeAway(2),
    Step::Ends(Some(1)),
    Step::HasNone(2),
    Step::PutBack(2),
    Step::Has(2),
];

// The key at a place, where there is one.
fn key_at(keys: &[Key; 3], place: Option<usize>) -> Option<&Key> {
    match place {
        Some(place) if place < 3 => Some(&keys[place]),
        _ => None,
    }
}

// Changes a file, and tells whether it may have the key and the record.
fn change<D: Disk>(
    head: &mut FileHead,
    store: &mut Store<D>,
    keys: &[Key; 3],
    step: Step,
    out: &mut Record,
) -> Result<bool, Down>
    requires form { IsFile head.old }
    requires placed { IsPlaced head.old store.old.disk }
    requires frames { 32 ≤ free_frames store.old.pool }
    requires idle { IsIdle store.old }
    ensures form { OnOk result (IsFile head.new) }
    ensures placed { OnOk result (IsPlaced head.new store.new.disk) }
    ensures frames { OnOk result (32 ≤ free_frames store.new.pool) }
    ensures idle { OnOk result (IsIdle store.new) }
{
    match step {
        Step::Put(i) if i < 3 => {
            out.set(record_at(i));
            put(head, store, &keys[i], Some(&*out))
        }
        Step::TakeAway(i) if i < 3 => put(head, store, &keys[i], None),
        Step::PutBack(i) if i < 3 => {
            out.set(record_at(i));
            put_back(head, store, &keys[i], Some(&*out))
        }
        _ => Ok(false),
    }
}

// Whether what is to be seen is seen.
fn is_seen<D: Disk>(
    head: &FileHead,
    store: &mut Store<D>,
    keys: &[Key; 3],
    step: Step,
    out: &mut Record,
) -> Result<bool, Down>
    requires form { IsFile head.now }
    requires placed { IsPlaced head.now store.old.disk }
    requires frames { 32 ≤ free_frames store.old.pool }
    ensures same { OnOk result (SameButReads store.old store.new) }
{
    match step {
        Step::Follows(after, i) if i < 3 => {
            goes_on(
                head,
                store,
                key_at(keys, after),
                &keys[i],
                record_at(i),
                out,
            )
        }
        Step::Ends(after) => ends(head, store, key_at(keys, after), out),
        Step::Has(i) if i < 3 => has(head, store, &keys[i], record_at(i), out),
        Step::HasNone(i) if i < 3 => Ok(!AnyFile::get(head, store, &keys[i], out)?),
        _ => Ok(false),
    }
}

fn take<D: Disk>(
    head: &mut FileHead,
    store: &mut Store<D>,
    keys: &[Key; 3],
    step: Step,
    out: &mut Record,
) -> Result<bool, Down>
    requires form { IsFile head.old }
    requires placed { IsPlaced head.old store.old.disk }
    requires frames { 32 ≤ free_frames store.old.pool }
    requires idle { IsIdle store.old }
    ensures form { OnOk result (IsFile head.new) }
    ensures placed { OnOk result (IsPlaced head.new store.new.disk) }
    ensures frames { OnOk result (32 ≤ free_frames store.new.pool) }
    ensures idle { OnOk result (IsIdle store.new) }
{
    match step {
        Step::Put(_) | Step::TakeAway(_) | Step::PutBack(_) => {
            change(head, store, keys, step, out)
        }
        _ => is_seen(head, store, keys, step, out),
    }
}

// Takes the steps above in a new file, up to one that is not seen.
fn keeps<D: Disk>(
    head: &mut FileHead,
    store: &mut Store<D>,
    keys: &[Key; 3],
    out: &mut Record,
) -> Result<Option<Step>, Down>
    requires form { IsFile head.old }
    requires placed { IsPlaced head.old store.old.disk }
    requires frames { 32 ≤ free_frames store.old.pool }
    requires idle { IsIdle store.old }
    requires fresh { IsNew head.old }
    ensures form { OnOk result (IsFile head.new) }
    ensures placed { OnOk result (IsPlaced head.new store.new.disk) }
    ensures frames { OnOk result (32 ≤ free_frames store.new.pool) }
    ensures idle { OnOk result (IsIdle store.new) }
{
    AnyFile::make(head, store)?;
    for step in STEPS {
        if !take(head, store, keys, step, out)? {
            return Ok(Some(step));
        }
    }
    Ok(None)
}

// What is told of a file: its used buckets, its records where it counts them, and the free buckets that a further record asks for.
fn told_of<D: Disk>(head: &FileHead, store: &mut Store<D>) -> Result<[u32; 3], Down>
    requires form { IsFile head.now }
    requires placed { IsPlaced head.now store.old.disk }
    requires frames { 32 ≤ free_frames store.old.pool }
    ensures same { OnOk result (SameButReads store.old store.new) }
{
    let need = AnyFile::need(head, store, 100)?;
    Ok([head.used, head.count, need])
}

// Takes the positions from one on away. False in a file that is not sequential, or has no such position.
fn cut<D: Disk>(head: &mut FileHead, store: &mut Store<D>, from: u32) -> Result<bool, Down>
    requires form { IsFile head.old }
    requires placed { IsPlaced head.old store.old.disk }
    requires frames { 32 ≤ free_frames store.old.pool }
    requires idle { IsIdle store.old }
    ensures form { OnOk result (IsFile head.new) }
    ensures placed { OnOk result (IsPlaced head.new store.new.disk) }
    ensures frames { OnOk result (32 ≤ free_frames store.new.pool) }
{
    match head.organization {
        Organization::Relative | Organization::Indexed => Ok(false),
        Organization::Sequential => {
            if from == 0 || from > head.count {
                return Ok(false);
            }
            AnyFile::cut(head, store, from)?;
            store.apply()?;
            Ok(true)
        }
    }
}

// The step that is not seen, if any, what is told then, and whether the positions from the second on are cut, in a file that has such.
type Answers = (Option<Step>, [u32; 3], bool);

fn keeps_and_cuts<D: Disk>(
    head: &mut FileHead,
    store: &mut Store<D>,
    keys: &[Key; 3],
    out: &mut Record,
) -> Result<Answers, Down>
    requires form { IsFile head.old }
    requires placed { IsPlaced head.old store.old.disk }
    requires frames { 32 ≤ free_frames store.old.pool }
    requires idle { IsIdle store.old }
    requires fresh { IsNew head.old }
{
    let unseen = keeps(head, store, keys, out)?;
    let told = told_of(head, store)?;
    let is_cut = cut(head, store, 2)? && head.count == 1 && ends(head, store, Some(&keys[0]), out)?;
    Ok((unseen, told, is_cut))
}

// None where the store did not open, or a name or a text is none.
fn run(
    alloc: Global,
    organization: Organization,
    keys: &[Key; 3],
) -> Result<Option<Result<Answers, Down>>, AllocError> {
    let disk = CrashDisk::new(alloc, MemPlatter::new(alloc, 4096)?)?;
    let group = Group::reserve(alloc)?;
    let pool = Pool::new(alloc, 32)?;
    let mut out = Record::reserve(alloc)?;
    let Some(name) = FileName::new(b"F") else {
        return Ok(None);
    };
    if disk.pending() != 0 || disk.blocks() != 4096 {
        return Ok(None);
    }
    match Store::open(disk, group, pool) {
        Ok(mut store) => {
            if !store.fits() {
                return Ok(None);
            }
            let mut head = new_head(name, organization);
            Ok(Some(keeps_and_cuts(&mut head, &mut store, keys, &mut out)))
        }
        Err(_) => Ok(None),
    }
}

fn text(bytes: &[u8]) -> Key {
    match KeyText::new(bytes) {
        Some(text) => Key::Text(text),
        None => Key::End,
    }
}

#[test]
fn each_organization_keeps_records_by_its_keys(rt: HostRuntime) -> Result<(), Fail> {
    let positions = [Key::Number(1), Key::Number(2), Key::Number(3)];
    assert_eq!(rt;
        run(rt.alloc(), Organization::Sequential, &positions)?,
        Some(Ok((None, [1, 3, 0], true)))
    );
    // Four cells a bucket: the three numbers lie in three buckets.
    let numbers = [Key::Number(1), Key::Number(6), Key::Number(16)];
    assert_eq!(rt;
        run(rt.alloc(), Organization::Relative, &numbers)?,
        Some(Ok((None, [4, 0, 0], false)))
    );
    let texts = [text(b"AAAA"), text(b"BBBB"), text(b"CCCC")];
    assert_eq!(rt;
        run(rt.alloc(), Organization::Indexed, &texts)?,
        Some(Ok((None, [1, 0, 3], false)))
    );
    Ok(())
}

/// One number of a head that is not that of a new file.
#[derive(Clone, Copy, Drop)]
enum Turn {
    Used(u32),
    Root(u32),
    Levels(u32),
    Count(u32),
    Cells(u32),
    Longest(u16),
    KeyAt(u16),
    KeySize(u16),
}

fn turned(head: FileHead, turn: Turn) -> FileHead {
    match turn {
        Turn::Used(used) => FileHead { used, ..head },
        Turn::Root(root) => FileHead { root, ..head },
        Turn::Levels(levels) => FileHead { levels, ..head },
        Turn::Count(count) => FileHead { count, ..head },
        Turn::Cells(mrn) => FileHead { mrn, ..head },
        Turn::Longest(mrs) => FileHead { mrs, ..head },
        Turn::KeyAt(key_pos) => FileHead { key_pos, ..head },
        Turn::KeySize(key_size) => FileHead { key_size, ..head },
    }
}

// Which of the heads are those of a file; empty where memory is missing.
fn formed(
    alloc: Global,
    organization: Organization,
    turns: &[Turn],
) -> Result<Vec<bool>, AllocError> {
    let mut out = Vec::new(alloc);
    for turn in turns {
        if let Some(name) = FileName::new(b"F") {
            out.push(AnyFile::is_formed(&turned(new_head(name, organization), *turn)))?;
        }
    }
    Ok(out)
}

const TURNS: [Turn; 17] = [
    Turn::Used(0),
    Turn::Used(1),
    Turn::Used(4),
    Turn::Used(5),
    Turn::Root(1),
    Turn::Levels(0),
    Turn::Levels(1),
    Turn::Levels(12),
    Turn::Levels(13),
    Turn::Count(1),
    Turn::Cells(17),
    Turn::Longest(495),
    Turn::KeyAt(96),
    Turn::KeyAt(97),
    Turn::KeySize(0),
    Turn::KeySize(64),
    Turn::KeySize(65),
];

const FORMED: [(Organization, [bool; 17]); 3] = [
    (
        Organization::Sequential,
        [
            false, true, true, false, false, true, false, false, false, true, true, true, true,
            true, true, true, true,
        ],
    ),
    (
        Organization::Relative,
        [
            false, false, true, false, false, true, false, false, false, false, false, false, true,
            true, true, true, true,
        ],
    ),
    (
        Organization::Indexed,
        [
            false, true, true, false, false, false, true, true, false, false, true, true, true,
            false, false, true, false,
        ],
    ),
];

#[test]
fn heads_have_the_numbers_of_their_organization(rt: HostRuntime) -> Result<(), Fail> {
    for (organization, want) in FORMED {
        assert_eq!(rt;
            formed(rt.alloc(), organization, &TURNS)?.as_slice(),
            want.as_slice()
        );
    }
    Ok(())
}

// Which of the keys a file may have, with this record, if any.
fn suited(
    alloc: Global,
    organization: Organization,
    keys: &[Key],
    value: Option<&Record>,
) -> Result<Vec<bool>, AllocError> {
    let mut out = Vec::new(alloc);
    for key in keys {
        if let Some(name) = FileName::new(b"F") {
            out.push(AnyFile::is_suited(&new_head(name, organization), key, value))?;
        }
    }
    Ok(out)
}

fn keys() -> [Key; 8] {
    [
        Key::Number(0),
        Key::Number(1),
        Key::Number(16),
        Key::Number(17),
        text(b"AAAA"),
        text(b"AAAB"),
        text(b"AAA"),
        Key::End,
    ]
}

// The organization, and its keys with no record, and with one of 100 bytes.
const SUITED: [(Organization, [bool; 8], [bool; 8]); 3] = [
    (
        Organization::Sequential,
        [false, true, true, true, false, false, false, false],
        [false, true, true, true, false, false, false, false],
    ),
    (
        Organization::Relative,
        [false, true, true, false, false, false, false, false],
        [false, true, true, false, false, false, false, false],
    ),
    (
        Organization::Indexed,
        [false, false, false, false, true, true, false, false],
        [false, false, false, false, true, false, false, false],
    ),
];

#[test]
fn keys_and_records_are_those_that_a_file_may_have(rt: HostRuntime) -> Result<(), Fail> {
    let mut record = Record::reserve(rt.alloc())?;
    record.set(&[b'A'; 100]);
    for (organization, gone, kept) in SUITED {
        assert_eq!(rt;
            suited(rt.alloc(), organization, &keys(), None)?.as_slice(),
            gone.as_slice()
        );
        assert_eq!(rt;
            suited(rt.alloc(), organization, &keys(), Some(&record))?.as_slice(),
            kept.as_slice()
        );
    }
    Ok(())
}

#[test]
fn no_file_may_have_a_record_that_is_too_long(rt: HostRuntime) -> Result<(), Fail> {
    let mut record = Record::reserve(rt.alloc())?;
    record.set(&[b'A'; 101]);
    for (organization, _, _) in SUITED {
        assert_eq!(rt;
            suited(rt.alloc(), organization, &keys(), Some(&record))?.as_slice(),
            [false; 8].as_slice()
        );
    }
    Ok(())
}
