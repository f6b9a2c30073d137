//! Files of each organization, of none to many records: a walk finds just these, and so does each look-up.
ghost use Rattle.std.specs.Prelude.{◌≡◌, ◌≤◌, ◌+◌, ◌*◌, true, OnOk};
ghost use Rattle.careful_write.specs.Reads.{SameButReads};
ghost use Rattle.careful_write.specs.State.{IsIdle};
ghost use Rattle.change_set.specs.Files.{IsPlaced, free_frames};
ghost use Rattle.record_files.specs.Any.{IsFile};

use crate::loadable::are_loadable;
use block_disk::{CrashDisk, Disk, MemPlatter};
use careful_write::{Down, Group, Store};
use change_set::RecordFile;
use file_base::{FileHead, NO_MARKS, NO_SAVE, NO_SPAN, Organization};
use file_loads::{LoadErr, load};
use frame_pool::Pool;
use load_pages::{KeyedRecord, buckets};
use record_files::AnyFile;
use std::alloc::{AllocError, Global};
use std::test::Fail;
use vms_base::{FileName, Key, KeyText, Moment, Record};

/// A file into which records are loaded: its organization, the blocks of a bucket, the longest record, and the bytes of a key, which lie from byte 4 on.
#[derive(Clone, Copy, Debug, PartialEq, Eq, Drop)]
struct Shape(Organization, u16, u16, u16);

// Its head, in 200 buckets from block 600 on. What it says of earlier records is of no use.
fn head_of(name: FileName, shape: Shape) -> FileHead
    ensures { (result.start ≡ 600) × (result.alloc ≡ 200) }
{
    FileHead {
        name,
        organization: shape.0,
        marks: NO_MARKS,
        bucket: shape.1,
        mrs: shape.2,
        mrn: 200,
        key_pos: 4,
        key_size: shape.3,
        start: 600,
        alloc: 200,
        used: 77,
        root: 9,
        levels: 3,
        count: 5,
        ai: NO_SPAN,
        bi: NO_SPAN,
        bi_since: Moment(0),
        save: NO_SAVE,
    }
}

// Whether it has a place on a disk of 4,096 blocks.
fn has_limits(head: &FileHead) -> bool
    ensures one { result ≡ true → 1 ≤ head.now.bucket }
    ensures blocks { result ≡ true → head.now.bucket ≤ 16 }
    ensures least { result ≡ true → 1 ≤ head.now.mrs }
    ensures records { result ≡ true → head.now.mrs + 32 ≤ 512 * head.now.bucket }
    ensures most { result ≡ true → head.now.mrs ≤ 8160 }
{
    if head.bucket == 0 || head.bucket > 16 || head.mrs == 0 || head.mrs > 8160 {
        return false;
    }
    head.mrs as u32 + 32 <= 512 * head.bucket as u32
}

// How long record i is, up to the longest. That of an indexed file has its key.
fn size_of(shape: Shape, i: usize) -> usize {
    let Shape(organization, _, mrs, _) = shape;
    let most = mrs as usize;
    if most == 0 {
        return 0;
    }
    match organization {
        Organization::Indexed => most - (i % 3).min(most),
        Organization::Sequential => 1 + i % most,
        Organization::Relative => 1 + i % most,
    }
}

// Its bytes, of which those from 4 on begin with its number.
fn bytes_of(alloc: Global, shape: Shape, i: usize) -> Result<Vec<u8>, AllocError> {
    let mut bytes = Vec::new(alloc);
    for k in 0..size_of(shape, i) {
        bytes.push(match k {
            0 => (i % 7) as u8,
            4 => (i / 256 % 256) as u8,
            5 => (i % 256) as u8,
            _ => b'a',
        })?;
    }
    Ok(bytes)
}

// Its key.
fn key_of(shape: Shape, i: usize, bytes: &[u8]) -> Key {
    let Shape(organization, _, _, key_size) = shape;
    match organization {
        Organization::Sequential => Key::Number((i % 1000) as u32 + 1),
        Organization::Relative => Key::Number(2 * (i % 1000) as u32 + 1),
        Organization::Indexed => {
            let end = 4 + key_size as usize;
            if end > bytes.len() {
                return Key::End;
            }
            match KeyText::new(&bytes[4..end]) {
                Some(text) => Key::Text(text),
                None => Key::End,
            }
        }
    }
}

// So many records.
fn records_of(alloc: Global, shape: Shape, count: usize) -> Result<Vec<KeyedRecord>, AllocError> {
    let mut records = Vec::new(alloc);
    for i in 0..count {
        let bytes = bytes_of(alloc, shape, i)?;
        let key = key_of(shape, i, &bytes);
        records.push(KeyedRecord { key, bytes })?;
    }
    Ok(records)
}

// Whether a record is that behind another or the first one, and is found under its key too.
fn has_one<D: Disk>(
    head: &FileHead,
    store: &mut Store<D>,
    after: Option<&Key>,
    record: &KeyedRecord,
    out: &mut Record,
) -> Result<bool, Down>
    requires form { IsFile head.now }
    requires placed { IsPlaced head.now store.old.disk }
    requires frames { 32 ≤ free_frames store.old.pool }
    ensures same { OnOk result (SameButReads store.old store.new) }
{
    let mut found = Key::End;
    if !AnyFile::next(head, store, after, &mut found, out)? || found != record.key {
        return Ok(false);
    }
    if out.bytes() != &record.bytes[..] || !AnyFile::get(head, store, &record.key, out)? {
        return Ok(false);
    }
    Ok(out.bytes() == &record.bytes[..])
}

// The key of the record before one.
fn key_before(records: &[KeyedRecord], i: usize) -> Option<&Key> {
    if i == 0 || i > records.len() {
        return None;
    }
    Some(&records[i - 1].key)
}

// Whether a walk finds just the records, and a look-up each of them.
fn has<D: Disk>(
    head: &FileHead,
    store: &mut Store<D>,
    records: &[KeyedRecord],
    out: &mut Record,
) -> Result<bool, Down>
    requires form { IsFile head.now }
    requires placed { IsPlaced head.now store.old.disk }
    requires frames { 32 ≤ free_frames store.old.pool }
{
    for i in 0..records.len() {
        if !has_one(head, store, key_before(records, i), &records[i], out)? {
            return Ok(false);
        }
    }
    let mut found = Key::End;
    let last = key_before(records, records.len());
    Ok(!AnyFile::next(head, store, last, &mut found, out)?)
}

/// What is seen of a load.
#[derive(Clone, Copy, Debug, PartialEq, Eq, Drop)]
enum Seen {
    /// The used buckets and the levels. The file has just the records, and as many buckets as were told before.
    Loaded(u32, u32),
    /// The file has others, or other buckets were told.
    Other,
    /// The disk went down, and the head is as before.
    Down(Down),
    /// The records may not be loaded, or memory is missing.
    None,
}

// Loads records, and reads them back.
fn loads<D: Disk>(
    alloc: Global,
    head: &mut FileHead,
    store: &mut Store<D>,
    records: &[KeyedRecord],
    out: &mut Record,
) -> Seen
    requires placed { IsPlaced head.old store.old.disk }
    requires frames { 32 ≤ free_frames store.old.pool }
    requires idle { IsIdle store.old }
{
    if !are_loadable(head, records, out) {
        return Seen::None;
    }
    let told = buckets(head, records);
    match load(alloc, head, store, records) {
        Ok(()) => {}
        Err(LoadErr::Down(down)) => return Seen::Down(down),
        Err(LoadErr::Memory) => return Seen::None,
    }
    match has(head, store, records, out) {
        Ok(is) => {
            if is && told == head.used as u64 {
                Seen::Loaded(head.used, head.levels)
            } else {
                Seen::Other
            }
        }
        Err(down) => Seen::Down(down),
    }
}

// The same of so many records, on a new disk that stops after so many writes.
fn try_load(alloc: Global, shape: Shape, count: usize, writes: u32) -> Result<Seen, AllocError> {
    let disk = CrashDisk::new(alloc, MemPlatter::new(alloc, 4096)?)?;
    let group = Group::reserve(alloc)?;
    let pool = Pool::new(alloc, 32)?;
    let mut out = Record::reserve(alloc)?;
    let records = records_of(alloc, shape, count)?;
    let Some(name) = FileName::new(b"F") else {
        return Ok(Seen::None);
    };
    let mut head = head_of(name, shape);
    if disk.pending() != 0 || disk.blocks() != 4096 || !has_limits(&head) {
        return Ok(Seen::None);
    }
    match Store::open(disk, group, pool) {
        Ok(mut store) => {
            if !store.fits() {
                return Ok(Seen::None);
            }
            store.arm(writes, 0);
            Ok(loads(alloc, &mut head, &mut store, &records, &mut out))
        }
        Err(_) => Ok(Seen::None),
    }
}

const SEQUENTIAL: Shape = Shape(Organization::Sequential, 1, 100, 0);

const RELATIVE: Shape = Shape(Organization::Relative, 1, 100, 0);
// Four records fill a leaf, and seven entries an index bucket.
const INDEXED: Shape = Shape(Organization::Indexed, 1, 100, 64);
// One record fills a leaf, and seven entries an index bucket.
const WIDE: Shape = Shape(Organization::Indexed, 1, 480, 64);

// The numbers of used buckets and of levels are counted by hand.
const LOADS: [(Shape, usize, u32, u32); 22] = [
    (SEQUENTIAL, 0, 1, 0),
    (SEQUENTIAL, 1, 1, 0),
    (SEQUENTIAL, 400, 45, 0),
    (RELATIVE, 0, 200, 0),
    (RELATIVE, 100, 200, 0),
    (INDEXED, 0, 1, 1),
    (INDEXED, 3, 1, 1),
    (INDEXED, 4, 1, 1),
    (INDEXED, 5, 3, 2),
    (INDEXED, 28, 8, 2),
    (INDEXED, 29, 11, 3),
    (INDEXED, 196, 57, 3),
    (INDEXED, 197, 61, 4),
    (WIDE, 1, 1, 1),
    (WIDE, 2, 3, 2),
    (WIDE, 7, 8, 2),
    (WIDE, 8, 11, 3),
    (WIDE, 9, 12, 3),
    (WIDE, 50, 61, 4),
    (Shape(Organization::Sequential, 16, 8160, 0), 9, 1, 0),
    (Shape(Organization::Relative, 3, 1504, 0), 5, 200, 0),
    (Shape(Organization::Indexed, 16, 8160, 8), 20, 21, 2),
];

#[test]
fn files_have_what_was_loaded(rt: HostRuntime) -> Result<(), Fail> {
    for (shape, count, used, levels) in LOADS {
        assert_eq!(rt;
            try_load(rt.alloc(), shape, count, u32::MAX)?,
            Seen::Loaded(used, levels)
        );
    }
    Ok(())
}

#[test]
fn records_that_want_more_buckets_are_not_loaded(rt: HostRuntime) -> Result<(), Fail> {
    // 171 leaves, 25 and 4 buckets over them and a root are 201 buckets, of which the file has 200.
    let alloc = rt.alloc();
    assert_eq!(rt; try_load(alloc, WIDE, 170, u32::MAX)?, Seen::Loaded(200, 4));
    assert_eq!(rt; try_load(alloc, WIDE, 171, u32::MAX)?, Seen::None);
    Ok(())
}

#[test]
fn a_load_takes_as_few_groups_as_it_may(rt: HostRuntime) -> Result<(), Fail> {
    // Of n blocks, n intents, an index of n / 128 + 1 blocks, n blocks, and the gate twice. The 200 buckets of three blocks
    // take two groups, of 498 and of 102 blocks: 2 * 498 + 4 + 2 and 2 * 102 + 1 + 2 writes.
    let alloc = rt.alloc();
    let shape = Shape(Organization::Relative, 3, 1504, 0);
    assert_eq!(rt; try_load(alloc, shape, 5, 1209)?, Seen::Loaded(200, 0));
    assert_eq!(rt; try_load(alloc, shape, 5, 1208)?, Seen::Down(Down::Stopped));
    assert_eq!(rt; try_load(alloc, shape, 5, 0)?, Seen::Down(Down::Stopped));
    Ok(())
}
