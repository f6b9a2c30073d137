//! Journals of one block, and the keys that their entries tell, worked out by hand.
ghost use Rattle.std.specs.Prelude.{◌≡◌, ◌≤◌, ◌<◌, ◌^◌, length};
ghost use Rattle.std.specs.List.{All};

use block_disk::{CrashDisk, Disk, MemPlatter};
use careful_write::{Group, Store};
use file_base::{FileHead, NO_MARKS, NO_SAVE, NO_SPAN, Organization, Span};
use frame_pool::Pool;
use ru_journal::RuState;
use std::alloc::{AllocError, Global};
use std::process::Abort;
use std::test::Fail;
use unit_entries::*;
use unit_table::UnitTable;
use vms_base::{FileName, Id, Key, KeyText, LogRec, Moment, NodeName, Record, Serial};
use volume::Volume;

type Disk1 = CrashDisk<MemPlatter>;

// A Change, or where the kind is 3 a Settled: its kind, flag and file, the branch A.1.n, and the first byte of the key.
type Row = (u8, u8, u8, u8, u8);

// The bytes of an entry, and how many they are.
fn spell(row: &Row) -> ([u8; 53], usize)
    ensures { result.1 ≤ 53 }
{
    let (kind, flag, file, branch, key) = *row;
    let size = if kind == 3 {
        48
    } else if flag == 1 {
        53
    } else {
        52
    };
    let mut bytes = [0; 53];
    bytes[0] = kind;
    bytes[1] = flag;
    bytes[2] = file;
    bytes[3] = if kind == 3 { 0 } else { 4 };
    bytes[4] = if size == 53 { 1 } else { 0 };
    bytes[6] = size as u8;
    bytes[8] = b'A';
    bytes[16] = 1;
    bytes[20] = branch;
    bytes[24] = b'A';
    bytes[32] = 1;
    bytes[36] = branch;
    bytes[48] = key;
    bytes[52] = b'x';
    (bytes, size)
}

// Puts entries into a block from a position on, and answers where they end.
fn lay(block: &mut [u8; 512], rows: &[Row], first: usize) -> usize {
    let mut at = first;
    for row in rows {
        let (bytes, size) = spell(row);
        for i in 0..size {
            block[(at % 512 + i) % 512] = bytes[i];
        }
        at = at.wrapping_add(size);
    }
    at
}

fn journal(start: u32, first: u64, end: u64) -> Span
    ensures { result ≡ record { start = start; blocks = 1; first = first; end = end } }
{
    Span {
        start,
        blocks: 1,
        first,
        end,
    }
}

fn store(alloc: Global, node: NodeName) -> Result<Option<Store<Disk1>>, AllocError> {
    let disk = CrashDisk::new(alloc, MemPlatter::new(alloc, 4096)?)?;
    let group = Group::reserve(alloc)?;
    let pool = Pool::new(alloc, 1)?;
    if disk.pending() != 0 || disk.blocks() != 4096 {
        return Ok(None);
    }
    let (disk, _) = Volume::format(disk, node, 128, 1024);
    if disk.pending() != 0 || disk.blocks() < 4096 {
        return Ok(None);
    }
    match Store::open(disk, group, pool) {
        Ok(store) => Ok(Some(store)),
        Err(_) => Ok(None),
    }
}

// Stages a block, and then reads the journal in it: how many units are told.
fn read<D: Disk>(
    store: &mut Store<D>,
    block: &[u8; 512],
    ends: (u64, u64),
    state: &mut RuState,
    units: &mut UnitTable,
    rest: &mut Vec<LogRec>,
    out: &mut Vec<LogRec>,
    image: &mut Record,
) -> Option<usize> {
    let (first, end) = ends;
    let blocks = store.blocks();
    if blocks < 4096 || blocks > 65536 || first > end || end - first > 512 || end > 4096 {
        return None;
    }
    store.unstage();
    let _ = store.stage(600, block);
    let span = journal(600, first, end);
    rest.clear();
    out.clear();
    if read_journal(store, &span, state, units, rest, out, image) != Ok(true) {
        return None;
    }
    Some(state.units().len())
}

// Where the changes of a branch's unit begin; none where it has no unit.
fn positions<'a>(units: &'a UnitTable, serial: &Serial) -> &'a [u64] {
    match units.find(serial) {
        Some(place) => units.positions(place),
        None => &[],
    }
}

// What journals are read with, on a disk of node A.
#[derive(Drop)]
struct Reading {
    store: Store<Disk1>,
    state: RuState,
    units: UnitTable,
    rest: Vec<LogRec>,
    out: Vec<LogRec>,
    image: Record,
}

fn new_reading(alloc: Global, node: NodeName) -> Result<Option<Reading>, AllocError> {
    let Some(store) = store(alloc, node)? else {
        return Ok(None);
    };
    let state = RuState::reserve(alloc)?;
    let units = UnitTable::reserve(alloc)?;
    let image = Record::reserve(alloc)?;
    Ok(Some(Reading {
        store,
        state,
        units,
        rest: Vec::new(alloc),
        out: Vec::new(alloc),
        image,
    }))
}

// How many units a journal of these entries tells, with so many bytes behind them.
fn told(reading: &mut Reading, rows: &[Row], first: usize, more: usize) -> Option<usize> {
    let mut block = [0; 512];
    let end = lay(&mut block, rows, first).wrapping_add(more);
    read(
        &mut reading.store,
        &block,
        (first as u64, end as u64),
        &mut reading.state,
        &mut reading.units,
        &mut reading.rest,
        &mut reading.out,
        &mut reading.image,
    )
}

const ROWS: [Row; 5] = [
    (1, 1, 0, 7, 1),
    (1, 0, 1, 8, 1),
    (1, 0, 0, 7, 2),
    (3, 1, 0, 8, 0),
    (1, 1, 2, 7, 3),
];

// Where the journal begins, with how many of the entries, how many units are left and where the changes of A.1.7 begin.
const TOLD: [(usize, usize, usize, &[u64]); 5] = [
    (0, 5, 1, &[0, 105, 205]),
    (300, 5, 1, &[300, 405, 505]),
    (511, 3, 2, &[511, 616]),
    (7, 1, 1, &[7]),
    (9, 0, 0, &[]),
];

#[test]
fn a_journal_is_read(rt: HostRuntime) -> Result<(), Fail> {
    let node = NodeName::new(b"A").ok_or("a name")?;
    let mut reading = new_reading(rt.alloc(), node)?.ok_or("a disk")?;
    let serial = Serial(Id {
        node,
        boot: 1,
        seq: 7,
    });
    let rows: &[Row] = &ROWS;
    for (first, count, many, want) in TOLD {
        assert!(rt; count <= 5);
        let told = told(&mut reading, &rows[..count], first, 0);
        assert!(rt; told == Some(many), "{first}");
        assert!(rt; positions(&reading.units, &serial) == want, "{first}");
    }
    Ok(())
}

// A branch that is settled twice.
const TWICE: [Row; 3] = [(1, 1, 0, 7, 1), (3, 2, 0, 7, 0), (3, 2, 0, 7, 0)];

#[test]
fn a_branch_is_not_settled_twice_and_no_entry_stands_in_zeros(rt: HostRuntime) -> Result<(), Fail> {
    let node = NodeName::new(b"A").ok_or("a name")?;
    let mut reading = new_reading(rt.alloc(), node)?.ok_or("a disk")?;
    let rows: &[Row] = &TWICE;
    for (count, more, whole) in [(2usize, 0usize, true), (3, 0, false), (2, 48, false)] {
        assert!(rt; count <= 3);
        let told = told(&mut reading, &rows[..count], 0, more);
        assert!(rt; told.is_some() == whole, "{count} {more}");
    }
    Ok(())
}

fn head(name: FileName, organization: Organization) -> FileHead {
    FileHead {
        name,
        organization,
        marks: NO_MARKS,
        bucket: 1,
        mrs: 100,
        mrn: 0,
        key_pos: 0,
        key_size: 0,
        start: 2000,
        alloc: 8,
        used: 1,
        root: 0,
        levels: 0,
        count: 0,
        ai: NO_SPAN,
        bi: NO_SPAN,
        bi_since: Moment(0),
        save: NO_SAVE,
    }
}

// Stages a file and the entries of a block, and collects the keys of those at these positions.
fn collect(
    volume: &mut Volume<Disk1>,
    organization: Organization,
    block: &[u8; 512],
    positions: &[u64],
    keys: &mut ChangedKeys,
    image: &mut Record,
) -> bool
    requires few { length positions.now ≤ 1024 }
    requires low { All (λ p. p ≤ 2 ^ 62) positions.now }
{
    let span = *volume.ru();
    let blocks = volume.blocks();
    if blocks < 4096
        || blocks > 65536
        || span.start < 518
        || span.blocks > 4096
        || span.blocks == 0
        || span.start > blocks - span.blocks
    {
        return false;
    }
    if span.end < span.first || span.end - span.first > 512 || span.end > 4096 {
        return false;
    }
    let Some(name) = FileName::new(b"F") else {
        return false;
    };
    let _ = volume.stage_head(1, &head(name, organization));
    let _ = volume.store().stage(span.start, block);
    collect_keys(volume, positions, keys, image).is_ok()
}

fn mounted(alloc: Global) -> Result<Option<Volume<Disk1>>, AllocError> {
    let Some(node) = NodeName::new(b"A") else {
        return Ok(None);
    };
    let Some(store) = store(alloc, node)? else {
        return Ok(None);
    };
    if store.blocks() < 4096 {
        return Ok(None);
    }
    match Volume::mount(store, node) {
        Ok(volume) => Ok(Some(volume)),
        Err(_) => Ok(None),
    }
}

const COLLECTED: [Row; 5] = [
    (1, 1, 1, 7, 9),
    (1, 0, 1, 7, 4),
    (1, 0, 1, 7, 9),
    (1, 0, 2, 7, 9),
    (1, 1, 1, 7, 6),
];

// What is told of the keys of file 1 of an organization: how many there are, the lowest that was absent, and the next number from 5 on.
type KeysTold = (usize, Option<u32>, Option<(usize, u32)>);

fn collected(
    volume: &mut Volume<Disk1>,
    organization: Organization,
    keys: &mut ChangedKeys,
    image: &mut Record,
) -> Option<KeysTold> {
    let mut block = [0; 512];
    let _ = lay(&mut block, &COLLECTED, 0);
    let positions = [0, 53, 105, 157, 209];
    if !collect(volume, organization, &block, &positions, keys, image) {
        return None;
    }
    Some((keys.len(), keys.lowest_absent(1), keys.next_number(1, 5)))
}

#[test]
fn keys_are_collected(rt: HostRuntime) -> Result<(), Fail> {
    let mut volume = mounted(rt.alloc())?.ok_or("a volume")?;
    let mut keys = ChangedKeys::reserve(rt.alloc())?;
    let mut image = Record::reserve(rt.alloc())?;
    // File 2 is not there. In an indexed file no key is a number.
    for (organization, want) in [
        (Organization::Relative, (3, Some(4), Some((2, 6)))),
        (Organization::Indexed, (3, None, None)),
    ] {
        let told = collected(&mut volume, organization, &mut keys, &mut image);
        assert!(rt; told == Some(want));
    }
    Ok(())
}

// The key of a file's record.
fn key_of(file: u8, key: Key, first: u64, had: bool) -> ChangedKey
    ensures { result.first ≡ first }
{
    ChangedKey {
        file,
        key,
        first,
        had,
        absent: !had,
    }
}

fn note(keys: &mut ChangedKeys, key: ChangedKey) -> bool
    requires { key.first ≤ 2 ^ 62 }
{
    if keys.len() >= MOST_KEYS {
        return false;
    }
    keys.note(key);
    true
}

// A key, whether it had a record, and how many keys there are then.
fn noted(text: KeyText) -> [(u8, Key, bool, usize); 7] {
    [
        (0, Key::Number(5), true, 1),
        (0, Key::Number(3), false, 2),
        (1, Key::Number(5), false, 3),
        (0, Key::Number(5), false, 3),
        (2, Key::Text(text), true, 4),
        (0, Key::Number(3), true, 4),
        (2, Key::Text(text), true, 4),
    ]
}

// Where the earliest entry of each is, whether the key had a record before it, and whether it had none before one of its changes.
const KEYS: [(u64, bool, bool); 4] = [
    (0, true, true),
    (1, false, true),
    (2, false, true),
    (4, true, false),
];

// Whether the keys are those.
fn are_noted(rt: &impl Abort, keys: &ChangedKeys) {
    for (i, want) in KEYS.iter().enumerate() {
        if i < keys.len() {
            let key = keys.at(i);
            assert!(rt; (key.first, key.had, key.absent) == *want, "{i}");
        }
    }
    assert!(rt; keys.lowest_absent(0) == Some(3));
    assert!(rt; keys.lowest_absent(2).is_none());
    assert!(rt; keys.next_number(0, 4) == Some((0, 5)));
    assert!(rt; keys.next_number(0, 6).is_none());
}

#[test]
fn each_key_is_noted_once(rt: HostRuntime) -> Result<(), Fail> {
    let mut keys = ChangedKeys::reserve(rt.alloc())?;
    let text = KeyText::new(b"ab").ok_or("a key")?;
    for (i, row) in noted(text).iter().enumerate() {
        let (file, key, had, count) = *row;
        assert!(rt; note(&mut keys, key_of(file, key, i as u64, had)), "{i}");
        assert!(rt; keys.len() == count, "{i}");
    }
    are_noted(&rt, &keys);
    for n in 4..1_024 {
        assert!(rt; note(&mut keys, key_of(3, Key::Number(n), 9, true)), "{n}");
    }
    assert!(rt; keys.len() == 1_024);
    keys.clear();
    assert!(rt; keys.len() == 0);
    Ok(())
}
