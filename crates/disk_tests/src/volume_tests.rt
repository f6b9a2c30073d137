// Volumes on small disks, with answers worked out by hand.
use block_disk::{CrashDisk, Disk, MemPlatter};
use careful_write::{Group, Store};
use file_base::{FileHead, Marks, NO_SPAN, Organization, Save};
use frame_pool::Pool;
use std::alloc::{AllocError, Global};
use std::test::Fail;
use vms_base::{FileName, Moment, NodeName};
use volume::*;
use volume_format::{DirectoryEntry, Sizes, write_directory};

// A sequential file of so many buckets of two blocks.
fn file(name: FileName, start: u32, alloc: u32) -> FileHead {
    FileHead {
        name,
        organization: Organization::Sequential,
        marks: Marks {
            ru: false,
            ai: false,
            bi: false,
            save: false,
        },
        bucket: 2,
        mrs: 100,
        mrn: 0,
        key_pos: 0,
        key_size: 0,
        start,
        alloc,
        used: 1,
        root: 0,
        levels: 0,
        count: 0,
        ai: NO_SPAN,
        bi: NO_SPAN,
        bi_since: Moment(0),
        save: Save {
            start: 0,
            alloc: 0,
            position: 0,
            moment: Moment(0),
            used: 0,
            root: 0,
            levels: 0,
            count: 0,
        },
    }
}

// What a mount answers.
#[derive(Clone, Copy, Debug, PartialEq, Eq, Drop)]
enum Outcome {
    Volume,
    Finding(u8, u32),
    Down,
}

fn outcome_of<D: Disk + Drop>(mounted: Result<Volume<D>, MountErr<D>>) -> Outcome {
    match mounted {
        Ok(_) => Outcome::Volume,
        Err(MountErr::Condition { number, block, .. }) => Outcome::Finding(number, block),
        Err(MountErr::Down { .. }) => Outcome::Down,
    }
}

// A disk with an empty volume of node A, 128 log slots and 1,024 journal blocks, and one byte of it changed.
fn changed(
    alloc: Global,
    at: Option<(u32, usize, u8)>,
) -> Result<CrashDisk<MemPlatter>, AllocError> {
    let disk = CrashDisk::new(alloc, MemPlatter::new(alloc, 4096)?)?;
    let Some(node) = NodeName::new(b"A") else {
        return Ok(disk);
    };
    if disk.pending() != 0 || disk.blocks() != 4096 {
        return Ok(disk);
    }
    let (mut disk, _) = Volume::format(disk, node, 128, 1024);
    if let Some((block, byte, value)) = at {
        poke(&mut disk, block, byte, value);
    }
    Ok(disk)
}

fn poke<D: Disk>(disk: &mut D, block: u32, byte: usize, value: u8) {
    let mut bytes = [0; 512];
    if block < disk.blocks() && disk.pending() == 0 && byte < 512 {
        let _ = disk.read(block, &mut bytes);
        bytes[byte] = value;
        let _ = disk.write(block, &bytes);
        let _ = disk.barrier();
    }
}

fn mount<D: Disk + Drop>(
    store: Store<D>,
    node: NodeName,
) -> Option<Result<Volume<D>, MountErr<D>>> {
    if store.blocks() < 4096 {
        return None;
    }
    Some(Volume::mount(store, node))
}

fn mounted(
    alloc: Global,
    disk: CrashDisk<MemPlatter>,
    node: NodeName,
) -> Result<
    Option<Result<Volume<CrashDisk<MemPlatter>>, MountErr<CrashDisk<MemPlatter>>>>,
    AllocError,
> {
    let group = Group::reserve(alloc)?;
    let pool = Pool::new(alloc, 1)?;
    if disk.pending() != 0 || disk.blocks() < 4096 {
        return Ok(None);
    }
    match Store::open(disk, group, pool) {
        Ok(store) => Ok(mount(store, node)),
        Err(_) => Ok(None),
    }
}

// Stages a file where the disk is large enough.
fn stage<D: Disk>(volume: &mut Volume<D>, number: u8, head: &FileHead) -> bool {
    if volume.blocks() < 4096 || number >= 64 {
        return false;
    }
    volume.stage_head(number, head).is_ok()
}

// What a disk answers the mount of a node with a name of one letter.
fn answer(alloc: Global, disk: CrashDisk<MemPlatter>, letter: u8) -> Option<Outcome> {
    let node = NodeName::new(&[letter])?;
    Some(outcome_of(mounted(alloc, disk, node).ok()??))
}

// The node that mounts, the byte of the image that is changed, and the answer.
const MOUNTS: [(u8, Option<(u32, usize, u8)>, Outcome); 9] = [
    (b'A', None, Outcome::Volume),
    (b'B', None, Outcome::Finding(3, 518)),
    (b'A', Some((518, 0, 0)), Outcome::Finding(1, 518)),
    (b'B', Some((518, 8, 2)), Outcome::Finding(1, 518)),
    (b'B', Some((518, 16, 63)), Outcome::Finding(2, 518)),
    (b'A', Some((518, 13, 15)), Outcome::Finding(2, 518)),
    (b'A', Some((518, 80, 3)), Outcome::Finding(3, 518)),
    (b'A', Some((519, 1, 9)), Outcome::Finding(4, 519)),
    (b'A', Some((582, 511, 1)), Outcome::Finding(4, 582)),
];

#[test]
fn a_mount_names_the_lowest_condition(rt: HostRuntime) -> Result<(), Fail> {
    for (letter, at, want) in MOUNTS {
        let disk = changed(rt.alloc(), at)?;
        assert_eq!(rt; answer(rt.alloc(), disk, letter), Some(want));
    }
    let zeros = CrashDisk::new(rt.alloc(), MemPlatter::new(rt.alloc(), 4096)?)?;
    assert_eq!(rt;
        answer(rt.alloc(), zeros, b'A'),
        Some(Outcome::Finding(1, 518))
    );
    Ok(())
}

fn put_file<D: Disk>(disk: &mut D, number: u32, head: FileHead) {
    let mut bytes = [0; 512];
    write_directory(&DirectoryEntry::File(head), &mut bytes);
    if number < 64 && 4096 <= disk.blocks() && disk.pending() == 0 {
        let _ = disk.write(519 + number, &bytes);
        let _ = disk.barrier();
    }
}

// A file with a name of one letter, its first block and its buckets of two blocks.
type Lying = (u8, u32, u32);

fn put_named<D: Disk>(disk: &mut D, number: u32, (letter, start, alloc): Lying) {
    if let Some(name) = FileName::new(&[letter]) {
        put_file(disk, number, file(name, start, alloc));
    }
}

// The data area is 1736 to 4095. The files have the numbers 0 and 2.
const LYING: [(Lying, Lying, Outcome); 7] = [
    ((b'F', 1736, 10), (b'G', 2000, 100), Outcome::Volume),
    (
        (b'F', 1735, 10),
        (b'G', 2000, 100),
        Outcome::Finding(5, 519),
    ),
    ((b'F', 1736, 10), (b'G', 1755, 1), Outcome::Finding(5, 521)),
    ((b'F', 1736, 10), (b'G', 1756, 1170), Outcome::Volume),
    (
        (b'F', 1736, 10),
        (b'G', 1756, 1171),
        Outcome::Finding(5, 521),
    ),
    (
        (b'F', 1736, 10),
        (b'F', 2000, 100),
        Outcome::Finding(4, 521),
    ),
    ((b'F', 1736, 0), (b'G', 1735, 100), Outcome::Finding(4, 519)),
];

#[test]
fn files_lie_in_the_data_area_and_apart(rt: HostRuntime) -> Result<(), Fail> {
    for (first, second, want) in LYING {
        let mut disk = changed(rt.alloc(), None)?;
        put_named(&mut disk, 0, first);
        put_named(&mut disk, 2, second);
        assert_eq!(rt; answer(rt.alloc(), disk, b'A'), Some(want));
    }
    Ok(())
}

// What is seen of a volume: the number of a file with a name of one letter, the first free number, where so many blocks are free, and whether a file
// is staged at a number.
#[derive(Clone, Copy)]
enum Seen {
    Found(u8, Option<u8>),
    FreeFile(Option<u8>),
    FreeRun(u32, Option<u32>),
    Staged(u8, Lying),
    Longest(u32),
}

fn found<D: Disk>(volume: &Volume<D>, letter: u8) -> Option<u8> {
    let name = FileName::new(&[letter])?;
    volume.find(&name)
}

fn staged<D: Disk>(volume: &mut Volume<D>, number: u8, (letter, start, alloc): Lying) -> bool {
    match FileName::new(&[letter]) {
        Some(name) => stage(volume, number, &file(name, start, alloc)),
        None => false,
    }
}

// Whether the volume is seen so.
fn is_seen<D: Disk>(volume: &mut Volume<D>, seen: Seen) -> bool {
    match seen {
        Seen::Found(letter, want) => found(volume, letter) == want,
        Seen::FreeFile(want) => volume.free_file() == want,
        Seen::FreeRun(blocks, want) => volume.free_run(blocks) == want,
        Seen::Staged(number, lying) => staged(volume, number, lying),
        Seen::Longest(want) => volume.longest_free() == want,
    }
}

const FREE: [Seen; 11] = [
    Seen::Found(b'F', Some(0)),
    Seen::Found(b'G', None),
    Seen::FreeFile(Some(1)),
    Seen::FreeRun(2340, Some(1756)),
    Seen::FreeRun(2341, None),
    Seen::Staged(2, (b'G', 2000, 100)),
    Seen::Found(b'G', Some(2)),
    Seen::FreeFile(Some(1)),
    Seen::FreeRun(244, Some(1756)),
    Seen::FreeRun(245, Some(2200)),
    Seen::Longest(1896),
];

// Which of the things above a volume is seen with, and its journal; None where it is not mounted.
fn seen_all(alloc: Global, disk: CrashDisk<MemPlatter>) -> Option<([bool; 11], u32, u32)> {
    let node = NodeName::new(b"A")?;
    let Some(Ok(mut volume)) = mounted(alloc, disk, node).ok()? else {
        return None;
    };
    let mut seen = [false; 11];
    for i in 0..11 {
        seen[i] = is_seen(&mut volume, FREE[i]);
    }
    Some((seen, volume.ru().start, volume.ru().blocks))
}

#[test]
fn a_volume_finds_its_files_and_its_free_blocks(rt: HostRuntime) -> Result<(), Fail> {
    let mut disk = changed(rt.alloc(), None)?;
    put_named(&mut disk, 0, (b'F', 1736, 10));
    assert_eq!(rt; seen_all(rt.alloc(), disk), Some(([true; 11], 712, 1024)));
    Ok(())
}

// Blocks of the disk, log slots, journal blocks.
const SIZES: [(u32, u32, u32, bool); 9] = [
    (4096, 128, 1024, true),
    (4096, 64, 64, true),
    (4096, 63, 64, false),
    (4096, 64, 63, false),
    (65_536, 512, 8192, true),
    (65_536, 513, 8192, false),
    (65_536, 512, 8193, false),
    (4096, 512, 2999, true),
    (4096, 512, 3000, false),
];

#[test]
fn sizes_have_limits(rt: HostRuntime) {
    for (blocks, slots, ru_blocks, fits) in SIZES {
        let sizes = Sizes {
            blocks,
            slots,
            ru_blocks,
        };
        assert_eq!(rt;
            sizes_fit(&sizes, blocks),
            fits,
            "{blocks} {slots} {ru_blocks}"
        );
        assert!(rt; !sizes_fit(&sizes, 5000));
    }
}

// The failing ones of the first five conditions. None where the disk went down.
fn listed(
    alloc: Global,
    disk: CrashDisk<MemPlatter>,
    node: NodeName,
) -> Result<Option<Findings>, AllocError> {
    let group = Group::reserve(alloc)?;
    let pool = Pool::new(alloc, 1)?;
    let mut out = Findings::reserve(alloc)?;
    if disk.blocks() < 4096 {
        return Ok(None);
    }
    match Store::inspect(disk, group, pool) {
        Ok(mut store) => {
            if store.blocks() < 4096 {
                return Ok(None);
            }
            match conditions(&mut store, node, &mut out) {
                Ok(()) => Ok(Some(out)),
                Err(_) => Ok(None),
            }
        }
        Err(_) => Ok(None),
    }
}

// Bytes that are changed, the node, and what fails.
const FAILING: [([(u32, usize, u8); 3], u8, &[(u8, u32)]); 8] = [
    ([(519, 0, 0); 3], b'A', &[]),
    ([(518, 0, 0), (518, 16, 1), (519, 0, 7)], b'B', &[(1, 518)]),
    ([(518, 16, 1), (519, 0, 7), (520, 0, 7)], b'B', &[(2, 518)]),
    ([(0, 0, 1), (1, 0, 1), (1, 1, 2)], b'A', &[(2, 518)]),
    ([(519, 0, 7); 3], b'B', &[(3, 518)]),
    (
        [(519, 0, 7), (524, 9, 1), (582, 511, 1)],
        b'A',
        &[(4, 519), (4, 524), (4, 582)],
    ),
    ([(520, 0, 2), (583, 0, 1), (584, 0, 1)], b'A', &[(4, 520)]),
    ([(583, 0, 1), (584, 0, 1), (1735, 0, 1)], b'A', &[]),
];

// Whether just these are the findings at the node with this letter.
fn finds(
    alloc: Global,
    disk: CrashDisk<MemPlatter>,
    letter: u8,
    want: &[(u8, u32)],
) -> Option<bool> {
    let node = NodeName::new(&[letter])?;
    let out = listed(alloc, disk, node).ok()??;
    Some(lists(out.items(), want))
}

#[test]
fn each_failing_condition_is_listed(rt: HostRuntime) -> Result<(), Fail> {
    for (bytes, letter, want) in FAILING {
        let mut disk = changed(rt.alloc(), None)?;
        for (block, byte, value) in bytes {
            poke(&mut disk, block, byte, value);
        }
        assert_eq!(rt; finds(rt.alloc(), disk, letter, want), Some(true));
    }
    Ok(())
}

// Whether these are the findings, as numbers and blocks.
fn lists(found: &[Finding], want: &[(u8, u32)]) -> bool {
    found.len() == want.len()
        && found.iter().zip(want).all(|(x, (number, block))| x.number == *number
            && x.block == *block)
}

// Files 0, 2 and 7, and what fails. The data area is 1736 to 4095.
const FILES: [([Lying; 3], &[(u8, u32)]); 7] = [
    ([(b'F', 1736, 10), (b'G', 1756, 10), (b'H', 1776, 10)], &[]),
    (
        [(b'F', 1736, 10), (b'F', 1756, 10), (b'F', 1776, 10)],
        &[(4, 521), (4, 526)],
    ),
    // The name of file 2 is not tested against a file that does not fit itself.
    (
        [(b'F', 1736, 0), (b'F', 1756, 10), (b'F', 1776, 10)],
        &[(4, 519), (4, 526)],
    ),
    (
        [(b'F', 1735, 10), (b'G', 1735, 10), (b'F', 1776, 10)],
        &[(4, 526)],
    ),
    (
        [(b'F', 1735, 10), (b'G', 1755, 10), (b'H', 1774, 10)],
        &[(5, 519), (5, 526)],
    ),
    (
        [(b'F', 1736, 11), (b'G', 1756, 10), (b'H', 1736, 1)],
        &[(5, 521), (5, 526)],
    ),
    (
        [(b'F', 4076, 11), (b'G', 1756, 10), (b'H', 4094, 1)],
        &[(5, 519), (5, 526)],
    ),
];

#[test]
fn each_file_that_fails_is_listed(rt: HostRuntime) -> Result<(), Fail> {
    for (files, want) in FILES {
        let [first, second, third] = files;
        let mut disk = changed(rt.alloc(), None)?;
        put_named(&mut disk, 0, first);
        put_named(&mut disk, 2, second);
        put_named(&mut disk, 7, third);
        assert_eq!(rt; finds(rt.alloc(), disk, b'A', want), Some(true));
    }
    Ok(())
}

fn add(out: &mut Findings, number: u8, block: u32) {
    out.add(Finding { number, block });
}

// The findings of a thousand and more.
fn findings(alloc: Global) -> Result<Findings, AllocError> {
    let mut out = Findings::reserve(alloc)?;
    for i in 0..600 {
        add(&mut out, 9, 600 - i);
        add(&mut out, 8, 600 - i);
        add(&mut out, 8, 600 - i);
    }
    Ok(out)
}

#[test]
fn the_first_thousand_findings_are_kept(rt: HostRuntime) -> Result<(), Fail> {
    let out = findings(rt.alloc())?;
    let found = out.items();
    assert_eq!(rt; found.len(), 1000);
    assert!(rt; lists(&found[..2], &[(8, 1), (8, 2)]));
    assert!(rt; lists(&found[599..601], &[(8, 600), (9, 1)]));
    assert!(rt; lists(&found[999..], &[(9, 400)]));
    Ok(())
}
