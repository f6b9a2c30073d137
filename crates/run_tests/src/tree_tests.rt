//! Indexed files with an index over their leaves: transactions that are committed and one that is aborted, and images whose file has other levels.
use block_disk::{CrashDisk, Disk, MemPlatter};
use std::alloc::Global;
use std::test::Fail;
use test_scripts::one_node::{disk_of, run_on};
use test_scripts::racks::{BLOCKS, shown_by_one, zeros};
use test_scripts::texts::{filled, repeated};

// Statements on these numbers, the greatest first, as one transaction that is committed.
fn put_down(alloc: Global, lines: &mut Vec<u8>, from: u32, to: u32) -> Result<(), Fail> {
    lines.extend_from_slice(format!(in alloc; "A: START_TRANS P{from}\n")?.as_bytes())?;
    for n in (from..to).rev() {
        lines.extend_from_slice(format!(in alloc; "A: PUT P{from} I \"{n}{n}\"\n")?.as_bytes())?;
    }
    lines.extend_from_slice(format!(in alloc; "A: END_TRANS P{from}\n")?.as_bytes())?;
    Ok(())
}

#[test]
fn a_file_of_3000_keys_is_as_it_was_behind_an_abort(rt: HostRuntime) -> Result<(), Fail> {
    let alloc = rt.alloc();
    let mut lines =
        b"A: INIT 64 256\nA: BOOT\nA: CREATE I IDX 1 8 400 0 4\nA: SET_FILE I RU\n".to_vec(alloc)?;
    put_down(alloc, &mut lines, 3_000, 4_000)?;
    put_down(alloc, &mut lines, 2_000, 3_000)?;
    put_down(alloc, &mut lines, 1_000, 2_000)?;
    lines.extend_from_slice(b"A: START_TRANS D\n")?;
    for n in 1_500..2_524u32 {
        lines.extend_from_slice(format!(in alloc; "A: DELETE D I \"{n}\"\n")?.as_bytes())?;
    }
    lines.extend_from_slice(b"A: ABORT_TRANS D\nA: DUMP I\n")?;
    let text = shown_by_one(alloc, &lines, 200_000)?;
    let mut want = Vec::new(alloc);
    for n in 1_000..4_000u32 {
        want.extend_from_slice(format!(in alloc; "4037 RECORD \"{n}\" \"{n}{n}\"\n")?.as_bytes())?;
    }
    want.extend_from_slice(b"4037 SS$_NORMAL 3000\n")?;
    assert!(rt; text.ends_with(&want));
    Ok(())
}

// The directory block of the first file, and where it has the used buckets, the root and the levels.
const DIRECTORY: u32 = 519;

const USED: usize = 64;

const ROOT: usize = 68;

const LEVELS: usize = 72;

// A block of a disk.
fn block_of(disk: &mut CrashDisk<MemPlatter>, number: u32) -> Result<[u8; 512], Fail> {
    let mut block = [0; 512];
    if number >= disk.blocks() || disk.read(number, &mut block).is_err() {
        return Err(Fail::from("a read failed"));
    }
    Ok(block)
}

// A disk with this byte at a place of the directory block.
fn turned(
    mut disk: CrashDisk<MemPlatter>,
    at: usize,
    byte: u8,
) -> Result<CrashDisk<MemPlatter>, Fail> {
    let mut block = block_of(&mut disk, DIRECTORY)?;
    if DIRECTORY >= disk.blocks() || disk.pending() >= 1_024 || at >= 512 {
        return Err(Fail::from("no such byte"));
    }
    block[at] = byte;
    if disk.write(DIRECTORY, &block).is_err() || disk.barrier().is_err() {
        return Err(Fail::from("a write failed"));
    }
    Ok(disk)
}

// Lines that make a file of 20 buckets, with so many records, each of which fills its bucket: eight of them make three levels over 11 buckets.
fn made(alloc: Global, records: u32) -> Result<Vec<u8>, Fail> {
    let mut lines = b"A: INIT 64 64\nA: BOOT\nA: CREATE I IDX 1 480 20 0 64\n".to_vec(alloc)?;
    for n in 0..records {
        lines.extend_from_slice(format!(in alloc; "A: PUT - I \"{n}")?.as_bytes())?;
        lines.extend_from_slice(&repeated(alloc, b'x', 479)?)?;
        lines.extend_from_slice(b"\"\n")?;
    }
    Ok(lines)
}

// A boot tells levels that are missing or too many, and a record that is put asks for two buckets more than levels, or for more than a disk has.
#[test]
fn levels_are_seen_by_a_boot_and_by_a_put(rt: HostRuntime) -> Result<(), Fail> {
    let rows: [(u32, usize, u8, &[u8]); 6] = [
        (0, USED, 2, b"1 VOLUME A 11 712\n2 NODEDOWN\n"),
        (0, LEVELS, 2, b"1 VOLUME A 11 712\n2 NODEDOWN\n"),
        (8, LEVELS, 1, b"1 VOLUME A 11 722\n2 NODEDOWN\n"),
        (8, LEVELS, 11, b"SS$_NORMAL 2\n2 RMS$_FUL FILE 9 13\n"),
        (8, LEVELS, 12, b"SS$_NORMAL 2\n2 RMS$_FUL FILE 9 65537\n"),
        (8, LEVELS, 13, b"SS$_NORMAL 2\n2 RMS$_FUL FILE 9 65537\n"),
    ];
    let script = filled(rt.alloc(), b"A: BOOT\nA: PUT - I \"y{63}\"\n")?;
    for (records, at, byte, want) in rows {
        let disk = zeros(rt.alloc(), BLOCKS)?;
        let (_, rack) = run_on(rt.alloc(), disk, &made(rt.alloc(), records)?)?;
        let disk = turned(disk_of(rack)?, at, byte)?;
        let (text, _) = run_on(rt.alloc(), disk, &script)?;
        assert!(rt; text.ends_with(want), "{records} {byte}");
    }
    Ok(())
}

/// An index bucket of a file of so many records: its number and the front of its header, and its entries, each a separator's first byte and a child. The
/// bytes behind the first one are x, and zeros in the least separator.
#[derive(Clone, Copy, Debug, Drop)]
struct Row<'a> {
    records: u32,
    bucket: u32,
    header: [u8; 8],
    entries: &'a [(u8, u8)],
}

// The bytes of an index bucket.
fn bytes_of(alloc: Global, row: &Row<'_>) -> Result<Vec<u8>, Fail> {
    let mut bytes = row.header.to_vec(alloc)?;
    bytes.extend_from_slice(&[255, 255, 255, 255, 0, 0, 0, 0])?;
    for (first, child) in row.entries {
        let other = if *first == 0 { 0 } else { b'x' };
        bytes.push(*first)?;
        bytes.extend_from_slice(&repeated(alloc, other, 63)?)?;
        bytes.extend_from_slice(&[*child, 0, 0, 0])?;
    }
    let rest = 512usize.saturating_sub(bytes.len());
    bytes.extend_from_slice(&repeated(alloc, 0, rest)?)?;
    Ok(bytes)
}

// The seventh record fills the root, and the eighth parts it.
#[test]
fn index_buckets_have_their_bytes(rt: HostRuntime) -> Result<(), Fail> {
    let lower: &[(u8, u8)] = &[(0, 0), (b'1', 1), (b'2', 3), (b'3', 4)];
    let upper: &[(u8, u8)] = &[(b'4', 5), (b'5', 6), (b'6', 7), (b'7', 8)];
    let rows = [
        Row {
            records: 7,
            bucket: 2,
            header: [4, 0, 7, 0, 0xDC, 1, 0, 0],
            entries: &[
                (0, 0),
                (b'1', 1),
                (b'2', 3),
                (b'3', 4),
                (b'4', 5),
                (b'5', 6),
                (b'6', 7),
            ],
        },
        Row {
            records: 8,
            bucket: 2,
            header: [4, 0, 4, 0, 0x10, 1, 0, 0],
            entries: lower,
        },
        Row {
            records: 8,
            bucket: 9,
            header: [4, 0, 4, 0, 0x10, 1, 0, 0],
            entries: upper,
        },
        Row {
            records: 8,
            bucket: 10,
            header: [4, 0, 2, 0, 0x88, 0, 0, 0],
            entries: &[(0, 2), (b'4', 9)],
        },
    ];
    for row in &rows {
        let disk = zeros(rt.alloc(), BLOCKS)?;
        let (_, rack) = run_on(rt.alloc(), disk, &made(rt.alloc(), row.records)?)?;
        let mut disk = disk_of(rack)?;
        let want = bytes_of(rt.alloc(), row)?;
        let block = block_of(&mut disk, 712u32.saturating_add(row.bucket))?;
        assert_eq!(rt; block.as_slice(), want.as_slice(), "{row:?}");
        let head = block_of(&mut disk, DIRECTORY)?;
        let numbers = if row.records == 7 {
            [8, 2, 2]
        } else {
            [11, 10, 3]
        };
        assert_eq!(rt; [head[USED], head[ROOT], head[LEVELS]], numbers);
    }
    Ok(())
}
