//! Worked cases of torn blocks, stops and failing calls, and blocks in a real file.
use block_disk::{CrashDisk, Disk, DiskErr, Failed, FilePlatter, MemPlatter, Platter};
use std::fs::OpenOptions;
use std::process::Abort;
use std::test::Fail;

fn put<D: Disk>(disk: &mut D, n: u32, byte: u8) -> Result<(), DiskErr> {
    if n < disk.blocks() && disk.pending() < 1024 {
        disk.write(n, &[byte; 512])
    } else {
        Err(DiskErr::Failed)
    }
}

fn put_all<D: Disk>(disk: &mut D, byte: u8) -> Result<(), DiskErr> {
    for n in 0..disk.blocks() {
        put(disk, n, byte)?;
    }
    Ok(())
}

// The first and the last byte of a block.
fn ends<D: Disk>(disk: &mut D, n: u32) -> Result<(u8, u8), DiskErr> {
    let mut bytes = [0; 512];
    if n < disk.blocks() {
        disk.read(n, &mut bytes)?;
    }
    Ok((bytes[0], bytes[511]))
}

// What a disk is asked: blocks are filled with a byte, its blocks are written, the fuse is set, or it gets power.
#[derive(Clone, Copy, Debug)]
enum Asked {
    Put(u32, u8),
    PutAll(u8),
    Barrier,
    Arm(u32, u64),
    Power,
}

// What is seen of a disk: its answer, the first and the last byte of a block, and how many blocks are pending.
#[derive(Clone, Copy, Debug)]
enum Seen {
    Answers(Asked, Result<(), DiskErr>),
    Reads(u32, Result<(u8, u8), DiskErr>),
    Pending(u32),
}

fn ask<D: Disk>(disk: &mut D, asked: Asked) -> Result<(), DiskErr> {
    match asked {
        Asked::Put(n, byte) => put(disk, n, byte),
        Asked::PutAll(byte) => put_all(disk, byte),
        Asked::Barrier => disk.barrier(),
        Asked::Arm(writes, choice) => {
            disk.arm(writes, choice);
            Ok(())
        }
        Asked::Power => disk.power(),
    }
}

fn see<D: Disk>(rt: &impl Abort, disk: &mut D, wanted: &[Seen]) {
    for seen in wanted {
        match *seen {
            Seen::Answers(asked, want) => assert_eq!(rt; ask(disk, asked), want, "{asked:?}"),
            Seen::Reads(n, want) => assert_eq!(rt; ends(disk, n), want, "block {n}"),
            Seen::Pending(want) => assert_eq!(rt; disk.pending(), want),
        }
    }
}

const TORN: [Seen; 13] = [
    Seen::Answers(Asked::PutAll(1), Ok(())),
    Seen::Answers(Asked::Barrier, Ok(())),
    Seen::Answers(Asked::Arm(40, 0b11_10_01_00), Ok(())),
    Seen::Answers(Asked::PutAll(2), Ok(())),
    Seen::Reads(0, Ok((2, 2))),
    Seen::Answers(Asked::Power, Ok(())),
    Seen::Reads(0, Ok((1, 1))),
    Seen::Reads(1, Ok((2, 2))),
    Seen::Reads(2, Ok((2, 1))),
    Seen::Reads(3, Ok((0xEE, 0xEE))),
    Seen::Reads(4, Ok((1, 1))),
    Seen::Reads(33, Ok((2, 2))),
    Seen::Reads(34, Ok((2, 1))),
];

#[test]
fn tears_blocks_in_four_forms(rt: HostRuntime) -> Result<(), Fail> {
    let mut disk = CrashDisk::new(rt.alloc(), MemPlatter::new(rt.alloc(), 40)?)?;
    see(&rt, &mut disk, &TORN);
    Ok(())
}

const STOPPED: [Seen; 13] = [
    Seen::Answers(Asked::Arm(2, 0), Ok(())),
    Seen::Answers(Asked::Put(0, 1), Ok(())),
    Seen::Answers(Asked::Barrier, Ok(())),
    Seen::Answers(Asked::Put(1, 1), Ok(())),
    Seen::Answers(Asked::Put(2, 1), Err(DiskErr::Stopped)),
    Seen::Reads(0, Err(DiskErr::Stopped)),
    Seen::Answers(Asked::Barrier, Err(DiskErr::Stopped)),
    Seen::Pending(2),
    Seen::Answers(Asked::Power, Ok(())),
    Seen::Pending(0),
    Seen::Reads(0, Ok((1, 1))),
    Seen::Reads(1, Ok((0, 0))),
    Seen::Answers(Asked::Put(2, 1), Ok(())),
];

#[test]
fn stops_at_the_fuse_until_power(rt: HostRuntime) -> Result<(), Fail> {
    let mut disk = CrashDisk::new(rt.alloc(), MemPlatter::new(rt.alloc(), 4)?)?;
    see(&rt, &mut disk, &STOPPED);
    Ok(())
}

// Calls of a platter.
#[derive(Clone, Copy, Debug)]
enum Call {
    Write(u32, u8),
    Sync,
    Read(u32),
}

fn write_block<P: Platter>(platter: &mut P, n: u32, byte: u8) -> Result<(), Failed> {
    if n < platter.blocks() {
        platter.write(n, &[byte; 512])
    } else {
        Err(Failed)
    }
}

fn first_byte<P: Platter>(platter: &mut P, n: u32) -> Result<u8, Failed> {
    let mut bytes = [0; 512];
    if n < platter.blocks() {
        platter.read(n, &mut bytes)?;
    }
    Ok(bytes[0])
}

// The first byte of a block that is read, and 0 after other calls.
fn answer<P: Platter>(platter: &mut P, call: Call) -> Result<u8, Failed> {
    match call {
        Call::Write(n, byte) => write_block(platter, n, byte)?,
        Call::Sync => platter.sync()?,
        Call::Read(n) => return first_byte(platter, n),
    }
    Ok(0)
}

fn answers<P: Platter>(rt: &impl Abort, platter: &mut P, table: &[(Call, Result<u8, Failed>)]) {
    for (call, want) in table {
        assert_eq!(rt; answer(platter, *call), *want, "{call:?}");
    }
}

const FAILING: [(Call, Result<u8, Failed>); 5] = [
    (Call::Read(0), Ok(0)),
    (Call::Write(0, 7), Err(Failed)),
    (Call::Write(0, 7), Ok(0)),
    (Call::Sync, Err(Failed)),
    (Call::Read(0), Ok(7)),
];

#[test]
fn fails_the_named_calls_alone(rt: HostRuntime) -> Result<(), Fail> {
    let mut platter = MemPlatter::new(rt.alloc(), 2)?;
    platter.fail(2)?;
    platter.fail(4)?;
    answers(&rt, &mut platter, &FAILING);
    let mut disk = CrashDisk::new(rt.alloc(), platter)?;
    assert_eq!(rt; ends(&mut disk, 0), Ok((7, 7)));
    Ok(())
}

// The file ends behind its second block.
const IN_A_FILE: [(Call, Result<u8, Failed>); 5] = [
    (Call::Write(1, 9), Ok(0)),
    (Call::Sync, Ok(0)),
    (Call::Read(0), Ok(0)),
    (Call::Read(1), Ok(9)),
    (Call::Read(2), Err(Failed)),
];

#[test]
fn keeps_blocks_in_a_file(rt: HostRuntime) -> Result<(), Fail> {
    let file = OpenOptions::new()
        .read(true)
        .write(true)
        .create(true)
        .open(&rt, "blocks.img")?;
    file.set_len(2 * 512)?;
    answers(&rt, &mut FilePlatter::open(file, 3), &IN_A_FILE);
    Ok(())
}
