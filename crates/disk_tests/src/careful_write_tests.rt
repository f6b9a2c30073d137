//! Groups that are stopped at each of their writes, and platters whose calls fail in turn.
ghost use Rattle.std.specs.Prelude.{◌≡◌, ◌≤◌, true, IfOk};
ghost use Rattle.careful_write.specs.State.{IsReady};

use block_disk::{CrashDisk, Disk, MemPlatter};
use careful_write::{Down, Group, HOME, OpenErr, Store};
use frame_pool::Pool;
use std::alloc::{AllocError, Global};
use std::test::Fail;

#[derive(Drop)]
struct Parts<D> {
    disk: D,
    group: Group,
    pool: Pool,
}

fn make_parts(
    alloc: Global,
    failing: Option<u32>,
) -> Result<Parts<CrashDisk<MemPlatter>>, AllocError> {
    let mut platter = MemPlatter::new(alloc, 4096)?;
    if let Some(call) = failing {
        platter.fail(call)?;
    }
    Ok(Parts {
        disk: CrashDisk::new(alloc, platter)?,
        group: Group::reserve(alloc)?,
        pool: Pool::new(alloc, 1)?,
    })
}

fn open<D: Disk>(parts: Parts<D>) -> Result<Store<D>, Parts<D>>
    ensures { IfOk result (λ store. store.fits ≡ true → IsReady store) }
{
    let Parts { disk, group, pool } = parts;
    if disk.pending() != 0 || disk.blocks() < 4096 {
        return Err(Parts { disk, group, pool });
    }
    match Store::open(disk, group, pool) {
        Ok(store) => Ok(store),
        Err(err) => {
            let OpenErr {
                down: _,
                disk,
                group,
                pool,
            } = err;
            Err(Parts { disk, group, pool })
        }
    }
}

fn fill<D: Disk>(store: &mut Store<D>, count: u32, byte: u8) -> Result<(), Down>
    requires ready { IsReady store.old }
    requires few { count ≤ 512 }
{
    for n in HOME..HOME + count {
        if n < store.blocks() {
            let _ = store.stage(n, &[byte; 512]);
        }
    }
    store.apply()
}

// The byte that all of these blocks hold, or None where they differ.
fn byte_of<D: Disk>(store: &mut Store<D>, count: u32) -> Option<u8>
    requires { count ≤ 512 }
{
    let mut first = [0; 512];
    let mut other = [0; 512];
    if HOME < store.blocks() {
        store.read(HOME, &mut first).ok()?;
    }
    for n in HOME..HOME + count {
        if n < store.blocks() {
            store.read(n, &mut other).ok()?;
        }
        if other != [first[0]; 512] {
            return None;
        }
    }
    Some(first[0])
}

// Applies a group of blocks that hold this byte, and tells whether it answered Ok.
fn apply_group<D: Disk>(parts: Parts<D>, count: u32, byte: u8) -> (Parts<D>, bool)
    requires { count ≤ 512 }
{
    match open(parts) {
        Ok(mut store) => {
            let applied = store.fits() && fill(&mut store, count, byte).is_ok();
            let (disk, group, pool) = store.into_parts();
            (Parts { disk, group, pool }, applied)
        }
        Err(parts) => (parts, false),
    }
}

// Powers the disk, and tells what the blocks of the group hold; None also where a call failed.
fn restart<D: Disk>(parts: Parts<D>, count: u32) -> (Parts<D>, Option<u8>)
    requires { count ≤ 512 }
{
    let Parts {
        mut disk,
        group,
        pool,
    } = parts;
    let _ = disk.power();
    match open(Parts { disk, group, pool }) {
        Ok(mut store) => {
            let found = byte_of(&mut store, count);
            let (disk, group, pool) = store.into_parts();
            (Parts { disk, group, pool }, found)
        }
        Err(parts) => (parts, None),
    }
}

// How often a group that was stopped at a write left anything but the content before or after.
fn wrong_stops(alloc: Global, count: u32) -> Result<u32, AllocError>
    requires { count ≤ 512 }
{
    let cost = 2 * count + 2 + count / 128 + 1;
    let mut parts = make_parts(alloc, None)?;
    let mut before = 0;
    let mut wrong = 0u32;
    for choice in [0, 5, 10, 15] {
        for writes in 0..cost + 1 {
            let after = before ^ 1;
            parts.disk.arm(writes, choice);
            let (stopped, applied) = apply_group(parts, count, after);
            let (powered, found) = restart(stopped, count);
            parts = powered;
            if applied != (writes == cost)
                || !(found == Some(after) || !applied && found == Some(before))
            {
                wrong = wrong.saturating_add(1);
            }
            before = found.unwrap_or(before);
        }
    }
    Ok(wrong)
}

// How often a call of the platter that failed left anything but the content before or after. The group is stopped at
// the write that closes its gate, so that opening finishes it.
fn wrong_failures(alloc: Global, calls: u32) -> Result<u32, AllocError> {
    let mut wrong = 0u32;
    for call in 0..calls {
        let mut parts = make_parts(alloc, Some(call))?;
        parts.disk.arm(6, 0);
        let (stopped, applied) = apply_group(parts, 2, 1);
        let (once, first) = restart(stopped, 2);
        let (_, second) = restart(once, 2);
        let found = first.or(second);
        if applied || !(found == Some(0) || found == Some(1)) || call == 0 && found != Some(1) {
            wrong = wrong.saturating_add(1);
        }
    }
    Ok(wrong)
}

// How many reads a store tells of when it is opened, and after four of them.
fn told_reads(alloc: Global) -> Result<[u64; 2], AllocError> {
    match open(make_parts(alloc, None)?) {
        Ok(mut store) => {
            let first = store.reads();
            let _ = byte_of(&mut store, 3);
            Ok([first, store.reads()])
        }
        Err(_) => Ok([u64::MAX; 2]),
    }
}

#[test]
fn reads_are_counted(rt: HostRuntime) -> Result<(), Fail> {
    assert_eq!(rt; told_reads(rt.alloc())?, [0, 4]);
    Ok(())
}

#[test]
fn a_stop_leaves_one_block_before_or_after(rt: HostRuntime) -> Result<(), Fail> {
    assert_eq!(rt; wrong_stops(rt.alloc(), 1)?, 0);
    Ok(())
}

#[test]
fn a_stop_leaves_512_blocks_before_or_after(rt: HostRuntime) -> Result<(), Fail> {
    assert_eq!(rt; wrong_stops(rt.alloc(), 512)?, 0);
    Ok(())
}

#[test]
fn a_failing_call_leaves_blocks_before_or_after(rt: HostRuntime) -> Result<(), Fail> {
    assert_eq!(rt; wrong_failures(rt.alloc(), 40)?, 0);
    Ok(())
}
