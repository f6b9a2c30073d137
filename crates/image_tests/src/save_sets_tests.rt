//! Six hundred blocks are copied, in two groups.
ghost use Rattle.std.specs.Prelude.{◌≤◌};
ghost use Rattle.block_disk.specs.Sizes.{content_start};
ghost use Rattle.careful_write.specs.State.{IsIdle};

use block_disk::{CrashDisk, Disk, MemPlatter};
use careful_write::{Down, Group, Store};
use frame_pool::Pool;
use save_sets::copy;
use std::alloc::{AllocError, Global};
use std::test::Fail;

// Whether a block has this byte throughout.
fn has<D: Disk>(store: &mut Store<D>, n: u32, byte: u8) -> Result<bool, Down>
    requires { content_start ≤ n }
{
    if n >= store.blocks() {
        return Ok(false);
    }
    let mut block = [0; 512];
    store.read(n, &mut block)?;
    Ok(block == [byte; 512])
}

// The blocks 600, 601 and 1199 have bytes, and 600 blocks from there on are copied to 2000.
fn copies<D: Disk>(store: &mut Store<D>) -> Result<bool, Down>
    requires idle { IsIdle store.old }
{
    if store.blocks() < 4096 || store.blocks() > 65536 {
        return Ok(false);
    }
    let _ = store.stage(600, &[1; 512]);
    let _ = store.stage(601, &[2; 512]);
    if store.blocks() < 4096 {
        return Ok(false);
    }
    let _ = store.stage(1199, &[3; 512]);
    store.apply()?;
    if store.blocks() < 4096 || store.blocks() > 65536 {
        return Ok(false);
    }
    copy(store, 600, 2000, 600)?;
    Ok(
        has(store, 2000, 1)?
            && has(store, 2001, 2)?
            && has(store, 2002, 0)?
            && has(store, 2599, 3)?
            && has(store, 600, 1)?
            && has(store, 2600, 0)?,
    )
}

// None where the store did not open.
fn run(alloc: Global) -> Result<Option<Result<bool, Down>>, AllocError> {
    let disk = CrashDisk::new(alloc, MemPlatter::new(alloc, 4096)?)?;
    let group = Group::reserve(alloc)?;
    let pool = Pool::new(alloc, 1)?;
    if disk.pending() != 0 || disk.blocks() < 4096 {
        return Ok(None);
    }
    match Store::open(disk, group, pool) {
        Ok(mut store) => {
            if !store.fits() {
                return Ok(None);
            }
            Ok(Some(copies(&mut store)))
        }
        Err(_) => Ok(None),
    }
}

#[test]
fn blocks_are_copied_in_two_groups(rt: HostRuntime) -> Result<(), Fail> {
    let copied = run(rt.alloc())?;
    assert!(rt; copied == Some(Ok(true)));
    Ok(())
}
