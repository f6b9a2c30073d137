//! Two entries of a ring are read from the first on and from the second on.
ghost use Rattle.std.specs.Prelude.{◌≡◌};

use block_disk::{CrashDisk, Disk, MemPlatter};
use careful_write::{Group, Store};
use file_base::Span;
use frame_pool::Pool;
use image_entries::{ReadErr, read_entries};
use journal_format::{EntryBuf, decode, encode};
use journal_store::append;
use std::alloc::{AllocError, Global};
use std::test::Fail;
use vms_base::Record;

// Record 1 of file 0 was put as "a" by A.1.1.
const CHANGE: [u8; 53] = [
    1, 1, 0, 4, 1, 0, 53, 0, 65, 0, 0, 0, 0, 0, 0, 0, 1, 0, 0, 0, 1, 0, 0, 0, 65, 0, 0, 0, 0, 0, 0,
    0, 1, 0, 0, 0, 1, 0, 0, 0, 0, 0, 0, 0, 0, 0, 0, 0, 1, 0, 0, 0, 97,
];

// An empty journal of one block at the position 512.
fn journal() -> Span
    ensures { result ≡ record { start = 600; blocks = 1; first = 512; end = 512 } }
{
    Span {
        start: 600,
        blocks: 1,
        first: 512,
        end: 512,
    }
}

// How many entries are read from a position on, once two are there; None where they are not read.
fn count_from<D: Disk>(
    alloc: Global,
    store: &mut Store<D>,
    from: u64,
    entry: &EntryBuf,
    image: &mut Record,
) -> Option<usize> {
    if store.blocks() < 4096 || store.blocks() > 65536 {
        return None;
    }
    store.unstage();
    let mut span = journal();
    if append(store, &mut span, entry).is_err() || append(store, &mut span, entry).is_err() {
        return None;
    }
    match read_entries(alloc, store, &span, from, image) {
        Ok(Some(found)) => Some(found.positions.len()),
        Ok(None) => None,
        Err(_) => None,
    }
}

fn store(alloc: Global) -> Result<Option<Store<CrashDisk<MemPlatter>>>, AllocError> {
    let disk = CrashDisk::new(alloc, MemPlatter::new(alloc, 4096)?)?;
    let group = Group::reserve(alloc)?;
    let pool = Pool::new(alloc, 1)?;
    if disk.pending() != 0 || disk.blocks() < 4096 {
        return Ok(None);
    }
    match Store::open(disk, group, pool) {
        Ok(store) => Ok(Some(store)),
        Err(_) => Ok(None),
    }
}

#[test]
fn entries_are_read_from_where_they_begin(rt: HostRuntime) -> Result<(), Fail> {
    let mut image = Record::reserve(rt.alloc())?;
    let mut entry = EntryBuf::reserve(rt.alloc())?;
    match decode(&CHANGE, &mut image) {
        Ok((head, _)) => encode(&head, Some(&image), &mut entry),
        Err(_) => {}
    }
    let opened = store(rt.alloc())?;
    assert!(rt; opened.is_some());
    let Some(mut store) = opened else {
        return Ok(());
    };
    for (from, want) in [(512, Some(2)), (565, Some(1)), (618, Some(0)), (513, None)] {
        assert!(rt;
            count_from(rt.alloc(), &mut store, from, &entry, &mut image) == want,
            "{from}"
        );
    }
    Ok(())
}
