//! Entries that wrap at each of their bytes, and a ring that is full.
ghost use Rattle.std.specs.Prelude.{◌≡◌, ◌≤◌};

use block_disk::{CrashDisk, Disk, MemPlatter};
use careful_write::{Group, OpenErr, Store};
use file_base::Span;
use frame_pool::Pool;
use journal_format::{EntryBuf, decode, encode};
use journal_store::{AppendErr, append, entry_at};
use std::alloc::{AllocError, Global};
use std::test::Fail;
use vms_base::Record;

// Record 1 of file 0 was put as "a" by A.1.1.
const CHANGE: [u8; 53] = [
    1, 1, 0, 4, 1, 0, 53, 0, 65, 0, 0, 0, 0, 0, 0, 0, 1, 0, 0, 0, 1, 0, 0, 0, 65, 0, 0, 0, 0, 0, 0,
    0, 1, 0, 0, 0, 1, 0, 0, 0, 0, 0, 0, 0, 0, 0, 0, 0, 1, 0, 0, 0, 97,
];

fn store(alloc: Global) -> Result<Option<Store<CrashDisk<MemPlatter>>>, AllocError> {
    let disk = CrashDisk::new(alloc, MemPlatter::new(alloc, 4096)?)?;
    let group = Group::reserve(alloc)?;
    let pool = Pool::new(alloc, 1)?;
    if disk.pending() != 0 || disk.blocks() < 4096 {
        return Ok(None);
    }
    match Store::open(disk, group, pool) {
        Ok(store) => Ok(Some(store)),
        Err(err) => {
            let OpenErr {
                down: _,
                disk: _,
                group: _,
                pool: _,
            } = err;
            Ok(None)
        }
    }
}

// The journal of one block whose entries lie between these positions.
fn journal(first: u64, end: u64) -> Span
    ensures { result ≡ record { start = 600; blocks = 1; first = first; end = end } }
{
    Span {
        start: 600,
        blocks: 1,
        first,
        end,
    }
}

// Whether an entry that is put at a position is read there.
fn stands_at<D: Disk>(
    store: &mut Store<D>,
    position: u64,
    entry: &EntryBuf,
    image: &mut Record,
    again: &mut EntryBuf,
) -> bool
    requires { position ≤ 1024 }
{
    if store.blocks() < 4096 || store.blocks() > 65536 {
        return false;
    }
    store.unstage();
    let mut span = journal(position, position);
    if append(store, &mut span, entry).is_err() {
        return false;
    }
    match entry_at(store, &span, position, image) {
        Ok(Some((head, next))) => {
            encode(&head, Some(image), again);
            next == span.end && again.bytes() == entry.bytes()
        }
        _ => false,
    }
}

// The free bytes and the entry's, where it does not fit behind so many.
fn refused<D: Disk>(store: &mut Store<D>, used: u64, entry: &EntryBuf) -> Option<(u64, u64)>
    requires { used ≤ 512 }
{
    if store.blocks() < 4096 || store.blocks() > 65536 {
        return None;
    }
    store.unstage();
    let mut span = journal(7, 7 + used);
    match append(store, &mut span, entry) {
        Err(AppendErr::Full { free, need }) => Some((free, need)),
        _ => None,
    }
}

#[test]
fn entries_wrap_at_each_byte_and_fill_the_ring(rt: HostRuntime) -> Result<(), Fail> {
    let mut image = Record::reserve(rt.alloc())?;
    let mut entry = EntryBuf::reserve(rt.alloc())?;
    let mut again = EntryBuf::reserve(rt.alloc())?;
    match decode(&CHANGE, &mut image) {
        Ok((head, _)) => encode(&head, Some(&image), &mut entry),
        Err(_) => {}
    }
    assert!(rt; entry.bytes() == CHANGE.as_slice());
    let opened = store(rt.alloc())?;
    assert!(rt; opened.is_some());
    let Some(mut store) = opened else {
        return Ok(());
    };
    for position in 459..513 {
        assert!(rt;
            stands_at(&mut store, position, &entry, &mut image, &mut again),
            "{position}"
        );
    }
    for (used, want) in [(459, None), (460, Some((52, 53))), (512, Some((0, 53)))] {
        assert!(rt; refused(&mut store, used, &entry) == want, "{used}");
    }
    Ok(())
}
