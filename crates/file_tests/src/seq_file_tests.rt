//! Records come and go at the end of a file, and its buckets are filled to the last byte.
ghost use Rattle.std.specs.Prelude.{◌≡◌, ◌≤◌, ◌<◌, ◌+◌, ◌*◌, ℕ, Bool, List, false, true, length, OnOk, IfSome, Some, None};
ghost use Rattle.std.specs.Option.{option_copied};
ghost use Rattle.careful_write.specs.Reads.{SameButReads};
ghost use Rattle.careful_write.specs.State.{IsIdle};
ghost use Rattle.vms_model.specs.Keys.{Number};
ghost use Rattle.change_set.specs.Files.{IsPlaced, free_frames};
ghost use Rattle.seq_file.specs.Layout.{IsSequential, IsFresh, Suits};

use block_disk::{CrashDisk, Disk, MemPlatter};
use careful_write::{Down, Group, Store};
use change_set::{Held, RecordFile};
use file_base::{FileHead, NO_MARKS, NO_SAVE, NO_SPAN, Organization};
use frame_pool::Pool;
use seq_file::SeqFile;
use std::alloc::{AllocError, Global};
use std::test::Fail;
use vms_base::{FileName, Key, Moment, Record};

struct NoneHeld;

impl Held for NoneHeld {
    ghost held = { λ none key. false };

    fn is_held(&self, _key: &Key) -> bool {
        false
    }
}

fn new_head(name: FileName, bucket: u16, mrs: u16) -> FileHead
    ensures form { IsSequential result }
    ensures fresh { IsFresh result }
    ensures place { (result.start ≡ 600) × (result.alloc ≡ 3) × (result.bucket ≡ bucket) × (result.mrs ≡ mrs) }
{
    FileHead {
        name,
        organization: Organization::Sequential,
        marks: NO_MARKS,
        bucket,
        mrs,
        mrn: 0,
        key_pos: 0,
        key_size: 0,
        start: 600,
        alloc: 3,
        used: 1,
        root: 0,
        levels: 0,
        count: 0,
        ai: NO_SPAN,
        bi: NO_SPAN,
        bi_since: Moment(0),
        save: NO_SAVE,
    }
}

// Sets a position of a file between two groups, and applies it.
fn put<D: Disk>(
    head: &mut FileHead,
    store: &mut Store<D>,
    n: u32,
    value: Option<&Record>,
) -> Result<(), Down>
    requires form { IsSequential head.old }
    requires placed { IsPlaced head.old store.old.disk }
    requires frames { 32 ≤ free_frames store.old.pool }
    requires idle { IsIdle store.old }
    requires suits { Suits head.old (Number n) (option_copied value) }
    ensures form { OnOk result (IsSequential head.new) }
    ensures placed { OnOk result (IsPlaced head.new store.new.disk) }
    ensures frames { OnOk result (32 ≤ free_frames store.new.pool) }
    ensures idle { OnOk result (IsIdle store.new) }
{
    SeqFile::set(head, store, &Key::Number(n), value, &NoneHeld)?;
    store.apply()
}

// The same in place, as a change is undone.
fn put_back<D: Disk>(
    head: &mut FileHead,
    store: &mut Store<D>,
    n: u32,
    value: Option<&Record>,
) -> Result<(), Down>
    requires form { IsSequential head.old }
    requires placed { IsPlaced head.old store.old.disk }
    requires frames { 32 ≤ free_frames store.old.pool }
    requires idle { IsIdle store.old }
    requires suits { Suits head.old (Number n) (option_copied value) }
    ensures form { OnOk result (IsSequential head.new) }
    ensures placed { OnOk result (IsPlaced head.new store.new.disk) }
    ensures frames { OnOk result (32 ≤ free_frames store.new.pool) }
    ensures idle { OnOk result (IsIdle store.new) }
{
    SeqFile::restore(head, store, &Key::Number(n), value)?;
    store.apply()
}

// Sets a position to a record of these bytes, where they are as many as a record may have.
fn write<D: Disk>(
    head: &mut FileHead,
    store: &mut Store<D>,
    n: u32,
    bytes: &[u8],
    value: &mut Record,
) -> Result<(), Down>
    requires form { IsSequential head.old }
    requires placed { IsPlaced head.old store.old.disk }
    requires frames { 32 ≤ free_frames store.old.pool }
    requires idle { IsIdle store.old }
    ensures form { OnOk result (IsSequential head.new) }
    ensures placed { OnOk result (IsPlaced head.new store.new.disk) }
    ensures frames { OnOk result (32 ≤ free_frames store.new.pool) }
    ensures idle { OnOk result (IsIdle store.new) }
{
    if n == 0 || bytes.is_empty() || bytes.len() > head.mrs as usize {
        return Ok(());
    }
    value.set(bytes);
    put(head, store, n, Some(&*value))
}

// Takes the positions from n on away, where n is one.
fn cut<D: Disk>(head: &mut FileHead, store: &mut Store<D>, n: u32) -> Result<(), Down>
    requires form { IsSequential head.old }
    requires placed { IsPlaced head.old store.old.disk }
    requires frames { 32 ≤ free_frames store.old.pool }
    requires idle { IsIdle store.old }
    ensures form { OnOk result (IsSequential head.new) }
    ensures placed { OnOk result (IsPlaced head.new store.new.disk) }
    ensures frames { OnOk result (32 ≤ free_frames store.new.pool) }
    ensures idle { OnOk result (IsIdle store.new) }
{
    if n == 0 || n > head.count {
        return Ok(());
    }
    SeqFile::cut(head, store, n)?;
    store.apply()
}

// Whether the file has these numbers of used buckets and of records, the last record has these bytes and none is behind.
fn ends_with<D: Disk>(
    head: &FileHead,
    store: &mut Store<D>,
    used: u32,
    count: u32,
    bytes: &[u8],
    out: &mut Record,
) -> Result<bool, Down>
    requires form { IsSequential head.now }
    requires placed { IsPlaced head.now store.old.disk }
    requires frames { 32 ≤ free_frames store.old.pool }
    ensures same { OnOk result (SameButReads store.old store.new) }
{
    let mut found = Key::End;
    let last = SeqFile::get(head, store, &Key::Number(count), out)? && out.bytes() == bytes;
    let more = SeqFile::next(head, store, Some(&Key::Number(count)), &mut found, out)?;
    let behind = SeqFile::get(head, store, &Key::Number(count.saturating_add(1)), out)?;
    Ok([head.used, head.count] == [used, count] && last && !more && !behind)
}

// Whether the file begins with these two records, and a further one of a byte asks for so many buckets.
fn begins_with<D: Disk>(
    head: &FileHead,
    store: &mut Store<D>,
    first: &[u8],
    second: &[u8],
    free: u32,
    out: &mut Record,
) -> Result<bool, Down>
    requires form { IsSequential head.now }
    requires placed { IsPlaced head.now store.old.disk }
    requires frames { 32 ≤ free_frames store.old.pool }
    ensures same { OnOk result (SameButReads store.old store.new) }
{
    let mut found = Key::End;
    let one = SeqFile::next(head, store, None, &mut found, out)?
        && found == Key::Number(1)
        && out.bytes() == first;
    let two = SeqFile::next(head, store, Some(&Key::Number(1)), &mut found, out)?
        && found == Key::Number(2)
        && out.bytes() == second;
    let need = SeqFile::need(head, store, 1)?;
    Ok(one && two && need == free)
}

// Whether the first record has these bytes, and is read as none by a head whose records have at most a byte less.
fn is_bounded<D: Disk>(
    head: &FileHead,
    store: &mut Store<D>,
    bytes: &[u8],
    out: &mut Record,
) -> Result<bool, Down>
    requires form { IsSequential head.now }
    requires placed { IsPlaced head.now store.old.disk }
    requires frames { 32 ≤ free_frames store.old.pool }
    ensures same { OnOk result (SameButReads store.old store.new) }
{
    if bytes.len() < 2 || bytes.len() > head.mrs as usize {
        return Ok(false);
    }
    let most = bytes.len() as u16;
    let fitting = FileHead { mrs: most, ..*head };
    let shorter = FileHead {
        mrs: most - 1,
        ..*head
    };
    let mut found = Key::End;
    let there = SeqFile::get(&fitting, store, &Key::Number(1), out)? && out.bytes() == bytes;
    let longer = SeqFile::get(&shorter, store, &Key::Number(1), out)?;
    let first = SeqFile::next(&shorter, store, None, &mut found, out)?;
    Ok(there && !longer && !first)
}

/// The two records that a test is given, and records of one byte.
#[derive(Clone, Copy, Debug, PartialEq, Eq, Drop)]
enum Text {
    First,
    Second,
    Nine,
    Eight,
    Seven,
}

/// What is done to a file: a position is set to a record, set to none, or set back to none, and positions are cut from one on. And what is seen of it: its
/// used buckets and records with the last record, its first two records with the buckets that a further one asks for, and its longest record.
#[derive(Clone, Copy, Debug, PartialEq, Eq, Drop)]
enum Step {
    Write(u32, Text),
    TakeAway(u32),
    PutBack(u32),
    Cut(u32),
    Ends(u32, u32, Text),
    Begins(u32),
    Bounded,
}

// A bucket is filled with two records to the last byte and two buckets more, one is read by other heads, a record is written over one, the last one is taken
// away, put behind the others and set back to none, all buckets are cut over, and the file begins anew.
const STEPS: [Step; 24] = [
    Step::Write(1, Text::First),
    Step::Write(2, Text::Second),
    Step::Ends(1, 2, Text::Second),
    Step::Begins(1),
    Step::Bounded,
    Step::Write(3, Text::Nine),
    Step::Ends(2, 3, Text::Nine),
    Step::Begins(0),
    Step::Write(4, Text::First),
    Step::Write(5, Text::Second),
    Step::Ends(3, 5, Text::Second),
    Step::Write(3, Text::Eight),
    Step::TakeAway(5),
    Step::Write(5, Text::Second),
    Step::PutBack(5),
    Step::Ends(2, 4, Text::First),
    Step::Cut(4),
    Step::Ends(2, 3, Text::Eight),
    Step::Cut(2),
    Step::Write(2, Text::Second),
    Step::Ends(1, 2, Text::Second),
    Step::Cut(1),
    Step::Write(1, Text::Seven),
    Step::Ends(1, 1, Text::Seven),
];

fn bytes_of<'a>(text: Text, first: &'a [u8], second: &'a [u8]) -> &'a [u8] {
    match text {
        Text::First => first,
        Text::Second => second,
        Text::Nine => &[9],
        Text::Eight => &[8],
        Text::Seven => &[7],
    }
}

// Sets a position to none, or back to none, where there is such a position.
fn empty<D: Disk>(head: &mut FileHead, store: &mut Store<D>, n: u32, back: bool) -> Result<(), Down>
    requires form { IsSequential head.old }
    requires placed { IsPlaced head.old store.old.disk }
    requires frames { 32 ≤ free_frames store.old.pool }
    requires idle { IsIdle store.old }
    ensures form { OnOk result (IsSequential head.new) }
    ensures placed { OnOk result (IsPlaced head.new store.new.disk) }
    ensures frames { OnOk result (32 ≤ free_frames store.new.pool) }
    ensures idle { OnOk result (IsIdle store.new) }
{
    if n == 0 {
        return Ok(());
    }
    if back {
        put_back(head, store, n, None)
    } else {
        put(head, store, n, None)
    }
}

// Takes a step, and tells whether what is to be seen is seen.
fn take<D: Disk>(
    head: &mut FileHead,
    store: &mut Store<D>,
    step: Step,
    first: &[u8],
    second: &[u8],
    out: &mut Record,
) -> Result<bool, Down>
    requires form { IsSequential head.old }
    requires placed { IsPlaced head.old store.old.disk }
    requires frames { 32 ≤ free_frames store.old.pool }
    requires idle { IsIdle store.old }
    ensures form { OnOk result (IsSequential head.new) }
    ensures placed { OnOk result (IsPlaced head.new store.new.disk) }
    ensures frames { OnOk result (32 ≤ free_frames store.new.pool) }
    ensures idle { OnOk result (IsIdle store.new) }
{
    match step {
        Step::Write(n, text) => write(head, store, n, bytes_of(text, first, second), out)?,
        Step::TakeAway(n) => empty(head, store, n, false)?,
        Step::PutBack(n) => empty(head, store, n, true)?,
        Step::Cut(n) => cut(head, store, n)?,
        Step::Ends(used, count, text) => {
            return ends_with(head, store, used, count, bytes_of(text, first, second), out);
        }
        Step::Begins(free) => return begins_with(head, store, first, second, free, out),
        Step::Bounded => return is_bounded(head, store, first, out),
    }
    Ok(true)
}

// Takes the steps above in a new file, up to one that is not seen.
fn fills_and_cuts<D: Disk>(
    head: &mut FileHead,
    store: &mut Store<D>,
    first: &[u8],
    second: &[u8],
    out: &mut Record,
) -> Result<Option<Step>, Down>
    requires form { IsSequential head.old }
    requires placed { IsPlaced head.old store.old.disk }
    requires frames { 32 ≤ free_frames store.old.pool }
    requires idle { IsIdle store.old }
    requires fresh { IsFresh head.old }
{
    SeqFile::make(head, store)?;
    for step in STEPS {
        if !take(head, store, step, first, second, out)? {
            return Ok(Some(step));
        }
    }
    Ok(None)
}

// None where the store did not open, or a bucket of so many blocks is too small for the records.
fn run(
    alloc: Global,
    bucket: u16,
    mrs: u16,
    first: &[u8],
    second: &[u8],
) -> Result<Option<Result<Option<Step>, Down>>, AllocError>
    requires blocks { (1 ≤ bucket) × (bucket ≤ 16) }
    requires records { (1 ≤ mrs) × (mrs + 32 ≤ 512 * bucket) × (mrs ≤ 8160) }
{
    let disk = CrashDisk::new(alloc, MemPlatter::new(alloc, 4096)?)?;
    let group = Group::reserve(alloc)?;
    let pool = Pool::new(alloc, 32)?;
    let mut out = Record::reserve(alloc)?;
    let Some(name) = FileName::new(b"F") else {
        return Ok(None);
    };
    if disk.pending() != 0 || disk.blocks() != 4096 {
        return Ok(None);
    }
    match Store::open(disk, group, pool) {
        Ok(mut store) => {
            if !store.fits() {
                return Ok(None);
            }
            let mut head = new_head(name, bucket, mrs);
            Ok(Some(fills_and_cuts(&mut head, &mut store, first, second, &mut out)))
        }
        Err(_) => Ok(None),
    }
}

#[test]
fn buckets_are_filled_to_the_last_byte_and_cut(rt: HostRuntime) -> Result<(), Fail> {
    // 512 - 16 is 248 twice, and a slot has two bytes more than its record.
    assert_eq!(rt;
        run(rt.alloc(), 1, 480, &[1; 246], &[2; 246])?,
        Some(Ok(None))
    );
    // 8,192 - 16 is 8,162 and 14, either way round.
    assert_eq!(rt;
        run(rt.alloc(), 16, 8160, &[1; 8160], &[2; 12])?,
        Some(Ok(None))
    );
    assert_eq!(rt;
        run(rt.alloc(), 16, 8160, &[1; 12], &[2; 8160])?,
        Some(Ok(None))
    );
    Ok(())
}
