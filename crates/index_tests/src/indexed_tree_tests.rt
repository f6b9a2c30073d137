//! Keys that are set and set back in a file under an index, beside a plain list, and how single leaves are parted.
ghost use Rattle.std.specs.Prelude.{IfOk, ◌≡◌, ◌≤◌, ◌<◌, ◌+◌, ℕ, true, length, OnOk, IfSome};
ghost use Rattle.std.specs.Option.{option_copied};
ghost use Rattle.vms_model.specs.Limits.{lock_limit};
ghost use Rattle.careful_write.specs.Reads.{SameButReads};
ghost use Rattle.careful_write.specs.State.{IsIdle};
ghost use Rattle.change_set.specs.Files.{IsPlaced, free_frames};
ghost use Rattle.file_base.specs.Bytes.{piece_at};
ghost use Rattle.indexed_tree.specs.index_blocks.Levels.{HasRoot};
ghost use Rattle.indexed_tree.specs.indexed_file.Chain.{HasKeys, SuitsText};
ghost use Rattle.indexed_tree.specs.indexed_file.Samples.{is_even_text};
ghost use Rattle.indexed_tree.specs.Files.{IsTreeHead, IsNewHead};
ghost use Rattle.indexed_tree.specs.Samples.{HasLongKeys};

use block_disk::{CrashDisk, Disk, MemPlatter};
use careful_write::{Down, Group, Store};
use change_set::Held;
use file_base::{FileHead, NO_MARKS, NO_SAVE, NO_SPAN, Organization};
use frame_pool::Pool;
use indexed_tree::{TreeFile, get_key, next_key, restore_key, set_key};
use std::alloc::{AllocError, Global};
use std::test::Fail;
use vms_base::{FileName, Key, KeyText, Moment, Record};

/// Keys whose first byte is even are held.
struct SomeHeld;

impl Held for SomeHeld {
    ghost held = { λ some key. is_even_text key };

    fn is_held(&self, key: &Key) -> bool {
        match key {
            Key::Text(text) => text.bytes()[0] % 2 == 0,
            _ => false,
        }
    }
}

/// What a key has in the plain list: a record of so many bytes that are alike but for the key, or none where the size is 0.
#[derive(Clone, Copy, Debug, PartialEq, Eq, Drop)]
pub(crate) struct Plain {
    pub key: u16,
    pub size: usize,
    pub fill: u8,
}

/// A generator of numbers.
#[derive(Drop)]
pub(crate) struct Draws {
    pub state: u32,
}

impl Draws {
    pub fn below(&mut self, limit: u32) -> u32
        requires { 1 ≤ limit }
        ensures { result < limit }
    {
        self.state = self.state.wrapping_mul(1103515245).wrapping_add(12345);
        self.state / 65536 % limit
    }
}

// The bytes of a key: its number, and zeros.
pub(crate) fn key_bytes(key: u16) -> [u8; 64] {
    let mut bytes = [0; 64];
    bytes[0] = (key / 256) as u8;
    bytes[1] = (key % 256) as u8;
    bytes
}

// The record of a key, of so many bytes that are alike: the key stands at place 1 of it.
fn fill_from(out: &mut Record, plain: Plain, bytes: &mut [u8]) {
    if bytes.len() < 65 || bytes.len() > 8160 || bytes.len() < plain.size {
        return;
    }
    bytes[1..65].copy_from_slice(&key_bytes(plain.key));
    out.set(&bytes[..plain.size]);
}

pub(crate) fn fill_record(out: &mut Record, plain: Plain) {
    if plain.size <= 480 {
        fill_from(out, plain, &mut [plain.fill; 480]);
        return;
    }
    fill_from(out, plain, &mut [plain.fill; 8160]);
}

// The head of a new file of so many buckets of so many blocks, whose records have at most so many bytes.
pub(crate) fn head_of(name: FileName, alloc: u32, bucket: u16, mrs: u16) -> FileHead
    requires some { 1 ≤ alloc }
    requires key { 65 ≤ mrs }
    ensures form { IsTreeHead result }
    ensures root { HasRoot result }
    ensures keys { HasKeys result }
    ensures fresh { IsNewHead result }
    ensures fields { HasLongKeys result }
    ensures place { (result.start ≡ 600) × (result.alloc ≡ alloc) × (result.bucket ≡ bucket) }
    ensures most { result.mrs ≡ mrs }
{
    FileHead {
        name,
        organization: Organization::Indexed,
        marks: NO_MARKS,
        bucket,
        mrs,
        mrn: 0,
        key_pos: 1,
        key_size: 64,
        start: 600,
        alloc,
        used: 1,
        root: 0,
        levels: 1,
        count: 0,
        ai: NO_SPAN,
        bi: NO_SPAN,
        bi_since: Moment(0),
        save: NO_SAVE,
    }
}

// Sets one key in the file, or sets it back.
fn put<D: Disk>(
    head: &mut FileHead,
    store: &mut Store<D>,
    text: KeyText,
    value: Option<&Record>,
    back: bool,
) -> Result<(), Down>
    requires form { HasRoot head.old }
    requires keys { HasKeys head.old }
    requires placed { IsPlaced head.old store.old.disk }
    requires frames { 1 ≤ free_frames store.old.pool }
    requires idle { IsIdle store.old }
    requires suits { SuitsText head.old text (option_copied value) }
    requires fields { HasLongKeys head.old }
    ensures form { OnOk result (HasRoot head.new) }
    ensures keys { OnOk result (HasKeys head.new) }
    ensures placed { OnOk result (IsPlaced head.new store.new.disk) }
    ensures frames { OnOk result (1 ≤ free_frames store.new.pool) }
    ensures idle { OnOk result (IsIdle store.new) }
    ensures fields { OnOk result (HasLongKeys head.new) }
{
    if back {
        restore_key(head, store, text.bytes(), value)?;
    } else {
        set_key(head, store, text.bytes(), value, &SomeHeld)?;
    }
    store.apply()
}

// Whether a record may be put at a key.
fn fits(head: &FileHead, key: [u8; 64], value: &Record) -> bool
    ensures { result ≡ true → (piece_at value.now 1 64 ≡ key) × (length value.now ≤ head.now.mrs) }
{
    let bytes = value.bytes();
    bytes.len() >= 65 && bytes.len() <= head.mrs as usize && bytes[1..65] == key[..]
}

/// What a run found.
#[derive(Debug, PartialEq, Eq, Drop)]
pub(crate) enum Found {
    /// The same as in the plain list, in a file of so many levels.
    Alike { levels: u32 },
    /// Another record of a key that was set, or more or fewer buckets read for it than one of each level.
    OtherRecord { key: u16 },
    /// Another number of buckets or of levels once a key was set.
    OtherShape { key: u16 },
    /// Other leaves, or other numbers of slots in them.
    OtherLeaves,
    /// Another record than the one of this key in the list, or one behind the last where it is 0.
    OtherList { at: u16 },
}

// Whether a key has a record. None where other than one bucket of each level is read.
fn get_by_levels<D: Disk>(
    head: &FileHead,
    store: &mut Store<D>,
    key: &[u8],
    out: &mut Record,
) -> Result<Option<bool>, Down>
    requires form { HasRoot head.now }
    requires placed { IsPlaced head.now store.old.disk }
    requires frames { 1 ≤ free_frames store.old.pool }
    ensures same { OnOk result (SameButReads store.old store.new) }
{
    let before = store.reads();
    let found = get_key(head, store, key, out)?;
    let read = store.reads().saturating_sub(before);
    if read != u64::from(head.levels).saturating_mul(u64::from(head.bucket)) {
        return Ok(None);
    }
    Ok(Some(found))
}

// Sets one key in the file, or sets it back, and tells whether it is read again by one bucket of each level.
fn set_and_get<D: Disk>(
    head: &mut FileHead,
    store: &mut Store<D>,
    plain: Plain,
    back: bool,
    value: &mut Record,
    out: &mut Record,
) -> Result<bool, Down>
    requires form { HasRoot head.old }
    requires keys { HasKeys head.old }
    requires placed { IsPlaced head.old store.old.disk }
    requires frames { 1 ≤ free_frames store.old.pool }
    requires idle { IsIdle store.old }
    requires fields { HasLongKeys head.old }
    ensures form { IfOk result (λ same. same ≡ true → HasRoot head.new) }
    ensures keys { IfOk result (λ same. same ≡ true → HasKeys head.new) }
    ensures placed { IfOk result (λ same. same ≡ true → IsPlaced head.new store.new.disk) }
    ensures frames { IfOk result (λ same. same ≡ true → 1 ≤ free_frames store.new.pool) }
    ensures idle { IfOk result (λ same. same ≡ true → IsIdle store.new) }
    ensures fields { IfOk result (λ same. same ≡ true → HasLongKeys head.new) }
{
    let key = key_bytes(plain.key);
    let Some(text) = KeyText::new(&key) else {
        return Ok(false);
    };
    if plain.size == 0 {
        put(head, store, text, None, back)?;
        return Ok(get_by_levels(head, store, text.bytes(), out)? == Some(false));
    }
    fill_record(value, plain);
    if !fits(head, key, value) {
        return Ok(false);
    }
    put(head, store, text, Some(value), back)?;
    let found = get_by_levels(head, store, text.bytes(), out)?;
    Ok(found == Some(true) && out.bytes() == value.bytes())
}

// Sets one key in the file, and then sets it back where there is something to set it back to.
pub(crate) fn set_and_back<D: Disk>(
    head: &mut FileHead,
    store: &mut Store<D>,
    plain: Plain,
    old: Option<Plain>,
    value: &mut Record,
    out: &mut Record,
) -> Result<bool, Down>
    requires form { HasRoot head.old }
    requires keys { HasKeys head.old }
    requires placed { IsPlaced head.old store.old.disk }
    requires frames { 1 ≤ free_frames store.old.pool }
    requires idle { IsIdle store.old }
    requires fields { HasLongKeys head.old }
    ensures form { IfOk result (λ same. same ≡ true → HasRoot head.new) }
    ensures keys { IfOk result (λ same. same ≡ true → HasKeys head.new) }
    ensures placed { IfOk result (λ same. same ≡ true → IsPlaced head.new store.new.disk) }
    ensures frames { IfOk result (λ same. same ≡ true → 1 ≤ free_frames store.new.pool) }
    ensures idle { IfOk result (λ same. same ≡ true → IsIdle store.new) }
    ensures fields { IfOk result (λ same. same ≡ true → HasLongKeys head.new) }
{
    if !set_and_get(head, store, plain, false, value, out)? {
        return Ok(false);
    }
    match old {
        Some(old) => set_and_get(head, store, old, true, value, out),
        None => Ok(true),
    }
}

// Whether the file lists the records of the plain list, which is in the order of its keys.
pub(crate) fn lists<D: Disk>(
    head: &FileHead,
    store: &mut Store<D>,
    list: &[Plain],
    value: &mut Record,
    out: &mut Record,
) -> Result<Found, Down>
    requires form { HasRoot head.now }
    requires keys { HasKeys head.now }
    requires placed { IsPlaced head.now store.old.disk }
    requires frames { 1 ≤ free_frames store.old.pool }
{
    let mut last = None;
    for plain in list {
        if plain.size == 0 {
            continue;
        }
        fill_record(value, *plain);
        let found = next_key(head, store, last.as_ref(), out)?;
        if found.is_none() || out.bytes() != value.bytes() {
            return Ok(Found::OtherList { at: plain.key });
        }
        last = found;
    }
    if next_key(head, store, last.as_ref(), out)?.is_some() {
        return Ok(Found::OtherList { at: 0 });
    }
    Ok(Found::Alike {
        levels: head.levels,
    })
}

// A store of zeros. None where it did not open.
pub(crate) fn opened(alloc: Global) -> Result<Option<Store<CrashDisk<MemPlatter>>>, AllocError>
    ensures size { IfOk result (λ store. IfSome store (λ s. s.disk.size ≡ lock_limit)) }
    ensures frames { IfOk result (λ store. IfSome store (λ s. 32 ≤ free_frames s.pool)) }
    ensures idle { IfOk result (λ store. IfSome store IsIdle) }
{
    let disk = CrashDisk::new(alloc, MemPlatter::new(alloc, 4096)?)?;
    let group = Group::reserve(alloc)?;
    let pool = Pool::new(alloc, 32)?;
    if disk.pending() != 0 || disk.blocks() != 4096 {
        return Ok(None);
    }
    match Store::open(disk, group, pool) {
        Ok(store) => {
            if !store.fits() {
                return Ok(None);
            }
            Ok(Some(store))
        }
        Err(_) => Ok(None),
    }
}

/// Slots of one leaf, by their bytes in the order of their keys; the one at a place is set last. The places behind the last slot have 0 bytes.
#[derive(Clone, Copy, Debug, Drop)]
struct Row {
    bucket: u16,
    mrs: u16,
    sizes: [usize; 5],
    last: usize,
    /// How many slots the leaves have then.
    counts: [u16; 3],
}

// Slots of a leaf of one block.
fn short_row(sizes: [usize; 5], last: usize, counts: [u16; 3]) -> Row {
    Row {
        bucket: 1,
        mrs: 480,
        sizes,
        last,
        counts,
    }
}

// Slots of a leaf of 16 blocks.
fn long_row(sizes: [usize; 5], last: usize, counts: [u16; 3]) -> Row {
    Row {
        bucket: 16,
        mrs: 8160,
        ..short_row(sizes, last, counts)
    }
}

// The slots of a row, in the order of their keys.
fn list_of_row(alloc: Global, row: &Row) -> Result<Vec<Plain>, AllocError> {
    let mut list = Vec::new(alloc);
    for (i, bytes) in row.sizes.iter().enumerate() {
        let size = bytes.saturating_sub(4);
        if size > 0 {
            list.push(Plain {
                key: 1 + i as u16,
                size,
                fill: 7,
            })?;
        }
    }
    Ok(list)
}

// A list with the one at a place behind all others.
fn with_last(alloc: Global, list: &[Plain], last: usize) -> Result<Vec<Plain>, AllocError> {
    let mut out = Vec::new(alloc);
    for (i, plain) in list.iter().enumerate() {
        if i != last {
            out.push(*plain)?;
        }
    }
    if let Some(plain) = list.get(last) {
        out.push(*plain)?;
    }
    Ok(out)
}

// Sets the keys of a list in its order, and tells whether each is read again.
fn set_all<D: Disk>(
    head: &mut FileHead,
    store: &mut Store<D>,
    list: &[Plain],
    value: &mut Record,
    out: &mut Record,
) -> Result<bool, Down>
    requires form { HasRoot head.old }
    requires keys { HasKeys head.old }
    requires placed { IsPlaced head.old store.old.disk }
    requires frames { 1 ≤ free_frames store.old.pool }
    requires idle { IsIdle store.old }
    requires fields { HasLongKeys head.old }
    ensures form { IfOk result (λ same. same ≡ true → HasRoot head.new) }
    ensures keys { IfOk result (λ same. same ≡ true → HasKeys head.new) }
    ensures placed { IfOk result (λ same. same ≡ true → IsPlaced head.new store.new.disk) }
    ensures frames { IfOk result (λ same. same ≡ true → 1 ≤ free_frames store.new.pool) }
    ensures idle { IfOk result (λ same. same ≡ true → IsIdle store.new) }
    ensures fields { IfOk result (λ same. same ≡ true → HasLongKeys head.new) }
{
    for plain in list {
        if !set_and_get(head, store, *plain, false, value, out)? {
            return Ok(false);
        }
    }
    Ok(true)
}

// How many slots bucket n has by its header, and which bucket it leads to.
pub(crate) fn header<D: Disk>(
    head: &FileHead,
    store: &mut Store<D>,
    n: u32,
) -> Result<(u16, u32), Down>
    requires placed { IsPlaced head.now store.old.disk }
    requires there { n < head.now.alloc }
    ensures same { OnOk result (SameButReads store.old store.new) }
{
    let mut block = [0; 512];
    store.read(head.start + n * head.bucket as u32, &mut block)?;
    let count = u16::from_le_bytes([block[2], block[3]]);
    let next = u32::from_le_bytes([block[8], block[9], block[10], block[11]]);
    Ok((count, next))
}

// How many slots the first leaves have.
fn counts<D: Disk>(head: &FileHead, store: &mut Store<D>) -> Result<[u16; 3], Down>
    requires form { HasRoot head.now }
    requires placed { IsPlaced head.now store.old.disk }
    ensures same { OnOk result (SameButReads store.old store.new) }
{
    let mut counts = [0; 3];
    let mut n = 0;
    for i in 0..3 {
        let (count, next) = header(head, store, n)?;
        counts[i] = count;
        if next >= head.used {
            return Ok(counts);
        }
        n = next;
    }
    Ok(counts)
}

// How many slots the first leaves have, where the file lists the records of the plain list; else None.
fn counts_alike<D: Disk>(
    head: &FileHead,
    store: &mut Store<D>,
    list: &[Plain],
    value: &mut Record,
    out: &mut Record,
) -> Result<Option<[u16; 3]>, Down>
    requires form { HasRoot head.now }
    requires keys { HasKeys head.now }
    requires placed { IsPlaced head.now store.old.disk }
    requires frames { 1 ≤ free_frames store.old.pool }
{
    let counts = counts(head, store)?;
    match lists(head, store, list, value, out)? {
        Found::Alike { .. } => Ok(Some(counts)),
        _ => Ok(None),
    }
}

// Makes the first leaf one that is not laid out as a bucket.
fn spoil<D: Disk>(head: &FileHead, store: &mut Store<D>) -> Result<(), Down>
    requires form { HasRoot head.now }
    requires placed { IsPlaced head.now store.old.disk }
    requires frames { 1 ≤ free_frames store.old.pool }
    requires idle { IsIdle store.old }
    ensures placed { OnOk result (IsPlaced head.now store.new.disk) }
    ensures frames { OnOk result (1 ≤ free_frames store.new.pool) }
    ensures idle { OnOk result (IsIdle store.new) }
{
    let mut block = [0; 512];
    store.read(head.start, &mut block)?;
    block[0] = 9;
    let _ = store.stage(head.start, &block);
    store.apply()
}

// Where a key is given, spoils the first leaf and sets that key, and tells whether it is read again.
fn set_spoiled<D: Disk>(
    head: &mut FileHead,
    store: &mut Store<D>,
    again: Option<Plain>,
    value: &mut Record,
    out: &mut Record,
) -> Result<bool, Down>
    requires form { HasRoot head.old }
    requires keys { HasKeys head.old }
    requires placed { IsPlaced head.old store.old.disk }
    requires frames { 1 ≤ free_frames store.old.pool }
    requires idle { IsIdle store.old }
    requires fields { HasLongKeys head.old }
    ensures form { IfOk result (λ same. same ≡ true → HasRoot head.new) }
    ensures keys { IfOk result (λ same. same ≡ true → HasKeys head.new) }
    ensures placed { IfOk result (λ same. same ≡ true → IsPlaced head.new store.new.disk) }
    ensures frames { IfOk result (λ same. same ≡ true → 1 ≤ free_frames store.new.pool) }
    ensures idle { IfOk result (λ same. same ≡ true → IsIdle store.new) }
    ensures fields { IfOk result (λ same. same ≡ true → HasLongKeys head.new) }
{
    match again {
        Some(again) => {
            spoil(head, store)?;
            set_and_get(head, store, again, false, value, out)
        }
        None => Ok(true),
    }
}

// Sets the keys of a list in a new file. Where a key is given it then spoils the first leaf, and sets that key. Tells how many slots the leaves have.
// None where a key is not read again, or the file does not list the records that are left.
fn counts_of<D: Disk>(
    head: &mut FileHead,
    store: &mut Store<D>,
    list: &[Plain],
    again: Option<Plain>,
    left: &[Plain],
    value: &mut Record,
    out: &mut Record,
) -> Result<Option<[u16; 3]>, Down>
    requires form { IsTreeHead head.old }
    requires root { HasRoot head.old }
    requires keys { HasKeys head.old }
    requires fresh { IsNewHead head.old }
    requires placed { IsPlaced head.old store.old.disk }
    requires frames { 32 ≤ free_frames store.old.pool }
    requires idle { IsIdle store.old }
    requires fields { HasLongKeys head.old }
{
    TreeFile::make(head, store)?;
    if !set_all(head, store, list, value, out)? {
        return Ok(None);
    }
    if !set_spoiled(head, store, again, value, out)? {
        return Ok(None);
    }
    counts_alike(head, store, left, value, out)
}

// How many slots the leaves have into which a row is parted; where its first leaf is to be spoiled, those that it has once its first slot is set again.
fn parted(alloc: Global, row: &Row, spoils: bool) -> Result<Option<[u16; 3]>, AllocError> {
    let Some(name) = FileName::new(b"F") else {
        return Ok(None);
    };
    let mut left = list_of_row(alloc, row)?;
    let order = with_last(alloc, &left, row.last)?;
    let mut again = None;
    if spoils && left.len() >= 2 {
        again = Some(left[0]);
        let _ = left.remove(1);
    }
    let mut value = Record::reserve(alloc)?;
    let mut out = Record::reserve(alloc)?;
    if row.bucket == 0
        || row.bucket > 16
        || row.mrs < 65
        || row.mrs > 8160
        || row.mrs as u32 + 32 > 512 * row.bucket as u32
    {
        return Ok(None);
    }
    let mut head = head_of(name, 100, row.bucket, row.mrs);
    match opened(alloc)? {
        Some(mut store) => match counts_of(
            &mut head, &mut store, &order, again, &left, &mut value, &mut out,
        ) {
            Ok(counts) => Ok(counts),
            Err(_) => Ok(None),
        },
        None => Ok(None),
    }
}

#[test]
fn a_set_in_a_spoiled_leaf_is_read_again(rt: HostRuntime) -> Result<(), Fail> {
    let row = short_row([124; 5], 4, [1, 3, 0]);
    assert_eq!(rt; parted(rt.alloc(), &row, true)?, Some(row.counts));
    Ok(())
}

#[test]
fn leaves_are_parted_by_the_rule(rt: HostRuntime) -> Result<(), Fail> {
    let four = [124; 5];
    let long = [104, 8164, 104, 0, 0];
    let rows = [
        short_row(four, 0, [2, 3, 0]),
        short_row(four, 1, [2, 3, 0]),
        short_row(four, 2, [2, 3, 0]),
        short_row(four, 3, [2, 3, 0]),
        short_row(four, 4, [2, 3, 0]),
        short_row([99, 99, 150, 99, 99], 2, [2, 3, 0]),
        short_row([124, 124, 124, 124, 0], 3, [4, 0, 0]),
        short_row([124, 124, 124, 125, 0], 3, [2, 2, 0]),
        short_row([125, 124, 124, 124, 0], 0, [2, 2, 0]),
        long_row([8164, 104, 104, 0, 0], 0, [1, 2, 0]),
        long_row(long, 1, [1, 1, 1]),
        long_row([104, 104, 8164, 0, 0], 2, [2, 1, 0]),
    ];
    for row in rows.iter() {
        assert_eq!(rt; parted(rt.alloc(), row, false)?, Some(row.counts));
    }
    Ok(())
}
