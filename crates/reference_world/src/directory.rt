// The files of the node, at their places.
ghost use Rattle.std.specs.List.{list_any};
ghost use Rattle.std.specs.FinMap.{entries};
ghost use Rattle.std.specs.Prelude.{◌∷◌, ◌≡◌, ◌+◌, ◌-◌, ◌*◌, ◌/◌, ◌^◌, ◌<◌, ◌≤◌, ℕ, suc, max, nat_le, if◌then◌else◌, List, map, option_map, replicate, length, IfSome, IfOk, Some, None};
ghost use Rattle.reference_index.specs.run_model.World as world;
ghost use Rattle.reference_index.specs.run_model.World.{extents_of};
ghost use Rattle.reference_index.specs.run_model.Extents as extents;
ghost use Rattle.reference_index.specs.run_model.Locks.{is_locked};
ghost use Rattle.reference_index.specs.run_model.Answers as answers;
ghost use Rattle.reference_index.specs.records_model.Records.{Records};
ghost use Rattle.reference_index.specs.records_model.History.{current};
ghost use Rattle.reference_index.specs.Standing.{changes_of, locks_of, slots_of, layout_of};
ghost use Rattle.reference_world.specs.Standing.{branch_key_of, kept_of, rows_of, images_of, save_of, history_of, file_of, directory_of, organization_of, settlement_of};
ghost use Rattle.reference_world.specs.Directories.{file_change_of, mark_of, IsFileChange, IsRuns};

use crate::dump::{keep_rows, records_of};
use crate::history::{settled_file, with_changes};
use crate::images::{begun_images, carried_recovered, ended_images, nothing_carried, with_images};
use crate::moment::WrittenMoment;
use crate::world::{BranchKey, File, ImageJournal, KeptRow, Organization, Save, Settlement, Side};
use reference_index::{
    Change, Key, Layout, Lock, Sizes, Slot, layout_changed, layout_loaded, no_layout, push_front,
    take_first,
};
use std::alloc::{AllocError, Global};
use std::cmp::max;
use std::mem::replace;
use vms_base::FileName;

/// So many places without files.
pub fn empty_places(alloc: Global, n: usize) -> Result<Vec<Option<File>>, AllocError>
    ensures { IfOk result (λ v. directory_of v.items ≡ replicate n None) }
{
    if n == 0 {
        return Ok(Vec::new(alloc));
    }
    let mut all = empty_places(alloc, n - 1)?;
    push_front(&mut all, None)?;
    Ok(all)
}

/// The file of this name.
pub fn find_file<'a>(files: &'a [Option<File>], name: &FileName) -> Option<&'a File>
    ensures { option_map (λ f. file_of f.now) result ≡ world.find_file name.now (directory_of files.now) }
{
    match files {
        [] => None,
        [slot, rest @ ..] => match slot {
            None => find_file(rest, name),
            Some(f) => {
                if name.bytes() == f.name.bytes() {
                    Some(f)
                } else {
                    find_file(rest, name)
                }
            }
        },
    }
}

/// The lowest place without a file.
pub fn free_place(files: &[Option<File>]) -> Option<usize>
    ensures place { result ≡ world.free_place (directory_of files.now) }
    ensures within { IfSome result (λ n. n < length files.now) }
{
    match files {
        [] => None,
        [slot, rest @ ..] => match slot {
            None => Some(0),
            Some(_) => match free_place(rest) {
                Some(n) => Some(n + 1),
                None => None,
            },
        },
    }
}

/// Whether a file has this block.
pub fn is_taken(files: &[Option<File>], block: u64) -> bool
    ensures { result ≡ extents.is_taken (extents_of (directory_of files.now)) block }
{
    match files {
        [] => false,
        [slot, rest @ ..] => match slot {
            None => is_taken(rest, block),
            Some(f) => has_block(f, block) || is_taken(rest, block),
        },
    }
}

// Whether this block is one of so many buckets from a block on.
fn in_buckets(block: u64, start: u64, buckets: u64, bucket: u32) -> bool
    ensures { result ≡ extents.in_extent block (record { start = start; blocks = buckets * bucket }) }
{
    if block < start {
        return false;
    }
    match buckets.checked_mul(u64::from(bucket)) {
        Some(blocks) => block - start < blocks,
        None => true,
    }
}

// Whether this block is one of a journal.
fn in_journal(block: u64, journal: &ImageJournal) -> bool
    ensures { result ≡ extents.in_extent block (world.journal_extent (images_of journal.now)) }
{
    journal.start <= block && block - journal.start < journal.blocks
}

// Whether this block is one of a save, whose buckets have so many blocks.
fn in_save(block: u64, bucket: u32, save: &Option<Save>) -> bool
    ensures { result ≡ extents.in_extent block (world.save_extent bucket (option_map save_of save.now)) }
{
    match save {
        Some(v) => in_buckets(block, v.start, v.buckets, bucket),
        None => false,
    }
}

// Whether a file has this block: its buckets, a journal of images or its save.
fn has_block(f: &File, block: u64) -> bool
    ensures { result ≡ list_any (extents.in_extent block) (world.extent_of (file_of f.now) ∷ world.others_of (file_of f.now)) }
{
    in_buckets(block, f.start, f.buckets, f.bucket)
        || in_journal(block, &f.carried.after)
        || in_journal(block, &f.carried.before)
        || in_save(block, f.bucket, &f.carried.save)
}

/// The greatest position of the journals of images of files.
pub fn images_end(files: &[Option<File>]) -> u64
    ensures { result ≡ answers.images_end (directory_of files.now) }
{
    match files {
        [] => 0,
        [slot, rest @ ..] => match slot {
            None => images_end(rest),
            Some(f) => max(
                max(f.carried.after.end, f.carried.before.end),
                images_end(rest),
            ),
        },
    }
}

// A place of the directory then.
fn settled_place(
    alloc: Global,
    place: Option<File>,
    s: Settlement,
) -> Result<Option<File>, AllocError>
    ensures { IfOk result (λ p. option_map file_of p ≡ option_map (world.settled_file (settlement_of s)) (option_map file_of place)) }
{
    match place {
        None => Ok(None),
        Some(f) => match settled_file(alloc, f, s) {
            Ok(f) => Ok(Some(f)),
            Err(e) => Err(e),
        },
    }
}

/// The files after a branch was settled.
pub fn settled_files(
    alloc: Global,
    files: Vec<Option<File>>,
    s: Settlement,
) -> Result<Vec<Option<File>>, AllocError>
    ensures { IfOk result (λ v. directory_of v.items ≡ map (option_map (world.settled_file (settlement_of s))) (directory_of files.items)) }
{
    let mut rest = files;
    match take_first(&mut rest) {
        None => Ok(Vec::new(alloc)),
        Some(slot) => {
            let mut all = settled_files(alloc, rest, s)?;
            push_front(&mut all, settled_place(alloc, slot, s)?)?;
            Ok(all)
        }
    }
}

/// What a file is marked with, or is no more: for recovery units; or a journal of images begins in these blocks, or ends.
#[derive(Clone, Copy, Drop)]
pub enum Mark {
    Units(bool),
    Begins(Side, u64, u64),
    Ends(Side),
}

/// What is changed of one file. The last moment of a mark, a save and a recovery is the greatest on the disk.
#[derive(Drop)]
pub enum FileChange {
    /// It is marked.
    Mark(Mark, u64),
    /// It is saved from this block on.
    Save(u64, u64),
    /// It gets these records in so many buckets from this block on.
    Recover(u64, u64, Vec<KeptRow>, u64),
    /// A branch makes changes, which stand newest first.
    Set(BranchKey, Vec<Change>),
    /// A branch makes changes, and is committed at once at this moment.
    Direct(BranchKey, WrittenMoment, Vec<Change>),
}

/// How many bytes a bucket of so many blocks has for records.
pub fn capacity(bucket: u32) -> u64
    ensures { result ≡ 512 * bucket - 16 }
{
    (512 * u64::from(bucket)).saturating_sub(16)
}

// The bytes of a bucket for slots, and how many entries an index bucket holds, each of which is a key and a number of four bytes.
fn bucket_sizes(bucket: u32, organization: Organization) -> Sizes
    ensures capacity { result.capacity ≡ 512 * bucket - 16 }
    ensures fan_out { result.fan_out ≡ (512 * bucket - 16) / (world.key_size_of (organization_of organization) + 4) }
{
    let key_size = match organization {
        Organization::Indexed { size, .. } => u64::from(size),
        _ => 0,
    };
    let bytes = capacity(bucket);
    Sizes {
        capacity: bytes,
        fan_out: bytes / (key_size + 4),
    }
}

// A file after changes of an unsettled branch, where these locks are held on files of this name.
fn set_file(
    alloc: Global,
    file: File,
    locks: &[Lock],
    name: &FileName,
    branch: &BranchKey,
    changes: Vec<Change>,
) -> Result<File, AllocError>
    ensures { IfOk result (λ f. file_of f ≡ world.changed_file (is_locked (locks_of locks.now) name.now) (branch_key_of branch.now).tid (branch_key_of branch.now).serial (changes_of changes.items) (file_of file)) }
{
    let mut f = file;
    let sizes = bucket_sizes(f.bucket, f.organization);
    let layout = replace(&mut f.layout, no_layout(alloc));
    f.layout = layout_changed(alloc, sizes, locks, name, changes.as_slice(), layout)?;
    let carried = replace(&mut f.carried, nothing_carried(alloc));
    f.carried = with_images(alloc, carried, branch, changes.as_slice())?;
    let live = replace(&mut f.live, Vec::new(alloc));
    f.live = with_changes(alloc, live, &branch.serial, changes)?;
    Ok(f)
}

// A file after changes of a branch that is committed at once.
fn set_directly(
    alloc: Global,
    file: File,
    locks: &[Lock],
    name: &FileName,
    s: Settlement,
    changes: Vec<Change>,
) -> Result<File, AllocError>
    requires { s.reason ≡ None }
    ensures { IfOk result (λ f. file_of f ≡ world.directly_changed (is_locked (locks_of locks.now) name.now) (settlement_of s) (changes_of changes.items) (file_of file)) }
{
    let branch = BranchKey {
        tid: s.tid,
        serial: s.serial,
    };
    let changed = set_file(alloc, file, locks, name, &branch, changes)?;
    settled_file(alloc, changed, s)
}

// A file that is marked, where this is the greatest moment on the disk.
fn marked_file(alloc: Global, file: File, mark: Mark, greatest: u64) -> Result<File, AllocError>
    ensures { IfOk result (λ f. file_of f ≡ world.marked_file (mark_of mark) greatest (file_of file)) }
{
    let mut f = file;
    match mark {
        Mark::Units(units) => f.recovery_units = units,
        Mark::Begins(side, start, blocks) => {
            let carried = replace(&mut f.carried, nothing_carried(alloc));
            f.carried = begun_images(alloc, carried, side, start, blocks, greatest)?;
        }
        Mark::Ends(side) => {
            let carried = replace(&mut f.carried, nothing_carried(alloc));
            f.carried = ended_images(alloc, carried, side);
        }
    }
    Ok(f)
}

// A file that is saved from this block on.
fn saved_file(alloc: Global, file: File, start: u64, greatest: u64) -> Result<File, AllocError>
    ensures { IfOk result (λ f. file_of f ≡ world.saved_file start greatest (file_of file)) }
{
    let records = kept_records(alloc, &file)?;
    let mut f = file;
    f.carried.save = Some(Save {
        start,
        buckets: f.buckets,
        position: f.carried.after.end,
        moment: greatest,
        records,
    });
    Ok(f)
}

// The records of a file as they stand, with bytes of their own.
fn kept_records(alloc: Global, file: &File) -> Result<Vec<KeptRow>, AllocError>
    ensures { IfOk result (λ v. rows_of v.items ≡ current (history_of file.now)) }
{
    let rows = records_of(alloc, file)?;
    keep_rows(alloc, rows.as_slice())
}

// The slots of records whose keys are bytes.
fn slots_loaded(alloc: Global, rows: &[KeptRow]) -> Result<Vec<Slot>, AllocError>
    ensures { IfOk result (λ v. slots_of v.items ≡ world.slots_loaded (map kept_of rows.now)) }
{
    match rows {
        [] => Ok(Vec::new(alloc)),
        [r, rest @ ..] => {
            let mut behind = slots_loaded(alloc, rest)?;
            match &r.key {
                Key::Text(bytes) => {
                    let slot = Slot {
                        key: bytes.as_slice().to_vec(alloc)?,
                        room: r.bytes.len(),
                        value: Some(r.bytes.as_slice().to_vec(alloc)?),
                    };
                    push_front(&mut behind, slot)?;
                    Ok(behind)
                }
                _ => Ok(behind),
            }
        }
    }
}

/// The layout of a file of this kind that is loaded with these records, in the order of their keys.
pub fn layout_of_records(
    alloc: Global,
    bucket: u32,
    organization: Organization,
    rows: &[KeptRow],
) -> Result<Layout, AllocError>
    ensures { (f : world.File) (m : Records) → f.bucket ≡ bucket → f.organization ≡ organization_of organization → map kept_of rows.now ≡ entries m →
        IfOk result (λ l. layout_of l ≡ world.layout_loaded f.organization (world.sizes_of f) m) }
{
    match organization {
        Organization::Indexed { size, .. } => {
            let slots = slots_loaded(alloc, rows)?;
            let sizes = bucket_sizes(bucket, organization);
            layout_loaded(alloc, sizes, size, slots.as_slice())
        }
        _ => Ok(no_layout(alloc)),
    }
}

// A file that gets these records in so many buckets from this block on, where this is the greatest moment on the disk.
fn recovered_file(
    alloc: Global,
    file: File,
    start: u64,
    buckets: u64,
    rows: Vec<KeptRow>,
    greatest: u64,
) -> Result<File, AllocError>
    requires { map kept_of rows.items ≡ entries (rows_of rows.items) }
    ensures { IfOk result (λ f. file_of f ≡ world.recovered_file start buckets (rows_of rows.items) greatest (file_of file)) }
{
    let mut f = file;
    f.start = start;
    f.buckets = buckets;
    f.layout = layout_of_records(alloc, f.bucket, f.organization, rows.as_slice())?;
    f.base = rows;
    f.moment = greatest;
    f.settled = Vec::new(alloc);
    let carried = replace(&mut f.carried, nothing_carried(alloc));
    f.carried = carried_recovered(alloc, carried, greatest)?;
    Ok(f)
}

// A file with its change, where these locks are held on files of this name.
fn changed_file(
    alloc: Global,
    file: File,
    locks: &[Lock],
    name: &FileName,
    change: FileChange,
) -> Result<File, AllocError>
    requires { IsFileChange change }
    ensures { IfOk result (λ f. file_of f ≡ file_change_of (is_locked (locks_of locks.now) name.now) change (file_of file)) }
{
    match change {
        FileChange::Mark(mark, greatest) => marked_file(alloc, file, mark, greatest),
        FileChange::Save(start, greatest) => saved_file(alloc, file, start, greatest),
        FileChange::Recover(start, buckets, rows, greatest) => {
            recovered_file(alloc, file, start, buckets, rows, greatest)
        }
        FileChange::Set(branch, changes) => set_file(alloc, file, locks, name, &branch, changes),
        FileChange::Direct(branch, moment, changes) => {
            let s = Settlement {
                tid: branch.tid,
                serial: branch.serial,
                reason: None,
                moment,
            };
            set_directly(alloc, file, locks, name, s, changes)
        }
    }
}

/// The files with one change of the file of this name, where these locks are held.
pub fn with_file(
    alloc: Global,
    files: Vec<Option<File>>,
    locks: &[Lock],
    name: &FileName,
    change: FileChange,
) -> Result<Vec<Option<File>>, AllocError>
    requires { IsFileChange change }
    ensures { IfOk result (λ v. directory_of v.items ≡ world.with_file name.now (file_change_of (is_locked (locks_of locks.now) name.now) change) (directory_of files.items)) }
{
    let mut rest = files;
    match take_first(&mut rest) {
        None => Ok(Vec::new(alloc)),
        Some(None) => {
            let mut all = with_file(alloc, rest, locks, name, change)?;
            push_front(&mut all, None)?;
            Ok(all)
        }
        Some(Some(f)) => {
            if name.bytes() == f.name.bytes() {
                push_front(
                    &mut rest,
                    Some(changed_file(alloc, f, locks, name, change)?),
                )?;
                Ok(rest)
            } else {
                let mut all = with_file(alloc, rest, locks, name, change)?;
                push_front(&mut all, Some(f))?;
                Ok(all)
            }
        }
    }
}

/// Free blocks among some that stand one after another: how many there are from the first on, the most of them in a row, and where the lowest run that
/// is long enough begins.
#[derive(Clone, Copy, Drop)]
pub struct Runs {
    pub first: u64,
    pub longest: u64,
    pub lowest: Option<u64>,
}

// How many blocks are free from this one on, where so many are behind it.
fn first_run(files: &[Option<File>], block: u64, behind: u64) -> u64
    requires { behind < 2 ^ 63 }
    ensures first { result ≡ (if extents.is_taken (extents_of (directory_of files.now)) block then 0 else suc behind) }
    ensures short { result ≤ behind + 1 }
{
    if is_taken(files, block) {
        0
    } else {
        behind + 1
    }
}

// The lowest run, where the one that begins here has so many.
fn lowest_run(need: u64, first: u64, block: u64, behind: Option<u64>) -> Option<u64>
    ensures { result ≡ (if nat_le need first then Some block else behind) }
{
    if need <= first { Some(block) } else { behind }
}

// The runs with one block more in front.
fn longer(files: &[Option<File>], need: u64, block: u64, runs: Runs) -> Runs
    requires { runs.first < 2 ^ 63 }
    ensures first { result.first ≡ (if extents.is_taken (extents_of (directory_of files.now)) block then 0 else suc runs.first) }
    ensures longest { result.longest ≡ max result.first runs.longest }
    ensures lowest { result.lowest ≡ (if nat_le need result.first then Some block else runs.lowest) }
    ensures short { result.first ≤ runs.first + 1 }
{
    let first = first_run(files, block, runs.first);
    Runs {
        first,
        longest: max(first, runs.longest),
        lowest: lowest_run(need, first, block, runs.lowest),
    }
}

/// The runs of free blocks among so many from the first on, where a run is long enough that has so many.
pub fn free_runs(files: &[Option<File>], need: u64, start: u64, count: u64) -> Runs
    requires { start + count ≤ 2 ^ 40 }
    ensures { IsRuns (extents_of (directory_of files.now)) need start count result }
{
    let mut runs = Runs {
        first: 0,
        longest: 0,
        lowest: None,
    };
    for k in 0..count {
        runs = longer(files, need, start + (count - 1 - k), runs);
    }
    runs
}
