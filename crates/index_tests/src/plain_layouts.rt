//! Files under an index beside the plain program: after each change a file has as many buckets and levels as the plain program gives it.
ghost use Rattle.std.specs.Prelude.{◌≤◌, OnOk};
ghost use Rattle.careful_write.specs.Reads.{SameButReads};
ghost use Rattle.careful_write.specs.State.{IsIdle};
ghost use Rattle.change_set.specs.Files.{IsPlaced, free_frames};
ghost use Rattle.indexed_tree.specs.index_blocks.Levels.{HasRoot};
ghost use Rattle.indexed_tree.specs.indexed_file.Chain.{HasKeys};
ghost use Rattle.indexed_tree.specs.Files.{IsTreeHead, IsNewHead};
ghost use Rattle.indexed_tree.specs.Samples.{HasLongKeys};

use crate::indexed_tree_tests::{
    Draws, Found, Plain, fill_record, head_of, header, key_bytes, lists, opened, set_and_back,
};
use block_disk::Disk;
use careful_write::{Down, Store};
use file_base::FileHead;
use indexed_tree::TreeFile;
use reference_index::{Change, Key, Layout, Leaf, Lock};
use reference_world::{
    BranchKey, File, FileChange, Organization, Settlement, WrittenMoment, nothing_carried,
    settled_files, with_file,
};
use std::alloc::{AllocError, Global};
use std::mem::replace;
use std::test::Fail;
use vms_base::{FileName, Id, Reason, Record};

/// A key that is set, and whether it is then set back to what it had.
#[derive(Clone, Copy, Debug, Drop)]
struct Step {
    plain: Plain,
    is_undone: bool,
}

// A record of so many bytes for a key.
fn put(key: u16, size: usize) -> Step {
    Step {
        plain: Plain { key, size, fill: 7 },
        is_undone: false,
    }
}

// What a key has behind a step, where it had that before.
fn left_by(step: Step, old: Plain) -> Plain {
    if step.is_undone { old } else { step.plain }
}

// To what a step sets its key back.
fn back_of(step: Step, old: Plain) -> Option<Plain> {
    if step.is_undone { Some(old) } else { None }
}

// The new file as the plain program keeps it.
fn plain_files(alloc: Global, name: FileName) -> Result<Vec<Option<File>>, AllocError> {
    let mut leaves = Vec::new(alloc);
    leaves.push(Leaf {
        lowest: [0; 64].to_vec(alloc)?,
        slots: Vec::new(alloc),
    })?;
    let mut files = Vec::new(alloc);
    files.push(Some(File {
        name,
        bucket: 1,
        record_size: 480,
        organization: Organization::Indexed {
            position: 1,
            size: 64,
        },
        start: 600,
        buckets: 2_000,
        recovery_units: true,
        carried: nothing_carried(alloc),
        base: Vec::new(alloc),
        moment: 0,
        settled: Vec::new(alloc),
        live: Vec::new(alloc),
        layout: Layout {
            leaves,
            index: Vec::new(alloc),
        },
    }))?;
    Ok(files)
}

// Locks on the keys from one on up to 255, whose first byte is even.
fn plain_locks(alloc: Global, name: FileName, from: u16) -> Result<Vec<Lock>, AllocError> {
    let mut locks = Vec::new(alloc);
    for key in from..256 {
        locks.push(Lock {
            file: name,
            key: Key::Text(key_bytes(key).to_vec(alloc)?),
            by: Id::default(),
        })?;
    }
    Ok(locks)
}

// The bytes of a record, or none.
fn bytes_of(
    alloc: Global,
    plain: Plain,
    value: &mut Record,
) -> Result<Option<Vec<u8>>, AllocError> {
    if plain.size == 0 {
        return Ok(None);
    }
    fill_record(value, plain);
    Ok(Some(value.bytes().to_vec(alloc)?))
}

// Takes a step in the plain file: a branch sets the key, and is settled.
fn step_plainly(
    alloc: Global,
    files: &mut Vec<Option<File>>,
    locks: &[Lock],
    name: &FileName,
    step: Step,
    old: Plain,
    value: &mut Record,
) -> Result<(), AllocError> {
    let mut changes = Vec::new(alloc);
    changes.push(Change {
        key: Key::Text(key_bytes(step.plain.key).to_vec(alloc)?),
        before: bytes_of(alloc, old, value)?,
        after: bytes_of(alloc, step.plain, value)?,
    })?;
    let before = replace(files, Vec::new(alloc));
    let branch = BranchKey {
        tid: Id::default(),
        serial: Id::default(),
    };
    let set = FileChange::Set(branch, changes);
    let changed = with_file(alloc, before, locks, name, set)?;
    let settlement = Settlement {
        tid: branch.tid,
        serial: branch.serial,
        reason: if step.is_undone {
            Some(Reason::Aborted)
        } else {
            None
        },
        moment: WrittenMoment { hundredths: 0 },
    };
    *files = settled_files(alloc, changed, settlement)?;
    if let Some(Some(file)) = files.get_mut(0) {
        file.settled = Vec::new(alloc);
    }
    Ok(())
}

// The layout of the plain file.
fn layout_of(files: &[Option<File>]) -> Option<&Layout> {
    match files {
        [Some(file), ..] => Some(&file.layout),
        _ => None,
    }
}

// Whether a file has as many buckets and levels as a layout.
fn has_shape(head: &FileHead, layout: Option<&Layout>) -> bool {
    let Some(layout) = layout else {
        return false;
    };
    let mut used = layout.leaves.len();
    for level in layout.index.iter() {
        used = used.saturating_add(level.children.len());
    }
    head.used as usize == used && head.levels as usize == layout.index.len().saturating_add(1)
}

// Whether the leaves of a file are as many as those of a layout, and have as many slots.
fn has_leaves<D: Disk>(head: &FileHead, store: &mut Store<D>, leaves: &[Leaf]) -> Result<bool, Down>
    requires form { HasRoot head.now }
    requires placed { IsPlaced head.now store.old.disk }
    ensures same { OnOk result (SameButReads store.old store.new) }
{
    let mut n = 0;
    for leaf in leaves {
        if n >= head.used {
            return Ok(false);
        }
        let (count, next) = header(head, store, n)?;
        if count as usize != leaf.slots.len() {
            return Ok(false);
        }
        n = next;
    }
    Ok(n == u32::MAX)
}

// What is found of a file behind the last step.
fn found_in<D: Disk>(
    head: &FileHead,
    store: &mut Store<D>,
    layout: Option<&Layout>,
    list: &[Plain],
    value: &mut Record,
    out: &mut Record,
) -> Result<Found, Down>
    requires form { HasRoot head.now }
    requires keys { HasKeys head.now }
    requires placed { IsPlaced head.now store.old.disk }
    requires frames { 1 ≤ free_frames store.old.pool }
{
    match layout {
        Some(layout) => {
            if !has_leaves(head, store, &layout.leaves)? {
                return Ok(Found::OtherLeaves);
            }
            lists(head, store, list, value, out)
        }
        None => Ok(Found::OtherLeaves),
    }
}

// Takes steps in a new file and in the plain one, up to one at which they differ.
fn take_steps<D: Disk>(
    alloc: Global,
    head: &mut FileHead,
    store: &mut Store<D>,
    from: u16,
    to: u16,
    steps: &[Step],
) -> Result<Found, Fail>
    requires form { IsTreeHead head.old }
    requires root { HasRoot head.old }
    requires keys { HasKeys head.old }
    requires fresh { IsNewHead head.old }
    requires placed { IsPlaced head.old store.old.disk }
    requires frames { 32 ≤ free_frames store.old.pool }
    requires idle { IsIdle store.old }
    requires fields { HasLongKeys head.old }
{
    let name = head.name;
    let mut files = plain_files(alloc, name)?;
    let locks = plain_locks(alloc, name, from)?;
    let mut list = Vec::new(alloc);
    for key in from..to {
        list.push(put(key, 0).plain)?;
    }
    let mut value = Record::reserve(alloc)?;
    let mut out = Record::reserve(alloc)?;
    TreeFile::make(head, store)?;
    for step in steps {
        let at = (step.plain.key as usize).wrapping_sub(from as usize);
        if at >= list.len() {
            return Ok(Found::OtherRecord {
                key: step.plain.key,
            });
        }
        let old = list[at];
        list[at] = left_by(*step, old);
        let back = back_of(*step, old);
        if !set_and_back(head, store, step.plain, back, &mut value, &mut out)? {
            return Ok(Found::OtherRecord {
                key: step.plain.key,
            });
        }
        step_plainly(alloc, &mut files, &locks, &name, *step, old, &mut value)?;
        if !has_shape(head, layout_of(&files)) {
            return Ok(Found::OtherShape {
                key: step.plain.key,
            });
        }
    }
    Ok(found_in(head, store, layout_of(&files), &list, &mut value, &mut out)?)
}

// What is found behind these steps, whose keys are from one on and below another; those from 256 on are not held. It is an error where a file cannot be
// made, or memory is missing.
fn found_behind(alloc: Global, from: u16, to: u16, steps: &[Step]) -> Result<Found, Fail> {
    let name = FileName::new(b"F").ok_or("a name")?;
    let mut head = head_of(name, 2_000, 1, 480);
    match opened(alloc)? {
        Some(mut store) => take_steps(alloc, &mut head, &mut store, from, to, steps),
        None => Err(Fail::from("no store")),
    }
}

// A step with one of a hundred keys: one record in eight is long, one in five is taken away, and a step in four is undone.
fn draw_step(draws: &mut Draws, from: u16) -> Step {
    let key = from.saturating_add(draws.below(100) as u16);
    let more = if draws.below(8) == 0 { 416 } else { 60 };
    let size = 65 + draws.below(more) as usize;
    Step {
        plain: Plain {
            key,
            size: if draws.below(5) == 0 { 0 } else { size },
            fill: draws.below(256) as u8,
        },
        is_undone: draws.below(4) == 0,
    }
}

// What is found behind 5,000 steps that follow from a number, with a hundred keys from one on.
fn found_at_random(alloc: Global, state: u32, from: u16) -> Result<Found, Fail> {
    let mut draws = Draws { state };
    let mut steps = Vec::new(alloc);
    for _ in 0..5_000 {
        steps.push(draw_step(&mut draws, from))?;
    }
    found_behind(alloc, from, from.saturating_add(100), &steps)
}

#[test]
fn a_file_with_half_of_its_keys_held_is_the_plain_one(rt: HostRuntime) -> Result<(), Fail> {
    assert_eq!(rt;
        found_at_random(rt.alloc(), 7, 206)?,
        Found::Alike { levels: 4 }
    );
    Ok(())
}

#[test]
fn a_file_with_all_keys_held_is_the_plain_one(rt: HostRuntime) -> Result<(), Fail> {
    assert_eq!(rt;
        found_at_random(rt.alloc(), 8, 156)?,
        Found::Alike { levels: 4 }
    );
    Ok(())
}

#[test]
fn a_file_with_no_key_held_is_the_plain_one(rt: HostRuntime) -> Result<(), Fail> {
    assert_eq!(rt;
        found_at_random(rt.alloc(), 9, 256)?,
        Found::Alike { levels: 4 }
    );
    Ok(())
}

#[test]
fn a_file_with_some_keys_held_is_the_plain_one(rt: HostRuntime) -> Result<(), Fail> {
    assert_eq!(rt;
        found_at_random(rt.alloc(), 10, 226)?,
        Found::Alike { levels: 4 }
    );
    Ok(())
}

/// An order in which keys are set.
#[derive(Clone, Copy, Debug, Drop)]
enum Order {
    Up,
    Down,
    /// From the middle one on, by turns below and above.
    Out,
}

// Key i of so many in an order.
fn key_in(order: Order, i: u16, count: u16) -> u16 {
    match order {
        Order::Up => i,
        Order::Down => count.saturating_sub(i).saturating_sub(1),
        Order::Out if i % 2 == 0 => (count / 2).saturating_add(i / 2),
        Order::Out => (count / 2).saturating_sub(i / 2).saturating_sub(1),
    }
}

// How many records that fill their buckets make a file of so many levels.
const HEIGHTS: [(u16, u32); 8] = [
    (1, 1),
    (2, 2),
    (7, 2),
    (8, 3),
    (31, 3),
    (32, 4),
    (127, 4),
    (128, 5),
];

#[test]
fn records_that_fill_their_buckets_make_levels(rt: HostRuntime) -> Result<(), Fail> {
    for order in [Order::Up, Order::Down, Order::Out] {
        for (count, levels) in HEIGHTS {
            let mut steps = Vec::new(rt.alloc());
            for i in 0..count {
                steps.push(put(key_in(order, i, count).saturating_add(256), 480))?;
            }
            assert_eq!(rt;
                found_behind(rt.alloc(), 256, 512, &steps)?,
                Found::Alike { levels },
                "{count} {order:?}"
            );
        }
    }
    Ok(())
}

// A file of three levels with 49 leaves of one record. Its seven lower index buckets are full, and so is the root.
fn full_steps(alloc: Global) -> Result<Vec<Step>, AllocError> {
    let mut steps = Vec::new(alloc);
    for i in 0..31u16 {
        steps.push(put(256 + 8 * i, 480))?;
    }
    for i in 0..24u16 {
        if i % 4 < 3 {
            steps.push(put(260 + 8 * i, 480))?;
        }
    }
    Ok(steps)
}

#[test]
fn three_levels_are_parted_at_each_place(rt: HostRuntime) -> Result<(), Fail> {
    let full = full_steps(rt.alloc())?;
    for (i, at) in full.iter().enumerate() {
        let key = at.plain.key;
        let mut steps = full.to_vec(rt.alloc())?;
        // At every third place the leaf becomes three, and else two.
        if i % 3 == 0 {
            steps.push(put(key, 100))?;
            steps.push(put(key.saturating_add(2), 100))?;
        }
        steps.push(put(key.saturating_add(1), 480))?;
        let found = found_behind(rt.alloc(), 256, 512, &steps)?;
        assert_eq!(rt; found, Found::Alike { levels: 4 }, "{key}");
    }
    Ok(())
}
