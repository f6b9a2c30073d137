// What branches changed of a file.
ghost use Rattle.std.specs.Prelude.{◌≡◌, true, ℕ, List, [], ◌∷◌, map, option_map, OnOk, IfOk};
ghost use Rattle.vms_base.specs.Outcomes.{outcome_of};
ghost use Rattle.reference_index.specs.records_model.History as history;
ghost use Rattle.reference_index.specs.run_model.World as world;
ghost use Rattle.vms_base.specs.Ids.{id_of};
ghost use Rattle.reference_index.specs.Standing.{change_of, changes_of, layout_of};
ghost use Rattle.reference_world.specs.Standing.{live_of, history_of, file_of, serials_of, settlement_of};
ghost use Rattle.reference_world.specs.Histories.{only_live};

use crate::images::{nothing_carried, with_outcome};
use crate::world::{BranchKey, File, LiveChanges, SettledChanges, Settlement};
use reference_index::{Change, Layout, layout_restored, no_layout, push_front, take_first};
use std::alloc::{AllocError, Global};
use std::mem::replace;
use vms_base::{Id, Outcome};

/// Whether two ids are one.
pub fn same_id(a: &Id, b: &Id) -> bool
    ensures same { result ≡ history.same_id (id_of a.now) (id_of b.now) }
    ensures one { result ≡ true → a.now ≡ b.now }
{
    a.node.bytes() == b.node.bytes() && a.boot == b.boot && a.seq == b.seq
}

// Whether an unsettled branch made changes.
fn has_changes(live: &[LiveChanges], serial: &Id) -> bool
    ensures { result ≡ history.changed_it (only_live (map live_of live.now)) (id_of serial.now) }
{
    match live {
        [] => false,
        [l, rest @ ..] => {
            if same_id(serial, &l.serial) {
                !l.changes.is_empty()
            } else {
                has_changes(rest, serial)
            }
        }
    }
}

/// The first of these branches that made changes of a file.
pub fn first_to_change(file: &File, branches: &[BranchKey]) -> Option<Id>
    ensures { option_map id_of result ≡ history.first_to_change (history_of file.now) (serials_of branches.now) }
{
    match branches {
        [] => None,
        [b, rest @ ..] => {
            if has_changes(file.live.as_slice(), &b.serial) {
                Some(b.serial)
            } else {
                first_to_change(file, rest)
            }
        }
    }
}

// One more change of a branch.
fn with_change(
    alloc: Global,
    live: Vec<LiveChanges>,
    serial: &Id,
    change: Change,
) -> Result<Vec<LiveChanges>, AllocError>
    ensures { IfOk result (λ v. map live_of v.items ≡ history.with_change (id_of serial.now) (change_of change) (map live_of live.items)) }
{
    let mut rest = live;
    match take_first(&mut rest) {
        None => {
            let mut changes = Vec::new(alloc);
            push_front(&mut changes, change)?;
            let mut all = Vec::new(alloc);
            push_front(
                &mut all,
                LiveChanges {
                    serial: *serial,
                    changes,
                },
            )?;
            Ok(all)
        }
        Some(mut first) => {
            if same_id(serial, &first.serial) {
                push_front(&mut first.changes, change)?;
                push_front(&mut rest, first)?;
                Ok(rest)
            } else {
                let mut all = with_change(alloc, rest, serial, change)?;
                push_front(&mut all, first)?;
                Ok(all)
            }
        }
    }
}

/// More changes of a branch, the newest first.
pub fn with_changes(
    alloc: Global,
    live: Vec<LiveChanges>,
    serial: &Id,
    changes: Vec<Change>,
) -> Result<Vec<LiveChanges>, AllocError>
    ensures { IfOk result (λ v. map live_of v.items ≡ history.with_changes (id_of serial.now) (changes_of changes.items) (map live_of live.items)) }
{
    let mut rest = changes;
    match take_first(&mut rest) {
        None => Ok(live),
        Some(newest) => {
            let before = with_changes(alloc, live, serial, rest)?;
            with_change(alloc, before, serial, newest)
        }
    }
}

/// The changes of a branch, and those of the others.
#[derive(Drop)]
pub struct Parted {
    pub changes: Vec<Change>,
    pub others: Vec<LiveChanges>,
}

// Takes the changes of a branch out of those of all.
fn part(alloc: Global, live: Vec<LiveChanges>, serial: &Id) -> Result<Parted, AllocError>
    ensures changes { IfOk result (λ p. changes_of p.changes.items ≡ history.changes_by (id_of serial.now) (map live_of live.items)) }
    ensures others { IfOk result (λ p. map live_of p.others.items ≡ history.without (id_of serial.now) (map live_of live.items)) }
{
    let mut rest = live;
    match take_first(&mut rest) {
        None => Ok(Parted {
            changes: Vec::new(alloc),
            others: Vec::new(alloc),
        }),
        Some(first) => {
            if same_id(serial, &first.serial) {
                Ok(Parted {
                    changes: first.changes,
                    others: rest,
                })
            } else {
                let mut parted = part(alloc, rest, serial)?;
                push_front(&mut parted.others, first)?;
                Ok(parted)
            }
        }
    }
}

// A layout after the branch that made these changes was settled.
fn settled_layout(
    alloc: Global,
    outcome: Outcome,
    changes: &[Change],
    layout: Layout,
) -> Result<Layout, AllocError>
    ensures { IfOk result (λ l. layout_of l ≡ world.settled_layout (outcome_of outcome) (changes_of changes.now) (layout_of layout)) }
{
    match outcome {
        Outcome::Commit => Ok(layout),
        Outcome::Abort => layout_restored(alloc, changes, layout),
    }
}

// A file after a branch was settled that changed something of it.
fn with_settlement(alloc: Global, file: File, s: Settlement) -> Result<File, AllocError>
    requires { history.changed_it (only_live (map live_of file.live.items)) (id_of s.serial) ≡ true }
    ensures { IfOk result (λ f. file_of f ≡ world.settled_file (settlement_of s) (file_of file)) }
{
    let mut settled_one = file;
    let outcome = s.outcome();
    let live = replace(&mut settled_one.live, Vec::new(alloc));
    let parted = part(alloc, live, &s.serial)?;
    settled_one.live = parted.others;
    let layout = replace(&mut settled_one.layout, no_layout(alloc));
    settled_one.layout = settled_layout(alloc, outcome, parted.changes.as_slice(), layout)?;
    let carried = replace(&mut settled_one.carried, nothing_carried(alloc));
    settled_one.carried = with_outcome(carried, &s)?;
    push_front(
        &mut settled_one.settled,
        SettledChanges {
            serial: s.serial,
            outcome,
            moment: s.moment.hundredths,
            changes: parted.changes,
        },
    )?;
    Ok(settled_one)
}

/// A file after a branch was settled.
pub fn settled_file(alloc: Global, file: File, s: Settlement) -> Result<File, AllocError>
    ensures { IfOk result (λ f. file_of f ≡ world.settled_file (settlement_of s) (file_of file)) }
{
    if !has_changes(file.live.as_slice(), &s.serial) {
        return Ok(file);
    }
    with_settlement(alloc, file, s)
}
