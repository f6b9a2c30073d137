// The records that a recovery makes, from the entries of a journal, which stand newest first.
ghost use Rattle.std.specs.Prelude.{◌≡◌, ◌≤◌, ◌&&◌, ℕ, List, map, option_map, take, length, IfOk};
ghost use Rattle.std.specs.FinMap.{entries};
ghost use Rattle.records_model.specs.Records.{Records};
ghost use Rattle.reference_index.specs.recovery_model.Journal as images;
ghost use Rattle.reference_index.specs.recovery_model.File as recovery;
ghost use Rattle.reference_index.specs.recovery_model.File.{all_of};
ghost use Rattle.reference_index.specs.recovery_model.Recovery as model;
ghost use Rattle.reference_index.specs.run_model.Answers as answers;
ghost use Rattle.reference_index.specs.run_model.World as world;
ghost use Rattle.script_lang.specs.Statements.{recovery_of};
ghost use Rattle.script_lang.specs.declared.statement.Recovery.TheVariants.{Forward as TheForward, Backward as TheBackward};
ghost use Rattle.vms_base.specs.Ids.{id_of};
ghost use Rattle.vms_base.specs.Outcomes.{outcome_of};
ghost use Rattle.reference_world.specs.Standing.{file_of, entry_of, placed_of, rows_of};
ghost use Rattle.reference_recovery.specs.Chosen.{passes_of, picked, set_chosen};

use reference_index::lend_value;
use reference_world::{
    File, Image, Placed, Row, Save, committed_of, lend_rows, records_of, same_id, set_row,
};
use script_lang::Recovery;
use std::alloc::{AllocError, Global};
use vms_base::{Id, Moment, Outcome};

/// Which commits count: those by a moment, or all where none is said; or those past a moment.
#[derive(Clone, Copy, Drop)]
pub enum Chosen {
    By(Option<Moment>),
    Past(Moment),
}

// Whether a commit at this moment counts.
fn passes(chosen: Chosen, moment: u64) -> bool
    ensures { result ≡ passes_of chosen moment }
{
    match chosen {
        Chosen::By(None) => true,
        Chosen::By(Some(until)) => moment <= until.0,
        Chosen::Past(until) => until.0 < moment,
    }
}

// Whether an entry says that its branch committed so that it counts.
fn settles(chosen: Chosen, outcome: Outcome, moment: u64) -> bool
    ensures { result ≡ (images.is_commit (outcome_of outcome) && passes_of chosen moment) }
{
    match outcome {
        Outcome::Commit => passes(chosen, moment),
        Outcome::Abort => false,
    }
}

// Whether a branch committed so that it counts.
fn is_chosen(chosen: Chosen, all: &[Placed], serial: &Id) -> bool
    ensures { result ≡ picked chosen all.now (id_of serial.now) }
{
    match all {
        [] => false,
        [e, rest @ ..] => match &e.image {
            Image::Changed(_, _) => is_chosen(chosen, rest, serial),
            Image::Settled(outcome, moment) => {
                if same_id(serial, &e.branch.serial)
                    && settles(chosen, *outcome, moment.hundredths)
                {
                    true
                } else {
                    is_chosen(chosen, rest, serial)
                }
            }
        },
    }
}

// The same rows.
fn same_rows<'a>(alloc: Global, rows: &[Row<'a>]) -> Result<Vec<Row<'a>>, AllocError>
    ensures { (m : Records) → map entry_of rows.now ≡ entries m → IfOk result (λ v. map entry_of v.items ≡ entries m) }
{
    rows.to_vec(alloc)
}

// The rows with the image of an entry set, where it is a change of a chosen branch. All entries tell which branches are chosen.
fn with_image<'a>(
    alloc: Global,
    rows: &[Row<'a>],
    chosen: Chosen,
    all: &[Placed],
    e: &'a Placed,
) -> Result<Vec<Row<'a>>, AllocError>
    ensures { (m : Records) → map entry_of rows.now ≡ entries m → IfOk result (λ v. map entry_of v.items ≡ entries (set_chosen (picked chosen all.now) (placed_of e.now).entry m)) }
{
    match &e.image {
        Image::Changed(key, value) => {
            if is_chosen(chosen, all, &e.branch.serial) {
                set_row(alloc, rows, key.lend(), lend_value(value))
            } else {
                same_rows(alloc, rows)
            }
        }
        Image::Settled(_, _) => rows.to_vec(alloc),
    }
}

// The rows with the images of the chosen branches set, from the oldest on.
fn forward<'a>(
    alloc: Global,
    rows: &[Row<'a>],
    chosen: Chosen,
    all: &[Placed],
    some: &'a [Placed],
) -> Result<Vec<Row<'a>>, AllocError>
    ensures { (m : Records) → map entry_of rows.now ≡ entries m → IfOk result (λ v. map entry_of v.items ≡ entries (images.forward (picked chosen all.now) (all_of (map placed_of some.now)) m)) }
{
    match some {
        [] => rows.to_vec(alloc),
        [e, rest @ ..] => {
            let before = forward(alloc, rows, chosen, all, rest)?;
            with_image(alloc, before.as_slice(), chosen, all, e)
        }
    }
}

// The same from the newest on.
fn backward<'a>(
    alloc: Global,
    rows: &[Row<'a>],
    chosen: Chosen,
    all: &[Placed],
    some: &'a [Placed],
) -> Result<Vec<Row<'a>>, AllocError>
    ensures { (m : Records) → map entry_of rows.now ≡ entries m → IfOk result (λ v. map entry_of v.items ≡ entries (images.backward (picked chosen all.now) (all_of (map placed_of some.now)) m)) }
{
    match some {
        [] => rows.to_vec(alloc),
        [e, rest @ ..] => {
            let set = with_image(alloc, rows, chosen, all, e)?;
            backward(alloc, set.as_slice(), chosen, all, rest)
        }
    }
}

// How many entries there are from a position on.
fn count_since(all: &[Placed], position: u64) -> usize
    ensures within { result ≤ length all.now }
    ensures since { all_of (map placed_of (take result all.now)) ≡ recovery.since position (map placed_of all.now) }
{
    match all {
        [] => 0,
        [e, rest @ ..] => {
            if position <= e.at {
                count_since(rest, position) + 1
            } else {
                0
            }
        }
    }
}

// The entries from a position on.
fn entries_since(all: &[Placed], position: u64) -> &[Placed]
    ensures { all_of (map placed_of result.now) ≡ recovery.since position (map placed_of all.now) }
{
    let count = count_since(all, position);
    &all[..count]
}

// From this save on, by the after images from its position on.
fn rolled_from<'a>(
    alloc: Global,
    file: &'a File,
    save: &'a Save,
    until: Option<Moment>,
) -> Result<Vec<Row<'a>>, AllocError>
    ensures { IfOk result (λ v. map entry_of v.items ≡ entries (images.rolled_forward (option_map (λ moment. moment.0) until) (recovery.since save.now.position (map placed_of file.now.carried.after.entries.items)) (rows_of save.now.records.items))) }
{
    let saved = save.records.as_slice();
    let base = lend_rows(alloc, saved)?;
    let rows = base.as_slice();
    let noted = file.carried.after.entries.as_slice();
    let all = entries_since(noted, save.position);
    forward(alloc, rows, Chosen::By(until), all, all)
}

// From the save on, by after images.
fn rolled_forward(
    alloc: Global,
    file: &File,
    until: Option<Moment>,
) -> Result<Vec<Row<'_>>, AllocError>
    ensures { IfOk result (λ v. map entry_of v.items ≡ entries (model.rolled (answers.way_of (recovery_of (TheForward until))) (world.state_of (file_of file.now)))) }
{
    match &file.carried.save {
        None => committed_of(alloc, file),
        Some(v) => rolled_from(alloc, file, v, until),
    }
}

// From what stands, by before images.
fn rolled_back(alloc: Global, file: &File, until: Moment) -> Result<Vec<Row<'_>>, AllocError>
    ensures { IfOk result (λ v. map entry_of v.items ≡ entries (model.rolled (answers.way_of (recovery_of (TheBackward until))) (world.state_of (file_of file.now)))) }
{
    let standing = records_of(alloc, file)?;
    let all = file.carried.before.entries.as_slice();
    backward(alloc, standing.as_slice(), Chosen::Past(until), all, all)
}

/// The records that a file's journals and its save make, in the order of their keys.
pub fn rolled<'a>(alloc: Global, file: &'a File, way: &Recovery) -> Result<Vec<Row<'a>>, AllocError>
    ensures { IfOk result (λ v. map entry_of v.items ≡ entries (model.rolled (answers.way_of (recovery_of way.now)) (world.state_of (file_of file.now)))) }
{
    match way {
        Recovery::Forward(until) => rolled_forward(alloc, file, *until),
        Recovery::Backward(until) => rolled_back(alloc, file, *until),
    }
}
