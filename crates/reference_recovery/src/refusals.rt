// What refuses a recovery, and the lines of a journal.
ghost use Rattle.std.specs.Prelude.{◌≡◌, option_map, nat_lt, IfOk};
ghost use Rattle.records_model.specs.History.{first_to_change as first_to_change_of};
ghost use Rattle.reference_index.specs.recovery_model.Recovery.{Forward, Backward, refusal as refusal_of};
ghost use Rattle.reference_index.specs.run_model.Operations as operations;
ghost use Rattle.reference_index.specs.transcript_model.Lines as line;
ghost use Rattle.reference_index.specs.run_model.Answers as answers;
ghost use Rattle.reference_index.specs.run_model.World as world;
ghost use Rattle.script_lang.specs.Statements.{recovery_of, side_of as side_said};
ghost use Rattle.reference_world.specs.Standing.{file_of, history_of, images_of, line_of, serials_of, side_of};
ghost use Rattle.reference_recovery.specs.Refusing.{early_line, used_line};

use reference_records::{first_of, refused_if};
use reference_world::{BranchKey, File, ImageJournal, Line, Save, Side, first_to_change, written};
use script_lang::Recovery;
use std::alloc::AllocError;
use vms_base::Moment;

/// The journal that a word names.
pub fn side_for(word: script_lang::Side) -> Side
    ensures { side_of result ≡ side_said word }
{
    match word {
        script_lang::Side::AfterImages => Side::After,
        script_lang::Side::BeforeImages => Side::Before,
    }
}

/// The journal of this side.
pub fn journal_at(file: &File, side: Side) -> &ImageJournal
    ensures { images_of result.now ≡ answers.journal_at (side_of side) (file_of file.now) }
{
    match side {
        Side::After => &file.carried.after,
        Side::Before => &file.carried.before,
    }
}

/// The refusal that a file has no such journal.
pub fn has_journal(file: &File, side: Side) -> Option<Line>
    ensures { option_map line_of result ≡ answers.has_journal (side_of side) (file_of file.now) }
{
    refused_if(!journal_at(file, side).on, Line::NoJournal)
}

// The first of these branches that changed the file.
fn in_use(file: &File, branches: &[BranchKey]) -> Option<Line>
    ensures { option_map line_of result ≡ used_line (first_to_change_of (history_of file.now) (serials_of branches.now)) }
{
    match first_to_change(file, branches) {
        Some(serial) => Some(Line::FileLocked(serial)),
        None => None,
    }
}

// A moment before that of the save.
fn too_early(until: Option<Moment>, save: &Save) -> Result<Option<Line>, AllocError>
    ensures { IfOk result (λ refusal. option_map line_of refusal ≡ early_line (option_map (λ m. m.0) until) save.now.moment) }
{
    match until {
        None => Ok(None),
        Some(until) => early_refused(until.0, save.moment),
    }
}

// The same of a moment that is said.
fn early_refused(until: u64, saved: u64) -> Result<Option<Line>, AllocError>
    ensures { IfOk result (λ refusal. option_map line_of refusal ≡ operations.refused_if (nat_lt until saved) (line.TooEarly until saved)) }
{
    let said = written(until)?;
    let kept = written(saved)?;
    Ok(refused_if(until < saved, Line::TooEarly(said, kept)))
}

// What refuses a recovery forward from this save.
fn forward_refused(
    file: &File,
    branches: &[BranchKey],
    until: Option<Moment>,
    save: &Save,
) -> Result<Option<Line>, AllocError>
    ensures { IfOk result (λ refusal. option_map line_of refusal ≡ operations.first_of (used_line (first_to_change_of (history_of file.now) (serials_of branches.now)))
        (operations.first_of (early_line (option_map (λ m. m.0) until) save.now.moment)
        (operations.refused_if (nat_lt save.now.position file.now.carried.after.first) (line.PositionsMissing save.now.position file.now.carried.after.first)))) }
{
    let first = file.carried.after.first;
    let missing = refused_if(
        save.position < first,
        Line::PositionsMissing(save.position, first),
    );
    let early = too_early(until, save)?;
    let used = in_use(file, branches);
    let by_save = first_of(early, missing);
    Ok(first_of(used, by_save))
}

// What refuses a recovery backward by the journal that the file has.
fn backward_refused(
    file: &File,
    branches: &[BranchKey],
    until: Moment,
) -> Result<Option<Line>, AllocError>
    ensures { IfOk result (λ refusal. option_map line_of refusal ≡ operations.first_of (used_line (first_to_change_of (history_of file.now) (serials_of branches.now)))
        (operations.refused_if (nat_lt until.0 file.now.carried.since) (line.MomentsMissing until.0 file.now.carried.since))) }
{
    let since = file.carried.since;
    let said = written(until.0)?;
    let begun = written(since)?;
    let missing = refused_if(until.0 < since, Line::MomentsMissing(said, begun));
    let used = in_use(file, branches);
    Ok(first_of(used, missing))
}

// What refuses a recovery forward.
fn refused_forward(
    file: &File,
    branches: &[BranchKey],
    until: Option<Moment>,
) -> Result<Option<Line>, AllocError>
    ensures { IfOk result (λ refusal. option_map line_of refusal ≡ option_map answers.refusal_line (refusal_of (Forward (option_map (λ m. m.0) until)) (first_to_change_of (history_of file.now) (serials_of branches.now)) (world.state_of (file_of file.now)))) }
{
    if !file.carried.after.on {
        return Ok(Some(Line::NoJournal));
    }
    match &file.carried.save {
        None => Ok(Some(Line::NoSave)),
        Some(v) => forward_refused(file, branches, until, v),
    }
}

// What refuses a recovery backward.
fn refused_backward(
    file: &File,
    branches: &[BranchKey],
    until: Moment,
) -> Result<Option<Line>, AllocError>
    ensures { IfOk result (λ refusal. option_map line_of refusal ≡ option_map answers.refusal_line (refusal_of (Backward until.0) (first_to_change_of (history_of file.now) (serials_of branches.now)) (world.state_of (file_of file.now)))) }
{
    if !file.carried.before.on {
        return Ok(Some(Line::NoJournal));
    }
    backward_refused(file, branches, until)
}

/// What refuses a recovery of a file by its journals and its save, and the first of these unsettled branches that changed it.
pub fn recovery_refused(
    file: &File,
    branches: &[BranchKey],
    way: &Recovery,
) -> Result<Option<Line>, AllocError>
    ensures { IfOk result (λ refusal. option_map line_of refusal ≡ option_map answers.refusal_line (refusal_of (answers.way_of (recovery_of way.now)) (first_to_change_of (history_of file.now) (serials_of branches.now)) (world.state_of (file_of file.now)))) }
{
    match way {
        Recovery::Forward(until) => refused_forward(file, branches, *until),
        Recovery::Backward(until) => refused_backward(file, branches, *until),
    }
}
