// The lines of a journal of images.
ghost use Rattle.std.specs.Prelude.{◌≡◌, ◌++◌, List, [], ◌∷◌, map, IfOk};
ghost use Rattle.reference_index.specs.transcript_model.Lines as model;
ghost use Rattle.reference_index.specs.run_model.Answers as answers;
ghost use Rattle.reference_world.specs.Standing.{images_of, line_of, placed_of};

use reference_index::{lend_value, own_value, push_front};
use reference_world::{Image, ImageJournal, Line, Placed, one};
use std::alloc::{AllocError, Global};
use vms_base::FileName;

// The line of an entry.
fn image_line(alloc: Global, file: &FileName, e: &Placed) -> Result<Line, AllocError>
    ensures { IfOk result (λ line. line_of line ≡ answers.image_line file.now (placed_of e.now)) }
{
    match &e.image {
        Image::Changed(key, value) => Ok(Line::ChangeEntry(
            e.at,
            e.branch,
            *file,
            key.lend().own(alloc)?,
            own_value(alloc, lend_value(value))?,
        )),
        Image::Settled(outcome, moment) => {
            Ok(Line::SettledEntry(e.at, e.branch, *outcome, *moment))
        }
    }
}

// The lines of entries, of which the newest stands first here and last there, and others behind them.
fn lines_before(
    alloc: Global,
    file: &FileName,
    all: &[Placed],
    behind: Vec<Line>,
) -> Result<Vec<Line>, AllocError>
    ensures { IfOk result (λ v. map line_of v.items ≡ answers.image_lines file.now (map placed_of all.now) ++ map line_of behind.items) }
{
    match all {
        [] => Ok(behind),
        [e, rest @ ..] => {
            let mut lines = behind;
            push_front(&mut lines, image_line(alloc, file, e)?)?;
            lines_before(alloc, file, rest, lines)
        }
    }
}

/// A line for each entry of a file's journal of images, the oldest first, and then the positions at which the journal begins and ends.
pub fn images_shown(
    alloc: Global,
    file: &FileName,
    journal: &ImageJournal,
) -> Result<Vec<Line>, AllocError>
    ensures { let j = images_of journal.now in IfOk result (λ v. map line_of v.items ≡ answers.image_lines file.now j.entries ++ model.NormalSpan j.first j.end ∷ []) }
{
    let last = one(alloc, Line::NormalSpan(journal.first, journal.end))?;
    lines_before(alloc, file, journal.entries.as_slice(), last)
}
