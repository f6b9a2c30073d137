// The lines of the journal's entries.
ghost use Rattle.std.specs.Prelude.{◌≡◌, ◌+◌, ◌^◌, ◌<◌, ◌++◌, List, [], ◌∷◌, map, IfOk};
ghost use Rattle.reference_index.specs.transcript_model.Lines as lines;
ghost use Rattle.unit_laws.specs.Journal as model;
ghost use Rattle.reference_index.specs.run_model.Answers as answers;
ghost use Rattle.reference_world.specs.Standing.{line_of};
ghost use Rattle.reference_units.specs.Entries.{entry_of, entries_of, journal_of};

use crate::journal::{Journal, JournalEntry};
use crate::sizes::entry_size;
use reference_index::{lend_value, own_value, push_front};
use reference_world::{Line, one};
use std::alloc::{AllocError, Global};

// The line of an entry.
fn entry_line(alloc: Global, position: u64, entry: &JournalEntry) -> Result<Line, AllocError>
    ensures { IfOk result (λ line. line_of line ≡ answers.entry_line position (entry_of entry.now)) }
{
    match entry {
        JournalEntry::Changed(branch, file, key, before) => Ok(Line::ChangeEntry(
            position,
            *branch,
            *file,
            key.lend().own(alloc)?,
            own_value(alloc, lend_value(before))?,
        )),
        JournalEntry::Prepared(branch) => Ok(Line::PreparedEntry(position, *branch)),
        JournalEntry::Settled(branch, outcome, moment) => {
            Ok(Line::SettledEntry(position, *branch, *outcome, *moment))
        }
    }
}

// The lines of entries from a position on, and then that of the span of which these are the last.
fn lines_then(
    alloc: Global,
    first: u64,
    position: u64,
    entries: &[JournalEntry],
) -> Result<Vec<Line>, AllocError>
    requires { position + model.entries_size (entries_of entries.now) < 2 ^ 64 }
    ensures { IfOk result (λ v. map line_of v.items ≡ answers.entry_lines position (entries_of entries.now) ++ lines.NormalSpan first (position + model.entries_size (entries_of entries.now)) ∷ []) }
{
    match entries {
        [] => one(alloc, Line::NormalSpan(first, position)),
        [e, rest @ ..] => {
            let behind = position + entry_size(e) as u64;
            let mut lines = lines_then(alloc, first, behind, rest)?;
            push_front(&mut lines, entry_line(alloc, position, e)?)?;
            Ok(lines)
        }
    }
}

/// A line for each entry, and then the positions at which the journal begins and ends.
pub fn journal_shown(alloc: Global, journal: &Journal) -> Result<Vec<Line>, AllocError>
    requires { model.end_of (journal_of journal.now) < 2 ^ 64 }
    ensures { let j = journal_of journal.now in IfOk result (λ v. map line_of v.items ≡ answers.entry_lines j.first j.entries ++ lines.NormalSpan j.first (model.end_of j) ∷ []) }
{
    lines_then(
        alloc,
        journal.first,
        journal.first,
        journal.entries.as_slice(),
    )
}
