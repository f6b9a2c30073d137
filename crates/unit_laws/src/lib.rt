//! The laws on which recovery units stand: what several unsettled branches leave in one file, and what undoing them restores.
//!
//! The crate has definitions and laws, and nothing that runs. `specs/Units` has what unsettled branches leave in a file, and `specs/Laws` its laws;
//! `specs/Journal` the journal of recovery units by its entries, and `specs/JournalLaws` its laws.
#![tactic(auto)]

ghost use Rattle.unit_laws.specs.Laws.{ChangesOne, ChangesMore, CommitsOne, AbortsOne, UndoesOne, RestartsRestore, BeforeImageIsGroup, ChangesKeepEnd, SettlesKeepEnd};
ghost use Rattle.unit_laws.specs.JournalLaws.{UnitsFollow, ChangesMakeUnit, PreparesUnit, TrimKeepsUnits, SettlesUnit, UnchangedHasNotes, ChangesKeepNotes, ChangesElsewhereKeepNotes, PreparesKeepNotes, SettlesKeepNotes, NotesRestore, NotesCutShort};

/// Of several unsettled branches one changes a key that is free for it. That key alone is set, nothing is committed, and the others keep what they changed.
pub fn one_branch_changes()
    ensures one { ChangesOne }
    ensures more { ChangesMore }
{}

/// Of several unsettled branches one commits. No key changes, and the branch's latest after images are committed.
pub fn one_branch_commits()
    ensures { CommitsOne }
{}

/// Of several unsettled branches one aborts. Its keys have again their earliest before images, and no other key changes.
pub fn one_branch_aborts()
    ensures { AbortsOne }
{}

/// After a fall one branch is undone whole and settled, whatever part of its changes was undone before. What the file has represents the same
/// committed records.
pub fn one_branch_is_undone()
    ensures { UndoesOne }
{}

/// After any number of groups of an undo, over any number of restarts, what the file has represents the same committed records. Undoing all unsettled branches
/// then restores these, in whatever order it is done.
pub fn restarts_restore()
    ensures { RestartsRestore }
{}

/// To put back the before image of any change of any unsettled branch is a group of an undo.
pub fn before_image_is_group()
    ensures { BeforeImageIsGroup }
{}

/// At most one of several unsettled branches has moved the end of a sequential file, whatever they change next and whichever is settled.
pub fn one_branch_moves_end()
    ensures changes { ChangesKeepEnd }
    ensures settles { SettlesKeepEnd }
{}

/// The units of a journal follow its entries, one by one: changes make a unit of their branch or add to it, and a Prepared entry marks it. What is
/// owed rises by the two entries that end a unit, and falls by the one that prepares it.
pub fn units_follow_entries()
    ensures follow { UnitsFollow }
    ensures changes { ChangesMakeUnit }
    ensures prepares { PreparesUnit }
{}

/// A journal from the earliest unsettled change on has the same units with the same notes, and no entry where no unit is left.
pub fn trimming_keeps_units()
    ensures { TrimKeepsUnits }
{}

/// A branch that is settled is no unit any more, and the others stay. The entry that settles it always fits, since its bytes were owed.
pub fn settling_fits()
    ensures { SettlesUnit }
{}

/// The journal has the notes of each unsettled branch on a file: what it found at the keys that it changed. It keeps them whatever branches change, here or
/// elsewhere, and whichever is prepared or settled.
pub fn journal_keeps_notes()
    ensures unchanged { UnchangedHasNotes }
    ensures changes { ChangesKeepNotes }
    ensures elsewhere { ChangesElsewhereKeepNotes }
    ensures prepares { PreparesKeepNotes }
    ensures settles { SettlesKeepNotes }
{}

/// What the journal notes of a branch, put back from the newest note on, are its earliest before images, whatever the keys have. Where that is cut short, what
/// was put back are groups of an undo.
pub fn notes_restore()
    ensures whole { NotesRestore }
    ensures cut { NotesCutShort }
{}
