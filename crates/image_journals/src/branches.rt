// The branches that the entries of a journal show as committed.
ghost use Rattle.std.specs.Prelude.{◌≡◌, ◌||◌, IfOk, OnOk, map};
ghost use Rattle.vms_model.specs.Ids.{Id};
ghost use Rattle.recovery_model.specs.Places.{commits, committed, changed_by};
ghost use Rattle.image_journals.specs.Headers.{header_told, passes, is_commit_told, is_among};

use indexmap::IndexSet;
use journal_format::{EntryHead, EntryKind};
use std::alloc::{AllocError, Global};
use table_keys::BranchKey;
use vms_base::{Moment, Outcome};

// Which settlements count: those by a moment, or those past it.
#[derive(Clone, Copy, Drop)]
pub(crate) enum Counting {
    By(Moment),
    Past(Moment),
}

impl Counting {
    // Whether a settlement at this moment counts.
    fn counts(self, moment: Moment) -> bool
        ensures { result ≡ passes self moment.0 }
    {
        match self {
            Counting::By(until) => moment.0 <= until.0,
            Counting::Past(until) => until.0 < moment.0,
        }
    }
}

// Whether an entry is a commit that counts.
fn is_commit(entry: &EntryHead, counting: Counting) -> bool
    ensures { result ≡ is_commit_told (passes counting) (header_told entry.now) }
{
    match entry.kind {
        EntryKind::Change => false,
        EntryKind::Prepared => false,
        EntryKind::Settled => match entry.outcome {
            Some(Outcome::Commit) => counting.counts(entry.moment),
            Some(Outcome::Abort) => false,
            None => false,
        },
    }
}

// The branches that are committed, after one entry more.
fn note_commit(
    found: &mut IndexSet<BranchKey>,
    entry: &EntryHead,
    counting: Counting,
) -> Result<(), AllocError>
    ensures { OnOk result ((s : Id) → is_among s found.new.keys ≡ (commits (passes counting) (header_told entry.now) s || is_among s found.old.keys)) }
{
    if !is_commit(entry, counting) {
        return Ok(());
    }
    found.insert(BranchKey {
        serial: entry.serial,
    })?;
    Ok(())
}

// The branches that were committed at a moment that counts.
pub(crate) fn committed_in(
    alloc: Global,
    entries: &[EntryHead],
    counting: Counting,
) -> Result<IndexSet<BranchKey>, AllocError>
    ensures { IfOk result (λ found. (s : Id) → is_among s found.keys ≡ committed (passes counting) (map header_told entries.now) s) }
{
    let mut found = IndexSet::new(alloc);
    for entry in entries {
        note_commit(&mut found, entry, counting)?;
    }
    Ok(found)
}

// Whether an entry is a change of one of these branches.
pub(crate) fn is_change_of(found: &IndexSet<BranchKey>, entry: &EntryHead) -> bool
    ensures { result ≡ changed_by (λ s. is_among s found.now.keys) (header_told entry.now) }
{
    match entry.kind {
        EntryKind::Change => found.contains(&BranchKey {
            serial: entry.serial,
        }),
        EntryKind::Prepared => false,
        EntryKind::Settled => false,
    }
}
