// The places of the entries that a recovery uses.
ghost use Rattle.std.specs.Prelude.{◌≡◌, ◌<◌, ◌^◌, ◌++◌, [], ◌∷◌, IfOk, OnOk, length, map, if◌then◌else◌};
ghost use Rattle.recovery_model.specs.Places.{committed, changed_by, places, applied_places, undone_places};
ghost use Rattle.image_journals.specs.Headers.{header_told, passes, is_among};

use crate::branches::{Counting, committed_in, is_change_of};
use indexmap::IndexSet;
use journal_format::EntryHead;
use std::alloc::{AllocError, Global};
use table_keys::BranchKey;
use vms_base::Moment;

// One place more, where its entry is a change of one of these branches.
fn put_place(
    places: &mut Vec<u32>,
    found: &IndexSet<BranchKey>,
    entry: &EntryHead,
    place: u32,
) -> Result<(), AllocError>
    ensures { OnOk result (places.new.items ≡ (if changed_by (λ s. is_among s found.now.keys) (header_told entry.now) then places.old.items ++ place ∷ [] else places.old.items)) }
{
    if is_change_of(found, entry) {
        places.push(place)?;
    }
    Ok(())
}

// The places of the changes of these branches.
fn places_among(
    alloc: Global,
    entries: &[EntryHead],
    found: &IndexSet<BranchKey>,
) -> Result<Vec<u32>, AllocError>
    requires { length entries.now < 2 ^ 32 }
    ensures { IfOk result (λ v. v.items ≡ places (λ s. is_among s found.now.keys) (map header_told entries.now) 0) }
{
    let mut places = Vec::new(alloc);
    let mut place = 0;
    for entry in entries {
        put_place(&mut places, found, entry, place)?;
        place += 1;
    }
    Ok(places)
}

// The places of the changes of branches committed at a moment that counts.
fn places_of(
    alloc: Global,
    entries: &[EntryHead],
    counting: Counting,
) -> Result<Vec<u32>, AllocError>
    requires { length entries.now < 2 ^ 32 }
    ensures { IfOk result (λ v. v.items ≡ places (committed (passes counting) (map header_told entries.now)) (map header_told entries.now) 0) }
{
    let found = committed_in(alloc, entries, counting)?;
    places_among(alloc, entries, &found)
}

/// The places, from 0, of the changes that a recovery forward sets: those of the branches committed by this moment, in the order of the entries,
/// the oldest first. An error where there is no memory for them.
pub fn applied(alloc: Global, entries: &[EntryHead], until: Moment) -> Result<Vec<u32>, AllocError>
    requires few { length entries.now < 2 ^ 32 }
    ensures places { IfOk result (λ v. v.items ≡ applied_places until.0 (map header_told entries.now)) }
{
    places_of(alloc, entries, Counting::By(until))
}

/// The places, from 0, of the changes that a recovery backward takes back: those of the branches committed past this moment, the newest entry
/// first. An error where there is no memory for them.
pub fn undone(alloc: Global, entries: &[EntryHead], until: Moment) -> Result<Vec<u32>, AllocError>
    requires few { length entries.now < 2 ^ 32 }
    ensures places { IfOk result (λ v. v.items ≡ undone_places until.0 (map header_told entries.now)) }
{
    let mut places = places_of(alloc, entries, Counting::Past(until))?;
    places.reverse();
    Ok(places)
}
