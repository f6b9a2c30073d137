// The journals of images of a file, and how they follow its changes.
ghost use Rattle.std.specs.Prelude.{◌≡◌, ◌+◌, ◌^◌, ◌≤◌, ◌<◌, true, IfOk, IfSome};
ghost use Rattle.vms_base.specs.vms_model.Ids.{Id as IdSaid};
ghost use Rattle.reference_index.specs.records_model.Slots.{size_of};
ghost use Rattle.reference_index.specs.unit_laws.Journal.{key_size as key_size_of};
ghost use Rattle.reference_index.specs.recovery_model.Journal as images;
ghost use Rattle.reference_index.specs.recovery_model.File as recovery;
ghost use Rattle.reference_index.specs.run_model.World as world;
ghost use Rattle.reference_index.specs.Standing.{key_of, value_of, lent_key, lent_value, change_of, changes_of};
ghost use Rattle.reference_world.specs.Standing.{branch_key_of, image_of, images_of, carried_of, side_of, settlement_of};

use crate::world::{BranchKey, Carried, Image, ImageJournal, Placed, Settlement, Side};
use reference_index::{Change, Key, KeyRef, lend_value, own_value, push_front};
use std::alloc::{AllocError, Global};

/// How many bytes a key takes in an entry.
pub fn key_size(key: &Key) -> u64
    ensures size { result ≡ key_size_of (key_of key.now) }
    ensures few { result < 2 ^ 63 }
{
    match key {
        Key::Number(_) => 4,
        Key::Text(bytes) => bytes.len() as u64,
        Key::End => 0,
    }
}

/// How many bytes a record takes in an entry; none takes none.
pub fn value_size(value: &Option<Vec<u8>>) -> u64
    ensures size { result ≡ size_of (value_of value.now) }
    ensures few { result < 2 ^ 63 }
{
    match value {
        Some(bytes) => bytes.len() as u64,
        None => 0,
    }
}

// How many bytes an entry of this takes.
fn image_size(image: &Image) -> u128
    ensures size { (serial : IdSaid) → result ≡ images.entry_length (image_of serial image.now) }
    ensures few { result ≤ 2 ^ 64 + 48 }
{
    match image {
        Image::Changed(key, value) => {
            48 + u128::from(key_size(key)) + u128::from(value_size(value))
        }
        Image::Settled(_, _) => 48,
    }
}

// The position so many bytes behind another, where it is one of 64 bits.
fn position_behind(at: u64, size: u128) -> Option<u64>
    requires { size ≤ 2 ^ 64 + 48 }
    ensures { IfSome result (λ end. end ≡ at + size) }
{
    let end = u128::from(at) + size;
    if end <= u128::from(u64::MAX) {
        Some(end as u64)
    } else {
        None
    }
}

/// No journal.
pub fn no_images(alloc: Global) -> ImageJournal
    ensures { images_of result ≡ recovery.no_images }
{
    ImageJournal {
        on: false,
        start: 0,
        blocks: 0,
        first: 0,
        end: 0,
        entries: Vec::new(alloc),
    }
}

/// Nothing is carried.
pub fn nothing_carried(alloc: Global) -> Carried
    ensures { carried_of result ≡ world.nothing_carried }
{
    Carried {
        after: no_images(alloc),
        before: no_images(alloc),
        since: 0,
        save: None,
    }
}

// A journal with one entry more at its end, where the file has it. An error also where its end would be no position of 64 bits.
fn with_entry(
    journal: ImageJournal,
    branch: &BranchKey,
    image: Image,
) -> Result<ImageJournal, AllocError>
    ensures { IfOk result (λ j. images_of j ≡ recovery.append (branch_key_of branch.now).tid (image_of (branch_key_of branch.now).serial image) (images_of journal)) }
{
    if !journal.on {
        return Ok(journal);
    }
    let mut longer = journal;
    let at = longer.end;
    let Some(end) = position_behind(at, image_size(&image)) else {
        return Err(AllocError);
    };
    longer.end = end;
    let branch = *branch;
    push_front(&mut longer.entries, Placed { at, branch, image })?;
    Ok(longer)
}

// A journal with an entry of a key.
fn with_value(
    alloc: Global,
    journal: ImageJournal,
    branch: &BranchKey,
    key: KeyRef<'_>,
    value: Option<&[u8]>,
) -> Result<ImageJournal, AllocError>
    ensures { IfOk result (λ j. images_of j ≡ recovery.append (branch_key_of branch.now).tid (images.Changed (branch_key_of branch.now).serial (lent_key key.entry) (lent_value value.entry)) (images_of journal)) }
{
    let image = Image::Changed(key.own(alloc)?, own_value(alloc, value)?);
    with_entry(journal, branch, image)
}

// Both journals after one change of a branch: one has the image after it, the other the image before it.
fn with_image(
    alloc: Global,
    carried: Carried,
    branch: &BranchKey,
    change: &Change,
) -> Result<Carried, AllocError>
    ensures { IfOk result (λ r. carried_of r ≡ world.with_image (branch_key_of branch.now).tid (branch_key_of branch.now).serial (change_of change.now) (carried_of carried)) }
{
    let key = change.key.lend();
    let after = with_value(alloc, carried.after, branch, key, lend_value(&change.after))?;
    let before = with_value(
        alloc,
        carried.before,
        branch,
        key,
        lend_value(&change.before),
    )?;
    Ok(Carried {
        after,
        before,
        since: carried.since,
        save: carried.save,
    })
}

/// Both journals after changes of a branch, the newest first. An error also where the end of one would be no position of 64 bits.
pub fn with_images(
    alloc: Global,
    carried: Carried,
    branch: &BranchKey,
    changes: &[Change],
) -> Result<Carried, AllocError>
    ensures { IfOk result (λ r. carried_of r ≡ world.with_images (branch_key_of branch.now).tid (branch_key_of branch.now).serial (changes_of changes.now) (carried_of carried)) }
{
    match changes {
        [] => Ok(carried),
        [c, rest @ ..] => {
            let before = with_images(alloc, carried, branch, rest)?;
            with_image(alloc, before, branch, c)
        }
    }
}

/// Both journals once a branch that changed the file is settled. An error also where the end of one would be no position of 64 bits.
pub fn with_outcome(carried: Carried, s: &Settlement) -> Result<Carried, AllocError>
    ensures { IfOk result (λ r. carried_of r ≡ world.with_outcome true (settlement_of s.now) (carried_of carried)) }
{
    let branch = BranchKey {
        tid: s.tid,
        serial: s.serial,
    };
    let after = with_entry(
        carried.after,
        &branch,
        Image::Settled(s.outcome(), s.moment),
    )?;
    let before = with_entry(
        carried.before,
        &branch,
        Image::Settled(s.outcome(), s.moment),
    )?;
    Ok(Carried {
        after,
        before,
        since: carried.since,
        save: carried.save,
    })
}

// Where a journal that begins anew has its first position: at a whole block behind its end, where that is one of 64 bits.
fn next_span(end: u64) -> Option<u64>
    ensures { IfSome result (λ first. first ≡ recovery.next_span end) }
{
    (end / 512 + 1).checked_mul(512)
}

// A journal that begins anew in these blocks.
fn renewed(
    alloc: Global,
    journal: &ImageJournal,
    start: u64,
    blocks: u64,
) -> Result<ImageJournal, AllocError>
    ensures { IfOk result (λ j. images_of j ≡ recovery.renewed start blocks (images_of journal.now)) }
{
    let Some(first) = next_span(journal.end) else {
        return Err(AllocError);
    };
    Ok(ImageJournal {
        on: true,
        start,
        blocks,
        first,
        end: first,
        entries: Vec::new(alloc),
    })
}

// The same of a journal that the file has, in its blocks.
fn renewed_if_on(alloc: Global, journal: ImageJournal) -> Result<ImageJournal, AllocError>
    ensures { IfOk result (λ j. images_of j ≡ recovery.renewed_if_on (images_of journal)) }
{
    if journal.on {
        renewed(alloc, &journal, journal.start, journal.blocks)
    } else {
        Ok(journal)
    }
}

// A journal that ends: its positions stay.
fn ended(alloc: Global, journal: &ImageJournal) -> ImageJournal
    ensures { images_of result ≡ recovery.ended (images_of journal.now) }
{
    ImageJournal {
        on: false,
        start: 0,
        blocks: 0,
        first: journal.first,
        end: journal.end,
        entries: Vec::new(alloc),
    }
}

/// What is carried once a journal has begun in these blocks, where this is the greatest moment. An error also where it would begin at no position of 64 bits.
pub fn begun_images(
    alloc: Global,
    carried: Carried,
    side: Side,
    start: u64,
    blocks: u64,
    greatest: u64,
) -> Result<Carried, AllocError>
    ensures { IfOk result (λ r. carried_of r ≡ world.begun_images (side_of side) start blocks greatest (carried_of carried)) }
{
    match side {
        Side::After => {
            let after = renewed(alloc, &carried.after, start, blocks)?;
            Ok(Carried {
                after,
                before: carried.before,
                since: carried.since,
                save: carried.save,
            })
        }
        Side::Before => {
            let before = renewed(alloc, &carried.before, start, blocks)?;
            Ok(Carried {
                after: carried.after,
                before,
                since: greatest,
                save: carried.save,
            })
        }
    }
}

/// What is carried once a journal has ended.
pub fn ended_images(alloc: Global, carried: Carried, side: Side) -> Carried
    ensures { carried_of result ≡ world.ended_images (side_of side) (carried_of carried) }
{
    match side {
        Side::After => Carried {
            after: ended(alloc, &carried.after),
            before: carried.before,
            since: carried.since,
            save: carried.save,
        },
        Side::Before => Carried {
            after: carried.after,
            before: ended(alloc, &carried.before),
            since: carried.since,
            save: carried.save,
        },
    }
}

/// What is carried once the file was recovered, where this is the greatest moment. An error also where a journal would begin at no position of 64 bits.
pub fn carried_recovered(
    alloc: Global,
    carried: Carried,
    greatest: u64,
) -> Result<Carried, AllocError>
    ensures { IfOk result (λ r. carried_of r ≡ world.carried_recovered greatest (carried_of carried)) }
{
    let since = if carried.before.on {
        greatest
    } else {
        carried.since
    };
    let after = renewed_if_on(alloc, carried.after)?;
    let before = renewed_if_on(alloc, carried.before)?;
    Ok(Carried {
        after,
        before,
        since,
        save: carried.save,
    })
}
