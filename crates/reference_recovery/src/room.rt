// The bytes of the rings of journals of images: what is free there, what changes need, and which ring is full.
ghost use Rattle.std.specs.Prelude.{◌≡◌, ◌+◌, ◌*◌, ◌-◌, ◌<◌, ◌≤◌, ◌^◌, ◌&&◌, ℕ, List, map, option_map, length, nat_lt};
ghost use Rattle.records_model.specs.Slots.{size_of};
ghost use Rattle.reference_index.specs.recovery_model.File.{all_of};
ghost use Rattle.reference_index.specs.recovery_model.Room as model;
ghost use Rattle.reference_index.specs.run_model.Answers as answers;
ghost use Rattle.vms_base.specs.Ids.{id_of};
ghost use Rattle.reference_index.specs.Standing.{change_of, changes_of};
ghost use Rattle.reference_world.specs.Standing.{file_of, images_of, line_of, live_of, placed_of};
ghost use Rattle.reference_world.specs.declared.world.Side.TheVariants.{After as TheAfter, Before as TheBefore};
ghost use Rattle.reference_recovery.specs.Rooms.{after_line, before_line, first_line, image_at, images_at, length_of, value_at};

use reference_index::Change;
use reference_records::{first_of, refused_if};
use reference_world::{
    File, Image, ImageJournal, Line, LiveChanges, Placed, Side, key_size, same_id, value_size,
};
use vms_base::Id;

// Whether a branch has changed a key in a journal.
fn has_entry(all: &[Placed], serial: &Id) -> bool
    ensures { result ≡ model.has_entry (id_of serial.now) (all_of (map placed_of all.now)) }
{
    match all {
        [] => false,
        [e, rest @ ..] => match &e.image {
            Image::Changed(_, _) => { same_id(&e.branch.serial, serial) || has_entry(rest, serial) }
            Image::Settled(_, _) => has_entry(rest, serial),
        },
    }
}

// How many of the unsettled branches have.
fn unsettled_in(all: &[Placed], live: &[LiveChanges]) -> u64
    ensures count { result ≡ model.unsettled_in (all_of (map placed_of all.now)) (map live_of live.now) }
    ensures few { result ≤ length live.now }
{
    match live {
        [] => 0,
        [l, rest @ ..] => {
            if has_entry(all, &l.serial) {
                unsettled_in(all, rest) + 1
            } else {
                unsettled_in(all, rest)
            }
        }
    }
}

// The bytes of a ring that are free: those behind the entries, but for 48 of each unsettled branch that has one.
fn free_in(journal: &ImageJournal, live: &[LiveChanges]) -> u128
    ensures { result ≡ model.free_in (images_of journal.now) (map live_of live.now) }
{
    let all = 512 * u128::from(journal.blocks);
    let taken = journal.end.saturating_sub(journal.first);
    let owed = 48 * u128::from(unsettled_in(journal.entries.as_slice(), live));
    all.saturating_sub(u128::from(taken)).saturating_sub(owed)
}

// The bytes of the record of a change that stands in this journal.
fn record_length(change: &Change, side: Side) -> u64
    ensures bytes { result ≡ size_of (value_at side (change_of change.now)) }
    ensures few { result < 2 ^ 63 }
{
    match side {
        Side::After => value_size(&change.after),
        Side::Before => value_size(&change.before),
    }
}

// The bytes of the image of a change that stands in this journal.
fn image_length(change: &Change, side: Side) -> u128
    ensures bytes { result ≡ length_of (image_at side (change_of change.now)) }
    ensures few { result ≤ 2 ^ 64 + 48 }
{
    48 + u128::from(key_size(&change.key)) + u128::from(record_length(change, side))
}

// How many bytes changes take in this journal.
fn changes_length(changes: &[Change], side: Side) -> u128
    ensures bytes { result ≡ model.changes_length (images_at side (changes_of changes.now)) }
    ensures few { result ≤ length changes.now * (2 ^ 64 + 48) }
{
    match changes {
        [] => 0,
        [c, rest @ ..] => image_length(c, side) + changes_length(rest, side),
    }
}

// How many bytes a branch needs for them: with its first entry also those of its settlement.
fn need_in(journal: &ImageJournal, serial: &Id, changes: &[Change], side: Side) -> u128
    ensures { result ≡ model.need_in (id_of serial.now) (images_at side (changes_of changes.now)) (images_of journal.now) }
{
    let length = changes_length(changes, side);
    if has_entry(journal.entries.as_slice(), serial) {
        length
    } else {
        48 + length
    }
}

// Whether a journal that the file has is short of bytes.
fn is_short(on: bool, free: u128, need: u128) -> bool
    ensures { result ≡ (on && nat_lt free need) }
{
    on && free < need
}

// What refuses changes for want of room in the journal of after images.
fn afters_full(serial: &Id, changes: &[Change], file: &File) -> Option<Line>
    ensures { option_map line_of result ≡ after_line (id_of serial.now) (images_at TheAfter (changes_of changes.now)) (file_of file.now) }
{
    let live = file.live.as_slice();
    let free = free_in(&file.carried.after, live);
    let need = need_in(&file.carried.after, serial, changes, Side::After);
    let short = is_short(file.carried.after.on, free, need);
    refused_if(short, Line::AftersFull(free, need))
}

// And in that of before images.
fn befores_full(serial: &Id, changes: &[Change], file: &File) -> Option<Line>
    ensures { option_map line_of result ≡ before_line (id_of serial.now) (images_at TheBefore (changes_of changes.now)) (file_of file.now) }
{
    let live = file.live.as_slice();
    let free = free_in(&file.carried.before, live);
    let need = need_in(&file.carried.before, serial, changes, Side::Before);
    let short = is_short(file.carried.before.on, free, need);
    refused_if(short, Line::BeforesFull(free, need))
}

// The first of both.
fn first_full(serial: &Id, changes: &[Change], file: &File) -> Option<Line>
    ensures { option_map line_of result ≡ first_line (id_of serial.now) (changes_of changes.now) (file_of file.now) }
{
    let after = afters_full(serial, changes, file);
    let before = befores_full(serial, changes, file);
    first_of(after, before)
}

/// What refuses changes of a branch for want of room in a journal of images of their file: that of after images first. No change is refused.
pub fn images_full(serial: &Id, changes: &[Change], file: &File) -> Option<Line>
    ensures { option_map line_of result ≡ answers.images_full (id_of serial.now) (changes_of changes.now) (file_of file.now) }
{
    match changes {
        [] => None,
        [_, ..] => first_full(serial, changes, file),
    }
}
