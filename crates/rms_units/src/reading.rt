// Records that are looked for.
ghost use Rattle.std.specs.Prelude.{◌≡◌, ◌≤◌, ◌+◌, ◌∷◌, [], None, Some, OnOk, IfErr, option_map};
ghost use Rattle.std.specs.Option.{option_copied};
ghost use Rattle.change_set.specs.Files.{IsPlaced, free_frames};
ghost use Rattle.change_set.specs.Maps.{IsNext};
ghost use Rattle.vms_base.specs.Ids.{serial_of};
ghost use Rattle.vms_base.specs.Keys.{key_of};
ghost use Rattle.record_locks.specs.Locks.{holder};
ghost use Rattle.record_operations.specs.Asking.{read_file_in};
ghost use Rattle.unit_journal.specs.Leaving.{FellIn};
ghost use Rattle.record_operations.specs.Causes.{IfRefused, first_cause};
ghost use Rattle.volume.specs.State.{SameVolume};
ghost use Rattle.volume_files.specs.record_files.Any.{reads_of};
ghost use Rattle.rms_units.specs.Calls.{ReadsFew};
ghost use Rattle.key_changes.specs.Changing.{held_against, locks_refuse};
ghost use Rattle.rms_units.specs.Reading.{Finds, FindsNone, NextIsNot, missing, read_keys};
ghost use Rattle.key_changes.specs.unit_cuts.Records.{OfRecords};

use block_disk::Disk;
use file_base::FileHead;
use key_changes::lock_refusal;
use record_locks::Locks;
use record_operations::{ReadOp, RecErr};
use vms_base::{Key, Record, Serial};
use volume::Volume;
use volume_files::{next_record, read_record};

// The record of a key, which no other branch may hold.
fn find_key<D: Disk>(
    volume: &mut Volume<D>,
    head: &FileHead,
    file: u8,
    key: &Key,
    by: &Option<Serial>,
    locks: &Locks,
    out: &mut Record,
) -> Result<(), RecErr>
    requires placed { IsPlaced head.now volume.old.store.disk }
    requires frames { 32 ≤ free_frames volume.old.store.pool }
    ensures found { OnOk result (OfRecords head.now volume.old (λ m. m (key_of key.now) ≡ Some out.new)) }
    ensures free { OnOk result (held_against (option_map serial_of by.now) (holder locks.now.locks file (key_of key.now)) ≡ None) }
    ensures reads { volume.new.store.reads ≤ volume.old.store.reads + reads_of head.now }
    ensures same { OnOk result (SameVolume volume.old volume.new) }
    ensures err { IfErr result (λ e. IfRefused e (λ cause. OfRecords head.now volume.old (λ m. first_cause (held_against (option_map serial_of by.now) (holder locks.now.locks file (key_of key.now))) (missing (m (key_of key.now))) ≡ Some cause) × SameVolume volume.old volume.new)
        (λ down. (locks_refuse (option_map serial_of by.now) file (key_of key.now ∷ []) locks.now.locks ≡ None) × FellIn down volume.old volume.new)) }
{
    match lock_refusal(locks, by, file, key) {
        Some(refusal) => return Err(refusal),
        None => {}
    }
    match read_record(volume, head, key, out) {
        Err(down) => Err(RecErr::Down(down)),
        Ok(false) => Err(RecErr::RecordNotFound),
        Ok(true) => Ok(()),
    }
}

// The first record behind a key, which no other branch may hold.
fn find_next<D: Disk>(
    volume: &mut Volume<D>,
    head: &FileHead,
    file: u8,
    after: Option<&Key>,
    by: &Option<Serial>,
    locks: &Locks,
    found: &mut Key,
    out: &mut Record,
) -> Result<(), RecErr>
    requires placed { IsPlaced head.now volume.old.store.disk }
    requires frames { 32 ≤ free_frames volume.old.store.pool }
    ensures found { OnOk result (OfRecords head.now volume.old (λ m. IsNext m (option_map key_of (option_copied after.entry)) (key_of found.new) out.new)) }
    ensures free { OnOk result (held_against (option_map serial_of by.now) (holder locks.now.locks file (key_of found.new)) ≡ None) }
    ensures same { OnOk result (SameVolume volume.old volume.new) }
    ensures err { IfErr result (λ e. IfRefused e (λ cause. OfRecords head.now volume.old (NextIsNot (option_map key_of (option_copied after.entry)) (option_map serial_of by.now) file locks.now.locks cause) × SameVolume volume.old volume.new) (λ down. FellIn down volume.old volume.new)) }
{
    match next_record(volume, head, after, found, out) {
        Err(down) => return Err(RecErr::Down(down)),
        Ok(false) => return Err(RecErr::EndOfFile),
        Ok(true) => {}
    }
    match lock_refusal(locks, by, file, found) {
        Some(refusal) => Err(refusal),
        None => Ok(()),
    }
}

/// The record that a read finds, with its key. It is not found where another branch holds it.
pub(crate) fn find<D: Disk>(
    volume: &mut Volume<D>,
    head: &FileHead,
    op: &ReadOp,
    by: &Option<Serial>,
    locks: &Locks,
    found: &mut Key,
    out: &mut Record,
) -> Result<(), RecErr>
    requires placed { IsPlaced head.now volume.old.store.disk }
    requires frames { 32 ≤ free_frames volume.old.store.pool }
    ensures finds { OnOk result (OfRecords head.now volume.old (Finds op.now (option_map serial_of by.now) locks.now.locks (key_of found.new) out.new)) }
    ensures free { OnOk result (held_against (option_map serial_of by.now) (holder locks.now.locks (read_file_in op.now) (key_of found.new)) ≡ None) }
    ensures reads { ReadsFew head.now op.now volume.old volume.new }
    ensures same { OnOk result (SameVolume volume.old volume.new) }
    ensures err { IfErr result (λ e. IfRefused e (λ cause. OfRecords head.now volume.old (FindsNone op.now (option_map serial_of by.now) locks.now.locks cause) × SameVolume volume.old volume.new)
        (λ down. (locks_refuse (option_map serial_of by.now) (read_file_in op.now) (read_keys op.now) locks.now.locks ≡ None) × FellIn down volume.old volume.new)) }
{
    match op {
        ReadOp::Get { file, key } => {
            *found = *key;
            find_key(volume, head, *file, key, by, locks, out)
        }
        ReadOp::Next { file, after } => {
            find_next(volume, head, *file, after.as_ref(), by, locks, found, out)
        }
    }
}
