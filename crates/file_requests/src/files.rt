//! Requests on whole files.
ghost use Rattle.std.specs.Prelude.{◌≡◌, ◌<◌, ◌≤◌, ℕ, List, Some, OnOk, length, map};
ghost use Rattle.std.specs.FinMap.{entries, get};
ghost use Rattle.careful_write.specs.Down.{answered};
ghost use Rattle.records_model.specs.Records.{Records};
ghost use Rattle.file_images.specs.record_files.Any.{IsFile, IsLaidOut, map_of};
ghost use Rattle.script_lang.specs.script_model.Statements as said;
ghost use Rattle.script_lang.specs.Statements.{form_of};
ghost use Rattle.emitter_model.specs.Emitting.{Since};
ghost use Rattle.vms_model.specs.Keys.{Key as KeySaid};
ghost use Rattle.vms_base.specs.Ids.{serial_of};
ghost use Rattle.file_images.specs.run_model.Answers.{service};
ghost use Rattle.directory_model.specs.Files.{head_at};
ghost use Rattle.recovery_units.specs.State.{IsEarly, IsInOrder};
ghost use Rattle.node_standing.specs.node_table.Code.{stored_of};
ghost use Rattle.file_requests.specs.Listing.{Shows};
ghost use Rattle.file_requests.specs.Making.{IsFresh, MakesFile};
ghost use Rattle.file_requests.specs.Replying.{RepliesIf};
ghost use Rattle.file_requests.specs.Serving.{SameStored, ServesFile};

use crate::finding::find_file;
use crate::law::the_laws;
use block_disk::Disk;
use careful_write::Down;
use change_set::Place;
use file_base::FileHead;
use node_files::{make_records, next_record_from, sizes_of, write_head};
use node_standing::Stored;
use recovery_units::RecoveryUnits;
use script_lang::Form as FileForm;
use transcript::{Emit, Form, Quota};
use vms_base::{FileName, Key};

// How many files a volume has, at the most.
const MOST_FILES: u64 = 64;

/// CREATE: a file without records takes the lowest free number and the lowest free run of blocks.
pub fn create<D: Disk, U: RecoveryUnits, E: Emit>(
    stored: &mut Stored<D, U>,
    name: FileName,
    bucket: u32,
    size: u32,
    form: FileForm,
    out: &mut E,
) -> Result<(), Down>
    requires order { IsInOrder (U.state stored.old.units) stored.old.volume }
    requires early { IsEarly stored.old.volume }
    ensures place { E.place out.new ≡ E.place out.old }
    ensures serves { ServesFile result (service (said.Create name bucket size (form_of form))) (stored_of U.state stored.old) (stored_of U.state stored.new) (E.shows out.old) (E.shows out.new) }
{
    the_laws();
    if let Some(_) = find_file(stored, &name) {
        out.emit(&Form::FileExists);
        return Ok(());
    }
    let Some(sizes) = sizes_of(bucket, size, form) else {
        out.emit(&Form::BadParameter);
        return Ok(());
    };
    let Some(file) = stored.volume.free_file() else {
        out.emit(&Form::QuotaExceeded(Quota::Files, MOST_FILES));
        return Ok(());
    };
    let free = stored.volume.longest_free();
    let need = sizes.blocks();
    if u64::from(free) < need {
        out.emit(&Form::VolumeFull(u64::from(free), need));
        return Ok(());
    }
    let Some(start) = stored.volume.free_run(need as u32) else {
        unreachable!()
    };
    let head = sizes.head(name, start);
    make_file(stored, file, &head, out)
}

// Makes a file in a free run: its buckets first, and then, in a group of its own, its directory block.
fn make_file<D: Disk, U: RecoveryUnits, E: Emit>(
    stored: &mut Stored<D, U>,
    file: u8,
    head: &FileHead,
    out: &mut E,
) -> Result<(), Down>
    requires order { IsInOrder (U.state stored.old.units) stored.old.volume }
    requires fresh { IsFresh file head.now stored.old.volume.catalog }
    ensures place { E.place out.new ≡ E.place out.old }
    ensures makes { MakesFile result file head.now (stored_of U.state stored.old) (stored_of U.state stored.new) (E.shows out.old) (E.shows out.new) }
{
    the_laws();
    match make_records(&mut stored.volume, head) {
        Err(down) => return Err(down),
        Ok(()) => {}
    }
    match write_head(&mut stored.volume, file, head) {
        Err(down) => Err(down),
        Ok(()) => {
            out.emit(&Form::Normal);
            Ok(())
        }
    }
}

/// DUMP: the records in the order of their keys, where no unsettled branch changed one.
pub fn dump<D: Disk, U: RecoveryUnits, E: Emit>(
    stored: &mut Stored<D, U>,
    name: &FileName,
    out: &mut E,
) -> Result<(), Down>
    requires order { IsInOrder (U.state stored.old.units) stored.old.volume }
    requires early { IsEarly stored.old.volume }
    ensures place { E.place out.new ≡ E.place out.old }
    ensures serves { ServesFile result (service (said.Dump name.now)) (stored_of U.state stored.old) (stored_of U.state stored.new) (E.shows out.old) (E.shows out.new) }
{
    the_laws();
    let Some((file, head)) = find_file(stored, name) else {
        out.emit(&Form::FileNotFound);
        return Ok(());
    };
    if let Some(serial) = stored.units.changed_by(file) {
        out.emit(&Form::FileLocked(serial));
        return Ok(());
    }
    show_records(stored, &head, out)
}

// Shows the records of a file and their number. Each walk to the next record begins where the last one was found.
fn show_records<D: Disk, U: RecoveryUnits, E: Emit>(
    stored: &mut Stored<D, U>,
    head: &FileHead,
    out: &mut E,
) -> Result<(), Down>
    requires order { IsInOrder (U.state stored.old.units) stored.old.volume }
    requires there { (f : ℕ) × (head_at stored.old.volume.catalog.heads f ≡ Some head.now) }
    ensures same { OnOk result (SameStored (stored_of U.state stored.old) (stored_of U.state stored.new)) }
    ensures catalog { stored.new.volume.catalog ≡ stored.old.volume.catalog }
    ensures units { U.state stored.new.units ≡ U.state stored.old.units }
    ensures in_doubt { map serial_of stored.new.room.in_doubt.items ≡ map serial_of stored.old.room.in_doubt.items }
    ensures disk { stored.new.volume.store.disk ≡ answered result stored.old.volume.store.disk }
    ensures pool { stored.new.volume.store.pool ≡ stored.old.volume.store.pool }
    ensures place { E.place out.new ≡ E.place out.old }
    ensures since { Since (E.shows out.old) (E.shows out.new) }
    ensures replies { RepliesIf result (E.shows out.old) (E.shows out.new) }
    ensures shows { (content : List (List ℕ)) (m : Records) → stored.old.volume.store.current ≡ Some content → IsFile head.now → IsLaidOut head.now content → length (entries m) ≤ 4294967295 → ((k : KeySaid) → get m k ≡ map_of head.now content k) → Shows result m (E.shows out.old) (E.shows out.new) }
{
    the_laws();
    let mut after = None;
    let mut place = Place::first();
    let mut count: u32 = 0;
    while count < u32::MAX {
        let mut key = Key::End;
        match next_record_from(
            &mut stored.volume,
            head,
            after.as_ref(),
            &mut place,
            &mut key,
            &mut stored.room.found,
        ) {
            Err(down) => return Err(down),
            Ok(false) => {
                out.emit(&Form::NormalCount(u64::from(count)));
                return Ok(());
            }
            Ok(true) => {
                out.emit(&Form::Record(key, &stored.room.found));
                after = Some(key);
                count += 1;
            }
        }
    }
    out.emit(&Form::NormalCount(u64::from(count)));
    Ok(())
}
