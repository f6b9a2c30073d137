//! Saves of files.
ghost use Rattle.std.specs.Prelude.{◌≡◌, ◌≤◌, ◌<◌, ◌*◌, None, Some};
ghost use Rattle.unit_table.specs.Units.{first_to_change};
ghost use Rattle.script_lang.specs.script_model.Statements as said;
ghost use Rattle.file_images.specs.run_model.Answers.{service};
ghost use Rattle.directory_model.specs.Files.{head_at};
ghost use Rattle.directory_model.specs.Laws.{saved_head};
ghost use Rattle.recovery_units.specs.State.{IsEarly, IsInOrder};
ghost use Rattle.node_standing.specs.node_table.Code.{stored_of};
ghost use Rattle.file_requests.specs.Serving.{ServesFile};
ghost use Rattle.file_requests.specs.Settings.{IsLowestRun, SavesFile, save_at};

use crate::finding::find_file;
use crate::law::the_laws;
use crate::settings::{LongestRun, run_for};
use block_disk::Disk;
use careful_write::Down;
use file_base::{FileHead, Save};
use node_files::{copy_records, write_head};
use node_standing::Stored;
use recovery_units::RecoveryUnits;
use transcript::{Emit, Form};
use vms_base::{FileName, Moment};

// The head of a file that is saved from this block on, at the position of its after images and at the greatest moment.
fn with_save(head: &FileHead, start: u32, moment: Moment) -> FileHead
    ensures { result ≡ saved_head (save_at start moment head.now) head.now }
{
    let mut new = *head;
    new.marks.save = true;
    new.save = Save {
        start,
        alloc: head.alloc,
        position: head.ai.end,
        moment,
        used: head.used,
        root: head.root,
        levels: head.levels,
        count: head.count,
    };
    new
}

/// BACKUP: a copy of a file's buckets in the lowest free run of as many blocks, with what stood before it as its save until then.
pub fn backup<D: Disk, U: RecoveryUnits, E: Emit>(
    stored: &mut Stored<D, U>,
    name: &FileName,
    out: &mut E,
) -> Result<(), Down>
    requires order { IsInOrder (U.state stored.old.units) stored.old.volume }
    requires early { IsEarly stored.old.volume }
    ensures place { E.place out.new ≡ E.place out.old }
    ensures serves { ServesFile result (service (said.Backup name.now)) (stored_of U.state stored.old) (stored_of U.state stored.new) (E.shows out.old) (E.shows out.new) }
{
    the_laws();
    let Some((file, head)) = find_file(stored, name) else {
        out.emit(&Form::FileNotFound);
        return Ok(());
    };
    if let Some(serial) = stored.units.changed_by(file) {
        out.emit(&Form::FileLocked(serial));
        return Ok(());
    }
    let blocks = head.alloc * u32::from(head.bucket);
    match run_for(&stored.volume, blocks) {
        Err(LongestRun { free, need }) => {
            out.emit(&Form::VolumeFull(u64::from(free), u64::from(need)));
            Ok(())
        }
        Ok(start) => save_file(stored, file, &head, start, out),
    }
}

// Copies a file's buckets to a free run, and then writes its head, in a group of its own.
fn save_file<D: Disk, U: RecoveryUnits, E: Emit>(
    stored: &mut Stored<D, U>,
    file: u8,
    head: &FileHead,
    start: u32,
    out: &mut E,
) -> Result<(), Down>
    requires order { IsInOrder (U.state stored.old.units) stored.old.volume }
    requires there { head_at stored.old.volume.catalog.heads file ≡ Some head.now }
    requires unchanged { first_to_change file (U.state stored.old.units).begun ≡ None }
    requires early { IsEarly stored.old.volume }
    requires run { IsLowestRun stored.old.volume.catalog (head.now.alloc * head.now.bucket) start }
    ensures place { E.place out.new ≡ E.place out.old }
    ensures saves { SavesFile result file head.now start (stored_of U.state stored.old) (stored_of U.state stored.new) (E.shows out.old) (E.shows out.new) }
{
    the_laws();
    match copy_records(&mut stored.volume, head, start) {
        Err(down) => return Err(down),
        Ok(()) => {}
    }
    let moment = stored.volume.home().greatest_moment;
    let new = with_save(head, start, moment);
    match write_head(&mut stored.volume, file, &new) {
        Err(down) => Err(down),
        Ok(()) => {
            out.emit(&Form::NormalSave(head.ai.end, moment));
            Ok(())
        }
    }
}
