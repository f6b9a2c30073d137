//! What a file is marked with.
ghost use Rattle.std.specs.Prelude.{◌≡◌, ◌≤◌, ◌<◌, false, IfOk, IfErr, Some};
ghost use Rattle.script_lang.specs.script_model.Statements as said;
ghost use Rattle.script_lang.specs.Statements.{setting_of, side_of};
ghost use Rattle.file_images.specs.run_model.Answers.{service};
ghost use Rattle.directory_model.specs.Files.{head_at};
ghost use Rattle.directory_model.specs.Laws.{ended_head, marked};
ghost use Rattle.recovery_units.specs.State.{IsEarly, IsInOrder};
ghost use Rattle.node_standing.specs.node_table.Code.{stored_of};
ghost use Rattle.file_requests.specs.Serving.{ServesFile};
ghost use Rattle.file_requests.specs.Settings.{AreLow, IsLowestRun, LacksBlocks, LacksRun, SetsHead, asks_for_none as asks_said, begun_at};

use crate::finding::find_file;
use crate::law::the_laws;
use block_disk::Disk;
use careful_write::Down;
use file_base::FileHead;
use journal_store::renew;
use node_files::write_head;
use node_standing::Stored;
use recovery_units::RecoveryUnits;
use script_lang::{Setting, Side};
use transcript::{Emit, Form};
use vms_base::FileName;
use volume::Volume;

/// Too few free blocks stand in a row.
#[derive(Clone, Copy, Drop)]
pub(crate) struct LongestRun {
    pub free: u32,
    pub need: u32,
}

/// The lowest run of so many free blocks; else how long the longest one is.
pub(crate) fn run_for<D: Disk>(volume: &Volume<D>, need: u32) -> Result<u32, LongestRun>
    requires some { 1 ≤ need }
    ensures run { IfOk result (IsLowestRun volume.now.catalog need) }
    ensures need { IfErr result (λ e. e.need ≡ need) }
    ensures lacks { IfErr result (λ e. LacksRun volume.now.catalog need e.free) }
{
    let free = volume.longest_free();
    if free < need {
        return Err(LongestRun { free, need });
    }
    let Some(start) = volume.free_run(need) else {
        unreachable!()
    };
    Ok(start)
}

// Whether a setting asks for a journal of no blocks.
fn asks_for_none(setting: Setting) -> bool
    ensures { result ≡ asks_said (setting_of setting) }
{
    match setting {
        Setting::Images(_, blocks) => blocks == 0,
        _ => false,
    }
}

// The head of a file whose journal of a side begins anew in these blocks. One of before images tells of the time from the greatest moment on.
fn with_images<D: Disk>(
    volume: &Volume<D>,
    head: &FileHead,
    side: Side,
    start: u32,
    blocks: u32,
) -> FileHead
    requires low { AreLow head.now }
    ensures { result ≡ begun_at (side_of side) start blocks volume.now.catalog.home.greatest_moment head.now }
{
    let mut new = *head;
    match side {
        Side::AfterImages => {
            new.marks.ai = true;
            new.ai.start = start;
            new.ai.blocks = blocks;
            renew(&mut new.ai);
        }
        Side::BeforeImages => {
            new.marks.bi = true;
            new.bi.start = start;
            new.bi.blocks = blocks;
            renew(&mut new.bi);
            new.bi_since = volume.home().greatest_moment;
        }
    }
    new
}

// The head of a file whose journal of a side ends: its blocks are free, and its positions stay.
fn without_images(head: &FileHead, side: Side) -> FileHead
    ensures { result ≡ ended_head (side_of side) head.now }
{
    let mut new = *head;
    match side {
        Side::AfterImages => {
            new.marks.ai = false;
            new.ai.start = 0;
            new.ai.blocks = 0;
        }
        Side::BeforeImages => {
            new.marks.bi = false;
            new.bi.start = 0;
            new.bi.blocks = 0;
        }
    }
    new
}

// The head of a file that is marked for recovery units, or no more.
fn with_units(head: &FileHead, units: bool) -> FileHead
    ensures { result ≡ marked units head.now }
{
    let mut new = *head;
    new.marks.ru = units;
    new
}

// The head of a file with a setting; or no run of free blocks is as long as its journal.
fn head_with<D: Disk>(
    volume: &Volume<D>,
    head: &FileHead,
    setting: Setting,
) -> Result<FileHead, LongestRun>
    requires low { AreLow head.now }
    requires some { asks_said (setting_of setting) ≡ false }
    ensures sets { IfOk result (SetsHead (setting_of setting) volume.now.catalog head.now) }
    ensures lacks { IfErr result (λ e. LacksBlocks (setting_of setting) volume.now.catalog e.need e.free) }
{
    match setting {
        Setting::RecoveryUnits => Ok(with_units(head, true)),
        Setting::NoRecoveryUnits => Ok(with_units(head, false)),
        Setting::Images(side, blocks) => match run_for(volume, blocks) {
            Err(run) => Err(run),
            Ok(start) => Ok(with_images(volume, head, side, start, blocks)),
        },
        Setting::NoImages(side) => Ok(without_images(head, side)),
    }
}

/// SET_FILE: a file is marked for recovery units or for images, whose journal gets the lowest free run of its blocks; or it is marked no more.
pub fn set_file<D: Disk, U: RecoveryUnits, E: Emit>(
    stored: &mut Stored<D, U>,
    name: &FileName,
    setting: Setting,
    out: &mut E,
) -> Result<(), Down>
    requires order { IsInOrder (U.state stored.old.units) stored.old.volume }
    requires early { IsEarly stored.old.volume }
    ensures place { E.place out.new ≡ E.place out.old }
    ensures serves { ServesFile result (service (said.SetFile name.now (setting_of setting))) (stored_of U.state stored.old) (stored_of U.state stored.new) (E.shows out.old) (E.shows out.new) }
{
    the_laws();
    let Some((file, head)) = find_file(stored, name) else {
        out.emit(&Form::FileNotFound);
        return Ok(());
    };
    if asks_for_none(setting) {
        out.emit(&Form::BadParameter);
        return Ok(());
    }
    if let Some(serial) = stored.units.changed_by(file) {
        out.emit(&Form::FileLocked(serial));
        return Ok(());
    }
    match head_with(&stored.volume, &head, setting) {
        Err(LongestRun { free, need }) => {
            out.emit(&Form::VolumeFull(u64::from(free), u64::from(need)));
            Ok(())
        }
        Ok(new) => match write_head(&mut stored.volume, file, &new) {
            Err(down) => Err(down),
            Ok(()) => {
                out.emit(&Form::Normal);
                Ok(())
            }
        },
    }
}
