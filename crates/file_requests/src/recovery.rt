//! Recoveries of files.
ghost use Rattle.std.specs.Prelude.{◌≡◌, ◌≤◌, IfOk, IfErr, OnErr, Some};
ghost use Rattle.file_recoveries.specs.Causes.{way_of as way_said};
ghost use Rattle.script_lang.specs.Statements.{recovery_of};
ghost use Rattle.script_lang.specs.script_model.Statements as said;
ghost use Rattle.file_images.specs.run_model.Answers.{service, way_of as model_way};
ghost use Rattle.recovery_units.specs.State.{IsEarly, IsInOrder};
ghost use Rattle.node_standing.specs.node_table.Code.{stored_of};
ghost use Rattle.file_requests.specs.Recovering.{AnswersRecovery, HasTimes, Recovers};
ghost use Rattle.node_standing.specs.Moments.{CanTell};

use crate::finding::find_file;
use crate::law::the_laws;
use block_disk::Disk;
use careful_write::Down;
use file_recoveries::{RecoverErr, Way};
use node_files::blocks_are_whole;
use node_standing::Stored;
use recovered_nodes::recover as recover_file;
use recovery_units::RecoveryUnits;
use script_lang::Recovery;
use std::alloc::Global;
use transcript::{Emit, Form};
use vms_base::{FileName, Moment};

/// How a request came to an end that takes memory.
#[derive(Clone, Copy, Debug, Drop)]
pub enum Reply {
    /// It was answered.
    Told,
    /// Memory was missing, which is not told yet.
    NoMemory,
}

// The way of a recovery that a statement asks for.
fn way_of(recovery: Recovery) -> Way
    ensures { way_said result ≡ model_way (recovery_of recovery) }
{
    match recovery {
        Recovery::Forward(until) => Way::Forward(until),
        Recovery::Backward(until) => Way::Backward(until),
    }
}

// Shows why a file was not recovered, where the disk is up and memory was there.
fn tell<E: Emit>(cause: RecoverErr, way: Way, out: &mut E) -> Result<Reply, Down>
    requires times { HasTimes way cause }
    ensures place { E.place out.new ≡ E.place out.old }
    ensures tells { AnswersRecovery cause way result (E.shows out.old) (E.shows out.new) }
{
    match cause {
        RecoverErr::Down(down) => return Err(down),
        RecoverErr::Memory => return Ok(Reply::NoMemory),
        RecoverErr::NoJournal => out.emit(&Form::NoJournal),
        RecoverErr::NoSave => out.emit(&Form::NoSave),
        RecoverErr::InUse(serial) => out.emit(&Form::FileLocked(serial)),
        RecoverErr::Early { until, save } => out.emit(&Form::TooEarly(until, save)),
        RecoverErr::Span { needed, first } => match way {
            Way::Forward(_) => out.emit(&Form::PositionsMissing(needed, first)),
            Way::Backward(_) => out.emit(&Form::MomentsMissing(Moment(needed), Moment(first))),
        },
        RecoverErr::Full { free, needed } => out.emit(&Form::VolumeFull(u64::from(free), needed)),
    }
    Ok(Reply::Told)
}

/// RECOVER: a file becomes what its save and its journal of after images make of it, or what its journal of before images leaves of what stands. Where memory
/// is missing nothing is shown, and all is as it was but for reads.
pub fn recover<D: Disk, U: RecoveryUnits, E: Emit>(
    alloc: Global,
    stored: &mut Stored<D, U>,
    name: &FileName,
    recovery: Recovery,
    out: &mut E,
) -> Result<Reply, Down>
    requires order { IsInOrder (U.state stored.old.units) stored.old.volume }
    requires early { IsEarly stored.old.volume }
    requires times { CanTell (recovery_of recovery) }
    ensures place { E.place out.new ≡ E.place out.old }
    ensures recovers { Recovers result (service (said.Recover name.now (recovery_of recovery))) (stored_of U.state stored.old) (stored_of U.state stored.new) (E.shows out.old) (E.shows out.new) }
{
    the_laws();
    let Some((file, _)) = find_file(stored, name) else {
        out.emit(&Form::FileNotFound);
        return Ok(Reply::Told);
    };
    let user = stored.units.changed_by(file);
    blocks_are_whole(stored.volume.store());
    let way = way_of(recovery);
    let outcome = recover_file(alloc, &mut stored.volume, file, way, user);
    blocks_are_whole(stored.volume.store());
    match outcome {
        Ok(count) => {
            out.emit(&Form::NormalCount(count));
            Ok(Reply::Told)
        }
        Err(cause) => tell(cause, way, out),
    }
}
