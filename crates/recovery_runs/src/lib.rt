//! What holds of recoveries in whole runs. The crate has definitions and laws, and nothing that runs.
#![tactic(auto)]

ghost use Rattle.recovery_runs.specs.LastImages.{ActsKeepLastImages, FewerLastImages, LastImagesAreValues, MoreLastImages, StillFilesStand};
ghost use Rattle.recovery_runs.specs.Promises.{RecoveryPromisesHold};
ghost use Rattle.recovery_runs.specs.Runs.{CommittedOnly, FilesStayTold, FilesStayWhole, LastImagesHold, LeftFilesHold, NextFilesHold, NextFilesWhole, NextLastImagesHold, NoFileHasGaps, RecoveriesHold, ShownRecoveriesHold};

/// Where aborts that a fall cut short stand, a run commits no branch of which one was.
pub fn committed_alone_may()
    ensures { CommittedOnly }
{}

/// Let each file that a run finds, on a disk that no INIT of it replaces, agree with its journals and its save, and with the branches that may commit in it. Then
/// recovery can tell of each file in each world of the run, over all falls and restarts, but on a disk whose INIT failed; so each recovery that nothing refuses, at a node that is up, leaves the records of its moment,
/// and what the run leaves is what the next run may find, with those branches that may yet commit then, whatever turns out of an act that is under way.
pub fn recoveries_hold()
    ensures told { FilesStayTold }
    ensures recoveries { RecoveriesHold }
    ensures left { LeftFilesHold }
    ensures next { NextFilesHold }
{}

/// Let no sequential file that a run finds have a gap. Then none has in any world of the run, neither as it stands nor as it was committed, over all falls and
/// restarts, but on a disk whose INIT failed. Where besides the files agree, and recoveries were to give none with a gap, no recovery is to give one, of this run and of the next.
pub fn files_have_no_gaps()
    ensures gapless { NoFileHasGaps }
    ensures whole { FilesStayWhole }
    ensures next { NextFilesWhole }
{}

/// Where the last after images of the unsettled branches that may commit are the values that stand, over all entries of the journal, with a save or without, they
/// are so behind each act of the world, also behind a part of an abort of a branch that may not commit. So they are of the branches that may commit in a run, where
/// they are of those that may yet commit when it begins; of fewer branches, where they are of all; and in a file that no unsettled branch changed.
pub fn acts_keep_last_images()
    ensures values { LastImagesAreValues }
    ensures acts { ActsKeepLastImages }
    ensures more { MoreLastImages }
    ensures fewer { FewerLastImages }
    ensures still { StillFilesStand }
{}

/// Let the files that a run finds agree so with their journals, their saves and the branches that may commit, and let the last after images of those that may yet commit
/// be the values that stand there. Then so are those of the branches that may commit, in each world of the run, over all falls and restarts and aborts that are cut short;
/// and in each file that the next run finds, those of the branches that may yet commit then, whatever turns out of an act that is under way.
pub fn last_images_stand()
    ensures run { LastImagesHold }
    ensures next { NextLastImagesHold }
{}

/// So each recovery that a line shows to have succeeded gave the file just the records of its moment, and showed their number.
pub fn shown_recoveries_hold()
    ensures { ShownRecoveriesHold }
{}

/// What a run promises of its recoveries: such a one gave the records of its moment, where aborts stand that a fall cut short; and each succeeds, or is refused
/// for the cause that its line names, with its numbers, or memory is missing, or the disk of its node fails. Where the images agree with which the run
/// begins, and the files with their journals and saves, that asks for no more than these images. And the files that the run leaves agree again, and no
/// sequential file has a gap there, as none has that the run finds; and last after images are the values that stand there, as they are in what the run finds.
pub fn recovery_promises_hold()
    ensures { RecoveryPromisesHold }
{
    run_laws::promises::promises_hold();
}
