//! What holds of recoveries from run to run, over any number of runs.
//!
//! The crate has definitions and laws, and nothing that runs. `specs/Chains` says which files the next run finds.
#![tactic(auto)]

ghost use Rattle.recovery_chains.specs.Chains.{FilesAgreeAgain, LastImageChainsAgree, LastImagesAgreeAgain, RecoveryChainsAgree};

/// What a legal run leaves, from images and files that agree, the next begins with: its files agree again with their journals, their saves and the branches
/// that may yet commit, and have no gaps. So over any number of runs, one after another, each recovery that a line shows to have succeeded gave the records of its moment.
/// And where, in the files that the first run finds, the last after images of the branches that may yet commit are the values that stand, so they are in those of each.
pub fn files_agree_again()
    ensures again { FilesAgreeAgain }
    ensures chains { RecoveryChainsAgree }
    ensures lasts { LastImagesAgreeAgain }
    ensures last_chains { LastImageChainsAgree }
{
    run_laws::promises::promises_hold();
}
