//! Each legal transcript of several nodes is a run of the commit protocol, so that all branches of a transaction are settled alike; and what a settling leaves.
//!
//! The crate has definitions and laws, and nothing that runs. `specs/Seen` has what the protocol sees of a node, `specs/Following` what it is to follow the
//! protocol, and `specs/Laws` runs from images that agree, and their laws.
#![tactic(auto)]

ghost use Rattle.run_agreement.specs.Laws.{AreRuns, Agree, SettleAlike, CommittedAreOfCommitted, LeaveAgreement, StaySettled, RestingAreWhole, EndsCommit, SettlingLeavesNone, SettlingEnds, RunsBegin, RunsTellNoMore, UnusedAreTold, UsedTellNoMore};

/// Every legal transcript of several nodes is a run of the commit protocol, whatever turns out of the acts that were under way where nodes fell: the disk of a
/// node that is up tells its table all along, and one that is down has what its fall left. So the world of the protocol agrees, branches are settled
/// alike, a committed branch is of a committed transaction, and the images that the run leaves agree again.
pub fn branches_agree()
    ensures runs { AreRuns }
    ensures agree { Agree }
    ensures alike { SettleAlike }
    ensures committed { CommittedAreOfCommitted }
    ensures images { LeaveAgreement }
{
    commit_protocol::agreement();
}

/// What is settled stays so; where a world is at rest each accepted branch of a committed transaction is committed or read-only; and an END_TRANS
/// that is answered with its success has committed its transaction for good.
pub fn outcomes_stay()
    ensures stay { StaySettled }
    ensures whole { RestingAreWhole }
    ensures ends { EndsCommit }
{
    commit_protocol::agreement();
}

/// A settling that is answered with its success leaves each node up, and no branch of any transaction unsettled. It is answered otherwise only where
/// the count of failures or of stops of a disk rose in it, and the line of its node stands last before the answer, that it is down for that cause; or
/// the first node that is down behind it was never up and memory is missing, or cannot be booted; or the coordinator of a prepared branch is not in
/// the rack.
pub fn settling_leaves_none()
    ensures none { SettlingLeavesNone }
    ensures ends { SettlingEnds }
{
    commit_protocol::outcomes();
    run_model::failure_puts_down();
}

/// Each legal transcript, from nodes of different names, has a base: the world after the last INIT that was asked while no node was in use, or the one before
/// the first line. Its entries up to there lead to the base, and the others are a run from there on. So it is where something is known of each disk, or an
/// INIT of the transcript replaces what that had, one that succeeds or that a failure ends.
pub fn runs_begin()
    ensures begin { RunsBegin }
{}

/// As long as no node may be in use a world is such a base, and the images that it begins with are those that the lines tell: a node has the image of
/// its disk before the first line, or that of a new volume where an INIT of it was answered with its success, or none where a failure ended one. Once
/// a node may be in use each INIT is refused, and no line tells of another image.
pub fn images_are_told()
    ensures unused { UnusedAreTold }
    ensures used { UsedTellNoMore }
    ensures runs { RunsTellNoMore }
{}
