//! Definitions of the run: its world, what each task of a node answers and does, the steps of nodes and of the world, and legal transcripts.
#![tactic(auto)]

ghost use Rattle.run_model.specs.Rows.{ChangeIsInJournal, RestartUndoes, LockedRecordIsRefused, ChangeWithoutLabel, StoppedChangeIsGone, TakenChangeIsUndone, TakenCommitIsTold, LostCommitIsUndone, FileIsFull};
ghost use Rattle.run_model.specs.StepLaws.{FailurePutsDown, IsDetermined, NodeStepsAreSteps, RefusalsLeaveWorld, SuccessIsGiven};
ghost use Rattle.run_model.specs.ManagerRows.{OnePhaseCommits, OnePhaseIsVetoed, PreparedManagerIsTold, CommitWaitsForManager, RepliesFitEvents, AbortIsToldToManagers, EightManagersJoin, BranchManagerIsTold, BranchManagerLeaves, BranchIsVetoed};
ghost use Rattle.run_model.specs.Rows.{BothCommit, DoubtIsResolved, AbortIsPresumed, MissingBranchAborts, TimeRunsOut, LostLinkAborts, SettlingAsks, SettlingBoots};

/// Worked scripts show what they are to show. Of one node: a change in the journal, and an empty journal behind its commitment; a restart that
/// undoes; a record that another branch has put; changes without a label; stops in a change and in a commitment, taken and not; a file with too few
/// buckets; and a transaction whose time runs out. Of two: a transaction that is committed at both, and one whose branch was in doubt; an abort that
/// is presumed; a branch that is missing; a link that fails; and a settling that asks, and one that boots.
pub fn worked_scripts_show()
    ensures journal { ChangeIsInJournal }
    ensures restart { RestartUndoes }
    ensures locked { LockedRecordIsRefused }
    ensures alone { ChangeWithoutLabel }
    ensures stopped { StoppedChangeIsGone }
    ensures taken { TakenChangeIsUndone }
    ensures told { TakenCommitIsTold }
    ensures lost { LostCommitIsUndone }
    ensures full { FileIsFull }
    ensures due { TimeRunsOut }
    ensures committed { BothCommit }
    ensures resolved { DoubtIsResolved }
    ensures presumed { AbortIsPresumed }
    ensures missing { MissingBranchAborts }
    ensures unlinked { LostLinkAborts }
    ensures asked { SettlingAsks }
    ensures booted { SettlingBoots }
{}

/// Worked scripts with resource managers show what they are to show. Of one node: a manager that decides alone, and one that vetoes; one that is prepared and
/// told of the commitment; a commitment that waits for its manager over a fall; each reply to each event; an abort; and eight managers, of which there are nine.
/// Of two: a branch whose manager is prepared, one whose manager has no interest in the outcome, and one whose manager vetoes.
pub fn manager_scripts_show()
    ensures one_phase { OnePhaseCommits }
    ensures one_phase_veto { OnePhaseIsVetoed }
    ensures prepared { PreparedManagerIsTold }
    ensures waiting { CommitWaitsForManager }
    ensures replies { RepliesFitEvents }
    ensures aborted { AbortIsToldToManagers }
    ensures eight { EightManagersJoin }
    ensures branch { BranchManagerIsTold }
    ensures leaving { BranchManagerLeaves }
    ensures vetoed { BranchIsVetoed }
{}

/// What refuses a statement at once it is told alone. A task that is refused, other than by a failure of a disk, shows its refusal alone: the first
/// cause that applies, or that memory is missing, where it may be. It leaves the world; or, where what the disk has or a quota refused it once its
/// disk was made to run again, the world that there is from then on. A clock that is set and a link that fails are refused at once or not at all. A
/// settling that is refused leaves a world in which a node refuses a task so, or in which a coordinator is not there.
pub fn refusals_leave_world()
    ensures { RefusalsLeaveWorld }
{}

/// A statement that ended with a failure of a disk showed that its node went down, and the node is down. The count of such failures rose. The node is the
/// statement's, where that is one task.
pub fn failure_puts_down()
    ensures { FailurePutsDown }
{}

/// A task that a cause refuses before its disk is read is told that cause. One that no such cause refuses is refused by what its disk has or by a quota, or
/// succeeds, where no disk fails and memory is not missing. Then no statement ends with a failure.
pub fn success_is_given()
    ensures { SuccessIsGiven }
{}

/// What a node may show and do for a task is what the part may that is this task, and what the statement may show and do that is this task alone, in a world
/// that has the node; and it may nothing else. What refuses a statement at once it may be told, and leave the world.
pub fn node_steps_are_steps()
    ensures { NodeStepsAreSteps }
{}

/// Where no disk fails, a transcript is a function of its script, its opening, and where memory was missing.
pub fn transcript_is_determined()
    ensures { IsDetermined }
{}
