//! What follows from the lines of a run alone, and what a run promises of its transcript.
#![tactic(auto)]

pub mod dumps;
pub mod endings;
pub mod owing;
pub mod promises;
pub mod restarts;
pub mod votes;

ghost use Rattle.run_laws.specs.Laws.{DirectsHold, DownsAreFailures, LastsAreSettled, NewHold, SettlesOnce, ReasonsComeSo, SettlementsStay, ShownAreSettled, UnmadeAreSaid};
ghost use Rattle.run_laws.specs.SaidLaws.{SaidIsSo};

/// The refusals NOSUCHNODE, NODEDOWN, NODEUP, VOLINUSE, NOINIT, NOSUCHMSG and LABEL follow from the lines before: which nodes are up, for which an
/// INIT failed and none has succeeded since, whether a BOOT succeeded or was ended by a failure of its disk or a settling was asked for, which
/// messages were sent, and which labels were made, for which nodes. A statement is refused so just where those lines say it. Of the refusals of a
/// settling only one is said: where it is refused for the volume of a node, the lines before say that an INIT failed for that node and none has
/// succeeded since.
pub fn lines_tell_refusals()
    ensures refusals { SaidIsSo }
    ensures unmade { UnmadeAreSaid }
{}

/// In every legal transcript of nodes that were down at first, what is settled stays so, at whichever of its statements and restarts: a committed
/// branch is never undone, and an aborted one is never committed. What a line shows to be committed or aborted in its statement, with its reason and
/// its moment, is settled so then and for good; and so is what a boot shows as the last settlement of its disk, unless the disk had that before the
/// first line and no INIT has made its volume anew since. No branch of a node is settled twice, and each settlement comes at a later moment than all
/// before it, also over restarts and where one was under way at a fall.
pub fn settlements_last()
    ensures stay { SettlementsStay }
    ensures shown { ShownAreSettled }
    ensures lasts { LastsAreSettled }
    ensures once { SettlesOnce }
{}

/// In every legal transcript a change without a label that was done showed that a transaction of its own is committed, and nothing besides, and it is
/// so from then on and for good. No id is told twice: that of a transaction, of an identifier for a branch, of a branch, or of such a change. The
/// reason of an abort comes only with a statement that it names: a time that ran out with CLOCK, a link that failed with LINKDOWN, a branch that is
/// missing with END_TRANS or a delivery, a veto with a delivery or an ACK_EVENT, a fall with BOOT or SETTLE, and a request with ABORT_TRANS, a
/// delivery or SETTLE.
pub fn transactions_end()
    ensures directs { DirectsHold }
    ensures new { NewHold }
    ensures reasons { ReasonsComeSo }
{}

/// Whichever statement shows that a node went down, its disk failed or was stopped in that statement, and the node is down behind it.
pub fn failures_are_shown()
    ensures { DownsAreFailures }
{}
