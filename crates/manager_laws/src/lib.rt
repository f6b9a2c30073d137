//! Laws on resource managers, of all legal transcripts.
//!
//! The crate has definitions and laws, and nothing that runs. `specs/Promises` has all of them in one record, with one of `run_laws`.
#![tactic(auto)]

ghost use Rattle.manager_laws.specs.Asking.{PendingAskedHold};
ghost use Rattle.manager_laws.specs.Joined.{JoinedAreDeclared};
ghost use Rattle.manager_laws.specs.Joining.{AtOnceHold, PendingJoinedHold};
ghost use Rattle.manager_laws.specs.Members.{EventsOfMembersHold, RepliesOfMembersHold};
ghost use Rattle.manager_laws.specs.Promises.{ManagerPromisesHold};
ghost use Rattle.manager_laws.specs.Replying.{LeavesHold, RepliesHold};
ghost use Rattle.manager_laws.specs.Telling.{AbortsToldHold, CommitsToldHold, DeclaresHold, RetoldHold};

/// In each world that a legal transcript leads to, each resource manager that has joined an unsettled branch which is not prepared is declared at
/// the branch's node, while that is up. So an event of such a branch to a manager that joined it is shown, by what `table_lines` shows.
pub fn joined_are_declared()
    ensures { JoinedAreDeclared }
{}

/// In every legal transcript a branch is shown to be prepared, to have left as read-only or to be committed only when no reply of a resource manager
/// is missing: each manager that joined it before, by a JOIN_RM that succeeded, has given since a reply that PREPARE or ONEPHASE may have, by an
/// ACK_EVENT that was taken, and not a veto. So it is of a commitment that a boot shows, unless the disk had it before the first line and no INIT has
/// made its volume anew since. Where the branch leaves as read-only, each of them has replied SS$_FORGET.
pub fn replies_come_first()
    ensures replies { RepliesHold }
    ensures leaves { LeavesHold }
{}

/// In every legal transcript an END_TRANS that is answered PENDING names just the resource managers that it asks for their replies: each that it names
/// has the event PREPARE or ONEPHASE among its lines, of the first branch of the transaction, and it shows no event of another manager.
pub fn pending_are_asked()
    ensures { PendingAskedHold }
{}

/// In every legal transcript an END_TRANS that is answered PENDING names just the resource managers that joined the first branch of its transaction: each
/// that it names did so, by a JOIN_RM that succeeded with a label of that branch at its node, and each that did so is named.
pub fn pending_are_joined()
    ensures { PendingJoinedHold }
{}

/// In every legal transcript an END_TRANS that commits at once ends a transaction in which nothing else takes part: no branch was told to have joined it,
/// and no resource manager joined its first branch, by a JOIN_RM that succeeded.
pub fn ends_at_once_alone()
    ensures { AtOnceHold }
{}

/// In every legal transcript what a resource manager is told of the outcome of a branch is its outcome, over all stops and restarts. An event COMMIT
/// stands behind a line that shows the commitment, in its statement or an earlier one, and the branch is committed so for good; or it is shown for a
/// DECLARE_RM, of a branch whose committed record stood on its node's disk before the first line and waited for the manager, where no INIT has made
/// that volume anew since. Of such a record only that it stood there is said. An event ABORT stands in the statement that shows the branch aborted,
/// behind that line, and the branch is aborted so for good. A DECLARE_RM shows nothing but events COMMIT to its manager, of branches of its node.
pub fn outcomes_are_told()
    ensures commits { CommitsToldHold }
    ensures aborts { AbortsToldHold }
    ensures declares { DeclaresHold }
{}

/// In every legal transcript a commitment of which a resource manager was told, by whatever statement, it is told at each later DECLARE_RM of it that
/// succeeds at the branch's node, over all failures and restarts, until a statement has it reply SS$_FORGET there, or may make the volume anew.
pub fn commitments_are_retold()
    ensures { RetoldHold }
{}

/// In every legal transcript resource managers take part only in branches that they joined. A reply of one is taken only for a branch which it joined by
/// a JOIN_RM that succeeded, or of which a record stood on its node's disk before the first line and named the manager, where no INIT has made that
/// volume anew since; and only of such a branch is it told an event, be it PREPARE, ONEPHASE, COMMIT or ABORT.
pub fn members_take_part()
    ensures replies { RepliesOfMembersHold }
    ensures events { EventsOfMembersHold }
{}

/// Every legal transcript keeps the promises of `ManagerPromises`: those of this crate, and that of `run_laws` that a veto aborts its branch.
pub fn manager_promises_hold()
    ensures { ManagerPromisesHold }
{
    run_laws::owing::vetoes_abort();
}
