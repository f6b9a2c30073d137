//! All that is proved of the promises, in one place.

ghost use Rattle.run_laws.specs.Anew.{InitsForget};
ghost use Rattle.run_laws.specs.Laws.{AgreedPromisesAreKept, PromisesAreKept};

/// Every legal transcript of nodes that were down at first keeps the promises of `KeptPromises`: those of `endings::requests_end` and
/// `endings::settlements_have_causes` on what ends a transaction, those of `transactions_end` on changes without a label and on ids, those of
/// `restarts::restarts_tell_outcomes` on failures and restarts, those of `votes::votes_bind` on branches that are prepared or left as read-only, and
/// that of `settlements_last` that no branch is settled twice. A line that a node is down, and an answer that a disk failed or was stopped, come only
/// where the count of that cause rose in the statement, as `failures_are_shown` has it; and but for CLOCK and LINKDOWN such a line ends its
/// statement, with that answer. Besides, END_TRANS, ABORT_TRANS and a change without a label show, line by line, what they settle and messages of
/// their own branches; a BOOT shows the last settlement of its disk before all else; and a fall aborts only branches that began in the run or stood
/// unsettled on their disk at its opening, also where a boot alone shows it. Where the images agree with which a run begins, as its lines tell them,
/// aborts stand besides and dumps show what the lines tell (`dumps::aborts_stand`). A node whose volume is made before anything boots it may have had
/// anything on its disk: the same entries lead from any other such node to the same world.
pub fn promises_hold()
    ensures kept { PromisesAreKept }
    ensures forget { InitsForget }
    ensures agreed { AgreedPromisesAreKept }
{
    run_agreement::branches_agree();
    run_agreement::outcomes_stay();
    run_agreement::settling_leaves_none();
}
