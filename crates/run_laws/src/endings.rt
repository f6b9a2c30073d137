//! What ends a transaction, as the transcript tells.

ghost use Rattle.run_laws.specs.Laws.{AbortedHold, AbortsHold, CommitmentsHold, EndedComesHold, EndedHold, EndsHold, FailsHold, MissingHold, PendingHold, WaitsHold};

/// In every legal transcript an END_TRANS that was answered with its success showed that the transaction which its label names is committed, and one
/// that was answered with a reason that it is aborted so; and an ABORT_TRANS that was answered with its success showed that the branch which its
/// label names is aborted. An END_TRANS is answered with a reason only where a branch is missing: an identifier was authorised for the transaction,
/// and each branch that was told to join it did so by a delivered Join with another one. It is answered that votes are missing, or replies, only
/// where none is: by each identifier a branch was told to have joined; and then it names just the branches that joined, or else a resource manager.
/// A line ENDED comes where an END_TRANS of its transaction stands before, and
/// behind the line of the settlement that it tells. What they showed is so from then on and for good. And where an END_TRANS was answered that something
/// is missing ENDED does come, in the statement that shows how the first branch is settled and behind that line, unless a boot undoes the branch or a
/// failure puts its node down before.
pub fn requests_end()
    ensures ends { EndsHold }
    ensures fails { FailsHold }
    ensures missing { MissingHold }
    ensures waits { WaitsHold }
    ensures names { PendingHold }
    ensures aborts { AbortsHold }
    ensures ended { EndedHold }
    ensures comes { EndedComesHold }
{}

/// In every legal transcript each line of a commitment and each of an abort has its cause in its statement and the entries before it, and is so from
/// then on and for good. A first branch is committed by an END_TRANS of its transaction where no branch is missing, or by a vote of a branch that
/// joined it since then, or by a reply of a resource manager; another as it is told, by a message that was sent or in a settling; and a change
/// without a label by itself. An abort comes with what its reason names: a request of its branch, an Abort that was sent or asked for, a No of a
/// branch that joined, a veto of a resource manager, an END_TRANS where a branch is missing, a refusal to join, the time with which its transaction
/// began, a link to a node that it needs, or a boot or a settling.
pub fn settlements_have_causes()
    ensures commits { CommitmentsHold }
    ensures undoes { AbortedHold }
{}
