//! What becomes of branches that voted.

ghost use Rattle.run_laws.specs.Laws.{BootedHold, LeavesCausedHold, OthersHold, PreparedHold, ReadOnlyHold, VotesCausedHold};

/// In every legal transcript a branch that is told to be prepared is settled only as it is told: by a message that was sent and is delivered, or in a
/// settling right behind the line that asks for it; no restart, no clock, no link and no request settles it. It is told to be prepared from its line
/// PREPARED on, or where its disk told it at the opening, until a line shows how it ended. A branch that is not the first of its transaction is
/// committed only where it is told to be prepared. A line PREPARED comes only with a delivery of the message that asks for the branch's vote, an
/// END_BRANCH of it or a reply of a resource manager that is no veto, or with a boot of its node or a settling; and a line READONLY only with one of
/// the first three. A BOOT that succeeded, and a settling that booted a node, showed each branch of it that was told to be prepared, as prepared or
/// as the last settlement of its disk; and it showed none as prepared that was not told to be so, but where a failure ended what was to prepare it, a
/// delivery that asks for its vote, an END_BRANCH of it or a reply of a resource manager, or where the disk had a last settlement of it at the
/// opening. And a branch that left as read-only has changed nothing: no change of records was done before with a label that named it.
pub fn votes_bind()
    ensures prepared { PreparedHold }
    ensures others { OthersHold }
    ensures votes { VotesCausedHold }
    ensures leaves { LeavesCausedHold }
    ensures booted { BootedHold }
    ensures leaving { ReadOnlyHold }
{}
