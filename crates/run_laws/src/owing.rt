//! What resource managers are owed, and what their vetoes bring about.

ghost use Rattle.run_laws.specs.Owing.{OwedStay, RetellsHold};
ghost use Rattle.run_laws.specs.Vetoing.{VetoesEverywhere, VetoesHold};

/// In every legal transcript a committed record that waits for a resource manager stands in the log of its node and waits for it from then on, over
/// whatever statements, failures of disks and restarts, until the manager replies SS$_FORGET at that node, or its volume may be made anew. So a
/// commitment of which a manager was told as it was declared it is told at each later DECLARE_RM until then: SS$_REMEMBER, FORGET_RM and falls take
/// nothing away.
pub fn commitments_are_owed()
    ensures stay { OwedStay }
    ensures retold { RetellsHold }
{}

/// In every legal transcript an ACK_EVENT that succeeded with SS$_VETO showed that the branch which it names is aborted for it, and it is so from
/// then on and for good. Where the images agree with which a run begins, that aborts the transaction everywhere: no branch of it is committed,
/// where the branch of the veto is the first one or was told to be accepted.
pub fn vetoes_abort()
    ensures aborts { VetoesHold }
    ensures everywhere { VetoesEverywhere }
{}
