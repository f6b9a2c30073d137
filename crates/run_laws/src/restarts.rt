//! What restarts tell of transactions.

ghost use Rattle.run_laws.specs.Laws.{AskedHold, BootsShowLastHold, CausedHold, InterruptedHold, LastsHold, RestartsHold, ShownHold};

/// In every legal transcript each settlement is of a branch of its node, and is shown as it is: in its statement, or by a later boot as the last of
/// the disk; but for the last of a node that is down, which its next boot shows. What is shown as the last of a disk is so: it is shown by a boot of
/// its node alone, is settled there or was the last at the opening (and no INIT has made the volume anew since, here and below), and no settlement of
/// that node is later that was shown before. A BOOT that
/// succeeded, and a settling that booted a node, showed one of it, where a settlement of that node was shown before; and decide each transaction that
/// was begun there before: where a line has shown by then that its first branch is committed, it is so for good, and else it never is. Where a
/// failure ended an END_TRANS, the first BOOT of its node behind it, or settling, that comes past raising its boot count tells what became of its
/// transaction: it shows as the last settlement that it is committed, and so it is for good; or it does not, and it never is. What a boot shows to be
/// committed was shown before, or a failure ended what was to commit it; or the disk had it as its last at the opening. What one shows to be aborted
/// was shown before, or a failure of its node's disk came in a statement that was to abort it for that reason, which the lines tell as they do of an
/// abort that is shown; or the disk had it as its last at the opening.
pub fn restarts_tell_outcomes()
    ensures shown { ShownHold }
    ensures lasts { LastsHold }
    ensures boots { BootsShowLastHold }
    ensures decided { RestartsHold }
    ensures interrupted { InterruptedHold }
    ensures asked { AskedHold }
    ensures caused { CausedHold }
{}
