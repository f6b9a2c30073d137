// Several branches are aborted, in order of start.
ghost use Rattle.std.specs.Prelude.{◌≡◌, ◌+◌, ◌*◌, ◌<◌, ◌≤◌, ◌++◌, ℕ, map, length, Some, None, IfSome, IfNone};
ghost use Rattle.std.specs.Option.{option_map};
ghost use Rattle.commit_protocol.specs.Rows.{is_late as is_late_of, sweep, is_due, is_cut_off, is_under, is_other};
ghost use Rattle.commit_protocol.specs.Table.{is_first as is_first_of};
ghost use Rattle.vms_model.specs.Transactions.{Timeout, CommFail, SegFail};
ghost use Rattle.vms_base.specs.Outcomes.{reason_of};
ghost use Rattle.tm_types.specs.Parts.{state_of};
ghost use Rattle.tm_types.specs.Branches.{branch_of, moment_of};
ghost use Rattle.tm_table.specs.Doing.{does, IsThere};
ghost use Rattle.tm_table.specs.Choices.{chosen_by, may_abort as may_abort_of, taken as taken_of, swept, HasRoomForAll};

use crate::outcomes::is_first;
use crate::table::Table;
use tm_types::{BranchState, State, same_node};
use vms_base::{Moment, NodeName, Reason};

/// Which branches a sweep aborts.
#[derive(Clone, Copy, Debug, Drop)]
pub enum Choice {
    /// Undecided transactions whose time is over at this moment.
    Due(Moment),
    /// Undecided transactions with an accepted branch at this node that has not voted.
    CutOff(NodeName),
    /// Branches whose coordinator is this node.
    Under(NodeName),
    /// First branches.
    First,
    /// Other branches than first ones.
    Other,
}

fn is_late(now: &Moment, due: &Option<Moment>) -> bool
    ensures { result ≡ is_late_of (moment_of now.now) (option_map moment_of due.now) }
{
    match due {
        Some(due) => due.0 <= now.0,
        None => false,
    }
}

fn chooses(choice: &Choice, b: &BranchState) -> bool
    ensures { result ≡ chosen_by choice.now (branch_of b.now) }
{
    match choice {
        Choice::Due(now) => is_first(b) && is_late(now, &b.due),
        Choice::CutOff(other) => is_first(b) && b.accepted.awaits(other),
        Choice::Under(other) => !is_first(b) && same_node(&b.tid.0.node, other),
        Choice::First => is_first(b),
        Choice::Other => !is_first(b),
    }
}

fn may_abort(state: State) -> bool
    ensures { result ≡ may_abort_of (state_of state) }
{
    !matches!(state, State::Prepared)
}

fn is_taken(choice: &Choice, b: &BranchState) -> bool
    ensures { result ≡ taken_of (chosen_by choice.now) (branch_of b.now) }
{
    chooses(choice, b) && may_abort(b.state)
}

impl Table {
    // Aborts each chosen branch that is not prepared.
    fn sweep(&mut self, reason: Reason, choice: &Choice)
        requires { HasRoomForAll self.old }
        ensures done { self.new ≡ does (sweep (reason_of reason) (chosen_by choice.now) self.old.tm.table) self.old }
        ensures left { self.new.tm.table ≡ swept (chosen_by choice.now) self.old.tm.table }
        ensures room { HasRoomForAll self.new }
    {
        let mut i = 0;
        while let Some(b) = self.copy_at(i) {
            if is_taken(choice, &b) {
                self.abort_running(&b, reason);
            } else {
                i += 1;
            }
        }
    }

    /// Aborts the undecided transactions whose time is over.
    pub fn clock(&mut self, now: &Moment)
        requires { HasRoomForAll self.old }
        ensures { self.new ≡ does (sweep Timeout (is_due (moment_of now.now)) self.old.tm.table) self.old }
    {
        self.sweep(Reason::Timeout, &Choice::Due(*now));
    }

    /// The link to a node is lost: transactions that wait for a vote from it are aborted,
    /// and then the branches whose coordinator it is.
    pub fn link_down(&mut self, other: &NodeName)
        requires { HasRoomForAll self.old }
        ensures { self.new ≡ does (sweep CommFail (is_cut_off other.now) self.old.tm.table ++ sweep CommFail (is_under other.now) self.old.tm.table) self.old }
    {
        self.sweep(Reason::CommFail, &Choice::CutOff(*other));
        self.sweep(Reason::CommFail, &Choice::Under(*other));
    }

    /// Aborts all that is not prepared, first branches first.
    pub fn run_down(&mut self)
        requires { HasRoomForAll self.old }
        ensures { self.new ≡ does (sweep SegFail is_first_of self.old.tm.table ++ sweep SegFail is_other self.old.tm.table) self.old }
    {
        self.sweep(Reason::SegFail, &Choice::First);
        self.sweep(Reason::SegFail, &Choice::Other);
    }
}
