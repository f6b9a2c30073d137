// How a branch is settled by its node: commits and aborts.
ghost use Rattle.std.specs.Prelude.{◌≡◌, ◌+◌, ◌≤◌, ◌++◌, map, length, None, true};
ghost use Rattle.commit_protocol.specs.Table.{cut, is_first as is_first_of};
ghost use Rattle.commit_protocol.specs.Rows.{commits, commits_if_all, aborts, aborts_telling, refuses, undone_quietly, abort_running};
ghost use Rattle.vms_base.specs.Outcomes.{reason_of};
ghost use Rattle.tm_types.specs.Parts.{child_of};
ghost use Rattle.tm_types.specs.Branches.{branch_of};
ghost use Rattle.tm_table.specs.Doing.{does, ended_if, HasRoom, IsThere};

use crate::places::has_key;
use crate::table::Table;
use tm_types::{BranchState, ChildList, owing};
use vms_base::{Kind, Outcome, Reason, RmEvent, Serial};

/// Whether the branch is its transaction's first, which has the transaction's id as its serial.
pub fn is_first(b: &BranchState) -> bool
    ensures { result ≡ is_first_of (branch_of b.now) }
{
    has_key(b, &b.tid, &Serial(b.tid.0))
}

impl Table {
    // All votes are in: the transaction is committed.
    fn commit_all(&mut self, b: &BranchState, shown: bool)
        requires there { IsThere (branch_of b.now).key self.old.tm.table }
        requires room { HasRoom 32 self.old }
        ensures { self.new ≡ does (commits (branch_of b.now) (ended_if shown (branch_of b.now) None)) self.old }
    {
        let yes = b.accepted.yes();
        let holding = b.managers.holding();
        let rec = owing(&b.tid, &b.serial, yes.copy(), holding.copy());
        self.settle(&b.tid, &b.serial, Outcome::Commit, Reason::Aborted, rec);
        self.send_each(Kind::Commit, &b.tid, &yes);
        self.tell_each(RmEvent::Commit, &b.tid, &b.serial, &holding);
        self.show_ended(b, shown, None);
    }

    /// Commits the transaction where no vote of a branch and no reply of a manager is missing.
    pub fn commit_if_all(&mut self, b: &BranchState, shown: bool)
        requires there { IsThere (branch_of b.now).key self.old.tm.table }
        requires room { HasRoom 32 self.old }
        ensures { self.new ≡ does (commits_if_all (branch_of b.now) (ended_if shown (branch_of b.now) None)) self.old }
    {
        if b.accepted.all_voted() && b.managers.all_replied() {
            self.commit_all(b, shown);
        }
    }

    /// Aborts the transaction for this reason, and sends Abort to those of these serials that are to hear of it.
    pub fn abort_telling(&mut self, b: &BranchState, children: &ChildList, reason: Reason)
        requires there { IsThere (branch_of b.now).key self.old.tm.table }
        requires room { HasRoom 32 self.old }
        ensures done { self.new ≡ does (aborts_telling (map child_of children.now) (reason_of reason) (branch_of b.now)) self.old }
        ensures room { length self.new.effects ≤ length self.old.effects + 32 }
        ensures fewer { length self.new.tm.table + 1 ≤ length self.old.tm.table }
        ensures cuts { self.new.tm.table ≡ cut (branch_of b.now).key self.old.tm.table }
    {
        self.settle(&b.tid, &b.serial, Outcome::Abort, reason, None);
        self.send_each(Kind::Abort, &b.tid, &children.told_abort());
        self.tell_each(RmEvent::Abort, &b.tid, &b.serial, &b.managers.interested());
        self.show_ended(b, true, Some(reason));
    }

    /// Aborts the transaction for this reason, and tells those of its accepted serials and managers that are to hear of it.
    pub fn abort(&mut self, b: &BranchState, reason: Reason)
        requires there { IsThere (branch_of b.now).key self.old.tm.table }
        requires room { HasRoom 32 self.old }
        ensures done { self.new ≡ does (aborts (reason_of reason) (branch_of b.now)) self.old }
        ensures room { length self.new.effects ≤ length self.old.effects + 32 }
        ensures fewer { length self.new.tm.table + 1 ≤ length self.old.tm.table }
        ensures cuts { self.new.tm.table ≡ cut (branch_of b.now).key self.old.tm.table }
    {
        self.abort_telling(b, &b.accepted, reason);
    }

    /// Aborts another branch and tells its interested managers, but sends no message.
    pub fn undo_quietly(&mut self, b: &BranchState, reason: Reason)
        requires there { IsThere (branch_of b.now).key self.old.tm.table }
        requires room { HasRoom 32 self.old }
        ensures { self.new ≡ does (undone_quietly (reason_of reason) (branch_of b.now)) self.old }
    {
        self.settle(&b.tid, &b.serial, Outcome::Abort, reason, None);
        self.tell_each(RmEvent::Abort, &b.tid, &b.serial, &b.managers.interested());
    }

    /// Aborts a branch by its own node before it is prepared: it sends No, and its interested managers are told.
    pub fn refuse(&mut self, b: &BranchState, reason: Reason)
        requires there { IsThere (branch_of b.now).key self.old.tm.table }
        requires room { HasRoom 32 self.old }
        ensures done { self.new ≡ does (refuses (reason_of reason) (branch_of b.now)) self.old }
        ensures room { length self.new.effects ≤ length self.old.effects + 32 }
        ensures fewer { length self.new.tm.table + 1 ≤ length self.old.tm.table }
        ensures cuts { self.new.tm.table ≡ cut (branch_of b.now).key self.old.tm.table }
    {
        self.settle(&b.tid, &b.serial, Outcome::Abort, reason, None);
        self.send_up(Kind::No, &b.tid, &b.serial);
        self.tell_each(RmEvent::Abort, &b.tid, &b.serial, &b.managers.interested());
    }

    /// Aborts an undecided transaction, or another branch that is not prepared.
    pub fn abort_running(&mut self, b: &BranchState, reason: Reason)
        requires there { IsThere (branch_of b.now).key self.old.tm.table }
        requires room { HasRoom 32 self.old }
        ensures done { self.new ≡ does (abort_running (reason_of reason) (branch_of b.now)) self.old }
        ensures room { length self.new.effects ≤ length self.old.effects + 32 }
        ensures fewer { length self.new.tm.table + 1 ≤ length self.old.tm.table }
        ensures cuts { self.new.tm.table ≡ cut (branch_of b.now).key self.old.tm.table }
    {
        if is_first(b) {
            self.abort(b, reason);
        } else {
            self.refuse(b, reason);
        }
    }
}
