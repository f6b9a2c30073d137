// The rows of resource managers, and what a branch notes of its work.
ghost use Rattle.std.specs.Prelude.{◌≡◌, ◌+◌, ◌<◌, ◌≤◌, ◌++◌, ◌∷◌, [], map, length, Some, None, true};
ghost use Rattle.commit_protocol.specs.Table.{Ending, find_serial};
ghost use Rattle.commit_protocol.specs.Allowed.{there_is, may_join};
ghost use Rattle.commit_protocol.specs.Rows.{first_reply, branch_reply, reply_state, reply_row, note_row, has_changed, with_manager, is_veto};
ghost use Rattle.vms_base.specs.Ids.{serial_of};
ghost use Rattle.tm_types.specs.Parts.{reply_of};
ghost use Rattle.tm_types.specs.Branches.{branch_of};
ghost use Rattle.tm_table.specs.Doing.{did, does, HasRoom, IsThere};
ghost use Rattle.tm_table.specs.Kept.{Fits};

use crate::outcomes::is_first;
use crate::table::Table;
use tm_types::{BranchState, Manager, State};
use vms_base::{Reason, Reply, RmName, Serial};

fn vetoes(reply: Reply) -> bool
    ensures { result ≡ is_veto (reply_of reply) }
{
    matches!(reply, Reply::Veto)
}

impl Table {
    fn first_replied(&mut self, b: &mut BranchState, rm: &RmName, reply: Reply)
        requires there { IsThere (branch_of b.old).key self.old.tm.table }
        requires fits { Fits (branch_of b.old) }
        requires ending { (branch_of b.old).state ≡ Ending }
        requires room { HasRoom 64 self.old }
        ensures { self.new ≡ does (first_reply rm.now (reply_of reply) (branch_of b.old)) self.old }
    {
        b.managers = b.managers.with_reply(rm, reply);
        if vetoes(reply) {
            self.abort(b, Reason::Vetoed);
        } else {
            self.note(b);
            self.commit_if_all(b, true);
        }
    }

    fn branch_replied(&mut self, b: &mut BranchState, rm: &RmName, reply: Reply)
        requires there { IsThere (branch_of b.old).key self.old.tm.table }
        requires fits { Fits (branch_of b.old) }
        requires room { HasRoom 64 self.old }
        ensures { self.new ≡ does (branch_reply rm.now (reply_of reply) (branch_of b.old)) self.old }
    {
        b.managers = b.managers.with_reply(rm, reply);
        if vetoes(reply) {
            self.refuse(b, Reason::Vetoed);
        } else {
            self.note(b);
            self.cast_if_all(b);
        }
    }

    fn replied_found(&mut self, b: &mut BranchState, rm: &RmName, reply: Reply)
        requires there { IsThere (branch_of b.old).key self.old.tm.table }
        requires fits { Fits (branch_of b.old) }
        requires room { HasRoom 64 self.old }
        ensures { self.new ≡ does (reply_state rm.now (reply_of reply) (branch_of b.old) (branch_of b.old).state) self.old }
    {
        match b.state {
            State::Ending if is_first(b) => self.first_replied(b, rm, reply),
            State::Voting if b.asked => self.branch_replied(b, rm, reply),
            _ => {}
        }
    }

    // A manager forgets its part of a branch that is settled.
    fn forgotten(&mut self, serial: &Serial, rm: &RmName, reply: Reply)
        requires { HasRoom 64 self.old }
        ensures { self.new ≡ does (reply_row (serial_of serial.now) rm.now (reply_of reply) None self.old.tm.records) self.old }
    {
        if let Reply::Forget = reply {
            self.release(serial, rm);
        }
    }

    /// A manager's reply for the branch. Where no branch has the serial, a Forget takes the manager out of the record that waits for it.
    pub fn replied(&mut self, serial: &Serial, rm: &RmName, reply: Reply)
        requires { HasRoom 64 self.old }
        ensures { self.new ≡ does (reply_row (serial_of serial.now) rm.now (reply_of reply) (find_serial (serial_of serial.now) self.old.tm.table) self.old.tm.records) self.old }
    {
        match self.find_serial(serial) {
            Some(mut b) => self.replied_found(&mut b, rm, reply),
            None => self.forgotten(serial, rm, reply),
        }
    }

    /// Notes that a change was made in the branch, where it is active.
    pub fn changed(&mut self, serial: &Serial)
        ensures { self.new ≡ does (note_row has_changed (find_serial (serial_of serial.now) self.old.tm.table)) self.old }
    {
        if let Some(mut b) = self.find_serial(serial) {
            if let State::Active = b.state {
                b.changed = true;
                self.note(&b);
            }
        }
    }

    /// The resource manager joins the branch, where it is active. It has no event and no reply yet.
    pub fn join_rm(&mut self, serial: &Serial, rm: &RmName)
        requires { there_is (find_serial (serial_of serial.now) self.old.tm.table) (may_join rm.now) ≡ true }
        ensures { self.new ≡ does (note_row (with_manager rm.now) (find_serial (serial_of serial.now) self.old.tm.table)) self.old }
    {
        if let Some(mut b) = self.find_serial(serial) {
            if let State::Active = b.state {
                b.managers.push(Manager {
                    rm: *rm,
                    event: None,
                    reply: None,
                });
                self.note(&b);
            }
        }
    }
}
