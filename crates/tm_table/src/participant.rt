// The rows of a branch other than the first.
ghost use Rattle.std.specs.Prelude.{◌≡◌, ◌+◌, ◌<◌, ◌≤◌, ◌++◌, ◌∷◌, [], map, length, Some, None, not, ◌||◌, true, false};
ghost use Rattle.commit_protocol.specs.Messages.{Prepare};
ghost use Rattle.commit_protocol.specs.Table.{Joining, Active, Prepared, holding, find, find_serial};
ghost use Rattle.commit_protocol.specs.Allowed.{has_room};
ghost use Rattle.commit_protocol.specs.Rows.{join_ok_state, join_ok_row, join_no_row, casts, casts_if_all, begins_vote, asked_branch, votes_if_ended, prepare_state, prepare_row, ended_branch, end_branch_state, end_branch_row, commit_state, commit_row, abort_row, abort_branch_row, asks_row, is_empty};
ghost use Rattle.vms_base.specs.Ids.{tid_of, serial_of, bid_of};
ghost use Rattle.vms_base.specs.Outcomes.{reason_of};
ghost use Rattle.net_wire.specs.Messages.{message_of};
ghost use Rattle.tm_types.specs.Parts.{manager_of, state_of};
ghost use Rattle.tm_types.specs.Branches.{branch_of, key_at};
ghost use Rattle.tm_table.specs.Doing.{did, does, begins_row, HasRoom, IsThere};
ghost use Rattle.tm_table.specs.Kept.{Fits};

use crate::coordinator::new_branch;
use crate::messages::join;
use crate::table::Table;
use net_wire::Message;
use tm_types::{BranchState, State, owing};
use vms_base::{Bid, Kind, Outcome, Reason, RmEvent, RmList, Serial, SerialList, Tid};

fn has_none(rms: &RmList) -> bool
    ensures { result ≡ is_empty rms.now }
{
    rms.items().is_empty()
}

impl Table {
    /// START_BRANCH: a joining branch begins, and asks its coordinator.
    pub fn begin_branch(&mut self, tid: &Tid, serial: &Serial, bid: &Bid)
        requires allowed { has_room self.old.tm ≡ true }
        requires room { HasRoom 64 self.old }
        ensures { self.new ≡ does (begins_row (tid_of tid.now) (serial_of serial.now) (bid_of bid.now)) self.old }
    {
        self.begin(new_branch(tid, serial, Some(*bid), State::Joining, None));
        self.send(join(tid, serial, bid));
    }

    // The branch starts.
    fn start_joining(&mut self, b: &mut BranchState)
        requires there { IsThere (branch_of b.old).key self.old.tm.table }
        requires fits { Fits (branch_of b.old) }
        requires room { HasRoom 64 self.old }
        ensures { self.new ≡ does (join_ok_state (branch_of b.old) Joining) self.old }
    {
        b.state = State::Active;
        self.note(b);
        self.show_started(&b.tid, &b.serial);
    }

    /// A Join that is granted: the branch starts where it was joining, and else nothing changes.
    pub fn join_ok(&mut self, m: &Message)
        requires { HasRoom 64 self.old }
        ensures { self.new ≡ does (join_ok_row (find (key_at m.now.tid m.now.serial) self.old.tm.table)) self.old }
    {
        if let Some(mut b) = self.find(&m.tid, &m.serial) {
            if let State::Joining = b.state {
                self.start_joining(&mut b);
            }
        }
    }

    /// A refused Join aborts the branch, which sends no message.
    pub fn join_no(&mut self, m: &Message)
        requires { HasRoom 64 self.old }
        ensures { self.new ≡ does (join_no_row (find (key_at m.now.tid m.now.serial) self.old.tm.table)) self.old }
    {
        if let Some(b) = self.find(&m.tid, &m.serial) {
            match b.state {
                State::Joining | State::Active | State::Voting => self.undo_quietly(
                    &b,
                    Reason::SyncFail,
                ),
                State::Ending | State::Prepared => {}
            }
        }
    }

    fn vote_yes(&mut self, b: &mut BranchState)
        requires there { IsThere (branch_of b.old).key self.old.tm.table }
        requires fits { Fits (branch_of b.old) }
        requires room { HasRoom 16 self.old }
        requires changed { ((branch_of b.old).changed || not (is_empty (holding (branch_of b.old).managers))) ≡ true }
        ensures { self.new ≡ does (casts (branch_of b.old)) self.old }
    {
        self.prepare(b);
        self.send_up(Kind::Yes, &b.tid, &b.serial);
    }

    fn vote_read_only(&mut self, b: &BranchState)
        requires there { IsThere (branch_of b.now).key self.old.tm.table }
        requires room { HasRoom 16 self.old }
        requires unchanged { ((branch_of b.now).changed || not (is_empty (holding (branch_of b.now).managers))) ≡ false }
        ensures { self.new ≡ does (casts (branch_of b.now)) self.old }
    {
        self.leave(&b.tid, &b.serial);
        self.send_up(Kind::ReadOnly, &b.tid, &b.serial);
    }

    // The vote of a branch: Yes where it has changed something or a manager replied prepared, else ReadOnly.
    fn cast(&mut self, b: &mut BranchState)
        requires there { IsThere (branch_of b.old).key self.old.tm.table }
        requires fits { Fits (branch_of b.old) }
        requires room { HasRoom 16 self.old }
        ensures { self.new ≡ does (casts (branch_of b.old)) self.old }
    {
        let last = b.changed || !has_none(&b.managers.holding());
        if last {
            self.vote_yes(b);
        } else {
            self.vote_read_only(b);
        }
    }

    /// Casts the vote of the branch where no reply of its managers is missing.
    pub fn cast_if_all(&mut self, b: &mut BranchState)
        requires there { IsThere (branch_of b.old).key self.old.tm.table }
        requires fits { Fits (branch_of b.old) }
        requires room { HasRoom 16 self.old }
        ensures { self.new ≡ does (casts_if_all (branch_of b.old)) self.old }
    {
        if b.managers.all_replied() {
            self.cast(b);
        }
    }

    // A branch that is ended and asked: its managers are asked, and when all have replied, or where there are none, it votes.
    fn begin_vote(&mut self, b: &mut BranchState)
        requires there { IsThere (branch_of b.old).key self.old.tm.table }
        requires fits { Fits (branch_of b.old) }
        requires room { HasRoom 32 self.old }
        ensures { self.new ≡ does (begins_vote (branch_of b.old)) self.old }
    {
        let rms = b.managers.names();
        b.state = State::Voting;
        b.managers = b.managers.asked(RmEvent::Prepare);
        self.note(b);
        self.tell_each(RmEvent::Prepare, &b.tid, &b.serial, &rms);
        self.cast_if_all(b);
    }

    fn vote_if_ended(&mut self, b: &mut BranchState)
        requires there { IsThere (asked_branch (branch_of b.old)).key self.old.tm.table }
        requires fits { Fits (branch_of b.old) }
        requires asked { branch_of b.old ≡ asked_branch (branch_of b.old) }
        requires room { HasRoom 32 self.old }
        ensures { self.new ≡ does (votes_if_ended (branch_of b.old)) self.old }
    {
        if b.ended {
            self.begin_vote(b);
        }
    }

    fn ask_active(&mut self, b: &mut BranchState)
        requires there { IsThere (branch_of b.old).key self.old.tm.table }
        requires fits { Fits (branch_of b.old) }
        requires room { HasRoom 64 self.old }
        ensures { self.new ≡ does (prepare_state (branch_of b.old) Active) self.old }
    {
        b.state = State::Active;
        b.asked = true;
        self.note(b);
        self.vote_if_ended(b);
    }

    fn ask_joining(&mut self, b: &mut BranchState)
        requires there { IsThere (branch_of b.old).key self.old.tm.table }
        requires fits { Fits (branch_of b.old) }
        requires room { HasRoom 64 self.old }
        ensures { self.new ≡ does (prepare_state (branch_of b.old) Joining) self.old }
    {
        b.state = State::Active;
        b.asked = true;
        self.note(b);
        self.show_started(&b.tid, &b.serial);
        self.vote_if_ended(b);
    }

    fn prepare_found(&mut self, b: &mut BranchState)
        requires there { IsThere (branch_of b.old).key self.old.tm.table }
        requires fits { Fits (branch_of b.old) }
        requires room { HasRoom 64 self.old }
        ensures { self.new ≡ does (prepare_state (branch_of b.old) (branch_of b.old).state) self.old }
    {
        match b.state {
            State::Joining => self.ask_joining(b),
            State::Active => self.ask_active(b),
            State::Prepared => self.send_up(Kind::Yes, &b.tid, &b.serial),
            State::Ending | State::Voting => {}
        }
    }

    /// A Prepare: the branch is asked, and votes where it is ended too. No is sent for one that is not there.
    pub fn prepare_asked(&mut self, m: &Message)
        requires { HasRoom 64 self.old }
        ensures { self.new ≡ does (prepare_row (message_of m.now) (find (key_at m.now.tid m.now.serial) self.old.tm.table)) self.old }
    {
        match self.find(&m.tid, &m.serial) {
            Some(mut b) => self.prepare_found(&mut b),
            None => self.send_up(Kind::No, &m.tid, &m.serial),
        }
    }

    fn end_active(&mut self, b: &mut BranchState)
        requires there { IsThere (branch_of b.old).key self.old.tm.table }
        requires fits { Fits (branch_of b.old) }
        requires room { HasRoom 64 self.old }
        ensures { self.new ≡ does (end_branch_state (branch_of b.old) Active) self.old }
    {
        b.ended = true;
        self.note(b);
        if b.asked {
            self.begin_vote(b);
        }
    }

    /// END_BRANCH of an active branch: it votes where it was asked.
    pub fn end_branch(&mut self, serial: &Serial)
        requires { HasRoom 64 self.old }
        ensures { self.new ≡ does (end_branch_row (find_serial (serial_of serial.now) self.old.tm.table)) self.old }
    {
        if let Some(mut b) = self.find_serial(serial) {
            if let State::Active = b.state {
                self.end_active(&mut b);
            }
        }
    }

    fn commit_prepared(&mut self, b: &BranchState)
        requires there { IsThere (branch_of b.now).key self.old.tm.table }
        requires room { HasRoom 64 self.old }
        ensures { self.new ≡ does (commit_state (branch_of b.now) Prepared) self.old }
    {
        let holding = b.managers.holding();
        let rec = owing(&b.tid, &b.serial, SerialList::new(), holding.copy());
        self.settle(&b.tid, &b.serial, Outcome::Commit, Reason::Aborted, rec);
        self.send_up(Kind::Ack, &b.tid, &b.serial);
        self.tell_each(RmEvent::Commit, &b.tid, &b.serial, &holding);
    }

    /// A Commit: a prepared branch is committed; one that is not there sends Ack again.
    pub fn commit(&mut self, m: &Message)
        requires { HasRoom 64 self.old }
        ensures { self.new ≡ does (commit_row (message_of m.now) (find (key_at m.now.tid m.now.serial) self.old.tm.table)) self.old }
    {
        match self.find(&m.tid, &m.serial) {
            Some(b) => {
                if let State::Prepared = b.state {
                    self.commit_prepared(&b);
                }
            }
            None => self.send_up(Kind::Ack, &m.tid, &m.serial),
        }
    }

    /// An Abort: the branch is aborted, prepared or not, and sends no message. One that is ending stays as it is.
    pub fn abort_told(&mut self, m: &Message)
        requires { HasRoom 64 self.old }
        ensures { self.new ≡ does (abort_row (find (key_at m.now.tid m.now.serial) self.old.tm.table)) self.old }
    {
        if let Some(b) = self.find(&m.tid, &m.serial) {
            match b.state {
                State::Ending => {}
                _ => self.undo_quietly(&b, Reason::Aborted),
            }
        }
    }

    /// An abort by the branch's own node. A prepared branch stays as it is.
    pub fn abort_branch(&mut self, serial: &Serial, reason: Reason)
        requires { HasRoom 64 self.old }
        ensures { self.new ≡ does (abort_branch_row (reason_of reason) (find_serial (serial_of serial.now) self.old.tm.table)) self.old }
    {
        if let Some(b) = self.find_serial(serial) {
            match b.state {
                State::Prepared => {}
                _ => self.abort_running(&b, reason),
            }
        }
    }

    /// A prepared branch asks its coordinator for the outcome. Any other sends nothing.
    pub fn ask_coordinator(&mut self, serial: &Serial)
        requires { HasRoom 64 self.old }
        ensures { self.new ≡ does (asks_row (find_serial (serial_of serial.now) self.old.tm.table)) self.old }
    {
        if let Some(b) = self.find_serial(serial) {
            if let State::Prepared = b.state {
                self.send_up(Kind::Inquire, &b.tid, &b.serial);
            }
        }
    }
}
