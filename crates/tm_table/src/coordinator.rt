// The rows of a coordinator.
ghost use Rattle.std.specs.Prelude.{◌≡◌, ◌+◌, ◌<◌, ◌≤◌, ◌++◌, ◌∷◌, [], map, length, Some, None, true};
ghost use Rattle.std.specs.Option.{option_map};
ghost use Rattle.std.specs.List.{list_any};
ghost use Rattle.commit_protocol.specs.Messages.{same_id as same_id_of};
ghost use Rattle.commit_protocol.specs.Table.{Notes, Active, Ending, first, find};
ghost use Rattle.commit_protocol.specs.Allowed.{has_room, there_is, may_authorise};
ghost use Rattle.commit_protocol.specs.Rows.{blank, refuses_join, grants_join, join_state, join_row, which_event, begins_ending, end_trans_state, end_trans_row, authorise_state, authorise_row, vote_state, vote_row, refused, no_state, no_row, answer, inquire_row, is_other};
ghost use Rattle.vms_base.specs.Ids.{tid_of, serial_of, bid_of};
ghost use Rattle.net_wire.specs.Messages.{kind_of, message_of};
ghost use Rattle.tm_types.specs.Parts.{child_of, manager_of, rm_event_of, state_of};
ghost use Rattle.tm_types.specs.Branches.{branch_of, moment_of, key_at};
ghost use Rattle.tm_table.specs.Doing.{did, does, HasRoom, IsThere};
ghost use Rattle.tm_table.specs.Kept.{Fits};

use crate::table::Table;
use net_wire::Message;
use tm_types::{BidList, BranchState, Child, ChildList, ManagerList, State};
use vms_base::{Bid, Kind, Moment, Reason, RmEvent, Serial, Tid};

/// A branch as it begins: nothing is changed, ended or asked, and it has no accepted serials and no managers.
pub fn new_branch(
    tid: &Tid,
    serial: &Serial,
    bid: Option<Bid>,
    state: State,
    due: Option<Moment>,
) -> BranchState
    ensures said { branch_of result ≡ blank (tid_of tid.now) (serial_of serial.now) (option_map bid_of bid) (state_of state) (option_map moment_of due) }
    ensures fits { Fits (branch_of result) }
{
    BranchState {
        tid: *tid,
        serial: *serial,
        bid,
        state,
        due,
        changed: false,
        ended: false,
        asked: false,
        bids: BidList::new(),
        accepted: ChildList::new(),
        managers: ManagerList::new(),
    }
}

// The event that ends a transaction: one phase serves where no serial was accepted, nothing was changed and one manager joined.
fn ending_event(b: &BranchState) -> RmEvent
    ensures { rm_event_of result ≡ which_event b.now.changed (map child_of b.now.accepted) (map manager_of b.now.managers) }
{
    match (b.accepted.items(), b.managers.items()) {
        ([], [_]) if !b.changed => RmEvent::OnePhase,
        _ => RmEvent::Prepare,
    }
}

impl Table {
    /// START_TRANS: an active first branch begins, with the time at which it is over where there is one.
    pub fn start(&mut self, tid: &Tid, due: Option<Moment>)
        requires { has_room self.old.tm ≡ true }
        ensures { self.new ≡ did (Notes (blank (tid_of tid.now) (tid_of tid.now) None Active (option_map moment_of due))) self.old }
    {
        self.begin(new_branch(tid, &Serial(tid.0), None, State::Active, due));
    }

    fn join_active(&mut self, m: &Message, b: &mut BranchState, bid: &Bid)
        requires there { IsThere (branch_of b.old).key self.old.tm.table }
        requires fits { Fits (branch_of b.old) }
        requires room { HasRoom 64 self.old }
        ensures { self.new ≡ does (join_state (message_of m.now) (branch_of b.old) Active (Some (bid_of bid.now))) self.old }
    {
        if b.accepted.joined_as(bid, &m.serial) {
            self.send_down(Kind::JoinOk, &m.tid, &m.serial);
        } else if b.bids.contains(bid) && !b.accepted.has_bid(bid) {
            self.accept(
                b,
                Child {
                    bid: *bid,
                    serial: m.serial,
                    vote: None,
                },
            );
            self.send_down(Kind::JoinOk, &m.tid, &m.serial);
        } else {
            self.send_down(Kind::JoinNo, &m.tid, &m.serial);
        }
    }

    fn join_ending(&mut self, m: &Message, b: &BranchState, bid: &Bid)
        requires { HasRoom 64 self.old }
        ensures { self.new ≡ does (join_state (message_of m.now) (branch_of b.now) Ending (Some (bid_of bid.now))) self.old }
    {
        if b.accepted.joined_as(bid, &m.serial) {
            self.send_down(Kind::JoinOk, &m.tid, &m.serial);
        } else {
            self.send_down(Kind::JoinNo, &m.tid, &m.serial);
        }
    }

    fn join_found(&mut self, m: &Message, b: &mut BranchState)
        requires there { IsThere (branch_of b.old).key self.old.tm.table }
        requires fits { Fits (branch_of b.old) }
        requires room { HasRoom 64 self.old }
        ensures { self.new ≡ does (join_state (message_of m.now) (branch_of b.old) (branch_of b.old).state (message_of m.now).bid) self.old }
    {
        let Some(bid) = m.bid else {
            self.send_down(Kind::JoinNo, &m.tid, &m.serial);
            return;
        };
        match b.state {
            State::Active => self.join_active(m, b, &bid),
            State::Ending => self.join_ending(m, b, &bid),
            _ => self.send_down(Kind::JoinNo, &m.tid, &m.serial),
        }
    }

    /// A Join: the branch is accepted, or is answered again, or is refused. It is refused where the transaction is not there.
    pub fn join(&mut self, m: &Message)
        requires { HasRoom 64 self.old }
        ensures { self.new ≡ does (join_row (message_of m.now) (find (first (tid_of m.now.tid)) self.old.tm.table)) self.old }
    {
        match self.find_first(&m.tid) {
            Some(mut b) => self.join_found(m, &mut b),
            None => self.send_down(Kind::JoinNo, &m.tid, &m.serial),
        }
    }

    fn begin_ending(&mut self, b: &mut BranchState)
        requires there { IsThere (branch_of b.old).key self.old.tm.table }
        requires fits { Fits (branch_of b.old) }
        requires room { HasRoom 64 self.old }
        ensures { self.new ≡ does (begins_ending (branch_of b.old)) self.old }
    {
        let event = ending_event(b);
        let rms = b.managers.names();
        b.state = State::Ending;
        b.managers = b.managers.asked(event);
        self.note(b);
        self.send_each(Kind::Prepare, &b.tid, &b.accepted.serials());
        self.tell_each(event, &b.tid, &b.serial, &rms);
        self.commit_if_all(b, false);
    }

    fn end_trans_active(&mut self, b: &mut BranchState)
        requires there { IsThere (branch_of b.old).key self.old.tm.table }
        requires fits { Fits (branch_of b.old) }
        requires room { HasRoom 64 self.old }
        ensures { self.new ≡ does (end_trans_state (branch_of b.old) Active) self.old }
    {
        if b.bids.all_taken(&b.accepted) {
            self.begin_ending(b);
        } else {
            self.abort(b, Reason::SyncFail);
        }
    }

    /// END_TRANS of an active transaction. Any other transaction stays as it is.
    pub fn end_trans(&mut self, tid: &Tid)
        requires { HasRoom 64 self.old }
        ensures { self.new ≡ does (end_trans_row (find (first (tid_of tid.now)) self.old.tm.table)) self.old }
    {
        if let Some(mut b) = self.find_first(tid) {
            if let State::Active = b.state {
                self.end_trans_active(&mut b);
            }
        }
    }

    /// Authorises a further branch of an active transaction.
    pub fn authorise(&mut self, tid: &Tid, bid: &Bid)
        requires { there_is (find (first (tid_of tid.now)) self.old.tm.table) may_authorise ≡ true }
        ensures { self.new ≡ does (authorise_row (bid_of bid.now) (find (first (tid_of tid.now)) self.old.tm.table)) self.old }
    {
        if let Some(mut b) = self.find_first(tid) {
            if let State::Active = b.state {
                b.bids.push(*bid);
                self.note(&b);
            }
        }
    }

    fn vote_ending(&mut self, b: &mut BranchState, serial: &Serial, kind: Kind)
        requires there { IsThere (branch_of b.old).key self.old.tm.table }
        requires fits { Fits (branch_of b.old) }
        requires ending { (branch_of b.old).state ≡ Ending }
        requires room { HasRoom 64 self.old }
        ensures { self.new ≡ does (vote_state (serial_of serial.now) (kind_of kind) (branch_of b.old) Ending) self.old }
    {
        if b.accepted.lacks_vote(serial) {
            b.accepted = b.accepted.with_vote(serial, kind);
            self.note(b);
            self.commit_if_all(b, true);
        }
    }

    /// A vote of an accepted serial that has none: it is noted, and when none is missing the transaction is committed.
    pub fn vote(&mut self, tid: &Tid, serial: &Serial, kind: Kind)
        requires { HasRoom 64 self.old }
        ensures { self.new ≡ does (vote_row (serial_of serial.now) (kind_of kind) (find (first (tid_of tid.now)) self.old.tm.table)) self.old }
    {
        if let Some(mut b) = self.find_first(tid) {
            if let State::Ending = b.state {
                self.vote_ending(&mut b, serial, kind);
            }
        }
    }

    fn refused_by(&mut self, b: &BranchState, serial: &Serial)
        requires there { IsThere (branch_of b.now).key self.old.tm.table }
        requires room { HasRoom 64 self.old }
        ensures { self.new ≡ does (refused (serial_of serial.now) (branch_of b.now)) self.old }
    {
        if b.accepted.has_serial(serial) {
            self.abort_telling(b, &b.accepted.others(serial), Reason::Vetoed);
        }
    }

    /// A No of an accepted serial aborts an undecided transaction.
    pub fn no(&mut self, tid: &Tid, serial: &Serial)
        requires { HasRoom 64 self.old }
        ensures { self.new ≡ does (no_row (serial_of serial.now) (find (first (tid_of tid.now)) self.old.tm.table)) self.old }
    {
        if let Some(b) = self.find_first(tid) {
            if let State::Active | State::Ending = b.state {
                self.refused_by(&b, serial);
            }
        }
    }

    fn answer(&mut self, m: &Message)
        requires { HasRoom 64 self.old }
        ensures { self.new ≡ does (answer (message_of m.now) (find (first (tid_of m.now.tid)) self.old.tm.table)) self.old }
    {
        match self.find_first(&m.tid) {
            Some(b) => {
                if let State::Prepared = b.state {
                    self.send_down(Kind::Abort, &m.tid, &m.serial);
                }
            }
            None => self.send_down(Kind::Abort, &m.tid, &m.serial),
        }
    }

    /// An Inquire: Commit where a committed record of the transaction stands, nothing while it is undecided, else Abort.
    pub fn inquire(&mut self, m: &Message)
        requires { HasRoom 64 self.old }
        ensures { self.new ≡ does (inquire_row (message_of m.now) (find (first (tid_of m.now.tid)) self.old.tm.table) self.old.tm.records) self.old }
    {
        if self.has_record(&m.tid) {
            self.send_down(Kind::Commit, &m.tid, &m.serial);
        } else {
            self.answer(m);
        }
    }
}
