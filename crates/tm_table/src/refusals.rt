// Which events the table is told: a statement that is refused, by the state of its branch or by a limit, is none.
ghost use Rattle.std.specs.Prelude.{◌≡◌, not};
ghost use Rattle.std.specs.Option.{option_map};
ghost use Rattle.std.specs.List.{list_any};
ghost use Rattle.commit_protocol.specs.Messages.{CommitEvent};
ghost use Rattle.commit_protocol.specs.Table.{first, find, find_serial, holds as holds_of};
ghost use Rattle.commit_protocol.specs.Allowed.{is_active as is_active_of, is_prepared as is_prepared_of, has_room, may_authorise as may_authorise_of, is_working as is_working_of, may_join as may_join_of, may_end as may_end_of, may_reply as may_reply_of, answers as answers_of, reply_allowed, there_is, allowed};
ghost use Rattle.vms_base.specs.Ids.{tid_of, serial_of};
ghost use Rattle.tm_types.specs.Parts.{state_of, reply_of};
ghost use Rattle.tm_types.specs.Branches.{branch_of};
ghost use Rattle.tm_types.specs.Events.{event_of};

use crate::outcomes::is_first;
use crate::table::Table;
use tm_types::{BranchState, Event, State, answers};
use vms_base::{Reply, RmEvent, RmName, Serial, Tid};

fn is_active(b: &BranchState) -> bool
    ensures { result ≡ is_active_of (branch_of b.now).state }
{
    matches!(b.state, State::Active)
}

fn is_prepared(b: &BranchState) -> bool
    ensures { result ≡ is_prepared_of (branch_of b.now).state }
{
    matches!(b.state, State::Prepared)
}

fn may_authorise(b: &BranchState) -> bool
    ensures { result ≡ may_authorise_of (branch_of b.now) }
{
    is_active(b) && b.bids.items().len() < 15
}

fn is_working(b: &BranchState) -> bool
    ensures { result ≡ is_working_of (branch_of b.now) }
{
    is_active(b) && !b.ended
}

fn may_join(b: &BranchState, rm: &RmName) -> bool
    ensures { result ≡ may_join_of rm.now (branch_of b.now) }
{
    is_working(b) && b.managers.items().len() < 8 && !b.managers.contains(rm)
}

fn may_end(b: &BranchState) -> bool
    ensures { result ≡ may_end_of (branch_of b.now) }
{
    is_working(b) && !is_first(b)
}

impl Table {
    fn first_may_authorise(&self, tid: &Tid) -> bool
        ensures { result ≡ there_is (find (first (tid_of tid.now)) self.now.tm.table) may_authorise_of }
    {
        match self.find_first(tid) {
            Some(b) => may_authorise(&b),
            None => false,
        }
    }

    fn first_is_active(&self, tid: &Tid) -> bool
        ensures { result ≡ there_is (find (first (tid_of tid.now)) self.now.tm.table) (λ b. is_active_of b.state) }
    {
        match self.find_first(tid) {
            Some(b) => is_active(&b),
            None => false,
        }
    }

    fn rm_may_join(&self, serial: &Serial, rm: &RmName) -> bool
        ensures { result ≡ there_is (find_serial (serial_of serial.now) self.now.tm.table) (may_join_of rm.now) }
    {
        match self.find_serial(serial) {
            Some(b) => may_join(&b, rm),
            None => false,
        }
    }

    fn branch_is_working(&self, serial: &Serial) -> bool
        ensures { result ≡ there_is (find_serial (serial_of serial.now) self.now.tm.table) is_working_of }
    {
        match self.find_serial(serial) {
            Some(b) => is_working(&b),
            None => false,
        }
    }

    fn branch_may_end(&self, serial: &Serial) -> bool
        ensures { result ≡ there_is (find_serial (serial_of serial.now) self.now.tm.table) may_end_of }
    {
        match self.find_serial(serial) {
            Some(b) => may_end(&b),
            None => false,
        }
    }

    fn branch_is_unprepared(&self, serial: &Serial) -> bool
        ensures { result ≡ there_is (find_serial (serial_of serial.now) self.now.tm.table) (λ b. not (is_prepared_of b.state)) }
    {
        match self.find_serial(serial) {
            Some(b) => !is_prepared(&b),
            None => false,
        }
    }

    fn branch_is_prepared(&self, serial: &Serial) -> bool
        ensures { result ≡ there_is (find_serial (serial_of serial.now) self.now.tm.table) (λ b. is_prepared_of b.state) }
    {
        match self.find_serial(serial) {
            Some(b) => is_prepared(&b),
            None => false,
        }
    }

    fn may_reply(&self, serial: &Serial, rm: &RmName, reply: Reply) -> bool
        ensures { result ≡ reply_allowed (serial_of serial.now) rm.now (reply_of reply) (find_serial (serial_of serial.now) self.now.tm.table) self.now.tm.records }
    {
        match self.find_serial(serial) {
            Some(b) => b.managers.awaits(rm, reply),
            None => self.holds_manager(serial, rm) && answers(RmEvent::Commit, reply),
        }
    }

    /// Whether the event is allowed. False where its statement is refused; messages, the clock and lost links are never refused.
    pub fn allows(&self, event: &Event) -> bool
        ensures { result ≡ allowed self.now.tm (event_of event.now) }
    {
        match event {
            Event::Start { tid: _, due: _ } => self.has_room(),
            Event::Authorise { tid, bid: _ } => self.first_may_authorise(tid),
            Event::Begin {
                tid: _,
                serial: _,
                bid: _,
            } => self.has_room(),
            Event::JoinRm { serial, rm } => self.rm_may_join(serial, rm),
            Event::Changed { serial } => self.branch_is_working(serial),
            Event::EndTrans { tid } => self.first_is_active(tid),
            Event::EndBranch { serial } => self.branch_may_end(serial),
            Event::Abort { serial, reason: _ } => self.branch_is_unprepared(serial),
            Event::Replied { serial, rm, reply } => self.may_reply(serial, rm, *reply),
            Event::Got(_) => true,
            Event::Clock(_) => true,
            Event::LinkDown(_) => true,
            Event::RunDown => true,
            Event::Inquire { serial } => self.branch_is_prepared(serial),
        }
    }
}
