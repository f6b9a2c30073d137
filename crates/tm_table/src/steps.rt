// What is done at an event.
ghost use Rattle.std.specs.Prelude.{◌≡◌, ◌≤◌, [], length, true};
ghost use Rattle.vms_model.specs.Limits.{branch_limit};
ghost use Rattle.commit_protocol.specs.Allowed.{allowed};
ghost use Rattle.commit_protocol.specs.Rows.{got, row};
ghost use Rattle.net_wire.specs.Messages.{message_of};
ghost use Rattle.tm_types.specs.Events.{event_of};
ghost use Rattle.tm_table.specs.Doing.{does, HasRoom};

use crate::table::Table;
use net_wire::Message;
use tm_types::Event;
use vms_base::Kind;

impl Table {
    fn got(&mut self, m: &Message)
        requires { HasRoom 64 self.old }
        ensures { self.new ≡ does (got self.old.tm (message_of m.now) (message_of m.now).kind) self.old }
    {
        match m.kind {
            Kind::Join => self.join(m),
            Kind::JoinOk => self.join_ok(m),
            Kind::JoinNo => self.join_no(m),
            Kind::Prepare => self.prepare_asked(m),
            Kind::Yes => self.vote(&m.tid, &m.serial, Kind::Yes),
            Kind::ReadOnly => self.vote(&m.tid, &m.serial, Kind::ReadOnly),
            Kind::No => self.no(&m.tid, &m.serial),
            Kind::Commit => self.commit(m),
            Kind::Abort => self.abort_told(m),
            Kind::Ack => self.acknowledge(&m.tid, &m.serial),
            Kind::Inquire => self.inquire(m),
        }
    }

    /// Does what the event asks, by its row. The event is allowed, and no effects of an earlier step are left.
    pub fn take_row(&mut self, event: &Event)
        requires allowed { allowed self.old.tm (event_of event.now) ≡ true }
        requires empty { self.old.effects ≡ [] }
        requires few { length self.old.tm.table ≤ branch_limit }
        ensures { self.new ≡ does (row self.old.tm (event_of event.now)) self.old }
    {
        match event {
            Event::Start { tid, due } => self.start(tid, *due),
            Event::Authorise { tid, bid } => self.authorise(tid, bid),
            Event::Begin { tid, serial, bid } => self.begin_branch(tid, serial, bid),
            Event::JoinRm { serial, rm } => self.join_rm(serial, rm),
            Event::Changed { serial } => self.changed(serial),
            Event::EndTrans { tid } => self.end_trans(tid),
            Event::EndBranch { serial } => self.end_branch(serial),
            Event::Abort { serial, reason } => self.abort_branch(serial, *reason),
            Event::Replied { serial, rm, reply } => self.replied(serial, rm, *reply),
            Event::Got(m) => self.got(m),
            Event::Clock(now) => self.clock(now),
            Event::LinkDown(other) => self.link_down(other),
            Event::RunDown => self.run_down(),
            Event::Inquire { serial } => self.ask_coordinator(serial),
        }
    }
}
