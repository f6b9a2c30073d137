// The acts of which rows are made.
ghost use Rattle.std.specs.Prelude.{◌≡◌, ◌+◌, ◌<◌, ◌≤◌, ◌++◌, ◌∷◌, [], map, length, Bool, if◌then◌else◌, Some, None};
ghost use Rattle.std.specs.Option.{option_map};
ghost use Rattle.vms_model.specs.Limits.{bid_limit, branch_limit, slot_limit};
ghost use Rattle.commit_protocol.specs.Table.{cut, Notes, Accepts, Prepares, Settles, Leaves, Sends, Prints, Started, Ended, Told};
ghost use Rattle.commit_protocol.specs.Rows.{sends_all, to_each, tells, ended, down, up};
ghost use Rattle.vms_base.specs.Ids.{tid_of, serial_of};
ghost use Rattle.vms_base.specs.Outcomes.{outcome_of, reason_of};
ghost use Rattle.net_wire.specs.Messages.{kind_of, message_of};
ghost use Rattle.tm_types.specs.Parts.{child_of, rm_event_of, log_record_of};
ghost use Rattle.tm_types.specs.Branches.{key_at, branch_of};
ghost use Rattle.tm_table.specs.Doing.{did, does, ended_if, HasRoom, IsThere};
ghost use Rattle.tm_table.specs.Kept.{Fits};

use crate::messages::{down, up};
use crate::table::Table;
use net_wire::Message;
use tm_types::{BranchState, Child, Effect, State};
use vms_base::{Kind, LogRec, Outcome, Reason, RmEvent, RmList, RmName, Serial, SerialList, Tid};

impl Table {
    /// Puts the branch in the table as it is given, in the place of the one with its key.
    pub fn note(&mut self, b: &BranchState)
        requires there { IsThere (branch_of b.now).key self.old.tm.table }
        requires fits { Fits (branch_of b.now) }
        ensures done { self.new ≡ did (Notes (branch_of b.now)) self.old }
        ensures there { IsThere (branch_of b.now).key self.new.tm.table }
        ensures room { self.new.effects ≡ self.old.effects }
    {
        self.put(b);
    }

    /// Notes a branch that begins. The table has room for it.
    pub fn begin(&mut self, b: BranchState)
        requires few { length self.old.tm.table < branch_limit }
        requires slots { length self.old.tm.table + length self.old.tm.records < slot_limit }
        requires fits { Fits (branch_of b) }
        ensures done { self.new ≡ did (Notes (branch_of b)) self.old }
        ensures room { self.new.effects ≡ self.old.effects }
    {
        self.add(b);
    }

    /// Accepts the serial: the branch has it last among its accepted ones, and the Joined effect tells it.
    pub fn accept(&mut self, b: &mut BranchState, child: Child)
        requires there { IsThere (branch_of b.old).key self.old.tm.table }
        requires few { length b.old.accepted < bid_limit }
        requires fits { Fits (record (branch_of b.old) { accepted = (branch_of b.old).accepted ++ child_of child ∷ [] }) }
        requires room { HasRoom 1 self.old }
        ensures done { self.new ≡ did (Accepts (branch_of b.old) (child_of child)) self.old }
        ensures room { length self.new.effects ≡ length self.old.effects + 1 }
    {
        let serial = child.serial;
        b.accepted.push(child);
        self.put(b);
        self.push(Effect::Joined { serial });
    }

    /// Gives the branch its Prepared entry, and writes its prepared record.
    pub fn prepare(&mut self, b: &mut BranchState)
        requires there { IsThere (branch_of b.old).key self.old.tm.table }
        requires fits { Fits (branch_of b.old) }
        requires room { HasRoom 1 self.old }
        ensures done { self.new ≡ did (Prepares (branch_of b.old)) self.old }
        ensures key { (branch_of b.new).key ≡ (branch_of b.old).key }
        ensures room { length self.new.effects ≡ length self.old.effects + 1 }
    {
        b.state = State::Prepared;
        self.put(b);
        self.push(Effect::Prepare {
            serial: b.serial,
            rms: b.managers.holding(),
        });
    }

    /// Settles the branch: it leaves the table with this outcome, and its committed record is added where there is one.
    pub fn settle(
        &mut self,
        tid: &Tid,
        serial: &Serial,
        outcome: Outcome,
        reason: Reason,
        rec: Option<LogRec>,
    )
        requires there { IsThere (key_at tid.now serial.now) self.old.tm.table }
        requires room { HasRoom 1 self.old }
        ensures done { self.new ≡ did (Settles (key_at tid.now serial.now) (outcome_of outcome) (reason_of reason) (option_map log_record_of rec)) self.old }
        ensures room { length self.new.effects ≡ length self.old.effects + 1 }
        ensures fewer { length self.new.tm.table + 1 ≤ length self.old.tm.table }
        ensures cuts { self.new.tm.table ≡ cut (key_at tid.now serial.now) self.old.tm.table }
    {
        self.cut(tid, serial);
        self.add_record(&rec);
        self.push(Effect::Settle {
            serial: *serial,
            outcome,
            reason,
            rec,
        });
    }

    /// The branch votes read-only and is not there any more.
    pub fn leave(&mut self, tid: &Tid, serial: &Serial)
        requires there { IsThere (key_at tid.now serial.now) self.old.tm.table }
        requires room { HasRoom 1 self.old }
        ensures done { self.new ≡ did (Leaves (key_at tid.now serial.now)) self.old }
        ensures room { length self.new.effects ≡ length self.old.effects + 1 }
    {
        self.cut(tid, serial);
        self.push(Effect::ReadOnly { serial: *serial });
    }

    /// Sends the message. What the node knows stays as it was.
    pub fn send(&mut self, m: Message)
        requires { HasRoom 1 self.old }
        ensures done { self.new ≡ did (Sends (message_of m)) self.old }
        ensures table { self.new.tm ≡ self.old.tm }
        ensures room { length self.new.effects ≡ length self.old.effects + 1 }
    {
        self.push(Effect::Send(m));
    }

    /// Sends a message of this kind to the branch's node, from its coordinator.
    pub fn send_down(&mut self, kind: Kind, tid: &Tid, serial: &Serial)
        requires { HasRoom 1 self.old }
        ensures done { self.new ≡ did (Sends (down (kind_of kind) (key_at tid.now serial.now))) self.old }
        ensures table { self.new.tm ≡ self.old.tm }
        ensures room { length self.new.effects ≡ length self.old.effects + 1 }
    {
        self.send(down(kind, tid, serial));
    }

    /// Sends a message of this kind to the coordinator, from the branch's node.
    pub fn send_up(&mut self, kind: Kind, tid: &Tid, serial: &Serial)
        requires { HasRoom 1 self.old }
        ensures done { self.new ≡ did (Sends (up (kind_of kind) (key_at tid.now serial.now))) self.old }
        ensures table { self.new.tm ≡ self.old.tm }
        ensures room { length self.new.effects ≡ length self.old.effects + 1 }
    {
        self.send(up(kind, tid, serial));
    }

    /// Shows that the branch of this serial has started.
    pub fn show_started(&mut self, tid: &Tid, serial: &Serial)
        requires { HasRoom 1 self.old }
        ensures done { self.new ≡ did (Prints (Started (key_at tid.now serial.now))) self.old }
        ensures table { self.new.tm ≡ self.old.tm }
        ensures room { length self.new.effects ≡ length self.old.effects + 1 }
    {
        self.push(Effect::Started { serial: *serial });
    }

    fn tell(&mut self, event: RmEvent, tid: &Tid, serial: &Serial, rm: RmName)
        requires { HasRoom 1 self.old }
        ensures done { self.new ≡ did (Prints (Told (rm_event_of event) (key_at tid.now serial.now) rm)) self.old }
        ensures table { self.new.tm ≡ self.old.tm }
        ensures room { length self.new.effects ≡ length self.old.effects + 1 }
    {
        self.push(Effect::Tell {
            event,
            tid: *tid,
            serial: *serial,
            rm,
        });
    }

    /// Shows the outcome of the END_TRANS that was pending, where the branch was ending and it is to be shown. No reason is a commit.
    pub fn show_ended(&mut self, b: &BranchState, shown: bool, reason: Option<Reason>)
        requires { HasRoom 1 self.old }
        ensures done { self.new ≡ does (ended_if shown (branch_of b.now) (option_map reason_of reason)) self.old }
        ensures table { self.new.tm ≡ self.old.tm }
        ensures room { length self.new.effects ≤ length self.old.effects + 1 }
    {
        if !shown {
            return;
        }
        if let State::Ending = b.state {
            self.push(Effect::Ended { tid: b.tid, reason });
        }
    }

    /// Sends the same message of this kind down to each serial of the transaction.
    pub fn send_each(&mut self, kind: Kind, tid: &Tid, serials: &SerialList)
        requires { HasRoom 15 self.old }
        ensures done { self.new ≡ does (sends_all (to_each (kind_of kind) (tid_of tid.now) (map serial_of serials.now))) self.old }
        ensures table { self.new.tm ≡ self.old.tm }
        ensures room { length self.new.effects ≤ length self.old.effects + 15 }
    {
        for s in serials.items() {
            self.send_down(kind, tid, s);
        }
    }

    /// Tells the event of the branch to each of these resource managers.
    pub fn tell_each(&mut self, event: RmEvent, tid: &Tid, serial: &Serial, rms: &RmList)
        requires { HasRoom 8 self.old }
        ensures done { self.new ≡ does (tells (rm_event_of event) (key_at tid.now serial.now) rms.now) self.old }
        ensures table { self.new.tm ≡ self.old.tm }
        ensures room { length self.new.effects ≤ length self.old.effects + 8 }
    {
        for rm in rms.items() {
            self.tell(event, tid, serial, *rm);
        }
    }
}
