// The accepted serials and the managers of a branch.
ghost use Rattle.std.specs.Prelude.{◌≡◌, ◌<◌, ◌≤◌, ◌&&◌, [], ◌∷◌, ◌++◌, length, map, not};
ghost use Rattle.std.specs.List.{list_any};
ghost use Rattle.vms_base.specs.vms_model.Limits.{bid_limit};
ghost use Rattle.commit_protocol.specs.Rows.{has_bid, has_serial, is_yes, is_noted, joined_as, all_taken, all_voted, serials, yes_of, others, told_abort, to_each, lacks_vote, note_vote, asks, joined, interested, all_replied, note_reply};
ghost use Rattle.std.specs.Option.{option_map};
ghost use Rattle.commit_protocol.specs.Allowed.{answers, answers_waiting};
ghost use Rattle.commit_protocol.specs.Messages.{Abort, same_id as same_id_of, same_name};
ghost use Rattle.commit_protocol.specs.Table.{holding};
ghost use Rattle.vms_base.specs.Ids.{bid_of, serial_of};
ghost use Rattle.vms_base.specs.vms_model.Ids.{Id as ModelId};
ghost use Rattle.net_wire.specs.Messages.{kind_of};
ghost use Rattle.tm_types.specs.Parts.{child_of, manager_of, rm_event_of, reply_of, is_read_only};

use crate::same::{same_id, same_node, same_rm};
use std::marker::Model;
use vms_base::{Bid, Kind, NodeName, Reply, RmEvent, RmList, RmName, Serial, SerialList};

/// A transaction's first branch is active or ending; another branch is joining, active or voting; either may be prepared.
#[derive(Clone, Copy, Debug, PartialEq, Eq, Drop)]
pub enum State {
    Joining,
    Active,
    Ending,
    Voting,
    Prepared,
}

/// A serial that a first branch has accepted.
#[derive(Clone, Copy, Debug, Default, PartialEq, Eq, Drop)]
pub struct Child {
    /// The identifier by which it was authorised.
    pub bid: Bid,
    pub serial: Serial,
    /// Yes or ReadOnly, once it is noted.
    pub vote: Option<Kind>,
}

/// A resource manager that joined a branch.
#[derive(Clone, Copy, Debug, Default, PartialEq, Eq, Drop)]
pub struct Manager {
    pub rm: RmName,
    /// The event that waits for its reply.
    pub event: Option<RmEvent>,
    /// The reply that was noted last.
    pub reply: Option<Reply>,
}

/// At most 15 identifiers of branches.
#[derive(Debug, Drop)]
pub struct BidList {
    places: [Bid; 15],
    used: usize,
}

impl Model for BidList {
    ghost use Rattle.std.specs.Prelude.{◌≡◌, ◌≤◌, List, take, length};
    ghost use Rattle.vms_base.specs.vms_model.Limits.{bid_limit};
    ghost use Rattle.vms_base.specs.declared.ids.Bid.{Bid};

    ghost Value = { List Bid };

    ghost view = { λ l. take l.used l.places };

    ghost invariant = { λ l. (l.used ≤ bid_limit) × (length l.places ≡ bid_limit) };
}

impl BidList {
    /// A list without identifiers.
    pub fn new() -> Self
        ensures { result ≡ [] }
    {
        BidList {
            places: [Bid::default(); 15],
            used: 0,
        }
    }

    /// The identifiers in order.
    pub fn items(&self) -> &[Bid]
        ensures value { result.now ≡ self.now }
        ensures few { length self.now ≤ bid_limit }
    {
        &self.places[..self.used]
    }

    /// Adds an identifier at the end.
    pub fn push(&mut self, bid: Bid)
        requires { length self.old < bid_limit }
        ensures { self.new ≡ self.old ++ bid ∷ [] }
    {
        self.places[self.used] = bid;
        self.used += 1;
    }

    /// Another list of the same identifiers.
    pub fn copy(&self) -> Self
        ensures { result ≡ self.now }
    {
        let mut list = BidList::new();
        for b in self.items() {
            list.push(*b);
        }
        list
    }

    /// Whether the identifier is in the list.
    pub fn contains(&self, bid: &Bid) -> bool
        ensures few { length self.now ≤ bid_limit }
        ensures found { result ≡ list_any (λ x. same_id_of x (bid_of bid.now)) (map bid_of self.now) }
    {
        for b in self.items() {
            if same_id(&b.0, &bid.0) {
                return true;
            }
        }
        false
    }

    /// Whether each of them has a serial.
    pub fn all_taken(&self, children: &ChildList) -> bool
        ensures { result ≡ all_taken (map bid_of self.now) (map child_of children.now) }
    {
        for b in self.items() {
            if !children.has_bid(b) {
                return false;
            }
        }
        true
    }
}

/// At most 15 accepted serials.
#[derive(Debug, Drop)]
pub struct ChildList {
    places: [Child; 15],
    used: usize,
}

impl Model for ChildList {
    ghost use Rattle.std.specs.Prelude.{◌≡◌, ◌≤◌, List, take, length};
    ghost use Rattle.vms_base.specs.vms_model.Limits.{bid_limit};
    ghost use Rattle.tm_types.specs.declared.lists.Child.{Child};

    ghost Value = { List Child };

    ghost view = { λ l. take l.used l.places };

    ghost invariant = { λ l. (l.used ≤ bid_limit) × (length l.places ≡ bid_limit) };
}

fn lacks_its_vote(child: &Child, serial: &Serial) -> bool
    ensures { result ≡ lacks_vote (serial_of serial.now) (child_of child.now) }
{
    same_id(&child.serial.0, &serial.0) && child.vote.is_none()
}

fn is_awaited(child: &Child, node: &NodeName) -> bool
    ensures { result ≡ (same_name (child_of child.now).serial.node node.now && not (is_noted (child_of child.now).vote)) }
{
    same_node(&child.serial.0.node, node) && child.vote.is_none()
}

fn is_joined(child: &Child, bid: &Bid, serial: &Serial) -> bool
    ensures { result ≡ (same_id_of (child_of child.now).bid (bid_of bid.now) && same_id_of (child_of child.now).serial (serial_of serial.now)) }
{
    same_id(&child.bid.0, &bid.0) && same_id(&child.serial.0, &serial.0)
}

fn voted_yes(child: &Child) -> bool
    ensures { result ≡ is_yes (child_of child.now).vote }
{
    matches!(child.vote, Some(Kind::Yes))
}

// A serial that voted ReadOnly hears of no abort.
fn hears_abort(child: &Child) -> bool
    ensures { result ≡ not (is_read_only (child_of child.now).vote) }
{
    !matches!(child.vote, Some(Kind::ReadOnly))
}

impl ChildList {
    /// A list without serials.
    pub fn new() -> Self
        ensures { result ≡ [] }
    {
        ChildList {
            places: [Child::default(); 15],
            used: 0,
        }
    }

    /// The accepted serials in order of acceptance.
    pub fn items(&self) -> &[Child]
        ensures value { result.now ≡ self.now }
        ensures few { length self.now ≤ bid_limit }
    {
        &self.places[..self.used]
    }

    /// Adds a serial at the end.
    pub fn push(&mut self, child: Child)
        requires { length self.old < bid_limit }
        ensures { self.new ≡ self.old ++ child ∷ [] }
    {
        self.places[self.used] = child;
        self.used += 1;
    }

    /// Another list of the same serials.
    pub fn copy(&self) -> Self
        ensures { result ≡ self.now }
    {
        let mut list = ChildList::new();
        for c in self.items() {
            list.push(*c);
        }
        list
    }

    /// Whether a serial has this identifier.
    pub fn has_bid(&self, bid: &Bid) -> bool
        ensures { result ≡ has_bid (bid_of bid.now) (map child_of self.now) }
    {
        for c in self.items() {
            if same_id(&c.bid.0, &bid.0) {
                return true;
            }
        }
        false
    }

    /// Whether the serial is in the list.
    pub fn has_serial(&self, serial: &Serial) -> bool
        ensures { result ≡ has_serial (serial_of serial.now) (map child_of self.now) }
    {
        for c in self.items() {
            if same_id(&c.serial.0, &serial.0) {
                return true;
            }
        }
        false
    }

    /// Whether this very serial has this identifier.
    pub fn joined_as(&self, bid: &Bid, serial: &Serial) -> bool
        ensures { result ≡ joined_as (bid_of bid.now) (serial_of serial.now) (map child_of self.now) }
    {
        for c in self.items() {
            if is_joined(c, bid, serial) {
                return true;
            }
        }
        false
    }

    /// Whether the serial is there and has no vote.
    pub fn lacks_vote(&self, serial: &Serial) -> bool
        ensures { result ≡ list_any (λ c. lacks_vote (serial_of serial.now) c) (map child_of self.now) }
    {
        for c in self.items() {
            if lacks_its_vote(c, serial) {
                return true;
            }
        }
        false
    }

    /// Whether a serial of the node has no vote.
    pub fn awaits(&self, node: &NodeName) -> bool
        ensures { result ≡ list_any (λ c. same_name c.serial.node node.now && not (is_noted c.vote)) (map child_of self.now) }
    {
        for c in self.items() {
            if is_awaited(c, node) {
                return true;
            }
        }
        false
    }

    /// Whether each serial has a vote.
    pub fn all_voted(&self) -> bool
        ensures { result ≡ all_voted (map child_of self.now) }
    {
        for c in self.items() {
            if c.vote.is_none() {
                return false;
            }
        }
        true
    }

    /// The list with the vote of a serial that had none.
    pub fn with_vote(&self, serial: &Serial, vote: Kind) -> ChildList
        ensures { map child_of result ≡ note_vote (serial_of serial.now) (kind_of vote) (map child_of self.now) }
    {
        let mut list = ChildList::new();
        let mut noted = false;
        for c in self.items() {
            if !noted && lacks_its_vote(c, serial) {
                list.push(Child {
                    bid: c.bid,
                    serial: c.serial,
                    vote: Some(vote),
                });
                noted = true;
            } else {
                list.push(*c);
            }
        }
        list
    }

    /// The list without a serial.
    pub fn others(&self, serial: &Serial) -> ChildList
        ensures { map child_of result ≡ others (serial_of serial.now) (map child_of self.now) }
    {
        let mut list = ChildList::new();
        for c in self.items() {
            if !same_id(&c.serial.0, &serial.0) {
                list.push(*c);
            }
        }
        list
    }

    /// The serials alone, in order of acceptance.
    pub fn serials(&self) -> SerialList
        ensures { map serial_of result ≡ serials (map child_of self.now) }
    {
        let mut list = SerialList::new();
        for c in self.items() {
            list.push(c.serial);
        }
        list
    }

    /// The serials that voted Yes.
    pub fn yes(&self) -> SerialList
        ensures { map serial_of result ≡ yes_of (map child_of self.now) }
    {
        let mut list = SerialList::new();
        for c in self.items() {
            if voted_yes(c) {
                list.push(c.serial);
            }
        }
        list
    }

    /// The serials that an abort is sent to: all that did not vote ReadOnly.
    pub fn told_abort(&self) -> SerialList
        ensures { (t : ModelId) → to_each Abort t (map serial_of result) ≡ told_abort t (map child_of self.now) }
    {
        let mut list = SerialList::new();
        for c in self.items() {
            if hears_abort(c) {
                list.push(c.serial);
            }
        }
        list
    }
}

/// Whether the reply is one to the event.
pub fn answers(event: RmEvent, reply: Reply) -> bool
    ensures { result ≡ answers (rm_event_of event) (reply_of reply) }
{
    match event {
        RmEvent::Prepare => matches!(reply, Reply::Prepared | Reply::Forget | Reply::Veto),
        RmEvent::Commit => matches!(reply, Reply::Forget | Reply::Remember),
        RmEvent::OnePhase => matches!(reply, Reply::Normal | Reply::Prepared | Reply::Veto),
        RmEvent::Abort => false,
    }
}

fn answers_waiting(event: Option<RmEvent>, reply: Reply) -> bool
    ensures { result ≡ answers_waiting (option_map rm_event_of event) (reply_of reply) }
{
    match event {
        Some(event) => answers(event, reply),
        None => false,
    }
}

fn is_answered(manager: &Manager, rm: &RmName, reply: Reply) -> bool
    ensures { result ≡ (same_name (manager_of manager.now).rm rm.now && answers_waiting (manager_of manager.now).event (reply_of reply)) }
{
    same_rm(&manager.rm, rm) && answers_waiting(manager.event, reply)
}

/// At most 8 managers.
#[derive(Debug, Drop)]
pub struct ManagerList {
    places: [Manager; 8],
    used: usize,
}

impl Model for ManagerList {
    ghost use Rattle.std.specs.Prelude.{◌≡◌, ◌≤◌, List, take, length};
    ghost use Rattle.tm_types.specs.declared.lists.Manager.{Manager};

    ghost Value = { List Manager };

    ghost view = { λ l. take l.used l.places };

    ghost invariant = { λ l. (l.used ≤ 8) × (length l.places ≡ 8) };
}

impl ManagerList {
    /// A list without managers.
    pub fn new() -> Self
        ensures { result ≡ [] }
    {
        ManagerList {
            places: [Manager::default(); 8],
            used: 0,
        }
    }

    /// The managers in order of joining.
    pub fn items(&self) -> &[Manager]
        ensures value { result.now ≡ self.now }
        ensures few { length self.now ≤ 8 }
    {
        &self.places[..self.used]
    }

    /// Adds a manager at the end.
    pub fn push(&mut self, manager: Manager)
        requires { length self.old < 8 }
        ensures { self.new ≡ self.old ++ manager ∷ [] }
    {
        self.places[self.used] = manager;
        self.used += 1;
    }

    /// Another list of the same managers.
    pub fn copy(&self) -> Self
        ensures { result ≡ self.now }
    {
        let mut list = ManagerList::new();
        for m in self.items() {
            list.push(*m);
        }
        list
    }

    /// The list in which each manager is asked, so that its reply is waited for.
    pub fn asked(&self, event: RmEvent) -> ManagerList
        ensures { map manager_of result ≡ asks (rm_event_of event) (map manager_of self.now) }
    {
        let mut list = ManagerList::new();
        for m in self.items() {
            list.push(Manager {
                rm: m.rm,
                event: Some(event),
                reply: None,
            });
        }
        list
    }

    /// The list with a manager's reply, after which no event of it waits.
    pub fn with_reply(&self, rm: &RmName, reply: Reply) -> ManagerList
        ensures { map manager_of result ≡ note_reply rm.now (reply_of reply) (map manager_of self.now) }
    {
        let mut list = ManagerList::new();
        let mut noted = false;
        for m in self.items() {
            if !noted && same_rm(&m.rm, rm) {
                list.push(Manager {
                    rm: m.rm,
                    event: None,
                    reply: Some(reply),
                });
                noted = true;
            } else {
                list.push(*m);
            }
        }
        list
    }

    /// Whether the manager has joined.
    pub fn contains(&self, rm: &RmName) -> bool
        ensures { result ≡ list_any (λ m. same_name m.rm rm.now) (map manager_of self.now) }
    {
        for m in self.items() {
            if same_rm(&m.rm, rm) {
                return true;
            }
        }
        false
    }

    /// Whether the manager has joined, and the reply is one to the event that waits for it.
    pub fn awaits(&self, rm: &RmName, reply: Reply) -> bool
        ensures { result ≡ list_any (λ m. same_name m.rm rm.now && answers_waiting m.event (reply_of reply)) (map manager_of self.now) }
    {
        for m in self.items() {
            if is_answered(m, rm, reply) {
                return true;
            }
        }
        false
    }

    /// Whether each manager has a noted reply.
    pub fn all_replied(&self) -> bool
        ensures { result ≡ all_replied (map manager_of self.now) }
    {
        for m in self.items() {
            if m.reply.is_none() {
                return false;
            }
        }
        true
    }

    /// The managers' names.
    pub fn names(&self) -> RmList
        ensures { result ≡ joined (map manager_of self.now) }
    {
        let mut list = RmList::new();
        for m in self.items() {
            list.push(m.rm);
        }
        list
    }

    /// The managers that replied prepared.
    pub fn holding(&self) -> RmList
        ensures { result ≡ holding (map manager_of self.now) }
    {
        let mut list = RmList::new();
        for m in self.items() {
            if let Some(Reply::Prepared) = m.reply {
                list.push(m.rm);
            }
        }
        list
    }

    /// The managers that hear of an abort: all that replied neither forget nor veto.
    pub fn interested(&self) -> RmList
        ensures { result ≡ interested (map manager_of self.now) }
    {
        let mut list = RmList::new();
        for m in self.items() {
            match m.reply {
                Some(Reply::Forget | Reply::Veto) => {}
                _ => list.push(m.rm),
            }
        }
        list
    }
}
