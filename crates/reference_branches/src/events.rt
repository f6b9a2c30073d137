// What a node's table is told of branches, and the labels of those that are authorised.
ghost use Rattle.std.specs.Prelude.{◌≡◌, Some, None};
ghost use Rattle.commit_protocol.specs.Rows as rows;
ghost use Rattle.vms_base.specs.Ids.{id_of};
ghost use Rattle.tm_types.specs.Branches.{branch_of as branch_said};
ghost use Rattle.tm_types.specs.Events.{event_of};
ghost use Rattle.reference_world.specs.Standing.{label_of};

use reference_world::LabelEntry;
use tm_types::{BranchState, Event};
use vms_base::{Bid, Id, Label, NodeName, RmName, Serial, Tid};

/// A branch is authorised by this identifier.
pub fn authorises(b: &BranchState, bid: &Id) -> Event
    ensures { event_of result ≡ rows.Authorise (branch_said b.now).key.tid (id_of bid.now) }
{
    Event::Authorise {
        tid: Tid(b.tid.0),
        bid: Bid(*bid),
    }
}

/// The branch of a label begins.
pub fn begins(l: &LabelEntry, serial: &Id, bid: &Id) -> Event
    ensures { event_of result ≡ rows.Begin (id_of l.now.tid) (id_of serial.now) (id_of bid.now) }
{
    Event::Begin {
        tid: Tid(l.tid),
        serial: Serial(*serial),
        bid: Bid(*bid),
    }
}

/// The event that a manager joins a branch.
pub fn joins(b: &BranchState, rm: &RmName) -> Event
    ensures { event_of result ≡ rows.JoinRm (branch_said b.now).key.serial rm.now }
{
    Event::JoinRm {
        serial: b.serial,
        rm: *rm,
    }
}

/// The label of a branch that is authorised by this identifier for the other node.
pub fn branch_label(name: &Label, other: &NodeName, b: &BranchState, bid: &Id) -> LabelEntry
    ensures { label_of result ≡ record { name = name.now; node = other.now; tid = (branch_said b.now).key.tid; bid = Some (id_of bid.now); serial = None } }
{
    LabelEntry {
        name: *name,
        node: *other,
        tid: b.tid.0,
        bid: Some(*bid),
        serial: None,
    }
}
