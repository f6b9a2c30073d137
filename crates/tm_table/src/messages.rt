// Messages between a branch and its coordinator.
ghost use Rattle.std.specs.Prelude.{◌≡◌, Some};
ghost use Rattle.commit_protocol.specs.Messages.{Join};
ghost use Rattle.commit_protocol.specs.Rows.{message, down, up};
ghost use Rattle.commit_protocol.specs.Table.{home_of, coordinator_of};
ghost use Rattle.vms_base.specs.Ids.{bid_of};
ghost use Rattle.net_wire.specs.Messages.{kind_of, message_of};
ghost use Rattle.tm_types.specs.Branches.{key_at};

use net_wire::Message;
use vms_base::{Bid, Kind, Serial, Tid};

/// The message to the branch's node, from its coordinator.
pub fn down(kind: Kind, tid: &Tid, serial: &Serial) -> Message
    ensures { message_of result ≡ down (kind_of kind) (key_at tid.now serial.now) }
{
    Message {
        kind,
        from: tid.0.node,
        to: serial.0.node,
        tid: *tid,
        serial: *serial,
        bid: None,
    }
}

/// The message to the coordinator, from the branch's node.
pub fn up(kind: Kind, tid: &Tid, serial: &Serial) -> Message
    ensures { message_of result ≡ up (kind_of kind) (key_at tid.now serial.now) }
{
    Message {
        kind,
        from: serial.0.node,
        to: tid.0.node,
        tid: *tid,
        serial: *serial,
        bid: None,
    }
}

/// The Join by which the branch asks its coordinator to accept it, with the branch id that was authorised.
pub fn join(tid: &Tid, serial: &Serial, bid: &Bid) -> Message
    ensures { message_of result
        ≡ message Join (home_of (key_at tid.now serial.now)) (coordinator_of (key_at tid.now serial.now)) (key_at tid.now serial.now) (Some (bid_of bid.now)) }
{
    Message {
        kind: Kind::Join,
        from: serial.0.node,
        to: tid.0.node,
        tid: *tid,
        serial: *serial,
        bid: Some(*bid),
    }
}
