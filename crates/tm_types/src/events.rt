// What a node's table is told.
use net_wire::Message;
use vms_base::{Bid, Moment, NodeName, Reason, Reply, RmName, Serial, Tid};

/// What a node's table is told: statements, a message, the clock, a lost link, and the run-down before a settling.
#[derive(Clone, Copy, Debug, Drop)]
pub enum Event {
    Start {
        tid: Tid,
        due: Option<Moment>,
    },
    Authorise {
        tid: Tid,
        bid: Bid,
    },
    Begin {
        tid: Tid,
        serial: Serial,
        bid: Bid,
    },
    JoinRm {
        serial: Serial,
        rm: RmName,
    },
    Changed {
        serial: Serial,
    },
    EndTrans {
        tid: Tid,
    },
    EndBranch {
        serial: Serial,
    },
    Abort {
        serial: Serial,
        reason: Reason,
    },
    Replied {
        serial: Serial,
        rm: RmName,
        reply: Reply,
    },
    Got(Message),
    Clock(Moment),
    LinkDown(NodeName),
    RunDown,
    Inquire {
        serial: Serial,
    },
}
