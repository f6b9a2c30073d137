// What the messages of the commit protocol, the events of resource managers and the records of the log are made of.
ghost use Rattle.std.specs.Prelude.{◌≡◌, ◌<◌, ◌≤◌, [], ◌∷◌, ◌++◌, length};
ghost use Rattle.vms_model.specs.Limits.{bid_limit};

use crate::ids::{Serial, Tid};
use crate::names::RmName;
use std::marker::Model;

/// What a message of the commit protocol says.
#[derive(Clone, Copy, Debug, PartialEq, Eq, Drop)]
pub enum Kind {
    Join,
    JoinOk,
    JoinNo,
    Prepare,
    Yes,
    ReadOnly,
    No,
    Commit,
    Abort,
    Ack,
    Inquire,
}

/// What a resource manager is told.
#[derive(Clone, Copy, Debug, PartialEq, Eq, Drop)]
pub enum RmEvent {
    Prepare,
    Commit,
    Abort,
    OnePhase,
}

/// What a resource manager replies.
#[derive(Clone, Copy, Debug, PartialEq, Eq, Drop)]
pub enum Reply {
    Prepared,
    Forget,
    Veto,
    Remember,
    Normal,
}

/// The kinds of records in a node's log.
#[derive(Clone, Copy, Debug, PartialEq, Eq, Drop)]
pub enum LogKind {
    Prepared,
    Committed,
}

/// At most 15 serials, as many as a transaction has branches beside its first.
#[derive(Debug, Drop)]
pub struct SerialList {
    places: [Serial; 15],
    used: usize,
}

impl Model for SerialList {
    ghost use Rattle.std.specs.Prelude.{◌≡◌, ◌≤◌, List, take, length};
    ghost use Rattle.vms_model.specs.Limits.{bid_limit};
    ghost use Rattle.vms_base.specs.declared.ids.Serial.{Serial};

    ghost Value = { List Serial };

    ghost view = { λ l. take l.used l.places };

    ghost invariant = { λ l. (l.used ≤ bid_limit) × (length l.places ≡ bid_limit) };
}

impl SerialList {
    /// A list without serials.
    pub fn new() -> Self
        ensures { result ≡ [] }
    {
        SerialList {
            places: [Serial::default(); 15],
            used: 0,
        }
    }

    /// The serials in order.
    pub fn items(&self) -> &[Serial]
        ensures value { result.now ≡ self.now }
        ensures few { length self.now ≤ bid_limit }
    {
        &self.places[..self.used]
    }

    /// Adds a serial at the end.
    pub fn push(&mut self, serial: Serial)
        requires { length self.old < bid_limit }
        ensures { self.new ≡ self.old ++ serial ∷ [] }
    {
        self.places[self.used] = serial;
        self.used += 1;
    }

    /// Another list of the same serials.
    pub fn copy(&self) -> Self
        ensures { result ≡ self.now }
    {
        let mut list = SerialList::new();
        for s in self.items() {
            list.push(*s);
        }
        list
    }
}

/// At most 8 resource managers, as many as may join a branch.
#[derive(Debug, Drop)]
pub struct RmList {
    places: [RmName; 8],
    used: usize,
}

impl Model for RmList {
    ghost use Rattle.std.specs.Prelude.{◌≡◌, ◌≤◌, ℕ, List, take, length};

    ghost Value = { List (List ℕ) };

    ghost view = { λ l. take l.used l.places };

    ghost invariant = { λ l. (l.used ≤ 8) × (length l.places ≡ 8) };
}

impl RmList {
    /// A list without managers.
    pub fn new() -> Self
        ensures { result ≡ [] }
    {
        RmList {
            places: [RmName::default(); 8],
            used: 0,
        }
    }

    /// The managers in order.
    pub fn items(&self) -> &[RmName]
        ensures value { result.now ≡ self.now }
        ensures few { length self.now ≤ 8 }
    {
        &self.places[..self.used]
    }

    /// Adds a manager at the end.
    pub fn push(&mut self, rm: RmName)
        requires { length self.old < 8 }
        ensures { self.new ≡ self.old ++ rm ∷ [] }
    {
        self.places[self.used] = rm;
        self.used += 1;
    }

    /// Another list of the same managers.
    pub fn copy(&self) -> Self
        ensures { result ≡ self.now }
    {
        let places = self.places;
        RmList {
            places,
            used: self.used,
        }
    }
}

/// A record of a node's log. A prepared record has the managers that replied prepared, and no waiting serials. A committed record has the serials whose
/// acknowledgement, and the managers whose reply, it still waits for: at least one of them.
#[derive(Debug, Drop)]
pub struct LogRec {
    pub kind: LogKind,
    pub tid: Tid,
    pub serial: Serial,
    /// In order of acceptance.
    pub waiting: SerialList,
    /// In order of joining.
    pub rms: RmList,
}

impl LogRec {
    /// Another record that says the same.
    pub fn copy(&self) -> Self
        ensures { result ≡ self.now }
    {
        LogRec {
            kind: self.kind,
            tid: self.tid,
            serial: self.serial,
            waiting: self.waiting.copy(),
            rms: self.rms.copy(),
        }
    }
}
