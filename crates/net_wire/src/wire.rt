// Messages of the commit protocol, and the list of those that were sent.
ghost use Rattle.std.specs.Prelude.{◌≡◌, ◌≤◌, ◌^◌, ◌↔◌, [], ◌∷◌, ◌++◌, length, IsNone, OnSome, IfSome, IfNone, IfOk, option_copied};
ghost use Rattle.net_wire.specs.Network.{numbered};

use std::alloc::{AllocError, Global};
use std::marker::Model;
use vms_base::{Bid, Kind, NodeName, Serial, Tid};

/// A message of the commit protocol speaks of one branch: a transaction and a serial. A Join, and no other, has the identifier by which the branch was
/// authorised.
#[derive(Clone, Copy, Debug, PartialEq, Eq, Drop)]
pub struct Message {
    pub kind: Kind,
    pub from: NodeName,
    pub to: NodeName,
    pub tid: Tid,
    pub serial: Serial,
    pub bid: Option<Bid>,
}

/// Every message that was sent, by its number from 1, up to a limit. A message past the limit is lost.
#[derive(Drop)]
pub struct Wire {
    kept: Vec<Message>,
    limit: u32,
}

impl Model for Wire {
    ghost use Rattle.std.specs.Prelude.{◌≤◌, ◌<◌, ◌^◌, vec_len, vec_capacity};
    ghost use Rattle.net_wire.specs.Network.{Network};

    ghost Value = { Network };

    ghost view = { λ w. record { messages = w.kept.items; limit = w.limit } };

    ghost invariant = { λ w. (vec_len w.kept ≤ w.limit) × (w.limit ≤ vec_capacity w.kept) × (w.limit < 2 ^ 32) };
}

impl Wire {
    /// A wire that keeps this many messages, or an error where there is no memory for them.
    pub fn reserve(alloc: Global, limit: u32) -> Result<Wire, AllocError>
        ensures { IfOk result (λ w. w ≡ record { messages = []; limit = limit }) }
    {
        let kept = Vec::with_capacity(alloc, limit as usize)?;
        Ok(Wire { kept, limit })
    }

    /// Keeps a message and gives its number: the first is 1. None exactly where the limit is reached; the message is then lost. Takes no memory.
    pub fn send(&mut self, m: Message) -> Option<u32>
        ensures full { IsNone result ↔ (length self.old.messages ≡ self.old.limit) }
        ensures lost { IfNone result (self.new ≡ self.old) }
        ensures number { IfSome result (λ k. k ≡ length self.new.messages) }
        ensures kept { OnSome result (self.new ≡ record { messages = self.old.messages ++ m ∷ []; limit = self.old.limit }) }
    {
        // The check makes a proof only where the type of the identifier is named here.
        let _bid: Option<Bid> = m.bid;
        let sent = self.len();
        if sent == self.limit {
            return None;
        }
        self.kept.push_reserved(m);
        Some(sent + 1)
    }

    /// How many messages are kept.
    pub fn len(&self) -> u32
        ensures count { result ≡ length self.now.messages }
        ensures within { result ≤ self.now.limit }
    {
        self.kept.len() as u32
    }

    /// The message with this number. None exactly where none has it.
    pub fn nth(&self, k: u32) -> Option<&Message>
        ensures { option_copied result ≡ numbered k self.now.messages }
    {
        if k == 0 {
            return None;
        }
        self.kept.get(k as usize - 1)
    }
}
