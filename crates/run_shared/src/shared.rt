//! What the nodes of a rack share.
ghost use Rattle.std.specs.Prelude.{◌≡◌, ◌<◌, ◌+◌, [], ◌∷◌, false, true, Some, None, IfOk, IsSome, length, option_copied, if◌then◌else◌, nat_le, nat_lt};
ghost use Rattle.std.specs.Option.{option_map};
ghost use Rattle.vms_model.specs.Limits.{label_limit, message_limit};
ghost use Rattle.net_wire.specs.Messages.{message_of};
ghost use Rattle.run_model.specs.Statements.{message_at};
ghost use Rattle.run_model.specs.World.{find_label, posted, with_serial};
ghost use Rattle.vms_base.specs.Ids.{serial_of};
ghost use Rattle.run_shared.specs.LabelTable.{label_of};

use crate::labels::{LabelEntry, Labels};
use net_wire::{Message, Wire};
use std::alloc::{AllocError, Global};
use std::marker::Model;
use vms_base::{Label, Serial};

const MOST_MESSAGES: u32 = 1_000_000;

/// The labels of a run, the messages that were sent in it, and whether a node may have been in use, so that no volume is made any more.
#[derive(Drop)]
pub struct Shared {
    labels: Labels,
    in_use: bool,
    wire: Wire,
}

impl Model for Shared {
    ghost use Rattle.run_shared.specs.Sharing.{SharedState};

    ghost Value = { SharedState };

    ghost use Rattle.std.specs.Prelude.{◌≡◌, ◌≤◌, map, length};
    ghost use Rattle.net_wire.specs.Messages.{message_of};
    ghost use Rattle.vms_model.specs.Limits.{message_limit};

    ghost view = { λ s. record { labels = s.labels; in_use = s.in_use; wire = map message_of s.wire.messages } };

    ghost invariant = { λ s. (s.wire.limit ≡ message_limit) × (length s.wire.messages ≤ message_limit) };
}

impl Shared {
    /// No label, no message and no node that was in use, with room for all labels and messages of a run; or an error where there is no memory for them.
    pub fn reserve(alloc: Global) -> Result<Shared, AllocError>
        ensures { IfOk result (λ shared. shared ≡ record { labels = []; in_use = false; wire = [] }) }
    {
        Ok(Shared {
            labels: Labels::reserve(alloc)?,
            in_use: false,
            wire: Wire::reserve(alloc, MOST_MESSAGES)?,
        })
    }

    /// The label of this name, if it was made.
    pub fn find(&self, label: &Label) -> Option<LabelEntry>
        ensures { option_map (label_of label.now) result ≡ find_label label.now self.now.labels }
    {
        self.labels.find(label)
    }

    /// Whether 100,000 labels were made.
    pub fn is_full(&self) -> bool
        ensures { result ≡ nat_le label_limit (length self.now.labels) }
    {
        self.labels.is_full()
    }

    /// Makes a label. Takes no memory.
    pub fn make(&mut self, label: Label, entry: LabelEntry)
        requires room { length self.old.labels < label_limit }
        requires new { find_label label self.old.labels ≡ None }
        ensures { self.new ≡ record self.old { labels = label_of label entry ∷ self.old.labels } }
    {
        self.labels.insert(label, entry);
    }

    /// The branch of a label has begun, and has this serial.
    pub fn number(&mut self, label: &Label, serial: Serial)
        requires made { IsSome (find_label label.now self.old.labels) }
        ensures { self.new ≡ record self.old { labels = with_serial label.now (serial_of serial) self.old.labels } }
    {
        self.labels.number(label, serial);
    }

    /// Sends a message, and gives its number. None where a million were sent; then it is lost.
    pub fn send(&mut self, m: &Message) -> Option<u32>
        ensures posted { self.new ≡ record self.old { wire = posted (message_of m.now) self.old.wire } }
        ensures number { result ≡ (if nat_lt (length self.old.wire) message_limit then Some (length self.old.wire + 1) else None) }
    {
        self.wire.send(*m)
    }

    /// The message of this number, where one has it.
    pub fn message(&self, number: u32) -> Option<&Message>
        ensures { option_map message_of (option_copied result) ≡ message_at number self.now.wire }
    {
        self.wire.nth(number)
    }

    /// Whether no volume may be made any more.
    pub fn is_in_use(&self) -> bool
        ensures { result ≡ self.now.in_use }
    {
        self.in_use
    }

    /// No volume may be made any more.
    pub fn occupy(&mut self)
        ensures { self.new ≡ record self.old { in_use = true } }
    {
        self.in_use = true;
    }
}
