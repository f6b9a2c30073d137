//! The labels of a run, in a table.
ghost use Rattle.std.specs.Prelude.{◌≡◌, ◌<◌, [], ◌∷◌, None, length, IfOk, IsSome, option_map, nat_le};
ghost use Rattle.vms_model.specs.Limits.{label_limit};
ghost use Rattle.run_model.specs.World.{find_label, with_serial};
ghost use Rattle.vms_base.specs.Ids.{serial_of};
ghost use Rattle.run_shared.specs.LabelTable.{label_of};

use indexmap::IndexMap;
use std::alloc::{AllocError, Global};
use std::marker::Model;
use vms_base::{Bid, Label, NodeName, Serial, Tid};

const MOST_LABELS: usize = 100_000;

/// The node that a label was made for, and its transaction. It names the transaction's first branch, or a branch that was authorised by this identifier, which
/// has a serial once it has begun.
#[derive(Clone, Copy, Debug, PartialEq, Eq, Drop)]
pub struct LabelEntry {
    pub node: NodeName,
    pub tid: Tid,
    pub bid: Option<Bid>,
    pub serial: Option<Serial>,
}

/// The labels of a run, which each are looked up in the same time however many there are.
#[derive(Drop)]
pub struct Labels {
    entries: IndexMap<Label, LabelEntry>,
}

impl Model for Labels {
    ghost use Rattle.std.specs.Prelude.{List};
    ghost use Rattle.run_model.specs.World.{Label as LabelSaid};

    ghost Value = { List LabelSaid };

    ghost use Rattle.run_shared.specs.LabelTable.{newest_first, IsLabelTable};

    ghost view = { λ l. newest_first l.entries.entries };

    ghost invariant = { λ l. IsLabelTable l.entries };
}

impl Labels {
    /// A table without labels that has room for 100,000, or an error where there is no memory for them.
    pub fn reserve(alloc: Global) -> Result<Labels, AllocError>
        ensures { IfOk result (λ labels. labels ≡ []) }
    {
        let entries = IndexMap::with_capacity(alloc, MOST_LABELS)?;
        Ok(Labels { entries })
    }

    /// The label of this name, if it was made.
    pub fn find(&self, label: &Label) -> Option<LabelEntry>
        ensures { option_map (label_of label.now) result ≡ find_label label.now self.now }
    {
        self.entries.get(label).copied()
    }

    /// Whether 100,000 labels were made.
    pub fn is_full(&self) -> bool
        ensures { result ≡ nat_le label_limit (length self.now) }
    {
        self.entries.len() >= MOST_LABELS
    }

    /// Makes a label. There is room for it, so no memory is taken.
    pub fn insert(&mut self, label: Label, entry: LabelEntry)
        requires room { length self.old < label_limit }
        requires new { find_label label self.old ≡ None }
        ensures { self.new ≡ label_of label entry ∷ self.old }
    {
        // The check makes a proof only where the types of the ids are named here.
        let _bid: Option<Bid> = entry.bid;
        let _serial: Option<Serial> = entry.serial;
        let _ = self.entries.insert(label, entry);
    }

    /// The branch of a label has begun, and has this serial.
    pub fn number(&mut self, label: &Label, serial: Serial)
        requires made { IsSome (find_label label.now self.old) }
        ensures { self.new ≡ with_serial label.now (serial_of serial) self.old }
    {
        let Some(entry) = self.entries.get_mut(label) else {
            unreachable!()
        };
        entry.serial = Some(serial);
    }
}
