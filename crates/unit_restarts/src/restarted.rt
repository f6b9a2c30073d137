//! What a restart tells.
ghost use Rattle.std.specs.Prelude.{◌≡◌, ◌<◌, ◌∷◌, [], IfOk, IfSome, IfNone};
ghost use Rattle.vms_model.specs.Limits.{branch_limit};
ghost use Rattle.unit_restarts.specs.Restarting.{nothing_told};

use std::alloc::{AllocError, Global};
use std::marker::Model;
use unit_aborts::AbortedUnit;
use vms_base::LogRec;

/// What a restart tells: the units that it undid, in the order of their settlements; the records of the prepared branches, in the order in which
/// these were prepared, with their units; and the committed records, in the order of the log's slots. Room for 64, 64 and 512 is taken once.
#[derive(Drop)]
pub struct Restarted {
    pub(crate) undone: Vec<AbortedUnit>,
    pub(crate) prepared: Vec<LogRec>,
    pub(crate) committed: Vec<LogRec>,
    // The places of the prepared branches' units, in the order of their records.
    pub(crate) places: Vec<u8>,
    // The prepared records of branches without an entry in the journal, in the order of the slots.
    pub(crate) listed: Vec<LogRec>,
}

impl Model for Restarted {
    ghost use Rattle.std.specs.Prelude.{◌≤◌, ◌<◌, vec_capacity};
    ghost use Rattle.std.specs.List.{AllByRecursion};
    ghost use Rattle.vms_model.specs.Limits.{branch_limit, slot_limit};
    ghost use Rattle.unit_restarts.specs.Restarting.{RestartTold};

    ghost Value = { RestartTold };

    ghost view = { λ r. record { undone = r.undone.items; prepared = r.prepared.items; committed = r.committed.items; units = r.places.items } };

    ghost invariant = { λ r. (branch_limit ≤ vec_capacity r.undone) × (branch_limit ≤ vec_capacity r.prepared) × (slot_limit ≤ vec_capacity r.committed) × (branch_limit ≤ vec_capacity r.places) × (branch_limit ≤ vec_capacity r.listed) × AllByRecursion (λ p. p < branch_limit) r.places.items };
}

impl Restarted {
    /// With nothing in it.
    pub fn reserve(alloc: Global) -> Result<Restarted, AllocError>
        ensures { IfOk result (λ r. r ≡ nothing_told) }
    {
        Ok(Restarted {
            undone: Vec::with_capacity(alloc, 64)?,
            prepared: Vec::with_capacity(alloc, 64)?,
            committed: Vec::with_capacity(alloc, 512)?,
            places: Vec::with_capacity(alloc, 64)?,
            listed: Vec::with_capacity(alloc, 64)?,
        })
    }

    /// The units that were undone.
    pub fn undone(&self) -> &[AbortedUnit]
        ensures { result.now ≡ self.now.undone }
    {
        &self.undone
    }

    /// The records of the prepared branches.
    pub fn prepared(&self) -> &[LogRec]
        ensures { result.now ≡ self.now.prepared }
    {
        &self.prepared
    }

    /// The committed records.
    pub fn committed(&self) -> &[LogRec]
        ensures { result.now ≡ self.now.committed }
    {
        &self.committed
    }

    /// The place of the next of the prepared branches' units, in the order of their records.
    pub fn next_place(&mut self) -> Option<u8>
        ensures next { IfSome result (λ place. self.old ≡ record self.new { units = place ∷ self.new.units }) }
        ensures below { IfSome result (λ place. place < branch_limit) }
        ensures none { IfNone result ((self.old.units ≡ []) × (self.new ≡ self.old)) }
    {
        if self.places.is_empty() {
            return None;
        }
        Some(self.places.remove(0))
    }

    /// Forgets what was told. The room stays.
    pub(crate) fn clear(&mut self)
        ensures { self.new ≡ nothing_told }
    {
        self.undone.clear();
        self.prepared.clear();
        self.committed.clear();
        self.places.clear();
    }
}
