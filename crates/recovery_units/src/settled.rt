//! Settlements, and what a restart finds, as they are told.
ghost use Rattle.std.specs.Prelude.{◌≡◌, ◌<◌, ◌++◌, ◌∷◌, [], IfOk, length};
ghost use Rattle.vms_model.specs.Limits.{branch_limit, slot_limit};
ghost use Rattle.recovery_units.specs.Told.{nothing_told};

use std::alloc::{AllocError, Global};
use std::marker::Model;
use vms_base::{LogRec, Moment, Serial, Tid};

/// A unit that was settled at this moment.
#[derive(Clone, Copy, Debug, Drop)]
pub struct SettledUnit {
    pub tid: Tid,
    pub serial: Serial,
    pub moment: Moment,
}

/// What a restart tells: the settlements of the units that it undid, in their order; the records of prepared branches, in the order in which these
/// were prepared; and the committed records, in the order of the slots. Room for 64, 64 and 512 is taken once.
#[derive(Drop)]
pub struct Reopened {
    settled: Vec<SettledUnit>,
    prepared: Vec<LogRec>,
    committed: Vec<LogRec>,
}

impl Model for Reopened {
    ghost use Rattle.std.specs.Prelude.{◌≤◌, vec_capacity};
    ghost use Rattle.vms_model.specs.Limits.{branch_limit, slot_limit};
    ghost use Rattle.recovery_units.specs.Told.{ReopenedTold};

    ghost Value = { ReopenedTold };

    ghost view = { λ r. record { settled = r.settled.items; prepared = r.prepared.items; committed = r.committed.items } };

    ghost invariant = { λ r. (branch_limit ≤ vec_capacity r.settled) × (branch_limit ≤ vec_capacity r.prepared) × (slot_limit ≤ vec_capacity r.committed) };
}

impl Reopened {
    /// With nothing in it.
    pub fn reserve(alloc: Global) -> Result<Reopened, AllocError>
        ensures { IfOk result (λ r. r ≡ nothing_told) }
    {
        Ok(Reopened {
            settled: Vec::with_capacity(alloc, 64)?,
            prepared: Vec::with_capacity(alloc, 64)?,
            committed: Vec::with_capacity(alloc, 512)?,
        })
    }

    /// The settlements.
    pub fn settled(&self) -> &[SettledUnit]
        ensures { result.now ≡ self.now.settled }
    {
        &self.settled
    }

    /// The records of prepared branches.
    pub fn prepared(&self) -> &[LogRec]
        ensures { result.now ≡ self.now.prepared }
    {
        &self.prepared
    }

    /// The committed records.
    pub fn committed(&self) -> &[LogRec]
        ensures { result.now ≡ self.now.committed }
    {
        &self.committed
    }

    /// Tells one settlement more, behind the others.
    pub fn push(&mut self, unit: SettledUnit)
        requires { length self.old.settled < branch_limit }
        ensures { self.new ≡ record self.old { settled = self.old.settled ++ unit ∷ [] } }
    {
        self.settled.push_reserved(unit);
    }

    /// Tells the record of one prepared branch more, behind the others.
    pub fn push_prepared(&mut self, logged: &LogRec)
        requires { length self.old.prepared < branch_limit }
        ensures { self.new ≡ record self.old { prepared = self.old.prepared ++ logged.now ∷ [] } }
    {
        self.prepared.push_reserved(logged.copy());
    }

    /// Tells one committed record more, behind the others.
    pub fn push_committed(&mut self, logged: &LogRec)
        requires { length self.old.committed < slot_limit }
        ensures { self.new ≡ record self.old { committed = self.old.committed ++ logged.now ∷ [] } }
    {
        self.committed.push_reserved(logged.copy());
    }

    /// Forgets them. Their room stays.
    pub fn clear(&mut self)
        ensures { self.new ≡ nothing_told }
    {
        self.settled.clear();
        self.prepared.clear();
        self.committed.clear();
    }
}
