//! Units as their holders have them.
ghost use Rattle.std.specs.Prelude.{◌≡◌, ◌∷◌, [], IfNone, IfSome};

use std::marker::Model;
use thiserror::Error;
use unit_restarts::Restarted;
use vms_base::{Moment, Outcome, Serial, Tid};

/// Why no unit was begun.
#[derive(Clone, Copy, Debug, PartialEq, Eq, Drop, Error)]
pub enum BeginErr {
    /// 64 units are unsettled.
    #[error("as many units are unsettled as may be")]
    Quota,
}

/// A unit that is not settled. It is to be spent, or all units to be forgotten.
#[derive(Drop)]
pub struct ActiveUnit {
    pub(crate) place: u8,
}

impl Model for ActiveUnit {
    ghost use Rattle.std.specs.Prelude.{ℕ, ◌<◌};
    ghost use Rattle.vms_model.specs.Limits.{branch_limit};

    ghost Value = { ℕ };

    ghost view = { λ u. u.place };

    ghost invariant = { λ u. u.place < branch_limit };
}

/// A unit that is prepared: it waits for its outcome. It is to be spent, or all units to be forgotten.
#[derive(Drop)]
pub struct PreparedUnit {
    pub(crate) place: u8,
}

impl Model for PreparedUnit {
    ghost use Rattle.std.specs.Prelude.{ℕ, ◌<◌};
    ghost use Rattle.vms_model.specs.Limits.{branch_limit};

    ghost Value = { ℕ };

    ghost view = { λ u. u.place };

    ghost invariant = { λ u. u.place < branch_limit };
}

/// What a unit votes.
#[derive(Drop)]
pub enum Vote {
    /// It changed nothing, and no manager is to be told its outcome: it is no more.
    ReadOnly,
    /// It is prepared.
    Yes(PreparedUnit),
}

/// How a unit was settled. It has to be spent.
pub struct SettledUnit {
    pub(crate) tid: Tid,
    pub(crate) serial: Serial,
    pub(crate) outcome: Outcome,
    pub(crate) moment: Moment,
}

/// The next of the prepared branches' units that a restart found, in the order of their records.
pub fn next_prepared(restarted: &mut Restarted) -> Option<PreparedUnit>
    ensures next { IfSome result (λ place. restarted.old ≡ record restarted.new { units = place ∷ restarted.new.units }) }
    ensures none { IfNone result ((restarted.old.units ≡ []) × (restarted.new ≡ restarted.old)) }
{
    match restarted.next_place() {
        Some(place) => Some(PreparedUnit { place }),
        None => None,
    }
}
