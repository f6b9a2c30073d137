//! Units are aborted: what they changed is set back from their entries in the journal, and the last group of that has their settlement too. A restart
//! aborts all units that a fall left.
#![tactic(auto)]

mod aborting;
mod reopening;

pub use aborting::{abort_unit, keys_beside};
pub use reopening::{AbortedUnit, reopen_units};
pub use unit_undo::undo_unit;
