//! What the entries of a recovery unit journal tell: the units that are not settled.
#![tactic(auto)]

mod state;
mod unit;

pub use state::{MOST_ENTRIES, MOST_UNITS, RuErr, RuState};
pub use unit::{MOST_CHANGES, UnitInfo};
