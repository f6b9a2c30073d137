//! The recovery units of a node that are not settled, in memory: where their changes stand in the journal, and which files they changed.
#![tactic(auto)]

mod place;
mod table;

pub use place::{Branch, MOST_CHANGES};
pub use table::{MOST_UNITS, UnitTable};
