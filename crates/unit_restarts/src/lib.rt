//! A restart of the units of a volume with its log: those that a fall left are undone, and those that are prepared are units again.
#![tactic(auto)]

mod restarted;
mod restarting;

pub use restarted::Restarted;
pub use restarting::{RestartRoom, restart};
pub use unit_aborts::{AbortedUnit, abort_unit};
