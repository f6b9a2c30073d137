//! The run: a script's lines, served by nodes over their disks, and its transcript; or a day of transactions, and its summary.
#![tactic(auto)]

mod command;
mod law;
mod rack;
mod top;

pub use law::{known_runs_are_whole, left_nodes_open, made_runs_are_whole, opening_nodes_exist};
pub use rack::{Rack, RackCause, RackErr};
pub use top::{Exit, run};
