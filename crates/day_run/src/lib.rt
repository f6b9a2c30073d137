//! A day of transactions, served line by line by the engine of a run.
#![tactic(auto)]

mod serving;

pub use run_nodes::{Node, Nodes, Shared, serve_statement};
pub use serving::serve_day;
