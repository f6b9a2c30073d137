//! The nodes of a run, each over its disk, and the statements that they serve, part after part.
#![tactic(auto)]

mod nodes;
mod settling;
mod statements;

pub use dtm_node::{Node, Shared};
pub use nodes::Nodes;
pub use statements::serve_statement;
