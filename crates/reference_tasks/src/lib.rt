//! What is asked of a node of a plain, slow program: requests, and what a statement does there besides.
#![tactic(auto)]

mod serving;
mod tasks;

pub use reference_node::Node;
pub use serving::serve;
pub use tasks::{Task, TaskShown, perform};
