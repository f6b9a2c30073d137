//! A plain, slow program's node: its requests, its table and what becomes of them.
#![tactic(auto)]

mod acts;
mod boot;
mod doubts;
mod log;
mod managers;
mod node;
mod refusals;
mod table;
mod transactions;

pub use node::Node;
