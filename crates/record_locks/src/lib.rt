//! The locks of a node: keys of files that are held by branches.
#![tactic(auto)]

mod lock_log;
mod locks;
mod turns;

pub use locks::{LockErr, Locks};
