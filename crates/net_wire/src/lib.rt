//! The network: numbered messages, which are kept so that any of them may be delivered at any time and any number of times.
#![tactic(auto)]

mod wire;

pub use wire::{Message, Wire};
