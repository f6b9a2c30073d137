//! What the nodes of a run share: the labels that name branches, the messages that were sent, and whether a volume may still be made.
#![tactic(auto)]

mod labels;
mod shared;

pub use labels::{LabelEntry, Labels};
pub use shared::Shared;
