//! One node over its disk: what is asked of it, answered step by step as the world of a run says.
#![tactic(auto)]

mod boot;
mod node;

pub use node::{Flow, Node};
pub use recovery_units::RecoveryUnits;
pub use run_shared::Shared;
