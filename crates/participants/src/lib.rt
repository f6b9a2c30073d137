//! The resource managers that are declared at a node, and what refuses a statement of theirs.
#![tactic(auto)]

mod declared;
mod refusals;

pub use declared::Rms;
pub use refusals::RmErr;
