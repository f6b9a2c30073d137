//! Recovery units of one node, by the serials of their branches. The calls are a trait: its contracts say what they promise.
#![tactic(auto)]

mod calls;
mod laws;
mod settled;

pub use calls::RecoveryUnits;
pub use laws::{forms_refuse_alike, units_stand_apart};
pub use settled::{Reopened, SettledUnit};
