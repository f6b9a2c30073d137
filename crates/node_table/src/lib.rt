//! What a node keeps while it is up, and how it does what its table says: act after act, each shown, up to a failure of its disk.
#![tactic(auto)]

mod acts;
mod running;
mod stored;

pub use recovery_units::RecoveryUnits;
pub use running::Running;
pub use stored::{Room, Stored};
