//! The units of a volume as what stands above them sees them: by the serials of their branches, and each call as an act of the node of the world.
#![tactic(auto)]

mod begun;
mod held;
mod logged;
mod settled;
mod units;

pub use units::NodeUnits;
