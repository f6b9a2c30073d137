//! What tests of whole scripts share: texts, the run of a script over disks in memory, and statements that are drawn by numbers.
#![tactic(auto)]

pub use dtm_run::{Exit, Rack, RackCause, run};
pub use node_units::NodeUnits;

pub mod one_node;
pub mod racks;
pub mod random;
pub mod texts;
