//! The values of the protocol table: unsettled branches, what happens to them, and what the table hands to the layers above it.
#![tactic(auto)]

mod branch;
mod effects;
mod events;
mod lists;
mod records;
mod same;

pub use branch::BranchState;
pub use effects::{Effect, Effects};
pub use events::Event;
pub use lists::{BidList, Child, ChildList, Manager, ManagerList, State, answers};
pub use records::{acknowledged, has_rm, holds, is_done, owing, released, waits_for};
pub use same::{same_id, same_node, same_rm};
