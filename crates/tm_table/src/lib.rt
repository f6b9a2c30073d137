//! The protocol table of one node: presumed abort, with resource managers.
#![tactic(auto)]

mod acts;
mod branches;
mod coordinator;
mod messages;
mod outcomes;
mod participant;
mod places;
mod refusals;
mod replies;
mod restarts;
mod steps;
mod sweeps;
mod table;
mod tm;

pub use commit_protocol::agreement;
pub use tm::Tm;
