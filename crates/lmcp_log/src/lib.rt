//! The transaction log of a node: slots on its volume, each of which has a record of a prepared branch or of a committed one, or is free.
#![tactic(auto)]

mod law;
mod listing;
mod log;
mod places;
mod slot;

pub use law::log_is_as_it_was_left;
pub use log::{Log, LogErr};
pub use slot::{has_form, read_slot, write_slot};
