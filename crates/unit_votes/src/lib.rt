//! Votes of units: a branch is prepared, and settled afterwards, in groups that write its entries in the journal and its record in the log together.
#![tactic(auto)]

mod aborting;
mod committing;
mod law;
mod logging;
mod preparing;

pub use aborting::abort_logged;
pub use committing::commit_logged;
pub use law::{undo_leaves_the_log, units_and_log_hang_together};
pub use logging::{set_record, write_record};
pub use preparing::enter_vote;
