//! Recovery units of one volume: many branches at once, each with its changes in the journal and its keys locked.
#![tactic(auto)]

mod aborting;
mod directly;
mod making;
mod one_key;
mod reading;
mod tokens;
mod truncating;
mod units;
mod voting;

pub use key_changes::{KeyChange, is_same};
pub use record_operations::{ReadOp, RecErr, RecordOp, form_refusal, read_refusal};
pub use tokens::{ActiveUnit, BeginErr, PreparedUnit, SettledUnit, Vote, next_prepared};
pub use unit_restarts::{AbortedUnit, Restarted};
pub use unit_votes::write_record;
pub use units::Units;
