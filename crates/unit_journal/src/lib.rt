//! The entries of recovery units in the journal of a volume, and the settlements of their branches.
#![tactic(auto)]

mod entering;
mod entries;
mod settling;

pub use entering::{enter, journal_refusal};
pub use entries::{encode_change, encode_prepared, encode_settled, entry_size};
pub use settling::{next_moment, settle, settle_staged, stage_settlement};
