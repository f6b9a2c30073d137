//! The text of moments, by the civil calendar.
#![tactic(auto)]

mod times;

pub use times::{TimeErr, TimeText, read_time, write_time, written_times_are_read};
