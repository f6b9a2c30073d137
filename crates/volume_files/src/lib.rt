//! The records of a volume's files: read, and changed by what is staged, with the heads of their files.
#![tactic(auto)]

mod reading;
mod staging;

pub use reading::{find_record, need_buckets, next_record, place_of, read_record};
pub use staging::{blocks_are_whole, stage_back, stage_cut, stage_value};
