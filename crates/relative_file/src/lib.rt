//! Relative files: each record stands in the cell of its number, and all cells have one size.
#![tactic(auto)]

mod bucket;
mod cell;
mod file;
mod make;
mod relative;

pub use change_set::{Held, Place, RecordFile};
pub use relative::RelativeFile;
