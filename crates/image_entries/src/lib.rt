//! The entries of a file's journal of images, read from its ring.
#![tactic(auto)]

mod changes;
mod reading;

pub use changes::{changed_image, changed_key};
pub use reading::{ImageEntries, ReadErr, read_entries};
