//! A bucket: a list of slots behind a header, at the front of a frame.
#![tactic(auto)]

mod bytes;
mod front;
mod kind;
mod layout;
mod packed;
mod page;

pub use front::{clear_front, insert_front, link_front, remove_front, replace_front, split_front};
pub use kind::PageKind;
pub use packed::slot_start;
pub use page::Page;
