//! The entries of a journal as bytes.
#![tactic(auto)]

mod check;
mod coding;
mod head;
mod keys;

pub use check::{EntryErr, HEAD};
pub use coding::{EntryBuf, LONGEST_ENTRY, decode, encode};
pub use head::{EntryHead, EntryKind};
pub use keys::{key_number, number_key};
