//! Index buckets of an indexed file, in their bytes: the child that a key leads to, and entries that are handed up into a bucket.
#![tactic(auto)]

mod entries;
mod grow;
mod hand;
mod parents;

pub use entries::{find_entry, step};
pub use hand::{ENTRY_BYTES, Handed, take_handed, taken_are_held};
pub use parents::{entry_bytes, make_root, parent_of};
