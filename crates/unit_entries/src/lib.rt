//! What the entries of a unit tell: the keys that it changed, with the earliest entry of each. And the journal as a restart reads it, once: the units
//! that it leaves, and the order in which the branches of a log's prepared records were prepared.
#![tactic(auto)]

mod collecting;
mod keys;
mod reading;
mod voting;

pub use collecting::{collect_keys, key_in};
pub use keys::{ChangedKey, ChangedKeys, MOST_KEYS};
pub use reading::read_journal;
