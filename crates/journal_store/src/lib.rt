//! Journals: lists of entries in rings of blocks.
#![tactic(auto)]

mod appending;
mod entry;
mod law;
mod renewal;

pub use appending::{AppendErr, append};
pub use entry::entry_at;
pub use law::{
    bytes_behind_the_end, entries_stand_where_they_begin, fewer_entries, one_entry_more,
};
pub use renewal::renew;
