//! What a plain, slow program keeps of unsettled branches: the journal of their changes by its entries, and the keys that they hold.
#![tactic(auto)]

mod journal;
mod locks;
mod shown;
mod sizes;
mod units;

pub use journal::{
    Journal, JournalEntry, empty_journal, entries_for, with_changes, with_prepared, with_settled,
    without_settled,
};
pub use locks::{holder, new_locks, released, with_locks};
pub use shown::journal_shown;
pub use sizes::{end_of, entries_size, free_bytes, owed_first};
pub use units::{Unit, active_units, changes_made, find_unit, units_in};
