//! Changes of one key of a file: what is asked for, the keys that are asked for it, and what refuses it by what stands and by who holds what.
#![tactic(auto)]

mod asked;
mod changing;
mod locking;

pub use asked::{Asked, KeyChange};
pub use changing::{asked_by, read_before, room_in_file};
pub use locking::{
    HeldIn, MOST_LOCKS, asks_end, free_keys, hold_key, is_same, lock_refusal, locks_refusal,
};
pub use unit_cuts::{
    Cut, CutRoom, commit_cut, cut_records, gone_size, measure, own_branch, settle_own,
};
