//! What the nodes of a plain program share, and branches: their states, events and lines.
#![tactic(auto)]

mod doubts;
mod events;
mod keys;
mod lines;
mod managers;
mod shared;
mod states;

pub use doubts::{arranged, prepared_serials, question, sent_alone};
pub use events::{authorises, begins, branch_label, joins};
pub use keys::{alone, branch_among, branch_in};
pub use lines::{end_answer, line_before, prepared_lines, reason_for, settled_line};
pub use managers::{
    Known, awaited_reply, has_joined, is_among, join_refused, known_branch, known_manager,
    more_managers, names_without, owed_lines, standing,
};
pub use shared::Shared;
pub use states::{Wanted, held_against, is_prepared, key_of, new_label, unsettled, wrong_state};
