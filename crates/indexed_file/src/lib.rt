//! The leaves of indexed files: buckets of sorted slots, each of which leads to the next one.
#![tactic(auto)]

mod law;
mod leaf;
mod make;
mod next;
mod parts;
mod read;
mod restore;
mod set;
mod slots;

pub use change_set::{Held, give_frame, take_frame};
pub use law::{order_law, part_law, put_law, room_law, target_law, tidy_law};
pub use make::make_file;
pub use next::next_in_leaf;
pub use read::read_slot;
pub use restore::restore_in_leaf;
pub use set::set_in_leaf;
