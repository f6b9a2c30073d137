//! The index of an indexed file in the blocks of a content: the leaf that a key leads to, and entries that are handed up from level to level.
#![tactic(auto)]

mod descent;
mod growing;
mod law;
mod stage;

pub use descent::{MAX_HEIGHT, Path, descend, load_index};
pub use growing::{Growth, climb};
pub use index_bucket::{ENTRY_BYTES, Handed, entry_bytes};
pub use law::{climb_leads, levels_lead, levels_may_climb, levels_read};
pub use stage::{hand_in, stage_index};
