//! What a plain, slow program makes of a file by its journals of images and its save: a recovery's records, what refuses it, the room of rings, and their lines.
#![tactic(auto)]

mod lines;
mod loading;
mod refusals;
mod rolling;
mod room;

pub use lines::images_shown;
pub use loading::{Load, recovered};
pub use refusals::{has_journal, journal_at, recovery_refused, side_for};
pub use room::images_full;
