//! Entries at the ends of a file's journals of images.
#![tactic(auto)]

mod appending;
mod changes;
mod settlements;
mod side;

pub use appending::append_image;
pub use changes::append_change;
pub use settlements::append_settlement;
pub use side::Side;
