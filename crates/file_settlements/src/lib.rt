//! Settlements of branches whose files keep journals of images.
#![tactic(auto)]

mod law;
mod settling;

pub use law::settlements_without_images;
pub use settling::settle_with_files;
