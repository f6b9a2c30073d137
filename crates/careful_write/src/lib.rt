//! A disk whose content is changed by groups of blocks, each whole or not at all.
#![tactic(auto)]

mod down;
mod group;
mod law;
mod load;
mod store;

pub use block_disk::{Disk, DiskErr};
pub use down::Down;
pub use law::{one_content, power_keeps};
pub use store::{Full, Group, HOME, OpenErr, Store};
