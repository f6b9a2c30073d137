//! The records of a file in memory, and what its journals of images make of them.
#![tactic(auto)]

mod reading;
mod rolling;

pub use image_laws::images_follow;
pub use reading::read_records;
pub use rolling::{Images, roll_back, roll_forward};
