//! The room in the rings of files' journals of images.
#![tactic(auto)]

mod fitting;
mod refusing;

pub use fitting::images_fit;
pub use refusing::images_refusal;
