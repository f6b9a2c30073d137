//! Recovery of a volume's files by their journals of images.
#![tactic(auto)]

mod loading;
mod recovering;
mod replacing;

pub use recovering::recover;
