//! A plain, slow program that computes what a script shows where no disk fails.
#![tactic(auto)]

mod rack;
mod script;

pub use rack::Place;
pub use script::{Ending, Shown, reference_transcript, reference_transcript_of};
