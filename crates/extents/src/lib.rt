//! Where the files of a volume lie, and which blocks are free.
#![tactic(auto)]

mod extent;
mod fits;
mod runs;

pub use extent::{Extent, all_extents, extents_of};
pub use fits::{first_misfit, fits_at};
pub use runs::{free_run, longest_free};
