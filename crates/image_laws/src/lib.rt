//! What is read of a file's journal of images from the blocks of its ring.
//!
//! The crate has definitions and laws, and nothing that runs. `file_images` says which bytes of a ring are a journal of images, and `specs/Laws` how
//! its entries are read from them.
#![tactic(auto)]

ghost use Rattle.image_laws.specs.Laws.{ImagesAreRead, ImagesArePlaced};

pub use image_entries::{ImageEntries, ReadErr, changed_image, changed_key, read_entries};

/// The entries of a file's journal of images are those that are read from its ring, from a position on, each with where it begins; and each stands at its
/// own position.
pub fn images_follow()
    ensures read { ImagesAreRead }
    ensures placed { ImagesArePlaced }
{}
