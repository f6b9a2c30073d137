//! What a content has of a file's journals of images and of its save.
//!
//! The crate has definitions and laws, and nothing that runs. `specs/Images` says which bytes of a ring are a journal of images, `specs/Files` what the
//! blocks of a head's journals and of its save have, and `specs/Laws` how both follow what is written.
#![tactic(auto)]

ghost use Rattle.file_images.specs.Laws.{ImagesStand, ImagesGrow, ImagesBegin, JournalsStand, SidesFollow, FormsSuit, SavesFollow};

/// The entries in a ring are a file's journal of images, which stands in order; so they are with one entry more at the end, and where the journal begins
/// anew behind a whole block.
pub fn rings_follow()
    ensures stand { ImagesStand }
    ensures grow { ImagesGrow }
    ensures begin { ImagesBegin }
    ensures stays { JournalsStand }
{}

/// What a head's file has of journals of images and of a save stays what the head tells: while the blocks stand, with one entry more, where a journal begins
/// or ends, and where a save is made. Whether an entry suits the head is told by the head's form alone.
pub fn journals_and_saves_follow()
    ensures sides { SidesFollow }
    ensures forms { FormsSuit }
    ensures saves { SavesFollow }
{}
