//! What a file's journals of images and its save tell of its records, and what a recovery makes of them.
//!
//! The crate has definitions and laws, and nothing that runs. `specs/Journal` has journals of images and what is rolled forward and back by them,
//! `specs/File` a file with its journals and its save, `specs/Room` what is free in their rings, `specs/Acts` what may be done with the file,
//! `specs/Opening` what a run finds, `specs/Recovery` when a recovery is refused and what it is to give, `specs/Places` the entries that it uses, and
//! `specs/Laws` the laws.
#![tactic(auto)]

ghost use Rattle.recovery_model.specs.Laws.{FoundRecovers, CreatedRecovers, LeftIsFound, CreatedIsFound, FoundStaysTold, CreatedStaysTold, FoundHasRoom, CreatedHasRoom, EachUserIsFirst, MapsStay, CreatedMapsStay, PlacesAreRolled, SizesAgree};

/// After any of these acts on a file, each recovery that is not refused gives the records of its moment: forward by the save and the after images
/// since, or backward by the before images from what stands.
pub fn recoveries_give_records()
    ensures found { FoundRecovers }
    ensures created { CreatedRecovers }
{}

/// What these acts leave of a file is what the next run may find, as far as recovery asks.
pub fn left_files_are_found()
    ensures found { LeftIsFound }
    ensures created { CreatedIsFound }
{}

/// A recovery that the journals and the save reach is to give the next run what it is to give this one.
pub fn recoveries_stay_told()
    ensures found { FoundStaysTold }
    ensures created { CreatedStaysTold }
{}

/// The changes of one statement fit the rings one after another where neither ring is full for them together, and a settlement always fits.
pub fn room_suffices()
    ensures found { FoundHasRoom }
    ensures created { CreatedHasRoom }
{}

/// The first branch in an order that changed a file uses it; where none did, what stands is what has been committed.
pub fn users_are_first()
    ensures { EachUserIsFirst }
{}

/// What a test finds of a file's records at each moment of a run, and of what recoveries were to give where the run found it, it finds of what they
/// are to give later.
pub fn recovered_maps_stay()
    ensures found { MapsStay }
    ensures created { CreatedMapsStay }
{}

/// The images of the chosen entries, set one after another, are what a recovery makes.
pub fn places_are_rolled()
    ensures { PlacesAreRolled }
{}

/// An entry of a journal of images takes as many bytes as the same entry in any journal.
pub fn sizes_agree()
    ensures { SizesAgree }
{}
