//! A copy of a file's buckets is read as the file.
//!
//! The crate has definitions and laws, and nothing that runs. `specs/Saves` has the head by which a file's save is read, and `specs/Laws` the laws.
#![tactic(auto)]

ghost use Rattle.save_laws.specs.Laws.{CopiesAreRead, SavesAreRead, SavesStay};

/// A copy of the buckets of a file that is laid out is read as the file at another place: with the same records under the same keys, and laid out
/// too. So is a save that has the numbers of the file as it is; and it stays what it is while its blocks stand, whatever becomes of the file.
pub fn copies_are_read()
    ensures copies { CopiesAreRead }
    ensures saves { SavesAreRead }
    ensures stay { SavesStay }
{}
