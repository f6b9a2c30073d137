//! Definitions of which node of the run's world a volume is, and of what a node that fell leaves of its volume.
//!
//! The crate has definitions and a law, and nothing that runs. `specs/Entries` has the entries of the world's journal as a disk has them, and `specs/Laws` how
//! they follow the world's; `specs/Homes` has what a home block tells; `specs/Volumes` what a node that is up has in its volume, and what one leaves that fell.
#![tactic(auto)]

ghost use Rattle.volume_model.specs.Laws.{EntriesFollow};

/// The entries on a disk follow those of the world: they have as many bytes, stay where files keep their names, are joined and are trimmed alike.
pub fn entries_follow()
    ensures { EntriesFollow }
{}
