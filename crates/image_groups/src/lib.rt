//! The files of the run's world while entries of images are put at the ends of their journals.
//!
//! The crate has laws, and nothing that runs. `image_appends` puts entries at the ends of the journals of a volume's files; `specs/Groups` says which files
//! of the world the volume has then.
#![tactic(auto)]

ghost use Rattle.image_groups.specs.Groups.{EntersChange, EntersOutcome, EntersOutcomeLeft, EntersSide, EntersTold};
ghost use Rattle.image_groups.specs.Lists.{EntersBehind, EntersMoved};

/// With an entry of images at the end of a file's journal the volume has the world's file with that entry; so with both images of a change, and with the
/// outcome of a branch in each file that it changed, also after a fall. Images of several changes that stand behind the ends of a file's journals are in
/// them once the ends move over them. The buckets of all files stay.
pub fn images_join_groups()
    ensures side { EntersSide }
    ensures change { EntersChange }
    ensures told { EntersTold }
    ensures outcome { EntersOutcome }
    ensures left { EntersOutcomeLeft }
    ensures moved { EntersMoved }
    ensures behind { EntersBehind }
{}
