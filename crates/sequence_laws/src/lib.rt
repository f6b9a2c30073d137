//! The laws by which the changes of a branch in a sequential file are undone, step by step, from whatever a fall has left of them.
//!
//! The crate has definitions and laws, and nothing that runs. `specs/Undoing` has the records that a branch goes back to, and `specs/Laws` the steps.
#![tactic(auto)]

ghost use Rattle.sequence_laws.specs.Laws.{CutGoesBack, SetGoesBack, SetMay, AllSetIsBack, OtherGoesBack, NothingGoesBack, ChangeGoesBack, ChangeBesideGoesBack};

/// A sequential file goes back to the records that it is to have without a branch step by step. Where a position from the lowest absent one on cannot
/// be set back in place, the file is cut there first; then each position that the branch changed is set to its earliest before image. After each step
/// it still goes back to the same records, whatever was done before a fall, and no position of another branch changes. None is left at which it has
/// to be cut again.
pub fn steps_go_back()
    ensures cut { CutGoesBack }
    ensures set { SetGoesBack }
{}

/// In ascending order each of these sets can be done: in place to a record of the same length, or as the next record where it fits the file.
pub fn sets_can_be_done()
    ensures { SetMay }
{}

/// Once each changed position has its earliest before image, there are the records that there are to be.
pub fn all_set_is_back()
    ensures { AllSetIsBack }
{}

/// Of two branches with changes of one file, of which one at most moved its end, the second still goes back once the first is back.
pub fn other_goes_back()
    ensures { OtherGoesBack }
{}

/// A branch has records to go back to from its first change on: whatever it changes next, while nothing of it is undone, it goes back to the same ones, and
/// whatever another branch changes, of which one at most moves the end, there are some.
pub fn changes_go_back()
    ensures nothing { NothingGoesBack }
    ensures own { ChangeGoesBack }
    ensures beside { ChangeBesideGoesBack }
{}
