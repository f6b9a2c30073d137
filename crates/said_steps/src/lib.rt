//! What lines of single nodes say of all of them, and of the calls of their disks.
#![tactic(auto)]

ghost use Rattle.said_steps.specs.Calls.{AllRestarted, SomeRestarted};
ghost use Rattle.said_steps.specs.Own.{OwnLinesSay, OwnRequestsSay};

/// Lines that tell of one node alone say of it among all nodes what they say of it alone, and leave what was said of the others. So does a request to
/// it with its answer.
pub fn own_lines_leave_others()
    ensures lines { OwnLinesSay }
    ensures requests { OwnRequestsSay }
{}

/// The lines of a settling tell which disks it made run again: those of the nodes that were down, up to the first that did not come up; and that of
/// this one, unless an INIT of it failed or memory was missing.
pub fn lines_tell_restarts()
    ensures all { AllRestarted }
    ensures up_to { SomeRestarted }
{}
