// Branches by their states, and what refuses a statement by them.
ghost use Rattle.std.specs.Prelude.{◌≡◌, option_map, not};
ghost use Rattle.commit_protocol.specs.Table as table;
ghost use Rattle.commit_protocol.specs.Allowed as allowed;
ghost use Rattle.reference_index.specs.run_model.Answers as answers;
ghost use Rattle.vms_base.specs.Ids.{id_of};
ghost use Rattle.tm_types.specs.Branches.{branch_of as branch_said};
ghost use Rattle.reference_world.specs.Standing.{branch_key_of, line_of};
ghost use Rattle.reference_branches.specs.Branches.{shared_of, is_wanted as is_wanted_said};

use crate::shared::Shared;
use reference_records::refused_if;
use reference_world::{BranchKey, Line, same_id};
use tm_types::{BranchState, State, same_id as same_branch_id};
use vms_base::{Id, Label};

/// The branch of a state.
pub fn key_of(b: &BranchState) -> BranchKey
    ensures { branch_key_of result ≡ (branch_said b.now).key }
{
    BranchKey {
        tid: b.tid.0,
        serial: b.serial.0,
    }
}

/// What a branch has to be for a statement.
#[derive(Clone, Copy, Drop)]
pub enum Wanted {
    FirstActive,
    MayEnd,
    Working,
    Open,
    InDoubt,
    Nowhere,
}

fn is_active(b: &BranchState) -> bool
    ensures { result ≡ allowed.is_active (branch_said b.now).state }
{
    match b.state {
        State::Active => true,
        _ => false,
    }
}

/// Whether a branch is prepared.
pub fn is_prepared(b: &BranchState) -> bool
    ensures { result ≡ allowed.is_prepared (branch_said b.now).state }
{
    match b.state {
        State::Prepared => true,
        _ => false,
    }
}

// The first branch of its transaction.
fn is_first(b: &BranchState) -> bool
    ensures { result ≡ table.is_first (branch_said b.now) }
{
    same_branch_id(&b.serial.0, &b.tid.0)
}

// It has joined its coordinator, and is not ended.
pub(crate) fn is_working(b: &BranchState) -> bool
    ensures { result ≡ allowed.is_working (branch_said b.now) }
{
    is_active(b) && !b.ended
}

// The first branch of a transaction of which END_TRANS was not called.
fn is_first_active(b: &BranchState) -> bool
    ensures { result ≡ answers.is_first_active (branch_said b.now) }
{
    is_first(b) && is_active(b)
}

// It can be ended by END_BRANCH.
fn may_end(b: &BranchState) -> bool
    ensures { result ≡ allowed.may_end (branch_said b.now) }
{
    is_working(b) && !is_first(b)
}

// Whether it is so.
fn is_wanted(b: &BranchState, wanted: Wanted) -> bool
    ensures { result ≡ is_wanted_said wanted (branch_said b.now) }
{
    match wanted {
        Wanted::FirstActive => is_first_active(b),
        Wanted::MayEnd => may_end(b),
        Wanted::Working => is_working(b),
        Wanted::Open => !is_prepared(b),
        Wanted::InDoubt => is_prepared(b),
        Wanted::Nowhere => false,
    }
}

/// It is in a state in which it is not used so.
pub fn wrong_state(found: &Option<BranchState>, wanted: Wanted) -> Option<Line>
    ensures { option_map line_of result ≡ answers.in_state (is_wanted_said wanted) (option_map branch_said found.now) }
{
    match found {
        Some(b) => refused_if(!is_wanted(b, wanted), Line::WrongState),
        None => None,
    }
}

/// What refuses a new label.
pub fn new_label(shared: &Shared, name: &Label) -> Option<Line>
    ensures { option_map line_of result ≡ answers.new_label (shared_of shared.now) name.now }
{
    match shared.label(name) {
        Some(_) => Some(Line::BadLabel),
        None => refused_if(100_000 <= shared.labels.len(), Line::BadLabel),
    }
}

/// A branch that is used is not unsettled.
pub fn unsettled(found: &Option<BranchState>) -> Option<Line>
    ensures { option_map line_of result ≡ answers.unsettled (option_map branch_said found.now) }
{
    match found {
        Some(_) => None,
        None => Some(Line::NoSuchTransaction),
    }
}

/// Another branch holds a key that is asked for by a branch, or by none.
pub fn held_against(asking: &Option<Id>, holder: Option<Id>) -> Option<Line>
    ensures { option_map line_of result ≡ answers.held_against (option_map id_of asking.now) (option_map id_of holder) }
{
    match holder {
        None => None,
        Some(by) => match asking {
            None => Some(Line::RecordLocked(by)),
            Some(serial) => {
                let other = !same_id(serial, &by);
                refused_if(other, Line::RecordLocked(by))
            }
        },
    }
}
