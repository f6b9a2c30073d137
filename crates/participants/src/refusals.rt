// Why a statement of a resource manager is refused, and the tests of it.
ghost use Rattle.std.specs.Prelude.{◌≡◌, length, nat_le, slice_get};
ghost use Rattle.std.specs.List.{list_any};
ghost use Rattle.vms_model.specs.Limits.{manager_limit};
ghost use Rattle.run_model.specs.commit_protocol.Allowed.{may_reply, there_is};
ghost use Rattle.run_model.specs.Answers.{has_joined as has_joined_said, is_joinable as is_joinable_said};
ghost use Rattle.tm_types.specs.Branches.{branch_of};
ghost use Rattle.tm_types.specs.Parts.{reply_of};

use thiserror::Error;
use tm_table::Tm;
use tm_types::{BranchState, State};
use vms_base::{Reply, RmName};

// How many resource managers join a branch, at the most.
const MOST_JOINED: usize = 8;

/// Why a statement of a resource manager is refused.
#[derive(Clone, Copy, Debug, PartialEq, Eq, Error, Drop)]
pub enum RmErr {
    /// No branch of this serial is unsettled, and, of a reply, no committed record of it stands.
    #[error("no branch of this serial is known")]
    NoTid,
    /// The manager is not declared; or it has not joined the branch, or the committed record does not wait for it.
    #[error("no such resource manager")]
    NoRm,
    /// The branch, the manager or the event that waits does not allow it.
    #[error("the state does not allow it")]
    State,
    /// As many managers are declared, or have joined the branch, as may be.
    #[error("there are as many resource managers as may be")]
    Quota(u32),
}

// Whether a resource manager has joined a branch.
pub(crate) fn has_joined(branch: &BranchState, rm: &RmName) -> bool
    ensures { result ≡ has_joined_said rm.now (branch_of branch.now) }
{
    branch.managers.contains(rm)
}

// Whether a resource manager may join a branch, however many have.
pub(crate) fn is_joinable(branch: &BranchState, rm: &RmName) -> bool
    ensures { result ≡ is_joinable_said rm.now (branch_of branch.now) }
{
    branch.state == State::Active && !branch.ended && !has_joined(branch, rm)
}

// Whether as many resource managers have joined a branch as may.
pub(crate) fn is_full(branch: &BranchState) -> bool
    ensures { result ≡ nat_le manager_limit (length (branch_of branch.now).managers) }
{
    branch.managers.items().len() >= MOST_JOINED
}

// Whether an event of a branch waits for a manager's reply, and the reply is one to that event.
pub(crate) fn is_awaited(branch: &BranchState, rm: &RmName, reply: Reply) -> bool
    ensures { result ≡ may_reply rm.now (reply_of reply) (branch_of branch.now) }
{
    branch.managers.awaits(rm, reply)
}

// Whether a resource manager has joined the unsettled branch at a place.
fn has_joined_at(table: &Tm, place: u32, rm: &RmName) -> bool
    ensures { result ≡ there_is (slice_get table.now.table place) (has_joined_said rm.now) }
{
    match table.branch_at(place) {
        Some(branch) => has_joined(branch, rm),
        None => false,
    }
}

// Whether a resource manager has joined an unsettled branch.
pub(crate) fn has_joined_any(table: &Tm, rm: &RmName) -> bool
    ensures { result ≡ list_any (has_joined_said rm.now) table.now.table }
{
    for place in 0..table.branch_count() as u32 {
        if has_joined_at(table, place, rm) {
            return true;
        }
    }
    false
}
