// Resource managers: what is known of a branch by its node, and what refuses a statement by that.
ghost use Rattle.std.specs.Prelude.{◌≡◌, map, option_map, IfOk};
ghost use Rattle.std.specs.List.{list_any};
ghost use Rattle.std.specs.Option.{option_and_then};
ghost use Rattle.commit_protocol.specs.Messages.{same_name};
ghost use Rattle.commit_protocol.specs.Table.{without_rm};
ghost use Rattle.log_laws.specs.Slots.{waiting_for};
ghost use Rattle.reference_index.specs.run_model.Answers as answers;
ghost use Rattle.tm_types.specs.Branches.{branch_of as branch_said};
ghost use Rattle.tm_types.specs.Parts.{log_record_of, reply_of};
ghost use Rattle.reference_world.specs.Standing.{line_of, standing_of};
ghost use Rattle.reference_branches.specs.Managers.{known_of};

use crate::states::is_working;
use reference_index::{push_front, take_first};
use reference_records::refused_if;
use reference_world::{BranchKey, Line, Quota, Standing};
use std::alloc::{AllocError, Global};
use tm_types::{BranchState, State, answers as is_answer, has_rm, same_rm};
use vms_base::{LogRec, Reply, RmEvent, RmName};

/// What a node knows of a branch: it is unsettled, or else its committed record stands, or else nothing.
#[derive(Drop)]
pub enum Known {
    Unsettled(BranchState),
    Recorded(LogRec),
    Unheard,
}

/// Whether a manager is among these.
pub fn is_among(names: &[RmName], rm: &RmName) -> bool
    ensures { result ≡ list_any (λ x. same_name x rm.now) names.now }
{
    match names {
        [] => false,
        [name, rest @ ..] => same_rm(name, rm) || is_among(rest, rm),
    }
}

/// These names but for a manager's.
pub fn names_without(
    alloc: Global,
    names: Vec<RmName>,
    rm: &RmName,
) -> Result<Vec<RmName>, AllocError>
    ensures { IfOk result (λ v. v.items ≡ without_rm rm.now names.items) }
{
    let mut rest = names;
    match take_first(&mut rest) {
        None => Ok(Vec::new(alloc)),
        Some(name) => {
            let mut all = names_without(alloc, rest, rm)?;
            if same_rm(&name, rm) {
                Ok(all)
            } else {
                push_front(&mut all, name)?;
                Ok(all)
            }
        }
    }
}

/// A manager is told of each of these committed records that waits for it.
pub fn owed_lines(alloc: Global, rm: &RmName, records: &[LogRec]) -> Result<Vec<Line>, AllocError>
    ensures { IfOk result (λ v. map line_of v.items ≡ map (answers.owed_line rm.now) (waiting_for rm.now (map log_record_of records.now))) }
{
    match records {
        [] => Ok(Vec::new(alloc)),
        [record, rest @ ..] => {
            let mut lines = owed_lines(alloc, rm, rest)?;
            if has_rm(&record.rms, rm) {
                let branch = BranchKey {
                    tid: record.tid.0,
                    serial: record.serial.0,
                };
                push_front(&mut lines, Line::ManagerTold(RmEvent::Commit, branch, *rm))?;
                Ok(lines)
            } else {
                Ok(lines)
            }
        }
    }
}

/// A manager has joined the branch.
pub fn has_joined(b: &BranchState, rm: &RmName) -> bool
    ensures { result ≡ answers.has_joined rm.now (branch_said b.now) }
{
    b.managers.contains(rm)
}

// A manager may join the branch, however many have.
fn is_joinable(b: &BranchState, rm: &RmName) -> bool
    ensures { result ≡ answers.is_joinable rm.now (branch_said b.now) }
{
    is_working(b) && !has_joined(b, rm)
}

/// The branch is not so that a manager may join it.
pub fn join_refused(found: &Option<BranchState>, rm: &RmName) -> Option<Line>
    ensures { option_map line_of result ≡ answers.in_state (answers.is_joinable rm.now) (option_map branch_said found.now) }
{
    match found {
        Some(b) => refused_if(!is_joinable(b, rm), Line::WrongState),
        None => None,
    }
}

/// As many managers have joined the branch as may.
pub fn more_managers(found: &Option<BranchState>) -> Option<Line>
    ensures { option_map line_of result ≡ option_and_then answers.more_managers (option_map branch_said found.now) }
{
    match found {
        Some(b) => refused_if(
            8 <= b.managers.items().len(),
            Line::QuotaExceeded(Quota::Managers, 8),
        ),
        None => None,
    }
}

/// Nothing is known of the branch.
pub fn known_branch(known: &Known) -> Option<Line>
    ensures { option_map line_of result ≡ answers.known_branch (known_of known.now) }
{
    match known {
        Known::Unheard => Some(Line::NoSuchTransaction),
        _ => None,
    }
}

/// The manager has not joined the branch, or its record does not wait for the manager.
pub fn known_manager(rm: &RmName, known: &Known) -> Option<Line>
    ensures { option_map line_of result ≡ answers.known_manager rm.now (known_of known.now) }
{
    match known {
        Known::Unsettled(b) => refused_if(!has_joined(b, rm), Line::NoSuchManager),
        Known::Recorded(r) => refused_if(!has_rm(&r.rms, rm), Line::NoSuchManager),
        Known::Unheard => None,
    }
}

/// No event waits for the manager's reply, or it is none to that event.
pub fn awaited_reply(rm: &RmName, reply: Reply, known: &Known) -> Option<Line>
    ensures { option_map line_of result ≡ answers.awaited_reply rm.now (reply_of reply) (known_of known.now) }
{
    match known {
        Known::Unsettled(b) => refused_if(!b.managers.awaits(rm, reply), Line::WrongState),
        Known::Recorded(_) => refused_if(!is_answer(RmEvent::Commit, reply), Line::WrongState),
        Known::Unheard => None,
    }
}

// How an unsettled branch stands.
fn branch_standing(b: &BranchState) -> Standing
    ensures { standing_of result ≡ answers.branch_standing (branch_said b.now) (branch_said b.now).state }
{
    match b.state {
        State::Joining => Standing::Active,
        State::Active => {
            if b.asked {
                Standing::Ending
            } else {
                Standing::Active
            }
        }
        State::Ending => Standing::Ending,
        State::Voting => Standing::Ending,
        State::Prepared => Standing::Prepared,
    }
}

/// How a branch stands by what is known of it.
pub fn standing(known: &Known) -> Standing
    ensures { standing_of result ≡ answers.standing (known_of known.now) }
{
    match known {
        Known::Unsettled(b) => branch_standing(b),
        Known::Recorded(_) => Standing::Committed,
        Known::Unheard => Standing::Unknown,
    }
}
