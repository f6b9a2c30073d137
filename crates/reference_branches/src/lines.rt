// The lines that show how branches were settled, are prepared, or wait.
ghost use Rattle.std.specs.Prelude.{◌≡◌, ◌∷◌, map, option_map, IfOk};
ghost use Rattle.reference_index.specs.transcript_model.Lines as model;
ghost use Rattle.commit_protocol.specs.Rows as rows;
ghost use Rattle.reference_index.specs.run_model.Answers as answers;
ghost use Rattle.reference_index.specs.run_model.World as world;
ghost use Rattle.vms_base.specs.Ids.{id_of};
ghost use Rattle.vms_base.specs.Outcomes.{outcome_of, reason_of};
ghost use Rattle.tm_types.specs.Branches.{branch_of as branch_said};
ghost use Rattle.tm_types.specs.Parts.{child_of, manager_of};
ghost use Rattle.reference_world.specs.Standing.{branch_key_of, line_of, outcome_by, settlement_of};
ghost use Rattle.reference_branches.specs.Lines.{answer_else, answer_shown, key_line, settlement_line};

use reference_index::push_front;
use reference_world::{BranchKey, Line, Settlement};
use std::alloc::{AllocError, Global};
use tm_types::{BranchState, Child, Manager};
use vms_base::{Id, Outcome, Reason, RmName};

/// Why a branch is settled so: a commit has no reason.
pub fn reason_for(outcome: Outcome, reason: Reason) -> Option<Reason>
    ensures outcome { outcome_by result ≡ outcome_of outcome }
    ensures reason { option_map reason_of result ≡ world.reason_of (outcome_of outcome) (reason_of reason) }
{
    match outcome {
        Outcome::Commit => None,
        Outcome::Abort => Some(reason),
    }
}

/// The line of a settlement.
pub fn settled_line(s: &Settlement) -> Line
    ensures { line_of result ≡ settlement_line (settlement_of s.now) }
{
    let branch = BranchKey {
        tid: s.tid,
        serial: s.serial,
    };
    match s.reason {
        None => Line::Committed(branch, s.moment),
        Some(reason) => Line::Aborted(branch, reason, s.moment),
    }
}

/// A line for each of these prepared branches.
pub fn prepared_lines(alloc: Global, keys: &[BranchKey]) -> Result<Vec<Line>, AllocError>
    ensures { IfOk result (λ v. map line_of v.items ≡ map key_line (map branch_key_of keys.now)) }
{
    match keys {
        [] => Ok(Vec::new(alloc)),
        [key, rest @ ..] => {
            let mut lines = prepared_lines(alloc, rest)?;
            push_front(&mut lines, Line::Prepared(*key))?;
            Ok(lines)
        }
    }
}

/// A line, and others behind it.
pub fn line_before(lines: Vec<Line>, line: Line) -> Result<Vec<Line>, AllocError>
    ensures { IfOk result (λ v. map line_of v.items ≡ line_of line ∷ map line_of lines.items) }
{
    let mut all = lines;
    push_front(&mut all, line)?;
    Ok(all)
}

// The serials among these whose votes are missing.
fn missing(alloc: Global, children: &[Child]) -> Result<Vec<Id>, AllocError>
    ensures { IfOk result (λ v. map id_of v.items ≡ answers.missing (map child_of children.now)) }
{
    match children {
        [] => Ok(Vec::new(alloc)),
        [c, rest @ ..] => {
            let mut all = missing(alloc, rest)?;
            if c.vote.is_none() {
                push_front(&mut all, c.serial.0)?;
            }
            Ok(all)
        }
    }
}

// The names of managers.
fn names(alloc: Global, managers: &[Manager]) -> Result<Vec<RmName>, AllocError>
    ensures { IfOk result (λ v. v.items ≡ rows.joined (map manager_of managers.now)) }
{
    match managers {
        [] => Ok(Vec::new(alloc)),
        [m, rest @ ..] => {
            let mut all = names(alloc, rest)?;
            push_front(&mut all, m.rm)?;
            Ok(all)
        }
    }
}

// What END_TRANS is answered that showed these lines, where they settle a branch.
fn settled_shown(lines: &[Line]) -> Option<Line>
    ensures { option_map line_of result ≡ answer_shown (map line_of lines.now) }
{
    match lines {
        [] => None,
        [line, rest @ ..] => match line {
            Line::Committed(_, _) => Some(Line::Normal),
            Line::Aborted(_, reason, _) => Some(Line::TransactionAborted(*reason)),
            _ => settled_shown(rest),
        },
    }
}

/// What END_TRANS of this branch is answered where it showed these lines. Each of its managers is asked then, and none has replied.
pub fn end_answer(alloc: Global, lines: &[Line], b: &BranchState) -> Result<Line, AllocError>
    ensures { IfOk result (λ l. line_of l ≡ answer_else (answer_shown (map line_of lines.now)) (model.Pending (answers.missing (branch_said b.now).accepted) (rows.joined (branch_said b.now).managers))) }
{
    match settled_shown(lines) {
        Some(answer) => Ok(answer),
        None => {
            let serials = missing(alloc, b.accepted.items())?;
            Ok(Line::Pending(serials, names(alloc, b.managers.items())?))
        }
    }
}
