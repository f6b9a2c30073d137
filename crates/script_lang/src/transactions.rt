// The statements on transactions and their branches.
ghost use Rattle.script_model.specs.Grammar.{operands as operands_of, Verb as TheVerb};
ghost use Rattle.script_lang.specs.Statements.{ReadsPlain};

use crate::grammar::ends;
use crate::statement::{Request, Statement};
use crate::words::{LineErr, Words};
use vms_base::NodeName;

/// The statement of START_TRANS: a label, and TIMEOUT and the seconds or nothing. An error where a word is missing or cannot stand.
pub fn start_trans(node: NodeName, words: &mut Words<'_>) -> Result<Statement, LineErr>
    ensures { ReadsPlain (operands_of node TheVerb.StartTrans) words.old result }
{
    let label = words.label()?;
    if words.is_at_end() {
        let request = Request::StartTrans {
            label,
            seconds: None,
        };
        return Ok(Statement::At(node, request));
    }
    words.timeout()?;
    let seconds = words.number()?;
    let request = Request::StartTrans {
        label,
        seconds: Some(seconds),
    };
    ends(Statement::At(node, request), words)
}

/// The statement of ADD_BRANCH: a label, the other node and a new label.
pub fn add_branch(node: NodeName, words: &mut Words<'_>) -> Result<Statement, LineErr>
    ensures { ReadsPlain (operands_of node TheVerb.AddBranch) words.old result }
{
    let label = words.label()?;
    let other = words.node()?;
    let new = words.label()?;
    ends(
        Statement::At(node, Request::AddBranch { label, other, new }),
        words,
    )
}

/// The statement of START_BRANCH: a label.
pub fn start_branch(node: NodeName, words: &mut Words<'_>) -> Result<Statement, LineErr>
    ensures { ReadsPlain (operands_of node TheVerb.StartBranch) words.old result }
{
    let label = words.label()?;
    ends(Statement::At(node, Request::StartBranch(label)), words)
}

/// The statement of END_BRANCH: a label.
pub fn end_branch(node: NodeName, words: &mut Words<'_>) -> Result<Statement, LineErr>
    ensures { ReadsPlain (operands_of node TheVerb.EndBranch) words.old result }
{
    let label = words.label()?;
    ends(Statement::At(node, Request::EndBranch(label)), words)
}

/// The statement of END_TRANS: a label.
pub fn end_trans(node: NodeName, words: &mut Words<'_>) -> Result<Statement, LineErr>
    ensures { ReadsPlain (operands_of node TheVerb.EndTrans) words.old result }
{
    let label = words.label()?;
    ends(Statement::At(node, Request::EndTrans(label)), words)
}

/// The statement of ABORT_TRANS: a label.
pub fn abort_trans(node: NodeName, words: &mut Words<'_>) -> Result<Statement, LineErr>
    ensures { ReadsPlain (operands_of node TheVerb.AbortTrans) words.old result }
{
    let label = words.label()?;
    ends(Statement::At(node, Request::AbortTrans(label)), words)
}

/// The statement of INQUIRE: a label or a serial.
pub fn inquire(node: NodeName, words: &mut Words<'_>) -> Result<Statement, LineErr>
    ensures { ReadsPlain (operands_of node TheVerb.Inquire) words.old result }
{
    let named = words.branch_name()?;
    ends(Statement::At(node, Request::Inquire(named)), words)
}
