// The statements on resource managers, on the state of a branch, and on the transaction log.
ghost use Rattle.script_model.specs.Grammar.{operands as operands_of, Verb as TheVerb};
ghost use Rattle.script_lang.specs.Statements.{ReadsPlain};

use crate::grammar::ends;
use crate::statement::{LogWord, Request, Statement};
use crate::words::{LineErr, Words};
use vms_base::NodeName;

/// The statement of DECLARE_RM: a resource manager. An error where a word is missing or cannot stand.
pub fn declare_rm(node: NodeName, words: &mut Words<'_>) -> Result<Statement, LineErr>
    ensures { ReadsPlain (operands_of node TheVerb.DeclareRm) words.old result }
{
    let rm = words.manager()?;
    ends(Statement::At(node, Request::DeclareRm(rm)), words)
}

/// The statement of JOIN_RM: a label and a resource manager.
pub fn join_rm(node: NodeName, words: &mut Words<'_>) -> Result<Statement, LineErr>
    ensures { ReadsPlain (operands_of node TheVerb.JoinRm) words.old result }
{
    let label = words.label()?;
    let rm = words.manager()?;
    ends(Statement::At(node, Request::JoinRm(label, rm)), words)
}

/// The statement of ACK_EVENT: a label or a serial, a resource manager and its reply.
pub fn ack_event(node: NodeName, words: &mut Words<'_>) -> Result<Statement, LineErr>
    ensures { ReadsPlain (operands_of node TheVerb.AckEvent) words.old result }
{
    let named = words.branch_name()?;
    let rm = words.manager()?;
    let reply = words.reply()?;
    ends(
        Statement::At(node, Request::AckEvent(named, rm, reply)),
        words,
    )
}

/// The statement of FORGET_RM: a resource manager.
pub fn forget_rm(node: NodeName, words: &mut Words<'_>) -> Result<Statement, LineErr>
    ensures { ReadsPlain (operands_of node TheVerb.ForgetRm) words.old result }
{
    let rm = words.manager()?;
    ends(Statement::At(node, Request::ForgetRm(rm)), words)
}

/// The statement of GETDTI: a label or a serial.
pub fn get_dti(node: NodeName, words: &mut Words<'_>) -> Result<Statement, LineErr>
    ensures { ReadsPlain (operands_of node TheVerb.GetDti) words.old result }
{
    let named = words.branch_name()?;
    ends(Statement::At(node, Request::GetDti(named)), words)
}

/// The statement of LMCP: what is shown of the transaction log.
pub fn lmcp(node: NodeName, words: &mut Words<'_>) -> Result<Statement, LineErr>
    ensures { ReadsPlain (operands_of node TheVerb.Lmcp) words.old result }
{
    let shown = words.log_word()?;
    match shown {
        LogWord::Show => ends(Statement::At(node, Request::LmcpShow), words),
        LogWord::Dump => ends(Statement::At(node, Request::LmcpDump), words),
    }
}
