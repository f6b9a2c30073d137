// The statement of a line.
ghost use Rattle.std.specs.Prelude.{◌≡◌, ◌≤◌, length};
ghost use Rattle.vms_base.specs.vms_model.Limits.{line_size_limit};
ghost use Rattle.script_model.specs.Grammar.{Ends, line_shape, behind_first as behind_first_of, operands as operands_of, form_operands as form_operands_of, reading, Verb as TheVerb, ToNode as ToTheNode};
ghost use Rattle.script_model.specs.Statements.{At as AtNode, Create as CreateOf};
ghost use Rattle.script_lang.specs.Reads.{Reads};
ghost use Rattle.script_lang.specs.declared.literals.Literals.{Literals as LiteralsSaid};
ghost use Rattle.script_lang.specs.Statements.{ReadsPlain, first_of, form_of, organization_of, reading_of, statement_of, verb_of};

use crate::literals::Literals;
use crate::managers::{ack_event, declare_rm, forget_rm, get_dti, join_rm, lmcp};
use crate::records::{delete, get, next, put, truncate, update};
use crate::recovery::{backup, dump_journal, recover, set_file};
use crate::statement::{First, Form, Organization, Request, Statement, Verb};
use crate::transactions::{
    abort_trans, add_branch, end_branch, end_trans, inquire, start_branch, start_trans,
};
use crate::words::{LineErr, Words};
use crate::world::world_operands;
use vms_base::{FileName, NodeName};

// The log slots and the journal's blocks of a volume for which none are said.
const SLOTS: u32 = 128;

const BLOCKS: u32 = 1_024;

/// The statement, where the line ends here.
pub fn ends(statement: Statement, words: &mut Words<'_>) -> Result<Statement, LineErr>
    ensures { (lit : LiteralsSaid) → Reads (statement_of lit) (Ends (statement_of lit statement)) words.old result }
{
    words.end()?;
    Ok(statement)
}

fn init(node: NodeName, words: &mut Words<'_>) -> Result<Statement, LineErr>
    ensures { ReadsPlain (operands_of node TheVerb.Init) words.old result }
{
    if words.is_at_end() {
        return Ok(Statement::At(
            node,
            Request::Init {
                slots: SLOTS,
                blocks: BLOCKS,
            },
        ));
    }
    let slots = words.number()?;
    let blocks = words.number()?;
    ends(Statement::At(node, Request::Init { slots, blocks }), words)
}

fn boot(node: NodeName, words: &mut Words<'_>) -> Result<Statement, LineErr>
    ensures { ReadsPlain (operands_of node TheVerb.Boot) words.old result }
{
    ends(Statement::At(node, Request::Boot), words)
}

// A file is made, where the line ends here.
fn created(
    node: NodeName,
    file: FileName,
    bucket: u32,
    size: u32,
    form: Form,
    words: &mut Words<'_>,
) -> Result<Statement, LineErr>
    ensures { ReadsPlain (Ends (AtNode node (CreateOf file bucket size (form_of form)))) words.old result }
{
    ends(
        Statement::At(
            node,
            Request::Create {
                file,
                bucket,
                size,
                form,
            },
        ),
        words,
    )
}

// What stands behind the count of a new file's buckets or records.
fn form_operands(
    node: NodeName,
    file: FileName,
    organization: Organization,
    bucket: u32,
    size: u32,
    count: u32,
    words: &mut Words<'_>,
) -> Result<Statement, LineErr>
    ensures { ReadsPlain (form_operands_of node file (organization_of organization) bucket size count) words.old result }
{
    match organization {
        Organization::Sequential => {
            let form = Form::Sequential { buckets: count };
            created(node, file, bucket, size, form, words)
        }
        Organization::Relative => {
            let form = Form::Relative { records: count };
            created(node, file, bucket, size, form, words)
        }
        Organization::Indexed => {
            let position = words.number()?;
            let key_size = words.number()?;
            let form = Form::Indexed {
                buckets: count,
                position,
                key_size,
            };
            created(node, file, bucket, size, form, words)
        }
    }
}

fn create(node: NodeName, words: &mut Words<'_>) -> Result<Statement, LineErr>
    ensures { ReadsPlain (operands_of node TheVerb.Create) words.old result }
{
    let file = words.file()?;
    let organization = words.organization()?;
    let bucket = words.number()?;
    let size = words.number()?;
    let count = words.number()?;
    form_operands(node, file, organization, bucket, size, count, words)
}

fn dump(node: NodeName, words: &mut Words<'_>) -> Result<Statement, LineErr>
    ensures { ReadsPlain (operands_of node TheVerb.Dump) words.old result }
{
    let file = words.file()?;
    ends(Statement::At(node, Request::Dump(file)), words)
}

fn operands(
    verb: Verb,
    node: NodeName,
    words: &mut Words<'_>,
    lit: &mut Literals,
) -> Result<Statement, LineErr>
    ensures { Reads (statement_of lit.new) (operands_of node (verb_of verb)) words.old result }
{
    match verb {
        Verb::Init => init(node, words),
        Verb::Boot => boot(node, words),
        Verb::Create => create(node, words),
        Verb::SetFile => set_file(node, words),
        Verb::StartTrans => start_trans(node, words),
        Verb::AddBranch => add_branch(node, words),
        Verb::StartBranch => start_branch(node, words),
        Verb::Put => put(node, words, lit),
        Verb::Update => update(node, words, lit),
        Verb::Delete => delete(node, words, lit),
        Verb::Truncate => truncate(node, words),
        Verb::Get => get(node, words, lit),
        Verb::Next => next(node, words, lit),
        Verb::EndBranch => end_branch(node, words),
        Verb::EndTrans => end_trans(node, words),
        Verb::AbortTrans => abort_trans(node, words),
        Verb::Inquire => inquire(node, words),
        Verb::DeclareRm => declare_rm(node, words),
        Verb::JoinRm => join_rm(node, words),
        Verb::AckEvent => ack_event(node, words),
        Verb::ForgetRm => forget_rm(node, words),
        Verb::GetDti => get_dti(node, words),
        Verb::Lmcp => lmcp(node, words),
        Verb::Dump => dump(node, words),
        Verb::DumpJournal => dump_journal(node, words),
        Verb::Backup => backup(node, words),
        Verb::Recover => recover(node, words),
    }
}

fn to_node(node: NodeName, words: &mut Words<'_>, lit: &mut Literals) -> Result<Statement, LineErr>
    ensures { Reads (statement_of lit.new) (behind_first_of (ToTheNode node)) words.old result }
{
    let verb = words.verb()?;
    operands(verb, node, words, lit)
}

fn behind_first(
    first: First,
    words: &mut Words<'_>,
    lit: &mut Literals,
) -> Result<Statement, LineErr>
    ensures { Reads (statement_of lit.new) (behind_first_of (first_of first)) words.old result }
{
    match first {
        First::ToNode(node) => to_node(node, words, lit),
        First::ToWorld(verb) => world_operands(verb, words),
    }
}

fn statement(words: &mut Words<'_>, lit: &mut Literals) -> Result<Statement, LineErr>
    ensures { Reads (statement_of lit.new) line_shape words.old result }
{
    let first = words.first()?;
    behind_first(first, words, lit)
}

/// What a line of at most 20,000 bytes says: None where it is skipped, else its statement, whose record's and key's bytes are then in `lit`.
///
/// An error tells the column, counted from 1, of the first word that cannot stand where it does, or that behind the line where a word is missing.
pub fn read_statement(line: &[u8], lit: &mut Literals) -> Result<Option<Statement>, LineErr>
    requires { length line.now ≤ line_size_limit }
    ensures { reading_of lit.new result ≡ reading line.now }
{
    let mut words = Words::new(line);
    if words.is_skipped() {
        return Ok(None);
    }
    match statement(&mut words, lit) {
        Ok(statement) => Ok(Some(statement)),
        Err(e) => Err(e),
    }
}
