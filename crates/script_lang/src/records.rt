// The statements on records.
ghost use Rattle.std.specs.Prelude.{◌≡◌};
ghost use Rattle.script_model.specs.Grammar.{Ends, asked as asked_of, operands as operands_of, Verb as TheVerb};
ghost use Rattle.script_lang.specs.Reads.{Reads};
ghost use Rattle.script_lang.specs.declared.literals.Literals.{Literals as LiteralsSaid};
ghost use Rattle.script_lang.specs.Statements.{ReadsPlain, statement_of, operation_of};

use crate::grammar::ends;
use crate::literals::Literals;
use crate::statement::{KeyWord, Operation, Request, Statement};
use crate::words::{LineErr, Words};
use vms_base::{FileName, Label, NodeName};

// The statement that asks a label's branch for an operation, or none where there is no label.
fn asked(node: NodeName, label: Option<Label>, file: FileName, operation: Operation) -> Statement
    ensures { (lit : LiteralsSaid) → statement_of lit result ≡ asked_of node label file (operation_of lit operation) }
{
    match label {
        Some(label) => Statement::At(node, Request::Records(label, file, operation)),
        None => Statement::At(node, Request::Direct(file, operation)),
    }
}

// A request on the records of a file, where the line ends here.
fn operation(
    node: NodeName,
    label: Option<Label>,
    file: FileName,
    operation: Operation,
    words: &mut Words<'_>,
) -> Result<Statement, LineErr>
    ensures { (lit : LiteralsSaid) → Reads (statement_of lit) (Ends (asked_of node label file (operation_of lit operation))) words.old result }
{
    ends(asked(node, label, file, operation), words)
}

/// The statement of PUT: a label or a dash, a file, and a record, or a number and a record. An error where a word is missing or cannot stand.
pub fn put(node: NodeName, words: &mut Words<'_>, lit: &mut Literals) -> Result<Statement, LineErr>
    ensures { Reads (statement_of lit.new) (operands_of node TheVerb.Put) words.old result }
{
    let label = words.label_or_none()?;
    let file = words.file()?;
    match words.key(&mut lit.record)? {
        KeyWord::Number(number) => {
            words.bytes(&mut lit.record)?;
            operation(node, label, file, Operation::Put(Some(number)), words)
        }
        KeyWord::Bytes => operation(node, label, file, Operation::Put(None), words),
    }
}

/// The statement of UPDATE: a label or a dash, a file, a key and the new record.
pub fn update(
    node: NodeName,
    words: &mut Words<'_>,
    lit: &mut Literals,
) -> Result<Statement, LineErr>
    ensures { Reads (statement_of lit.new) (operands_of node TheVerb.Update) words.old result }
{
    let label = words.label_or_none()?;
    let file = words.file()?;
    let key = words.key(&mut lit.key)?;
    words.bytes(&mut lit.record)?;
    operation(node, label, file, Operation::Update(key), words)
}

/// The statement of DELETE: a label or a dash, a file and a key.
pub fn delete(
    node: NodeName,
    words: &mut Words<'_>,
    lit: &mut Literals,
) -> Result<Statement, LineErr>
    ensures { Reads (statement_of lit.new) (operands_of node TheVerb.Delete) words.old result }
{
    let label = words.label_or_none()?;
    let file = words.file()?;
    let key = words.key(&mut lit.key)?;
    operation(node, label, file, Operation::Delete(key), words)
}

/// The statement of TRUNCATE: a label or a dash, a file and the position from which on the records go.
pub fn truncate(node: NodeName, words: &mut Words<'_>) -> Result<Statement, LineErr>
    ensures { ReadsPlain (operands_of node TheVerb.Truncate) words.old result }
{
    let label = words.label_or_none()?;
    let file = words.file()?;
    let number = words.number()?;
    operation(node, label, file, Operation::Truncate(number), words)
}

/// The statement of GET: a label or a dash, a file and a key.
pub fn get(node: NodeName, words: &mut Words<'_>, lit: &mut Literals) -> Result<Statement, LineErr>
    ensures { Reads (statement_of lit.new) (operands_of node TheVerb.Get) words.old result }
{
    let label = words.label_or_none()?;
    let file = words.file()?;
    let key = words.key(&mut lit.key)?;
    operation(node, label, file, Operation::Get(key), words)
}

/// The statement of NEXT: a label or a dash, a file, and a key or none.
pub fn next(node: NodeName, words: &mut Words<'_>, lit: &mut Literals) -> Result<Statement, LineErr>
    ensures { Reads (statement_of lit.new) (operands_of node TheVerb.Next) words.old result }
{
    let label = words.label_or_none()?;
    let file = words.file()?;
    if words.is_at_end() {
        return Ok(asked(node, label, file, Operation::Next(None)));
    }
    let key = words.key(&mut lit.key)?;
    operation(node, label, file, Operation::Next(Some(key)), words)
}
