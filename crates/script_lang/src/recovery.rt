// The statements on what files are marked with, on their journals and on their recovery.
ghost use Rattle.std.specs.Prelude.{◌≡◌};
ghost use Rattle.std.specs.Str.{bytes_eq};
ghost use Rattle.script_model.specs.Grammar.{operands as operands_of, units_word, mark_operands as mark_operands_of, image_operands as image_operands_of, journal_operands as journal_operands_of, direction_operands as direction_operands_of, Verb as TheVerb};
ghost use Rattle.script_model.specs.Statements.{AfterImages as TheAfterImages, BeforeImages as TheBeforeImages};
ghost use Rattle.script_lang.specs.Statements.{ReadsPlain, mark_of, side_of};

use crate::grammar::ends;
use crate::statement::{Mark, Recovery, Request, Setting, Side, Statement};
use crate::words::{LineErr, Words};
use vms_base::{FileName, NodeName};

// What stands behind the word for a mark: the blocks of a journal that begins, else nothing.
fn mark_operands(
    node: NodeName,
    file: FileName,
    mark: Mark,
    words: &mut Words<'_>,
) -> Result<Statement, LineErr>
    ensures { ReadsPlain (mark_operands_of node file (mark_of mark)) words.old result }
{
    match mark {
        Mark::Whole(setting) => ends(Statement::At(node, Request::SetFile(file, setting)), words),
        Mark::OfBlocks(side) => {
            let blocks = words.number()?;
            let setting = Setting::Images(side, blocks);
            ends(Statement::At(node, Request::SetFile(file, setting)), words)
        }
    }
}

/// The statement of SET_FILE: a file and what it is marked with. An error where a word is missing or cannot stand.
pub fn set_file(node: NodeName, words: &mut Words<'_>) -> Result<Statement, LineErr>
    ensures { ReadsPlain (operands_of node TheVerb.SetFile) words.old result }
{
    let file = words.file()?;
    let mark = words.setting()?;
    mark_operands(node, file, mark, words)
}

// A journal of images of a file is shown.
fn image_operands(
    node: NodeName,
    file: FileName,
    words: &mut Words<'_>,
) -> Result<Statement, LineErr>
    ensures { ReadsPlain (image_operands_of node file) words.old result }
{
    let side = words.side()?;
    ends(Statement::At(node, Request::DumpImages(file, side)), words)
}

// Whether a file is called as the journal of recovery units is.
fn names_units(file: &FileName) -> bool
    ensures { result ≡ bytes_eq file.now units_word }
{
    file.bytes() == b"RU".as_slice()
}

// What stands behind the first word: nothing behind the journal of recovery units, and behind a file its journal of images.
fn journal_operands(
    node: NodeName,
    file: FileName,
    words: &mut Words<'_>,
) -> Result<Statement, LineErr>
    ensures { ReadsPlain (journal_operands_of node file) words.old result }
{
    if !names_units(&file) {
        return image_operands(node, file, words);
    }
    if words.is_at_end() {
        return Ok(Statement::At(node, Request::DumpJournal));
    }
    image_operands(node, file, words)
}

/// The statement of DUMP_JOURNAL: RU, or a file and AI or BI.
pub fn dump_journal(node: NodeName, words: &mut Words<'_>) -> Result<Statement, LineErr>
    ensures { ReadsPlain (operands_of node TheVerb.DumpJournal) words.old result }
{
    let file = words.journaled_file()?;
    journal_operands(node, file, words)
}

/// The statement of BACKUP: a file.
pub fn backup(node: NodeName, words: &mut Words<'_>) -> Result<Statement, LineErr>
    ensures { ReadsPlain (operands_of node TheVerb.Backup) words.old result }
{
    let file = words.file()?;
    ends(Statement::At(node, Request::Backup(file)), words)
}

// A file is recovered forward: to the last moment, or until one that is said.
fn forward_operands(
    node: NodeName,
    file: FileName,
    words: &mut Words<'_>,
) -> Result<Statement, LineErr>
    ensures { ReadsPlain (direction_operands_of node file TheAfterImages) words.old result }
{
    if words.is_at_end() {
        let request = Request::Recover(file, Recovery::Forward(None));
        return Ok(Statement::At(node, request));
    }
    words.until()?;
    let until = words.time()?;
    let request = Request::Recover(file, Recovery::Forward(Some(until)));
    ends(Statement::At(node, request), words)
}

// A file is recovered backward, until a moment.
fn backward_operands(
    node: NodeName,
    file: FileName,
    words: &mut Words<'_>,
) -> Result<Statement, LineErr>
    ensures { ReadsPlain (direction_operands_of node file TheBeforeImages) words.old result }
{
    words.until()?;
    let until = words.time()?;
    let request = Request::Recover(file, Recovery::Backward(until));
    ends(Statement::At(node, request), words)
}

// What stands behind the direction of a recovery.
fn direction_operands(
    node: NodeName,
    file: FileName,
    side: Side,
    words: &mut Words<'_>,
) -> Result<Statement, LineErr>
    ensures { ReadsPlain (direction_operands_of node file (side_of side)) words.old result }
{
    match side {
        Side::AfterImages => forward_operands(node, file, words),
        Side::BeforeImages => backward_operands(node, file, words),
    }
}

/// The statement of RECOVER: a file, FORWARD or BACKWARD, and UNTIL and a time, or nothing behind FORWARD.
pub fn recover(node: NodeName, words: &mut Words<'_>) -> Result<Statement, LineErr>
    ensures { ReadsPlain (operands_of node TheVerb.Recover) words.old result }
{
    let file = words.file()?;
    let side = words.direction()?;
    direction_operands(node, file, side, words)
}
