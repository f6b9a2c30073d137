//! What a statement asks of the records of a file, and how that is answered.
ghost use Rattle.std.specs.Prelude.{◌≡◌, Some, None, IfSome, IfNone, IfOk, MatchResult, length, option_map, ◌≤◌};
ghost use Rattle.vms_model.specs.Limits.{key_limit};
ghost use Rattle.transcript.specs.Forms.{HasTime, line_of};
ghost use Rattle.vms_base.specs.Keys.{key_of};
ghost use Rattle.vms_model.specs.Keys.{Text};
ghost use Rattle.script_lang.specs.script_model.Statements.{Next};
ghost use Rattle.script_lang.specs.Statements.{key_in, operation_of};
ghost use Rattle.record_operations.specs.Causes.{down_in};
ghost use Rattle.recovery_units.specs.Calls.{position_line, record_line, refusal_of};
ghost use Rattle.file_requests.specs.Asking.{IsNumberedIn, IsUnkeyed, number_in, said_of};
ghost use Rattle.file_requests.specs.Replying.{IsPlain};

use careful_write::Down;
use record_operations::{ReadOp, RecErr, RecordOp};
use script_lang::{KeyWord, Literals, Operation};
use transcript::{Form, Quota};
use vms_base::{Key, KeyText, Record};

const MOST_CHANGES: u64 = 1024;

const MOST_LOCKS: u64 = 4096;

/// A change or a read.
#[derive(Clone, Copy, Debug)]
pub enum Asked {
    Change(RecordOp),
    Read(ReadOp),
}

// The key that a word stands for. A word of a length that no key has stands for none.
fn key_of_word(word: &KeyWord, bytes: &[u8]) -> Option<Key>
    ensures key { IfSome result (λ key. key_of key ≡ key_in bytes.now word.now) }
    ensures none { IfNone result ((key_in bytes.now word.now ≡ Text bytes.now) × (1 ≤ length bytes.now → length bytes.now ≤ key_limit → ⊥)) }
{
    match word {
        KeyWord::Number(n) => Some(Key::Number(*n)),
        KeyWord::Bytes => match KeyText::new(bytes) {
            Some(text) => Some(Key::Text(text)),
            None => None,
        },
    }
}

// The key that a word stands for, where there is a word; None where it stands for none.
fn key_behind(word: &Option<KeyWord>, bytes: &[u8]) -> Option<Option<Key>>
    ensures key { IfSome result (λ key. option_map key_of key ≡ option_map (key_in bytes.now) word.now) }
    ensures none { IfNone result (IsUnkeyed (Next (option_map (key_in bytes.now) word.now))) }
{
    match word {
        None => Some(None),
        Some(word) => match key_of_word(word, bytes) {
            Some(key) => Some(Some(key)),
            None => None,
        },
    }
}

/// What is asked of the file of a number; None where a word stands for no key, so that the form refuses it of each file.
pub fn asked_of(operation: &Operation, file: u8, lit: &Literals) -> Option<Asked>
    ensures said { IfSome result (λ a. said_of a lit.now.record ≡ operation_of lit.now operation.now) }
    ensures file { IfSome result (λ a. number_in a ≡ file) }
    ensures number { IfSome result IsNumberedIn }
    ensures none { IfNone result (IsUnkeyed (operation_of lit.now operation.now)) }
{
    let key = lit.key.bytes();
    match operation {
        Operation::Put(None) => Some(Asked::Change(RecordOp::Put { file, key: None })),
        Operation::Put(Some(number)) => Some(Asked::Change(RecordOp::Put {
            file,
            key: Some(Key::Number(*number)),
        })),
        Operation::Update(word) => match key_of_word(word, key) {
            Some(key) => Some(Asked::Change(RecordOp::Update { file, key })),
            None => None,
        },
        Operation::Delete(word) => match key_of_word(word, key) {
            Some(key) => Some(Asked::Change(RecordOp::Delete { file, key })),
            None => None,
        },
        Operation::Truncate(from) => Some(Asked::Change(RecordOp::Truncate { file, from: *from })),
        Operation::Get(word) => match key_of_word(word, key) {
            Some(key) => Some(Asked::Read(ReadOp::Get { file, key })),
            None => None,
        },
        Operation::Next(word) => match key_behind(word, key) {
            Some(after) => Some(Asked::Read(ReadOp::Next { file, after })),
            None => None,
        },
    }
}

/// The line for a cause of a refusal; Down where the disk went down instead.
pub(crate) fn refusal_form(cause: RecErr) -> Result<Form<'static>, Down>
    ensures line { MatchResult result (λ form. refusal_of cause ≡ Some (line_of form)) (λ down. refusal_of cause ≡ None) }
    ensures down { MatchResult result (λ _. down_in cause ≡ None) (λ down. down_in cause ≡ Some down) }
    ensures time { IfOk result HasTime }
    ensures plain { IfOk result (λ form. IsPlain (line_of form)) }
{
    let form = match cause {
        RecErr::BadParameter => Form::BadParameter,
        RecErr::BadOperation => Form::BadOperation,
        RecErr::BadRecordNumber => Form::BadRecordNumber,
        RecErr::BadRecordSize => Form::BadRecordSize,
        RecErr::NotForUnits => Form::NotForUnits,
        RecErr::NeedsUnit => Form::NeedsUnit,
        RecErr::Locked(by) => Form::RecordLocked(by),
        RecErr::RecordExists => Form::RecordExists,
        RecErr::KeyExists => Form::KeyExists,
        RecErr::RecordNotFound => Form::RecordNotFound,
        RecErr::EndOfFile => Form::EndOfFile,
        RecErr::KeyChanged => Form::KeyChanged,
        RecErr::Changes => Form::QuotaExceeded(Quota::Changes, MOST_CHANGES),
        RecErr::Locks => Form::QuotaExceeded(Quota::Locks, MOST_LOCKS),
        RecErr::FileFull { free, need } => Form::FileFull(free, need),
        RecErr::JournalFull { free, need } => Form::JournalFull(free, need),
        RecErr::AfterImagesFull { free, need } => Form::AftersFull(free, need),
        RecErr::BeforeImagesFull { free, need } => Form::BeforesFull(free, need),
        RecErr::Down(down) => return Err(down),
    };
    Ok(form)
}

/// The answer to a change, by the position that is told of it.
pub(crate) fn change_form(position: u32) -> Form<'static>
    ensures line { line_of result ≡ position_line position }
    ensures time { HasTime result }
    ensures plain { IsPlain (line_of result) }
{
    if position == 0 {
        Form::RecordNormal
    } else {
        Form::RecordPosition(position)
    }
}

/// The answer to a read that found this record.
pub(crate) fn read_form<'a>(op: &ReadOp, key: Key, found: &'a Record) -> Form<'a>
    ensures line { line_of result ≡ record_line op.now (key_of key) found.now }
    ensures time { HasTime result }
    ensures plain { IsPlain (line_of result) }
{
    match op {
        ReadOp::Get { .. } => Form::RecordFound(found),
        ReadOp::Next { .. } => Form::NextFound(key, found),
    }
}
