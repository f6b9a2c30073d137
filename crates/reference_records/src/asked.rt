// What a statement asks of the records of a file, with its bytes.
ghost use Rattle.std.specs.Prelude.{◌≡◌, ℕ, List};
ghost use Rattle.script_lang.specs.Statements.{key_in, operation_of};
ghost use Rattle.reference_index.specs.Standing.{lent_key};
ghost use Rattle.reference_records.specs.Operations.{asked_of};

use reference_index::KeyRef;
use script_lang::{KeyWord, Literals, Operation};

/// What is asked of the records of a file.
#[derive(Clone, Copy, Drop)]
pub enum Asked<'a> {
    Put(Option<u32>, &'a [u8]),
    Update(KeyRef<'a>, &'a [u8]),
    Delete(KeyRef<'a>),
    Truncate(u32),
    Get(KeyRef<'a>),
    Next(Option<KeyRef<'a>>),
}

// The key that a word stands for, where these are its bytes if it has bytes.
fn key_said<'a>(word: &KeyWord, bytes: &'a [u8]) -> KeyRef<'a>
    ensures { lent_key result ≡ key_in bytes.now word.now }
{
    match word {
        KeyWord::Number(n) => KeyRef::Number(u64::from(*n)),
        KeyWord::Bytes => KeyRef::Text(bytes),
    }
}

/// What an operation asks, where these are its bytes.
pub fn asked_by<'a>(operation: &Operation, lit: &'a Literals) -> Asked<'a>
    ensures { asked_of result ≡ operation_of lit.now operation.now }
{
    let record = lit.record.bytes();
    let key = lit.key.bytes();
    match operation {
        Operation::Put(number) => Asked::Put(*number, record),
        Operation::Update(word) => Asked::Update(key_said(word, key), record),
        Operation::Delete(word) => Asked::Delete(key_said(word, key)),
        Operation::Truncate(number) => Asked::Truncate(*number),
        Operation::Get(word) => Asked::Get(key_said(word, key)),
        Operation::Next(None) => Asked::Next(None),
        Operation::Next(Some(word)) => Asked::Next(Some(key_said(word, key))),
    }
}
