// Changes of records.
ghost use Rattle.std.specs.Prelude.{◌≡◌};
ghost use Rattle.run_model.specs.records_model.History as history;
ghost use Rattle.reference_index.specs.Standing.{lent_key, changes_of};

use crate::keys::{Key, KeyRef};

/// A key that was set from one record to another; None is no record.
#[derive(Drop)]
pub struct Change {
    pub key: Key,
    pub before: Option<Vec<u8>>,
    pub after: Option<Vec<u8>>,
}

/// Whether one of these changes is of this key.
pub fn changes_key(changes: &[Change], key: KeyRef<'_>) -> bool
    ensures { result ≡ history.changes_key (lent_key key.entry) (changes_of changes.now) }
{
    match changes {
        [] => false,
        [c, rest @ ..] => key.is(c.key.lend()) || changes_key(rest, key),
    }
}
