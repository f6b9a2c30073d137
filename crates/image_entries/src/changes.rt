// The change of a record that an entry tells.
ghost use Rattle.std.specs.Prelude.{◌≡◌, option_map};
ghost use Rattle.std.specs.Option.{option_copied};
ghost use Rattle.image_entries.specs.Changes as said;
ghost use Rattle.vms_base.specs.Keys.{key_of};

use file_base::Organization;
use journal_format::{EntryHead, EntryKind};
use unit_entries::key_in;
use vms_base::{Key, KeyText, Record};

// The key that is spelled so, where there is one.
fn key_by(organization: Organization, key: Option<&KeyText>) -> Option<Key>
    ensures { option_map key_of result ≡ said.key_by organization (option_copied key.entry) }
{
    match key {
        Some(text) => key_in(organization, text),
        None => None,
    }
}

/// The key of the record that a Change is of, in a file that keeps its records so. None for other entries, and where the bytes are no such key.
pub fn changed_key(organization: Organization, head: &EntryHead) -> Option<Key>
    ensures { option_map key_of result ≡ said.changed_key organization head.now }
{
    match head.kind {
        EntryKind::Change => key_by(organization, head.key.as_ref()),
        EntryKind::Prepared => None,
        EntryKind::Settled => None,
    }
}

/// The image of a Change, where it has one.
pub fn changed_image<'a>(head: &EntryHead, image: &'a Record) -> Option<&'a Record>
    ensures { option_copied result ≡ said.changed_image head.now image.now }
{
    match head.kind {
        EntryKind::Change if head.present => Some(image),
        _ => None,
    }
}
