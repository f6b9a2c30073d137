// The keys that a unit changed, read from its entries.
ghost use Rattle.std.specs.Prelude.{◌≡◌, ◌≤◌, ◌<◌, ◌+◌, ◌^◌, ℕ, List, [], Option, Some, None, OnOk, IfOk, IfErr, IfSome, IfNone, length, option_map};
ghost use Rattle.std.specs.List.{All};
ghost use Rattle.std.specs.Option.{option_copied};
ghost use Rattle.vms_base.specs.vms_model.Limits.{change_limit};
ghost use Rattle.vms_base.specs.Keys.{key_of};
ghost use Rattle.journal_format.specs.Heads.{entry_of};
ghost use Rattle.journal_format.specs.journal_model.Entries.{Entry};
ghost use Rattle.journal_store.specs.Leaving.{OnlyReads, Fell};
ghost use Rattle.journal_store.specs.Rings.{IsRing};
ghost use Rattle.unit_entries.specs.Collecting.{AreChangesAt};
ghost use Rattle.unit_entries.specs.Keys.{key_by, key_in, key_told, told_at, keys_told, keys_with};
ghost use Rattle.unit_entries.specs.Rows.{key_said};

use crate::keys::{ChangedKey, ChangedKeys};
use block_disk::Disk;
use careful_write::Down;
use file_base::{FileHead, Organization};
use journal_format::{EntryHead, EntryKind, key_number};
use journal_store::entry_at;
use vms_base::{Key, KeyText, Record};
use volume::Volume;

/// The key that is spelled so in an entry on a file that keeps its records so.
pub fn key_in(organization: Organization, key: &KeyText) -> Option<Key>
    ensures { option_map key_of result ≡ key_in organization key.now }
{
    match organization {
        Organization::Indexed => Some(Key::Text(*key)),
        _ => match key_number(key) {
            Some(n) => Some(Key::Number(n)),
            None => None,
        },
    }
}

// The key that an entry at a position changed, where its file is there.
fn changed_key(head: Option<&FileHead>, position: u64, e: &EntryHead) -> Option<ChangedKey>
    ensures key { IfSome result (λ k. (key_by (option_copied head.entry) (entry_of e.now []).key ≡ Some (key_of k.key)) × (key_said k ≡ told_at position (entry_of e.now []) (key_of k.key)) × (k.first ≡ position)) }
    ensures none { IfNone result ((entry_of e.now []).kind ≡ 1 → 1 ≤ length (entry_of e.now []).key → key_by (option_copied head.entry) (entry_of e.now []).key ≡ None) }
{
    match (e.kind, e.key, head) {
        (EntryKind::Change, Some(bytes), Some(head)) => {
            let key = key_in(head.organization, &bytes)?;
            Some(ChangedKey {
                file: e.file,
                key,
                first: position,
                had: e.present,
                absent: !e.present,
            })
        }
        _ => None,
    }
}

// Notes the key that an entry at a position changed.
fn note_entry<D: Disk>(volume: &Volume<D>, position: u64, e: &EntryHead, keys: &mut ChangedKeys)
    requires low { position ≤ 2 ^ 62 }
    requires room { length keys.old < change_limit }
    ensures keys { (entry_of e.now []).kind ≡ 1 → 1 ≤ length (entry_of e.now []).key → keys.new ≡ keys_with position (entry_of e.now []) (key_told volume.now.catalog.heads (entry_of e.now [])) keys.old }
    ensures few { length keys.new ≤ length keys.old + 1 }
{
    if let Some(key) = changed_key(volume.head(e.file), position, e) {
        keys.note(key);
    }
}

/// Reads the entries at these positions, of which the oldest is the first, and notes the keys that they changed in place of those that were noted.
pub fn collect_keys<D: Disk>(
    volume: &mut Volume<D>,
    positions: &[u64],
    keys: &mut ChangedKeys,
    image: &mut Record,
) -> Result<(), Down>
    requires ring { IsRing volume.old.catalog.ru volume.old.store.disk }
    requires few { length positions.now ≤ change_limit }
    requires low { All (λ p. p ≤ 2 ^ 62) positions.now }
    ensures keys { OnOk result (IfSome volume.old.store.current (λ c. (es : List Entry) → AreChangesAt volume.old.catalog.ru positions.now es c → keys.new ≡ keys_told volume.old.catalog.heads positions.now es)) }
    ensures catalog { volume.new.catalog ≡ volume.old.catalog }
    ensures ok { OnOk result (OnlyReads result volume.old.store volume.new.store) }
    ensures down { IfErr result (λ down. Fell down volume.old.store volume.new.store) }
{
    keys.clear();
    let span = *volume.ru();
    for i in 0..positions.len() {
        let entry = match entry_at(volume.store(), &span, positions[i], image) {
            Err(down) => return Err(down),
            Ok(entry) => entry,
        };
        if let Some((e, _)) = entry {
            note_entry(volume, positions[i], &e, keys);
        }
    }
    Ok(())
}
