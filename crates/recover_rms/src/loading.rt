// The records that are loaded, in the order of their keys.
ghost use Rattle.std.specs.Prelude.{◌≡◌, ◌≤◌, ◌<◌, ◌++◌, ◌∷◌, [], true, Some, map as each, length, IfOk, OnOk};
ghost use Rattle.vms_model.specs.Limits.{record_limit};
ghost use Rattle.load_pages.specs.Given.{keyed};
ghost use Rattle.record_files.specs.Any.{Suits};
ghost use Rattle.recover_rms.specs.Loading.{AreKept, IsKept, KeepsAll, key_behind};
ghost use Rattle.vms_base.specs.Keys.{key_of};

use change_set::RecordFile;
use file_base::{FileHead, Organization};
use load_pages::KeyedRecord;
use record_files::AnyFile;
use record_maps::RecordMap;
use std::alloc::{AllocError, Global};
use vms_base::{Key, Record};

// The key of a record that is loaded behind so many: in a sequential file the next position.
fn next_key(organization: Organization, count: usize, key: Key) -> Key
    requires few { count < 4294967295 }
    ensures { key_of result ≡ key_behind organization count (key_of key) }
{
    match organization {
        Organization::Sequential => Key::Number(count as u32 + 1),
        Organization::Relative => key,
        Organization::Indexed => key,
    }
}

// Whether the file may have the record.
fn may_have(head: &FileHead, key: &Key, bytes: &[u8], record: &mut Record) -> bool
    requires greatest { head.now.mrs ≤ record_limit }
    ensures suits { result ≡ true → Suits head.now (key_of key.now) (Some bytes.now) }
    ensures exact { Suits head.now (key_of key.now) (Some bytes.now) → result ≡ true }
{
    if bytes.len() > 8160 {
        return false;
    }
    record.set(bytes);
    AnyFile::is_suited(head, key, Some(&*record))
}

// One record more.
fn push_record(records: &mut Vec<KeyedRecord>, one: KeyedRecord) -> Result<(), AllocError>
    ensures { OnOk result (records.new.items ≡ records.old.items ++ one ∷ []) }
{
    records.push(one)?;
    Ok(())
}

// The record at the key that it gets behind others, where the file may have it. An error where there is no memory for it, or no number.
fn keep_record(
    head: &FileHead,
    records: &mut Vec<KeyedRecord>,
    key: Key,
    bytes: Vec<u8>,
    record: &mut Record,
) -> Result<(), AllocError>
    requires greatest { head.now.mrs ≤ record_limit }
    ensures kept { OnOk result (IsKept head.now (key_of key, bytes.items) (each keyed records.old.items) (each keyed records.new.items)) }
    ensures few { length records.old.items ≤ 4294967295 → OnOk result (length records.new.items ≤ 4294967295) }
{
    let count = records.len();
    if count >= 4294967295 {
        return Err(AllocError);
    }
    let key = next_key(head.organization, count, key);
    if !may_have(head, &key, &bytes, record) {
        return Ok(());
    }
    push_record(records, KeyedRecord { key, bytes })
}

/// The records as they are loaded, in the order of their keys; a record that the file may not have is left out. An error where memory is missing for
/// them, or where they are more than numbers of 32 bits count.
pub(crate) fn records_of(
    alloc: Global,
    head: &FileHead,
    mut map: RecordMap,
    record: &mut Record,
) -> Result<Vec<KeyedRecord>, AllocError>
    requires greatest { head.now.mrs ≤ record_limit }
    ensures kept { IfOk result (λ v. AreKept head.now (each keyed v.items)) }
    ensures all { IfOk result (λ v. KeepsAll head.now map (each keyed v.items)) }
    ensures few { IfOk result (λ v. length v.items ≤ 4294967295) }
{
    let mut records = Vec::new(alloc);
    while let Some((key, bytes)) = map.pop_first() {
        match keep_record(head, &mut records, key, bytes, record) {
            Ok(()) => {}
            Err(e) => return Err(e),
        }
    }
    Ok(records)
}
