// Changes of one key of a file.
ghost use Rattle.std.specs.Prelude.{◌≡◌, ◌≤◌, ◌+◌, ℕ, List, [], true, None, Some, OnOk, IfOk, IfErr, IfSome, IsSome, length, option_map, unwrap_or, if◌then◌else◌};
ghost use Rattle.std.specs.Ordering.{eq_by_cmp};
ghost use Rattle.vms_model.specs.Limits.{key_limit, record_limit};
ghost use Rattle.records_model.specs.Records.{key_cmp};
ghost use Rattle.std.specs.Option.{option_and_then, option_copied};
ghost use Rattle.change_set.specs.Files.{IsPlaced, free_frames};
ghost use Rattle.file_base.specs.declared.head.Organization.TheVariants as organization;
ghost use Rattle.volume_files.specs.record_files.Any.{IsFile, IsLaidOut};
ghost use Rattle.vms_base.specs.Keys.{key_of};
ghost use Rattle.vms_model.specs.Keys.{Text};
ghost use Rattle.record_operations.specs.Asking.{file_in, is_of_key};
ghost use Rattle.unit_cuts.specs.unit_journal.Leaving.{FellIn};
ghost use Rattle.volume.specs.State.{SameVolume};
ghost use Rattle.key_changes.specs.Keys.{change_in, key_in, key_put as put_said};
ghost use Rattle.record_operations.specs.Causes.{IfRefused, IsRefusal, cause_of};
ghost use Rattle.key_changes.specs.Changing.{IsFormed, MayBegin, before_change, exists_by, file_refused, found_refused, key_within as within_said, need_of, other_refused_by};
ghost use Rattle.unit_cuts.specs.unit_journal.Entries.{key_bytes};
ghost use Rattle.record_operations.specs.Forms.{form_refused, place_refused};
ghost use Rattle.unit_cuts.specs.Records.{OfRecords};

use crate::asked::{Asked, KeyChange};
use block_disk::Disk;
use change_set::Place;
use file_base::{FileHead, Organization};
use record_operations::{RecErr, RecordOp};
use unit_cuts::record_if;
use vms_base::{Key, KeyText, Record};
use volume::Volume;
use volume_files::{find_record, need_buckets};

// The key that a record of an indexed file has.
fn key_within(head: &FileHead, bytes: &[u8]) -> Option<KeyText>
    ensures key { IfSome result (λ key. key ≡ within_said head.now.key_pos head.now.key_size bytes.now) }
    ensures there { head.now.key_pos + head.now.key_size ≤ length bytes.now → 1 ≤ head.now.key_size → head.now.key_size ≤ key_limit → IsSome result }
{
    let from = usize::from(head.key_pos);
    let to = from + usize::from(head.key_size);
    if bytes.len() < to {
        return None;
    }
    KeyText::new(&bytes[from..to])
}

// Where a record is put that nothing refuses by its form.
fn key_put(head: &FileHead, key: &Option<Key>, bytes: &[u8]) -> Key
    requires place { place_refused head.now (option_map key_of key.now) ≡ None }
    requires within { head.now.organization ≡ organization.Indexed → (head.now.key_pos + head.now.key_size ≤ length bytes.now) × (1 ≤ head.now.key_size) × (head.now.key_size ≤ key_limit) }
    ensures key { key_of result ≡ put_said head.now.organization head.now (option_map key_of key.now) bytes.now }
    ensures some { 1 ≤ length (key_bytes (key_of result)) }
{
    match head.organization {
        Organization::Sequential => Key::Number(head.count.saturating_add(1)),
        Organization::Relative => {
            let Some(key) = key else { unreachable!() };
            *key
        }
        Organization::Indexed => {
            let Some(text) = key_within(head, bytes) else {
                unreachable!()
            };
            Key::Text(text)
        }
    }
}

/// The change of one key that an operation asks for which nothing refuses by its form.
pub fn asked_by(op: &RecordOp, head: &FileHead, value: &[u8]) -> Asked
    requires one { is_of_key op.now ≡ true }
    requires fits { form_refused head.now op.now (length value.now) ≡ None }
    requires sizes { head.now.organization ≡ organization.Indexed → (1 ≤ head.now.key_size) × (head.now.key_size ≤ key_limit) }
    requires size { length value.now ≤ record_limit }
    ensures file { result.file ≡ file_in op.now }
    ensures head { result.head ≡ head.now }
    ensures key { key_of result.key ≡ key_in head.now op.now value.now }
    ensures change { result.change ≡ change_in op.now }
    ensures formed { IsFormed result value.now }
{
    let (key, change) = match op {
        RecordOp::Put { file: _, key } => (key_put(head, key, value), KeyChange::Put),
        RecordOp::Update { file: _, key } => (*key, KeyChange::Replace),
        RecordOp::Delete { file: _, key } => (*key, KeyChange::Remove),
        RecordOp::Truncate { .. } => unreachable!(),
    };
    Asked {
        file: op.file(),
        head: *head,
        key,
        change,
    }
}

// What is answered where a record that is to be new is there.
fn exists(organization: Organization) -> RecErr
    ensures { cause_of result ≡ Some (exists_by organization) }
{
    match organization {
        Organization::Indexed => RecErr::KeyExists,
        Organization::Sequential | Organization::Relative => RecErr::RecordExists,
    }
}

// Whether a key is that of a text.
fn is_text(key: &Key, text: &KeyText) -> bool
    ensures { result ≡ eq_by_cmp key_cmp (key_of key.now) (Text text.now) }
{
    match key {
        Key::Text(own) => own.bytes() == text.bytes(),
        _ => false,
    }
}

// Why a record may not take the place of another: in a sequential file it has another length, in an indexed one another key.
fn other_refusal(asked: &Asked, old: &[u8], new: &[u8]) -> Option<RecErr>
    requires within { asked.now.head.organization ≡ organization.Indexed → (asked.now.head.key_pos + asked.now.head.key_size ≤ length new.now) × (1 ≤ asked.now.head.key_size) × (asked.now.head.key_size ≤ key_limit) }
    ensures refuses { option_and_then cause_of result ≡ other_refused_by asked.now.head.organization asked.now.head (key_of asked.now.key) old.now new.now }
    ensures refusal { IfSome result IsRefusal }
{
    match asked.head.organization {
        Organization::Sequential if old.len() != new.len() => Some(RecErr::BadRecordSize),
        Organization::Sequential | Organization::Relative => None,
        Organization::Indexed => {
            let Some(own) = key_within(&asked.head, new) else {
                unreachable!()
            };
            if is_text(&asked.key, &own) {
                None
            } else {
                Some(RecErr::KeyChanged)
            }
        }
    }
}

// Why what a key has refuses its change.
fn found_refusal(asked: &Asked, found: Option<&Record>, new: &[u8]) -> Option<RecErr>
    requires formed { IsFormed asked.now new.now }
    ensures refuses { option_and_then cause_of result ≡ found_refused asked.now.head asked.now.change (key_of asked.now.key) (option_copied found.entry) new.now }
    ensures refusal { IfSome result IsRefusal }
{
    match (asked.change, found) {
        (KeyChange::Put, None) => None,
        (KeyChange::Put, Some(_)) => Some(exists(asked.head.organization)),
        (KeyChange::Replace, None) | (KeyChange::Remove, None) => Some(RecErr::RecordNotFound),
        (KeyChange::Replace, Some(old)) => other_refusal(asked, old.bytes(), new),
        (KeyChange::Remove, Some(_)) => None,
    }
}

/// Reads what the key of a change has, which is then in `found`, and refuses the change where that does not allow it. A walk to the key may begin at the place
/// that is answered.
pub fn read_before<D: Disk>(
    volume: &mut Volume<D>,
    asked: &Asked,
    new: &[u8],
    found: &mut Record,
) -> Result<Place, RecErr>
    requires placed { IsPlaced asked.now.head volume.old.store.disk }
    requires frames { 32 ≤ free_frames volume.old.store.pool }
    requires formed { IsFormed asked.now new.now }
    ensures had { OnOk result (OfRecords asked.now.head volume.old (λ m. before_change asked.now.change (unwrap_or (m (key_of asked.now.key)) []) ≡ before_change asked.now.change found.new)) }
    ensures allowed { OnOk result (OfRecords asked.now.head volume.old (λ m. found_refused asked.now.head asked.now.change (key_of asked.now.key) (m (key_of asked.now.key)) new.now ≡ None)) }
    ensures begins { IfOk result (MayBegin asked.now.head volume.old (key_of asked.now.key)) }
    ensures same { OnOk result (SameVolume volume.old volume.new) }
    ensures err { IfErr result (λ e. IfRefused e (λ cause. OfRecords asked.now.head volume.old (λ m. found_refused asked.now.head asked.now.change (key_of asked.now.key) (m (key_of asked.now.key)) new.now ≡ Some cause) × SameVolume volume.old volume.new) (λ down. FellIn down volume.old volume.new)) }
{
    let mut place = Place::first();
    match find_record(volume, &asked.head, &asked.key, &mut place, found) {
        Err(down) => Err(RecErr::Down(down)),
        Ok(there) => match found_refusal(asked, record_if(there, found), new) {
            Some(refusal) => Err(refusal),
            None => Ok(place),
        },
    }
}

/// Refuses a change where the file has too few free buckets for it.
pub fn room_in_file<D: Disk>(
    volume: &mut Volume<D>,
    asked: &Asked,
    size: usize,
) -> Result<(), RecErr>
    requires placed { IsPlaced asked.now.head volume.old.store.disk }
    requires frames { 32 ≤ free_frames volume.old.store.pool }
    requires size { size ≤ record_limit }
    ensures room { OnOk result ((a : List (List ℕ)) → volume.old.store.current ≡ Some a → IsFile asked.now.head → IsLaidOut asked.now.head a → file_refused asked.now.head (need_of asked.now.head a asked.now.change size) ≡ None) }
    ensures same { OnOk result (SameVolume volume.old volume.new) }
    ensures err { IfErr result (λ e. IfRefused e (λ cause. ((a : List (List ℕ)) → volume.old.store.current ≡ Some a → IsFile asked.now.head → IsLaidOut asked.now.head a → file_refused asked.now.head (need_of asked.now.head a asked.now.change size) ≡ Some cause) × SameVolume volume.old volume.new) (λ down. FellIn down volume.old volume.new)) }
{
    if !asked.change.asks(asked.head.organization) {
        return Ok(());
    }
    match need_buckets(volume, &asked.head, size as u16) {
        Err(down) => Err(RecErr::Down(down)),
        Ok(need) => {
            let free = asked.head.alloc.saturating_sub(asked.head.used);
            if free < need {
                Err(RecErr::FileFull { free, need })
            } else {
                Ok(())
            }
        }
    }
}
