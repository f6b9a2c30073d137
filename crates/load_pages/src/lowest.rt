//! The lowest keys of the leaves of a file that is loaded.
ghost use Rattle.std.specs.Prelude.{◌≡◌, ◌≤◌, ◌<◌, ◌+◌, ◌-◌, ◌*◌, ◌++◌, ◌∷◌, [], ℕ, List, length, map, IfOk, replicate};
ghost use Rattle.vms_model.specs.Limits.{key_limit, record_limit};
ghost use Rattle.file_base.specs.Bytes.{piece_at};
ghost use Rattle.load_laws.specs.indexed_file.Chain.{HasKeys, kind_of};
ghost use Rattle.load_laws.specs.Chains.{packed};
ghost use Rattle.load_pages.specs.Given.{raw_of, AllRaw};
ghost use Rattle.load_laws.specs.Keys.{lowest_keys};

use crate::records::KeyedRecord;
use file_base::FileHead;
use std::alloc::{AllocError, Global};
use vms_base::KeyText;

// The key of these bytes, 1 to 64 of them.
fn key_text(bytes: &[u8]) -> KeyText
    requires some { 1 ≤ length bytes.now }
    requires short { length bytes.now ≤ key_limit }
    ensures { result ≡ bytes.now }
{
    match KeyText::new(bytes) {
        Some(key) => key,
        None => unreachable!(),
    }
}

// The key in a record.
fn key_in_record(head: &FileHead, value: &[u8]) -> KeyText
    requires keys { HasKeys head.now }
    requires long { head.now.key_pos + head.now.key_size ≤ length value.now }
    ensures { result ≡ piece_at value.now head.now.key_pos head.now.key_size }
{
    let from = head.key_pos as usize;
    key_text(&value[from..from + head.key_size as usize])
}

// The least key of the file's size.
fn least(head: &FileHead) -> KeyText
    requires keys { HasKeys head.now }
    ensures { result ≡ replicate head.now.key_size 0 }
{
    let zeros = [0; 64];
    key_text(&zeros[..head.key_size as usize])
}

// The lowest key of the first leaf alone.
fn first_keys(alloc: Global, head: &FileHead) -> Result<Vec<KeyText>, AllocError>
    requires { HasKeys head.now }
    ensures { IfOk result (λ keys. keys.items ≡ replicate head.now.key_size 0 ∷ []) }
{
    let mut keys = Vec::new(alloc);
    keys.push(least(head))?;
    Ok(keys)
}

// One record more, where the leaf that is filled has so many bytes: how many it has then. Where the record does not fit, a leaf begins with its key.
fn note_record(
    head: &FileHead,
    keys: &mut Vec<KeyText>,
    used: usize,
    value: &[u8],
) -> Result<usize, AllocError>
    requires keys { HasKeys head.now }
    requires one { 1 ≤ head.now.bucket }
    requires blocks { head.now.bucket ≤ 16 }
    requires long { head.now.key_pos + head.now.key_size ≤ length value.now }
    requires short { length value.now ≤ record_limit }
    requires few { used ≤ 16356 }
    ensures fits { IfOk result (λ filled. used + (length value.now + 4) ≤ 512 * head.now.bucket - 16 → (filled ≡ used + (length value.now + 4)) × (keys.new.items ≡ keys.old.items)) }
    ensures over { IfOk result (λ filled. 512 * head.now.bucket - 16 < used + (length value.now + 4) → (filled ≡ length value.now + 4) × (keys.new.items ≡ keys.old.items ++ piece_at value.now head.now.key_pos head.now.key_size ∷ [])) }
{
    let size = value.len() + 4;
    if used + size <= 512 * head.bucket as usize - 16 {
        return Ok(used + size);
    }
    keys.push(key_in_record(head, value))?;
    Ok(size)
}

/// The lowest keys of the leaves that the records fill, each before the next.
pub fn lowest_of(
    alloc: Global,
    head: &FileHead,
    records: &[KeyedRecord],
) -> Result<Vec<KeyText>, AllocError>
    requires keys { HasKeys head.now }
    requires one { 1 ≤ head.now.bucket }
    requires blocks { head.now.bucket ≤ 16 }
    requires fit { AllRaw (kind_of head.now) (512 * head.now.bucket) records.now }
    ensures are { IfOk result (λ keys. keys.items ≡ lowest_keys head.now (packed (512 * head.now.bucket - 16) [] (map (raw_of (kind_of head.now)) records.now))) }
{
    let mut keys = first_keys(alloc, head)?;
    let mut used = 0;
    for r in records {
        let filled = note_record(head, &mut keys, used, &r.bytes)?;
        used = filled;
    }
    Ok(keys)
}
