//! What refuses an operation on records by its form alone.
ghost use Rattle.std.specs.Prelude.{◌≡◌, IfSome, option_map};
ghost use Rattle.std.specs.Option.{option_and_then};
ghost use Rattle.vms_base.specs.Keys.{key_of};
ghost use Rattle.record_operations.specs.Causes.{IsRefusal, cause_of};
ghost use Rattle.record_operations.specs.Forms.{key_refused, place_refused, size_refused, least_size as least_said, delete_refused, truncate_refused, form_refused, read_form_refused};

use crate::errors::RecErr;
use crate::ops::{ReadOp, RecordOp};
use file_base::{FileHead, Organization};
use vms_base::Key;

// A number where the organization has numbers, in a relative file one that has a cell; else as many bytes as its keys have.
fn key_refusal(head: &FileHead, key: &Key) -> Option<RecErr>
    ensures refuses { option_and_then cause_of result ≡ key_refused head.now (key_of key.now) }
    ensures refusal { IfSome result IsRefusal }
{
    match (head.organization, key) {
        (Organization::Sequential, Key::Number(_)) => None,
        (Organization::Relative, Key::Number(n)) => {
            if *n < 1 || head.mrn < *n {
                Some(RecErr::BadRecordNumber)
            } else {
                None
            }
        }
        (Organization::Indexed, Key::Text(text)) => {
            if text.bytes().len() == usize::from(head.key_size) {
                None
            } else {
                Some(RecErr::BadParameter)
            }
        }
        _ => Some(RecErr::BadParameter),
    }
}

// A record is put at a number in a relative file alone.
fn place_refusal(head: &FileHead, key: &Option<Key>) -> Option<RecErr>
    ensures refuses { option_and_then cause_of result ≡ place_refused head.now (option_map key_of key.now) }
    ensures refusal { IfSome result IsRefusal }
{
    match (head.organization, key) {
        (Organization::Sequential, None) | (Organization::Indexed, None) => None,
        (Organization::Relative, Some(key)) => key_refusal(head, key),
        _ => Some(RecErr::BadParameter),
    }
}

// A record has a byte at least, and as many as hold its key.
fn least_size(head: &FileHead) -> usize
    ensures { result ≡ least_said head.now }
{
    match head.organization {
        Organization::Sequential | Organization::Relative => 1,
        Organization::Indexed => {
            let end = usize::from(head.key_pos) + usize::from(head.key_size);
            if end < 1 { 1 } else { end }
        }
    }
}

fn size_refusal(head: &FileHead, size: usize) -> Option<RecErr>
    ensures refuses { option_and_then cause_of result ≡ size_refused head.now size }
    ensures refusal { IfSome result IsRefusal }
{
    if size < least_size(head) || usize::from(head.mrs) < size {
        return Some(RecErr::BadRecordSize);
    }
    None
}

fn delete_refusal(head: &FileHead) -> Option<RecErr>
    ensures refuses { option_and_then cause_of result ≡ delete_refused head.now }
    ensures refusal { IfSome result IsRefusal }
{
    match head.organization {
        Organization::Sequential => Some(RecErr::BadOperation),
        Organization::Relative | Organization::Indexed => None,
    }
}

fn truncate_refusal(head: &FileHead) -> Option<RecErr>
    ensures refuses { option_and_then cause_of result ≡ truncate_refused head.now }
    ensures refusal { IfSome result IsRefusal }
{
    match head.organization {
        Organization::Sequential => None,
        Organization::Relative | Organization::Indexed => Some(RecErr::BadOperation),
    }
}

/// The first refusal of a change of a file with this head, and of a record of so many bytes where one is written: of its key or place, then of the
/// operation, then of the record's size.
pub fn form_refusal(head: &FileHead, op: &RecordOp, size: usize) -> Option<RecErr>
    ensures refuses { option_and_then cause_of result ≡ form_refused head.now op.now size }
    ensures refusal { IfSome result IsRefusal }
{
    match op {
        RecordOp::Put { file: _, key } => match place_refusal(head, key) {
            Some(refusal) => Some(refusal),
            None => size_refusal(head, size),
        },
        RecordOp::Update { file: _, key } => match key_refusal(head, key) {
            Some(refusal) => Some(refusal),
            None => size_refusal(head, size),
        },
        RecordOp::Delete { file: _, key } => match key_refusal(head, key) {
            Some(refusal) => Some(refusal),
            None => delete_refusal(head),
        },
        RecordOp::Truncate { .. } => truncate_refusal(head),
    }
}

/// The first refusal of a read of a file with this head.
pub fn read_refusal(head: &FileHead, op: &ReadOp) -> Option<RecErr>
    ensures refuses { option_and_then cause_of result ≡ read_form_refused head.now op.now }
    ensures refusal { IfSome result IsRefusal }
{
    match op {
        ReadOp::Get { file: _, key } => key_refusal(head, key),
        ReadOp::Next { file: _, after } => match after {
            Some(key) => key_refusal(head, key),
            None => None,
        },
    }
}
