//! Tests of a head, and of a key with its record, by organization.
ghost use Rattle.std.specs.Prelude.{◌↔◌, ◌≡◌, ◌≤◌, ◌+◌, ℕ, true, length, IfSome};
ghost use Rattle.std.specs.Option.{option_copied};
ghost use Rattle.file_base.specs.declared.head.Organization.TheVariants.{Sequential, Relative, Indexed};
ghost use Rattle.file_base.specs.Bytes.{piece_at};
ghost use Rattle.vms_base.specs.Keys.{key_of};
ghost use Rattle.relative_file.specs.Cells.{IsRelative, cells_in};
ghost use Rattle.seq_file.specs.Layout.{IsSequential};
ghost use Rattle.indexed_tree.specs.Files.{IsTreeHead};
ghost use Rattle.relative_file.specs.Cells as relative;
ghost use Rattle.seq_file.specs.Layout as sequential;
ghost use Rattle.indexed_tree.specs.indexed_file.Chain as leaf;

use file_base::FileHead;
use vms_base::{Key, Record};

/// Whether the numbers of a head are those of a sequential file.
pub fn forms_sequential(head: &FileHead) -> bool
    requires { head.now.organization ≡ Sequential }
    ensures formed { result ≡ true → IsSequential head.now }
    ensures exact { IsSequential head.now → result ≡ true }
{
    head.used >= 1 && head.used <= head.alloc && head.root == 0 && head.levels == 0
}

// How many cells a bucket has.
fn cells(head: &FileHead) -> u32
    ensures { result ≡ cells_in head.now }
{
    (512 * head.bucket as u32).saturating_sub(16) / (head.mrs as u32 + 2)
}

/// Whether the numbers of a head are those of a relative file.
pub fn forms_relative(head: &FileHead) -> bool
    requires { head.now.organization ≡ Relative }
    ensures formed { result ≡ true → IsRelative head.now }
    ensures exact { IsRelative head.now → result ≡ true }
{
    let cells = cells(head);
    let most = head.alloc as u64 * cells as u64;
    let plain = head.root == 0 && head.levels == 0 && head.count == 0;
    head.mrn as u64 <= most && cells >= 1 && head.used == head.alloc && plain
}

/// Whether the numbers of a head are those of an indexed file.
pub fn forms_indexed(head: &FileHead) -> bool
    requires { head.now.organization ≡ Indexed }
    ensures formed { result ≡ true → IsTreeHead head.now }
    ensures exact { IsTreeHead head.now → result ≡ true }
{
    let holds = head.key_pos as u32 + head.key_size as u32 <= head.mrs as u32;
    let key = head.key_size >= 1 && head.key_size <= 64 && holds;
    let index = head.levels >= 1 && head.levels <= 12 && head.root < head.used;
    head.used <= head.alloc && key && index && head.count == 0
}

// Whether a record, where there is one, has a byte at least and at most so many.
fn is_record(value: Option<&Record>, mrs: u16) -> bool
    ensures fits { result ≡ true → IfSome (option_copied value.entry) (λ r. (1 ≤ length r) × (length r ≤ mrs)) }
    ensures exact { IfSome (option_copied value.entry) (λ r. (1 ≤ length r) × (length r ≤ mrs)) → result ≡ true }
{
    match value {
        Some(record) => !record.bytes().is_empty() && record.bytes().len() <= mrs as usize,
        None => true,
    }
}

/// Whether a sequential file may have this key, and keep this record there.
pub fn suits_sequential(head: &FileHead, key: &Key, value: Option<&Record>) -> bool
    ensures suited { result ≡ true → sequential.Suits head.now (key_of key.now) (option_copied value.entry) }
    ensures exact { sequential.Suits head.now (key_of key.now) (option_copied value.entry) → result ≡ true }
{
    match key {
        Key::Number(n) => *n >= 1 && is_record(value, head.mrs),
        _ => false,
    }
}

/// Whether a relative file may have this key, and keep this record there.
pub fn suits_relative(head: &FileHead, key: &Key, value: Option<&Record>) -> bool
    ensures suited { result ≡ true → relative.Suits head.now (key_of key.now) (option_copied value.entry) }
    ensures exact { relative.Suits head.now (key_of key.now) (option_copied value.entry) → result ≡ true }
{
    match key {
        Key::Number(n) => *n >= 1 && *n <= head.mrn && is_record(value, head.mrs),
        _ => false,
    }
}

// Whether bytes have this piece at a place.
fn has_piece(bytes: &[u8], at: u16, piece: &[u8]) -> bool
    requires { 1 ≤ length piece.now }
    ensures has { result ≡ true → piece_at bytes.now at (length piece.now) ≡ piece.now }
    ensures exact { piece_at bytes.now at (length piece.now) ≡ piece.now → result ≡ true }
{
    let from = at as usize;
    if from > bytes.len() || piece.len() > bytes.len() - from {
        return false;
    }
    &bytes[from..from + piece.len()] == piece
}

// Whether a record, where there is one, has this key at its place and at most the longest length.
fn keeps_key(head: &FileHead, key: &[u8], value: Option<&Record>) -> bool
    requires { 1 ≤ length key.now }
    ensures keeps { result ≡ true → IfSome (option_copied value.entry) (λ r. (piece_at r head.now.key_pos (length key.now) ≡ key.now) × (length r ≤ head.now.mrs)) }
    ensures exact { IfSome (option_copied value.entry) (λ r. (piece_at r head.now.key_pos (length key.now) ≡ key.now) × (length r ≤ head.now.mrs)) → result ≡ true }
{
    match value {
        Some(record) => {
            has_piece(record.bytes(), head.key_pos, key)
                && record.bytes().len() <= head.mrs as usize
        }
        None => true,
    }
}

/// Whether an indexed file may have this key, and keep this record there.
pub fn suits_indexed(head: &FileHead, key: &Key, value: Option<&Record>) -> bool
    ensures suited { result ≡ true → leaf.Suits head.now (key_of key.now) (option_copied value.entry) }
    ensures exact { leaf.Suits head.now (key_of key.now) (option_copied value.entry) → result ≡ true }
{
    match key {
        Key::Text(text) => {
            text.bytes().len() == head.key_size as usize && keeps_key(head, text.bytes(), value)
        }
        _ => false,
    }
}
