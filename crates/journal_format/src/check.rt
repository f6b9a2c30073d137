// Whether an entry begins as these bytes do.
ghost use Rattle.std.specs.Prelude.{◌≡◌, ◌+◌, ◌*◌, ◌≤◌, ◌<◌, OnOk, IfErr, if◌then◌else◌, ◌==◌, length, slice_index, true};
ghost use Rattle.byteorder.specs.Endian.{little_bytes, little_number};
ghost use Rattle.journal_model.specs.Entries.{has_image, is_kind, is_flag, is_key, is_image, total};
ghost use Rattle.journal_format.specs.IdForms.{is_letter, is_letter_or_digit, id_byte};
ghost use Rattle.journal_format.specs.Fronts.{field_ok, next_ok, Begun, Stops};

use byteorder::{ByteOrder, LittleEndian};
use thiserror::Error;

/// Why no entry was read.
#[derive(Clone, Copy, Debug, PartialEq, Eq, Error)]
pub enum EntryErr {
    /// The bytes end before the entry that they begin.
    #[error("the bytes end before the entry")]
    Short,
    /// No entry begins so.
    #[error("no entry begins so")]
    Form,
}

/// The bytes before an entry's key.
pub const HEAD: usize = 48;

fn is_letter(b: u8) -> bool
    ensures { result ≡ is_letter b }
{
    b.is_ascii_uppercase()
}

fn is_letter_or_digit(b: u8) -> bool
    ensures { result ≡ is_letter_or_digit b }
{
    b.is_ascii_uppercase() || b.is_ascii_digit()
}

fn id_byte(place: usize, before: u8, b: u8) -> bool
    ensures { result ≡ id_byte place before b }
{
    if place == 0 {
        is_letter(b)
    } else if place < 6 {
        b == 0 || (before != 0 && is_letter_or_digit(b))
    } else if place < 8 {
        b == 0
    } else {
        true
    }
}

fn is_kind(b: u8) -> bool
    ensures { result ≡ is_kind b }
{
    b >= 1 && b <= 3
}

fn is_flag(kind: u8, b: u8) -> bool
    ensures { result ≡ is_flag kind b }
{
    if kind == 1 {
        b <= 1
    } else if kind == 2 {
        b == 0
    } else {
        b >= 1 && b <= 2
    }
}

fn is_key(kind: u8, b: u8) -> bool
    ensures { result ≡ is_key kind b }
{
    if kind == 1 { b >= 1 && b <= 64 } else { b == 0 }
}

/// Whether an entry with this kind and flag has an image.
pub fn has_image(kind: u8, flag: u8) -> bool
    ensures { result ≡ has_image kind flag }
{
    kind == 1 && flag == 1
}

/// The number in the two bytes at a place.
pub fn size_at(bytes: &[u8], at: usize) -> u16
    requires { at + 2 ≤ length bytes.now }
    ensures { result ≡ slice_index bytes.now at + 256 * slice_index bytes.now (at + 1) }
{
    LittleEndian::read_u16(&bytes[at..])
}

/// A number in two bytes.
pub fn size_bytes(size: u16) -> [u8; 2]
    ensures { result ≡ little_bytes 2 size }
{
    let mut bytes = [0; 2];
    LittleEndian::write_u16(&mut bytes, size);
    bytes
}

// The higher byte of an image's length, behind the lower one.
fn is_high(kind: u8, flag: u8, low: u8, b: u8) -> bool
    ensures { result ≡ (if has_image kind flag then is_image true (low + 256 * b) else b == 0) }
{
    if has_image(kind, flag) {
        let size = size_at(&[low, b], 0);
        size >= 1 && size <= 8160
    } else {
        b == 0
    }
}

// The length of the entry whose first six bytes these are.
fn told_total(past: &[u8]) -> usize
    requires { 6 ≤ length past.now }
    ensures { result ≡ total (slice_index past.now 3) (slice_index past.now 4 + 256 * slice_index past.now 5) }
{
    HEAD + past[3] as usize + size_at(past, 4) as usize
}

fn field_ok(place: usize, past: &[u8], b: u8) -> bool
    requires here { place ≡ length past.now }
    requires within { place < 8 }
    ensures { result ≡ field_ok place past.now b }
{
    if place == 0 {
        is_kind(b)
    } else if place == 1 {
        is_flag(past[0], b)
    } else if place == 2 {
        past[0] == 1 || b == 0
    } else if place == 3 {
        is_key(past[0], b)
    } else if place == 4 {
        has_image(past[0], past[1]) || b == 0
    } else if place == 5 {
        is_high(past[0], past[1], past[4], b)
    } else if place == 6 {
        b as usize == told_total(past) % 256
    } else {
        b as usize == told_total(past) / 256 % 256
    }
}

// Whether a byte may stand behind those before it.
fn next_ok(past: &[u8], b: u8) -> bool
    ensures { result ≡ next_ok past.now b }
{
    let place = past.len();
    if place < 8 {
        field_ok(place, past, b)
    } else if place < 24 {
        id_byte(place - 8, past[place - 1], b)
    } else if place < 40 {
        id_byte(place - 24, past[place - 1], b)
    } else {
        past[0] == 3 || b == 0
    }
}

/// Whether the first 48 bytes are those of an entry.
pub fn check_front(bytes: &[u8]) -> Result<(), EntryErr>
    ensures long { OnOk result (48 ≤ length bytes.now) }
    ensures ok { OnOk result (Begun 48 bytes.now) }
    ensures err { IfErr result (λ e. Stops e bytes.now) }
{
    for i in 0..HEAD {
        if i == bytes.len() {
            return Err(EntryErr::Short);
        }
        if !next_ok(&bytes[..i], bytes[i]) {
            return Err(EntryErr::Form);
        }
    }
    Ok(())
}
