// The bytes of a statement's operands, which are kept beside it.
ghost use Rattle.std.specs.Prelude.{◌≡◌, ℕ, ◌+◌, ◌<◌, ◌≤◌, List, [], ◌∷◌, ◌++◌, take, length, IfOk, IfSome, Option, Some, None, if◌then◌else◌};
ghost use Rattle.std.specs.Option.{option_map};
ghost use Rattle.vms_base.specs.vms_model.Texts.{is_plain as is_plain_byte};
ghost use Rattle.vms_base.specs.vms_model.Limits.{line_size_limit};
ghost use Rattle.script_model.specs.Operands.{to_quote, hex_value as hex_value_of, hex_pairs, hex_said, bytes_said};

use std::alloc::{AllocError, Global};
use std::marker::Model;

const MOST: usize = 20_000;

/// Bytes of an operand, at most as many as a line has: 20,000. Their place is taken once.
#[derive(Drop)]
pub struct Literal {
    place: Vec<u8>,
    used: usize,
}

impl Model for Literal {
    ghost Value = { List ℕ };

    ghost view = { λ l. take l.used l.place.items };

    ghost invariant = { λ l. (length l.place.items ≡ line_size_limit) × (l.used ≤ line_size_limit) };
}

// Writes these bytes over the first ones.
fn put_first(place: &mut [u8], bytes: &[u8])
    requires { length bytes.now ≤ length place.old }
    ensures length { length place.new ≡ length place.old }
    ensures first { take (length bytes.now) place.new ≡ bytes.now }
{
    place[..bytes.len()].copy_from_slice(bytes);
}

impl Literal {
    /// No bytes yet, or an error where there is no memory for the place.
    pub fn reserve(alloc: Global) -> Result<Literal, AllocError>
        ensures { IfOk result (λ l. l ≡ []) }
    {
        let place = vec![in alloc; 0u8; MOST]?;
        Ok(Literal { place, used: 0 })
    }

    /// The operand's bytes.
    pub fn bytes(&self) -> &[u8]
        ensures value { result.now ≡ self.now }
        ensures few { length self.now ≤ line_size_limit }
    {
        &self.place[..self.used]
    }

    fn clear(&mut self)
        ensures { self.new ≡ [] }
    {
        self.used = 0;
    }

    fn push(&mut self, b: u8)
        requires { length self.old < line_size_limit }
        ensures { self.new ≡ self.old ++ b ∷ [] }
    {
        self.place[self.used] = b;
        self.used += 1;
    }

    fn set(&mut self, bytes: &[u8])
        requires { length bytes.now ≤ line_size_limit }
        ensures { self.new ≡ bytes.now }
    {
        put_first(&mut self.place, bytes);
        self.used = bytes.len();
    }

    // Takes plain bytes up to a quote that ends the word.
    fn take_quoted(&mut self, text: &[u8]) -> bool
        requires { length text.now ≤ line_size_limit }
        ensures { to_quote text.now ≡ (if result then Some self.new else None) }
    {
        match quoted(text) {
            Some(bytes) => {
                self.set(bytes);
                true
            }
            None => false,
        }
    }

    // Takes the bytes that pairs of hexadecimal digits give.
    fn take_hex(&mut self, text: &[u8]) -> bool
        requires { length text.now ≤ line_size_limit }
        ensures { hex_pairs text.now ≡ (if result then Some self.new else None) }
    {
        self.clear();
        let mut rest = text;
        loop {
            match rest {
                [] => return true,
                [_] => return false,
                [high, low, more @ ..] => {
                    let Some(b) = hex_byte(*high, *low) else {
                        return false;
                    };
                    self.push(b);
                    rest = more;
                }
            }
        }
    }

    // Takes the bytes that a word says, and tells whether it says any.
    pub(crate) fn take_bytes(&mut self, text: &[u8]) -> bool
        requires { length text.now ≤ line_size_limit }
        ensures { bytes_said text.now ≡ (if result then Some self.new else None) }
    {
        match text {
            [b'"', text @ ..] => self.take_quoted(text),
            [b'%', b'X', text @ ..] => self.take_hex(text),
            _ => false,
        }
    }
}

/// The bytes of a statement's operands: of its record, and of its key where that is bytes.
#[derive(Drop)]
pub struct Literals {
    pub record: Literal,
    pub key: Literal,
}

impl Literals {
    /// No bytes yet, or an error where there is no memory for the places.
    pub fn reserve(alloc: Global) -> Result<Literals, AllocError>
        ensures { IfOk result (λ l. (l.record ≡ []) × (l.key ≡ [])) }
    {
        let record = Literal::reserve(alloc)?;
        let key = Literal::reserve(alloc)?;
        Ok(Literals { record, key })
    }
}

fn is_plain(b: u8) -> bool
    ensures { result ≡ is_plain_byte b }
{
    32 <= b && b <= 126 && b != b'"'
}

/// The plain bytes up to a quote that ends the word.
pub fn quoted(text: &[u8]) -> Option<&[u8]>
    ensures value { option_map (λ bytes. bytes.now) result ≡ to_quote text.now }
    ensures few { IfSome result (λ bytes. length bytes.now ≤ length text.now) }
{
    for (i, b) in text.iter().enumerate() {
        let b = *b;
        if b == b'"' {
            return if i + 1 == text.len() {
                Some(&text[..i])
            } else {
                None
            };
        }
        if !is_plain(b) {
            return None;
        }
    }
    None
}

fn hex_value(b: u8) -> Option<u8>
    ensures value { result ≡ hex_value_of b }
    ensures small { IfSome result (λ d. d < 16) }
{
    match b {
        b'0'..=b'9' => Some(b - b'0'),
        b'A'..=b'F' => Some(b - 55),
        b'a'..=b'f' => Some(b - 87),
        _ => None,
    }
}

fn hex_byte(high: u8, low: u8) -> Option<u8>
    ensures { result ≡ hex_said (hex_value_of high) (hex_value_of low) }
{
    let high = hex_value(high)?;
    let low = hex_value(low)?;
    Some(high * 16 + low)
}
