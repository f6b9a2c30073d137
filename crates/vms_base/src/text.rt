// Parts of texts: digits, words of a table, and what stands before and behind a byte.
ghost use Rattle.std.specs.Prelude.{◌≡◌, ℕ, ◌+◌, ◌-◌, ◌<◌, ◌≤◌, ◌^◌, List, [], ◌∷◌, ◌++◌, length, map, Option, Some, None, IfSome};
ghost use Rattle.std.specs.Option.{option_map};
ghost use Rattle.std.specs.Str.{bytes_eq};
ghost use Rattle.vms_model.specs.Names.{upper};
ghost use Rattle.vms_model.specs.Words.{number_next, number_from, among, parted_at};

// The number with one more digit.
fn next_number(limit: u64, n: u64, b: u8) -> Option<u64>
    ensures value { result ≡ number_next limit n b }
    ensures within { IfSome result (λ m. m ≤ limit) }
{
    if !b.is_ascii_digit() {
        return None;
    }
    let n = n.checked_mul(10)?.checked_add(u64::from(b - b'0'))?;
    if n <= limit { Some(n) } else { None }
}

/// The number that decimal digits make, 0 where there are none. None where a byte is no digit, or the number passes the limit.
pub fn read_digits(limit: u64, text: &[u8]) -> Option<u64>
    ensures value { result ≡ number_from limit 0 text.now }
    ensures within { IfSome result (λ n. n ≤ limit) }
{
    let mut n = 0;
    for b in text {
        match next_number(limit, n, *b) {
            Some(more) => n = more,
            None => return None,
        }
    }
    Some(n)
}

/// Whether a text is this name, which has capitals, in either case of letters.
pub fn is_word(name: &[u8], text: &[u8]) -> bool
    ensures { result ≡ bytes_eq name.now (upper text.now) }
{
    match (name, text) {
        ([], []) => true,
        ([a, name @ ..], [b, text @ ..]) => *a == b.to_ascii_uppercase() && is_word(name, text),
        _ => false,
    }
}

/// The value that stands beside this word in a table of words in capitals, where the word is in it, in either case of letters.
pub fn find<T: Copy>(rows: &[(&[u8], T)], text: &[u8]) -> Option<T>
    ensures { result ≡ among (map (λ row. (row.0.now, row.1)) rows.now) text.now }
{
    for (name, value) in rows {
        if is_word(name, text) {
            return Some(*value);
        }
    }
    None
}

/// The text before and behind the first byte of this value. None where there is no such byte.
pub fn part_at(mark: u8, text: &[u8]) -> Option<(&[u8], &[u8])>
    ensures { option_map (λ parts. (parts.0.now, parts.1.now)) result ≡ parted_at mark text.now }
{
    for (i, b) in text.iter().enumerate() {
        if *b == mark {
            return Some((&text[..i], &text[i + 1..]));
        }
    }
    None
}
