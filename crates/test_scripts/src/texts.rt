//! Texts of scripts and transcripts.
use std::alloc::Global;
use std::test::Fail;

/// These texts, one behind the other. It is an error where memory is missing.
pub fn joined(alloc: Global, parts: &[&[u8]]) -> Result<Vec<u8>, Fail> {
    let mut all = Vec::new(alloc);
    for part in parts {
        all.extend_from_slice(part)?;
    }
    Ok(all)
}

/// So many of these bytes. It is an error where memory is missing.
pub fn repeated(alloc: Global, byte: u8, times: usize) -> Result<Vec<u8>, Fail> {
    Ok(vec![in alloc; byte; times]?)
}

/// This text, with so many x where it has a number in braces: 240 of them for {240}. It is an error where memory is missing.
pub fn filled(alloc: Global, text: &[u8]) -> Result<Vec<u8>, Fail> {
    let mut all = Vec::new(alloc);
    let mut number: Option<usize> = None;
    for byte in text {
        match (number, *byte) {
            (None, b'{') => number = Some(0),
            (None, other) => all.push(other)?,
            (Some(times), b'}') => {
                all.extend_from_slice(&repeated(alloc, b'x', times)?)?;
                number = None;
            }
            (Some(front), digit) => {
                let last = usize::from(digit.saturating_sub(b'0'));
                number = Some(front.saturating_mul(10).saturating_add(last));
            }
        }
    }
    Ok(all)
}

/// Whether these lines are somewhere in a text. No lines are nowhere.
pub fn has(text: &[u8], lines: &[u8]) -> bool {
    !lines.is_empty() && text.windows(lines.len()).any(|part| part == lines)
}
