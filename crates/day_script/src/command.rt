//! The words that ask for a day.
ghost use Rattle.std.specs.Prelude.{◌≡◌, ◌≤◌, ◌<◌, IfSome, map, string_bytes};
ghost use Rattle.std.specs.Option.{option_map};
ghost use Rattle.day_model.specs.Command.{are_a_and_b as are_a_and_b_of, day_asked as day_asked_of, plain_number as plain_number_of};
ghost use Rattle.day_script.specs.Days.{asked_of};

use vms_base::{NodeName, read_digits};

const MOST: u64 = 10_000;

/// A day of so many transactions, from 1 to 10,000, which draws from this number on.
#[derive(Clone, Copy, Debug, PartialEq, Eq)]
pub struct Day {
    pub count: u32,
    pub start: u32,
}

// A number of decimal digits without a leading zero.
fn plain_number(limit: u64, text: &[u8]) -> Option<u64>
    ensures value { result ≡ plain_number_of limit text.now }
    ensures within { IfSome result (λ n. n ≤ limit) }
{
    match text {
        [] | [b'0', _, ..] => None,
        _ => read_digits(limit, text),
    }
}

fn are_a_and_b(nodes: &[NodeName]) -> bool
    ensures { result ≡ are_a_and_b_of nodes.now }
{
    match nodes {
        [a, b] => a.bytes() == b"A".as_slice() && b.bytes() == b"B".as_slice(),
        _ => false,
    }
}

/// The day that the words of a command ask for: the program's name, `MAKE` in capitals, the number of transactions, from 1 to 10,000, and the number of
/// 32 bits from which on it draws, both in decimal digits without leading zeros; over a rack whose nodes are A and B. None exactly where they are not so.
pub fn day_asked(nodes: &[NodeName], words: &[String]) -> Option<Day>
    ensures value { option_map asked_of result ≡ day_asked_of nodes.now (map string_bytes words.now) }
    ensures count { IfSome result (λ day. day.count ≤ 10000) }
{
    match words {
        [_, command, count, start] => {
            if command.as_bytes() != b"MAKE".as_slice() || !are_a_and_b(nodes) {
                return None;
            }
            let count = plain_number(MOST, count.as_bytes())?;
            let start = plain_number(u64::from(u32::MAX), start.as_bytes())?;
            if count == 0 {
                return None;
            }
            Some(Day {
                count: count as u32,
                start: start as u32,
            })
        }
        _ => None,
    }
}
