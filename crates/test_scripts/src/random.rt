//! Statements of three nodes that are drawn by numbers, each at a step of its script.
ghost use Rattle.std.specs.Prelude.{◌≤◌};

use crate::racks::NAMES;
use std::alloc::Global;
use std::test::Fail;

/// Numbers that follow from the first state.
#[derive(Drop)]
pub struct Draws {
    /// What the next number follows from.
    pub state: u64,
}

impl Draws {
    /// A number below 256.
    pub fn draw(&mut self) -> u8 {
        self.state = self
            .state
            .wrapping_mul(6_364_136_223_846_793_005)
            .wrapping_add(1_442_695_040_888_963_407);
        (self.state >> 56) as u8
    }

    /// A number below this one; 0 where there is none.
    pub fn below(&mut self, limit: u32) -> u32
        ensures { result ≤ limit }
    {
        let high = u32::from(self.draw());
        let low = u32::from(self.draw());
        let drawn = high * 256 + low;
        match drawn.checked_rem(limit) {
            Some(n) => n,
            None => 0,
        }
    }

    fn node(&mut self) -> &'static str {
        NAMES[(self.draw() % 3) as usize]
    }
}

// What is asked of a transaction, and whether it is asked of its first branch.
fn verb_of(drawn: u8) -> (&'static str, bool) {
    match drawn {
        0..=2 => ("START_TRANS", true),
        3 | 4 => ("ADD_BRANCH", true),
        5 | 6 => ("START_BRANCH", false),
        7 | 8 => ("PUT", false),
        9 => ("PUT", true),
        10 => ("UPDATE", false),
        11 => ("END_BRANCH", false),
        12 => ("INQUIRE", false),
        13 => ("ABORT_TRANS", false),
        _ => ("END_TRANS", true),
    }
}

// What stands behind its label, where that is no other branch.
fn operands(alloc: Global, drawn: u8, key: u32, step: u32) -> Result<String, Fail> {
    Ok(match drawn {
        2 => String::from_str(alloc, " TIMEOUT 9")?,
        7..=10 => format!(in alloc; " F {key} \"r{step}\"")?,
        _ => String::new(alloc),
    })
}

/// The line of a statement of a transaction of a low number, or of a branch of it; most numbers name one that is there. It is an error where memory is
/// missing.
pub fn of_transaction(alloc: Global, draws: &mut Draws, step: u32) -> Result<String, Fail> {
    let t = (step / 24).saturating_sub(draws.below(3));
    let home = NAMES[(t % 3) as usize];
    let other = t % 3 + 1 + draws.below(2);
    let at = NAMES[(other % 3) as usize];
    let key = 1 + draws.below(9);
    let drawn = draws.draw() % 16;
    let (verb, is_first) = verb_of(drawn);
    let rest = operands(alloc, drawn, key, step)?;
    if drawn == 3 || drawn == 4 {
        return Ok(format!(in alloc; "{home}: {verb} T{t} {at} U{t}{at}\n")?);
    }
    if is_first {
        Ok(format!(in alloc; "{home}: {verb} T{t}{rest}\n")?)
    } else {
        Ok(format!(in alloc; "{at}: {verb} U{t}{at}{rest}\n")?)
    }
}

// A clock is set forward.
fn of_clock(alloc: Global, node: &str, step: u32) -> Result<String, Fail> {
    let minute = 10 + step / 50 % 50;
    let second = 10 + step % 50;
    Ok(format!(in alloc; "CLOCK {node} \"17-NOV-1858 01:{minute}:{second}.00\"\n")?)
}

/// The line of a statement of the world, or of one that looks. It is an error where memory is missing.
pub fn of_world(alloc: Global, draws: &mut Draws, step: u32) -> Result<String, Fail> {
    let a = draws.node();
    let b = draws.node();
    let (front, behind) = match draws.draw() % 32 {
        0 | 1 => ("CRASH ", ""),
        2 | 3 => ("", ": BOOT"),
        4 => return of_clock(alloc, a, step),
        5 => return Ok(String::from_str(alloc, "SETTLE\n")?),
        6 => return Ok(format!(in alloc; "LINKDOWN {a} {b}\n")?),
        7 | 8 => ("", ": DUMP_JOURNAL RU"),
        _ => ("", ": DUMP F"),
    };
    Ok(format!(in alloc; "{front}{a}{behind}\n")?)
}

/// The line that delivers a message: one of the last that may have been sent. It is an error where memory is missing.
pub fn of_message(alloc: Global, draws: &mut Draws, step: u32) -> Result<String, Fail> {
    let number = (step / 3).saturating_sub(draws.below(12)) + draws.below(4);
    Ok(format!(in alloc; "DELIVER {number}\n")?)
}
