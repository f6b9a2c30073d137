// A whole script, line after line.
ghost use Rattle.std.specs.Prelude.{true, None, ◌≡◌, ◌+◌, ◌*◌, ◌<◌, ◌≤◌, ℕ, List, [], ◌∷◌, length, take, drop, map, codes, if◌then◌else◌, OnOk, IfOk};
ghost use Rattle.vms_model.specs.Limits.{line_limit, line_size_limit, script_size_limit};
ghost use Rattle.world_laws.specs.transcript_model.Script.{ScriptLine, lines_of};
ghost use Rattle.world_laws.specs.run_model.Transcript.{Entry};
ghost use Rattle.script_lang.specs.declared.literals.Literals.{Literals as LiteralsSaid};
ghost use Rattle.reference_law.specs.Whole.{is_in_limits, opening, run_of};
ghost use Rattle.reference_run.specs.Served.{IsFit, place_of, units_left, world_of};
ghost use Rattle.reference_run.specs.Scripts.{Feeds, Stands, Turns, Steps, RunsTo, exit_of};

use crate::rack::{Place, Rack};
use reference_text::put_lines;
use reference_world::{Line, one};
use script_lang::{Literals, read_statement};
use std::alloc::{AllocError, Global};
use std::mem::replace;
use vms_base::NodeName;

/// How a script ended.
#[derive(Clone, Copy, Debug, PartialEq, Eq, Drop)]
pub enum Ending {
    Done,
    BadLine,
    TooLong,
}

/// How a script ended, and what it showed.
#[derive(Debug, Drop)]
pub struct Shown {
    pub ending: Ending,
    pub text: Vec<u8>,
}

/// What was made of the lines so far.
#[derive(Drop)]
pub struct Reading {
    pub number: u64,
    pub size: usize,
    pub rack: Rack,
    pub literals: Literals,
    pub text: Vec<u8>,
}

// Where the first line feed stands.
fn feed_at(bytes: &[u8]) -> Option<usize>
    ensures { Feeds bytes.now result }
{
    match bytes {
        [] => None,
        [b, rest @ ..] => {
            if *b == b'\n' {
                return Some(0);
            }
            match feed_at(rest) {
                Some(n) => Some(n + 1),
                None => None,
            }
        }
    }
}

impl Reading {
    /// Before the first line.
    fn new(alloc: Global, places: &[Place]) -> Result<Reading, AllocError>
        requires { length places.now ≤ 8 }
        ensures stands { IfOk result (λ r. Stands r []) }
        ensures opening { IfOk result (λ r. world_of r.rack ≡ opening (map place_of places.now)) }
        ensures fit { IfOk result (λ r. IsFit (1024 * 1000000) (world_of r.rack)) }
    {
        Ok(Reading {
            number: 1,
            size: 0,
            rack: Rack::new(alloc, places)?,
            literals: Literals::reserve(alloc)?,
            text: Vec::new(alloc),
        })
    }

    // Whether the next line is within the limits of a script.
    fn is_in_limits(&self, line: &[u8], ended: bool) -> bool
        ensures line { result ≡ true → length line.now ≤ line_size_limit }
        ensures number { result ≡ true → self.now.number ≤ line_limit }
        ensures size { result ≡ true → self.now.size ≤ script_size_limit }
        ensures limits { (es : List Entry) → Stands self.now es → result ≡ is_in_limits es (record { text = line.now; ended = ended }) }
    {
        let size = line.len() + usize::from(ended);
        line.len() <= 20_000
            && self.size <= 67_108_864
            && size <= 67_108_864 - self.size
            && self.number <= 1_000_000
    }

    // A line is passed.
    fn pass(&mut self, line: &[u8], ended: bool)
        requires line { length line.now ≤ line_size_limit }
        requires number { self.old.number ≤ line_limit }
        requires size { self.old.size ≤ script_size_limit }
        ensures number { self.new.number ≡ self.old.number + 1 }
        ensures size { self.new.size ≡ self.old.size + (length line.now + (if ended then 1 else 0)) }
        ensures text { self.new.text ≡ self.old.text }
        ensures rack { self.new.rack ≡ self.old.rack }
    {
        self.number += 1;
        self.size += line.len() + usize::from(ended);
    }

    // Serves a line, and tells whether the script goes on behind it.
    fn turn(&mut self, alloc: Global, line: &[u8], ended: bool) -> Result<bool, AllocError>
        requires line { length line.now ≤ line_size_limit }
        requires number { self.old.number ≤ line_limit }
        requires size { self.old.size ≤ script_size_limit }
        requires fit { IsFit (units_left self.old.number) (world_of self.old.rack) }
        requires few { length (world_of self.old.rack).nodes ≤ 8 }
        ensures turns { (es : List Entry) (more : List ScriptLine) → Stands self.old es → is_in_limits es (record { text = line.now; ended = ended }) ≡ true →
            IfOk result (λ on. Turns self.old es (record { text = line.now; ended = ended }) more on self.new) }
        ensures fit { IfOk result (λ on. on ≡ true → IsFit (units_left self.new.number) (world_of self.new.rack)) }
        ensures few { OnOk result (length (world_of self.new.rack).nodes ≤ 8) }
    {
        match read_statement(line, &mut self.literals) {
            Ok(None) => {
                self.pass(line, ended);
                Ok(true)
            }
            Ok(Some(statement)) => {
                let lines = self.rack.serve(alloc, &statement, &self.literals)?;
                put_lines(&mut self.text, self.number, lines.as_slice())?;
                self.pass(line, ended);
                Ok(true)
            }
            Err(e) => {
                let lines = one(alloc, Line::BadLine(e.column))?;
                put_lines(&mut self.text, self.number, lines.as_slice())?;
                Ok(false)
            }
        }
    }

    // The same of a line that may be past the limits. None where the script goes on behind it.
    fn one_line(
        &mut self,
        alloc: Global,
        line: &[u8],
        ended: bool,
    ) -> Result<Option<Ending>, AllocError>
        requires fit { IsFit (units_left self.old.number) (world_of self.old.rack) }
        requires few { length (world_of self.old.rack).nodes ≤ 8 }
        ensures steps { (es : List Entry) (more : List ScriptLine) → Stands self.old es → IfOk result (λ ending. Steps self.old es (record { text = line.now; ended = ended }) more ending self.new) }
        ensures fit { IfOk result (λ ending. ending ≡ None → IsFit (units_left self.new.number) (world_of self.new.rack)) }
        ensures few { OnOk result (length (world_of self.new.rack).nodes ≤ 8) }
    {
        if self.is_in_limits(line, ended) {
            if self.turn(alloc, line, ended)? {
                Ok(None)
            } else {
                Ok(Some(Ending::BadLine))
            }
        } else {
            let lines = one(alloc, Line::TooLong)?;
            put_lines(&mut self.text, self.number, lines.as_slice())?;
            Ok(Some(Ending::TooLong))
        }
    }
}

// Serves the lines that are left, and tells how the script ended.
fn run_on(alloc: Global, reading: &mut Reading, rest: &[u8]) -> Result<Ending, AllocError>
    requires fit { IsFit (units_left reading.old.number) (world_of reading.old.rack) }
    requires few { length (world_of reading.old.rack).nodes ≤ 8 }
    ensures { (es : List Entry) → Stands reading.old es → IfOk result (λ ending. RunsTo reading.old es (lines_of rest.now) ending reading.new) }
{
    if rest.is_empty() {
        return Ok(Ending::Done);
    }
    match feed_at(rest) {
        Some(n) => match reading.one_line(alloc, &rest[..n], true) {
            Ok(None) => run_on(alloc, reading, &rest[n + 1..]),
            Ok(Some(ending)) => Ok(ending),
            Err(e) => Err(e),
        },
        None => match reading.one_line(alloc, rest, false) {
            Ok(None) => Ok(Ending::Done),
            Ok(Some(ending)) => Ok(ending),
            Err(e) => Err(e),
        },
    }
}

/// What a script shows where no disk fails, from its first line on, and how it ends. The nodes of these places, of which a rack has at most eight,
/// are down, and their disks are all of zeros.
///
/// An error comes only where there is no memory: the limits of a script keep each number within its type, and each moment within the year 9999.
pub fn reference_transcript_of(
    alloc: Global,
    places: &[Place],
    script: &[u8],
) -> Result<Shown, AllocError>
    requires { length places.now ≤ 8 }
    ensures { IfOk result (λ shown. record { exit = exit_of shown.ending; text = shown.text.items } ≡ run_of (map place_of places.now) script.now) }
{
    let mut reading = Reading::new(alloc, places)?;
    match run_on(alloc, &mut reading, script) {
        Ok(ending) => Ok(Shown {
            ending,
            text: replace(&mut reading.text, Vec::new(alloc)),
        }),
        Err(e) => Err(e),
    }
}

/// The same of the node A alone, whose disk has so many blocks.
pub fn reference_transcript(alloc: Global, blocks: u32, script: &[u8]) -> Result<Shown, AllocError>
    ensures { IfOk result (λ shown. record { exit = exit_of shown.ending; text = shown.text.items } ≡ run_of (record { name = codes "A"; blocks = blocks } ∷ []) script.now) }
{
    match NodeName::new(b"A") {
        Some(name) => reference_transcript_of(alloc, &[Place { name, blocks }], script),
        None => unreachable!(),
    }
}
