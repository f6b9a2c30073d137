//! The lines of a script, in whatever pieces the source gives it.
ghost use Rattle.std.specs.Prelude.{◌≡◌, ◌≢◌, ◌+◌, ◌<◌, ◌≤◌, if◌then◌else◌, List, [], ℕ, Option, IfOk};
ghost use Rattle.std.specs.Option.{option_map};
ghost use Rattle.vms_model.specs.Limits.{script_size_limit};
ghost use Rattle.emitter_model.specs.transcript_model.Script.{lines_of, size_of, IsWithinLimits};
ghost use Rattle.transcript.specs.Reading.{IsSound, Takes, ReadsNext, Counts, begun_line, pending, script_line, lines_ahead, taken_bytes};

use crate::outside::Source;
use std::alloc::{AllocError, Global};

const BUFFER_BYTES: usize = 65_536;

const LINE_BYTES: usize = 20_000;

const SCRIPT_BYTES: usize = 67_108_864;

/// What a call of `next` found.
#[derive(Clone, Copy, Debug, PartialEq, Eq)]
pub enum Next {
    /// One more line, which is within the limits.
    Line,
    /// The end of the script.
    End,
    /// A line that is not within the limits.
    TooLong,
    /// A read failed.
    Failed,
}

/// Why no more bytes were taken.
#[derive(Clone, Copy, Debug, PartialEq, Eq)]
pub enum Taken {
    Feed,
    All,
    Full,
}

/// Reads the lines of a script from a source. It takes memory once, before the first line.
///
/// A line has at most 20,000 bytes before its line feed, and a script 67,108,864 bytes (64 MiB).
/// Where a call gives no line, the lines that are still to come stay as they were: after a failed read the next call goes on in the same line.
#[derive(Drop)]
pub struct LineReader {
    buffer: Vec<u8>,
    start: usize,
    end: usize,
    line: Vec<u8>,
    used: usize,
    length: usize,
    ended: bool,
    taken: usize,
}

impl LineReader {
    /// Before the first line.
    pub fn reserve(alloc: Global) -> Result<LineReader, AllocError>
        ensures sound { IfOk result IsSound }
        ensures nothing { IfOk result (λ r. (left : Option (List ℕ)) → lines_ahead r left ≡ option_map lines_of left) }
        ensures taken { IfOk result (λ r. taken_bytes r ≡ 0) }
    {
        Ok(LineReader {
            buffer: vec![in alloc; 0u8; BUFFER_BYTES]?,
            start: 0,
            end: 0,
            line: vec![in alloc; 0u8; LINE_BYTES]?,
            used: 0,
            length: 0,
            ended: false,
            taken: 0,
        })
    }

    /// The bytes of the line that `next` gave last, without its line feed.
    pub fn line(&self) -> &[u8]
        requires { IsSound self.now }
        ensures { result.now ≡ (script_line self.now).text }
    {
        &self.line[..self.length]
    }

    /// Goes to the next line.
    pub fn next<S: Source>(&mut self, source: &mut S) -> Next
        requires sound { IsSound self.old }
        ensures sound { IsSound self.new }
        ensures count { S.faults source.old ≤ S.faults source.new }
        ensures tells { ReadsNext (taken_bytes self.old) (lines_ahead self.old (S.left source.old)) result self.new (lines_ahead self.new (S.left source.new)) (S.faults source.old) (S.faults source.new) }
        ensures taken { Counts (taken_bytes self.old) result self.new }
        ensures stays { result ≢ Next.Line → lines_ahead self.new (S.left source.new) ≡ lines_ahead self.old (S.left source.old) }
    {
        loop {
            match self.take_line() {
                Taken::Feed => {
                    self.finish(true);
                    return Next::Line;
                }
                Taken::Full => return Next::TooLong,
                Taken::All => {}
            }
            match source.read(self.buffer.as_mut_slice()) {
                Ok(0) => {
                    if self.used == 0 {
                        return Next::End;
                    }
                    self.finish(false);
                    return Next::Line;
                }
                Ok(n) => {
                    self.start = 0;
                    self.end = n;
                }
                Err(_) => return Next::Failed,
            }
        }
    }

    // The line that is begun is whole.
    fn finish(&mut self, ended: bool)
        requires sound { IsSound self.old }
        requires room { self.old.taken + self.old.used + (if ended then 1 else 0) ≤ script_size_limit }
        ensures sound { IsSound self.new }
        ensures line { script_line self.new ≡ record { text = begun_line self.old; ended = ended } }
        ensures begun { begun_line self.new ≡ [] }
        ensures pending { pending self.new ≡ pending self.old }
        ensures taken { self.new.taken ≡ self.old.taken + size_of (script_line self.new) }
        ensures limits { IsWithinLimits self.old.taken (script_line self.new) }
    {
        self.taken += self.used + usize::from(ended);
        self.length = self.used;
        self.ended = ended;
        self.used = 0;
    }

    // Takes bytes up to a line feed, which is taken too.
    fn take_line(&mut self) -> Taken
        requires { IsSound self.old }
        ensures sound { IsSound self.new }
        ensures taken { self.new.taken ≡ self.old.taken }
        ensures takes { Takes self.old result self.new }
    {
        while self.start < self.end {
            if self.taken + self.used == SCRIPT_BYTES {
                return Taken::Full;
            }
            let b = self.buffer[self.start];
            if b == b'\n' {
                self.start += 1;
                return Taken::Feed;
            }
            if self.used == LINE_BYTES {
                return Taken::Full;
            }
            self.line[self.used] = b;
            self.used += 1;
            self.start += 1;
        }
        Taken::All
    }
}
