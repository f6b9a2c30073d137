//! A source and a sink that keep the last bytes that go through them, for what is said of a run at its end.
ghost use Rattle.std.specs.Prelude.{◌≡◌};

use std::alloc::{AllocError, Global};
use transcript::{Failed, Sink, Source};

// A line of 20,000 bytes stands within so many, and what a reader of lines takes ahead of it.
const KEPT_BYTES: usize = 131_072;

// The older bytes go together, when so many are there, so that each is moved once at most.
const PLACE_BYTES: usize = 262_144;

/// The last bytes of a stream, and how many there were.
#[derive(Drop)]
pub struct Tail {
    bytes: Vec<u8>,
    total: u64,
    feeds: u64,
}

impl Tail {
    /// Of a stream that has no byte yet.
    pub fn reserve(alloc: Global) -> Result<Tail, AllocError> {
        Ok(Tail {
            bytes: Vec::with_capacity(alloc, PLACE_BYTES)?,
            total: 0,
            feeds: 0,
        })
    }

    fn keep(&mut self, bytes: &[u8]) {
        let feeds = bytes.iter().filter(|b| **b == b'\n').count();
        self.feeds = self.feeds.saturating_add(feeds as u64);
        self.total = self.total.saturating_add(bytes.len() as u64);
        if bytes.len() > PLACE_BYTES.saturating_sub(self.bytes.len()) {
            let older = self.bytes.len().saturating_sub(KEPT_BYTES);
            let _ = self.bytes.drain(..older);
        }
        let _ = self.bytes.extend_from_slice(bytes);
    }

    /// How many bytes the stream has had.
    pub fn total(&self) -> u64 {
        self.total
    }

    /// How many line feeds it has had.
    pub fn feeds(&self) -> u64 {
        self.feeds
    }

    /// The line of this number, counted from 1, without its line feed, as far as its bytes are kept.
    pub fn line(&self, number: u64) -> Option<&[u8]> {
        let behind = self.feeds.checked_add(1)?.checked_sub(number)?;
        self.bytes
            .as_slice()
            .rsplit(|b| *b == b'\n')
            .nth(behind as usize)
    }
}

/// A source that keeps the last bytes that it gave.
#[derive(Drop)]
pub struct WatchedSource<S> {
    pub source: S,
    pub tail: Tail,
}

impl<S: Source> Source for WatchedSource<S> {
    ghost faults = { λ s. S.faults s.source };

    ghost left = { λ s. S.left s.source };

    fn read(&mut self, buf: &mut [u8]) -> Result<usize, Failed> {
        match self.source.read(buf) {
            Ok(n) => {
                self.tail.keep(&buf[..n]);
                Ok(n)
            }
            Err(e) => Err(e),
        }
    }
}

/// A sink that keeps the last bytes that it took.
#[derive(Drop)]
pub struct WatchedSink<K> {
    pub sink: K,
    pub tail: Tail,
}

impl<K: Sink> Sink for WatchedSink<K> {
    ghost faults = { λ s. K.faults s.sink };

    ghost shown = { λ s. K.shown s.sink };

    fn write(&mut self, bytes: &[u8]) -> Result<usize, Failed> {
        match self.sink.write(bytes) {
            Ok(n) => {
                self.tail.keep(&bytes[..n]);
                Ok(n)
            }
            Err(e) => Err(e),
        }
    }
}
