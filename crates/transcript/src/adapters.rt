//! Sources and sinks over the readers and writers of std. They tell no bytes.
ghost use Rattle.std.specs.Prelude.{◌≡◌, None, min, ◌+◌, ◌-◌, ◌^◌, ◌<◌, ◌≤◌};

use crate::outside::{Failed, Sink, Source};
use std::io::{Read, Write};

/// A source over a reader. Each error of the reader raises the count of faults.
#[derive(Drop)]
pub struct ReaderSource<R> {
    reader: R,
    faults: u64,
}

impl<R: Read> ReaderSource<R> {
    /// With no faults yet.
    pub fn new(reader: R) -> ReaderSource<R>
        ensures none { result.faults ≡ 0 }
    {
        ReaderSource { reader, faults: 0 }
    }
}

impl<R: Read> Source for ReaderSource<R> {
    ghost faults = { λ s. s.faults };

    ghost left = { λ _. None };

    fn read(&mut self, buf: &mut [u8]) -> Result<usize, Failed> {
        match self.reader.read(buf) {
            Ok(n) => Ok(n),
            Err(_) => {
                self.faults = self.faults.saturating_add(1);
                Err(Failed)
            }
        }
    }
}

/// A sink over a writer. Each error of the writer raises the count of faults, and so does a write that takes no byte.
#[derive(Drop)]
pub struct WriterSink<W> {
    writer: W,
    faults: u64,
}

impl<W: Write> WriterSink<W> {
    /// With no faults yet.
    pub fn new(writer: W) -> WriterSink<W>
        ensures none { result.faults ≡ 0 }
    {
        WriterSink { writer, faults: 0 }
    }
}

impl<W: Write> Sink for WriterSink<W> {
    ghost faults = { λ s. s.faults };

    ghost shown = { λ _. None };

    fn write(&mut self, bytes: &[u8]) -> Result<usize, Failed> {
        match self.writer.write(bytes) {
            Ok(n) if n > 0 => Ok(n),
            _ => {
                self.faults = self.faults.saturating_add(1);
                Err(Failed)
            }
        }
    }
}
