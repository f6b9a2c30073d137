//! Where a script comes from, how its lines are read, and how a transcript's lines are written.
#![tactic(auto)]

mod adapters;
mod branch_lines;
mod emit;
mod form;
mod lines;
mod manager_lines;
mod memory;
mod outside;
mod recovery_lines;

pub use adapters::{ReaderSource, WriterSink};
pub use emit::{Emit, LineBuffer, SinkEmit, emitting_composes};
pub use form::{Cause, Form, Quota, Standing};
pub use lines::{LineReader, Next};
pub use memory::{MemSink, MemSource};
pub use outside::{Failed, Sink, Source};
