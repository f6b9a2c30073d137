//! A source and a sink in memory, which fail at the calls that are named.
ghost use Rattle.std.specs.Prelude.{◌≡◌, ◌||◌, ◌==◌, ◌<◌, ◌≤◌, [], ◌∷◌, ◌++◌, Some, length, take, drop, min, IfOk, OnOk, OnErr, is_err, IfSome, vec_capacity};
ghost use Rattle.emitter_model.specs.transcript_model.Outside.{Rose, ahead, behind};

use crate::outside::{Failed, Sink, Source};
use std::alloc::{AllocError, Global};

/// Bytes in memory, read from the front on.
#[derive(Drop)]
pub struct MemSource {
    bytes: Vec<u8>,
    position: usize,
    calls: u64,
    named: Vec<u64>,
    faults: u64,
    ghost within: { position ≤ length bytes.items },
}

impl MemSource {
    ghost use Rattle.transcript.specs.Memory.{source_left, source_call, source_named};

    /// With all the bytes left, and no call named.
    pub fn new(alloc: Global, bytes: Vec<u8>) -> MemSource
        ensures left { source_left result ≡ bytes.items }
        ensures call { source_call result ≡ 1 }
        ensures named { source_named result ≡ [] }
        ensures faults { result.faults ≡ 0 }
    {
        MemSource {
            bytes,
            position: 0,
            calls: 0,
            named: Vec::new(alloc),
            faults: 0,
        }
    }

    /// Lets this call of `read` fail, counted from 1.
    pub fn fail(&mut self, call: u32) -> Result<(), AllocError>
        ensures ok { OnOk result (source_named self.new ≡ source_named self.old ++ (call ∷ [])) }
        ensures err { OnErr result (source_named self.new ≡ source_named self.old) }
        ensures left { source_left self.new ≡ source_left self.old }
        ensures call { source_call self.new ≡ source_call self.old }
        ensures faults { self.new.faults ≡ self.old.faults }
    {
        self.named.push(u64::from(call))?;
        Ok(())
    }
}

impl Source for MemSource {
    ghost use Rattle.transcript.specs.Memory.{source_left, source_call, source_named, is_named, count_after};

    ghost faults = { λ s. s.faults };

    ghost left = { λ s. Some (drop s.position s.bytes.items) };

    /// Fails exactly at the calls that are named, and else reads as many bytes as are left and fit.
    fn read(&mut self, buf: &mut [u8]) -> Result<usize, Failed>
        requires { 0 < length buf.old }
        ensures within { IfOk result (λ n. n ≤ length buf.new) }
        ensures bytes { IfOk result (λ n. Some (source_left self.old) ≡ ahead (take n buf.new) (Some (source_left self.new))) }
        ensures end { result ≡ Ok 0 → IfSome (Some (source_left self.old)) (λ rest. rest ≡ []) }
        ensures err { OnErr result (Some (source_left self.new) ≡ Some (source_left self.old)) }
        ensures count { self.old.faults ≤ self.new.faults }
        ensures fault { OnErr result (Rose self.old.faults self.new.faults) }
        ensures same { OnOk result (self.new.faults ≡ self.old.faults) }
        ensures fails { is_err result ≡ is_named (source_call self.old) (source_named self.old) }
        ensures takes { IfOk result (λ n. n ≡ min (length buf.new) (length (source_left self.old))) }
        ensures call { source_call self.new ≡ count_after (source_call self.old) }
        ensures named { source_named self.new ≡ source_named self.old }
    {
        self.calls = self.calls.saturating_add(1);
        if self.named.contains(&self.calls) {
            self.faults = self.faults.saturating_add(1);
            return Err(Failed);
        }
        let n = buf.len().min(self.bytes.len() - self.position);
        buf[..n].copy_from_slice(&self.bytes[self.position..self.position + n]);
        self.position += n;
        Ok(n)
    }
}

/// Room in memory, written from the front on.
#[derive(Drop)]
pub struct MemSink {
    bytes: Vec<u8>,
    room: usize,
    calls: u64,
    named: Vec<u64>,
    faults: u64,
    ghost reserved: { room ≤ vec_capacity bytes },
    ghost within: { length bytes.items ≤ room },
}

impl MemSink {
    ghost use Rattle.transcript.specs.Memory.{sink_shown, sink_room, sink_call, sink_named};

    /// With room for so many bytes, nothing written, and no call named.
    pub fn new(alloc: Global, room: usize) -> Result<MemSink, AllocError>
        ensures shown { IfOk result (λ s. sink_shown s ≡ []) }
        ensures room { IfOk result (λ s. sink_room s ≡ room) }
        ensures call { IfOk result (λ s. sink_call s ≡ 1) }
        ensures named { IfOk result (λ s. sink_named s ≡ []) }
        ensures faults { IfOk result (λ s. s.faults ≡ 0) }
    {
        Ok(MemSink {
            bytes: Vec::with_capacity(alloc, room)?,
            room,
            calls: 0,
            named: Vec::new(alloc),
            faults: 0,
        })
    }

    /// The bytes written.
    pub fn bytes(&self) -> &[u8]
        ensures { result.now ≡ sink_shown self.now }
    {
        self.bytes.as_slice()
    }

    /// Lets this call of `write` fail, counted from 1.
    pub fn fail(&mut self, call: u32) -> Result<(), AllocError>
        ensures ok { OnOk result (sink_named self.new ≡ sink_named self.old ++ (call ∷ [])) }
        ensures err { OnErr result (sink_named self.new ≡ sink_named self.old) }
        ensures shown { sink_shown self.new ≡ sink_shown self.old }
        ensures room { sink_room self.new ≡ sink_room self.old }
        ensures call { sink_call self.new ≡ sink_call self.old }
        ensures faults { self.new.faults ≡ self.old.faults }
    {
        self.named.push(u64::from(call))?;
        Ok(())
    }
}

impl Sink for MemSink {
    ghost use Rattle.transcript.specs.Memory.{sink_shown, sink_room, sink_call, sink_named, is_named, count_after};

    ghost faults = { λ s. s.faults };

    ghost shown = { λ s. Some s.bytes.items };

    /// Fails exactly at the calls that are named and where no room is left, and else writes as many bytes as there is room for.
    fn write(&mut self, bytes: &[u8]) -> Result<usize, Failed>
        requires { 0 < length bytes.now }
        ensures within { IfOk result (λ n. (0 < n) × (n ≤ length bytes.now)) }
        ensures bytes { IfOk result (λ n. Some (sink_shown self.new) ≡ behind (Some (sink_shown self.old)) (take n bytes.now)) }
        ensures err { OnErr result (Some (sink_shown self.new) ≡ Some (sink_shown self.old)) }
        ensures count { self.old.faults ≤ self.new.faults }
        ensures fault { OnErr result (Rose self.old.faults self.new.faults) }
        ensures same { OnOk result (self.new.faults ≡ self.old.faults) }
        ensures fails { is_err result ≡ (is_named (sink_call self.old) (sink_named self.old) || sink_room self.old == 0) }
        ensures takes { IfOk result (λ n. n ≡ min (length bytes.now) (sink_room self.old)) }
        ensures room { OnErr result (sink_room self.new ≡ sink_room self.old) }
        ensures call { sink_call self.new ≡ count_after (sink_call self.old) }
        ensures named { sink_named self.new ≡ sink_named self.old }
    {
        self.calls = self.calls.saturating_add(1);
        let n = bytes.len().min(self.room - self.bytes.len());
        if self.named.contains(&self.calls) || n == 0 {
            self.faults = self.faults.saturating_add(1);
            return Err(Failed);
        }
        match self.bytes.extend_from_slice(&bytes[..n]) {
            Ok(()) => Ok(n),
            Err(_) => unreachable!(),
        }
    }
}
