//! A disk over a platter, which keeps what is pending in memory.
ghost use Rattle.std.specs.Prelude.{◌≡◌, ◌⊎◌, ◌||◌, ◌<◌, ◌≤◌, ℕ, Option, Some, None, [], true, false, IfOk, OnOk, OnErr, length, option_map, vec_capacity, IfSome, Err, slice_set, List, take, drop, ◌++◌};
ghost use Rattle.block_disk.specs.Blocks.{AllWhole, numbers_of, has_number, laid_over, whole_over, block_at};
ghost use Rattle.block_disk.specs.Counts.{counted, is_err};
ghost use Rattle.block_disk.specs.Disk.{IsPowered, torn_from, torn_block, form_of, noted, put, settled, armed, powering, answered, is_stopped, is_failed, is_spent, burnt, fresh};
ghost use Rattle.block_disk.specs.Sizes.{pending_limit};

use crate::{BlockTable, Disk, DiskCall, DiskErr, Failed, Platter};
use std::alloc::{AllocError, Global};

const MAX_PENDING: usize = 1024;

const MAX_CALLS: usize = 1_048_576;

/// A disk that can be made to stop within a write and to lose power.
///
/// Pending blocks are in memory, and are written to the platter at a barrier. At `power` the i-th pending block in
/// ascending order, from 0, takes the form `(choice >> (2 * (i % 32))) % 4`: 0 the old bytes, 1 the new bytes, 2 the
/// first 256 bytes new and the rest old, 3 all bytes 0xEE. The choice is the last armed one, at first 0.
#[derive(Drop)]
pub struct CrashDisk<P: Platter> {
    platter: P,
    pending: BlockTable,
    fuse: Option<u32>,
    choice: u64,
    stopped: bool,
    stops: u64,
    calls: Vec<DiskCall>,
    call_number: u64,
    ghost room: { pending.room ≡ pending_limit },
    ghost in_range: { (n : ℕ) → has_number n (numbers_of pending.entries) ≡ true → n < P.size platter },
    ghost whole_blocks: { AllWhole pending.entries },
    ghost call_room: { 1048576 ≤ vec_capacity calls },
}

impl<P: Platter + Drop> CrashDisk<P> {
    /// Nothing is pending, and it reads as the platter. It reserves room for 1,024 pending blocks and for the first
    /// 1,048,576 calls of `arm` and `power`.
    pub fn new(alloc: Global, platter: P) -> Result<CrashDisk<P>, AllocError>
        ensures state { IfOk result (λ disk. ⟦<CrashDisk<P> as Disk>⟧.state disk ≡ fresh (P.size platter) (P.faults platter) (P.content platter)) }
        ensures fuse { IfOk result (λ disk. disk.fuse ≡ None) }
        ensures choice { IfOk result (λ disk. disk.choice ≡ 0) }
    {
        Ok(CrashDisk {
            platter,
            pending: BlockTable::reserve(alloc, MAX_PENDING)?,
            fuse: None,
            choice: 0,
            stopped: false,
            stops: 0,
            calls: Vec::with_capacity(alloc, MAX_CALLS)?,
            call_number: 0,
        })
    }
}

impl<P: Platter> Disk for CrashDisk<P> {
    ghost state = { λ d. record {
      size = P.size d.platter;
      faults = P.faults d.platter;
      stops = d.stops;
      stopped = d.stopped;
      calls = record { number = d.call_number; first = d.calls.items };
      pending = numbers_of d.pending.entries;
      seen = laid_over d.pending.entries (P.content d.platter);
    } };

    ghost whole = { λ d. whole_over d.pending.entries (P.content d.platter) (P.size d.platter) d.whole_blocks (P.whole d.platter) };

    fn blocks(&self) -> u32 {
        self.platter.blocks()
    }

    fn pending(&self) -> u32 {
        self.pending.len() as u32
    }

    fn read(&mut self, n: u32, out: &mut [u8; 512]) -> Result<(), DiskErr>
        requires { n < (⟦<CrashDisk<P> as Disk>⟧.state self.old).size }
        ensures read { OnOk result (IfSome (⟦<CrashDisk<P> as Disk>⟧.state self.old).seen (λ blocks. out.new ≡ block_at blocks n)) }
        ensures state { ⟦<CrashDisk<P> as Disk>⟧.state self.new ≡ answered result (⟦<CrashDisk<P> as Disk>⟧.state self.old) }
        ensures stopped { (⟦<CrashDisk<P> as Disk>⟧.state self.old).stopped ≡ true → result ≡ Err DiskErr.Stopped }
        ensures exact { is_stopped result ≡ self.old.stopped }
        ensures failed { P.faults self.new.platter ≡ counted (is_failed result) (P.faults self.old.platter) }
        ensures fuse { self.new.fuse ≡ self.old.fuse }
        ensures choice { self.new.choice ≡ self.old.choice }
    {
        if self.stopped {
            self.stops = self.stops.saturating_add(1);
            return Err(DiskErr::Stopped);
        }
        match self.pending.get(n) {
            Some(bytes) => *out = *bytes,
            None => self.platter.read(n, out)?,
        }
        Ok(())
    }

    fn write(&mut self, n: u32, bytes: &[u8; 512]) -> Result<(), DiskErr>
        requires in_range { n < (⟦<CrashDisk<P> as Disk>⟧.state self.old).size }
        requires room { length (⟦<CrashDisk<P> as Disk>⟧.state self.old).pending < pending_limit }
        ensures ok { OnOk result (⟦<CrashDisk<P> as Disk>⟧.state self.new ≡ put n bytes.now (⟦<CrashDisk<P> as Disk>⟧.state self.old)) }
        ensures err { OnErr result ((any : List ℕ) × (⟦<CrashDisk<P> as Disk>⟧.state self.new ≡ answered result (put n any (⟦<CrashDisk<P> as Disk>⟧.state self.old)))) }
        ensures stopped { (⟦<CrashDisk<P> as Disk>⟧.state self.old).stopped ≡ true → result ≡ Err DiskErr.Stopped }
        ensures exact { is_stopped result ≡ (is_spent self.old.fuse || self.old.stopped) }
        ensures failed { is_failed result ≡ false }
        ensures fuse { self.new.fuse ≡ burnt self.old.fuse }
        ensures choice { self.new.choice ≡ self.old.choice }
    {
        self.pending.put(n, bytes);
        self.stopped = burn(&mut self.fuse) | self.stopped;
        if self.stopped {
            self.stops = self.stops.saturating_add(1);
            return Err(DiskErr::Stopped);
        }
        Ok(())
    }

    fn barrier(&mut self) -> Result<(), DiskErr>
        ensures ok { OnOk result (⟦<CrashDisk<P> as Disk>⟧.state self.new ≡ settled (⟦<CrashDisk<P> as Disk>⟧.state self.old)) }
        ensures err { OnErr result (⟦<CrashDisk<P> as Disk>⟧.state self.new ≡ answered result (⟦<CrashDisk<P> as Disk>⟧.state self.old)) }
        ensures stopped { (⟦<CrashDisk<P> as Disk>⟧.state self.old).stopped ≡ true → result ≡ Err DiskErr.Stopped }
        ensures exact { is_stopped result ≡ self.old.stopped }
        ensures failed { P.faults self.new.platter ≡ counted (is_failed result) (P.faults self.old.platter) }
        ensures written { OnOk result (P.content self.new.platter ≡ (⟦<CrashDisk<P> as Disk>⟧.state self.old).seen) }
        ensures synced { OnOk result (P.synced self.new.platter ≡ true) }
        ensures fuse { self.new.fuse ≡ self.old.fuse }
        ensures choice { self.new.choice ≡ self.old.choice }
    {
        if self.stopped {
            self.stops = self.stops.saturating_add(1);
            return Err(DiskErr::Stopped);
        }
        write_out(&mut self.platter, &self.pending)?;
        self.platter.sync()?; // The blocks are durable before they are pending no more.
        self.pending.clear();
        Ok(())
    }

    fn arm(&mut self, writes: u32, choice: u64)
        ensures state { ⟦<CrashDisk<P> as Disk>⟧.state self.new ≡ armed writes choice (⟦<CrashDisk<P> as Disk>⟧.state self.old) }
        ensures fuse { self.new.fuse ≡ Some writes }
        ensures choice { self.new.choice ≡ choice }
    {
        note(
            &mut self.calls,
            &mut self.call_number,
            DiskCall::Arm { writes, choice },
        );
        self.fuse = Some(writes);
        self.choice = choice;
    }

    fn power(&mut self) -> Result<(), DiskErr>
        ensures ok { OnOk result (IsPowered (⟦<CrashDisk<P> as Disk>⟧.state self.old) (⟦<CrashDisk<P> as Disk>⟧.state self.new)) }
        ensures err { OnErr result (⟦<CrashDisk<P> as Disk>⟧.state self.new ≡ answered result (powering (⟦<CrashDisk<P> as Disk>⟧.state self.old))) }
        ensures never_stopped { is_stopped result ≡ false }
        ensures failed { P.faults self.new.platter ≡ counted (is_failed result) (P.faults self.old.platter) }
        ensures synced { OnOk result (P.synced self.new.platter ≡ true) }
        ensures forms { OnOk result (P.content self.new.platter ≡ option_map (torn_from self.old.choice 0 self.old.pending.entries) (P.content self.old.platter)) }
        ensures fuse { self.new.fuse ≡ self.old.fuse }
        ensures choice { self.new.choice ≡ self.old.choice }
    {
        let stops = self.stops;
        note(
            &mut self.calls,
            &mut self.call_number,
            DiskCall::Power { stops },
        );
        tear(&mut self.platter, &self.pending, self.choice)?;
        self.platter.sync()?; // What the power loss left is durable.
        self.pending.clear();
        self.stopped = false;
        Ok(())
    }
}

// Counts a write, and whether the fuse is spent at it.
fn burn(fuse: &mut Option<u32>) -> bool
    ensures spent { result ≡ is_spent fuse.old }
    ensures burnt { fuse.new ≡ burnt fuse.old }
{
    match *fuse {
        Some(0) => {
            *fuse = None;
            true
        }
        Some(left) => {
            *fuse = Some(left - 1);
            false
        }
        None => false,
    }
}

fn note(calls: &mut Vec<DiskCall>, number: &mut u64, call: DiskCall)
    requires { 1048576 ≤ vec_capacity calls.old }
    ensures noted { record { number = number.new; first = calls.new.items } ≡ noted call (record { number = number.old; first = calls.old.items }) }
    ensures capacity { vec_capacity calls.old ≤ vec_capacity calls.new }
{
    *number = number.saturating_add(1);
    if calls.len() < MAX_CALLS {
        let _ = calls.push(call);
    }
}

// Writes each block of the table to its place.
fn write_out<P: Platter>(platter: &mut P, table: &BlockTable) -> Result<(), Failed>
    requires { (n : ℕ) → has_number n (numbers_of table.now.entries) ≡ true → n < P.size platter.old }
    ensures ok { OnOk result (P.content platter.new ≡ laid_over table.now.entries (P.content platter.old)) }
    ensures kept { laid_over table.now.entries (P.content platter.new) ≡ laid_over table.now.entries (P.content platter.old) }
    ensures faults { P.faults platter.new ≡ counted (is_err result) (P.faults platter.old) }
    ensures size { P.size platter.new ≡ P.size platter.old }
{
    for i in 0..table.len() {
        let (n, bytes) = table.at(i);
        platter.write(n, bytes)?;
    }
    Ok(())
}

// Leaves each block of the table in the form that the choice gives it.
fn tear<P: Platter>(platter: &mut P, table: &BlockTable, choice: u64) -> Result<(), Failed>
    requires { (n : ℕ) → has_number n (numbers_of table.now.entries) ≡ true → n < P.size platter.old }
    ensures ok { OnOk result (P.content platter.new ≡ option_map (torn_from choice 0 table.now.entries) (P.content platter.old)) }
    ensures kept { laid_over table.now.entries (P.content platter.new) ≡ laid_over table.now.entries (P.content platter.old) }
    ensures faults { P.faults platter.new ≡ counted (is_err result) (P.faults platter.old) }
    ensures size { P.size platter.new ≡ P.size platter.old }
{
    for i in 0..table.len() {
        let (n, bytes) = table.at(i);
        let form = (choice >> (2 * (i % 32))) % 4;
        tear_one(platter, n, bytes, form)?;
    }
    Ok(())
}

fn tear_one<P: Platter>(platter: &mut P, n: u32, bytes: &[u8; 512], form: u64) -> Result<(), Failed>
    requires { n < P.size platter.old }
    ensures ok { OnOk result (P.content platter.new ≡ option_map (λ blocks. slice_set blocks n (torn_block form (block_at blocks n) bytes.now)) (P.content platter.old)) }
    ensures err { OnErr result ((P.content platter.new ≡ P.content platter.old) ⊎ ((any : List ℕ) × (P.content platter.new ≡ option_map (λ blocks. slice_set blocks n any) (P.content platter.old)))) }
    ensures faults { P.faults platter.new ≡ counted (is_err result) (P.faults platter.old) }
    ensures size { P.size platter.new ≡ P.size platter.old }
{
    let mut old = [0; 512];
    platter.read(n, &mut old)?;
    platter.write(n, &torn(form, &old, bytes))?;
    Ok(())
}

fn torn(form: u64, old: &[u8; 512], new: &[u8; 512]) -> [u8; 512]
    ensures { result ≡ torn_block form old.now new.now }
{
    match form {
        0 => *old,
        1 => *new,
        2 => half(old, new),
        _ => [0xEE; 512],
    }
}

fn half(old: &[u8; 512], new: &[u8; 512]) -> [u8; 512]
    ensures { result ≡ take 256 new.now ++ drop 256 old.now }
{
    let mut mixed = *old;
    for i in 0..256 {
        mixed[i] = new[i];
    }
    mixed
}
