//! A store of blocks over a disk: blocks are staged, and applied together.
ghost use Rattle.std.specs.Prelude.{◌≡◌, ◌+◌, ◌<◌, ◌≤◌, ◌⊎◌, ◌-◌, ℕ, List, [], true, false, Some, None, IsSome, IsOk, IfOk, IfErr, IfSome, OnOk, OnErr, IsErr, length, option_map, slice_set};
ghost use Rattle.block_disk.specs.Blocks.{block_at, found, has_number, with_number};
ghost use Rattle.block_disk.specs.Disk.{armed};
ghost use Rattle.block_disk.specs.Sizes.{content_start, least_disk_size};
ghost use Rattle.careful_write.specs.Content.{home, content_of, gate_open, IsFront};
ghost use Rattle.careful_write.specs.Down.{answered, Counts, CountsDown, went_down};
ghost use Rattle.careful_write.specs.Load.{fitting};
ghost use Rattle.careful_write.specs.Reads.{SameButReads};
ghost use Rattle.careful_write.specs.State.{EachWhole, InHome, IsEither, IsIdle, IsReady, Leaves, LeavesAsItWas, content, raised};
ghost use Rattle.careful_write.specs.Steps.{Quiet, Touches};
ghost use Rattle.careful_write.specs.Parts.{written_by, DataFirst};
ghost use Rattle.std.specs.Borrow.{Lends, sem};
ghost use Rattle.careful_write.specs.contracts.store.Store.{the_row};
ghost use Rattle.frame_pool.specs.contracts.pool.Pool.{the_row as pool_row};
ghost use Rattle.careful_write.specs.Sizes.{group_limit};

use crate::Down;
use crate::group::write_group;
use crate::load::{inspect_group, open_group};
use block_disk::{BlockTable, Disk};
use frame_pool::Pool;
use std::alloc::{AllocError, Global};
use std::marker::Model;
use thiserror::Error;

/// The number of the first block of the content.
pub const HOME: u32 = 518;

const MAX_STAGED: usize = 512;

/// 512 other blocks are staged.
#[derive(Clone, Copy, Debug, PartialEq, Eq, Error)]
#[error("512 other blocks are staged")]
pub struct Full;

/// The room for the blocks that a store stages.
#[derive(Drop)]
pub struct Group {
    staged: BlockTable,
    ghost use_room: { staged.room ≡ 513 },
}

impl Group {
    /// Room for 512 blocks.
    pub fn reserve(alloc: Global) -> Result<Group, AllocError>
        ensures { IfOk result (λ group. group.staged.entries ≡ []) }
    {
        Ok(Group {
            staged: BlockTable::reserve(alloc, MAX_STAGED + 1)?,
        })
    }
}

/// A disk whose blocks from 518 on are changed by groups, each whole or not at all.
///
/// The blocks before them are the gate, the index and the data of the group that is being applied. Contracts see the
/// content as one list of blocks, which begins with block 518.
#[derive(Drop)]
pub struct Store<D: Disk> {
    disk: D,
    staged: BlockTable,
    pool: Pool,
    fits: bool,
    reads: u64,
}

impl<D: Disk> Model for Store<D> {
    ghost use Rattle.block_disk.specs.Blocks.{numbers_of};
    ghost use Rattle.careful_write.specs.Content.{laid_home};
    ghost use Rattle.careful_write.specs.State.{StoreState, IsStaged};

    ghost Value = { StoreState };

    ghost view = { λ s. record {
      disk = D.state s.disk;
      current = laid_home s.staged.entries (D.state s.disk).seen;
      touched = numbers_of s.staged.entries;
      pool = s.pool;
      fits = s.fits;
      reads = s.reads;
    } };

    ghost invariant = { λ s. IsStaged (D.state s.disk).size s.staged };
}

/// What `open` and `inspect` give back where the disk went down.
#[derive(Drop)]
pub struct OpenErr<D> {
    pub down: Down,
    pub disk: D,
    pub group: Group,
    pub pool: Pool,
}

impl<D: Disk> Store<D> {
    /// Finishes an open group. It changes no content. Where the gate is closed or the group does not fit, it writes nothing.
    pub fn open(mut disk: D, group: Group, pool: Pool) -> Result<Store<D>, OpenErr<D>>
        requires settled { (D.state disk).pending ≡ [] }
        requires size { least_disk_size ≤ (D.state disk).size }
        ensures content { IfOk result (λ store. content store ≡ option_map content_of (D.state disk).seen) }
        ensures current { IfOk result (λ store. store.current ≡ option_map content_of (D.state disk).seen) }
        ensures touched { IfOk result (λ store. store.touched ≡ []) }
        ensures pool { IfOk result (λ store. store.pool ≡ pool) }
        ensures reads { IfOk result (λ store. store.reads ≡ 0) }
        ensures ready { IfOk result (λ store. store.fits ≡ true → IsReady store) }
        ensures idle { IfOk result (λ store. store.fits ≡ true → IsIdle store) }
        ensures fits { IfOk result (λ store. IfSome (D.state disk).seen (λ blocks. store.fits ≡ fitting blocks)) }
        ensures unfit { IfOk result (λ store. store.fits ≡ false → store.disk ≡ D.state disk) }
        ensures quiet { IfOk result (λ store. Quiet (D.state disk) store.disk) }
        ensures shut { IfOk result (λ store. IfSome (D.state disk).seen (λ blocks. gate_open blocks ≡ false → store.disk ≡ D.state disk)) }
        ensures err { IfErr result (λ e. LeavesAsItWas (D.state disk).seen (D.state e.disk)) }
        ensures counts { IfErr result (λ e. CountsDown e.down (D.state disk) (D.state e.disk)) }
        ensures pool_back { IfErr result (λ e. e.pool ≡ pool) }
    {
        let Group { mut staged } = group;
        staged.clear();
        match open_group(&mut disk, &mut staged) {
            Ok(fits) => {
                staged.clear();
                Ok(Store {
                    disk,
                    staged,
                    pool,
                    fits,
                    reads: 0,
                })
            }
            Err(err) => Err(OpenErr {
                down: Down::from(err),
                disk,
                group: Group { staged },
                pool,
            }),
        }
    }

    /// As `open`, but it writes nothing: the blocks of an open group are staged.
    pub fn inspect(mut disk: D, group: Group, pool: Pool) -> Result<Store<D>, OpenErr<D>>
        requires size { least_disk_size ≤ (D.state disk).size }
        ensures disk { IfOk result (λ store. store.disk ≡ D.state disk) }
        ensures current { IfOk result (λ store. store.current ≡ content store) }
        ensures pool { IfOk result (λ store. store.pool ≡ pool) }
        ensures reads { IfOk result (λ store. store.reads ≡ 0) }
        ensures fits { IfOk result (λ store. IfSome (D.state disk).seen (λ blocks. store.fits ≡ fitting blocks)) }
        ensures err { IfErr result (λ e. D.state e.disk ≡ went_down e.down (D.state disk)) }
        ensures pool_back { IfErr result (λ e. e.pool ≡ pool) }
    {
        let Group { mut staged } = group;
        staged.clear();
        match inspect_group(&mut disk, &mut staged) {
            Ok(fits) => Ok(Store {
                disk,
                staged,
                pool,
                fits,
                reads: 0,
            }),
            Err(err) => Err(OpenErr {
                down: Down::from(err),
                disk,
                group: Group { staged },
                pool,
            }),
        }
    }

    /// The frames. No other promise of the store speaks of them.
    pub fn pool(&mut self) -> &mut Pool
        ensures* writes { sem 𝓛 (Lends (the_row D.row D.Disk) pool_row self.entry result (λ pool. record self.old { pool = pool })) }
        ensures value { result.now ≡ self.old.pool }
        ensures whole { IfSome self.old.current (λ blocks. length blocks + content_start ≡ self.old.disk.size) }
        ensures each { IfSome self.old.current EachWhole }
    {
        &mut self.pool
    }

    /// How many blocks the disk has.
    pub fn blocks(&self) -> u32
        ensures { result ≡ self.now.disk.size }
    {
        self.disk.blocks()
    }

    /// False exactly where the store met an open group that does not fit.
    pub fn fits(&self) -> bool
        ensures { result ≡ self.now.fits }
    {
        self.fits
    }

    /// How many times `read` was called since the store was made. At the greatest number it stays.
    pub fn reads(&self) -> u64
        ensures { result ≡ self.now.reads }
    {
        self.reads
    }

    /// Drops what was staged.
    pub fn into_parts(self) -> (D, Group, Pool)
        ensures disk { D.state result.0 ≡ self.disk }
        ensures pool { result.2 ≡ self.pool }
    {
        let Store {
            disk,
            staged,
            pool,
            fits: _,
            reads: _,
        } = self;
        (disk, Group { staged }, pool)
    }

    /// The staged bytes of a block, which no disk is asked for, else its content.
    pub fn read(&mut self, n: u32, out: &mut [u8; 512]) -> Result<(), Down>
        requires { InHome self.old.disk n }
        ensures read { OnOk result (IfSome self.old.current (λ blocks. out.new ≡ block_at blocks (n - content_start))) }
        ensures state { SameButReads (record self.old { disk = answered result self.old.disk }) self.new }
        ensures reads { self.new.reads ≡ raised self.old.reads }
        ensures staged { has_number n self.old.touched ≡ true → IsOk result }
        ensures whole { IfSome self.new.current (λ blocks. length blocks + content_start ≡ self.new.disk.size) }
        ensures each { IfSome self.new.current EachWhole }
    {
        self.reads = self.reads.saturating_add(1);
        match self.staged.get(n) {
            Some(bytes) => *out = *bytes,
            None => self.disk.read(n, out)?,
        }
        Ok(())
    }

    /// Full exactly where 512 other blocks are staged.
    pub fn stage(&mut self, n: u32, bytes: &[u8; 512]) -> Result<(), Full>
        requires { InHome self.old.disk n }
        ensures ok { OnOk result (self.new ≡ record self.old {
          current = option_map (λ blocks. slice_set blocks (n - content_start) bytes.now) self.old.current;
          touched = with_number n self.old.touched;
        }) }
        ensures full { IsErr result → (length self.old.touched ≡ group_limit) × (has_number n self.old.touched ≡ false) }
        ensures err { OnErr result (self.new ≡ self.old) }
        ensures ready { IsReady self.old → IsReady self.new }
        ensures whole { IfSome self.new.current (λ blocks. length blocks + content_start ≡ self.new.disk.size) }
        ensures each { IfSome self.new.current EachWhole }
    {
        if !has_room(&self.staged, n) {
            return Err(Full);
        }
        self.staged.put(n, bytes);
        Ok(())
    }

    /// Makes the content what reads give. After an error each image has the content before or after. Where nothing is
    /// staged it writes nothing; else it writes the data of the staged blocks, then the index blocks that their count
    /// needs, and the gate and the blocks after these.
    pub fn apply(&mut self) -> Result<(), Down>
        requires { IsReady self.old }
        ensures content { OnOk result (content self.new ≡ self.old.current) }
        ensures current { OnOk result (self.new.current ≡ self.old.current) }
        ensures touched { OnOk result (self.new.touched ≡ []) }
        ensures ready { OnOk result (IsReady self.new) }
        ensures idle { OnOk result (IsIdle self.new) }
        ensures nothing { self.old.touched ≡ [] → IsOk result × (self.new ≡ self.old) }
        ensures front { OnOk result ((self.old.touched ≡ []) ⊎ IfSome self.new.disk.seen (IsFront self.old.touched)) }
        ensures err { OnErr result (Leaves (IsEither (content self.old) self.old.current) self.new.disk) }
        ensures order { OnErr result (DataFirst (length self.old.touched) self.new.disk.pending) }
        ensures touches { Touches (written_by self.old.touched) self.old.disk self.new.disk }
        ensures counts { Counts result self.old.disk self.new.disk }
        ensures pool { self.new.pool ≡ self.old.pool }
        ensures fits { self.new.fits ≡ self.old.fits }
        ensures reads { self.new.reads ≡ self.old.reads }
    {
        if self.staged.is_empty() {
            return Ok(());
        }
        write_group(&mut self.disk, &self.staged)?;
        self.staged.clear();
        Ok(())
    }

    /// Arms the disk: after so many further writes it stops, and its next power loss damages what is pending by this choice.
    pub fn arm(&mut self, writes: u32, choice: u64)
        ensures { self.new ≡ record self.old { disk = armed writes choice self.old.disk } }
    {
        self.disk.arm(writes, choice);
    }

    /// Drops what was staged, so that reads give the content.
    pub fn unstage(&mut self)
        ensures state { self.new ≡ record self.old { current = option_map home self.old.disk.seen; touched = [] } }
        ensures idle { IsReady self.old → IsIdle self.new }
    {
        self.staged.clear();
    }
}

// Whether the block is there, or one more may be.
fn has_room(staged: &BlockTable, n: u32) -> bool
    ensures yes { result ≡ true → (length staged.now.entries < group_limit) ⊎ IsSome (found n staged.now.entries) }
    ensures no { result ≡ false → (group_limit ≤ length staged.now.entries) × (found n staged.now.entries ≡ None) }
{
    staged.len() < MAX_STAGED || staged.get(n).is_some()
}
