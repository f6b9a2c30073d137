// Blocks copied to another place of the same disk.
ghost use Rattle.std.specs.Prelude.{◌≡◌, ◌≤◌, ◌<◌, ◌+◌, ◌-◌, ◌⊎◌, [], OnOk, OnErr, IfSome, length, option_map, slice_set};
ghost use Rattle.block_disk.specs.Blocks.{block_at};
ghost use Rattle.block_disk.specs.Sizes.{content_start};
ghost use Rattle.careful_write.specs.Down.{answered, Counts};
ghost use Rattle.careful_write.specs.State.{InHome, IsIdle, IsReady};
ghost use Rattle.careful_write.specs.Sizes.{group_limit};
ghost use Rattle.change_set.specs.Files.{LeavesOut};
ghost use Rattle.save_sets.specs.Copies.{AreBlocks, AreApart, CopiesTo, is_within};

use block_disk::Disk;
use careful_write::{Down, Store, one_content};

// How many blocks one group may have.
const MOST: u32 = 512;

// Stages a copy of one block.
fn copy_block<D: Disk>(store: &mut Store<D>, from: u32, to: u32) -> Result<(), Down>
    requires source { InHome store.old.disk from }
    requires target { InHome store.old.disk to }
    requires room { length store.old.touched < group_limit }
    ensures current { OnOk result (store.new.current ≡ option_map (λ c. slice_set c (to - content_start) (block_at c (from - content_start))) store.old.current) }
    ensures touched { OnOk result (length store.new.touched ≤ length store.old.touched + 1) }
    ensures disk { store.new.disk ≡ answered result store.old.disk }
    ensures pool { store.new.pool ≡ store.old.pool }
    ensures fits { store.new.fits ≡ store.old.fits }
    ensures whole { IfSome store.old.current (λ c. length c + content_start ≡ store.old.disk.size) }
{
    let mut block = [0; 512];
    store.read(from, &mut block)?;
    let _ = store.stage(to, &block);
    Ok(())
}

// Stages copies of blocks, of which one group may have so many.
fn stage_copies<D: Disk>(store: &mut Store<D>, from: u32, to: u32, count: u32) -> Result<(), Down>
    requires source { AreBlocks from count store.old.disk }
    requires target { AreBlocks to count store.old.disk }
    requires apart { AreApart from to count }
    requires unstaged { store.old.touched ≡ [] }
    requires few { count ≤ group_limit }
    ensures copies { OnOk result (CopiesTo (from - content_start) (to - content_start) count store.old.current store.new.current) }
    ensures disk { store.new.disk ≡ answered result store.old.disk }
    ensures pool { store.new.pool ≡ store.old.pool }
    ensures fits { store.new.fits ≡ store.old.fits }
{
    for i in 0..count {
        copy_block(store, from + i, to + i)?;
    }
    Ok(())
}

// Copies blocks in one group.
fn copy_group<D: Disk>(store: &mut Store<D>, from: u32, to: u32, count: u32) -> Result<(), Down>
    requires source { AreBlocks from count store.old.disk }
    requires target { AreBlocks to count store.old.disk }
    requires apart { AreApart from to count }
    requires idle { IsIdle store.old }
    requires few { count ≤ group_limit }
    ensures copies { OnOk result (CopiesTo (from - content_start) (to - content_start) count store.old.current store.new.current) }
    ensures idle { OnOk result (IsIdle store.new) }
    ensures down { OnErr result (LeavesOut (is_within (to - content_start) count) store.old.current store.new.disk) }
    ensures counts { Counts result store.old.disk store.new.disk }
    ensures pool { store.new.pool ≡ store.old.pool }
{
    one_content();
    stage_copies(store, from, to, count)?;
    store.apply()
}

// Copies blocks in as many groups as they take.
fn copy_groups<D: Disk>(store: &mut Store<D>, from: u32, to: u32, blocks: u32) -> Result<(), Down>
    requires source { AreBlocks from blocks store.old.disk }
    requires target { AreBlocks to blocks store.old.disk }
    requires apart { AreApart from to blocks }
    requires idle { IsIdle store.old }
    ensures copies { OnOk result (CopiesTo (from - content_start) (to - content_start) blocks store.old.current store.new.current) }
    ensures idle { OnOk result (IsIdle store.new) }
    ensures down { OnErr result (LeavesOut (is_within (to - content_start) blocks) store.old.current store.new.disk) }
    ensures counts { Counts result store.old.disk store.new.disk }
    ensures pool { store.new.pool ≡ store.old.pool }
{
    let mut done = 0;
    while done < blocks {
        let count = MOST.min(blocks - done);
        copy_group(store, from + done, to + done, count)?;
        done += count;
    }
    Ok(())
}

/// Copies blocks to another place, in groups of at most 512. No other block of the content changes, also where the disk goes down between two
/// groups or within one; then nothing is staged.
pub fn copy<D: Disk>(store: &mut Store<D>, from: u32, to: u32, blocks: u32) -> Result<(), Down>
    requires source { AreBlocks from blocks store.old.disk }
    requires target { AreBlocks to blocks store.old.disk }
    requires apart { AreApart from to blocks }
    requires idle { IsIdle store.old }
    ensures copies { OnOk result (CopiesTo (from - content_start) (to - content_start) blocks store.old.current store.new.current) }
    ensures idle { OnOk result (IsIdle store.new) }
    ensures down { OnErr result (LeavesOut (is_within (to - content_start) blocks) store.old.current store.new.disk) }
    ensures unstaged { store.new.touched ≡ [] }
    ensures counts { Counts result store.old.disk store.new.disk }
    ensures pool { store.new.pool ≡ store.old.pool }
{
    let copied = copy_groups(store, from, to, blocks);
    if copied.is_err() {
        store.unstage();
    }
    copied
}
