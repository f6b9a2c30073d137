//! Buckets of 1 to 16 blocks, read from a store into a frame and staged from one.
ghost use Rattle.std.specs.Prelude.{◌≡◌, ◌≤◌, ◌<◌, ◌+◌, ◌-◌, ◌*◌, ℕ, take, length, Some, None, OnOk, IfSome, slice_set, option_map};
ghost use Rattle.frame_pool.specs.Pool.{IsOut};
ghost use Rattle.careful_write.specs.block_disk.Sizes.{content_start};
ghost use Rattle.careful_write.specs.Down.{answered};
ghost use Rattle.careful_write.specs.Reads.{SameButReads};
ghost use Rattle.careful_write.specs.Sizes.{group_limit};
ghost use Rattle.file_base.specs.Bytes.{piece_at, spliced};
ghost use Rattle.change_set.specs.Buckets.{frame_of, with_frame, bucket_bytes, with_bucket, with_numbers, LiesInHome, WasFree};
ghost use Rattle.change_set.specs.Files.{free_frames};

use careful_write::{Disk, Down, Store};
use file_base::splice;
use frame_pool::Frame;

// Writes block i of a frame.
fn put_block<D: Disk>(store: &mut Store<D>, frame: &Frame, i: usize, block: &[u8; 512])
    requires out { IsOut store.old.pool frame.now }
    requires within { i < 16 }
    ensures size { length (frame_of store.old.pool frame.now) ≡ 8192 }
    ensures put { store.new ≡ with_frame frame.now (spliced (frame_of store.old.pool frame.now) (512 * i) block.now) store.old }
{
    let bytes = store.pool().bytes_mut(frame);
    splice(bytes, 512 * i, block);
}

// Reads block i of a frame.
fn get_block<D: Disk>(store: &mut Store<D>, frame: &Frame, i: usize, block: &mut [u8; 512])
    requires out { IsOut store.old.pool frame.now }
    requires within { i < 16 }
    ensures same { store.new ≡ store.old }
    ensures size { length (frame_of store.old.pool frame.now) ≡ 8192 }
    ensures block { block.new ≡ piece_at (frame_of store.old.pool frame.now) (512 * i) 512 }
{
    let bytes = store.pool().bytes(frame);
    block.copy_from_slice(&bytes[512 * i..512 * i + 512]);
}

/// Reads the `count` blocks from number `first` on into the front of a frame. After an error the frame may have any bytes.
pub fn load_bucket<D: Disk>(
    store: &mut Store<D>,
    frame: &Frame,
    first: u32,
    count: u16,
) -> Result<(), Down>
    requires out { IsOut store.old.pool frame.now }
    requires in_home { LiesInHome store.old.disk first count }
    requires within { count ≤ 16 }
    ensures state { SameButReads (with_frame frame.now (frame_of store.new.pool frame.now) (record store.old { disk = answered result store.old.disk })) store.new }
    ensures reads { store.new.reads ≤ store.old.reads + count }
    ensures out { IsOut store.new.pool frame.now }
    ensures read { OnOk result (IfSome store.old.current (λ blocks. take (512 * count) (frame_of store.new.pool frame.now) ≡ bucket_bytes blocks (first - content_start) count)) }
{
    for i in 0..count {
        let mut block = [0; 512];
        store.read(first + i as u32, &mut block)?;
        put_block(store, frame, i as usize, &block);
    }
    Ok(())
}

/// Stages the front of a frame as the `count` blocks from number `first` on.
pub fn stage_bucket<D: Disk>(store: &mut Store<D>, frame: &Frame, first: u32, count: u16)
    requires out { IsOut store.old.pool frame.now }
    requires in_home { LiesInHome store.old.disk first count }
    requires within { count ≤ 16 }
    requires room { length store.old.touched + count ≤ group_limit }
    ensures { store.new ≡ record store.old {
      current = option_map (λ blocks. with_bucket (frame_of store.old.pool frame.now) blocks (first - content_start) count) store.old.current;
      touched = with_numbers first count store.old.touched;
    } }
{
    for i in 0..count {
        let mut block = [0; 512];
        get_block(store, frame, i as usize, &mut block);
        let _ = store.stage(first + i as u32, &block);
    }
}

/// Takes a frame that was free, with any bytes.
pub fn take_frame<D: Disk>(store: &mut Store<D>) -> Frame
    requires { 1 ≤ free_frames store.old.pool }
    ensures free { WasFree store.old.pool result }
    ensures whole { IfSome store.old.current (λ blocks. length blocks + content_start ≡ store.old.disk.size) }
    ensures state { store.new ≡ with_frame result (frame_of store.new.pool result) store.old }
    ensures out { IsOut store.new.pool result }
{
    match store.pool().take() {
        Some(frame) => frame,
        None => unreachable!(),
    }
}

/// Gives a frame back. Where it was free before it was taken, the pool is as it was.
pub fn give_frame<D: Disk>(store: &mut Store<D>, frame: Frame)
    requires { IsOut store.old.pool frame }
    ensures { store.new ≡ record store.old { pool = slice_set store.old.pool frame None } }
{
    store.pool().give(frame);
}
