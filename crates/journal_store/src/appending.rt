// Entries at the end of a journal.
ghost use Rattle.std.specs.Prelude.{◌≡◌, ◌≤◌, ◌<◌, ◌+◌, ◌-◌, ◌*◌, ◌/◌, ◌%◌, ◌^◌, ◌↔◌, ℕ, OnOk, OnErr, IfErr, IfSome, Ok, Err, length, option_map, min, slice_set, take, drop};
ghost use Rattle.careful_write.specs.block_disk.Blocks.{block_at, with_number};
ghost use Rattle.careful_write.specs.block_disk.Sizes.{content_start};
ghost use Rattle.careful_write.specs.Down.{answered};
ghost use Rattle.careful_write.specs.State.{InHome, StoreState};
ghost use Rattle.careful_write.specs.Sizes.{group_limit};
ghost use Rattle.journal_format.specs.journal_model.Ring.{ring_size, block_of, place_of, put_bytes, put_stream};
ghost use Rattle.journal_store.specs.Refusing.{Refuses};
ghost use Rattle.journal_store.specs.Rings.{IsRing};

use careful_write::{Disk, Down, Store};
use file_base::Span;
use journal_format::EntryBuf;
use thiserror::Error;

/// Why an entry was not added.
#[derive(Clone, Copy, Debug, PartialEq, Eq, Error)]
pub enum AppendErr {
    /// The ring has fewer free bytes than the entry.
    #[error("the journal has {free} free bytes, and the entry needs {need}")]
    Full { free: u64, need: u64 },
    /// The disk went down.
    #[error("the disk went down")]
    Down(Down),
}

fn overlay(block: &mut [u8; 512], at: usize, bytes: &[u8])
    requires { at + length bytes.now ≤ 512 }
    ensures { block.new ≡ put_bytes at bytes.now block.old }
{
    for i in 0..bytes.len() {
        block[at + i] = bytes[i];
    }
}

// Stages bytes over those of one block, from a place on.
fn write_block<D: Disk>(store: &mut Store<D>, n: u32, at: usize, bytes: &[u8]) -> Result<(), Down>
    requires home { InHome store.old.disk n }
    requires room { length store.old.touched < group_limit }
    requires within { at + length bytes.now ≤ 512 }
    ensures current { OnOk result (store.new.current ≡ option_map (λ c. slice_set c (n - content_start) (put_bytes at bytes.now (block_at c (n - content_start)))) store.old.current) }
    ensures touched { OnOk result (length store.new.touched ≤ length store.old.touched + 1) }
    ensures disk { store.new.disk ≡ answered result store.old.disk }
    ensures pool { store.new.pool ≡ store.old.pool }
    ensures fits { store.new.fits ≡ store.old.fits }
{
    let mut block = [0; 512];
    store.read(n, &mut block)?;
    overlay(&mut block, at, bytes);
    let _ = store.stage(n, &block);
    Ok(())
}

// Stages bytes from a position on, in as many blocks as they take.
fn write_stream<D: Disk>(
    store: &mut Store<D>,
    span: &Span,
    at: u64,
    bytes: &[u8],
) -> Result<(), Down>
    requires ring { IsRing span.now store.old.disk }
    requires few { length bytes.now ≤ 8272 }
    requires room { length store.old.touched ≤ 480 }
    requires position { at ≤ 2 ^ 62 }
    ensures current { OnOk result (store.new.current ≡ option_map (λ c. put_stream c span.now at bytes.now) store.old.current) }
    ensures touched { OnOk result (length store.new.touched ≤ length store.old.touched + 18) }
    ensures few { OnOk result (512 * length store.new.touched ≤ group_limit * length store.old.touched + length bytes.now + 1022) }
    ensures disk { store.new.disk ≡ answered result store.old.disk }
    ensures pool { store.new.pool ≡ store.old.pool }
    ensures fits { store.new.fits ≡ store.old.fits }
{
    let size = 512 * span.blocks as u64;
    let mut done = 0;
    let mut block = at % size / 512;
    let mut place = (at % size % 512) as usize;
    while done < bytes.len() {
        let count = (512 - place).min(bytes.len() - done);
        write_block(
            store,
            span.start + block as u32,
            place,
            &bytes[done..done + count],
        )?;
        done += count;
        place = 0;
        block = if block + 1 == span.blocks as u64 {
            0
        } else {
            block + 1
        };
    }
    Ok(())
}

/// Stages an entry's bytes behind the last entry, and moves the end behind them. It writes nothing and changes no block outside of the
/// ring: the caller stages the span, and applies both in one group. After Down nothing is staged.
pub fn append<D: Disk>(
    store: &mut Store<D>,
    span: &mut Span,
    entry: &EntryBuf,
) -> Result<(), AppendErr>
    requires ring { IsRing span.old store.old.disk }
    requires room { length store.old.touched ≤ 480 }
    ensures adds { OnOk result (store.new.current ≡ option_map (λ c. put_stream c span.old span.old.end entry.now) store.old.current) }
    ensures free { OnOk result (span.old.end - span.old.first + length entry.now ≤ ring_size span.old) }
    ensures span { OnOk result (span.new ≡ record span.old { end = span.old.end + length entry.now }) }
    ensures touched { OnOk result (length store.new.touched ≤ length store.old.touched + 18) }
    ensures few { OnOk result (512 * length store.new.touched ≤ group_limit * length store.old.touched + length entry.now + 1022) }
    ensures disk { OnOk result (store.new.disk ≡ store.old.disk) }
    ensures err { IfErr result (λ e. Refuses e (ring_size span.old - (span.old.end - span.old.first)) (length entry.now) store.old store.new) }
    ensures kept { OnErr result (span.new ≡ span.old) }
    ensures pool { store.new.pool ≡ store.old.pool }
    ensures fits { store.new.fits ≡ store.old.fits }
{
    let bytes = entry.bytes();
    let need = bytes.len() as u64;
    let free = 512 * span.blocks as u64 - (span.end - span.first);
    if free < need {
        return Err(AppendErr::Full { free, need });
    }
    match write_stream(store, span, span.end, bytes) {
        Err(down) => {
            store.unstage();
            return Err(AppendErr::Down(down));
        }
        Ok(()) => {}
    }
    span.end += need;
    Ok(())
}
