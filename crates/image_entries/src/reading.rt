// Entries from a position on.
ghost use Rattle.std.specs.Prelude.{◌≡◌, ◌≤◌, ◌<◌, ◌-◌, ◌++◌, ◌∷◌, [], ℕ, List, Some, OnOk, OnSome, IfOk, IfErr, IfSome, IsSome, length};
ghost use Rattle.journal_format.specs.journal_model.Entries.{Entry};
ghost use Rattle.journal_format.specs.journal_model.Ring.{IsJournal};
ghost use Rattle.journal_store.specs.Refusing.{Stays};
ghost use Rattle.journal_store.specs.Rings.{IsRing};
ghost use Rattle.unit_entries.specs.Reading.{AreRead, placed};
ghost use Rattle.image_entries.specs.Entries.{AreHeadsOf, ReadFails};

use block_disk::Disk;
use careful_write::{Down, Store};
use file_base::Span;
use journal_format::EntryHead;
use journal_store::entry_at;
use std::alloc::Global;
use thiserror::Error;
use vms_base::{KeyText, Record};

/// Why entries were not read.
#[derive(Clone, Copy, Debug, PartialEq, Eq, Drop, Error)]
pub enum ReadErr {
    /// Memory is missing.
    #[error("memory is missing")]
    Memory,
    /// The disk went down.
    #[error("the disk went down")]
    Down(Down),
}

/// Entries but for their images, the oldest first.
#[derive(Debug, Drop)]
pub struct ImageEntries {
    pub heads: Vec<EntryHead>,
    /// Where each begins.
    pub positions: Vec<u64>,
}

// One entry more, which begins at this position. None where there is no memory for it.
fn put_entry(
    heads: &mut Vec<EntryHead>,
    positions: &mut Vec<u64>,
    head: EntryHead,
    position: u64,
) -> Option<()>
    ensures heads { OnSome result (heads.new.items ≡ heads.old.items ++ head ∷ []) }
    ensures positions { OnSome result (positions.new.items ≡ positions.old.items ++ position ∷ []) }
{
    // The checker's plan for a head holds where a local has the type of its key.
    let _key: Option<KeyText> = head.key;
    match heads.push(head) {
        Ok(()) => {}
        Err(_) => return None,
    }
    match positions.push(position) {
        Ok(()) => Some(()),
        Err(_) => None,
    }
}

/// Reads the entries of a journal from a position on, the oldest first. None where other bytes than an entry's stand at the position, or behind one
/// of those that were read. An error where the disk goes down, and then nothing is staged; or where memory is missing.
pub fn read_entries<D: Disk>(
    alloc: Global,
    store: &mut Store<D>,
    span: &Span,
    from: u64,
    image: &mut Record,
) -> Result<Option<ImageEntries>, ReadErr>
    requires ring { IsRing span.now store.old.disk }
    ensures told { IfOk result (λ found. IfSome found (λ r. IfSome store.old.current (λ c. (es front : List Entry) → IsJournal c span.now es → (read : AreRead span.now es front from) → AreHeadsOf r.heads.items r.positions.items (placed from read.back)))) }
    ensures whole { IfOk result (λ found. IfSome store.old.current (λ c. (es front : List Entry) → IsJournal c span.now es → AreRead span.now es front from → IsSome found)) }
    ensures few { IfOk result (λ found. IfSome found (λ r. length r.heads.items ≤ span.now.end - from)) }
    ensures ok { OnOk result (Stays store.old store.new) }
    ensures err { IfErr result (λ e. ReadFails e store.old store.new) }
{
    let mut heads = Vec::new(alloc);
    let mut positions = Vec::new(alloc);
    let mut position = from;
    while position < span.end {
        match entry_at(store, span, position, image) {
            Err(down) => return Err(ReadErr::Down(down)),
            Ok(None) => return Ok(None),
            Ok(Some((head, next))) => {
                match put_entry(&mut heads, &mut positions, head, position) {
                    None => return Err(ReadErr::Memory),
                    Some(()) => {}
                }
                position = next;
            }
        }
    }
    Ok(Some(ImageEntries { heads, positions }))
}
