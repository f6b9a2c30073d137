//! What the program does for words that ask for a day.
ghost use Rattle.std.specs.Prelude.{◌≡◌, ◌∷◌, [], IfOk, OnErr, codes, map, string_bytes};
ghost use Rattle.std.specs.List.{AllByRecursion};
ghost use Rattle.transcript_model.specs.Outside.{Rose};
ghost use Rattle.dtm_run.specs.Racks.{IsRack, names_in, states_in};
ghost use Rattle.dtm.specs.Days.{DayCommandRan, IsBlank, is_for_a_day as is_for_a_day_of};

use block_disk::{CrashDisk, Disk, MemPlatter};
use dtm_run::{Exit, Rack, opening_nodes_exist, run};
use node_units::NodeUnits;
use std::alloc::{AllocError, Global};
use transcript::{Sink, Source};
use vms_base::NodeName;

const BLOCKS: u32 = 16_384;

/// A disk in memory.
pub type MemoryDisk = CrashDisk<MemPlatter>;

/// Whether words are a command for a day, if they are any: `MAKE` stands behind the program's name.
pub fn is_for_a_day(words: &[String]) -> bool
    ensures { result ≡ is_for_a_day_of (map string_bytes words.now) }
{
    match words {
        [_, command, ..] => command.as_bytes() == b"MAKE".as_slice(),
        _ => false,
    }
}

// A new disk of 16,384 blocks of zeros.
fn blank_disk(alloc: Global) -> Result<MemoryDisk, AllocError>
    ensures { IfOk result (λ disk. IsBlank (⟦<CrashDisk<MemPlatter> as Disk>⟧.state disk)) }
{
    CrashDisk::new(alloc, MemPlatter::new(alloc, BLOCKS)?)
}

// A rack of the nodes A and B, each over such a disk.
fn blank_rack(alloc: Global) -> Result<Rack<MemoryDisk>, AllocError>
    ensures names { IfOk result (λ rack. names_in rack ≡ codes "A" ∷ (codes "B" ∷ [])) }
    ensures blank { IfOk result (λ rack. AllByRecursion IsBlank (states_in (⟦<CrashDisk<MemPlatter> as Disk>⟧.state) rack)) }
    ensures rack { IfOk result (λ rack. IsRack (⟦<CrashDisk<MemPlatter> as Disk>⟧.state) rack) }
{
    let (Some(a), Some(b)) = (NodeName::new(b"A"), NodeName::new(b"B")) else {
        unreachable!()
    };
    let mut rack = Rack::new(alloc);
    let Ok(()) = rack.add(a, blank_disk(alloc)?) else {
        return Err(AllocError);
    };
    let Ok(()) = rack.add(b, blank_disk(alloc)?) else {
        return Err(AllocError);
    };
    Ok(rack)
}

/// Runs the day that the words of a command ask for by two nodes, A and B, over new disks in memory. Gives how that ended, and the nodes with their disks as the day
/// left them. Where memory is missing for these, no day is run.
pub fn run_day_command<S: Source, K: Sink>(
    alloc: Global,
    words: &[String],
    source: &mut S,
    sink: &mut K,
) -> Result<(Exit, Rack<MemoryDisk>), AllocError>
    ensures ran { IfOk result (λ ended. DayCommandRan (⟦<CrashDisk<MemPlatter> as Disk>⟧.state) (map string_bytes words.now) (S.left source.old) (S.left source.new) (K.shown sink.old) (K.shown sink.new) ended.0 ended.1) }
    ensures write_fault { IfOk result (λ ended. ended.0 ≡ Exit.WriteFault → Rose (K.faults sink.old) (K.faults sink.new)) }
    ensures unread { OnErr result ((S.left source.new ≡ S.left source.old) × (K.shown sink.new ≡ K.shown sink.old)) }
{
    opening_nodes_exist();
    let mut rack = blank_rack(alloc)?;
    let exit = run::<S, K, MemoryDisk, NodeUnits>(alloc, words, source, sink, &mut rack);
    Ok((exit, rack))
}
