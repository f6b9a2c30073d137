//! Scripts of one node, whose disk lies in memory.
use crate::racks::{shown_by, with_node, words_of};
use crate::texts::joined;
use block_disk::{CrashDisk, MemPlatter};
use dtm_run::{Exit, Rack, run};
use node_units::NodeUnits;
use std::alloc::Global;
use std::test::Fail;
use transcript::{MemSink, MemSource, Sink, Source};

/// What makes a volume, with a relative file that transactions change.
pub const OPENING: &[u8] = b"A: INIT\nA: BOOT\nA: CREATE F REL 1 100 10\nA: SET_FILE F RU\n";

/// A transaction that puts a record and is committed, and the dump of its file.
pub const COMMITTING: &[u8] = b"A: START_TRANS T\nA: PUT T F 1 \"a\"\nA: END_TRANS T\nA: DUMP F\n";

/// How the run of a source's script by the node A over a platter ends. It is an error where the rack refuses the node, or memory is missing before it.
pub fn run_over<S: Source, K: Sink>(
    alloc: Global,
    platter: MemPlatter,
    source: &mut S,
    sink: &mut K,
) -> Result<Exit, Fail> {
    let words = words_of(alloc, &["a"])?;
    let mut rack = with_node(Rack::new(alloc), "A", CrashDisk::new(alloc, platter)?)?;
    Ok(run::<_, _, _, NodeUnits>(alloc, &words, source, sink, &mut rack))
}

/// What the node A shows for these lines behind the opening, on a disk of 8,192 blocks, in 200,000 bytes at the most. It is an error where the run does
/// not end so, or memory is missing.
pub fn shown(alloc: Global, lines: &[u8], exit: Exit) -> Result<Vec<u8>, Fail> {
    let mut source = MemSource::new(alloc, joined(alloc, &[OPENING, lines])?);
    let mut sink = MemSink::new(alloc, 200_000)?;
    if run_over(
        alloc,
        MemPlatter::new(alloc, 8_192)?,
        &mut source,
        &mut sink,
    )? != exit
    {
        return Err(Fail::from("another exit"));
    }
    Ok(sink.bytes().to_vec(alloc)?)
}

/// What the node A shows for a script over a disk, in 100,000 bytes at the most, and the rack after it. It is an error where the run does not end well,
/// the rack refuses the node, or memory is missing.
pub fn run_on(
    alloc: Global,
    disk: CrashDisk<MemPlatter>,
    script: &[u8],
) -> Result<(Vec<u8>, Rack<CrashDisk<MemPlatter>>), Fail> {
    let rack = with_node(Rack::new(alloc), "A", disk)?;
    shown_by(alloc, rack, &["a"], script, 100_000)
}

/// The disk of a rack's only node. It is an error where there is none.
pub fn disk_of(mut rack: Rack<CrashDisk<MemPlatter>>) -> Result<CrashDisk<MemPlatter>, Fail> {
    match rack.take_first() {
        Some((_, disk)) => Ok(disk),
        None => Err(Fail::from("no disk")),
    }
}
