//! Scripts of several nodes, whose disks lie in memory, and what the plain program shows for them.
ghost use Rattle.std.specs.Prelude.{IfOk, length, ◌≤◌};
ghost use Rattle.dtm_run.specs.Racks.{IsRack};

use block_disk::{CrashDisk, Disk, MemPlatter};
use dtm_run::{Exit, Rack, run};
use node_units::NodeUnits;
use reference_run::{Ending, Place, reference_transcript_of};
use std::alloc::Global;
use std::test::Fail;
use transcript::{MemSink, MemSource};
use vms_base::NodeName;

/// The names of three nodes.
pub const NAMES: [&str; 3] = ["A", "B", "C"];

/// How many blocks a disk of theirs has.
pub const BLOCKS: u32 = 4_096;

/// What makes a volume at each of them, with a relative file that transactions change.
pub const OPENING: &[u8] =
    b"A: INIT 64 64\nB: INIT 64 64\nC: INIT 64 64\nA: BOOT\nB: BOOT\nC: BOOT\nA: CREATE F REL 1 100 10\nB: CREATE F REL 1 100 10\nC: CREATE F REL 1 100 10\nA: SET_FILE F RU\nB: SET_FILE F RU\nC: SET_FILE F RU\n";

/// A disk of so many blocks, all of zeros. It is an error where memory is missing.
pub fn zeros(alloc: Global, blocks: u32) -> Result<CrashDisk<MemPlatter>, Fail> {
    Ok(CrashDisk::new(alloc, MemPlatter::new(alloc, blocks)?)?)
}

/// A rack with a node more. It is an error where the word is no name, or the rack refuses the node.
pub fn with_node<D: Disk + Drop>(mut rack: Rack<D>, word: &str, disk: D) -> Result<Rack<D>, Fail>
    requires { IsRack D.state rack }
    ensures { IfOk result (λ new. IsRack D.state new) }
{
    let name = NodeName::new(word.as_bytes()).ok_or("a name")?;
    if rack.add(name, disk).is_err() {
        return Err(Fail::from("a node was refused"));
    }
    Ok(rack)
}

/// A rack of the nodes A and B. It is an error where the rack refuses one.
pub fn pair<D: Disk + Drop>(alloc: Global, a: D, b: D) -> Result<Rack<D>, Fail>
    ensures { IfOk result (λ new. IsRack D.state new) }
{
    let rack = with_node(Rack::new(alloc), "A", a)?;
    with_node(rack, "B", b)
}

/// A rack of three nodes. It is an error where the rack refuses one.
pub fn rack_of<D: Disk + Drop>(alloc: Global, a: D, b: D, c: D) -> Result<Rack<D>, Fail>
    ensures { IfOk result (λ new. IsRack D.state new) }
{
    let rack = pair(alloc, a, b)?;
    with_node(rack, "C", c)
}

// The words of a command for a script by nodes of these names.
pub(crate) fn words_of(alloc: Global, names: &[&str]) -> Result<Vec<String>, Fail> {
    let mut words = Vec::new(alloc);
    words.push(String::from_str(alloc, "dtm")?)?;
    words.push(String::from_str(alloc, "RUN")?)?;
    for name in names {
        words.push(format!(in alloc; "{name}=image")?)?;
    }
    Ok(words)
}

/// What the run shows for a script by a rack, whose nodes have these names, in so many bytes at the most, and the rack after it. It is an error where
/// the run does not end well, or memory is missing.
pub fn shown_by<D: Disk + Drop>(
    alloc: Global,
    mut rack: Rack<D>,
    names: &[&str],
    script: &[u8],
    most: usize,
) -> Result<(Vec<u8>, Rack<D>), Fail>
    requires { IsRack D.state rack }
{
    let words = words_of(alloc, names)?;
    let mut source = MemSource::new(alloc, script.to_vec(alloc)?);
    let mut sink = MemSink::new(alloc, most)?;
    if run::<_, _, _, NodeUnits>(alloc, &words, &mut source, &mut sink, &mut rack) != Exit::Done {
        return Err(Fail::from("another exit"));
    }
    Ok((sink.bytes().to_vec(alloc)?, rack))
}

/// What it shows by the node A on a disk of zeros, with the same errors.
pub fn shown_by_one(alloc: Global, script: &[u8], most: usize) -> Result<Vec<u8>, Fail> {
    let rack = with_node(Rack::new(alloc), "A", zeros(alloc, BLOCKS)?)?;
    let (text, _) = shown_by(alloc, rack, &["A"], script, most)?;
    Ok(text)
}

/// What it shows by the nodes A and B on disks of zeros, with the same errors.
pub fn shown_by_pair(alloc: Global, script: &[u8], most: usize) -> Result<Vec<u8>, Fail> {
    let rack = pair(alloc, zeros(alloc, BLOCKS)?, zeros(alloc, BLOCKS)?)?;
    let (text, _) = shown_by(alloc, rack, &["A", "B"], script, most)?;
    Ok(text)
}

/// What it shows by three nodes on disks of zeros, in 2,000,000 bytes at the most, with the same errors.
pub fn shown(alloc: Global, script: &[u8]) -> Result<Vec<u8>, Fail> {
    let rack = rack_of(
        alloc,
        zeros(alloc, BLOCKS)?,
        zeros(alloc, BLOCKS)?,
        zeros(alloc, BLOCKS)?,
    )?;
    let (text, _) = shown_by(alloc, rack, &NAMES, script, 2_000_000)?;
    Ok(text)
}

/// A node for the plain program, with a disk of so many blocks. It is an error where the word is no name.
pub fn place(word: &str, blocks: u32) -> Result<Place, Fail> {
    Ok(Place {
        name: NodeName::new(word.as_bytes()).ok_or("a name")?,
        blocks,
    })
}

/// What the plain program shows for a script by these nodes. It is an error where it does not end well, and where memory is missing.
pub fn plain(alloc: Global, places: &[Place], script: &[u8]) -> Result<Vec<u8>, Fail>
    requires { length places.now ≤ 8 }
{
    let shown = reference_transcript_of(alloc, places, script)?;
    if shown.ending != Ending::Done {
        return Err(Fail::from("the plain program does not end well"));
    }
    Ok(shown.text)
}

/// The text that the run shows, where the plain program shows this one too. It is an error where it does not.
pub fn the_same(got: Vec<u8>, wanted: &[u8]) -> Result<Vec<u8>, Fail> {
    if got.as_slice() != wanted {
        return Err(Fail::from("the plain program shows another transcript"));
    }
    Ok(got)
}

/// What the run and the plain program show for a script by the node A, in so many bytes at the most. It is an error where they do not show the same, byte for
/// byte, where either does not end well, and where memory is missing.
pub fn same_by_one(alloc: Global, script: &[u8], most: usize) -> Result<Vec<u8>, Fail> {
    let wanted = plain(alloc, &[place("A", BLOCKS)?], script)?;
    the_same(shown_by_one(alloc, script, most)?, &wanted)
}

/// What they show by the nodes A and B, with the same errors.
pub fn same_by_pair(alloc: Global, script: &[u8], most: usize) -> Result<Vec<u8>, Fail> {
    let wanted = plain(alloc, &[place("A", BLOCKS)?, place("B", BLOCKS)?], script)?;
    the_same(shown_by_pair(alloc, script, most)?, &wanted)
}

/// They show the same by three nodes, with the same errors.
pub fn show_the_same(alloc: Global, script: &[u8]) -> Result<(), Fail> {
    let places = [
        place("A", BLOCKS)?,
        place("B", BLOCKS)?,
        place("C", BLOCKS)?,
    ];
    let wanted = plain(alloc, &places, script)?;
    the_same(shown(alloc, script)?, &wanted)?;
    Ok(())
}

/// The lines of these pieces show what the pieces say, by the nodes A and B on disks of zeros. It is an error where they do not, where the run does not
/// end well, and where memory is missing.
pub fn pair_shows(alloc: Global, pieces: &[(&[u8], &[u8])]) -> Result<(), Fail> {
    let mut script = Vec::new(alloc);
    let mut want = Vec::new(alloc);
    for (lines, shown) in pieces {
        script.extend_from_slice(lines)?;
        want.extend_from_slice(shown)?;
    }
    let text = shown_by_pair(alloc, &script, 20_000)?;
    if text.as_slice() != want.as_slice() {
        return Err(Fail::from("another transcript"));
    }
    Ok(())
}
