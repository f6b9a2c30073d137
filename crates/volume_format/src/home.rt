//! The home block.
ghost use Rattle.std.specs.Prelude.{◌≡◌, ◌↔◌, ℕ, List, [], ◌∷◌, Option, Some};
ghost use Rattle.std.specs.Option.{option_map};
ghost use Rattle.volume_format.specs.declared.home.Home.{Home as HomeSaid};
ghost use Rattle.volume_format.specs.declared.home.Settled.{Settled as SettledSaid};
ghost use Rattle.volume_format.specs.declared.home.Sizes.{Sizes as SizesSaid};
ghost use Rattle.file_base.specs.vms_base.declared.outcomes.Reason.{Reason as ReasonSaid};
ghost use Rattle.volume_format.specs.declared.home.Ending.{Ending as EndingSaid};
ghost use Rattle.file_base.specs.Bytes.{piece_at};
ghost use Rattle.volume_format.specs.Layout.{spliced, laid};
ghost use Rattle.volume_format.specs.Home.{home_rows, size_rows, sizes_of, IsSizes, HasSizes, IsHome, IsLast, HasHome, last_tid as tid_said, last_serial as serial_said, last_kind as kind_said, last_reason as reason_said, reason_number as number_said, ending_kind, ending_reason};

use crate::pieces::{
    id_at, node_at, number_8, number_32, number_64, write, write_8, write_32, write_64,
};
use file_base::{Moment, NodeName, Reason, Serial, Tid, put_id};

/// How a branch was settled.
#[derive(Clone, Copy, Debug, PartialEq, Eq, Drop)]
pub enum Ending {
    Commit,
    Abort(Reason),
}

/// The last settlement of a node.
#[derive(Clone, Copy, Debug, PartialEq, Eq, Drop)]
pub struct Settled {
    pub tid: Tid,
    pub serial: Serial,
    pub ending: Ending,
}

/// The sizes that the front of a home block tells.
#[derive(Clone, Copy, Debug, PartialEq, Eq, Drop)]
pub struct Sizes {
    /// Blocks of the disk.
    pub blocks: u32,
    /// Log slots.
    pub slots: u32,
    /// Blocks of the recovery unit journal.
    pub ru_blocks: u32,
}

/// What the home block tells of a volume.
#[derive(Clone, Copy, Debug, PartialEq, Eq, Drop)]
pub struct Home {
    /// The layout's version. This layout is version 1; a home block tells any.
    pub version: u32,
    /// Blocks of the disk.
    pub blocks: u32,
    /// Log slots.
    pub slots: u32,
    /// Blocks of the recovery unit journal.
    pub ru_blocks: u32,
    /// The node whose volume it is.
    pub node: NodeName,
    /// How often the node was booted.
    pub boot: u32,
    /// The greatest moment of a settlement of this node.
    pub greatest_moment: Moment,
    /// The last settlement, where there was one.
    pub last: Option<Settled>,
}

impl Home {
    /// The sizes alone.
    pub fn sizes(&self) -> Sizes
        ensures { result ≡ sizes_of self.now }
    {
        Sizes {
            blocks: self.blocks,
            slots: self.slots,
            ru_blocks: self.ru_blocks,
        }
    }
}

// Writes the front of a home block.
fn write_sizes(version: u32, sizes: &Sizes, block: &mut [u8; 512])
    ensures bytes { block.new ≡ laid (size_rows version sizes.now) block.old }
    ensures sizes { IsSizes sizes.now }
{
    write(block, 0, b"DTMVOL01");
    write_32(block, 8, version);
    write_32(block, 12, sizes.blocks);
    write_32(block, 16, sizes.slots);
    write_32(block, 20, sizes.ru_blocks);
}

/// The sizes at the front of a block. None exactly where the tag and version 1 do not stand there.
pub fn read_sizes(block: &[u8; 512]) -> Option<Sizes>
    ensures { (sizes : SizesSaid) → (result ≡ Some sizes) ↔ (IsSizes sizes × HasSizes block.now sizes) }
{
    let sizes = sizes_at(block);
    let mut again = *block;
    write_sizes(1, &sizes, &mut again);
    if again == *block { Some(sizes) } else { None }
}

// The sizes whose fields these are.
fn sizes_at(block: &[u8; 512]) -> Sizes
    ensures { (sizes : SizesSaid) → IsSizes sizes → HasSizes block.now sizes → result ≡ sizes }
{
    Sizes {
        blocks: number_32(block, 12),
        slots: number_32(block, 16),
        ru_blocks: number_32(block, 20),
    }
}

/// Writes a home's fields into a block, each at its place. The bytes between and behind them stay.
pub fn write_home(home: &Home, block: &mut [u8; 512])
    ensures bytes { block.new ≡ laid (home_rows home.now) block.old }
    ensures home { IsHome home.now }
{
    let (tid, serial) = last_ids(&home.last);
    let node = home.node.padded();
    let kind = last_kind(&home.last);
    let reason = last_reason(&home.last);
    write_sizes(home.version, &home.sizes(), block);
    write(block, 24, &node);
    write_32(block, 32, home.boot);
    write_64(block, 40, home.greatest_moment.0);
    write(block, 48, &tid);
    write(block, 64, &serial);
    write_8(block, 80, kind);
    write_8(block, 81, reason);
}

// The ids of the last settlement, or zeros.
fn last_ids(last: &Option<Settled>) -> ([u8; 16], [u8; 16])
    ensures tid { result.0 ≡ tid_said last.now }
    ensures serial { result.1 ≡ serial_said last.now }
    ensures last { IsLast last.now }
{
    let mut tid = [0; 16];
    let mut serial = [0; 16];
    if let Some(settled) = last {
        put_id(&settled.tid.0, &mut tid);
        put_id(&settled.serial.0, &mut serial);
    }
    (tid, serial)
}

fn last_kind(last: &Option<Settled>) -> u8
    ensures { result ≡ kind_said last.now }
{
    match last {
        None => 0,
        Some(settled) => match settled.ending {
            Ending::Commit => 1,
            Ending::Abort(_) => 2,
        },
    }
}

fn last_reason(last: &Option<Settled>) -> u8
    ensures { result ≡ reason_said last.now }
{
    match last {
        None => 0,
        Some(settled) => match settled.ending {
            Ending::Commit => 0,
            Ending::Abort(reason) => reason_number(reason),
        },
    }
}

fn reason_number(reason: Reason) -> u8
    ensures { result ≡ number_said reason }
{
    match reason {
        Reason::Aborted => 1,
        Reason::Vetoed => 2,
        Reason::SyncFail => 3,
        Reason::Timeout => 4,
        Reason::CommFail => 5,
        Reason::SegFail => 6,
    }
}

fn reason_of(number: u8) -> Option<Reason>
    ensures { (reason : ReasonSaid) → number ≡ number_said reason → result ≡ Some reason }
{
    match number {
        1 => Some(Reason::Aborted),
        2 => Some(Reason::Vetoed),
        3 => Some(Reason::SyncFail),
        4 => Some(Reason::Timeout),
        5 => Some(Reason::CommFail),
        6 => Some(Reason::SegFail),
        _ => None,
    }
}

/// The home that a block has. None exactly where it has none.
pub fn read_home(block: &[u8; 512]) -> Option<Home>
    ensures { (home : HomeSaid) → (result ≡ Some home) ↔ (IsHome home × HasHome block.now home) }
{
    let home = home_at(block)?;
    let mut again = *block;
    write_home(&home, &mut again);
    if again == *block { Some(home) } else { None }
}

// The home whose fields these are, if they are a home's.
fn home_at(block: &[u8; 512]) -> Option<Home>
    ensures { (home : HomeSaid) → IsHome home → HasHome block.now home → result ≡ Some home }
{
    let node = node_at(block, 24)?;
    let last = last_at(block)?;
    Some(Home {
        version: number_32(block, 8),
        blocks: number_32(block, 12),
        slots: number_32(block, 16),
        ru_blocks: number_32(block, 20),
        node,
        boot: number_32(block, 32),
        greatest_moment: Moment(number_64(block, 40)),
        last,
    })
}

// The last settlement whose fields these are: None where they are no settlement's, Some(None) where there was none.
fn last_at(block: &[u8; 512]) -> Option<Option<Settled>>
    ensures { (last : Option SettledSaid) → IsLast last → piece_at block.now 48 16 ≡ tid_said last → piece_at block.now 64 16 ≡ serial_said last
        → piece_at block.now 80 1 ≡ kind_said last ∷ [] → piece_at block.now 81 1 ≡ reason_said last ∷ [] → result ≡ Some last }
{
    if number_8(block, 80) == 0 {
        return Some(None);
    }
    match settled_at(block) {
        Some(settled) => Some(Some(settled)),
        None => None,
    }
}

// The settlement whose fields these are.
fn settled_at(block: &[u8; 512]) -> Option<Settled>
    ensures { (s : SettledSaid) → IsLast (Some s) → piece_at block.now 48 16 ≡ tid_said (Some s) → piece_at block.now 64 16 ≡ serial_said (Some s)
        → piece_at block.now 80 1 ≡ kind_said (Some s) ∷ [] → piece_at block.now 81 1 ≡ reason_said (Some s) ∷ [] → result ≡ Some s }
{
    let ending = ending_of(number_8(block, 80), number_8(block, 81))?;
    let tid = id_at(block, 48)?;
    let serial = id_at(block, 64)?;
    Some(Settled {
        tid: Tid(tid),
        serial: Serial(serial),
        ending,
    })
}

fn ending_of(kind: u8, reason: u8) -> Option<Ending>
    ensures { (ending : EndingSaid) → kind ≡ ending_kind ending → reason ≡ ending_reason ending → result ≡ Some ending }
{
    match kind {
        1 => Some(Ending::Commit),
        2 => match reason_of(reason) {
            Some(reason) => Some(Ending::Abort(reason)),
            None => None,
        },
        _ => None,
    }
}
