//! The nodes of a run, and their disks.
ghost use Rattle.std.specs.Prelude.{◌≡◌, ℕ, ◌<◌, ◌≤◌, ◌+◌, List, [], ◌∷◌, ◌++◌, Option, Some, None, false, OnOk, OnErr, IfErr, IfSome, IsSome, map, length, slice_get, option_to_list, unwrap_or};
ghost use Rattle.std.specs.Option.{option_map};
ghost use Rattle.indexmap.specs.IndexMap.{spare};
ghost use Rattle.block_disk.specs.Disk.{DiskState};
ghost use Rattle.dtm_run.specs.Racks.{names_in, disks_in, refusal_of, IsRack};
ghost use Rattle.day_run.specs.run_nodes.Names.{is_among};

use block_disk::Disk;
use indexmap::IndexMap;
use std::alloc::{AllocError, Global};
use thiserror::Error;
use vms_base::NodeName;

const MOST_NODES: usize = 8;

const FEWEST_BLOCKS: u32 = 4_096;

const MOST_BLOCKS: u32 = 65_536;

/// The nodes of a run in their order, each with its disk: at most 8 of different names. A node is found by its name, and by its place.
#[derive(Drop)]
pub struct Rack<D> {
    nodes: IndexMap<NodeName, D>,
}

/// Why a node was not added to a rack.
#[derive(Clone, Copy, Debug, PartialEq, Eq, Error)]
pub enum RackCause {
    /// A node of this name is there.
    #[error("the node is there already")]
    Name,
    /// The disk has fewer than 4,096 blocks, or more than 65,536.
    #[error("the disk is too small or too large")]
    Size,
    /// There are 8 nodes.
    #[error("the rack is full")]
    Full,
    /// There is no memory for one more.
    #[error("memory is missing")]
    Memory,
}

/// A node that was not added, with its disk.
#[derive(Drop)]
pub struct RackErr<D> {
    pub disk: D,
    pub cause: RackCause,
}

impl<D> Rack<D> {
    /// A rack without nodes. It takes no memory yet.
    pub fn new(alloc: Global) -> Rack<D>
        ensures names { names_in result ≡ [] }
        ensures rack { (state : D → DiskState) → IsRack state result }
    {
        Rack {
            nodes: IndexMap::new(alloc),
        }
    }

    /// How many nodes there are.
    pub fn len(&self) -> usize
        ensures { result ≡ length (names_in self.now) }
    {
        self.nodes.len()
    }

    /// The disk of the node at this place of the order, from 0.
    pub fn disk(&self, i: usize) -> Option<&D>
        ensures { option_map (λ disk. disk.now) result ≡ slice_get (disks_in self.now) i }
    {
        match self.nodes.get_index(i) {
            Some((_, disk)) => Some(disk),
            None => None,
        }
    }

    /// The name of the node at this place.
    pub(crate) fn name(&self, i: usize) -> Option<NodeName>
        ensures { result ≡ slice_get (names_in self.now) i }
    {
        match self.nodes.get_index(i) {
            Some((name, _)) => Some(*name),
            None => None,
        }
    }

    // Whether a node of this name is there.
    fn has(&self, name: &NodeName) -> bool
        ensures { result ≡ is_among name.now (names_in self.now) }
    {
        self.nodes.contains_key(name)
    }

    // Why a node of this name, with so many blocks, is refused.
    fn refusal(&self, name: &NodeName, blocks: u32) -> Option<RackCause>
        ensures { result ≡ refusal_of (names_in self.now) name.now blocks }
    {
        if self.has(name) {
            Some(RackCause::Name)
        } else if blocks < FEWEST_BLOCKS || MOST_BLOCKS < blocks {
            Some(RackCause::Size)
        } else if self.len() >= MOST_NODES {
            Some(RackCause::Full)
        } else {
            None
        }
    }

    /// Makes room for as many nodes as it may have, which `put_back` wants.
    pub(crate) fn make_room(&mut self) -> Result<(), AllocError>
        ensures same { self.new.nodes.entries ≡ self.old.nodes.entries }
        ensures room { OnOk result (8 ≤ spare self.new.nodes) }
    {
        self.nodes.reserve(MOST_NODES)
    }

    /// Takes the first node out, with its disk. None where the rack has none.
    pub fn take_first(&mut self) -> Option<(NodeName, D)>
        ensures nodes { self.old.nodes.entries ≡ option_to_list result ++ self.new.nodes.entries }
        ensures some { 0 < length (names_in self.old) → IsSome result }
        ensures room { spare self.old.nodes ≤ spare self.new.nodes }
    {
        self.nodes.shift_remove_index(0)
    }
}

impl<D: Drop> Rack<D> {
    /// Puts a node behind the last one, where one was taken out.
    pub(crate) fn put_back(&mut self, name: NodeName, disk: D)
        requires room { 0 < spare self.old.nodes }
        requires new { is_among name (names_in self.old) ≡ false }
        ensures nodes { self.new.nodes.entries ≡ self.old.nodes.entries ++ (name, disk) ∷ [] }
        ensures room { spare self.old.nodes ≤ spare self.new.nodes + 1 }
    {
        let _ = self.nodes.insert(name, disk);
    }
}

impl<D: Disk + Drop> Rack<D> {
    /// Adds a node behind the others, or gives its disk back: where a node of this name is there, where the disk has fewer than
    /// 4,096 or more than 65,536 blocks, where there are 8 nodes, and where memory is missing, tested in this order.
    pub fn add(&mut self, name: NodeName, disk: D) -> Result<(), RackErr<D>>
        ensures cause { IfErr result (λ e. e.cause ≡ unwrap_or (refusal_of (names_in self.old) name (D.state disk).size) RackCause.Memory) }
        ensures disk { IfErr result (λ e. e.disk ≡ disk) }
        ensures same { OnErr result ((names_in self.new ≡ names_in self.old) × (disks_in self.new ≡ disks_in self.old)) }
        ensures accepted { OnOk result (refusal_of (names_in self.old) name (D.state disk).size ≡ None) }
        ensures added { OnOk result ((names_in self.new ≡ names_in self.old ++ name ∷ []) × (disks_in self.new ≡ disks_in self.old ++ disk ∷ [])) }
        ensures rack { IsRack D.state self.old → IsRack D.state self.new }
    {
        if let Some(cause) = self.refusal(&name, disk.blocks()) {
            return Err(RackErr { disk, cause });
        }
        match self.nodes.insert(name, disk) {
            Ok(_) => Ok(()),
            Err(failed) => {
                let (_, disk) = failed.value;
                Err(RackErr {
                    disk,
                    cause: RackCause::Memory,
                })
            }
        }
    }
}
