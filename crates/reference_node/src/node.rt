// A node as it is kept.
ghost use Rattle.std.specs.Prelude.{◌≡◌, ◌+◌, ◌<◌, ◌^◌, false, None, map, drop, OnOk, IfOk};
ghost use Rattle.vms_model.specs.Times.{CanBeWritten};
ghost use Rattle.world_laws.specs.run_model.Rows.{zeros};
ghost use Rattle.world_laws.specs.run_model.World as world;
ghost use Rattle.vms_base.specs.Ids.{id_of};
ghost use Rattle.reference_world.specs.Standing.{branch_key_of, serials_of};
ghost use Rattle.reference_node.specs.Nodes.{node_of};
ghost use Rattle.reference_node.specs.Telling.{HasTime};

use reference_branches::key_of;
use reference_disk::Durable;
use reference_index::{Lock, push_front};
use reference_world::{BranchKey, DiskCall, Settlement};
use std::alloc::{AllocError, Global};
use tm_table::Tm;
use vms_base::{Id, NodeName, RmName};

/// What is kept of a node: its name and its disk's blocks; what its disk has; and what it has while it is up. Managers stand in the order in which they were declared; locks, settlements and calls stand newest first.
#[derive(Drop)]
pub struct Node {
    pub name: NodeName,
    pub blocks: u32,
    pub durable: Durable,
    pub up: bool,
    pub was_up: bool,
    pub clock: u64,
    pub drawn: u32,
    pub table: Tm,
    pub preparation: Vec<BranchKey>,
    pub locks: Vec<Lock>,
    pub declared: Vec<RmName>,
    pub settled: Vec<Settlement>,
    pub calls: Vec<DiskCall>,
}

impl Node {
    /// A node of this name that is down, whose disk has so many blocks, all of zeros.
    pub fn new(alloc: Global, name: NodeName, blocks: u32) -> Result<Node, AllocError>
        ensures { IfOk result (λ n. node_of n ≡ zeros name blocks) }
    {
        Ok(Node {
            name,
            blocks,
            durable: Durable::zeros(alloc),
            up: false,
            was_up: false,
            clock: 0,
            drawn: 0,
            table: Tm::reserve(alloc)?,
            preparation: Vec::new(alloc),
            locks: Vec::new(alloc),
            declared: Vec::new(alloc),
            settled: Vec::new(alloc),
            calls: Vec::new(alloc),
        })
    }

    /// The id that is drawn next.
    pub fn next_id(&self) -> Id
        requires { self.now.drawn + 1 < 2 ^ 32 }
        ensures { id_of result ≡ world.next_id (node_of self.now) }
    {
        Id {
            node: self.name,
            boot: self.durable.boot,
            seq: self.drawn + 1,
        }
    }

    /// Draws an id.
    pub fn draw(&mut self) -> Id
        requires { self.old.drawn + 1 < 2 ^ 32 }
        ensures id { id_of result ≡ world.next_id (node_of self.old) }
        ensures node { node_of self.new ≡ world.acted world.Draws (node_of self.old) }
    {
        let id = self.next_id();
        self.drawn += 1;
        id
    }

    /// The moment of the next settlement.
    pub fn next_moment(&self) -> u64
        requires time { HasTime 1 (node_of self.now) }
        ensures moment { result ≡ world.next_moment (node_of self.now) }
        ensures written { CanBeWritten result }
    {
        let next = self.durable.greatest + 1;
        if self.clock <= next { next } else { self.clock }
    }

    // The unsettled branches from this place on, in order of start.
    fn keys_from(&self, alloc: Global, place: u32) -> Result<Vec<BranchKey>, AllocError>
        ensures keys { IfOk result (λ v. map branch_key_of v.items ≡ map (λ b. b.key) (drop place self.now.table.table)) }
        ensures serials { IfOk result (λ v. serials_of v.items ≡ world.serials_of (drop place self.now.table.table)) }
    {
        if self.table.branch_count() <= place as usize {
            return Ok(Vec::new(alloc));
        }
        match self.table.branch_at(place) {
            None => Ok(Vec::new(alloc)),
            Some(b) => {
                let mut all = self.keys_from(alloc, place + 1)?;
                push_front(&mut all, key_of(b))?;
                Ok(all)
            }
        }
    }

    /// The unsettled branches, in order of start.
    pub fn keys(&self, alloc: Global) -> Result<Vec<BranchKey>, AllocError>
        ensures keys { IfOk result (λ v. map branch_key_of v.items ≡ map (λ b. b.key) self.now.table.table) }
        ensures serials { IfOk result (λ v. serials_of v.items ≡ world.serials_of self.now.table.table) }
    {
        self.keys_from(alloc, 0)
    }

    /// The disk is made to run again.
    pub fn power(&mut self) -> Result<(), AllocError>
        ensures { OnOk result (node_of self.new ≡ world.powered world.Lost 0 (node_of self.old)) }
    {
        push_front(&mut self.calls, DiskCall::Power)
    }
}
