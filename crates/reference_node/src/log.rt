// The transaction log of a node, as it is shown.
ghost use Rattle.std.specs.Prelude.{◌≤◌, length, IfOk};
ghost use Rattle.vms_model.specs.Limits.{slot_limit};
ghost use Rattle.world_laws.specs.run_model.Answers.{service};
ghost use Rattle.world_laws.specs.run_model.World as world;
ghost use Rattle.script_lang.specs.script_model.Statements as said;
ghost use Rattle.reference_node.specs.Nodes.{Does, node_of};

use crate::node::Node;
use reference_disk::{count_free, count_prepared, record_lines};
use reference_index::push_back;
use reference_world::{Line, one};
use std::alloc::{AllocError, Global};

impl Node {
    /// LMCP SHOW.
    pub fn show_log(&self, alloc: Global) -> Result<Vec<Line>, AllocError>
        requires slots { length self.now.durable.log.items ≤ slot_limit }
        ensures { (s : world.Shared) → IfOk result (λ lines. Does s (node_of self.now) (service said.LmcpShow) lines.items (node_of self.now) s) }
    {
        let slots = self.durable.log.as_slice();
        let committed = self.durable.committed_count() as u32;
        let prepared = count_prepared(slots) as u32;
        one(
            alloc,
            Line::NormalLog(committed, prepared, count_free(slots) as u32),
        )
    }

    /// LMCP DUMP.
    pub fn dump_log(&self, alloc: Global) -> Result<Vec<Line>, AllocError>
        requires slots { length self.now.durable.log.items ≤ slot_limit }
        ensures { (s : world.Shared) → IfOk result (λ lines. Does s (node_of self.now) (service said.LmcpDump) lines.items (node_of self.now) s) }
    {
        let slots = self.durable.log.as_slice();
        let mut lines = record_lines(alloc, 0, slots)?;
        let count = lines.len() as u64;
        push_back(&mut lines, Line::NormalCount(count))?;
        Ok(lines)
    }
}
