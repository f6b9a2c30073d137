// The prepared branches of a node, and what a coordinator answers them.
ghost use Rattle.std.specs.Prelude.{◌≡◌, ◌+◌, ◌-◌, ◌<◌, ◌≤◌, ◌^◌, true, map, drop, length, option_map, OnOk, IfOk};
ghost use Rattle.std.specs.List.{list_any};
ghost use Rattle.vms_model.specs.Limits.{branch_limit};
ghost use Rattle.commit_protocol.specs.Messages.{Inquire};
ghost use Rattle.commit_protocol.specs.Rows.{up};
ghost use Rattle.commit_protocol.specs.Table.{same_key as same_key_said, find, cut};
ghost use Rattle.commit_protocol.specs.World as protocol;
ghost use Rattle.world_laws.specs.run_model.Statements.{answer_of, in_doubt as in_doubt_said};
ghost use Rattle.vms_base.specs.Ids.{id_of};
ghost use Rattle.net_wire.specs.Messages.{message_of};
ghost use Rattle.tm_types.specs.Branches.{branch_of as branch_said};
ghost use Rattle.tm_types.specs.Effects.{effect_of};
ghost use Rattle.reference_world.specs.Standing.{branch_key_of};
ghost use Rattle.reference_node.specs.Nodes.{node_of};
ghost use Rattle.reference_branches.specs.Branches.{sent_alone as sent_alone_said, serials_in_doubt};

use crate::node::Node;
use net_wire::Message;
use reference_branches::{arranged, is_prepared, key_of, prepared_serials, question, sent_alone};
use reference_index::push_front;
use reference_world::BranchKey;
use std::alloc::{AllocError, Global};
use tm_types::{BranchState, Effects, Event};
use vms_base::Id;

impl Node {
    // The unsettled branches from this place on, in order of start.
    fn branches_from(&self, alloc: Global, place: u32) -> Result<Vec<BranchState>, AllocError>
        ensures branches { IfOk result (λ v. map branch_said v.items ≡ drop place (node_of self.now).volatile.branches) }
        ensures few { IfOk result (λ v. length v.items ≤ branch_limit - place) }
    {
        if self.table.branch_count() <= place as usize {
            return Ok(Vec::new(alloc));
        }
        match self.table.branch_at(place) {
            None => Ok(Vec::new(alloc)),
            Some(b) => {
                let mut all = self.branches_from(alloc, place + 1)?;
                push_front(&mut all, b.copy())?;
                Ok(all)
            }
        }
    }

    /// The serials of its prepared branches, in the order of their preparation.
    pub fn in_doubt(&self, alloc: Global) -> Result<Vec<Id>, AllocError>
        ensures serials { IfOk result (λ v. map id_of v.items ≡ serials_in_doubt (protocol.arranged (node_of self.now).volatile.preparation (node_of self.now).volatile.branches)) }
        ensures few { IfOk result (λ v. length v.items ≤ branch_limit) }
    {
        let branches = self.branches_from(alloc, 0)?;
        let all = arranged(alloc, self.preparation.as_slice(), branches)?;
        prepared_serials(alloc, all.as_slice())
    }

    /// The branch of this serial, where it is prepared.
    pub fn asking(&self, serial: &Id) -> Option<BranchKey>
        ensures { option_map branch_key_of result ≡ option_map (λ b. b.key) (in_doubt_said (id_of serial.now) (node_of self.now)) }
    {
        match self.branch_of(serial) {
            Some(b) => {
                if is_prepared(&b) {
                    Some(key_of(&b))
                } else {
                    None
                }
            }
            None => None,
        }
    }

    /// What the node answers the question of a branch.
    pub fn answer_to(
        &mut self,
        alloc: Global,
        branch: &BranchKey,
    ) -> Result<Option<Message>, AllocError>
        ensures answer { IfOk result (λ m. option_map message_of m ≡ answer_of (node_of self.old) (branch_key_of branch.now)) }
        ensures node { OnOk result (node_of self.new ≡ node_of self.old) }
    {
        let event = Event::Got(question(branch));
        let mut effects = Effects::reserve(alloc)?;
        self.table.step(&event, &mut effects);
        Ok(sent_alone(effects.items()))
    }
}
