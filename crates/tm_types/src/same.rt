//! When ids and names are the same.
ghost use Rattle.std.specs.Prelude.{◌≡◌};
ghost use Rattle.commit_protocol.specs.Messages.{same_id as same_id_of, same_name};
ghost use Rattle.vms_base.specs.Ids.{id_of};

use vms_base::{Id, NodeName, RmName};

/// Whether two ids are of one transaction: the same node, boot and number within the boot.
#[tactic(auto, unfolding(commit_protocol::specs::Messages::same_id))]
pub fn same_id(a: &Id, b: &Id) -> bool
    ensures { result ≡ same_id_of (id_of a.now) (id_of b.now) }
{
    a.node.bytes() == b.node.bytes() && a.boot == b.boot && a.seq == b.seq
}

/// Whether two names are of one resource manager.
#[tactic(auto, unfolding(commit_protocol::specs::Messages::same_name))]
pub fn same_rm(a: &RmName, b: &RmName) -> bool
    ensures { result ≡ same_name a.now b.now }
{
    a.bytes() == b.bytes()
}

/// Whether two names are of one node.
#[tactic(auto, unfolding(commit_protocol::specs::Messages::same_name))]
pub fn same_node(a: &NodeName, b: &NodeName) -> bool
    ensures { result ≡ same_name a.now b.now }
{
    a.bytes() == b.bytes()
}
