//! The laws that a node's tasks rest on, together.
ghost use Rattle.node_requests.specs.TheLaws.{TheLaws};

use file_requests::nodes_are_kept;
use world_laws::nodes_stay_kept;

/// Cites each law of kept nodes once, so that the proofs of a crate have them in one value.
pub fn the_laws()
    ensures { TheLaws }
{
    nodes_are_kept();
    nodes_stay_kept();
}
