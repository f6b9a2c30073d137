//! The laws that requests on files rest on, together.
ghost use Rattle.file_requests.specs.TheLaws.{TheLaws};

use directory_model::{
    acts_keep_heads, files_are_found_by_name, files_lie_apart, free_runs_are_found_alike,
    new_files_are_alike, places_are_found_alike, records_are_read_alike,
    records_are_shown_in_order,
};
use file_images::rings_follow;
use recovered_nodes::{nodes_are_kept, recoveries_keep_nodes};
use volume::catalogs_stand_on_the_front;

/// Cites each law of files, catalogs and records once, so that the proofs of a crate have them in one value.
pub(crate) fn the_laws()
    ensures { TheLaws }
{
    files_are_found_by_name();
    places_are_found_alike();
    free_runs_are_found_alike();
    records_are_read_alike();
    records_are_shown_in_order();
    files_lie_apart();
    acts_keep_heads();
    new_files_are_alike();
    catalogs_stand_on_the_front();
    nodes_are_kept();
    recoveries_keep_nodes();
    rings_follow();
}
