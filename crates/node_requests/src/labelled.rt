//! What a label names at a node.
ghost use Rattle.std.specs.Prelude.{◌≡◌, None, Some, IfErr, IfOk};
ghost use Rattle.std.specs.Option.{option_map};
ghost use Rattle.world_laws.specs.run_model.World.{labelled as labelled_at};
ghost use Rattle.run_shared.specs.LabelTable.{label_of};
ghost use Rattle.tm_types.specs.Branches.{branch_of};
ghost use Rattle.transcript.specs.Forms.{HasTime, line_of};
ghost use Rattle.node_requests.specs.Labelled.{branch_in, made_in, unsettled_in};

use block_disk::Disk;
use node_table::{RecoveryUnits, Running};
use run_shared::{LabelEntry, Shared};
use tm_types::BranchState;
use transcript::Form;
use vms_base::Label;

/// What a label names, where it was made for this node.
pub(crate) fn labelled<D: Disk, U: RecoveryUnits>(
    running: &Running<D, U>,
    shared: &Shared,
    label: &Label,
) -> Option<LabelEntry>
    ensures { option_map (label_of label.now) result ≡ labelled_at running.now.stored.volume.catalog.home.node label.now shared.now.labels }
{
    let entry = shared.find(label)?;
    if running.name().bytes() == entry.node.bytes() {
        Some(entry)
    } else {
        None
    }
}

/// The unsettled branch that a label names; where there is none, what refuses a statement that asks for one.
pub(crate) fn branch_labelled<'a, D: Disk, U: RecoveryUnits>(
    running: &'a Running<D, U>,
    shared: &Shared,
    label: &Label,
) -> Result<&'a BranchState, Form<'static>>
    ensures made { IfOk result (λ _. made_in running.now.stored.volume.catalog.home.node label.now shared.now.labels ≡ None) }
    ensures found { IfOk result (λ branch. branch_in running.now.stored.volume.catalog.home.node label.now shared.now.labels running.now.table.table ≡ Some (branch_of branch.now)) }
    ensures refused { IfErr result (λ form. unsettled_in running.now.stored.volume.catalog.home.node label.now shared.now.labels running.now.table.table ≡ Some (line_of form)) }
    ensures time { IfErr result HasTime }
{
    let Some(entry) = labelled(running, shared, label) else {
        return Err(Form::BadLabel);
    };
    let Some(serial) = entry.serial else {
        return Err(Form::NoSuchTransaction);
    };
    match running.table.branch(serial) {
        Some(branch) => Ok(branch),
        None => Err(Form::NoSuchTransaction),
    }
}
