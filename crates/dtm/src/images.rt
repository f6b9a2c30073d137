//! The rack that has the images that a command names.
ghost use Rattle.std.specs.Prelude.{IfOk, IfErr, map};
ghost use Rattle.dtm_command.specs.Images.{IsImageOf};
ghost use Rattle.dtm_run.specs.Racks.{names_in, disks_in, IsRack};
ghost use Rattle.dtm.specs.Images.{IsFilled};
ghost use Rattle.dtm.specs.Causes.{WhyUnfilled};

use dtm_command::{ImageFiles, OpenErr, node_and_image, open_image};
use dtm_run::{Rack, RackCause};
use std::alloc::Global;

/// Opens the images that the words name, in order, up to the first word that names none, or a node that the rack refuses for its
/// name or because it is full, and adds their nodes to the rack. A missing image is made, with 8,192 zero blocks.
pub fn add_images<'a, F: ImageFiles>(
    files: &F,
    alloc: Global,
    words: &[&'a str],
    rack: Rack<F::Image>,
) -> Result<Rack<F::Image>, OpenErr<'a>>
    ensures filled { IfOk result (λ added. IsFilled (IsImageOf (F.store files.now) F.Image.state) (λ image. (F.Image.state image).size) (map (λ word. word.now) words.now) (names_in rack) (disks_in rack) (names_in added) (disks_in added)) }
    ensures why { IfErr result (λ e. WhyUnfilled (F.store files.now) F.Image.state (names_in rack) (map (λ word. word.now) words.now) e) }
    ensures rack { IsRack F.Image.state rack → IfOk result (λ added. IsRack F.Image.state added) }
{
    let mut rack = rack;
    let [word, rest @ ..] = words else {
        return Ok(rack);
    };
    let Some(named) = node_and_image(*word) else {
        return Ok(rack);
    };
    let (node, path) = named;
    let image = match open_image(files, alloc, path) {
        Ok(image) => image,
        Err(e) => return Err(e),
    };
    match rack.add(node, image) {
        Ok(()) => add_images(files, alloc, rest, rack),
        Err(refused) => match refused.cause {
            RackCause::Name | RackCause::Full => Ok(rack),
            RackCause::Size => unreachable!(),
            RackCause::Memory => Err(OpenErr::Memory),
        },
    }
}
