//! What the program does for the words of its command.
ghost use Rattle.std.specs.Prelude.{◌≡◌, [], IfOk, IfErr, OnErr, map, string_bytes};
ghost use Rattle.transcript_model.specs.Outside.{Rose};
ghost use Rattle.dtm.specs.Causes.{WhyUnfilled};
ghost use Rattle.dtm.specs.Commands.{CommandRan};
ghost use Rattle.dtm_command.specs.Images.{images_of as images_said};

use crate::images::add_images;
use dtm_command::{ImageFiles, OpenErr, image_words};
use dtm_run::{Exit, Rack, run};
use node_units::NodeUnits;
use std::alloc::Global;
use transcript::{Sink, Source};

/// Opens the images that the words of a command name, and runs the script of the source by the nodes that they name. Gives how that ended, and the
/// nodes with their images as the run left them. Where an image is not opened, no script is run.
pub fn run_command<'a, F: ImageFiles, S: Source, K: Sink>(
    files: &F,
    alloc: Global,
    words: &'a [String],
    source: &mut S,
    sink: &mut K,
) -> Result<(Exit, Rack<F::Image>), OpenErr<'a>>
    ensures ran { IfOk result (λ ended. CommandRan (F.store files.now) F.Image.state (map string_bytes words.now) (S.left source.old) (S.left source.new) (K.shown sink.old) (K.shown sink.new) ended.0 ended.1) }
    ensures read_fault { IfOk result (λ ended. ended.0 ≡ Exit.ReadFault → Rose (S.faults source.old) (S.faults source.new)) }
    ensures write_fault { IfOk result (λ ended. ended.0 ≡ Exit.WriteFault → Rose (K.faults sink.old) (K.faults sink.new)) }
    ensures why { IfErr result (λ e. WhyUnfilled (F.store files.now) F.Image.state [] (images_said (map string_bytes words.now)) e) }
    ensures unread { OnErr result ((S.left source.new ≡ S.left source.old) × (K.shown sink.new ≡ K.shown sink.old)) }
{
    let Ok(images) = image_words(alloc, words) else {
        return Err(OpenErr::Memory);
    };
    let mut rack = match add_images(files, alloc, images.as_slice(), Rack::new(alloc)) {
        Ok(rack) => rack,
        Err(e) => return Err(e),
    };
    let exit = run::<S, K, F::Image, NodeUnits>(alloc, words, source, sink, &mut rack);
    Ok((exit, rack))
}
