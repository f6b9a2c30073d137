//! The images that a command names.
ghost use Rattle.std.specs.Prelude.{◌≡◌, ◌≤◌, ◌*◌, ℕ, List, IfOk, IfErr, IfSome, OnErr, Some, MatchOption, []};
ghost use Rattle.std.specs.Option.{option_map};
ghost use Rattle.block_disk.specs.Sizes.{greatest_disk_size, least_disk_size};
ghost use Rattle.script_model.specs.Command.{is_disk_of};
ghost use Rattle.dtm_command.specs.Images.{node_and_image as node_and_image_of, is_for, Store, IsFileOf, IsImageOf};
ghost use Rattle.dtm_command.specs.Causes.{WhyUnopened};

use block_disk::Disk;
use std::alloc::{AllocError, Global};
use std::io;
use thiserror::Error;
use vms_base::NodeName;

const BLOCK_BYTES: u64 = 512;

const FEWEST_BLOCKS: u64 = 4_096;

const MOST_BLOCKS: u64 = 65_536;

const NEW_BLOCKS: u64 = 8_192;

/// Why a call for the file of an image failed.
#[derive(Clone, Copy, Debug, Drop, Error)]
pub enum Failed {
    /// The system refused it.
    #[error("{0}")]
    System(io::Error),
    /// The file is another run's, or another word's.
    #[error("another run has it, or another word names it")]
    Held,
    /// The file is the standard output or the standard error of this run.
    #[error("it is the standard output or the standard error")]
    Stream,
}

/// The files of a system, by their paths, and disks over them.
pub trait ImageFiles {
    type File: Drop;

    type Image: Disk + Drop;

    /// What the calls tell of files and images.
    ghost store: { Self → Store Self.File Self.Image };

    /// The file of a path. None where there is none.
    fn open(&self, path: &str) -> Result<Option<Self::File>, Failed>
        ensures opened { IfOk result (λ file. MatchOption file ((store self.now).missing path.now) (λ f. (store self.now).found path.now f)) }
        ensures failed { OnErr result ((store self.now).failed path.now) };

    /// A new file of so many zero bytes under a path.
    fn make(&self, path: &str, bytes: u64) -> Result<Self::File, Failed>
        ensures made { IfOk result (λ file. (store self.now).made path.now bytes file) }
        ensures failed { OnErr result ((store self.now).failed path.now) };

    /// How many bytes a file has, which has this path.
    fn bytes(&self, path: &str, file: &Self::File) -> Result<u64, Failed>
        ensures bytes { IfOk result (λ bytes. (store self.now).has_bytes file.now bytes) }
        ensures failed { OnErr result ((store self.now).failed path.now) };

    /// A disk over a file of so many blocks.
    fn disk(&self, alloc: Global, file: Self::File, blocks: u32) -> Result<Self::Image, AllocError>
        ensures over { IfOk result (λ image. (store self.now).over file image) }
        ensures size { IfOk result (λ image. (Self.Image.state image).size ≡ blocks) }
        ensures settled { IfOk result (λ image. (Self.Image.state image).pending ≡ []) };
}

/// Why an image is not one that a node can have.
#[derive(Clone, Copy, Debug, Drop, Error)]
pub enum Refusal {
    /// A call for its file failed.
    #[error("{0}")]
    Call(Failed),
    /// Its file has so many bytes, and no 4,096 to 65,536 whole blocks.
    #[error("it has {0} bytes, and an image has 4096 to 65536 blocks of 512 bytes")]
    Size(u64),
}

/// Why the images of a command were not opened.
#[derive(Clone, Copy, Debug, Drop, Error)]
pub enum OpenErr<'a> {
    /// The image of this path cannot be opened.
    #[error("cannot open {0}")]
    Image(&'a str, Refusal),
    /// Memory is missing.
    #[error("memory is missing")]
    Memory,
}

/// How many whole blocks a file of so many bytes has, where a node can have so many.
pub fn blocks_in(bytes: u64) -> Option<u32>
    ensures whole { IfSome result (λ blocks. (512 * blocks ≡ bytes) × (least_disk_size ≤ blocks) × (blocks ≤ greatest_disk_size)) }
    ensures each { (blocks : ℕ) → least_disk_size ≤ blocks → blocks ≤ greatest_disk_size → bytes ≡ 512 * blocks → result ≡ Some blocks }
{
    let blocks = bytes / BLOCK_BYTES;
    if bytes % BLOCK_BYTES == 0 && FEWEST_BLOCKS <= blocks && blocks <= MOST_BLOCKS {
        Some(blocks as u32)
    } else {
        None
    }
}

// The file of a path, or a new one of 8,192 zero blocks where there is none.
fn open_or_make<F: ImageFiles>(files: &F, path: &str) -> Result<F::File, Failed>
    ensures file { IfOk result (λ file. IsFileOf (F.store files.now) path.now file) }
    ensures failed { OnErr result ((F.store files.now).failed path.now) }
{
    match files.open(path)? {
        Some(file) => Ok(file),
        None => files.make(path, NEW_BLOCKS * BLOCK_BYTES),
    }
}

/// Opens the image of a path, or makes it where it is missing.
pub fn open_image<'a, F: ImageFiles>(
    files: &F,
    alloc: Global,
    path: &'a str,
) -> Result<F::Image, OpenErr<'a>>
    ensures image { IfOk result (λ image. IsImageOf (F.store files.now) F.Image.state path.now image) }
    ensures why { IfErr result (λ e. WhyUnopened (F.store files.now) path.now e) }
{
    let file = match open_or_make(files, path) {
        Ok(file) => file,
        Err(e) => return Err(OpenErr::Image(path, Refusal::Call(e))),
    };
    let bytes = match files.bytes(path, &file) {
        Ok(bytes) => bytes,
        Err(e) => return Err(OpenErr::Image(path, Refusal::Call(e))),
    };
    let Some(blocks) = blocks_in(bytes) else {
        return Err(OpenErr::Image(path, Refusal::Size(bytes)));
    };
    match files.disk(alloc, file, blocks) {
        Ok(image) => Ok(image),
        Err(_) => Err(OpenErr::Memory),
    }
}

/// The node and the image that a word names. None exactly where it has not the form `NODE=IMAGE`.
pub fn node_and_image(word: &str) -> Option<(NodeName, &str)>
    ensures value { option_map (λ named. (named.0, named.1.now)) result ≡ node_and_image_of word.now }
    ensures form { (node : List ℕ) → is_disk_of node word.now ≡ is_for node (node_and_image_of word.now) }
{
    let (node, image) = word.split_once('=')?;
    if image.is_empty() {
        return None;
    }
    Some((NodeName::new(node.as_bytes())?, image))
}
