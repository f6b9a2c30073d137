// Which files keep a journal of images.
ghost use Rattle.std.specs.Prelude.{◌≡◌, ◌≤◌, length};
ghost use Rattle.std.specs.Option.{option_copied};
ghost use Rattle.vms_model.specs.Limits.{file_limit};
ghost use Rattle.file_settlements.specs.image_appends.Settling.{files_in};
ghost use Rattle.kept_files.specs.Keeping.{TellsKeeping, kept_in, keeps_some};

use block_disk::Disk;
use file_base::FileHead;
use volume::Volume;

// Whether a file keeps a journal of images.
fn keeps_some(head: Option<&FileHead>) -> bool
    ensures { result ≡ keeps_some (option_copied head.entry) }
{
    match head {
        Some(head) => head.marks.ai || head.marks.bi,
        None => false,
    }
}

/// Which of these files keep a journal of images.
pub(crate) fn keeping<D: Disk>(volume: &Volume<D>, files: &[bool; 64]) -> [bool; 64]
    ensures { TellsKeeping volume.now.catalog.heads files.now result }
{
    let mut kept = [false; 64];
    for file in 0..64u8 {
        kept[file as usize] = files[file as usize] && keeps_some(volume.head(file));
    }
    kept
}

// How many of some files take part.
fn count(files: &[bool]) -> usize
    ensures value { result ≡ files_in files.now }
    ensures few { result ≤ length files.now }
{
    match files {
        [] => 0,
        [takes, rest @ ..] => usize::from(*takes) + count(rest),
    }
}

/// How many of these files keep a journal of images.
pub fn files_kept<D: Disk>(volume: &Volume<D>, files: &[bool; 64]) -> usize
    ensures value { result ≡ kept_in files.now volume.now.catalog.heads }
    ensures few { result ≤ file_limit }
{
    let kept = keeping(volume, files);
    count(&kept)
}
