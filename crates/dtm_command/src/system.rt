//! The files of the system.
ghost use Rattle.dtm_command.specs.Images.{untold};

use crate::images::{Failed, ImageFiles};
use block_disk::{CrashDisk, FilePlatter};
use std::alloc::{AllocError, Global};
use std::fs::{self, File, Files, OpenOptions, TryLockError};
use std::io::{self, ErrorKind};
use std::os::fd::{AsRawFd, IntoRawFd};
use std::os::unix::fs::MetadataExt;

// The descriptor of the standard error, the greatest of a standard stream.
const LAST_STREAM: i32 = 2;

// How many names are tried for a file that is to become an image.
const MOST_DRAFTS: u32 = 100;

/// Lets no file that is opened later have a descriptor of a standard stream.
///
/// A stream that was closed when the program began is the root directory from now on, of which each read and each write fails.
pub fn hold_streams<R: Files<File = File>>(system: &R) {
    for _ in 0..=LAST_STREAM {
        let Ok(directory) = File::open(system, "/") else {
            return;
        };
        if directory.as_raw_fd() > LAST_STREAM {
            return;
        }
        let _ = directory.into_raw_fd();
    }
}

/// The files of the system, to which no run writes but this one as long as it has them. What they are is the system's word, so nothing is told of them.
#[derive(Drop)]
pub struct SystemFiles<'a, R> {
    pub system: &'a R,
    pub alloc: Global,
}

impl<R: Files<File = File>> ImageFiles for SystemFiles<'_, R> {
    type File = File;

    type Image = CrashDisk<FilePlatter>;

    ghost store = { λ files. untold };

    fn open(&self, path: &str) -> Result<Option<File>, Failed> {
        match OpenOptions::new()
            .read(true)
            .write(true)
            .open(self.system, path)
        {
            Ok(file) => {
                hold_alone(self.system, &file)?;
                Ok(Some(file))
            }
            Err(e) if e.kind() == ErrorKind::NotFound => Ok(None),
            Err(e) => Err(Failed::System(e)),
        }
    }

    fn make(&self, path: &str, bytes: u64) -> Result<File, Failed> {
        let (file, draft) = new_draft(self.system, self.alloc, path)?;
        let outcome = make_whole(self.system, &file, draft.as_str(), path, bytes);
        let _ = fs::remove_file(self.system, draft.as_str());
        match outcome {
            Ok(()) => Ok(file),
            Err(e) => Err(e),
        }
    }

    fn bytes(&self, _path: &str, file: &File) -> Result<u64, Failed> {
        match file.metadata() {
            Ok(told) => Ok(told.len()),
            Err(e) => Err(Failed::System(e)),
        }
    }

    fn disk(
        &self,
        alloc: Global,
        file: File,
        blocks: u32,
    ) -> Result<CrashDisk<FilePlatter>, AllocError> {
        CrashDisk::new(alloc, FilePlatter::open(file, blocks))
    }
}

// Whether a file is the one that a path names. A path that cannot be followed names none.
fn is_named<R: Files>(system: &R, file: &File, path: &str) -> io::Result<bool> {
    let told = file.metadata()?;
    match fs::metadata(system, path) {
        Ok(named) => Ok(told.dev() == named.dev() && told.ino() == named.ino()),
        Err(_) => Ok(false),
    }
}

// Takes the lock on a file, which ends with the file. A file is refused that another run has locked, or that this run writes lines to.
fn hold_alone<R: Files>(system: &R, file: &File) -> Result<(), Failed> {
    if file.as_raw_fd() <= LAST_STREAM {
        return Err(Failed::Stream);
    }
    for stream in ["/dev/fd/1", "/dev/fd/2"] {
        match is_named(system, file, stream) {
            Ok(false) => {}
            Ok(true) => return Err(Failed::Stream),
            Err(e) => return Err(Failed::System(e)),
        }
    }
    match file.try_lock() {
        Ok(()) => Ok(()),
        Err(TryLockError::WouldBlock) => Err(Failed::Held),
        Err(TryLockError::Error(e)) => Err(Failed::System(e)),
    }
}

// A new file beside a path, under a name that no other file has.
fn new_draft<R: Files<File = File>>(
    system: &R,
    alloc: Global,
    path: &str,
) -> Result<(File, String), Failed> {
    for number in 0..MOST_DRAFTS {
        let Ok(name) = format!(in alloc; "{path}.new{number}") else {
            return Err(Failed::System(io::Error::from(ErrorKind::OutOfMemory)));
        };
        match OpenOptions::new()
            .read(true)
            .write(true)
            .create_new(true)
            .open(system, name.as_str())
        {
            Ok(file) => return Ok((file, name)),
            Err(e) if e.kind() == ErrorKind::AlreadyExists => {}
            Err(e) => return Err(Failed::System(e)),
        }
    }
    Err(Failed::System(io::Error::from(ErrorKind::AlreadyExists)))
}

// Gives a file that has the name of a draft so many zero bytes, and only then the path as a second name, unless another file has that.
fn make_whole<R: Files<File = File>>(
    system: &R,
    file: &File,
    draft: &str,
    path: &str,
    bytes: u64,
) -> Result<(), Failed> {
    hold_alone(system, file)?;
    match name_whole(system, file, draft, path, bytes) {
        Ok(()) => Ok(()),
        Err(e) => Err(Failed::System(e)),
    }
}

fn name_whole<R: Files<File = File>>(
    system: &R,
    file: &File,
    draft: &str,
    path: &str,
    bytes: u64,
) -> io::Result<()> {
    file.set_len(bytes)?;
    file.sync_all()?;
    fs::hard_link(system, draft, path)?;
    sync_folder(system, path);
    Ok(())
}

// Keeps the name of a new file for good, as far as the system does that for a folder.
fn sync_folder<R: Files<File = File>>(system: &R, path: &str) {
    let folder = match path.rsplit_once('/') {
        Some(("", _)) => "/",
        Some((folder, _)) => folder,
        None => ".",
    };
    if let Ok(folder) = File::open(system, folder) {
        let _ = folder.sync_all();
    }
}
