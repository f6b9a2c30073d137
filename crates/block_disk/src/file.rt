//! A platter over a file.
ghost use Rattle.std.specs.Prelude.{◌≡◌, ℕ, true, None};
ghost use Rattle.block_disk.specs.Counts.{counted, is_err};

use crate::{Failed, Platter};
use std::fs::File;
use std::io;
use std::os::unix::fs::FileExt;

/// The blocks of a file, one after the other from its first byte on.
///
/// What the file holds is the system's word, so its content is untold. Each error of the system is a fault.
#[derive(Drop)]
pub struct FilePlatter {
    file: File,
    blocks: u32,
    faults: u64,
    synced: bool,
}

impl FilePlatter {
    /// The file has so many blocks of 512 bytes.
    pub fn open(file: File, blocks: u32) -> FilePlatter
        ensures size { ⟦<FilePlatter as Platter>⟧.size result ≡ blocks }
        ensures faults { ⟦<FilePlatter as Platter>⟧.faults result ≡ 0 }
        ensures synced { ⟦<FilePlatter as Platter>⟧.synced result ≡ true }
    {
        FilePlatter {
            file,
            blocks,
            faults: 0,
            synced: true,
        }
    }

    // Counts an error.
    fn note_error(&mut self, outcome: io::Result<()>) -> Result<(), Failed>
        ensures faults { self.new.faults ≡ counted (is_err result) self.old.faults }
        ensures exact { is_err result ≡ is_err outcome }
        ensures blocks { self.new.blocks ≡ self.old.blocks }
        ensures synced { self.new.synced ≡ self.old.synced }
    {
        match outcome {
            Ok(()) => Ok(()),
            Err(_) => {
                self.faults = self.faults.saturating_add(1);
                Err(Failed)
            }
        }
    }
}

impl Platter for FilePlatter {
    ghost size = { λ p. p.blocks };

    ghost faults = { λ p. p.faults };

    ghost content = { λ p. None };

    ghost synced = { λ p. p.synced };

    ghost whole = { λ p. tt };

    fn blocks(&self) -> u32 {
        self.blocks
    }

    fn read(&mut self, n: u32, out: &mut [u8; 512]) -> Result<(), Failed> {
        let outcome = read_block(&self.file, n, out);
        self.note_error(outcome)
    }

    fn write(&mut self, n: u32, bytes: &[u8; 512]) -> Result<(), Failed> {
        self.synced = false;
        let outcome = write_block(&self.file, n, bytes);
        self.note_error(outcome)
    }

    fn sync(&mut self) -> Result<(), Failed> {
        let outcome = self.file.sync_all();
        self.note_error(outcome)?;
        self.synced = true;
        Ok(())
    }
}

fn read_block(file: &File, n: u32, out: &mut [u8; 512]) -> io::Result<()> {
    file.read_exact_at(out, 512 * u64::from(n))
}

fn write_block(file: &File, n: u32, bytes: &[u8; 512]) -> io::Result<()> {
    file.write_all_at(bytes, 512 * u64::from(n))
}
