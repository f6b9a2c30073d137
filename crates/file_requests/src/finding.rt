//! A file by its name.
ghost use Rattle.std.specs.Prelude.{◌≡◌, ◌<◌, IfSome, IfNone, length};
ghost use Rattle.vms_model.specs.Limits.{file_limit};
ghost use Rattle.directory_model.specs.Files.{IsNamed, NoneNamed};

use block_disk::Disk;
use file_base::FileHead;
use node_standing::Stored;
use recovery_units::RecoveryUnits;
use vms_base::FileName;

/// The number and the head of the file of this name. None exactly where the volume has none.
pub fn find_file<D: Disk, U: RecoveryUnits>(
    stored: &Stored<D, U>,
    name: &FileName,
) -> Option<(u8, FileHead)>
    ensures found { IfSome result (λ found. (found.0 < file_limit) × IsNamed stored.now.volume.catalog.heads found.0 found.1 name.now) }
    ensures none { IfNone result (NoneNamed stored.now.volume.catalog.heads file_limit name.now) }
    ensures whole { length stored.now.volume.catalog.heads ≡ file_limit }
{
    let file = stored.volume.find(name)?;
    let head = stored.volume.head(file)?;
    Some((file, *head))
}
