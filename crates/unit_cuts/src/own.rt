// The settlement of a change that is a transaction of its own, in the journals of images of its file.
ghost use Rattle.std.specs.Prelude.{◌≡◌, ◌≤◌, ◌<◌, ◌+◌, Some, IfErr, OnOk, length};
ghost use Rattle.block_disk.specs.Sizes.{least_disk_size};
ghost use Rattle.vms_model.specs.Limits.{file_limit};
ghost use Rattle.careful_write.specs.Reads.{SameButReads};
ghost use Rattle.careful_write.specs.State.{IsReady};
ghost use Rattle.journal_model.specs.Entries.{IsEntry};
ghost use Rattle.volume.specs.State.{Holds};
ghost use Rattle.kept_files.specs.file_settlements.Settling.{EntersSettled};
ghost use Rattle.image_appends.specs.declared.side.Side.TheVariants as sides;
ghost use Rattle.image_appends.specs.Images.{FellPast, FileHasRoom};
ghost use Rattle.kept_files.specs.Own.{only};
ghost use Rattle.unit_journal.specs.Entries.{settled_entry};
ghost use Rattle.vms_base.specs.Ids.{serial_of, tid_of};
ghost use Rattle.vms_model.specs.Transactions.{Commit};

use block_disk::Disk;
use careful_write::Down;
use image_appends::append_settlement;
use journal_format::EntryBuf;
use unit_journal::encode_settled;
use unit_table::Branch;
use vms_base::{Moment, Outcome, Serial, Tid};
use volume::Volume;

/// The branch of a change that is a transaction of its own, of this id.
pub fn own_branch(tid: &Tid) -> Branch
    ensures { result ≡ record { tid = tid.now; serial = record { 0 = tid.now.0 } } }
{
    Branch {
        tid: *tid,
        serial: Serial(tid.0),
    }
}

/// Stages the entry of a branch's commit in the journals of images of one file, where it keeps them. There has to be room. After Down nothing is staged,
/// and what the volume keeps of the files may be past what its disk tells.
pub fn settle_own<D: Disk>(
    volume: &mut Volume<D>,
    file: u8,
    branch: &Branch,
    moment: Moment,
    entry: &mut EntryBuf,
) -> Result<(), Down>
    requires number { file < file_limit }
    requires least { least_disk_size ≤ volume.old.store.disk.size }
    requires afters { FileHasRoom sides.After 48 file volume.old.catalog.heads volume.old.store.disk }
    requires befores { FileHasRoom sides.Before 48 file volume.old.catalog.heads volume.old.store.disk }
    requires staged { length volume.old.store.touched ≤ 470 }
    ensures closes { OnOk result (EntersSettled (only file) (Some (settled_entry (tid_of branch.now.tid) (serial_of branch.now.serial) Commit moment.0)) volume.old volume.new) }
    ensures is { IsEntry (settled_entry (tid_of branch.now.tid) (serial_of branch.now.serial) Commit moment.0) }
    ensures rest { OnOk result (SameButReads (record volume.old.store { current = volume.new.store.current; touched = volume.new.store.touched }) volume.new.store) }
    ensures few { OnOk result (length volume.new.store.touched ≤ length volume.old.store.touched + 6) }
    ensures holds { OnOk result (Holds volume.old → Holds volume.new) }
    ensures ready { OnOk result (IsReady volume.old.store → IsReady volume.new.store) }
    ensures down { IfErr result (λ down. FellPast down volume.old volume.new) }
{
    let mut files = [false; 64];
    files[file as usize] = true;
    encode_settled(branch.tid, branch.serial, Outcome::Commit, moment, entry);
    append_settlement(volume, &files, entry)
}
