//! An empty volume.
ghost use Rattle.std.specs.Prelude.{◌≡◌, ◌≤◌, ◌<◌, ◌+◌, ℕ, List, [], false, IfSome, OnOk, OnErr, length, replicate, slice_index};
ghost use Rattle.careful_write.specs.block_disk.Blocks.{block_at};
ghost use Rattle.careful_write.specs.block_disk.Disk.{DiskState};
ghost use Rattle.careful_write.specs.block_disk.Sizes.{least_disk_size, pending_limit};
ghost use Rattle.file_base.specs.vms_model.Limits.{slot_limit};
ghost use Rattle.file_base.specs.vms_model.Blocks.{directory_start};
ghost use Rattle.careful_write.specs.Content.{content_of, gate_open, gate_block};
ghost use Rattle.careful_write.specs.Down.{Counts as DownCounts};
ghost use Rattle.careful_write.specs.Steps.{Counts, Touches};
ghost use Rattle.careful_write.specs.Parts.{in_gate};
ghost use Rattle.volume_format.specs.declared.home.Sizes.{Sizes as SizesSaid};
ghost use Rattle.volume_format.specs.Home.{IsHome, home_block_of};
ghost use Rattle.volume.specs.Catalogs.{IsSound, TellsCatalog};
ghost use Rattle.volume.specs.Empty.{IsEmptyVolume, ZerosTo, empty_catalog, empty_home, is_formatted, is_zeroed};
ghost use Rattle.volume.specs.Limits.{SizesFit};

use crate::Volume;
use careful_write::{Disk, DiskErr, Down};
use file_base::{Moment, NodeName};
use volume_format::{Home, layouts_are_read_as_written, write_home};

// Closes the gate for good: all of its block becomes zeros.
fn close_gate<D: Disk>(disk: &mut D) -> Result<(), DiskErr>
    requires size { least_disk_size ≤ (D.state disk.old).size }
    requires settled { (D.state disk.old).pending ≡ [] }
    ensures gate { OnOk result (IfSome (D.state disk.new).seen (λ blocks. block_at blocks 0 ≡ gate_block 0)) }
    ensures settled { OnOk result ((D.state disk.new).pending ≡ []) }
    ensures touches { Touches in_gate (D.state disk.old) (D.state disk.new) }
    ensures counts { Counts result (D.state disk.old) (D.state disk.new) }
{
    disk.write(0, &[0; 512])?;
    disk.barrier()
}

// Writes zeros to the blocks behind the home, up to an end.
fn write_zeros<D: Disk>(disk: &mut D, end: u32) -> Result<(), DiskErr>
    requires size { least_disk_size ≤ (D.state disk.old).size }
    requires some { directory_start ≤ end }
    requires end { end ≤ 1096 }
    requires gate { IfSome (D.state disk.old).seen (λ blocks. block_at blocks 0 ≡ gate_block 0) }
    requires settled { (D.state disk.old).pending ≡ [] }
    ensures zeros { OnOk result (IfSome (D.state disk.new).seen (ZerosTo end)) }
    ensures gate { OnOk result (IfSome (D.state disk.new).seen (λ blocks. block_at blocks 0 ≡ gate_block 0)) }
    ensures pending { OnOk result (length (D.state disk.new).pending < pending_limit) }
    ensures touches { Touches (is_zeroed end) (D.state disk.old) (D.state disk.new) }
    ensures counts { Counts result (D.state disk.old) (D.state disk.new) }
{
    for n in 519..end {
        disk.write(n, &[0; 512])?;
    }
    Ok(())
}

// Writes an empty volume to a disk whose gate is closed, with zeros behind its mark.
fn write_empty<D: Disk>(disk: &mut D, home: &Home) -> Result<(), DiskErr>
    requires size { least_disk_size ≤ (D.state disk.old).size }
    requires slots { home.now.slots ≤ slot_limit }
    requires gate { IfSome (D.state disk.old).seen (λ blocks. block_at blocks 0 ≡ gate_block 0) }
    requires settled { (D.state disk.old).pending ≡ [] }
    ensures empty { OnOk result (IfSome (D.state disk.new).seen (λ blocks. IsEmptyVolume home.now (content_of blocks))) }
    ensures tells { OnOk result (IfSome (D.state disk.new).seen (λ blocks. TellsCatalog (empty_catalog home.now) (content_of blocks))) }
    ensures gate { OnOk result (IfSome (D.state disk.new).seen (λ blocks. block_at blocks 0 ≡ gate_block 0)) }
    ensures settled { OnOk result ((D.state disk.new).pending ≡ []) }
    ensures touches { Touches (is_formatted home.now.slots) (D.state disk.old) (D.state disk.new) }
    ensures counts { Counts result (D.state disk.old) (D.state disk.new) }
{
    write_zeros(disk, 584 + home.slots)?;
    let mut block = [0; 512];
    write_home(home, &mut block);
    layouts_are_read_as_written();
    disk.write(518, &block)?;
    disk.barrier()
}

fn format_disk<D: Disk>(disk: &mut D, home: &Home) -> Result<(), DiskErr>
    requires size { least_disk_size ≤ (D.state disk.old).size }
    requires slots { home.now.slots ≤ slot_limit }
    requires settled { (D.state disk.old).pending ≡ [] }
    ensures empty { OnOk result (IfSome (D.state disk.new).seen (λ blocks. IsEmptyVolume home.now (content_of blocks))) }
    ensures tells { OnOk result (IfSome (D.state disk.new).seen (λ blocks. TellsCatalog (empty_catalog home.now) (content_of blocks))) }
    ensures gate { OnOk result (IfSome (D.state disk.new).seen (λ blocks. block_at blocks 0 ≡ gate_block 0)) }
    ensures closed { OnOk result (IfSome (D.state disk.new).seen (λ blocks. gate_open blocks ≡ false)) }
    ensures settled { OnOk result ((D.state disk.new).pending ≡ []) }
    ensures touches { Touches (is_formatted home.now.slots) (D.state disk.old) (D.state disk.new) }
    ensures counts { Counts result (D.state disk.old) (D.state disk.new) }
{
    close_gate(disk)?;
    write_empty(disk, home)
}

impl<D: Disk> Volume<D> {
    /// Writes an empty volume of a node, with so many log slots and blocks of the recovery unit journal. What stood in the
    /// journal and the data area stays. After `Down` the blocks before them may have anything.
    pub fn format(mut disk: D, node: NodeName, slots: u32, blocks: u32) -> (D, Result<(), Down>)
        requires sizes { SizesFit (D.state disk).size (record { blocks = (D.state disk).size; slots = slots; ru_blocks = blocks }) }
        requires size { least_disk_size ≤ (D.state disk).size }
        requires settled { (D.state disk).pending ≡ [] }
        ensures ranges { IsHome (empty_home node (D.state disk).size slots blocks) }
        ensures empty { OnOk result.1 (IfSome (D.state result.0).seen (λ image. IsEmptyVolume (empty_home node (D.state disk).size slots blocks) (content_of image))) }
        ensures tells { OnOk result.1 (IfSome (D.state result.0).seen (λ image. TellsCatalog (empty_catalog (empty_home node (D.state disk).size slots blocks)) (content_of image))) }
        ensures sound { IsSound node (D.state disk).size (empty_catalog (empty_home node (D.state disk).size slots blocks)) }
        ensures gate { OnOk result.1 (IfSome (D.state result.0).seen (λ image. block_at image 0 ≡ gate_block 0)) }
        ensures closed { OnOk result.1 (IfSome (D.state result.0).seen (λ image. gate_open image ≡ false)) }
        ensures settled { OnOk result.1 ((D.state result.0).pending ≡ []) }
        ensures touches { Touches (is_formatted slots) (D.state disk) (D.state result.0) }
        ensures counts { DownCounts result.1 (D.state disk) (D.state result.0) }
    {
        let home = Home {
            version: 1,
            blocks: disk.blocks(),
            slots,
            ru_blocks: blocks,
            node,
            boot: 0,
            greatest_moment: Moment(0),
            last: None,
        };
        match format_disk(&mut disk, &home) {
            Ok(()) => (disk, Ok(())),
            Err(err) => (disk, Err(Down::from(err))),
        }
    }
}
