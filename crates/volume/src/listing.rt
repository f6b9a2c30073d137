//! The failing ones of the first five conditions.
ghost use Rattle.std.specs.Prelude.{◌≡◌, ◌<◌, ◌≤◌, ◌+◌, ◌*◌, ℕ, [], true, false, OnOk, IfSome, length};
ghost use Rattle.careful_write.specs.block_disk.Blocks.{block_at};
ghost use Rattle.careful_write.specs.block_disk.Sizes.{content_start, least_disk_size};
ghost use Rattle.file_base.specs.vms_model.Limits.{file_limit};
ghost use Rattle.careful_write.specs.Down.{answered};
ghost use Rattle.careful_write.specs.Reads.{SameButReads};
ghost use Rattle.extents.specs.Extents.{FitsAt};
ghost use Rattle.volume.specs.Load.{HeadsFound, HomeFound};
ghost use Rattle.volume.specs.Listing.{HeadsTried, IsEntered, LiesApart, ListsFindings, ListsTo, TakesEntry};

use crate::catalog::data_area;
use crate::findings::Findings;
use crate::load::{Finding, LoadErr, entry_in, load_home};
use careful_write::{Disk, Down, Store};
use extents::{Extent, all_extents, fits_at};
use file_base::{FileHead, Moment, NodeName};
use volume_format::Home;

// Keeps the file of a directory block, or lists the block where condition 4 fails.
fn take_entry(
    block: &[u8; 512],
    greatest: Moment,
    heads: &mut [Option<FileHead>; 64],
    f: u32,
    out: &mut Findings,
)
    requires { f < file_limit }
    ensures { TakesEntry greatest.0 f block.now heads.old heads.new out.old out.new }
{
    match entry_in(block, greatest, heads, f as usize) {
        Some(entry) => heads[f as usize] = entry,
        None => {
            heads[f as usize] = None;
            out.add(Finding {
                number: 4,
                block: 519 + f,
            });
        }
    }
}

// Lists where condition 4 fails, and keeps the files where it holds.
fn list_entries<D: Disk>(
    store: &mut Store<D>,
    greatest: Moment,
    heads: &mut [Option<FileHead>; 64],
    out: &mut Findings,
) -> Result<(), Down>
    requires size { least_disk_size ≤ store.old.disk.size }
    requires empty { out.old ≡ [] }
    ensures state { SameButReads (record store.old { disk = answered result store.old.disk }) store.new }
    ensures count { length heads.new ≡ file_limit }
    ensures lists { OnOk result (IfSome store.old.current (λ c. ListsTo 4 (IsEntered greatest.0 c) file_limit out.new)) }
    ensures tried { OnOk result (IfSome store.old.current (HeadsTried greatest.0 heads.new file_limit)) }
{
    for f in 0..64 {
        let mut block = [0; 512];
        store.read(519 + f, &mut block)?;
        take_entry(&block, greatest, heads, f, out);
    }
    Ok(())
}

// Whether the four extents of a file number lie in the area, and apart from each other and from those before them.
fn lies_apart(area: &Extent, extents: &[Extent; 256], f: usize) -> bool
    requires { f < file_limit }
    ensures yes { result ≡ true → LiesApart area.now extents.now f }
    ensures no { result ≡ false → LiesApart area.now extents.now f → ⊥ }
{
    for i in 4 * f..4 * f + 4 {
        if !fits_at(area, extents, i) {
            return false;
        }
    }
    true
}

// Lists where condition 5 fails.
fn list_extents(area: &Extent, extents: &[Extent; 256], out: &mut Findings)
    requires { out.old ≡ [] }
    ensures { ListsTo 5 (LiesApart area.now extents.now) file_limit out.new }
{
    for f in 0..64 {
        if !lies_apart(area, extents, f as usize) {
            out.add(Finding {
                number: 5,
                block: 519 + f,
            });
        }
    }
}

// Lists where conditions 4 and 5 fail, in a volume of which the first three hold.
fn list_files<D: Disk>(
    store: &mut Store<D>,
    node: &NodeName,
    home: &Home,
    out: &mut Findings,
) -> Result<(), Down>
    requires size { least_disk_size ≤ store.old.disk.size }
    requires empty { out.old ≡ [] }
    requires home { IfSome store.old.current (λ c. HomeFound node.now store.old.fits (length c + content_start) (block_at c 0) home.now) }
    ensures state { SameButReads (record store.old { disk = answered result store.old.disk }) store.new }
    ensures lists { OnOk result (IfSome store.old.current (λ c. ListsFindings node.now store.old.fits c out.new)) }
{
    let mut heads = [None; 64];
    list_entries(store, home.greatest_moment, &mut heads, out)?;
    if !out.items().is_empty() {
        return Ok(());
    }
    list_extents(&data_area(&home.sizes()), &all_extents(&heads), out);
    Ok(())
}

/// Lists the failing ones of the first five conditions, each with the block at which it fails. It writes nothing. After
/// `Down` the list may have any findings.
pub fn conditions<D: Disk>(
    store: &mut Store<D>,
    node: NodeName,
    out: &mut Findings,
) -> Result<(), Down>
    requires size { least_disk_size ≤ store.old.disk.size }
    ensures state { SameButReads (record store.old { disk = answered result store.old.disk }) store.new }
    ensures lists { OnOk result (IfSome store.old.current (λ c. ListsFindings node store.old.fits c out.new)) }
{
    out.clear();
    match load_home(store, &node) {
        Ok(home) => list_files(store, &node, &home, out),
        Err(LoadErr::Finding(finding)) => {
            out.add(finding);
            Ok(())
        }
        Err(LoadErr::Down(down)) => Err(down),
    }
}
