//! What a content tells, and the first of its conditions that fails.
ghost use Rattle.std.specs.Prelude.{◌≡◌, ◌≤◌, ◌<◌, ◌+◌, ℕ, Option, Some, None, true, false, IfOk, IfErr, IfSome, IfNone, OnOk, length};
ghost use Rattle.careful_write.specs.block_disk.Blocks.{block_at};
ghost use Rattle.careful_write.specs.block_disk.Sizes.{content_start, least_disk_size};
ghost use Rattle.file_base.specs.vms_model.Limits.{file_limit, slot_limit};
ghost use Rattle.file_base.specs.vms_model.Blocks.{log_start};
ghost use Rattle.careful_write.specs.Down.{answered};
ghost use Rattle.careful_write.specs.Reads.{SameButReads};
ghost use Rattle.careful_write.specs.State.{EachWhole};
ghost use Rattle.volume_format.specs.Home.{HasRu};
ghost use Rattle.volume.specs.Load.{EntryFound, EntryMisses, HeadsFound, HeadsSound, HomeFound, HomeMisses, HomeSound, Loaded, LoadFinds, after_load};
ghost use Rattle.volume.specs.Catalogs.{IsSound, NewName};
ghost use Rattle.volume.specs.Limits.{FileFits};
ghost use Rattle.volume.specs.Listing.{IsOfHome};

use crate::catalog::{Catalog, data_area, is_new};
use crate::limits::{file_fits, home_fits, sizes_fit};
use careful_write::{Disk, Down, Store};
use extents::{all_extents, first_misfit};
use file_base::{FileHead, Moment, NodeName, Span};
use volume_format::{
    DirectoryEntry, Home, read_directory, read_home, read_ru, read_sizes,
    sizes_are_those_of_the_home,
};

/// A condition of a valid volume that fails, by its number, and the block at which it fails.
#[derive(Clone, Copy, Debug, PartialEq, Eq, Drop)]
pub struct Finding {
    pub number: u8,
    pub block: u32,
}

/// Why a content was not read to its end.
#[derive(Clone, Copy, Debug, PartialEq, Eq, Drop)]
pub(crate) enum LoadErr {
    Finding(Finding),
    Down(Down),
}

impl From<Down> for LoadErr {
    ghost use Rattle.std.specs.Prelude.{◌≡◌};
    ghost use Rattle.volume.specs.declared.load.LoadErr.TheVariants.{Down as went_down};

    ghost from_gives = { λ down err. err ≡ went_down down };

    fn from(down: Down) -> LoadErr {
        LoadErr::Down(down)
    }
}

// The home in a block, or the number of the first condition on it that fails.
fn home_in(block: &[u8; 512], disk: u32, fits: bool, node: &NodeName) -> Result<Home, u8>
    ensures ok { IfOk result (λ home. HomeFound node.now fits disk block.now home) }
    ensures err { IfErr result (λ number. HomeMisses node.now fits disk block.now number) }
{
    let Some(sizes) = read_sizes(block) else {
        return Err(1);
    };
    if !fits || !sizes_fit(&sizes, disk) {
        return Err(2);
    }
    let Some(home) = read_home(block) else {
        return Err(3);
    };
    sizes_are_those_of_the_home();
    if !home_fits(&home, node) {
        return Err(3);
    }
    Ok(home)
}

// Whether a file fits, and has a new name among the first file numbers.
fn suits(greatest: Moment, head: &FileHead, heads: &[Option<FileHead>; 64], f: usize) -> bool
    requires { f ≤ file_limit }
    ensures fits { result ≡ true → FileFits greatest.0 head.now }
    ensures new { result ≡ true → NewName heads.now f head.now.name }
    ensures no { result ≡ false → FileFits greatest.0 head.now → NewName heads.now f head.now.name → ⊥ }
{
    file_fits(greatest, head) && is_new(heads, f, &head.name)
}

// The entry of file number f, if it fits and its name is that of no lower number.
pub(crate) fn entry_in(
    block: &[u8; 512],
    greatest: Moment,
    heads: &[Option<FileHead>; 64],
    f: usize,
) -> Option<Option<FileHead>>
    requires { f ≤ file_limit }
    ensures some { IfSome result (EntryFound greatest.0 heads.now f block.now) }
    ensures none { IfNone result (EntryMisses greatest.0 heads.now f block.now) }
{
    match read_directory(block) {
        None => None,
        Some(DirectoryEntry::Free) => Some(None),
        Some(DirectoryEntry::File(head)) => {
            if suits(greatest, &head, heads, f) {
                Some(Some(head))
            } else {
                None
            }
        }
    }
}

pub(crate) fn load_home<D: Disk>(store: &mut Store<D>, node: &NodeName) -> Result<Home, LoadErr>
    requires size { least_disk_size ≤ store.old.disk.size }
    ensures state { SameButReads (record store.old { disk = after_load result store.old.disk }) store.new }
    ensures ok { IfOk result (λ home. IfSome store.old.current (λ c. HomeFound node.now store.old.fits (length c + content_start) (block_at c 0) home)) }
    ensures sound { IfOk result (HomeSound node.now store.old.disk.size) }
    ensures fits { OnOk result (store.old.fits ≡ true) }
    ensures whole { IfSome store.old.current (λ c. length c + content_start ≡ store.old.disk.size) }
    ensures each { IfSome store.old.current EachWhole }
    ensures err { IfErr result (LoadFinds node.now store.old.fits store.old.current) }
    ensures home { IfErr result IsOfHome }
{
    let disk = store.blocks();
    let fits = store.fits();
    let mut block = [0; 512];
    store.read(518, &mut block)?;
    match home_in(&block, disk, fits, node) {
        Ok(home) => Ok(home),
        Err(number) => Err(LoadErr::Finding(Finding { number, block: 518 })),
    }
}

// Reads the directory: the lowest file number whose entry does not fit, with the files of lower numbers.
fn load_heads<D: Disk>(
    store: &mut Store<D>,
    greatest: Moment,
    heads: &mut [Option<FileHead>; 64],
) -> Result<Option<u32>, Down>
    requires size { least_disk_size ≤ store.old.disk.size }
    ensures state { SameButReads (record store.old { disk = answered result store.old.disk }) store.new }
    ensures all { IfOk result (λ found. IfNone found (IfSome store.old.current (HeadsFound greatest.0 heads.new file_limit))) }
    ensures sound { IfOk result (λ found. IfNone found (HeadsSound greatest.0 heads.new file_limit)) }
    ensures count { length heads.new ≡ file_limit }
    ensures miss { IfOk result (λ found. IfSome found (λ f. (f < file_limit) × IfSome store.old.current (λ c. HeadsFound greatest.0 heads.new f c × EntryMisses greatest.0 heads.new f (block_at c (1 + f))))) }
{
    for f in 0..64 {
        let mut block = [0; 512];
        store.read(519 + f, &mut block)?;
        match entry_in(&block, greatest, heads, f as usize) {
            Some(entry) => heads[f as usize] = entry,
            None => return Ok(Some(f)),
        }
    }
    Ok(None)
}

fn load_ru<D: Disk>(store: &mut Store<D>, home: &Home) -> Result<Span, Down>
    requires size { least_disk_size ≤ store.old.disk.size }
    requires slots { home.now.slots ≤ slot_limit }
    ensures state { SameButReads (record store.old { disk = answered result store.old.disk }) store.new }
    ensures ru { IfOk result (λ ru. IfSome store.old.current (λ c. HasRu (block_at c 65) ru)) }
    ensures start { IfOk result (λ ru. ru.start ≡ log_start + home.now.slots) }
    ensures blocks { IfOk result (λ ru. ru.blocks ≡ home.now.ru_blocks) }
{
    let mut block = [0; 512];
    store.read(583, &mut block)?;
    Ok(read_ru(&block, 584 + home.slots, home.ru_blocks))
}

/// What the content tells, or the first of the five conditions that fails.
pub(crate) fn load<D: Disk>(store: &mut Store<D>, node: &NodeName) -> Result<Catalog, LoadErr>
    requires size { least_disk_size ≤ store.old.disk.size }
    ensures state { SameButReads (record store.old { disk = after_load result store.old.disk }) store.new }
    ensures ok { IfOk result (λ v. IfSome store.old.current (Loaded node.now store.old.fits v)) }
    ensures sound { IfOk result (IsSound node.now store.old.disk.size) }
    ensures fits { OnOk result (store.old.fits ≡ true) }
    ensures whole { IfSome store.old.current (λ c. length c + content_start ≡ store.old.disk.size) }
    ensures each { IfSome store.old.current EachWhole }
    ensures count { IfOk result (λ v. length v.heads ≡ file_limit) }
    ensures err { IfErr result (LoadFinds node.now store.old.fits store.old.current) }
{
    let home = load_home(store, node)?;
    let mut heads = [None; 64];
    if let Some(f) = load_heads(store, home.greatest_moment, &mut heads)? {
        return Err(LoadErr::Finding(Finding {
            number: 4,
            block: 519 + f,
        }));
    }
    if let Some(i) = first_misfit(&data_area(&home.sizes()), &all_extents(&heads)) {
        return Err(LoadErr::Finding(Finding {
            number: 5,
            block: 519 + (i / 4) as u32,
        }));
    }
    let ru = load_ru(store, &home)?;
    Ok(Catalog { home, heads, ru })
}
