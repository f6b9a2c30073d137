//! Laws of the layouts.
ghost use Rattle.std.specs.Prelude.{◌≡◌, ℕ, List, length};
ghost use Rattle.volume_format.specs.declared.head.DirectoryEntry.{DirectoryEntry as EntrySaid};
ghost use Rattle.file_base.specs.declared.head.FileHead.{FileHead as HeadSaid};
ghost use Rattle.volume_format.specs.declared.home.Home.{Home as HomeSaid};
ghost use Rattle.volume_format.specs.Layout.{AllStand, laid};
ghost use Rattle.volume_format.specs.declared.home.Sizes.{Sizes as SizesSaid};
ghost use Rattle.volume_format.specs.Home.{HasHome, HasSizes, IsHome, IsSizes, home_rows, sizes_of};
ghost use Rattle.volume_format.specs.Head.{IsEntry, IsHead, entry_block, head_block_of, head_rows};

use crate::head::read_directory;
use crate::home::read_home;

/// Each field of a home or of a file stands in its block as it was written, and a block into which a home was written has that home.
pub fn layouts_are_read_as_written()
    ensures home_stands { (h : HomeSaid) (block : List ℕ) → IsHome h → length block ≡ 512 → AllStand (laid (home_rows h) block) (home_rows h) }
    ensures home_written { (h : HomeSaid) (block : List ℕ) → IsHome h → length block ≡ 512 → HasHome (laid (home_rows h) block) h }
    ensures head_stands { (h : HeadSaid) → IsHead h → AllStand (head_block_of h) (head_rows h) }
{}

/// Two homes that one block has are one.
pub fn one_block_has_one_home(block: &[u8; 512])
    ensures { (a b : HomeSaid) → IsHome a → IsHome b → HasHome block.now a → HasHome block.now b → a ≡ b }
{
    let _home = read_home(block);
}

/// Two directory entries with one block are one.
pub fn one_block_has_one_entry(block: &[u8; 512])
    ensures { (a b : EntrySaid) → IsEntry a → IsEntry b → entry_block a ≡ block.now → entry_block b ≡ block.now → a ≡ b }
{
    let _entry = read_directory(block);
}

/// The sizes that a block's front tells are those of its home, which has version 1.
pub fn sizes_are_those_of_the_home()
    ensures sizes { (h : HomeSaid) (s : SizesSaid) (block : List ℕ) → IsHome h → IsSizes s → length block ≡ 512 → HasHome block h → HasSizes block s → s ≡ sizes_of h }
    ensures version { (h : HomeSaid) (s : SizesSaid) (block : List ℕ) → IsHome h → IsSizes s → length block ≡ 512 → HasHome block h → HasSizes block s → h.version ≡ 1 }
{}
