//! What a volume keeps of its content, and the look-ups in it.
ghost use Rattle.std.specs.Prelude.{◌≡◌, ◌≤◌, ◌<◌, ℕ, Option, Some, None, true, false, IfSome, IfNone, length};
ghost use Rattle.file_base.specs.vms_model.Limits.{file_limit};
ghost use Rattle.file_base.specs.declared.head.FileHead.{FileHead as HeadSaid};
ghost use Rattle.volume_format.specs.Home.{sizes_of};
ghost use Rattle.volume.specs.Catalogs.{NewName, head_at};
ghost use Rattle.volume.specs.Limits.{data_area as area_said};

use extents::Extent;
use file_base::{FileHead, FileName, Span};
use volume_format::{Home, Sizes};

/// What the home block, the directory and the block of the recovery unit journal tell.
#[derive(Clone, Copy, Drop)]
pub struct Catalog {
    pub home: Home,
    /// The file of each file number, where there is one.
    pub heads: [Option<FileHead>; 64],
    /// The recovery unit journal.
    pub ru: Span,
}

/// The data area: the blocks behind the recovery unit journal.
pub fn data_area(sizes: &Sizes) -> Extent
    ensures { result ≡ area_said sizes.now }
{
    Extent {
        start: 584 + u64::from(sizes.slots) + u64::from(sizes.ru_blocks),
        end: u64::from(sizes.blocks),
    }
}

// Whether a file number has a file of this name.
fn is_named(head: &Option<FileHead>, name: &FileName) -> bool
    ensures yes { result ≡ true → (h : HeadSaid) × (head.now ≡ Some h) × (h.name ≡ name.now) }
    ensures no { result ≡ false → (h : HeadSaid) → head.now ≡ Some h → h.name ≡ name.now → ⊥ }
{
    match head {
        Some(head) => head.name.bytes() == name.bytes(),
        None => false,
    }
}

/// The lowest file number whose file has this name, among the first so many.
pub(crate) fn find_name(heads: &[Option<FileHead>; 64], count: usize, name: &FileName) -> Option<u8>
    requires { count ≤ file_limit }
    ensures found { IfSome result (λ f. (h : HeadSaid) × (f < count) × (head_at heads.now f ≡ Some h) × (h.name ≡ name.now)) }
    ensures lowest { IfSome result (λ f. NewName heads.now f name.now) }
    ensures none { IfNone result (NewName heads.now count name.now) }
{
    for f in 0..count {
        if is_named(&heads[f], name) {
            return Some(f as u8);
        }
    }
    None
}

/// Whether no file among the first so many has this name.
pub(crate) fn is_new(heads: &[Option<FileHead>; 64], count: usize, name: &FileName) -> bool
    requires { count ≤ file_limit }
    ensures yes { result ≡ true → NewName heads.now count name.now }
    ensures no { result ≡ false → NewName heads.now count name.now → ⊥ }
{
    match find_name(heads, count, name) {
        Some(_) => false,
        None => true,
    }
}

/// The lowest file number without a file.
pub(crate) fn free_number(heads: &[Option<FileHead>; 64]) -> Option<u8>
    ensures found { IfSome result (λ f. (f < file_limit) × (head_at heads.now f ≡ None)) }
    ensures lowest { IfSome result (λ f. (g : ℕ) → g < f → head_at heads.now g ≡ None → ⊥) }
    ensures none { IfNone result ((g : ℕ) → g < file_limit → head_at heads.now g ≡ None → ⊥) }
{
    for f in 0..64 {
        if heads[f].is_none() {
            return Some(f as u8);
        }
    }
    None
}
