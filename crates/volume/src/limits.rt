//! The numbers that a volume and its files may have.
ghost use Rattle.std.specs.Prelude.{◌≡◌, ◌≤◌, ◌<◌, ◌+◌, ◌-◌, ◌/◌, ℕ, true, false};
ghost use Rattle.volume.specs.Limits.{BlocksFit, BucketFits, BucketsFit, CopyFits, FileFits, HomeFits, KeysFit, RootFits, SaveFits, SizesFit, SpanFits, buckets_of as buckets_said, cells_of as cells_said, file_buckets as file_buckets_said, save_buckets as save_buckets_said};

use file_base::{FileHead, Moment, NO_SAVE, NodeName, Organization, Save, Span};
use volume_format::{Home, Sizes};

const GREATEST_MOMENT: u64 = 24_113_056_319_999;

const GREATEST_POSITION: u64 = 4_611_686_018_427_387_904;

/// The buckets of a file or of its saved copy.
#[derive(Clone, Copy, Debug, PartialEq, Eq, Drop)]
pub struct Buckets {
    pub alloc: u32,
    pub used: u32,
    /// The root bucket of an indexed file, and the height of its tree.
    pub root: u32,
    pub levels: u32,
    /// How many records a sequential file has.
    pub count: u32,
}

/// Whether a disk of so many blocks may have a volume of these sizes.
pub fn sizes_fit(sizes: &Sizes, disk: u32) -> bool
    ensures yes { result ≡ true → SizesFit disk sizes.now }
    ensures no { result ≡ false → SizesFit disk sizes.now → ⊥ }
{
    sizes.blocks == disk
        && 64 <= sizes.slots
        && sizes.slots <= 512
        && 64 <= sizes.ru_blocks
        && sizes.ru_blocks <= 8192
        && 584 + sizes.slots + sizes.ru_blocks < disk
}

/// Whether a home is that of a node, and its greatest moment within the calendar.
pub(crate) fn home_fits(home: &Home, node: &NodeName) -> bool
    ensures yes { result ≡ true → HomeFits node.now home.now }
    ensures no { result ≡ false → HomeFits node.now home.now → ⊥ }
{
    home.node.bytes() == node.bytes() && home.greatest_moment.0 <= GREATEST_MOMENT
}

fn bucket_fits(head: &FileHead) -> bool
    ensures yes { result ≡ true → BucketFits head.now }
    ensures no { result ≡ false → BucketFits head.now → ⊥ }
{
    1 <= head.bucket
        && head.bucket <= 16
        && 1 <= head.mrs
        && head.mrs <= 8160
        && head.mrs + 32 <= 512 * head.bucket
}

fn keys_fit(head: &FileHead) -> bool
    ensures yes { result ≡ true → KeysFit head.now.organization head.now }
    ensures no { result ≡ false → KeysFit head.now.organization head.now → ⊥ }
{
    match head.organization {
        Organization::Sequential => head.mrn == 0 && head.key_pos == 0 && head.key_size == 0,
        Organization::Relative => 1 <= head.mrn && head.key_pos == 0 && head.key_size == 0,
        Organization::Indexed => {
            head.mrn == 0
                && 1 <= head.key_size
                && head.key_size <= 64
                && u32::from(head.key_pos) + u32::from(head.key_size) <= u32::from(head.mrs)
        }
    }
}

// How many cells a bucket of a relative file has.
fn cells_of(head: &FileHead) -> u32
    requires { BucketFits head.now }
    ensures value { result ≡ cells_said head.now }
    ensures some { 0 < result }
    ensures few { result ≤ 8192 }
{
    (512 * u32::from(head.bucket) - 16) / (u32::from(head.mrs) + 2)
}

// How many buckets so many cells take.
fn buckets_for(numbers: u32, cells: u32) -> u64
    requires { 0 < cells }
    ensures { result ≡ (numbers + cells - 1) / cells }
{
    (u64::from(numbers) + u64::from(cells) - 1) / u64::from(cells)
}

/// How many buckets the cells of a relative file take.
pub fn buckets_of(head: &FileHead) -> u64
    requires { BucketFits head.now }
    ensures { result ≡ buckets_said head.now }
{
    buckets_for(head.mrn, cells_of(head))
}

fn root_fits(head: &FileHead, buckets: &Buckets) -> bool
    requires { BucketFits head.now }
    ensures yes { result ≡ true → RootFits head.now.organization head.now buckets.now }
    ensures no { result ≡ false → RootFits head.now.organization head.now buckets.now → ⊥ }
{
    match head.organization {
        Organization::Sequential => buckets.root == 0 && buckets.levels == 0,
        Organization::Relative => {
            buckets.root == 0
                && buckets.levels == 0
                && buckets.count == 0
                && u64::from(buckets.alloc) == buckets_of(head)
                && buckets.used == buckets.alloc
        }
        Organization::Indexed => buckets.root < buckets.used && buckets.count == 0,
    }
}

fn buckets_fit(head: &FileHead, buckets: &Buckets) -> bool
    requires { BucketFits head.now }
    ensures yes { result ≡ true → BucketsFit head.now buckets.now }
    ensures no { result ≡ false → BucketsFit head.now buckets.now → ⊥ }
{
    1 <= buckets.used && buckets.used <= buckets.alloc && root_fits(head, buckets)
}

fn file_buckets(head: &FileHead) -> Buckets
    ensures { result ≡ file_buckets_said head.now }
{
    Buckets {
        alloc: head.alloc,
        used: head.used,
        root: head.root,
        levels: head.levels,
        count: head.count,
    }
}

fn save_buckets(save: &Save) -> Buckets
    ensures { result ≡ save_buckets_said save.now }
{
    Buckets {
        alloc: save.alloc,
        used: save.used,
        root: save.root,
        levels: save.levels,
        count: save.count,
    }
}

fn blocks_fit(marked: bool, span: &Span) -> bool
    ensures yes { result ≡ true → BlocksFit marked span.now }
    ensures no { result ≡ false → BlocksFit marked span.now → ⊥ }
{
    if marked {
        1 <= span.blocks
    } else {
        span.start == 0 && span.blocks == 0
    }
}

fn span_fits(marked: bool, span: &Span) -> bool
    ensures yes { result ≡ true → SpanFits marked span.now }
    ensures no { result ≡ false → SpanFits marked span.now → ⊥ }
{
    blocks_fit(marked, span) && span.first <= span.end && span.end <= GREATEST_POSITION
}

fn copy_fits(greatest: Moment, head: &FileHead) -> bool
    requires { BucketFits head.now }
    ensures yes { result ≡ true → CopyFits greatest.0 head.now }
    ensures no { result ≡ false → CopyFits greatest.0 head.now → ⊥ }
{
    buckets_fit(head, &save_buckets(&head.save))
        && head.save.position <= head.ai.end
        && head.save.moment.0 <= greatest.0
}

fn save_fits(greatest: Moment, head: &FileHead) -> bool
    requires { BucketFits head.now }
    ensures yes { result ≡ true → SaveFits head.now.marks.save greatest.0 head.now }
    ensures no { result ≡ false → SaveFits head.now.marks.save greatest.0 head.now → ⊥ }
{
    if head.marks.save {
        copy_fits(greatest, head)
    } else {
        head.save == NO_SAVE
    }
}

/// Whether a file may be one of a volume with this greatest moment.
pub fn file_fits(greatest: Moment, head: &FileHead) -> bool
    ensures yes { result ≡ true → FileFits greatest.0 head.now }
    ensures no { result ≡ false → FileFits greatest.0 head.now → ⊥ }
{
    bucket_fits(head)
        && keys_fit(head)
        && buckets_fit(head, &file_buckets(head))
        && span_fits(head.marks.ai, &head.ai)
        && span_fits(head.marks.bi, &head.bi)
        && head.bi_since.0 <= greatest.0
        && save_fits(greatest, head)
}
