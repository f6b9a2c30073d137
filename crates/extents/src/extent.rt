//! Extents: blocks of the disk that lie one behind the other.
ghost use Rattle.std.specs.Prelude.{◌≡◌, ◌+◌, ◌*◌, ◌<◌, ◌^◌, ℕ, length};
ghost use Rattle.extents.specs.Extents.{all_extents as all_said, covers as covers_said, extent as extent_said, extents_of as extents_said};

use file_base::FileHead;

/// The blocks of the disk from `start` on that are below `end`.
#[derive(Clone, Copy, Debug, PartialEq, Eq, Drop)]
pub struct Extent {
    pub start: u64,
    pub end: u64,
}

const NOWHERE: Extent = Extent { start: 0, end: 0 };

impl Extent {
    /// Whether a block is one of the extent's.
    pub fn covers(&self, block: u64) -> bool
        ensures { result ≡ covers_said self.now block }
    {
        self.start <= block && block < self.end
    }
}

// So many units of so many blocks, from one block on.
fn extent_at(start: u32, units: u32, blocks: u16) -> Extent
    ensures { result ≡ extent_said start (units * blocks) }
{
    let start = u64::from(start);
    let all = u64::from(units) * u64::from(blocks);
    Extent {
        start,
        end: start + all,
    }
}

/// Where a file lies: its buckets, its journals of after images and of before images, and its saved copy. What it has
/// not is empty, and so is all that a free file number has.
pub fn extents_of(head: &Option<FileHead>) -> [Extent; 4]
    ensures { result ≡ extents_said head.now }
{
    match head {
        None => [NOWHERE; 4],
        Some(head) => [
            extent_at(head.start, head.alloc, head.bucket),
            extent_at(head.ai.start, head.ai.blocks, 1),
            extent_at(head.bi.start, head.bi.blocks, 1),
            extent_at(head.save.start, head.save.alloc, head.bucket),
        ],
    }
}

/// The extents of all files, four for each file number.
pub fn all_extents(heads: &[Option<FileHead>; 64]) -> [Extent; 256]
    ensures { result ≡ all_said heads.now }
{
    let mut all = [NOWHERE; 256];
    for i in 0..64 {
        let [own, ai, bi, save] = extents_of(&heads[i]);
        all[4 * i] = own;
        all[4 * i + 1] = ai;
        all[4 * i + 2] = bi;
        all[4 * i + 3] = save;
    }
    all
}
