//! The block of the recovery unit journal.
ghost use Rattle.std.specs.Prelude.{◌≡◌, ◌<◌, ◌^◌};
ghost use Rattle.volume_format.specs.Layout.{laid};
ghost use Rattle.volume_format.specs.Home.{HasRu, ru_rows};

use crate::pieces::{number_64, write_64};
use file_base::Span;

/// Writes the positions between which the journal's entries lie. The bytes behind them stay.
pub fn write_ru(span: &Span, block: &mut [u8; 512])
    ensures bytes { block.new ≡ laid (ru_rows span.now) block.old }
    ensures positions { HasRu block.new span.now }
{
    write_64(block, 0, span.first);
    write_64(block, 8, span.end);
}

/// The journal whose positions a block tells, and which has so many blocks from `start` on.
pub fn read_ru(block: &[u8; 512], start: u32, blocks: u32) -> Span
    ensures positions { HasRu block.now result }
    ensures start { result.start ≡ start }
    ensures blocks { result.blocks ≡ blocks }
{
    Span {
        start,
        blocks,
        first: number_64(block, 0),
        end: number_64(block, 8),
    }
}
