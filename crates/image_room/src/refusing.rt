// Why a file's journals of images have too little room.
ghost use Rattle.std.specs.Prelude.{◌≡◌, ◌≤◌, ◌<◌, ◌+◌, ◌-◌, ◌*◌, ◌^◌, Some, IfSome};
ghost use Rattle.std.specs.Option.{option_and_then};
ghost use Rattle.image_appends.specs.journal_model.Ring.{ring_size};
ghost use Rattle.record_operations.specs.Causes.{IsRefusal, cause_of};
ghost use Rattle.unit_table.specs.Units.{changers};
ghost use Rattle.image_appends.specs.declared.side.Side.TheVariants as sides;
ghost use Rattle.image_room.specs.Room.{SettlementsFit, free_images, full_by, images_refused, images_wanted, kept_span as kept_said, ring_refused};

use file_base::{FileHead, Span};
use image_appends::Side;
use record_operations::RecErr;
use unit_table::UnitTable;

/// A file's journal of a side, where the file keeps it.
pub(crate) fn kept_span(side: Side, head: &FileHead) -> Option<Span>
    ensures { result ≡ kept_said side head.now }
{
    let (is_kept, span) = match side {
        Side::After => (head.marks.ai, head.ai),
        Side::Before => (head.marks.bi, head.bi),
    };
    if is_kept { Some(span) } else { None }
}

// The refusal for a side's full ring.
fn full_by(side: Side, free: u64, need: u64) -> RecErr
    ensures { cause_of result ≡ Some (full_by side free need) }
{
    match side {
        Side::After => RecErr::AfterImagesFull { free, need },
        Side::Before => RecErr::BeforeImagesFull { free, need },
    }
}

// Why the ring of a side has too few free bytes, where so many are needed.
fn ring_refusal(
    side: Side,
    head: &FileHead,
    units: &UnitTable,
    file: u8,
    need: u64,
) -> Option<RecErr>
    requires ordered { IfSome (kept_said side head.now) (λ s. s.first ≤ s.end) }
    requires room { SettlementsFit side head.now file units.now.places }
    ensures refuses { option_and_then cause_of result ≡ ring_refused side (kept_said side head.now) file units.now.places need }
    ensures refusal { IfSome result IsRefusal }
{
    let span = match kept_span(side, head) {
        Some(span) => span,
        None => return None,
    };
    let free = 512 * u64::from(span.blocks) - (span.end - span.first) - 48 * units.changers(file);
    if free < need {
        Some(full_by(side, free, need))
    } else {
        None
    }
}

/// Why the journals of the file of a number have too little room for entries of so many bytes, by a unit that changed the file before, or that did not;
/// a change without a unit changed nothing before. The journal of after images is looked at first.
pub fn images_refusal(
    head: &FileHead,
    units: &UnitTable,
    file: u8,
    has_changed: bool,
    after: u64,
    before: u64,
) -> Option<RecErr>
    requires afters { IfSome (kept_said sides.After head.now) (λ s. s.first ≤ s.end) }
    requires befores { IfSome (kept_said sides.Before head.now) (λ s. s.first ≤ s.end) }
    requires room { SettlementsFit sides.After head.now file units.now.places × SettlementsFit sides.Before head.now file units.now.places }
    requires sizes { (after ≤ 2 ^ 32) × (before ≤ 2 ^ 32) }
    ensures refuses { option_and_then cause_of result ≡ images_refused head.now file units.now.places has_changed after before }
    ensures refusal { IfSome result IsRefusal }
{
    let first = if has_changed { 0 } else { 48 };
    match ring_refusal(Side::After, head, units, file, first + after) {
        Some(refusal) => Some(refusal),
        None => ring_refusal(Side::Before, head, units, file, first + before),
    }
}
