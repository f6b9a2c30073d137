// How files and volumes may be sized.
ghost use Rattle.std.specs.Prelude.{◌≡◌, ◌+◌, ◌-◌, ◌^◌, ◌≤◌, ◌<◌, ◌&&◌, nat_le};
ghost use Rattle.vms_model.specs.Limits.{key_limit};
ghost use Rattle.vms_model.specs.Blocks.{log_start};
ghost use Rattle.reference_index.specs.script_model.Statements as said;
ghost use Rattle.script_lang.specs.Statements.{form_of};
ghost use Rattle.reference_index.specs.run_model.Answers as answers;
ghost use Rattle.reference_index.specs.run_model.World as world;

use reference_world::capacity;
use script_lang::Form;
use std::cmp::min;

/// Whether a number is from one to another.
pub fn is_within(from: u64, to: u64, n: u64) -> bool
    ensures { result ≡ answers.is_within from to n }
{
    from <= n && n <= to
}

// Whether buckets and records may be sized so.
fn are_sizes(bucket: u32, size: u32) -> bool
    ensures { result ≡ answers.are_sizes bucket size }
{
    let most = min(8160, (512 * u64::from(bucket)).saturating_sub(32));
    is_within(1, 16, u64::from(bucket)) && is_within(1, most, u64::from(size))
}

// Whether a key of so many bytes at this position is within a record of this size.
fn is_key_form(size: u32, position: u32, key_size: u32) -> bool
    ensures { result ≡ (answers.is_within 1 key_limit key_size && nat_le (position + key_size) size) }
{
    is_within(1, 64, u64::from(key_size))
        && u64::from(position) + u64::from(key_size) <= u64::from(size)
}

/// Whether a file may be so.
pub fn is_file_form(bucket: u32, size: u32, form: Form) -> bool
    ensures { result ≡ answers.is_file_form bucket size (form_of form) }
{
    match form {
        Form::Sequential { buckets } => are_sizes(bucket, size) && 1 <= buckets,
        Form::Relative { records } => are_sizes(bucket, size) && 1 <= records,
        Form::Indexed {
            buckets,
            position,
            key_size,
        } => are_sizes(bucket, size) && 1 <= buckets && is_key_form(size, position, key_size),
    }
}

// How many buckets hold so many cells.
fn buckets_of_cells(bucket: u32, size: u32, records: u32) -> u64
    ensures buckets { result ≡ answers.buckets_for bucket size (said.Relative records) }
    ensures few { result < 2 ^ 32 }
{
    let cells = capacity(bucket) / (u64::from(size) + 2);
    if cells == 0 {
        return 0;
    }
    (u64::from(records) + cells - 1) / cells
}

/// How many buckets a file takes.
pub fn buckets_for(bucket: u32, size: u32, form: Form) -> u64
    ensures buckets { result ≡ answers.buckets_for bucket size (form_of form) }
    ensures few { result < 2 ^ 32 }
{
    match form {
        Form::Sequential { buckets } => u64::from(buckets),
        Form::Relative { records } => buckets_of_cells(bucket, size, records),
        Form::Indexed { buckets, .. } => u64::from(buckets),
    }
}

/// How many blocks it takes.
pub fn blocks_for(bucket: u32, size: u32, form: Form) -> u64
    ensures { result ≡ answers.blocks_for bucket size (form_of form) }
{
    buckets_for(bucket, size, form) * u64::from(bucket)
}

/// Where the blocks for files begin.
pub fn area_start(slots: u32, journal: u32) -> u64
    ensures start { result ≡ log_start + slots + journal }
    ensures within { result ≤ 2 ^ 34 }
{
    584 + u64::from(slots) + u64::from(journal)
}

/// How many they are.
pub fn area_size(blocks: u32, start: u64) -> u64
    ensures size { result ≡ blocks - start }
    ensures within { result ≤ 2 ^ 34 }
{
    u64::from(blocks).saturating_sub(start)
}

/// Whether a volume of so many log slots and journal blocks may be made on a disk of so many blocks.
pub fn is_volume_form(blocks: u32, slots: u32, journal: u32) -> bool
    ensures { (n : world.Node) → n.blocks ≡ blocks → result ≡ answers.is_volume_form slots journal n }
{
    is_within(64, 512, u64::from(slots))
        && is_within(64, 8192, u64::from(journal))
        && 584 + u64::from(slots) + u64::from(journal) < u64::from(blocks)
}
