//! How many buckets records take.
ghost use Rattle.std.specs.Prelude.{◌≡◌, ◌≤◌, ◌<◌, ◌+◌, ◌-◌, ◌*◌, ◌/◌, ℕ, List, length, map};
ghost use Rattle.block_disk.specs.Sizes.{greatest_disk_size};
ghost use Rattle.vms_model.specs.Limits.{key_limit, record_limit};
ghost use Rattle.relative_file.specs.tree_model.Layouts.{index_size};
ghost use Rattle.relative_file.specs.tree_model.Loads.{index_over};
ghost use Rattle.load_laws.specs.seq_file.Placing.{buckets_for};
ghost use Rattle.load_pages.specs.Given.{keyed};
ghost use Rattle.load_laws.specs.Loads.{AreLoadable, loaded_buckets, loaded_head, tree_head};
ghost use Rattle.load_pages.specs.Counts.{AllTell, sizes_behind};

use crate::nodes::fan_out;
use crate::records::KeyedRecord;
use file_base::{FileHead, Organization};

/// How many buckets of so many bytes for slots these records take, each filled before the next, where a slot has so many bytes beside its record's.
pub fn chain_length(records: &[KeyedRecord], capacity: u64, beside: u64) -> u64
    requires short { AllTell records.now }
    requires few { beside ≤ 4 }
    requires most { capacity ≤ 8192 }
    ensures is { result ≡ buckets_for capacity (sizes_behind beside records.now) }
    ensures most { result ≤ length records.now + 1 }
    ensures least { 1 ≤ result }
{
    let mut buckets = 1;
    let mut used = 0;
    for r in records {
        let size = r.bytes.len() as u64 + beside;
        if used + size <= capacity {
            used += size;
        } else {
            buckets += 1;
            used = size;
        }
    }
    buckets
}

/// How many buckets, and how many levels of them, an index over so many buckets has where an index bucket has at most so many entries.
pub fn index_counts(count: u64, fan_out: u64) -> (u64, u64)
    requires wide { 3 ≤ fan_out }
    requires some { 1 ≤ count }
    ensures buckets { result.0 ≡ index_size (index_over fan_out count count) }
    ensures fewer { result.0 < count }
    ensures levels { result.1 ≡ length (index_over fan_out count count) }
    ensures most { result.1 < count }
{
    if count <= 1 {
        return (0, 0);
    }
    let above = (count - 1) / fan_out + 1;
    let (buckets, levels) = index_counts(above, fan_out);
    (above + buckets, levels + 1)
}

/// How many buckets a load of these records takes. A relative file takes all that it has.
pub fn buckets(head: &FileHead, records: &[KeyedRecord]) -> u64
    requires one { 1 ≤ head.now.bucket }
    requires blocks { head.now.bucket ≤ 16 }
    requires key { head.now.key_size ≤ key_limit }
    requires short { AllTell records.now }
    ensures is { result ≡ loaded_buckets head.now (map keyed records.now) }
    ensures most { result ≤ head.now.alloc + 2 * length records.now + 2 }
{
    let capacity = 512 * head.bucket as u64 - 16;
    match head.organization {
        Organization::Sequential => chain_length(records, capacity, 2),
        Organization::Relative => head.alloc as u64,
        Organization::Indexed => {
            let leaves = chain_length(records, capacity, 4);
            leaves + index_counts(leaves, fan_out(head) as u64).0
        }
    }
}

// The head of a file that has so many used buckets and records, and no index.
fn plain_head(head: &FileHead, used: u32, count: u32) -> FileHead
    ensures { result ≡ record head.now { used = used; root = 0; levels = 0; count = count } }
{
    let mut made = *head;
    made.used = used;
    made.root = 0;
    made.levels = 0;
    made.count = count;
    made
}

// The head of an indexed file with so many leaves.
fn indexed_head(head: &FileHead, leaves: u64) -> FileHead
    requires one { 1 ≤ head.now.bucket }
    requires blocks { head.now.bucket ≤ 16 }
    requires key { head.now.key_size ≤ key_limit }
    requires some { 1 ≤ leaves }
    requires few { leaves ≤ greatest_disk_size }
    ensures { result ≡ tree_head head.now leaves }
{
    let (above, levels) = index_counts(leaves, fan_out(head) as u64);
    let mut made = *head;
    made.used = (leaves + above) as u32;
    made.root = made.used - 1;
    made.levels = levels as u32 + 1;
    made.count = 0;
    made
}

/// The head of a file once these records are loaded.
pub fn head_of(head: &FileHead, records: &[KeyedRecord]) -> FileHead
    requires one { 1 ≤ head.now.bucket }
    requires blocks { head.now.bucket ≤ 16 }
    requires records { head.now.mrs + 32 ≤ 512 * head.now.bucket }
    requires most { head.now.mrs ≤ record_limit }
    requires few { head.now.alloc ≤ greatest_disk_size }
    requires loadable { AreLoadable head.now (map keyed records.now) }
    ensures { result ≡ loaded_head head.now (map keyed records.now) }
{
    let capacity = 512 * head.bucket as u64 - 16;
    match head.organization {
        Organization::Sequential => {
            plain_head(
                head,
                chain_length(records, capacity, 2) as u32,
                records.len() as u32,
            )
        }
        Organization::Relative => plain_head(head, head.alloc, 0),
        Organization::Indexed => indexed_head(head, chain_length(records, capacity, 4)),
    }
}
