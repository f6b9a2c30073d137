//! What a file has once records were loaded into it, in the order of their keys: the pages of its buckets, and the laws that such pages are a file of just
//! these records.
//!
//! The crate has definitions and laws, and nothing that runs. `specs/` has, from the bottom up: `Records` (keys with their records), `Pages` (what stands in
//! buckets), `Chains`, `Cells` and `Keys` (the pages of each organization), `Loads` (what is asked of records, and what the file has) and `Laws`.
#![tactic(auto)]

ghost use Rattle.load_laws.specs.Laws.{PagesLoad, HeadLoads, PagesCount};

/// Where the pages of a load stand in the buckets of a file, it has just the records, and is laid out as any change of it wants that.
pub fn pages_load()
    ensures { PagesLoad }
{}

/// The head that a load tells is that of a file.
pub fn head_loads()
    ensures { HeadLoads }
{}

/// A load has as many pages as buckets are told of it.
pub fn pages_count()
    ensures { PagesCount }
{}
