//! A volume over a store: its home, its directory and where its files lie.
#![tactic(auto)]

mod catalog;
mod empty;
mod findings;
mod law;
mod limits;
mod listing;
mod load;
mod volume;

pub use catalog::{Catalog, data_area};
pub use findings::Findings;
pub use law::{
    catalogs_stand_on_the_front, each_content_has_a_volume_or_a_finding, first_findings_are_kept,
    listings_begin_with_the_first_finding, sound_volumes_are_valid,
};
pub use limits::{Buckets, buckets_of, file_fits, sizes_fit};
pub use listing::conditions;
pub use load::Finding;
pub use volume::{MountErr, Volume};
