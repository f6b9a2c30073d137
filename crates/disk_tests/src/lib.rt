//! Disks, groups of blocks, buckets and volumes, tried.
#![tactic(auto)]

#[cfg(test)]
mod block_disk_tests;
#[cfg(test)]
mod bucket_page_tests;
#[cfg(test)]
mod careful_write_tests;
#[cfg(test)]
mod change_set_tests;
#[cfg(test)]
mod extents_tests;
#[cfg(test)]
mod frame_pool_tests;
#[cfg(test)]
mod journal_format_tests;
#[cfg(test)]
mod journal_store_tests;
#[cfg(test)]
mod volume_format_tests;
#[cfg(test)]
mod volume_tests;
