//! A write-back cache of lines over any level of memory.
#![tactic(auto)]

mod cache;
mod entries;
mod eviction;
mod sets;
mod ways;

pub use cache::Cache;
pub use sets::MOST_HELD;
