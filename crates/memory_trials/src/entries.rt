//! Entries that are put into caches.

use crate::helpers::ZEROS;
use ecc_memory::EccMemory;
use poison_cache::Cache;
use poison_mem::{CacheState, Held, LineMem, NoLog};
use std::alloc::Global;
use std::process::Abort;
use std::test::Fail;

/// A cache of two sets of three lines.
type Small = Cache<EccMemory, 2, 3>;

/// One of a set of two lines over it.
type Caches = Cache<Small, 1, 2>;

/// An entry that stands in the first cache.
const FIRST: Held = Held {
    line: 2,
    dirty: true,
    cells: ZEROS,
};

/// An entry that stands in the cache below.
const SECOND: Held = Held {
    line: 3,
    dirty: false,
    cells: ZEROS,
};

/// Two caches, each with an entry.
fn caches(alloc: Global) -> Result<Caches, Fail> {
    let below = Small::make(alloc, EccMemory::make(alloc, 64)?, 1, 1)?;
    let mut caches = Caches::make(alloc, below, 1, 0)?;
    caches.place_last(&FIRST);
    caches.below_place_last(&SECOND);
    Ok(caches)
}

/// A line that is read comes from the entry below, in front of the first cache's own, which stays when all below is
/// forgotten.
fn assert_used(rt: &impl Abort, caches: &mut Caches) {
    assert!(rt; caches.words() >= 64);
    assert_eq!(rt; caches.held(0, 0), Some(FIRST));
    assert_eq!(rt; caches.held(0, 1), None);
    assert_eq!(rt; caches.below_held(1, 0), Some(SECOND));
    caches.read_word(24, &mut NoLog);
    assert_eq!(rt; caches.held(0, 0), Some(SECOND));
    assert_eq!(rt; caches.held(0, 1), Some(FIRST));
    caches.below_forget_all();
    assert_eq!(rt; caches.below_held(1, 0), None);
    assert_eq!(rt; caches.held(0, 1), Some(FIRST));
}

#[test]
fn entries_are_placed_behind(rt: HostRuntime) -> Result<(), Fail> {
    assert_used(&rt, &mut caches(rt.alloc())?);
    Ok(())
}
