//! The entries of a cache, as a snapshot of it needs them.

ghost use Rattle.std.specs.Prelude.{◌≡◌, ◌<◌, ℕ, slice_get};
ghost use Rattle.poison_mem.specs.CacheState.{HasRoomFor};

use crate::cache::Cache;
use poison_mem::{CacheState, Held, LineMem};

impl<M: LineMem, const SETS: usize, const WAYS: usize> CacheState for Cache<M, SETS, WAYS> {
    ghost use Rattle.poison_cache.specs.Entries.{cache_entries};
    ghost use Rattle.poison_cache.specs.EntriesLaws.{cache_keeps_entries};

    ghost sets = { SETS };

    ghost ways = { WAYS };

    ghost entries = { cache_entries SETS };

    ghost keeps_entries = { cache_keeps_entries M.level M.valid SETS WAYS };

    fn held(&self, set: u32, k: u32) -> Option<Held> {
        self.sets.held(set, k)
    }

    fn forget_all(&mut self) {
        self.sets.forget_all();
    }

    fn place_last(&mut self, h: &Held) {
        self.sets.place_last(h);
    }
}

impl<M: CacheState, const SETS: usize, const WAYS: usize> Cache<M, SETS, WAYS> {
    /// The entry `k` of the list of a set of the cache below, counted from 0; `None` exactly where the list is shorter.
    pub fn below_held(&self, set: u32, k: u32) -> Option<Held>
        requires { set < M.sets }
        ensures { result ≡ slice_get (M.entries.listed self.now.below set) k }
    {
        self.below.held(set, k)
    }

    /// Empties all lists of the cache below, and writes nothing back. The lists of this one stay.
    pub fn below_forget_all(&mut self)
        ensures after { self.new ≡ record self.old { below = M.entries.forget_all self.old.below } }
        ensures words { M.level.words self.new.below ≡ M.level.words self.old.below }
    {
        self.below.forget_all();
    }

    /// Appends an entry to the list of its set of the cache below, under the condition of its own
    /// [`CacheState::place_last`]. The lists of this cache stay.
    pub fn below_place_last(&mut self, h: &Held)
        requires { HasRoomFor M.sets M.ways M.level M.entries self.old.below h.now }
        ensures after { self.new ≡ record self.old { below = M.entries.place_last self.old.below h.now } }
        ensures words { M.level.words self.new.below ≡ M.level.words self.old.below }
    {
        self.below.place_last(h);
    }
}
