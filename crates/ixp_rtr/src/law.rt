//! Laws of updates and answers. The functions do nothing: each is called for what it ensures.
ghost use Rattle.std.specs.Prelude.{◌≡◌, ◌≢◌, ◌≤◌, ◌<◌, ◌+◌, List, ℕ};
ghost use Rattle.ixp_num.specs.declared.roa.Roa.{Roa};
ghost use Rattle.ixp_num_tables.specs.Tables.{Ascends};
ghost use Rattle.ixp_num_sorted.specs.Keys.{roa_key};
ghost use Rattle.ixp_rtr.specs.declared.cache.RtrCache.{RtrCache};
ghost use Rattle.ixp_rtr.specs.Caches.{moved, set_of};
ghost use Rattle.ixp_rtr.specs.Changes.{changes};
ghost use Rattle.ixp_rtr.specs.Clients.{client, SameSet, Has};

/// A router that has the ROAs of one set has exactly those of the other after the changes, and no change is
/// an error.
pub fn changes_bring_the_set()
    ensures { (set from to : List Roa) → Ascends roa_key from → Ascends roa_key to → SameSet set from
        → Has (client set (changes from to)) to }
{}

/// After an update that doesn't begin a new session, the set of each of the last eight serials is what it
/// was.
pub fn kept_sets_stay()
    ensures { (cache : RtrCache) (set : List Roa) (serial : ℕ) → cache.serial ≢ 4294967295
        → serial ≤ cache.serial → cache.serial < serial + 8
        → set_of (moved cache set) serial ≡ set_of cache serial }
{}
