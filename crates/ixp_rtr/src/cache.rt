//! The sets of ROAs that a cache has, and their serials.
ghost use Rattle.std.specs.Prelude.{◌≡◌, ◌≢◌, ◌∷◌, [], List, take, length, IfOk, OnErr, MatchBool};
ghost use Rattle.ixp_num.specs.declared.roa.Roa.{Roa};
ghost use Rattle.ixp_num_sorted.specs.Keys.{roa_key};
ghost use Rattle.ixp_num_sorted.specs.Sorted.{IsInOrder};
ghost use Rattle.ixp_rtr.specs.Caches as spec;

use ixp_num::Roa;
use ixp_num_sorted::{Keyed, Sorted};
use ixp_num_tables::{Held, Items};
use std::alloc::{AllocError, Global};

/// How many sets before the present one are kept at most.
const KEPT: usize = 8;

/// The state of a cache (RFC 8210 section 2). Sets are shared with answers, so that an answer stays what it
/// is while the cache changes.
#[derive(Drop)]
pub struct RtrCache {
    /// The session ID. Serials of different sessions can't be compared.
    pub session: u16,
    /// The serial number of the present set.
    pub serial: u32,
    /// The ROAs that are announced, in order and each once.
    pub present: Held<Sorted<Roa>>,
    /// Up to eight sets before it, the latest first: the set at index k has the serial `serial - 1 - k`.
    pub kept: Items<Held<Sorted<Roa>>>,
}

// The ROAs in order, each once.
fn in_order(alloc: Global, roas: &[Roa]) -> Result<Sorted<Roa>, AllocError>
    ensures { IfOk result (λ set. IsInOrder roa_key roas.now set) }
{
    let items = Vec::from_slice(alloc, roas)?;
    Ok(Sorted::from_items(items))
}

// The sets that are kept when the present one is replaced.
fn kept_after(
    alloc: Global,
    present: &Held<Sorted<Roa>>,
    kept: &[Held<Sorted<Roa>>],
) -> Result<Items<Held<Sorted<Roa>>>, AllocError>
    ensures { IfOk result (λ sets. sets ≡ take 8 (present.now ∷ kept.now)) }
{
    let mut sets = Items::new(alloc);
    sets.push(present.shared()?)?;
    for set in &kept[..kept.len().min(KEPT - 1)] {
        sets.push(set.shared()?)?;
    }
    Ok(sets)
}

// Whether two sets are the same.
fn are_same<T: Keyed>(one: &[T], other: &[T]) -> bool
    ensures { MatchBool result (one.now ≡ other.now) (one.now ≢ other.now) }
{
    one == other
}

impl RtrCache {
    /// A cache of a new session, with these ROAs under serial 0. `roas` may be in any order and have
    /// doubles. The only error is out of memory.
    pub fn open(alloc: Global, session: u16, roas: &[Roa]) -> Result<RtrCache, AllocError>
        ensures { IfOk result
            (λ cache. (set : List Roa) × IsInOrder roa_key roas.now set × (cache ≡ spec.opened session set)) }
    {
        let set = in_order(alloc, roas)?;
        let present = Held::new(alloc, set)?;
        Ok(RtrCache {
            session,
            serial: 0,
            present,
            kept: Items::new(alloc),
        })
    }

    // The cache after an update to another set.
    fn moved(&self, alloc: Global, present: Held<Sorted<Roa>>) -> Result<RtrCache, AllocError>
        ensures { IfOk result (λ cache. cache ≡ spec.moved self.now present) }
    {
        if self.serial == u32::MAX {
            return Ok(RtrCache {
                session: self.session.wrapping_add(1),
                serial: 0,
                present,
                kept: Items::new(alloc),
            });
        }
        let kept = kept_after(alloc, &self.present, self.kept.as_slice())?;
        Ok(RtrCache {
            session: self.session,
            serial: self.serial + 1,
            present,
            kept,
        })
    }

    /// Replaces the present set, and returns whether the new one differs. If it does the serial rises by
    /// one; past 4294967295 a new session begins at serial 0, without earlier sets. If it doesn't, nothing
    /// changes. `roas` may be in any order and have doubles. The only error is out of memory, and leaves
    /// the cache as it was.
    pub fn update(&mut self, alloc: Global, roas: &[Roa]) -> Result<bool, AllocError>
        ensures ok { IfOk result
            (λ changed. (set : List Roa) × IsInOrder roa_key roas.now set
            × spec.Updates self.old set changed self.new) }
        ensures err { OnErr result (self.new ≡ self.old) }
    {
        let set = in_order(alloc, roas)?;
        if are_same(set.as_slice(), self.present.get().as_slice()) {
            return Ok(false);
        }
        let present = Held::new(alloc, set)?;
        *self = self.moved(alloc, present)?;
        Ok(true)
    }
}
