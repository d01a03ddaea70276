//! A cache of a desk's ROAs.
ghost use Rattle.std.specs.Prelude.{◌≡◌, [], IfOk, IfErr};
ghost use Rattle.ixp_desk_lock.specs.Calls.{Grows};
ghost use Rattle.ixp_rtr.specs.Answers.{pdus_of};
ghost use Rattle.ixp_desk_rtr.specs.Roas.{Answers, IsFresh, IsUpdated, RoasFault};

use crate::roas::{roas_now, roas_seen};
use ixp_board::BoardName;
use ixp_desk::{DeskSeat, Desks, TurnFault};
use ixp_rtr::{Answer, Query, RtrCache, answer_of};
use std::alloc::{AllocError, Global};
use std::marker::Model;
use std::sync::Wait;

/// A cache of a desk's ROAs, with the seat that keeps it up to date. Contracts see the cache, and what the
/// seat has seen. Its present set has the ROAs of one version of that history.
#[derive(Drop)]
pub struct RoaCache<N: BoardName> {
    alloc: Global,
    cache: RtrCache,
    /// The version whose ROAs the present set has.
    built: u64,
    seat: DeskSeat<N>,
}

impl<N: BoardName> Model for RoaCache<N> {
    ghost use Rattle.ixp_desk_rtr.specs.Roas.{HoldsRoas, Kept};

    ghost Value = { Kept };

    ghost view = { λ it. (it.cache, it.seat) };

    ghost invariant = { λ it. HoldsRoas it.seat.2 it.built it.cache.present };
}

impl<N: BoardName> RoaCache<N> {
    /// A cache of a new session, whose serial 0 has the ROAs that are shown.
    pub fn open(alloc: Global, seat: DeskSeat<N>, session: u16) -> Result<RoaCache<N>, AllocError>
        ensures session { IfOk result (λ it. it.0.session ≡ session) }
        ensures serial { IfOk result (λ it. it.0.serial ≡ 0) }
        ensures kept { IfOk result (λ it. it.0.kept ≡ []) }
        ensures seat { IfOk result (λ it. it.1 ≡ seat) }
    {
        let (built, table) = roas_seen(&seat)?;
        let roas = table.get().roas(alloc)?;
        let cache = RtrCache::open(alloc, session, roas.as_slice())?;
        Ok(RoaCache {
            alloc,
            cache,
            built,
            seat,
        })
    }

    /// Brings the present set to the ROAs of a version that contains every edit which was accepted when the
    /// call looked. Where that is the version whose ROAs it has, nothing is copied or compared.
    fn refresh<R: Wait, D: Desks<N>>(&mut self, rt: &R, desk: &mut D) -> Result<(), TurnFault>
        ensures grows { Grows self.old.1 self.new.1 }
        ensures updated { IsUpdated self.old.0 self.new.0 }
        ensures ok { IfOk result (λ _. IsFresh self.old self.new) }
        ensures fault { IfErr result (λ x. RoasFault x self.old.1 self.new.1) }
    {
        let (built, table) = roas_now(rt, desk, &mut self.seat)?;
        if built == self.built {
            return Ok(());
        }
        let roas = table.get().roas(self.alloc)?;
        self.cache.update(self.alloc, roas.as_slice())?;
        self.built = built;
        Ok(())
    }

    /// The answer to a query, by the ROAs of a version that contains every edit which was accepted when the
    /// call looked. It shares the sets that it needs, so it may be written while the cache changes.
    pub fn answer<R: Wait, D: Desks<N>>(
        &mut self,
        rt: &R,
        desk: &mut D,
        query: &Query,
    ) -> Result<Answer, TurnFault>
        ensures grows { Grows self.old.1 self.new.1 }
        ensures updated { IsUpdated self.old.0 self.new.0 }
        ensures ok { IfOk result (λ a. Answers query.now (pdus_of a) self.old self.new) }
        ensures fault { IfErr result (λ x. RoasFault x self.old.1 self.new.1) }
    {
        self.refresh(rt, desk)?;
        let answer = answer_of(&self.cache, query)?;
        Ok(answer)
    }
}
