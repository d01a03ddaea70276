//! Desk and looking glass as a link sees them.
use crate::answering::{asked, edited};
use crate::configurations::configured;
use ixp_api::{Call, Outcome};
use ixp_board::{BoardName, Note, Publish};
use ixp_desk::Desks;
use ixp_desk_explain::{LinkSeats, LookingGlass, explained, fate_shown, hold, shown};
use ixp_glass_holds::HoldStory;
use ixp_http_link::Desk;
use ixp_io::Clock;
use std::alloc::Global;
use std::marker::PhantomData;
use std::sync::Wait;

/// Who calls a desk and a looking glass, and what it waits with.
#[derive(Drop)]
pub(crate) struct Caller<
    'a,
    R: Wait,
    N: BoardName,
    M: BoardName,
    D: Desks<N>,
    V: Publish<Note<HoldStory, M>>,
> {
    pub(crate) rt: &'a R,
    pub(crate) desk: &'a mut D,
    pub(crate) glass: &'a LookingGlass<M, V>,
    pub(crate) of: PhantomData<N>,
}

impl<
    R: Wait,
    N: BoardName,
    M: BoardName,
    D: Desks<N>,
    V: Publish<Note<HoldStory, M>>,
    C: Clock,
> Desk<LinkSeats<N, M>, C> for Caller<'_, R, N, M, D, V> {
    ghost use Rattle.ixp_desk_link.specs.Turns.{LinkTurn};

    ghost fits = { λ d s. Unit {0} };

    ghost turn = { λ d call o e. LinkTurn (d.1, C.given d.2) call o (e.1, C.given e.2) };

    #[tactic(auto, using(crate::proofs::NeverHead::never_head, crate::proofs::Formed::formed))]
    fn answer(
        &mut self,
        alloc: Global,
        seats: &mut LinkSeats<N, M>,
        clock: &mut C,
        call: Call,
    ) -> Outcome {
        let rt = self.rt;
        match call {
            Call::Edit(entry) => edited(rt, self.desk, &mut seats.0, entry),
            Call::Ask(secret, query) => asked(
                rt,
                self.desk,
                &mut seats.0,
                clock,
                secret.as_slice(),
                query,
            ),
            Call::Published(secret, router, seen) => configured(
                rt,
                alloc,
                self.desk,
                &mut seats.0,
                secret.as_slice(),
                &router,
                seen,
            ),
            Call::Explain(call) => explained(rt, alloc, self.desk, self.glass, &mut seats.0, &call),
            Call::Hold(secret, router, interface, routes) => hold(
                rt,
                alloc,
                self.desk,
                self.glass,
                &mut seats.0,
                &mut seats.1,
                secret.as_slice(),
                &router,
                interface,
                routes,
            ),
            Call::Glass(secret, router, interface) => shown(
                rt,
                alloc,
                self.desk,
                self.glass,
                &mut seats.0,
                &mut seats.1,
                secret.as_slice(),
                &router,
                interface,
            ),
            Call::GlassPlace(secret, router, interface, place) => fate_shown(
                rt,
                alloc,
                self.desk,
                self.glass,
                &mut seats.0,
                &mut seats.1,
                secret.as_slice(),
                &router,
                interface,
                place,
            ),
        }
    }
}
