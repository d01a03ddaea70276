//! What two seats of a board hold and see.
ghost use Rattle.std.specs.Prelude.{◌≡◌, length};

use crate::routes::{many_of, routes_of};
use ixp_board::{BoardName, Note, Publish};
use ixp_glass_holds::{
    GlassDesk, GlassDesks, GlassSeat, HoldFault, HoldStory, Holds, held, open_glass,
};
use ixp_num::{Family, Name};
use std::alloc::Global;
use std::marker::Brand;
use std::sync::Wait;
use std::test::Fail;

const ONE: &str = "203.0.113.0/24 65001 10.1.0.1 - -";

const OTHER: &str = "2001:db8::/32 65001 2001:db8:1::1 - -";

/// Holds these routes for the session of rs1 at the interface.
fn hold<R: Wait, N: BoardName, D: GlassDesks<N>>(
    rt: &R,
    alloc: Global,
    desk: &mut D,
    seat: &mut GlassSeat<N>,
    interface: u32,
    texts: &[&str],
) -> Result<(), HoldFault> {
    let routes = routes_of(alloc, texts)?;
    let router = Name::new(alloc, b"rs1")?;
    desk.hold(rt, alloc, seat, &router, interface, Family::V4, routes)
}

/// Holds one route so many times.
fn hold_many<R: Wait, N: BoardName, D: GlassDesks<N>>(
    rt: &R,
    alloc: Global,
    desk: &mut D,
    seat: &mut GlassSeat<N>,
    interface: u32,
    count: u32,
) -> Result<(), HoldFault> {
    let routes = many_of(alloc, ONE, count)?;
    let router = Name::new(alloc, b"rs1")?;
    desk.hold(rt, alloc, seat, &router, interface, Family::V4, routes)
}

/// How many routes the session of rs1 at the interface holds; 0 where it holds nothing.
fn count<N: BoardName>(alloc: Global, seat: &mut GlassSeat<N>, interface: u32) -> Option<usize> {
    let router = Name::new(alloc, b"rs1").ok()?;
    match held(alloc, seat, &router, interface).ok()? {
        Some(routes) => Some(routes.get().len()),
        None => Some(0),
    }
}

/// How many routes the second seat sees after holds of the first one, and the first one after a hold of the
/// second one: of one session in turn 0, 2, 1 and none, while another one holds 1.
fn seen<R: Wait, N: BoardName, D: GlassDesks<N>>(
    rt: &R,
    alloc: Global,
    desk: &mut D,
    first: &mut GlassSeat<N>,
    second: &mut GlassSeat<N>,
) -> Option<[usize; 5]> {
    let nothing = count(alloc, second, 1)?;
    hold(rt, alloc, desk, first, 1, &[ONE, ONE]).ok()?;
    hold(rt, alloc, desk, first, 2, &[ONE]).ok()?;
    let both = count(alloc, second, 1)?;
    hold(rt, alloc, desk, second, 1, &[ONE]).ok()?;
    let one = count(alloc, first, 1)?;
    hold(rt, alloc, desk, first, 1, &[]).ok()?;
    Some([
        nothing,
        both,
        one,
        count(alloc, second, 1)?,
        count(alloc, second, 2)?,
    ])
}

fn seen_by_two<R: Wait, N: BoardName, W: Publish<Note<HoldStory, N>>>(
    rt: &R,
    alloc: Global,
    desk: &GlassDesk<N, W>,
    seats: &mut [GlassSeat<N>],
) -> Option<[usize; 5]>
    requires { length seats.old ≡ 2 }
{
    let mut desk = desk;
    let (first, second) = seats.split_at_mut(1);
    seen(rt, alloc, &mut desk, &mut first[0], &mut second[0])
}

fn seen_on_a_board<R: Wait, N: BoardName>(rt: &R, alloc: Global, holds: Holds) -> Option<[usize; 5]>
    requires name { holds.0 ≡ N.book }
    requires seats { holds.2 ≡ 2 }
{
    let Ok((desk, mut seats)) = holds.share::<N>() else {
        return None;
    };
    seen_by_two(rt, alloc, &desk, seats.as_mut_slice())
}

#[test]
fn two_seats_see_what_is_held(rt: HostRuntime) -> Result<(), Fail> {
    let holds = open_glass(rt.alloc(), 2)?;
    let seen = seen_on_a_board::<_, Brand>(&rt, rt.alloc(), holds);
    assert!(rt; seen == Some([0, 2, 1, 0, 1]));
    Ok(())
}

/// Whether 16 sessions may hold a route, a 17th may not until one of them holds nothing any more, and each of
/// the 16 may hold others.
fn holds_sixteen<R: Wait, N: BoardName, D: GlassDesks<N>>(
    rt: &R,
    alloc: Global,
    desk: &mut D,
    seat: &mut GlassSeat<N>,
) -> bool {
    for interface in 1..17 {
        if hold(rt, alloc, desk, seat, interface, &[ONE]).is_err() {
            return false;
        }
    }
    let over = hold(rt, alloc, desk, seat, 17, &[ONE, OTHER]);
    let empty = hold(rt, alloc, desk, seat, 17, &[]);
    let again = hold(rt, alloc, desk, seat, 16, &[ONE, ONE]);
    let dropped = hold(rt, alloc, desk, seat, 3, &[]);
    let now = hold(rt, alloc, desk, seat, 17, &[ONE]);
    matches!(
        over,
        Err(HoldFault::TooMany {
            have: 17,
            limit: 16
        })
    ) && empty.is_ok()
        && again.is_ok()
        && dropped.is_ok()
        && now.is_ok()
}

/// Whether 1,000 routes may be held and 1,001 may not, and the first route of the other family is told.
fn refuses<R: Wait, N: BoardName, D: GlassDesks<N>>(
    rt: &R,
    alloc: Global,
    desk: &mut D,
    seat: &mut GlassSeat<N>,
) -> bool {
    let most = hold_many(rt, alloc, desk, seat, 1, 1000);
    let more = hold_many(rt, alloc, desk, seat, 1, 1001);
    let first = hold(rt, alloc, desk, seat, 1, &[OTHER, ONE]);
    let third = hold(rt, alloc, desk, seat, 1, &[ONE, ONE, OTHER, OTHER]);
    most.is_ok()
        && matches!(
            more,
            Err(HoldFault::TooMany {
                have: 1001,
                limit: 1000
            })
        )
        && matches!(first, Err(HoldFault::Family { place: 1 }))
        && matches!(third, Err(HoldFault::Family { place: 3 }))
        && count(alloc, seat, 1) == Some(1000)
}

fn refuses_on_a_board<R: Wait, N: BoardName>(rt: &R, alloc: Global, holds: Holds) -> bool
    requires { holds.0 ≡ N.book }
{
    let Ok((mut pen, mut seats)) = holds.alone::<N>() else {
        return false;
    };
    let [seat] = seats.as_mut_slice() else {
        return false;
    };
    refuses(rt, alloc, &mut pen, seat)
}

#[test]
fn too_many_routes_and_other_families_are_refused(rt: HostRuntime) -> Result<(), Fail> {
    let holds = open_glass(rt.alloc(), 1)?;
    assert!(rt; refuses_on_a_board::<_, Brand>(&rt, rt.alloc(), holds));
    Ok(())
}

fn sixteen_on_a_board<R: Wait, N: BoardName>(rt: &R, alloc: Global, holds: Holds) -> bool
    requires { holds.0 ≡ N.book }
{
    let Ok((mut pen, mut seats)) = holds.alone::<N>() else {
        return false;
    };
    let [seat] = seats.as_mut_slice() else {
        return false;
    };
    holds_sixteen(rt, alloc, &mut pen, seat)
}

#[test]
fn a_seventeenth_session_is_refused(rt: HostRuntime) -> Result<(), Fail> {
    let holds = open_glass(rt.alloc(), 1)?;
    assert!(rt; sixteen_on_a_board::<_, Brand>(&rt, rt.alloc(), holds));
    Ok(())
}
