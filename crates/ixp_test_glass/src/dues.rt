//! Whose reports are made anew.
ghost use Rattle.std.specs.Prelude.{◌≡◌};

use crate::reports::no_roas;
use crate::routes::routes_of;
use ixp_glass::{Glass, GlassRoas};
use ixp_lang::Route;
use ixp_num::{Items, Name};
use ixp_num_tables::Held;
use std::alloc::{AllocError, Global};
use std::test::Fail;

const ROUTES: &[&str] = &["203.0.113.0/24 65001 10.1.0.1 - -"];

/// A text with the sessions 1 and 2, written by hand.
const TEXT: &str = "router id 10.1.0.254;
ipv4 table master4;
filter up_1 { accept; }
filter up_2 { accept; }
ipv4 table t_1;
filter in_1 { accept; }
protocol pipe pp_1 { table master4; peer table t_1; import all; export all; }
protocol bgp b_1 { local as 65500; neighbor 10.1.0.1 as 65001; ipv4 { table t_1; import filter in_1; export all; }; }
ipv4 table t_2;
filter in_2 { accept; }
protocol pipe pp_2 { table master4; peer table t_2; import all; export all; }
protocol bgp b_2 { local as 65500; neighbor 10.1.0.2 as 65002; ipv4 { table t_2; import filter in_2; export all; }; }
";

/// The same, in which the first session's filter was altered.
const ALTERED: &str = "router id 10.1.0.254;
ipv4 table master4;
filter up_1 { accept; }
ipv4 table t_1;
filter in_1 { reject; }
protocol pipe pp_1 { table master4; peer table t_1; import all; export all; }
protocol bgp b_1 { local as 65500; neighbor 10.1.0.1 as 65001; ipv4 { table t_1; import filter in_1; export all; }; }
";

/// What is asked of a glass: the routes of a session of a router.
#[derive(Clone, Copy)]
struct Session<'a> {
    router: &'a Name,
    interface: u32,
    routes: &'a Held<Items<Route>>,
    roas: &'a GlassRoas,
}

fn is_due(glass: &Glass, session: &Session<'_>, text: &str) -> bool {
    glass.due(
        session.router,
        session.interface,
        session.routes.get().as_slice(),
        text.as_bytes(),
        session.roas,
    )
}

/// Whether the glass shows so many reports.
fn shows(glass: &mut Glass, session: &Session<'_>, text: &str, count: usize) -> bool {
    match glass.show(
        session.router,
        session.interface,
        session.routes,
        text.as_bytes(),
        session.roas,
    ) {
        Ok(reports) => reports.get().len() == count,
        Err(_) => false,
    }
}

/// Which of two sessions are due: before their reports are made, afterwards, once the first one's text was
/// altered, and once its reports were made by that.
fn dues(glass: &mut Glass, first: &Session<'_>, second: &Session<'_>) -> [(bool, bool); 4] {
    let before = (is_due(glass, first, TEXT), is_due(glass, second, TEXT));
    let made = shows(glass, first, TEXT, 1) && shows(glass, second, TEXT, 1);
    let after = (
        !made || is_due(glass, first, TEXT),
        !made || is_due(glass, second, TEXT),
    );
    let altered = (is_due(glass, first, ALTERED), is_due(glass, second, TEXT));
    let anew = shows(glass, first, ALTERED, 1);
    let then = (
        !anew || is_due(glass, first, ALTERED),
        !anew || is_due(glass, second, TEXT),
    );
    [before, after, altered, then]
}

fn dues_of_two(alloc: Global) -> Result<[(bool, bool); 4], AllocError> {
    let router = Name::new(alloc, b"rs1")?;
    let routes = Held::new(alloc, routes_of(alloc, ROUTES)?)?;
    let roas = no_roas(alloc)?;
    let first = Session {
        router: &router,
        interface: 1,
        routes: &routes,
        roas: &roas,
    };
    let second = Session {
        router: &router,
        interface: 2,
        routes: &routes,
        roas: &roas,
    };
    let mut glass = Glass::open(alloc);
    Ok(dues(&mut glass, &first, &second))
}

#[test]
fn the_altered_session_alone_is_due(rt: HostRuntime) -> Result<(), Fail> {
    let dues = dues_of_two(rt.alloc())?;
    assert!(rt; dues == [(true, true), (false, false), (true, false), (false, false)]);
    Ok(())
}

const HANDLES: &[&[u8]] = &[
    b"r00", b"r01", b"r02", b"r03", b"r04", b"r05", b"r06", b"r07", b"r08", b"r09", b"r10", b"r11",
    b"r12", b"r13", b"r14", b"r15", b"r16",
];

/// Shows the first session of the router with the handle, and tells whether it was due.
fn shown_due(
    alloc: Global,
    glass: &mut Glass,
    handle: &[u8],
    routes: &Held<Items<Route>>,
    roas: &GlassRoas,
) -> Option<bool> {
    if !Name::is_name(handle) {
        return None;
    }
    let router = Name::new(alloc, handle).ok()?;
    let session = Session {
        router: &router,
        interface: 1,
        routes,
        roas,
    };
    let due = is_due(glass, &session, TEXT);
    shows(glass, &session, TEXT, 1).then_some(due)
}

/// How many of the sessions of 17 routers are due, shown one after the other, then those of the last 16, and
/// then that of the first.
fn due_counts(alloc: Global) -> Option<[u32; 3]> {
    let routes = Held::new(alloc, routes_of(alloc, ROUTES).ok()?).ok()?;
    let roas = no_roas(alloc).ok()?;
    let mut glass = Glass::open(alloc);
    Some([
        count_due(alloc, &mut glass, HANDLES, &routes, &roas)?,
        count_due(alloc, &mut glass, &HANDLES[1..], &routes, &roas)?,
        count_due(alloc, &mut glass, &HANDLES[..1], &routes, &roas)?,
    ])
}

fn count_due(
    alloc: Global,
    glass: &mut Glass,
    handles: &[&[u8]],
    routes: &Held<Items<Route>>,
    roas: &GlassRoas,
) -> Option<u32> {
    let mut count = 0u32;
    for handle in handles {
        if shown_due(alloc, glass, handle, routes, roas)? {
            count = count.saturating_add(1);
        }
    }
    Some(count)
}

#[test]
fn the_reports_that_were_made_longest_ago_go(rt: HostRuntime) {
    assert!(rt; due_counts(rt.alloc()) == Some([17, 0, 1]));
}
