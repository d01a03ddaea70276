//! Texts of route servers that follow edits: what each kind of edits touches, and that with it made anew they
//! are those of full generation.
ghost use Rattle.std.specs.Prelude.{◌<◌};
ghost use Rattle.ixp_registry.specs.Valid.{Valid};
ghost use Rattle.ixp_machine_steps.specs.States.{ValidState};

use crate::changes::Change;
use crate::lists::Listed;
use crate::samples::{LINES, Plays, STAFF, is_wanted, told};
use crate::sending::{Sent, change_of, put_request};
use ixp_build::{Bundle, InstallFault, Made, Pending, make, orders_have_bounds};
use ixp_build_touches::{Touch, reached_by, touched};
use ixp_compile_laws::text_of;
use ixp_machine_steps::State;
use ixp_num::{Asn, Family, Name, Prefix, Roa};
use ixp_num_tables::{Copied, put, put_number};
use ixp_registry::{Action, Registry, Status, Way};
use ixp_registry_change::RegistryChange;
use ixp_roa::{RoaTable, validity};
use std::alloc::{AllocError, Global};
use std::process::Abort;
use std::test::Fail;

fn put_key(key: &(Name, u32), out: &mut Vec<u8>) -> Result<(), AllocError> {
    put(out, b"part ")?;
    put(out, key.0.as_bytes())?;
    put(out, b" ")?;
    put_number(out, u64::from(key.1))?;
    put(out, b"\n")
}

fn put_handle(handle: &Name, out: &mut Vec<u8>) -> Result<(), AllocError> {
    put(out, b"head ")?;
    put(out, handle.as_bytes())?;
    put(out, b"\n")
}

fn put_touch(touch: &Touch, out: &mut Vec<u8>) -> Result<(), AllocError> {
    'heads: for handle in touch.headers.as_slice() {
        put_handle(handle, out)?;
    }
    'parts: for key in touch.sessions.as_slice() {
        put_key(key, out)?;
    }
    if touch.roas {
        put(out, b"roas\n")?;
    }
    Ok(())
}

/// Whether the bundle gives the router's text as full generation does.
fn is_router_full(
    alloc: Global,
    bundle: &Bundle,
    registry: &Registry,
    handle: &Name,
) -> Result<bool, AllocError>
    requires { Valid registry.now }
{
    let Some(made) = bundle.text(alloc, handle)? else {
        return Ok(false);
    };
    let Some(full) = text_of(alloc, registry, handle)? else {
        return Ok(false);
    };
    Ok(made.as_slice() == full.as_slice())
}

/// The table says of the routes to 203.0.113.0/24, from the origin of the sample's ROA and from another one,
/// what the ROAs say.
fn asks_all(table: &RoaTable, roas: &[Roa]) -> bool {
    let Some(net) = Prefix::new(Family::V4, 3_405_803_776, 24) else {
        return false;
    };
    [Asn(65001), Asn(65002)].iter().all(|asn| table.validity(&net, *asn)
        == validity(roas, &net, *asn))
}

fn is_full(alloc: Global, bundle: &Bundle, registry: &Registry) -> Result<bool, AllocError>
    requires { Valid registry.now }
{
    'routers: for router in registry.routers.as_slice() {
        if !is_router_full(alloc, bundle, registry, &router.handle)? {
            return Ok(false);
        }
    }
    Ok(asks_all(bundle.roas(), registry.public.roas.as_slice()))
}

fn put_full(bundle: &Bundle, registry: &Registry, out: &mut Vec<u8>) -> Result<(), AllocError>
    requires { Valid registry.now }
{
    let alloc = *out.allocator();
    put(
        out,
        if is_full(alloc, bundle, registry)? {
            b"full "
        } else {
            b"other"
        },
    )?;
    put_number(out, bundle.made())?;
    put(out, b"\n")
}

/// Adds how an installation ends.
fn put_installed(bundle: &mut Bundle, made: Made, out: &mut Vec<u8>) -> Result<(), AllocError> {
    match bundle.install(*out.allocator(), made) {
        Ok(()) => put(out, b"installed\n"),
        Err(InstallFault::NoMemory) => Err(AllocError),
        Err(InstallFault::Stale { current, asked }) => {
            put(out, b"stale ")?;
            put_number(out, current)?;
            put(out, b" ")?;
            put_number(out, asked)?;
            put(out, b"\n")
        }
    }
}

fn made_of(alloc: Global, bundle: &Bundle, state: &State, touch: &Touch) -> Result<Made, AllocError>
    requires { Valid state.now.registry }
{
    orders_have_bounds();
    let taken = bundle.order(alloc, &state.registry, state.accepted, touch)?;
    make(alloc, taken)
}

/// Installs what was touched in a share of the bundle, twice, and compares its texts and those of the bundle
/// with full generation.
fn put_rebuilt(
    bundle: &Bundle,
    state: &State,
    touch: &Touch,
    out: &mut Vec<u8>,
) -> Result<(), AllocError>
    requires { Valid state.now.registry }
{
    let alloc = *out.allocator();
    let mut share = bundle.share(alloc)?;
    let made = made_of(alloc, bundle, state, touch)?;
    let late = made_of(alloc, bundle, state, touch)?;
    put_installed(&mut share, made, out)?;
    put_full(&share, &state.registry, out)?;
    put_installed(&mut share, late, out)
}

/// Sends a request, and adds its decision as a line.
fn put_line(state: &mut State, sent: Sent, out: &mut Vec<u8>) -> Result<(), AllocError>
    requires { ValidState state.old }
    ensures { ValidState state.new }
{
    put_request(state, sent, out)?;
    put(out, b"\n")
}

/// Sends a request, and gives the change that it made.
fn requested(
    state: &mut State,
    sent: Sent,
    out: &mut Vec<u8>,
) -> Result<Option<RegistryChange>, AllocError>
    requires { ValidState state.old }
    ensures { ValidState state.new }
{
    let change = change_of(*out.allocator(), state, sent)?;
    match put_line(state, sent, out) {
        Ok(()) => Ok(change),
        Err(e) => Err(e),
    }
}

fn touch_of(
    alloc: Global,
    before: &Registry,
    after: &Registry,
    change: RegistryChange,
) -> Result<Touch, AllocError> {
    touched(alloc, before, after, &change)
}

/// What the staff's edit touches, and what becomes of the texts.
/// What the staff's edit touches, and what becomes of the texts.
#[derive(Clone, Copy)]
struct Built(Change);

impl Plays for Built {
    fn play(&self, state: &mut State, out: &mut Vec<u8>) -> Result<(), AllocError> {
        let alloc = *out.allocator();
        let bundle = Bundle::open(alloc, &state.registry, state.accepted)?;
        let before = state.registry.copied(alloc)?;
        let Some(change) = requested(state, (STAFF, 1, self.0), out)? else {
            return put(out, b"no change");
        };
        let touch = touch_of(alloc, &before, &state.registry, change)?;
        put_touch(&touch, out)?;
        put_rebuilt(&bundle, state, &touch, out)
    }
}

/// An edit, what it touches, and how many texts are made anew.
type Case = (Change, &'static str, &'static str);

const OF_MEMBERS: &[Case] = &[
    (Change::AddMember(5, 65010, "E"), "", "0"),
    (Change::RenameMember(1, "Ann"), "", "0"),
    (
        Change::MoveStatus(1, Status::Suspended),
        "part rs1 1\npart rs2 1\n",
        "2",
    ),
    (Change::MoveStatus(3, Status::Connected), "", "0"),
    (
        Change::SetRules(1, Some((Way::Advertise, None, "*", Action::AsIs)), None),
        "part rs1 1\npart rs2 1\n",
        "2",
    ),
    (
        Change::PutIrr(1, Family::V4, "192.0.2.0/24"),
        "part rs1 1\npart rs2 1\n",
        "2",
    ),
    (Change::PutIrr(1, Family::V6, "2001:db8::/32"), "", "0"),
    (
        Change::PutOrigins(2, Family::V4, "65002"),
        "part rs1 2\npart rs2 2\n",
        "2",
    ),
];

const OF_INTERFACES: &[Case] = &[
    (
        Change::AddInterface(4, 1, 1, 1),
        "part rs1 1\npart rs2 1\n",
        "2",
    ),
    (
        Change::SetAddress(2, Family::V4, "10.1.0.7", ""),
        "part rs1 2\npart rs2 2\n",
        "2",
    ),
    (Change::DropInterface(2), "part rs1 2\npart rs2 2\n", "2"),
];

const OF_ROUTERS: &[Case] = &[
    (
        Change::AddRouter("rs9", 1, Family::V4, "10.1.0.252", (65500, 8, 24, "-", 0)),
        "head rs9\npart rs9 1\npart rs9 2\n",
        "3",
    ),
    (
        Change::SetRouter("rs1", (65501, 8, 24, "-", 0)),
        "head rs1\npart rs1 1\npart rs1 2\n",
        "3",
    ),
    (Change::DropRouter("rs3"), "head rs3\n", "1"),
    (
        Change::PutPublic(Listed::Bogons, ""),
        "head rs1\nhead rs2\nhead rs3\n",
        "3",
    ),
    (
        Change::PutPublic(Listed::Transit, "65001"),
        "head rs1\nhead rs2\nhead rs3\npart rs1 1\npart rs2 1\npart rs1 2\npart rs2 2\n",
        "7",
    ),
    (Change::PutPublic(Listed::Roas, ""), "roas\n", "0"),
];

fn wanted(alloc: Global, touched: &str, made: &str) -> Result<Vec<u8>, AllocError> {
    let mut text = Vec::from_slice(alloc, b"ok\n")?;
    put(&mut text, touched.as_bytes())?;
    put(&mut text, b"installed\nfull ")?;
    put(&mut text, made.as_bytes())?;
    put(&mut text, b"\nstale 1 0\n")?;
    Ok(text)
}

fn each_is_built(rt: &impl Abort, alloc: Global, cases: &[Case]) -> Result<(), Fail> {
    for &(change, touched, made) in cases {
        let want = wanted(alloc, touched, made)?;
        let have = told(alloc, LINES.as_bytes(), &Built(change));
        is_wanted(rt, have, want.as_slice(), touched);
    }
    Ok(())
}

#[test]
fn texts_follow_edits(rt: HostRuntime) -> Result<(), Fail> {
    each_is_built(&rt, rt.alloc(), OF_MEMBERS)?;
    each_is_built(&rt, rt.alloc(), OF_INTERFACES)?;
    each_is_built(&rt, rt.alloc(), OF_ROUTERS)
}

/// Two edits of the staff, one after the other: what is pending after both, and after texts of the version
/// between them are installed.
#[derive(Clone, Copy)]
struct Pended(Change, Change);

/// Makes the staff's edit, and adds what it reached before and after.
fn pend(
    state: &mut State,
    pending: &mut Pending,
    number: u64,
    change: Change,
    out: &mut Vec<u8>,
) -> Result<(), AllocError>
    requires valid { ValidState state.old }
    requires some { 0 < number }
    ensures { ValidState state.new }
{
    let alloc = *out.allocator();
    let Some(made) = change_of(alloc, state, (STAFF, number, change))? else {
        return put(out, b"no change");
    };
    let reached = reached_by(alloc, &state.registry, &made)?;
    put_request(state, (STAFF, number, change), out)?;
    put(out, b"\n")?;
    let touch = reached.touch_after(alloc, &state.registry)?;
    pending.note(alloc, &touch, number)
}

impl Plays for Pended {
    fn play(&self, state: &mut State, out: &mut Vec<u8>) -> Result<(), AllocError> {
        let alloc = *out.allocator();
        let mut pending = Pending::new(alloc);
        pend(state, &mut pending, 1, self.0, out)?;
        pend(state, &mut pending, 2, self.1, out)?;
        put_touch(&pending.listed(alloc)?, out)?;
        put(out, b"later\n")?;
        pending.settle(alloc, 1);
        put_touch(&pending.listed(alloc)?, out)
    }
}

/// Two edits, and what is told of them.
const PENDED: &[(Change, Change, &str)] = &[
    (
        Change::SetRules(1, Some((Way::Advertise, None, "*", Action::AsIs)), None),
        Change::PutOrigins(2, Family::V4, "65002"),
        "ok\nok\npart rs1 1\npart rs1 2\npart rs2 1\npart rs2 2\nlater\npart rs1 2\npart rs2 2\n",
    ),
    (
        Change::PutPublic(Listed::Roas, ""),
        Change::SetRouter("rs1", (65501, 8, 24, "-", 0)),
        "ok\nok\nhead rs1\npart rs1 1\npart rs1 2\nroas\nlater\nhead rs1\npart rs1 1\npart rs1 2\n",
    ),
    (
        Change::AddRouter("rs9", 1, Family::V4, "10.1.0.252", (65500, 8, 24, "-", 0)),
        Change::SetRules(1, Some((Way::Advertise, None, "*", Action::AsIs)), None),
        "ok\nok\nhead rs9\npart rs1 1\npart rs2 1\npart rs9 1\npart rs9 2\nlater\npart rs1 1\npart rs2 1\npart rs9 1\n",
    ),
    (
        Change::MoveStatus(1, Status::Suspended),
        Change::MoveStatus(1, Status::Connected),
        "ok\nok\npart rs1 1\npart rs2 1\nlater\npart rs1 1\npart rs2 1\n",
    ),
    (
        Change::PutPublic(Listed::Bogons, ""),
        Change::DropRouter("rs3"),
        "ok\nok\nhead rs1\nhead rs2\nhead rs3\nlater\nhead rs3\n",
    ),
];

#[test]
fn pending_texts_have_counts(rt: HostRuntime) -> Result<(), Fail> {
    for &(first, second, wanted) in PENDED {
        let have = told(rt.alloc(), LINES.as_bytes(), &Pended(first, second));
        is_wanted(&rt, have, wanted.as_bytes(), wanted);
    }
    Ok(())
}

/// Builds where values that a worker and a reader share are lent to both.
#[derive(Clone, Copy)]
struct Lent;

/// What may be lent to another thread, and be given to it.
fn is_shared<T: Send + Sync>(_it: &T) {}

impl Plays for Lent {
    fn play(&self, state: &mut State, out: &mut Vec<u8>) -> Result<(), AllocError> {
        let alloc = *out.allocator();
        let bundle = Bundle::open(alloc, &state.registry, state.accepted)?;
        let pending = Pending::new(alloc);
        let touch = pending.listed(alloc)?;
        let order = bundle.order(alloc, &state.registry, state.accepted, &touch)?;
        is_shared(state);
        is_shared(&bundle);
        is_shared(&pending);
        is_shared(&order);
        let made = made_of(alloc, &bundle, state, &touch)?;
        is_shared(&made);
        put(out, b"lent")
    }
}

#[test]
fn states_and_builds_may_go_to_other_threads(rt: HostRuntime) -> Result<(), Fail> {
    let have = told(rt.alloc(), LINES.as_bytes(), &Lent);
    is_wanted(&rt, have, b"lent", "lent");
    Ok(())
}
