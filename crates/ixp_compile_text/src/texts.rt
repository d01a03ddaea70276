//! The texts of a route server.
ghost use Rattle.std.specs.Prelude.{◌≡◌, ◌++◌, ◌<◌, ◌^◌, List, IfOk, OnOk, Some, is_some};
ghost use Rattle.ixp_print.specs.Texts.{config_text};
ghost use Rattle.ixp_pfxset.specs.BlockList.{blocks};
ghost use Rattle.ixp_num.specs.declared.pattern.Pattern.{Pattern};
ghost use Rattle.ixp_registry.specs.declared.router.Router.{Router};
ghost use Rattle.ixp_compile.specs.Fragment.{fragment};
ghost use Rattle.ixp_compile.specs.Header.{header};
ghost use Rattle.ixp_compile.specs.Generated.{
  allowed_set,
  covered_set,
  footer,
  generated,
  header_inputs,
  mode_of,
  own_part,
  session_part,
};
ghost use Rattle.ixp_compile_text.specs.Addresses.{AreInVlan};
ghost use Rattle.ixp_compile_text.specs.Answers.{Prints, generated_at, header_at, part_at, router_at};
ghost use Rattle.ixp_compile_pieces.specs.Made.{items_view};
ghost use Rattle.ixp_compile_text.specs.Sessions.{part_text, sessions_text};
ghost use Rattle.ixp_policy.specs.Views.{session_of};
ghost use Rattle.ixp_registry.specs.Sessions.{session_at};

use crate::addresses::{MemberAddresses, addresses_of_member};
use crate::fault::GenFault;
use crate::values::{header_inputs_of, inputs_in_rows};
use ixp_compile::{HeaderInputs, Inputs};
use ixp_compile_head::add_header;
use ixp_compile_sessions::{InputsRef, add_fragment};
use ixp_lang::{Config, Item};
use ixp_num::{Items, Name, Pattern, Prefix};
use ixp_pfxset::{Mode, blocks_trie};
use ixp_policy::{SessionRows, session, session_at};
use ixp_print::print_config;
use ixp_registry::{Interface, Registry, Router};
use std::alloc::{AllocError, Global};

// Merged sets.

fn mode_of(more: bool) -> Mode
    ensures { result ≡ mode_of more }
{
    if more { Mode::More } else { Mode::Exact }
}

fn merged(
    alloc: Global,
    prefixes: &[Prefix],
    mode: Mode,
    high: u8,
) -> Result<Items<Pattern>, AllocError>
    ensures { IfOk result (λ it. it ≡ blocks prefixes.now mode high) }
{
    let patterns = blocks_trie(alloc, prefixes, mode, high)?;
    Ok(Items::from_vec(patterns))
}

/// The nets that the prefixes of the session's member allow.
fn allowed_set(alloc: Global, i: &InputsRef) -> Result<Items<Pattern>, AllocError>
    requires { i.now.high < 2 ^ 8 }
    ensures { IfOk result (λ it. it ≡ allowed_set i.now) }
{
    let mode = mode_of(i.address.more);
    merged(alloc, i.prefixes, mode, i.high as u8)
}

/// The nets that they cover. Where the router has no next hop of routes to be dropped, no part asks for them,
/// and there are none.
fn asked_set(alloc: Global, i: &InputsRef) -> Result<Items<Pattern>, AllocError>
    ensures { IfOk result
        (λ it. (irr : List Pattern) → fragment i.now irr it ≡ fragment i.now irr (covered_set i.now)) }
{
    if i.blackhole.is_none() {
        return Ok(Items::new(alloc));
    }
    merged(alloc, i.prefixes, Mode::More, i.family.bits())
}

// Parts of a text.

/// Adds the text of items.
fn put_items(alloc: Global, out: &mut Vec<u8>, items: Vec<Item>) -> Result<(), AllocError>
    ensures { OnOk result (out.new.items ≡ out.old.items ++ config_text (items_view items.items)) }
{
    let config = Config { items };
    print_config(alloc, &config, out)?;
    Ok(())
}

fn put_header(alloc: Global, out: &mut Vec<u8>, h: &HeaderInputs) -> Result<(), AllocError>
    ensures { OnOk result (out.new.items ≡ out.old.items ++ config_text (header h.now)) }
{
    let mut items = Vec::new(alloc);
    add_header(alloc, &mut items, h)?;
    put_items(alloc, out, items)
}

/// Adds the text of a session's part.
fn put_fragment(alloc: Global, out: &mut Vec<u8>, i: &InputsRef) -> Result<(), AllocError>
    requires { i.now.high < 2 ^ 8 }
    ensures { OnOk result (out.new.items ≡ out.old.items ++ config_text (session_part i.now)) }
{
    let irr = allowed_set(alloc, i)?;
    let blackholes = asked_set(alloc, i)?;
    let mut items = Vec::new(alloc);
    add_fragment(alloc, &mut items, i, irr, blackholes)?;
    put_items(alloc, out, items)
}

fn put_footer(alloc: Global, out: &mut Vec<u8>) -> Result<(), AllocError>
    ensures { OnOk result (out.new.items ≡ out.old.items ++ config_text footer) }
{
    let mut items = Vec::new(alloc);
    items.push(Item::Device { name: None })?;
    put_items(alloc, out, items)
}

/// The text of the head of a router's text.
pub fn header_of(alloc: Global, h: &HeaderInputs) -> Result<Vec<u8>, AllocError>
    ensures { IfOk result (λ v. v.items ≡ config_text (header h.now)) }
{
    let mut out = Vec::new(alloc);
    put_header(alloc, &mut out, h)?;
    Ok(out)
}

/// The text of a session's part. The router's greatest length of a net is that of an address at most, as in
/// each valid registry.
pub fn fragment(alloc: Global, i: &Inputs) -> Result<Vec<u8>, AllocError>
    requires { i.now.high < 2 ^ 8 }
    ensures { IfOk result (λ v. v.items ≡ config_text (session_part i.now)) }
{
    let mut out = Vec::new(alloc);
    put_fragment(alloc, &mut out, &InputsRef::of(i))?;
    Ok(out)
}

/// The text of what ends each router's text.
pub fn footer(alloc: Global) -> Result<Vec<u8>, AllocError>
    ensures { IfOk result (λ v. v.items ≡ config_text footer) }
{
    let mut out = Vec::new(alloc);
    put_footer(alloc, &mut out)?;
    Ok(out)
}

// Whole texts.

/// Adds the part of the interface's session with the router, where it has one, and says whether it has.
#[tactic(auto, unfolding(crate::specs::Sessions::part_text))]
pub(crate) fn put_session(
    alloc: Global,
    out: &mut Vec<u8>,
    registry: &Registry,
    router: &Router,
    addresses: &MemberAddresses,
    interface: &Interface,
) -> Result<bool, AllocError>
    requires bound { router.now.high < 2 ^ 8 }
    requires addresses { AreInVlan registry.now router.now addresses.now }
    ensures part { OnOk result
        (out.new.items ≡ out.old.items ++ part_text registry.now router.now interface.now) }
    ensures session { IfOk result (λ b. b ≡ is_some (session_at registry.now router.now interface.now)) }
{
    let Some(session) = session_at(registry, router, interface) else {
        return Ok(false);
    };
    let own = addresses.of(alloc, session.interface.member)?;
    let i = inputs_in_rows(registry, router, &session, own.as_slice());
    put_fragment(alloc, out, &i)?;
    Ok(true)
}

/// Adds the parts of the router's sessions.
fn put_sessions(
    alloc: Global,
    out: &mut Vec<u8>,
    registry: &Registry,
    router: &Router,
) -> Result<(), AllocError>
    requires { router.now.high < 2 ^ 8 }
    ensures { OnOk result
        (out.new.items ≡ out.old.items ++ sessions_text registry.now router.now registry.now.interfaces) }
{
    let mut left = registry.interfaces.as_slice();
    let addresses = MemberAddresses::in_vlan(alloc, left, router.family, router.vlan)?;
    'each: while let Some((interface, others)) = left.split_first() {
        let _ = put_session(alloc, out, registry, router, &addresses, interface)?;
        left = others;
    }
    Ok(())
}

/// The router's text.
#[tactic(auto, using(crate::proofs::SessionTexts::whole_text))]
fn whole(alloc: Global, registry: &Registry, router: &Router) -> Result<Vec<u8>, AllocError>
    requires { router.now.high < 2 ^ 8 }
    ensures { IfOk result (λ v. v.items ≡ config_text (generated registry.now router.now)) }
{
    let h = header_inputs_of(alloc, registry, router)?;
    let mut out = Vec::new(alloc);
    put_header(alloc, &mut out, &h)?;
    put_sessions(alloc, &mut out, registry, router)?;
    put_footer(alloc, &mut out)?;
    Ok(out)
}

/// The session's own text.
fn own(
    alloc: Global,
    registry: &Registry,
    router: &Router,
    session: SessionRows<'_>,
) -> Result<Vec<u8>, AllocError>
    requires { router.now.high < 2 ^ 8 }
    ensures { IfOk result
        (λ v. v.items ≡ config_text (own_part registry.now router.now (session_of session.entry))) }
{
    let h = header_inputs_of(alloc, registry, router)?;
    let interfaces = registry.interfaces.as_slice();
    let member = session.interface.member;
    let vlan = session.interface.vlan;
    let addresses = addresses_of_member(alloc, interfaces, router.family, vlan, member)?;
    let i = inputs_in_rows(registry, router, &session, addresses.as_slice());
    let mut out = Vec::new(alloc);
    put_header(alloc, &mut out, &h)?;
    put_fragment(alloc, &mut out, &i)?;
    put_footer(alloc, &mut out)?;
    Ok(out)
}

fn head(alloc: Global, registry: &Registry, router: &Router) -> Result<Vec<u8>, AllocError>
    ensures { IfOk result (λ v. v.items ≡ config_text (header (header_inputs registry.now router.now))) }
{
    let h = header_inputs_of(alloc, registry, router)?;
    header_of(alloc, &h)
}

/// The head of the text of the router with the handle.
pub fn header(alloc: Global, registry: &Registry, router: &Name) -> Result<Vec<u8>, GenFault>
    ensures { Prints (header_at registry.now router.now) result }
{
    let Some(router) = registry.routers.find(router) else {
        return Err(GenFault::NoRouter);
    };
    Ok(head(alloc, registry, router)?)
}

/// The text of the router with the handle: the head, a part for each session in the order of their
/// interfaces' numbers, and the foot. The router's greatest length of a net is that of an address at most, as
/// in each valid registry.
pub fn generate(alloc: Global, registry: &Registry, router: &Name) -> Result<Vec<u8>, GenFault>
    requires { (q : Router) → router_at registry.now router.now ≡ Some q → q.high < 2 ^ 8 }
    ensures { Prints (generated_at registry.now router.now) result }
{
    let Some(router) = registry.routers.find(router) else {
        return Err(GenFault::NoRouter);
    };
    Ok(whole(alloc, registry, router)?)
}

/// The own text of the router's session at the interface: the head, its part and the foot.
pub fn part(
    alloc: Global,
    registry: &Registry,
    router: &Name,
    interface: u32,
) -> Result<Vec<u8>, GenFault>
    requires { (q : Router) → router_at registry.now router.now ≡ Some q → q.high < 2 ^ 8 }
    ensures { Prints (part_at registry.now router.now interface) result }
{
    let Some(router) = registry.routers.find(router) else {
        return Err(GenFault::NoRouter);
    };
    let Some(session) = session(registry, router, interface) else {
        return Err(GenFault::NoSession);
    };
    Ok(own(alloc, registry, router, session)?)
}
