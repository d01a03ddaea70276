//! A session's part of a route server's text.
ghost use Rattle.std.specs.Prelude.{◌≡◌, ◌++◌, ◌∷◌, List, [], codes, IfOk, OnOk};
ghost use Rattle.ixp_lang.specs.Trees.{
  attribute,
  call,
  named,
  set_literal,
  negation,
  exprs,
  if_then,
  accept,
  reject,
  call_statement,
  delete_triples,
  stmts,
  table_item,
  function_item,
  filter_item,
};
ghost use Rattle.ixp_lang.specs.Views.{expr_view, stmt_view, stmts_view};
ghost use Rattle.ixp_lang.specs.declared.expr.Attr.TheVariants as attr;
ghost use Rattle.ixp_lang.specs.declared.expr.Op.TheVariants as op;
ghost use Rattle.ixp_lang.specs.declared.value.SetLit.TheVariants as set;
ghost use Rattle.ixp_num.specs.declared.pattern.Pattern.{Pattern};
ghost use Rattle.ixp_num.specs.declared.roa.Validity.TheVariants.{Valid};
ghost use Rattle.ixp_compile.specs.Pieces.{int, all_large, compared, drop_with, tell, run, when, table_kind};
ghost use Rattle.ixp_compile.specs.MemberRules.{receive_body};
ghost use Rattle.ixp_compile.specs.Fragment.{
  bgp_of,
  blackhole_name,
  blackhole_set,
  blackhole_test,
  down_body,
  down_name,
  first_tests,
  fragment,
  if_not_0,
  if_not_empty,
  in_body,
  in_name,
  irr_name,
  member_sets,
  net_test,
  next_hop_test,
  origin_test,
  origins_name,
  pipe_of,
  prefix_test,
  protocols,
  receive_name,
  registered_origin,
  session_filters,
  state_is,
  state_test,
  table_name,
  told_registered,
  transit_test,
  up_body,
  up_name,
};
ghost use Rattle.ixp_compile_pieces.specs.Items.{down_item, in_item, receive_item, up_item};
ghost use Rattle.ixp_compile_pieces.specs.Made.{items_view};

use crate::inputs_ref::InputsRef;
use crate::member_rules::{add_advertise_rules, receive_body};
use ixp_compile_pieces::{
    add, add_drop, add_drop_if, add_filter, add_function, add_item, add_nets, add_number_test,
    add_numbers, add_run, add_tell, add_when, all_large, call, call_with, compared, compared_name,
    comparison, is_blackhole, master, negation, roas, table_kind,
};
use ixp_lang::communities::{FINDING, ORIGIN_STATE, REFUSED};
use ixp_lang::{Attr, Bgp, Expr, Item, Op, Pipe, SetLit, Stmt, Use, Value, numbered};
use ixp_num::{Asn, Family, Items, Name, Pattern, Validity};
use std::alloc::{AllocError, Global};

// The member's lists.

fn add_member_sets(
    alloc: Global,
    items: &mut Vec<Item>,
    i: &InputsRef,
    irr: Items<Pattern>,
    blackholes: Items<Pattern>,
) -> Result<(), AllocError>
    ensures { OnOk result
        (items_view items.new.items ≡ items_view items.old.items ++ member_sets i.now irr blackholes) }
{
    if !i.address.irr {
        return Ok(());
    }
    add_nets(items, numbered(alloc, b"irr_", i.interface)?, irr)?;
    let name = numbered(alloc, b"org_", i.interface)?;
    add_numbers(alloc, items, name, i.origins)?;
    if i.blackhole.is_none() {
        return Ok(());
    }
    add_nets(items, numbered(alloc, b"bh_", i.interface)?, blackholes)
}

// The import filter.

/// What is done with a route whose next hop isn't the session's address.
fn other_hop(alloc: Global, i: &InputsRef) -> Result<Stmt, AllocError>
    ensures { IfOk result
        (λ s. stmt_view s ≡ if_then (compared op.In attr.NextHop (set_literal (set.Ips i.now.addresses)))
        (stmts (tell i.now.rs.0 FINDING 1200 ∷ [])) (stmts (drop_with 8 ∷ []))) }
{
    let mut yes = Vec::new(alloc);
    add_tell(&mut yes, i.rs, FINDING, 1200)?;
    let mut no = Vec::new(alloc);
    add_drop(alloc, &mut no, 8)?;
    let addresses = Items::from_slice(alloc, i.addresses)?;
    let right = Expr::Set(SetLit::Ips(addresses));
    let test = compared(alloc, Op::In, Attr::NextHop, right)?;
    Ok(Stmt::If { test, yes, no })
}

fn add_next_hop_test(alloc: Global, body: &mut Vec<Stmt>, i: &InputsRef) -> Result<(), AllocError>
    ensures { OnOk result
        (stmts_view body.new.items ≡ stmts_view body.old.items ++ next_hop_test i.now ∷ []) }
{
    let mut yes = Vec::new(alloc);
    add(&mut yes, other_hop(alloc, i)?)?;
    let test = compared(alloc, Op::Ne, Attr::NextHop, Expr::Attr(Attr::From))?;
    add_when(alloc, body, test, yes)
}

fn add_transit_test(alloc: Global, body: &mut Vec<Stmt>, i: &InputsRef) -> Result<(), AllocError>
    ensures { OnOk result (stmts_view body.new.items ≡ stmts_view body.old.items ++ transit_test i.now) }
{
    if i.transit_free {
        return Ok(());
    }
    add_run(alloc, body, b"ixp_transit")
}

/// Adds what is done where the member has registered no origin.
fn add_unregistered(alloc: Global, body: &mut Vec<Stmt>, rs: Asn) -> Result<(), AllocError>
    ensures { OnOk result
        (stmts_view body.new.items ≡ stmts_view body.old.items
        ++ tell rs.0 FINDING 1002 ∷ drop_with 10 ∷ []) }
{
    add_tell(body, rs, FINDING, 1002)?;
    add_drop(alloc, body, 10)
}

/// Adds the test that the origin is in the defined set.
fn add_origin_set_test(
    alloc: Global,
    body: &mut Vec<Stmt>,
    interface: u32,
) -> Result<(), AllocError>
    ensures { OnOk result
        (stmts_view body.new.items ≡ stmts_view body.old.items
        ++ when (compared op.NotIn attr.Last (named (origins_name interface))) (drop_with 10 ∷ []) ∷ []) }
{
    let name = numbered(alloc, b"org_", interface)?;
    let test = compared_name(alloc, Op::NotIn, Attr::Last, name)?;
    add_drop_if(alloc, body, test, 10)
}

fn add_registered_origin(
    alloc: Global,
    body: &mut Vec<Stmt>,
    i: &InputsRef,
) -> Result<(), AllocError>
    ensures { OnOk result
        (stmts_view body.new.items ≡ stmts_view body.old.items ++ registered_origin i.now i.now.origins) }
{
    if i.origins.is_empty() {
        return add_unregistered(alloc, body, i.rs);
    }
    add_origin_set_test(alloc, body, i.interface)
}

fn add_origin_test(alloc: Global, body: &mut Vec<Stmt>, i: &InputsRef) -> Result<(), AllocError>
    ensures { OnOk result (stmts_view body.new.items ≡ stmts_view body.old.items ++ origin_test i.now) }
{
    if i.address.irr {
        add_registered_origin(alloc, body, i)
    } else {
        add_tell(body, i.rs, FINDING, 2)
    }
}

/// Adds the test that the net is in a defined set.
fn add_net_test(
    alloc: Global,
    body: &mut Vec<Stmt>,
    name: Name,
    patterns: &[Pattern],
) -> Result<(), AllocError>
    ensures { OnOk result
        (stmts_view body.new.items ≡ stmts_view body.old.items ++ net_test name patterns.now ∷ []) }
{
    if patterns.is_empty() {
        return add_drop(alloc, body, 9);
    }
    let test = compared_name(alloc, Op::NotIn, Attr::Net, name)?;
    add_drop_if(alloc, body, test, 9)
}

fn add_told_registered(body: &mut Vec<Stmt>, i: &InputsRef) -> Result<(), AllocError>
    ensures { OnOk result (stmts_view body.new.items ≡ stmts_view body.old.items ++ told_registered i.now) }
{
    if !i.address.irr {
        return Ok(());
    }
    add_tell(body, i.rs, FINDING, 1)
}

fn blackhole_set<'a>(i: &InputsRef, blackholes: &'a [Pattern]) -> &'a [Pattern]
    ensures { result.now ≡ blackhole_set i.now blackholes.now }
{
    if i.address.irr { blackholes } else { &[] }
}

/// What is done with a route whose traffic is to be dropped.
fn blackhole_steps(
    alloc: Global,
    i: &InputsRef,
    blackholes: &[Pattern],
) -> Result<Vec<Stmt>, AllocError>
    ensures { IfOk result (λ v. stmts_view v.items
        ≡ tell i.now.rs.0 ORIGIN_STATE 3 ∷ net_test (blackhole_name i.now.interface)
        (blackhole_set i.now blackholes.now) ∷ told_registered i.now ++ accept ∷ []) }
{
    let mut body = Vec::new(alloc);
    add_tell(&mut body, i.rs, ORIGIN_STATE, 3)?;
    let name = numbered(alloc, b"bh_", i.interface)?;
    add_net_test(alloc, &mut body, name, blackhole_set(i, blackholes))?;
    add_told_registered(&mut body, i)?;
    add(&mut body, Stmt::Accept)?;
    Ok(body)
}

fn add_blackhole_test(
    alloc: Global,
    body: &mut Vec<Stmt>,
    i: &InputsRef,
    blackholes: &[Pattern],
) -> Result<(), AllocError>
    ensures { OnOk result
        (stmts_view body.new.items ≡ stmts_view body.old.items
        ++ blackhole_test i.now blackholes.now i.now.blackhole) }
{
    if i.blackhole.is_none() {
        return Ok(());
    }
    let yes = blackhole_steps(alloc, i, blackholes)?;
    let test = is_blackhole(alloc)?;
    add_when(alloc, body, test, yes)
}

/// The state of the route's origin (RFC 6811), compared.
fn state_is(alloc: Global, family: Family, state: Validity) -> Result<Expr, AllocError>
    ensures { IfOk result (λ e. expr_view e ≡ state_is family state) }
{
    let table = roas(alloc, family)?;
    let net = Box::new(alloc, Expr::Attr(Attr::Net))?;
    let origin = Box::new(alloc, Expr::Attr(Attr::Last))?;
    let check = Expr::RoaCheck { table, net, origin };
    comparison(alloc, Op::Eq, check, Expr::Lit(Value::Roa(state)))
}

/// Adds the test of a Valid route, which goes no further.
fn add_valid_test(alloc: Global, body: &mut Vec<Stmt>, i: &InputsRef) -> Result<(), AllocError>
    ensures { OnOk result (stmts_view body.new.items ≡ stmts_view body.old.items
        ++ when (state_is i.now.family Valid) (tell i.now.rs.0 ORIGIN_STATE 1 ∷ accept ∷ []) ∷ []) }
{
    let mut yes = Vec::new(alloc);
    add_tell(&mut yes, i.rs, ORIGIN_STATE, 1)?;
    add(&mut yes, Stmt::Accept)?;
    let test = state_is(alloc, i.family, Validity::Valid)?;
    add_when(alloc, body, test, yes)
}

fn add_state_test(alloc: Global, body: &mut Vec<Stmt>, i: &InputsRef) -> Result<(), AllocError>
    ensures { OnOk result (stmts_view body.new.items ≡ stmts_view body.old.items ++ state_test i.now) }
{
    if !i.rpki {
        return add_tell(body, i.rs, ORIGIN_STATE, 3);
    }
    let invalid = state_is(alloc, i.family, Validity::Invalid)?;
    add_drop_if(alloc, body, invalid, 13)?;
    add_valid_test(alloc, body, i)?;
    add_tell(body, i.rs, ORIGIN_STATE, 2)
}

fn add_prefix_test(
    alloc: Global,
    body: &mut Vec<Stmt>,
    i: &InputsRef,
    irr: &[Pattern],
) -> Result<(), AllocError>
    ensures { OnOk result
        (stmts_view body.new.items ≡ stmts_view body.old.items ++ prefix_test i.now irr.now) }
{
    if !i.address.irr {
        return Ok(());
    }
    let name = numbered(alloc, b"irr_", i.interface)?;
    add_net_test(alloc, body, name, irr)
}

/// Adds what takes away the communities that the server alone writes.
fn add_own_taken_away(alloc: Global, body: &mut Vec<Stmt>, rs: Asn) -> Result<(), AllocError>
    ensures { OnOk result
        (stmts_view body.new.items ≡ stmts_view body.old.items
        ++ delete_triples (all_large rs.0 (ORIGIN_STATE ∷ FINDING ∷ REFUSED ∷ [])) ∷ []) }
{
    let triples = all_large(alloc, rs, &[ORIGIN_STATE, FINDING, REFUSED])?;
    add(body, Stmt::DeleteTriples(triples))
}

/// Adds what takes the server's own communities away, and the tests that all sessions share.
fn add_cleaning(alloc: Global, body: &mut Vec<Stmt>, rs: Asn) -> Result<(), AllocError>
    ensures { OnOk result
        (stmts_view body.new.items ≡ stmts_view body.old.items
        ++ delete_triples (all_large rs.0 (ORIGIN_STATE ∷ FINDING ∷ REFUSED ∷ [])) ∷ run
        (codes "ixp_net") ∷ []) }
{
    add_own_taken_away(alloc, body, rs)?;
    add_run(alloc, body, b"ixp_net")
}

/// Adds the tests of who sent the route, and of the numbers of its path.
fn add_sender_tests(alloc: Global, body: &mut Vec<Stmt>, i: &InputsRef) -> Result<(), AllocError>
    ensures { OnOk result (stmts_view body.new.items ≡ stmts_view body.old.items
        ++ when (compared op.Ne attr.First (int i.now.asn.0)) (drop_with 7 ∷ []) ∷ next_hop_test i.now ∷ run
        (codes "ixp_as") ∷ []) }
{
    add_number_test(alloc, body, Op::Ne, Attr::First, i.asn.0, 7)?;
    add_next_hop_test(alloc, body, i)?;
    add_run(alloc, body, b"ixp_as")
}

fn add_first_tests(alloc: Global, body: &mut Vec<Stmt>, i: &InputsRef) -> Result<(), AllocError>
    ensures { OnOk result (stmts_view body.new.items ≡ stmts_view body.old.items ++ first_tests i.now) }
{
    add_cleaning(alloc, body, i.rs)?;
    add_sender_tests(alloc, body, i)
}

/// Adds the tests of the path's numbers and of its origin.
fn add_path_tests(alloc: Global, body: &mut Vec<Stmt>, i: &InputsRef) -> Result<(), AllocError>
    ensures { OnOk result
        (stmts_view body.new.items ≡ stmts_view body.old.items ++ first_tests i.now ++ transit_test i.now
        ++ origin_test i.now) }
{
    add_first_tests(alloc, body, i)?;
    add_transit_test(alloc, body, i)?;
    add_origin_test(alloc, body, i)
}

/// Adds the tests of the net.
fn add_net_tests(
    alloc: Global,
    body: &mut Vec<Stmt>,
    i: &InputsRef,
    irr: &[Pattern],
    blackholes: &[Pattern],
) -> Result<(), AllocError>
    ensures { OnOk result
        (stmts_view body.new.items ≡ stmts_view body.old.items
        ++ blackhole_test i.now blackholes.now i.now.blackhole ++ state_test i.now
        ++ prefix_test i.now irr.now) }
{
    add_blackhole_test(alloc, body, i, blackholes)?;
    add_state_test(alloc, body, i)?;
    add_prefix_test(alloc, body, i, irr)
}

fn in_body(
    alloc: Global,
    i: &InputsRef,
    irr: &[Pattern],
    blackholes: &[Pattern],
) -> Result<Vec<Stmt>, AllocError>
    ensures { IfOk result (λ v. stmts_view v.items ≡ in_body i.now irr.now blackholes.now) }
{
    let mut body = Vec::new(alloc);
    add_path_tests(alloc, &mut body, i)?;
    add_net_tests(alloc, &mut body, i, irr, blackholes)?;
    add_told_registered(&mut body, i)?;
    add(&mut body, Stmt::Accept)?;
    Ok(body)
}

// Between the session's table and the one that all share.

/// Adds a test that ends the filter.
fn add_reject_if(alloc: Global, body: &mut Vec<Stmt>, test: Expr) -> Result<(), AllocError>
    ensures { OnOk result
        (stmts_view body.new.items ≡ stmts_view body.old.items ++ when (expr_view test) (reject ∷ []) ∷ []) }
{
    let mut yes = Vec::new(alloc);
    add(&mut yes, Stmt::Reject)?;
    add_when(alloc, body, test, yes)
}

fn up_body(alloc: Global, i: &InputsRef) -> Result<Vec<Stmt>, AllocError>
    ensures { IfOk result (λ v. stmts_view v.items ≡ up_body i.now) }
{
    let mut body = Vec::new(alloc);
    let refused = all_large(alloc, i.rs, &[REFUSED])?;
    let test = compared(alloc, Op::In, Attr::Triples, refused)?;
    add_reject_if(alloc, &mut body, test)?;
    add_advertise_rules(alloc, &mut body, i.rs, i.family, i.rules)?;
    add(&mut body, Stmt::Accept)?;
    Ok(body)
}

/// Adds the test that the receiver's rules let the route in.
fn add_receive_test(alloc: Global, body: &mut Vec<Stmt>, i: &InputsRef) -> Result<(), AllocError>
    ensures { OnOk result
        (stmts_view body.new.items ≡ stmts_view body.old.items
        ++ when (negation (call (receive_name i.now.interface) (exprs []))) (reject ∷ []) ∷ []) }
{
    let name = numbered(alloc, b"rx_", i.interface)?;
    let test = negation(alloc, call(alloc, name))?;
    add_reject_if(alloc, body, test)
}

/// Adds the test that the route's communities send it.
fn add_send_test(alloc: Global, body: &mut Vec<Stmt>, i: &InputsRef) -> Result<(), AllocError>
    ensures { OnOk result
        (stmts_view body.new.items ≡ stmts_view body.old.items
        ++ when (negation (call (codes "ixp_sends") (exprs (int i.now.asn.0 ∷ [])))) (reject ∷ []) ∷ []) }
{
    let sends = call_with(alloc, b"ixp_sends", i.asn.0)?;
    let test = negation(alloc, sends)?;
    add_reject_if(alloc, body, test)?;
    Ok(())
}

/// What puts the sender's number in front as often as the route's communities ask for.
fn padding(alloc: Global, i: &InputsRef) -> Result<Stmt, AllocError>
    ensures { IfOk result
        (λ s. stmt_view s ≡ call_statement (codes "ixp_pad")
        (exprs (call (codes "ixp_count") (exprs (int i.now.asn.0 ∷ [])) ∷ []))) }
{
    let count = call_with(alloc, b"ixp_count", i.asn.0)?;
    let mut args = Vec::new(alloc);
    args.push(count)?;
    let name = Name::new(alloc, b"ixp_pad")?;
    Ok(Stmt::Call { name, args })
}

fn down_body(alloc: Global, i: &InputsRef) -> Result<Vec<Stmt>, AllocError>
    ensures { IfOk result (λ v. stmts_view v.items ≡ down_body i.now) }
{
    let mut body = Vec::new(alloc);
    add_receive_test(alloc, &mut body, i)?;
    add_send_test(alloc, &mut body, i)?;
    add(&mut body, padding(alloc, i)?)?;
    add(&mut body, Stmt::Accept)?;
    Ok(body)
}

// The protocols.

fn pipe_of(alloc: Global, i: &InputsRef) -> Result<Pipe, AllocError>
    ensures { IfOk result (λ p. p ≡ pipe_of i.now) }
{
    Ok(Pipe {
        name: numbered(alloc, b"pp_", i.interface)?,
        table: master(alloc, i.family)?,
        peer: numbered(alloc, b"t_", i.interface)?,
        import: Use::Named(numbered(alloc, b"up_", i.interface)?),
        export: Use::Named(numbered(alloc, b"down_", i.interface)?),
    })
}

/// A text that isn't empty.
fn if_not_empty(alloc: Global, text: &[u8]) -> Result<Option<Items<u8>>, AllocError>
    ensures { IfOk result (λ t. t ≡ if_not_empty text.now) }
{
    if text.is_empty() {
        return Ok(None);
    }
    Ok(Some(Items::from_slice(alloc, text)?))
}

fn if_not_0(number: u32) -> Option<u32>
    ensures { result ≡ if_not_0 number }
{
    if number == 0 { None } else { Some(number) }
}

fn bgp_of(alloc: Global, i: &InputsRef) -> Result<Bgp, AllocError>
    ensures { IfOk result (λ b. b ≡ bgp_of i.now) }
{
    Ok(Bgp {
        name: numbered(alloc, b"b_", i.interface)?,
        local: Some(i.local),
        own: i.rs,
        neighbor: i.address.addr,
        asn: i.asn,
        rs_client: true,
        password: if_not_empty(alloc, i.address.secret.as_slice())?,
        family: i.family,
        table: numbered(alloc, b"t_", i.interface)?,
        import: Use::Named(numbered(alloc, b"in_", i.interface)?),
        export: Use::Named(Name::new(alloc, b"ixp_out")?),
        limit: if_not_0(i.address.max_prefix),
    })
}

// The part.

/// Adds the session's table.
fn add_table(alloc: Global, items: &mut Vec<Item>, i: &InputsRef) -> Result<(), AllocError>
    ensures { OnOk result
        (items_view items.new.items ≡ items_view items.old.items
        ++ table_item (table_kind i.now.family) (table_name i.now.interface) ∷ []) }
{
    let kind = table_kind(i.family);
    let name = numbered(alloc, b"t_", i.interface)?;
    add_item(items, Item::Table { kind, name })
}

/// Adds the filter of what the session brings.
fn add_in(
    alloc: Global,
    items: &mut Vec<Item>,
    i: &InputsRef,
    body: Vec<Stmt>,
) -> Result<(), AllocError>
    ensures { (irr : List Pattern) (blackholes : List Pattern)
        → stmts_view body.items ≡ in_body i.now irr blackholes →
        OnOk result (items_view items.new.items ≡ items_view items.old.items
        ++ in_item i.now irr blackholes ∷ []) }
{
    let name = numbered(alloc, b"in_", i.interface)?;
    add_filter(items, name, body)?;
    Ok(())
}

/// Adds the filter of the way up to the table that all share.
fn add_up(alloc: Global, items: &mut Vec<Item>, i: &InputsRef) -> Result<(), AllocError>
    ensures { OnOk result (items_view items.new.items ≡ items_view items.old.items ++ up_item i.now ∷ []) }
{
    let body = up_body(alloc, i)?;
    let name = numbered(alloc, b"up_", i.interface)?;
    add_filter(items, name, body)?;
    Ok(())
}

/// Adds the function of the member's receive rules.
fn add_receive(alloc: Global, items: &mut Vec<Item>, i: &InputsRef) -> Result<(), AllocError>
    ensures { OnOk result
        (items_view items.new.items ≡ items_view items.old.items ++ receive_item i.now ∷ []) }
{
    let body = receive_body(alloc, i.family, i.rules)?;
    let name = numbered(alloc, b"rx_", i.interface)?;
    add_function(alloc, items, name, body)?;
    Ok(())
}

/// Adds the filter of the way down.
fn add_down(alloc: Global, items: &mut Vec<Item>, i: &InputsRef) -> Result<(), AllocError>
    ensures { OnOk result (items_view items.new.items ≡ items_view items.old.items ++ down_item i.now ∷ []) }
{
    let body = down_body(alloc, i)?;
    let name = numbered(alloc, b"down_", i.interface)?;
    add_filter(items, name, body)?;
    Ok(())
}

/// Adds the filters of the session, its import filter's body being this one.
fn add_filters(
    alloc: Global,
    items: &mut Vec<Item>,
    i: &InputsRef,
    body: Vec<Stmt>,
) -> Result<(), AllocError>
    ensures { (irr : List Pattern) (blackholes : List Pattern)
        → stmts_view body.items ≡ in_body i.now irr blackholes →
        OnOk result (items_view items.new.items ≡ items_view items.old.items
        ++ in_item i.now irr blackholes ∷ up_item i.now ∷ receive_item i.now ∷ down_item i.now ∷ []) }
{
    add_in(alloc, items, i, body)?;
    add_up(alloc, items, i)?;
    add_receive(alloc, items, i)?;
    add_down(alloc, items, i)
}

fn add_protocols(alloc: Global, items: &mut Vec<Item>, i: &InputsRef) -> Result<(), AllocError>
    ensures { OnOk result (items_view items.new.items ≡ items_view items.old.items ++ protocols i.now) }
{
    let pipe = pipe_of(alloc, i)?;
    add_item(items, Item::of_pipe(alloc, pipe)?)?;
    let session = bgp_of(alloc, i)?;
    add_item(items, Item::of_bgp(alloc, session)?)
}

/// Adds the session's part, in which these are the sets of the nets that the member's prefixes allow.
pub fn add_fragment(
    alloc: Global,
    items: &mut Vec<Item>,
    i: &InputsRef,
    irr: Items<Pattern>,
    blackholes: Items<Pattern>,
) -> Result<(), AllocError>
    ensures { OnOk result
        (items_view items.new.items ≡ items_view items.old.items ++ fragment i.now irr blackholes) }
{
    let allowed = irr.as_slice();
    let covered = blackholes.as_slice();
    let body = in_body(alloc, i, allowed, covered)?;
    add_table(alloc, items, i)?;
    add_member_sets(alloc, items, i, irr, blackholes)?;
    add_filters(alloc, items, i, body)?;
    add_protocols(alloc, items, i)?;
    Ok(())
}
