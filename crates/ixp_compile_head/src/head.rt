//! The head of a route server's text.
ghost use Rattle.std.specs.Prelude.{◌≡◌, ◌++◌, ◌∷◌, [], codes, nat_le, false, true, IfOk, OnOk};
ghost use Rattle.ixp_num.specs.Families.{bits_of, same_family};
ghost use Rattle.ixp_lang.specs.Trees.{
  named,
  attribute,
  literal,
  call,
  set_literal,
  conjunction,
  comparison,
  exprs,
  stmts,
  function_item,
};
ghost use Rattle.ixp_lang.specs.Views.{expr_view, stmt_view, stmts_view};
ghost use Rattle.ixp_lang.specs.declared.expr.Attr.TheVariants as attr;
ghost use Rattle.ixp_lang.specs.declared.expr.Op.TheVariants as op;
ghost use Rattle.ixp_lang.specs.declared.value.Value.TheVariants as value;
ghost use Rattle.ixp_lang.specs.declared.value.SetLit.TheVariants as set;
ghost use Rattle.ixp_compile.specs.Pieces.{int, all_large, compared, when, defined, drop_with, numbers};
ghost use Rattle.ixp_compile.specs.Header.{
  answers,
  asks_all,
  asks_peer,
  blackhole_body,
  blackhole_function,
  blackhole_hop,
  bogon_as_body,
  bogons_of,
  community_tests,
  count_body,
  counts,
  drop_body,
  header,
  identifier,
  is_too_long,
  joined_ranges,
  joined_to,
  net_body,
  out_body,
  pad_body,
  pads,
  pair_answers,
  pairs_peer,
  pairs_server,
  pairs_taken_away,
  sends_body,
  tables,
  transit_body,
};
ghost use Rattle.ixp_compile_pieces.specs.Items.{
  as_item,
  count_item,
  drop_item,
  net_item,
  out_item,
  pad_item,
  public_items,
  sends_item,
  shared_items,
  transit_item,
};
ghost use Rattle.ixp_compile_pieces.specs.Made.{items_view};

use ixp_compile::HeaderInputs;
use ixp_compile_pieces::{
    add, add_drop_if, add_filter, add_function, add_function_with, add_item, add_nets,
    add_number_test, add_numbers, add_ranges, add_return_if, add_set_test, add_when, all_large,
    both, call, compared_number, comparison, fits_pair, int, is_blackhole, is_in, master, named,
    negation, pair_of, roa_kind, roas, same_family, steering_pairs, table_kind, triple_of,
    truth_value,
};
use ixp_lang::communities::{
    BLACKHOLE, FINDING, KEEP_FROM, ORIGIN_STATE, PREPEND_ONCE, PREPEND_THRICE, PREPEND_TWICE,
    REFUSED, SEND_TO,
};
use ixp_lang::{Attr, Expr, Item, Op, SetLit, Stmt, Value};
use ixp_num::{Addr, Asn, Family, Items, Name, Pattern};
use ixp_registry::Router;
use std::alloc::{AllocError, Global};

/// A BGP identifier as an address.
fn identifier(id: u32) -> Addr
    ensures { result ≡ identifier id }
{
    Addr {
        family: Family::V4,
        value: u128::from(id) % 0x1_0000_0000,
    }
}

fn bogons_of(alloc: Global, h: &HeaderInputs) -> Result<Items<Pattern>, AllocError>
    ensures { IfOk result (λ it. it ≡ bogons_of h.now) }
{
    let mut bogons = Items::new(alloc);
    'each: for pattern in h.bogons.as_slice() {
        if same_family(pattern.prefix.family, h.router.family) {
            bogons.push(*pattern)?;
        }
    }
    Ok(bogons)
}

/// Whether a range begins no later than at the number.
fn begins_by(range: (Asn, Asn), last: u32) -> bool
    ensures { result ≡ nat_le range.0.0 last }
{
    range.0.0 <= last
}

/// Adds the range and those behind it.
fn add_joined(
    joined: &mut Items<(u32, u32)>,
    first: u32,
    last: u32,
    ranges: &[(Asn, Asn)],
) -> Result<(), AllocError>
    ensures { OnOk result (joined.new ≡ joined.old ++ joined_to first last ranges.now) }
{
    let mut low = first;
    let mut high = last;
    let mut left = ranges;
    'each: while let Some((range, others)) = left.split_first() {
        if begins_by(*range, high) {
            high = high.max(range.1.0);
        } else {
            joined.push((low, high))?;
            low = range.0.0;
            high = range.1.0;
        }
        left = others;
    }
    joined.push((low, high))?;
    Ok(())
}

fn joined_ranges(alloc: Global, ranges: &[(Asn, Asn)]) -> Result<Items<(u32, u32)>, AllocError>
    ensures { IfOk result (λ it. it ≡ joined_ranges ranges.now) }
{
    let mut joined = Items::new(alloc);
    if let Some((range, others)) = ranges.split_first() {
        add_joined(&mut joined, range.0.0, range.1.0, others)?;
    }
    Ok(joined)
}

// Functions.

fn drop_body(alloc: Global, rs: Asn) -> Result<Vec<Stmt>, AllocError>
    ensures { IfOk result (λ v. stmts_view v.items ≡ drop_body rs.0) }
{
    let mut body = Vec::new(alloc);
    let told = triple_of(alloc, rs.0, REFUSED, b"n")?;
    add(&mut body, Stmt::AddTriple(told))?;
    add(&mut body, Stmt::Accept)?;
    Ok(body)
}

/// Whether the net is a single address, and the route has the community of RFC 7999.
fn blackhole_test(alloc: Global, family: Family) -> Result<Expr, AllocError>
    ensures { IfOk result
        (λ e. expr_view e ≡ conjunction
        (exprs (compared op.Eq attr.NetLen (int (bits_of family)) ∷ comparison op.In
        (literal (value.Pair BLACKHOLE.0 BLACKHOLE.1)) (attribute attr.Pairs) ∷ []))) }
{
    let single = compared_number(alloc, Op::Eq, Attr::NetLen, u32::from(family.bits()))?;
    let community = Expr::Lit(Value::Pair(BLACKHOLE.0, BLACKHOLE.1));
    let marked = is_in(alloc, community, Attr::Pairs)?;
    both(alloc, single, marked)
}

fn blackhole_body(alloc: Global, family: Family) -> Result<Vec<Stmt>, AllocError>
    ensures { IfOk result (λ v. stmts_view v.items ≡ blackhole_body family) }
{
    let mut body = Vec::new(alloc);
    let test = blackhole_test(alloc, family)?;
    add_return_if(alloc, &mut body, test, truth_value(true))?;
    add(&mut body, Stmt::Return(truth_value(false)))?;
    Ok(body)
}

fn add_blackhole_function(
    alloc: Global,
    items: &mut Vec<Item>,
    family: Family,
    blackhole: Option<Addr>,
) -> Result<(), AllocError>
    ensures { OnOk result
        (items_view items.new.items ≡ items_view items.old.items ++ blackhole_function family blackhole) }
{
    if blackhole.is_none() {
        return Ok(());
    }
    let name = Name::new(alloc, b"ixp_bh")?;
    let body = blackhole_body(alloc, family)?;
    add_function(alloc, items, name, body)
}

fn is_too_long(alloc: Global, blackhole: Option<Addr>, high: u32) -> Result<Expr, AllocError>
    ensures { IfOk result (λ e. expr_view e ≡ is_too_long blackhole high) }
{
    let long = compared_number(alloc, Op::Gt, Attr::NetLen, high)?;
    if blackhole.is_none() {
        return Ok(long);
    }
    let other = negation(alloc, is_blackhole(alloc)?)?;
    both(alloc, long, other)
}

/// Adds the tests of the net's length.
fn add_length_tests(alloc: Global, body: &mut Vec<Stmt>, router: &Router) -> Result<(), AllocError>
    ensures { OnOk result (stmts_view body.new.items ≡ stmts_view body.old.items
        ++ when (is_too_long router.now.blackhole router.now.high) (drop_with 1 ∷ []) ∷ when
        (compared op.Lt attr.NetLen (int router.now.low)) (drop_with 2 ∷ []) ∷ []) }
{
    let long = is_too_long(alloc, router.blackhole, router.high)?;
    add_drop_if(alloc, body, long, 1)?;
    add_number_test(alloc, body, Op::Lt, Attr::NetLen, router.low, 2)
}

/// Adds the tests of the path's length.
fn add_path_tests(alloc: Global, body: &mut Vec<Stmt>) -> Result<(), AllocError>
    ensures { OnOk result (stmts_view body.new.items ≡ stmts_view body.old.items
        ++ when (compared op.Eq attr.Len (int 0)) (drop_with 6 ∷ []) ∷ when (compared op.Gt attr.Len (int 64))
        (drop_with 5 ∷ []) ∷ []) }
{
    add_number_test(alloc, body, Op::Eq, Attr::Len, 0, 6)?;
    add_number_test(alloc, body, Op::Gt, Attr::Len, 64, 5)
}

fn add_community_tests(alloc: Global, body: &mut Vec<Stmt>, bound: u32) -> Result<(), AllocError>
    ensures { OnOk result (stmts_view body.new.items ≡ stmts_view body.old.items ++ community_tests bound) }
{
    if bound == 0 {
        return Ok(());
    }
    add_number_test(alloc, body, Op::Gt, Attr::PairsLen, bound, 15)?;
    add_number_test(alloc, body, Op::Gt, Attr::TriplesLen, bound, 15)
}

fn net_body(alloc: Global, h: &HeaderInputs) -> Result<Vec<Stmt>, AllocError>
    ensures { IfOk result (λ v. stmts_view v.items ≡ net_body h.now) }
{
    let bogons = bogons_of(alloc, h)?;
    let mut body = Vec::new(alloc);
    add_length_tests(alloc, &mut body, &h.router)?;
    add_set_test(
        alloc,
        &mut body,
        bogons.as_slice(),
        Attr::Net,
        b"ixp_bogons",
        3,
    )?;
    add_path_tests(alloc, &mut body)?;
    add_community_tests(alloc, &mut body, h.router.max_comms)?;
    Ok(body)
}

fn bogon_as_body(alloc: Global, h: &HeaderInputs) -> Result<Vec<Stmt>, AllocError>
    ensures { IfOk result (λ v. stmts_view v.items ≡ bogon_as_body h.now) }
{
    let ranges = joined_ranges(alloc, h.bogon_as.as_slice())?;
    let mut body = Vec::new(alloc);
    add_set_test(
        alloc,
        &mut body,
        ranges.as_slice(),
        Attr::Path,
        b"ixp_bogon_as",
        4,
    )?;
    Ok(body)
}

fn transit_body(alloc: Global, h: &HeaderInputs) -> Result<Vec<Stmt>, AllocError>
    ensures { IfOk result (λ v. stmts_view v.items ≡ transit_body h.now) }
{
    let mut body = Vec::new(alloc);
    let transit = h.transit.as_slice();
    add_set_test(alloc, &mut body, transit, Attr::Path, b"ixp_transit_as", 14)?;
    Ok(body)
}

fn asks_peer(alloc: Global, rs: Asn, action: u32) -> Result<Expr, AllocError>
    ensures { IfOk result (λ e. expr_view e ≡ asks_peer rs.0 action) }
{
    let community = triple_of(alloc, rs.0, action, b"p")?;
    is_in(alloc, community, Attr::Triples)
}

fn asks_all(alloc: Global, rs: Asn, action: u32) -> Result<Expr, AllocError>
    ensures { IfOk result (λ e. expr_view e ≡ asks_all rs.0 action) }
{
    let community = Expr::Lit(Value::Triple(rs.0, action, 0));
    is_in(alloc, community, Attr::Triples)
}

fn pairs_peer(alloc: Global, first: u32) -> Result<Expr, AllocError>
    ensures { IfOk result (λ e. expr_view e ≡ pairs_peer first) }
{
    let community = pair_of(alloc, first, b"p")?;
    is_in(alloc, community, Attr::Pairs)
}

fn pairs_server(alloc: Global, first: u32, rs: Asn) -> Result<Expr, AllocError>
    ensures { IfOk result (λ e. expr_view e ≡ pairs_server first rs.0) }
{
    let community = Expr::Lit(Value::Pair(first, rs.0));
    is_in(alloc, community, Attr::Pairs)
}

/// Adds a test that says whether the route is sent.
fn add_answer(
    alloc: Global,
    body: &mut Vec<Stmt>,
    test: Expr,
    answer: bool,
) -> Result<(), AllocError>
    ensures { OnOk result
        (stmts_view body.new.items ≡ stmts_view body.old.items ++ answers (expr_view test) answer ∷ []) }
{
    add_return_if(alloc, body, test, truth_value(answer))
}

/// Adds what large communities for the peer say.
fn add_peer_answer(
    alloc: Global,
    body: &mut Vec<Stmt>,
    rs: Asn,
    action: u32,
    answer: bool,
) -> Result<(), AllocError>
    ensures { OnOk result
        (stmts_view body.new.items ≡ stmts_view body.old.items
        ++ answers (asks_peer rs.0 action) answer ∷ []) }
{
    let test = asks_peer(alloc, rs, action)?;
    add_answer(alloc, body, test, answer)
}

/// Adds what large communities for all say.
fn add_all_answer(
    alloc: Global,
    body: &mut Vec<Stmt>,
    rs: Asn,
    action: u32,
    answer: bool,
) -> Result<(), AllocError>
    ensures { OnOk result
        (stmts_view body.new.items ≡ stmts_view body.old.items
        ++ answers (asks_all rs.0 action) answer ∷ []) }
{
    let test = asks_all(alloc, rs, action)?;
    add_answer(alloc, body, test, answer)
}

/// What the communities of two parts say, for the peer and for all.
fn pair_tests(alloc: Global, rs: Asn) -> Result<Vec<Stmt>, AllocError>
    ensures { IfOk result (λ v. stmts_view v.items
        ≡ answers (pairs_peer 0) false ∷ answers (pairs_peer rs.0) true ∷ answers
        (pairs_server 0 rs.0) false ∷ answers (pairs_server rs.0 rs.0) true ∷ []) }
{
    let mut body = Vec::new(alloc);
    add_answer(alloc, &mut body, pairs_peer(alloc, 0)?, false)?;
    add_answer(alloc, &mut body, pairs_peer(alloc, rs.0)?, true)?;
    add_answer(alloc, &mut body, pairs_server(alloc, 0, rs)?, false)?;
    add_answer(alloc, &mut body, pairs_server(alloc, rs.0, rs)?, true)?;
    Ok(body)
}

fn add_pair_answers(alloc: Global, body: &mut Vec<Stmt>, rs: Asn) -> Result<(), AllocError>
    ensures { OnOk result (stmts_view body.new.items ≡ stmts_view body.old.items ++ pair_answers rs.0) }
{
    if !fits_pair(rs.0) {
        return Ok(());
    }
    let peer = named(alloc, b"p")?;
    let test = comparison(alloc, Op::Le, peer, int(65_535))?;
    let yes = pair_tests(alloc, rs)?;
    add_when(alloc, body, test, yes)
}

fn sends_body(alloc: Global, rs: Asn) -> Result<Vec<Stmt>, AllocError>
    ensures { IfOk result (λ v. stmts_view v.items ≡ sends_body rs.0) }
{
    let mut body = Vec::new(alloc);
    add_peer_answer(alloc, &mut body, rs, KEEP_FROM, false)?;
    add_peer_answer(alloc, &mut body, rs, SEND_TO, true)?;
    add_all_answer(alloc, &mut body, rs, KEEP_FROM, false)?;
    add_all_answer(alloc, &mut body, rs, SEND_TO, true)?;
    add_pair_answers(alloc, &mut body, rs)?;
    add(&mut body, Stmt::Return(truth_value(true)))?;
    Ok(body)
}

/// Adds how often large communities for the peer ask for the sender's number.
fn add_peer_count(
    alloc: Global,
    body: &mut Vec<Stmt>,
    rs: Asn,
    action: u32,
    times: u32,
) -> Result<(), AllocError>
    ensures { OnOk result
        (stmts_view body.new.items ≡ stmts_view body.old.items ++ counts (asks_peer rs.0 action) times ∷ []) }
{
    let test = asks_peer(alloc, rs, action)?;
    add_return_if(alloc, body, test, int(times))
}

/// Adds how often large communities for all ask for it.
fn add_all_count(
    alloc: Global,
    body: &mut Vec<Stmt>,
    rs: Asn,
    action: u32,
    times: u32,
) -> Result<(), AllocError>
    ensures { OnOk result
        (stmts_view body.new.items ≡ stmts_view body.old.items ++ counts (asks_all rs.0 action) times ∷ []) }
{
    let test = asks_all(alloc, rs, action)?;
    add_return_if(alloc, body, test, int(times))
}

fn add_peer_counts(alloc: Global, body: &mut Vec<Stmt>, rs: Asn) -> Result<(), AllocError>
    ensures { OnOk result (stmts_view body.new.items ≡ stmts_view body.old.items
        ++ counts (asks_peer rs.0 PREPEND_THRICE) 3 ∷ counts (asks_peer rs.0 PREPEND_TWICE) 2 ∷ counts
        (asks_peer rs.0 PREPEND_ONCE) 1 ∷ counts (asks_peer rs.0 SEND_TO) 0 ∷ []) }
{
    add_peer_count(alloc, body, rs, PREPEND_THRICE, 3)?;
    add_peer_count(alloc, body, rs, PREPEND_TWICE, 2)?;
    add_peer_count(alloc, body, rs, PREPEND_ONCE, 1)?;
    add_peer_count(alloc, body, rs, SEND_TO, 0)
}

fn add_all_counts(alloc: Global, body: &mut Vec<Stmt>, rs: Asn) -> Result<(), AllocError>
    ensures { OnOk result (stmts_view body.new.items ≡ stmts_view body.old.items
        ++ counts (asks_all rs.0 PREPEND_THRICE) 3 ∷ counts (asks_all rs.0 PREPEND_TWICE) 2 ∷ counts
        (asks_all rs.0 PREPEND_ONCE) 1 ∷ []) }
{
    add_all_count(alloc, body, rs, PREPEND_THRICE, 3)?;
    add_all_count(alloc, body, rs, PREPEND_TWICE, 2)?;
    add_all_count(alloc, body, rs, PREPEND_ONCE, 1)
}

fn count_body(alloc: Global, rs: Asn) -> Result<Vec<Stmt>, AllocError>
    ensures { IfOk result (λ v. stmts_view v.items ≡ count_body rs.0) }
{
    let mut body = Vec::new(alloc);
    add_peer_counts(alloc, &mut body, rs)?;
    add_all_counts(alloc, &mut body, rs)?;
    add(&mut body, Stmt::Return(int(0)))?;
    Ok(body)
}

/// Adds one more of the path's first number, where at least so many are asked for.
fn add_pad(alloc: Global, body: &mut Vec<Stmt>, least: u32) -> Result<(), AllocError>
    ensures { OnOk result (stmts_view body.new.items ≡ stmts_view body.old.items ++ pads least ∷ []) }
{
    let asked = named(alloc, b"n")?;
    let test = comparison(alloc, Op::Ge, asked, int(least))?;
    let mut yes = Vec::new(alloc);
    add(&mut yes, Stmt::Prepend(Expr::Attr(Attr::First)))?;
    add_when(alloc, body, test, yes)
}

fn pad_body(alloc: Global) -> Result<Vec<Stmt>, AllocError>
    ensures { IfOk result (λ v. stmts_view v.items ≡ pad_body) }
{
    let mut body = Vec::new(alloc);
    add_pad(alloc, &mut body, 1)?;
    add_pad(alloc, &mut body, 2)?;
    add_pad(alloc, &mut body, 3)?;
    Ok(body)
}

fn add_blackhole_hop(
    alloc: Global,
    body: &mut Vec<Stmt>,
    blackhole: Option<Addr>,
) -> Result<(), AllocError>
    ensures { OnOk result (stmts_view body.new.items ≡ stmts_view body.old.items ++ blackhole_hop blackhole) }
{
    let Some(addr) = blackhole else {
        return Ok(());
    };
    let test = is_blackhole(alloc)?;
    let mut yes = Vec::new(alloc);
    add(&mut yes, Stmt::SetNextHop(Expr::Lit(Value::Ip(addr))))?;
    add_when(alloc, body, test, yes)
}

fn add_pairs_taken_away(alloc: Global, body: &mut Vec<Stmt>, rs: Asn) -> Result<(), AllocError>
    ensures { OnOk result (stmts_view body.new.items ≡ stmts_view body.old.items ++ pairs_taken_away rs.0) }
{
    if !fits_pair(rs.0) {
        return Ok(());
    }
    let pairs = steering_pairs(alloc, rs, None)?;
    add(body, Stmt::DeletePairs(pairs))
}

/// The large communities that no receiver gets.
fn own_triples(alloc: Global, rs: Asn) -> Result<Expr, AllocError>
    ensures { IfOk result
        (λ e. expr_view e ≡ all_large rs.0
        (KEEP_FROM ∷ SEND_TO ∷ PREPEND_ONCE ∷ PREPEND_TWICE ∷ PREPEND_THRICE ∷ ORIGIN_STATE ∷ FINDING ∷
        REFUSED ∷ [])) }
{
    let actions = [
        KEEP_FROM,
        SEND_TO,
        PREPEND_ONCE,
        PREPEND_TWICE,
        PREPEND_THRICE,
        ORIGIN_STATE,
        FINDING,
        REFUSED,
    ];
    all_large(alloc, rs, &actions)
}

fn out_body(alloc: Global, rs: Asn, blackhole: Option<Addr>) -> Result<Vec<Stmt>, AllocError>
    ensures { IfOk result (λ v. stmts_view v.items ≡ out_body rs.0 blackhole) }
{
    let mut body = Vec::new(alloc);
    add_blackhole_hop(alloc, &mut body, blackhole)?;
    let triples = own_triples(alloc, rs)?;
    add(&mut body, Stmt::DeleteTriples(triples))?;
    add_pairs_taken_away(alloc, &mut body, rs)?;
    add(&mut body, Stmt::Accept)?;
    Ok(body)
}

// The head.

fn add_tables(alloc: Global, items: &mut Vec<Item>, router: &Router) -> Result<(), AllocError>
    ensures { OnOk result (items_view items.new.items ≡ items_view items.old.items ++ tables router.now) }
{
    add_item(items, Item::RouterId(identifier(router.id)))?;
    let kind = table_kind(router.family);
    let name = master(alloc, router.family)?;
    add_item(items, Item::Table { kind, name })?;
    let kind = roa_kind(router.family);
    let name = roas(alloc, router.family)?;
    add_item(items, Item::Table { kind, name })
}

/// Adds the nets that nobody may announce.
fn add_bogons(alloc: Global, items: &mut Vec<Item>, h: &HeaderInputs) -> Result<(), AllocError>
    ensures { OnOk result
        (items_view items.new.items ≡ items_view items.old.items
        ++ defined (codes "ixp_bogons") set.Prefixes (bogons_of h.now)) }
{
    let bogons = bogons_of(alloc, h)?;
    let name = Name::new(alloc, b"ixp_bogons")?;
    add_nets(items, name, bogons)?;
    Ok(())
}

/// Adds the numbers that may stand in no path.
fn add_bogon_ranges(
    alloc: Global,
    items: &mut Vec<Item>,
    h: &HeaderInputs,
) -> Result<(), AllocError>
    ensures { OnOk result
        (items_view items.new.items ≡ items_view items.old.items
        ++ defined (codes "ixp_bogon_as") set.Ints (joined_ranges h.now.bogon_as)) }
{
    let ranges = h.bogon_as.as_slice();
    let joined = joined_ranges(alloc, ranges)?;
    let name = Name::new(alloc, b"ixp_bogon_as")?;
    add_ranges(items, name, joined)?;
    Ok(())
}

/// Adds the networks that buy no transit.
fn add_transit_set(alloc: Global, items: &mut Vec<Item>, h: &HeaderInputs) -> Result<(), AllocError>
    ensures { OnOk result
        (items_view items.new.items ≡ items_view items.old.items
        ++ defined (codes "ixp_transit_as") numbers h.now.transit) }
{
    let transit = h.transit.as_slice();
    let name = Name::new(alloc, b"ixp_transit_as")?;
    add_numbers(alloc, items, name, transit)?;
    Ok(())
}

fn add_public_sets(alloc: Global, items: &mut Vec<Item>, h: &HeaderInputs) -> Result<(), AllocError>
    ensures { OnOk result (items_view items.new.items ≡ items_view items.old.items ++ public_items h.now) }
{
    add_bogons(alloc, items, h)?;
    add_bogon_ranges(alloc, items, h)?;
    add_transit_set(alloc, items, h)?;
    Ok(())
}

/// Adds the function that refuses a route.
fn add_drop(alloc: Global, items: &mut Vec<Item>, rs: Asn) -> Result<(), AllocError>
    ensures { OnOk result (items_view items.new.items ≡ items_view items.old.items ++ drop_item rs.0 ∷ []) }
{
    let body = drop_body(alloc, rs)?;
    add_function_with(alloc, items, b"ixp_drop", b"n", body)?;
    Ok(())
}

/// Adds the function that tests the net, and the lengths of lists.
fn add_net(alloc: Global, items: &mut Vec<Item>, h: &HeaderInputs) -> Result<(), AllocError>
    ensures { OnOk result (items_view items.new.items ≡ items_view items.old.items ++ net_item h.now ∷ []) }
{
    let body = net_body(alloc, h)?;
    let name = Name::new(alloc, b"ixp_net")?;
    add_function(alloc, items, name, body)?;
    Ok(())
}

/// Adds the function that refuses numbers that may stand in no path.
fn add_bogon_as(alloc: Global, items: &mut Vec<Item>, h: &HeaderInputs) -> Result<(), AllocError>
    ensures { OnOk result (items_view items.new.items ≡ items_view items.old.items ++ as_item h.now ∷ []) }
{
    let body = bogon_as_body(alloc, h)?;
    let name = Name::new(alloc, b"ixp_as")?;
    add_function(alloc, items, name, body)?;
    Ok(())
}

/// Adds the function that refuses the networks that buy no transit.
fn add_transit(alloc: Global, items: &mut Vec<Item>, h: &HeaderInputs) -> Result<(), AllocError>
    ensures { OnOk result
        (items_view items.new.items ≡ items_view items.old.items ++ transit_item h.now ∷ []) }
{
    let body = transit_body(alloc, h)?;
    let name = Name::new(alloc, b"ixp_transit")?;
    add_function(alloc, items, name, body)?;
    Ok(())
}

/// Adds the functions that refuse routes of any session.
fn add_tests(alloc: Global, items: &mut Vec<Item>, h: &HeaderInputs) -> Result<(), AllocError>
    ensures { OnOk result
        (items_view items.new.items ≡ items_view items.old.items
        ++ net_item h.now ∷ as_item h.now ∷ transit_item h.now ∷ []) }
{
    add_net(alloc, items, h)?;
    add_bogon_as(alloc, items, h)?;
    add_transit(alloc, items, h)
}

/// Adds the function that says to whom the communities of a route send it.
fn add_sends(alloc: Global, items: &mut Vec<Item>, rs: Asn) -> Result<(), AllocError>
    ensures { OnOk result (items_view items.new.items ≡ items_view items.old.items ++ sends_item rs.0 ∷ []) }
{
    let body = sends_body(alloc, rs)?;
    add_function_with(alloc, items, b"ixp_sends", b"p", body)?;
    Ok(())
}

/// Adds the function that says how often they put the sender's number in front.
fn add_count(alloc: Global, items: &mut Vec<Item>, rs: Asn) -> Result<(), AllocError>
    ensures { OnOk result (items_view items.new.items ≡ items_view items.old.items ++ count_item rs.0 ∷ []) }
{
    let body = count_body(alloc, rs)?;
    add_function_with(alloc, items, b"ixp_count", b"p", body)?;
    Ok(())
}

/// Adds the function that puts it in front so often.
fn add_pads(alloc: Global, items: &mut Vec<Item>) -> Result<(), AllocError>
    ensures { OnOk result (items_view items.new.items ≡ items_view items.old.items ++ pad_item ∷ []) }
{
    let body = pad_body(alloc)?;
    add_function_with(alloc, items, b"ixp_pad", b"n", body)?;
    Ok(())
}

/// Adds the functions that read what the communities of a route ask for.
fn add_steering(alloc: Global, items: &mut Vec<Item>, rs: Asn) -> Result<(), AllocError>
    ensures { OnOk result
        (items_view items.new.items ≡ items_view items.old.items
        ++ sends_item rs.0 ∷ count_item rs.0 ∷ pad_item ∷ []) }
{
    add_sends(alloc, items, rs)?;
    add_count(alloc, items, rs)?;
    add_pads(alloc, items)
}

/// Adds the filter of what goes out to a member.
fn add_out(
    alloc: Global,
    items: &mut Vec<Item>,
    rs: Asn,
    blackhole: Option<Addr>,
) -> Result<(), AllocError>
    ensures { OnOk result
        (items_view items.new.items ≡ items_view items.old.items ++ out_item rs.0 blackhole ∷ []) }
{
    let body = out_body(alloc, rs, blackhole)?;
    let name = Name::new(alloc, b"ixp_out")?;
    add_filter(items, name, body)?;
    Ok(())
}

fn add_shared_functions(
    alloc: Global,
    items: &mut Vec<Item>,
    h: &HeaderInputs,
) -> Result<(), AllocError>
    ensures { OnOk result (items_view items.new.items ≡ items_view items.old.items ++ shared_items h.now) }
{
    let rs = h.router.asn;
    let blackhole = h.router.blackhole;
    add_drop(alloc, items, rs)?;
    add_blackhole_function(alloc, items, h.router.family, blackhole)?;
    add_tests(alloc, items, h)?;
    add_steering(alloc, items, rs)?;
    add_out(alloc, items, rs, blackhole)
}

/// Adds the head.
pub fn add_header(alloc: Global, items: &mut Vec<Item>, h: &HeaderInputs) -> Result<(), AllocError>
    ensures { OnOk result (items_view items.new.items ≡ items_view items.old.items ++ header h.now) }
{
    add_tables(alloc, items, &h.router)?;
    add_public_sets(alloc, items, h)?;
    add_shared_functions(alloc, items, h)?;
    Ok(())
}
