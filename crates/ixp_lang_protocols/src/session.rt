//! BGP sessions.
ghost use Rattle.std.specs.Prelude.{◌≡◌, ◌<◌, ◌≤◌, length, IfOk};
ghost use Rattle.ixp_lang_tokens.specs.Pieces.{addr_in};
ghost use Rattle.ixp_lang_tokens.specs.Reading.{read, kinds, Gives};
ghost use Rattle.ixp_lang.specs.Views.{item_view};
ghost use Rattle.ixp_lang_exprs.specs.Names.{names_of};
ghost use Rattle.ixp_lang_protocols.specs.Protocols.{
  as_number_form,
  local_form,
  neighbor_form,
  client_form,
  password_form,
  limit_form,
  family_form,
  channel_form,
  peering_form,
  bgp_end,
};
ghost use Rattle.ixp_lang_protocols.specs.Views.{local_of, neighbor_of, channel_of, peering_of, a_string};

use crate::tables::{Owner, table_of_at};
use crate::ways::{Ways, ways_at};
use ixp_lang::{Bgp, Item};
use ixp_lang_exprs::{Declared, Env};
use ixp_lang_tokens::{
    Fault, Kind, Mark, Token, addr_at, after_word, mark_at, number_at, unexpected, word_at,
};
use ixp_num::{Addr, Asn, Family, Items, Name};
use std::alloc::Global;

/// `as NUM;`
fn asn_at(tokens: &[Token]) -> Result<(Asn, &[Token]), Fault>
    ensures reads { Gives (λ x. (x.0, kinds x.1.now)) result (read as_number_form (kinds tokens.now)) }
    ensures shorter { IfOk result (λ x. length x.1.now < length tokens.now) }
{
    let rest = word_at(b"as", tokens)?;
    let (number, rest) = number_at(rest)?;
    let rest = mark_at(Mark::Semicolon, rest)?;
    Ok((Asn(number), rest))
}

/// This end of a session.
#[derive(Drop)]
struct Local {
    addr: Option<Addr>,
    asn: Asn,
}

/// The address that the token is, if it is one.
fn address_in(kind: &Kind) -> Option<Addr>
    ensures { result ≡ addr_in kind.now }
{
    match kind {
        Kind::Addr(addr) => Some(*addr.get()),
        _ => None,
    }
}

/// `local IP as NUM;`, the address being left out where the system is to choose it.
fn local_at(tokens: &[Token]) -> Result<(Local, &[Token]), Fault>
    ensures reads { Gives (λ x. (local_of x.0, kinds x.1.now)) result (read local_form (kinds tokens.now)) }
    ensures shorter { IfOk result (λ x. length x.1.now < length tokens.now) }
{
    let rest = word_at(b"local", tokens)?;
    let [first, behind @ ..] = rest else {
        return Err(unexpected(rest));
    };
    let addr = address_in(&first.kind);
    let left = if addr.is_some() { behind } else { rest };
    let (asn, rest) = asn_at(left)?;
    Ok((Local { addr, asn }, rest))
}

/// The other end of a session.
#[derive(Drop)]
struct Neighbor {
    addr: Addr,
    asn: Asn,
}

/// `neighbor IP as NUM;`
fn neighbor_at(tokens: &[Token]) -> Result<(Neighbor, &[Token]), Fault>
    ensures reads { Gives (λ x. (neighbor_of x.0, kinds x.1.now)) result
        (read neighbor_form (kinds tokens.now)) }
    ensures shorter { IfOk result (λ x. length x.1.now < length tokens.now) }
{
    let rest = word_at(b"neighbor", tokens)?;
    let (addr, rest) = addr_at(rest)?;
    let (asn, rest) = asn_at(rest)?;
    Ok((Neighbor { addr, asn }, rest))
}

/// `rs client;`, if it is there.
fn client_at(tokens: &[Token]) -> Result<(bool, &[Token]), Fault>
    ensures reads { Gives (λ x. (x.0, kinds x.1.now)) result (read client_form (kinds tokens.now)) }
    ensures shorter { IfOk result (λ x. length x.1.now ≤ length tokens.now) }
{
    let Some(rest) = after_word(b"rs", tokens) else {
        return Ok((false, tokens));
    };
    let rest = word_at(b"client", rest)?;
    let rest = mark_at(Mark::Semicolon, rest)?;
    Ok((true, rest))
}

/// The text that is next.
fn text_at(alloc: Global, tokens: &[Token]) -> Result<(Items<u8>, &[Token]), Fault>
    ensures reads { Gives (λ x. (x.0, kinds x.1.now)) result (read a_string (kinds tokens.now)) }
    ensures shorter { IfOk result (λ x. length x.1.now < length tokens.now) }
{
    let [first, rest @ ..] = tokens else {
        return Err(unexpected(tokens));
    };
    match &first.kind {
        Kind::Text(text) => {
            let text = text.get().copied(alloc)?;
            Ok((text, rest))
        }
        _ => Err(unexpected(tokens)),
    }
}

/// `password STRING;`, if it is there.
fn password_at(alloc: Global, tokens: &[Token]) -> Result<(Option<Items<u8>>, &[Token]), Fault>
    ensures reads { Gives (λ x. (x.0, kinds x.1.now)) result (read password_form (kinds tokens.now)) }
    ensures shorter { IfOk result (λ x. length x.1.now ≤ length tokens.now) }
{
    let Some(rest) = after_word(b"password", tokens) else {
        return Ok((None, tokens));
    };
    let (text, rest) = text_at(alloc, rest)?;
    let rest = mark_at(Mark::Semicolon, rest)?;
    Ok((Some(text), rest))
}

/// `import limit NUM action block;`, if it is there.
fn limit_at(tokens: &[Token]) -> Result<(Option<u32>, &[Token]), Fault>
    ensures reads { Gives (λ x. (x.0, kinds x.1.now)) result (read limit_form (kinds tokens.now)) }
    ensures shorter { IfOk result (λ x. length x.1.now ≤ length tokens.now) }
{
    let Some(rest) = after_word(b"import", tokens) else {
        return Ok((None, tokens));
    };
    let rest = word_at(b"limit", rest)?;
    let (limit, rest) = number_at(rest)?;
    let rest = word_at(b"action", rest)?;
    let rest = word_at(b"block", rest)?;
    let rest = mark_at(Mark::Semicolon, rest)?;
    Ok((Some(limit), rest))
}

/// A session's channel.
#[derive(Drop)]
struct Channel {
    family: Family,
    table: Name,
    ways: Ways,
    limit: Option<u32>,
}

/// The family of a channel.
fn family_at(tokens: &[Token]) -> Result<(Family, &[Token]), Fault>
    ensures reads { Gives (λ x. (x.0, kinds x.1.now)) result (read family_form (kinds tokens.now)) }
    ensures shorter { IfOk result (λ x. length x.1.now < length tokens.now) }
{
    if let Some(rest) = after_word(b"ipv4", tokens) {
        return Ok((Family::V4, rest));
    }
    let rest = word_at(b"ipv6", tokens)?;
    Ok((Family::V6, rest))
}

/// `ipv4 { table NAME; import ..; export ..; .. };`
fn channel_at<'t>(
    alloc: Global,
    env: &mut Env,
    tokens: &'t [Token],
) -> Result<(Channel, &'t [Token]), Fault>
    ensures reads { Gives (λ x. (channel_of x.0 (names_of env.new), kinds x.1.now)) result
        (read (channel_form (names_of env.old)) (kinds tokens.now)) }
    ensures shorter { IfOk result (λ x. length x.1.now < length tokens.now) }
{
    let (family, rest) = family_at(tokens)?;
    let rest = mark_at(Mark::BlockOpen, rest)?;
    let (table, rest) = table_of_at(alloc, env, Owner::Session, rest)?;
    let (ways, rest) = ways_at(alloc, env, rest)?;
    let (limit, rest) = limit_at(rest)?;
    let rest = mark_at(Mark::BlockClose, rest)?;
    let rest = mark_at(Mark::Semicolon, rest)?;
    let channel = Channel {
        family,
        table,
        ways,
        limit,
    };
    Ok((channel, rest))
}

/// What a session says of its two ends.
#[derive(Drop)]
struct Peering {
    local: Local,
    neighbor: Neighbor,
    rs_client: bool,
    password: Option<Items<u8>>,
}

fn peering_at(alloc: Global, tokens: &[Token]) -> Result<(Peering, &[Token]), Fault>
    ensures reads { Gives (λ x. (peering_of x.0, kinds x.1.now)) result
        (read peering_form (kinds tokens.now)) }
    ensures shorter { IfOk result (λ x. length x.1.now < length tokens.now) }
{
    let (local, rest) = local_at(tokens)?;
    let (neighbor, rest) = neighbor_at(rest)?;
    let (rs_client, rest) = client_at(rest)?;
    let (password, rest) = password_at(alloc, rest)?;
    let peering = Peering {
        local,
        neighbor,
        rs_client,
        password,
    };
    Ok((peering, rest))
}

/// What follows `protocol bgp`.
pub(crate) fn bgp_at<'t>(
    alloc: Global,
    env: &mut Env,
    tokens: &'t [Token],
) -> Result<(Item, &'t [Token]), Fault>
    ensures reads { Gives (λ x. ((item_view x.0, names_of env.new), kinds x.1.now)) result
        (read (bgp_end (names_of env.old)) (kinds tokens.now)) }
    ensures shorter { IfOk result (λ x. length x.1.now < length tokens.now) }
{
    let (name, rest) = env.free_name_at(alloc, tokens)?;
    let rest = mark_at(Mark::BlockOpen, rest)?;
    let (peering, rest) = peering_at(alloc, rest)?;
    let (channel, rest) = channel_at(alloc, env, rest)?;
    let rest = mark_at(Mark::BlockClose, rest)?;
    env.declare(alloc, &name, Declared::Protocol)?;
    let session = Bgp {
        name,
        local: peering.local.addr,
        own: peering.local.asn,
        neighbor: peering.neighbor.addr,
        asn: peering.neighbor.asn,
        rs_client: peering.rs_client,
        password: peering.password,
        family: channel.family,
        table: channel.table,
        import: channel.ways.import,
        export: channel.ways.export,
        limit: channel.limit,
    };
    Ok((Item::of_bgp(alloc, session)?, rest))
}
