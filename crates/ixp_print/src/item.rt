//! Items, and the whole configuration.
ghost use Rattle.std.specs.Prelude.{◌≡◌, ◌++◌, [], codes, decimal, map, OnOk, OnErr};
ghost use Rattle.std.specs.Option.{option_map};
ghost use Rattle.ixp_num.specs.Printing.{addr_text};
ghost use Rattle.ixp_lang.specs.Trees.{stmts};
ghost use Rattle.ixp_lang.specs.Views.{expr_view, stmts_view, item_view, config_view};
ghost use Rattle.ixp_num_tables.specs.Joined.{joined};
ghost use Rattle.ixp_print.specs.Texts.{
  line,
  body_text,
  param_text,
  head_line,
  nameless_head,
  use_text,
  pipe_text,
  channel_text,
  local_text,
  client_text,
  password_text,
  limit_text,
  bgp_channel_text,
  bgp_text,
  device_text,
  kind_text,
  stmts_text,
  expr_text,
  item_text,
  config_text,
};

use crate::expr::put_expr;
use crate::list::ParamText;
use crate::stmt::{put_line, put_stmts};
use crate::word::kind_word;
use ixp_lang::{Bgp, Config, Expr, Item, Kind, Pipe, Stmt, Ty, Use};
use ixp_num::{Addr, Family, Items, Name, print_addr};
use ixp_num_tables::{put, put_joined, put_number, put_whole};
use std::alloc::{AllocError, Global};

/// Writes a line of a name between two texts.
#[tactic(auto, unfolding(crate::specs::Texts::line))]
fn put_named(
    out: &mut Vec<u8>,
    indent: &[u8],
    before: &[u8],
    name: &Name,
    after: &[u8],
) -> Result<(), AllocError>
    ensures { OnOk result
        (out.new.items ≡ out.old.items ++ line indent.now (before.now ++ name.now ++ after.now)) }
{
    put(out, indent)?;
    put(out, before)?;
    put(out, name.as_bytes())?;
    put(out, after)?;
    put(out, b"\n")
}

#[tactic(auto, unfolding(crate::specs::Texts::line))]
fn put_router_id(out: &mut Vec<u8>, addr: &Addr) -> Result<(), AllocError>
    ensures { OnOk result
        (out.new.items ≡ out.old.items ++ line [] (codes "router id " ++ addr_text addr.now ++ codes ";")) }
{
    put(out, b"router id ")?;
    print_addr(addr, out)?;
    put(out, b";\n")
}

#[tactic(auto, unfolding(crate::specs::Texts::line))]
fn put_table(out: &mut Vec<u8>, kind: Kind, name: &Name) -> Result<(), AllocError>
    ensures { OnOk result
        (out.new.items ≡ out.old.items
        ++ line [] (kind_text kind ++ codes " table " ++ name.now ++ codes ";")) }
{
    put(out, kind_word(kind))?;
    put(out, b" table ")?;
    put(out, name.as_bytes())?;
    put(out, b";\n")
}

#[tactic(auto, unfolding(crate::specs::Texts::line))]
fn put_define(out: &mut Vec<u8>, name: &Name, value: &Expr) -> Result<(), AllocError>
    ensures { OnOk result
        (out.new.items ≡ out.old.items
        ++ line [] (codes "define " ++ name.now ++ codes " = " ++ expr_text (expr_view value.now)
        ++ codes ";")) }
{
    put(out, b"define ")?;
    put(out, name.as_bytes())?;
    put(out, b" = ")?;
    put_expr(out, value)?;
    put(out, b";\n")
}

/// Writes what follows a head: statements in braces.
#[tactic(auto, unfolding(crate::specs::Texts::line))]
fn put_body(alloc: Global, out: &mut Vec<u8>, body: &[Stmt]) -> Result<(), AllocError>
    ensures { OnOk result
        (out.new.items ≡ out.old.items
        ++ (codes " {\n" ++ stmts_text (codes "  ") (stmts (stmts_view body.now))
        ++ line [] (codes "}"))) }
{
    put(out, b" {\n")?;
    put_stmts(alloc, out, b"  ", body)?;
    put_line(out, b"", b"}")
}

#[tactic(auto, unfolding(crate::specs::Texts::line))]
fn put_function(
    alloc: Global,
    out: &mut Vec<u8>,
    name: &Name,
    params: &[(Ty, Name)],
    body: &[Stmt],
) -> Result<(), AllocError>
    ensures { OnOk result (out.new.items ≡ out.old.items
        ++ body_text (codes "function " ++ name.now ++ codes "(" ++ joined (codes "; ") param_text params.now
        ++ codes ")") (stmts (stmts_view body.now))) }
{
    put(out, b"function ")?;
    put(out, name.as_bytes())?;
    put(out, b"(")?;
    put_joined::<ParamText>(out, b"; ", params)?;
    put(out, b")")?;
    put_body(alloc, out, body)
}

#[tactic(auto, unfolding(crate::specs::Texts::line))]
fn put_filter(
    alloc: Global,
    out: &mut Vec<u8>,
    name: &Name,
    body: &[Stmt],
) -> Result<(), AllocError>
    ensures { OnOk result
        (out.new.items ≡ out.old.items
        ++ body_text (codes "filter " ++ name.now) (stmts (stmts_view body.now))) }
{
    put(out, b"filter ")?;
    put(out, name.as_bytes())?;
    put_body(alloc, out, body)
}

/// Writes the first line of a protocol.
#[tactic(auto, unfolding(crate::specs::Texts::line, crate::specs::Texts::head_line))]
fn put_head(out: &mut Vec<u8>, kind: &[u8], name: &Name) -> Result<(), AllocError>
    ensures { OnOk result (out.new.items ≡ out.old.items ++ head_line kind.now name.now) }
{
    put(out, b"protocol ")?;
    put(out, kind)?;
    put(out, b" ")?;
    put(out, name.as_bytes())?;
    put(out, b" {\n")
}

#[tactic(auto, unfolding(crate::specs::Texts::nameless_head))]
fn put_nameless_head(out: &mut Vec<u8>) -> Result<(), AllocError>
    ensures { OnOk result (out.new.items ≡ out.old.items ++ nameless_head) }
{
    put_line(out, b"", b"protocol device {")
}

fn put_device(out: &mut Vec<u8>, name: Option<&Name>) -> Result<(), AllocError>
    ensures { OnOk result
        (out.new.items ≡ out.old.items ++ device_text (option_map (λ n. n.now) name.entry)) }
{
    match name {
        None => {
            put_nameless_head(out)?;
            put_line(out, b"", b"}")
        }
        Some(name) => {
            put_head(out, b"device", name)?;
            put_line(out, b"", b"}")
        }
    }
}

fn put_use(out: &mut Vec<u8>, which: &Use) -> Result<(), AllocError>
    ensures { OnOk result (out.new.items ≡ out.old.items ++ use_text which.now) }
{
    match which {
        Use::All => put(out, b"all"),
        Use::Nothing => put(out, b"none"),
        Use::Named(name) => {
            put(out, b"filter ")?;
            put(out, name.as_bytes())
        }
    }
}

/// Writes a line of what is done with routes one way.
#[tactic(auto, unfolding(crate::specs::Texts::line))]
fn put_way(out: &mut Vec<u8>, indent: &[u8], way: &[u8], which: &Use) -> Result<(), AllocError>
    ensures { OnOk result
        (out.new.items ≡ out.old.items ++ line indent.now (way.now ++ use_text which.now ++ codes ";")) }
{
    put(out, indent)?;
    put(out, way)?;
    put_use(out, which)?;
    put(out, b";\n")
}

fn put_pipe(out: &mut Vec<u8>, pipe: &Pipe) -> Result<(), AllocError>
    ensures { OnOk result (out.new.items ≡ out.old.items ++ pipe_text pipe.now) }
{
    put_head(out, b"pipe", &pipe.name)?;
    put_named(out, b"  ", b"table ", &pipe.table, b";")?;
    put_named(out, b"  ", b"peer table ", &pipe.peer, b";")?;
    put_way(out, b"  ", b"import ", &pipe.import)?;
    put_way(out, b"  ", b"export ", &pipe.export)?;
    put_line(out, b"", b"}")
}

/// Writes a line of a number between two texts.
#[tactic(auto, unfolding(crate::specs::Texts::line))]
fn put_counted(
    out: &mut Vec<u8>,
    indent: &[u8],
    before: &[u8],
    number: u64,
    after: &[u8],
) -> Result<(), AllocError>
    ensures { OnOk result
        (out.new.items ≡ out.old.items ++ line indent.now (before.now ++ decimal number ++ after.now)) }
{
    put(out, indent)?;
    put(out, before)?;
    put_number(out, number)?;
    put(out, after)?;
    put(out, b"\n")
}

fn put_limit(out: &mut Vec<u8>, limit: Option<u32>) -> Result<(), AllocError>
    ensures { OnOk result (out.new.items ≡ out.old.items ++ limit_text limit) }
{
    match limit {
        None => Ok(()),
        Some(limit) => put_counted(
            out,
            b"    ",
            b"import limit ",
            u64::from(limit),
            b" action block;",
        ),
    }
}

fn channel_word(family: Family) -> &'static [u8]
    ensures { result.now ≡ channel_text family }
{
    match family {
        Family::V4 => b"ipv4",
        Family::V6 => b"ipv6",
    }
}

#[tactic(auto, unfolding(crate::specs::Texts::line))]
fn put_channel_head(out: &mut Vec<u8>, family: Family) -> Result<(), AllocError>
    ensures { OnOk result
        (out.new.items ≡ out.old.items ++ line (codes "  ") (channel_text family ++ codes " {")) }
{
    put(out, b"  ")?;
    put(out, channel_word(family))?;
    put(out, b" {\n")
}

fn put_channel(out: &mut Vec<u8>, session: &Bgp) -> Result<(), AllocError>
    ensures { OnOk result (out.new.items ≡ out.old.items ++ bgp_channel_text session.now) }
{
    put_channel_head(out, session.family)?;
    put_named(out, b"    ", b"table ", &session.table, b";")?;
    put_way(out, b"    ", b"import ", &session.import)?;
    put_way(out, b"    ", b"export ", &session.export)?;
    put_limit(out, session.limit)?;
    put_line(out, b"  ", b"};")
}

/// Writes the address and the AS number of this end.
#[tactic(auto, unfolding(crate::specs::Texts::line))]
fn put_local(out: &mut Vec<u8>, local: Option<Addr>, asn: u32) -> Result<(), AllocError>
    ensures { OnOk result
        (out.new.items ≡ out.old.items ++ line (codes "  ") (local_text local ++ decimal asn ++ codes ";")) }
{
    put(out, b"  local ")?;
    if let Some(addr) = local {
        print_addr(&addr, out)?;
        put(out, b" ")?;
    }
    put(out, b"as ")?;
    put_number(out, u64::from(asn))?;
    put(out, b";\n")
}

/// Writes a line of an address and a number with texts around them.
#[tactic(auto, unfolding(crate::specs::Texts::line))]
fn put_end(
    out: &mut Vec<u8>,
    indent: &[u8],
    before: &[u8],
    addr: &Addr,
    between: &[u8],
    number: u64,
    after: &[u8],
) -> Result<(), AllocError>
    ensures { OnOk result
        (out.new.items ≡ out.old.items
        ++ line indent.now (before.now ++ addr_text addr.now ++ between.now ++ decimal number
        ++ after.now)) }
{
    put(out, indent)?;
    put(out, before)?;
    print_addr(addr, out)?;
    put(out, between)?;
    put_number(out, number)?;
    put(out, after)?;
    put(out, b"\n")
}

fn put_neighbor(out: &mut Vec<u8>, addr: &Addr, asn: u32) -> Result<(), AllocError>
    ensures { OnOk result
        (out.new.items ≡ out.old.items
        ++ line (codes "  ")
        (codes "neighbor " ++ addr_text addr.now ++ codes " as " ++ decimal asn ++ codes ";")) }
{
    put_end(
        out,
        b"  ",
        b"neighbor ",
        addr,
        b" as ",
        u64::from(asn),
        b";",
    )
}

fn put_client(out: &mut Vec<u8>, rs_client: bool) -> Result<(), AllocError>
    ensures { OnOk result (out.new.items ≡ out.old.items ++ client_text rs_client) }
{
    if !rs_client {
        return Ok(());
    }
    put_line(out, b"  ", b"rs client;")
}

#[tactic(auto, unfolding(crate::specs::Texts::line))]
fn put_password(out: &mut Vec<u8>, password: Option<&Items<u8>>) -> Result<(), AllocError>
    ensures { OnOk result
        (out.new.items ≡ out.old.items ++ password_text (option_map (λ p. p.now) password.entry)) }
{
    let Some(password) = password else {
        return Ok(());
    };
    put(out, b"  password \"")?;
    put(out, password.as_slice())?;
    put(out, b"\";\n")
}

fn put_bgp(out: &mut Vec<u8>, session: &Bgp) -> Result<(), AllocError>
    ensures { OnOk result (out.new.items ≡ out.old.items ++ bgp_text session.now) }
{
    put_head(out, b"bgp", &session.name)?;
    put_local(out, session.local, session.own.0)?;
    put_neighbor(out, &session.neighbor, session.asn.0)?;
    put_client(out, session.rs_client)?;
    put_password(out, session.password.as_ref())?;
    put_channel(out, session)?;
    put_line(out, b"", b"}")
}

fn put_item(alloc: Global, out: &mut Vec<u8>, item: &Item) -> Result<(), AllocError>
    ensures { OnOk result (out.new.items ≡ out.old.items ++ item_text (item_view item.now)) }
{
    match item {
        Item::RouterId(addr) => put_router_id(out, addr),
        Item::Table { kind, name } => put_table(out, *kind, name),
        Item::Define { name, value } => put_define(out, name, value),
        Item::Function { name, params, body } => put_function(
            alloc,
            out,
            name,
            params.as_slice(),
            body,
        ),
        Item::Filter { name, body } => put_filter(alloc, out, name, body),
        Item::Device { name } => put_device(out, name.as_ref()),
        Item::Pipe(pipe) => put_pipe(out, pipe),
        Item::Bgp(session) => put_bgp(out, session),
    }
}

fn put_config(alloc: Global, out: &mut Vec<u8>, config: &Config) -> Result<(), AllocError>
    ensures { OnOk result (out.new.items ≡ out.old.items ++ config_text (config_view config.now)) }
{
    'each: for item in &config.items {
        put_item(alloc, out, item)?;
    }
    Ok(())
}

/// Adds the canonical text of a configuration.
pub fn print_config(alloc: Global, config: &Config, out: &mut Vec<u8>) -> Result<(), AllocError>
    ensures ok { OnOk result (out.new.items ≡ out.old.items ++ config_text (config_view config.now)) }
    ensures err { OnErr result (out.new.items ≡ out.old.items) }
{
    let mut text = Vec::new(alloc);
    put_config(alloc, &mut text, config)?;
    put_whole(out, text)
}
