//! Lines of route servers.
ghost use Rattle.std.specs.Prelude.{◌≡◌, ◌∷◌, [], refl, IfOk};
ghost use Rattle.std.proofs.Common.{rules};
ghost use Rattle.ixp_registry.specs.Keys.{router_key};
ghost use Rattle.ixp_registry.specs.declared.kind.Kind.TheVariants as of;
ghost use Rattle.ixp_rows_lines.specs.declared.version.Version.TheVariants.{One, Two};
ghost use Rattle.ixp_rows_lines.specs.Lines.{IsOfVersion, router_line, router_form};
ghost use Rattle.ixp_rows_lines.specs.Reading.{Gives, fields_at};

use crate::fields::{end_of, handle_of};
use crate::numbers::{address_of, address_or_dash, asn_of, identifier_of, number_of};
use crate::printing::{Shown, address_shown, put_line};
use crate::words::{Worded, by_word};
use crate::{Kind, Lined, Unread, Version};
use ixp_num_tables::Row;
use ixp_registry::Router;
use std::alloc::{AllocError, Global};
use std::cmp::Ordering;

fn read_one(alloc: Global, rest: &[u8]) -> Result<(Router, &[u8]), Unread>
    ensures reads { Gives (λ x. ((router_line One x.0).fields, x.1.now)) result
        (fields_at (router_form One) rest.now) }
    ensures of_version { IfOk result (λ x. IsOfVersion One x.0) }
{
    let (handle, rest) = handle_of(alloc, rest)?;
    let (vlan, rest) = number_of(rest)?;
    let (family, rest) = by_word(rest)?;
    let (addr, rest) = address_of(alloc, rest)?;
    let (asn, rest) = asn_of(rest)?;
    let (id, rest) = identifier_of(alloc, rest)?;
    let (low, rest) = number_of(rest)?;
    let (high, rest) = number_of(rest)?;
    let (rpki, rest) = by_word(rest)?;
    let rest = end_of(rest)?;
    let router = Router {
        handle,
        vlan,
        family,
        addr,
        asn,
        id,
        low,
        high,
        rpki,
        blackhole: None,
        max_comms: 0,
    };
    Ok((router, rest))
}

fn read_two(alloc: Global, rest: &[u8]) -> Result<(Router, &[u8]), Unread>
    ensures { Gives (λ x. ((router_line Two x.0).fields, x.1.now)) result
        (fields_at (router_form Two) rest.now) }
{
    let (handle, rest) = handle_of(alloc, rest)?;
    let (vlan, rest) = number_of(rest)?;
    let (family, rest) = by_word(rest)?;
    let (addr, rest) = address_of(alloc, rest)?;
    let (asn, rest) = asn_of(rest)?;
    let (id, rest) = identifier_of(alloc, rest)?;
    let (low, rest) = number_of(rest)?;
    let (high, rest) = number_of(rest)?;
    let (rpki, rest) = by_word(rest)?;
    let (blackhole, rest) = address_or_dash(alloc, rest)?;
    let (max_comms, rest) = number_of(rest)?;
    let rest = end_of(rest)?;
    let router = Router {
        handle,
        vlan,
        family,
        addr,
        asn,
        id,
        low,
        high,
        rpki,
        blackhole,
        max_comms,
    };
    Ok((router, rest))
}

impl Lined for Router {
    ghost row_kind = { of.Routers };

    ghost fields = { λ version r. (router_line version r).fields };

    ghost key = { router_key };

    ghost of_version = { IsOfVersion };

    fn kind() -> Kind {
        Kind::Routers
    }

    fn read(alloc: Global, version: Version, rest: &[u8]) -> Result<(Router, &[u8]), Unread> {
        match version {
            Version::One => read_one(alloc, rest),
            Version::Two => read_two(alloc, rest),
        }
    }

    fn print(&self, version: Version, out: &mut Vec<u8>) -> Result<(), AllocError> {
        let fields = [
            Shown::Handle(self.handle.as_bytes()),
            Shown::Number(self.vlan),
            Shown::Word(self.family.word()),
            Shown::Address(self.addr),
            Shown::Number(self.asn.0),
            Shown::Identifier(self.id),
            Shown::Number(self.low),
            Shown::Number(self.high),
            Shown::Word(self.rpki.word()),
            address_shown(&self.blackhole, b"-"),
            Shown::Number(self.max_comms),
        ];
        match version {
            Version::One => put_line(Kind::Routers, &fields[..9], out),
            Version::Two => put_line(Kind::Routers, &fields, out),
        }
    }

    fn order_lines(&self, other: &Router) -> Ordering {
        self.order(other)
    }

    ghost keyed = { elim [ One ↦ (λ r. Prim.search rules) | Two ↦ (λ r. Prim.search rules) ] };
}
