//! Routes.
use ixp_num::{Addr, Asn, Items, Prefix};

/// A route with the attributes that filters read and change (RFC 4271, RFC 1997, RFC 8092).
#[derive(Debug, Drop)]
pub struct Route {
    pub net: Prefix,
    /// The AS path, the latest AS first.
    pub path: Items<Asn>,
    pub next_hop: Addr,
    /// Communities of two parts of 16 bits.
    pub pairs: Items<(u32, u32)>,
    /// Large communities.
    pub triples: Items<(u32, u32, u32)>,
}

impl Route {
    ghost use Rattle.std.specs.Prelude.{◌≡◌};
    ghost use Rattle.ixp_lang.specs.Attributes.{first_of, last_of};
    ghost use Rattle.ixp_lang.specs.Steering.{has_pair, has_triple};

    /// The latest AS of the path, 0 where the path is empty.
    pub fn first(&self) -> u32
        ensures { result ≡ first_of self.now.path }
    {
        match self.path.as_slice().first() {
            Some(asn) => asn.0,
            None => 0,
        }
    }

    /// The AS of the route's origin, the last one of the path, 0 where the path is empty.
    pub fn origin(&self) -> u32
        ensures { result ≡ last_of self.now.path }
    {
        let mut last = 0;
        'each: for asn in self.path.as_slice() {
            last = asn.0;
        }
        last
    }

    /// Whether the route has the community `a:b` (RFC 1997).
    pub fn has_pair(&self, a: u32, b: u32) -> bool
        ensures { result ≡ has_pair self.now a b }
    {
        self.pairs.as_slice().iter().any(|p| p.0 == a && p.1 == b)
    }

    /// Whether the route has the large community `a:b:c` (RFC 8092).
    pub fn has_triple(&self, a: u32, b: u32, c: u32) -> bool
        ensures { result ≡ has_triple self.now a b c }
    {
        self.triples
            .as_slice()
            .iter()
            .any(|t| t.0 == a && t.1 == b && t.2 == c)
    }
}

/// What a filter makes of a route: it accepts the route as it leaves it, or rejects it.
#[derive(Debug, Drop)]
pub enum Verdict {
    Accept(Route),
    Reject,
}
