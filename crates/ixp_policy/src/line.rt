//! The lines of the import table, and the reasons for which a route is refused.
ghost use Rattle.std.specs.Prelude.{◌≡◌};
ghost use Rattle.ixp_policy.specs.Reasons.{number_of, same_reason};

/// Why a route is refused. The numbers are modelled on IXP Manager's informational large communities
/// `rs:1101:number`; no release of it is claimed to agree with each.
#[derive(Clone, Copy, Debug, PartialEq, Eq)]
pub enum Reason {
    /// 1: the net is longer than the router takes.
    PrefixTooLong,
    /// 2: the net is shorter than the router takes.
    PrefixTooShort,
    /// 3: the net is one that nobody may announce (RFC 7454 section 6.1).
    Bogon,
    /// 4: a number that may stand in no path is in it (RFC 7607, RFC 5398, RFC 6996).
    BogonAsInPath,
    /// 5: the AS path has too many numbers.
    PathTooLong,
    /// 6: there is no AS path.
    PathEmpty,
    /// 7: the first number of the path isn't the member's (RFC 4271 section 6.3).
    FirstAsNotPeerAs,
    /// 8: the next hop isn't an address of the member's on the VLAN.
    NextHopNotPeer,
    /// 9: the net isn't one that the member has registered.
    PrefixNotRegistered,
    /// 10: the origin isn't one that the member has registered.
    OriginNotRegistered,
    /// 13: the route is Invalid by its ROAs (RFC 6811).
    OriginInvalid,
    /// 14: a network that buys no transit is in the path (RFC 7454 section 9).
    TransitFreeAsInPath,
    /// 15: the route brings more communities of a kind than the router takes.
    TooManyCommunities,
}

impl Reason {
    /// The number that the server writes on a route which it refuses for this reason.
    pub fn number(self) -> u32
        ensures { result ≡ number_of self }
    {
        match self {
            Reason::PrefixTooLong => 1,
            Reason::PrefixTooShort => 2,
            Reason::Bogon => 3,
            Reason::BogonAsInPath => 4,
            Reason::PathTooLong => 5,
            Reason::PathEmpty => 6,
            Reason::FirstAsNotPeerAs => 7,
            Reason::NextHopNotPeer => 8,
            Reason::PrefixNotRegistered => 9,
            Reason::OriginNotRegistered => 10,
            Reason::OriginInvalid => 13,
            Reason::TransitFreeAsInPath => 14,
            Reason::TooManyCommunities => 15,
        }
    }
}

/// Whether the two are one reason.
pub(crate) fn same_reason(one: Reason, other: Reason) -> bool
    ensures { result ≡ same_reason one other }
{
    one.number() == other.number()
}

/// A line of the import table, of a route.
#[derive(Clone, Copy, Debug)]
pub struct Line {
    /// Why a route is refused by this line.
    pub reason: Reason,
    /// Whether its sentence is true of the route.
    pub holds: bool,
}
