//! The kinds of rows.
ghost use Rattle.std.specs.Prelude.{◌≡◌};
ghost use Rattle.ixp_registry.specs.Kinds.{word_of};

/// A kind of rows, in the order of their lines in a dump.
#[derive(Clone, Copy, Debug, PartialEq, Eq)]
pub enum Kind {
    Sites,
    Members,
    Contacts,
    Keys,
    Switches,
    Ports,
    Vlans,
    Interfaces,
    Addresses,
    Routers,
    Prefixes,
    Origins,
    Rules,
    Bogons,
    BogonAs,
    Transit,
    Roas,
}

/// The kinds of rows, in the order of their lines.
pub const KINDS: [Kind; 17] = [
    Kind::Sites,
    Kind::Members,
    Kind::Contacts,
    Kind::Keys,
    Kind::Switches,
    Kind::Ports,
    Kind::Vlans,
    Kind::Interfaces,
    Kind::Addresses,
    Kind::Routers,
    Kind::Prefixes,
    Kind::Origins,
    Kind::Rules,
    Kind::Bogons,
    Kind::BogonAs,
    Kind::Transit,
    Kind::Roas,
];

impl Kind {
    /// The word that is printed, with which the lines of the kind begin in a dump.
    pub fn word(self) -> &'static str
        ensures { result.now ≡ word_of self }
    {
        match self {
            Kind::Sites => "site",
            Kind::Members => "member",
            Kind::Contacts => "contact",
            Kind::Keys => "key",
            Kind::Switches => "switch",
            Kind::Ports => "port",
            Kind::Vlans => "vlan",
            Kind::Interfaces => "interface",
            Kind::Addresses => "address",
            Kind::Routers => "router",
            Kind::Prefixes => "prefix",
            Kind::Origins => "origin",
            Kind::Rules => "rule",
            Kind::Bogons => "bogon",
            Kind::BogonAs => "bogon-as",
            Kind::Transit => "transit",
            Kind::Roas => "roa",
        }
    }
}
