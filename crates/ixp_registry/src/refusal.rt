//! Why an edit is refused.
ghost use Rattle.std.specs.Prelude.{◌≡◌};
ghost use Rattle.ixp_registry.specs.Codes.{field_word, limited_word, refusal_code};

use crate::{EditKind, Handle, Kind, PublicKind, Status};
use ixp_num::{Asn, Family};

/// The right that a call asks for.
#[derive(Clone, Copy, Debug, PartialEq, Eq)]
pub enum Right {
    Staff,
    Member(u32),
}

/// What names a row among those of its kind, or the subject of an edit among those of its kind. It does not
/// allocate.
#[derive(Debug, Drop)]
pub enum RowKey {
    Number(u32),
    /// Of a contact or a rule the member and the place; of an address or a list the interface or the member,
    /// and the family, 4 or 6.
    Pair(u32, u32),
    /// A router's.
    Handle(Handle),
    Public(PublicKind),
}

/// A text of an edit.
#[derive(Clone, Copy, Debug, PartialEq, Eq)]
pub enum TextField {
    Name,
    Macro,
    Mail,
    Role,
    Secret,
    Handle,
}

/// Of what there may not be more.
#[derive(Clone, Copy, Debug, PartialEq, Eq)]
pub enum Limited {
    Rows(Kind),
    /// The rows of prefix lists in all sessions together.
    Weight,
}

/// Why an edit is refused. Where several would stand, the first in this order does.
#[derive(Debug, Drop)]
pub enum Refusal {
    /// X0: no API key has the secret.
    NoKey,
    /// X1: the key's owner hasn't the right.
    Denied {
        right: Right,
    },
    /// X2: the request's number is kept for another kind of edit or another subject.
    KeyReused {
        kind: EditKind,
        subject: RowKey,
    },
    /// X3: the request's number is below the owner's floor.
    KeyOld {
        floor: u64,
    },
    /// X4: a row that is named isn't there.
    Unknown {
        table: Kind,
        key: RowKey,
    },
    /// X5: a text has another alphabet or length.
    BadText {
        field: TextField,
    },
    /// X6: the AS number is reserved, or a member and a router would share one.
    AsnReserved {
        asn: Asn,
    },
    /// X7: an address or a prefix isn't of its family, or the VLAN has none of the family.
    Family {
        family: Family,
    },
    /// X8: an address lies outside the VLAN's prefix, or is its first or last one.
    Outside {
        vlan: u32,
    },
    /// X9: somebody has the address or the secret.
    Taken {
        table: Kind,
        key: RowKey,
    },
    /// X10: the port belongs to another member, or to none.
    PortTaken {
        member: Option<u32>,
    },
    /// X11: a row with the key, or a member with the AS number, is there.
    Exists {
        key: RowKey,
    },
    /// X12: the prefix overlaps with one of this VLAN.
    Overlap {
        vlan: u32,
    },
    /// X13: no member goes from one status to the other.
    StatusMove {
        from: Status,
        to: Status,
    },
    /// X14: a row still names the one that is to go.
    InUse {
        table: Kind,
        key: RowKey,
    },
    /// X15: a rule's action or a number is out of its bounds; `place` is the rule's, 0 where it is no rule.
    BadRule {
        place: u32,
    },
    /// X16: there would be more rows than the limit.
    TooMany {
        table: Limited,
        have: u64,
        limit: u64,
    },
}

impl TextField {
    /// The name of the field in an edit's body, which is printed.
    pub fn word(self) -> &'static str
        ensures { result.now ≡ field_word self }
    {
        match self {
            TextField::Name => "name",
            TextField::Macro => "macro",
            TextField::Mail => "mail",
            TextField::Role => "role",
            TextField::Secret => "secret",
            TextField::Handle => "handle",
        }
    }
}

impl Limited {
    /// The word that is printed.
    pub fn word(self) -> &'static str
        ensures { result.now ≡ limited_word self }
    {
        match self {
            Limited::Rows(kind) => kind.word(),
            Limited::Weight => "weight",
        }
    }
}

impl Refusal {
    /// The code that is printed.
    pub fn code(&self) -> &'static str
        ensures { result.now ≡ refusal_code self.now }
    {
        match self {
            Refusal::NoKey => "X0",
            Refusal::Denied { .. } => "X1",
            Refusal::KeyReused { .. } => "X2",
            Refusal::KeyOld { .. } => "X3",
            Refusal::Unknown { .. } => "X4",
            Refusal::BadText { .. } => "X5",
            Refusal::AsnReserved { .. } => "X6",
            Refusal::Family { .. } => "X7",
            Refusal::Outside { .. } => "X8",
            Refusal::Taken { .. } => "X9",
            Refusal::PortTaken { .. } => "X10",
            Refusal::Exists { .. } => "X11",
            Refusal::Overlap { .. } => "X12",
            Refusal::StatusMove { .. } => "X13",
            Refusal::InUse { .. } => "X14",
            Refusal::BadRule { .. } => "X15",
            Refusal::TooMany { .. } => "X16",
        }
    }
}
