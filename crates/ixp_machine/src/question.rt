//! Questions and their answers.
use ixp_num::{Family, Items};
use ixp_registry::{Contact, Member, MemberRule, Refusal};

/// What is asked.
#[derive(Clone, Copy, Debug)]
pub enum Query {
    /// The member with the number.
    Member(u32),
    /// The member's contacts.
    Contacts(u32),
    /// The member's rules.
    Rules(u32),
    /// The use of the VLAN's addresses of the family.
    Use(u32, Family),
    /// The member export at a second since 1970.
    Ixf { second: u64 },
    /// The dump of the registry, with all keys and passwords.
    Dump,
}

/// What is answered.
#[derive(Debug, Drop)]
pub enum Answer {
    Member(Member),
    Contacts(Items<Contact>),
    Rules(Items<MemberRule>),
    Text(Items<u8>),
    Json(Items<u8>),
}

/// Why nothing is answered.
#[derive(Debug, Drop)]
pub enum AskFault {
    /// X0, X1 or X4. The export is never refused.
    Refused(Refusal),
    NoMemory,
}
