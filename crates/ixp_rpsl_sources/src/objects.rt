//! What objects of listed sources say.
use ixp_num::{Family, Items, Name};
use ixp_rpsl::Item;

/// A kind of objects.
#[derive(Clone, Copy, Debug)]
pub(crate) enum Wanted {
    /// A route to a prefix of the family.
    Route(Family),
    /// A set of autonomous systems.
    Set,
    /// An autonomous system.
    Number,
    /// Any other, which is skipped.
    Other,
}

/// An object of a set: the line where it begins, the place of its source, its name in upper case, its
/// members, and the maintainers whose objects may be members by reference, in upper case.
#[derive(Debug, Drop)]
pub(crate) struct SetObject {
    pub line: usize,
    pub place: usize,
    pub name: Name,
    pub members: Items<Item>,
    pub by_ref: Items<Items<u8>>,
}

/// An object that may be a member of sets by reference: the line where it begins, the member that it is, the
/// sets that it names, and its maintainers, in upper case.
#[derive(Debug, Drop)]
pub(crate) struct Claim {
    pub line: usize,
    pub member: Item,
    pub sets: Items<Name>,
    pub maintainers: Items<Items<u8>>,
}
