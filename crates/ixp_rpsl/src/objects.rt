//! What objects say.
use ixp_num::{Asn, Items, Name, Prefix};

/// A member of a set: an autonomous system, or a set.
#[derive(Debug, Drop)]
pub enum Item {
    As(Asn),
    Set(Name),
}

/// An object of a set: its name in upper case, and its members in their order.
#[derive(Debug, Drop)]
pub struct SetRow {
    pub name: Name,
    pub members: Items<Item>,
}

/// What objects say: which prefixes are registered as routes from which origins, and which members sets have,
/// each in the order of the objects. Objects of one set name count as one, with the members of the first of
/// them first.
#[derive(Debug, Drop)]
pub struct Objects {
    pub routes: Items<(Prefix, Asn)>,
    pub sets: Items<SetRow>,
}

/// A set of an expansion, and the place, counted from 1, of a set of it among whose members it is; 0 for the
/// set that is expanded.
#[derive(Debug, Drop)]
pub struct Reach {
    pub set: Name,
    pub by: u64,
}
