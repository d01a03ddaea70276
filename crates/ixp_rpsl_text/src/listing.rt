//! Which part of an expansion is listed.

/// A listing of an expansion.
#[derive(Clone, Copy, Debug, PartialEq, Eq, Drop)]
pub enum Listing {
    /// The sets, each with the place of a set that names it.
    Sets,
    /// The AS numbers among the members of the sets.
    Origins,
    /// The prefixes of a family whose routes have one of these origins.
    Prefixes,
}
