//! Where an object stands by its source.

/// The source of an object among those that are listed.
#[derive(Clone, Copy, Debug)]
pub(crate) enum Standing {
    /// It names none.
    Nowhere,
    /// One that isn't listed.
    Elsewhere,
    /// The one at this place of the list.
    At(usize),
}
