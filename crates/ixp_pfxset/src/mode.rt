//! How far a list of prefixes goes.

/// Which prefixes a list allows: `Exact` those of the list alone, `More` also the longer ones that they
/// cover.
#[derive(Clone, Copy, Debug, PartialEq, Eq)]
pub enum Mode {
    Exact,
    More,
}
