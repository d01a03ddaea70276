//! A rule that rows break.

/// The first rule that the rows of a registry break, and the line of a dump on which the first row stands
/// that breaks it. Of two rows that don't go together it is the later one, and where a limit is passed it is
/// the first row above the limit.
#[derive(Clone, Copy, Debug, PartialEq, Eq)]
pub struct Breach {
    /// From 1 to 15.
    pub rule: u32,
    /// From 2 on: the first line is the dump's head.
    pub line: usize,
}
