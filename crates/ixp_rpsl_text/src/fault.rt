//! Why there is no text.
use ixp_num::Name;

/// What is wrong with whois data, or with what is asked of them.
#[derive(Debug, Drop)]
pub enum ExpandCause {
    /// J1: the line isn't of its form, or a value or an object that begins in it. Lines are counted from 1.
    Line { n: usize },
    /// J2: no object has the name of the set.
    NoSet { set: Name },
    /// J3: there are so many AS numbers or prefixes, more than 300,000.
    TooMany { have: usize },
}

/// Why an expansion isn't written.
#[derive(Debug, Drop)]
pub enum ExpandFault {
    Bad { cause: ExpandCause },
    NoMemory,
}
