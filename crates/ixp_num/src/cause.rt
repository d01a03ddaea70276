//! Why an input is refused: a code and a place.
//!
//! Each reader tells its own faults; what the program writes of them is of one kind. A fault of a reader that
//! isn't running out of memory has a [`Cause`], and the text of a cause is a code, a blank and the place
//! (`specs/Causes.antt`).
ghost use Rattle.std.specs.Prelude.{◌≡◌};
ghost use Rattle.ixp_num.specs.Causes.{code_text};

/// What is wrong with an input. Codes with U are those of dumps and of inputs as a whole, with L those of
/// filter texts, with E those of a route's line.
#[derive(Clone, Copy, Debug, PartialEq, Eq)]
pub enum Code {
    /// The line is none of the format, or the text ends early or goes on.
    U1,
    /// The line belongs before the one before it.
    U2,
    /// The line has the key of the one before it.
    U3,
    /// The rows break a rule.
    U4,
    /// The input is longer than a command reads.
    U5,
    /// Here begins no token.
    L1,
    /// A number above its bound, or no address or prefix.
    L2,
    /// No text goes on with this token.
    L3,
    /// Nothing of the wanted sort has this name.
    L4,
    /// The name is taken.
    L5,
    /// `&&` and `||` side by side.
    L6,
    /// A type that doesn't fit.
    L7,
    /// Too many levels.
    L8,
    /// BIRD 2 has this, and the profile leaves it out.
    L9,
    /// It is no line of a route.
    E1,
    /// The route is of two families, or of another one than its session.
    E2,
    /// An AS set is in the path.
    E3,
    /// A list of the route has too many items.
    E4,
    /// The router has no session at the interface.
    E5,
}

/// Where an input is refused. Lines are numbered from 1, bytes from 0.
#[derive(Clone, Copy, Debug, PartialEq, Eq)]
pub enum Place {
    Line { line: u64 },
    Byte { at: u64 },
    /// A broken rule, and the first line that breaks it.
    Rule { rule: u32, line: u64 },
}

/// Why an input is refused.
#[derive(Clone, Copy, Debug, PartialEq, Eq)]
pub struct Cause {
    pub code: Code,
    pub place: Place,
}

/// The code as it is written.
pub fn code_text(code: Code) -> &'static [u8]
    ensures { result.now ≡ code_text code }
{
    match code {
        Code::U1 => b"U1",
        Code::U2 => b"U2",
        Code::U3 => b"U3",
        Code::U4 => b"U4",
        Code::U5 => b"U5",
        Code::L1 => b"L1",
        Code::L2 => b"L2",
        Code::L3 => b"L3",
        Code::L4 => b"L4",
        Code::L5 => b"L5",
        Code::L6 => b"L6",
        Code::L7 => b"L7",
        Code::L8 => b"L8",
        Code::L9 => b"L9",
        Code::E1 => b"E1",
        Code::E2 => b"E2",
        Code::E3 => b"E3",
        Code::E4 => b"E4",
        Code::E5 => b"E5",
    }
}
