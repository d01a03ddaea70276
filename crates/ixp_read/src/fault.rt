//! Why a text isn't read.
use ixp_num::{Cause, Code, Place};

/// Why bytes are no filter text. Each place is that of a token's first byte, counted from 0; where the text
/// ends too early, it is the text's length.
#[derive(Clone, Copy, Debug, PartialEq, Eq)]
pub enum ReadFault {
    /// Here begins no token. Printed as L1.
    Byte { at: usize },
    /// A number above its bound, or no address or prefix. Printed as L2.
    Number { at: usize },
    /// No text goes on with this token. Printed as L3.
    Unexpected { at: usize },
    /// No item or parameter of the wanted sort has this name. Printed as L4.
    UnknownName { at: usize },
    /// The name is taken. Printed as L5.
    NameTwice { at: usize },
    /// `&&` and `||` side by side. Printed as L6.
    MixedLogic { at: usize },
    /// A type that doesn't fit: at the operator, the called name, or the statement's first token. Printed as
    /// L7.
    WrongType { at: usize },
    /// More than 64 levels. Printed as L8.
    TooDeep { at: usize },
    /// BIRD 2 has this, and the profile leaves it out. Printed as L9.
    OutOfProfile { at: usize },
    /// There wasn't enough memory.
    NoMemory,
}

impl ReadFault {
    ghost use Rattle.std.specs.Prelude.{◌≡◌};
    ghost use Rattle.ixp_read.specs.Causes.{cause_of};

    /// How the fault is told; None where memory ran out.
    pub fn cause(self) -> Option<Cause>
        ensures { result ≡ cause_of self }
    {
        let (code, at) = match self {
            ReadFault::Byte { at } => (Code::L1, at),
            ReadFault::Number { at } => (Code::L2, at),
            ReadFault::Unexpected { at } => (Code::L3, at),
            ReadFault::UnknownName { at } => (Code::L4, at),
            ReadFault::NameTwice { at } => (Code::L5, at),
            ReadFault::MixedLogic { at } => (Code::L6, at),
            ReadFault::WrongType { at } => (Code::L7, at),
            ReadFault::TooDeep { at } => (Code::L8, at),
            ReadFault::OutOfProfile { at } => (Code::L9, at),
            ReadFault::NoMemory => return None,
        };
        let place = Place::Byte { at: at as u64 };
        Some(Cause { code, place })
    }
}
