//! Why a text is no dump.
use ixp_num::{Cause, Code, Place};
use std::alloc::AllocError;

/// Why a text is no dump of a valid registry. Lines are counted from 1; the fault is that of the first line
/// that can't stand there.
#[derive(Clone, Copy, Debug, PartialEq, Eq)]
pub enum DumpFault {
    /// U1: it is no line of the format, or the text ends early or goes on.
    BadLine { line: usize },
    /// U2: it belongs before the line before it.
    Order { line: usize },
    /// U3: it has the key of the line before it.
    Twice { line: usize },
    /// U4: all lines are of their form and in order, and the rows break a rule, from 1 to 15, the lowest one,
    /// first at this line.
    Invalid { rule: u32, line: usize },
    NoMemory,
}

impl DumpFault {
    ghost use Rattle.std.specs.Prelude.{◌≡◌};
    ghost use Rattle.ixp_rows.specs.Causes.{cause_of};

    /// How the fault is told; None where memory ran out.
    pub fn cause(self) -> Option<Cause>
        ensures { result ≡ cause_of self }
    {
        let (code, line) = match self {
            DumpFault::BadLine { line } => (Code::U1, line),
            DumpFault::Order { line } => (Code::U2, line),
            DumpFault::Twice { line } => (Code::U3, line),
            DumpFault::Invalid { rule, line } => {
                let place = Place::Rule {
                    rule,
                    line: line as u64,
                };
                return Some(Cause {
                    code: Code::U4,
                    place,
                });
            }
            DumpFault::NoMemory => return None,
        };
        let place = Place::Line { line: line as u64 };
        Some(Cause { code, place })
    }
}

impl From<AllocError> for DumpFault {
    ghost use Rattle.std.specs.Prelude.{◌≡◌};
    ghost use Rattle.ixp_rows.specs.declared.fault.DumpFault.TheVariants.{NoMemory};

    ghost from_gives = { λ _ e. e ≡ NoMemory };

    fn from(_error: AllocError) -> DumpFault {
        DumpFault::NoMemory
    }
}
