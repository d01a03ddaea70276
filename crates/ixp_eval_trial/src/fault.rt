//! Why an input is no trial.
use ixp_num::{Cause, Code, Place};
use std::alloc::AllocError;
use thiserror::Error;

/// Why an input is no trial. Lines are numbered from 1.
#[derive(Clone, Copy, Debug, PartialEq, Eq, Error)]
pub enum TrialFault {
    /// The line begins as a ROA's and isn't of its form. Where no line is `%%`, it is the one behind the
    /// last.
    #[error("line {line} is none of a trial")]
    BadLine { line: u64 },
    /// The line is no route's. Where the text ends before it, it is the line behind the last.
    #[error("line {line} is no line of a route")]
    BadRoute { line: u64, code: RouteCode },
    /// Memory ran out.
    #[error("memory ran out")]
    NoMemory,
}

/// Why a line is no route's.
#[derive(Clone, Copy, Debug, PartialEq, Eq)]
pub enum RouteCode {
    /// E1: it isn't `route <session> <route>`, or the route's text is none.
    Text,
    /// E2: net and next hop are of two families.
    Family,
    /// E3: an AS set begins in the path.
    Set,
    /// E4: a list has more than 1,000 items.
    TooLong,
}

impl RouteCode {
    ghost use Rattle.std.specs.Prelude.{◌≡◌};
    ghost use Rattle.ixp_eval_trial.specs.Causes.{code_of};

    /// The code that is told.
    fn code(self) -> Code
        ensures { result ≡ code_of self }
    {
        match self {
            RouteCode::Text => Code::E1,
            RouteCode::Family => Code::E2,
            RouteCode::Set => Code::E3,
            RouteCode::TooLong => Code::E4,
        }
    }
}

impl TrialFault {
    ghost use Rattle.std.specs.Prelude.{◌≡◌};
    ghost use Rattle.ixp_eval_trial.specs.Causes.{cause_of};

    /// How the fault is told; None where memory ran out.
    pub fn cause(self) -> Option<Cause>
        ensures { result ≡ cause_of self }
    {
        let (code, line) = match self {
            TrialFault::BadLine { line } => (Code::U1, line),
            TrialFault::BadRoute { line, code } => (code.code(), line),
            TrialFault::NoMemory => return None,
        };
        let place = Place::Line { line };
        Some(Cause { code, place })
    }
}

/// Why a line of a ROA isn't read.
#[derive(Clone, Copy, Debug)]
pub(crate) enum Unread {
    /// It isn't of its form.
    Bad,
    NoMemory,
}

impl From<AllocError> for Unread {
    ghost use Rattle.std.specs.Prelude.{◌≡◌};
    ghost use Rattle.ixp_eval_trial.specs.declared.fault.Unread.TheVariants.{NoMemory};

    ghost from_gives = { λ _ e. e ≡ NoMemory };

    fn from(_error: AllocError) -> Unread {
        Unread::NoMemory
    }
}

/// Why a route's line isn't read.
#[derive(Clone, Copy, Debug)]
pub(crate) enum Misfit {
    Bad(RouteCode),
    NoMemory,
}
