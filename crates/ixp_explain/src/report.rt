//! What is told of a route, and why nothing is.
use ixp_eval::{CallFault, EvalFault};
use ixp_lang::{Fate, Route};
use ixp_num::{Asn, Family, Items, Name};
use ixp_read::ReadFault;
use std::alloc::{AllocError, AllocFailed};

/// What becomes of a route by a text.
#[derive(Debug, Drop)]
pub struct Report {
    pub fate: Fate,
    /// Why the route is stopped: the number that its tag `(rs, 1101, number)` gives, where `rs` is the
    /// session's own AS number.
    pub number: Option<u32>,
}

/// What a member is told of its own route.
#[derive(Debug, Drop)]
pub struct OwnReport {
    /// The route as the server holds it; None where the session's filter rejects it.
    pub tagged: Option<Route>,
    /// Whether it passes to the other sessions' tables.
    pub passed: bool,
    pub number: Option<u32>,
    /// For each peer that was asked, how often the member's number is put in front of the path; None where
    /// the route isn't to be sent there.
    pub asks: Items<(Asn, Option<u8>)>,
}

/// Why a text says nothing of a route.
#[derive(Debug, Drop)]
pub enum ExplainFault {
    /// The text is no configuration.
    Unread(ReadFault),
    /// The session is of this family, and the route of the other one.
    Family { family: Family },
    /// A filter or a function has no outcome, or there is no such session.
    Fault(CallFault),
    /// The function of this name isn't of its form: `ixp_sends` takes an int and gives a bool, `ixp_count`
    /// takes an int and gives an int of at most 255.
    Shape { name: Name },
    /// There wasn't enough memory.
    NoMemory,
}

impl From<AllocError> for ExplainFault {
    ghost use Rattle.std.specs.Prelude.{◌≡◌};
    ghost use Rattle.ixp_explain.specs.declared.report.ExplainFault.TheVariants.{NoMemory};

    ghost from_gives = { λ _ e. e ≡ NoMemory };

    fn from(_error: AllocError) -> ExplainFault {
        ExplainFault::NoMemory
    }
}

impl<T: Drop> From<AllocFailed<T>> for ExplainFault {
    ghost use Rattle.std.specs.Prelude.{◌≡◌};
    ghost use Rattle.ixp_explain.specs.declared.report.ExplainFault.TheVariants.{NoMemory};

    ghost from_gives = { λ _ e. e ≡ NoMemory };

    fn from(_error: AllocFailed<T>) -> ExplainFault {
        ExplainFault::NoMemory
    }
}

impl From<EvalFault> for ExplainFault {
    ghost use Rattle.std.specs.Prelude.{◌≡◌};
    ghost use Rattle.ixp_explain.specs.Troubles.{told_fault};

    ghost from_gives = { λ fault e. e ≡ told_fault fault };

    fn from(fault: EvalFault) -> ExplainFault {
        match fault {
            EvalFault::NoMemory => ExplainFault::NoMemory,
            fault => ExplainFault::Fault(CallFault::Failed { fault }),
        }
    }
}

impl From<CallFault> for ExplainFault {
    ghost use Rattle.std.specs.Prelude.{◌≡◌};
    ghost use Rattle.ixp_explain.specs.Troubles.{told_call};

    ghost from_gives = { λ fault e. e ≡ told_call fault };

    fn from(fault: CallFault) -> ExplainFault {
        match fault {
            CallFault::Failed { fault } => ExplainFault::from(fault),
            CallFault::Ended => ExplainFault::Fault(CallFault::Ended),
        }
    }
}
