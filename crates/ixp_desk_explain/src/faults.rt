//! Why nothing is told.
ghost use Rattle.std.specs.Prelude.{◌≡◌};
ghost use Rattle.ixp_desk_explain.specs.Explanations.{fault_outcome, own_fault};
ghost use Rattle.ixp_desk_explain.specs.Glass.{is_unknown, session_fault};

use ixp_api_replies::Outcome;
use ixp_desk::{AskFault, PubFault};
use ixp_registry::Refusal;

/// How a request ends to which no configuration is handed out.
pub fn fault_outcome(fault: PubFault) -> Outcome
    ensures { result ≡ fault_outcome fault }
{
    match fault {
        PubFault::Refused(refusal) => Outcome::Refused(refusal),
        PubFault::SeenUnknown { number } => Outcome::SeenUnknown { number },
        PubFault::NoRouter => Outcome::NoRouter,
        PubFault::SeatCount { seat, kept } => Outcome::SeatCount { seat, kept },
        PubFault::Ended { count } => Outcome::Ended { count },
        PubFault::NoMemory => Outcome::NoMemory,
    }
}

/// How a request ends to which no session's own text is handed out.
pub(crate) fn own_fault(fault: AskFault) -> Outcome
    ensures { result ≡ own_fault fault }
{
    match fault {
        AskFault::Refused(refusal) => Outcome::Refused(refusal),
        AskFault::NoSession => Outcome::NoSession,
        AskFault::SeatCount { seat, kept } => Outcome::SeatCount { seat, kept },
        AskFault::Ended { count } => Outcome::Ended { count },
        AskFault::NoMemory => Outcome::NoMemory,
    }
}

/// X4: the interface isn't there, or the router is there no longer.
fn is_unknown(fault: &AskFault) -> bool
    ensures { result ≡ is_unknown fault.now }
{
    match fault {
        AskFault::Refused(Refusal::Unknown { .. }) => true,
        _ => false,
    }
}

/// How a request of the staff ends where the interface has no session with the router, or it isn't known
/// whether it has.
pub(crate) fn session_fault(fault: AskFault) -> Outcome
    ensures { result ≡ session_fault fault }
{
    if is_unknown(&fault) {
        return Outcome::NoSession;
    }
    own_fault(fault)
}
