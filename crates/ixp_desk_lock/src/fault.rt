//! Why calls of a desk are not done.
use ixp_registry::Refusal;
use std::alloc::AllocError;

/// Why no turn was made.
#[derive(Debug, Drop)]
pub enum TurnFault {
    /// Y4: the seat's count of turns isn't the one that is kept.
    SeatCount { seat: u64, kept: u64 },
    /// Y5: the count of the seat's turns is at its end.
    Ended { count: u64 },
    NoMemory,
}

/// Why an edit wasn't made.
#[derive(Debug, Drop)]
pub enum SubmitFault {
    Refused(Refusal),
    /// Y1: the store failed, and its count of faults rose.
    KeeperFault,
    /// Y4: the seat's count of turns isn't the one that is kept.
    SeatCount { seat: u64, kept: u64 },
    /// Y5: the count of the seat's turns is at its end, or that of accepted edits.
    Ended { count: u64 },
    /// Memory ran out. The edit may have been made all the same: with the same number it may be sent again.
    NoMemory,
}

/// Why a question wasn't answered.
#[derive(Debug, Drop)]
pub enum AskFault {
    Refused(Refusal),
    /// The interface is no session of the router.
    NoSession,
    /// Y4: the seat's count of turns isn't the one that is kept.
    SeatCount { seat: u64, kept: u64 },
    /// Y5: the count of the seat's turns is at its end.
    Ended { count: u64 },
    NoMemory,
}

/// Why no configuration is handed out.
#[derive(Debug, Drop)]
pub enum PubFault {
    Refused(Refusal),
    /// Y2: no edit of the reader's own with this number was made.
    SeenUnknown { number: u64 },
    /// Y3: no router has the handle.
    NoRouter,
    /// Y4: the seat's count of turns isn't the one that is kept.
    SeatCount { seat: u64, kept: u64 },
    /// Y5: the count of the seat's turns is at its end.
    Ended { count: u64 },
    NoMemory,
}

impl From<AllocError> for PubFault {
    ghost use Rattle.std.specs.Prelude.{◌≡◌};
    ghost use Rattle.ixp_desk_lock.specs.declared.fault.PubFault.TheVariants.{NoMemory};

    ghost from_gives = { λ _ e. e ≡ NoMemory };

    fn from(_error: AllocError) -> PubFault {
        PubFault::NoMemory
    }
}

impl From<TurnFault> for PubFault {
    ghost use Rattle.ixp_desk_lock.specs.Published.{SamePub};

    ghost from_gives = { SamePub };

    fn from(fault: TurnFault) -> PubFault {
        match fault {
            TurnFault::SeatCount { seat, kept } => PubFault::SeatCount { seat, kept },
            TurnFault::Ended { count } => PubFault::Ended { count },
            TurnFault::NoMemory => PubFault::NoMemory,
        }
    }
}

impl From<AllocError> for TurnFault {
    ghost use Rattle.std.specs.Prelude.{◌≡◌};
    ghost use Rattle.ixp_desk_lock.specs.declared.fault.TurnFault.TheVariants.{NoMemory};

    ghost from_gives = { λ _ e. e ≡ NoMemory };

    fn from(_error: AllocError) -> TurnFault {
        TurnFault::NoMemory
    }
}

impl From<AllocError> for SubmitFault {
    ghost use Rattle.std.specs.Prelude.{◌≡◌};
    ghost use Rattle.ixp_desk_lock.specs.declared.fault.SubmitFault.TheVariants.{NoMemory};

    ghost from_gives = { λ _ e. e ≡ NoMemory };

    fn from(_error: AllocError) -> SubmitFault {
        SubmitFault::NoMemory
    }
}

impl From<AllocError> for AskFault {
    ghost use Rattle.std.specs.Prelude.{◌≡◌};
    ghost use Rattle.ixp_desk_lock.specs.declared.fault.AskFault.TheVariants.{NoMemory};

    ghost from_gives = { λ _ e. e ≡ NoMemory };

    fn from(_error: AllocError) -> AskFault {
        AskFault::NoMemory
    }
}

impl From<TurnFault> for SubmitFault {
    ghost use Rattle.ixp_desk_lock.specs.Calls.{SameSubmit};

    ghost from_gives = { SameSubmit };

    fn from(fault: TurnFault) -> SubmitFault {
        match fault {
            TurnFault::SeatCount { seat, kept } => SubmitFault::SeatCount { seat, kept },
            TurnFault::Ended { count } => SubmitFault::Ended { count },
            TurnFault::NoMemory => SubmitFault::NoMemory,
        }
    }
}

impl From<TurnFault> for AskFault {
    ghost use Rattle.ixp_desk_lock.specs.Calls.{SameAsk};

    ghost from_gives = { SameAsk };

    fn from(fault: TurnFault) -> AskFault {
        match fault {
            TurnFault::SeatCount { seat, kept } => AskFault::SeatCount { seat, kept },
            TurnFault::Ended { count } => AskFault::Ended { count },
            TurnFault::NoMemory => AskFault::NoMemory,
        }
    }
}
