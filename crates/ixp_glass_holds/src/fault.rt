//! Why routes aren't held.
use std::alloc::AllocError;

/// Why a session doesn't hold the routes.
#[derive(Debug, Drop)]
pub enum HoldFault {
    /// Z1: there are so many routes, or so many sessions with this one, and no more than the limit may be
    /// held.
    TooMany { have: u64, limit: u64 },
    /// Z2: the route at this place, counted from 1, is of the other family.
    Family { place: u64 },
    NoMemory,
}

impl From<AllocError> for HoldFault {
    ghost use Rattle.std.specs.Prelude.{◌≡◌};
    ghost use Rattle.ixp_glass_holds.specs.declared.fault.HoldFault.TheVariants.{NoMemory};

    ghost from_gives = { λ _ e. e ≡ NoMemory };

    fn from(_error: AllocError) -> HoldFault {
        HoldFault::NoMemory
    }
}
