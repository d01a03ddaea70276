//! How a request ended.
use ixp_api_json::CallFault;
use ixp_machine::Answer;
use ixp_num::Items;
use ixp_registry::Refusal;

/// How a request ended.
#[derive(Debug, Drop)]
pub enum Outcome {
    /// The edit with this number was made, or was made before.
    Done(u64),
    Answered(Answer),
    /// A configuration or another plain text.
    Text(Items<u8>),
    /// The request is no call.
    Called(CallFault),
    /// The message is no request, with this status.
    Head(u16),
    Refused(Refusal),
    /// Y1: the store failed, and the edit wasn't made.
    KeeperFault,
    /// Y2: no request with this number was accepted from the reader.
    SeenUnknown { number: u64 },
    /// Y3: there is no such router.
    NoRouter,
    /// The interface has no session with the router.
    NoSession,
    /// Y4: the seat's count of turns isn't the one that is kept.
    SeatCount { seat: u64, kept: u64 },
    /// Y5: a count has come to its end.
    Ended { count: u64 },
    /// So many routes of a session are held now.
    Held(u64),
    /// Z1: there would be more routes of a session, or sessions with routes, than the limit.
    TooManyHeld { have: u64, limit: u64 },
    /// Z2: the route at this place, counted from 1, isn't of the router's family.
    HeldFamily { place: u64 },
    /// Z3: no routes of the session are held, or none at this place.
    NotHeld,
    NoMemory,
}
