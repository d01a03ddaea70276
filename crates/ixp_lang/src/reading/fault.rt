//! Why a text is no route.
ghost use Rattle.std.specs.Prelude.{◌≡◌, length};
ghost use Rattle.ixp_lang.specs.RouteAnswers as spec;

use thiserror::Error;

/// Why a text is no route. Places are counted in bytes, from 0.
#[derive(Debug, Drop, PartialEq, Error)]
pub enum RouteFault {
    /// E1: no route text goes on with the byte at `at`, or the text ends there too early. A number above its
    /// bound is told at its first byte, a net with bits behind its length at 0.
    #[error("no route goes on at byte {at}")]
    Text { at: usize },
    /// E2: net and next hop are of two families; all else is right.
    #[error("net and next hop are of two families")]
    Family,
    /// E3: an AS set begins in the path. Routes have none here (RFC 6472).
    #[error("an AS set begins at byte {at}")]
    Set { at: usize },
    /// E4: the item that begins at `at` is the 1,001st of its list.
    #[error("the list has too many items at byte {at}")]
    TooLong { at: usize },
    /// Memory ran out.
    #[error("memory ran out")]
    NoMemory,
}

/// Why reading stops, and how many bytes are left there.
#[derive(Clone, Copy, Debug)]
pub(crate) enum Stop {
    Text(usize),
    Set(usize),
    TooLong(usize),
    NoMemory,
}

/// The fault, with its place in the text.
pub(crate) fn placed(t: &[u8], stop: Stop) -> RouteFault
    ensures { result ≡ spec.placed (length t.now) stop }
{
    match stop {
        Stop::Text(left) => RouteFault::Text {
            at: t.len().saturating_sub(left),
        },
        Stop::Set(left) => RouteFault::Set {
            at: t.len().saturating_sub(left),
        },
        Stop::TooLong(left) => RouteFault::TooLong {
            at: t.len().saturating_sub(left),
        },
        Stop::NoMemory => RouteFault::NoMemory,
    }
}
