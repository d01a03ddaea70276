//! The moment of an export (RFC 3339).
ghost use Rattle.std.specs.Prelude.{◌≡◌, IfOk, string_bytes};
ghost use Rattle.ixp_ixf.specs.Moments.{moment_text};

use jiff::Timestamp;
use jiff::tz::Offset;
use std::alloc::{AllocError, Global};

/// The last second since 1970 that has a date in every time zone; later ones count as this one.
pub const LAST_SECOND: u64 = 253402207199;

/// The date and time in UTC of a second since 1970.
pub(crate) fn moment_text(alloc: Global, second: u64) -> Result<String, AllocError>
    ensures { IfOk result (λ text. string_bytes text ≡ moment_text second) }
{
    let stamp = Timestamp::from_second(second.min(LAST_SECOND) as i64).unwrap();
    let civil = Offset::UTC.to_datetime(stamp);
    format!(in alloc; "{civil}Z")
}
