//! What a refusal of the database is to a keeper.
ghost use Rattle.std.specs.Prelude.{◌≡◌, ◌+◌, ◌<◌, ◌⊎◌};
ghost use Rattle.ixp_io.specs.Faults.{last_count};
ghost use Rattle.ixp_keeper_sql.specs.Refusals.{answer_to, counted_for, refusal_of, told};

use ixp_io::KeepFault;
use sqlite::{Error, ErrorCode};
use sqlite_trees::error::StoreError;

/// Running out of memory is answered as such, and every other refusal is counted.
pub fn counted(faults: &mut u64, refusal: &Error) -> KeepFault
    requires { faults.old < last_count }
    ensures either { ((result ≡ KeepFault.NoMemory) × (faults.new ≡ faults.old))
        ⊎ ((result ≡ KeepFault.Failed) × (faults.new ≡ faults.old + 1)) }
    ensures answer { result ≡ answer_to refusal.now }
    ensures count { faults.new ≡ faults.old + counted_for (answer_to refusal.now) }
{
    match refusal {
        Error::SqliteFailure(ErrorCode::OutOfMemory) => KeepFault::NoMemory,
        _ => {
            *faults += 1;
            KeepFault::Failed
        }
    }
}

/// A failure of the store as the connection would tell it.
pub fn named(error: StoreError) -> Error
    ensures { result ≡ refusal_of error }
{
    Error::SqliteFailure(match error {
        StoreError::OutOfMemory => ErrorCode::OutOfMemory,
        StoreError::Io => ErrorCode::SystemIoFailure,
        StoreError::Corrupt => ErrorCode::DatabaseCorrupt,
        StoreError::Full => ErrorCode::DiskFull,
        StoreError::Broken => ErrorCode::Closed,
        StoreError::Unstorable => ErrorCode::TooBig,
    })
}

/// What the store did, as the connection would tell it.
pub fn made<X: Drop>(done: Result<X, StoreError>) -> Result<X, Error>
    ensures { result ≡ told done }
{
    match done {
        Ok(x) => Ok(x),
        Err(error) => Err(named(error)),
    }
}
