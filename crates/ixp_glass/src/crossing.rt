//! That a glass may be used by several threads.
use crate::sharing::SharedReports;

fn is_sync<T: Sync>(_it: &T) {}

/// Threads may share a glass by a lock. It does nothing: it is called for what it shows.
pub fn reports_cross_threads(shared: &SharedReports) {
    is_sync(shared);
}
