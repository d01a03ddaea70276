//! That what lies under the lock may go to other threads.
use crate::locked::Locked;
use ixp_board::{BoardName, Note, Publish};
use ixp_desk_history::DeskStory;
use ixp_io::Keeper;

fn is_send<T: Send>(_it: &T) {}

/// A [`Locked`] may go to other threads where its store and its writer may, so threads may share a lock over
/// it. It does nothing: it is called for what it shows.
pub fn locks_cross_threads<
    P: Keeper + Drop + Send,
    N: BoardName + Send + Sync,
    W: Publish<Note<DeskStory, N>> + Send,
>(locked: &Locked<P, N, W>) {
    is_send(locked);
}
