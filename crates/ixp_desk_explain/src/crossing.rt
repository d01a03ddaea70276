//! That looking glasses may be used by several threads.
use crate::glass::LookingGlass;
use ixp_board::{BoardName, Note, Publish};
use ixp_glass_holds::HoldStory;

fn is_sync<T: Sync>(_it: &T) {}

/// Threads may share a [`LookingGlass`] where its writer may go to other threads. It does nothing: it is
/// called for what it shows.
pub fn looking_glass_crosses_threads<
    M: BoardName + Send + Sync,
    V: Publish<Note<HoldStory, M>> + Send,
>(glass: &LookingGlass<M, V>) {
    is_sync(glass);
}
