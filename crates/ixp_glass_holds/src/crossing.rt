//! That boards of holds may be used by several threads.
use crate::sharing::{GlassDesk, GlassSeat};
use crate::story::HoldStory;
use ixp_board::{BoardName, Note, Publish};

fn is_sync<T: Sync>(_it: &T) {}

fn is_send<T: Send>(_it: &T) {}

/// Threads may share a [`GlassDesk`] where its writer may go to other threads, and a seat may go to another
/// thread. It does nothing: it is called for what it shows.
pub fn glass_crosses_threads<N: BoardName + Send + Sync, W: Publish<Note<HoldStory, N>> + Send>(
    desk: &GlassDesk<N, W>,
    seat: &GlassSeat<N>,
) {
    is_sync(desk);
    is_send(seat);
}
