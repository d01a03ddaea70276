//! What is owed.
use ixp_build_touches::Reached;
use ixp_desk_history::Turn;

/// A turn that is owed to the history, with what its edit reached until that is noted.
#[derive(Drop)]
pub struct Owed {
    pub(crate) turn: Turn,
    pub(crate) reached: Option<Reached>,
}
