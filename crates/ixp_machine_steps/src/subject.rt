//! What an edit is about.
use ixp_num::Name;
use ixp_registry::PublicKind;

/// What an edit is about, among the edits of its kind.
#[derive(Debug, Drop)]
pub enum Subject {
    Number(u32),
    /// Of a contact the member and the place; of an address or a list the interface or the member, and the
    /// family, 4 or 6.
    Pair(u32, u32),
    /// A router's.
    Handle(Name),
    Public(PublicKind),
}
