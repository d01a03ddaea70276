//! Texts that an edit touches.
use ixp_num::{Items, Name};

/// Texts of route servers.
#[derive(Debug, Drop)]
pub struct Touch {
    /// Headers, by their routers' handles.
    pub headers: Items<Name>,
    /// Sessions' parts, by their routers' handles and the numbers of their interfaces.
    pub sessions: Items<(Name, u32)>,
    /// Whether the table of ROAs is another one.
    pub roas: bool,
}
