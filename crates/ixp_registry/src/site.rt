//! The exchange itself.
use ixp_num::Items;

/// The exchange, as the member export names it (IX-F Member Export 1.0).
#[derive(Debug, Drop)]
pub struct Site {
    pub ixp_id: u32,
    pub ixf_id: u32,
    /// UTF-8 of at most 128 bytes.
    pub shortname: Items<u8>,
}
