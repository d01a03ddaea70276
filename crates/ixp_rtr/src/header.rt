//! The header of a PDU.
ghost use Rattle.std.specs.Prelude.{◌≡◌};
ghost use Rattle.ixp_rtr.specs.Headers as spec;

/// The first eight bytes of a PDU (RFC 8210 section 5.1).
#[derive(Clone, Copy, Debug, PartialEq, Eq)]
pub struct Header {
    /// The protocol version; 1 is that of RFC 8210.
    pub version: u8,
    /// The PDU type (RFC 8210 section 14).
    pub kind: u8,
    /// The session ID, where the type has one; an Error Report has its error code here.
    pub session: u16,
    /// The length of the whole PDU in bytes, this header included.
    pub length: u32,
}

/// The header in these bytes.
pub(crate) fn header_of(bytes: &[u8; 8]) -> Header
    ensures { result ≡ spec.header_of bytes.now }
{
    Header {
        version: bytes[0],
        kind: bytes[1],
        session: u16::from_be_bytes([bytes[2], bytes[3]]),
        length: u32::from_be_bytes([bytes[4], bytes[5], bytes[6], bytes[7]]),
    }
}
