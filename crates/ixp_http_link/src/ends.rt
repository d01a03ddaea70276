//! How a link ends.

/// Why a link ended.
#[derive(Clone, Copy, Debug, PartialEq, Eq, Drop)]
pub enum LinkEnd {
    /// The input ended between two messages, or the last request asked to close.
    Closed,
    /// No message stood there, and this is the status of its reply: 400, 413, 431 or 501.
    BadMessage(u16),
    /// The input ended inside a message.
    Cut,
    /// 100,000 requests were answered, and the last one didn't ask to close.
    Spent,
    /// A read failed.
    ReadFault,
    /// A write failed.
    WriteFault,
    /// Memory ran out. The reply that says so was written, or a first part of it where that write failed.
    NoMemory,
}

/// How a link ended, and how many of its requests got their reply, running out of memory and a reply that was
/// cut off aside.
#[derive(Clone, Copy, Debug, PartialEq, Eq, Drop)]
pub struct Served {
    pub end: LinkEnd,
    pub requests: u32,
}
