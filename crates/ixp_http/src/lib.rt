//! Requests of a stream of bytes, and replies (RFC 9112).
#![tactic(auto)]

mod buf;
mod content;
mod fields;
mod head;
mod next;
mod reply;
mod request;

pub use buf::Buf;
pub use content::Content;
pub use fields::{BODY_LIMIT, Field, first_value};
pub use next::{HttpFault, Next, bytes_have_a_reading, bytes_have_one_reading, next_request};
pub use reply::{HttpReply, write_reply};
pub use request::Request;
