//! The text of a route server, generated from the rows of a valid registry, is read back, and does what the
//! rules say.
//!
//! `specs/Right.antt` has what there is to believe: the text (`Gen`), and when a text is right for a router
//! (`Right`). [`text_of`] gives that text by the server's handle: commands and the interface hand out no
//! other configuration.
//!
//! Such a text is sound (`is_sound` of `ixp_lang_laws`): each name is declared once and before it is used,
//! each set has a member, types and levels fit. So the tokens of the generated trees spell them, and the text
//! that is printed of them is read as these trees and no others. The same holds of each session's own text.
//! The laws' functions do nothing: each is called for what it ensures.
#![tactic(auto)]

mod laws;
mod router_text;

pub use laws::{
    generated_text_is_read_back, generated_text_is_right, generated_text_is_sound,
    generated_text_is_spelt,
};
pub use router_text::text_of;
