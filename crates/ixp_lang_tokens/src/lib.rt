//! The tokens of a filter text.
//!
//! [`tokens_of`] cuts any bytes into the tokens of the profile of BIRD 2's language (User's Guide, chapter
//! "Configuration"). It refuses nothing: where a byte begins no token, or a number or an address has no
//! value, a token that no text has stands there and is the last. So a reader meets an earlier fault of its
//! own first. Which tokens a text has is `Tokens` of `specs/Tokens.antt`: a text is cut into pieces, each as
//! long as it can be, and each piece says a token. A text has one such list ([`one_list`]), and what is
//! written so is read again ([`written_tokens`]). The readers of one token, from which all others are made,
//! stand here too.
#![tactic(auto)]

mod boxed;
mod fault;
mod gap;
mod lexer;
mod lexer_laws;
mod runs;
mod shape;
mod take;
mod token;
mod word;

pub use boxed::Boxed;
pub use fault::{Cause, Fault};
pub use lexer::{left_at, tokens_of};
pub use lexer_laws::{one_list, written_tokens};
pub use take::{
    addr_at, after_mark, after_word, is_mark, is_word, mark_at, name_at, number_at, unexpected,
    word_at,
};
pub use token::{Kind, Mark, Token};
pub use word::{Keyword, is_foreign};
