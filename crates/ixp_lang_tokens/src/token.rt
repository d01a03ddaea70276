//! Tokens.
ghost use Rattle.std.specs.Prelude.{◌≡◌};
ghost use Rattle.ixp_lang_tokens.specs.Pieces.{rank, same_mark};
ghost use Rattle.ixp_lang_tokens.specs.Tokens.{is_last};

use crate::{Boxed, Keyword};
use ixp_num::{Addr, Items, Name, Prefix};

/// A mark of one or two characters.
#[derive(Clone, Copy)]
pub enum Mark {
    /// `;`
    Semicolon,
    /// `,`
    Comma,
    /// `.`
    Dot,
    /// `..`
    Range,
    /// `:`
    Colon,
    /// `(`
    Open,
    /// `)`
    Close,
    /// `{`
    BlockOpen,
    /// `}`
    BlockClose,
    /// `[`
    SetOpen,
    /// `]`
    SetClose,
    /// `=`
    Equal,
    /// `!=`
    Unequal,
    /// `<`
    Less,
    /// `<=`
    LessEqual,
    /// `>`
    Greater,
    /// `>=`
    GreaterEqual,
    /// `~`
    In,
    /// `!~`
    NotIn,
    /// `!`
    Not,
    /// `&&`
    And,
    /// `||`
    Or,
    /// `->`
    Arrow,
    /// `+`
    Plus,
    /// `-`
    Minus,
    /// `*`
    Star,
    /// `/`, which stands in no text: a comment and a prefix are tokens of their own.
    Slash,
}

impl Mark {
    /// Marks are told apart by number.
    fn rank(self) -> u8
        ensures { result ≡ rank self }
    {
        match self {
            Mark::Semicolon => 0,
            Mark::Comma => 1,
            Mark::Dot => 2,
            Mark::Range => 3,
            Mark::Colon => 4,
            Mark::Open => 5,
            Mark::Close => 6,
            Mark::BlockOpen => 7,
            Mark::BlockClose => 8,
            Mark::SetOpen => 9,
            Mark::SetClose => 10,
            Mark::Equal => 11,
            Mark::Unequal => 12,
            Mark::Less => 13,
            Mark::LessEqual => 14,
            Mark::Greater => 15,
            Mark::GreaterEqual => 16,
            Mark::In => 17,
            Mark::NotIn => 18,
            Mark::Not => 19,
            Mark::And => 20,
            Mark::Or => 21,
            Mark::Arrow => 22,
            Mark::Plus => 23,
            Mark::Minus => 24,
            Mark::Star => 25,
            Mark::Slash => 26,
        }
    }

    /// Whether both are one mark.
    pub fn is(self, other: Mark) -> bool
        ensures { result ≡ same_mark self other }
    {
        self.rank() == other.rank()
    }
}

/// What a token is. All that is larger than a word of memory stands on the heap, since most tokens are marks
/// and numbers.
#[derive(Drop)]
pub enum Kind {
    /// A name that is no keyword.
    Name(Boxed<Name>),
    /// A keyword.
    Word(Keyword),
    Number(u32),
    Addr(Boxed<Addr>),
    Prefix(Boxed<Prefix>),
    /// What stands between two quotes.
    Text(Boxed<Items<u8>>),
    Mark(Mark),
    /// A byte that begins no token.
    BadByte,
    /// A number, an address or a prefix that has no value.
    BadNumber,
}

impl Kind {
    /// Whether no token follows in the list: no text has one of these.
    pub fn is_last(&self) -> bool
        ensures { result ≡ is_last self.now }
    {
        matches!(
            self,
            Kind::BadByte | Kind::BadNumber | Kind::Mark(Mark::Slash)
        )
    }
}

/// A token of a text. It doesn't keep its place, since only a fault asks for one: [`crate::left_at`] finds
/// it.
#[derive(Drop)]
pub struct Token {
    pub kind: Kind,
}
