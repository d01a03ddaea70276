//! Keywords.
ghost use Rattle.std.specs.Prelude.{◌≡◌, map, position};
ghost use Rattle.ixp_lang_tokens.specs.Pieces.{same_word};
ghost use Rattle.ixp_lang_tokens.specs.Vocabulary.{profile_words, foreign_words};
ghost use Rattle.ixp_lang_tokens.specs.Words.{IsKeyword, is_foreign_word};

use std::marker::Model;

/// The words of this profile.
const PROFILE_WORDS: [&[u8]; 60] = [
    b"router",
    b"id",
    b"table",
    b"ipv4",
    b"ipv6",
    b"roa4",
    b"roa6",
    b"define",
    b"function",
    b"filter",
    b"protocol",
    b"device",
    b"pipe",
    b"bgp",
    b"peer",
    b"import",
    b"export",
    b"all",
    b"none",
    b"local",
    b"as",
    b"neighbor",
    b"rs",
    b"client",
    b"password",
    b"limit",
    b"action",
    b"block",
    b"int",
    b"bool",
    b"ip",
    b"prefix",
    b"pair",
    b"lc",
    b"set",
    b"if",
    b"then",
    b"else",
    b"case",
    b"return",
    b"accept",
    b"reject",
    b"prepend",
    b"add",
    b"delete",
    b"true",
    b"false",
    b"net",
    b"from",
    b"len",
    b"first",
    b"last",
    b"bgp_path",
    b"bgp_next_hop",
    b"bgp_community",
    b"bgp_large_community",
    b"roa_check",
    b"ROA_VALID",
    b"ROA_INVALID",
    b"ROA_UNKNOWN",
];

/// The words that it leaves out.
const FOREIGN_WORDS: [&[u8]; 20] = [
    b"print",
    b"printn",
    b"for",
    b"attribute",
    b"template",
    b"include",
    b"rpki",
    b"static",
    b"kernel",
    b"bfd",
    b"ospf",
    b"string",
    b"quad",
    b"ec",
    b"clist",
    b"eclist",
    b"lclist",
    b"bgppath",
    b"bgpmask",
    b"bgp_ext_community",
];

fn profile_words() -> &'static [&'static [u8]]
    ensures { map (λ w. w.now) result.now ≡ profile_words }
{
    &PROFILE_WORDS
}

fn foreign_words() -> &'static [&'static [u8]]
    ensures { map (λ w. w.now) result.now ≡ foreign_words }
{
    &FOREIGN_WORDS
}

/// A keyword, of this profile or one that it leaves out. It does not allocate.
#[derive(Drop)]
pub struct Keyword {
    number: usize,
}

impl Model for Keyword {
    ghost use Rattle.std.specs.Prelude.{List, ℕ, ◌<◌, [], slice_index_or};
    ghost use Rattle.ixp_lang_tokens.specs.Vocabulary.{all_words};

    ghost Value = { List ℕ };

    ghost view = { λ k. slice_index_or all_words k.number [] };

    ghost invariant = { λ k. k.number < 80 };
}

/// Where the word stands among these, if it does.
fn place_of(word: &[u8], words: &[&[u8]]) -> Option<usize>
    ensures { result ≡ position (λ known. same_word word.now known.now) words.now }
{
    words.iter().position(|known| word == *known)
}

impl Keyword {
    /// The keyword that the word is, if it is one.
    pub fn of(word: &[u8]) -> Option<Keyword>
        ensures { IsKeyword word.now result }
    {
        let words = profile_words();
        match place_of(word, words) {
            Some(number) => Some(Keyword { number }),
            None => match place_of(word, foreign_words()) {
                Some(number) => Some(Keyword {
                    number: words.len() + number,
                }),
                None => None,
            },
        }
    }

    /// The bytes of the keyword.
    pub fn as_bytes(&self) -> &'static [u8]
        ensures { result.now ≡ self.now }
    {
        let words = profile_words();
        if self.number < words.len() {
            words[self.number]
        } else {
            foreign_words()[self.number - words.len()]
        }
    }
}

/// Whether it is a keyword of BIRD 2's that this profile leaves out.
#[tactic(auto, unfolding(crate::specs::Words::is_foreign_word))]
pub fn is_foreign(word: &[u8]) -> bool
    ensures { result ≡ is_foreign_word word.now }
{
    place_of(word, foreign_words()).is_some()
}
