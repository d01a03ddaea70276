//! The content of replies.
use ixp_num_tables::Items;
use std::marker::Model;

/// Bytes that stand in the program, or that were made.
#[derive(Debug, Drop)]
enum Bytes {
    Fixed(&'static [u8]),
    Made(Items<u8>),
}

/// The content of a reply. A fixed text does not allocate.
#[derive(Debug, Drop)]
pub struct Content {
    bytes: Bytes,
}

impl Model for Content {
    ghost use Rattle.std.specs.Prelude.{List, ℕ};
    ghost use Rattle.ixp_http.specs.Contents.{bytes_of};

    ghost Value = { List ℕ };

    ghost view = { λ c. bytes_of c.bytes };
}

impl Content {
    ghost use Rattle.std.specs.Prelude.{◌≡◌, length};

    /// A fixed text.
    pub fn fixed(text: &'static [u8]) -> Content
        ensures { result ≡ text.now }
    {
        Content {
            bytes: Bytes::Fixed(text),
        }
    }

    /// A text that was made.
    pub fn made(text: Items<u8>) -> Content
        ensures { result ≡ text }
    {
        Content {
            bytes: Bytes::Made(text),
        }
    }

    /// The bytes of the content.
    pub fn as_slice(&self) -> &[u8]
        ensures { result.now ≡ self.now }
    {
        match &self.bytes {
            Bytes::Fixed(text) => text,
            Bytes::Made(text) => text.as_slice(),
        }
    }

    /// How many bytes there are.
    pub fn len(&self) -> usize
        ensures { result ≡ length self.now }
    {
        self.as_slice().len()
    }
}
