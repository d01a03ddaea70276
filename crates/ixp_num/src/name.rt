//! Names: of routers, of set objects, and of the items of a filter text.
ghost use Rattle.std.specs.Prelude.{◌≡◌, ◌↔◌, ◌+◌, ◌≤◌, ◌++◌, List, ℕ, IsTrue, IfOk, length};
ghost use Rattle.std.specs.List.{list_all};
ghost use Rattle.ixp_num.specs.Names.{is_name, is_name_byte};

use ixp_num_tables::Items;
use std::alloc::{AllocError, Global};
use std::marker::Model;

/// The greatest number of bytes in a name.
pub const NAME_LIMIT: usize = 64;

/// A name of 1 to 64 bytes, each a letter, a digit, `_`, `-` or `:`. Each use narrows this as it says.
#[derive(Debug, Drop)]
pub struct Name {
    bytes: Items<u8>,
}

impl Model for Name {
    ghost use Rattle.std.specs.Prelude.{List, ℕ, IsTrue};
    ghost use Rattle.ixp_num.specs.Names.{is_name};

    ghost Value = { List ℕ };

    ghost view = { λ n. n.bytes };

    ghost invariant = { λ n. IsTrue (is_name n.bytes) };
}

fn is_name_byte(byte: u8) -> bool
    ensures { result ≡ is_name_byte byte }
{
    byte.is_ascii_alphanumeric() || byte == b'_' || byte == b'-' || byte == b':'
}

fn are_name_bytes(bytes: &[u8]) -> bool
    ensures { result ≡ list_all is_name_byte bytes.now }
{
    bytes.iter().all(|b| is_name_byte(*b))
}

impl Name {
    /// Whether the bytes are a name.
    pub fn is_name(bytes: &[u8]) -> bool
        ensures { result ≡ is_name bytes.now }
    {
        1 <= bytes.len() && bytes.len() <= NAME_LIMIT && are_name_bytes(bytes)
    }

    /// The name with these bytes.
    pub fn new(alloc: Global, bytes: &[u8]) -> Result<Name, AllocError>
        requires { IsTrue (is_name bytes.now) }
        ensures { IfOk result (λ n. n ≡ bytes.now) }
    {
        let bytes = Items::from_slice(alloc, bytes)?;
        Ok(Name { bytes })
    }

    /// The bytes of the name.
    pub fn as_bytes(&self) -> &[u8]
        ensures bytes { result.now ≡ self.now }
        ensures lawful { IsTrue (is_name self.now) }
    {
        self.bytes.as_slice()
    }

    /// An equal name.
    pub fn copied(&self, alloc: Global) -> Result<Name, AllocError>
        ensures { IfOk result (λ n. n ≡ self.now) }
    {
        Name::new(alloc, self.as_bytes())
    }
}
