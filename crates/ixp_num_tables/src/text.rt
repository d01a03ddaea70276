//! Writing texts into a vector of bytes: bytes as they are, decimal numbers, lists with a text between any
//! two items, and texts that were made aside. Each function says exactly which bytes it adds at the end;
//! where memory runs out it adds none.
ghost use Rattle.std.specs.Prelude.{◌≡◌, ◌++◌, List, ℕ, decimal, OnOk, OnErr};
ghost use Rattle.ixp_num_tables.specs.Joined.{joined};

use itoa::Buffer;
use std::alloc::AllocError;

/// Adds bytes as they are.
pub fn put(out: &mut Vec<u8>, text: &[u8]) -> Result<(), AllocError>
    ensures ok { OnOk result (out.new.items ≡ out.old.items ++ text.now) }
    ensures err { OnErr result (out.new.items ≡ out.old.items) }
{
    out.extend_from_slice(text)
}

/// Adds a number in decimal, without leading zeros.
pub fn put_number(out: &mut Vec<u8>, number: u64) -> Result<(), AllocError>
    ensures ok { OnOk result (out.new.items ≡ out.old.items ++ decimal number) }
    ensures err { OnErr result (out.new.items ≡ out.old.items) }
{
    let mut buffer = Buffer::new();
    put(out, buffer.format(number).as_bytes())
}

/// Adds a text that was made aside. An empty vector takes it over without a copy. A printer that writes piece
/// by piece makes its text aside and ends with this, so that running out of memory leaves no part of it behind.
pub fn put_whole(out: &mut Vec<u8>, text: Vec<u8>) -> Result<(), AllocError>
    ensures ok { OnOk result (out.new.items ≡ out.old.items ++ text.items) }
    ensures err { OnErr result (out.new.items ≡ out.old.items) }
{
    if out.is_empty() {
        *out = text;
        return Ok(());
    }
    put(out, text.as_slice())
}

/// One way to write items of a type.
pub trait Writes {
    type Item;

    /// The text of an item.
    ghost text_of: { Self.Item → List ℕ };

    /// Adds the text of an item. Where memory runs out a first part of it may be there.
    fn write(item: &Self::Item, out: &mut Vec<u8>) -> Result<(), AllocError>
        ensures { OnOk result (out.new.items ≡ out.old.items ++ text_of item.now) };
}

/// Writes the texts of the items in order, with the text `between` any two.
fn write_joined<W: Writes>(
    text: &mut Vec<u8>,
    between: &[u8],
    items: &[W::Item],
) -> Result<(), AllocError>
    ensures { OnOk result (text.new.items ≡ text.old.items ++ joined between.now W.text_of items.now) }
{
    let mut is_first = true;
    for item in items {
        if !is_first {
            put(text, between)?;
        }
        is_first = false;
        W::write(item, text)?;
    }
    Ok(())
}

/// Adds the texts of the items in order, with the text `between` any two.
pub fn put_joined<W: Writes>(
    out: &mut Vec<u8>,
    between: &[u8],
    items: &[W::Item],
) -> Result<(), AllocError>
    ensures ok { OnOk result (out.new.items ≡ out.old.items ++ joined between.now W.text_of items.now) }
    ensures err { OnErr result (out.new.items ≡ out.old.items) }
{
    let mut text = Vec::new(*out.allocator());
    write_joined::<W>(&mut text, between, items)?;
    put_whole(out, text)
}
