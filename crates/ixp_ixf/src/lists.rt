//! Lists and members of objects (RFC 8259 sections 4 and 5).
ghost use Rattle.std.specs.Prelude.{◌≡◌, ◌++◌, ℕ, List, OnOk, codes};
ghost use Rattle.ixp_num_tables.specs.Joined.{joined};
ghost use Rattle.ixp_ixf.specs.Rows.{shown};
ghost use Rattle.ixp_ixf.specs.Texts.{name_text, list_text, list_member, flag_member};

use ixp_api_json::put_quoted;
use ixp_num_tables::{Writes, put, put_joined};
use std::alloc::AllocError;

/// Adds a name behind a mark, and its colon. Where memory runs out, a first part of it may be there; likewise
/// below.
#[tactic(auto, unfolding(crate::specs::Texts::name_text))]
pub(crate) fn put_name(out: &mut Vec<u8>, mark: &[u8], name: &[u8]) -> Result<(), AllocError>
    ensures { OnOk result (out.new.items ≡ out.old.items ++ name_text mark.now name.now) }
{
    put(out, mark)?;
    put_quoted(out, name)?;
    put(out, b":")
}

/// Adds a member that is true or false.
#[tactic(auto, unfolding(crate::specs::Texts::flag_member))]
pub(crate) fn put_flag_member(
    out: &mut Vec<u8>,
    mark: &[u8],
    name: &[u8],
    flag: bool,
) -> Result<(), AllocError>
    ensures { OnOk result (out.new.items ≡ out.old.items ++ flag_member mark.now name.now flag) }
{
    put_name(out, mark, name)?;
    put(out, if flag { b"true" } else { b"false" })
}

/// Adds a member that is the list of all items.
#[tactic(auto, unfolding(crate::specs::Texts::list_member))]
pub(crate) fn put_list_member<W: Writes>(
    out: &mut Vec<u8>,
    mark: &[u8],
    name: &[u8],
    items: &[W::Item],
) -> Result<(), AllocError>
    ensures { OnOk result
        (out.new.items ≡ out.old.items ++ list_member mark.now name.now W.text_of items.now) }
{
    put_name(out, mark, name)?;
    put(out, b"[")?;
    put_joined::<W>(out, b",", items)?;
    put(out, b"]")
}

/// One way to write items.
pub(crate) trait Shows {
    type Item;

    ghost text_of: { Self → Self.Item → List ℕ };

    /// Adds the text of an item.
    fn write(&self, item: &Self::Item, out: &mut Vec<u8>) -> Result<(), AllocError>
        ensures { OnOk result (out.new.items ≡ out.old.items ++ text_of self.now item.now) };
}

fn put_shown<S: Shows>(out: &mut Vec<u8>, shows: &S, items: &[&S::Item]) -> Result<(), AllocError>
    ensures { OnOk result
        (out.new.items ≡ out.old.items ++ joined (codes ",") (S.text_of shows.now) (shown items.now)) }
{
    let mut is_first = true;
    for item in items {
        if !is_first {
            put(out, b",")?;
        }
        is_first = false;
        shows.write(item, out)?;
    }
    Ok(())
}

/// Adds a member that is the list of the items that references show.
#[tactic(auto, unfolding(crate::specs::Texts::list_member))]
pub(crate) fn put_shown_member<S: Shows>(
    out: &mut Vec<u8>,
    mark: &[u8],
    name: &[u8],
    shows: &S,
    items: &[&S::Item],
) -> Result<(), AllocError>
    ensures { OnOk result
        (out.new.items ≡ out.old.items
        ++ list_member mark.now name.now (S.text_of shows.now) (shown items.now)) }
{
    put_name(out, mark, name)?;
    put(out, b"[")?;
    put_shown(out, shows, items)?;
    put(out, b"]")
}
