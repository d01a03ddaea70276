//! The end of a dump.
ghost use Rattle.std.specs.Prelude.{◌≡◌, ◌++◌, ◌∷◌, [], length, IfOk};
ghost use Rattle.std.specs.List.{list_any};
ghost use Rattle.ixp_registry.specs.declared.kind.Kind.TheVariants.{Sites};
ghost use Rattle.ixp_rows.specs.Reading.{is_line_of, is_line, stray, end_text, ended};
ghost use Rattle.ixp_rows.specs.Reading.{owner_kinds, network_kinds, steering_kinds, public_kinds};

use crate::misread::Misread;
use crate::reading::after_text;
use crate::section::line_of;
use ixp_num::{Asn, Pattern, Roa};
use ixp_num_tables::{put, put_number};
use ixp_registry::{
    AddressRow, ApiKey, Contact, InterfaceRow, Member, MemberOrigin, MemberPrefix, MemberRule,
    Port, Router, Site, Switch, Vlan,
};
use ixp_rows_lines::{Lined, Unread, Version};
use std::alloc::{AllocError, Global};

/// Whether a line of the kind stands first.
fn is_line_of<K: Lined + Drop>(
    alloc: Global,
    version: Version,
    text: &[u8],
) -> Result<bool, AllocError>
    ensures { IfOk result (λ b. b ≡ is_line_of version text.now K.row_kind) }
{
    match line_of::<K>(alloc, version, text) {
        Ok(Some(_)) => Ok(true),
        Ok(None) => Ok(false),
        Err(Unread::Bad) => Ok(false),
        Err(Unread::NoMemory) => Err(AllocError),
    }
}

fn is_owner_line(alloc: Global, version: Version, text: &[u8]) -> Result<bool, AllocError>
    ensures { IfOk result (λ b. b ≡ list_any (is_line_of version text.now) owner_kinds) }
{
    Ok(
        is_line_of::<Member>(alloc, version, text)?
            || is_line_of::<Contact>(alloc, version, text)?
            || is_line_of::<ApiKey>(alloc, version, text)?,
    )
}

fn is_network_line(alloc: Global, version: Version, text: &[u8]) -> Result<bool, AllocError>
    ensures { IfOk result (λ b. b ≡ list_any (is_line_of version text.now) network_kinds) }
{
    Ok(
        is_line_of::<Switch>(alloc, version, text)?
            || is_line_of::<Port>(alloc, version, text)?
            || is_line_of::<Vlan>(alloc, version, text)?
            || is_line_of::<InterfaceRow>(alloc, version, text)?
            || is_line_of::<AddressRow>(alloc, version, text)?,
    )
}

fn is_steering_line(alloc: Global, version: Version, text: &[u8]) -> Result<bool, AllocError>
    ensures { IfOk result (λ b. b ≡ list_any (is_line_of version text.now) steering_kinds) }
{
    Ok(
        is_line_of::<Router>(alloc, version, text)?
            || is_line_of::<MemberPrefix>(alloc, version, text)?
            || is_line_of::<MemberOrigin>(alloc, version, text)?
            || is_line_of::<MemberRule>(alloc, version, text)?,
    )
}

fn is_public_line(alloc: Global, version: Version, text: &[u8]) -> Result<bool, AllocError>
    ensures { IfOk result (λ b. b ≡ list_any (is_line_of version text.now) public_kinds) }
{
    Ok(
        is_line_of::<Pattern>(alloc, version, text)?
            || is_line_of::<(Asn, Asn)>(alloc, version, text)?
            || is_line_of::<Asn>(alloc, version, text)?
            || is_line_of::<Roa>(alloc, version, text)?,
    )
}

/// Whether a line of any kind stands first.
#[tactic(auto, unfolding(crate::specs::Reading::is_line))]
fn is_line(alloc: Global, version: Version, text: &[u8]) -> Result<bool, AllocError>
    ensures { IfOk result (λ b. b ≡ is_line version text.now) }
{
    Ok(
        is_line_of::<Site>(alloc, version, text)?
            || is_owner_line(alloc, version, text)?
            || is_network_line(alloc, version, text)?
            || is_steering_line(alloc, version, text)?
            || is_public_line(alloc, version, text)?,
    )
}

/// The fault of a line that no row's place is for.
fn stray(alloc: Global, version: Version, lines: usize, text: &[u8]) -> Result<Misread, AllocError>
    ensures { IfOk result (λ misread. misread ≡ stray version lines text.now) }
{
    let left = text.len();
    if !is_line(alloc, version, text)? {
        return Ok(Misread::Bad { left });
    }
    if lines == 1 && is_line_of::<Site>(alloc, version, text)? {
        Ok(Misread::Twice { left })
    } else {
        Ok(Misread::Order { left })
    }
}

fn end_text(alloc: Global, lines: usize) -> Result<Vec<u8>, AllocError>
    ensures { IfOk result (λ text. text.items ≡ end_text lines) }
{
    let mut text = Vec::new(alloc);
    put(&mut text, b"end ")?;
    put_number(&mut text, lines as u64)?;
    put(&mut text, b"\n")?;
    Ok(text)
}

/// The fault at the end of so many lines, if there is one.
#[tactic(auto, unfolding(crate::specs::Reading::ended))]
pub(crate) fn ended(
    alloc: Global,
    version: Version,
    lines: usize,
    text: &[u8],
) -> Result<Option<Misread>, AllocError>
    ensures { IfOk result (λ fault. fault ≡ ended version lines text.now) }
{
    let end = end_text(alloc, lines)?;
    match after_text(end.as_slice(), text) {
        Some([]) => Ok(None),
        Some(rest) => Ok(Some(Misread::Bad { left: rest.len() })),
        None => Ok(Some(stray(alloc, version, lines, text)?)),
    }
}
