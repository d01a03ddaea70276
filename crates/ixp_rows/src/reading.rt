//! Reading of the rows of a dump.
ghost use Rattle.std.specs.Prelude.{◌≡◌, ◌<◌, ◌+◌, length, option_map, IfOk, IfSome};
ghost use Rattle.ixp_registry.specs.declared.kind.Kind.TheVariants.{Sites};
ghost use Rattle.std.specs.List.{AllByRecursion};
ghost use Rattle.ixp_rows_lines.specs.Lines.{IsOfVersion, site_line};
ghost use Rattle.ixp_rows.specs.Groups.{row_fields};
ghost use Rattle.ixp_rows.specs.Reading.{Gives, head_text, after_text, needed, line_at, rows_at};

use crate::groups::{read_network, read_owners, read_public, read_steering};
use crate::misread::Misread;
use crate::section::line_of;
use ixp_registry::{Rows, Site};
use ixp_rows_lines::{Unread, Version};
use std::alloc::Global;

pub(crate) fn after_text<'a>(front: &[u8], text: &'a [u8]) -> Option<&'a [u8]>
    ensures { option_map (λ rest. rest.now) result ≡ after_text front.now text.now }
{
    text.strip_prefix(front)
}

fn after_head(version: Version, text: &[u8]) -> Option<&[u8]>
    ensures { option_map (λ rest. rest.now) result ≡ after_text (head_text version) text.now }
{
    match version {
        Version::One => after_text(b"ixp-registry 1\n", text),
        Version::Two => after_text(b"ixp-registry 2\n", text),
    }
}

fn site_of(alloc: Global, version: Version, text: &[u8]) -> Result<(Site, &[u8]), Misread>
    ensures { Gives (λ x. ((site_line x.0).fields, x.1.now)) result
        (needed (length text.now) (line_at version Sites text.now)) }
{
    match line_of::<Site>(alloc, version, text) {
        Ok(Some((site, rest))) => Ok((site, rest)),
        Ok(None) => Err(Misread::Bad { left: text.len() }),
        Err(Unread::Bad) => Err(Misread::Bad { left: text.len() }),
        Err(Unread::NoMemory) => Err(Misread::NoMemory),
    }
}

/// The rows of a dump of the version, and what is behind their lines.
#[tactic(auto, unfolding(crate::specs::Reading::rows_at))]
pub(crate) fn rows_of(
    alloc: Global,
    version: Version,
    text: &[u8],
) -> Result<(Rows, &[u8]), Misread>
    ensures reads { Gives (λ x. (row_fields version x.0, x.1.now)) result (rows_at version text.now) }
    ensures of_version { IfOk result (λ x. AllByRecursion (IsOfVersion version) x.0.routers) }
{
    let rest = match after_head(version, text) {
        Some(rest) => rest,
        None => return Err(Misread::Bad { left: text.len() }),
    };
    let (site, rest) = site_of(alloc, version, rest)?;
    let (owners, rest) = read_owners(alloc, version, rest)?;
    let (network, rest) = read_network(alloc, version, rest)?;
    let (steering, rest) = read_steering(alloc, version, rest)?;
    let (public, rest) = read_public(alloc, version, rest)?;
    let rows = Rows {
        site,
        members: owners.members,
        contacts: owners.contacts,
        keys: owners.keys,
        switches: network.switches,
        ports: network.ports,
        vlans: network.vlans,
        interfaces: network.interfaces,
        addresses: network.addresses,
        routers: steering.routers,
        prefixes: steering.prefixes,
        origins: steering.origins,
        rules: steering.rules,
        public,
    };
    Ok((rows, rest))
}
