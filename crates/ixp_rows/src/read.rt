//! Reading of dumps.
ghost use Rattle.std.specs.Prelude.{◌≡◌, ◌<◌, ◌≤◌, ◌+◌, ◌-◌, suc, length, take, IfOk, IfSome};
ghost use Rattle.std.specs.List.{AllByRecursion};
ghost use Rattle.ixp_rows_lines.specs.Lines.{IsOfVersion};
ghost use Rattle.ixp_rows.specs.Answers.{DumpAnswer};
ghost use Rattle.ixp_rows.specs.Groups.{row_fields};
ghost use Rattle.ixp_rows.specs.Groups.{IsRead};
ghost use Rattle.ixp_rows.specs.Texts.{dump_text};
ghost use Rattle.ixp_rows.specs.Reading.{Gives, total, sum, breaks, line_with_left, fault_of, dump_at};

use crate::ending::ended;
use crate::fault::DumpFault;
use crate::misread::Misread;
use crate::reading::rows_of;
use ixp_registry::Rows;
use ixp_rows_lines::Version;
use std::alloc::Global;

fn breaks(text: &[u8]) -> usize
    ensures count { result ≡ breaks text.now }
    ensures most { result ≤ length text.now }
{
    let mut count = 0;
    'each: for byte in text {
        if *byte == b'\n' {
            count += 1;
        }
    }
    count
}

fn line_with_left(text: &[u8], left: usize) -> usize
    ensures { result ≡ line_with_left text.now left }
{
    let front = &text[..text.len().saturating_sub(left)];
    breaks(front) + 1
}

fn fault_of(text: &[u8], misread: Misread) -> DumpFault
    ensures { result ≡ fault_of text.now misread }
{
    match misread {
        Misread::Bad { left } => DumpFault::BadLine {
            line: line_with_left(text, left),
        },
        Misread::Order { left } => DumpFault::Order {
            line: line_with_left(text, left),
        },
        Misread::Twice { left } => DumpFault::Twice {
            line: line_with_left(text, left),
        },
        Misread::NoMemory => DumpFault::NoMemory,
    }
}

fn sum(counts: &[usize]) -> Option<usize>
    ensures { IfSome result (λ n. n ≡ sum counts.now) }
{
    let mut total = 0usize;
    'each: for count in counts {
        total = total.checked_add(*count)?;
    }
    Some(total)
}

/// How many rows there are; None where their number doesn't fit.
#[tactic(auto, using(crate::proofs::Counts::counted))]
fn count(_version: Version, rows: &Rows) -> Option<usize>
    ensures { IfSome result (λ n. n ≡ total (row_fields _version rows.now)) }
{
    let counts = [
        1,
        rows.members.len(),
        rows.contacts.len(),
        rows.keys.len(),
        rows.switches.len(),
        rows.ports.len(),
        rows.vlans.len(),
        rows.interfaces.len(),
        rows.addresses.len(),
        rows.routers.len(),
        rows.prefixes.len(),
        rows.origins.len(),
        rows.rules.len(),
        rows.public.bogons.len(),
        rows.public.bogon_as.len(),
        rows.public.transit.len(),
        rows.public.roas.len(),
    ];
    sum(&counts)
}

/// The rows of a dump of the version.
#[tactic(auto, unfolding(crate::specs::Reading::dump_at))]
fn dump_of(alloc: Global, version: Version, text: &[u8]) -> Result<Rows, Misread>
    ensures reads { Gives (row_fields version) result (dump_at version text.now) }
    ensures of_version { IfOk result (λ rows. AllByRecursion (IsOfVersion version) rows.routers) }
{
    let (rows, rest) = rows_of(alloc, version, text)?;
    let Some(lines) = count(version, &rows) else {
        return Err(Misread::NoMemory);
    };
    match ended(alloc, version, lines, rest)? {
        None => Ok(rows),
        Some(misread) => Err(misread),
    }
}

/// The rows of a dump, whether or not they keep the rules. A fault is `BadLine`, `Order` or `Twice`.
#[tactic(auto, using(crate::proofs::DumpsSpelt::rows_are_text, crate::proofs::Answering::fault_answered))]
pub fn read_rows(alloc: Global, version: Version, text: &[u8]) -> Result<Rows, DumpFault>
    ensures answer { DumpAnswer version text.now result }
    ensures reads { IsRead version text.now result }
    ensures spelt { IfOk result (λ rows. text.now ≡ dump_text version rows) }
{
    match dump_of(alloc, version, text) {
        Ok(rows) => Ok(rows),
        Err(misread) => Err(fault_of(text, misread)),
    }
}
