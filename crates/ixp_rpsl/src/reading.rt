//! Objects of a text, one after another.
ghost use Rattle.std.specs.Prelude.{◌≡◌, ◌≤◌, ◌∷◌, [], length, IfOk, OnOk};
ghost use Rattle.ixp_rpsl.specs.Lines.{line_of, lines_ahead, lines_in};
ghost use Rattle.ixp_rpsl.specs.Attributes.{bad_line, past_object};
ghost use Rattle.ixp_rpsl.specs.Objects as spec;
ghost use Rattle.ixp_rpsl.specs.declared.entries.Kind.TheVariants as kinds;
ghost use Rattle.ixp_rpsl.specs.Passes.{Finds, FindsOf, Passes};

use crate::ahead::{Ahead, Line};
use crate::attributes::{named, put_value};
use crate::entries::{Kind, kind_of, route_of, set_of};
use crate::fault::RpslFault;
use crate::found::Found;
use crate::gathered::Gathered;
use crate::objects::Objects;
use crate::values::{is_nothing, prefix_of, trimmed};
use ixp_num::Family;
use std::alloc::{AllocError, Global};

/// Reads a route, whose prefix begins so and which begins at a line, and tells what is ahead behind it.
fn read_route<'a>(
    alloc: Global,
    found: &mut Found,
    family: Family,
    first: usize,
    key: &[u8],
    ahead: Ahead<'a>,
) -> Result<Ahead<'a>, AllocError>
    ensures { IfOk result
        (λ rest. FindsOf (kinds.Route family) first key.now (lines_ahead ahead.entry)
        (lines_ahead rest) found.old found.new × (length rest.text.now ≤ length ahead.entry.text.now)) }
{
    let mut value = Vec::new(alloc);
    let mut origins = Gathered::new(alloc);
    let rest = put_value(&mut value, key, ahead)?;
    let rest = origins.gather(alloc, b"origin", rest)?;
    let net = prefix_of(trimmed(value.as_slice()), family);
    found.note(origins.fault);
    found.put_route(route_of(first, net, origins.found.as_slice()))?;
    Ok(rest)
}

/// Reads a set, whose name begins so and which begins at a line, and tells what is ahead behind it.
fn read_set<'a>(
    alloc: Global,
    found: &mut Found,
    first: usize,
    key: &[u8],
    ahead: Ahead<'a>,
) -> Result<Ahead<'a>, AllocError>
    ensures { IfOk result
        (λ rest. FindsOf kinds.Set first key.now (lines_ahead ahead.entry)
        (lines_ahead rest) found.old found.new × (length rest.text.now ≤ length ahead.entry.text.now)) }
{
    let mut value = Vec::new(alloc);
    let mut values = Gathered::new(alloc);
    let rest = put_value(&mut value, key, ahead)?;
    let rest = values.gather(alloc, b"members", rest)?;
    found.note(values.fault);
    found.put_set(set_of(
        alloc,
        first,
        trimmed(value.as_slice()),
        values.found.as_slice(),
    ))?;
    Ok(rest)
}

/// Passes by the rest of an object, and tells what is ahead behind it.
fn pass_by<'a>(alloc: Global, found: &mut Found, ahead: Ahead<'a>) -> Result<Ahead<'a>, AllocError>
    ensures { IfOk result
        (λ rest. (found.new ≡ spec.joined found.old (spec.at_fault (bad_line (lines_ahead ahead.entry))))
        × (lines_ahead rest ≡ past_object (lines_ahead ahead.entry))
        × (length rest.text.now ≤ length ahead.entry.text.now)) }
{
    let mut nothing = Gathered::new(alloc);
    let rest = nothing.gather(alloc, b"", ahead)?;
    found.note(nothing.fault);
    Ok(rest)
}

/// Reads an object of a kind, of whose first value this is in its first line.
fn read_kind<'a>(
    alloc: Global,
    found: &mut Found,
    kind: Kind,
    first: usize,
    key: &[u8],
    ahead: Ahead<'a>,
) -> Result<Ahead<'a>, AllocError>
    ensures { IfOk result
        (λ rest. FindsOf kind first key.now (lines_ahead ahead.entry) (lines_ahead rest) found.old found.new
        × (length rest.text.now ≤ length ahead.entry.text.now)) }
{
    match kind {
        Kind::Route(family) => read_route(alloc, found, family, first, key, ahead),
        Kind::Set => read_set(alloc, found, first, key, ahead),
        Kind::Other => {
            let rest = pass_by(alloc, found, ahead)?;
            Ok(rest)
        }
    }
}

/// Reads the object that begins with a line, and tells what is ahead behind it.
fn read_object<'a>(
    alloc: Global,
    found: &mut Found,
    line: Line<'a>,
    ahead: Ahead<'a>,
) -> Result<Ahead<'a>, AllocError>
    ensures { IfOk result
        (λ rest. Finds (line_of line.entry) (lines_ahead ahead.entry) (lines_ahead rest) found.old found.new
        × (length rest.text.now ≤ length ahead.entry.text.now)) }
{
    match named(line.bytes) {
        Some((name, key)) => {
            let rest = read_kind(alloc, found, kind_of(name), line.number, key, ahead)?;
            Ok(rest)
        }
        None => {
            found.note(Some(line.number));
            let rest = pass_by(alloc, found, ahead)?;
            Ok(rest)
        }
    }
}

/// Reads the object that begins with a line, if one does, and tells what is ahead behind it.
fn read_next<'a>(
    alloc: Global,
    found: &mut Found,
    line: Line<'a>,
    ahead: Ahead<'a>,
) -> Result<Ahead<'a>, AllocError>
    ensures { IfOk result
        (λ rest. Passes (line_of line.entry ∷ lines_ahead ahead.entry) (lines_ahead rest) found.old found.new
        × (length rest.text.now ≤ length ahead.entry.text.now)) }
{
    if is_nothing(line.bytes) {
        return Ok(ahead);
    }
    let rest = read_object(alloc, found, line, ahead)?;
    Ok(rest)
}

/// Reads all objects of a text.
fn read_all(alloc: Global, found: &mut Found, t: &[u8]) -> Result<(), AllocError>
    ensures { OnOk result (Passes (lines_in t.now) [] found.old found.new) }
{
    let mut ahead = Ahead::new(t);
    'objects: while let Some((line, rest)) = ahead.next_line() {
        ahead = read_next(alloc, found, line, rest)?;
    }
    Ok(())
}

/// Reads the objects `route`, `route6` and `as-set` of whois data, as registries and their mirrors give them:
/// objects of all kinds, parted by empty lines, with lines of the server's that begin with `%` or `#` between
/// them. All other objects and attributes are passed by: of them only the lines are read.
pub fn read_objects(alloc: Global, t: &[u8]) -> Result<Objects, RpslFault>
    ensures { spec.ReadAnswer t.now result }
{
    let mut found = Found::new(alloc);
    match read_all(alloc, &mut found, t) {
        Ok(()) => {}
        Err(_) => return Err(RpslFault::NoMemory),
    }
    let Found {
        routes,
        sets,
        fault,
    } = found;
    match fault {
        Some(n) => Err(RpslFault::Line { n }),
        None => Ok(Objects { routes, sets }),
    }
}
