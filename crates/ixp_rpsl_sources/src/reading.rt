//! Objects of a text, one after another.
ghost use Rattle.std.specs.Prelude.{◌≡◌, ◌≤◌, ◌∷◌, [], Some, None, Option, length, codes, IfOk, OnOk};
ghost use Rattle.ixp_num.specs.declared.prefix.Prefix.{Prefix};
ghost use Rattle.ixp_rpsl.specs.Lines.{line_of, lines_ahead, lines_in};
ghost use Rattle.ixp_rpsl.specs.Attributes.{attributes, named, whole_value};
ghost use Rattle.ixp_rpsl.specs.Values.{SaysPrefix, as_number, set_name, trimmed};
ghost use Rattle.ixp_rpsl.specs.Objects.{route_of};
ghost use Rattle.ixp_rpsl_sources.specs.Said as spec;
ghost use Rattle.ixp_rpsl_sources.specs.Told.{Finds, Passes, said_in};
ghost use Rattle.ixp_rpsl_sources.specs.declared.objects.Wanted.TheVariants as wanted;

use crate::gleaned::Gleaned;
use crate::objects::{Claim, SetObject, Wanted};
use crate::parts::{Members, Names, Strangers, Words, listed};
use crate::sources::standing_of;
use crate::standing::Standing;
use ixp_num::{Family, Items, Name};
use ixp_rpsl::ahead::{Ahead, Line};
use ixp_rpsl::attributes::{Attribute, is_word, named, put_value};
use ixp_rpsl::entries::{Kind, kind_of, route_of};
use ixp_rpsl::gathered::Gathered;
use ixp_rpsl::values::{as_number, is_nothing, prefix_of, trimmed};
use ixp_rpsl::{Item, read_set_name};
use std::alloc::{AllocError, Global};

/// The kind of an object that begins with this name.
fn wanted_of(name: &[u8]) -> Wanted
    ensures { result ≡ spec.wanted_of name.now }
{
    if is_word(b"aut-num", name) {
        return Wanted::Number;
    }
    match kind_of(name) {
        Kind::Route(family) => Wanted::Route(family),
        Kind::Set => Wanted::Set,
        Kind::Other => Wanted::Other,
    }
}

/// The attributes of a name in the rest of an object.
fn attributes_of<'a>(
    alloc: Global,
    word: &[u8],
    ahead: Ahead<'a>,
) -> Result<Items<Attribute>, AllocError>
    ensures { IfOk result (λ found. found ≡ attributes word.now (lines_ahead ahead.entry)) }
{
    let mut all = Gathered::new(alloc);
    let _rest = all.gather(alloc, word, ahead)?;
    let Gathered { found, fault: _ } = all;
    Ok(found)
}

/// The value of an object's first attribute, which begins so.
fn key_of<'a>(alloc: Global, key: &[u8], ahead: Ahead<'a>) -> Result<Vec<u8>, AllocError>
    ensures { IfOk result (λ v. v.items ≡ whole_value key.now (lines_ahead ahead.entry)) }
{
    let mut value = Vec::new(alloc);
    let _rest = put_value(&mut value, key, ahead)?;
    Ok(value)
}

/// Who claims to be a member by the rest of an object.
fn claim_of<'a>(
    alloc: Global,
    first: usize,
    member: Item,
    ahead: Ahead<'a>,
) -> Result<Claim, AllocError>
    ensures { IfOk result (λ c. c ≡ spec.claim_of first member (lines_ahead ahead.entry)) }
{
    let references = attributes_of(alloc, b"member-of", ahead)?;
    let sets = listed::<Names>(alloc, references.as_slice())?;
    let kept = attributes_of(alloc, b"mnt-by", ahead)?;
    let maintainers = listed::<Words>(alloc, kept.as_slice())?;
    Ok(Claim {
        line: first,
        member,
        sets,
        maintainers,
    })
}

/// Reads a route.
fn read_route<'a>(
    alloc: Global,
    gleaned: &mut Gleaned,
    family: Family,
    first: usize,
    key: &[u8],
    ahead: Ahead<'a>,
) -> Result<(), AllocError>
    ensures { OnOk result ((net : Option Prefix)
        × SaysPrefix family key.now net
        × (said_in gleaned.new ≡ spec.joined (said_in gleaned.old) (spec.route_said first
        (route_of first net (attributes (codes "origin") (lines_ahead ahead.entry)))))) }
{
    let origins = attributes_of(alloc, b"origin", ahead)?;
    gleaned.put_route(
        first,
        route_of(first, prefix_of(key, family), origins.as_slice()),
    )
}

/// Reads an autonomous system.
fn read_number<'a>(
    alloc: Global,
    gleaned: &mut Gleaned,
    first: usize,
    key: &[u8],
    ahead: Ahead<'a>,
) -> Result<(), AllocError>
    ensures { OnOk result (said_in gleaned.new ≡ spec.joined (said_in gleaned.old)
        (spec.number_said first (as_number key.now) (lines_ahead ahead.entry))) }
{
    match as_number(key) {
        Some(asn) => {
            let claim = claim_of(alloc, first, Item::As(asn), ahead)?;
            gleaned.put_claim(claim)
        }
        None => gleaned.pass(first),
    }
}

/// The set of this name that the rest of an object makes.
fn set_object<'a>(
    alloc: Global,
    first: usize,
    place: usize,
    name: Name,
    values: &[Attribute],
    ahead: Ahead<'a>,
) -> Result<SetObject, AllocError>
    requires { values.now ≡ attributes (codes "members") (lines_ahead ahead) }
    ensures { IfOk result (λ o. o ≡ spec.set_object first place name (lines_ahead ahead.entry)) }
{
    let members = listed::<Members>(alloc, values)?;
    let refs = attributes_of(alloc, b"mbrs-by-ref", ahead)?;
    let by_ref = listed::<Words>(alloc, refs.as_slice())?;
    Ok(SetObject {
        line: first,
        place,
        name,
        members,
        by_ref,
    })
}

/// Takes the set of a name.
fn put_set<'a>(
    alloc: Global,
    gleaned: &mut Gleaned,
    first: usize,
    place: usize,
    name: Name,
    ahead: Ahead<'a>,
) -> Result<(), AllocError>
    ensures { OnOk result (said_in gleaned.new ≡ spec.joined (said_in gleaned.old)
        (spec.set_said first place (Some name) (lines_ahead ahead.entry))) }
{
    let values = attributes_of(alloc, b"members", ahead)?;
    let strangers = listed::<Strangers>(alloc, values.as_slice())?;
    let own = name.copied(alloc)?;
    let claim = claim_of(alloc, first, Item::Set(own), ahead)?;
    let object = set_object(alloc, first, place, name, values.as_slice(), ahead)?;
    gleaned.put_set(object, claim, strangers.as_slice())
}

/// Reads a set.
fn read_set<'a>(
    alloc: Global,
    gleaned: &mut Gleaned,
    first: usize,
    place: usize,
    key: &[u8],
    ahead: Ahead<'a>,
) -> Result<(), AllocError>
    ensures { OnOk result (said_in gleaned.new ≡ spec.joined (said_in gleaned.old)
        (spec.set_said first place (set_name key.now) (lines_ahead ahead.entry))) }
{
    match read_set_name(alloc, key)? {
        Some(name) => put_set(alloc, gleaned, first, place, name, ahead),
        None => gleaned.pass(first),
    }
}

/// Reads an object of a source in the list.
fn read_wanted<'a>(
    alloc: Global,
    gleaned: &mut Gleaned,
    kind: Wanted,
    place: usize,
    first: usize,
    key: &[u8],
    ahead: Ahead<'a>,
) -> Result<(), AllocError>
    ensures { OnOk result ((said : spec.Said)
        × spec.WantedSays kind place first key.now (lines_ahead ahead.entry) said
        × (said_in gleaned.new ≡ spec.joined (said_in gleaned.old) said)) }
{
    match kind {
        Wanted::Route(family) => read_route(alloc, gleaned, family, first, key, ahead),
        Wanted::Set => read_set(alloc, gleaned, first, place, key, ahead),
        Wanted::Number => read_number(alloc, gleaned, first, key, ahead),
        Wanted::Other => Ok(()),
    }
}

/// Passes by an object without a source, if it is of a wanted kind.
fn pass_unsourced(gleaned: &mut Gleaned, kind: Wanted, first: usize) -> Result<(), AllocError>
    ensures { OnOk result
        (said_in gleaned.new ≡ spec.joined (said_in gleaned.old) (spec.unsourced kind first)) }
{
    match kind {
        Wanted::Other => Ok(()),
        _ => gleaned.pass(first),
    }
}

/// Reads an object whose lines are of their form.
fn read_formed<'a>(
    alloc: Global,
    gleaned: &mut Gleaned,
    standing: Standing,
    kind: Wanted,
    first: usize,
    key: &[u8],
    ahead: Ahead<'a>,
) -> Result<(), AllocError>
    ensures { OnOk result ((said : spec.Said)
        × spec.PlacedSays standing kind first
        (trimmed (whole_value key.now (lines_ahead ahead.entry))) (lines_ahead ahead.entry) said
        × (said_in gleaned.new ≡ spec.joined (said_in gleaned.old) said)) }
{
    match standing {
        Standing::Nowhere => pass_unsourced(gleaned, kind, first),
        Standing::Elsewhere => Ok(()),
        Standing::At(place) => {
            let value = key_of(alloc, key, ahead)?;
            read_wanted(
                alloc,
                gleaned,
                kind,
                place,
                first,
                trimmed(value.as_slice()),
                ahead,
            )
        }
    }
}

/// Reads an object of a source in the list, or of none.
fn read_lines<'a>(
    alloc: Global,
    gleaned: &mut Gleaned,
    standing: Standing,
    is_bad: bool,
    line: Line<'a>,
    ahead: Ahead<'a>,
) -> Result<(), AllocError>
    ensures { OnOk result ((said : spec.Said)
        × spec.FormedSays standing (named line.entry.bytes.now) is_bad line.entry.number
        (lines_ahead ahead.entry) said
        × (said_in gleaned.new ≡ spec.joined (said_in gleaned.old) said)) }
{
    match named(line.bytes) {
        Some((name, key)) => {
            if is_bad {
                gleaned.pass(line.number)?;
                return Ok(());
            }
            read_formed(
                alloc,
                gleaned,
                standing,
                wanted_of(name),
                line.number,
                key,
                ahead,
            )
        }
        None => {
            gleaned.pass(line.number)?;
            Ok(())
        }
    }
}

/// Reads an object, where it stands by its source.
fn read_standing<'a>(
    alloc: Global,
    gleaned: &mut Gleaned,
    standing: Standing,
    is_bad: bool,
    line: Line<'a>,
    ahead: Ahead<'a>,
) -> Result<(), AllocError>
    ensures { OnOk result ((said : spec.Said)
        × spec.StandingSays standing (named line.entry.bytes.now) is_bad line.entry.number
        (lines_ahead ahead.entry) said
        × (said_in gleaned.new ≡ spec.joined (said_in gleaned.old) said)) }
{
    match standing {
        Standing::Elsewhere => Ok(()),
        Standing::Nowhere => read_lines(alloc, gleaned, Standing::Nowhere, is_bad, line, ahead),
        Standing::At(place) => {
            read_lines(alloc, gleaned, Standing::At(place), is_bad, line, ahead)
        }
    }
}

/// Reads the object that begins with a line, and tells what is ahead behind it.
fn read_object<'a>(
    alloc: Global,
    sources: &[Name],
    gleaned: &mut Gleaned,
    line: Line<'a>,
    ahead: Ahead<'a>,
) -> Result<Ahead<'a>, AllocError>
    ensures { IfOk result
        (λ rest. Finds sources.now (line_of line.entry) (lines_ahead ahead.entry) (lines_ahead rest)
        (said_in gleaned.old) (said_in gleaned.new)
        × (length rest.text.now ≤ length ahead.entry.text.now)) }
{
    let mut source = Gathered::new(alloc);
    let rest = source.gather(alloc, b"source", ahead)?;
    let standing = standing_of(sources, source.found.as_slice());
    let is_bad = source.fault.is_some();
    read_standing(alloc, gleaned, standing, is_bad, line, ahead)?;
    Ok(rest)
}

/// Reads the object that begins with a line, if one does, and tells what is ahead behind it.
fn read_next<'a>(
    alloc: Global,
    sources: &[Name],
    gleaned: &mut Gleaned,
    line: Line<'a>,
    ahead: Ahead<'a>,
) -> Result<Ahead<'a>, AllocError>
    ensures { IfOk result
        (λ rest. Passes sources.now (line_of line.entry ∷ lines_ahead ahead.entry) (lines_ahead rest)
        (said_in gleaned.old) (said_in gleaned.new)
        × (length rest.text.now ≤ length ahead.entry.text.now)) }
{
    if is_nothing(line.bytes) {
        return Ok(ahead);
    }
    let rest = read_object(alloc, sources, gleaned, line, ahead)?;
    Ok(rest)
}

/// A text without the byte order mark at its begin, if it has one.
fn unmarked(t: &[u8]) -> &[u8]
    ensures { result.now ≡ spec.unmarked t.now }
{
    match t {
        [0xef, 0xbb, 0xbf, rest @ ..] => rest,
        _ => t,
    }
}

/// Reads all objects of a text.
pub(crate) fn read_all(
    alloc: Global,
    sources: &[Name],
    gleaned: &mut Gleaned,
    t: &[u8],
) -> Result<(), AllocError>
    ensures { OnOk result (Passes sources.now (lines_in (spec.unmarked t.now)) []
        (said_in gleaned.old) (said_in gleaned.new)) }
{
    let mut ahead = Ahead::new(unmarked(t));
    'objects: while let Some((line, rest)) = ahead.next_line() {
        ahead = read_next(alloc, sources, gleaned, line, rest)?;
    }
    Ok(())
}
