//! Paths read by the parts of the table.
ghost use Rattle.std.specs.Prelude.{◌≡◌, ◌<◌, IfOk, option_map, length};
ghost use Rattle.ixp_api_paths.specs.Paths as spec;
ghost use Rattle.ixp_num_tables.specs.Decimals.{number_upto};
ghost use Rattle.ixp_api_paths.specs.Table.{found, read_entry, reads};

use crate::table::{Args, Entry, ListName, PATHS, Part, TABLE};
use crate::words::{family_of, is_word, list_of};
use ixp_num::{Family, Name};
use ixp_num_tables::number_upto;
use ixp_registry::is_handle;
use std::alloc::{AllocError, Global};

// The number of a row or a place.
fn number_of(text: &[u8]) -> Option<u32>
    ensures { result ≡ number_upto 4294967295 text.now }
{
    match number_upto(4_294_967_295, text) {
        Some(number) => Some(number as u32),
        None => None,
    }
}

// What stands before the first slash, and what stands behind it.
fn cut(text: &[u8]) -> (&[u8], Option<&[u8]>)
    ensures front { result.0.now ≡ spec.front text.now }
    ensures behind { option_map (λ t. t.now) result.1 ≡ spec.behind text.now }
{
    for (i, b) in text.iter().enumerate() {
        if *b == b'/' {
            return (&text[..i], Some(&text[i + 1..]));
        }
    }
    (text, None)
}

fn with_row(args: Args, text: &[u8]) -> Option<Args>
    ensures { result ≡ spec.with_row args text.now }
{
    let row = number_of(text)?;
    Some(Args { row, ..args })
}

fn with_place(args: Args, text: &[u8]) -> Option<Args>
    ensures { result ≡ spec.with_place args text.now }
{
    let place = number_of(text)?;
    Some(Args { place, ..args })
}

fn with_family(args: Args, text: &[u8]) -> Option<Args>
    ensures { result ≡ spec.with_family args text.now }
{
    let family = family_of(text)?;
    Some(Args { family, ..args })
}

fn with_list(args: Args, text: &[u8]) -> Option<Args>
    ensures { result ≡ spec.with_list args text.now }
{
    let list = list_of(text)?;
    Some(Args { list, ..args })
}

#[tactic(auto, using(ixp_registry::proofs::HandleNames::handle_is_name))]
fn with_router(alloc: Global, args: Args, text: &[u8]) -> Result<Option<Args>, AllocError>
    ensures { IfOk result (λ o. o ≡ spec.with_router args text.now) }
{
    if !is_handle(text) {
        return Ok(None);
    }
    let router = Name::new(alloc, text)?;
    Ok(Some(Args {
        router: Some(router),
        ..args
    }))
}

// A part of a path read by a part of the table.
fn take_part(alloc: Global, part: Part, args: Args, text: &[u8]) -> Result<Option<Args>, AllocError>
    ensures { IfOk result (λ o. o ≡ spec.take_part part args text.now) }
{
    match part {
        Part::Is(word) => {
            if is_word(text, word) {
                Ok(Some(args))
            } else {
                Ok(None)
            }
        }
        Part::Row => Ok(with_row(args, text)),
        Part::Place => Ok(with_place(args, text)),
        Part::Family => Ok(with_family(args, text)),
        Part::List => Ok(with_list(args, text)),
        Part::Router => with_router(alloc, args, text),
        Part::End => Ok(None),
    }
}

fn no_args() -> Args
    ensures { result ≡ spec.no_args }
{
    Args {
        row: 0,
        place: 0,
        family: Family::V4,
        list: ListName::Bogons,
        router: None,
    }
}

// A path read by the parts of an entry.
fn read(alloc: Global, parts: &[Part], path: &[u8]) -> Result<Option<Args>, AllocError>
    ensures { IfOk result (λ o. o ≡ spec.read spec.no_args parts.now (spec.behind_root path.now)) }
{
    let mut args = no_args();
    let mut left = match path {
        [b'/', rest @ ..] => Some(rest),
        _ => None,
    };
    for part in parts {
        match (*part, left) {
            (Part::End, None) => {}
            (Part::End, Some(_)) => return Ok(None),
            (_, None) => return Ok(None),
            (part, Some(text)) => {
                let (front, behind) = cut(text);
                match take_part(alloc, part, args, front)? {
                    Some(more) => {
                        args = more;
                        left = behind;
                    }
                    None => return Ok(None),
                }
            }
        }
    }
    match left {
        None => Ok(Some(args)),
        Some(_) => Ok(None),
    }
}

// The first entry of these that reads the path.
fn find(alloc: Global, table: &[Entry], path: &[u8]) -> Result<Option<(Entry, Args)>, AllocError>
    ensures { IfOk result (λ o. o ≡ spec.find table.now path.now) }
{
    for entry in table {
        if let Some(args) = read(alloc, &entry.parts, path)? {
            return Ok(Some((*entry, args)));
        }
    }
    Ok(None)
}

/// The first entry of the table that reads the path.
#[tactic(auto, unfolding(crate::specs::Table::found))]
pub(crate) fn scan(alloc: Global, path: &[u8]) -> Result<Option<(Entry, Args)>, AllocError>
    ensures { IfOk result (λ o. o ≡ found path.now) }
{
    find(alloc, &TABLE, path)
}

// What the entry at a place of a table reads.
fn read_in(
    alloc: Global,
    table: &[Entry],
    place: usize,
    path: &[u8],
) -> Result<Option<(Entry, Args)>, AllocError>
    requires { place < length table.now }
    ensures { IfOk result (λ o. o ≡ reads table.now place path.now) }
{
    let entry = table[place];
    match read(alloc, &entry.parts, path)? {
        Some(args) => Ok(Some((entry, args))),
        None => Ok(None),
    }
}

/// What the entry at a place reads.
#[tactic(auto, unfolding(crate::specs::Table::read_entry))]
pub(crate) fn read_at(
    alloc: Global,
    place: usize,
    path: &[u8],
) -> Result<Option<(Entry, Args)>, AllocError>
    requires { place < PATHS }
    ensures { IfOk result (λ o. o ≡ read_entry place path.now) }
{
    read_in(alloc, &TABLE, place, path)
}
