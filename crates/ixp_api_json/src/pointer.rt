//! What is wrong with a request.
ghost use Rattle.std.specs.Prelude.{◌≡◌, ◌++◌, OnOk, codes, decimal};
ghost use Rattle.ixp_api_json.specs.Fields as spec;

use crate::field::Field;
use ixp_num_tables::{put, put_number};
use std::alloc::AllocError;

/// What is wrong with a body, or with what stands beside it.
#[derive(Clone, Copy, Debug, PartialEq, Eq)]
pub enum Pointer {
    /// The body as a whole.
    Whole,
    At(Field),
    /// A field of an item of a list; items are counted from 0.
    In(u64, Field),
    /// An item of a field that is a list; items are counted from 0.
    Item(Field, u64),
    /// A line of a list, counted from 1.
    Line(u64),
    /// There are so many items, too many.
    Lines(u64),
    /// The number of the request, which stands in a field of its head.
    RequestNumber,
    /// The number that the reader has seen, which stands in the query.
    Seen,
}

/// Why a request is no call.
#[derive(Clone, Copy, Debug, PartialEq, Eq)]
pub enum CallFault {
    /// There is no such path.
    NoPath,
    /// The path hasn't the method.
    NoMethod,
    /// The request isn't of its form.
    BadBody { pointer: Pointer },
    NoMemory,
}

fn put_field(out: &mut Vec<u8>, field: Field) -> Result<(), AllocError>
    ensures { OnOk result (out.new.items ≡ out.old.items ++ spec.pointer_text (Pointer.At field)) }
{
    put(out, b"/")?;
    put(out, field.word().as_bytes())
}

fn put_item(out: &mut Vec<u8>, place: u64) -> Result<(), AllocError>
    ensures { OnOk result (out.new.items ≡ out.old.items ++ (codes "/" ++ decimal place)) }
{
    put(out, b"/")?;
    put_number(out, place)
}

fn put_counted(out: &mut Vec<u8>, what: &[u8], number: u64) -> Result<(), AllocError>
    ensures { OnOk result (out.new.items ≡ out.old.items ++ (what.now ++ decimal number)) }
{
    put(out, what)?;
    put_number(out, number)
}

/// Adds the text of a pointer. Where memory runs out, a first part of it may be there.
pub fn put_pointer(out: &mut Vec<u8>, pointer: Pointer) -> Result<(), AllocError>
    ensures { OnOk result (out.new.items ≡ out.old.items ++ spec.pointer_text pointer) }
{
    match pointer {
        Pointer::Whole => Ok(()),
        Pointer::At(field) => put_field(out, field),
        Pointer::In(place, field) => {
            put_item(out, place)?;
            put_field(out, field)
        }
        Pointer::Item(field, place) => {
            put_field(out, field)?;
            put_item(out, place)
        }
        Pointer::Line(number) => put_counted(out, b"/line/", number),
        Pointer::Lines(have) => put_counted(out, b"/lines/", have),
        Pointer::RequestNumber => put(out, b"/number"),
        Pointer::Seen => put(out, b"/seen"),
    }
}
