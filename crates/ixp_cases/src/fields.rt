//! The fields of a file of cases.
use crate::flaw::Flaw;
use std::alloc::{AllocError, Global};

/// A field: the number of its line, its name, what stands behind the name, and the indented lines below it
/// without the two blanks before each.
#[derive(Drop)]
pub struct Field {
    pub line: usize,
    pub name: String,
    pub value: String,
    pub block: Vec<String>,
}

/// The name and the value on the line of a field: one of the signs `>`, `<` and `|`, or what stands before a
/// colon, and the rest. A line without either is a field of that name.
fn parts_of(line: &str) -> (&str, &str) {
    for sign in [">", "<", "|"] {
        if let Some(value) = line.strip_prefix(sign) {
            return (sign, value.trim());
        }
    }
    let (name, value) = line.split_once(':').unwrap_or((line, ""));
    (name, value.trim())
}

fn field_of(alloc: Global, number: usize, line: &str) -> Result<Field, AllocError> {
    let (name, value) = parts_of(line);
    Ok(Field {
        line: number,
        name: String::from_str(alloc, name)?,
        value: String::from_str(alloc, value)?,
        block: Vec::new(alloc),
    })
}

/// Adds an indented line to the last field, behind so many empty ones.
fn put_indented(
    alloc: Global,
    fields: &mut Vec<Field>,
    empty: usize,
    text: &str,
) -> Result<(), Flaw> {
    let field = fields.last_mut().ok_or(Flaw::Form)?;
    for _ in 0..empty {
        field.block.push(String::new(alloc))?;
    }
    field.block.push(String::from_str(alloc, text)?)?;
    Ok(())
}

/// The fields of a file in their order. A line that begins with `#` says nothing, and an empty line counts
/// where an indented one stands behind it.
pub fn fields_of(alloc: Global, text: &str) -> Result<Vec<Field>, Flaw> {
    let mut fields = Vec::new(alloc);
    let mut empty = 0usize;
    for (place, line) in text.lines().enumerate() {
        if line.is_empty() {
            empty = empty.saturating_add(1);
        } else if let Some(text) = line.strip_prefix("  ") {
            put_indented(alloc, &mut fields, empty, text)?;
            empty = 0;
        } else if !line.starts_with('#') {
            fields.push(field_of(alloc, place.saturating_add(1), line)?)?;
            empty = 0;
        }
    }
    Ok(fields)
}
