//! Cases with a table, which are run once for each of its rows.
use crate::fields::Field;
use std::alloc::{AllocError, Global};

/// Whether the field is a row of a table.
pub fn is_row(field: &Field) -> bool {
    field.name.as_str() == "|"
}

/// Adds what stands for a dollar and this text behind it: a digit is the number of a cell.
fn put_cell(out: &mut String, part: &str, cells: &[&str]) -> Result<(), AllocError> {
    let digit = part.chars().next().and_then(|c| c.to_digit(10));
    let number = digit.unwrap_or(0) as usize;
    match cells.get(number.wrapping_sub(1)) {
        Some(cell) => {
            out.push_str(cell)?;
            out.push_str(part.get(1..).unwrap_or(""))
        }
        None => {
            out.push('$')?;
            out.push_str(part)
        }
    }
}

/// The text with the cells in the places of `$1`, `$2` and so on.
fn filled_text(alloc: Global, text: &str, cells: &[&str]) -> Result<String, AllocError> {
    let mut out = String::new(alloc);
    for (place, part) in text.split('$').enumerate() {
        if place == 0 {
            out.push_str(part)?;
        } else {
            put_cell(&mut out, part, cells)?;
        }
    }
    Ok(out)
}

fn filled_block(
    alloc: Global,
    lines: &[String],
    cells: &[&str],
) -> Result<Vec<String>, AllocError> {
    let mut block = Vec::new(alloc);
    for line in lines {
        block.push(filled_text(alloc, line.as_str(), cells)?)?;
    }
    Ok(block)
}

fn filled_field(alloc: Global, field: &Field, cells: &[&str]) -> Result<Field, AllocError> {
    Ok(Field {
        line: field.line,
        name: field.name.clone()?,
        value: filled_text(alloc, field.value.as_str(), cells)?,
        block: filled_block(alloc, field.block.as_slice(), cells)?,
    })
}

/// The fields of a case with the cells of one of its rows in their places.
pub fn filled(alloc: Global, fields: &[Field], row: &Field) -> Result<Vec<Field>, AllocError> {
    let mut cells = Vec::new(alloc);
    for cell in row.value.as_str().split(" | ") {
        cells.push(cell)?;
    }
    let mut out = Vec::new(alloc);
    for field in fields {
        if !is_row(field) {
            out.push(filled_field(alloc, field, cells.as_slice())?)?;
        }
    }
    Ok(out)
}
