//! Texts as they stand in fields: lines with escapes, and steps that begin with a dot.
use crate::fields::Field;
use crate::flaw::Flaw;
use std::alloc::{AllocError, Global};
use std::collections::BTreeMap;

/// Texts by their names.
pub type Texts = BTreeMap<String, String>;

/// The byte that stands in a text for a byte 255, which is in no text of UTF-8.
const STAND_IN: u8 = 127;

/// Adds what stands for a backslash and this text behind it: the first letter names a character.
fn put_escape(text: &mut String, part: &str) -> Result<(), Flaw> {
    match part.chars().next() {
        Some('n') => text.push('\n')?,
        Some('r') => text.push('\r')?,
        Some('t') => text.push('\t')?,
        Some('s') => text.push(' ')?,
        Some('b') => text.push('\\')?,
        Some('.') => text.push('.')?,
        Some('x') => text.push('\u{7f}')?,
        Some('e') => {}
        _ => return Err(Flaw::Form),
    }
    text.push_str(part.get(1..).unwrap_or(""))?;
    Ok(())
}

/// Adds what a text with escapes says.
fn put_escaped(text: &mut String, escaped: &str) -> Result<(), Flaw> {
    for (place, part) in escaped.split('\\').enumerate() {
        if place == 0 {
            text.push_str(part)?;
        } else {
            put_escape(text, part)?;
        }
    }
    Ok(())
}

/// Adds what a line says, with a line feed but where it ends in a backslash.
fn put_line(text: &mut String, line: &str) -> Result<(), Flaw> {
    match line.strip_suffix("\\") {
        Some(front) => put_escaped(text, front),
        None => {
            put_escaped(text, line)?;
            text.push('\n')?;
            Ok(())
        }
    }
}

/// What a text with escapes says.
pub fn plain(alloc: Global, escaped: &str) -> Result<String, Flaw> {
    let mut text = String::new(alloc);
    put_escaped(&mut text, escaped)?;
    Ok(text)
}

/// What a line says.
pub fn plain_line(alloc: Global, line: &str) -> Result<String, Flaw> {
    let mut text = String::new(alloc);
    put_line(&mut text, line)?;
    Ok(text)
}

pub fn number_in(text: &str) -> Result<u64, Flaw> {
    text.parse::<u64>().map_err(|_| Flaw::Form)
}

/// The bytes of a text, with 255 for each stand-in.
pub fn bytes_of(alloc: Global, text: &str) -> Result<Vec<u8>, AllocError> {
    let mut bytes = Vec::new(alloc);
    for byte in text.as_bytes() {
        bytes.push(if *byte == STAND_IN { 255 } else { *byte })?;
    }
    Ok(bytes)
}

/// A number, and what stands behind it and a blank.
fn counted(text: &str) -> Result<(u64, &str), Flaw> {
    let (number, rest) = text.split_once(' ').unwrap_or((text, ""));
    Ok((number_in(number)?, rest))
}

/// The first lines of a text, so many of them.
fn first_lines(alloc: Global, text: &str, count: u64) -> Result<String, AllocError> {
    let mut out = String::new(alloc);
    for (_, line) in (0..count).zip(text.lines()) {
        out.push_str(line)?;
        out.push('\n')?;
    }
    Ok(out)
}

/// The first bytes of a text, so many of them.
fn first_bytes(alloc: Global, text: &str, count: u64) -> Result<String, Flaw> {
    let front = text.get(..count as usize).ok_or(Flaw::Form)?;
    Ok(String::from_str(alloc, front)?)
}

/// The text with another one in the place of the line with the number, counted from 1.
fn with_line(alloc: Global, text: &str, number: u64, other: &str) -> Result<String, AllocError> {
    let mut out = String::new(alloc);
    for (place, line) in (1..u64::MAX).zip(text.lines()) {
        if place == number {
            out.push_str(other)?;
        } else {
            out.push_str(line)?;
            out.push('\n')?;
        }
    }
    Ok(out)
}

/// The text with a part in the place of another where that first stands: both with an arrow between them.
fn with_part(alloc: Global, text: &str, parts: &str) -> Result<String, Flaw> {
    let (part, other) = parts.split_once(" =>").ok_or(Flaw::Form)?;
    let part = plain(alloc, part)?;
    let other = plain(alloc, other.strip_prefix(" ").unwrap_or(""))?;
    let (front, back) = text.split_once(part.as_str()).ok_or(Flaw::Form)?;
    Ok(format!(in alloc; "{front}{other}{back}")?)
}

fn put_times(text: &mut String, unit: &str, count: u64) -> Result<(), AllocError> {
    for _ in 0..count {
        text.push_str(unit)?;
    }
    Ok(())
}

/// A text with the number in the place of each `#`, and the IPv4 address with the number in that of each `@`.
fn numbered(alloc: Global, unit: &str, number: u64) -> Result<String, AllocError> {
    let [_, _, _, _, a, b, c, d] = number.to_be_bytes();
    let decimal = format!(in alloc; "{number}")?;
    let address = format!(in alloc; "{a}.{b}.{c}.{d}")?;
    let text = unit.replace(alloc, '#', decimal.as_str())?;
    text.as_str().replace(alloc, '@', address.as_str())
}

/// Adds a line for each number: the first one, `to`, the last one, and the line.
fn put_numbers(alloc: Global, text: &mut String, numbers: &str) -> Result<(), Flaw> {
    let (first, rest) = numbers.split_once(" to ").ok_or(Flaw::Form)?;
    let (last, line) = counted(rest)?;
    let unit = plain_line(alloc, line)?;
    for number in number_in(first)?..last.saturating_add(1) {
        text.push_str(numbered(alloc, unit.as_str(), number)?.as_str())?;
    }
    Ok(())
}

/// The dump with the right number of rows on its last line, which may be missing.
fn ended(alloc: Global, text: &str) -> Result<String, AllocError> {
    let (lines, _) = text.rsplit_once("\nend ").unwrap_or((text, ""));
    let lines = lines.strip_suffix("\n").unwrap_or(lines);
    let rows = lines.lines().count().saturating_sub(1);
    format!(in alloc; "{lines}\nend {rows}\n")
}

/// Does a step, which follows the text that the lines above it say.
fn put_step(alloc: Global, texts: &Texts, text: &mut String, step: &str) -> Result<(), Flaw> {
    let (word, rest) = step.split_once(' ').unwrap_or((step, ""));
    match word {
        "file" => text.push_str(texts.get(rest).ok_or(Flaw::Form)?.as_str())?,
        "first" => *text = first_lines(alloc, text.as_str(), number_in(rest)?)?,
        "cut" => *text = first_bytes(alloc, text.as_str(), number_in(rest)?)?,
        "line" => {
            let (number, line) = counted(rest)?;
            let line = plain_line(alloc, line)?;
            *text = with_line(alloc, text.as_str(), number, line.as_str())?;
        }
        "put" => *text = with_part(alloc, text.as_str(), rest)?,
        "times" => {
            let (count, line) = counted(rest)?;
            put_times(text, plain_line(alloc, line)?.as_str(), count)?;
        }
        "numbers" => put_numbers(alloc, text, rest)?,
        "end" => *text = ended(alloc, text.as_str())?,
        _ => return Err(Flaw::Form),
    }
    Ok(())
}

/// Adds what a line says, or does its step. A line that begins with three dots is no step.
fn put(alloc: Global, texts: &Texts, text: &mut String, line: &str) -> Result<(), Flaw> {
    match line.strip_prefix(".") {
        Some(step) if !step.starts_with("..") => put_step(alloc, texts, text, step),
        _ => put_line(text, line),
    }
}

/// The text that the block of a field says.
pub fn block_of(alloc: Global, texts: &Texts, field: &Field) -> Result<String, Flaw> {
    let mut text = String::new(alloc);
    for line in field.block.iter() {
        put(alloc, texts, &mut text, line.as_str())?;
    }
    Ok(text)
}

/// The text that a field says. Its value, if it has one, is a line above its block.
pub fn text_of(alloc: Global, texts: &Texts, field: &Field) -> Result<String, Flaw> {
    let mut text = String::new(alloc);
    if !field.value.is_empty() {
        put(alloc, texts, &mut text, field.value.as_str())?;
    }
    for line in field.block.iter() {
        put(alloc, texts, &mut text, line.as_str())?;
    }
    Ok(text)
}
