//! Requests of HTTP as cases write them, and the replies in an output.
use crate::flaw::Flaw;
use std::alloc::{AllocError, Global};

/// The field of the head whose value follows a word.
fn field_named(word: &str) -> Result<&'static str, Flaw> {
    match word {
        "as" => Ok("X-IXP-Manager-API-Key: "),
        "number" => Ok("X-Request-Number: "),
        _ => Err(Flaw::Form),
    }
}

/// Adds a request: method and target, and then a key behind `as` and the request's number behind `number`,
/// where it has them.
pub fn put_request(input: &mut String, asked: &str, body: &str) -> Result<(), Flaw> {
    for (place, word) in asked.split_whitespace().enumerate() {
        match place {
            0 => input.push_str(word)?,
            1 => write!(input, " {word} HTTP/1.1\r\nHost: localhost\r\n")?,
            _ if place % 2 == 0 => input.push_str(field_named(word)?)?,
            _ => write!(input, "{word}\r\n")?,
        }
    }
    let length = body.len();
    write!(input, "Content-Length: {length}\r\n\r\n{body}")?;
    Ok(())
}

/// The length of the body that a head tells.
fn length_in(head: &str) -> usize {
    match head.split_once("Content-Length: ") {
        Some((_, rest)) => rest
            .lines()
            .next()
            .unwrap_or("")
            .parse::<usize>()
            .unwrap_or(0),
        None => 0,
    }
}

/// The status of the first reply in an output, with ` closes` where the link is to end with it; its body; and
/// what stands behind it.
fn next_reply(output: &str) -> Option<(&str, &str, &str, &str)> {
    let (head, rest) = output.strip_prefix("HTTP/1.1 ")?.split_once("\r\n\r\n")?;
    let closes = if head.contains("Connection: close") {
        " closes"
    } else {
        ""
    };
    let length = length_in(head);
    Some((
        head.get(..3)?,
        closes,
        rest.get(..length)?,
        rest.get(length..)?,
    ))
}

/// The replies in an output.
#[derive(Drop)]
pub struct Replies {
    /// Each one as its status, `closes` where the link is to end with it, and its body.
    pub each: Vec<String>,
    /// The same of all without the bodies, as a line.
    pub statuses: String,
}

/// The replies that an output begins with.
pub fn replies_in(alloc: Global, output: &str) -> Result<Replies, AllocError> {
    let mut each = Vec::new(alloc);
    let mut statuses = String::new(alloc);
    let mut left = output;
    for _ in 0..output.len() {
        let Some((status, closes, body, rest)) = next_reply(left) else {
            break;
        };
        each.push(format!(in alloc; "{status}{closes} {body}")?)?;
        let blank = if statuses.is_empty() { "" } else { " " };
        write!(statuses, "{blank}{status}{closes}")?;
        left = rest;
    }
    statuses.push('\n')?;
    Ok(Replies { each, statuses })
}
