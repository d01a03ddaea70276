//! What is gathered of an object.
use crate::ahead::{Ahead, Line};
use crate::attributes::{Attribute, earlier, goes_on, is_word, named, put_value};
use ixp_num::Items;
use std::alloc::{AllocError, Global};

/// The attributes of one name, and the least line that neither has a name nor goes on with a value.
#[derive(Debug, Drop)]
pub struct Gathered {
    pub found: Items<Attribute>,
    pub fault: Option<usize>,
}

impl Gathered {
    ghost use Rattle.std.specs.Prelude.{
      ◌≡◌,
      ◌≤◌,
      ◌++◌,
      ◌∷◌,
      [],
      None,
      Some,
      false,
      length,
      IfOk,
      if◌then◌else◌,
    };
    ghost use Rattle.ixp_rpsl.specs.Lines.{line_of, lines_ahead};
    ghost use Rattle.ixp_rpsl.specs.Attributes.{
      attributes,
      bad_line,
      earlier,
      is_empty,
      goes_on,
      past_object,
      past_value,
      whole_value,
    };
    ghost use Rattle.ixp_rpsl.specs.Gathers.{Gathers};

    /// Nothing yet.
    pub fn new(alloc: Global) -> Gathered
        ensures found { result.found ≡ [] }
        ensures fault { result.fault ≡ None }
    {
        Gathered {
            found: Items::new(alloc),
            fault: None,
        }
    }

    /// Takes an attribute, of whose value this is in its first line.
    fn put<'a>(
        &mut self,
        alloc: Global,
        line: usize,
        first: &[u8],
        ahead: Ahead<'a>,
    ) -> Result<Ahead<'a>, AllocError>
        ensures { IfOk result
            (λ rest. (self.new.found ≡ self.old.found
            ++ record { line = line; value = whole_value first.now (lines_ahead ahead.entry) } ∷ [])
            × (self.new.fault ≡ self.old.fault)
            × (lines_ahead rest ≡ past_value (lines_ahead ahead.entry))
            × (length rest.text.now ≤ length ahead.entry.text.now)) }
    {
        let mut value = Vec::new(alloc);
        let rest = put_value(&mut value, first, ahead)?;
        self.found.push(Attribute {
            line,
            value: Items::from_vec(value),
        })?;
        Ok(rest)
    }

    /// Notes a line without a name, if it doesn't go on with a value.
    fn note(&mut self, line: Line<'_>)
        ensures found { self.new.found ≡ self.old.found }
        ensures fault { self.new.fault
            ≡ (if goes_on line.entry.bytes.now then self.old.fault
            else earlier self.old.fault (Some line.entry.number)) }
    {
        if !goes_on(line.bytes) {
            self.fault = earlier(self.fault, Some(line.number));
        }
    }

    /// Takes the next line, and tells what is behind it and its value.
    fn take<'a>(
        &mut self,
        alloc: Global,
        word: &[u8],
        line: Line<'a>,
        ahead: Ahead<'a>,
    ) -> Result<Ahead<'a>, AllocError>
        requires { is_empty line.bytes.now ≡ false }
        ensures { IfOk result
            (λ rest. Gathers word.now (line_of line.entry) (lines_ahead ahead.entry)
            (lines_ahead rest) self.old self.new × (length rest.text.now ≤ length ahead.entry.text.now)) }
    {
        match named(line.bytes) {
            Some((name, first)) => {
                if is_word(word, name) {
                    let rest = self.put(alloc, line.number, first, ahead)?;
                    Ok(rest)
                } else {
                    Ok(ahead)
                }
            }
            None => {
                self.note(line);
                Ok(ahead)
            }
        }
    }

    /// Takes the attributes of this name, up to the next empty line, and tells what is ahead there.
    pub fn gather<'a>(
        &mut self,
        alloc: Global,
        word: &[u8],
        ahead: Ahead<'a>,
    ) -> Result<Ahead<'a>, AllocError>
        ensures { IfOk result
            (λ rest. (self.new.found ≡ self.old.found ++ attributes word.now (lines_ahead ahead.entry))
            × (self.new.fault ≡ earlier self.old.fault (bad_line (lines_ahead ahead.entry)))
            × (lines_ahead rest ≡ past_object (lines_ahead ahead.entry))
            × (length rest.text.now ≤ length ahead.entry.text.now)) }
    {
        let mut rest = ahead;
        'lines: while let Some((line, more)) = rest.next_line() {
            if line.bytes.is_empty() {
                return Ok(rest);
            }
            rest = self.take(alloc, word, line, more)?;
        }
        Ok(rest)
    }
}
