//! A case: a store, and runs of commands over it, one after the other.
use crate::fields::Field;
use crate::flaw::Flaw;
use crate::http::put_request;
use crate::texts::{Texts, block_of, number_in, plain, text_of};
use ixp_io::{Change, RowName};
use ixp_num_tables::Items;
use std::alloc::{AllocError, Global};

/// What a run gives.
#[derive(Clone, Copy, Debug, PartialEq, Eq, Drop)]
pub enum Part {
    Status,
    Output,
    Errors,
    /// The statuses of all replies in the output.
    Replies,
    /// The reply with this number, counted from 0.
    Reply(usize),
    /// The rows of the store.
    Rows,
}

/// What is wanted of a run, by the field on a line.
#[derive(Drop)]
pub struct Want {
    pub line: usize,
    pub part: Part,
    /// Three dots in it stand for anything.
    pub text: String,
}

/// A run: its words, the objects that it is over, and what is wanted of it.
#[derive(Drop)]
pub struct Run {
    pub line: usize,
    pub words: Vec<String>,
    pub input: String,
    /// Where the mark stood in the input.
    pub place: usize,
    /// What the clock gives.
    pub second: u64,
    /// The most bytes that one write takes.
    pub most_written: u64,
    /// The numbers of the reads, of the writes of the output and of the calls of the store that fail, counted
    /// from 1.
    pub failing_reads: Vec<u64>,
    pub failing_writes: Vec<u64>,
    pub failing_calls: Vec<u64>,
    pub wants: Vec<Want>,
    /// How many replies are wanted one by one.
    pub replies: usize,
}

/// A case.
#[derive(Drop)]
pub struct Case {
    /// Of how many bytes at most the reads are; the case is run once for each.
    pub pieces: Vec<u64>,
    /// The dump that is restored first, where it isn't empty.
    pub store: String,
    /// The rows that are changed then.
    pub rows: Vec<Change>,
    pub runs: Vec<Run>,
}

/// The words of a value; `""` is the empty one.
fn words_of(alloc: Global, value: &str) -> Result<Vec<String>, AllocError> {
    let mut words = Vec::new(alloc);
    for word in value.split_whitespace() {
        let word = if word == "\"\"" { "" } else { word };
        words.push(String::from_str(alloc, word)?)?;
    }
    Ok(words)
}

fn numbers_of(alloc: Global, value: &str) -> Result<Vec<u64>, Flaw> {
    let mut numbers = Vec::new(alloc);
    for word in value.split_whitespace() {
        numbers.push(number_in(word)?)?;
    }
    Ok(numbers)
}

/// The name of the row that a kind and a key are, with `-` for an empty key.
fn name_of(alloc: Global, text: &str) -> Result<RowName, Flaw> {
    let (kind, key) = text.split_once(' ').ok_or(Flaw::Form)?;
    let kind = kind.parse::<u8>().map_err(|_| Flaw::Form)?;
    let key = plain(alloc, if key == "-" { "" } else { key })?;
    Ok(RowName {
        kind,
        key: Items::from_vec(key.into_bytes()),
    })
}

/// The change of a row that a line is: `<kind> <key> = <body>`, or `<kind> <key> gone`.
fn change_of(alloc: Global, line: &str) -> Result<Change, Flaw> {
    if let Some(name) = line.strip_suffix(" gone") {
        let name = name_of(alloc, name)?;
        return Ok(Change { name, body: None });
    }
    let (name, body) = line.split_once(" =").ok_or(Flaw::Form)?;
    let body = plain(alloc, body.strip_prefix(" ").unwrap_or(""))?;
    Ok(Change {
        name: name_of(alloc, name)?,
        body: Some(Items::from_vec(body.into_bytes())),
    })
}

fn changes_of(alloc: Global, lines: &[String]) -> Result<Vec<Change>, Flaw> {
    let mut changes = Vec::new(alloc);
    for line in lines {
        changes.push(change_of(alloc, line.as_str())?)?;
    }
    Ok(changes)
}

impl Run {
    /// A run of these words over an empty input, of which nothing is wanted yet.
    pub fn new(alloc: Global, line: usize, words: &str) -> Result<Run, AllocError> {
        Ok(Run {
            line,
            words: words_of(alloc, words)?,
            input: String::new(alloc),
            place: 0,
            second: 0,
            most_written: u64::MAX,
            failing_reads: Vec::new(alloc),
            failing_writes: Vec::new(alloc),
            failing_calls: Vec::new(alloc),
            wants: Vec::new(alloc),
            replies: 0,
        })
    }

    fn want(&mut self, line: usize, part: Part, text: String) -> Result<(), Flaw> {
        self.wants.push(Want { line, part, text })?;
        Ok(())
    }

    /// Takes the input with a mark `^`, which is none of its bytes.
    fn take_marked(&mut self, alloc: Global, text: &str) -> Result<(), Flaw> {
        let (front, back) = text.split_once('^').ok_or(Flaw::Form)?;
        self.place = front.len();
        self.input = format!(in alloc; "{front}{back}")?;
        Ok(())
    }

    /// Takes what is wanted of a part. In the errors `^` is where the mark stood in the input.
    fn take_want(
        &mut self,
        alloc: Global,
        part: Part,
        line: usize,
        text: &str,
    ) -> Result<(), Flaw> {
        let place = self.place;
        let text = match text.split_once('^') {
            Some((front, back)) if part == Part::Errors => format!(in alloc;
                "{front}{place}{back}"
            )?,
            _ => String::from_str(alloc, text)?,
        };
        self.want(line, part, text)
    }

    /// Takes the reply that is wanted: its status, `closes` where the link is to end with it, and its body,
    /// which may be the block.
    fn take_reply(&mut self, alloc: Global, texts: &Texts, field: &Field) -> Result<(), Flaw> {
        let mut text = plain(alloc, field.value.as_str())?;
        if !field.block.is_empty() {
            let body = block_of(alloc, texts, field)?;
            text = format!(in alloc; "{text} {body}")?;
        }
        let part = Part::Reply(self.replies);
        self.replies = self.replies.saturating_add(1);
        self.want(field.line, part, text)
    }

    fn take(&mut self, alloc: Global, texts: &Texts, field: &Field) -> Result<(), Flaw> {
        let value = field.value.as_str();
        let part = match field.name.as_str() {
            "input" => {
                self.input = text_of(alloc, texts, field)?;
                return Ok(());
            }
            "marked" => return self.take_marked(alloc, text_of(alloc, texts, field)?.as_str()),
            ">" => {
                let body = block_of(alloc, texts, field)?;
                return put_request(&mut self.input, value, body.as_str());
            }
            "<" => return self.take_reply(alloc, texts, field),
            "status" => Part::Status,
            "output" => Part::Output,
            "errors" => Part::Errors,
            "replies" => Part::Replies,
            "rows after" => Part::Rows,
            _ => return self.take_number(alloc, field),
        };
        let text = text_of(alloc, texts, field)?;
        self.take_want(alloc, part, field.line, text.as_str())
    }

    /// Takes a field of numbers.
    fn take_number(&mut self, alloc: Global, field: &Field) -> Result<(), Flaw> {
        let value = field.value.as_str();
        match field.name.as_str() {
            "second" => self.second = number_in(value)?,
            "writes of" => self.most_written = number_in(value)?,
            "reads fail" => self.failing_reads = numbers_of(alloc, value)?,
            "writes fail" => self.failing_writes = numbers_of(alloc, value)?,
            "store fails" => self.failing_calls = numbers_of(alloc, value)?,
            _ => return Err(Flaw::Form),
        }
        Ok(())
    }

    /// Whether nothing is wanted of the part.
    fn is_free(&self, part: Part) -> bool {
        !self.wants.iter().any(|want| want.part == part)
    }

    /// Wants what each run is to give where its fields don't say otherwise: status 0, no errors, and no
    /// output.
    fn complete(&mut self, alloc: Global) -> Result<(), Flaw> {
        let line = self.line;
        if self.is_free(Part::Status) {
            self.want(line, Part::Status, String::from_str(alloc, "0\n")?)?;
        }
        if self.is_free(Part::Errors) {
            self.want(line, Part::Errors, String::new(alloc))?;
        }
        if self.is_free(Part::Output) && self.is_free(Part::Replies) && self.replies == 0 {
            self.want(line, Part::Output, String::new(alloc))?;
        }
        Ok(())
    }
}

impl Case {
    /// A case without fields.
    pub fn new(alloc: Global) -> Case {
        Case {
            pieces: Vec::new(alloc),
            store: String::new(alloc),
            rows: Vec::new(alloc),
            runs: Vec::new(alloc),
        }
    }

    /// Takes a field: one of the case, or of its last run.
    pub fn take(&mut self, alloc: Global, texts: &Texts, field: &Field) -> Result<(), Flaw> {
        let value = field.value.as_str();
        match field.name.as_str() {
            "case" => {}
            "pieces" => self.pieces = numbers_of(alloc, value)?,
            "store" => self.store = text_of(alloc, texts, field)?,
            "rows" => self.rows = changes_of(alloc, field.block.as_slice())?,
            "run" => self.runs.push(Run::new(alloc, field.line, value)?)?,
            _ => {
                let run = self.runs.last_mut().ok_or(Flaw::Form)?;
                run.take(alloc, texts, field)?;
            }
        }
        Ok(())
    }

    /// Fills in what the fields don't say. A case without a run is none.
    pub fn complete(&mut self, alloc: Global) -> Result<(), Flaw> {
        if self.runs.is_empty() {
            return Err(Flaw::Form);
        }
        if self.pieces.is_empty() {
            self.pieces.push(u64::MAX)?;
        }
        for run in self.runs.iter_mut() {
            run.complete(alloc)?;
        }
        Ok(())
    }

    /// How many things the case compares: replies one by one, or itself.
    pub fn count(&self) -> usize {
        let count = |sum: usize, run: &Run| sum.saturating_add(run.replies);
        self.runs.iter().fold(0, count).max(1)
    }
}
