//! The program `ixp_cases`: it runs commands over objects in memory, as files of cases tell, and compares
//! what comes of each run with what the case wants. The words are the files, in the order in which they are
//! read: texts (`.txt`), which cases begin with, and files of cases. `docs/CASES.md` has their form.
#![tactic(auto)]

mod case;
mod fields;
mod flaw;
mod http;
mod play;
mod table;
mod texts;

use crate::case::Case;
use crate::fields::{Field, fields_of};
use crate::flaw::Flaw;
use crate::play::play;
use crate::table::{filled, is_row};
use crate::texts::{Texts, block_of};
use std::alloc::{AllocError, Global};
use std::collections::BTreeMap;
use std::process::ExitCode;
use std::sync::Wait;
use std::thread::Threads;
use std::{env, fs, io};

/// What came of the cases so far.
#[derive(Drop)]
struct Tally {
    texts: Texts,
    cases: usize,
    differences: usize,
    /// What is to be printed.
    report: String,
}

/// The case that fields are, or the first of their lines that isn't of the form.
fn case_of(alloc: Global, texts: &Texts, fields: &[Field]) -> Result<Case, (usize, Flaw)> {
    let mut case = Case::new(alloc);
    let mut last = 0;
    for field in fields {
        last = field.line;
        case.take(alloc, texts, field).map_err(|flaw| (last, flaw))?;
    }
    case.complete(alloc).map_err(|flaw| (last, flaw))?;
    Ok(case)
}

impl Tally {
    fn tell(&mut self, file: &str, line: usize, what: &str) -> Result<(), AllocError> {
        self.differences = self.differences.saturating_add(1);
        writeln!(self.report, "{file} line {line}: {what}")
    }

    fn tell_flaw(&mut self, file: &str, line: usize, flaw: Flaw) -> Result<(), AllocError> {
        match flaw {
            Flaw::Form => self.tell(file, line, "not of the form"),
            Flaw::NoMemory => Err(AllocError),
        }
    }

    /// Plays the case that fields are, whose differences are told with this line.
    fn take_case<R: Threads + Wait + Sync>(
        &mut self,
        rt: &R,
        alloc: Global,
        file: &str,
        line: usize,
        fields: &[Field],
    ) -> Result<(), AllocError> {
        let case = match case_of(alloc, &self.texts, fields) {
            Ok(case) => case,
            Err((at, flaw)) => return self.tell_flaw(file, at, flaw),
        };
        self.cases = self.cases.saturating_add(case.count());
        for found in play(rt, alloc, &case)?.iter() {
            let (at, what) = (found.line, found.what.as_str());
            let what = format!(in alloc; "by line {at}, {what}")?;
            self.tell(file, line, what.as_str())?;
        }
        Ok(())
    }

    /// Keeps the text that a field says, under the name that is its value.
    fn take_text(&mut self, alloc: Global, file: &str, field: &Field) -> Result<(), AllocError> {
        let text = match block_of(alloc, &self.texts, field) {
            Ok(text) => text,
            Err(flaw) => return self.tell_flaw(file, field.line, flaw),
        };
        self.texts.insert(field.value.clone()?, text)?;
        Ok(())
    }

    /// Plays a case once for each row of its table, or takes a text.
    fn take_group<R: Threads + Wait + Sync>(
        &mut self,
        rt: &R,
        alloc: Global,
        file: &str,
        fields: &[Field],
    ) -> Result<(), AllocError> {
        let Some(first) = fields.first() else {
            return Ok(());
        };
        if first.name.as_str() == "text" {
            return self.take_text(alloc, file, first);
        }
        if !fields.iter().any(is_row) {
            return self.take_case(rt, alloc, file, first.line, fields);
        }
        for row in fields.iter().filter(|field| is_row(*field)) {
            let filled = filled(alloc, fields, row)?;
            self.take_case(rt, alloc, file, row.line, filled.as_slice())?;
        }
        Ok(())
    }

    /// Takes the cases and texts that fields are.
    fn take_all<R: Threads + Wait + Sync>(
        &mut self,
        rt: &R,
        alloc: Global,
        file: &str,
        fields: &[Field],
    ) -> Result<(), AllocError> {
        let mut start = 0;
        for (place, field) in fields.iter().enumerate() {
            if field.name.as_str() == "case" || field.name.as_str() == "text" {
                self.take_group(rt, alloc, file, fields.get(start..place).unwrap_or(&[]))?;
                start = place;
            }
        }
        self.take_group(rt, alloc, file, fields.get(start..).unwrap_or(&[]))
    }

    /// Takes a file: a text, or cases.
    fn take_file<R: Threads + Wait + Sync>(
        &mut self,
        rt: &R,
        alloc: Global,
        file: &str,
        text: String,
    ) -> Result<(), AllocError> {
        if file.ends_with(".txt") {
            self.texts.insert(String::from_str(alloc, file)?, text)?;
            return Ok(());
        }
        let before = self.cases;
        match fields_of(alloc, text.as_str()) {
            Ok(fields) => self.take_all(rt, alloc, file, fields.as_slice())?,
            Err(flaw) => self.tell_flaw(file, 1, flaw)?,
        }
        let cases = self.cases.saturating_sub(before);
        writeln!(self.report, "{file}: {cases} cases")
    }
}

/// `wait` is the same runtime: code outside `main` may wait by it.
fn run_files<R: Threads + Wait + Sync>(rt: &HostRuntime, wait: &R) -> io::Result<usize> {
    let alloc = rt.alloc();
    let mut tally = Tally {
        texts: BTreeMap::new(alloc),
        cases: 0,
        differences: 0,
        report: String::new(alloc),
    };
    for file in env::args(rt)?.skip(1) {
        let text = fs::read_to_string(rt, file.as_str())?;
        tally.take_file(wait, alloc, file.as_str(), text)?;
        rt.print(tally.report.as_str())?;
        tally.report.clear();
    }
    let (cases, differences) = (tally.cases, tally.differences);
    if differences == 0 {
        println!(rt; "{cases} cases agree")?;
    } else {
        println!(rt; "{cases} cases, {differences} differences")?;
    }
    Ok(differences)
}

fn main(rt: HostRuntime) -> io::Result<ExitCode> {
    match run_files(&rt, &rt)? {
        0 => Ok(ExitCode::SUCCESS),
        _ => Ok(ExitCode::FAILURE),
    }
}
