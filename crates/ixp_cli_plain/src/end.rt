//! How a run ends, and the line that tells of it.
ghost use Rattle.std.specs.Prelude.{◌≡◌, ◌≤◌, ◌++◌, ◌∷◌, [], OnOk, OnErr, decimal};
ghost use Rattle.ixp_num.specs.Causes.{place_text, cause_text};
ghost use Rattle.ixp_io.specs.Faults.{Rose};
ghost use Rattle.ixp_io.specs.Told.{Takes, TakesPart};
ghost use Rattle.ixp_cli_plain.specs.Expansions.{cause_text_of};
ghost use Rattle.ixp_cli_plain.specs.Runs.{Flow, Tells, error_text};

use itoa::Buffer;
use ixp_io::{Failed, Sink, write_all};
use ixp_num::{Cause, Items, Name, Place, code_text};
use ixp_rpsl_text::ExpandCause;
use std::alloc::{AllocError, AllocFailed};

/// How a run ends: what was asked for is done, or the first cause that it met.
#[derive(Debug, Drop)]
pub enum End {
    Done,
    /// The words are no line of the program's.
    Usage,
    /// The input isn't of the command's form, or is longer than a command reads.
    BadInput { cause: Cause },
    /// The input isn't whois data, no object in it has the set's name, or a listing would be too long.
    BadObjects { cause: ExpandCause },
    ReadFault,
    WriteFault,
    KeeperFault,
    NoMemory,
    /// No router has the handle.
    UnknownRouter { router: Name },
    /// The store that is to be filled has a row.
    NotEmpty,
    /// The store's rows are no registry's: the row's kind and key, and the rule that it breaks.
    Damaged { what: Items<u8> },
    /// The store has the form of an older version, with this number.
    OldVersion { found: u64 },
    /// The door failed.
    DoorFault,
    /// A link ended before its input did, after so many requests.
    BadLink { code: LinkCode, requests: u32 },
}

/// Why a link ended before its input did.
#[derive(Clone, Copy, Debug, PartialEq, Eq, Drop)]
pub enum LinkCode {
    /// What stands there is no request.
    H1,
    /// The head of a request is too long.
    H2,
    /// The body of a request is too long.
    H3,
    /// The body of a request is in chunks.
    H4,
    /// The input ended inside a request.
    H5,
    /// The link had as many requests as it may have.
    S1,
}

impl LinkCode {
    ghost use Rattle.std.specs.Prelude.{◌≡◌};
    ghost use Rattle.ixp_cli_plain.specs.Sessions.{code_word};

    /// The code as it is printed.
    pub fn word(self) -> &'static [u8]
        ensures { result.now ≡ code_word self }
    {
        match self {
            LinkCode::H1 => b"H1",
            LinkCode::H2 => b"H2",
            LinkCode::H3 => b"H3",
            LinkCode::H4 => b"H4",
            LinkCode::H5 => b"H5",
            LinkCode::S1 => b"S1",
        }
    }
}

/// Why a command has nothing to write for an input.
#[derive(Debug, Drop)]
pub(crate) enum NoAnswer {
    /// The input isn't of the command's form.
    Bad { cause: Cause },
    /// No router of the input's registry has the handle.
    Unknown { router: Name },
    /// The input isn't whois data, no object in it has the set's name, or a listing would be too long.
    BadObjects { cause: ExpandCause },
    NoMemory,
}

impl From<AllocError> for NoAnswer {
    ghost use Rattle.std.specs.Prelude.{◌≡◌};
    ghost use Rattle.ixp_cli_plain.specs.declared.end.NoAnswer.TheVariants.{NoMemory};

    ghost from_gives = { λ _ e. e ≡ NoMemory };

    fn from(_error: AllocError) -> NoAnswer {
        NoAnswer::NoMemory
    }
}

impl<T: Drop> From<AllocFailed<T>> for NoAnswer {
    ghost use Rattle.std.specs.Prelude.{◌≡◌};
    ghost use Rattle.ixp_cli_plain.specs.declared.end.NoAnswer.TheVariants.{NoMemory};

    ghost from_gives = { λ _ e. e ≡ NoMemory };

    fn from(_error: AllocFailed<T>) -> NoAnswer {
        NoAnswer::NoMemory
    }
}

impl End {
    ghost use Rattle.std.specs.Prelude.{◌≡◌};
    ghost use Rattle.ixp_cli_plain.specs.Runs.{status_of};

    /// The program's exit status.
    pub fn status(&self) -> u8
        ensures { result ≡ status_of self.now }
    {
        match self {
            End::Done => 0,
            End::Usage => 1,
            End::BadInput { .. } => 2,
            End::BadObjects { .. } => 2,
            End::ReadFault => 3,
            End::WriteFault => 4,
            End::KeeperFault => 5,
            End::NoMemory => 8,
            End::UnknownRouter { .. } => 9,
            End::NotEmpty => 11,
            End::Damaged { .. } => 6,
            End::OldVersion { .. } => 10,
            End::DoorFault => 7,
            End::BadLink { .. } => 2,
        }
    }
}

/// Writes a number.
fn write_number<E: Sink>(errors: &mut E, number: u64) -> Result<(), Failed>
    ensures ok { OnOk result (Takes (E.written errors.old) (E.written errors.new) (decimal number)) }
    ensures err { OnErr result (TakesPart (E.written errors.old) (E.written errors.new) (decimal number)) }
    ensures counts { E.write_faults errors.old ≤ E.write_faults errors.new }
    ensures cause { OnErr result (Rose (E.write_faults errors.old) (E.write_faults errors.new)) }
{
    let mut buffer = Buffer::new();
    write_all(errors, buffer.format(number).as_bytes())
}

/// Writes a text and a number behind it.
#[tactic(auto, using(crate::proofs::Telling::telling))]
fn write_with<E: Sink>(errors: &mut E, before: &[u8], number: u64) -> Result<(), Failed>
    ensures ok { OnOk result
        (Takes (E.written errors.old) (E.written errors.new) (before.now ++ decimal number)) }
    ensures err { OnErr result
        (TakesPart (E.written errors.old) (E.written errors.new) (before.now ++ decimal number)) }
    ensures counts { E.write_faults errors.old ≤ E.write_faults errors.new }
    ensures cause { OnErr result (Rose (E.write_faults errors.old) (E.write_faults errors.new)) }
{
    write_all(errors, before)?;
    write_number(errors, number)?;
    Ok(())
}

/// Writes a blank, a broken rule and the line that breaks it.
#[tactic(auto, using(crate::proofs::Telling::telling))]
fn write_rule<E: Sink>(errors: &mut E, rule: u32, line: u64) -> Result<(), Failed>
    ensures ok { OnOk result
        (Takes (E.written errors.old) (E.written errors.new)
        ((32 ∷ 81 ∷ decimal rule) ++ (32 ∷ decimal line))) }
    ensures err { OnErr result
        (TakesPart (E.written errors.old) (E.written errors.new)
        ((32 ∷ 81 ∷ decimal rule) ++ (32 ∷ decimal line))) }
    ensures counts { E.write_faults errors.old ≤ E.write_faults errors.new }
    ensures cause { OnErr result (Rose (E.write_faults errors.old) (E.write_faults errors.new)) }
{
    write_with(errors, b" Q", u64::from(rule))?;
    write_with(errors, b" ", line)?;
    Ok(())
}

/// Writes a blank and a place.
fn write_place<E: Sink>(errors: &mut E, place: Place) -> Result<(), Failed>
    ensures ok { OnOk result (Takes (E.written errors.old) (E.written errors.new) (32 ∷ place_text place)) }
    ensures err { OnErr result
        (TakesPart (E.written errors.old) (E.written errors.new) (32 ∷ place_text place)) }
    ensures counts { E.write_faults errors.old ≤ E.write_faults errors.new }
    ensures cause { OnErr result (Rose (E.write_faults errors.old) (E.write_faults errors.new)) }
{
    match place {
        Place::Line { line } => write_with(errors, b" ", line),
        Place::Byte { at } => write_with(errors, b" ", at),
        Place::Rule { rule, line } => write_rule(errors, rule, line),
    }
}

/// Writes a code and a place.
#[tactic(auto, using(crate::proofs::Telling::telling))]
fn write_cause<E: Sink>(errors: &mut E, cause: Cause) -> Result<(), Failed>
    ensures ok { OnOk result (Takes (E.written errors.old) (E.written errors.new) (cause_text cause)) }
    ensures err { OnErr result (TakesPart (E.written errors.old) (E.written errors.new) (cause_text cause)) }
    ensures counts { E.write_faults errors.old ≤ E.write_faults errors.new }
    ensures cause { OnErr result (Rose (E.write_faults errors.old) (E.write_faults errors.new)) }
{
    write_all(errors, code_text(cause.code))?;
    write_place(errors, cause.place)?;
    Ok(())
}

/// Writes a code, a place and the line's end.
#[tactic(auto, using(crate::proofs::Telling::telling))]
fn write_cause_line<E: Sink>(errors: &mut E, cause: Cause) -> Result<(), Failed>
    ensures ok { OnOk result
        (Takes (E.written errors.old) (E.written errors.new) (cause_text cause ++ 10 ∷ [])) }
    ensures err { OnErr result
        (TakesPart (E.written errors.old) (E.written errors.new) (cause_text cause ++ 10 ∷ [])) }
    ensures counts { E.write_faults errors.old ≤ E.write_faults errors.new }
    ensures cause { OnErr result (Rose (E.write_faults errors.old) (E.write_faults errors.new)) }
{
    write_cause(errors, cause)?;
    write_all(errors, b"\n")?;
    Ok(())
}

/// Writes a text, a code and a place, and the line's end.
#[tactic(auto, using(crate::proofs::Telling::telling))]
fn write_refusal<E: Sink>(errors: &mut E, before: &[u8], cause: Cause) -> Result<(), Failed>
    ensures ok { OnOk result
        (Takes (E.written errors.old) (E.written errors.new) (before.now ++ (cause_text cause ++ 10 ∷ []))) }
    ensures err { OnErr result
        (TakesPart (E.written errors.old) (E.written errors.new)
        (before.now ++ (cause_text cause ++ 10 ∷ []))) }
    ensures counts { E.write_faults errors.old ≤ E.write_faults errors.new }
    ensures cause { OnErr result (Rose (E.write_faults errors.old) (E.write_faults errors.new)) }
{
    write_all(errors, before)?;
    write_cause_line(errors, cause)?;
    Ok(())
}

/// Writes a name and the line's end.
#[tactic(auto, using(crate::proofs::Telling::telling))]
fn write_name_line<E: Sink>(errors: &mut E, name: &[u8]) -> Result<(), Failed>
    ensures ok { OnOk result (Takes (E.written errors.old) (E.written errors.new) (name.now ++ 10 ∷ [])) }
    ensures err { OnErr result
        (TakesPart (E.written errors.old) (E.written errors.new) (name.now ++ 10 ∷ [])) }
    ensures counts { E.write_faults errors.old ≤ E.write_faults errors.new }
    ensures cause { OnErr result (Rose (E.write_faults errors.old) (E.write_faults errors.new)) }
{
    write_all(errors, name)?;
    write_all(errors, b"\n")?;
    Ok(())
}

/// Writes a text, a name and the line's end.
#[tactic(auto, using(crate::proofs::Telling::telling))]
fn write_named<E: Sink>(errors: &mut E, before: &[u8], name: &[u8]) -> Result<(), Failed>
    ensures ok { OnOk result
        (Takes (E.written errors.old) (E.written errors.new) (before.now ++ (name.now ++ 10 ∷ []))) }
    ensures err { OnErr result
        (TakesPart (E.written errors.old) (E.written errors.new) (before.now ++ (name.now ++ 10 ∷ []))) }
    ensures counts { E.write_faults errors.old ≤ E.write_faults errors.new }
    ensures cause { OnErr result (Rose (E.write_faults errors.old) (E.write_faults errors.new)) }
{
    write_all(errors, before)?;
    write_name_line(errors, name)?;
    Ok(())
}

/// Writes a number and the line's end.
#[tactic(auto, using(crate::proofs::Telling::telling))]
fn write_number_line<E: Sink>(errors: &mut E, number: u64) -> Result<(), Failed>
    ensures ok { OnOk result
        (Takes (E.written errors.old) (E.written errors.new) (decimal number ++ 10 ∷ [])) }
    ensures err { OnErr result
        (TakesPart (E.written errors.old) (E.written errors.new) (decimal number ++ 10 ∷ [])) }
    ensures counts { E.write_faults errors.old ≤ E.write_faults errors.new }
    ensures cause { OnErr result (Rose (E.write_faults errors.old) (E.write_faults errors.new)) }
{
    write_number(errors, number)?;
    write_all(errors, b"\n")?;
    Ok(())
}

/// Writes a text, a number and the line's end.
#[tactic(auto, using(crate::proofs::Telling::telling))]
pub fn write_counted<E: Sink>(errors: &mut E, before: &[u8], number: u64) -> Result<(), Failed>
    ensures ok { OnOk result
        (Takes (E.written errors.old) (E.written errors.new) (before.now ++ (decimal number ++ 10 ∷ []))) }
    ensures err { OnErr result
        (TakesPart (E.written errors.old) (E.written errors.new)
        (before.now ++ (decimal number ++ 10 ∷ []))) }
    ensures counts { E.write_faults errors.old ≤ E.write_faults errors.new }
    ensures cause { OnErr result (Rose (E.write_faults errors.old) (E.write_faults errors.new)) }
{
    write_all(errors, before)?;
    write_number_line(errors, number)?;
    Ok(())
}

/// Writes a word, a blank, a number and the line's end.
#[tactic(auto, using(crate::proofs::Telling::telling))]
fn write_word<E: Sink>(errors: &mut E, word: &[u8], number: u64) -> Result<(), Failed>
    ensures ok { OnOk result
        (Takes (E.written errors.old) (E.written errors.new)
        (word.now ++ (32 ∷ (decimal number ++ 10 ∷ [])))) }
    ensures err { OnErr result
        (TakesPart (E.written errors.old) (E.written errors.new)
        (word.now ++ (32 ∷ (decimal number ++ 10 ∷ [])))) }
    ensures counts { E.write_faults errors.old ≤ E.write_faults errors.new }
    ensures cause { OnErr result (Rose (E.write_faults errors.old) (E.write_faults errors.new)) }
{
    write_all(errors, word)?;
    write_counted(errors, b" ", number)?;
    Ok(())
}

/// Writes a text, a word, a blank, a number and the line's end.
#[tactic(auto, using(crate::proofs::Telling::telling))]
fn write_link<E: Sink>(
    errors: &mut E,
    before: &[u8],
    word: &[u8],
    requests: u32,
) -> Result<(), Failed>
    ensures ok { OnOk result
        (Takes (E.written errors.old) (E.written errors.new)
        (before.now ++ (word.now ++ (32 ∷ (decimal requests ++ 10 ∷ []))))) }
    ensures err { OnErr result
        (TakesPart (E.written errors.old) (E.written errors.new)
        (before.now ++ (word.now ++ (32 ∷ (decimal requests ++ 10 ∷ []))))) }
    ensures counts { E.write_faults errors.old ≤ E.write_faults errors.new }
    ensures cause { OnErr result (Rose (E.write_faults errors.old) (E.write_faults errors.new)) }
{
    write_all(errors, before)?;
    write_word(errors, word, u64::from(requests))?;
    Ok(())
}

/// Writes the line that tells why whois data give no listing.
fn write_objects_cause<E: Sink>(errors: &mut E, cause: ExpandCause) -> Result<(), Failed>
    ensures ok { OnOk result (Takes (E.written errors.old) (E.written errors.new) (cause_text_of cause)) }
    ensures err { OnErr result
        (TakesPart (E.written errors.old) (E.written errors.new) (cause_text_of cause)) }
    ensures cause { OnErr result (Rose (E.write_faults errors.old) (E.write_faults errors.new)) }
{
    match cause {
        ExpandCause::Line { n } => write_counted(errors, b"ixpm: bad input J1 ", n as u64),
        ExpandCause::NoSet { set } => write_named(errors, b"ixpm: bad input J2 ", set.as_bytes()),
        ExpandCause::TooMany { have } => {
            write_counted(errors, b"ixpm: bad input J3 ", have as u64)
        }
    }
}

/// Writes the line that tells how a run ended, if there is one to write.
fn write_end<E: Sink>(errors: &mut E, end: End) -> Result<(), Failed>
    ensures ok { OnOk result (Takes (E.written errors.old) (E.written errors.new) (error_text end)) }
    ensures err { OnErr result (TakesPart (E.written errors.old) (E.written errors.new) (error_text end)) }
    ensures cause { OnErr result (Rose (E.write_faults errors.old) (E.write_faults errors.new)) }
{
    match end {
        End::Done => write_all(errors, b""),
        End::Usage => write_all(errors, b"ixpm: usage\n"),
        End::BadInput { cause } => write_refusal(errors, b"ixpm: bad input ", cause),
        End::BadObjects { cause } => write_objects_cause(errors, cause),
        End::ReadFault => write_all(errors, b"ixpm: read fault\n"),
        End::WriteFault => write_all(errors, b"ixpm: write fault\n"),
        End::KeeperFault => write_all(errors, b"ixpm: keeper fault\n"),
        End::NoMemory => write_all(errors, b"ixpm: no memory\n"),
        End::UnknownRouter { router } => {
            write_named(errors, b"ixpm: unknown router ", router.as_bytes())
        }
        End::NotEmpty => write_all(errors, b"ixpm: store not empty\n"),
        End::Damaged { what } => write_named(errors, b"ixpm: damaged ", what.as_slice()),
        End::OldVersion { found } => write_counted(errors, b"ixpm: old store ", found),
        End::DoorFault => write_all(errors, b"ixpm: door fault\n"),
        End::BadLink { code, requests } => {
            write_link(errors, b"ixpm: bad input ", code.word(), requests)
        }
    }
}

/// Writes the line that tells how a run ended, as far as the errors take it. It does not allocate.
pub fn report<E: Sink>(errors: &mut E, end: End)
    ensures { Tells (record { bytes = E.written errors.old; faults = E.write_faults errors.old })
        (record { bytes = E.written errors.new; faults = E.write_faults errors.new }) (error_text end) }
{
    match write_end(errors, end) {
        Ok(()) => {}
        Err(_) => {}
    }
}
