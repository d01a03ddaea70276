//! What a reader of statements knows of the function or filter that it reads.
ghost use Rattle.ixp_lang.specs.Trees.{StmtTree};
ghost use Rattle.std.specs.Prelude.{◌≡◌, List, length, Some, Err, OnOk, option_map};
ghost use Rattle.std.specs.Option.{option_or};
ghost use Rattle.ixp_lang_tokens.specs.Reading.{read, kinds};
ghost use Rattle.ixp_lang_tokens.specs.Pieces.{same_word};
ghost use Rattle.ixp_lang_exprs.specs.Names.{function_of, names_of};
ghost use Rattle.ixp_lang_tokens.specs.declared.fault.Cause.TheVariants.{Unknown, Deep, Misfit};
ghost use Rattle.ixp_lang_tokens.specs.declared.fault.Fault.TheVariants.{Stop};
ghost use Rattle.ixp_lang_exprs.specs.Answers.{Refuses, fault_of};
ghost use Rattle.ixp_lang_exprs.specs.Groups.{place_of};
ghost use Rattle.ixp_lang_exprs.specs.Sets.{unless_so, if_missing};
ghost use Rattle.ixp_lang_exprs.specs.Operands.{misfit_at};
ghost use Rattle.ixp_lang_stmts.specs.Statements.{
  Said,
  place_in,
  may_return,
  may_meet,
  met,
  begins_control,
  begins_change,
  is_verdict,
  begins_statement,
  deep_word,
  no_branch,
};
ghost use Rattle.ixp_lang_stmts.specs.Views.{frame_of, returned_of, Stops};

use ixp_lang_exprs::{Context, Env, Scope, ValueType};
use ixp_lang_tokens::{Cause, Fault, Kind, Mark, Token, unexpected};
use ixp_num::Name;
use std::alloc::Global;

/// The function or filter whose statements are read.
#[derive(Clone, Copy)]
pub struct Frame<'e> {
    pub alloc: Global,
    pub env: &'e Env,
    pub scope: Scope,
}

impl<'e> Frame<'e> {
    /// Where the expressions of the statement stand that begins with these tokens.
    pub(crate) fn statement(self, tokens: &[Token]) -> Context<'e>
        ensures { place_of result ≡ place_in (frame_of self.entry) (length tokens.now) }
    {
        Context {
            alloc: self.alloc,
            env: self.env,
            scope: self.scope,
            statement: tokens.len(),
        }
    }

    /// Whether a value is returned here: in functions alone.
    pub(crate) fn returns(self) -> bool
        ensures { result ≡ may_return self.entry.scope }
    {
        match self.scope {
            Scope::Function(_) => true,
            _ => false,
        }
    }
}

/// What a function returns, as far as it is read.
#[derive(Clone, Copy)]
pub struct Returned {
    /// The type that was written, or that of the first `return`.
    pub ty: Option<ValueType>,
    /// Whether there was a `return`.
    pub is_met: bool,
}

impl Returned {
    /// A `return` at this place of such a value.
    pub(crate) fn meet(&mut self, ty: ValueType, place: usize) -> Result<(), Fault>
        ensures cause { Refuses result (unless_so (may_meet (returned_of self.old) ty) (misfit_at place)) }
        ensures kept { OnOk result (returned_of self.new ≡ met ty) }
    {
        if !ty.is_of_values() {
            return Err(Fault::Stop(Cause::Misfit, place));
        }
        let wanted = self.ty.unwrap_or(ty);
        if !wanted.is(ty) {
            return Err(Fault::Stop(Cause::Misfit, place));
        }
        self.ty = Some(ty);
        self.is_met = true;
        Ok(())
    }
}

/// No function has the name that stands at this place.
pub(crate) fn unknown(place: usize) -> Fault
    ensures { result ≡ Stop Unknown place }
{
    Fault::Stop(Cause::Unknown, place)
}

/// One level too many begins here.
pub(crate) fn deep(tokens: &[Token]) -> Fault
    ensures { result ≡ Stop Deep (length tokens.now) }
{
    Fault::Stop(Cause::Deep, tokens.len())
}

/// The statement that begins at this place has a misfit.
pub(crate) fn misfit(place: usize) -> Fault
    ensures { result ≡ Stop Misfit place }
{
    Fault::Stop(Cause::Misfit, place)
}

/// Whether both are the same bytes.
fn is_same(word: &[u8], other: &[u8]) -> bool
    ensures { result ≡ same_word word.now other.now }
{
    word == other
}

/// Whether a statement begins with the keyword that holds others or returns.
fn begins_control(word: &[u8]) -> bool
    ensures { result ≡ begins_control word.now }
{
    is_same(word, b"if") || is_same(word, b"case") || is_same(word, b"return")
}

/// Whether a statement begins with the keyword that changes the route.
fn begins_change(word: &[u8]) -> bool
    ensures { result ≡ begins_change word.now }
{
    is_same(word, b"bgp_next_hop")
        || is_same(word, b"bgp_path")
        || is_same(word, b"bgp_community")
        || is_same(word, b"bgp_large_community")
}

fn is_verdict(word: &[u8]) -> bool
    ensures { result ≡ is_verdict word.now }
{
    is_same(word, b"accept") || is_same(word, b"reject")
}

/// Whether a statement begins with the keyword.
pub(crate) fn begins_statement(word: &[u8]) -> bool
    ensures { result ≡ begins_statement word.now }
{
    begins_control(word) || begins_change(word) || is_verdict(word)
}

/// Why no call begins at this place, one level too deep.
fn no_call(frame: Frame<'_>, name: &Name, place: usize) -> Fault
    ensures { Some result
        ≡ option_map fault_of
        (option_or (if_missing (function_of (names_of frame.entry.env.now name.now)) (Unknown, place))
        (Some (Deep, place))) }
{
    match frame.env.function(name) {
        Some(_) => Fault::Stop(Cause::Deep, place),
        None => unknown(place),
    }
}

/// Why no statement begins with this keyword, one level too deep.
fn no_word(frame: Frame<'_>, word: &[u8], place: usize) -> Fault
    ensures { result ≡ fault_of (deep_word frame.entry.scope word.now place) }
{
    if is_same(word, b"return") && !frame.returns() {
        return misfit(place);
    }
    Fault::Stop(Cause::Deep, place)
}

/// Why no branch begins with these tokens, one level too deep. What is no statement is refused as such.
pub(crate) fn no_branch(frame: Frame<'_>, tokens: &[Token]) -> Fault
    ensures { Stops {A = Said (List StmtTree)} result
        (read (no_branch (frame_of frame.entry)) (kinds tokens.now)) }
{
    let [first, ..] = tokens else {
        return unexpected(tokens);
    };
    match &first.kind {
        Kind::Mark(mark) if mark.is(Mark::BlockOpen) => deep(tokens),
        Kind::Name(name) => no_call(frame, name.get(), tokens.len()),
        Kind::Word(word) if begins_statement(word.as_bytes()) => {
            no_word(frame, word.as_bytes(), tokens.len())
        }
        _ => unexpected(tokens),
    }
}
