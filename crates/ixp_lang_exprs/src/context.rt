//! Where an expression stands.
ghost use Rattle.std.specs.Prelude.{◌≡◌, length};
ghost use Rattle.ixp_lang_tokens.specs.declared.fault.Cause.TheVariants.{Deep, Unknown, Misfit};
ghost use Rattle.ixp_lang_tokens.specs.declared.fault.Fault.TheVariants.{Stop};
ghost use Rattle.ixp_lang_exprs.specs.Names.{is_function, is_define};

use crate::Env;
use ixp_lang_tokens::{Cause, Fault, Token};
use std::alloc::Global;

/// What an expression is a part of.
#[derive(Clone, Copy)]
pub enum Scope {
    /// A defined value: built of literals and defined names alone.
    Define,
    Filter,
    /// The function that has this number.
    Function(usize),
}

impl Scope {
    pub(crate) fn is_function(self, number: usize) -> bool
        ensures { result ≡ is_function self number }
    {
        match self {
            Scope::Function(own) => own == number,
            _ => false,
        }
    }

    pub(crate) fn is_define(self) -> bool
        ensures { result ≡ is_define self }
    {
        match self {
            Scope::Define => true,
            _ => false,
        }
    }
}

/// What a reader of expressions knows of the place where it reads.
#[derive(Clone, Copy)]
pub struct Context<'e> {
    pub alloc: Global,
    pub env: &'e Env,
    pub scope: Scope,
    /// How many tokens are left at the first token of the innermost statement, or of the definition.
    pub statement: usize,
}

/// One level too many begins here.
pub(crate) fn deep(tokens: &[Token]) -> Fault
    ensures { result ≡ Stop Deep (length tokens.now) }
{
    Fault::Stop(Cause::Deep, tokens.len())
}

/// No item or parameter of the wanted sort has the name that stands here.
pub(crate) fn unknown(tokens: &[Token]) -> Fault
    ensures { result ≡ Stop Unknown (length tokens.now) }
{
    Fault::Stop(Cause::Unknown, tokens.len())
}

/// The types don't fit at this place.
pub(crate) fn misfit(place: usize) -> Fault
    ensures { result ≡ Stop Misfit place }
{
    Fault::Stop(Cause::Misfit, place)
}
