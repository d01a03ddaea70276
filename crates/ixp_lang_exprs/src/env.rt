//! The names that are declared.
ghost use Rattle.std.specs.Prelude.{◌≡◌, ◌<◌, length, IfOk, option_map, Some, None, List, ℕ};
ghost use Rattle.std.specs.Option.{is_none};
ghost use Rattle.ixp_lang.specs.Views.{expr_view};
ghost use Rattle.ixp_lang_tokens.specs.Pieces.{a_name};
ghost use Rattle.ixp_lang_tokens.specs.Reading.{read, kinds, Gives};
ghost use Rattle.ixp_lang_exprs.specs.Answers.{Makes};
ghost use Rattle.ixp_lang_exprs.specs.Declarations.{
  nothing_declared,
  standing,
  gives_way,
  is_free_in,
  free_name,
};
ghost use Rattle.ixp_lang_exprs.specs.Names.{
  names_of,
  number_of,
  table_of,
  function_of,
  value_of,
  defined_number,
};

use crate::{Scope, ValueType};
use ixp_lang::{Expr, Value};
use ixp_lang_tokens::{Cause, Fault, Token, name_at};
use ixp_num::{Items, Name};
use std::alloc::Global;
use std::collections::BTreeMap;

/// A function's parameters, and what it returns; None for a procedure.
#[derive(Drop)]
pub struct Signature {
    pub params: Items<ValueType>,
    pub returns: Option<ValueType>,
}

/// A table, and who has it.
#[derive(Clone, Copy)]
pub struct Table {
    /// Whether it holds ROAs.
    pub is_roa: bool,
    /// Whether a session has it.
    pub in_session: bool,
    /// Whether it is the peer of a pipe.
    pub in_pipe: bool,
}

/// What a name stands for.
#[derive(Drop)]
pub enum Declared {
    Table(Table),
    /// A defined value, and its number if it is one.
    Define(ValueType, Option<u32>),
    Function(Signature),
    Filter,
    Protocol,
    /// A function whose end isn't reached: nothing may use it yet.
    Begun,
    /// A parameter of the function that has this number, and its type.
    Parameter(usize, ValueType),
}

/// The names that are declared so far, in items and as parameters.
#[derive(Drop)]
pub struct Env {
    names: BTreeMap<Vec<u8>, Declared>,
}

/// The number of the defined value.
fn number_in(declared: &Declared) -> Option<u32>
    ensures { result ≡ number_of (Some declared.now) }
{
    match declared {
        Declared::Define(_, number) => *number,
        _ => None,
    }
}

/// The signature of the function.
fn signature_in(declared: &Declared) -> Option<&Signature>
    ensures { option_map (λ s. s.now) result ≡ function_of (Some declared.now) }
{
    match declared {
        Declared::Function(signature) => Some(signature),
        _ => None,
    }
}

/// The type of the defined value, or of the parameter of the function that is read.
fn value_in(declared: &Declared, scope: Scope) -> Option<ValueType>
    ensures { result ≡ value_of scope (Some declared.now) }
{
    match declared {
        Declared::Define(ty, _) => Some(*ty),
        Declared::Parameter(function, ty) if scope.is_function(*function) => Some(*ty),
        _ => None,
    }
}

/// Whether a parameter of this function may take the place: there is a parameter of another one.
fn gives_way(declared: &Declared, function: usize) -> bool
    ensures { result ≡ gives_way declared.now function }
{
    match declared {
        Declared::Parameter(other, _) => *other != function,
        _ => false,
    }
}

/// The table, and who has it.
fn table_in(declared: &Declared) -> Option<Table>
    ensures { result ≡ table_of (Some declared.now) }
{
    match declared {
        Declared::Table(table) => Some(*table),
        _ => None,
    }
}

impl Env {
    /// No name is declared. It does not allocate.
    pub fn new(alloc: Global) -> Env
        ensures { names_of result ≡ nothing_declared }
    {
        Env {
            names: BTreeMap::new(alloc),
        }
    }

    /// What the name stands for, be it an item or a parameter.
    pub fn get(&self, name: &Name) -> Option<&Declared>
        ensures { option_map (λ d. d.now) result ≡ names_of self.now name.now }
    {
        self.names.get(name.as_bytes())
    }

    /// The number that is defined under this name.
    pub fn number(&self, name: &Name) -> Option<u32>
        ensures { result ≡ number_of (names_of self.now name.now) }
    {
        number_in(self.get(name)?)
    }

    /// The function of this name.
    pub fn function(&self, name: &Name) -> Option<&Signature>
        ensures { option_map (λ s. s.now) result ≡ function_of (names_of self.now name.now) }
    {
        signature_in(self.get(name)?)
    }

    /// The type of the defined value or the parameter of this name.
    pub fn value(&self, name: &Name, scope: Scope) -> Option<ValueType>
        ensures { result ≡ value_of scope (names_of self.now name.now) }
    {
        value_in(self.get(name)?, scope)
    }

    /// The table of this name, and who has it.
    pub fn table(&self, name: &Name) -> Option<Table>
        ensures { result ≡ table_of (names_of self.now name.now) }
    {
        table_in(self.get(name)?)
    }

    /// From now on the name stands for this.
    pub fn declare(&mut self, alloc: Global, name: &Name, what: Declared) -> Result<(), Fault>
        ensures { Makes (λ x. names_of self.new) result (standing (names_of self.old) name.now what) }
    {
        let key = Vec::from_slice(alloc, name.as_bytes())?;
        let _ = self.names.insert(key, what)?;
        Ok(())
    }

    /// Whether nothing has the name.
    pub fn is_free(&self, name: &Name) -> bool
        ensures { result ≡ is_none (names_of self.now name.now) }
    {
        self.get(name).is_none()
    }

    /// Whether a parameter of this function may have the name: at most parameters of other functions have it.
    pub fn is_free_in(&self, name: &Name, function: usize) -> bool
        ensures { result ≡ is_free_in (names_of self.now name.now) function }
    {
        match self.get(name) {
            Some(declared) => gives_way(declared, function),
            None => true,
        }
    }

    /// The name of an item, which must be next and free.
    pub fn free_name_at<'t>(
        &self,
        alloc: Global,
        tokens: &'t [Token],
    ) -> Result<(Name, &'t [Token]), Fault>
        ensures reads { Gives (λ x. (x.0, kinds x.1.now)) result
            (read (free_name (names_of self.now)) (kinds tokens.now)) }
        ensures shorter { IfOk result (λ x. length x.1.now < length tokens.now) }
    {
        let (name, rest) = name_at(tokens)?;
        if !self.is_free(name) {
            return Err(Fault::Stop(Cause::Twice, tokens.len()));
        }
        let name = name.copied(alloc)?;
        Ok((name, rest))
    }
}

/// The number that a definition's value is, if it is one.
pub fn defined_number(env: &Env, value: &Expr) -> Option<u32>
    ensures { result ≡ defined_number (names_of env.now) (expr_view value.now) }
{
    match value {
        Expr::Lit(Value::Int(number)) => Some(*number),
        Expr::Named(name) => env.number(name),
        _ => None,
    }
}

/// The name that must be next, as one of one's own.
pub fn own_name_at(alloc: Global, tokens: &[Token]) -> Result<(Name, &[Token]), Fault>
    ensures reads { Gives (λ x. (x.0, kinds x.1.now)) result (read a_name (kinds tokens.now)) }
    ensures shorter { IfOk result (λ x. length x.1.now < length tokens.now) }
{
    let (name, rest) = name_at(tokens)?;
    let name = name.copied(alloc)?;
    Ok((name, rest))
}
