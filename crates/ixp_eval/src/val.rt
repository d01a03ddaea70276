//! Values at work.
ghost use Rattle.std.specs.Prelude.{◌≡◌, IfOk};
ghost use Rattle.std.specs.Option.{option_copied};
ghost use Rattle.ixp_lang.specs.Attributes.{number, truth};
ghost use Rattle.ixp_eval.specs.Views.{set_in, val_of};

use ixp_lang::{SetLit, Value};
use ixp_num::{Addr, Prefix, Validity};
use std::alloc::{AllocError, Global};

/// A value at work. A set of the text is borrowed, since it may be large; one made of the route is owned.
#[derive(Drop)]
pub enum Val<'a> {
    Int(u32),
    Bool(bool),
    Ip(Addr),
    Net(Prefix),
    Pair(u32, u32),
    Triple(u32, u32, u32),
    Roa(Validity),
    Set(&'a SetLit),
    Own(SetLit),
}

/// A value of the text, at work.
pub fn held<'a>(value: &'a Value) -> Val<'a>
    ensures { val_of result ≡ value.now }
{
    match value {
        Value::Int(n) => Val::Int(*n),
        Value::Bool(b) => Val::Bool(*b),
        Value::Ip(a) => Val::Ip(*a),
        Value::Net(p) => Val::Net(*p),
        Value::Pair(a, b) => Val::Pair(*a, *b),
        Value::Triple(a, b, c) => Val::Triple(*a, *b, *c),
        Value::Roa(s) => Val::Roa(*s),
        Value::Set(s) => Val::Set(s),
    }
}

/// An equal set.
pub fn copied_set(alloc: Global, set: &SetLit) -> Result<SetLit, AllocError>
    ensures { IfOk result (λ s. s ≡ set.now) }
{
    match set {
        SetLit::Ints(ranges) => Ok(SetLit::Ints(ranges.copied(alloc)?)),
        SetLit::Ips(addrs) => Ok(SetLit::Ips(addrs.copied(alloc)?)),
        SetLit::Prefixes(patterns) => Ok(SetLit::Prefixes(patterns.copied(alloc)?)),
        SetLit::Pairs(pairs) => Ok(SetLit::Pairs(pairs.copied(alloc)?)),
        SetLit::Triples(triples) => Ok(SetLit::Triples(triples.copied(alloc)?)),
    }
}

/// An equal value. A set of the text stays borrowed.
pub fn copied<'a>(alloc: Global, value: &Val<'a>) -> Result<Val<'a>, AllocError>
    ensures { IfOk result (λ v. val_of v ≡ val_of value.now) }
{
    match value {
        Val::Int(n) => Ok(Val::Int(*n)),
        Val::Bool(b) => Ok(Val::Bool(*b)),
        Val::Ip(a) => Ok(Val::Ip(*a)),
        Val::Net(p) => Ok(Val::Net(*p)),
        Val::Pair(a, b) => Ok(Val::Pair(*a, *b)),
        Val::Triple(a, b, c) => Ok(Val::Triple(*a, *b, *c)),
        Val::Roa(s) => Ok(Val::Roa(*s)),
        Val::Set(s) => Ok(Val::Set(*s)),
        Val::Own(s) => Ok(Val::Own(copied_set(alloc, s)?)),
    }
}

/// The value, with its set copied where it is borrowed.
pub fn into_value(alloc: Global, value: Val<'_>) -> Result<Value, AllocError>
    ensures { IfOk result (λ v. v ≡ val_of value.entry) }
{
    match value {
        Val::Int(n) => Ok(Value::Int(n)),
        Val::Bool(b) => Ok(Value::Bool(b)),
        Val::Ip(a) => Ok(Value::Ip(a)),
        Val::Net(p) => Ok(Value::Net(p)),
        Val::Pair(a, b) => Ok(Value::Pair(a, b)),
        Val::Triple(a, b, c) => Ok(Value::Triple(a, b, c)),
        Val::Roa(s) => Ok(Value::Roa(s)),
        Val::Set(s) => Ok(Value::Set(copied_set(alloc, s)?)),
        Val::Own(s) => Ok(Value::Set(s)),
    }
}

/// The set that a value is.
pub fn set_of<'b>(value: &'b Val<'_>) -> Option<&'b SetLit>
    ensures { option_copied result ≡ set_in (val_of value.now) }
{
    match value {
        Val::Set(s) => Some(*s),
        Val::Own(s) => Some(s),
        _ => None,
    }
}

/// The truth of a test's value. A value of another kind counts as false.
pub fn truth(value: &Val<'_>) -> bool
    ensures { result ≡ truth (val_of value.now) }
{
    match value {
        Val::Bool(b) => *b,
        _ => false,
    }
}

/// The number of a part of a pair or triple. A value of another kind counts as 0.
pub fn number(value: &Val<'_>) -> u32
    ensures { result ≡ number (val_of value.now) }
{
    match value {
        Val::Int(n) => *n,
        _ => 0,
    }
}
