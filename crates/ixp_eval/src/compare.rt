//! Comparisons of values. Values of kinds that no text brings together compare as false.
ghost use Rattle.std.specs.Prelude.{◌≡◌};
ghost use Rattle.ixp_lang.specs.Attributes.{
  compares,
  fits_label,
  has_label,
  is_at_most,
  is_equal,
  is_in,
  is_less,
};
ghost use Rattle.ixp_lang.specs.declared.value.Value.TheVariants.{Set};
ghost use Rattle.ixp_eval.specs.Views.{val_of};

use crate::sets::{
    in_addrs, in_pairs, in_patterns, in_ranges, in_triples, meets_pairs, meets_ranges,
    meets_triples,
};
use crate::val::{Val, set_of};
use ixp_lang::{Label, Op, SetLit};

/// `=`
pub fn is_equal(v: &Val<'_>, w: &Val<'_>) -> bool
    ensures { result ≡ is_equal (val_of v.now) (val_of w.now) }
{
    match (v, w) {
        (Val::Int(m), Val::Int(n)) => *m == *n,
        (Val::Bool(a), Val::Bool(b)) => *a == *b,
        (Val::Ip(a), Val::Ip(b)) => a.family == b.family && a.value == b.value,
        (Val::Net(p), Val::Net(q)) => p.family == q.family && p.value == q.value && p.len == q.len,
        (Val::Pair(a, b), Val::Pair(c, d)) => *a == *c && *b == *d,
        (Val::Triple(a, b, c), Val::Triple(d, e, f)) => *a == *d && *b == *e && *c == *f,
        (Val::Roa(s), Val::Roa(t)) => *s == *t,
        _ => false,
    }
}

/// `<`
pub fn is_less(v: &Val<'_>, w: &Val<'_>) -> bool
    ensures { result ≡ is_less (val_of v.now) (val_of w.now) }
{
    match (v, w) {
        (Val::Int(m), Val::Int(n)) => *m < *n,
        _ => false,
    }
}

/// `<=`
pub fn is_at_most(v: &Val<'_>, w: &Val<'_>) -> bool
    ensures { result ≡ is_at_most (val_of v.now) (val_of w.now) }
{
    match (v, w) {
        (Val::Int(m), Val::Int(n)) => *m <= *n,
        _ => false,
    }
}

/// Whether an item of the list is in the set.
fn meets(list: &SetLit, set: &SetLit) -> bool
    ensures { result ≡ is_in (Set list.now) (Set set.now) }
{
    match (list, set) {
        (SetLit::Ints(ns), SetLit::Ints(rs)) => meets_ranges(ns.as_slice(), rs.as_slice()),
        (SetLit::Pairs(ps), SetLit::Pairs(qs)) => meets_pairs(ps.as_slice(), qs.as_slice()),
        (SetLit::Triples(ts), SetLit::Triples(us)) => meets_triples(ts.as_slice(), us.as_slice()),
        _ => false,
    }
}

/// Whether the value is in the set, or has an item in it.
fn is_member(v: &Val<'_>, set: &SetLit) -> bool
    ensures { result ≡ is_in (val_of v.now) (Set set.now) }
{
    match (v, set) {
        (Val::Int(n), SetLit::Ints(rs)) => in_ranges(*n, rs.as_slice()),
        (Val::Ip(a), SetLit::Ips(bs)) => in_addrs(a, bs.as_slice()),
        (Val::Net(p), SetLit::Prefixes(ts)) => in_patterns(p, ts.as_slice()),
        (Val::Pair(a, b), SetLit::Pairs(ps)) => in_pairs(*a, *b, ps.as_slice()),
        (Val::Triple(a, b, c), SetLit::Triples(ts)) => in_triples(*a, *b, *c, ts.as_slice()),
        (Val::Set(list), _) => meets(list, set),
        (Val::Own(list), _) => meets(list, set),
        _ => false,
    }
}

/// `~`
pub fn is_in(v: &Val<'_>, w: &Val<'_>) -> bool
    ensures { result ≡ is_in (val_of v.now) (val_of w.now) }
{
    match set_of(w) {
        Some(set) => is_member(v, set),
        None => false,
    }
}

/// The comparison of two values.
pub fn compares(op: Op, v: &Val<'_>, w: &Val<'_>) -> bool
    ensures { result ≡ compares op (val_of v.now) (val_of w.now) }
{
    match op {
        Op::Eq => is_equal(v, w),
        Op::Ne => !is_equal(v, w),
        Op::Lt => is_less(v, w),
        Op::Le => is_at_most(v, w),
        Op::Gt => is_less(w, v),
        Op::Ge => is_at_most(w, v),
        Op::In => is_in(v, w),
        Op::NotIn => !is_in(v, w),
    }
}

/// Whether the label has the value.
fn fits_label(v: &Val<'_>, label: Label) -> bool
    ensures { result ≡ fits_label (val_of v.now) label }
{
    match (v, label) {
        (Val::Int(n), Label::Range(low, high)) => low <= *n && *n <= high,
        (Val::Roa(s), Label::State(t)) => *s == t,
        _ => false,
    }
}

/// Whether one of the labels has the value.
pub fn has_label(labels: &[Label], v: &Val<'_>) -> bool
    ensures { result ≡ has_label labels.now (val_of v.now) }
{
    labels.iter().any(|l| fits_label(v, *l))
}
