//! Whether a list of sets is a chain.
ghost use Rattle.std.specs.Prelude.{◌≡◌, ◌++◌, List, [], ◌∷◌, IsTrue, nat_le, length, take, drop, ◌≤◌};
ghost use Rattle.std.specs.List.{list_all};
ghost use Rattle.ixp_rpsl.specs.Expansion.{
  sets_in,
  member_sets,
  is_among,
  has_name,
  names_set,
  is_named,
  follows,
  starts,
  is_closed,
  is_chain,
};

use crate::objects::{Item, Objects, Reach, SetRow};
use ixp_num::Name;

fn is_reached(c: &[Reach], name: &Name) -> bool
    ensures { result ≡ has_name c.now name.now }
{
    c.iter().any(|r| r.set.as_bytes() == name.as_bytes())
}

fn has_set(items: &[Item], name: &Name) -> bool
    ensures { result ≡ is_among (sets_in items.now) name.now }
{
    let mut left = items;
    'items: while let Some((item, others)) = left.split_first() {
        if let Item::Set(set) = item {
            if set.as_bytes() == name.as_bytes() {
                return true;
            }
        }
        left = others;
    }
    false
}

#[tactic(auto, using(crate::proofs::Chains::more_member))]
fn has_member(rows: &[SetRow], set: &Name, name: &Name) -> bool
    ensures { result ≡ is_among (member_sets rows.now set.now) name.now }
{
    let mut left = rows;
    'rows: while let Some((row, others)) = left.split_first() {
        if row.name.as_bytes() == set.as_bytes() && has_set(row.members.as_slice(), name) {
            return true;
        }
        left = others;
    }
    false
}

fn is_named(rows: &[SetRow], before: &[Reach], by: u64, name: &Name) -> bool
    ensures { result ≡ is_named rows.now before.now by name.now }
{
    if by == 0 {
        return false;
    }
    match before.get((by - 1) as usize) {
        Some(r) => has_member(rows, &r.set, name),
        None => false,
    }
}

fn are_reached(c: &[Reach], items: &[Item]) -> bool
    ensures { result ≡ list_all (has_name c.now) (sets_in items.now) }
{
    let mut left = items;
    'items: while let Some((item, others)) = left.split_first() {
        if let Item::Set(set) = item {
            if !is_reached(c, set) {
                return false;
            }
        }
        left = others;
    }
    true
}

fn is_closed(rows: &[SetRow], c: &[Reach]) -> bool
    ensures { result ≡ is_closed rows.now c.now }
{
    rows.iter().all(|row| !is_reached(c, &row.name) || are_reached(c, row.members.as_slice()))
}

#[tactic(auto, using(crate::proofs::Checking::step_at))]
fn follows(rows: &[SetRow], c: &[Reach]) -> bool
    requires { 1 ≤ length c.now }
    ensures { result ≡ follows rows.now (take 1 c.now) (drop 1 c.now) }
{
    let mut at = 1;
    let mut left = &c[1..];
    'each: while let Some((r, others)) = left.split_first() {
        let before = &c[..at];
        if !is_named(rows, before, r.by, &r.set) || is_reached(before, &r.set) {
            return false;
        }
        left = others;
        at += 1;
    }
    true
}

fn is_chain(rows: &[SetRow], root: &Name, c: &[Reach]) -> bool
    ensures { result ≡ is_chain rows.now root.now c.now }
{
    match c.first() {
        Some(r) => {
            r.set.as_bytes() == root.as_bytes()
                && r.by == 0
                && follows(rows, c)
                && is_closed(rows, c)
        }
        None => false,
    }
}

/// Whether a list is an expansion of a set: the set itself, and then sets each of which is among the members
/// of the one at its `by`, which stands before it; no set twice, and with each set all that are among its
/// members. It takes no memory, and time that grows with the square of the list.
pub fn check_reach(objects: &Objects, root: &Name, c: &[Reach]) -> bool
    ensures { result ≡ is_chain objects.now.sets root.now c.now }
{
    is_chain(objects.sets.as_slice(), root, c)
}
