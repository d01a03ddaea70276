//! Members of sets.
ghost use Rattle.std.specs.Prelude.{◌≡◌, ◌&&◌, ◌==◌};
ghost use Rattle.std.specs.List.{list_any};
ghost use Rattle.ixp_num.specs.Prefixes.{is_in_set, same_addr};
ghost use Rattle.ixp_lang.specs.Attributes.{fits_part, in_pairs, in_ranges, in_triples, pair_in, triple_in};

use ixp_num::{Addr, Pattern, Prefix, same_addr};

/// Whether the number lies in a range.
pub fn in_ranges(n: u32, ranges: &[(u32, u32)]) -> bool
    ensures { result ≡ in_ranges n ranges.now }
{
    ranges.iter().any(|r| r.0 <= n && n <= r.1)
}

/// Whether the address is one of these.
pub fn in_addrs(a: &Addr, addrs: &[Addr]) -> bool
    ensures { result ≡ list_any (λ b. same_addr a.now b) addrs.now }
{
    addrs.iter().any(|b| same_addr(a, b))
}

/// Whether a pattern matches the prefix.
pub fn in_patterns(net: &Prefix, patterns: &[Pattern]) -> bool
    ensures { result ≡ is_in_set patterns.now net.now }
{
    patterns.iter().any(|t| t.matches(net))
}

/// Whether a part fits: None is any number.
pub fn fits_part(n: u32, part: Option<u32>) -> bool
    ensures { result ≡ fits_part n part }
{
    match part {
        None => true,
        Some(m) => n == m,
    }
}

/// Whether the pair is in a set of pairs.
pub fn in_pairs(a: u32, b: u32, set: &[(u32, Option<u32>)]) -> bool
    ensures { result ≡ in_pairs (a, b) set.now }
{
    set.iter().any(|q| a == q.0 && fits_part(b, q.1))
}

/// Whether the triple is in a set of triples.
pub fn in_triples(a: u32, b: u32, c: u32, set: &[(u32, u32, Option<u32>)]) -> bool
    ensures { result ≡ in_triples (a, b, c) set.now }
{
    set.iter()
        .any(|u| a == u.0 && b == u.1 && fits_part(c, u.2))
}

/// Whether an item of a list of communities is in a set of pairs. One with `*` is in none.
pub fn pair_in(pair: (u32, Option<u32>), set: &[(u32, Option<u32>)]) -> bool
    ensures { result ≡ pair_in pair set.now }
{
    match pair.1 {
        Some(b) => in_pairs(pair.0, b, set),
        None => false,
    }
}

/// The same for large communities.
pub fn triple_in(triple: (u32, u32, Option<u32>), set: &[(u32, u32, Option<u32>)]) -> bool
    ensures { result ≡ triple_in triple set.now }
{
    match triple.2 {
        Some(c) => in_triples(triple.0, triple.1, c, set),
        None => false,
    }
}

/// Whether the first number of some range of a list lies in a range.
pub fn meets_ranges(list: &[(u32, u32)], ranges: &[(u32, u32)]) -> bool
    ensures { result ≡ list_any (λ n. in_ranges n.0 ranges.now) list.now }
{
    list.iter().any(|n| in_ranges(n.0, ranges))
}

/// Whether some pair of a list is in a set.
pub fn meets_pairs(list: &[(u32, Option<u32>)], set: &[(u32, Option<u32>)]) -> bool
    ensures { result ≡ list_any (λ p. pair_in p set.now) list.now }
{
    list.iter().any(|p| pair_in(*p, set))
}

/// Whether some triple of a list is in a set.
pub fn meets_triples(list: &[(u32, u32, Option<u32>)], set: &[(u32, u32, Option<u32>)]) -> bool
    ensures { result ≡ list_any (λ t. triple_in t set.now) list.now }
{
    list.iter().any(|t| triple_in(*t, set))
}
