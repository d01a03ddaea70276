//! Laws of merged sets. The functions do nothing: each is called for what it ensures.
//!
//! They hold of all rows, sorted or not, of one family or of both, and of every bound.
ghost use Rattle.std.specs.Prelude.{◌≡◌, ◌≢◌, ◌<◌, ◌≤◌, ◌↔◌, nat_le, ℕ, true, false, List, []};
ghost use Rattle.std.specs.List.{Contains, list_any};
ghost use Rattle.std.specs.List.Sorted.{IsStrictlySortedBy};
ghost use Rattle.ixp_num.specs.Prefixes.{covers, IsParent, matches, is_in_set, same_prefix};
ghost use Rattle.ixp_num.specs.declared.pattern.Pattern.{Pattern};
ghost use Rattle.ixp_num.specs.declared.prefix.Prefix.{Prefix};
ghost use Rattle.ixp_pfxset.specs.Blocks.{is_allowed, IsBlock};
ghost use Rattle.ixp_pfxset.specs.BlockList.{pattern_order, blocks};
ghost use Rattle.ixp_pfxset.specs.declared.mode.Mode.{Mode};
ghost use Rattle.ixp_pfxset.specs.declared.mode.Mode.TheVariants.{Exact, More};

/// The list of blocks has the patterns that are blocks, each once, in order; no other list does.
pub fn blocks_are()
    ensures members { (rows : List Prefix) (mode : Mode) (high : ℕ) (t : Pattern)
        → Contains (blocks rows mode high) t ↔ IsBlock rows mode high t }
    ensures ascend { (rows : List Prefix) (mode : Mode) (high : ℕ)
        → IsStrictlySortedBy pattern_order (blocks rows mode high) }
    ensures alone { (rows : List Prefix) (mode : Mode) (high : ℕ) (ts : List Pattern)
        → IsStrictlySortedBy pattern_order ts → ((t : Pattern) → Contains ts t ↔ IsBlock rows mode high t)
        → ts ≡ blocks rows mode high }
{}

/// A prefix matches the merged set exactly where the rows allow it. So none that is longer than the bound
/// matches, and none of a family of which there is no row.
pub fn matches_where_allowed()
    ensures allowed { (rows : List Prefix) (mode : Mode) (high : ℕ) (q : Prefix)
        → is_in_set (blocks rows mode high) q ≡ is_allowed rows mode high q }
    ensures long { (rows : List Prefix) (mode : Mode) (high : ℕ) (q : Prefix) → high < q.len
        → is_in_set (blocks rows mode high) q ≡ false }
    ensures family { (rows : List Prefix) (mode : Mode) (high : ℕ) (q : Prefix)
        → ((r : Prefix) → Contains rows r → r.family ≢ q.family)
        → is_in_set (blocks rows mode high) q ≡ false }
{}

/// Where a prefix isn't longer than the bound, the rows needn't be tested for it: those that are longer
/// neither are nor cover it.
pub fn allowed_by_rows()
    ensures exact { (rows : List Prefix) (high : ℕ) (q : Prefix) → q.len ≤ high
        → is_allowed rows Exact high q ≡ list_any (λ p. same_prefix p q) rows }
    ensures more { (rows : List Prefix) (high : ℕ) (q : Prefix) → q.len ≤ high
        → is_allowed rows More high q ≡ list_any (λ p. covers p q) rows }
    ensures long { (rows : List Prefix) (mode : Mode) (high : ℕ) (q : Prefix) → high < q.len
        → is_allowed rows mode high q ≡ false }
{}

/// No pattern of the set could be left out: each matches a prefix that a given other one doesn't, and each
/// matches some prefix.
pub fn no_pattern_within_another()
    ensures another { (rows : List Prefix) (mode : Mode) (high : ℕ) (s t : Pattern) → IsBlock rows mode high s
        → IsBlock rows mode high t → s ≢ t → (q : Prefix) × (matches s q ≡ true) × (matches t q ≡ false) }
    ensures some { (rows : List Prefix) (mode : Mode) (high : ℕ) (t : Pattern) → IsBlock rows mode high t
        → (q : Prefix) × (matches t q ≡ true) }
{}

/// No two patterns of the set could be one: there are no two whose prefixes are the halves of one prefix and
/// whose lower bounds are equal, and so none with equal bounds.
pub fn no_siblings_with_equal_bounds()
    ensures { (rows : List Prefix) (mode : Mode) (high : ℕ) (s t : Pattern) (p : Prefix)
        → IsBlock rows mode high s → IsBlock rows mode high t → IsParent s.prefix p → IsParent t.prefix p
        → s.low ≡ t.low → s ≡ t }
{}

/// The bounds of a pattern of the set: not below the length of its prefix, in order, and not above the bound.
/// A row of the lower bound's length lies in the prefix.
pub fn bounds_of_blocks()
    ensures length { (rows : List Prefix) (mode : Mode) (high : ℕ) (t : Pattern) → IsBlock rows mode high t
        → t.prefix.len ≤ t.low }
    ensures order { (rows : List Prefix) (mode : Mode) (high : ℕ) (t : Pattern) → IsBlock rows mode high t
        → t.low ≤ t.high }
    ensures most { (rows : List Prefix) (mode : Mode) (high : ℕ) (t : Pattern) → IsBlock rows mode high t
        → t.high ≤ high }
    ensures row { (rows : List Prefix) (mode : Mode) (high : ℕ) (t : Pattern) → IsBlock rows mode high t
        → (r : Prefix) × Contains rows r × (covers t.prefix r ≡ true) × (r.len ≡ t.low) }
{}

/// The merged set is empty exactly where each row is longer than the bound.
pub fn empty_without_short_rows()
    ensures { (rows : List Prefix) (mode : Mode) (high : ℕ) → (blocks rows mode high ≡ [])
        ↔ (list_any (λ r. nat_le r.len high) rows ≡ false) }
{}

/// The merged set follows from what is allowed alone, and so from which rows there are: neither their order
/// nor how often one is there makes a difference.
pub fn blocks_follow_from_allowed()
    ensures allowed { (rows others : List Prefix) (mode : Mode) (high : ℕ)
        → ((q : Prefix) → is_allowed rows mode high q ≡ is_allowed others mode high q)
        → blocks rows mode high ≡ blocks others mode high }
    ensures members { (rows others : List Prefix) (mode : Mode) (high : ℕ)
        → ((r : Prefix) → Contains rows r ↔ Contains others r)
        → blocks rows mode high ≡ blocks others mode high }
{}
