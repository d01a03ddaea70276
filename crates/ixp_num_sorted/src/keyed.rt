//! What stands in sorted lists.
ghost use Rattle.std.specs.Prelude.{◌≡◌, ℕ, List};
ghost use Rattle.std.specs.declared.cmp.Ordering.TheVariants.{Equal};
ghost use Rattle.ixp_num_tables.specs.Tables.{order};
ghost use Rattle.ixp_num_sorted.specs.Keys.{prefix_key, pattern_key, asn_key, range_key, roa_key};
ghost use Rattle.ixp_num_sorted.specs.Told.{
  prefix_ordered,
  pattern_ordered,
  asn_ordered,
  range_ordered,
  roa_ordered,
  prefix_one,
  pattern_one,
  asn_one,
  range_one,
  roa_one,
};

use ixp_num::{Asn, Pattern, Prefix, Roa};

/// An item of sorted lists. Its key is a list of numbers; items are in the order of their keys, and no two
/// have one key.
pub trait Keyed: Ord + Copy + Drop {
    ghost key: { Self → List ℕ };

    ghost ordered: { (a b : Self) → Self.Ord.cmp a b ≡ order (key a) (key b) };

    ghost one: { (a b : Self) → order (key a) (key b) ≡ Equal → a ≡ b };
}

impl Keyed for Prefix {
    ghost key = { prefix_key };

    ghost ordered = { prefix_ordered };

    ghost one = { prefix_one };
}

impl Keyed for Pattern {
    ghost key = { pattern_key };

    ghost ordered = { pattern_ordered };

    ghost one = { pattern_one };
}

impl Keyed for Asn {
    ghost key = { asn_key };

    ghost ordered = { asn_ordered };

    ghost one = { asn_one };
}

/// A range of AS numbers, first and last.
impl Keyed for (Asn, Asn) {
    ghost key = { range_key };

    ghost ordered = { range_ordered };

    ghost one = { range_one };
}

impl Keyed for Roa {
    ghost key = { roa_key };

    ghost ordered = { roa_ordered };

    ghost one = { roa_one };
}
