//! What the derived comparisons say. The functions do nothing: each is called for what it ensures.
ghost use Rattle.std.specs.Prelude.{◌≡◌};
ghost use Rattle.ixp_num.specs.Families.{same_family};
ghost use Rattle.ixp_num.specs.declared.family.Family.{Family};
ghost use Rattle.ixp_num.specs.declared.prefix.Prefix.{Prefix};
ghost use Rattle.ixp_num.specs.Prefixes.{same_prefix};

use ixp_num::{Family, Prefix};

/// Families are equal where they are the same.
fn equal_families()
    ensures { (x y : Family) → ⟦<Family as PartialEq>⟧.eq x y ≡ same_family x y }
{}

/// Prefixes are equal where they are the same.
pub(crate) fn equal_prefixes()
    ensures { (x y : Prefix) → ⟦<Prefix as PartialEq>⟧.eq x y ≡ same_prefix x y }
{
    equal_families();
}
