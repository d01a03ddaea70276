//! What may stand several times.
ghost use Rattle.std.specs.Prelude.{◌≡◌, ℕ, [], ◌∷◌, List};
ghost use Rattle.std.specs.Ordering.{is_eq};
ghost use Rattle.ixp_num.specs.AddressForms.{version_of};
ghost use Rattle.ixp_num_tables.specs.Tables.{same};
ghost use Rattle.ixp_registry.specs.Words.{addr_numbers, owner_numbers};
ghost use Rattle.ixp_registry.specs.Told.{number_told, pair_told, owner_told, addr_told, text_told};

use crate::Owner;
use ixp_num::{Addr, Family};

/// A key, which contracts see as a list of numbers: two keys are equal where they have the same ones.
pub trait Key: Ord + Drop {
    ghost numbers: { Self → List ℕ };

    ghost told: { (a b : Self) → is_eq (Self.Ord.cmp a b) ≡ same (numbers a) (numbers b) };
}

impl Key for u32 {
    ghost numbers = { λ n. n ∷ [] };

    ghost told = { number_told };
}

impl Key for (u32, Family) {
    ghost numbers = { λ k. k.0 ∷ version_of k.1 ∷ [] };

    ghost told = { pair_told };
}

impl Key for Owner {
    ghost numbers = { owner_numbers };

    ghost told = { owner_told };
}

impl Key for Addr {
    ghost numbers = { addr_numbers };

    ghost told = { addr_told };
}

impl Key for Vec<u8> {
    ghost numbers = { λ t. t.items };

    ghost told = { λ a b. text_told a.items b.items };
}
