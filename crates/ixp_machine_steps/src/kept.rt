//! The numbers of requests that are kept.
ghost use Rattle.std.specs.Prelude.{◌≡◌, ◌<◌, ◌^◌};
ghost use Rattle.ixp_registry.specs.Words.{owner_numbers};
ghost use Rattle.ixp_num_tables.specs.Tables.{order};

use crate::subject::Subject;
use ixp_num_tables::{Row, Table};
use ixp_registry::{EditKind, Owner};
use std::cmp::Ordering;

/// The number of an accepted request, what it was, and how many edits had been accepted right after it.
#[derive(Debug, Drop)]
pub struct KeptNumber {
    pub number: u64,
    pub kind: EditKind,
    pub subject: Subject,
    pub place: u64,
    pub ghost small: { number < 10 ^ 16 },
}

impl Row for KeptNumber {
    ghost use Rattle.std.specs.Prelude.{[], ◌∷◌};
    ghost use Rattle.ixp_machine_steps.specs.Kept.{kept_key};

    type Key = u64;

    ghost key_of = { kept_key };

    ghost named = { λ n. n ∷ [] };

    fn compare(&self, key: &u64) -> Ordering {
        self.number.cmp(key)
    }

    fn order(&self, other: &KeptNumber) -> Ordering {
        self.number.cmp(&other.number)
    }
}

/// What is kept of an owner's requests: at most 1,024 numbers, none below the floor. Each number below it
/// counts as used.
#[derive(Drop)]
pub struct KeptOwner {
    pub owner: Owner,
    pub floor: u64,
    pub numbers: Table<KeptNumber>,
}

/// Staff owners come before members, each by number.
fn owner_order(a: &Owner, b: &Owner) -> Ordering
    ensures { result ≡ order (owner_numbers a.now) (owner_numbers b.now) }
{
    match (a, b) {
        (Owner::Staff(m), Owner::Staff(n)) => m.cmp(n),
        (Owner::Staff(_), Owner::Member(_)) => Ordering::Less,
        (Owner::Member(_), Owner::Staff(_)) => Ordering::Greater,
        (Owner::Member(m), Owner::Member(n)) => m.cmp(n),
    }
}

impl Row for KeptOwner {
    ghost use Rattle.ixp_registry.specs.Words.{owner_numbers};
    ghost use Rattle.ixp_machine_steps.specs.Kept.{kept_owner_key};

    type Key = Owner;

    ghost key_of = { kept_owner_key };

    ghost named = { owner_numbers };

    fn compare(&self, key: &Owner) -> Ordering {
        owner_order(&self.owner, key)
    }

    fn order(&self, other: &KeptOwner) -> Ordering {
        owner_order(&self.owner, &other.owner)
    }
}
