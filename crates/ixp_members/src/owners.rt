//! Who acts with a secret.
ghost use Rattle.std.specs.Prelude.{◌≡◌};
ghost use Rattle.ixp_members.specs.Owners.{owner_in, owner_of};
ghost use Rattle.ixp_num_tables.specs.Tables.{same};

use ixp_registry::{ApiKey, Owner, Registry};

/// Whether two secrets are the same. Where they are as long as each other all bytes are compared, whichever
/// differ, so that the time doesn't tell how far a guess is right.
#[tactic(auto, using(crate::proofs::Secrets::lengths_differ))]
fn is_same(kept: &[u8], given: &[u8]) -> bool
    ensures { result ≡ same kept.now given.now }
{
    if kept.len() != given.len() {
        return false;
    }
    let mut is_same = true;
    let mut left = kept;
    let mut others = given;
    'bytes: while let Some((byte, rest)) = left.split_first() {
        let Some((other, after)) = others.split_first() else {
            return false;
        };
        is_same &= byte == other;
        left = rest;
        others = after;
    }
    is_same
}

/// The owner of the key among these that has the secret; None where no key has it.
pub fn owner_in(keys: &[ApiKey], secret: &[u8]) -> Option<Owner>
    ensures { result ≡ owner_in keys.now secret.now }
{
    let key = keys.iter().find(|k| is_same(k.secret.as_slice(), secret))?;
    Some(key.owner)
}

/// The owner of the API key that has the secret; None where no key has it.
pub fn rights(registry: &Registry, secret: &[u8]) -> Option<Owner>
    ensures { result ≡ owner_of registry.now secret.now }
{
    owner_in(registry.keys.as_slice(), secret)
}
