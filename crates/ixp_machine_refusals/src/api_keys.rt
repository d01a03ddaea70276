//! Why edits of API keys are refused.
ghost use Rattle.std.specs.Prelude.{◌≡◌, find, option_map};
ghost use Rattle.ixp_num_tables.specs.Tables.{same};
ghost use Rattle.ixp_registry.specs.Words.{is_staff_number};
ghost use Rattle.ixp_machine_edits.specs.ApiKeys.{unless_owner_there, add_key_tests, drop_key_tests};
ghost use Rattle.ixp_machine_edits.specs.Tests.{first_refused};

use crate::counts::keys_of;
use crate::refusing::{bad_text, exists, full, out_of_bounds, taken, unknown};
use ixp_num_tables::Table;
use ixp_registry::{
    ApiKey, Kind, Member, Owner, Refusal, Registry, TextField, has_member, is_key_secret,
};

fn unless_owner_there(members: &Table<Member>, owner: &Owner) -> Option<Refusal>
    ensures { result ≡ unless_owner_there members.now owner.now }
{
    match *owner {
        Owner::Staff(_) => None,
        Owner::Member(number) => {
            if has_member(members, number) {
                return None;
            }
            Some(unknown(Kind::Members, number))
        }
    }
}

fn is_staff_number(owner: &Owner) -> bool
    ensures { result ≡ is_staff_number owner.now }
{
    match *owner {
        Owner::Staff(number) => 1 <= number && number <= 16,
        Owner::Member(_) => true,
    }
}

fn key_with(keys: &[ApiKey], secret: &[u8]) -> Option<u32>
    ensures { result ≡ option_map (λ k. k.number) (find (λ k. same secret.now k.secret) keys.now) }
{
    let found = keys.iter().find(|k| secret == k.secret.as_slice());
    match found {
        Some(key) => Some(key.number),
        None => None,
    }
}

pub(crate) fn add_key(
    registry: &Registry,
    number: u32,
    secret: &[u8],
    owner: &Owner,
) -> Option<Refusal>
    ensures { result ≡ first_refused (add_key_tests registry.now number secret.now owner.now) }
{
    if let Some(refusal) = unless_owner_there(&registry.members, owner) {
        return Some(refusal);
    }
    if !is_key_secret(secret) {
        return Some(bad_text(TextField::Secret));
    }
    let keys = registry.keys.as_slice();
    if let Some(key) = key_with(keys, secret) {
        return Some(taken(Kind::Keys, key));
    }
    if let Some(key) = registry.keys.find(&number) {
        return Some(exists(key.number));
    }
    if number == 0 || !is_staff_number(owner) {
        return Some(out_of_bounds());
    }
    full(Kind::Keys, keys_of(keys, owner), 8)
}

pub(crate) fn drop_key(registry: &Registry, key: u32) -> Option<Refusal>
    ensures { result ≡ first_refused (drop_key_tests registry.now key) }
{
    if registry.keys.find(&key).is_none() {
        return Some(unknown(Kind::Keys, key));
    }
    None
}
