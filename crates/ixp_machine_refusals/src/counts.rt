//! How many rows a member or an owner has.
ghost use Rattle.std.specs.Prelude.{◌≡◌, ◌≤◌, length};
ghost use Rattle.ixp_num_tables.specs.Tables.{same};
ghost use Rattle.ixp_registry.specs.Words.{owner_numbers};
ghost use Rattle.ixp_machine_edits.specs.ApiKeys.{keys_of};
ghost use Rattle.ixp_machine_edits.specs.Interfaces.{interfaces_of};
ghost use Rattle.ixp_machine_edits.specs.Members.{contacts_of};

use ixp_registry::{ApiKey, Contact, Interface, Owner};

/// The member's contacts.
pub(crate) fn contacts_of(contacts: &[Contact], member: u32) -> usize
    ensures count { result ≡ contacts_of member contacts.now }
    ensures within { result ≤ length contacts.now }
{
    let mut have = 0;
    let mut left = contacts;
    'each: while let Some((contact, others)) = left.split_first() {
        if contact.member == member {
            have += 1;
        }
        left = others;
    }
    have
}

/// The member's interfaces.
pub(crate) fn interfaces_of(interfaces: &[Interface], member: u32) -> usize
    ensures count { result ≡ interfaces_of member interfaces.now }
    ensures within { result ≤ length interfaces.now }
{
    let mut have = 0;
    let mut left = interfaces;
    'each: while let Some((interface, others)) = left.split_first() {
        if interface.member == member {
            have += 1;
        }
        left = others;
    }
    have
}

fn is_owner(owner: &Owner, other: &Owner) -> bool
    ensures { result ≡ same (owner_numbers owner.now) (owner_numbers other.now) }
{
    match (owner, other) {
        (Owner::Staff(m), Owner::Staff(n)) => m == n,
        (Owner::Member(m), Owner::Member(n)) => m == n,
        (Owner::Staff(_), Owner::Member(_)) | (Owner::Member(_), Owner::Staff(_)) => false,
    }
}

/// The owner's API keys.
pub(crate) fn keys_of(keys: &[ApiKey], owner: &Owner) -> usize
    ensures count { result ≡ keys_of owner.now keys.now }
    ensures within { result ≤ length keys.now }
{
    let mut have = 0;
    let mut left = keys;
    'each: while let Some((key, others)) = left.split_first() {
        if is_owner(owner, &key.owner) {
            have += 1;
        }
        left = others;
    }
    have
}
