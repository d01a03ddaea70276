//! The API keys that readers see.
ghost use Rattle.std.specs.Prelude.{◌≡◌, [], ◌∷◌, IfOk};
ghost use Rattle.ixp_num_tables.specs.Tables.{put, without};
ghost use Rattle.ixp_registry.specs.declared.registry.Registry.{Registry};
ghost use Rattle.ixp_registry.specs.Keys.{api_key_key};
ghost use Rattle.ixp_registry_change.specs.Changes.{changed_rows, with_change};
ghost use Rattle.ixp_desk_commits.specs.Keys.{keys_next};

use ixp_num_tables::{Copied, Held, Table};
use ixp_registry::ApiKey;
use ixp_registry_change::{RegistryChange, TableChange};
use std::alloc::{AllocError, Global};

fn with_key(
    alloc: Global,
    keys: &Table<ApiKey>,
    row: &ApiKey,
) -> Result<Held<Table<ApiKey>>, AllocError>
    ensures { IfOk result (λ k. k ≡ put api_key_key row.now keys.now) }
{
    let mut next = keys.copied(alloc)?;
    next.put(row.copied(alloc)?)?;
    Held::new(alloc, next)
}

fn without_key(
    alloc: Global,
    keys: &Table<ApiKey>,
    key: u32,
) -> Result<Held<Table<ApiKey>>, AllocError>
    ensures { IfOk result (λ k. k ≡ without api_key_key (key ∷ []) keys.now) }
{
    let mut next = keys.copied(alloc)?;
    next.take_out(&key);
    Held::new(alloc, next)
}

fn changed_keys(
    alloc: Global,
    keys: &Held<Table<ApiKey>>,
    change: &TableChange<ApiKey, u32>,
) -> Result<Held<Table<ApiKey>>, AllocError>
    ensures { IfOk result (λ k. k ≡ changed_rows api_key_key (λ k. k ∷ []) change.now keys.now) }
{
    match change {
        TableChange::Keep => keys.shared(),
        TableChange::Put(row) => with_key(alloc, keys.get(), row),
        TableChange::Take(key) => without_key(alloc, keys.get(), *key),
    }
}

fn next_keys(
    alloc: Global,
    keys: &Held<Table<ApiKey>>,
    change: &RegistryChange,
) -> Result<Held<Table<ApiKey>>, AllocError>
    ensures { IfOk result (λ k. k ≡ keys_next change.now keys.now) }
{
    match change {
        RegistryChange::Keys(change) => changed_keys(alloc, keys, change),
        _ => keys.shared(),
    }
}

/// The API keys after a change: those that there are, with one more owner, but for a change of keys, which
/// copies them.
#[tactic(auto, using(crate::proofs::KeysAfter::keys_are))]
pub fn keys_after(
    alloc: Global,
    keys: &Held<Table<ApiKey>>,
    change: &RegistryChange,
) -> Result<Held<Table<ApiKey>>, AllocError>
    ensures { IfOk result (λ k. (r : Registry) → keys.now ≡ r.keys → k ≡ (with_change r change.now).keys) }
{
    next_keys(alloc, keys, change)
}
