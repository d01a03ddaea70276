//! Rule 7: addresses and secrets that two have.
ghost use Rattle.std.specs.Prelude.{◌≡◌, ◌++◌, map, IfOk};
ghost use Rattle.ixp_registry.specs.Rules.{secrets_differ, addresses_differ, rule_7};
ghost use Rattle.ixp_registry.specs.Words.{addr_numbers};
ghost use Rattle.ixp_registry.specs.Sizes.{HasLines};

use ixp_num::Addr;
use ixp_registry::{ApiKey, Counted, Rows, addresses_at, earliest, first_beyond, keys_at};
use std::alloc::{AllocError, Global};

/// The secrets of API keys.
struct Secrets;

impl Counted for Secrets {
    type Row = ApiKey;

    type Key = Vec<u8>;

    ghost numbers_of = { λ k. k.secret };

    fn key_of(alloc: Global, row: &ApiKey) -> Result<Vec<u8>, AllocError> {
        Ok(Vec::from_slice(alloc, row.secret.as_slice())?)
    }
}

fn secrets_differ(alloc: Global, rows: &Rows) -> Result<Option<usize>, AllocError>
    requires { HasLines rows.now }
    ensures { IfOk result (λ place. place ≡ secrets_differ rows.now) }
{
    first_beyond::<Secrets>(alloc, 1, keys_at(rows), rows.keys.as_slice())
}

/// Addresses themselves.
struct Addresses;

impl Counted for Addresses {
    type Row = Addr;

    type Key = Addr;

    ghost numbers_of = { addr_numbers };

    fn key_of(_alloc: Global, row: &Addr) -> Result<Addr, AllocError> {
        Ok(*row)
    }
}

/// The addresses of interfaces and those of routers.
fn all_addresses(alloc: Global, rows: &Rows) -> Result<Vec<Addr>, AllocError>
    ensures { IfOk result
        (λ all. all.items ≡ map (λ a. a.address.addr) rows.now.addresses
        ++ map (λ r. r.addr) rows.now.routers) }
{
    let addresses = rows.addresses.as_slice().iter().map(|a| a.address.addr);
    let routers = rows.routers.as_slice().iter().map(|r| r.addr);
    addresses.chain(routers).collect(alloc)
}

fn addresses_differ(alloc: Global, rows: &Rows) -> Result<Option<usize>, AllocError>
    requires { HasLines rows.now }
    ensures { IfOk result (λ place. place ≡ addresses_differ rows.now) }
{
    let all = all_addresses(alloc, rows)?;
    first_beyond::<Addresses>(alloc, 1, addresses_at(rows), all.as_slice())
}

/// No two interfaces or routers share an address, and no two API keys a secret.
pub fn rule_7(alloc: Global, rows: &Rows) -> Result<Option<usize>, AllocError>
    requires { HasLines rows.now }
    ensures { IfOk result (λ place. place ≡ rule_7 rows.now) }
{
    let secrets = secrets_differ(alloc, rows)?;
    let addresses = addresses_differ(alloc, rows)?;
    Ok(earliest(&[secrets, addresses]))
}
