//! The demo exchange.
ghost use Rattle.std.specs.Prelude.{◌≡◌, ◌≤◌, ◌∷◌, [], IfOk};
ghost use Rattle.ixp_registry_demo.specs.Demo.{demo, staff_key, demo_switch, lan_prefix, lan, demo_router};
ghost use Rattle.ixp_registry.specs.Valid.{Valid};

use crate::laws::demo_is_valid;
use crate::numbered::one_each;
use crate::rows::address;
use ixp_num::{Asn, Family, Items, Name, Prefix};
use ixp_num_sorted::Sorted;
use ixp_num_tables::{Row, Table};
use ixp_registry::{ApiKey, Owner, PublicLists, Registry, Router, Site, Switch, Vlan};
use std::alloc::{AllocError, Global};

/// The table of this row alone.
fn alone<R: Row + Drop>(alloc: Global, row: R) -> Result<Table<R>, AllocError>
    ensures { IfOk result (λ table. table ≡ row ∷ []) }
{
    let mut table = Table::new(alloc);
    table.put(row)?;
    Ok(table)
}

fn staff_key(alloc: Global) -> Result<ApiKey, AllocError>
    ensures { IfOk result (λ key. key ≡ staff_key) }
{
    Ok(ApiKey {
        number: 1,
        owner: Owner::Staff(1),
        secret: Items::from_slice(alloc, b"staff00000000001")?,
    })
}

fn switch(alloc: Global) -> Result<Switch, AllocError>
    ensures { IfOk result (λ switch. switch ≡ demo_switch) }
{
    Ok(Switch {
        number: 1,
        name: Items::from_slice(alloc, b"sw1")?,
    })
}

/// 10.0.0.0/8.
fn lan_prefix() -> Prefix
    ensures { result ≡ lan_prefix }
{
    Prefix {
        family: Family::V4,
        value: 167_772_160,
        len: 8,
    }
}

fn lan(alloc: Global) -> Result<Vlan, AllocError>
    ensures { IfOk result (λ vlan. vlan ≡ lan) }
{
    Ok(Vlan {
        number: 1,
        tag: 100,
        v4: Some(lan_prefix()),
        v6: None,
        name: Items::from_slice(alloc, b"lan")?,
    })
}

/// 10.255.0.1.
const ROUTER: u32 = 184_483_841;

fn router(alloc: Global) -> Result<Router, AllocError>
    ensures { IfOk result (λ router. router ≡ demo_router) }
{
    Ok(Router {
        handle: Name::new(alloc, b"rs1")?,
        vlan: 1,
        family: Family::V4,
        addr: address(ROUTER),
        asn: Asn(65500),
        id: ROUTER,
        low: 8,
        high: 24,
        rpki: false,
        blackhole: None,
        max_comms: 0,
    })
}

/// The demo exchange with so many members, 4000 at most.
pub fn demo_registry(alloc: Global, n: u32) -> Result<Registry, AllocError>
    requires { n ≤ 4000 }
    ensures demo { IfOk result (λ registry. registry ≡ demo n) }
    ensures valid { IfOk result (λ registry. Valid registry) }
{
    demo_is_valid();
    Ok(Registry {
        site: Site {
            ixp_id: 1,
            ixf_id: 0,
            shortname: Items::from_slice(alloc, b"DEMO")?,
        },
        members: one_each(alloc, n)?,
        contacts: Table::new(alloc),
        keys: alone(alloc, staff_key(alloc)?)?,
        switches: alone(alloc, switch(alloc)?)?,
        ports: one_each(alloc, n)?,
        vlans: alone(alloc, lan(alloc)?)?,
        interfaces: one_each(alloc, n)?,
        routers: alone(alloc, router(alloc)?)?,
        irr: one_each(alloc, n)?,
        origins: one_each(alloc, n)?,
        rules: Table::new(alloc),
        public: PublicLists {
            bogons: Sorted::new(alloc),
            bogon_as: Sorted::new(alloc),
            transit: Sorted::new(alloc),
            roas: Sorted::new(alloc),
        },
    })
}
