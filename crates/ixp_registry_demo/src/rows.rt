//! What each member of the demo exchange has.
ghost use Rattle.std.specs.Prelude.{◌≡◌, ◌≤◌, ◌+◌, ◌<◌, ◌*◌, ◌∷◌, [], refl, IfOk};
ghost use Rattle.ixp_registry_demo.specs.Demo.{
  address,
  name,
  host,
  net_of,
  demo_member,
  demo_port,
  demo_interface,
  demo_prefixes,
  demo_origins,
};

use crate::numbered::Numbered;
use ixp_num::{Addr, Asn, Family, Items, Prefix};
use ixp_num_tables::{put, put_number};
use ixp_registry::{IfAddr, Interface, IrrList, Member, OriginList, Port, Status};
use std::alloc::{AllocError, Global};

/// A letter and a number.
fn name(alloc: Global, letter: u8, number: u32) -> Result<Items<u8>, AllocError>
    ensures { IfOk result (λ text. text ≡ name letter number) }
{
    let mut text = Vec::new(alloc);
    text.push(letter)?;
    put_number(&mut text, u64::from(number))?;
    Ok(Items::from_vec(text))
}

/// The AS number of the member.
fn asn(number: u32) -> Asn
    requires { number ≤ 4000 }
    ensures { result.0 ≡ 100000 + number }
{
    Asn(100_000 + number)
}

impl Numbered for Member {
    ghost row_of = { demo_member };

    ghost behind = { [] };

    fn numbered(alloc: Global, number: u32) -> Result<Member, AllocError> {
        Ok(Member {
            number,
            asn: asn(number),
            status: Status::Connected,
            as_macro: Items::new(alloc),
            name: name(alloc, b'm', number)?,
        })
    }

    ghost keyed = { λ k. refl };
}

impl Numbered for Port {
    ghost row_of = { demo_port };

    ghost behind = { [] };

    fn numbered(alloc: Global, number: u32) -> Result<Port, AllocError> {
        Ok(Port {
            number,
            switch: 1,
            speed: 10_000,
            member: number,
            name: name(alloc, b'p', number)?,
        })
    }

    ghost keyed = { λ k. refl };
}

/// 10.64.0.0, which stands before the first member's address.
const HOSTS: u32 = 171_966_464;

/// The IPv4 address with this number.
pub(crate) fn address(value: u32) -> Addr
    ensures { result ≡ address value }
{
    Addr {
        family: Family::V4,
        value: u128::from(value),
    }
}

/// The address of the member's interface.
fn host(alloc: Global, number: u32) -> IfAddr
    requires { number ≤ 4000 }
    ensures { result ≡ host number }
{
    IfAddr {
        addr: address(HOSTS + number),
        max_prefix: 0,
        rs: true,
        irr: true,
        more: false,
        secret: Items::new(alloc),
    }
}

impl Numbered for Interface {
    ghost row_of = { demo_interface };

    ghost behind = { [] };

    fn numbered(alloc: Global, number: u32) -> Result<Interface, AllocError> {
        Ok(Interface {
            number,
            member: number,
            port: number,
            vlan: 1,
            v4: Some(host(alloc, number)),
            v6: None,
        })
    }

    ghost keyed = { λ k. refl };
}

/// The first 24 bits of 20.0.0.0.
const NETS: u32 = 1_310_720;

/// The member's prefix of this place, from 0 to 3.
fn net_of(number: u32, place: u32) -> Prefix
    requires number { number ≤ 4000 }
    requires place { place < 4 }
    ensures { result ≡ net_of number place }
{
    Prefix {
        family: Family::V4,
        value: u128::from(NETS + 4 * number + place) * 256,
        len: 24,
    }
}

impl Numbered for IrrList {
    ghost row_of = { demo_prefixes };

    ghost behind = { 4 ∷ [] };

    fn numbered(alloc: Global, number: u32) -> Result<IrrList, AllocError> {
        let prefixes = [
            net_of(number, 0),
            net_of(number, 1),
            net_of(number, 2),
            net_of(number, 3),
        ];
        Ok(IrrList {
            member: number,
            family: Family::V4,
            prefixes: Items::from_slice(alloc, &prefixes)?,
        })
    }

    ghost keyed = { λ k. refl };
}

impl Numbered for OriginList {
    ghost row_of = { demo_origins };

    ghost behind = { 4 ∷ [] };

    fn numbered(alloc: Global, number: u32) -> Result<OriginList, AllocError> {
        Ok(OriginList {
            member: number,
            family: Family::V4,
            asns: Items::from_slice(alloc, &[asn(number)])?,
        })
    }

    ghost keyed = { λ k. refl };
}
