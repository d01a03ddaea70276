//! Switches, ports, VLANs, and the interfaces of members with their addresses.
ghost use Rattle.std.specs.Prelude.{[], ◌∷◌};
ghost use Rattle.ixp_registry.specs.Keys.{
  switch_key,
  port_key,
  vlan_key,
  interface_key,
  interface_row_key,
  address_key,
};
ghost use Rattle.ixp_num.specs.AddressForms.{version_of};

use ixp_num::{Addr, Family, Items, Prefix};
use ixp_num_tables::Row;
use std::cmp::Ordering;

/// A switch of the peering fabric.
#[derive(Debug, Drop)]
pub struct Switch {
    pub number: u32,
    /// UTF-8 of 1 to 128 bytes.
    pub name: Items<u8>,
}

impl Row for Switch {
    type Key = u32;

    ghost key_of = { switch_key };

    ghost named = { λ n. n ∷ [] };

    fn compare(&self, key: &u32) -> Ordering {
        self.number.cmp(key)
    }

    fn order(&self, other: &Switch) -> Ordering {
        self.number.cmp(&other.number)
    }
}

/// A port of a switch.
#[derive(Debug, Drop)]
pub struct Port {
    pub number: u32,
    pub switch: u32,
    /// In Mbit/s, at least 1.
    pub speed: u32,
    /// The member that it belongs to, or 0 where it is free.
    pub member: u32,
    /// UTF-8 of 1 to 128 bytes.
    pub name: Items<u8>,
}

impl Row for Port {
    type Key = u32;

    ghost key_of = { port_key };

    ghost named = { λ n. n ∷ [] };

    fn compare(&self, key: &u32) -> Ordering {
        self.number.cmp(key)
    }

    fn order(&self, other: &Port) -> Ordering {
        self.number.cmp(&other.number)
    }
}

/// A peering VLAN with its prefix in each family.
#[derive(Debug, Drop)]
pub struct Vlan {
    pub number: u32,
    /// The tag of IEEE 802.1Q, 1 to 4094.
    pub tag: u32,
    pub v4: Option<Prefix>,
    pub v6: Option<Prefix>,
    /// UTF-8 of 1 to 128 bytes.
    pub name: Items<u8>,
}

impl Row for Vlan {
    type Key = u32;

    ghost key_of = { vlan_key };

    ghost named = { λ n. n ∷ [] };

    fn compare(&self, key: &u32) -> Ordering {
        self.number.cmp(key)
    }

    fn order(&self, other: &Vlan) -> Ordering {
        self.number.cmp(&other.number)
    }
}

/// An address of an interface, and how the route servers treat its session.
#[derive(Debug, Drop)]
pub struct IfAddr {
    pub addr: Addr,
    /// How many prefixes its session may announce; 0 is no limit.
    pub max_prefix: u32,
    /// Whether it has sessions with the route servers.
    pub rs: bool,
    /// Whether its announcements are held to the member's lists.
    pub irr: bool,
    /// Whether more specific prefixes than those of the list are allowed.
    pub more: bool,
    /// The secret of its sessions (RFC 2385); empty where there is none.
    pub secret: Items<u8>,
}

/// A member's interface in a VLAN.
#[derive(Debug, Drop)]
pub struct Interface {
    pub number: u32,
    pub member: u32,
    pub port: u32,
    pub vlan: u32,
    pub v4: Option<IfAddr>,
    pub v6: Option<IfAddr>,
}

impl Row for Interface {
    type Key = u32;

    ghost key_of = { interface_key };

    ghost named = { λ n. n ∷ [] };

    fn compare(&self, key: &u32) -> Ordering {
        self.number.cmp(key)
    }

    fn order(&self, other: &Interface) -> Ordering {
        self.number.cmp(&other.number)
    }
}

impl Interface {
    ghost use Rattle.std.specs.Prelude.{◌≡◌};
    ghost use Rattle.ixp_registry.specs.Registries.{bare};

    /// The interface without its addresses.
    pub fn bare(&self) -> InterfaceRow
        ensures { result ≡ bare self.now }
    {
        InterfaceRow {
            number: self.number,
            member: self.member,
            port: self.port,
            vlan: self.vlan,
        }
    }
}

/// An interface without its addresses, as a dump has it.
#[derive(Clone, Copy, Debug)]
pub struct InterfaceRow {
    pub number: u32,
    pub member: u32,
    pub port: u32,
    pub vlan: u32,
}

impl Row for InterfaceRow {
    type Key = u32;

    ghost key_of = { interface_row_key };

    ghost named = { λ n. n ∷ [] };

    fn compare(&self, key: &u32) -> Ordering {
        self.number.cmp(key)
    }

    fn order(&self, other: &InterfaceRow) -> Ordering {
        self.number.cmp(&other.number)
    }
}

/// An address of the interface with a number, as a dump has it.
#[derive(Debug, Drop)]
pub struct AddressRow {
    pub interface: u32,
    pub address: IfAddr,
}

impl Row for AddressRow {
    type Key = (u32, Family);

    ghost key_of = { address_key };

    ghost named = { λ k. k.0 ∷ version_of k.1 ∷ [] };

    fn compare(&self, key: &(u32, Family)) -> Ordering {
        self.interface
            .cmp(&key.0)
            .then(self.address.addr.family.cmp(&key.1))
    }

    fn order(&self, other: &AddressRow) -> Ordering {
        self.interface
            .cmp(&other.interface)
            .then(self.address.addr.family.cmp(&other.address.addr.family))
    }
}
