//! The addresses that members have in a VLAN.
ghost use Rattle.std.specs.Prelude.{◌≡◌, ◌∷◌, ℕ, [], map, if◌then◌else◌, ◌==◌, IfOk, OnOk};
ghost use Rattle.ixp_num_tables.specs.Tables.{put};
ghost use Rattle.ixp_registry.specs.Sessions.{ascending};
ghost use Rattle.ixp_registry.specs.Words.{addr_numbers};
ghost use Rattle.ixp_compile_text.specs.Addresses.{addresses_of, listed_of, onto, own_addresses};

use ixp_num::{Addr, Family, Items};
use ixp_num_tables::{Row, Table};
use ixp_registry::{Interface, address_of};
use std::alloc::{AllocError, Global};
use std::cmp::Ordering;
use std::collections::BTreeMap;

/// An address of a member.
#[derive(Clone, Copy, Debug)]
pub(crate) struct Listed {
    pub addr: Addr,
}

impl Row for Listed {
    ghost use Rattle.ixp_registry.specs.Words.{addr_numbers};

    type Key = Addr;

    ghost key_of = { λ a. addr_numbers a.addr };

    ghost named = { addr_numbers };

    fn compare(&self, key: &Addr) -> Ordering {
        self.addr.cmp(key)
    }

    fn order(&self, other: &Listed) -> Ordering {
        self.addr.cmp(&other.addr)
    }
}

/// Members' addresses, each member's in order.
#[derive(Drop)]
pub(crate) struct MemberAddresses {
    by_member: BTreeMap<u32, Table<Listed>>,
}

impl MemberAddresses {
    /// No addresses.
    fn new(alloc: Global) -> MemberAddresses
        ensures { (m : ℕ) → addresses_of result m ≡ [] }
    {
        MemberAddresses {
            by_member: BTreeMap::new(alloc),
        }
    }

    /// Takes a member's addresses out.
    fn take(&mut self, alloc: Global, member: u32) -> Table<Listed>
        ensures addresses { result ≡ listed_of self.old member }
        ensures others { (m : ℕ) → listed_of self.new m ≡ (if member == m then [] else listed_of self.old m) }
    {
        match self.by_member.remove(&member) {
            Some(table) => table,
            None => Table::new(alloc),
        }
    }

    /// Puts one more address of a member in.
    fn put(&mut self, alloc: Global, member: u32, addr: Addr) -> Result<(), AllocError>
        ensures { OnOk result
            ((m : ℕ) → addresses_of self.new m
            ≡ (if member == m then put addr_numbers addr (addresses_of self.old m)
            else addresses_of self.old m)) }
    {
        let mut table = self.take(alloc, member);
        table.put(Listed { addr })?;
        let _ = self.by_member.insert(member, table)?;
        Ok(())
    }

    /// Puts the interface's address in, if it is in the VLAN and has one of the family.
    fn add(
        &mut self,
        alloc: Global,
        family: Family,
        vlan: u32,
        interface: &Interface,
    ) -> Result<(), AllocError>
        ensures { OnOk result
            ((m : ℕ) → addresses_of self.new m
            ≡ onto (own_addresses family vlan m (interface.now ∷ [])) (addresses_of self.old m)) }
    {
        if interface.vlan != vlan {
            return Ok(());
        }
        if let Some(address) = address_of(family, interface) {
            self.put(alloc, interface.member, address.addr)?;
        }
        Ok(())
    }

    /// The addresses of the family that members have in the VLAN, by one pass over the interfaces.
    pub(crate) fn in_vlan(
        alloc: Global,
        interfaces: &[Interface],
        family: Family,
        vlan: u32,
    ) -> Result<MemberAddresses, AllocError>
        ensures { IfOk result
            (λ a. (m : ℕ) → addresses_of a m ≡ ascending (own_addresses family vlan m interfaces.now)) }
    {
        let mut addresses = MemberAddresses::new(alloc);
        let mut left = interfaces;
        'each: while let Some((interface, earlier)) = left.split_last() {
            addresses.add(alloc, family, vlan, interface)?;
            left = earlier;
        }
        Ok(addresses)
    }

    /// A member's addresses, in order.
    pub(crate) fn of(&self, alloc: Global, member: u32) -> Result<Items<Addr>, AllocError>
        ensures { IfOk result (λ it. it ≡ addresses_of self.now member) }
    {
        match self.by_member.get(&member) {
            Some(table) => plain(alloc, table.as_slice()),
            None => Ok(Items::new(alloc)),
        }
    }
}

/// Puts one more address in.
fn put_addr(addresses: &mut Table<Listed>, addr: Addr) -> Result<(), AllocError>
    ensures { OnOk result
        (map (λ l. l.addr) addresses.new ≡ put addr_numbers addr (map (λ l. l.addr) addresses.old)) }
{
    addresses.put(Listed { addr })?;
    Ok(())
}

/// Puts the interface's address in, if it is the member's, in the VLAN, and of the family.
fn put_own(
    addresses: &mut Table<Listed>,
    family: Family,
    vlan: u32,
    member: u32,
    interface: &Interface,
) -> Result<(), AllocError>
    ensures { OnOk result
        (map (λ l. l.addr) addresses.new
        ≡ onto (own_addresses family vlan member (interface.now ∷ []))
        (map (λ l. l.addr) addresses.old)) }
{
    if interface.member != member || interface.vlan != vlan {
        return Ok(());
    }
    if let Some(address) = address_of(family, interface) {
        put_addr(addresses, address.addr)?;
    }
    Ok(())
}

/// A member's addresses of the family in the VLAN, in order, by one pass over the interfaces.
pub(crate) fn addresses_of_member(
    alloc: Global,
    interfaces: &[Interface],
    family: Family,
    vlan: u32,
    member: u32,
) -> Result<Items<Addr>, AllocError>
    ensures { IfOk result (λ it. it ≡ ascending (own_addresses family vlan member interfaces.now)) }
{
    let mut addresses = Table::new(alloc);
    let mut left = interfaces;
    'each: while let Some((interface, earlier)) = left.split_last() {
        put_own(&mut addresses, family, vlan, member, interface)?;
        left = earlier;
    }
    plain(alloc, addresses.as_slice())
}

fn plain(alloc: Global, listed: &[Listed]) -> Result<Items<Addr>, AllocError>
    ensures { IfOk result (λ it. it ≡ map (λ a. a.addr) listed.now) }
{
    let mut addrs = Items::new(alloc);
    'each: for one in listed {
        addrs.push(one.addr)?;
    }
    Ok(addrs)
}
