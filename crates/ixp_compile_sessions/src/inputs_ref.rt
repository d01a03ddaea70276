//! A session's inputs by reference.
ghost use Rattle.std.specs.Prelude.{◌≡◌, IfOk};

use ixp_compile::Inputs;
use ixp_num::{Addr, Asn, Family, Items, Prefix};
use ixp_num_tables::Copied;
use ixp_registry::{IfAddr, MemberRule};
use std::alloc::{AllocError, Global};
use std::marker::Model;

/// What a session's part depends on, its lists by reference to where they stand. Contracts see it as the
/// [`Inputs`].
#[derive(Drop)]
pub struct InputsRef<'a> {
    pub rs: Asn,
    pub family: Family,
    pub high: u32,
    pub rpki: bool,
    pub blackhole: Option<Addr>,
    pub local: Addr,
    pub interface: u32,
    pub address: &'a IfAddr,
    pub asn: Asn,
    pub addresses: &'a [Addr],
    pub transit_free: bool,
    pub prefixes: &'a [Prefix],
    pub origins: &'a [Asn],
    pub rules: &'a [MemberRule],
}

impl<'a> Model for InputsRef<'a> {
    ghost use Rattle.ixp_compile.specs.declared.inputs.Inputs.{Inputs};

    ghost Value = { Inputs };

    ghost view = { λ i. record {
      rs = i.rs;
      family = i.family;
      high = i.high;
      rpki = i.rpki;
      blackhole = i.blackhole;
      local = i.local;
      interface = i.interface;
      address = i.address.now;
      asn = i.asn;
      addresses = i.addresses.now;
      transit_free = i.transit_free;
      prefixes = i.prefixes.now;
      origins = i.origins.now;
      rules = i.rules.now;
    } };
}

impl<'a> InputsRef<'a> {
    /// The same inputs.
    pub fn of(inputs: &'a Inputs) -> InputsRef<'a>
        ensures { result ≡ inputs.now }
    {
        InputsRef {
            rs: inputs.rs,
            family: inputs.family,
            high: inputs.high,
            rpki: inputs.rpki,
            blackhole: inputs.blackhole,
            local: inputs.local,
            interface: inputs.interface,
            address: &inputs.address,
            asn: inputs.asn,
            addresses: inputs.addresses.as_slice(),
            transit_free: inputs.transit_free,
            prefixes: inputs.prefixes.as_slice(),
            origins: inputs.origins.as_slice(),
            rules: inputs.rules.as_slice(),
        }
    }

    /// The inputs, their lists being copies.
    pub fn owned(&self, alloc: Global) -> Result<Inputs, AllocError>
        ensures { IfOk result (λ i. i ≡ self.now) }
    {
        Ok(Inputs {
            rs: self.rs,
            family: self.family,
            high: self.high,
            rpki: self.rpki,
            blackhole: self.blackhole,
            local: self.local,
            interface: self.interface,
            address: self.address.copied(alloc)?,
            asn: self.asn,
            addresses: Items::from_slice(alloc, self.addresses)?,
            transit_free: self.transit_free,
            prefixes: Items::from_slice(alloc, self.prefixes)?,
            origins: Items::from_slice(alloc, self.origins)?,
            rules: Items::from_slice(alloc, self.rules)?,
        })
    }
}
