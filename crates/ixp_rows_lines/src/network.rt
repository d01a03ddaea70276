//! Lines of switches, ports, VLANs, interfaces and their addresses.
ghost use Rattle.std.specs.Prelude.{◌≡◌, ◌++◌, OnOk, refl};
ghost use Rattle.ixp_registry.specs.Keys.{switch_key, port_key, vlan_key, interface_row_key, address_key};
ghost use Rattle.ixp_registry.specs.declared.kind.Kind.TheVariants as of;
ghost use Rattle.ixp_rows_lines.specs.declared.version.Version.{Version as Format};
ghost use Rattle.ixp_rows_lines.specs.Lines.{
  IsLine,
  IsSecret,
  line_text,
  switch_line,
  port_line,
  vlan_line,
  interface_line,
  address_line,
};

use crate::fields::end_of;
use crate::free::{free_of, secret_of};
use crate::numbers::{address_of, net_or_dash, number_of};
use crate::printing::{Shown, net_shown, put_line};
use crate::words::{Worded, by_word};
use crate::{Kind, Lined, Unread, Version};
use ixp_num_tables::Row;
use ixp_registry::{AddressRow, IfAddr, InterfaceRow, Port, Switch, Vlan};
use std::alloc::{AllocError, Global};
use std::cmp::Ordering;

impl Lined for Switch {
    ghost row_kind = { of.Switches };

    ghost fields = { λ version row. (switch_line row).fields };

    ghost key = { switch_key };

    fn kind() -> Kind {
        Kind::Switches
    }

    fn read(alloc: Global, _version: Version, rest: &[u8]) -> Result<(Switch, &[u8]), Unread> {
        let (number, rest) = number_of(rest)?;
        let (name, rest) = free_of(alloc, rest)?;
        let rest = end_of(rest)?;
        let row = Switch { number, name };
        Ok((row, rest))
    }

    fn print(&self, _version: Version, out: &mut Vec<u8>) -> Result<(), AllocError> {
        let fields = [
            Shown::Number(self.number),
            Shown::Free(self.name.as_slice()),
        ];
        put_line(Kind::Switches, &fields, out)
    }

    fn order_lines(&self, other: &Switch) -> Ordering {
        self.order(other)
    }

    ghost keyed = { λ version row. refl };
}

impl Lined for Port {
    ghost row_kind = { of.Ports };

    ghost fields = { λ version row. (port_line row).fields };

    ghost key = { port_key };

    fn kind() -> Kind {
        Kind::Ports
    }

    fn read(alloc: Global, _version: Version, rest: &[u8]) -> Result<(Port, &[u8]), Unread> {
        let (number, rest) = number_of(rest)?;
        let (switch, rest) = number_of(rest)?;
        let (speed, rest) = number_of(rest)?;
        let (member, rest) = number_of(rest)?;
        let (name, rest) = free_of(alloc, rest)?;
        let rest = end_of(rest)?;
        let row = Port {
            number,
            switch,
            speed,
            member,
            name,
        };
        Ok((row, rest))
    }

    fn print(&self, _version: Version, out: &mut Vec<u8>) -> Result<(), AllocError> {
        let fields = [
            Shown::Number(self.number),
            Shown::Number(self.switch),
            Shown::Number(self.speed),
            Shown::Number(self.member),
            Shown::Free(self.name.as_slice()),
        ];
        put_line(Kind::Ports, &fields, out)
    }

    fn order_lines(&self, other: &Port) -> Ordering {
        self.order(other)
    }

    ghost keyed = { λ version row. refl };
}

impl Lined for Vlan {
    ghost row_kind = { of.Vlans };

    ghost fields = { λ version row. (vlan_line row).fields };

    ghost key = { vlan_key };

    fn kind() -> Kind {
        Kind::Vlans
    }

    fn read(alloc: Global, _version: Version, rest: &[u8]) -> Result<(Vlan, &[u8]), Unread> {
        let (number, rest) = number_of(rest)?;
        let (tag, rest) = number_of(rest)?;
        let (v4, rest) = net_or_dash(alloc, rest)?;
        let (v6, rest) = net_or_dash(alloc, rest)?;
        let (name, rest) = free_of(alloc, rest)?;
        let rest = end_of(rest)?;
        let row = Vlan {
            number,
            tag,
            v4,
            v6,
            name,
        };
        Ok((row, rest))
    }

    fn print(&self, _version: Version, out: &mut Vec<u8>) -> Result<(), AllocError> {
        let fields = [
            Shown::Number(self.number),
            Shown::Number(self.tag),
            net_shown(&self.v4, b"-"),
            net_shown(&self.v6, b"-"),
            Shown::Free(self.name.as_slice()),
        ];
        put_line(Kind::Vlans, &fields, out)
    }

    fn order_lines(&self, other: &Vlan) -> Ordering {
        self.order(other)
    }

    ghost keyed = { λ version row. refl };
}

impl Lined for InterfaceRow {
    ghost row_kind = { of.Interfaces };

    ghost fields = { λ version row. (interface_line row).fields };

    ghost key = { interface_row_key };

    fn kind() -> Kind {
        Kind::Interfaces
    }

    fn read(
        _alloc: Global,
        _version: Version,
        rest: &[u8],
    ) -> Result<(InterfaceRow, &[u8]), Unread> {
        let (number, rest) = number_of(rest)?;
        let (member, rest) = number_of(rest)?;
        let (port, rest) = number_of(rest)?;
        let (vlan, rest) = number_of(rest)?;
        let rest = end_of(rest)?;
        let row = InterfaceRow {
            number,
            member,
            port,
            vlan,
        };
        Ok((row, rest))
    }

    fn print(&self, _version: Version, out: &mut Vec<u8>) -> Result<(), AllocError> {
        let fields = [
            Shown::Number(self.number),
            Shown::Number(self.member),
            Shown::Number(self.port),
            Shown::Number(self.vlan),
        ];
        put_line(Kind::Interfaces, &fields, out)
    }

    fn order_lines(&self, other: &InterfaceRow) -> Ordering {
        self.order(other)
    }

    ghost keyed = { λ version row. refl };
}

/// Adds the line of an interface's address.
pub fn print_address(interface: u32, address: &IfAddr, out: &mut Vec<u8>) -> Result<(), AllocError>
    ensures { OnOk result
        (out.new.items ≡ out.old.items
        ++ line_text (address_line (record { interface = interface; address = address.now }))) }
{
    let fields = [
        Shown::Number(interface),
        Shown::Address(address.addr),
        Shown::Number(address.max_prefix),
        Shown::Word(address.rs.word()),
        Shown::Word(address.irr.word()),
        Shown::Word(address.more.word()),
        Shown::Secret(address.secret.as_slice()),
    ];
    put_line(Kind::Addresses, &fields, out)
}

impl Lined for AddressRow {
    ghost row_kind = { of.Addresses };

    ghost fields = { λ version row. (address_line row).fields };

    ghost key = { address_key };

    fn kind() -> Kind {
        Kind::Addresses
    }

    fn read(alloc: Global, _version: Version, rest: &[u8]) -> Result<(AddressRow, &[u8]), Unread> {
        let (interface, rest) = number_of(rest)?;
        let (addr, rest) = address_of(alloc, rest)?;
        let (max_prefix, rest) = number_of(rest)?;
        let (rs, rest) = by_word(rest)?;
        let (irr, rest) = by_word(rest)?;
        let (more, rest) = by_word(rest)?;
        let (secret, rest) = secret_of(alloc, rest)?;
        let rest = end_of(rest)?;
        let address = IfAddr {
            addr,
            max_prefix,
            rs,
            irr,
            more,
            secret,
        };
        Ok((AddressRow { interface, address }, rest))
    }

    fn print(&self, _version: Version, out: &mut Vec<u8>) -> Result<(), AllocError> {
        print_address(self.interface, &self.address, out)
    }

    fn order_lines(&self, other: &AddressRow) -> Ordering {
        self.order(other)
    }

    ghost keyed = { λ version row. refl };
}
