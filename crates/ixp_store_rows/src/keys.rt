//! The keys by which rows are named.
ghost use Rattle.std.specs.Prelude.{◌≡◌, ◌++◌, ◌∷◌, [], OnOk};
ghost use Rattle.ixp_rows_lines.specs.declared.version.Version.TheVariants.{Two};
ghost use Rattle.ixp_rows_lines.specs.Lines.{place_of, address_line, family_word};
ghost use Rattle.ixp_rows_lines.specs.Fields.{Number};
ghost use Rattle.ixp_num.specs.AddressForms.{version_of};
ghost use Rattle.ixp_store_rows.specs.Names.{key_text, name_fields, owner_fields};

use ixp_num::{Asn, Family, Pattern, Roa, print_pattern_bounds, print_prefix};
use ixp_num_tables::{put, put_number};
use ixp_registry::{
    AddressRow, ApiKey, Contact, InterfaceRow, Member, MemberRule, Owner, Port, Router, Site,
    Switch, Vlan,
};
use ixp_rows_lines::{Kind, Lined};
use std::alloc::AllocError;

/// The number of a kind of rows, in the order of a dump.
pub fn place_of(kind: Kind) -> u8
    ensures { result ≡ place_of kind }
{
    match kind {
        Kind::Sites => 1,
        Kind::Members => 2,
        Kind::Contacts => 3,
        Kind::Keys => 4,
        Kind::Switches => 5,
        Kind::Ports => 6,
        Kind::Vlans => 7,
        Kind::Interfaces => 8,
        Kind::Addresses => 9,
        Kind::Routers => 10,
        Kind::Prefixes => 11,
        Kind::Origins => 12,
        Kind::Rules => 13,
        Kind::Bogons => 14,
        Kind::BogonAs => 15,
        Kind::Transit => 16,
        Kind::Roas => 17,
    }
}

/// Rows with lines, each of which is a row of a store.
pub trait Stored: Lined {
    /// Adds the text of the row's key.
    fn print_key(&self, out: &mut Vec<u8>) -> Result<(), AllocError>
        ensures { OnOk result
            (out.new.items ≡ out.old.items
            ++ key_text (name_fields Self.Lined.row_kind (Self.Lined.fields Two self.now))) };
}

fn put_one(number: u32, out: &mut Vec<u8>) -> Result<(), AllocError>
    ensures { OnOk result (out.new.items ≡ out.old.items ++ key_text (Number number ∷ [])) }
{
    put_number(out, u64::from(number))
}

fn put_two(first: u32, second: u32, out: &mut Vec<u8>) -> Result<(), AllocError>
    ensures { OnOk result (out.new.items ≡ out.old.items ++ key_text (Number first ∷ Number second ∷ [])) }
{
    put_number(out, u64::from(first))?;
    put(out, b" ")?;
    put_number(out, u64::from(second))
}

fn version_of(family: Family) -> u32
    ensures { result ≡ version_of family }
{
    match family {
        Family::V4 => 4,
        Family::V6 => 6,
    }
}

/// Adds the key of what a member or an interface has of a family.
pub(crate) fn put_of_family(
    number: u32,
    family: Family,
    out: &mut Vec<u8>,
) -> Result<(), AllocError>
    ensures { OnOk result
        (out.new.items ≡ out.old.items ++ key_text (Number number ∷ Number (version_of family) ∷ [])) }
{
    put_two(number, version_of(family), out)
}

/// Adds the key of what is kept for an owner.
pub(crate) fn put_owner(owner: &Owner, out: &mut Vec<u8>) -> Result<(), AllocError>
    ensures { OnOk result (out.new.items ≡ out.old.items ++ key_text (owner_fields owner.now)) }
{
    match owner {
        Owner::Staff(number) => {
            put(out, b"staff ")?;
            put_number(out, u64::from(*number))
        }
        Owner::Member(number) => {
            put(out, b"member ")?;
            put_number(out, u64::from(*number))
        }
    }
}

impl Stored for Site {
    fn print_key(&self, _out: &mut Vec<u8>) -> Result<(), AllocError> {
        Ok(())
    }
}

impl Stored for Member {
    fn print_key(&self, out: &mut Vec<u8>) -> Result<(), AllocError> {
        put_one(self.number, out)
    }
}

impl Stored for Contact {
    fn print_key(&self, out: &mut Vec<u8>) -> Result<(), AllocError> {
        put_two(self.member, self.place, out)
    }
}

impl Stored for ApiKey {
    fn print_key(&self, out: &mut Vec<u8>) -> Result<(), AllocError> {
        put_one(self.number, out)
    }
}

impl Stored for Switch {
    fn print_key(&self, out: &mut Vec<u8>) -> Result<(), AllocError> {
        put_one(self.number, out)
    }
}

impl Stored for Port {
    fn print_key(&self, out: &mut Vec<u8>) -> Result<(), AllocError> {
        put_one(self.number, out)
    }
}

impl Stored for Vlan {
    fn print_key(&self, out: &mut Vec<u8>) -> Result<(), AllocError> {
        put_one(self.number, out)
    }
}

impl Stored for InterfaceRow {
    fn print_key(&self, out: &mut Vec<u8>) -> Result<(), AllocError> {
        put_one(self.number, out)
    }
}

impl Stored for AddressRow {
    fn print_key(&self, out: &mut Vec<u8>) -> Result<(), AllocError> {
        put_of_family(self.interface, self.address.addr.family, out)
    }
}

impl Stored for Router {
    fn print_key(&self, out: &mut Vec<u8>) -> Result<(), AllocError> {
        put(out, self.handle.as_bytes())
    }
}

impl Stored for MemberRule {
    fn print_key(&self, out: &mut Vec<u8>) -> Result<(), AllocError> {
        put_two(self.member, self.place, out)
    }
}

impl Stored for Pattern {
    fn print_key(&self, out: &mut Vec<u8>) -> Result<(), AllocError> {
        print_pattern_bounds(self, out)
    }
}

/// A range of AS numbers.
impl Stored for (Asn, Asn) {
    fn print_key(&self, out: &mut Vec<u8>) -> Result<(), AllocError> {
        put_two(self.0.0, self.1.0, out)
    }
}

impl Stored for Asn {
    fn print_key(&self, out: &mut Vec<u8>) -> Result<(), AllocError> {
        put_one(self.0, out)
    }
}

impl Stored for Roa {
    fn print_key(&self, out: &mut Vec<u8>) -> Result<(), AllocError> {
        print_prefix(&self.prefix, out)?;
        put(out, b" ")?;
        put_two(u32::from(self.max), self.asn.0, out)
    }
}
