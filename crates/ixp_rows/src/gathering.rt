//! A registry made of a dump's rows: each interface gets its addresses, and each member its lists.
ghost use Rattle.std.specs.Prelude.{
  ◌≡◌,
  ◌≢◌,
  ◌↔◌,
  ◌≤◌,
  ◌<◌,
  ◌++◌,
  ◌∷◌,
  [],
  None,
  List,
  ℕ,
  IsTrue,
  IfOk,
  IfSome,
  MatchOption,
  length,
  take,
  drop,
  map,
  flat_map,
};
ghost use Rattle.std.specs.List.{AllByRecursion};
ghost use Rattle.std.specs.Option.{is_some};
ghost use Rattle.ixp_num.specs.AddressForms.{version_of};
ghost use Rattle.ixp_num.specs.declared.family.Family.TheVariants.{V4, V6};
ghost use Rattle.ixp_num_tables.specs.Tables.{Ascends, find};
ghost use Rattle.ixp_registry.specs.Keys.{
  address_key,
  interface_row_key,
  interface_key,
  irr_key,
  origins_key,
  rules_key,
  member_prefix_key,
  member_origin_key,
  rule_key,
};
ghost use Rattle.ixp_registry.specs.Registries.{
  rows_of,
  bare,
  addresses_of,
  address_rows,
  prefixes_of,
  origins_of,
  rules_in,
};
ghost use Rattle.ixp_registry.specs.Valid.{IsIn};
ghost use Rattle.ixp_registry_laws.specs.WellFormed.{
  AreOrdered,
  HasLists,
  IsPrefixList,
  IsOriginList,
  IsRuleList,
};
ghost use Rattle.ixp_registry.specs.Rules.{addresses_have_interfaces};
ghost use Rattle.ixp_rows.specs.Gathering.{Misses, AreListed};

use ixp_num::{Asn, Family, Items, Prefix};
use ixp_num_tables::{Row, Table};
use ixp_registry::{
    AddressRow, IfAddr, Interface, InterfaceRow, IrrList, MemberOrigin, MemberPrefix, MemberRule,
    OriginList, Registry, Rows, RuleList,
};
use std::alloc::{AllocError, Global};
use std::collections::VecDeque;

/// Takes the interface's address of the family, where it stands first.
fn next_address(
    interface: u32,
    family: Family,
    addresses: &mut VecDeque<AddressRow>,
) -> Option<IfAddr>
    ensures taken { addresses.old.items ≡ address_rows interface result ++ addresses.new.items }
    ensures family { IsIn family result }
    ensures missed { MatchOption result (Misses interface family addresses.new.items)
        (λ a. a.addr.family ≡ family) }
{
    let first = addresses.front()?;
    if first.interface != interface || first.address.addr.family != family {
        return None;
    }
    let row = addresses.pop_front()?;
    Some(row.address)
}

/// The interface with its addresses, which stand first.
fn with_addresses(row: &InterfaceRow, addresses: &mut VecDeque<AddressRow>) -> Interface
    ensures row { bare result ≡ row.now }
    ensures taken { addresses.old.items ≡ addresses_of result ++ addresses.new.items }
    ensures families { IsIn V4 result.v4 × IsIn V6 result.v6 }
    ensures behind { Ascends address_key addresses.old.items
        → AllByRecursion (λ a. row.now.number ≤ a.interface) addresses.old.items
        → AllByRecursion (λ a. row.now.number < a.interface) addresses.new.items }
{
    let v4 = next_address(row.number, Family::V4, addresses);
    let v6 = next_address(row.number, Family::V6, addresses);
    Interface {
        number: row.number,
        member: row.member,
        port: row.port,
        vlan: row.vlan,
        v4,
        v6,
    }
}

/// The interfaces with their addresses.
fn interfaces_of(
    alloc: Global,
    rows: &[InterfaceRow],
    addresses: Vec<AddressRow>,
) -> Result<Vec<Interface>, AllocError>
    requires ascends { Ascends interface_row_key rows.now }
    requires addresses { Ascends address_key addresses.items }
    requires there { AllByRecursion
        (λ a. IsTrue (is_some (find interface_row_key (a.interface ∷ []) rows.now))) addresses.items }
    ensures rows { IfOk result (λ is. map bare is.items ≡ rows.now) }
    ensures addresses { IfOk result (λ is. flat_map addresses_of is.items ≡ addresses.items) }
    ensures families { IfOk result (λ is. AllByRecursion (λ i. IsIn V4 i.v4 × IsIn V6 i.v6) is.items) }
{
    let mut left = VecDeque::from_vec(addresses);
    let mut interfaces = Vec::new(alloc);
    let mut behind = rows;
    'rows: while let Some((row, others)) = behind.split_first() {
        interfaces.push(with_addresses(row, &mut left))?;
        behind = others;
    }
    Ok(interfaces)
}

/// A row that stands in a list of its own group.
trait Listed: Row + Copy {
    type Item: Copy + Drop;

    type List: Row + Drop;

    /// What the rows of one list have in common.
    ghost group: { Self → List ℕ };

    ghost item: { Self → Self.Item };

    /// The list of a group's first row, with these items.
    ghost made: { Self → List Self.Item → Self.List };

    ghost rows_in: { Self.List → List Self };

    ghost IsList: { Self.List → Type 0 };

    fn is_with(&self, other: &Self) -> bool
        ensures { IsTrue result ↔ (group self.now ≡ group other.now) };

    fn item(&self) -> Self::Item
        ensures { result ≡ item self.now };

    fn list(&self, items: Items<Self::Item>) -> Self::List
        ensures { result ≡ made self.now items };
}

/// How many of the rows that stand first are of the group of the row before them.
fn run<R: Listed>(first: &R, others: &[R]) -> usize
    ensures within { result ≤ length others.now }
    ensures group { AllByRecursion (λ s. R.group s ≡ R.group first.now) (take result others.now) }
    ensures end { (s : R) (rest : List R) → drop result others.now ≡ s ∷ rest
        → R.group s ≢ R.group first.now }
{
    let mut count = 0;
    let mut left = others;
    'rows: while let Some((row, rest)) = left.split_first() {
        if !row.is_with(first) {
            return count;
        }
        count += 1;
        left = rest;
    }
    count
}

/// The items of the rows of one list. Room is taken once.
fn items_of<R: Listed>(alloc: Global, first: &R, others: &[R]) -> Result<Items<R::Item>, AllocError>
    ensures { IfOk result (λ items. items ≡ map R.item (first.now ∷ others.now)) }
{
    let mut items = Vec::with_capacity(alloc, others.len().saturating_add(1))?;
    items.push(first.item())?;
    for row in others {
        items.push(row.item())?;
    }
    Ok(Items::from_vec(items))
}

/// The lists that rows make.
fn lists_of<R: Listed>(alloc: Global, rows: &[R]) -> Result<Vec<R::List>, AllocError>
    requires ascends { Ascends R.Row.key_of rows.now }
    requires listed { AreListed R.Row.key_of R.group R.item R.made R.List.Row.key_of R.rows_in R.IsList }
    ensures rows { IfOk result (λ lists. flat_map R.rows_in lists.items ≡ rows.now) }
    ensures ascends { IfOk result (λ lists. Ascends R.List.Row.key_of lists.items) }
    ensures lists { IfOk result (λ lists. AllByRecursion R.IsList lists.items) }
{
    let mut lists = Vec::new(alloc);
    let mut left = rows;
    'lists: while let Some((first, others)) = left.split_first() {
        let (with, rest) = others.split_at(run(first, others));
        let items = items_of(alloc, first, with)?;
        lists.push(first.list(items))?;
        left = rest;
    }
    Ok(lists)
}

impl Listed for MemberPrefix {
    type Item = Prefix;

    type List = IrrList;

    ghost group = { λ r. r.member ∷ version_of r.prefix.family ∷ [] };

    ghost item = { λ r. r.prefix };

    ghost made = { λ r items. record { member = r.member; family = r.prefix.family; prefixes = items } };

    ghost rows_in = { prefixes_of };

    ghost IsList = { IsPrefixList };

    fn is_with(&self, other: &MemberPrefix) -> bool {
        self.member == other.member && self.prefix.family == other.prefix.family
    }

    fn item(&self) -> Prefix {
        self.prefix
    }

    fn list(&self, items: Items<Prefix>) -> IrrList
        ensures { result ≡ record {
          member = self.now.member;
          family = self.now.prefix.family;
          prefixes = items;
        } }
    {
        IrrList {
            member: self.member,
            family: self.prefix.family,
            prefixes: items,
        }
    }
}

impl Listed for MemberOrigin {
    type Item = Asn;

    type List = OriginList;

    ghost group = { λ r. r.member ∷ version_of r.family ∷ [] };

    ghost item = { λ r. r.asn };

    ghost made = { λ r items. record { member = r.member; family = r.family; asns = items } };

    ghost rows_in = { origins_of };

    ghost IsList = { IsOriginList };

    fn is_with(&self, other: &MemberOrigin) -> bool {
        self.member == other.member && self.family == other.family
    }

    fn item(&self) -> Asn {
        self.asn
    }

    fn list(&self, items: Items<Asn>) -> OriginList
        ensures { result ≡ record { member = self.now.member; family = self.now.family; asns = items } }
    {
        OriginList {
            member: self.member,
            family: self.family,
            asns: items,
        }
    }
}

impl Listed for MemberRule {
    type Item = MemberRule;

    type List = RuleList;

    ghost group = { λ r. r.member ∷ [] };

    ghost item = { λ r. r };

    ghost made = { λ r items. record { member = r.member; rules = items } };

    ghost rows_in = { rules_in };

    ghost IsList = { IsRuleList };

    fn is_with(&self, other: &MemberRule) -> bool {
        self.member == other.member
    }

    fn item(&self) -> MemberRule {
        *self
    }

    fn list(&self, items: Items<MemberRule>) -> RuleList
        ensures { result ≡ record { member = self.now.member; rules = items } }
    {
        RuleList {
            member: self.member,
            rules: items,
        }
    }
}

fn irr_of(alloc: Global, rows: &[MemberPrefix]) -> Result<Table<IrrList>, AllocError>
    requires { Ascends member_prefix_key rows.now }
    ensures rows { IfOk result (λ lists. flat_map prefixes_of lists ≡ rows.now) }
    ensures lists { IfOk result (λ lists. AllByRecursion IsPrefixList lists) }
{
    let lists = lists_of::<MemberPrefix>(alloc, rows)?;
    Ok(Table::from_ascending(lists))
}

fn origins_of(alloc: Global, rows: &[MemberOrigin]) -> Result<Table<OriginList>, AllocError>
    requires { Ascends member_origin_key rows.now }
    ensures rows { IfOk result (λ lists. flat_map origins_of lists ≡ rows.now) }
    ensures lists { IfOk result (λ lists. AllByRecursion IsOriginList lists) }
{
    let lists = lists_of::<MemberOrigin>(alloc, rows)?;
    Ok(Table::from_ascending(lists))
}

fn rules_of(alloc: Global, rows: &[MemberRule]) -> Result<Table<RuleList>, AllocError>
    requires { Ascends rule_key rows.now }
    ensures rows { IfOk result (λ lists. flat_map rules_in lists ≡ rows.now) }
    ensures lists { IfOk result (λ lists. AllByRecursion IsRuleList lists) }
{
    let lists = lists_of::<MemberRule>(alloc, rows)?;
    Ok(Table::from_ascending(lists))
}

/// Does nothing. It is called for what it ensures: the tables of a registry ascend, and so do its public
/// lists.
fn tables_ascend(registry: &Registry)
    ensures { AreOrdered registry.now }
{
    registry.members.as_slice();
    registry.contacts.as_slice();
    registry.keys.as_slice();
    registry.switches.as_slice();
    registry.ports.as_slice();
    registry.vlans.as_slice();
    registry.interfaces.as_slice();
    registry.routers.as_slice();
    registry.irr.as_slice();
    registry.origins.as_slice();
    registry.rules.as_slice();
    registry.public.bogons.as_slice();
    registry.public.bogon_as.as_slice();
    registry.public.transit.as_slice();
    registry.public.roas.as_slice();
}

/// The registry of a dump's rows, where each address has its interface.
pub(crate) fn registry_of(alloc: Global, rows: Rows) -> Result<Registry, AllocError>
    requires { addresses_have_interfaces rows ≡ None }
    ensures rows { IfOk result (λ r. rows_of r ≡ rows) }
    ensures lists { IfOk result HasLists }
    ensures ordered { IfOk result AreOrdered }
{
    let Rows {
        site,
        members,
        contacts,
        keys,
        switches,
        ports,
        vlans,
        interfaces,
        addresses,
        routers,
        prefixes,
        origins,
        rules,
        public,
    } = rows;
    let with = interfaces_of(alloc, interfaces.as_slice(), addresses.into_rows())?;
    let irr = irr_of(alloc, prefixes.as_slice())?;
    let origins = origins_of(alloc, origins.as_slice())?;
    let rules = rules_of(alloc, rules.as_slice())?;
    let registry = Registry {
        site,
        members,
        contacts,
        keys,
        switches,
        ports,
        vlans,
        interfaces: Table::from_ascending(with),
        routers,
        irr,
        origins,
        rules,
        public,
    };
    tables_ascend(&registry);
    Ok(registry)
}
