//! What edits of route servers, lists and rules change.
ghost use Rattle.std.specs.Prelude.{◌≡◌, ◌<◌, ◌^◌, ◌-◌, ◌++◌, [], ◌∷◌, length, IfOk, IsTrue};
ghost use Rattle.ixp_num.specs.Names.{is_name};
ghost use Rattle.ixp_machine_edits.specs.Lists.{placed};
ghost use Rattle.ixp_machine_edits.specs.Routers.{new_router, with_settings};
ghost use Rattle.ixp_registry_change.specs.Changes.{changed_row, row_or_none, with_public};
ghost use Rattle.ixp_registry.specs.Keys.{router_key};
ghost use Rattle.ixp_num_tables.specs.Tables.{find};

use ixp_machine_edits::{NewRule, RouterSettings};
use ixp_num::{Addr, Asn, Family, Items, Name, Prefix};
use ixp_num_sorted::Sorted;
use ixp_num_tables::{Copied, Table};
use ixp_registry::{IrrList, MemberRule, OriginList, PublicLists, Router, RuleList};
use ixp_registry_change::{PublicList, TableChange};
use std::alloc::{AllocError, Global};

pub(crate) fn new_router(
    alloc: Global,
    handle: &[u8],
    vlan: u32,
    family: Family,
    address: Addr,
    settings: RouterSettings,
) -> Result<Router, AllocError>
    requires { IsTrue (is_name handle.now) }
    ensures { IfOk result (λ q. q ≡ new_router handle.now vlan family address settings) }
{
    let handle = Name::new(alloc, handle)?;
    Ok(Router {
        handle,
        vlan,
        family,
        addr: address,
        asn: settings.asn,
        id: settings.id,
        low: settings.low,
        high: settings.high,
        rpki: settings.rpki,
        blackhole: settings.blackhole,
        max_comms: settings.max_comms,
    })
}

fn with_settings(router: Router, settings: RouterSettings) -> Router
    ensures { result ≡ with_settings settings router }
{
    let mut row = router;
    row.asn = settings.asn;
    row.id = settings.id;
    row.low = settings.low;
    row.high = settings.high;
    row.rpki = settings.rpki;
    row.blackhole = settings.blackhole;
    row.max_comms = settings.max_comms;
    row
}

pub(crate) fn set_router(
    alloc: Global,
    routers: &Table<Router>,
    handle: &Name,
    settings: RouterSettings,
) -> Result<TableChange<Router, Name>, AllocError>
    ensures { IfOk result
        (λ c. c ≡ changed_row (with_settings settings) (find router_key handle.now routers.now)) }
{
    let Some(found) = routers.find(handle) else {
        return Ok(TableChange::Keep);
    };
    let row = found.copied(alloc)?;
    Ok(TableChange::Put(with_settings(row, settings)))
}

pub(crate) fn put_irr(
    member: u32,
    family: Family,
    prefixes: Sorted<Prefix>,
) -> TableChange<IrrList, (u32, Family)>
    ensures { result ≡ row_or_none (record { member = member; family = family; prefixes = prefixes })
        (member, family) prefixes }
{
    if prefixes.as_slice().first().is_none() {
        return TableChange::Take((member, family));
    }
    TableChange::Put(IrrList {
        member,
        family,
        prefixes: Items::from_vec(prefixes.into_items()),
    })
}

pub(crate) fn put_origins(
    member: u32,
    family: Family,
    asns: Sorted<Asn>,
) -> TableChange<OriginList, (u32, Family)>
    ensures { result ≡ row_or_none (record { member = member; family = family; asns = asns })
        (member, family) asns }
{
    if asns.as_slice().first().is_none() {
        return TableChange::Take((member, family));
    }
    TableChange::Put(OriginList {
        member,
        family,
        asns: Items::from_vec(asns.into_items()),
    })
}

fn placed(alloc: Global, member: u32, rules: &[NewRule]) -> Result<Items<MemberRule>, AllocError>
    requires { length rules.now < 2 ^ 32 - 1 }
    ensures { IfOk result (λ xs. xs ≡ placed member 1 rules.now) }
{
    let mut rows = Items::new(alloc);
    let mut place = 1;
    let mut left = rules;
    'each: while let Some((rule, others)) = left.split_first() {
        rows.push(MemberRule {
            member,
            place,
            way: rule.way,
            peer: rule.peer,
            prefix: rule.prefix,
            action: rule.action,
        })?;
        place += 1;
        left = others;
    }
    Ok(rows)
}

pub(crate) fn set_rules(
    alloc: Global,
    member: u32,
    rules: &[NewRule],
) -> Result<TableChange<RuleList, u32>, AllocError>
    requires { length rules.now < 2 ^ 32 - 1 }
    ensures { IfOk result
        (λ c. c ≡ row_or_none (record { member = member; rules = placed member 1 rules.now }) member
        rules.now) }
{
    if rules.first().is_none() {
        return Ok(TableChange::Take(member));
    }
    let rules = placed(alloc, member, rules)?;
    Ok(TableChange::Put(RuleList { member, rules }))
}

pub(crate) fn put_public(public: &mut PublicLists, list: PublicList)
    ensures { public.new ≡ with_public list public.old }
{
    match list {
        PublicList::Bogons(list) => public.bogons = list,
        PublicList::BogonAs(list) => public.bogon_as = list,
        PublicList::Transit(list) => public.transit = list,
        PublicList::Roas(list) => public.roas = list,
    }
}
