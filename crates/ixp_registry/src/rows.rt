//! Rows as a dump or a store has them.
use crate::{
    AddressRow, ApiKey, Contact, InterfaceRow, Member, MemberOrigin, MemberPrefix, MemberRule,
    Port, PublicLists, Router, Site, Switch, Vlan,
};
use ixp_num_tables::Table;

/// The rows of a registry, one kind after the other, in the order of their lines in a dump. Addresses and
/// list items are rows of their own here, so that one may name an interface or a member that isn't there.
#[derive(Drop)]
pub struct Rows {
    pub site: Site,
    pub members: Table<Member>,
    pub contacts: Table<Contact>,
    pub keys: Table<ApiKey>,
    pub switches: Table<Switch>,
    pub ports: Table<Port>,
    pub vlans: Table<Vlan>,
    pub interfaces: Table<InterfaceRow>,
    pub addresses: Table<AddressRow>,
    pub routers: Table<Router>,
    pub prefixes: Table<MemberPrefix>,
    pub origins: Table<MemberOrigin>,
    pub rules: Table<MemberRule>,
    pub public: PublicLists,
}
