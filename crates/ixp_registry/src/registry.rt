//! The registry.
use crate::{
    ApiKey, Contact, Interface, IrrList, Member, OriginList, Port, PublicLists, Router, RuleList,
    Site, Switch, Vlan,
};
use ixp_num_tables::Table;

/// All that the exchange has on record. `specs/Valid.antt` says which registries are valid.
pub struct Registry {
    pub site: Site,
    pub members: Table<Member>,
    pub contacts: Table<Contact>,
    pub keys: Table<ApiKey>,
    pub switches: Table<Switch>,
    pub ports: Table<Port>,
    pub vlans: Table<Vlan>,
    pub interfaces: Table<Interface>,
    pub routers: Table<Router>,
    pub irr: Table<IrrList>,
    pub origins: Table<OriginList>,
    pub rules: Table<RuleList>,
    pub public: PublicLists,
}

// It is written out, so that crates above don't prove again how each part is dropped.
impl Drop for Registry {
    fn drop(self) {
        let Registry {
            site: _,
            members: _,
            contacts: _,
            keys: _,
            switches: _,
            ports: _,
            vlans: _,
            interfaces: _,
            routers: _,
            irr: _,
            origins: _,
            rules: _,
            public: _,
        } = self;
    }
}
