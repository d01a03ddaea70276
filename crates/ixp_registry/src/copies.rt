//! Copies of rows and registries.
ghost use Rattle.std.specs.Prelude.{◌≡◌, IfOk};

use crate::{
    ApiKey, Contact, IfAddr, Interface, IrrList, Member, OriginList, Port, PublicLists, Registry,
    Router, RuleList, Site, Switch, Vlan,
};
use ixp_num_tables::Copied;
use std::alloc::{AllocError, Global};

impl Copied for Member {
    fn copied(&self, alloc: Global) -> Result<Member, AllocError> {
        Ok(Member {
            number: self.number,
            asn: self.asn,
            status: self.status,
            as_macro: self.as_macro.copied(alloc)?,
            name: self.name.copied(alloc)?,
        })
    }
}

impl Copied for Contact {
    fn copied(&self, alloc: Global) -> Result<Contact, AllocError> {
        Ok(Contact {
            member: self.member,
            place: self.place,
            role: self.role.copied(alloc)?,
            mail: self.mail.copied(alloc)?,
            name: self.name.copied(alloc)?,
        })
    }
}

impl Copied for ApiKey {
    fn copied(&self, alloc: Global) -> Result<ApiKey, AllocError> {
        Ok(ApiKey {
            number: self.number,
            owner: self.owner,
            secret: self.secret.copied(alloc)?,
        })
    }
}

impl Copied for Switch {
    fn copied(&self, alloc: Global) -> Result<Switch, AllocError> {
        Ok(Switch {
            number: self.number,
            name: self.name.copied(alloc)?,
        })
    }
}

impl Copied for Port {
    fn copied(&self, alloc: Global) -> Result<Port, AllocError> {
        Ok(Port {
            number: self.number,
            switch: self.switch,
            speed: self.speed,
            member: self.member,
            name: self.name.copied(alloc)?,
        })
    }
}

impl Copied for Vlan {
    fn copied(&self, alloc: Global) -> Result<Vlan, AllocError> {
        Ok(Vlan {
            number: self.number,
            tag: self.tag,
            v4: self.v4,
            v6: self.v6,
            name: self.name.copied(alloc)?,
        })
    }
}

impl Copied for IfAddr {
    fn copied(&self, alloc: Global) -> Result<IfAddr, AllocError> {
        Ok(IfAddr {
            addr: self.addr,
            max_prefix: self.max_prefix,
            rs: self.rs,
            irr: self.irr,
            more: self.more,
            secret: self.secret.copied(alloc)?,
        })
    }
}

fn copied_if_some(alloc: Global, address: &Option<IfAddr>) -> Result<Option<IfAddr>, AllocError>
    ensures { IfOk result (λ copy. copy ≡ address.now) }
{
    match address {
        Some(address) => Ok(Some(address.copied(alloc)?)),
        None => Ok(None),
    }
}

impl Copied for Interface {
    fn copied(&self, alloc: Global) -> Result<Interface, AllocError> {
        Ok(Interface {
            number: self.number,
            member: self.member,
            port: self.port,
            vlan: self.vlan,
            v4: copied_if_some(alloc, &self.v4)?,
            v6: copied_if_some(alloc, &self.v6)?,
        })
    }
}

impl Copied for Router {
    fn copied(&self, alloc: Global) -> Result<Router, AllocError> {
        Ok(Router {
            handle: self.handle.copied(alloc)?,
            vlan: self.vlan,
            family: self.family,
            addr: self.addr,
            asn: self.asn,
            id: self.id,
            low: self.low,
            high: self.high,
            rpki: self.rpki,
            blackhole: self.blackhole,
            max_comms: self.max_comms,
        })
    }
}

impl Copied for IrrList {
    fn copied(&self, alloc: Global) -> Result<IrrList, AllocError> {
        Ok(IrrList {
            member: self.member,
            family: self.family,
            prefixes: self.prefixes.copied(alloc)?,
        })
    }
}

impl Copied for OriginList {
    fn copied(&self, alloc: Global) -> Result<OriginList, AllocError> {
        Ok(OriginList {
            member: self.member,
            family: self.family,
            asns: self.asns.copied(alloc)?,
        })
    }
}

impl Copied for RuleList {
    fn copied(&self, alloc: Global) -> Result<RuleList, AllocError> {
        Ok(RuleList {
            member: self.member,
            rules: self.rules.copied(alloc)?,
        })
    }
}

impl Copied for Site {
    fn copied(&self, alloc: Global) -> Result<Site, AllocError> {
        Ok(Site {
            ixp_id: self.ixp_id,
            ixf_id: self.ixf_id,
            shortname: self.shortname.copied(alloc)?,
        })
    }
}

impl Copied for PublicLists {
    fn copied(&self, alloc: Global) -> Result<PublicLists, AllocError> {
        Ok(PublicLists {
            bogons: self.bogons.copied(alloc)?,
            bogon_as: self.bogon_as.copied(alloc)?,
            transit: self.transit.copied(alloc)?,
            roas: self.roas.copied(alloc)?,
        })
    }
}

impl Copied for Registry {
    fn copied(&self, alloc: Global) -> Result<Registry, AllocError> {
        Ok(Registry {
            site: self.site.copied(alloc)?,
            members: self.members.copied(alloc)?,
            contacts: self.contacts.copied(alloc)?,
            keys: self.keys.copied(alloc)?,
            switches: self.switches.copied(alloc)?,
            ports: self.ports.copied(alloc)?,
            vlans: self.vlans.copied(alloc)?,
            interfaces: self.interfaces.copied(alloc)?,
            routers: self.routers.copied(alloc)?,
            irr: self.irr.copied(alloc)?,
            origins: self.origins.copied(alloc)?,
            rules: self.rules.copied(alloc)?,
            public: self.public.copied(alloc)?,
        })
    }
}
