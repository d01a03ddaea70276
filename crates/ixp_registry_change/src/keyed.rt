//! The keys of rows.
ghost use Rattle.std.specs.Prelude.{◌≡◌, IfOk};

use ixp_num::{Family, Name};
use ixp_num_tables::{Copied, Row};
use ixp_registry::{
    ApiKey, Contact, Interface, IrrList, Member, OriginList, Port, Router, RuleList, Switch, Vlan,
};
use std::alloc::{AllocError, Global};

/// A row that tells its key.
pub trait Keyed: Row {
    /// What names the row.
    fn key(&self, alloc: Global) -> Result<Self::Key, AllocError>
        ensures { IfOk result (λ k. Self.Row.named k ≡ Self.Row.key_of self.now) };
}

impl Keyed for Member {
    fn key(&self, _alloc: Global) -> Result<u32, AllocError> {
        Ok(self.number)
    }
}

impl Keyed for Contact {
    fn key(&self, _alloc: Global) -> Result<(u32, u32), AllocError> {
        Ok((self.member, self.place))
    }
}

impl Keyed for ApiKey {
    fn key(&self, _alloc: Global) -> Result<u32, AllocError> {
        Ok(self.number)
    }
}

impl Keyed for Switch {
    fn key(&self, _alloc: Global) -> Result<u32, AllocError> {
        Ok(self.number)
    }
}

impl Keyed for Port {
    fn key(&self, _alloc: Global) -> Result<u32, AllocError> {
        Ok(self.number)
    }
}

impl Keyed for Vlan {
    fn key(&self, _alloc: Global) -> Result<u32, AllocError> {
        Ok(self.number)
    }
}

impl Keyed for Interface {
    fn key(&self, _alloc: Global) -> Result<u32, AllocError> {
        Ok(self.number)
    }
}

impl Keyed for Router {
    fn key(&self, alloc: Global) -> Result<Name, AllocError> {
        self.handle.copied(alloc)
    }
}

impl Keyed for IrrList {
    fn key(&self, _alloc: Global) -> Result<(u32, Family), AllocError> {
        Ok((self.member, self.family))
    }
}

impl Keyed for OriginList {
    fn key(&self, _alloc: Global) -> Result<(u32, Family), AllocError> {
        Ok((self.member, self.family))
    }
}

impl Keyed for RuleList {
    fn key(&self, _alloc: Global) -> Result<u32, AllocError> {
        Ok(self.member)
    }
}
