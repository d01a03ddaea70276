//! Requests, and the state that they change.
ghost use Rattle.std.specs.Prelude.{◌≡◌, ◌<◌, ◌^◌, IsTrue};
ghost use Rattle.ixp_machine_edits.specs.Lists.{has_few_rules};
ghost use Rattle.ixp_machine_steps.specs.Requests.{has_family};

use crate::kept::KeptOwner;
use ixp_machine_edits::Edit;
use ixp_num::Items;
use ixp_num_tables::Table;
use ixp_registry::Registry;

/// A request to change something. Its number is its owner's choice; with the same number, kind and subject it
/// is the same request.
#[derive(Debug)]
pub struct Entry {
    /// The secret of an API key.
    pub secret: Items<u8>,
    /// 1 to 9,999,999,999,999,999.
    pub number: u64,
    pub edit: Edit,
    pub ghost counted: { 0 < number },
    pub ghost small: { number < 10 ^ 16 },
    /// The prefixes of a list are of its family.
    pub ghost family: { IsTrue (has_family edit) },
    pub ghost rules: { IsTrue (has_few_rules edit) },
}

// It is written out, so that crates above don't prove again how each part is dropped.
impl Drop for Entry {
    fn drop(self) {
        let Entry {
            secret: _,
            number: _,
            edit: _,
        } = self;
    }
}

impl Entry {
    /// The edit alone.
    pub fn into_edit(self) -> Edit
        ensures { result ≡ self.edit }
    {
        let Entry {
            secret: _,
            number: _,
            edit,
        } = self;
        edit
    }
}

/// The registry, what is kept of requests, and how many were accepted.
pub struct State {
    pub registry: Registry,
    pub kept: Table<KeptOwner>,
    pub accepted: u64,
    /// The rows of prefix lists that all sessions read together.
    pub weight: u64,
    /// The prefixes of all members' lists together.
    pub prefixes: u64,
}

// It is written out, so that crates above don't prove again how each part is dropped.
impl Drop for State {
    fn drop(self) {
        let State {
            registry: _,
            kept: _,
            accepted: _,
            weight: _,
            prefixes: _,
        } = self;
    }
}
