//! What is found in a text.
use crate::attributes::earlier;
use crate::fault::ObjectFault;
use crate::objects::SetRow;
use ixp_num::{Asn, Items, Prefix};
use std::alloc::{AllocError, Global};

/// Routes and sets, and the least line that isn't of its form.
#[derive(Debug, Drop)]
pub(crate) struct Found {
    pub routes: Items<(Prefix, Asn)>,
    pub sets: Items<SetRow>,
    pub fault: Option<usize>,
}

impl Found {
    ghost use Rattle.std.specs.Prelude.{◌≡◌, None, Some, Result, Ok, ℕ, OnOk};
    ghost use Rattle.ixp_rpsl.specs.Objects.{at_fault, joined, found_route, found_set};
    ghost use Rattle.ixp_rpsl.specs.Told.{Tells};
    ghost use Rattle.ixp_rpsl.specs.declared.objects.SetRow.{SetRow};

    /// Nothing.
    pub(crate) fn new(alloc: Global) -> Found
        ensures { result ≡ at_fault None }
    {
        Found {
            routes: Items::new(alloc),
            sets: Items::new(alloc),
            fault: None,
        }
    }

    /// Notes a line that isn't of its form, if there is one.
    #[tactic(auto, using(crate::proofs::Joining::join_fault))]
    pub(crate) fn note(&mut self, line: Option<usize>)
        ensures { self.new ≡ joined self.old (at_fault line) }
    {
        self.fault = earlier(self.fault, line);
    }

    /// Takes a route, or the line that isn't of its form.
    #[tactic(auto, using(crate::proofs::Joining::join_route))]
    pub(crate) fn put_route(
        &mut self,
        route: Result<(Prefix, Asn), usize>,
    ) -> Result<(), AllocError>
        ensures { OnOk result (self.new ≡ joined self.old (found_route route)) }
    {
        match route {
            Ok(route) => self.routes.push(route)?,
            Err(line) => self.note(Some(line)),
        }
        Ok(())
    }

    /// Takes a set, or the line that isn't of its form.
    #[tactic(auto, using(crate::proofs::Joining::join_set))]
    pub(crate) fn put_set(&mut self, set: Result<SetRow, ObjectFault>) -> Result<(), AllocError>
        ensures { OnOk result
            ((said : Result SetRow ℕ) → Tells said set → self.new ≡ joined self.old (found_set said)) }
    {
        match set {
            Ok(set) => self.sets.push(set)?,
            Err(ObjectFault::Line(line)) => self.note(Some(line)),
            Err(ObjectFault::NoMemory) => return Err(AllocError),
        }
        Ok(())
    }
}
