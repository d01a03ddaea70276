//! What is found in a text.
ghost use Rattle.std.specs.Prelude.{◌≡◌, ◌++◌, OnOk};

use crate::objects::{Claim, SetObject};
use ixp_num::{Asn, Items, Prefix};
use std::alloc::{AllocError, Global};

/// Routes, sets, who claims to be a member, and the lines at which something is passed by.
#[derive(Debug, Drop)]
pub(crate) struct Gleaned {
    pub routes: Items<(Prefix, Asn)>,
    pub sets: Vec<SetObject>,
    pub claims: Items<Claim>,
    pub passed: Items<usize>,
}

/// Adds lines.
fn put_lines(passed: &mut Items<usize>, lines: &[usize]) -> Result<(), AllocError>
    ensures { OnOk result (passed.new ≡ passed.old ++ lines.now) }
{
    let mut left = lines;
    'lines: while let Some((line, others)) = left.split_first() {
        passed.push(*line)?;
        left = others;
    }
    Ok(())
}

impl Gleaned {
    ghost use Rattle.std.specs.Prelude.{◌≡◌, ◌++◌, ◌∷◌, [], Result, Ok, Err, Some, OnOk};
    ghost use Rattle.ixp_rpsl_sources.specs.Said.{joined, nothing, passed_at, route_said};
    ghost use Rattle.ixp_rpsl_sources.specs.Told.{said_in};

    /// Nothing.
    pub(crate) fn new(alloc: Global) -> Gleaned
        ensures { said_in result ≡ nothing }
    {
        Gleaned {
            routes: Items::new(alloc),
            sets: Vec::new(alloc),
            claims: Items::new(alloc),
            passed: Items::new(alloc),
        }
    }

    /// Notes that something is passed by at a line.
    pub(crate) fn pass(&mut self, line: usize) -> Result<(), AllocError>
        ensures { OnOk result (said_in self.new ≡ joined (said_in self.old) (passed_at line)) }
    {
        self.passed.push(line)
    }

    /// Takes a route, or notes that the object that begins at a line is passed by.
    pub(crate) fn put_route(
        &mut self,
        first: usize,
        route: Result<(Prefix, Asn), usize>,
    ) -> Result<(), AllocError>
        ensures { OnOk result (said_in self.new ≡ joined (said_in self.old) (route_said first route)) }
    {
        match route {
            Ok(route) => self.routes.push(route),
            Err(_) => self.pass(first),
        }
    }

    /// Takes who claims to be a member.
    #[tactic(auto, using(crate::proofs::Joining::join_claim))]
    pub(crate) fn put_claim(&mut self, claim: Claim) -> Result<(), AllocError>
        ensures { OnOk result (said_in self.new ≡ joined (said_in self.old)
            (record { routes = []; sets = []; claims = claim ∷ []; passed = [] })) }
    {
        self.claims.push(claim)
    }

    /// Takes a set, its claim to be a member, and the lines of members that are none.
    #[tactic(auto, using(crate::proofs::Joining::join_set))]
    pub(crate) fn put_set(
        &mut self,
        set: SetObject,
        claim: Claim,
        strangers: &[usize],
    ) -> Result<(), AllocError>
        ensures { OnOk result (said_in self.new ≡ joined (said_in self.old)
            (record { routes = []; sets = set ∷ []; claims = claim ∷ []; passed = strangers.now })) }
    {
        self.sets.push(set)?;
        self.claims.push(claim)?;
        put_lines(&mut self.passed, strangers)?;
        Ok(())
    }
}
