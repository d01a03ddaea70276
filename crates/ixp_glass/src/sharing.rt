//! A glass for one caller, or for threads.
ghost use Rattle.ixp_glass.specs.Reports.{Reports};

use crate::glass::Glass;
use crate::kept::Reports;
use crate::roas::GlassRoas;
use ixp_explain::ExplainFault;
use ixp_lang::Route;
use ixp_num::{Items, Name};
use ixp_num_tables::Held;
use std::sync::{Mutex, Wait};

/// A glass, as its callers have it: one caller has it alone, or threads share it by a lock.
pub trait Glasses {
    ghost use Rattle.ixp_glass.specs.Reports.{Reports};

    /// The reports of these routes, as [`Glass::show`] gives them.
    fn reports<R: Wait>(
        &mut self,
        rt: &R,
        router: &Name,
        interface: u32,
        routes: &Held<Items<Route>>,
        text: &[u8],
        roas: &GlassRoas,
    ) -> Result<Reports, ExplainFault>
        ensures { Reports text.now roas.now interface routes.now result };
}

/// A glass that threads share.
#[derive(Drop)]
pub struct SharedReports {
    lock: Mutex<Glass>,
}

impl SharedReports {
    /// A lock round a glass. It does not allocate.
    pub fn new(glass: Glass) -> SharedReports {
        SharedReports {
            lock: Mutex::new(glass),
        }
    }
}

impl Glasses for Glass {
    fn reports<R: Wait>(
        &mut self,
        _rt: &R,
        router: &Name,
        interface: u32,
        routes: &Held<Items<Route>>,
        text: &[u8],
        roas: &GlassRoas,
    ) -> Result<Reports, ExplainFault> {
        self.show(router, interface, routes, text, roas)
    }
}

/// A call holds the lock for as long as it takes.
impl Glasses for &SharedReports {
    fn reports<R: Wait>(
        &mut self,
        rt: &R,
        router: &Name,
        interface: u32,
        routes: &Held<Items<Route>>,
        text: &[u8],
        roas: &GlassRoas,
    ) -> Result<Reports, ExplainFault> {
        self.lock
            .lock(rt)
            .show(router, interface, routes, text, roas)
    }
}
