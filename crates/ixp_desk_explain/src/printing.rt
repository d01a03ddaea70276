//! The text that a looking glass shows.
ghost use Rattle.std.specs.Prelude.{◌≡◌, ◌++◌, IfOk, OnOk};
ghost use Rattle.ixp_desk_explain.specs.Glass.{report_text, reports_text};

use ixp_explain::{OwnReport, print_own};
use ixp_lang::{Route, print_route};
use ixp_num::Items;
use ixp_num_tables::put;
use std::alloc::{AllocError, Global};

/// Adds a line for the route, and the lines of its report.
fn put_report(out: &mut Vec<u8>, route: &Route, report: &OwnReport) -> Result<(), AllocError>
    ensures { OnOk result (out.new.items ≡ out.old.items ++ report_text route.now report.now) }
{
    put(out, b"route ")?;
    print_route(route, out)?;
    put(out, b"\n")?;
    print_own(report, out)?;
    Ok(())
}

/// The text of the routes with their reports.
pub(crate) fn reports_text(
    alloc: Global,
    routes: &[Route],
    reports: &[OwnReport],
) -> Result<Items<u8>, AllocError>
    ensures { IfOk result (λ text. text ≡ reports_text routes.now reports.now) }
{
    let mut text = Vec::new(alloc);
    let mut left = reports;
    'each: for route in routes {
        let Some((report, others)) = left.split_first() else {
            return Ok(Items::from_vec(text));
        };
        put_report(&mut text, route, report)?;
        left = others;
    }
    Ok(Items::from_vec(text))
}
