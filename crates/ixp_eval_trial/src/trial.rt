//! What stands behind the divider.
ghost use Rattle.std.specs.Prelude.{◌≡◌, ◌<◌, ◌+◌, ◌^◌, length};
ghost use Rattle.ixp_eval_trial.specs.Lines.{lines};
ghost use Rattle.ixp_eval_trial.specs.Trials.{following, LinesAnswer, TrialAnswer};

use crate::cutting::{after_front, first_line};
use crate::divide::parts_of;
use crate::fault::{Misfit, RouteCode, TrialFault, Unread};
use crate::roa_line::roa_of;
use crate::route_line::route_of;
use ixp_lang::Route;
use ixp_num::{Items, Name, Roa};
use std::alloc::Global;

/// A route, the session that sends it, and the ROAs that filters ask.
#[derive(Debug, Drop)]
pub struct Trial {
    /// The ROAs in the order of their lines, each with its table's name.
    pub roas: Items<(Name, Roa)>,
    pub session: Name,
    pub route: Route,
    /// The number of the route's line in the input.
    pub line: u64,
    /// The number of the line behind it, if there is one.
    pub more: Option<u64>,
}

/// The number of the line behind this one, if there is one.
fn following(number: u64, behind: &[u8]) -> Option<u64>
    requires { number + length behind.now < 2 ^ 64 }
    ensures { result ≡ following number (lines behind.now) }
{
    match first_line(behind) {
        Some(_) => Some(number + 1),
        None => None,
    }
}

/// Reads the lines behind the divider, the first of which has this number.
fn lines_of(alloc: Global, behind: &[u8], first: u64) -> Result<Trial, TrialFault>
    requires { first + length behind.now < 2 ^ 64 }
    ensures { LinesAnswer (lines behind.now) first result }
{
    let mut roas = Items::new(alloc);
    let mut rest = behind;
    let mut number = first;
    'each: while let Some((line, after)) = first_line(rest) {
        let Some(fields) = after_front(b"roa ", line) else {
            return match route_of(alloc, line) {
                Ok((session, route)) => Ok(Trial {
                    roas,
                    session,
                    route,
                    line: number,
                    more: following(number, after),
                }),
                Err(Misfit::Bad(code)) => Err(TrialFault::BadRoute { line: number, code }),
                Err(Misfit::NoMemory) => Err(TrialFault::NoMemory),
            };
        };
        match roa_of(alloc, fields) {
            Ok(roa) => match roas.push(roa) {
                Ok(()) => {}
                Err(_) => return Err(TrialFault::NoMemory),
            },
            Err(Unread::Bad) => return Err(TrialFault::BadLine { line: number }),
            Err(Unread::NoMemory) => return Err(TrialFault::NoMemory),
        }
        rest = after;
        number += 1;
    }
    Err(TrialFault::BadRoute {
        line: number,
        code: RouteCode::Text,
    })
}

/// Reads what stands behind the divider of an input: the lines of ROAs, and the first other line, which is
/// the route's. A line behind that one is no fault; its number is told.
pub fn read_trial(alloc: Global, input: &[u8]) -> Result<Trial, TrialFault>
    ensures { TrialAnswer input.now result }
{
    match parts_of(input) {
        Ok(parts) => lines_of(alloc, parts.behind, parts.line),
        Err(line) => Err(TrialFault::BadLine { line }),
    }
}
