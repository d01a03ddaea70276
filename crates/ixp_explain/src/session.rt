//! The session of an interface, and a route's walk from it, by a configuration that was read.
ghost use Rattle.std.specs.Prelude.{◌≡◌, IfOk, option_map, MatchResult};
ghost use Rattle.std.specs.Option.{option_copied};
ghost use Rattle.ixp_lang.specs.Trees.{ItemTree};
ghost use Rattle.ixp_lang.specs.Views.{config_view};
ghost use Rattle.ixp_lang.specs.Walks.{bgp_sessions, session_named};
ghost use Rattle.ixp_read.specs.Answers.{SpellsText};
ghost use Rattle.ixp_explain.specs.Answers.{Tells, IsUnread};
ghost use Rattle.ixp_explain.specs.Explained.{
  session_name,
  session_in,
  family_apart,
  fate_told,
  number_told,
  own_number,
};
ghost use Rattle.ixp_lang.specs.Texts.{reason_of};

use crate::report::ExplainFault;
use ixp_eval::{session_named, walk};
use ixp_lang::communities::REFUSED;
use ixp_lang::{Bgp, Config, Fate, Route, numbered};
use ixp_num::{Asn, Family, Name};
use ixp_num_tables::Held;
use ixp_read::{ReadFault, read_config};
use ixp_roa::RoaTable;
use std::alloc::{AllocError, Global};

/// The configuration that a text spells.
pub fn config_of(alloc: Global, text: &[u8]) -> Result<Config, ExplainFault>
    ensures { MatchResult result (λ c. SpellsText text.now (config_view c)) (IsUnread text.now) }
{
    match read_config(alloc, text) {
        Ok(config) => Ok(config),
        Err(ReadFault::NoMemory) => Err(ExplainFault::NoMemory),
        Err(fault) => Err(ExplainFault::Unread(fault)),
    }
}

/// The name of an interface's session.
pub fn name_of(alloc: Global, interface: u32) -> Result<Name, AllocError>
    ensures { IfOk result (λ name. name ≡ session_name interface) }
{
    numbered(alloc, b"b_", interface)
}

fn family_apart(session: Option<&Bgp>, route: &Route) -> Option<Family>
    ensures { result ≡ family_apart (option_copied session.entry) route.now }
{
    let session = session?;
    if session.family == route.net.family {
        None
    } else {
        Some(session.family)
    }
}

/// The fate of a route of the session's family.
#[tactic(auto, using(crate::proofs::Telling::telling))]
pub fn fate_of(
    alloc: Global,
    config: &Config,
    roas: &[(Name, Held<RoaTable>)],
    interface: u32,
    route: &Route,
) -> Result<Fate, ExplainFault>
    ensures { Tells result (fate_told (config_view config.now) roas.now interface route.now) }
{
    let name = name_of(alloc, interface)?;
    let session = session_named(config.items.as_slice(), &name);
    if let Some(family) = family_apart(session, route) {
        return Err(ExplainFault::Family { family });
    }
    Ok(walk(alloc, config, &name, route, roas)?)
}

/// The number of this end of an interface's session.
pub fn own_number(alloc: Global, config: &Config, interface: u32) -> Result<Option<Asn>, AllocError>
    ensures { IfOk result (λ own. own ≡ own_number (config_view config.now) interface) }
{
    let name = name_of(alloc, interface)?;
    match session_named(config.items.as_slice(), &name) {
        Some(session) => Ok(Some(session.own)),
        None => Ok(None),
    }
}

/// The third part of the first large community `(asn, 1101, n)`.
fn reason_of(asn: u32, triples: &[(u32, u32, u32)]) -> Option<u32>
    ensures { result ≡ reason_of asn triples.now }
{
    'each: for triple in triples {
        if triple.0 == asn && triple.1 == REFUSED {
            return Some(triple.2);
        }
    }
    None
}

/// The number that stands behind `stopped` in a fate's text.
pub fn number_told(own: Option<Asn>, table: &Option<Route>, passed: bool) -> Option<u32>
    ensures { result ≡ number_told own table.now passed }
{
    let Some(route) = table else {
        return None;
    };
    if passed {
        return None;
    }
    match own {
        Some(asn) => reason_of(asn.0, route.triples.as_slice()),
        None => None,
    }
}
