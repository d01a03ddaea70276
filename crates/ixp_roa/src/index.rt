//! ROAs by prefix.
//!
//! In the order of their keys a ROA that covers another stands before it. Each one has a link to the nearest
//! one before it that covers it, and so from the last one that begins no later than a net the links lead up
//! to all that cover the net.
ghost use Rattle.std.specs.Prelude.{◌≡◌, ◌≤◌, ◌<◌, ℕ, true, length, IfOk};
ghost use Rattle.ixp_num.specs.declared.roa.Roa.{Roa};
ghost use Rattle.ixp_num.specs.Roas.{validity};
ghost use Rattle.ixp_roa.specs.Climbs.{AreInOrder, AreLinked, NoneFrom, StandsAt, is_upto};

use crate::ordered::OrderedRoas;
use crate::rows::is_match;
use ixp_num::{Asn, Prefix, Roa, Validity};
use std::alloc::{AllocError, Global};
use std::marker::Model;

/// ROAs in order, with a link for each: how many ROAs stand before it up to the nearest that
/// covers it, that one included; 0 where none does.
#[derive(Debug, Drop)]
pub(crate) struct Index {
    rows: OrderedRoas,
    links: Vec<usize>,
}

impl Model for Index {
    ghost use Rattle.std.specs.Prelude.{◌≡◌, List, length};
    ghost use Rattle.ixp_num.specs.declared.roa.Roa.{Roa};
    ghost use Rattle.ixp_roa.specs.Climbs.{AreLinked};

    ghost Value = { List Roa };

    ghost view = { λ i. i.rows };

    ghost invariant = { λ i. AreLinked i.rows i.links.items × (length i.links.items ≡ length i.rows) };
}

/// How many of the first `from` rows stand up to the last one that covers the net.
fn upto_cover(rows: &OrderedRoas, links: &[usize], net: &Prefix, from: usize) -> usize
    requires ascends { AreInOrder rows.now }
    requires linked { AreLinked rows.now links.now }
    requires within { from ≤ length links.now }
    requires upto { (j : ℕ) (s : Roa) → StandsAt rows.now j s → j < from → is_upto s.prefix net.now ≡ true }
    ensures before { result ≤ from }
    ensures none { NoneFrom rows.now net.now result from }
{
    let mut at = from;
    'up: while at > 0 {
        if rows.at(at - 1).prefix.covers(net) {
            return at;
        }
        at = links[at - 1];
    }
    0
}

/// The links of the rows.
fn links_of(alloc: Global, rows: &OrderedRoas) -> Result<Vec<usize>, AllocError>
    requires { AreInOrder rows.now }
    ensures { IfOk result (λ links. AreLinked rows.now links.items × (length links.items ≡ length rows.now)) }
{
    let mut links = Vec::with_capacity(alloc, rows.len())?;
    'rows: for i in 0..rows.len() {
        let row = rows.at(i);
        let link = upto_cover(rows, links.as_slice(), &row.prefix, links.len());
        links.push(link)?;
    }
    Ok(links)
}

/// What the rows say of a route to the net with the origin.
fn climb(rows: &OrderedRoas, links: &[usize], net: &Prefix, origin: Asn) -> Validity
    requires ascends { AreInOrder rows.now }
    requires linked { AreLinked rows.now links.now }
    requires all { length links.now ≡ length rows.now }
    ensures { result ≡ validity rows.now net.now origin.0 }
{
    let mut at = rows.place_of(net);
    let mut covered = false;
    'up: while at > 0 {
        let roa = rows.at(at - 1);
        if is_match(&roa, net, origin) {
            return Validity::Valid;
        }
        covered |= roa.prefix.covers(net);
        at = links[at - 1];
    }
    if covered {
        Validity::Invalid
    } else {
        Validity::Unknown
    }
}

impl Index {
    ghost use Rattle.std.specs.Prelude.{◌≡◌, ◌++◌, take, drop, IfOk, OnOk};
    ghost use Rattle.ixp_num.specs.Roas.{validity};

    /// The index of these ROAs.
    pub(crate) fn new(alloc: Global, rows: OrderedRoas) -> Result<Index, AllocError>
        ensures { IfOk result (λ index. index ≡ rows) }
    {
        rows.are_in_order();
        let links = links_of(alloc, &rows)?;
        Ok(Index { rows, links })
    }

    /// Adds the ROA at this place to others, where there is one.
    pub(crate) fn put_at(&self, place: usize, roas: &mut Vec<Roa>) -> Result<(), AllocError>
        ensures { OnOk result (roas.new.items ≡ roas.old.items ++ take 1 (drop place self.now)) }
    {
        self.rows.put_at(place, roas)
    }

    /// What the ROAs say of a route to the net with the origin. It does not allocate.
    pub(crate) fn validity(&self, net: &Prefix, origin: Asn) -> Validity
        ensures { result ≡ validity self.now net.now origin.0 }
    {
        self.rows.are_in_order();
        climb(&self.rows, self.links.as_slice(), net, origin)
    }
}
