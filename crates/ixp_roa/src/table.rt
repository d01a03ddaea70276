//! A table of ROAs.
ghost use Rattle.std.specs.Prelude.{◌≡◌, IfOk};
ghost use Rattle.std.specs.List.{Contains};
ghost use Rattle.ixp_num.specs.declared.roa.Roa.{Roa};
ghost use Rattle.ixp_roa.specs.Climbs.{at_places};

use crate::csv_text::listed;
use crate::fault::RoaFault;
use crate::index::Index;
use crate::ordered::OrderedRoas;
use ixp_num::{Asn, Prefix, Roa, Validity};
use ixp_num_sorted::Sorted;
use std::alloc::{AllocError, Global};
use std::marker::Model;

/// The most distinct ROAs of a text.
const MOST: usize = 1_000_000;

/// A table of ROAs, as a filter's `roa_check` asks it. It holds an index by prefix, so that an answer takes a
/// search for the net and then a step for each ROA on the way up from it, and where in the index each ROA of
/// the list stands that it was made of.
#[derive(Debug)]
pub struct RoaTable {
    places: Vec<usize>,
    index: Index,
}

// It is written out, so that crates above don't prove again how each part is dropped.
impl Drop for RoaTable {
    fn drop(self) {
        let RoaTable {
            places: _,
            index: _,
        } = self;
    }
}

impl Model for RoaTable {
    ghost use Rattle.std.specs.Prelude.{◌≡◌, Bool, List};
    ghost use Rattle.std.specs.List.{list_any};
    ghost use Rattle.ixp_num.specs.declared.roa.Roa.{Roa};
    ghost use Rattle.ixp_roa.specs.Climbs.{at_places};

    ghost Value = { List Roa };

    ghost view = { λ t. at_places t.index t.places.items };

    // a test that some ROA passes has one answer for both
    ghost invariant = { λ t. (test : Roa → Bool)
        → list_any test (at_places t.index t.places.items) ≡ list_any test t.index };
}

/// Where the ROAs stand among those in order.
fn places_of(alloc: Global, ordered: &OrderedRoas, rows: &[Roa]) -> Result<Vec<usize>, AllocError>
    requires { (x : Roa) → Contains rows.now x → Contains ordered.now x }
    ensures { IfOk result (λ places. at_places ordered.now places.items ≡ rows.now) }
{
    let mut places = Vec::with_capacity(alloc, rows.len())?;
    for row in rows {
        places.push(ordered.place_of_roa(row))?;
    }
    Ok(places)
}

impl RoaTable {
    ghost use Rattle.std.specs.Prelude.{◌≡◌, IfOk};
    ghost use Rattle.ixp_num.specs.Roas.{validity};
    ghost use Rattle.ixp_roa.specs.CsvRoas.{CsvAnswer};

    /// The table of these ROAs. It fails only where memory runs out.
    pub fn new(alloc: Global, rows: &[Roa]) -> Result<RoaTable, AllocError>
        ensures { IfOk result (λ t. t ≡ rows.now) }
    {
        let ordered = OrderedRoas::from_roas(alloc, rows)?;
        let places = places_of(alloc, &ordered, rows)?;
        let index = Index::new(alloc, ordered)?;
        Ok(RoaTable { places, index })
    }

    /// The ROAs that the table was made of, in their order. It fails only where memory runs out.
    pub fn roas(&self, alloc: Global) -> Result<Vec<Roa>, AllocError>
        ensures { IfOk result (λ rows. rows.items ≡ self.now) }
    {
        let mut rows = Vec::with_capacity(alloc, self.places.len())?;
        for place in self.places.as_slice() {
            self.index.put_at(*place, &mut rows)?;
        }
        Ok(rows)
    }

    /// The ROAs of a CSV text, in ascending order and each once. Its columns are an AS number with or without
    /// `AS` before it, a prefix, and a max length or nothing for the prefix's; further columns don't matter,
    /// and a first row that begins with `ASN` is a header.
    pub fn from_csv(alloc: Global, t: &[u8]) -> Result<Sorted<Roa>, RoaFault>
        ensures { CsvAnswer t.now result }
    {
        listed(alloc, t, MOST)
    }

    /// What the ROAs say of a route to the prefix with the origin. It does not allocate.
    pub fn validity(&self, net: &Prefix, origin: Asn) -> Validity
        ensures { result ≡ validity self.now net.now origin.0 }
    {
        self.index.validity(net, origin)
    }
}
