//! A table of a million ROAs.
use ixp_num::{Asn, Family, Prefix, Roa, Validity};
use ixp_roa::RoaTable;
use std::alloc::{AllocError, Global};
use std::test::Fail;

/// The /24 with this number, from 1.0.0.0/24 upwards.
fn net_of(k: u32) -> Option<Prefix> {
    Prefix::new(Family::V4, (1 << 24) + u128::from(k) * 256, 24)
}

/// One ROA for each of so many nets: that of net `k` is of AS `k + 1`.
fn roas(alloc: Global, count: u32) -> Result<Vec<Roa>, AllocError> {
    let mut roas = Vec::new(alloc);
    for k in 0..count {
        if let Some(prefix) = net_of(k) {
            roas.push(Roa {
                prefix,
                max: 24,
                asn: Asn(k.saturating_add(1)),
            })?;
        }
    }
    Ok(roas)
}

/// Whether the net is Valid with its own AS, and Invalid with the next one.
fn is_as_told(table: &RoaTable, k: u32) -> bool {
    let Some(net) = net_of(k) else {
        return false;
    };
    let own = table.validity(&net, Asn(k.saturating_add(1)));
    let other = table.validity(&net, Asn(k.saturating_add(2)));
    own == Validity::Valid && other == Validity::Invalid
}

/// How many of every hundredth net up to the last one are as told.
fn right(table: &RoaTable, hundreds: u32) -> usize {
    (0..hundreds)
        .filter(|h| is_as_told(table, h.saturating_mul(100)))
        .count()
}

/// A search of the whole list for each answer doesn't end within a test's time.
#[test]
fn a_million_roas(rt: HostRuntime) -> Result<(), Fail> {
    let rows = roas(rt.alloc(), 1_000_000)?;
    let table = RoaTable::new(rt.alloc(), &rows)?;
    assert!(rt; right(&table, 10_000) == 10_000);
    let before = Prefix::new(Family::V4, 0, 24);
    assert!(rt; before.map(|net| table.validity(&net, Asn(1))) == Some(Validity::Unknown));
    Ok(())
}
