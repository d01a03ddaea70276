//! The difference of two sets, written as PDUs.
ghost use Rattle.std.specs.Prelude.{◌≡◌, ◌≤◌, ◌∷◌, [], map, if◌then◌else◌, OnOk, OnErr};
ghost use Rattle.std.specs.declared.cmp.Ordering.TheVariants.{Less};
ghost use Rattle.ixp_num.specs.declared.roa.Roa.{Roa};
ghost use Rattle.ixp_num_tables.specs.Tables.{Ascends, order};
ghost use Rattle.ixp_num_sorted.specs.Keys.{roa_key};
ghost use Rattle.ixp_io.specs.Faults.{Rose};
ghost use Rattle.ixp_io.specs.Told.{Takes};
ghost use Rattle.ixp_rtr.specs.Batches.{gathered};
ghost use Rattle.ixp_rtr.specs.Pdus.{pdus_bytes};
ghost use Rattle.ixp_rtr.specs.Changes as spec;
ghost use Rattle.ixp_rtr.specs.declared.pdu.Pdu.TheVariants.{Prefix};

use crate::batch::Batch;
use crate::pdu::{Pdu, write_pdu};
use ixp_io::{Failed, Sink};
use ixp_num::Roa;
use std::cmp::Ordering;

// Whether a ROA is in a sorted set, and what the set has above that ROA.
fn pass<'a>(set: &'a [Roa], roa: &Roa) -> (bool, &'a [Roa])
    requires { Ascends roa_key set.now }
    ensures among { result.0 ≡ spec.is_among set.now roa.now }
    ensures ascends { Ascends roa_key result.1.now }
    ensures rest { (r : Roa) → order (roa_key roa.now) (roa_key r) ≡ Less
        → spec.is_among set.now r ≡ spec.is_among result.1.now r }
{
    let mut left = set;
    'rows: while let Some((first, rest)) = left.split_first() {
        match first.cmp(roa) {
            Ordering::Less => left = rest,
            Ordering::Equal => return (true, rest),
            Ordering::Greater => return (false, left),
        }
    }
    (false, left)
}

// Writes a Prefix PDU for a ROA if it is wanted.
fn write_if<L: Sink>(
    link: &mut L,
    batch: &mut Batch,
    announces: bool,
    roa: &Roa,
    wanted: bool,
) -> Result<(), Failed>
    ensures ok { OnOk result (Takes (gathered (L.written link.old) batch.old)
        (gathered (L.written link.new) batch.new)
        (pdus_bytes (map (Prefix announces) (if wanted then roa.now ∷ [] else [])))) }
    ensures counts { L.write_faults link.old ≤ L.write_faults link.new }
    ensures cause { OnErr result (Rose (L.write_faults link.old) (L.write_faults link.new)) }
    ensures left { L.left link.new ≡ L.left link.old }
    ensures read_faults { L.read_faults link.new ≡ L.read_faults link.old }
{
    if wanted {
        write_pdu(
            link,
            batch,
            &Pdu::Prefix {
                announces,
                roa: *roa,
            },
        )
    } else {
        Ok(())
    }
}

// Writes a Prefix PDU for each ROA of `set` that isn't in `than`. Each list is walked once.
fn write_others<L: Sink>(
    link: &mut L,
    batch: &mut Batch,
    announces: bool,
    set: &[Roa],
    than: &[Roa],
) -> Result<(), Failed>
    requires set { Ascends roa_key set.now }
    requires than { Ascends roa_key than.now }
    ensures ok { OnOk result (Takes (gathered (L.written link.old) batch.old)
        (gathered (L.written link.new) batch.new)
        (pdus_bytes (map (Prefix announces) (spec.others set.now than.now)))) }
    ensures counts { L.write_faults link.old ≤ L.write_faults link.new }
    ensures cause { OnErr result (Rose (L.write_faults link.old) (L.write_faults link.new)) }
    ensures left { L.left link.new ≡ L.left link.old }
    ensures read_faults { L.read_faults link.new ≡ L.read_faults link.old }
{
    let mut left = than;
    for roa in set {
        let (among, rest) = pass(left, roa);
        left = rest;
        write_if(link, batch, announces, roa, !among)?;
    }
    Ok(())
}

/// Writes the withdrawals and announcements that lead from one set to another. It does not allocate.
pub(crate) fn write_changes<L: Sink>(
    link: &mut L,
    batch: &mut Batch,
    from: &[Roa],
    to: &[Roa],
) -> Result<(), Failed>
    requires from { Ascends roa_key from.now }
    requires to { Ascends roa_key to.now }
    ensures ok { OnOk result (Takes (gathered (L.written link.old) batch.old)
        (gathered (L.written link.new) batch.new) (pdus_bytes (spec.changes from.now to.now))) }
    ensures counts { L.write_faults link.old ≤ L.write_faults link.new }
    ensures cause { OnErr result (Rose (L.write_faults link.old) (L.write_faults link.new)) }
    ensures left { L.left link.new ≡ L.left link.old }
    ensures read_faults { L.read_faults link.new ≡ L.read_faults link.old }
{
    write_others(link, batch, false, from, to)?;
    write_others(link, batch, true, to, from)
}

/// Writes an announcement of each ROA of a set. It does not allocate.
pub(crate) fn write_all_of<L: Sink>(
    link: &mut L,
    batch: &mut Batch,
    set: &[Roa],
) -> Result<(), Failed>
    ensures ok { OnOk result (Takes (gathered (L.written link.old) batch.old)
        (gathered (L.written link.new) batch.new) (pdus_bytes (map spec.announcement set.now))) }
    ensures counts { L.write_faults link.old ≤ L.write_faults link.new }
    ensures cause { OnErr result (Rose (L.write_faults link.old) (L.write_faults link.new)) }
    ensures left { L.left link.new ≡ L.left link.old }
    ensures read_faults { L.read_faults link.new ≡ L.read_faults link.old }
{
    for roa in set {
        write_pdu(
            link,
            batch,
            &Pdu::Prefix {
                announces: true,
                roa: *roa,
            },
        )?;
    }
    Ok(())
}
