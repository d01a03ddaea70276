//! What a cache answers.
ghost use Rattle.std.specs.Prelude.{◌≡◌, ◌≤◌, List, option_copied, IfOk, OnOk, OnErr};
ghost use Rattle.ixp_num.specs.declared.roa.Roa.{Roa};
ghost use Rattle.ixp_num_tables.specs.Tables.{Ascends};
ghost use Rattle.ixp_num_sorted.specs.Keys.{roa_key};
ghost use Rattle.ixp_io.specs.Faults.{Rose};
ghost use Rattle.ixp_io.specs.Told.{Takes};
ghost use Rattle.ixp_rtr.specs.Batches.{gathered};
ghost use Rattle.ixp_rtr.specs.Pdus.{pdus_bytes};
ghost use Rattle.ixp_rtr.specs.Caches.{set_of};
ghost use Rattle.ixp_rtr.specs.Changes.{changes};
ghost use Rattle.ixp_rtr.specs.Answers as spec;
ghost use Rattle.ixp_rtr.specs.Clients.{BringsPresent};

use crate::batch::Batch;
use crate::cache::RtrCache;
use crate::changes::{write_all_of, write_changes};
use crate::header::Header;
use crate::pdu::{Pdu, write_pdu};
use crate::query::{Query, QueryFault};
use ixp_io::{Failed, Sink};
use ixp_num::Roa;
use ixp_num_sorted::Sorted;
use ixp_num_tables::Held;
use std::alloc::AllocError;

/// What a cache answers to a query. It shares the cache's sets, so the cache may change before it is
/// written.
#[derive(Drop)]
pub enum Answer {
    /// To the end of the input: nothing.
    Nothing,
    /// To a Reset Query: the whole set.
    All {
        session: u16,
        serial: u32,
        set: Held<Sorted<Roa>>,
    },
    /// To a Serial Query: the difference of two sets.
    Changes {
        session: u16,
        serial: u32,
        from: Held<Sorted<Roa>>,
        to: Held<Sorted<Roa>>,
    },
    /// To a Serial Query whose serial has no set: Cache Reset.
    TooOld,
    /// To a Serial Query of another session: an Error Report, Corrupt Data.
    OtherSession {
        session: u16,
    },
}

/// Why an answer wasn't written whole.
#[derive(Clone, Copy, Debug, PartialEq, Eq, Drop)]
pub enum RtrWriteFault {
    /// A write failed; the link's count of write faults rose.
    WriteFault,
}

impl From<Failed> for RtrWriteFault {
    fn from(_: Failed) -> RtrWriteFault {
        RtrWriteFault::WriteFault
    }
}

// The set of a serial, if the cache has it.
fn set_at(cache: &RtrCache, serial: u32) -> Option<&Held<Sorted<Roa>>>
    ensures set { option_copied result ≡ set_of cache.now serial }
{
    let age = cache.serial.checked_sub(serial)?;
    if age == 0 {
        return Some(&cache.present);
    }
    cache.kept.as_slice().get(age as usize - 1)
}

// States that the set of a serial is in order.
fn old_ascends(cache: &RtrCache, serial: u32)
    ensures { (old : List Roa) → set_of cache.now serial ≡ Some old → Ascends roa_key old }
{
    match set_at(cache, serial) {
        Some(set) => {
            let _rows = set.get().as_slice();
        }
        None => (),
    }
}

// States that the answer brings the present set: sets are in order, so they have no doubles.
fn brings_present(cache: &RtrCache, query: &Query)
    ensures { BringsPresent cache.now query.now }
{
    let _rows = cache.present.get().as_slice();
    match query {
        Query::Reset => (),
        Query::Serial { serial, .. } => old_ascends(cache, *serial),
        Query::End => (),
    }
}

// Writes announcements of a whole set, between Cache Response and End of Data.
fn write_set<L: Sink>(
    link: &mut L,
    batch: &mut Batch,
    session: u16,
    serial: u32,
    set: &Sorted<Roa>,
) -> Result<(), Failed>
    ensures ok { OnOk result (Takes (gathered (L.written link.old) batch.old)
        (gathered (L.written link.new) batch.new) (pdus_bytes (spec.all_of session serial set.now))) }
    ensures counts { L.write_faults link.old ≤ L.write_faults link.new }
    ensures cause { OnErr result (Rose (L.write_faults link.old) (L.write_faults link.new)) }
    ensures left { L.left link.new ≡ L.left link.old }
    ensures read_faults { L.read_faults link.new ≡ L.read_faults link.old }
{
    write_pdu(link, batch, &Pdu::CacheResponse { session })?;
    write_all_of(link, batch, set.as_slice())?;
    write_pdu(link, batch, &Pdu::EndOfData { session, serial })
}

// Writes the difference of two sets, between Cache Response and End of Data.
fn write_from<L: Sink>(
    link: &mut L,
    batch: &mut Batch,
    session: u16,
    serial: u32,
    from: &Sorted<Roa>,
    to: &Sorted<Roa>,
) -> Result<(), Failed>
    ensures ok { OnOk result (Takes (gathered (L.written link.old) batch.old)
        (gathered (L.written link.new) batch.new)
        (pdus_bytes (spec.between session serial (changes from.now to.now)))) }
    ensures counts { L.write_faults link.old ≤ L.write_faults link.new }
    ensures cause { OnErr result (Rose (L.write_faults link.old) (L.write_faults link.new)) }
    ensures left { L.left link.new ≡ L.left link.old }
    ensures read_faults { L.read_faults link.new ≡ L.read_faults link.old }
{
    write_pdu(link, batch, &Pdu::CacheResponse { session })?;
    write_changes(link, batch, from.as_slice(), to.as_slice())?;
    write_pdu(link, batch, &Pdu::EndOfData { session, serial })
}

// Writes Cache Reset.
fn write_too_old<L: Sink>(link: &mut L, batch: &mut Batch) -> Result<(), Failed>
    ensures ok { OnOk result (Takes (gathered (L.written link.old) batch.old)
        (gathered (L.written link.new) batch.new) (pdus_bytes spec.too_old)) }
    ensures counts { L.write_faults link.old ≤ L.write_faults link.new }
    ensures cause { OnErr result (Rose (L.write_faults link.old) (L.write_faults link.new)) }
    ensures left { L.left link.new ≡ L.left link.old }
    ensures read_faults { L.read_faults link.new ≡ L.read_faults link.old }
{
    write_pdu(link, batch, &Pdu::CacheReset)
}

// Writes an Error Report.
fn write_code<L: Sink>(
    link: &mut L,
    batch: &mut Batch,
    code: u16,
    faulty: Header,
) -> Result<(), Failed>
    ensures ok { OnOk result (Takes (gathered (L.written link.old) batch.old)
        (gathered (L.written link.new) batch.new) (pdus_bytes (spec.report code faulty))) }
    ensures counts { L.write_faults link.old ≤ L.write_faults link.new }
    ensures cause { OnErr result (Rose (L.write_faults link.old) (L.write_faults link.new)) }
    ensures left { L.left link.new ≡ L.left link.old }
    ensures read_faults { L.read_faults link.new ≡ L.read_faults link.old }
{
    write_pdu(link, batch, &Pdu::ErrorReport { code, faulty })
}

// Writes the Error Report on a Serial Query of another session.
fn write_other_session<L: Sink>(link: &mut L, batch: &mut Batch, session: u16) -> Result<(), Failed>
    ensures ok { OnOk result (Takes (gathered (L.written link.old) batch.old)
        (gathered (L.written link.new) batch.new) (pdus_bytes (spec.other_session session))) }
    ensures counts { L.write_faults link.old ≤ L.write_faults link.new }
    ensures cause { OnErr result (Rose (L.write_faults link.old) (L.write_faults link.new)) }
    ensures left { L.left link.new ≡ L.left link.old }
    ensures read_faults { L.read_faults link.new ≡ L.read_faults link.old }
{
    let faulty = Header {
        version: 1,
        kind: 1,
        session,
        length: 12,
    };
    write_code(link, batch, 0, faulty)
}

// The answer to a Serial Query of the cache's session.
fn since(cache: &RtrCache, serial: u32) -> Result<Answer, AllocError>
    ensures { IfOk result (λ answer. spec.pdus_of answer ≡ spec.since cache.now (set_of cache.now serial)) }
{
    match set_at(cache, serial) {
        Some(set) => Ok(Answer::Changes {
            session: cache.session,
            serial: cache.serial,
            from: set.shared()?,
            to: cache.present.shared()?,
        }),
        None => Ok(Answer::TooOld),
    }
}

/// The answer to a query. No set is copied and nothing is allocated; the error comes only where a set has
/// as many owners as can be counted.
pub fn answer_of(cache: &RtrCache, query: &Query) -> Result<Answer, AllocError>
    ensures pdus { IfOk result (λ answer. spec.pdus_of answer ≡ spec.answer cache.now query.now) }
    ensures brings { BringsPresent cache.now query.now }
{
    brings_present(cache, query);
    match query {
        Query::Reset => Ok(Answer::All {
            session: cache.session,
            serial: cache.serial,
            set: cache.present.shared()?,
        }),
        Query::Serial { session, serial } => {
            if *session == cache.session {
                since(cache, *serial)
            } else {
                Ok(Answer::OtherSession { session: *session })
            }
        }
        Query::End => Ok(Answer::Nothing),
    }
}

// Writes the PDUs of an answer.
fn write_parts<L: Sink>(answer: &Answer, link: &mut L, batch: &mut Batch) -> Result<(), Failed>
    ensures ok { OnOk result (Takes (gathered (L.written link.old) batch.old)
        (gathered (L.written link.new) batch.new) (pdus_bytes (spec.pdus_of answer.now))) }
    ensures counts { L.write_faults link.old ≤ L.write_faults link.new }
    ensures cause { OnErr result (Rose (L.write_faults link.old) (L.write_faults link.new)) }
    ensures left { L.left link.new ≡ L.left link.old }
    ensures read_faults { L.read_faults link.new ≡ L.read_faults link.old }
{
    match answer {
        Answer::Nothing => Ok(()),
        Answer::All {
            session,
            serial,
            set,
        } => write_set(link, batch, *session, *serial, set.get()),
        Answer::Changes {
            session,
            serial,
            from,
            to,
        } => write_from(link, batch, *session, *serial, from.get(), to.get()),
        Answer::TooOld => write_too_old(link, batch),
        Answer::OtherSession { session } => write_other_session(link, batch, *session),
    }
}

/// Writes an answer. It does not allocate.
#[tactic(auto, using(crate::proofs::Batching::all_written))]
pub fn write<L: Sink>(answer: &Answer, link: &mut L) -> Result<(), RtrWriteFault>
    ensures ok { OnOk result (Takes (L.written link.old) (L.written link.new)
        (pdus_bytes (spec.pdus_of answer.now))) }
    ensures counts { L.write_faults link.old ≤ L.write_faults link.new }
    ensures cause { OnErr result (Rose (L.write_faults link.old) (L.write_faults link.new)) }
    ensures left { L.left link.new ≡ L.left link.old }
    ensures read_faults { L.read_faults link.new ≡ L.read_faults link.old }
{
    let mut batch = Batch::new();
    write_parts(answer, link, &mut batch)?;
    batch.flush(link)?;
    Ok(())
}

// Writes the answer to a Serial Query of the cache's session.
fn write_since<L: Sink>(
    cache: &RtrCache,
    serial: u32,
    link: &mut L,
    batch: &mut Batch,
) -> Result<(), Failed>
    ensures ok { OnOk result (Takes (gathered (L.written link.old) batch.old)
        (gathered (L.written link.new) batch.new)
        (pdus_bytes (spec.since cache.now (set_of cache.now serial)))) }
    ensures counts { L.write_faults link.old ≤ L.write_faults link.new }
    ensures cause { OnErr result (Rose (L.write_faults link.old) (L.write_faults link.new)) }
    ensures left { L.left link.new ≡ L.left link.old }
    ensures read_faults { L.read_faults link.new ≡ L.read_faults link.old }
{
    match set_at(cache, serial) {
        Some(set) => write_from(
            link,
            batch,
            cache.session,
            cache.serial,
            set.get(),
            cache.present.get(),
        ),
        None => write_too_old(link, batch),
    }
}

// Writes the answer to a query.
fn write_query<L: Sink>(
    cache: &RtrCache,
    query: &Query,
    link: &mut L,
    batch: &mut Batch,
) -> Result<(), Failed>
    ensures ok { OnOk result (Takes (gathered (L.written link.old) batch.old)
        (gathered (L.written link.new) batch.new) (pdus_bytes (spec.answer cache.now query.now))) }
    ensures counts { L.write_faults link.old ≤ L.write_faults link.new }
    ensures cause { OnErr result (Rose (L.write_faults link.old) (L.write_faults link.new)) }
    ensures left { L.left link.new ≡ L.left link.old }
    ensures read_faults { L.read_faults link.new ≡ L.read_faults link.old }
{
    match query {
        Query::Reset => write_set(
            link,
            batch,
            cache.session,
            cache.serial,
            cache.present.get(),
        ),
        Query::Serial { session, serial } => {
            if *session == cache.session {
                write_since(cache, *serial, link, batch)
            } else {
                write_other_session(link, batch, *session)
            }
        }
        Query::End => Ok(()),
    }
}

/// Writes the answer to a query, straight from the cache's sets. It does not allocate.
#[tactic(auto, using(crate::proofs::Batching::all_written))]
pub fn write_answer<L: Sink>(
    cache: &RtrCache,
    query: &Query,
    link: &mut L,
) -> Result<(), RtrWriteFault>
    ensures ok { OnOk result (Takes (L.written link.old) (L.written link.new)
        (pdus_bytes (spec.answer cache.now query.now))) }
    ensures counts { L.write_faults link.old ≤ L.write_faults link.new }
    ensures cause { OnErr result (Rose (L.write_faults link.old) (L.write_faults link.new)) }
    ensures left { L.left link.new ≡ L.left link.old }
    ensures read_faults { L.read_faults link.new ≡ L.read_faults link.old }
    ensures brings { BringsPresent cache.now query.now }
{
    brings_present(cache, query);
    let mut batch = Batch::new();
    write_query(cache, query, link, &mut batch)?;
    batch.flush(link)?;
    Ok(())
}

// Writes the Error Report on a fault, by its code.
fn write_report_on<L: Sink>(
    fault: &QueryFault,
    link: &mut L,
    batch: &mut Batch,
) -> Result<(), Failed>
    ensures ok { OnOk result (Takes (gathered (L.written link.old) batch.old)
        (gathered (L.written link.new) batch.new) (pdus_bytes (spec.reports fault.now))) }
    ensures counts { L.write_faults link.old ≤ L.write_faults link.new }
    ensures cause { OnErr result (Rose (L.write_faults link.old) (L.write_faults link.new)) }
    ensures left { L.left link.new ≡ L.left link.old }
    ensures read_faults { L.read_faults link.new ≡ L.read_faults link.old }
{
    match fault {
        QueryFault::Version { faulty, .. } => write_code(link, batch, 4, *faulty),
        QueryFault::Type { faulty, .. } => write_code(link, batch, 5, *faulty),
        QueryFault::Request { faulty, .. } => write_code(link, batch, 3, *faulty),
        QueryFault::Length { faulty, .. } => write_code(link, batch, 0, *faulty),
        QueryFault::Peer | QueryFault::Cut | QueryFault::ReadFault => Ok(()),
    }
}

/// Writes the Error Report on a fault (RFC 8210 section 12): code 4 for another version, 5 for a type that
/// doesn't exist, 3 for a PDU that is no query, 0 for a wrong length. On an Error Report, an input that was
/// cut off or a failed read nothing is written. It does not allocate.
#[tactic(auto, using(crate::proofs::Batching::all_written))]
pub fn write_fault<L: Sink>(fault: &QueryFault, link: &mut L) -> Result<(), RtrWriteFault>
    ensures ok { OnOk result (Takes (L.written link.old) (L.written link.new)
        (pdus_bytes (spec.reports fault.now))) }
    ensures counts { L.write_faults link.old ≤ L.write_faults link.new }
    ensures cause { OnErr result (Rose (L.write_faults link.old) (L.write_faults link.new)) }
    ensures left { L.left link.new ≡ L.left link.old }
    ensures read_faults { L.read_faults link.new ≡ L.read_faults link.old }
{
    let mut batch = Batch::new();
    write_report_on(fault, link, &mut batch)?;
    batch.flush(link)?;
    Ok(())
}
