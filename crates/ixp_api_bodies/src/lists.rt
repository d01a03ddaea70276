//! Bodies that are lists, one item a line, or CSV.
ghost use Rattle.std.specs.Prelude.{◌≡◌, IfOk, true};
ghost use Rattle.ixp_api_bodies.specs.Answers.{Gives};
ghost use Rattle.ixp_api_bodies.specs.Lawful.{is_lawful};
ghost use Rattle.ixp_api_bodies.specs.Lists as spec;

use ixp_api_json::{CallFault, Pointer};
use ixp_api_paths::{Args, ListName};
use ixp_irr::{
    ListFault, read_bogon_ranges, read_bogons, read_list, read_origins, read_transit_free,
};
use ixp_machine_edits::Edit;
use ixp_registry_change::PublicList;
use ixp_roa::{RoaFault, RoaTable};
use std::alloc::Global;

fn list_fault_of(fault: ListFault) -> CallFault
    ensures { result ≡ spec.list_fault_of fault }
{
    match fault {
        ListFault::Line { n } => CallFault::BadBody {
            pointer: Pointer::Line(n as u64),
        },
        ListFault::Family { n } => CallFault::BadBody {
            pointer: Pointer::Line(n as u64),
        },
        ListFault::TooLong { have } => CallFault::BadBody {
            pointer: Pointer::Lines(have as u64),
        },
        ListFault::NoMemory => CallFault::NoMemory,
    }
}

fn roa_fault_of(fault: RoaFault) -> CallFault
    ensures { result ≡ spec.roa_fault_of fault }
{
    match fault {
        RoaFault::Row { n } => CallFault::BadBody {
            pointer: Pointer::Line(n as u64),
        },
        RoaFault::MaxLength { n } => CallFault::BadBody {
            pointer: Pointer::Line(n as u64),
        },
        RoaFault::TooMany { have } => CallFault::BadBody {
            pointer: Pointer::Lines(have as u64),
        },
        RoaFault::NoMemory => CallFault::NoMemory,
    }
}

/// The member's list of prefixes is to be this.
pub(crate) fn put_irr(alloc: Global, args: &Args, body: &[u8]) -> Result<Edit, CallFault>
    ensures says { Gives (spec.PutIrr args.now body.now) result }
    ensures lawful { IfOk result (λ e. is_lawful e ≡ true) }
{
    match read_list(alloc, body, args.family) {
        Ok(prefixes) => Ok(Edit::PutIrr {
            member: args.row,
            family: args.family,
            prefixes,
        }),
        Err(fault) => Err(list_fault_of(fault)),
    }
}

/// The member's list of origins is to be this.
pub(crate) fn put_origins(alloc: Global, args: &Args, body: &[u8]) -> Result<Edit, CallFault>
    ensures says { Gives (spec.PutOrigins args.now body.now) result }
    ensures lawful { IfOk result (λ e. is_lawful e ≡ true) }
{
    match read_origins(alloc, body) {
        Ok(asns) => Ok(Edit::PutOrigins {
            member: args.row,
            family: args.family,
            asns,
        }),
        Err(fault) => Err(list_fault_of(fault)),
    }
}

fn put_bogons(alloc: Global, body: &[u8]) -> Result<Edit, CallFault>
    ensures says { Gives (spec.PutBogons body.now) result }
    ensures lawful { IfOk result (λ e. is_lawful e ≡ true) }
{
    match read_bogons(alloc, body) {
        Ok(items) => Ok(Edit::PutPublic {
            list: PublicList::Bogons(items),
        }),
        Err(fault) => Err(list_fault_of(fault)),
    }
}

fn put_bogon_as(alloc: Global, body: &[u8]) -> Result<Edit, CallFault>
    ensures says { Gives (spec.PutBogonAs body.now) result }
    ensures lawful { IfOk result (λ e. is_lawful e ≡ true) }
{
    match read_bogon_ranges(alloc, body) {
        Ok(items) => Ok(Edit::PutPublic {
            list: PublicList::BogonAs(items),
        }),
        Err(fault) => Err(list_fault_of(fault)),
    }
}

fn put_transit(alloc: Global, body: &[u8]) -> Result<Edit, CallFault>
    ensures says { Gives (spec.PutTransit body.now) result }
    ensures lawful { IfOk result (λ e. is_lawful e ≡ true) }
{
    match read_transit_free(alloc, body) {
        Ok(items) => Ok(Edit::PutPublic {
            list: PublicList::Transit(items),
        }),
        Err(fault) => Err(list_fault_of(fault)),
    }
}

fn put_roas(alloc: Global, body: &[u8]) -> Result<Edit, CallFault>
    ensures says { Gives (spec.PutRoas body.now) result }
    ensures lawful { IfOk result (λ e. is_lawful e ≡ true) }
{
    match RoaTable::from_csv(alloc, body) {
        Ok(items) => Ok(Edit::PutPublic {
            list: PublicList::Roas(items),
        }),
        Err(fault) => Err(roa_fault_of(fault)),
    }
}

/// The public list is to be this.
pub(crate) fn put_public(alloc: Global, args: &Args, body: &[u8]) -> Result<Edit, CallFault>
    ensures says { Gives (spec.PutPublic args.now body.now) result }
    ensures lawful { IfOk result (λ e. is_lawful e ≡ true) }
{
    match args.list {
        ListName::Bogons => put_bogons(alloc, body),
        ListName::BogonAs => put_bogon_as(alloc, body),
        ListName::Transit => put_transit(alloc, body),
        ListName::Roas => put_roas(alloc, body),
    }
}
