//! The command `serve`: it answers the HTTP requests of a door's links.
ghost use Rattle.std.specs.Prelude.{◌≡◌, ◌≤◌, is_some, OnOk, OnErr};
ghost use Rattle.ixp_io.specs.Faults.{Rose};
ghost use Rattle.ixp_io.specs.Told.{Takes, TakesPart};
ghost use Rattle.ixp_cli.specs.Waits.{IsServed, ServeRuns, routers_text, served_lines};

use ixp_cli_plain::{End, RtrPort, unloaded, write_counted};
use ixp_desk_serve::{RtrDoor, ServerEnd, serve_door};
use ixp_io::{Clock, Door, Failed, Gate, Keeper, Sink};
use std::alloc::Global;
use std::sync::Wait;
use std::thread::Threads;

/// Writes how many links of routers were served, where there was a door for them.
#[tactic(auto, using(crate::proofs::Lines::lines))]
fn write_routers<K: Sink>(output: &mut K, routers: Option<u64>) -> Result<(), Failed>
    ensures ok { OnOk result (Takes (K.written output.old) (K.written output.new) (routers_text routers)) }
    ensures err { OnErr result
        (TakesPart (K.written output.old) (K.written output.new) (routers_text routers)) }
    ensures counts { K.write_faults output.old ≤ K.write_faults output.new }
    ensures cause { OnErr result (Rose (K.write_faults output.old) (K.write_faults output.new)) }
{
    match routers {
        Some(links) => write_counted(output, b"rtr ", links),
        None => Ok(()),
    }
}

/// Writes how many links were served, and how many of routers.
#[tactic(auto, using(crate::proofs::Lines::lines))]
fn write_served<K: Sink>(output: &mut K, links: u64, routers: Option<u64>) -> Result<(), Failed>
    ensures ok { OnOk result
        (Takes (K.written output.old) (K.written output.new) (served_lines links routers)) }
    ensures err { OnErr result
        (TakesPart (K.written output.old) (K.written output.new) (served_lines links routers)) }
    ensures cause { OnErr result (Rose (K.write_faults output.old) (K.write_faults output.new)) }
{
    write_counted(output, b"served ", links)?;
    write_routers(output, routers)?;
    Ok(())
}

/// The same, and how the run ends.
fn written<K: Sink>(output: &mut K, links: u64, routers: Option<u64>) -> End
    ensures { IsServed links routers
        (record { bytes = K.written output.old; faults = K.write_faults output.old })
        (record { bytes = K.written output.new; faults = K.write_faults output.new }) result }
{
    match write_served(output, links, routers) {
        Ok(()) => End::Done,
        Err(_) => End::WriteFault,
    }
}

/// The further door that the words ask for.
fn door_for(routers: Option<RtrPort>) -> Option<RtrDoor>
    ensures { is_some result ≡ is_some routers }
{
    match routers {
        Some(RtrPort { port, links }) => Some(RtrDoor { port, links }),
        None => None,
    }
}

/// Loads the store's state, serves so many links of the door at the port by so many workers, and those of
/// routers at another port, and writes how many were served.
pub(crate) fn run_server<
    R: Threads + Wait + Sync,
    K: Sink,
    P: Keeper + Send,
    C: Clock + Send,
    D: Door + Drop + Send,
    G: Gate + Sync,
>(
    rt: &R,
    alloc: Global,
    output: &mut K,
    keeper: &mut P,
    clock: &mut C,
    door: &mut D,
    gate: &G,
    port: u16,
    workers: u32,
    links: u64,
    routers: Option<RtrPort>,
) -> End
where
    D::Link: Drop + Send,
    requires few { workers ≤ 62 }
    ensures { ServeRuns (is_some routers) links (record {
      bytes = K.written output.old;
      faults =
          K.write_faults output.old;
    })
        (record { bytes = K.written output.new; faults = K.write_faults output.new })
        (record { rows = P.table keeper.old; faults = P.faults keeper.old })
        (record { rows = P.table keeper.new; faults = P.faults keeper.new })
        (record { given = D.links door.old; faults = D.faults door.old })
        (record { given = D.links door.new; faults = D.faults door.new }) result }
{
    let further = door_for(routers);
    match serve_door(
        rt, alloc, keeper, clock, door, gate, port, workers, links, further,
    ) {
        ServerEnd::Unopened(fault) => unloaded(alloc, fault),
        ServerEnd::NoMemory => End::NoMemory,
        ServerEnd::DoorFault => End::DoorFault,
        ServerEnd::Served { routers } => written(output, links, routers),
    }
}
