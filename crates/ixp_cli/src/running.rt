//! The top call: a command by its words.
ghost use Rattle.std.specs.Prelude.{◌≡◌, ◌↔◌, ◌≤◌, map, None, Some};
ghost use Rattle.ixp_cli_plain.specs.Runs.{IsSized, IsStatus, command_in};
ghost use Rattle.ixp_cli_plain.specs.declared.command.Command.TheVariants.{Wait as Waits};
ghost use Rattle.ixp_cli.specs.Waits.{AllRuns, WaitEnds};

use crate::server::run_server;
use crate::session::run_session;
use ixp_cli_plain::{End, Waiting, report, run_command};
use ixp_io::{Clock, Door, Gate, Keeper, Sink, Source};
use std::alloc::Global;
use std::sync::Wait;
use std::thread::Threads;

/// Runs a command that waits.
fn run_waiting<
    R: Threads + Wait + Sync,
    S: Source,
    K: Sink,
    P: Keeper + Send,
    C: Clock + Send,
    D: Door + Drop + Send,
    G: Gate + Sync,
>(
    rt: &R,
    alloc: Global,
    waiting: Waiting,
    input: &mut S,
    output: &mut K,
    keeper: &mut P,
    clock: &mut C,
    door: &mut D,
    gate: &G,
) -> End
where
    D::Link: Drop + Send,
    requires sized { IsSized (Some (Waits waiting)) }
    ensures { WaitEnds waiting (record { bytes = S.left input.old; faults = S.read_faults input.old })
        (record { bytes = S.left input.new; faults = S.read_faults input.new })
        (record { bytes = K.written output.old; faults = K.write_faults output.old })
        (record { bytes = K.written output.new; faults = K.write_faults output.new })
        (record { rows = P.table keeper.old; faults = P.faults keeper.old })
        (record { rows = P.table keeper.new; faults = P.faults keeper.new }) (C.given clock.old)
        (C.given clock.new) (record { given = D.links door.old; faults = D.faults door.old })
        (record { given = D.links door.new; faults = D.faults door.new }) result }
{
    match waiting {
        Waiting::Session => run_session(rt, alloc, input, output, keeper, clock),
        Waiting::Serve {
            port,
            workers,
            links,
            routers,
        } => run_server(
            rt, alloc, output, keeper, clock, door, gate, port, workers, links, routers,
        ),
    }
}

/// Runs the command that the words are: `session` over the input and the output as one link, `serve` over
/// the links of the door, and of a further one for routers, and all others as
/// [`run_plain`](crate::run_plain) does. With `session` the status is 0 where the link closed, 2 where its
/// input held what is no request or ended inside one, or the link had all the requests that it may have.
/// With `serve` it is 0 where as many links were served as the words say, and 7 where the door failed or
/// the further one couldn't be opened. While it serves, `gate` is passed by the thread that makes texts.
pub fn run<
    R: Threads + Wait + Sync,
    S: Source,
    K: Sink,
    E: Sink,
    P: Keeper + Send,
    C: Clock + Send,
    D: Door + Drop + Send,
    G: Gate + Sync,
>(
    rt: &R,
    alloc: Global,
    words: &[&str],
    input: &mut S,
    output: &mut K,
    errors: &mut E,
    keeper: &mut P,
    clock: &mut C,
    door: &mut D,
    gate: &G,
) -> u8
where
    D::Link: Drop + Send,
    ensures runs { AllRuns (command_in (map (λ w. w.now) words.now))
        (record {
          input = record { bytes = S.left input.old; faults = S.read_faults input.old };
          output = record { bytes = K.written output.old; faults = K.write_faults output.old };
          errors = record { bytes = E.written errors.old; faults = E.write_faults errors.old };
          store = record { rows = P.table keeper.old; faults = P.faults keeper.old };
          second = C.given clock.old;
        })
        (record {
          input = record { bytes = S.left input.new; faults = S.read_faults input.new };
          output = record { bytes = K.written output.new; faults = K.write_faults output.new };
          errors = record { bytes = E.written errors.new; faults = E.write_faults errors.new };
          store = record { rows = P.table keeper.new; faults = P.faults keeper.new };
          second = C.given clock.new;
        }) (record { given = D.links door.old; faults = D.faults door.old })
        (record { given = D.links door.new; faults = D.faults door.new }) result }

    // The words are no command exactly where the status is 1.
    ensures usage { (result ≡ 1) ↔ (command_in (map (λ w. w.now) words.now) ≡ None) }
    ensures statuses { IsStatus (Some result) }
{
    match run_command(alloc, words, input, output, errors, keeper, clock) {
        Ok(status) => status,
        Err(waiting) => {
            let end = run_waiting(rt, alloc, waiting, input, output, keeper, clock, door, gate);
            let status = end.status();
            report(errors, end);
            status
        }
    }
}
