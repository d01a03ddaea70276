//! The program `ixpm`: it makes the objects of the outside over the system, and runs the command that its
//! words are.
#![tactic(auto)]

use ixp_cli::run;
use ixp_io::{FreeGate, ReadSource, WriteSink};
use ixp_io_net::{SystemClock, TcpDoor};
use ixp_keeper_sql::FileKeeper;
use std::process::ExitCode;
use std::sync::Wait;
use std::thread::Threads;
use std::{env, io};

const HELP: &str = "ixpm: the registry of an internet exchange, and its route servers' configuration

  ixpm check       reads the dump of a registry on standard input, and writes ok and how many rows it has
  ixpm eval        reads a filter text, a line %%, ROAs and a route on standard input, and writes what becomes of the
                   route by that text
  ixpm generate R  reads the dump of a registry on standard input, and writes the configuration of the route server with
                   the handle R
  ixpm fate        reads the dump of a registry on standard input, and after it a line route R INTERFACE ROUTE, and writes
                   the configuration of the route server with the handle R, and the fate of the route that the interface's
                   session brings
  ixpm ixf         reads the dump of a registry on standard input, and writes the exchange's member export (IX-F Member
                   Export 1.0) at the present second
  ixpm expand S F L
                   reads whois data on standard input (objects route, route6 and as-set), and writes of the set S and all sets
                   that its members lead to: with L = sets each set and the place of a set that names it; with origins their AS
                   numbers; with prefixes the prefixes of family F, 4 or 6, of the routes that these originate
  ixpm restore     reads the dump of a registry on standard input, and puts it into the store, the file ixpm.db of the
                   current folder, which has to be empty
  ixpm dump        writes the dump of the registry in the store
  ixpm upgrade     makes a store of the first version one of today's, and writes how many route servers it has
  ixpm session     answers the HTTP requests on standard input, over the registry in the store
  ixpm serve P W N serves N HTTP connections on port P of 127.0.0.1, by W workers, 1 to 62, over the registry in the store;
                   then it writes how many it served
  ixpm serve P W N rtr Q M
                   the same, and gives the registry's ROAs to M RTR connections of routers on port Q, 16 at a time
                   (RFC 8210); then it writes in a second line how many it served
  ixpm demo N      writes how many members, sessions and patterns of prefix sets the demo exchange with N members has,
                   from 1 to 4000, and how many parts of its text are regenerated after edits
  ixpm --help      writes this
  ixpm --version   writes the version

Status: 0 done, 1 usage, 2 bad input, 3 read fault, 4 write fault, 5 keeper fault, 6 damaged store, 7 door fault, 8 out
of memory, 9 unknown router, 10 old store, 11 store not empty. A line on standard error says why.
";

/// The file of the store, in the current folder. It is opened by the commands that use it.
const STORE: &str = "ixpm.db";

const VERSION: &str = "ixpm 0.1.0\n";

/// The words after the program's name.
fn words_of(rt: &HostRuntime) -> io::Result<Vec<String>> {
    let mut words = Vec::new(rt.alloc());
    for word in env::args(rt)?.skip(1) {
        words.push(word)?;
    }
    Ok(words)
}

/// Writes a text that the program has of its own.
fn show(rt: &HostRuntime, text: &str) -> u8 {
    match rt.print(text) {
        Ok(()) => 0,
        Err(_) => {
            let _ = rt.eprint("ixpm: write fault\n");
            4
        }
    }
}

/// Reports that memory ran out before a command began, and gives the status.
fn short(rt: &HostRuntime) -> u8 {
    let _ = rt.eprint("ixpm: no memory\n");
    8
}

/// Runs a command over the standard streams. `wait` is the same runtime: code outside `main` may wait by it.
fn command<R: Threads + Wait + Sync>(rt: &HostRuntime, wait: &R, words: &[&str]) -> u8 {
    let alloc = rt.alloc();
    let mut input = ReadSource::new(rt.stdin());
    let mut output = WriteSink::new(rt.stdout());
    let mut errors = WriteSink::new(rt.stderr());
    let Ok(mut keeper) = FileKeeper::new(rt, STORE) else {
        return short(rt);
    };
    let mut clock = SystemClock::new(rt);
    let mut door = TcpDoor::new(rt);
    let status = run(
        wait,
        alloc,
        words,
        &mut input,
        &mut output,
        &mut errors,
        &mut keeper,
        &mut clock,
        &mut door,
        &FreeGate,
    );
    keeper.close();
    status
}

/// What the words ask for: one of the program's own texts, or a command.
fn answer<R: Threads + Wait + Sync>(rt: &HostRuntime, wait: &R, words: &[&str]) -> u8 {
    match words {
        ["--help"] => show(rt, HELP),
        ["--version"] => show(rt, VERSION),
        _ => command(rt, wait, words),
    }
}

fn status_of<R: Threads + Wait + Sync>(rt: &HostRuntime, wait: &R) -> io::Result<u8> {
    let words = words_of(rt)?;
    let mut texts = Vec::new(rt.alloc());
    for word in &words {
        texts.push(word.as_str())?;
    }
    Ok(answer(rt, wait, texts.as_slice()))
}

fn main(rt: HostRuntime) -> ExitCode {
    match status_of(&rt, &rt) {
        Ok(status) => ExitCode::from(status),
        Err(e) if e.kind() == io::ErrorKind::OutOfMemory => ExitCode::from(short(&rt)),
        // A word that is no text is a word of no command.
        Err(_) => ExitCode::from(command(&rt, &rt, &[])),
    }
}
