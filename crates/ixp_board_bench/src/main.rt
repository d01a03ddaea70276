//! Looks at a board beside its pen, for `bench/board` to time.
//!
//! Its words are how many readers look at once, how often each looks, how many bytes the view holds, 1 where
//! the seats lend the view or 0 where they give shares of it, and for how many microseconds the pen rests
//! after each turn. The pen makes turns for as long as they look, and the program writes how many on its
//! standard error.
#![tactic(auto)]

ghost use Rattle.std.specs.Prelude.{◌<◌};

mod board;

use crate::board::{Trial, Way, begun, looks_beside_turns};
use std::alloc::Global;
use std::marker::Brand;
use std::process::ExitCode;
use std::rt::Clock;
use std::sync::Wait;
use std::thread::Threads;
use std::time::Duration;
use std::{env, io};

/// The numbers behind the program's name; one that is none is 0.
fn numbers(rt: &HostRuntime) -> io::Result<Vec<u64>> {
    let mut numbers = Vec::new(rt.alloc());
    for word in env::args(rt)?.skip(1) {
        numbers.push(word.parse::<u64>().unwrap_or(0))?;
    }
    Ok(numbers)
}

/// The turns that the pen made while the readers looked; none where memory was wanted.
fn look<R: Threads + Wait + Clock + Sync>(
    rt: &R,
    alloc: Global,
    bytes: usize,
    trial: Trial,
) -> Option<u64>
    requires { 0 < trial.readers }
{
    match begun(alloc, bytes) {
        Ok(opened) => looks_beside_turns::<Brand, _>(rt, alloc, opened, trial),
        Err(_) => None,
    }
}

fn main(rt: HostRuntime) -> ExitCode {
    let Ok(numbers) = numbers(&rt) else {
        return ExitCode::from(1);
    };
    let [readers @ 1..=64, times, bytes, lent, pause] = numbers.as_slice() else {
        return ExitCode::from(1);
    };
    let trial = Trial {
        readers: *readers as u32,
        way: if *lent == 0 { Way::Shared } else { Way::Lent },
        times: *times,
        pause: Duration::from_micros(*pause),
    };
    let Some(made) = look(&rt, rt.alloc(), *bytes as usize, trial) else {
        return ExitCode::from(8);
    };
    let _ = eprintln!(rt; "{made} turns");
    match println!(rt; "{readers} readers looked {times} times") {
        Ok(()) => ExitCode::from(0),
        Err(_) => ExitCode::from(4),
    }
}
