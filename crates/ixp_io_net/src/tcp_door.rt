//! A TCP listener as a door.
ghost use Rattle.std.specs.Prelude.{◌≡◌, ◌≤◌, None};

use crate::TcpLink;
use ixp_io::{Door, Failed};
use std::net::{Ipv4Addr, SocketAddr, SocketAddrV4, TcpListener};
use std::thread;
use std::time::Duration;

/// How often the next link is tried.
const TRIES: u32 = 600;

/// How many milliseconds pass between two tries.
const PAUSE_MILLIS: u64 = 100;

/// How many seconds a read waits for a silent peer.
const LINK_SECONDS: u64 = 60;

/// How many seconds a read waits for a silent peer on a link of a further door: a minute longer than the hour
/// after which a router asks again (RFC 8210 section 6).
const PATIENT_SECONDS: u64 = 3660;

/// The door of the machine itself, at 127.0.0.1. It doesn't tell how many links it gave. A read of its links
/// waits for a minute, and one of a further door's links for an hour and a minute.
///
/// A connection that its peer has given up already, or for which the system has no descriptor or memory left,
/// is no fault yet: the next one is tried for about a minute, in which each silent link meets its limit.
#[derive(Drop)]
pub struct TcpDoor {
    rt: HostRuntime,
    listener: Option<TcpListener>,
    read_seconds: u64,
    faults: u64,
}

// What listens at the port of 127.0.0.1, where nothing else has it.
fn listener_at(rt: &HostRuntime, port: u16) -> Option<TcpListener> {
    let at = SocketAddr::V4(SocketAddrV4::new(Ipv4Addr::LOCALHOST, port));
    TcpListener::bind(rt, at).ok()
}

impl TcpDoor {
    /// A door that doesn't listen yet.
    pub fn new(rt: &HostRuntime) -> TcpDoor
        ensures { ⟦<TcpDoor as Door>⟧.faults result ≡ 0 }
    {
        TcpDoor {
            rt: *rt,
            listener: None,
            read_seconds: LINK_SECONDS,
            faults: 0,
        }
    }

    // The next link, where one comes at this try.
    fn next(&self, listener: &TcpListener) -> Option<TcpLink> {
        let (stream, _) = listener.accept().ok()?;
        TcpLink::over(&self.rt, stream, self.read_seconds)
    }

    // The next link.
    fn try_next(&self) -> Option<TcpLink> {
        let listener = self.listener.as_ref()?;
        for _ in 0..TRIES {
            if let Some(link) = self.next(listener) {
                return Some(link);
            }
            thread::sleep(&self.rt, Duration::from_millis(PAUSE_MILLIS));
        }
        None
    }
}

impl Door for TcpDoor {
    type Link = TcpLink;

    ghost links = { λ _. None };

    ghost faults = { λ door. door.faults };

    fn listen(&mut self, port: u16) -> Result<(), Failed> {
        match listener_at(&self.rt, port) {
            Some(listener) => {
                self.listener = Some(listener);
                Ok(())
            }
            None => {
                self.faults = self.faults.saturating_add(1);
                Err(Failed)
            }
        }
    }

    fn accept(&mut self) -> Result<TcpLink, Failed> {
        match self.try_next() {
            Some(link) => Ok(link),
            None => {
                self.faults = self.faults.saturating_add(1);
                Err(Failed)
            }
        }
    }

    fn second(&mut self, port: u16) -> Result<TcpDoor, Failed> {
        match listener_at(&self.rt, port) {
            Some(listener) => Ok(TcpDoor {
                rt: self.rt,
                listener: Some(listener),
                read_seconds: PATIENT_SECONDS,
                faults: 0,
            }),
            None => {
                self.faults = self.faults.saturating_add(1);
                Err(Failed)
            }
        }
    }
}
