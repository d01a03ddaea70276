//! Links over TCP, and the clock of the system.
use ixp_io::{Clock, Door, Failed, LAST_SECOND, Source, write_all};
use ixp_io_net::{SystemClock, TcpDoor, TcpLink};
use std::io::{Read, Write};
use std::net::{Ipv4Addr, Shutdown, SocketAddr, SocketAddrV4, TcpStream};
use std::test::Fail;
use std::time::Duration;
use std::{io, thread};

const PORTS: u16 = 100;

// A door at the first port that is free from this one on.
fn open(rt: &HostRuntime, first: u16) -> Option<(TcpDoor, u16)> {
    for add in 0..PORTS {
        let port = first.saturating_add(add);
        let mut door = TcpDoor::new(rt);
        if door.listen(port).is_ok() {
            return Some((door, port));
        }
    }
    None
}

/// How much more the client sends than the server reads.
const PIECES: u32 = 64;

// Sends all it has, and only then reads what it is answered.
fn ask(rt: &HostRuntime, port: u16) -> io::Result<String> {
    let at = SocketAddr::V4(SocketAddrV4::new(Ipv4Addr::LOCALHOST, port));
    let mut stream = TcpStream::connect(rt, at)?;
    for _ in 0..PIECES {
        stream.write_all([b'x'; 65536].as_slice())?;
    }
    stream.shutdown(Shutdown::Write)?;
    let mut reply = String::new(rt.alloc());
    stream.read_to_string(&mut reply)?;
    Ok(reply)
}

// Reads a little, answers, and ends the link.
fn refuse(link: &mut TcpLink) -> Result<(), Failed> {
    let mut start = [0; 10];
    link.read(&mut start)?;
    write_all(link, b"too long")
}

fn serve_one(door: &mut TcpDoor) -> Result<(), Failed> {
    let mut link = door.accept()?;
    refuse(&mut link)
}

#[test]
fn the_last_reply_is_read(rt: HostRuntime) -> Result<(), Fail> {
    let Some((mut door, port)) = open(&rt, 20_100) else {
        assert!(rt; false, "no port");
        return Ok(());
    };
    let (reply, done) = thread::join(&rt, || ask(&rt, port), || serve_one(&mut door));
    assert!(rt; done.is_ok());
    assert!(rt; reply?.as_str() == "too long");
    Ok(())
}

// A link of a client, whose reads wait for a silent peer for so many seconds.
fn link_to(rt: &HostRuntime, port: u16, seconds: u64) -> Option<TcpLink> {
    let at = SocketAddr::V4(SocketAddrV4::new(Ipv4Addr::LOCALHOST, port));
    let stream = TcpStream::connect(rt, at).ok()?;
    TcpLink::over(rt, stream, seconds)
}

// Takes a link, is silent for longer than one call of the system waits, and says something.
fn speak_late(rt: &HostRuntime, door: &mut TcpDoor) -> Result<(), Failed> {
    let mut link = door.accept()?;
    thread::sleep(rt, Duration::from_secs(7));
    write_all(&mut link, b"late")
}

// The first byte that comes.
fn first_byte(link: Option<TcpLink>) -> Option<u8> {
    let mut start = [0; 10];
    match link?.read(&mut start) {
        Ok(count) if count > 0 => Some(start[0]),
        _ => None,
    }
}

#[test]
fn a_peer_that_is_silent_for_too_long_is_a_fault(rt: HostRuntime) -> Result<(), Fail> {
    let Some((_door, port)) = open(&rt, 20_500) else {
        assert!(rt; false, "no port");
        return Ok(());
    };
    let link = link_to(&rt, port, 1);
    assert!(rt; link.is_some());
    assert!(rt; first_byte(link).is_none());
    Ok(())
}

#[test]
fn a_peer_may_be_silent_for_a_while(rt: HostRuntime) -> Result<(), Fail> {
    let Some((mut door, port)) = open(&rt, 20_700) else {
        assert!(rt; false, "no port");
        return Ok(());
    };
    let link = link_to(&rt, port, 30);
    let (said, done) = thread::join(&rt, || first_byte(link), || speak_late(&rt, &mut door));
    assert!(rt; done.is_ok());
    assert!(rt; said == Some(b'l'));
    Ok(())
}

#[test]
fn a_port_that_is_taken_is_a_fault(rt: HostRuntime) -> Result<(), Fail> {
    let Some((_door, port)) = open(&rt, 20_300) else {
        assert!(rt; false, "no port");
        return Ok(());
    };
    assert!(rt; TcpDoor::new(&rt).listen(port).is_err());
    assert!(rt; TcpDoor::new(&rt).second(port).is_err());
    assert!(rt; TcpDoor::new(&rt).accept().is_err());
    Ok(())
}

fn is_send<T: Send>(_it: &T) {}

#[test]
fn the_clock_goes_on(rt: HostRuntime) {
    let mut clock = SystemClock::new(&rt);
    let before = clock.now();
    let after = clock.now();
    assert!(rt; 1_600_000_000 < before && before <= after && after <= LAST_SECOND);
    is_send(&clock);
    is_send(&TcpDoor::new(&rt));
}
