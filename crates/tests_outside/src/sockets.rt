// Connections over the loopback.
ghost use Rattle.std.specs.Prelude.{◌≡◌, IfOk, MatchOption, true, false};
ghost use Rattle.gateway_outside.specs.Stands.{IsFresh};

use gate_ports::{Accepted, Port};
use gateway_outside::{ListenFault, SocketConn, SocketPort, listen};
use gw_base::{read_all, write_all};
use std::alloc::Global;
use std::io::{self, Write};
use std::net::{Ipv4Addr, Net, Shutdown, SocketAddr, TcpListener, TcpStream};
use std::sync::Wait;
use std::test::Fail;
use std::thread::{self, join};
use std::time::{Clock, Duration};

// One port over a listener of its own, at a free number.
pub fn one_port<'r, R: Net<Listener = TcpListener, Stream = TcpStream> + Clock>(
    rt: &'r R,
    alloc: Global,
) -> Result<SocketPort<'r, R>, Fail>
    ensures { IfOk result IsFresh }
{
    let mut ports = listen(rt, alloc, 0, 1)?;
    let Some(port) = ports.pop() else {
        unreachable!()
    };
    Ok(port)
}

// Two ports over one listener, at a free number.
fn two_ports<'r, R: Net<Listener = TcpListener, Stream = TcpStream> + Clock>(
    rt: &'r R,
    alloc: Global,
) -> Result<(SocketPort<'r, R>, SocketPort<'r, R>), Fail>
    ensures { IfOk result (λ both. IsFresh both.0 × IsFresh both.1) }
{
    let mut ports = listen(rt, alloc, 0, 2)?;
    let (Some(second), Some(first)) = (ports.pop(), ports.pop()) else {
        unreachable!()
    };
    Ok((first, second))
}

// A peer that is connected to a port.
pub fn connect<'r, R: Net<Listener = TcpListener, Stream = TcpStream> + Clock>(
    rt: &R,
    port: &SocketPort<'r, R>,
) -> io::Result<TcpStream> {
    let number = port.number().unwrap_or(0);
    TcpStream::connect(rt, SocketAddr::from((Ipv4Addr::LOCALHOST, number)))
}

// How often a test looks for a connection that is to come.
const LOOKS: u32 = 1000;

// The next connection.
pub fn accept<'r, R: Clock + Wait>(port: &mut SocketPort<'r, R>) -> Option<SocketConn<'r, R>>
    requires { port.old.out ≡ false }
    ensures { MatchOption result (port.new.out ≡ false) (λ _. port.new.out ≡ true) }
{
    for _ in 0..LOOKS {
        match port.accept() {
            Ok(Accepted::Conn(conn)) => return Some(conn),
            Ok(Accepted::NotYet) => {}
            Ok(Accepted::Ended) | Err(_) => return None,
        }
    }
    None
}

// Reads a connection to its end, and writes the same on it.
fn echo<'r, R: Clock + Wait>(alloc: Global, conn: &mut SocketConn<'r, R>) -> bool {
    let Ok(read) = read_all(alloc, conn, 64) else {
        return false;
    };
    write_all(conn, &read).is_ok()
}

#[test]
fn bytes_come_and_go_on_a_connection(rt: HostRuntime) -> Result<(), Fail> {
    let alloc = rt.alloc();
    let mut port = one_port(&rt, alloc)?;
    let mut peer = connect(&rt, &port)?;
    peer.write_all(b"GET /ann HTTP/1.1\r\n")?;
    peer.shutdown(Shutdown::Write)?;
    let Some(mut conn) = accept(&mut port) else {
        return Err(Fail::new("a connection comes"));
    };
    assert!(rt; echo(alloc, &mut conn), "what was read is written");
    port.done(conn);
    assert_eq!(rt;
        io::read_to_string(alloc, peer)?.as_str(),
        "GET /ann HTTP/1.1\r\n"
    );
    Ok(())
}

#[test]
fn a_port_that_was_shut_ends_the_others(rt: HostRuntime) -> Result<(), Fail> {
    let (mut first, mut second) = two_ports(&rt, rt.alloc())?;
    let _peer = connect(&rt, &first)?;
    first.shut();
    assert!(rt; matches!(second.accept(), Ok(Accepted::Ended)));
    assert!(rt; matches!(first.accept(), Ok(Accepted::Ended)));
    Ok(())
}

#[test]
fn a_port_that_waits_is_woken_where_another_is_shut(rt: HostRuntime) -> Result<(), Fail> {
    let (mut first, mut second) = two_ports(&rt, rt.alloc())?;
    let (has_ended, _) = join(
        &rt,
        || matches!(first.accept(), Ok(Accepted::Ended)),
        || {
            thread::sleep(&rt, Duration::from_millis(50));
            second.shut();
        },
    );
    assert!(rt; has_ended);
    Ok(())
}

#[test]
fn a_port_that_another_listener_has_is_refused(rt: HostRuntime) -> Result<(), Fail> {
    let port = one_port(&rt, rt.alloc())?;
    let number = port.number().unwrap_or(0);
    assert!(rt; matches!(listen(&rt, rt.alloc(), number, 1), Err(ListenFault::Port)));
    Ok(())
}
