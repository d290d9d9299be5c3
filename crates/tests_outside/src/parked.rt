// Connections that are parked between two messages.
ghost use Rattle.std.specs.Prelude.{◌≡◌, ◌<◌, false, length, IfOk};

use crate::sockets::{accept, connect, one_port};
use gate_ports::{Conn, Port};
use gateway_outside::{SocketConn, SocketPort};
use gw_base::Source;
use std::io::{self, Write};
use std::net::TcpStream;
use std::sync::Wait;
use std::test::Fail;
use std::time::Clock;

// What the next read answers, where a message begins.
fn first_read<'r, R: Clock + Wait>(conn: &mut SocketConn<'r, R>, buf: &mut [u8]) -> Option<usize>
    requires { 0 < length buf.old }
{
    conn.begin_message(&[]);
    conn.read(buf).ok()
}

// Whether the connection that is parked is lent where its peer speaks, reads what that sent, and is parked again.
fn is_lent_again<'r, R: Clock + Wait>(
    port: &mut SocketPort<'r, R>,
    peer: &mut TcpStream,
) -> io::Result<bool>
    requires { port.old.out ≡ false }
    ensures { IfOk result (λ _. port.new.out ≡ false) }
{
    peer.write_all(b"next")?;
    let Some(mut conn) = accept(port) else {
        return Ok(false);
    };
    let mut buf = [0; 8];
    let reads = (
        first_read(&mut conn, &mut buf),
        first_read(&mut conn, &mut buf),
    );
    port.done(conn);
    Ok(reads == (Some(4), Some(0)))
}

#[test]
fn a_silent_connection_is_lent_again_where_its_peer_speaks(rt: HostRuntime) -> Result<(), Fail> {
    let mut port = one_port(&rt, rt.alloc())?;
    let mut peer = connect(&rt, &port)?;
    let Some(mut silent) = accept(&mut port) else {
        return Err(Fail::new("a connection comes"));
    };
    assert_eq!(rt; first_read(&mut silent, &mut [0; 8]), Some(0));
    port.done(silent);
    assert!(rt; is_lent_again(&mut port, &mut peer)?);
    assert!(rt; is_lent_again(&mut port, &mut peer)?);
    Ok(())
}

#[test]
fn half_a_message_is_not_parked(rt: HostRuntime) -> Result<(), Fail> {
    let mut port = one_port(&rt, rt.alloc())?;
    let mut peer = connect(&rt, &port)?;
    peer.write_all(b"half")?;
    let Some(mut conn) = accept(&mut port) else {
        return Err(Fail::new("a connection comes"));
    };
    let mut buf = [0; 2];
    assert_eq!(rt; first_read(&mut conn, &mut buf), Some(2));
    assert_eq!(rt; conn.read(&mut buf), Ok(2));
    port.done(conn);
    Ok(())
}
